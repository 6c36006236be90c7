// One step: a record, or the end of a body. `Stepped` is what each part of a step promises, of the walk and the slice before and after: a type holds no fact of two states.
ghost use Rattle.std.specs.Prelude.{◌≡◌, false};
ghost use Rattle.action_reader.specs.State.{is_over};
ghost use Rattle.action_reader.specs.View.{Stands};
ghost use Rattle.action_reader.specs.Walked.{Stepped, Inside, Next};

use crate::targets::target_of;
use crate::walk::{MAX_ACTIONS, MAX_VALUES, Walk};
use record_reader::{Head, Kind, head_at};

impl Walk<'_> {
    // A pool is no action: it is the first record, and no other.
    fn take(&mut self, list: &mut [u32], h: Head) -> Option<()>
        requires { Next list.old self.old h }
        ensures { Stepped self.old self.new result list.new }
    {
        match h.kind {
            Kind::Pool { .. } => return None,
            Kind::Plain { code, first } => self.single(list, code, first, h.next),
            Kind::Branch { code, offset } => {
                let target = target_of(self.at, offset)?;
                self.single(list, code, target, h.next);
            }
            Kind::Push { values } => {
                if MAX_VALUES - self.values < values {
                    return None;
                }
                self.push(list, values, h.next);
            }
            Kind::Function { size } => {
                if self.span.end - h.next < size {
                    return None;
                }
                self.open_body(size, h.next);
            }
        }
        Some(())
    }

    // The record at which reading stands.
    fn next_record(&mut self, list: &mut [u32]) -> Option<()>
        requires stands { Stands self.old.bytes.now list.old self.old }
        requires inside { Inside self.old }
        ensures { Stepped self.old self.new result list.new }
    {
        let h = head_at(&self.bytes[..self.span.end], self.at, self.pool)?;
        if !h.fits {
            return None;
        }
        if MAX_ACTIONS <= self.actions {
            return None;
        }
        self.take(list, h)
    }

    pub fn step(&mut self, list: &mut [u32]) -> Option<()>
        requires stands { Stands self.old.bytes.now list.old self.old }
        requires more { is_over self.old ≡ false }
        ensures { Stepped self.old self.new result list.new }
    {
        if !self.outer.is_empty() {
            if self.at == self.span.end {
                return self.close(list);
            }
        }
        self.next_record(list)
    }
}
