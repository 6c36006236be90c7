// The entries of a Push: one for each value.
ghost use Rattle.std.specs.Prelude.{◌≡◌, List, ◌+◌, ◌<◌, ◌≤◌, length, take};
ghost use Rattle.record_reader.proofs.Laws.{ValuesAt};
ghost use Rattle.pcode.specs.Pcode.{Value};
ghost use Rattle.action_reader.specs.State.{Roomy, push_after};
ghost use Rattle.action_reader.specs.Pushes.{Values, Pushed};

use crate::walk::Walk;
use builder::entries::put;
use record_reader::values::value;
use slice_words::code::{FIRST_VALUE, LATER_VALUE};

// Writes the entries of the values from byte `from` on below entry `above`, and says where the last one stands. Only a value that is read says where the next one begins, and the
// entries go down as the bytes go up: an iterator of values would keep `i` and leave `top` and `base` as they are.
fn value_entries(b: &[u8], list: &mut [u32], pool: usize, from: usize, above: usize) -> usize
    requires in_bounds { 16384 ≤ length list.old }
    requires above_bound { above ≤ 4096 }
    requires near { length b.now < 4294967295 }
    requires values { Values b.now from above }
    ensures { (vs : List Value) → Pushed b.now from vs above list.old result list.new }
{
    let mut i = from;
    let mut top = above;
    let mut base = FIRST_VALUE;
    while let Some(v) = value(b, i, pool) {
        top -= 1;
        put(
            list,
            top,
            base + v.value.code,
            v.value.first as u32,
            v.value.second,
        );
        base = LATER_VALUE;
        i = v.next;
    }
    top
}

impl Walk<'_> {
    // A Push of so many values, whose record ends before `next`.
    pub fn push(&mut self, list: &mut [u32], values: usize, next: usize)
        requires in_bounds { 16384 ≤ length list.old }
        requires top_bound { self.old.top ≤ 4096 }
        requires next_bound { next < 4294967295 }
        requires inside { next ≤ length self.old.bytes.now }
        requires values { Values (take next self.old.bytes.now) (self.old.at + 3) self.old.top }
        requires roomy { Roomy self.old }
        requires values_bound { self.old.values + values ≤ 2048 }
        ensures value { (vs : List Value) → ValuesAt (take next self.old.bytes.now) (self.old.at + 3) vs → length vs ≡ values → self.new ≡ push_after self.old values next }
        ensures pushed { (vs : List Value) → Pushed (take next self.old.bytes.now) (self.old.at + 3) vs self.old.top list.old self.new.top list.new }
    {
        self.top = value_entries(&self.bytes[..next], list, self.pool, self.at + 3, self.top);
        self.values += values;
        self.advance(next);
    }
}
