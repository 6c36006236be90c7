// The end of a list: its branches get their places, and it moves down to the finished lists. That a walk is `Ready` speaks of the slice as well, which is no field, so each step
// requires it.
ghost use Rattle.std.specs.Prelude.{◌≡◌, List, ℕ, ◌+◌, ◌*◌, ◌<◌, ◌≤◌, length, get_or, IfSome};
ghost use Rattle.list_slice.specs.Entry.{Entry};
ghost use Rattle.builder.specs.Entries.{put3};
ghost use Rattle.action_reader.specs.State.{depth};
ghost use Rattle.action_reader.specs.Lists.{Ready, Given, SettledAs, EndedAs, ClosedAs};

use crate::places::place_of;
use crate::walk::Walk;
use builder::entries::put;
use slice_words::{ENDS_AT, code, entry_at};

// Entry `from` moves to `to`, with another first word.
fn move_as(list: &mut [u32], to: usize, from: usize, first: u32)
    requires from_in_bounds { from * 3 + 2 < length list.old }
    requires to_le_from { to ≤ from }
    ensures { list.new ≡ put3 (put3 list.old from 0 0 0) to (get_or list.old (from * 3) 0) first (get_or list.old (from * 3 + 2) 0) }
{
    let entry = entry_at(list, from);
    put(list, from, 0, 0, 0);
    put(list, to, entry.code, first, entry.second);
}

impl Walk<'_> {
    // Settles the branches of the present list and moves it to the finished ones. The entry below which it ends, or `None` if a branch leads to no place. The builder moves a list as
    // it stands; here each entry gets its first word as it moves, and moving afterwards would go over the entries twice.
    pub fn settle_list(&self, list: &mut [u32]) -> Option<usize>
        requires { Ready list.old self.now }
        ensures low_bound { IfSome result (λ n. n ≤ 4096) }
        ensures settled_as { (low xs up : List Entry) (ends : List ℕ) → Given list.old self.now low xs up ends → SettledAs self.now low xs up ends result list.new }
    {
        let positions = &self.table[self.span.first..];
        // The entry after the last that moved is the answer, so `low` is counted and not zipped.
        let mut low = self.low;
        for top in self.top..self.span.base {
            let entry = entry_at(list, top);
            let first = place_of(positions, self.at, entry.code, entry.first)?;
            move_as(list, low, top, first);
            low += 1;
        }
        Some(low)
    }

    // The present list joins the finished ones, and its end the table of ends.
    pub fn end_list(&self, list: &mut [u32]) -> Option<usize>
        requires { Ready list.old self.now }
        ensures { (low xs up : List Entry) (ends : List ℕ) → Given list.old self.now low xs up ends → length ends ≡ self.now.lists →
            EndedAs self.now low xs up ends result list.new }
    {
        let low = self.settle_list(list)?;
        list[ENDS_AT + self.lists] = low as u32;
        Some(low)
    }

    // A body has ended: its function is an action of the list around it. The builder's end of a function writes the same two words, and then sets another state.
    pub fn close(&mut self, list: &mut [u32]) -> Option<()>
        requires ready { Ready list.old self.old }
        requires base_nonzero { 0 < self.old.span.base }
        requires first_nonzero { 0 < self.old.span.first }
        requires depth_nonzero { 0 < depth self.old }
        ensures { (low xs up : List Entry) (ends : List ℕ) → Given list.old self.old low xs up ends → length ends ≡ self.old.lists →
            ClosedAs low xs up ends self.old self.new result list.new }
    {
        self.low = self.end_list(list)?;
        self.lists += 1;
        self.top = self.span.base - 1;
        let position = self.table[self.span.first - 1];
        self.table.truncate(self.span.first);
        put(list, self.top, code::FUNCTION, self.lists as u32, position);
        self.span = self.outer.pop()?;
        Some(())
    }
}
