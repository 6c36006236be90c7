// The offsets of a list's branches. Only here does a label become a position, and a position a byte offset.
ghost use Rattle.std.specs.Prelude.{◌≡◌, List, ℕ, ◌-◌, ◌≤◌, ◌<◌, length, get_or};
ghost use Rattle.action_format.specs.Offsets.{offset, reaches};
ghost use Rattle.resolver.specs.Walk.{start_of, end_of, walked};
ghost use Rattle.resolver.specs.Steps.{Standing, is_branch, offsets_at, near_at, all_near_in, ReadyList, Offsets};

use crate::lists::Lists;
use crate::passes::Places;
use crate::walk::{actions_added, word_of};
use pcode::{ByteOffset, Label, Position};
use slice_words::{code, entry_at};

impl Places {
    // Two tables, of which each takes one type of number and gives another: what they share is `word_of`.
    fn place_of(&self, l: Label) -> Position
        ensures { result.0 ≡ get_or self.now.labels l.0 0 }
    {
        Position(word_of(&self.labels, l.0))
    }

    fn start_of(&self, p: Position) -> ByteOffset
        ensures { result.0 ≡ get_or self.now.starts p.0 0 }
    {
        ByteOffset(word_of(&self.starts, p.0))
    }
}

// From the byte after the branch's record, in 16 bits of two's complement. By hand and not by `wrapping_sub`: of a target more than 65,536
// bytes back the offset is 0 by its definition, where that would give another number.
fn offset_to(after: ByteOffset, target: ByteOffset) -> u32
    ensures { result ≡ offset after.0 target.0 }
{
    let distance = (65536 + u64::from(target.0)).saturating_sub(u64::from(after.0));
    (distance % 65536) as u32
}

fn in_reach(after: ByteOffset, target: ByteOffset) -> bool
    ensures { result ≡ reaches after.0 target.0 }
{
    let a = u64::from(after.0);
    let t = u64::from(target.0);
    (a <= t + 32768) & (t <= a + 32767)
}

// Of the numbers that entries of the lent slice have as codes, only two are asked for.
fn is_branch_code(code: u32) -> bool
    ensures { result ≡ is_branch code }
{
    matches!(code, code::JUMP | code::IF)
}

impl Lists<'_> {
    // The offset of entry e, which comes after so many actions, if it is a branch; and whether it reaches its place. The walks name an entry by its place and not by
    // its words, since `Known` is said of the place, and the offset is kept by it.
    #[tactic(auto, unfolding(list_slice::specs::Words::entry_at))]
    fn resolve_entry(&self, e: usize, p: u32, places: &Places, offsets: &mut [u32; 4096]) -> bool
        requires e_bound { e < 4096 }
        requires p_bound { p ≤ 4096 }
        ensures offsets_after { offsets.new ≡ offsets_at self.now.list.now places.now.starts places.now.labels offsets.old e p }
        ensures value { result ≡ near_at self.now.list.now places.now.starts places.now.labels e p }
    {
        let entry = entry_at(self.list, e);
        if !is_branch_code(entry.code) {
            return true;
        }
        let place = places.place_of(Label(entry.first));
        let target = places.start_of(place);
        let after = places.start_of(Position(p + 1));
        offsets[e] = offset_to(after, target);
        in_reach(after, target)
    }

    // The offsets of a list's branches, and whether each reaches its place.
    pub(crate) fn resolve_list(&self, j: usize, places: &Places, offsets: &mut [u32; 4096]) -> bool
        requires { j < self.now.count }
        ensures { let w = self.now.list.now in let from = start_of w j in let end = end_of w j in
            (F ss : List ℕ) (f : ℕ → ℕ) → Standing F w from end → ReadyList F w from end ss f places.now.starts places.now.labels →
            (result ≡ all_near_in ss f (walked F w from (end - from))) × Offsets F w from end ss f offsets.old offsets.new }
    {
        let mut position = 0;
        let mut near = true;
        for e in (self.start(j)..self.end(j)).rev() {
            near = self.resolve_entry(e, position, places, offsets) & near;
            position += actions_added(entry_at(self.list, e).code);
        }
        near
    }
}
