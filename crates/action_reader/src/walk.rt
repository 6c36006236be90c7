// Where reading is, and the steps that one record makes.
ghost use Rattle.std.specs.Prelude.{◌≡◌, ◌+◌, ◌-◌, ◌<◌, ◌≤◌, length};
ghost use Rattle.builder.specs.Entries.{put3};
ghost use Rattle.action_reader.specs.State.{advanced, single_after, open_after, Roomy, depth, is_over};

use arrayvec::ArrayVec;
use builder::entries::put;

// The most actions and pushed values of the lists, as counts of what the walk holds.
pub const MAX_ACTIONS: usize = slice_words::MAX_ACTIONS as usize;

pub const MAX_VALUES: usize = slice_words::MAX_VALUES as usize;

// Where a list ends in the bytes and among the entries, and where its positions begin in the table.
#[derive(Clone, Copy, Default)]
pub struct Span {
    pub end: usize,
    pub base: usize,
    pub first: usize,
}

// The present list is read from `at` on. Its entries stand from entry `top` on, its positions in the table behind those of the lists around. Finished lists stand below entry `low`: the
// entries are one slice, which the caller lends, so its areas are positions. `outer` has the spans of the lists around. The list slice is no field: what a step makes of the walk is one
// equation (`advanced`, `single_after`), in which the words would stand too. No ghost field says what its words stand for: after a refusal they stand for nothing.
#[derive(Drop)]
pub struct Walk<'a> {
    pub bytes: &'a [u8],
    pub at: usize,
    pub span: Span,
    pub actions: usize,
    pub values: usize,
    pub low: usize,
    pub top: usize,
    pub lists: usize,
    pub pool: usize,
    pub table: ArrayVec<u32, MAX_ACTIONS>,
    pub outer: ArrayVec<Span, MAX_ACTIONS>,
}

// What moves on needs room for one more action (`Roomy`). It is no fact of every walk: one that is full stands, and is refused at the next record.
impl Walk<'_> {
    // Whether only the top list's end is left: End, as the last byte.
    pub fn is_over(&self) -> bool
        ensures { result ≡ is_over self.now }
    {
        self.outer.is_empty() && matches!(self.bytes.get(self.at..), Some([0]))
    }

    // An action's record, which ends before `next`: its position joins the table.
    pub fn advance(&mut self, next: usize)
        requires { Roomy self.old }
        ensures { self.new ≡ advanced self.old next }
    {
        self.table.push(self.at as u32);
        self.at = next;
        self.actions += 1;
    }

    // An action of one entry, whose record ends before `next`. Its code is a word of the list slice, which programs in other languages read, and so a number.
    pub fn single(&mut self, list: &mut [u32], code: u32, first: usize, next: usize)
        requires in_bounds { 16384 ≤ length list.old }
        requires top_nonzero { 0 < self.old.top }
        requires top_bound { self.old.top ≤ 4096 }
        requires roomy { Roomy self.old }
        requires first_bound { first < 4294967296 }
        ensures value { self.new ≡ single_after self.old next }
        ensures list_after { list.new ≡ put3 list.old (self.old.top - 1) code first 0 }
    {
        self.top -= 1;
        put(list, self.top, code, first as u32, 0);
        self.advance(next);
    }

    // A function's body is the present list from now on.
    pub fn open_body(&mut self, size: usize, next: usize)
        requires depth_bound { depth self.old < 1024 }
        requires roomy { Roomy self.old }
        requires size_bound { next + size ≤ length self.old.bytes.now }
        ensures { self.new ≡ open_after self.old size next }
    {
        self.advance(next);
        let around = self.span;
        self.span = Span {
            end: next + size,
            base: self.top,
            first: self.table.len(),
        };
        self.outer.push(around);
    }
}
