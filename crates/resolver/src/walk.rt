// One list's records in order: where they begin, where its labels are marked, and the offsets of its branches.
ghost use Rattle.std.specs.Prelude.{◌≡◌, true, cond, List, ℕ, ◌+◌, ◌-◌, ◌*◌, ◌≤◌, ◌<◌, Some, ltb, eqb, length, get_or, set};
ghost use Rattle.list_slice.specs.Words.{entry_at};
ghost use Rattle.resolver.specs.Walk.{count_of, start_of, end_of, walked};
ghost use Rattle.resolver.specs.Sizes.{all_clear};
ghost use Rattle.resolver.specs.Texts.{Known};
ghost use Rattle.resolver.specs.Steps.{Standing, frame, stepped, Room, bodies, stepped_at, Walked, adds, placed, Placed, marked_at};

use crate::lists::Lists;
use pcode::{ByteOffset, Label, Position};
use slice_words::{Entry, code, entry_at};

// The most bytes of a record's data, of a record with its code and length, and of a body: the format counts data and bodies in 16 bits.
const MOST_DATA: usize = 65535;

const MOST_RECORD: u32 = 65538;

const MOST_BODY: u32 = 65535;

// What has been walked of a list: how many actions, their bytes, and where the last one begins.
#[derive(Clone, Copy, Default)]
pub struct Walk {
    pub actions: u32,
    pub bytes: u32,
    pub last: u32,
}

// Codes stay numbers, as the lent slice has them: this and `actions_added` ask for their order, and `with` for both.
fn frame(code: u32) -> u32
    ensures { result ≡ frame code }
{
    if code < code::LONG { 1 } else { 3 }
}

impl Walk {
    // With one entry more: none if its record or its body is too long. A value after the first joins the record before it; any other entry but a mark begins one.
    fn with(self, code: u32, size: usize, body: u32) -> Option<Walk>
        requires { Room self }
        ensures { result ≡ stepped self code size body }
    {
        if code == code::MARK {
            return Some(self);
        }
        if MOST_DATA < size {
            return None;
        }
        let n = size as u32;
        if code::LATER_VALUE <= code {
            let bytes = self.bytes + n;
            if MOST_RECORD < bytes - self.last {
                return None;
            }
            return Some(Walk { bytes, ..self });
        }
        if MOST_BODY < body {
            return None;
        }
        Some(Walk {
            actions: self.actions + 1,
            bytes: self.bytes + (frame(code) + n + body),
            last: self.bytes,
        })
    }
}

// Word i of a table, and 0 past its end: `i` is a label, a position or a list's number. The tables are arrays of several lengths, which their types say, so that
// no length goes beside them.
pub fn word_of(table: &[u32], i: u32) -> u32
    ensures { result ≡ get_or table.now i 0 }
{
    table.get(i as usize).copied().unwrap_or(0)
}

// How many actions an entry adds to its list: a mark adds none, and a later value joins the Push before it. The builder's function also asks for the entry
// before: in an accepted list, as here, a later value has a value before it.
pub fn actions_added(code: u32) -> u32
    ensures { result ≡ adds code }
{
    u32::from(code != code::MARK && code < code::LATER_VALUE)
}

// Where an action begins: the one place that keeps an offset under a position. Each table asks for its own bound of a position, which alone may be any number.
fn set_start(starts: &mut [u32; 4097], p: Position, o: ByteOffset)
    requires { p.0 ≤ 4096 }
    ensures { starts.new ≡ set starts.old p.0 o.0 }
{
    starts[p.0 as usize] = o.0;
}

// The builder's function writes the position plus 1 into the slice, and keeps the first mark; this table is the writer's own, and the last mark counts.
fn set_place(places: &mut [u32; 1024], l: Label, p: Position)
    ensures { places.new ≡ placed places.old l.0 p.0 }
{
    if (l.0 as usize) < places.len() {
        places[l.0 as usize] = p.0;
    }
}

// The label that an entry marks, if it is a mark: the two parts of the builder's function, over a table of its own.
fn mark_entry(entry: Entry, p: Position, places: &mut [u32; 1024])
    ensures { places.new ≡ cond (eqb entry.code 257) (placed places.old entry.first p.0) places.old }
{
    if entry.code == code::MARK {
        set_place(places, Label(entry.first), p);
    }
}

// The bytes of the body that an entry brings.
fn body_of(entry: Entry, sizes: &[u32; 1024]) -> u32
    ensures { result ≡ cond (eqb entry.code 256) (get_or sizes.now entry.first 0) 0 }
{
    if entry.code == code::FUNCTION {
        word_of(sizes, entry.first)
    } else {
        0
    }
}

impl Lists<'_> {
    // The entry is each loop's own count, here and where its data or its branch is asked for: nothing goes with it.
    fn walk_entry(&self, e: usize, sizes: &[u32; 1024], k: Walk) -> Option<Walk>
        requires known { Known self.now.script.bytes.now self.now.list.now e }
        requires room { Room k }
        ensures { result ≡ stepped_at self.now.script.bytes.now self.now.list.now sizes.now k e }
    {
        let entry = entry_at(self.list, e);
        k.with(entry.code, self.entry_data(e).bytes, body_of(entry, sizes))
    }

    // Four loops over a list's entries, with `resolve_list`: what each keeps and when it stops differs. This one keeps sizes and stops at a record that is too
    // long, the next a flag, then a position, and `resolve_list` the two.
    // The records of a list and where each begins: none if one is too long.
    pub(crate) fn walk_list(
        &self,
        j: usize,
        sizes: &[u32; 1024],
        starts: &mut [u32; 4097],
    ) -> Option<Walk>
        requires { j < self.now.count }
        ensures { let w = self.now.list.now in
            Walked (bodies sizes.now) (walked self.now.script.bytes.now w (start_of w j) (end_of w j - start_of w j)) result starts.new }
    {
        let mut k = Walk::default();
        for e in (self.start(j)..self.end(j)).rev() {
            set_start(starts, Position(k.actions), ByteOffset(k.bytes));
            k = self.walk_entry(e, sizes, k)?;
        }
        set_start(starts, Position(k.actions), ByteOffset(k.bytes));
        Some(k)
    }

    // No string of a list has a zero byte. A loop, and no `all`, whose closure would have to require that its entry is known: the range says it at each turn.
    pub(crate) fn clear_list(&self, j: usize) -> bool
        requires { j < self.now.count }
        ensures { let w = self.now.list.now in
            result ≡ all_clear (walked self.now.script.bytes.now w (start_of w j) (end_of w j - start_of w j)) }
    {
        let mut clear = true;
        for e in (self.start(j)..self.end(j)).rev() {
            clear = self.entry_data(e).clear & clear;
        }
        clear
    }

    // The positions of the labels that a list marks, in a table of its own: the builder's `label_positions` writes into the lent slice.
    pub(crate) fn mark_list(&self, j: usize, places: &mut [u32; 1024])
        requires { j < self.now.count }
        ensures { let w = self.now.list.now in (F : List ℕ) → Standing F w (start_of w j) (end_of w j) →
            Placed (walked F w (start_of w j) (end_of w j - start_of w j)) places.new }
    {
        let mut position = 0;
        for e in (self.start(j)..self.end(j)).rev() {
            let entry = entry_at(self.list, e);
            mark_entry(entry, Position(position), places);
            position += actions_added(entry.code);
        }
    }
}
