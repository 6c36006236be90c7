// Records: code, length of the data, data. The data is written first, so that its length is known.
ghost use Rattle.std.specs.Prelude.{◌≡◌, ◌+◌, ◌≤◌, length};
ghost use Rattle.byte_writer.specs.Writer.{HasRoom, Writes, Frames};
ghost use Rattle.byte_writer.specs.Data.{pool_at01, pool_data, action_data, action_bytes};

use crate::Writer;
use slice_words::{Entry, POOL_AT, code};

impl Writer<'_> {
    // Leaves room for a record's code and length. Gives where the record begins.
    pub fn begin(&mut self) -> usize
        requires { self.old.at + 3 ≤ length self.old.output.now }
        ensures begun { result ≡ self.old.at }
        ensures room_left { self.new ≡ record self.old { at = self.old.at + 3 } }
    {
        let begun = self.at;
        self.at += 3;
        begun
    }

    // The code and the length of a record that began there, and whose data ends here. The code is the record's first byte: it is written, and not asked.
    pub fn frame(&mut self, begun: usize, code: u32)
        requires begun_bound { begun + 3 ≤ self.old.at }
        requires in_bounds { self.old.at ≤ length self.old.output.now }
        requires data_bound { self.old.at ≤ begun + 65538 }
        ensures { Frames self.old begun code self.new }
    {
        let end = self.at;
        self.at = begun;
        self.word(1, code);
        self.word(2, (end - (begun + 3)) as u32);
        self.at = end;
    }

    // The pool's n strings, whose references are the pool words of the list slice. The slice is no field of the writer, whose headers, values and strings
    // need none of it: a pool alone does.
    fn pool(&mut self, list: &[u32], n: u32)
        requires n_in_bounds { pool_at01 + n ≤ length list.now }
        requires room { let s = self.old.script in HasRoom self.old (pool_data s.bytes.now s.layout list.now n) }
        ensures { let s = self.old.script in Writes self.old (pool_data s.bytes.now s.layout list.now n) self.new }
    {
        self.word(2, n);
        for reference in &list[POOL_AT..POOL_AT + n as usize] {
            self.text(*reference);
        }
    }

    // The data of an action that neither pushes nor has a body. An arm writes what its code has: a table of the calls would need
    // the same line for each code.
    #[tactic(auto, using(crate::proofs::Writes::writing), unfolding(crate::specs::Data::action_data))]
    fn data(&mut self, list: &[u32], entry: Entry, offset: u32)
        requires first_in_bounds { entry.code ≡ 136 → pool_at01 + entry.first ≤ length list.now }
        requires room { let s = self.old.script in
            HasRoom self.old (action_data s.bytes.now s.layout list.now entry.code entry.first offset) }
        ensures { let s = self.old.script in
            Writes self.old (action_data s.bytes.now s.layout list.now entry.code entry.first offset) self.new }
    {
        match entry.code {
            code::CONSTANT_POOL => self.pool(list, entry.first),
            code::GOTO_LABEL => self.text(entry.first),
            code::STORE_REGISTER => self.word(1, entry.first),
            code::GOTO_FRAME_2 => self.word(1, u32::from(entry.first != 0)),
            code::GOTO_FRAME => self.word(2, entry.first),
            code::JUMP | code::IF => self.word(2, offset),
            _ => {}
        }
    }

    // The record of such an action. A branch's data is its offset.
    #[tactic(auto, using(crate::proofs::Writes::writing), unfolding(crate::specs::Data::action_bytes))]
    pub fn action(&mut self, list: &[u32], entry: Entry, offset: u32)
        requires first_in_bounds { entry.code ≡ 136 → pool_at01 + entry.first ≤ length list.now }
        requires short { let s = self.old.script in
            length (action_data s.bytes.now s.layout list.now entry.code entry.first offset) ≤ 65535 }
        requires room { let s = self.old.script in
            HasRoom self.old (action_bytes s.bytes.now s.layout list.now entry.code entry.first offset) }
        ensures { let s = self.old.script in
            Writes self.old (action_bytes s.bytes.now s.layout list.now entry.code entry.first offset) self.new }
    {
        if entry.code < code::LONG {
            self.word(1, entry.code);
        } else {
            let begun = self.begin();
            self.data(list, entry, offset);
            self.frame(begun, entry.code);
        }
    }
}
