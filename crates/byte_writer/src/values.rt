// Pushed values.
ghost use Rattle.std.specs.Prelude.{leb};
ghost use Rattle.action_format.specs.Bytes.{constant_bytes};
ghost use Rattle.byte_writer.specs.Writer.{HasRoom, Writes};
ghost use Rattle.byte_writer.specs.Data.{operand_data, value_data};

use crate::Writer;
use slice_words::{Entry, value};

impl Writer<'_> {
    // What follows the type of a value. An arm writes what its type has: a table of the calls would need the same line for each type.
    // The type is a number, the byte of the format that has just been written:
    // an enum of them would be turned into a byte, or made of one, at each of its uses (`slice_words::value`).
    #[tactic(auto, using(crate::proofs::Writes::writing), unfolding(crate::specs::Data::operand_data))]
    fn operand(&mut self, kind: u8, entry: Entry)
        requires { let s = self.old.script in HasRoom self.old (operand_data s.bytes.now s.layout kind entry.first entry.second) }
        ensures { let s = self.old.script in Writes self.old (operand_data s.bytes.now s.layout kind entry.first entry.second) self.new }
    {
        match kind {
            value::STRING => self.text(entry.first),
            value::REGISTER => self.word(1, entry.first),
            value::BOOLEAN => self.word(1, u32::from(entry.first != 0)),
            value::FLOAT => {
                self.word(4, entry.first);
                self.word(4, entry.second);
            }
            value::INTEGER => self.word(4, entry.first),
            _ => {}
        }
    }

    // A constant with its type. It writes, and converts nothing that a From could.
    #[tactic(auto, using(crate::proofs::Writes::writing))]
    fn constant(&mut self, index: u32)
        requires { HasRoom self.old (constant_bytes index (leb 256 index)) }
        ensures { Writes self.old (constant_bytes index (leb 256 index)) self.new }
    {
        if index < 256 {
            self.byte(value::CONSTANT);
            self.byte(index as u8);
        } else {
            self.byte(value::LONG_CONSTANT);
            self.word(2, index);
        }
    }

    // A value with its type, by the words of its entry. The type is a number, the byte that is written first:
    // an enum of them would be turned into a byte, or made of one, at each of its uses (`slice_words::value`).
    #[tactic(auto, using(crate::proofs::Writes::writing), unfolding(crate::specs::Data::value_data))]
    pub fn value(&mut self, kind: u8, entry: Entry)
        requires { let s = self.old.script in HasRoom self.old (value_data s.bytes.now s.layout kind entry.first entry.second) }
        ensures { let s = self.old.script in Writes self.old (value_data s.bytes.now s.layout kind entry.first entry.second) self.new }
    {
        if kind == value::CONSTANT {
            self.constant(entry.first);
        } else {
            self.byte(kind);
            self.operand(kind, entry);
        }
    }
}
