// Bytes, numbers and strings.
ghost use Rattle.std.specs.Prelude.{[], ◌∷◌};
ghost use Rattle.action_format.specs.Bytes.{word, zero_ended};
ghost use Rattle.slice_words.specs.References.{text_at};
ghost use Rattle.byte_writer.specs.Writer.{HasRoom, Writes};

use crate::Writer;
use slice_words::text;

impl Writer<'_> {
    pub fn byte(&mut self, b: u8)
        requires { HasRoom self.old (b ∷ []) }
        ensures { Writes self.old (b ∷ []) self.new }
    {
        self.output[self.at] = b;
        self.at += 1;
    }

    // A number in k bytes, least significant first. Each method has one argument beside `self`, of another meaning in each, so that there is nothing to put together.
    // Not `to_le_bytes`: k may be more than the bytes of a u32, and a caller is asked no more than the room for them.
    pub fn word(&mut self, k: usize, n: u32)
        requires { HasRoom self.old (word k n) }
        ensures { Writes self.old (word k n) self.new }
    {
        let end = self.at + k;
        let mut rest = n;
        for byte in &mut self.output[self.at..end] {
            *byte = (rest % 256) as u8;
            rest /= 256;
        }
        self.at = end;
    }

    // Byte by byte: with `copy_from_slice` the archive for C would need `memmove` from outside too, beside `memcpy` and `memset`.
    fn part(&mut self, bytes: &[u8])
        requires { HasRoom self.old bytes.now }
        ensures { Writes self.old bytes.now self.new }
    {
        let end = self.at + bytes.len();
        for (i, byte) in self.output[self.at..end].iter_mut().enumerate() {
            *byte = bytes[i];
        }
        self.at = end;
    }

    // A string of the file with its zero. The reference is one argument, of another meaning than in other methods, so that there is nothing to put together.
    pub fn text(&mut self, reference: u32)
        requires { HasRoom self.old (zero_ended (text_at self.old.script.bytes.now self.old.script.layout reference)) }
        ensures { Writes self.old (zero_ended (text_at self.old.script.bytes.now self.old.script.layout reference)) self.new }
    {
        let script = self.script;
        self.part(text(&script, reference));
        self.byte(0);
    }
}
