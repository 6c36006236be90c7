#![tactic(auto)]

// Reads one record of action bytes, or one pushed value, at a position of lent bytes.
ghost use Rattle.std.specs.Prelude.{◌≡◌, ◌+◌, ◌<◌, ◌^◌};
ghost use Rattle.record_reader.specs.Heads.{head_at};
ghost use Rattle.record_reader.specs.Shape.{is_short, data_reader};
ghost use Rattle.record_reader.specs.Steps.{whole, content_of};

use crate::functions::{function, function2};
use crate::parts::{byte, word};
use crate::plain::{branch, call, frame, label, play, pool_record, register};
use crate::push::push;

pub mod codes;
mod functions;
mod parts;
mod plain;
mod push;
pub mod values;

// What a record is: an action whose entry is code, first, 0; or the counts and numbers that its entries are made of. Its code is the word of the entry.
#[derive(Clone, Copy)]
pub enum Kind {
    Plain { code: u32, first: usize },
    Pool { strings: usize },
    Push { values: usize },
    Branch { code: u32, offset: usize },
    Function { size: usize },
}

// A record ends before `next`; `fits` is false if it breaks a rule on lists by itself. It then has a kind and an end all the same, as a value has its words, so an Option in place
// of the mark would lose what `head_at` and `value` promise.
#[derive(Clone, Copy)]
pub struct Head {
    pub kind: Kind,
    pub next: usize,
    pub fits: bool,
}

// The entry of a pushed value, with the base 0 in its code; `fits` is false if it breaks a rule on lists. The code is a word of the list slice, which programs in other languages
// read, and so a number.
#[derive(Clone, Copy)]
pub struct PushedValue {
    pub code: u32,
    pub first: usize,
    pub second: u32,
    pub fits: bool,
}

// A value ends before `next`. The texts' entries share no field with it: this says where to read on, and holds the value whole.
#[derive(Clone, Copy)]
pub struct ReadValue {
    pub value: PushedValue,
    pub next: usize,
}

// What a record's data say, and whether they keep the rules on lists: the kind holds in both cases.
#[derive(Clone, Copy)]
struct Content {
    kind: Kind,
    fits: bool,
}

// Whether the code alone is a record: that of an action without operands, but Call. A code is a byte that is read and a word that is left (`codes`).
fn is_short(code: u8) -> bool
    ensures { result ≡ is_short code }
{
    matches!(
        code,
        0x04..=0x09
            | 0x0B..=0x0D
            | 0x10..=0x15
            | 0x17..=0x18
            | 0x1C..=0x1D
            | 0x21..=0x2B
            | 0x30..=0x37
            | 0x3A..=0x45
            | 0x47..=0x4C
            | 0x4E..=0x55
            | 0x60..=0x68
    )
}

// The record at `at` with this code and the data `d`; `pool` is the pool's count of strings. The two numbers say different things of it, so no struct holds them. Each arm is one
// reader of data, by its name: a table of closures would say the same behind a search. A code is a byte that is read and a word that is left (`codes`).
#[tactic(auto, unfolding(crate::specs::Shape::data_reader))]
fn with_data(d: &[u8], code: u8, at: usize, pool: usize) -> Option<Content>
    requires { at + 3 < 2 ^ 64 }
    ensures { result ≡ content_of at pool (whole (data_reader code d.now)) }
{
    match code {
        codes::GOTO_FRAME => frame(d),
        codes::STORE_REGISTER => register(d),
        codes::CONSTANT_POOL => pool_record(d),
        codes::GOTO_LABEL => label(d, at),
        codes::DEFINE_FUNCTION_2 => function2(d),
        codes::PUSH => push(d, pool),
        codes::JUMP | codes::IF => branch(d, code),
        codes::DEFINE_FUNCTION => function(d),
        codes::CALL => call(d),
        codes::GOTO_FRAME_2 => play(d),
        _ => None,
    }
}

// The record that begins at `at` and ends inside the bytes; `pool` is the pool's count of strings. The entry of a string says where it begins in all the bytes, which what is left
// of them could not tell: so the position stands beside the bytes here and for values.
pub fn head_at(b: &[u8], at: usize, pool: usize) -> Option<Head>
    ensures { result ≡ head_at b.now at pool }
{
    let (code, rest) = byte(b.get(at..)?)?;
    if is_short(code) {
        let kind = Kind::Plain {
            code: u32::from(code),
            first: 0,
        };
        return Some(Head {
            kind,
            next: at + 1,
            fits: true,
        });
    }
    let (size, rest) = word(rest)?;
    let size = usize::from(size);
    let Content { kind, fits } = with_data(rest.get(..size)?, code, at, pool)?;
    Some(Head {
        kind,
        next: at + 3 + size,
        fits,
    })
}
