// The areas of a list slice (docs/LISTS.md), and what its entries say.
ghost use Rattle.std.specs.Prelude.{◌≤◌, length};

use pcode::PushValue;
use slice_words::{ENDS_AT, LABELS_AT, LIST_WORDS, POOL_AT, code};

// The areas of a list slice; of what does not lie in it, none.
#[derive(Clone, Copy)]
pub struct Lists<'a> {
    entries: &'a [[u32; 3]],
    ends: &'a [u32],
    pub pool: &'a [u32],
    ghost ends_bound: { length ends.now ≤ 1024 },
}

// What an entry's three words say. An action stands by its code, whose name is sought where it is printed.
#[derive(Clone, Copy)]
pub enum Piece {
    Action { code: u32, operand: u32 },
    Function { list: u32, reference: u32 },
    Mark(u32),
    Push(Option<PushValue>),
    Later(Option<PushValue>),
}

// The value that an entry pushes, if its code is that of the first value of a Push.
fn value_of([code, first, second]: [u32; 3]) -> Option<PushValue> {
    let value = match code {
        code::STRING => PushValue::String(first),
        code::NULL => PushValue::Null,
        code::UNDEFINED => PushValue::Undefined,
        code::REGISTER => PushValue::Register(u8::try_from(first).ok()?),
        code::BOOLEAN => PushValue::Boolean(first != 0),
        code::FLOAT => PushValue::Float(first, second),
        code::INTEGER => PushValue::Integer(first.cast_signed()),
        code::CONSTANT => PushValue::Constant(first),
        _ => return None,
    };
    Some(value)
}

impl From<&[u32; 3]> for Piece {
    fn from(words: &[u32; 3]) -> Piece {
        let [code, first, second] = *words;
        match code {
            ..code::FUNCTION => Piece::Action {
                code,
                operand: first,
            },
            code::FUNCTION => Piece::Function {
                list: first,
                reference: second,
            },
            code::MARK => Piece::Mark(first),
            ..code::LATER_VALUE => Piece::Push(value_of(*words)),
            _ => {
                let first_code = code - (code::LATER_VALUE - code::FIRST_VALUE);
                Piece::Later(value_of([first_code, first, second]))
            }
        }
    }
}

impl Piece {
    pub fn is_later(self) -> bool {
        matches!(self, Piece::Later(_))
    }

    // An action begins with this entry.
    pub fn begins(self) -> bool {
        !matches!(self, Piece::Mark(_) | Piece::Later(_))
    }
}

impl<'a> From<&'a [u32]> for Lists<'a> {
    fn from(words: &'a [u32]) -> Lists<'a> {
        Lists {
            entries: words.get(..LABELS_AT).unwrap_or(&[]).as_chunks().0,
            ends: words.get(ENDS_AT..POOL_AT).unwrap_or(&[]),
            pool: words.get(POOL_AT..LIST_WORDS).unwrap_or(&[]),
        }
    }
}

// The resolver's functions ask for a whole slice; here what does not lie in it is none.
impl<'a> Lists<'a> {
    // The entry after the k-th list that finished, from 0.
    fn end(self, k: usize) -> usize {
        self.ends.get(k).copied().unwrap_or(0) as usize
    }

    // The entries of the k-th list that finished, its last entry first.
    pub fn entries(self, k: usize) -> &'a [[u32; 3]] {
        let start = if k == 0 { 0 } else { self.end(k - 1) };
        self.entries.get(start..self.end(k)).unwrap_or(&[])
    }

    // Which list the top list is, in the order in which they finish: the last whose end is not 0.
    pub fn top(self) -> usize
        ensures { result ≤ 1023 }
    {
        self.ends.iter().rposition(|end| *end != 0).unwrap_or(0)
    }
}
