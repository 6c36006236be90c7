// Pushed values. But for `value`, each function reads the value after its type, and answers it and the bytes left. A type is a byte as it is read and the end of an entry's code
// as it is left: an enum would be made from the one number only to give the other.
ghost use Rattle.std.specs.Prelude.{◌≡◌, ℕ, true, ltb};
ghost use Rattle.action_format.specs.Readers.{dispatch};
ghost use Rattle.action_format.specs.Decode.{value_readers};
ghost use Rattle.record_reader.specs.Heads.{value_at};
ghost use Rattle.record_reader.specs.Steps.{taken, pushed_of};

use crate::parts::{byte, flag, long, string, word};
use crate::{PushedValue, ReadValue};
use slice_words::value as types;

fn pushed(kind: u8, first: usize) -> PushedValue
    ensures { result ≡ record { code = kind; first = first; second = 0; fits = true } }
{
    PushedValue {
        code: u32::from(kind),
        first,
        second: 0,
        fits: true,
    }
}

fn constant(i: usize, pool: usize) -> PushedValue
    ensures { result ≡ record { code = 8; first = i; second = 0; fits = ltb i pool } }
{
    PushedValue {
        fits: i < pool,
        ..pushed(types::CONSTANT, i)
    }
}

// An index below 256 takes one byte.
fn wide_constant(d: &[u8], pool: usize) -> Option<(PushedValue, &[u8])>
    ensures { (at : ℕ) → taken result ≡ pushed_of at pool (dispatch value_readers 9 d.now) }
{
    let (i, rest) = word(d)?;
    if i < 256 {
        return None;
    }
    Some((constant(usize::from(i), pool), rest))
}

fn float(d: &[u8]) -> Option<(PushedValue, &[u8])>
    ensures { (at pool : ℕ) → taken result ≡ pushed_of at pool (dispatch value_readers 6 d.now) }
{
    let (low, rest) = long(d)?;
    let (second, rest) = long(rest)?;
    Some((
        PushedValue {
            second,
            ..pushed(types::FLOAT, low as usize)
        },
        rest,
    ))
}

// A string stands at `at`, and its entry keeps that place and whether it is text; a constant's keeps the index that was read.
// So this and `wide_constant` share no line but the answer's.
fn string_value(d: &[u8], at: usize) -> Option<(PushedValue, &[u8])>
    ensures { (pool : ℕ) → taken result ≡ pushed_of at pool (dispatch value_readers 0 d.now) }
{
    let (fits, rest) = string(d)?;
    Some((
        PushedValue {
            fits,
            ..pushed(types::STRING, at)
        },
        rest,
    ))
}

// The value of a type, at `at`: a string, null, undefined, a register, a boolean, a float, an integer, or a constant's index in one byte or two. The types' readers take different
// arguments, which a table of them could not. What prints a value shares its types alone: it reads words of entries, not bytes.
fn typed(kind: u8, d: &[u8], at: usize, pool: usize) -> Option<(PushedValue, &[u8])>
    ensures { taken result ≡ pushed_of at pool (dispatch value_readers kind d.now) }
{
    match kind {
        types::STRING => string_value(d, at),
        types::NULL => Some((pushed(types::NULL, 0), d)),
        types::UNDEFINED => Some((pushed(types::UNDEFINED, 0), d)),
        types::REGISTER => {
            let (r, rest) = byte(d)?;
            Some((pushed(types::REGISTER, usize::from(r)), rest))
        }
        types::BOOLEAN => {
            let (t, rest) = flag(d)?;
            Some((pushed(types::BOOLEAN, usize::from(t)), rest))
        }
        types::FLOAT => float(d),
        types::INTEGER => {
            let (n, rest) = long(d)?;
            Some((pushed(types::INTEGER, n as usize), rest))
        }
        types::CONSTANT => {
            let (i, rest) = byte(d)?;
            Some((constant(usize::from(i), pool), rest))
        }
        types::LONG_CONSTANT => wide_constant(d, pool),
        _ => None,
    }
}

// The value whose type stands at `at` and that ends inside the bytes; `pool` is the pool's count of strings.
pub fn value(b: &[u8], at: usize, pool: usize) -> Option<ReadValue>
    ensures { result ≡ value_at b.now at pool }
{
    let (kind, d) = byte(b.get(at..)?)?;
    let (value, rest) = typed(kind, d, at + 1, pool)?;
    Some(ReadValue {
        value,
        next: b.len() - rest.len(),
    })
}
