// Readers of numbers and strings. Each answers what it read off the front of the bytes, and the bytes left.
ghost use Rattle.std.specs.Prelude.{◌≡◌, ◌==◌, Bool};
ghost use Rattle.std.specs.List.{position};
ghost use Rattle.utf8.specs.Utf8.{utf8};
ghost use Rattle.action_format.specs.Lists.{all};
ghost use Rattle.action_format.specs.Readers.{P, read_byte, word_reader, read_flag, read_string, read_many};
ghost use Rattle.action_format.specs.Decode.{read_param};
ghost use Rattle.record_reader.specs.Steps.{taken, judged, itself, some_of, whole, param_holds};

use utf8::is_utf8;

pub fn byte(b: &[u8]) -> Option<(u8, &[u8])>
    ensures { taken result ≡ read_byte b.now }
{
    let [n, rest @ ..] = b else {
        return None;
    };
    Some((*n, rest))
}

// This and `long` are two types of number, each by one pattern and one call.
pub fn word(b: &[u8]) -> Option<(u16, &[u8])>
    ensures { taken result ≡ word_reader 2 b.now }
{
    let [low, high, rest @ ..] = b else {
        return None;
    };
    Some((u16::from_le_bytes([*low, *high]), rest))
}

pub fn long(b: &[u8]) -> Option<(u32, &[u8])>
    ensures { taken result ≡ word_reader 4 b.now }
{
    let [b0, b1, b2, b3, rest @ ..] = b else {
        return None;
    };
    Some((u32::from_le_bytes([*b0, *b1, *b2, *b3]), rest))
}

// A flag is 0 or 1.
pub fn flag(b: &[u8]) -> Option<(bool, &[u8])>
    ensures { taken result ≡ read_flag b.now }
{
    match b {
        [0, rest @ ..] => Some((false, rest)),
        [1, rest @ ..] => Some((true, rest)),
        _ => None,
    }
}

// Where the first zero byte is.
fn zero_byte(b: &[u8]) -> Option<usize>
    ensures { result ≡ position (λ x. x == 0) b.now }
{
    b.iter().position(|x| *x == 0)
}

// A string up to its zero byte: whether it is UTF-8.
pub fn string(b: &[u8]) -> Option<(bool, &[u8])>
    ensures { taken result ≡ judged utf8 (read_string b.now) }
{
    let end = zero_byte(b)?;
    Some((is_utf8(&b[..end]), &b[end + 1..]))
}

// What a record can have a count of: strings or parameters.
pub trait Counted {
    ghost reader: { P Bool };

    fn read(b: &[u8]) -> Option<(bool, &[u8])>
        ensures { taken result ≡ reader b.now };
}

pub struct Name;

impl Counted for Name {
    ghost reader = { λ b. judged utf8 (read_string b) };

    fn read(b: &[u8]) -> Option<(bool, &[u8])> {
        string(b)
    }
}

// A parameter of DefineFunction2: its register, and its name.
pub struct Param;

impl Counted for Param {
    ghost reader = { λ b. judged param_holds (read_param b) };

    fn read(b: &[u8]) -> Option<(bool, &[u8])> {
        let (_register, rest) = byte(b)?;
        string(rest)
    }
}

// So many of them: whether all keep the rules.
pub fn many<T: Counted>(b: &[u8], count: u16) -> Option<(bool, &[u8])>
    ensures { taken result ≡ judged (all itself) (read_many T.reader count b.now) }
{
    let mut rest = b;
    let mut fits = true;
    for _ in 0..count {
        let (one, after) = T::read(rest)?;
        fits &= one;
        rest = after;
    }
    Some((fits, rest))
}

// What was read, if no bytes are left.
pub fn whole<T: Copy>(read: Option<(T, &[u8])>) -> Option<T>
    ensures { result ≡ some_of (whole (taken read.entry)) }
{
    let (x, rest) = read?;
    if rest.is_empty() { Some(x) } else { None }
}
