#![tactic(auto)]

// The text's lines and what their bytes are written as: two hex digits for a byte; `@PART*COUNT:` for a part and COUNT more bytes of its repetition.
ghost use Rattle.std.specs.Prelude.{◌+◌, ◌*◌, ◌%◌, ◌<◌, ◌≤◌, ◌≡◌, ◌==◌, length, position, slice_index, EachIndex, None, IfOk, IfSome, MatchOption, option_map, option_and_then};
ghost use Rattle.std.specs.List.{before_first, after_first};
ghost use Rattle.text_lines.specs.Text.{hex_value};

use std::alloc::Global;
use std::error::Error;
use std::io::{Read, Write};
use std::{fmt, io};

// What a line lacks: it has no bytes, or bytes that are not well written. Both are errors, and neither stands for no value.
#[derive(Clone, Copy, Debug, PartialEq, Eq)]
pub enum BadLine {
    NoBytes,
    NotWellWritten,
}

impl fmt::Display for BadLine {
    fn fmt<W: fmt::Write>(&self, f: &mut fmt::Formatter<W>) -> fmt::Result {
        match self {
            BadLine::NoBytes => write!(f, "has no bytes"),
            BadLine::NotWellWritten => write!(f, "is not well written"),
        }
    }
}

impl Error for BadLine {}

// A text of so many bytes, 2 MiB, or more is not answered, but said to be too long.
const TEXT_END: usize = 2097152;

// So many bytes are lent for a line's: 256 more than a script file may have, so that a file that is too long gets its refusal.
const ROOM: usize = 1048832;

// A text on its way into `file`: what is left of it, the bytes so far, and where the part to repeat starts.
// The file is lent, and no Vec: a Vec's `push` gives a Result, and that it never fails here would be one more ghost field.
#[derive(Drop)]
struct Decoder<'a> {
    rest: &'a [u8],
    file: &'a mut [u8],
    bytes: usize,
    part: usize,
    ghost part_le_bytes: { part ≤ bytes },
    ghost bytes_in_bounds: { bytes ≤ length file.now },
}

// The value of a hex digit. Not `to_digit(16)`, which takes capital letters too.
fn digit(c: u8) -> Option<u8>
    ensures value { result ≡ hex_value c }
    ensures upper_bound { IfSome result (λ d. d < 16) }
{
    match c {
        b'0'..=b'9' => Some(c - b'0'),
        b'a'..=b'f' => Some(c - b'a' + 10),
        _ => None,
    }
}

// The value of two hex digits.
fn pair(high: u8, low: u8) -> Option<u8>
    ensures { result ≡ option_and_then (λ h. option_map (λ l. h * 16 + l) (hex_value low)) (hex_value high) }
{
    Some(digit(high)? * 16 + digit(low)?)
}

// The index of the first `c`. A text is bytes and no `&str`, since a line's name may have any.
pub fn find(text: &[u8], c: u8) -> Option<usize>
    ensures { result ≡ position (λ b. b == c) text.now }
{
    text.iter().position(|b| *b == c)
}

// What stands before the first `c`, and what after it.
pub fn split_once(text: &[u8], c: u8) -> Option<(&[u8], &[u8])>
    ensures parts { MatchOption result (position (λ b. b == c) text.now ≡ None) (λ p. (p.0.now ≡ before_first (λ b. b == c) text.now) × (p.1.now ≡ after_first (λ b. b == c) text.now)) }
    ensures shorter { IfSome result (λ p. length p.1.now < length text.now) }
{
    let at = find(text, c)?;
    Some((&text[..at], &text[at + 1..]))
}

// The decimal number that a text starts with, as far as it stays below ten million. `parse` would refuse a text that goes on behind its digits.
fn number(text: &[u8]) -> usize
    ensures { result < 10000000 }
{
    let mut n: usize = 0;
    for c in text {
        match char::from(*c).to_digit(10) {
            Some(d) if n <= 999998 => n = n * 10 + d as usize,
            _ => break,
        }
    }
    n
}

// Fills `to` with the part, over and over. Each copy is of all that stands there by then, so that few are enough; a `while`, since each takes as many bytes as it
// can.
fn repeat(part: &[u8], to: &mut [u8])
    requires { 0 < length part.now }
    ensures len { length to.new ≡ length to.old }
    ensures bytes { EachIndex to.new (λ k. slice_index to.new k ≡ slice_index part.now (k % length part.now)) }
{
    let mut done = part.len().min(to.len());
    to[..done].copy_from_slice(&part[..done]);
    while done < to.len() {
        let n = done.min(to.len() - done);
        to.copy_within(..n, done);
        done += n;
    }
}

// `ReadsOn`, which each of the three steps promises, is of the decoder before and after, which no type holds.
impl<'a> Decoder<'a> {
    ghost use Rattle.std.specs.Prelude.{◌<◌, ◌≡◌, length};
    ghost use Rattle.text_lines.specs.Decoding.{ReadsOn};

    // Two hex digits are a byte.
    fn byte(&mut self) -> Result<(), BadLine>
        ensures { ReadsOn self.old self.new result }
    {
        let [high, low, rest @ ..] = self.rest else {
            return Err(BadLine::NotWellWritten);
        };
        let byte = pair(*high, *low).ok_or(BadLine::NotWellWritten)?;
        if self.bytes >= self.file.len() {
            return Err(BadLine::NotWellWritten);
        }
        self.file[self.bytes] = byte;
        self.bytes += 1;
        self.rest = rest;
        Ok(())
    }

    // `*COUNT:` repeats the part that `@` started, for COUNT more bytes.
    fn again(&mut self, text: &'a [u8]) -> Result<(), BadLine>
        requires { length text.now < length self.old.rest.now }
        ensures { ReadsOn self.old self.new result }
    {
        let (digits, rest) = split_once(text, b':').ok_or(BadLine::NotWellWritten)?;
        let count = number(digits);
        if self.part == self.bytes {
            return Err(BadLine::NotWellWritten);
        }
        if count > self.file.len() - self.bytes {
            return Err(BadLine::NotWellWritten);
        }
        let (before, after) = self.file.split_at_mut(self.bytes);
        repeat(&before[self.part..], &mut after[..count]);
        self.bytes += count;
        self.part = self.bytes;
        self.rest = rest;
        Ok(())
    }

    fn step(&mut self) -> Result<(), BadLine>
        ensures { ReadsOn self.old self.new result }
    {
        match self.rest {
            [b'@', rest @ ..] => {
                self.part = self.bytes;
                self.rest = rest;
                Ok(())
            }
            [b'*', rest @ ..] => self.again(rest),
            _ => self.byte(),
        }
    }

    // A `while`, as each step takes as many bytes as it needs.
    fn run(&mut self) -> Result<(), BadLine>
        ensures { self.new.file.ghost_name ≡ self.old.file.ghost_name }
    {
        while !self.rest.is_empty() {
            self.step()?;
        }
        Ok(())
    }
}

// The bytes that a text stands for, at the start of `file`: how many they are.
pub fn decode(text: &[u8], file: &mut [u8]) -> Result<usize, BadLine>
    ensures bytes_in_bounds { IfOk result (λ bytes. bytes ≤ length file.new) }
    ensures file_len_unchanged { length file.new ≡ length file.old }
{
    let mut decoder = Decoder {
        rest: text,
        file,
        bytes: 0,
        part: 0,
    };
    decoder.run()?;
    Ok(decoder.bytes)
}

// A line's name, and how many bytes stand behind it; they come to stand at the start of `file`.
fn read_line<'a>(line: &'a [u8], file: &mut [u8]) -> (&'a [u8], Result<usize, BadLine>)
    ensures { IfOk result.1 (λ bytes. bytes ≤ length file.new) }
{
    match split_once(line, b' ') {
        Some((name, text)) => (name, decode(text, file)),
        None => (line, Err(BadLine::NoBytes)),
    }
}

// Answers each line of a text. The closure is lent `out` line by line, and doesn't hold it: what is said of the text as a whole goes there too. That it can be
// called stands in a clause, since no bound of a type parameter says it.
fn answer_lines<W: Write, F: FnMut(&[u8], Result<&[u8], BadLine>, &mut W) -> io::Result<()>>(
    text: &[u8],
    file: &mut [u8],
    out: &mut W,
    mut answer: F,
) -> io::Result<()>
    requires { F.IsAlwaysCallable answer }
{
    for line in text.split_inclusive(|b| *b == b'\n') {
        let line = line.strip_suffix(b"\n").unwrap_or(line);
        let (name, bytes) = read_line(line, file);
        answer(name, bytes.map(|n| &file[..n]), out)?;
    }
    Ok(())
}

// Answers each line `NAME BYTES` of the text that a reader gives. The allocator is the runtime's and the reader a file or standard input: they meet in this call
// alone.
pub fn answer_text<
    R: Read + Drop,
    W: Write,
    F: FnMut(&[u8], Result<&[u8], BadLine>, &mut W) -> io::Result<()>,
>(alloc: Global, reader: R, out: &mut W, answer: F) -> io::Result<()>
    requires { F.IsAlwaysCallable answer }
{
    let mut text = Vec::new(alloc);
    reader.take(TEXT_END as u64).read_to_end(&mut text)?;
    if text.len() == TEXT_END {
        return writeln!(out, "the text is too long");
    }
    let mut file = vec![in alloc; 0u8; ROOM]?;
    answer_lines(&text, &mut file, out, answer)
}
