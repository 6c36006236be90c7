#![tactic(auto)]

// Checks script files that stand in a text, a line `NAME BYTES` for each, and prints a line `NAME ANSWER`.
ghost use Rattle.std.specs.Prelude.{◌≡◌};
ghost use Rattle.script.specs.Rules.{check_of};

use std::io;
use std::io::{BufWriter, Write};
use text_lines::{BadLine, answer_text};

// Document 01's number, 0 for an accepted file: a number as `check_of` gives it, since a number is what a line has.
fn answer(file: &[u8]) -> u32
    ensures { result ≡ check_of file.now }
{
    match script::check(file) {
        Ok(()) => 0,
        Err(refusal) => refusal.number(),
    }
}

// A name is bytes and no text, so it is written as it stands.
fn put_answer<W: Write>(name: &[u8], file: Result<&[u8], BadLine>, out: &mut W) -> io::Result<()> {
    out.write_all(name)?;
    match file {
        Ok(file) => {
            let number = answer(file);
            writeln!(out, " {number}")
        }
        Err(BadLine::NoBytes) => writeln!(out, " no bytes"),
        Err(BadLine::NotWellWritten) => writeln!(out, " not decoded"),
    }
}

fn main(rt: HostRuntime) -> io::Result<()> {
    let mut out = BufWriter::new(rt.alloc(), rt.stdout())?;
    answer_text(rt.alloc(), rt.stdin(), &mut out, put_answer)?;
    out.flush()
}
