#![tactic(auto)]

// The listing of document 01: the lists of a list slice as lines of text.
mod entries;
mod names;
pub mod replay;
mod source;
pub mod text;

use crate::entries::{Lists, Piece};
use crate::names::{Action, Operand};
use crate::source::{Actions, Registers, Source};
use crate::text::Text;
use pcode::PushValue;
use script_records::layout::ScriptFile;
pub use slice_words::LIST_WORDS;
use std::io::Write;
use std::{fmt, io};

// A list slice's lists on their way to a writer, and what their references refer to.
#[derive(Drop)]
struct Printer<'a, 'b, S, W> {
    lists: Lists<'a>,
    source: &'a S,
    out: &'b mut W,
}

// The registers' count and the marks, as operands.
impl fmt::Display for Registers {
    fn fmt<W: fmt::Write>(&self, f: &mut fmt::Formatter<W>) -> fmt::Result {
        let count = self.count;
        write!(f, " {count}")?;
        for mark in self.marks {
            let mark = u8::from(mark);
            write!(f, " {mark}")?;
        }
        Ok(())
    }
}

impl<S: Source, W: Write> Printer<'_, '_, S, W> {
    fn put_string(&mut self, reference: u32) -> io::Result<()> {
        let string = Text(self.source.string(reference));
        write!(self.out, " {string}")
    }

    fn put_value(&mut self, value: Option<PushValue>) -> io::Result<()> {
        match value {
            Some(PushValue::String(reference)) => {
                write!(self.out, " String")?;
                self.put_string(reference)
            }
            Some(PushValue::Null) => write!(self.out, " Null"),
            Some(PushValue::Undefined) => write!(self.out, " Undefined"),
            Some(PushValue::Register(register)) => write!(self.out, " Register {register}"),
            Some(PushValue::Boolean(true)) => write!(self.out, " True"),
            Some(PushValue::Boolean(false)) => write!(self.out, " False"),
            Some(PushValue::Float(low, high)) => write!(self.out, " Float {high:08x}{low:08x}"),
            Some(PushValue::Integer(number)) => write!(self.out, " Integer {number}"),
            Some(PushValue::Constant(index)) => write!(self.out, " Constant {index}"),
            None => Ok(()),
        }
    }

    fn put_function(&mut self, list: u32, reference: u32) -> io::Result<()> {
        let header = self.source.header(reference);
        let registers = header.registers;
        let word = match registers {
            Some(_) => "DefineFunction2",
            None => "DefineFunction",
        };
        write!(self.out, " {word} {}", Text(header.name))?;
        self.source
            .put_parameters(reference, registers.is_some(), self.out)?;
        write!(self.out, " {list}")?;
        match registers {
            Some(registers) => write!(self.out, "{registers}"),
            None => Ok(()),
        }
    }

    // An action with a code of its own, and its operands in declaration order; GotoFrame2's scene bias is 0. No Display: what a string or a pool
    // prints stands in the source.
    fn put_action(&mut self, action: Action, operand: u32) -> io::Result<()> {
        write!(self.out, " {}", action.name)?;
        match action.operand {
            None => Ok(()),
            Some(Operand::Number) => write!(self.out, " {operand}"),
            Some(Operand::Pool) => self.source.put_pool(self.lists.pool, operand, self.out),
            Some(Operand::String) => self.put_string(operand),
            Some(Operand::Target) => write!(self.out, " {}", self.source.target(operand)),
            Some(Operand::Play) => write!(self.out, " 0 {operand}"),
        }
    }

    // A mark, a later value of a Push, or the action that stands at this position.
    fn put_piece(&mut self, piece: Piece, position: usize) -> io::Result<()> {
        if piece.begins() {
            write!(self.out, "{position}")?;
        }
        match piece {
            Piece::Action { code, operand } => self.put_action(Action::from(code), operand),
            Piece::Function { list, reference } => self.put_function(list, reference),
            Piece::Mark(label) => write!(self.out, "loc{label:04x}:"),
            Piece::Push(value) => {
                write!(self.out, " Push")?;
                self.put_value(value)
            }
            Piece::Later(value) => self.put_value(value),
        }
    }

    // A list's last entry stands first. Each entry begins a line but the later values of a Push.
    fn put_entries(&mut self, entries: &[[u32; 3]]) -> io::Result<()> {
        let mut position: usize = 0;
        for (i, words) in entries.iter().rev().enumerate() {
            let piece = Piece::from(words);
            if 0 < i && !piece.is_later() {
                writeln!(self.out)?;
            }
            self.put_piece(piece, position)?;
            position += usize::from(piece.begins());
        }
        if entries.is_empty() {
            return Ok(());
        }
        writeln!(self.out)
    }

    // The k-th list that finished, with its number.
    fn put_list(&mut self, k: usize, number: usize) -> io::Result<()> {
        let entries = self.lists.entries(k);
        let length = entries
            .iter()
            .filter(|words| Piece::from(*words).begins())
            .count();
        writeln!(self.out, "list {number} length {length}")?;
        self.put_entries(entries)
    }

    // The top list, then the functions' lists.
    fn put_lists(&mut self) -> io::Result<()> {
        let top = self.lists.top();
        self.put_list(top, 0)?;
        for k in 0..top {
            self.put_list(k, k + 1)?;
        }
        Ok(())
    }
}

// The lists of a compiled script file.
pub fn put_compiled<W: Write>(list: &[u32], file: &[u8], out: &mut W) -> io::Result<()> {
    let mut printer = Printer {
        lists: Lists::from(list),
        source: &ScriptFile::new(file),
        out,
    };
    printer.put_lists()
}

// The lists that were read from action bytes: branches name places. The bytes and the writer are two things that each caller has by itself.
pub fn put_read<W: Write>(list: &[u32], bytes: &[u8], out: &mut W) -> io::Result<()> {
    let mut printer = Printer {
        lists: Lists::from(list),
        source: &Actions(bytes),
        out,
    };
    printer.put_lists()
}
