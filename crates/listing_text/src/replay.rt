// The lines `NAME BYTES` of a text that a program answers one by one, in the notation of `text_lines`.
use std::alloc::Global;
use std::io;
use std::io::{Read, Write};
use text_lines::{BadLine, answer_text};

// Prints a line's name as a line, and below it what `answer` prints of its bytes. A name may have any bytes, which `write!` has no form for.
fn put_line<W: Write, F: FnMut(&[u8], &mut W) -> io::Result<()>>(
    name: &[u8],
    bytes: Result<&[u8], BadLine>,
    out: &mut W,
    answer: &mut F,
) -> io::Result<()>
    requires { (f : F) (bytes : _) (out : _) → F.pre f bytes out }
{
    out.write_all(name)?;
    match bytes {
        Ok(bytes) => {
            writeln!(out)?;
            answer(bytes, out)
        }
        Err(bad) => writeln!(out, " {bad}"),
    }
}

// Answers each line of the text that a reader gives.
pub fn replay<R: Read + Drop, W: Write, F: FnMut(&[u8], &mut W) -> io::Result<()>>(
    alloc: Global,
    reader: R,
    out: &mut W,
    mut answer: F,
) -> io::Result<()>
    requires { (f : F) (bytes : _) (out : _) → F.pre f bytes out }
{
    let put = |name: &[u8], bytes: Result<&[u8], BadLine>, out: &mut W| -> io::Result<()>
        requires { (f : F) (bytes : _) (out : _) → F.pre f bytes out }
    { put_line(name, bytes, out, &mut answer) };
    answer_text(alloc, reader, out, put)
}
