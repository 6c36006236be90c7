#![tactic(auto)]

// Compiles script files that stand in a text, a line `NAME BYTES` for each, and prints NAME, the listing of its lists and its action bytes, or its refusal.
// It also compiles each file again at the edges of what a call is lent.
use crate::edges::{put_edges, put_sum};
use listing_text::replay::replay;
use listing_text::text::{Hex, put_refusal};
use listing_text::{LIST_WORDS, put_compiled};
use rascal::compile;
use std::io;
use std::io::{BufWriter, Write};

mod edges;

// The lists and the bytes of a script file; of more than 20,000 bytes only a sum.
fn put_success<W: Write>(file: &[u8], list: &[u32], bytes: &[u8], out: &mut W) -> io::Result<()> {
    if bytes.len() > 20000 {
        return put_sum(bytes, out);
    }
    put_compiled(list, file, out)?;
    writeln!(out, "bytes {} {}", bytes.len(), Hex(bytes))
}

// What a script file compiles to, or its refusal. Of each program's answer only the call is the same: this one prints lists and bytes, `read_files` the
// lists that were read, and `compile` writes the bytes alone.
fn put_answer<W: Write>(
    file: &[u8],
    list: &mut [u32],
    output: &mut [u8],
    out: &mut W,
) -> io::Result<()> {
    match compile(file, list, output) {
        Ok(n) => {
            put_success(file, list, &output[..n], out)?;
            put_edges(file, list, &mut output[..n], out)
        }
        Err(refusal) => put_refusal(out, refusal),
    }
}

fn main(rt: HostRuntime) -> io::Result<()> {
    let mut list = vec![in rt.alloc(); 0u32; LIST_WORDS]?;
    let mut output = vec![in rt.alloc(); 0u8; 65536]?;
    let mut out = BufWriter::with_capacity(rt.alloc(), 65536, rt.stdout())?;
    replay(rt.alloc(), rt.stdin(), &mut out, |file, out| {
        put_answer(file, &mut list, &mut output, out)
    })?;
    out.flush()
}
