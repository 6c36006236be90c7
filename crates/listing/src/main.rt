#![tactic(auto)]

// Prints the listing of the script file on standard input, or its refusal.
use listing_text::text::put_refusal;
use listing_text::{LIST_WORDS, put_compiled};
use rascal::compile;
use refusal::Refusal;
use std::io;
use std::io::{BufWriter, Read, Write};

// One byte more than a file may have for this program, which is 65,536 (README): so much is read, and refused by its length.
const FILE_END: usize = 65537;

fn answer(file: &[u8], list: &mut [u32], output: &mut [u8]) -> Result<usize, Refusal> {
    if file.len() == FILE_END {
        return Err(Refusal::OverLimit);
    }
    compile(file, list, output)
}

fn main(rt: HostRuntime) -> io::Result<()> {
    let mut file = Vec::new(rt.alloc());
    rt.stdin().take(FILE_END as u64).read_to_end(&mut file)?;
    let mut list = vec![in rt.alloc(); 0u32; LIST_WORDS]?;
    let mut output = vec![in rt.alloc(); 0u8; 65536]?;
    let mut out = BufWriter::with_capacity(rt.alloc(), 65536, rt.stdout())?;
    match answer(&file, &mut list, &mut output) {
        Ok(_) => put_compiled(&list, &file, &mut out)?,
        Err(refusal) => put_refusal(&mut out, refusal)?,
    }
    out.flush()
}
