#![tactic(auto)]

// Compiles the script file that the first argument names, or the one on standard input, and writes its action bytes to standard output. On a refusal
// it writes nothing there, and says on standard error which one it is.
use anyhow::{Context, Result};
use refusal::Refusal;
use slice_words::LIST_WORDS;
use std::alloc::Global;
use std::env::Env;
use std::io::{Input, Read, Write};
use std::rt::Files;
use std::{env, fs, io};

fn say_refused<R: Eprint>(rt: &R, refusal: Refusal) -> io::Result<()> {
    let number = refusal.number();
    eprintln!(rt; "refused {number}: {refusal}")
}

fn compile_and_write<R: Eprint, W: Write>(
    rt: &R,
    file: &[u8],
    list: &mut [u32],
    output: &mut [u8],
    out: &mut W,
) -> Result<()> {
    match rascal::compile(file, list, output) {
        Ok(n) => out
            .write_all(&output[..n])
            .context("writing standard output"),
        Err(refusal) => say_refused(rt, refusal).context("writing standard error"),
    }
}

// One byte more than a file may have is read: so much is refused by the call itself.
fn read_file<R: Read + Drop>(alloc: Global, reader: R) -> io::Result<Vec<u8>> {
    let mut file = Vec::new(alloc);
    reader.take(1048577).read_to_end(&mut file)?;
    Ok(file)
}

fn open_and_read<R: Files>(rt: &R, alloc: Global, path: &str) -> io::Result<Vec<u8>> {
    let reader = fs::open(rt, path)?;
    read_file(alloc, reader)
}

// The script file that the first argument names, or the one on standard input.
fn read_script<R: Env + Files + Input + AllocGlobal>(rt: &R) -> Result<Vec<u8>> {
    let path = env::args(rt).context("the script file's name")?.nth(1);
    match path {
        Some(path) => open_and_read(rt, rt.alloc(), path.as_str()).context(format_args!(
            "reading {path}"
        )),
        None => read_file(rt.alloc(), rt.reader()).context("reading standard input"),
    }
}

fn main(rt: HostRuntime) -> Result<()> {
    let file = read_script(&rt)?;
    let mut list = vec![in rt.alloc(); 0u32; LIST_WORDS]?;
    let mut output = vec![in rt.alloc(); 0u8; 2097152]?;
    compile_and_write(&rt, &file, &mut list, &mut output, &mut rt.stdout())
}
