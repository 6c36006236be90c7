#![tactic(auto)]

// Action bytes, written into a lent output.
mod bytes;
mod header;
mod records;
mod values;

use script_records::layout::ScriptFile;

// Writes at `at` and goes on after what it wrote. References name strings and functions of the script file.
#[derive(Drop)]
pub struct Writer<'a> {
    pub script: ScriptFile<'a>,
    pub output: &'a mut [u8],
    pub at: usize,
}
