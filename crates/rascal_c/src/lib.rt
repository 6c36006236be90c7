#![tactic(auto)]

// The two calls for programs in other languages. A slice is a pointer and a length; the word that they return is the length, or 2^64 - 1 less the refusal's
// number.
ghost use Rattle.std.specs.Prelude.{◌≡◌, length};
ghost use Rattle.rascal.specs.Calls.{word_of, CompilesTo, ReadsTo};

use rascal::{compile, read};
use refusal::Refusal;

fn word(answer: Result<usize, Refusal>) -> u64
    ensures { result ≡ word_of answer }
{
    match answer {
        Ok(n) => n as u64,
        Err(refusal) => u64::MAX - u64::from(refusal.number()),
    }
}

#[unsafe(no_mangle)]
pub extern "C" fn rascal_compile(file: &[u8], list: &mut [u32], output: &mut [u8]) -> u64
    ensures { CompilesTo file.now (length list.old) (length output.old) result output.new list.new }
{
    word(compile(file, list, output))
}

#[unsafe(no_mangle)]
pub extern "C" fn rascal_read(bytes: &[u8], list: &mut [u32]) -> u64
    ensures { ReadsTo bytes.now (length list.old) result list.new }
{
    word(read(bytes, list))
}
