#![tactic(auto)]

// The two calls: a script file is compiled into the list slice and the output, and action bytes are read into the list slice.
ghost use Rattle.std.specs.Prelude.{◌≤◌, length, IfOk};
ghost use Rattle.lowering.specs.Builder.{limits01};
ghost use Rattle.definition.specs.Left.{Compiles};
ghost use Rattle.resolver.specs.Lowered as resolver;
ghost use Rattle.refusal.specs.Refusal.{refusal_of};
ghost use Rattle.action_reader.specs.Answers.{length_of};

// How many bytes were read, or the refusal; the lists stand in the list slice.
pub use action_reader::read;
use action_writer::write;
use as2_codegen::script_to_actions;
use refusal::Refusal;
use zeros::{clear_bytes, clear_words};

// The lists that lowering left, written; after a refusal the list slice has only zeros.
fn write_lists(file: &[u8], list: &mut [u32], output: &mut [u8]) -> Result<usize, Refusal>
    requires lowered { resolver.Lowered file.now list.old }
    requires in_bounds { 16384 ≤ length list.old }
    ensures { Compiles limits01 file.now (length list.old) (length output.old) (refusal_of result) (length_of result) output.new list.new }
{
    match write(file, list, output) {
        Ok(n) => Ok(n),
        Err(refused) => {
            clear_words(list);
            Err(refused)
        }
    }
}

// How many bytes were written, or the refusal.
pub fn compile(file: &[u8], list: &mut [u32], output: &mut [u8]) -> Result<usize, Refusal>
    ensures compiles { Compiles limits01 file.now (length list.old) (length output.old) (refusal_of result) (length_of result) output.new list.new }
    ensures in_output { IfOk result (λ n. n ≤ length output.new) }
{
    match script_to_actions(file, list) {
        Ok(()) => write_lists(file, list, output),
        Err(refusal) => {
            clear_bytes(output);
            Err(refusal)
        }
    }
}
