#![tactic(auto)]

// Action bytes read into the list slice.
ghost use Rattle.std.specs.Prelude.{length};
ghost use Rattle.lowering.specs.Builder.{limits01};
ghost use Rattle.definition.specs.Left.{Reads};
ghost use Rattle.refusal.specs.Refusal.{refusal_of};
ghost use Rattle.action_reader.specs.Answers.{length_of};

use crate::reader::read_lists;
use refusal::Refusal;
use slice_words::LIST_WORDS;
use zeros::clear_words;

mod begin;
mod lists;
mod places;
mod push;
mod reader;
mod step;
mod targets;
mod walk;

// How many bytes were read. The caller's slice may be longer than a list needs, and what writes it requires that it is long enough. `first_chunk_mut` would give a type that says it, and
// each write through `put` would take it back to a slice.
pub fn read(bytes: &[u8], list: &mut [u32]) -> Result<usize, Refusal>
    ensures { Reads limits01 bytes.now (length list.old) (refusal_of result) (length_of result) list.new }
{
    clear_words(list);
    if list.len() < LIST_WORDS {
        return Err(Refusal::ShortList);
    }
    let Some(()) = read_lists(bytes, list) else {
        clear_words(list);
        return Err(Refusal::NotActions);
    };
    Ok(bytes.len())
}
