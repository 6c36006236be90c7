#![tactic(auto)]

// The action bytes of compiled lists.
pub mod list;

ghost use Rattle.std.specs.Prelude.{◌≡◌, length};
ghost use Rattle.lowering.specs.Builder.{limits01};
ghost use Rattle.list_slice.specs.Words.{zeros_of};
ghost use Rattle.definition.specs.Compile.{lists_of, if_lowered};
ghost use Rattle.resolver.specs.Lowered.{Lowered};
ghost use Rattle.action_writer.specs.Steps.{Writable};
ghost use Rattle.action_writer.specs.Outcomes.{Leaves, Measured, top_outcome};

use crate::list::write_list;
use byte_writer::Writer;
use refusal::Refusal;
use resolver::lists::Lists;
use resolver::passes::Tables;
use slice_words::MAX_ENTRIES;
use zeros::clear_bytes;

// The code of End, the action in which the format has the top list end.
const END: u8 = 0;

// The top list's body and End.
fn write_top(lists: &Lists, tables: &Tables, output: &mut [u8]) -> Result<usize, Refusal>
    requires writable { let s = lists.now.script in Writable s.bytes.now s.layout lists.now.list.now tables.now.sizes tables.now.offsets }
    requires measured { Measured lists.now.script.bytes.now lists.now.list.now tables.now.sizes }
    requires output_value { output.old ≡ zeros_of (length output.old) }
    ensures { Leaves (top_outcome lists.now.script.bytes.now lists.now.list.now (length output.old)) (length output.old) result output.new }
{
    let size = tables.sizes[0] as usize;
    if output.len() <= size {
        return Err(Refusal::ShortOutput);
    }
    let mut w = Writer {
        script: lists.script,
        output,
        at: 0,
    };
    write_list(lists.list, tables, lists.count - 1, &mut w);
    w.byte(END);
    Ok(w.at)
}

// The action bytes of the lists that the list slice holds for a script file, then zeros; after a refusal only zeros. How many bytes were written.
// The three slices are lent one by one, as the C call has them; `Lists` and `Writer` join them from here on.
pub fn write(file: &[u8], list: &[u32], output: &mut [u8]) -> Result<usize, Refusal>
    requires { Lowered file.now list.now }
    ensures { Leaves (if_lowered (lists_of limits01 file.now) (length output.old)) (length output.old) result output.new }
{
    clear_bytes(output);
    let lists = Lists::new(file, list);
    let mut tables = Tables {
        sizes: [0; 1024],
        offsets: [0; MAX_ENTRIES],
    };
    lists.resolve(&mut tables)?;
    write_top(&lists, &tables, output)
}
