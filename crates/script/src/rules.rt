// The rules of the whole file, one function for each. Two join the test of every number below one with another test, and share that `&&` alone.
ghost use Rattle.std.specs.Prelude.{◌≡◌, ltb};
ghost use Rattle.hir.specs.Tree.{depth};
ghost use Rattle.script_records.specs.Layout.{rows_of, strings_of};
ghost use Rattle.script.specs.Rules.{ends_hold, records_hold, root_holds, all_utf8, all_supported, tree_in, max_depth};

use crate::forms::Class;
use crate::record_rules::{is_list, record_holds};
use arrayvec::ArrayVec;
use decode::is_supported;
use script_records::layout::ScriptFile;
use script_records::part::Part;

// Ends never fall, and the last one is where the string bytes end.
pub fn ends_hold(script: &ScriptFile) -> bool
    ensures { result ≡ ends_hold script.now.bytes.now script.now.layout }
{
    let n = script.layout.strings as usize;
    (0..n).all(|i| script.start_at(i) <= script.end_at(i))
        && script.start_at(n) == script.layout.ends
}

// The last record is a list of statements and counts all records.
fn root_holds(script: &ScriptFile) -> bool
    ensures { result ≡ root_holds (rows_of script.now.bytes.now script.now.layout) script.now.layout.count }
{
    let n = script.layout.count as usize;
    if n == 0 {
        return false;
    }
    let t = script.last_tree(Part { end: n, n });
    t.row.size as usize == n && is_list(script, t, Class::Statement)
}

pub fn records_hold(script: &ScriptFile) -> bool
    ensures { result ≡ records_hold script.now.bytes.now script.now.layout }
{
    let n = script.layout.count as usize;
    (0..n).all(|i| record_holds(script, i)) && root_holds(script)
}

// Every string of the table is UTF-8 by itself.
pub fn strings_hold(script: &ScriptFile) -> bool
    ensures { result ≡ all_utf8 (strings_of script.now.bytes.now script.now.layout) }
{
    (0..script.layout.strings as usize).all(|i| utf8::is_utf8(script.string(i)))
}

pub fn kinds_supported(script: &ScriptFile) -> bool
    ensures { result ≡ all_supported (rows_of script.now.bytes.now script.now.layout) script.now.layout.count }
{
    (0..script.layout.count as usize).all(|i| is_supported(script.row_at(i).kind))
}

// The tree is deeper than 128. The walk goes from the last record to the first and keeps where the subtree of each open ancestor starts,
// below them 0 for the whole file. It goes on while one is open, and a record is passed only in some of the turns: no `for` over the records.
pub fn too_deep(script: &ScriptFile) -> bool
    ensures { result ≡ ltb max_depth (depth (tree_in script.now.bytes.now script.now.layout)) }
{
    let mut starts = ArrayVec::<usize, 129>::new();
    starts.push(0);
    let mut i = script.layout.count as usize;
    while let Some(start) = starts.pop() {
        if start != i {
            if starts.len() == 128 {
                return true;
            }
            let t = script.last_tree(Part {
                end: i,
                n: i - start,
            });
            starts.push(start);
            starts.push(t.before.end);
            i -= 1;
        }
    }
    false
}
