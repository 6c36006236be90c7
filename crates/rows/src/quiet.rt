// Statements that generate nothing, found by going down from record to record.
ghost use Rattle.std.specs.Prelude.{◌≡◌, ◌-◌, ◌<◌, eqb};
ghost use Rattle.std.specs.Option.{is_none};
ghost use Rattle.script_records.specs.Kind.{number_of};
ghost use Rattle.script_records.specs.Layout.{rows_of, row_in, HasRow};
ghost use Rattle.tree.specs.Handle.{file_of};
ghost use Rattle.rows.specs.Passed.{passes_at};
ghost use Rattle.rows.specs.Kept.{of_passed};

use crate::Loop;
use script_records::kind::Kind;
use script_records::layout::ScriptFile;
use tree::Trees;

// Whether the record under the one below record e is of a kind. The row's word is compared with that kind's number: `Kind::try_from` would look the word up in
// a table and test what it finds, and the kind would be compared all the same.
fn is_under(script: &ScriptFile, e: usize, kind: Kind) -> bool
    requires { (0 < e) × HasRow script.now.bytes.now script.now.layout (e - 1) }
    ensures { result ≡ eqb (row_in (rows_of script.now.bytes.now script.now.layout) (e - 2)).kind (number_of kind) }
{
    let below = script.known_row(e.saturating_sub(2));
    below.kind == kind as u32
}

// How many records are passed below record e, if the way goes on there.
fn passes(script: &ScriptFile, e: usize, lp: &Loop) -> Option<usize>
    requires { (0 < e) × HasRow script.now.bytes.now script.now.layout (e - 1) }
    ensures { result ≡ passes_at (rows_of script.now.bytes.now script.now.layout) e (is_none lp.now.exit) (is_none lp.now.next) }
{
    let row = script.known_row(e - 1);
    if row.kind == Kind::Expr as u32 {
        return is_under(script, e, Kind::Void).then_some(row.size as usize);
    }
    if row.kind == Kind::Break as u32 {
        return lp.exit.is_none().then_some(1);
    }
    if row.kind == Kind::Continue as u32 {
        return lp.next.is_none().then_some(1);
    }
    if row.kind == Kind::Block as u32 {
        return is_under(script, e, Kind::List).then_some(1);
    }
    (row.kind == Kind::List as u32).then_some(1)
}

// Whether the last tree is passed on the way down in fewer than so many steps. Inlined, as `is_quiet`, so that a loop over a row need not write each tree to memory.
#[inline(always)]
pub fn is_passed(tree: &Trees, lp: &Loop, steps: u32) -> bool
    ensures { result ≡ of_passed (file_of tree.now) tree.now.script.layout steps (is_none lp.now.exit) (is_none lp.now.next) tree.now.part }
{
    let start = tree.start();
    let mut e = tree.part.end;
    for _ in 0..steps {
        if e <= start {
            return true;
        }
        let Some(n) = passes(&tree.script, e, lp) else {
            return false;
        };
        e = e.saturating_sub(n);
    }
    false
}

// The same in 128 steps. An expression is a Void or it is not, and a Break has one record.
#[inline(always)]
pub fn is_quiet(tree: &Trees, lp: &Loop) -> bool
    ensures { result ≡ of_passed (file_of tree.now) tree.now.script.layout 128 (is_none lp.now.exit) (is_none lp.now.next) tree.now.part }
{
    let kind = tree.kind();
    if kind == Kind::Expr as u32 {
        return is_under(&tree.script, tree.part.end, Kind::Void);
    }
    if kind == Kind::Break as u32 {
        if tree.part.end.saturating_sub(1) <= tree.start() {
            return lp.exit.is_none();
        }
    }
    is_passed(tree, lp, 128)
}
