// Where the trees of a row end. They are walked from the last to the first, and generated from the first to the last. What generates nothing is left out, since a
// row may have 50,000 of them and be generated again and again. The ends lie in a slice that the caller lends, since there is no heap.
ghost use Rattle.std.specs.Prelude.{◌≡◌, ◌-◌, ◌≤◌, length};
ghost use Rattle.tree.specs.Handle.{file_of};
ghost use Rattle.rows.specs.Rows.{loop_of};
ghost use Rattle.rows.specs.Kept.{Unlabelled, KeptBy, KeptOf};

use crate::quiet::is_quiet;
use crate::{Each, Loop};
use script_records::kind::Kind;
use tree::Trees;

// How far a row is scanned for its first label: to its end where its trees have three records or fewer on average, so that a scan is quicker than a walk, and
// else not at all. The record behind a row is that of its list, which counts the trees.
fn scan_end(row: &Trees) -> usize
    ensures { (row.now.part.end - row.now.part.n ≤ result) × (result ≤ row.now.part.end) }
{
    let end = row.part.end;
    if end < row.script.layout.count as usize {
        let list = row.script.known_row(end);
        if row.part.n / 3 <= list.a as usize {
            return end;
        }
    }
    end - row.part.n
}

// The first record of a Case or a Default in a row, at whatever depth, or where the scan ends.
#[inline(never)]
fn first_label(row: &Trees) -> usize
    ensures { (row.now.part.end - row.now.part.n ≤ result) × (result ≤ row.now.part.end) × Unlabelled (file_of row.now) row.now.script.layout (row.now.part.end - row.now.part.n) result }
{
    let end = scan_end(row);
    for i in row.part.end - row.part.n..end {
        if Kind::Case as u32 <= row.script.known_row(i).kind {
            return i;
        }
    }
    end
}

// That the closure may be called is asked wherever one is taken.
// How many trees there are that do not end before record `stop`, but those that are left out. Where each of them ends is left in `scratch`, the last lowest.
fn ends_but<'a, F: Fn(Trees<'a>) -> bool>(
    row: &Trees<'a>,
    scratch: &mut [usize],
    stop: usize,
    is_out: F,
) -> usize
    requires callable { F.IsAlwaysCallable is_out }
    requires n_in_bounds { row.now.part.n ≤ length scratch.old }
    requires n_bound { row.now.part.end - row.now.part.n ≤ stop }
    ensures few { result ≤ length scratch.new }
    ensures kept { KeptBy (F.post is_out) row.now stop scratch.new result }
{
    let mut top = 0;
    for tree in *row {
        if tree.part.end <= stop {
            return top;
        }
        scratch[top] = tree.part.end;
        top += usize::from(!is_out(tree));
    }
    top
}

// Of a switch's elements those before the first Case or Default generate nothing: they are taken from the top. The answer is how many are left, of which 0 is
// one. A loop, and no `rposition`, whose closure would have to require that a tree ends there: the loop's invariant says it at each turn.
fn from_label(row: &Trees, ends: &[usize], lp: Loop) -> usize
    requires { KeptOf (file_of row.now) row.now.script.layout Each.Element (loop_of lp) row.now.part ends.now (length ends.now) }
    ensures few { result ≤ length ends.now }
    ensures kept { KeptOf (file_of row.now) row.now.script.layout Each.Element (loop_of lp) row.now.part ends.now result }
{
    for n in (0..ends.len()).rev() {
        if Kind::Case as u32 <= row.script.known_row(ends[n] - 1).kind {
            return n + 1;
        }
    }
    0
}

// How many trees of a row are to be generated, and where they end. Three parameters, as in `statement::each`: the slice is lent by the call, the row's caller
// says what is done, and the loop is that of the statements around. Not inlined, since in the ring's large functions its loops would keep their state in memory.
#[inline(never)]
pub fn ends_of(row: &Trees, scratch: &mut [usize], what: Each, lp: Loop) -> usize
    requires { row.now.part.n ≤ length scratch.old }
    ensures { KeptOf (file_of row.now) row.now.script.layout what (loop_of lp) row.now.part scratch.new result }
{
    let start = row.part.end - row.part.n;
    match what {
        Each::Expr | Each::Discarded => {
            ends_but(row, scratch, start, |tree| tree.kind() == Kind::Void as u32)
        }
        Each::Field => ends_but(row, scratch, start, |_| false),
        Each::Statement | Each::Hoisted | Each::Unhoisted => {
            ends_but(row, scratch, start, |tree| is_quiet(&tree, &lp))
        }
        Each::Conditional => {
            let stop = first_label(row);
            ends_but(row, scratch, stop, |tree| tree.kind() < Kind::Case as u32)
        }
        Each::Element => {
            let stop = first_label(row);
            let top = ends_but(row, scratch, stop, |tree| is_quiet(&tree, &lp));
            from_label(row, &scratch[..top], lp)
        }
    }
}
