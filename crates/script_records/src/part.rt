// Subtrees in a row, as the children of a record are. They are walked from the last to the first.
ghost use Rattle.std.specs.Prelude.{◌≡◌, ◌-◌, ◌≤◌, min, max};
ghost use Rattle.script_records.specs.Layout.{rows_of};
ghost use Rattle.script_records.specs.Parts.{last_tree};

use crate::layout::{Row, ScriptFile};

// The n records that end before record `end`. The file is lent, and memory is fixed: a record's children stand before it, and are not moved into a tree.
#[derive(Clone, Copy)]
pub struct Part {
    pub end: usize,
    pub n: usize,
}

// The last subtree of a part: its record, its children, and the subtrees before it. Here a record is its words, since the rules of a file are checked before it is
// known that each has a kind; `tree::Node` has the decoded record of an accepted file.
#[derive(Clone, Copy)]
pub struct Tree {
    pub row: Row,
    pub children: Part,
    pub before: Part,
}

// The last subtree, if it has so many records.
fn sized(row: Row, p: Part, at: usize, s: usize) -> Tree
    requires s_le_n { s ≤ p.n }
    ensures { result ≡ record { row = row; children = record { end = at; n = s - 1 }; before = record { end = p.end - s; n = p.n - s } } }
{
    Tree {
        row,
        children: Part {
            end: at,
            n: s.saturating_sub(1),
        },
        before: Part {
            end: p.end.saturating_sub(s),
            n: p.n - s,
        },
    }
}

impl ScriptFile<'_> {
    #[tactic(auto, using(crate::proofs::Trees::tree_made, crate::proofs::Trees::tree_sized))]
    pub fn last_tree(&self, p: Part) -> Tree
        ensures { result ≡ last_tree (rows_of self.now.bytes.now self.now.layout) p }
    {
        let at = p.end.saturating_sub(1);
        let row = self.row_at(at);
        // A size is cut to what the part holds, as `tree::Trees` need not: there the file is accepted. Most trees have one to three records: a branch for each
        // hands `sized` a constant, so that the processor can go on to the tree before it while the size is still read.
        if row.size == 1 {
            if 1 <= p.n {
                return sized(row, p, at, 1);
            }
        }
        if row.size == 2 {
            if 2 <= p.n {
                return sized(row, p, at, 2);
            }
        }
        if row.size == 3 {
            if 3 <= p.n {
                return sized(row, p, at, 3);
            }
        }
        let s = (row.size as usize).max(1).min(p.n);
        sized(row, p, at, s)
    }
}
