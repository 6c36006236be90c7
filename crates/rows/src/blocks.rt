// A Block in a Block in a Block: if in each of them one statement alone may generate anything, the innermost one is generated, without a call for each. Each
// step is in another row, and in the same loop.
ghost use Rattle.std.specs.Prelude.{◌≡◌, IfSome};
ghost use Rattle.tree.specs.Trees.{kind_at};
ghost use Rattle.tree.specs.Handle.{file_of};
ghost use Rattle.rows.specs.Rows.{loop_of};
ghost use Rattle.rows.specs.Innermost.{Innermost, IsOnly};

use crate::Loop;
use crate::quiet::is_passed;
use script_records::kind::Kind;
use tree::Trees;

// The trees up to the only one that may generate anything, if there is one alone and the row is short.
fn only_tree<'a>(row: &Trees<'a>, lp: Loop) -> Option<Trees<'a>>
    ensures { IfSome result (λ t. IsOnly lp row.now t) }
{
    let mut found = None;
    let mut left = *row;
    for _ in 0..33 {
        let Some(tree) = left.next() else {
            return found;
        };
        if is_passed(&tree, &lp, 4) {
            continue;
        }
        if found.is_some() {
            return None;
        }
        found = Some(tree);
    }
    None
}

// The same where that one is a Block.
fn only_block<'a>(row: &Trees<'a>, lp: Loop) -> Option<Trees<'a>>
    ensures { IfSome result (λ t. IsOnly lp row.now t × (kind_at (file_of t) t.script.layout t.part ≡ 4)) }
{
    let tree = only_tree(row, lp)?;
    if tree.kind() != Kind::Block as u32 {
        return None;
    }
    Some(tree)
}

// The statements of the innermost Block. A `while`, since each Block is found in the one before: they stand in no row.
pub fn innermost<'a>(row: &Trees<'a>, lp: Loop) -> Trees<'a>
    ensures script { result.script ≡ row.now.script }
    ensures innermost { Innermost (file_of row.now) row.now.script.layout (loop_of lp) row.now.part result.part }
{
    let mut inner = *row;
    while let Some(block) = only_block(&inner, lp) {
        inner = block.children().list(0);
    }
    inner
}
