#![tactic(auto)]

// What is done with each tree of a row, and the labels that Break and Continue jump to.
ghost use Rattle.std.specs.Prelude.{◌≡◌};
ghost use Rattle.std.proofs.Math.Option.{some};
ghost use Rattle.lowering.specs.Statement.{no_loop};
ghost use Rattle.rows.specs.Rows.{loop_of};

use pcode::Label;

pub mod blocks;
pub mod ends;
mod quiet;

// Expressions for their values or for their effects; an object's fields; statements, those that are hoisted, and the others; the tests of a switch, and its
// elements. An enum, as in the definition, and no closures: what is left out of a row and what is done with each tree go by one name. The functions that
// generate call each other in a ring, where each closure would have to write out as clauses the walk, its end and the meaning that the name stands for.
#[derive(Clone, Copy)]
pub enum Each {
    Expr,
    Discarded,
    Field,
    Statement,
    Hoisted,
    Unhoisted,
    Conditional,
    Element,
}

// Where Break and Continue jump to, if they are in a loop or a switch.
#[derive(Clone, Copy, Default)]
pub struct Loop {
    pub exit: Option<Label>,
    pub next: Option<Label>,
}

// The derived Default by the name that the definition gives it.
pub fn no_loop() -> Loop
    ensures { loop_of result ≡ no_loop }
{
    Loop::default()
}

// Break jumps to `exit`, Continue to `next`.
pub fn loop_to(exit: u32, next: u32) -> Loop
    ensures { loop_of result ≡ record { break_label = some exit; continue_label = some next } }
{
    Loop {
        exit: Some(Label(exit)),
        next: Some(Label(next)),
    }
}

// As in the loop or switch around, but Break jumps to `exit`.
pub fn with_exit(lp: Loop, exit: u32) -> Loop
    ensures { loop_of result ≡ record { break_label = some exit; continue_label = (loop_of lp).continue_label } }
{
    Loop {
        exit: Some(Label(exit)),
        ..lp
    }
}
