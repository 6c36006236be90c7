#![tactic(auto)]

// The counts of lowering, by value; the entries of the lists stand in the list slice.
ghost use Rattle.std.specs.Prelude.{◌≡◌};
ghost use Rattle.codegen_state.specs.Stop.{number_of};

use slice_words::LIST_WORDS;

// Behind the slice's words stand those of the pool's index: a head for each hash, and a link for each string.
pub const HEADS: usize = LIST_WORDS;

pub const LINKS: usize = HEADS + 2048;

// Why no step is done any more. The discriminants are the refusals' numbers; no script of ours marks a label twice.
#[derive(Clone, Copy, Debug, PartialEq, Eq)]
pub enum Stop {
    NotAssignable = 5,
    SecondDefault = 6,
    Negation = 7,
    TooMany = 8,
    MarkedTwice = 24,
}

impl Stop {
    // The discriminant, by a name that says what it is, as a Refusal has it: a From into u32 would say less.
    pub fn number(self) -> u32
        ensures { result ≡ number_of self }
    {
        self as u32
    }
}

// After `refused` no step is done. No Result: a step may be called after a refusal too and does nothing there, so that a caller has
// nothing to do with an Err. Counted over all lists: actions, push values, labels made, marks, strings of
// the pool, finished lists. `total` is the pool's 16-bit total, `size` the tracked stack size, `sizes` the sum of those of the lists that wait for a
// function's list to end. The finished lists end before entry `low`; the list under construction stands from entry `top` to `base`, its last entry
// first, and the lists that wait from `base` on. Those are positions in the lent words, since the two calls use no heap.
#[derive(Clone, Copy)]
pub struct BuilderState {
    pub actions: u32,
    pub size: u32,
    pub refused: Option<Stop>,
    pub values: u32,
    pub low: usize,
    pub top: usize,
    pub base: usize,
    pub labels: u32,
    pub marks: u32,
    pub constants: u32,
    pub total: u32,
    pub lists: u32,
    pub sizes: u32,
}
