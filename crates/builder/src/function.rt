// A function's list: it begins with nothing, and when it ends it is moved to the finished lists, and the list before goes on with its action.
ghost use Rattle.std.specs.Prelude.{◌≡◌, List, ℕ, ◌+◌, ◌<◌, ◌≤◌, T, IsNone};
ghost use Rattle.std.specs.Int.{from_bool};
ghost use Rattle.pcode.specs.Pcode.{moved};
ghost use Rattle.lowering.specs.Builder.{define_delta};
ghost use Rattle.list_slice.specs.File.{header_in, names_function};
ghost use Rattle.codegen_state.specs.Does.{Ready, Ends};
ghost use Rattle.builder.specs.Entries.{begun, Closed};
ghost use Rattle.builder.specs.Runs.{Keeps, EndsList};

use crate::builder::CodeBuilder;
use crate::entries::put;
use crate::move_list::move_list;
use codegen_state::{BuilderState, Stop};
use slice_words::{ENDS_AT, MAX_ACTIONS, code};

// The list that waits for a function's list to end: its first entry, and its stack size.
#[derive(Clone, Copy)]
pub struct Outer {
    pub base: usize,
    pub size: u32,
}

// The counts where a function's list begins: the list before waits.
pub fn begun(state: BuilderState) -> BuilderState
    requires { state.size + state.sizes < 10000 }
    ensures { result ≡ begun state }
{
    BuilderState {
        size: 0,
        sizes: state.sizes + state.size,
        base: state.top,
        ..state
    }
}

impl CodeBuilder<'_> {
    pub fn begin_function(&mut self) -> Outer
        ensures keeps { Keeps self.old self.new }
        ensures state { self.new.state ≡ begun self.old.state }
        ensures list { self.new.list.now ≡ self.old.list.now }
        ensures outer { (result.base ≡ self.old.state.base) × (result.size ≡ self.old.state.size) }
    {
        let outer = Outer {
            base: self.state.base,
            size: self.state.size,
        };
        self.state = begun(self.state);
        outer
    }

    // `function` is the number of the function's record, and `up` says whether it leaves a value.
    pub fn end_function(&mut self, outer: Outer, function: u32, up: bool)
        requires { Ready self.old.state self.old.list.now outer.base outer.size }
        ensures keeps { Keeps self.old self.new }
        ensures ends { (F : List ℕ) → T (names_function F function) → moved (define_delta (header_in F function)) outer.size ≡ outer.size + from_bool up →
            EndsList F (header_in F function) self.old outer.base outer.size self.new }
    {
        if self.state.refused.is_some() {
            return;
        }
        if MAX_ACTIONS <= self.state.actions {
            self.state.refused = Some(Stop::TooMany);
            return;
        }
        self.close(outer, function, up);
    }

    // The reader's `close` has the last entry alone in common: it counts no actions and sizes, and settles branches entry by entry.
    // The list under construction joins the finished ones, and an entry in the place of its first one has the function's number.
    fn close(&mut self, outer: Outer, function: u32, up: bool)
        requires going { IsNone self.old.state.refused }
        requires actions_bound { self.old.state.actions < 1024 }
        requires ready { Ready self.old.state self.old.list.now outer.base outer.size }
        ensures keeps { Keeps self.old self.new }
        ensures closed { Closed self.old.state self.old.list.now outer.base outer.size function (from_bool up) self.new.state self.new.list.now }
    {
        let list = &mut *self.list;
        let state = &mut self.state;
        let end = state.base;
        let low = move_list(list, state.low, state.top, end);
        list[ENDS_AT + state.lists as usize] = low as u32;
        state.actions += 1;
        state.lists += 1;
        state.size = outer.size + u32::from(up);
        state.sizes -= outer.size;
        state.low = low;
        state.top = end - 1;
        state.base = outer.base;
        put(list, state.top, code::FUNCTION, state.lists, function);
    }
}
