// Entries of the list slice.
ghost use Rattle.std.specs.Prelude.{◌≡◌, ◌+◌, ◌*◌, ◌<◌, ◌≤◌, length};
ghost use Rattle.codegen_state.specs.Does.{Fine};
ghost use Rattle.builder.specs.Entries.{put3, refused_with, Grown};
ghost use Rattle.builder.specs.Values.{IsValue};

use codegen_state::{BuilderState, Stop};
use pcode::PushValue;
use slice_words::{Entry, code};

// Three words in a row, as programs in other languages read an entry: its code is one of them. They are handed one by one, since `grow` alone has them together.
pub fn put(list: &mut [u32], i: usize, code: u32, first: u32, second: u32)
    requires { i * 3 + 2 < length list.old }
    ensures { list.new ≡ put3 list.old i code first second }
{
    let at = i * 3;
    list[at] = code;
    list[at + 1] = first;
    list[at + 2] = second;
}

// The counts after a refusal.
pub fn refused_with(state: BuilderState, stop: Stop) -> BuilderState
    ensures { result ≡ refused_with state stop }
{
    BuilderState {
        refused: Some(stop),
        ..state
    }
}

// One entry more in the list under construction: so many actions, values and marks more, and this stack size. No two of the four calls add the same ones, so that
// the numbers say it as well as an enum of the calls would. It asks nothing of the entry and the size, and so can't promise `Fine` afterwards, as a method of
// CodeBuilder has to: each method that calls it proves that.
pub fn grow(
    list: &mut [u32],
    state: &mut BuilderState,
    entry: Entry,
    actions: u32,
    values: u32,
    marks: u32,
    size: u32,
)
    requires fine { Fine state.old list.old }
    requires low_lt_top { state.old.low < state.old.top }
    requires actions_bound { actions ≤ 1 }
    requires values_bound { values ≤ 1 }
    requires marks_bound { marks ≤ 1 }
    ensures { Grown state.old list.old entry.code entry.first entry.second actions values marks size state.new list.new }
{
    state.top -= 1;
    state.actions += actions;
    state.values += values;
    state.marks += marks;
    state.size = size;
    put(list, state.top, entry.code, entry.first, entry.second);
}

// The entry of the first value of a Push; a later one has a higher code. A function: neither type is of this crate.
pub(crate) fn value_entry(v: PushValue) -> Entry
    ensures { IsValue v result }
{
    let (code, first, second) = match v {
        PushValue::String(s) => (code::STRING, s, 0),
        PushValue::Null => (code::NULL, 0, 0),
        PushValue::Undefined => (code::UNDEFINED, 0, 0),
        PushValue::Register(r) => (code::REGISTER, u32::from(r), 0),
        PushValue::Boolean(x) => (code::BOOLEAN, u32::from(x), 0),
        PushValue::Float(low, high) => (code::FLOAT, low, high),
        PushValue::Integer(n) => (code::INTEGER, n.cast_unsigned(), 0),
        PushValue::Constant(i) => (code::CONSTANT, i, 0),
    };
    Entry {
        code,
        first,
        second,
    }
}
