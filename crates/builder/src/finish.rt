// The end of a script (`into_actions`): the top list joins the finished lists, its first action gets the number of the pool's strings, and each label
// the position at which its own list marks it.
ghost use Rattle.std.specs.Prelude.{◌≡◌, List, [], ◌∷◌, ℕ, ◌+◌, ◌*◌, ◌<◌, ◌≤◌, length};
ghost use Rattle.lowering.specs.Builder.{limits01};
ghost use Rattle.list_slice.specs.Compiled.{Holds};
ghost use Rattle.codegen_state.specs.View as steps;
ghost use Rattle.codegen_state.specs.Does.{Fine, Named};
ghost use Rattle.builder.specs.Places.{Copied, Cleared, placed, placed_at, actions_added, Located, list_at, lists_at, Standing, Finished, finished};

use crate::entries::put;
use crate::move_list::move_list;
use codegen_state::BuilderState;
use pcode::{Label, Position};
use slice_words::{ENDS_AT, LABELS_AT, MAX_ENTRIES, MAX_LABELS, code, entry_at};

// A label's word is its position plus 1, so that programs in other languages read 0 where no list marks it, and the first mark stays. The resolver's places are a
// table of its own in which a mark writes the bare position: the two share a bound and an assignment.
fn set_place(list: &mut [u32], l: Label, p: Position)
    requires in_bounds { 13312 ≤ length list.old }
    requires p_bound { p.0 ≤ 4096 }
    ensures { list.new ≡ placed list.old l.0 p.0 }
{
    let label = l.0;
    if MAX_LABELS <= label {
        return;
    }
    let at = LABELS_AT + label as usize;
    if list[at] != 0 {
        return;
    }
    list[at] = p.0 + 1;
}

// The label that entry i marks, if it is a mark. The resolver's `mark_entry` has the test in common, but not the table.
fn set_place_at(list: &mut [u32], i: usize, p: Position)
    requires in_bounds { 13312 ≤ length list.old }
    requires i_bound { i < 4096 }
    requires p_bound { p.0 ≤ 4096 }
    ensures { list.new ≡ placed_at list.old i p.0 }
{
    let entry = entry_at(list, i);
    if entry.code == code::MARK {
        set_place(list, Label(entry.first), p);
    }
}

// How many actions an entry adds to its list, by its code and that of the entry before: a mark adds none, and a later value joins the Push before it. The codes are
// the slice's words. The resolver asks the code alone, since of its lists it is known that a later value has a Push before it; of those here it is not.
fn actions_added(code: u32, before: u32) -> u32
    ensures { result ≡ actions_added code before }
{
    let begins = code < code::LATER_VALUE || before < code::FIRST_VALUE;
    u32::from(code != code::MARK && begins)
}

// The positions of the labels that one list marks. Its first entry stands last. The words lie in the lent slice, as a position plus 1, and the code before is kept:
// the resolver's `mark_list` fills a table of its own, and asks for no code before.
fn label_positions(list: &mut [u32], from: usize, end: usize)
    requires { Standing list.old from end }
    ensures { (F : List ℕ) → Located list.old (list_at F list.old from end ∷ []) list.new }
{
    let mut position: u32 = 0;
    let mut before: u32 = 0;
    for i in (from..end).rev() {
        set_place_at(list, i, Position(position));
        let code = entry_at(list, i).code;
        position += actions_added(code, before);
        before = code;
    }
}

// The positions of the labels that the functions' lists mark. The slice that has the ends is written here, list by list; the resolver's passes only read it, and
// each gives an answer.
fn function_positions(list: &mut [u32], lists: usize)
    requires { Finished list.old lists }
    ensures { (F : List ℕ) → Located list.old (lists_at F list.old lists) list.new }
{
    let mut from: usize = 0;
    for i in 0..lists {
        let end = list[ENDS_AT + i] as usize;
        label_positions(list, from, end);
        from = end;
    }
}

// The lists of a script's builder, taken apart: what stands in the list afterwards is no builder's any more.
pub fn into_actions(list: &mut [u32], state: BuilderState)
    requires fine { Fine state list.old }
    requires base_value { state.base ≡ 4096 }
    ensures { (F v : List ℕ) → Named F state list.old → Copied list.new v →
        Holds limits01 F (finished (steps.state F state list.old)) v }
{
    let low = move_list(list, state.low, state.top, MAX_ENTRIES);
    let lists = state.lists as usize;
    list[ENDS_AT + lists] = low as u32;
    // Until now a label's word says only that it is marked.
    list[LABELS_AT..ENDS_AT].fill(0);
    label_positions(list, state.low, low);
    function_positions(list, lists);
    put(list, low - 1, code::CONSTANT_POOL, state.constants, 0);
}
