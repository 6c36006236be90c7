// Actions, pushes, marks and the tracked stack size (`builder.rs`).
ghost use Rattle.codegen_state.specs.Does.{Fine, Fine-prop};

use crate::entries::{grow, refused_with, value_entry};
use codegen_state::{BuilderState, Stop};
use pcode::{Label, Op, PushValue, row_of};
use slice_words::{Entry, LABELS_AT, MAX_ACTIONS, MAX_VALUES, code, entry_at};

// The lists under construction, in the lent words of the list slice and the pool's index.
#[derive(Drop)]
pub struct CodeBuilder<'a> {
    pub list: &'a mut [u32],
    pub state: BuilderState,
    pub ghost fine: { Fine state list.now } by { Fine-prop state list.now },
}

impl CodeBuilder<'_> {
    ghost use Rattle.std.specs.Prelude.{List, ℕ, ◌+◌, ◌<◌, ◌≤◌, ◌≡◌, T, get_or};
    ghost use Rattle.pcode.specs.Pcode.{Action, Delta, moved, op, StoreRegister, GotoFrame, GotoFrame2, GotoLabel};
    ghost use Rattle.lowering.specs.Builder.{action_with_stack_delta, plain_action, assume_stack_delta, mark_or, mark_label, mark_default, ends_in_push, truncate_stack, refuse};
    ghost use Rattle.lowering.specs.Builder as steps;
    ghost use Rattle.lowering.specs.Access as access;
    ghost use Rattle.lowering.specs.Statement as statement;
    ghost use Rattle.list_slice.specs.File.{names_string, text_in};
    ghost use Rattle.codegen_state.specs.Stop.{number_of};
    ghost use Rattle.codegen_state.specs.View.{gather, open_of, value_in, named};
    ghost use Rattle.codegen_state.specs.Does.{Says};
    ghost use Rattle.builder.specs.Entries.{Marked};
    ghost use Rattle.builder.specs.Runs.{Keeps, Runs, Emits};

    // Nothing is done any more; an earlier refusal stays. That the words stay too is said of the builder before and after, which no type holds: here and where
    // the counts alone change.
    pub fn refuse(&mut self, stop: Stop)
        ensures runs { (F : List ℕ) → Runs F (refuse {A = Unit {0}} (number_of stop)) self.old tt self.new }
        ensures list { self.new.list.now ≡ self.old.list.now }
    {
        if self.state.refused.is_none() {
            self.state = refused_with(self.state, stop);
        }
    }

    // An action of a code and its first word, after which the stack has this size. The two are words of the slice, which programs in other languages read as
    // numbers. `Keeps` is of the builder before and after, which no type holds; it holds whatever the words are, and `Runs` where they say something.
    fn emit(&mut self, code: u32, first: u32, size: u32)
        requires entry { Emits code first }
        requires size_bound { size ≤ self.old.state.size + 1 }
        ensures keeps { Keeps self.old self.new }
        ensures runs { (F : List ℕ) (a : Action) (d : Delta) → Says F code first a → size ≡ moved d self.old.state.size →
            Runs F (action_with_stack_delta a d) self.old tt self.new }
    {
        if self.state.refused.is_some() {
            return;
        }
        if MAX_ACTIONS <= self.state.actions {
            self.state.refused = Some(Stop::TooMany);
            return;
        }
        let entry = Entry {
            code,
            first,
            second: 0,
        };
        grow(self.list, &mut self.state, entry, 1, 0, 0, size);
    }

    pub fn action(&mut self, o: Op)
        ensures { (F : List ℕ) → Runs F (steps.action o) self.old tt self.new }
    {
        let row = row_of(o);
        let size = row.delta.moved(self.state.size);
        self.emit(row.code, 0, size);
    }

    // An action whose caller says by how much the stack falls, which its row does not know.
    pub fn action_down(&mut self, o: Op, down: u32)
        ensures { (F : List ℕ) → Runs F (plain_action (op o) (Delta.down down)) self.old tt self.new }
    {
        let size = self.state.size.saturating_sub(down);
        self.emit(row_of(o).code, 0, size);
    }

    // From here on each action with a word is a step of its own: its code, its word and its size are all that `emit` takes, so that one function for them would be
    // `emit` again.
    pub fn store_register(&mut self, register: u8)
        ensures { (F : List ℕ) → Runs F (access.store_register register) self.old tt self.new }
    {
        self.emit(code::STORE_REGISTER, u32::from(register), self.state.size);
    }

    pub fn goto_frame(&mut self, frame: u32)
        ensures { (F : List ℕ) → Runs F (plain_action (GotoFrame frame) (Delta.up 0)) self.old tt self.new }
    {
        self.emit(code::GOTO_FRAME, frame, self.state.size);
    }

    pub fn goto_frame2(&mut self, play: bool)
        ensures { (F : List ℕ) → Runs F (plain_action (GotoFrame2 play) (Delta.down 1)) self.old tt self.new }
    {
        let size = self.state.size.saturating_sub(1);
        self.emit(code::GOTO_FRAME_2, u32::from(play), size);
    }

    // The string is a reference, and is not pooled.
    pub fn goto_label(&mut self, string: u32)
        ensures keeps { Keeps self.old self.new }
        ensures runs { (F : List ℕ) → T (names_string F string) →
            Runs F (plain_action (GotoLabel (text_in F string)) (Delta.up 0)) self.old tt self.new }
    {
        self.emit(code::GOTO_LABEL, string, self.state.size);
    }

    // A jump, a branch and a mark take their label and nothing that travels with it.
    pub fn jump(&mut self, label: Label)
        ensures { (F : List ℕ) → Runs F (statement.jump label.0) self.old tt self.new }
    {
        self.emit(code::JUMP, label.0, self.state.size);
    }

    pub fn branch(&mut self, label: Label)
        ensures { (F : List ℕ) → Runs F (statement.branch label.0) self.old tt self.new }
    {
        let size = self.state.size.saturating_sub(1);
        self.emit(code::IF, label.0, size);
    }

    // Whether the last item is a Push, which a value joins.
    pub fn joins(&self) -> bool
        ensures { (F : List ℕ) → result ≡ ends_in_push (gather F (open_of self.now.state self.now.list.now)) }
    {
        let top = self.state.top;
        top < self.state.base && code::FIRST_VALUE <= entry_at(self.list, top).code
    }

    pub fn push(&mut self, v: PushValue)
        ensures keeps { Keeps self.old self.new }
        ensures runs { (F : List ℕ) → T (named F v) → Runs F (steps.push (value_in F v)) self.old tt self.new }
    {
        if self.state.refused.is_some() {
            return;
        }
        if MAX_VALUES <= self.state.values {
            self.state.refused = Some(Stop::TooMany);
            return;
        }
        let x = value_entry(v);
        let size = self.state.size + 1;
        if self.joins() {
            let later = Entry {
                code: x.code + (code::LATER_VALUE - code::FIRST_VALUE),
                ..x
            };
            grow(self.list, &mut self.state, later, 0, 1, 0, size);
            return;
        }
        if MAX_ACTIONS <= self.state.actions {
            self.state.refused = Some(Stop::TooMany);
            return;
        }
        grow(self.list, &mut self.state, x, 1, 1, 0, size);
    }

    // Only ever down: after a ternary one of two values is there.
    pub fn assume_stack_delta(&mut self, down: u32)
        ensures runs { (F : List ℕ) → Runs F (assume_stack_delta (Delta.down down)) self.old tt self.new }
        ensures list { self.new.list.now ≡ self.old.list.now }
    {
        self.state.size = self.state.size.saturating_sub(down);
    }

    pub fn truncate_stack(&mut self, size: u32)
        ensures { (F : List ℕ) → Runs F (truncate_stack size) self.old tt self.new }
    {
        for _ in size..self.state.size {
            self.action(Op::Pop);
        }
    }

    // A mark more, and the word of its label says so: 1 and no bool, since the label's place in the slice gets its position in the end.
    fn grow_marked(&mut self, label: u32)
        requires label_bound { label < self.old.state.labels }
        requires unmarked { get_or self.old.list.now (12288 + label) 0 ≡ 0 }
        ensures keeps { Keeps self.old self.new }
        ensures marked { Marked self.old.state self.old.list.now label self.new.state self.new.list.now }
    {
        let list = &mut *self.list;
        let state = &mut self.state;
        let size = state.size;
        let entry = Entry {
            code: code::MARK,
            first: label,
            second: 0,
        };
        grow(list, state, entry, 0, 0, 1, size);
        list[LABELS_AT + label as usize] = 1;
    }

    // The label is marked at the list's present end; a label that is marked already gives the refusal.
    fn mark(&mut self, label: Label, stop: Stop)
        ensures { (F : List ℕ) → Runs F (mark_or (number_of stop) label.0) self.old tt self.new }
    {
        let l = label.0;
        if self.state.refused.is_some() {
            return;
        }
        if self.state.labels <= l {
            self.state.refused = Some(stop);
            return;
        }
        if self.list[LABELS_AT + l as usize] != 0 {
            self.state.refused = Some(stop);
            return;
        }
        self.grow_marked(l);
    }

    // The marks of a script and of a Default are two steps of the definition, told apart by the refusal that they hand on.
    pub fn mark_label(&mut self, label: Label)
        ensures { (F : List ℕ) → Runs F (steps.mark_label label.0) self.old tt self.new }
    {
        self.mark(label, Stop::MarkedTwice);
    }

    // The mark of a switch's Default: another Default may have marked the label.
    pub fn mark_default(&mut self, label: Label)
        ensures { (F : List ℕ) → Runs F (mark_default label.0) self.old tt self.new }
    {
        self.mark(label, Stop::SecondDefault);
    }
}
