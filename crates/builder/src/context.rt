// The labels of `context.rs`.
ghost use Rattle.std.specs.Prelude.{◌≡◌, ◌≤◌, List, ℕ};
ghost use Rattle.lowering.specs.Builder.{create_label};
ghost use Rattle.hir.specs.Tree.{Forest};
ghost use Rattle.lowering.specs.Meaning.{Meaning};
ghost use Rattle.lowering.specs.Statement.{with_labels};
ghost use Rattle.builder.specs.Labels.{labels_of_forest, elements_from};
ghost use Rattle.builder.specs.Runs.{Keeps, Runs};

use crate::builder::CodeBuilder;
use codegen_state::Stop;
use pcode::Label;
use slice_words::MAX_LABELS;

impl CodeBuilder<'_> {
    // The label is the number of labels made before. One label is a step of the definition, and so a method, though `create_labels` makes it.
    pub fn create_label(&mut self) -> Label
        ensures runs { (F : List ℕ) → Runs F create_label self.old result.0 self.new }
        ensures list { self.new.list.now ≡ self.old.list.now }
        ensures label { result.0 ≡ self.old.state.labels }
    {
        self.create_labels(1)
    }

    // A label for each Case and Default of a switch, in order, the first of them the number of labels made before.
    // `n` is how many.
    pub fn create_labels(&mut self, n: u32) -> Label
        ensures keeps { Keeps self.old self.new }
        ensures bound { result.0 ≤ 1024 }
        ensures runs { (F : List ℕ) (ms : Forest Meaning) → labels_of_forest ms ≡ n →
            Runs F (with_labels ms) self.old (elements_from result.0 ms) self.new }
        ensures one { n ≡ 1 → (F : List ℕ) → Runs F create_label self.old result.0 self.new }
        ensures list { self.new.list.now ≡ self.old.list.now }
        ensures label { result.0 ≡ self.old.state.labels }
    {
        let first = Label(self.state.labels);
        if self.state.refused.is_some() {
            return first;
        }
        if MAX_LABELS - self.state.labels < n {
            self.state.refused = Some(Stop::TooMany);
            return first;
        }
        self.state.labels += n;
        first
    }
}
