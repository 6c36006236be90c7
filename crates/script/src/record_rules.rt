// The rules of one record: its size, its words and its children.
ghost use Rattle.std.specs.Prelude.{◌≡◌, ◌&&◌, ltb, eqb, length, reverse};
ghost use Rattle.script_records.specs.Layout.{rows_of, words_of};
ghost use Rattle.script.specs.Forms.{all_of, is_list, is_sort, limit, matches, trees, fits};
ghost use Rattle.script_records.specs.Parts.{trees_in};
ghost use Rattle.script.specs.Rules.{record_holds};
ghost use Rattle.script.specs.Siblings.{siblings_of};

use crate::forms::{Class, Form, Scalar, Sort};
use script_records::kind::Kind;
use script_records::layout::{Row, ScriptFile};
use script_records::part::{Part, Tree};

// The subtrees of a part from the last to the first, in a file of any content. Those who ask have a file and one of its many parts, so the two come apart.
// The file is lent, so what is left is a place in it.
#[derive(Clone, Copy)]
struct Siblings<'a> {
    script: ScriptFile<'a>,
    part: Part,
}

impl Iterator for Siblings<'_> {
    ghost use Rattle.std.specs.Iterator.{at_most};
    ghost use Rattle.script.specs.Siblings.{GivesLast};

    type Item = Tree;

    ghost next_gives = { GivesLast };

    ghost remaining = { λ s. at_most s.part.n };

    // What is left is a number of records: with none there is no subtree, and nothing to take off.
    fn next(&mut self) -> Option<Tree> {
        if self.part.n == 0 {
            return None;
        }
        let tree = self.script.last_tree(self.part);
        self.part = tree.before;
        Some(tree)
    }
}

impl<'a> Siblings<'a> {
    fn new(script: &ScriptFile<'a>, part: Part) -> Siblings<'a>
        ensures { result ≡ record { script = script.now; part = part } }
    {
        Siblings {
            script: *script,
            part,
        }
    }
}

// Every subtree of the part is of the class.
pub fn all_of(script: &ScriptFile, p: Part, class: Class) -> bool
    ensures { result ≡ all_of class (trees_in (rows_of script.now.bytes.now script.now.layout) p) }
{
    for tree in Siblings::new(script, p) {
        if !class.has(tree.row.kind) {
            return false;
        }
    }
    true
}

// How many subtrees a part has, if each size is at least 1 and no larger than what is left.
fn count_siblings(script: &ScriptFile, p: Part) -> Option<usize>
    ensures { result ≡ siblings_of (rows_of script.now.bytes.now script.now.layout) p }
{
    let mut count: usize = 0;
    for tree in Siblings::new(script, p) {
        if tree.row.size as usize != tree.children.n + 1 {
            return None;
        }
        count += 1;
    }
    Some(count)
}

pub fn is_list(script: &ScriptFile, t: Tree, class: Class) -> bool
    ensures { result ≡ is_list class (words_of t.row) (trees_in (rows_of script.now.bytes.now script.now.layout) t.children) }
{
    t.row.kind == Kind::List as u32 && all_of(script, t.children, class)
}

// A child is of the sort that its parent's form asks for. Each arm is that sort's test, which asks another thing of the row or of the children.
fn is_sort(script: &ScriptFile, t: Tree, sort: Sort) -> bool
    ensures { result ≡ is_sort sort (words_of t.row) (trees_in (rows_of script.now.bytes.now script.now.layout) t.children) }
{
    match sort {
        Sort::One(class) => class.has(t.row.kind),
        Sort::Optional(class) => t.row.kind == Kind::Absent as u32 || class.has(t.row.kind),
        Sort::List(class) => is_list(script, t, class),
        Sort::Constraints => is_list(script, t, Class::Expr) && matches!(t.row.a, 0 | 4),
    }
}

// As many children as sorts, each of its sort. Both rows have to end at once, which `zip` does not tell.
fn children_match(script: &ScriptFile, p: Part, sorts: &[Sort]) -> bool
    ensures { result ≡ matches (reverse sorts.now) (trees_in (rows_of script.now.bytes.now script.now.layout) p) }
{
    let mut trees = Siblings::new(script, p);
    for sort in sorts.iter().rev() {
        let Some(t) = trees.next() else {
            return false;
        };
        if !is_sort(script, t, *sort) {
            return false;
        }
    }
    trees.next().is_none()
}

// The words a, b, c of a record fit the scalars, in a file of so many strings.
fn scalars_fit(r: Row, a: Scalar, b: Scalar, c: Scalar, strings: u32) -> bool
    ensures { result ≡ (ltb r.a (limit strings a) && (ltb r.b (limit strings b) && ltb r.c (limit strings c))) }
{
    (r.a as usize) < a.limit(strings)
        && (r.b as usize) < b.limit(strings)
        && (r.c as usize) < c.limit(strings)
}

// A list uses no word but the first, which counts its children.
fn is_counted(r: Row, count: usize) -> bool
    ensures { result ≡ ((eqb r.b 0 && eqb r.c 0) && eqb count r.a) }
{
    r.b == 0 && r.c == 0 && count == r.a as usize
}

// The record's words and children have its kind's form; it has so many children. Two of the four answers are tests of their own, so a `match` gives them.
fn form_fits(script: &ScriptFile, r: Row, p: Part, count: usize) -> bool
    requires { count ≡ trees (trees_in (rows_of script.now.bytes.now script.now.layout) p) }
    ensures { result ≡ fits script.now.layout.strings (words_of r) (trees_in (rows_of script.now.bytes.now script.now.layout) p) }
{
    match Form::from(r) {
        Form::Words { a, b, c, children } => {
            scalars_fit(r, a, b, c, script.layout.strings) && children_match(script, p, children)
        }
        Form::Counted => is_counted(r, count),
        Form::Unsupported => true,
        Form::Unknown => false,
    }
}

// Record i keeps the rules.
pub fn record_holds(script: &ScriptFile, i: usize) -> bool
    ensures { result ≡ record_holds script.now.layout.strings (rows_of script.now.bytes.now script.now.layout) i }
{
    let r = script.row_at(i);
    let size = r.size as usize;
    if size == 0 || i < size - 1 {
        return false;
    }
    let p = Part {
        end: i,
        n: size - 1,
    };
    match count_siblings(script, p) {
        Some(count) => form_fits(script, r, p, count),
        None => false,
    }
}
