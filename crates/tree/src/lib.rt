#![tactic(auto)]

// The tree of a script file, node by node. A node's children, and those before a sibling, are parts of the records.
ghost use Rattle.std.specs.Prelude.{◌≡◌, ◌-◌, ◌≤◌, ◌<◌, eqb};
ghost use Rattle.lowering.specs.Meaning.{width};
ghost use Rattle.tree.specs.Count.{Few, with_tree};
ghost use Rattle.tree.specs.Trees.{node_of, kind_at, element_of, trees, counts_of};
ghost use Rattle.tree.specs.Within.{Within, IsKid, IsList};

use decode::record_of;
use hir::Record;
use script_records::kind::Kind;
use script_records::layout::{Row, ScriptFile};
use script_records::part::Part;

// The last tree of a row: its record, the record's number, its children, and the trees before it. Of no tree the record is Absent. A
// `script_records::part::Tree` has the row before it is decoded, which is all that a file can be asked before it is accepted.
#[derive(Clone, Copy)]
pub struct Node<T> {
    pub root: Record,
    pub number: usize,
    pub children: T,
    pub before: T,
}

// The last tree of a part of any file's records: what `last_tree` finds, decoded. A file and a part, and no `Trees`, which only an accepted file has.
pub fn node_at(script: &ScriptFile, p: Part) -> Node<Part>
    ensures { result ≡ node_of script.now.bytes.now script.now.layout p }
{
    if p.n == 0 {
        return Node {
            root: Record::Absent,
            number: 0,
            children: p,
            before: p,
        };
    }
    let t = script.last_tree(p);
    let row = t.row;
    let root = record_of(row);
    let children = t.children;
    let before = t.before;
    Node {
        root,
        number: children.end,
        children,
        before,
    }
}

// Trees in a row of an accepted file. They are walked from the last to the first. They stand in the file's records and are not copied out of them, since there is
// no heap: a part of the records says which they are.
#[derive(Clone, Copy)]
pub struct Trees<'a> {
    pub script: ScriptFile<'a>,
    pub part: Part,
    pub ghost within: { Within script.bytes.now script.layout part },
}

// What stands in a switch's list. The variants say what it is, and no step: each function that is asked about it makes something else of them.
#[derive(Clone, Copy)]
pub enum Element {
    Case,
    Default,
    Statement,
}

impl From<Record> for Element {
    ghost from_gives = { λ root e. e ≡ element_of root };

    fn from(root: Record) -> Self {
        match root {
            Record::Case => Element::Case,
            Record::Default => Element::Default,
            _ => Element::Statement,
        }
    }
}

// Of the trees in a row: how many there are, how many of them are Case or Default, how many Case, and how many of the labelled ones stand from the
// last Default on.
#[derive(Clone, Copy, Default)]
pub struct Counts {
    pub trees: u32,
    pub labels: u32,
    pub cases: u32,
    pub from_default: Option<u32>,
}

// One tree more, before those that were counted.
fn with_tree(element: Element, after: Counts) -> Counts
    requires { Few after }
    ensures { result ≡ with_tree element after }
{
    let trees = after.trees + 1;
    let labels = after.labels + 1;
    match element {
        Element::Case => Counts {
            trees,
            labels,
            cases: after.cases + 1,
            ..after
        },
        Element::Default => Counts {
            trees,
            labels,
            from_default: after.from_default.or(Some(labels)),
            ..after
        },
        Element::Statement => Counts { trees, ..after },
    }
}

impl<'a> Trees<'a> {
    ghost use Rattle.std.specs.Prelude.{◌≡◌, ◌-◌, ◌<◌, eqb};
    ghost use Rattle.script_records.specs.Layout.{rows_of, row_in};
    ghost use Rattle.tree.specs.Handle.{file_of, parts_of, trees_of, IsRest};

    // Of no trees there are no records: the count's own 0.
    pub fn is_empty(&self) -> bool
        ensures { result ≡ eqb self.now.part.n 0 }
    {
        self.part.n == 0
    }

    // The last record.
    fn row(&self) -> Row
        requires { 0 < self.now.part.n }
        ensures { result ≡ row_in (rows_of (file_of self.now) self.now.script.layout) (self.now.part.end - 1) }
    {
        self.script.known_row(self.part.end - 1)
    }

    // The trees before the last, which has so many records. `script_records::part::last_tree` has to hold the size to the part, since its file may not be
    // accepted: here there is nothing to hold.
    fn without(&self, size: usize) -> Trees<'a>
        requires { (0 < self.now.part.n) × (size ≡ (row_in (rows_of (file_of self.now) self.now.script.layout) (self.now.part.end - 1)).size) }
        ensures { IsRest self.now result }
    {
        Trees {
            script: self.script,
            part: Part {
                end: self.part.end - size,
                n: self.part.n - size,
            },
        }
    }

    // The trees before the last. For sizes of one to three a branch lets the processor go on before the size is read; a `match` would try the greatest first.
    pub fn rest(&self) -> Trees<'a>
        ensures { IsRest self.now result }
    {
        if self.is_empty() {
            return *self;
        }
        let size = self.row().size;
        if size == 1 {
            return self.without(1);
        }
        if size == 2 {
            return self.without(2);
        }
        if size == 3 {
            return self.without(3);
        }
        self.without(size as usize)
    }

    // The first record of the last tree.
    pub fn start(&self) -> usize
        ensures { result ≡ (node_of (file_of self.now) self.now.script.layout self.now.part).before.end }
    {
        if self.is_empty() {
            return self.part.end;
        }
        self.part.end - self.row().size as usize
    }

    // The children of the last tree. That they are of the same file is a clause here and below: a type whose ghost parameter is the file would say it at each
    // name of the type.
    pub fn children(&self) -> Trees<'a>
        ensures script { result.script ≡ self.now.script }
        ensures part { result.part ≡ (node_of (file_of self.now) self.now.script.layout self.now.part).children }
    {
        if self.is_empty() {
            return *self;
        }
        Trees {
            script: self.script,
            part: Part {
                end: self.part.end - 1,
                n: self.row().size as usize - 1,
            },
        }
    }

    // The last tree.
    pub fn node(&self) -> Node<Trees<'a>>
        ensures children { result.children.script ≡ self.now.script }
        ensures before { result.before.script ≡ self.now.script }
        ensures node { parts_of result ≡ node_of (file_of self.now) self.now.script.layout self.now.part }
    {
        let node = node_at(&self.script, self.part);
        Node {
            root: node.root,
            number: node.number,
            children: Trees {
                script: self.script,
                part: node.children,
            },
            before: Trees {
                script: self.script,
                part: node.before,
            },
        }
    }

    // The kind of the last tree's record, and that of an absent child where there is none. The word itself: the loops over rows compare it with one or two
    // kinds, and a Kind would be looked up in the table and tested at each tree first.
    pub fn kind(&self) -> u32
        ensures { result ≡ kind_at (file_of self.now) self.now.script.layout self.now.part }
    {
        if self.is_empty() {
            return Kind::Absent as u32;
        }
        self.row().kind
    }

    // Most trees are neither Case nor Default, which their kind tells.
    pub fn element(&self) -> Element
        ensures { result ≡ element_of (node_of (file_of self.now) self.now.script.layout self.now.part).root }
    {
        if self.kind() < Kind::Case as u32 {
            return Element::Statement;
        }
        self.labelled_element()
    }

    // The same where the last tree is a Case or a Default. Not inlined, since a node is large and most elements need none; by value, since by reference a loop
    // over a row would write each of its trees to memory.
    #[inline(never)]
    fn labelled_element(self) -> Element
        ensures { result ≡ element_of (node_of (file_of self.entry) self.entry.script.layout self.entry.part).root }
    {
        Element::from(self.node().root)
    }

    // What is counted of the trees. Not inlined, as `width`: in a large function the loops would keep their state in memory.
    #[inline(never)]
    pub fn counts(&self) -> Counts
        ensures { result ≡ counts_of (trees_of self.now) }
    {
        let mut found = Counts::default();
        for tree in *self {
            found = with_tree(tree.element(), found);
        }
        found
    }

    // How many trees there are.
    #[inline(never)]
    pub fn width(&self) -> u32
        ensures { result ≡ width (trees_of self.now) }
    {
        self.count() as u32
    }

    // The trees up to the one n places before the last.
    pub fn kid(&self, n: u32) -> Trees<'a>
        ensures script { result.script ≡ self.now.script }
        ensures kid { IsKid (file_of self.now) self.now.script.layout self.now.part n result.part }
    {
        let mut left = *self;
        for _ in 0..n {
            left = left.rest();
        }
        left
    }

    // The children of that one: two calls, of which there is nothing to share.
    pub fn list(&self, n: u32) -> Trees<'a>
        ensures script { result.script ≡ self.now.script }
        ensures list { IsList (file_of self.now) self.now.script.layout self.now.part n result.part }
    {
        self.kid(n).children()
    }
}

// The trees from the last to the first, each as those up to it.
impl<'a> Iterator for Trees<'a> {
    ghost use Rattle.std.specs.Iterator.{at_most};
    ghost use Rattle.tree.specs.Handle.{GivesLast};

    type Item = Trees<'a>;

    ghost next_gives = { GivesLast };

    ghost remaining = { λ s. at_most s.part.n };

    // What is left are the trees before the last: no sum.
    fn next(&mut self) -> Option<Trees<'a>> {
        if self.is_empty() {
            return None;
        }
        let last = *self;
        self.part = last.rest().part;
        Some(last)
    }
}
