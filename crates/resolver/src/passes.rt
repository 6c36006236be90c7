// The passes over all lists, in the order in which they finish.
ghost use Rattle.std.specs.Prelude.{◌≡◌, List, ℕ, ◌+◌, ◌≤◌, ◌<◌, length};
ghost use Rattle.resolver.specs.Passes.{number_at, Sized, SizesTo, Tried, Passed, clear_lists};

use crate::lists::Lists;
use refusal::Refusal;

// Tables of fixed length, since there is no heap. Of one list, where the actions begin, by their positions, and after them the list's end; and the labels' positions.
#[derive(Drop)]
pub(crate) struct Places {
    pub starts: [u32; 4097],
    pub labels: [u32; 1024],
}

// The bytes of each body, by list number, and the offset of each branch, by its entry.
#[derive(Drop)]
pub struct Tables {
    pub sizes: [u32; 1024],
    pub offsets: [u32; 4096],
}

// One list: its body's bytes, and whether its branches reach. A branch that doesn't is refused only if no list is too long: until
// then its list's bytes count, so that `near` makes no Option of them.
#[derive(Clone, Copy)]
pub(crate) struct Body {
    pub bytes: u32,
    pub near: bool,
}

impl Lists<'_> {
    // The number of the list at place j of the finishing order: the top list, number 0, is the last. The two loops over all lists count `j`: a type of places below
    // `count` would be made at each of their turns.
    fn number_at(&self, j: usize) -> usize
        requires { j < self.now.count }
        ensures { result ≡ number_at self.now.count j }
    {
        if j + 1 == self.count { 0 } else { j + 1 }
    }

    // No string of any list has a zero byte.
    pub(crate) fn clear_lists(&self) -> bool
        ensures { result ≡ clear_lists self.now.script.bytes.now self.now.list.now self.now.count }
    {
        let mut clear = true;
        for j in 0..self.count {
            clear = self.clear_list(j) & clear;
        }
        clear
    }

    // The list at this place: none if a record or its body is too long.
    fn measure_list(&self, j: usize, tables: &mut Tables, places: &mut Places) -> Option<Body>
        requires { j < self.now.count }
        ensures same_sizes { tables.new.sizes ≡ tables.old.sizes }
        ensures tried { (s : Sized self.now.script.bytes.now self.now.list.now) → SizesTo s j tables.old.sizes →
            Tried s j tables.old.offsets tables.new.offsets result }
    {
        let walk = self.walk_list(j, &tables.sizes, &mut places.starts)?;
        self.mark_list(j, &mut places.labels);
        let near = self.resolve_list(j, places, &mut tables.offsets);
        Some(Body {
            bytes: walk.bytes,
            near,
        })
    }

    // Fills the tables, or refuses a record or a body for its bytes, or a branch for its distance.
    pub(crate) fn measure_lists(&self, tables: &mut Tables) -> Result<(), Refusal>
        ensures { (s : Sized self.now.script.bytes.now self.now.list.now) → Passed s tables.new.sizes tables.new.offsets result }
    {
        let mut places = Places {
            starts: [0; 4097],
            labels: [0; 1024],
        };
        let mut near = true;
        for j in 0..self.count {
            let body = self
                .measure_list(j, tables, &mut places)
                .ok_or(Refusal::TooLong)?;
            tables.sizes[self.number_at(j)] = body.bytes;
            near = body.near & near;
        }
        if near { Ok(()) } else { Err(Refusal::TooFar) }
    }
}
