// Where the areas of a script file are, and its strings and records.
ghost use Rattle.std.specs.Prelude.{◌≡◌, ◌&&◌, ◌+◌, ◌-◌, ◌<◌, ◌≤◌, length};
ghost use Rattle.script_records.specs.Layout.{word_at, has_trailer, areas_touch, layout_of, end_at, start_at, string_at, rows_of, row_in, HasRow};

// Byte positions of the first record and of the first end offset, and how many records and strings there are: the caller lends the file as one slice, and its
// trailer says where the areas are.
#[derive(Clone, Copy, Default)]
pub struct Layout {
    pub records: usize,
    pub ends: usize,
    pub count: u32,
    pub strings: u32,
}

// A script file, and where its areas are.
#[derive(Clone, Copy)]
pub struct ScriptFile<'a> {
    pub bytes: &'a [u8],
    pub layout: Layout,
}

// A record: its five words, as they stand in a file of any content. `Kind::try_from` says whether the first is a kind.
#[derive(Clone, Copy, Default)]
pub struct Row {
    pub kind: u32,
    pub a: u32,
    pub b: u32,
    pub c: u32,
    pub size: u32,
}

// Four bytes at a position that lies in the file: a line over the library's `from_le_bytes`, as `constants::word` is for its hashes. `record_reader` takes the bytes
// of its numbers off the front of a slice, and may find too few.
#[tactic(auto, unfolding(crate::specs::Layout::word_at))]
fn word(file: &[u8], at: usize) -> u32
    requires { at + 4 ≤ length file.now }
    ensures { result ≡ word_at file.now at }
{
    u32::from_le_bytes([file[at], file[at + 1], file[at + 2], file[at + 3]])
}

#[tactic(auto, using(crate::proofs::LayoutLaws::default_layout), unfolding(crate::specs::Layout::layout_of))]
pub fn layout_of(file: &[u8]) -> Layout
    ensures { result ≡ layout_of file.now }
{
    if file.len() < 20 {
        return Layout::default();
    }
    let at = file.len() - 20;
    Layout {
        records: at.saturating_sub(word(file, at) as usize),
        ends: at.saturating_sub(word(file, at + 4) as usize),
        count: word(file, at + 8),
        strings: word(file, at + 12),
    }
}

// The trailer is there, of edition 1, and the areas touch.
pub fn areas_hold(file: &[u8]) -> bool
    ensures { result ≡ (has_trailer file.now && areas_touch file.now) }
{
    if file.len() < 20 {
        return false;
    }
    let at = file.len() - 20;
    if word(file, at + 16) != 1 {
        return false;
    }
    let records = word(file, at) as usize;
    let ends = word(file, at + 4) as usize;
    let count = word(file, at + 8) as usize;
    let strings = word(file, at + 12) as usize;
    if records != 20 * count {
        return false;
    }
    if ends != 20 * count + 4 * strings {
        return false;
    }
    ends <= at
}

impl<'a> ScriptFile<'a> {
    pub fn new(bytes: &'a [u8]) -> ScriptFile<'a>
        ensures bytes { result.bytes.now ≡ bytes.now }
        ensures layout { result.layout ≡ layout_of bytes.now }
    {
        ScriptFile {
            bytes,
            layout: layout_of(bytes),
        }
    }

    // Each of the methods over a record or a string asks for it by its number, and for nothing more.

    // Record i, where it lies in the file.
    #[tactic(auto, using(crate::proofs::LayoutLaws::row_whole))]
    pub fn known_row(&self, i: usize) -> Row
        requires { HasRow self.now.bytes.now self.now.layout i }
        ensures { result ≡ row_in (rows_of self.now.bytes.now self.now.layout) i }
    {
        let at = self.layout.records + 20 * i;
        Row {
            kind: word(self.bytes, at),
            a: word(self.bytes, at + 4),
            b: word(self.bytes, at + 8),
            c: word(self.bytes, at + 12),
            size: word(self.bytes, at + 16),
        }
    }

    // Record i, and zeros where there is none.
    #[tactic(auto, using(crate::proofs::LayoutLaws::default_row, crate::proofs::LayoutLaws::rows_out, crate::proofs::LayoutLaws::row_short))]
    pub fn row_at(&self, i: usize) -> Row
        ensures { result ≡ row_in (rows_of self.now.bytes.now self.now.layout) i }
    {
        if self.layout.count as usize <= i {
            return Row::default();
        }
        if self.bytes.len().saturating_sub(self.layout.records) < 20 * i + 20 {
            return Row::default();
        }
        self.known_row(i)
    }

    // Where string i ends, and 0 where its end offset does not lie in the file: so string i is empty there, and `start_at` and `string` need no case for it.
    #[tactic(auto, using(crate::proofs::LayoutLaws::end_short, crate::proofs::LayoutLaws::end_whole))]
    pub fn end_at(&self, i: usize) -> usize
        ensures { result ≡ end_at self.now.bytes.now self.now.layout i }
    {
        let base = self.layout.ends;
        if self.bytes.len().saturating_sub(base) / 4 <= i {
            return 0;
        }
        word(self.bytes, base + 4 * i) as usize
    }

    // As the start of a list of the list slice, which its own end table says: the two read tables of different slices.
    pub fn start_at(&self, i: usize) -> usize
        ensures { result ≡ start_at self.now.bytes.now self.now.layout i }
    {
        if i == 0 { 0 } else { self.end_at(i - 1) }
    }

    // The part of the file that holds string i.
    #[tactic(auto, using(crate::proofs::LayoutLaws::string_part))]
    pub fn string(&self, i: usize) -> &'a [u8]
        ensures { result.now ≡ string_at self.now.bytes.now self.now.layout i }
    {
        let start = self.start_at(i).min(self.bytes.len());
        let end = self.end_at(i).clamp(start, self.bytes.len());
        &self.bytes[start..end]
    }
}
