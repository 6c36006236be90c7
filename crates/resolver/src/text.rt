// The data bytes of entries, and whether their strings have a zero byte.
ghost use Rattle.std.specs.Prelude.{◌≡◌, map, cond, ◌+◌, ◌*◌, ◌≤◌, T, leb, length, take};
ghost use Rattle.lowering.specs.Builder.{limits01};
ghost use Rattle.list_slice.specs.Words.{entry_at, pool_in};
ghost use Rattle.list_slice.specs.File.{text_in, names_function, params_of};
ghost use Rattle.tree.specs.Handle.{trees_of};
ghost use Rattle.resolver.specs.Texts.{Few, with_text, texts_of, param_names, function_data, string_data, pool_data, constant_data, fixed_data, kind_of, Operands, data_in, entry_data, Known};

use crate::lists::Lists;
use decode::Function;
use script_records::part::Part;
use slice_words::{Entry, NO_STRING, POOL_AT, Param, code, entry_at, text};
use tree::Trees;

// Strings in a row: their bytes, each with its zero byte, how many there are, and whether no other byte of them is zero. `clear` doesn't make an Option of
// the numbers: the pass that measures needs them, and isn't told that all strings are clear.
#[derive(Clone, Copy)]
pub struct Text {
    pub bytes: usize,
    pub count: usize,
    pub clear: bool,
}

impl Text {
    const NONE: Text = Text {
        bytes: 0,
        count: 0,
        clear: true,
    };

    // One string more, before the others.
    fn with(self, s: &[u8]) -> Text
        requires few { Few self }
        requires short { length s.now ≤ 1048576 }
        ensures { result ≡ with_text s.now self }
    {
        Text {
            bytes: self.bytes + s.len() + 1,
            count: self.count + 1,
            clear: !s.contains(&0) & self.clear,
        }
    }
}

// The data bytes of an entry, and whether its strings have no zero byte: one pass asks for the one, another for the other, so that neither stands only
// with the other.
#[derive(Clone, Copy)]
pub struct Data {
    pub bytes: usize,
    pub clear: bool,
}

impl Data {
    // Data without strings.
    fn fixed(bytes: usize) -> Data
        ensures { result ≡ fixed_data bytes }
    {
        Data { bytes, clear: true }
    }

    // A string and so many bytes before it.
    fn string(s: &[u8], before: usize) -> Data
        requires short { length s.now ≤ 1048576 }
        requires before_bound { before ≤ 1 }
        ensures { result ≡ string_data s.now before }
    {
        Data {
            bytes: before + (s.len() + 1),
            clear: !s.contains(&0),
        }
    }

    // A constant of the pool, whose place makes it short or long. No From: the number isn't what the data holds, and other numbers make other data.
    fn constant(index: u32) -> Data
        ensures { result ≡ constant_data index }
    {
        Data::fixed(if index < 256 { 2 } else { 3 })
    }
}

// What a header has beside its strings, by its registers: the number of parameters and the body's byte count; from two registers on also their number,
// the marks and each parameter's register. The writer measures parameters alone, to place them; here names, sizes and zero bytes come of one walk.
fn beside_strings(registers: u8, params: usize) -> usize
    requires { params ≤ 131072 }
    ensures { result ≡ cond (leb registers 1) 4 (7 + params) }
{
    if registers <= 1 { 4 } else { 7 + params }
}

// A later value of a Push has the data of a first one. Codes stay numbers: they come from the lent slice, and each that has no arm below is one of the
// many actions without data.
fn kind_of(code: u32) -> u32
    ensures { result ≡ kind_of code }
{
    if code < code::LATER_VALUE {
        code
    } else {
        code - (code::LATER_VALUE - code::FIRST_VALUE)
    }
}

impl Lists<'_> {
    // The strings of the first n pool words.
    fn pool_text(&self, n: usize) -> Text
        requires { n ≤ 2048 }
        ensures { result ≡ texts_of (map (text_in self.now.script.bytes.now) (take n (pool_in limits01 self.now.list.now))) }
    {
        let mut t = Text::NONE;
        for reference in self.list[POOL_AT..POOL_AT + n].iter().rev() {
            t = t.with(text(&self.script, *reference));
        }
        t
    }

    // The number of the pool's strings, which is `n`, then the strings. The number is one argument, and counts other things in other methods: there is nothing to
    // put together.
    fn pool_data(&self, n: u32) -> Data
        requires { n ≤ 2048 }
        ensures { result ≡ pool_data (map (text_in self.now.script.bytes.now) (take n (pool_in limits01 self.now.list.now))) }
    {
        let t = self.pool_text(n as usize);
        Data {
            bytes: 2 + t.bytes,
            clear: t.clear,
        }
    }

    // The header of the function whose record has number k, without its body. The writer finds the parameters likewise, by another fact of the record.
    fn function_data(&self, k: u32) -> Data
        requires { T (names_function self.now.script.bytes.now k) }
        ensures { result ≡ function_data self.now.script.bytes.now k }
    {
        let script = self.script;
        let end = k as usize;
        let row = script.row_at(end);
        let f = Function::from(row);
        let n = (row.size as usize).saturating_sub(1);
        let part = Part { end, n };
        let kids = Trees { script, part };
        let params = params_text(&kids.list(1));
        let all = params.with(text(&script, f.name.unwrap_or(NO_STRING)));
        Data {
            bytes: beside_strings(f.register_count, params.count) + all.bytes,
            clear: all.clear,
        }
    }

    // Only counts: the reader of records takes the same data apart, and has nothing to count. An arm is one call with
    // what it counts: a table of the calls would need the same line for each sort of data.
    fn kind_data(&self, kind: u32, entry: Entry) -> Data
        requires { Operands self.now.script.bytes.now self.now.list.now kind entry.first entry.second }
        ensures { result ≡ data_in self.now.script.bytes.now self.now.list.now kind entry.first entry.second }
    {
        match kind {
            code::GOTO_FRAME | code::JUMP | code::IF | code::REGISTER | code::BOOLEAN =>
                Data::fixed(2),
            code::STORE_REGISTER | code::GOTO_FRAME_2 | code::NULL | code::UNDEFINED => Data::fixed(
                1,
            ),
            code::CONSTANT_POOL => self.pool_data(entry.first),
            code::GOTO_LABEL => Data::string(text(&self.script, entry.first), 0),
            code::FUNCTION => self.function_data(entry.second),
            code::STRING => Data::string(text(&self.script, entry.first), 1),
            code::FLOAT => Data::fixed(9),
            code::INTEGER => Data::fixed(5),
            code::CONSTANT => Data::constant(entry.first),
            _ => Data::fixed(0),
        }
    }

    // The data that an entry adds to its record; that of a function without its body.
    pub(crate) fn entry_data(&self, e: usize) -> Data
        requires { Known self.now.script.bytes.now self.now.list.now e }
        ensures { result ≡ entry_data self.now.script.bytes.now self.now.list.now (entry_at self.now.list.now e) }
    {
        let entry = entry_at(self.list, e);
        self.kind_data(kind_of(entry.code), entry)
    }
}

// The names of parameters.
fn params_text(params: &Trees) -> Text
    ensures value { result ≡ texts_of (param_names (params_of (trees_of params.now))) }
    ensures few { Few result }
{
    let mut t = Text::NONE;
    for tree in *params {
        let param = Param::from(tree.node().root);
        t = t.with(text(&tree.script, param.name));
    }
    t
}
