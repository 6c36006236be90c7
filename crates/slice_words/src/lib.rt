#![tactic(auto)]

// The words of the list slice (docs/LISTS.md), and what they refer to in the script file.
pub mod code;
pub mod value;

ghost use Rattle.std.specs.Prelude.{◌≡◌, ◌+◌, ◌*◌, ◌<◌, ◌≤◌, length};
ghost use Rattle.script_records.specs.Layout.{layout_of};
ghost use Rattle.list_slice.specs.File.{text_in};
ghost use Rattle.slice_words.specs.Words.{entry_in};
ghost use Rattle.slice_words.specs.References.{text_at, param_of};

use hir::Record;
use script_records::layout::ScriptFile;

// The areas of the slice by their first words: the entries begin it, and the labels, the list ends and the pool words follow. Programs in other languages
// lend and read the slice as one run of words, so that an area is a position in it.
pub const LABELS_AT: usize = 12288;

pub const ENDS_AT: usize = 13312;

pub const POOL_AT: usize = 14336;

// The words of the slice that a list needs.
pub const LIST_WORDS: usize = 16384;

// The entries that the slice holds, and document 01's limits of actions, pushed values and labels: the room for each is fixed in what the caller lends.
pub const MAX_ENTRIES: usize = 4096;

pub const MAX_ACTIONS: u32 = 1024;

pub const MAX_VALUES: u32 = 2048;

pub const MAX_LABELS: u32 = 1024;

// The reference of an empty string that comes from no string of the file. References are words of the slice that programs in other languages read, so that it
// is a number and no None.
pub const NO_STRING: u32 = 0xffff_ffff;

// An entry as the slice has it for programs in other languages: three words in a row, of which the code is a number.
#[derive(Clone, Copy)]
pub struct Entry {
    pub code: u32,
    pub first: u32,
    pub second: u32,
}

pub fn entry_at(list: &[u32], e: usize) -> Entry
    requires { e * 3 + 2 < length list.now }
    ensures { result ≡ entry_in list.now e }
{
    let [code, first, second] = list.as_chunks::<3>().0[e];
    Entry {
        code,
        first,
        second,
    }
}

// The string of a reference.
#[tactic(auto, using(crate::proofs::Strings::string_short), unfolding(crate::specs::References::text_at, list_slice::specs::File::text_in))]
pub fn text<'a>(script: &ScriptFile<'a>, reference: u32) -> &'a [u8]
    ensures by_layout { result.now ≡ text_at script.now.bytes.now script.now.layout reference }
    ensures in_file { script.now.layout ≡ layout_of script.now.bytes.now →
        result.now ≡ text_in script.now.bytes.now reference }
    ensures short { length result.now ≤ length script.now.bytes.now }
{
    if reference == NO_STRING {
        return &script.bytes[0..0];
    }
    script.string(reference as usize)
}

// A parameter: the reference of its name, and its register, 0 for none, as the action's byte is.
#[derive(Clone, Copy)]
pub struct Param {
    pub name: u32,
    pub register: u32,
}

// A parameter's record holds its register plus 1, or 0 for none. An object's field has its key for a name, and any other record has none.
impl From<Record> for Param {
    ghost from_gives = { λ root param. param ≡ param_of root };

    fn from(root: Record) -> Self {
        match root {
            Record::Parameter { name, register } => Param {
                name,
                register: u32::from(register.saturating_sub(1)),
            },
            Record::ObjectField(name) => Param { name, register: 0 },
            _ => Param {
                name: NO_STRING,
                register: 0,
            },
        }
    }
}
