// A script that is lowered (`context.rs`), and its pool of strings.
ghost use Rattle.std.specs.Prelude.{◌≡◌, ◌+◌, ◌<◌, ◌≤◌, length};
ghost use Rattle.script_records.specs.Layout.{layout_of};
ghost use Rattle.codegen_state.specs.Index.{Indexed};
ghost use Rattle.builder.specs.Runs.{SameList};
ghost use Rattle.constants.specs.Pool.{Added};

use crate::bucket;
use builder::builder::CodeBuilder;
use codegen_state::{HEADS, LINKS};
use pcode::PushValue;
use script_records::layout::ScriptFile;
use slice_words::{POOL_AT, text};
use special_properties::same_bytes;

// The script's file and the builder of its lists; the index of the pool is that of the file's strings.
#[derive(Drop)]
pub struct ScriptContext<'a> {
    pub script: ScriptFile<'a>,
    pub builder: CodeBuilder<'a>,
    pub ghost laid_out: { script.layout ≡ layout_of script.bytes.now },
    pub ghost indexed: { Indexed script.bytes.now builder.state.constants builder.list.now },
}

impl<'a> ScriptContext<'a> {
    ghost use Rattle.std.specs.Prelude.{T, IsNone};
    ghost use Rattle.std.proofs.Math.Option.{none};
    ghost use Rattle.lowering.specs.Builder.{push_string};
    ghost use Rattle.special_properties.specs.SpecialProperties.{same_bytes};
    ghost use Rattle.list_slice.specs.File.{names_string, text_in};
    ghost use Rattle.codegen_state.specs.View.{pool_of};
    ghost use Rattle.codegen_state.specs.Index.{hash};
    ghost use Rattle.constants.specs.Pool.{place, found_of};
    ghost use Rattle.constants.specs.Acts.{Acts};

    // The string of a reference, which `s` is throughout. The byte writer's method of this name writes the string.
    pub fn text(&self, s: u32) -> &'a [u8]
        ensures { result.now ≡ text_in self.now.script.bytes.now s }
    {
        text(&self.script, s)
    }

    // Whether a string of the pool is the one sought: the same reference is the same string, and of others `==` decides,
    // in `same_bytes`, which carries the law of it.
    fn same_text(&self, sought: &[u8], s: u32, held: u32) -> bool
        requires { sought.now ≡ text_in self.now.script.bytes.now s }
        ensures { result ≡ same_bytes (text_in self.now.script.bytes.now s) (text_in self.now.script.bytes.now held) }
    {
        held == s || same_bytes(sought, self.text(held))
    }

    // The first of the pool's strings with the same bytes, among those with the same hash h. The two calls use no heap, so that the index is words of the lent
    // slice, with 0 for no string. `successors` would take the two lines that follow a link into closures, and `filter` and `last` the other two.
    fn find(&self, s: u32, h: u32) -> Option<u32>
        requires { h ≡ hash (text_in self.now.script.bytes.now s) }
        ensures { found_of result ≡ place self.now.script.bytes.now (pool_of self.now.builder.state self.now.builder.list.now) s }
    {
        let sought = self.text(s);
        let list = &*self.builder.list;
        let mut next = list[HEADS + h as usize];
        let mut found = None;
        while let Some(i) = next.checked_sub(1) {
            let at = i as usize;
            if self.same_text(sought, s, list[POOL_AT + at]) {
                found = Some(i);
            }
            next = list[LINKS + at];
        }
        found
    }

    // A string that the pool does not hold joins it if the total stays a 16-bit number. The value is pushed first: it makes the room for the pool's word.
    fn push_new(&mut self, s: u32, h: u32)
        requires going { IsNone self.old.builder.state.refused }
        requires h_value { h ≡ hash (text_in self.old.script.bytes.now s) }
        ensures { T (names_string self.old.script.bytes.now s) →
            place self.old.script.bytes.now (pool_of self.old.builder.state self.old.builder.list.now) s ≡ none →
            Acts (push_string (text_in self.old.script.bytes.now s)) self.old tt self.new }
    {
        let size = self.text(s).len();
        if 65535 - self.builder.state.total as usize <= size {
            self.builder.push(PushValue::String(s));
            return;
        }
        let n = self.builder.state.constants;
        self.builder.push(PushValue::Constant(n));
        if self.builder.state.refused.is_none() {
            add(&mut self.builder, s, size as u32 + 1, h);
        }
    }

    // A string of the pool is pushed as its place there, a string that does not join the pool as itself.
    pub fn push_string(&mut self, s: u32)
        ensures { T (names_string self.old.script.bytes.now s) →
            Acts (push_string (text_in self.old.script.bytes.now s)) self.old tt self.new }
    {
        if self.builder.state.refused.is_some() {
            return;
        }
        let h = bucket(self.text(s));
        match self.find(s, h) {
            Some(i) => self.builder.push(PushValue::Constant(i)),
            None => self.push_new(s, h),
        }
    }
}

// The string becomes the pool's last one, and the latest of its hash.
fn add(b: &mut CodeBuilder, s: u32, size: u32, h: u32)
    requires room { b.old.state.constants < b.old.state.values }
    requires size_bound { b.old.state.total + size ≤ 65535 }
    requires h_bound { h < 2048 }
    ensures same_list { SameList b.old b.new }
    ensures added { Added b.old.state b.old.list.now s size h b.new.state b.new.list.now }
{
    let list = &mut *b.list;
    let state = &mut b.state;
    let n = state.constants as usize;
    let head = HEADS + h as usize;
    let before = list[head];
    list[POOL_AT + n] = s;
    list[LINKS + n] = before;
    list[head] = state.constants + 1;
    state.constants += 1;
    state.total += size;
}
