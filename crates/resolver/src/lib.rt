#![tactic(auto)]

// What the writer of action bytes needs of the compiled lists: the bytes of each body and the offset of each branch, or a refusal.
mod branches;
pub mod lists;
pub mod passes;
mod text;
mod walk;

ghost use Rattle.std.specs.Prelude.{◌≡◌};
ghost use Rattle.resolver.specs.Lowered.{Lowered};
ghost use Rattle.resolver.specs.Resolved.{Resolves};

use crate::lists::Lists;
use crate::passes::Tables;
use refusal::Refusal;

impl Lists<'_> {
    // The bytes of each body, by list number, and the offset of each branch, by its entry; and the bytes of the top list's body.
    pub fn resolve(&self, tables: &mut Tables) -> Result<u32, Refusal>
        ensures { (h : Lowered self.now.script.bytes.now self.now.list.now) →
            Resolves self.now.script.bytes.now self.now.list.now h.lists tables.new.sizes tables.new.offsets result }
    {
        if !self.clear_lists() {
            return Err(Refusal::ZeroByte);
        }
        self.measure_lists(tables)?;
        Ok(tables.sizes[0])
    }
}
