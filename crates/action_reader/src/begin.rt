// The first record, which is the pool.
ghost use Rattle.std.specs.Prelude.{◌≡◌, ◌≤◌, length};
ghost use Rattle.list_slice.specs.Words.{zeros_of};
ghost use Rattle.action_reader.specs.State.{fresh_walk};
ghost use Rattle.action_reader.specs.View.{Stands};
ghost use Rattle.action_reader.specs.Walked.{OrRefused};

use builder::entries::put;
use record_reader::{Kind, head_at};
use slice_words::{MAX_ENTRIES, code};

// The byte after the pool's record, and how many strings it has. The start of a lowering shares the one `put` with this: it reads no record, and makes another state.
pub fn begin(bytes: &[u8], list: &mut [u32]) -> Option<(usize, usize)>
    requires in_bounds { 16384 ≤ length list.old }
    requires list_value { list.old ≡ zeros_of (length list.old) }
    ensures { OrRefused bytes.now result (λ x. Stands bytes.now list.new (fresh_walk bytes.entry x.0 x.1)) }
{
    let h = head_at(bytes, 0, 0)?;
    if !h.fits {
        return None;
    }
    let Kind::Pool { strings } = h.kind else {
        return None;
    };
    put(list, MAX_ENTRIES - 1, code::CONSTANT_POOL, 0, 0);
    Some((h.next, strings))
}
