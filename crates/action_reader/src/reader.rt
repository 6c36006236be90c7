// The walk over all records.
ghost use Rattle.std.specs.Prelude.{◌≡◌, ◌≤◌, length};
ghost use Rattle.list_slice.specs.Words.{zeros_of};
ghost use Rattle.action_reader.specs.Walked.{OrRefused, Done};

use crate::begin::begin;
use crate::walk::{Span, Walk};
use arrayvec::ArrayVec;
use slice_words::MAX_ENTRIES;

// `None` if the bytes are not action bytes. A step moves on by a record or out of a body, as the state says, so the loop asks the state and has nothing to count. The bytes and the
// slice are the call's two arguments, lent in different ways: the bytes become a field of the walk here.
pub fn read_lists(bytes: &[u8], list: &mut [u32]) -> Option<()>
    requires in_bounds { 16384 ≤ length list.old }
    requires list_value { list.old ≡ zeros_of (length list.old) }
    ensures { OrRefused bytes.now result (λ x. Done bytes.now list.new) }
{
    let (at, pool) = begin(bytes, list)?;
    let mut table = ArrayVec::new();
    table.push(0);
    let mut walk = Walk {
        bytes,
        at,
        span: Span {
            end: bytes.len(),
            base: MAX_ENTRIES,
            first: 0,
        },
        actions: 1,
        values: 0,
        low: 0,
        top: MAX_ENTRIES - 1,
        lists: 0,
        pool,
        table,
        outer: ArrayVec::new(),
    };
    while !walk.is_over() {
        walk.step(list)?;
    }
    walk.end_list(list)?;
    Some(())
}
