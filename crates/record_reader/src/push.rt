// A Push: as many values as its data are. Only a value that is read says where the next one begins, so a `for` has nothing to go over; an iterator would have to keep `next` too,
// and say whether it stopped at the end or at bytes that are no value.
ghost use Rattle.std.specs.Prelude.{◌≡◌, ℕ};
ghost use Rattle.action_format.specs.Decode.{read_push};
ghost use Rattle.record_reader.specs.Steps.{whole, content_of};

use crate::values::value;
use crate::{Content, Kind};

pub fn push(d: &[u8], pool: usize) -> Option<Content>
    ensures { (at : ℕ) → result ≡ content_of at pool (whole (read_push d.now)) }
{
    let mut next = 0;
    let mut fits = true;
    let mut count: usize = 0;
    while next < d.len() {
        let v = value(d, next, pool)?;
        next = v.next;
        fits &= v.value.fits;
        count += 1;
    }
    Some(Content {
        kind: Kind::Push { values: count },
        fits: (0 < count) & fits,
    })
}
