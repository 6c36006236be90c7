// The place of a branch's target among the positions of a list's actions.
ghost use Rattle.std.specs.Prelude.{◌≡◌, ◌≤◌, length};
ghost use Rattle.action_reader.specs.Places.{Rises, IsSeek, IsPlace};

use slice_words::code::{IF, JUMP};

// The place that begins at byte x, in a list that stops at byte `stop`.
fn seek(positions: &[u32], stop: usize, x: u32) -> Option<u32>
    requires few { length positions.now ≤ 1024 }
    requires rises { Rises positions.now }
    ensures { IsSeek positions.now stop x result }
{
    match positions.binary_search(&x) {
        Ok(i) => Some(i as u32),
        Err(_) if x as usize == stop => Some(positions.len() as u32),
        Err(_) => None,
    }
}

// The first word of an entry in a list that stops at byte `stop`: a branch's target becomes its place, others stay. The code is a word of the list slice, which programs in other
// languages read, and so a number.
pub fn place_of(positions: &[u32], stop: usize, code: u32, first: u32) -> Option<u32>
    requires few { length positions.now ≤ 1024 }
    requires rises { Rises positions.now }
    ensures { IsPlace positions.now stop code first result }
{
    match code {
        JUMP | IF => seek(positions, stop, first),
        _ => Some(first),
    }
}
