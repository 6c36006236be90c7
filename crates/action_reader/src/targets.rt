// Where a branch leads.
ghost use Rattle.std.specs.Prelude.{◌≡◌, ◌+◌, ◌<◌};
ghost use Rattle.action_reader.specs.Targets.{target_of};

// The target of a branch whose record stands at `at`: its offset, in two's complement, counts from the byte after the record.
// By hand: `checked_add_signed` would take an isize, which the offset's 16 bits become only by a u16 and an i16 between.
pub fn target_of(at: usize, offset: usize) -> Option<usize>
    requires at_bound { at < 4294967296 }
    requires offset_bound { offset < 65536 }
    ensures { result ≡ target_of at offset }
{
    let sum = at + 5 + offset;
    if offset < 32768 {
        Some(sum)
    } else {
        sum.checked_sub(65536)
    }
}
