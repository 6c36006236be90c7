// A list that is done moves down, from where it was built to behind the finished lists.
ghost use Rattle.builder.specs.Move.{Movable, Moved};

// Moves the entries from `from` to `end` down to `to`, and says where they end there. What was zeros stays so. An entry is three words for programs in other languages, so
// that a list moves as one block of words. The reader's `settle_list` moves entry by entry, since each branch gets another word on the way.
pub fn move_list(list: &mut [u32], to: usize, from: usize, end: usize) -> usize
    requires { Movable list.old to from end }
    ensures { Moved list.old to from result end list.new }
{
    let low = to + (end - from);
    let left = low.max(from);
    list.copy_within(from * 3..end * 3, to * 3);
    list[left * 3..end * 3].fill(0);
    low
}
