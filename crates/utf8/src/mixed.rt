// Text in which chars of several bytes stand, 16 bytes at a time.
ghost use Rattle.std.specs.Prelude.{◌≡◌, true, false, cond, ◌+◌, ◌-◌, ◌≤◌, ◌<◌, ltb, length};
ghost use Rattle.utf8.specs.Chars.{is_first, owes, may_follow, Follows, last_start, Passed, Closed, Past};

use crate::ascii::{is_ascii, pass_ascii};
use crate::chars::{is_second, within};

// Whether a byte can start a char.
fn is_first(b: u8) -> bool
    ensures { result ≡ is_first b }
{
    b < 0x80 || within(b, 0xC2, 0xF4)
}

// Whether a char is open after three bytes.
fn is_open(third: u8, prior: u8, last: u8) -> bool
    ensures { result ≡ owes third prior last }
{
    0xC0 <= last || 0xE0 <= prior || 0xF0 <= third
}

// Whether a byte can stand after three bytes. Both answers are there before the choice, so that the compiler can do this for many bytes at once.
fn may_follow(third: u8, prior: u8, last: u8, b: u8) -> bool
    ensures { result ≡ may_follow third prior last b }
{
    let goes_on = is_second(last, b);
    let starts = is_first(b);
    if is_open(third, prior, last) {
        goes_on
    } else {
        starts
    }
}

// Whether each of the 16 bytes from i + 3 on can stand after the three before it. No byte ends the search, and the count is a byte, so that the compiler
// looks at all of them at once: it does not in a chain that ends early.
fn is_window(s: &[u8], i: usize) -> bool
    requires { i + 19 ≤ length s.now }
    ensures { result ≡ true → Follows s.now i 16 }
{
    let mut count: u8 = 0;
    for k in 0..16 {
        let at = i + k;
        if may_follow(s[at], s[at + 1], s[at + 2], s[at + 3]) {
            count += 1;
        }
    }
    count == 16
}

// Where the char starts that is open at i + 3, or i + 3.
fn open_start(s: &[u8], i: usize) -> usize
    requires { i + 3 ≤ length s.now }
    ensures { result ≡ last_start s.now i }
{
    if 0xC0 <= s[i + 2] {
        return i + 2;
    }
    if 0xE0 <= s[i + 1] {
        return i + 1;
    }
    if 0xF0 <= s[i] {
        return i;
    }
    i + 3
}

// The same. Most often no char is open; that this is a branch lets the processor go on before it has the bytes. With one function for both, with the branch
// or without, 1 MiB of text with each two-hundredth char of two bytes takes 80 microseconds, and 74 so: 8 in a hundred more, where Rascal's time is 4 in a
// hundred above this one (docs/SPEED.md: 61.4 and 59.2).
fn last_start(s: &[u8], i: usize) -> usize
    requires { i + 3 ≤ length s.now }
    ensures { result ≡ last_start s.now i }
{
    if is_open(s[i], s[i + 1], s[i + 2]) {
        return open_start(s, i);
    }
    i + 3
}

// Whether a window is worth its while: 16 bytes of which not all are ASCII.
fn is_mixed(s: &[u8], i: usize) -> bool
    requires { i ≤ length s.now }
    ensures { result ≡ true → i + 16 ≤ length s.now }
{
    16 <= s.len() - i && !is_ascii::<16>(s, i)
}

// Where the windows from start + 3 on end, less a char that the last one cuts. The next window is looked at only where one passes and
// has 16 bytes behind it that are worth it, so that the loop is no walk over windows.
fn windows(s: &[u8], start: usize) -> usize
    requires { (start + 19 ≤ length s.now) × (last_start s.now start ≡ start + 3) }
    ensures { Past s.now (start + 3) result }
{
    let mut i = start;
    while is_window(s, i) {
        i += 16;
        if !is_mixed(s, i + 3) {
            return last_start(s, i);
        }
    }
    last_start(s, i)
}

// Whether no char is open at a position.
fn is_closed(s: &[u8], i: usize) -> bool
    requires { i ≤ length s.now }
    ensures { result ≡ true → Closed s.now i }
{
    i < 3 || last_start(s, i - 3) == i
}

// Whether a position is too near to an end of the text for a window, which looks at the three bytes before it too.
fn is_edge(s: &[u8], i: usize) -> bool
    requires { i ≤ length s.now }
    ensures { result ≡ false → (3 ≤ i) × (i + 16 ≤ length s.now) }
{
    i < 3 || s.len() - i < 16
}

// Where the blocks of ASCII and the windows at a position end. A `while`, as each turn goes on by as many bytes as these have.
pub fn pass_windows(s: &[u8], start: usize) -> usize
    requires { start ≤ length s.now }
    ensures { Passed s.now start result }
{
    if !is_closed(s, start) {
        return start;
    }
    let mut i = start;
    while 16 <= s.len() - i {
        let at = pass_ascii(s, i);
        if is_edge(s, at) {
            return at;
        }
        let next = windows(s, at - 3);
        if next == at {
            return at;
        }
        i = next;
    }
    i
}
