// Runs of ASCII.
ghost use Rattle.std.specs.Prelude.{◌≡◌, true, ◌+◌, ◌≤◌, ◌<◌, length};
ghost use Rattle.utf8.specs.Chars.{Ascii, Passed, Closed, Past};

use std::simd::prelude::*;

// Whether the N bytes from a position on are ASCII. In vectors, since `[u8]::is_ascii` takes twice the time at these sizes.
pub fn is_ascii<const N: usize>(s: &[u8], start: usize) -> bool
    requires { (start + N ≤ length s.now) × (N ≤ 64) }
    ensures { result ≡ true → Ascii s.now start N }
{
    let bytes = Simd::<u8, N>::from_slice(&s[start..]);
    bytes.simd_ge(Simd::<u8, N>::splat(0x80)).to_bitmask() == 0
}

// Where the blocks of N bytes end that are ASCII and stand before an end. With `as_chunks` and `position` in place of the `while`, 1 MiB of text with a wide
// char in forty takes 310 microseconds, and 221 so. That such a function answers with a position up to which all is passed is the one word `Passed`.
fn blocks<const N: usize>(s: &[u8], start: usize, end: usize) -> usize
    requires { (start ≤ end) × (end ≤ length s.now) × (3 ≤ N) × (N ≤ 64) }
    ensures { Passed s.now start result × (result ≤ end) × (Closed s.now start → Closed s.now result) }
{
    let mut i = start;
    while N <= end - i {
        if !is_ascii::<N>(s, i) {
            return i;
        }
        i += N;
    }
    i
}

// Where the bytes end that are ASCII. One call of the library, as in `text_lines::find`: beside it stands only what each makes of the answer.
fn bytes(s: &[u8], start: usize) -> usize
    requires { start ≤ length s.now }
    ensures { Passed s.now start result }
{
    match s[start..].iter().position(|b| 0x80 <= *b) {
        Some(n) => start + n,
        None => s.len(),
    }
}

// How many of eight bytes are ASCII before the first that is not: the lowest of their highest bits tells, without a branch for each.
fn leading(bytes: &[u8; 8]) -> usize
    ensures { (result ≤ 8) × Ascii bytes.now 0 result }
{
    let highest = u64::from_le_bytes(*bytes) & 0x8080808080808080;
    highest.trailing_zeros() as usize / 8
}

// Where the ASCII ends, eight bytes at a time. With a `for` over `as_chunks` in place of the `while`, 130,000 strings of four chars of two bytes take 1.90 ms,
// and 1.68 so: 13 in a hundred more, which is all that Rascal's time for such strings is above this one (docs/SPEED.md: 880 and 780).
pub fn eights(s: &[u8], start: usize) -> usize
    requires { start ≤ length s.now }
    ensures { Passed s.now start result }
{
    let mut i = start;
    while let Some(word) = s[i..].first_chunk::<8>() {
        let n = leading(word);
        if n < 8 {
            return i + n;
        }
        i += 8;
    }
    bytes(s, blocks::<4>(s, i, s.len()))
}

// How far the next char that is not ASCII is sought in narrow blocks.
fn near_end(s: &[u8], start: usize) -> usize
    requires { start ≤ length s.now }
    ensures { (start ≤ result) × (result ≤ length s.now) }
{
    start + (s.len() - start).min(112)
}

// Where the blocks of ASCII at a position end. Wide blocks cost least for each byte, but those before a near char are lost.
pub fn pass_ascii(s: &[u8], start: usize) -> usize
    requires { (start ≤ length s.now) × Closed s.now start }
    ensures { Past s.now start result }
{
    let end = near_end(s, start);
    let near = blocks::<16>(s, start, end);
    if 16 <= end - near {
        return near;
    }
    blocks::<16>(s, blocks::<64>(s, near, s.len()), s.len())
}
