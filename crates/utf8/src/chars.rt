// Chars one by one.
ghost use Rattle.std.specs.Prelude.{◌≡◌, true, false, cond, ◌+◌, ◌≤◌, ◌<◌, length, get_or};
ghost use Rattle.utf8.specs.Utf8.{in_range, ◌to◌};
ghost use Rattle.utf8.specs.Chars.{second, firsts, Stands, Ran};

// Whether a byte is in a range.
pub fn within(b: u8, low: u8, high: u8) -> bool
    ensures { result ≡ in_range b (low to high) }
{
    (low..=high).contains(&b)
}

// The lowest byte that can stand after a first byte: others would be overlong forms. A sum, so that the compiler can do this for many bytes at once. The
// highest one is a function of its own, since it differs after other bytes and goes down where this one goes up.
fn lowest(first: u8) -> u8
    ensures { result ≡ (second first).low }
{
    0x80 + 0x20 * u8::from(first == 0xE0) + 0x10 * u8::from(first == 0xF0)
}

// The highest byte that can stand after a first byte: others would be surrogates, or above 10FFFF.
fn highest(first: u8) -> u8
    ensures { result ≡ (second first).high }
{
    0xBF - 0x20 * u8::from(first == 0xED) - 0x30 * u8::from(first == 0xF4)
}

// Whether a byte can stand after a first byte.
pub fn is_second(first: u8, b: u8) -> bool
    ensures { result ≡ in_range b (second first) }
{
    within(b, lowest(first), highest(first))
}

// The same for the first byte of a char of N bytes. Of those of four bytes only two are special, so that there a branch costs less than a sum: with
// `is_second` in its place, 1 MiB in strings of four such chars takes 1.62 ms, and 1.37 so.
fn goes_on<const N: usize>(first: u8, b: u8) -> bool
    requires { N ≡ 4 → 0xF0 ≤ first }
    ensures { result ≡ in_range b (second first) }
{
    if N != 4 {
        return is_second(first, b);
    }
    if first == 0xF0 {
        return within(b, 0x90, 0xBF);
    }
    if first == 0xF4 {
        return within(b, 0x80, 0x8F);
    }
    within(b, 0x80, 0xBF)
}

// UTF8-2, UTF8-3 or UTF8-4, by its first byte: whether it stands at a position.
fn is_char<const N: usize>(s: &[u8], i: usize) -> bool
    requires length { (2 ≤ N) × (N ≤ 4) }
    requires first { (i < length s.now) × (in_range (get_or s.now i 0) (firsts N) ≡ true) }
    ensures { Stands s.now i N result }
{
    if s.len() - i < N {
        return false;
    }
    if !goes_on::<N>(s[i], s[i + 1]) {
        return false;
    }
    s[i + 2..i + N].iter().all(|b| within(*b, 0x80, 0xBF))
}

// The same where no byte is left but those that start four bytes or nothing.
fn is_last_form(s: &[u8], i: usize) -> bool
    requires { (i < length s.now) × (0x80 ≤ get_or s.now i 0) × (in_range (get_or s.now i 0) (0xC2 to 0xDF) ≡ false) × (in_range (get_or s.now i 0) (0xE0 to 0xEF) ≡ false) }
    ensures { Stands s.now i 4 result }
{
    if !within(s[i], 0xF0, 0xF4) {
        return false;
    }
    is_char::<4>(s, i)
}

// Where to stop at the latest: after a few chars, or at the end of a text that is too short for windows.
fn stop_at(s: &[u8], start: usize) -> usize
    requires { start < length s.now }
    ensures { (start < result) × (result ≤ length s.now) }
{
    if s.len() - start < 32 {
        return s.len();
    }
    start + 6
}

// Where some chars end, up to a first one of ASCII. A few neighbours are not worth a window, and the branches for each width are foreseen where
// chars are alike. A `while`, as each turn goes on by as many bytes as its char has.
pub fn pass_chars(s: &[u8], start: usize) -> usize
    requires { start < length s.now }
    ensures { Ran s.now start result }
{
    let stop = stop_at(s, start);
    let mut i = start;
    while i < stop {
        if s[i] < 0x80 {
            return i + 1;
        }
        if within(s[i], 0xC2, 0xDF) {
            if !is_char::<2>(s, i) {
                return i;
            }
            i += 2;
        } else if within(s[i], 0xE0, 0xEF) {
            if !is_char::<3>(s, i) {
                return i;
            }
            i += 3;
        } else {
            if !is_last_form(s, i) {
                return i;
            }
            i += 4;
        }
    }
    i
}
