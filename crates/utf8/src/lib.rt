#![tactic(auto)]

mod ascii;
mod chars;
mod mixed;

ghost use Rattle.std.specs.Prelude.{◌≡◌};
ghost use Rattle.utf8.specs.Utf8.{utf8};

// In the modules a position stands beside all the bytes, and not the rest of them from there on: a window looks at the three bytes before it too. A struct of
// the two would be taken apart again wherever a byte is read, and that the position is one of the bytes' is all that each function asks of it.

// Whether the bytes are UTF-8 (RFC 3629). Most are passed many at a time; where that comes no further some chars are taken one by one, which is what
// can refuse. The library's own tests are slower: `str::from_utf8` on text of wide chars, `simdutf8` on short strings of ASCII and on text with a wide char
// now and then. A `while`, as each turn goes on by as many bytes as it passes.
pub fn is_utf8(s: &[u8]) -> bool
    ensures { result ≡ utf8 s.now }
{
    let mut i: usize = 0;
    while i < s.len() {
        let start = ascii::eights(s, mixed::pass_windows(s, i));
        if start == s.len() {
            return true;
        }
        let next = chars::pass_chars(s, start);
        if next == start {
            return false;
        }
        i = next;
    }
    true
}
