#![tactic(auto)]

// The pool of strings (`constants.rs`): how a string is hashed. A string is its reference: an index of the file's table, or 0xffffffff for the empty
// string of a property's target.
ghost use Rattle.std.specs.Prelude.{◌≡◌, ◌+◌, ◌*◌, ◌<◌, ◌≤◌, length};
ghost use Rattle.codegen_state.specs.Index.{word, mixed, rounds, hash};

pub mod context;

// The longest string of which all bytes are hashed; of a longer one 32 words of each end are.
const WHOLE: usize = 4096;

// Four bytes as one number, which the compiler reads at once. Elsewhere words are read of a file as u32, or off the front of bytes as an Option: here the string is
// known to be long enough, and the hash counts in u64.
fn word(s: &[u8], i: usize) -> u64
    requires { i + 4 ≤ length s.now }
    ensures { (result ≡ word s.now i) × (result < 4294967296) }
{
    u64::from(u32::from_le_bytes([s[i], s[i + 1], s[i + 2], s[i + 3]]))
}

// The bytes of a string that is shorter than a word, with zeros behind them: for those the buffer has a word's length.
fn short_word(s: &[u8]) -> u64
    requires { length s.now < 4 }
    ensures { (result ≡ word s.now 0) × (result < 4294967296) }
{
    let mut bytes = [0u8; 4];
    bytes[..s.len()].copy_from_slice(s);
    u64::from(u32::from_le_bytes(bytes))
}

fn mixed(h: u64, a: u64, b: u64) -> u64
    requires { (h < 8589934592) × ((a < 4294967296) × (b < 4294967296)) }
    ensures { (result ≡ mixed h a b) × (result < 8589934592) }
{
    let x = h * 402653189 + (a * 430309897 + b * 784330331);
    x % 2147483648 + x / 2147483648
}

// How many words of each end of a string of n bytes are hashed.
fn rounds(n: usize) -> usize
    requires { 4 ≤ n }
    ensures { (result ≡ rounds n) × (4 * result ≤ n) }
{
    if WHOLE < n {
        return 32;
    }
    n / 8 + 1
}

// The hash of a string: no more than 4,096 of its bytes count, so that a long string that is pushed often costs no more than others.
pub(crate) fn bucket(s: &[u8]) -> u32
    ensures { (result ≡ hash s.now) × (result < 2048) }
{
    let n = s.len();
    // The hash begins with the low 16 bits of the length, which is a number already.
    let mut h = (n % 65536) as u64;
    if n < 4 {
        let w = short_word(s);
        return (mixed(h, w, w) % 2048) as u32;
    }
    for k in 0..rounds(n) {
        h = mixed(h, word(s, 4 * k), word(s, n - 4 * k - 4));
    }
    (h % 2048) as u32
}
