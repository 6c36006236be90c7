// Records with few data, which are all of `d`. Those of fixed data differ in reader, code and what becomes of the number: one function of all would take these three as arguments,
// and be no shorter.
ghost use Rattle.std.specs.Prelude.{◌≡◌, ◌+◌, ◌<◌, ◌^◌, ℕ};
ghost use Rattle.pcode.specs.Pcode.{Branching};
ghost use Rattle.action_format.specs.Decode.{read_pool, read_branch};
ghost use Rattle.list_slice.specs.Entry.{branch_code};
ghost use Rattle.record_reader.specs.Shape.{read_call, read_frame, read_register, read_label, read_play};
ghost use Rattle.record_reader.specs.Steps.{whole, content_of};

use crate::parts::{Name, byte, flag, many, string, whole, word};
use crate::{Content, Kind, codes};

// A code is a byte that is read and a word that is left (`codes`).
fn plain(code: u8, first: usize, fits: bool) -> Content
    ensures kind { result.kind ≡ Kind.Plain code first }
    ensures fits { result.fits ≡ fits }
{
    let kind = Kind::Plain {
        code: u32::from(code),
        first,
    };
    Content { kind, fits }
}

pub fn call(d: &[u8]) -> Option<Content>
    ensures { (at pool : ℕ) → result ≡ content_of at pool (whole (read_call d.now)) }
{
    if d.is_empty() {
        Some(plain(codes::CALL, 0, true))
    } else {
        None
    }
}

pub fn frame(d: &[u8]) -> Option<Content>
    ensures { (at pool : ℕ) → result ≡ content_of at pool (whole (read_frame d.now)) }
{
    let n = whole(word(d))?;
    Some(plain(codes::GOTO_FRAME, usize::from(n), true))
}

pub fn register(d: &[u8]) -> Option<Content>
    ensures { (at pool : ℕ) → result ≡ content_of at pool (whole (read_register d.now)) }
{
    let r = whole(byte(d))?;
    Some(plain(codes::STORE_REGISTER, usize::from(r), true))
}

pub fn play(d: &[u8]) -> Option<Content>
    ensures { (at pool : ℕ) → result ≡ content_of at pool (whole (read_play d.now)) }
{
    let p = whole(flag(d))?;
    Some(plain(codes::GOTO_FRAME_2, usize::from(p), true))
}

// The string of a record at `at` stands three bytes further. A label's entry has the place of its one string, a pool's the count of its strings: the two share `whole` alone.
pub fn label(d: &[u8], at: usize) -> Option<Content>
    requires { at + 3 < 2 ^ 64 }
    ensures { (pool : ℕ) → result ≡ content_of at pool (whole (read_label d.now)) }
{
    let fits = whole(string(d))?;
    Some(plain(codes::GOTO_LABEL, at + 3, fits))
}

// A Jump or an If, as its code says. A code is a byte that is read and a word that is left (`codes`).
pub fn branch(d: &[u8], code: u8) -> Option<Content>
    ensures { (b : Branching) (at pool : ℕ) → code ≡ branch_code b → result ≡ content_of at pool (whole (read_branch b d.now)) }
{
    let offset = usize::from(whole(word(d))?);
    let kind = Kind::Branch {
        code: u32::from(code),
        offset,
    };
    Some(Content { kind, fits: true })
}

pub fn pool_record(d: &[u8]) -> Option<Content>
    ensures { (at pool : ℕ) → result ≡ content_of at pool (whole (read_pool d.now)) }
{
    let (count, rest) = word(d)?;
    let fits = whole(many::<Name>(rest, count))?;
    Some(Content {
        kind: Kind::Pool {
            strings: usize::from(count),
        },
        fits,
    })
}
