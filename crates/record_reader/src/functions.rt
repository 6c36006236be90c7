// Functions' records, whose data are all of `d`. The second kind has two numbers more in the middle, a rule on each, and parameters of another form: one function of both would
// ask which it reads at three of its steps.
ghost use Rattle.std.specs.Prelude.{◌≡◌, ℕ};
ghost use Rattle.action_format.specs.Decode.{read_function, read_function2};
ghost use Rattle.record_reader.specs.Steps.{whole, content_of};

use crate::parts::{Name, Param, byte, many, string, whole, word};
use crate::{Content, Kind};

pub fn function(d: &[u8]) -> Option<Content>
    ensures { (at pool : ℕ) → result ≡ content_of at pool (whole (read_function d.now)) }
{
    let (name, rest) = string(d)?;
    let (count, rest) = word(rest)?;
    let (params, rest) = many::<Name>(rest, count)?;
    let size = usize::from(whole(word(rest))?);
    Some(Content {
        kind: Kind::Function { size },
        fits: name & params,
    })
}

// Two registers or more, and nine marks.
pub fn function2(d: &[u8]) -> Option<Content>
    ensures { (at pool : ℕ) → result ≡ content_of at pool (whole (read_function2 d.now)) }
{
    let (name, rest) = string(d)?;
    let (count, rest) = word(rest)?;
    let (registers, rest) = byte(rest)?;
    let (marks, rest) = word(rest)?;
    let (params, rest) = many::<Param>(rest, count)?;
    let size = usize::from(whole(word(rest))?);
    Some(Content {
        kind: Kind::Function { size },
        fits: (2 <= registers) & (marks < 512) & name & params,
    })
}
