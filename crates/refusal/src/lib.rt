#![tactic(auto)]

// The refusals of document 01, by their numbers.
ghost use Rattle.std.specs.Prelude.{◌≡◌};
ghost use Rattle.refusal.specs.Refusal.{number_of};

use std::error::Error;
use std::fmt;

#[derive(Clone, Copy, Debug, PartialEq, Eq)]
pub enum Refusal {
    BrokenRule,
    NotUtf8,
    Unsupported,
    OverLimit,
    NotAssignable,
    SecondDefault,
    Negation,
    TooMany,
    ZeroByte,
    TooLong,
    TooFar,
    ShortOutput,
    ShortList,
    NotActions,
}

impl Refusal {
    // Document 01's number.
    pub fn number(self) -> u32
        ensures { result ≡ number_of self }
    {
        self as u32 + 1
    }
}

// `fmt` has the parameters that Display gives it.
impl fmt::Display for Refusal {
    fn fmt<W: fmt::Write>(&self, f: &mut fmt::Formatter<W>) -> fmt::Result {
        match self {
            Refusal::BrokenRule => write!(f, "A rule of the script file is broken."),
            Refusal::NotUtf8 => write!(f, "A string of the script file is not UTF-8."),
            Refusal::Unsupported => write!(
                f,
                "The script uses try, with, tellTarget, waitForFrame, inline p-code or getURL."
            ),
            Refusal::OverLimit => write!(
                f,
                "The script file has more than 1,048,576 bytes, or its tree is deeper than 128."
            ),
            Refusal::NotAssignable => write!(
                f,
                "A direct value is set, or a property is deleted, called or constructed."
            ),
            Refusal::SecondDefault => write!(f, "A switch has a second Default."),
            Refusal::Negation => write!(f, "The integer -2147483648 is negated."),
            Refusal::TooMany => write!(
                f,
                "The script has more than 1,024 actions, 2,048 push values or 1,024 labels."
            ),
            Refusal::ZeroByte => write!(f, "A string to be written has a zero byte."),
            Refusal::TooLong => write!(
                f,
                "A record's data or a function's body has more than 65,535 bytes."
            ),
            Refusal::TooFar => write!(f, "A branch leads further than -32768 to 32767 bytes."),
            Refusal::ShortOutput => write!(f, "The action bytes are more than 2,097,152."),
            Refusal::ShortList => write!(f, "The list slice has fewer than 16,384 words."),
            Refusal::NotActions => write!(f, "The bytes are not action bytes that lists give."),
        }
    }
}

impl Error for Refusal {}
