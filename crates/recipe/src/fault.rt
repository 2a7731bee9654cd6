//! Why a script is refused.
ghost use Rattle.std.specs.Prelude.{◌≡◌, Some};
ghost use Rattle.recipe.specs.Faults.{coded, text};

use std::error::Error;
use std::fmt;

/// Why a script is refused; the last three carry the index of the byte.
#[derive(Clone, Copy, Debug, PartialEq, Eq)]
pub enum Fault {
    /// More bytes than a script may have.
    TooLong,
    /// A byte that the grammar does not allow, or at the script's length an end that it does not allow.
    Grammar(usize),
    /// The first byte of a part whose level is too high.
    Level(usize),
    /// A place that is one waiting picture too many.
    Waiting(usize),
}

impl Fault {
    /// The refusal's number.
    // No `From`: `fault.number()` says which number is meant.
    pub fn number(self) -> u8
        ensures { result ≡ (coded self).0 }
    {
        match self {
            Fault::TooLong => 8,
            Fault::Grammar(_) => 9,
            Fault::Level(_) => 10,
            Fault::Waiting(_) => 11,
        }
    }

    /// The index of the byte that is refused, if it is one byte.
    pub fn byte(self) -> Option<usize>
        ensures { result ≡ (coded self).1 }
    {
        match self {
            Fault::TooLong => None,
            Fault::Grammar(i) | Fault::Level(i) | Fault::Waiting(i) => Some(i),
        }
    }
}

// By hand: what a derive of `thiserror` writes promises nothing of the text.
impl fmt::Display for Fault {
    ghost output = { λ f. Some (text f) };

    fn fmt<W: fmt::Write>(&self, f: &mut fmt::Formatter<W>) -> fmt::Result {
        f.write_str(match self {
            Fault::TooLong => "more than 512 bytes",
            Fault::Grammar(_) => "a byte or an end that the grammar does not allow",
            Fault::Level(_) => "a level above 16",
            Fault::Waiting(_) => "a seventh waiting picture",
        })
    }
}

impl Error for Fault {}
