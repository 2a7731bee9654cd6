//! Why a call is refused: each fault holds the fault of the layer below whole.
ghost use Rattle.std.specs.Prelude.{◌≡◌};
ghost use Rattle.book.specs.Refusals.{coded};
ghost use Rattle.book.specs.declared.refusal.Refusal.TheVariants.{NoPlace, NotEntered, NotRun, NotWritten, NotPrinted};
ghost use Rattle.book.specs.declared.refusal.RunFault.TheVariants.{Unread, Stopped};

use stack::LineFault;

/// Why a run is refused.
#[derive(Clone, Copy, Debug, PartialEq, Eq)]
pub enum RunFault {
    /// The script cannot be read.
    Unread(recipe::Fault),
    /// A line cannot be carried out; the lines before it are.
    Stopped(LineFault),
}

/// Why a call is refused.
#[derive(Clone, Copy, Debug, PartialEq, Eq)]
pub enum Refusal {
    /// The memory has too few weights.
    ShortMemory,
    /// No place has the number.
    NoPlace,
    /// The words are not those of a body.
    NotEntered(words::Fault),
    /// The script is not carried out.
    NotRun(RunFault),
    /// The body is not written.
    NotWritten(words::WriteFault),
    /// The tile is not printed.
    NotPrinted(tile::Fault),
}

// By hand, each of these: a derived `From` promises nothing of what it makes.
impl From<recipe::Fault> for RunFault {
    ghost from_gives = { λ f r. r ≡ Unread f };

    fn from(f: recipe::Fault) -> RunFault {
        RunFault::Unread(f)
    }
}

impl From<LineFault> for RunFault {
    ghost from_gives = { λ f r. r ≡ Stopped f };

    fn from(f: LineFault) -> RunFault {
        RunFault::Stopped(f)
    }
}

impl From<RunFault> for Refusal {
    ghost from_gives = { λ f r. r ≡ NotRun f };

    fn from(f: RunFault) -> Refusal {
        Refusal::NotRun(f)
    }
}

impl From<recipe::NoPlace> for Refusal {
    ghost from_gives = { λ _ r. r ≡ NoPlace };

    fn from(_number: recipe::NoPlace) -> Refusal {
        Self::NoPlace
    }
}

impl From<words::Fault> for Refusal {
    ghost from_gives = { λ f r. r ≡ NotEntered f };

    fn from(f: words::Fault) -> Refusal {
        Refusal::NotEntered(f)
    }
}

impl From<words::WriteFault> for Refusal {
    ghost from_gives = { λ f r. r ≡ NotWritten f };

    fn from(f: words::WriteFault) -> Refusal {
        Refusal::NotWritten(f)
    }
}

impl From<tile::Fault> for Refusal {
    ghost from_gives = { λ f r. r ≡ NotPrinted f };

    fn from(f: tile::Fault) -> Refusal {
        Refusal::NotPrinted(f)
    }
}

impl Refusal {
    /// The refusal's number, 1 to 16.
    // No `From`: `refusal.number()` says which number is meant.
    pub fn number(self) -> u8
        ensures { result ≡ (coded self).number }
    {
        match self {
            Refusal::ShortMemory => 1,
            Refusal::NoPlace => 2,
            Refusal::NotEntered(f) => f.number(),
            Refusal::NotRun(RunFault::Unread(f)) => f.number(),
            Refusal::NotRun(RunFault::Stopped(f)) => f.step.fault.number(),
            Refusal::NotWritten(f) => f.number(),
            Refusal::NotPrinted(f) => f.number(),
        }
    }

    /// The line that is refused, if it is one line.
    pub fn line(self) -> Option<usize>
        ensures { result ≡ (coded self).line }
    {
        match self {
            Refusal::NotRun(RunFault::Stopped(f)) => Some(f.line),
            _ => None,
        }
    }

    /// The index of the word, byte or mark that is refused, if it is one.
    pub fn index(self) -> Option<usize>
        ensures { result ≡ (coded self).index }
    {
        match self {
            Refusal::NotEntered(f) => f.index(),
            Refusal::NotRun(RunFault::Unread(f)) => f.byte(),
            Refusal::NotRun(RunFault::Stopped(f)) => Some(f.step.mark),
            _ => None,
        }
    }
}
