ghost use Rattle.std.specs.Prelude.{◌≡◌, Some};
ghost use Rattle.words.specs.Faults.{number_and_index, text, write_number, write_text};
ghost use Rattle.words.specs.declared.fault.Fault.TheVariants.{Piece};
ghost use Rattle.words.specs.declared.fault.PieceFault.TheVariants.{WrongArc, WrongWeight};
ghost use Rattle.words.specs.declared.fault.TripFault.TheVariants.{Read, Write};

use std::error::Error;
use std::fmt;

/// No word, or none that serves, stands at this index.
#[derive(Clone, Copy, Debug, PartialEq, Eq)]
pub struct WordFault {
    pub index: usize,
}

/// No arc between states has the word at this index.
#[derive(Clone, Copy, Debug, PartialEq, Eq)]
pub struct ArcFault {
    pub word: WordFault,
}

/// No weight has the words from this index on.
#[derive(Clone, Copy, Debug, PartialEq, Eq)]
pub struct WeightFault {
    pub word: WordFault,
}

/// The first wrong word behind a head.
#[derive(Clone, Copy, Debug, PartialEq, Eq)]
pub enum PieceFault {
    WrongArc(ArcFault),
    WrongWeight(WeightFault),
}

/// Why words are not those of a body.
#[derive(Clone, Copy, Debug, PartialEq, Eq)]
pub enum Fault {
    Width,
    Head,
    Count,
    Piece(PieceFault),
}

/// Why a body is not written.
#[derive(Clone, Copy, Debug, PartialEq, Eq)]
pub enum WriteFault {
    TooWide,
    TooShort,
}

/// Why words are not read and written again.
#[derive(Clone, Copy, Debug, PartialEq, Eq)]
pub enum TripFault {
    Read(Fault),
    Write(WriteFault),
}

// By hand, each of these: a derived `From` promises nothing of what it makes.
impl From<WordFault> for ArcFault {
    ghost from_gives = { λ f r. r ≡ record { word = f } };

    fn from(f: WordFault) -> ArcFault {
        ArcFault { word: f }
    }
}

impl From<ArcFault> for PieceFault {
    ghost from_gives = { λ f r. r ≡ WrongArc f };

    fn from(f: ArcFault) -> PieceFault {
        PieceFault::WrongArc(f)
    }
}

impl From<WeightFault> for PieceFault {
    ghost from_gives = { λ f r. r ≡ WrongWeight f };

    fn from(f: WeightFault) -> PieceFault {
        PieceFault::WrongWeight(f)
    }
}

impl From<PieceFault> for Fault {
    ghost from_gives = { λ f r. r ≡ Piece f };

    fn from(f: PieceFault) -> Fault {
        Fault::Piece(f)
    }
}

impl From<Fault> for TripFault {
    ghost from_gives = { λ f r. r ≡ Read f };

    fn from(f: Fault) -> TripFault {
        TripFault::Read(f)
    }
}

impl From<WriteFault> for TripFault {
    ghost from_gives = { λ f r. r ≡ Write f };

    fn from(f: WriteFault) -> TripFault {
        TripFault::Write(f)
    }
}

impl Fault {
    /// The number of the fault.
    // No `From`: `fault.number()` says which number is meant.
    pub fn number(self) -> u8
        ensures { result ≡ (number_and_index self).0 }
    {
        match self {
            Fault::Width => 3,
            Fault::Head => 4,
            Fault::Count => 5,
            Fault::Piece(PieceFault::WrongArc(_)) => 6,
            Fault::Piece(PieceFault::WrongWeight(_)) => 7,
        }
    }

    /// The index of the wrong word, where one word is wrong.
    pub fn index(self) -> Option<usize>
        ensures { result ≡ (number_and_index self).1 }
    {
        match self {
            Fault::Piece(PieceFault::WrongArc(f)) => Some(f.word.index),
            Fault::Piece(PieceFault::WrongWeight(f)) => Some(f.word.index),
            _ => None,
        }
    }
}

impl WriteFault {
    /// The number of the fault.
    // No `From`: `fault.number()` says which number is meant.
    pub fn number(self) -> u8
        ensures { result ≡ write_number self }
    {
        match self {
            WriteFault::TooWide => 3,
            WriteFault::TooShort => 16,
        }
    }
}

// By hand, both of these: what a derive of `thiserror` writes promises nothing of the text.
impl fmt::Display for Fault {
    ghost output = { λ f. Some (text f) };

    fn fmt<W: fmt::Write>(&self, f: &mut fmt::Formatter<W>) -> fmt::Result {
        f.write_str(match self {
            Fault::Width => "the kind is too wide to be written",
            Fault::Head => "no word, or a head with a wrong tag, code, width, zero bit or count",
            Fault::Count => "another number of words than the head calls for",
            Fault::Piece(_) => "a wrong arc word, or a weight that no value has",
        })
    }
}

impl Error for Fault {}

impl fmt::Display for WriteFault {
    ghost output = { λ f. Some (write_text f) };

    fn fmt<W: fmt::Write>(&self, f: &mut fmt::Formatter<W>) -> fmt::Result {
        f.write_str("the body is not written")
    }
}

impl Error for WriteFault {}
