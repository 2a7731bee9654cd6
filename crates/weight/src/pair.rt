ghost use Rattle.std.specs.Prelude.{Some, codes};
ghost use Rattle.std.specs.Fmt.{◌++?◌};
ghost use Rattle.weight.specs.Pair.{pair_kind, pair_writing};
ghost use Rattle.weight.specs.Parts.{pair_laws};
ghost use Rattle.weight.specs.SideBySide.{pair_words};

use crate::kind::Weight;
use crate::written::{TOO_WIDE, Written};
use std::fmt::{self, Display};

/// Two weights side by side.
#[derive(Clone, Copy, Debug, PartialEq, Eq)]
pub struct Pair<A, B> {
    pub first: A,
    pub second: B,
}

impl<A: Weight, B: Weight> Weight for Pair<A, B> {
    ghost kind = { pair_kind A.Weight.kind B.Weight.kind };

    ghost laws = { pair_laws A.Weight.laws B.Weight.laws };

    fn zero() -> Pair<A, B> {
        Pair {
            first: A::zero(),
            second: B::zero(),
        }
    }

    fn one() -> Pair<A, B> {
        Pair {
            first: A::one(),
            second: B::one(),
        }
    }

    fn plus(self, other: Pair<A, B>) -> Pair<A, B> {
        Pair {
            first: self.first.plus(other.first),
            second: self.second.plus(other.second),
        }
    }

    fn times(self, other: Pair<A, B>) -> Pair<A, B> {
        Pair {
            first: self.first.times(other.first),
            second: self.second.times(other.second),
        }
    }

    fn exchanges() -> bool {
        A::exchanges() & B::exchanges()
    }
}

impl<A: Written, B: Written> Written for Pair<A, B> {
    ghost writing = { pair_writing A.Written.writing B.Written.writing };

    ghost words = { pair_words A.Written.words B.Written.words };

    fn code() -> u32 {
        6
    }

    fn width() -> usize {
        (A::width() + B::width()).min(TOO_WIDE)
    }

    fn word(self, i: usize) -> u32 {
        let middle = A::width();
        if middle + B::width() >= TOO_WIDE {
            0
        } else if i < middle {
            self.first.word(i)
        } else {
            self.second.word(i - middle)
        }
    }

    fn read(given: &[u32]) -> Option<Pair<A, B>> {
        let middle = A::width();
        if middle + B::width() >= TOO_WIDE {
            return None;
        }
        let (front, back) = given.split_at_checked(middle)?;
        let first = A::read(front)?;
        let second = B::read(back)?;
        Some(Pair { first, second })
    }
}

impl<A: Display, B: Display> Display for Pair<A, B> {
    ghost output = { λ v. A.output v.first ++? Some (codes "/") ++? B.output v.second };

    fn fmt<W: fmt::Write>(&self, f: &mut fmt::Formatter<W>) -> fmt::Result {
        write!(f, "{}/{}", self.first, self.second)
    }
}
