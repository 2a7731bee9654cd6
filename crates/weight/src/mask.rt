ghost use Rattle.std.specs.Prelude.{◌≡◌, Some, decimal};
ghost use Rattle.std.specs.Fmt.{styled_decimal};
ghost use Rattle.weight.specs.Mask.{mask_kind, mask_number};
ghost use Rattle.std.proofs.Common.{rules};

use crate::kind::Weight;
use crate::one_word::OneWord;
use std::fmt::{self, Display};

/// Set or not.
#[derive(Clone, Copy, Debug, PartialEq, Eq)]
pub struct Mask {
    pub set: bool,
}

impl Mask {
    // A method and no conversion: what the number says hangs on the kind.
    pub fn number(self) -> u32
        ensures { result ≡ mask_number self }
    {
        u32::from(self.set)
    }
}

impl Weight for Mask {
    ghost kind = { mask_kind };

    ghost laws = { Prim.search rules };

    fn zero() -> Mask {
        Mask { set: false }
    }

    fn one() -> Mask {
        Mask { set: true }
    }

    fn plus(self, other: Mask) -> Mask {
        Mask {
            set: self.set | other.set,
        }
    }

    fn times(self, other: Mask) -> Mask {
        Mask {
            set: self.set & other.set,
        }
    }

    fn exchanges() -> bool {
        true
    }
}

impl OneWord for Mask {
    ghost CODE = { 1 };

    ghost payload = { mask_number };

    ghost payloads = { Prim.search rules };

    const CODE: u32 = 1;

    fn payload(self) -> u32 {
        self.number()
    }

    fn from_payload(number: u32) -> Option<Mask> {
        match number {
            0 => Some(Mask { set: false }),
            1 => Some(Mask { set: true }),
            _ => None,
        }
    }
}

impl Display for Mask {
    ghost output = { λ v. Some (decimal (mask_number v)) };

    ghost styled_output = { λ v s. Some (styled_decimal s (mask_number v)) };

    fn fmt<W: fmt::Write>(&self, f: &mut fmt::Formatter<W>) -> fmt::Result {
        self.number().fmt(f)
    }
}
