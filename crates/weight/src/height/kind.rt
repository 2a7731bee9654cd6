ghost use Rattle.std.specs.Prelude.{◌≡◌, Some, decimal};
ghost use Rattle.std.specs.Fmt.{styled_decimal};
ghost use Rattle.std.proofs.Common.{ap, arith, rules};
ghost use Rattle.weight.specs.Height.{height_number, height, height_kind};
ghost use Rattle.weight.specs.Rounded.{rounded_laws, min_and_plus};
ghost use Rattle.weight.specs.Rounds.{cap_add_cap, cap_min_cap};
ghost use Rattle.weight.specs.Same.{same_height};
ghost use Rattle.weight.specs.HeightNumbers.{number_of};

use super::Height;
use crate::kind::Weight;
use crate::one_word::OneWord;
use std::fmt::{self, Display};

/// The largest height, which stands for none at all.
const NONE: u32 = 16_777_215;

impl Height {
    /// The height that a number comes to.
    // No `From<u32>`: a number is cut to fit.
    pub fn new(number: u32) -> Height
        ensures { result ≡ height number }
    {
        let [_, high, middle, low] = number.min(NONE).to_be_bytes();
        Height { high, middle, low }
    }

    // A method and no conversion: what the number says hangs on the kind.
    pub fn number(self) -> u32
        ensures { result ≡ height_number self }
    {
        u32::from_be_bytes([0, self.high, self.middle, self.low])
    }
}

impl Weight for Height {
    ghost kind = { height_kind };

    ghost laws = { rounded_laws height height_number min_and_plus (record {
      add_of = λ a b. same_height (simp number_of (cap_min_cap a 16777215 b));
      mul_of = λ a b. same_height (simp number_of (cap_add_cap a 16777215 b));
      plus_zero = λ x. same_height (omega arith);
      times_one = λ x. same_height (omega arith);
      times_zero = λ x. same_height (omega arith);
      apart = λ e. omega (arith, ap height_number e);
    }) };

    fn zero() -> Height {
        Height::new(NONE)
    }

    fn one() -> Height {
        Height::new(0)
    }

    fn plus(self, other: Height) -> Height {
        Height::new(self.number().min(other.number()))
    }

    fn times(self, other: Height) -> Height {
        Height::new(self.number() + other.number())
    }

    fn exchanges() -> bool {
        true
    }
}

impl OneWord for Height {
    ghost CODE = { 3 };

    ghost payload = { height_number };

    ghost payloads = { Prim.search (rules, same_height) };

    const CODE: u32 = 3;

    fn payload(self) -> u32 {
        self.number()
    }

    fn from_payload(number: u32) -> Option<Height> {
        (number <= NONE).then(|| Height::new(number))
    }
}

impl Display for Height {
    ghost output = { λ v. Some (decimal (height_number v)) };

    ghost styled_output = { λ v s. Some (styled_decimal s (height_number v)) };

    fn fmt<W: fmt::Write>(&self, f: &mut fmt::Formatter<W>) -> fmt::Result {
        self.number().fmt(f)
    }
}
