ghost use Rattle.std.specs.Prelude.{◌≡◌, Some, decimal};
ghost use Rattle.std.specs.Fmt.{styled_decimal};
ghost use Rattle.std.proofs.Common.{ap, arith, rules};
ghost use Rattle.weight.specs.Ink.{ink, ink_kind};
ghost use Rattle.weight.specs.Rounded.{rounded_laws, plus_and_times};
ghost use Rattle.weight.specs.Rounds.{cap_add_cap, cap_mul_cap};
ghost use Rattle.weight.specs.Same.{same_ink};

use super::Ink;
use crate::kind::Weight;
use crate::one_word::OneWord;
use std::fmt::{self, Display};

/// The largest amount.
const MOST: u32 = 255;

impl Ink {
    /// The ink that a number comes to.
    // No `From<u32>`: a number is cut to fit.
    pub fn new(number: u32) -> Ink
        ensures { result ≡ ink number }
    {
        Ink {
            amount: number.min(MOST) as u8,
        }
    }

    // A method and no conversion: what the number says hangs on the kind.
    pub fn number(self) -> u32
        ensures { result ≡ self.amount }
    {
        u32::from(self.amount)
    }
}

// Grey and ink have an impl each: a trait of both would ask for `new` and `number` again, and is as long.
impl Weight for Ink {
    ghost kind = { ink_kind };

    ghost laws = { rounded_laws ink (λ x. x.amount) plus_and_times (record {
      add_of = λ a b. same_ink (cap_add_cap a 255 b);
      mul_of = λ a b. same_ink (cap_mul_cap a 255 b);
      plus_zero = λ x. same_ink (omega arith);
      times_one = λ x. same_ink (omega arith);
      times_zero = λ x. same_ink (omega arith);
      apart = λ e. omega (arith, ap (λ x. x.amount) e);
    }) };

    fn zero() -> Ink {
        Ink::new(0)
    }

    fn one() -> Ink {
        Ink::new(1)
    }

    fn plus(self, other: Ink) -> Ink {
        Ink::new(self.number() + other.number())
    }

    fn times(self, other: Ink) -> Ink {
        Ink::new(self.number() * other.number())
    }

    fn exchanges() -> bool {
        true
    }
}

impl OneWord for Ink {
    ghost CODE = { 4 };

    ghost payload = { λ v. v.amount };

    ghost payloads = { Prim.search (rules, same_ink) };

    const CODE: u32 = 4;

    fn payload(self) -> u32 {
        self.number()
    }

    fn from_payload(number: u32) -> Option<Ink> {
        (number <= MOST).then(|| Ink::new(number))
    }
}

impl Display for Ink {
    ghost output = { λ v. Some (decimal v.amount) };

    ghost styled_output = { λ v s. Some (styled_decimal s v.amount) };

    fn fmt<W: fmt::Write>(&self, f: &mut fmt::Formatter<W>) -> fmt::Result {
        self.number().fmt(f)
    }
}
