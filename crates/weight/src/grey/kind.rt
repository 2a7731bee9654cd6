ghost use Rattle.std.specs.Prelude.{◌≡◌, Some, decimal};
ghost use Rattle.std.specs.Fmt.{styled_decimal};
ghost use Rattle.std.proofs.Common.{ap, arith, rules};
ghost use Rattle.weight.specs.Grey.{grey, grey_kind};
ghost use Rattle.std.proofs.Math.Nat.{mod-add-mod};
ghost use Rattle.weight.specs.Rounded.{rounded_laws, plus_and_times};
ghost use Rattle.weight.specs.Rounds.{mod-mul-mod};
ghost use Rattle.weight.specs.Same.{same_grey};

use super::Grey;
use crate::kind::Weight;
use crate::one_word::OneWord;
use std::fmt::{self, Display};

/// How many greys there are.
const COUNT: u32 = 65_536;

impl Grey {
    /// The grey that a number comes to.
    // No `From<u32>`: a number is cut to fit.
    pub fn new(number: u32) -> Grey
        ensures { result ≡ grey number }
    {
        Grey {
            level: (number % COUNT) as u16,
        }
    }

    // A method and no conversion: what the number says hangs on the kind.
    pub fn number(self) -> u32
        ensures { result ≡ self.level }
    {
        u32::from(self.level)
    }
}

// Grey and ink have an impl each: a trait of both would ask for `new` and `number` again, and is as long.
impl Weight for Grey {
    ghost kind = { grey_kind };

    ghost laws = { rounded_laws grey (λ x. x.level) plus_and_times (record {
      add_of = λ a b. same_grey (mod-add-mod a 65536 b);
      mul_of = λ a b. same_grey (mod-mul-mod a 65536 b);
      plus_zero = λ x. same_grey (omega arith);
      times_one = λ x. same_grey (omega arith);
      times_zero = λ x. same_grey (omega arith);
      apart = λ e. omega (arith, ap (λ x. x.level) e);
    }) };

    fn zero() -> Grey {
        Grey::new(0)
    }

    fn one() -> Grey {
        Grey::new(1)
    }

    fn plus(self, other: Grey) -> Grey {
        Grey::new(self.number() + other.number())
    }

    fn times(self, other: Grey) -> Grey {
        Grey::new(self.number() * other.number())
    }

    fn exchanges() -> bool {
        true
    }
}

impl OneWord for Grey {
    ghost CODE = { 2 };

    ghost payload = { λ v. v.level };

    ghost payloads = { Prim.search (rules, same_grey) };

    const CODE: u32 = 2;

    fn payload(self) -> u32 {
        self.number()
    }

    fn from_payload(number: u32) -> Option<Grey> {
        (number < COUNT).then(|| Grey::new(number))
    }
}

impl Display for Grey {
    ghost output = { λ v. Some (decimal v.level) };

    ghost styled_output = { λ v s. Some (styled_decimal s v.level) };

    fn fmt<W: fmt::Write>(&self, f: &mut fmt::Formatter<W>) -> fmt::Result {
        self.number().fmt(f)
    }
}
