ghost use Rattle.std.specs.Prelude.{◌≡◌, Some, decimal};
ghost use Rattle.std.specs.Fmt.{styled_decimal};
ghost use Rattle.weight.specs.Valve.{valve, valve_number, valve_kind, Products};
ghost use Rattle.weight.specs.Routes.{valve_laws};
ghost use Rattle.std.proofs.Common.{rules};

use crate::kind::Weight;
use crate::one_word::OneWord;
use std::fmt::{self, Display};

mod products;

use products::PRODUCTS;

/// How many valves there are.
const COUNT: u32 = 16;

/// A Boolean matrix of two rows and two columns: bit 2i + j says that input i reaches output j.
#[derive(Clone, Copy, Debug, PartialEq, Eq)]
pub struct Valve {
    pub bit0: bool,
    pub bit1: bool,
    pub bit2: bool,
    pub bit3: bool,
}

impl Valve {
    /// The valve with the lowest four bits of a number.
    // No `From<u32>`: a number is cut to fit.
    pub fn new(number: u32) -> Valve
        ensures { result ≡ valve number }
    {
        Valve {
            bit0: number % 2 == 1,
            bit1: number / 2 % 2 == 1,
            bit2: number / 4 % 2 == 1,
            bit3: number / 8 % 2 == 1,
        }
    }

    // A method and no conversion: what the number says hangs on the kind.
    pub fn number(self) -> u32
        ensures { result ≡ valve_number self }
    {
        u32::from(self.bit0)
            + 2 * u32::from(self.bit1)
            + 4 * u32::from(self.bit2)
            + 8 * u32::from(self.bit3)
    }
}

/// The product of two valves, from a table of all products.
fn look_up(products: &[u8], a: Valve, b: Valve) -> Valve
    requires { Products products.now }
    ensures { result ≡ valve_kind.times a b }
{
    let product = products[(COUNT * a.number() + b.number()) as usize];
    Valve::new(u32::from(product))
}

impl Weight for Valve {
    ghost kind = { valve_kind };

    ghost laws = { valve_laws };

    fn zero() -> Valve {
        Valve::new(0)
    }

    fn one() -> Valve {
        Valve::new(9)
    }

    fn plus(self, other: Valve) -> Valve {
        Valve {
            bit0: self.bit0 | other.bit0,
            bit1: self.bit1 | other.bit1,
            bit2: self.bit2 | other.bit2,
            bit3: self.bit3 | other.bit3,
        }
    }

    fn times(self, other: Valve) -> Valve {
        look_up(&PRODUCTS, self, other)
    }

    fn exchanges() -> bool {
        false
    }
}

impl OneWord for Valve {
    ghost CODE = { 5 };

    ghost payload = { valve_number };

    ghost payloads = { Prim.search rules };

    const CODE: u32 = 5;

    fn payload(self) -> u32 {
        self.number()
    }

    fn from_payload(number: u32) -> Option<Valve> {
        (number < COUNT).then(|| Valve::new(number))
    }
}

impl Display for Valve {
    ghost output = { λ v. Some (decimal (valve_number v)) };

    ghost styled_output = { λ v s. Some (styled_decimal s (valve_number v)) };

    fn fmt<W: fmt::Write>(&self, f: &mut fmt::Formatter<W>) -> fmt::Result {
        self.number().fmt(f)
    }
}
