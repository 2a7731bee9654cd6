ghost use Rattle.std.specs.Prelude.{◌≡◌, Some};
ghost use Rattle.std.specs.Result.{result_err};
ghost use Rattle.compose.specs.Faults.{number, text, excess, product_excess};

use picture::{MAX_ARCS, MAX_STATES};
use std::error::Error;
use std::fmt;
use weight::Weight;

/// Why an operation is refused.
#[derive(Clone, Copy, Debug, PartialEq, Eq)]
pub enum Fault {
    /// The product of two weights of the kind may depend on their order.
    NoExchange,
    /// The result has too many states.
    ManyStates,
    /// The result has too many arcs.
    ManyArcs,
}

impl Fault {
    /// The refusal's number.
    // No `From`: `fault.number()` says which number is meant.
    pub fn number(self) -> u8
        ensures { result ≡ number self }
    {
        match self {
            Fault::NoExchange => 12,
            Fault::ManyStates => 13,
            Fault::ManyArcs => 14,
        }
    }
}

// By hand: what a derive of `thiserror` writes promises nothing of the text.
impl fmt::Display for Fault {
    ghost output = { λ f. Some (text f) };

    fn fmt<W: fmt::Write>(&self, f: &mut fmt::Formatter<W>) -> fmt::Result {
        f.write_str(match self {
            Fault::NoExchange => "the product of two weights may depend on their order",
            Fault::ManyStates => "too many states",
            Fault::ManyArcs => "too many arcs",
        })
    }
}

impl Error for Fault {}

/// Checks that a body of so many states and arcs passes no limit; states are looked at first.
pub fn check_limits(states: usize, arcs: usize) -> Result<(), Fault>
    ensures { result_err result ≡ excess states arcs }
{
    if states > MAX_STATES {
        return Err(Fault::ManyStates);
    }
    if arcs > MAX_ARCS {
        return Err(Fault::ManyArcs);
    }
    Ok(())
}

/// Checks that a product of so many states and arcs is accepted: on a kind that does not exchange none is.
pub fn check_product<W: Weight>(states: usize, arcs: usize) -> Result<(), Fault>
    ensures { result_err result ≡ product_excess W.kind states arcs }
{
    if !W::exchanges() {
        return Err(Fault::NoExchange);
    }
    check_limits(states, arcs)
}
