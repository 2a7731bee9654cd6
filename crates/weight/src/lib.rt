//! Kinds of weight: semirings whose laws each implementation proves, and how their values are written.
#![tactic(auto)]

mod grey;
mod height;
mod ink;
mod kind;
mod mask;
mod one_word;
mod pair;
mod sums;
mod valve;
mod word;
mod written;

pub use grey::Grey;
pub use height::Height;
pub use ink::Ink;
pub use kind::Weight;
pub use mask::Mask;
pub use one_word::OneWord;
pub use pair::Pair;
pub use sums::{product, sum_laws, total};
pub use valve::Valve;
pub use written::{TOO_WIDE, Written};
