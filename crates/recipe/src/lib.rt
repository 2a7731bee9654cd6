//! Recipes: a script of lines, read whole against its grammar into steps.
//!
//! A script is zero or more lines, each ended by byte 10. A line is a place (A to H), '=' and a sum. A sum is products
//! joined by '+', a product is parts joined by '*', both carried out from the left. A part is a place; or '@', '|', or
//! '^' and a digit 0 to 3, each followed by a part; or a sum in round brackets; or four sums in square brackets,
//! separated by ','.
#![tactic(auto)]

mod fault;
mod limits;
mod place;
mod reader;
mod step;
mod theorems;

pub use fault::Fault;
pub use limits::{MAX_BYTES, MAX_LEVEL, MAX_WAITING};
pub use place::{NoPlace, Place};
pub use reader::read;
pub use step::{Recipe, Step};
pub use theorems::{
    accepted_exactly, counted_text, one_answer, one_tree, steps_agree, steps_carry,
};
