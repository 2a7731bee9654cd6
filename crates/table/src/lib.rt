//! The table of place records, and steps carried out on it.
#![tactic(auto)]

mod drawing;
mod table;

pub use drawing::PLACE_WEIGHTS;
pub use table::{PLACES, Table};
