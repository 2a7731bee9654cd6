//! The arcs of a body by digit and one of their ends, and the steps of rows and columns by such an index.
#![tactic(auto)]

mod arcs;
mod index;
mod steps;
mod sums;

pub use arcs::Arcs;
pub use index::{End, Index, build};
pub use steps::{step_column, step_row};
