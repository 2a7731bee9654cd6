//! Rows of weights, taken through the arcs of a body.
#![tactic(auto)]

mod rows;

pub use rows::{advance, meet};
