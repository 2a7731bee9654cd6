//! The worked examples: theorems about the definitions, and tests that run the code.
#![tactic(auto)]

ghost use Rattle.examples.specs.Examples.{Examples};

#[cfg(test)]
mod arcs;
#[cfg(test)]
mod compositions;
#[cfg(test)]
mod pairs;
#[cfg(test)]
mod recipes;
#[cfg(test)]
mod round_trips;
#[cfg(test)]
mod tiles;
#[cfg(test)]
mod weights;

/// The worked examples hold.
pub fn examples_hold()
    ensures { Examples }
{}
