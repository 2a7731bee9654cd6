//! The arcs of the bodies that are tested.
use picture::{Arc, Quadrant};

pub(crate) const fn arc(from: u8, to: u8, quadrant: Quadrant) -> Arc {
    Arc { from, to, quadrant }
}

/// An arc for each digit.
pub(crate) const fn fan(from: u8, to: u8) -> [Arc; 4] {
    [
        arc(from, to, Quadrant::UpperLeft),
        arc(from, to, Quadrant::UpperRight),
        arc(from, to, Quadrant::LowerLeft),
        arc(from, to, Quadrant::LowerRight),
    ]
}

/// Loops at both states for each digit, and from the first state to the second for digits 1 and 3.
pub(crate) const fn ramp() -> [Arc; 10] {
    [
        arc(0, 0, Quadrant::UpperLeft),
        arc(0, 0, Quadrant::UpperRight),
        arc(0, 0, Quadrant::LowerLeft),
        arc(0, 0, Quadrant::LowerRight),
        arc(0, 1, Quadrant::UpperRight),
        arc(0, 1, Quadrant::LowerRight),
        arc(1, 1, Quadrant::UpperLeft),
        arc(1, 1, Quadrant::UpperRight),
        arc(1, 1, Quadrant::LowerLeft),
        arc(1, 1, Quadrant::LowerRight),
    ]
}
