//! The body that is timed: as large as a body may be.
use picture::{Arc, BAY, MAX_ARCS, NO_ARC, Quadrant};
use weight::Grey;

/// 512 arcs between 64 states, 128 for each digit.
pub(crate) fn arcs() -> [Arc; MAX_ARCS] {
    let mut arcs = [NO_ARC; MAX_ARCS];
    for (i, arc) in arcs.iter_mut().enumerate() {
        *arc = Arc {
            from: (i / 8) as u8,
            to: (i * 37 % 64) as u8,
            quadrant: Quadrant::named(i % 4),
        };
    }
    arcs
}

/// Fills in its weights.
pub(crate) fn fill(weights: &mut [Grey]) {
    for (i, weight) in weights.iter_mut().enumerate() {
        *weight = Grey::new((i % BAY * 97) as u32);
    }
}
