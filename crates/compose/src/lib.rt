//! Operations on bodies in memory that the caller lends: sum, turn, mirror and zoom.
#![tactic(auto)]

mod digits;
mod limits;
mod lists;
mod mirrors;
mod sums;
mod turns;
mod zooms;

pub use limits::{Fault, check_limits, check_product};
pub use lists::{join, raise};
pub use mirrors::mirror;
pub use sums::add;
pub use turns::turn;
pub use zooms::zoom;
