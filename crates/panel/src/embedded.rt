//! What is shown where nothing is given.

/// The ramp, a grey body of two states and ten arcs: each cell is its column.
pub(crate) const RAMP: &str = "1210200a 30000001 30000000 30000000 30000001 \
    20000000 30000001 20000101 30000002 \
    24000000 30000001 24000101 30000002 24000001 30000001 \
    28000000 30000001 28000101 30000002 \
    2c000000 30000001 2c000101 30000002 2c000001 30000001";

/// A grey body of one state and four arcs: 7 everywhere.
pub(crate) const FLAT: &str = "12101004 30000007 30000001 \
    20000000 30000001 24000000 30000001 28000000 30000001 2c000000 30000001";

/// A recipe that turns one drawing three times and adds it to another.
pub(crate) const RECIPE: &str = "A=A+@@@B";
