//! What a script must not exceed.

/// The most bytes of a script.
pub const MAX_BYTES: usize = 512;

/// The highest level of a part that is not a plain place: 1 plus the number of such parts around it.
pub const MAX_LEVEL: usize = 16;

/// The most pictures that wait at once. A place on a right side adds one; a '+' or '*', once its right side is read,
/// makes one of two, ']' makes one of four, and a line's end takes its picture.
pub const MAX_WAITING: usize = 6;
