//! Kinds whose values are shown to a person.
ghost use Rattle.std.specs.Prelude.{◌≡◌, ℕ, Some, None, Option};

use std::fmt::Display;
use weight::{Grey, Height, Ink, Mask, Pair, Valve, Written};

/// A written kind whose values are shown as text, and perhaps as shades of a picture.
pub trait Shown: Written + Display {
    ghost LARGEST: { Option ℕ };

    /// The largest number, where the kind's numbers are shades of a picture.
    const LARGEST: Option<u32>;
}

impl Shown for Mask {
    ghost LARGEST = { Some 1 };

    const LARGEST: Option<u32> = Some(1);
}

impl Shown for Grey {
    ghost LARGEST = { Some 65535 };

    const LARGEST: Option<u32> = Some(65_535);
}

impl Shown for Height {
    ghost LARGEST = { None };

    const LARGEST: Option<u32> = None;
}

impl Shown for Ink {
    ghost LARGEST = { Some 255 };

    const LARGEST: Option<u32> = Some(255);
}

impl Shown for Valve {
    ghost LARGEST = { None };

    const LARGEST: Option<u32> = None;
}

impl<A: Shown, B: Shown> Shown for Pair<A, B> {
    ghost LARGEST = { None };

    const LARGEST: Option<u32> = None;
}
