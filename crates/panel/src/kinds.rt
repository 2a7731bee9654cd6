//! The kind of a body, by the code in its head word.
use crate::drawings::work;
use tile::Tile;
use weight::{Grey, Height, Ink, Mask, OneWord, Pair, Valve};

/// What is to be done with a body.
// No closure can stand for a task: it would have to serve each kind of weight.
#[derive(Clone, Copy)]
pub(crate) enum Task {
    /// Print a tile as numbers, and write the words back.
    Show(Tile),
    /// Write a tile as a picture.
    Picture(Tile),
}

/// The kind of weight that a body's words name.
#[derive(Clone, Copy)]
enum Kind {
    Mask,
    Grey,
    Height,
    Ink,
    Valve,
    Pair,
}

/// The code of a pair, whatever its parts are.
const PAIR: u32 = 6;

impl From<&[u32]> for Kind {
    /// The kind that the code in the head word names; no code and other codes are tried as grey.
    fn from(words: &[u32]) -> Kind {
        match words.first().map(|head| head >> 24 & 15) {
            Some(Mask::CODE) => Kind::Mask,
            Some(Height::CODE) => Kind::Height,
            Some(Ink::CODE) => Kind::Ink,
            Some(Valve::CODE) => Kind::Valve,
            Some(PAIR) => Kind::Pair,
            _ => Kind::Grey,
        }
    }
}

/// Carries out a task on the body in these words; a pair is of ink and height.
pub(crate) fn carry_out(rt: &HostRuntime, given: &[u32], task: Task) -> anyhow::Result<()> {
    // Each kind is a type of its own, and no value holds a type: a `match` picks it.
    match Kind::from(given) {
        Kind::Mask => work::<Mask>(rt, given, task),
        Kind::Grey => work::<Grey>(rt, given, task),
        Kind::Height => work::<Height>(rt, given, task),
        Kind::Ink => work::<Ink>(rt, given, task),
        Kind::Valve => work::<Valve>(rt, given, task),
        Kind::Pair => work::<Pair<Ink, Height>>(rt, given, task),
    }
}
