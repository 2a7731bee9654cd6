//! Pairs of pairs: the last is too wide to be written.
use weight::{Height, Ink, Pair};

pub(crate) type Two = Pair<Ink, Height>;

pub(crate) type Four = Pair<Two, Two>;

pub(crate) type Eight = Pair<Four, Four>;

pub(crate) type Nine = Pair<Eight, Ink>;
