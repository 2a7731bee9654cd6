ghost use Rattle.std.specs.Prelude.{◌≡◌, ◌<◌, slice_index};
ghost use Rattle.weight.specs.Words.{Writing, WordLaws, ReadFrom};

use crate::kind::Weight;

// A number and no `Option`, since the rules give the width as a number, and 9 where it is too wide.
/// The width of a kind whose values are too wide to be written.
pub const TOO_WIDE: usize = 9;

/// A kind of weight whose values can be written as words.
pub trait Written: Weight {
    ghost writing: { Writing Self };

    /// The number by which a body's head word names the kind.
    fn code() -> u32
        ensures { result ≡ writing.code };

    /// How many words a value has, or 9 where it is too wide to be written.
    fn width() -> usize
        ensures { result ≡ writing.width };

    /// The word at `i` of this value; 0 past the last, and in a kind that is too wide.
    fn word(self, i: usize) -> u32
        ensures narrow { writing.width < 9 → result ≡ slice_index (writing.words self) i }
        ensures wide { writing.width ≡ 9 → result ≡ 0 };

    /// The value that has these words; none in a kind that is too wide.
    fn read(given: &[u32]) -> Option<Self>
        ensures { ReadFrom writing given.now result };

    ghost words: { WordLaws writing };
}
