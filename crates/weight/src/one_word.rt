ghost use Rattle.std.specs.Prelude.{◌≡◌, ℕ};
ghost use Rattle.weight.specs.Words.{PayloadLaws, WithPayload, single_word};
ghost use Rattle.weight.specs.OneWord.{one_word_laws};

use crate::kind::Weight;
use crate::word;
use crate::written::Written;

// Each kind says by itself which numbers are payloads, and prints itself, since Rust allows no impl of std's `Display` for every kind of one word.

/// A kind of weight whose values have one word each, told apart by the word's payload.
pub trait OneWord: Weight {
    ghost CODE: { ℕ };

    ghost payload: { Self → ℕ };

    /// The number by which a body's head word names the kind.
    const CODE: u32;

    /// The payload of this value's word.
    fn payload(self) -> u32
        ensures { result ≡ payload self };

    /// The value whose word has this payload, if there is one.
    fn from_payload(number: u32) -> Option<Self>
        ensures { WithPayload payload number result };

    ghost payloads: { PayloadLaws CODE payload };
}

impl<T: OneWord> Written for T {
    ghost writing = { single_word T.CODE T.payload };

    ghost words = { one_word_laws T.payloads };

    fn code() -> u32 {
        T::CODE
    }

    fn width() -> usize {
        1
    }

    fn word(self, i: usize) -> u32 {
        word::single(self.payload(), i)
    }

    fn read(given: &[u32]) -> Option<T> {
        T::from_payload(word::payload(given)?)
    }
}
