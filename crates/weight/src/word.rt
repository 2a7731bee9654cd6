ghost use Rattle.std.specs.Prelude.{◌≡◌, ℕ, ◌^◌, ◌<◌, [], ◌∷◌, MatchOption, ◌≢◌, slice_index};
ghost use Rattle.weight.specs.Words.{weight_word};

/// A weight word with no payload: tag 3.
const TAGGED: u32 = 0x3000_0000;

/// The word at `i` of a value in one word, by its payload.
pub(crate) fn single(payload: u32, i: usize) -> u32
    requires { payload < 2 ^ 24 }
    ensures { result ≡ slice_index (weight_word payload ∷ []) i }
{
    if i == 0 { TAGGED + payload } else { 0 }
}

/// The payload of a single weight word.
pub(crate) fn payload(given: &[u32]) -> Option<u32>
    ensures { MatchOption result ((p : ℕ) → p < 2 ^ 24 → weight_word p ∷ [] ≢ given.now) (λ p. (p < 2 ^ 24) × (weight_word p ∷ [] ≡ given.now)) }
{
    match given {
        [word] if *word >> 24 == TAGGED >> 24 => Some(*word - TAGGED),
        _ => None,
    }
}
