ghost use Rattle.std.specs.Prelude.{◌≡◌, ℕ, ◌<◌, ◌≤◌, MatchResult, ◌≢◌};
ghost use Rattle.words.specs.Format.{head_word, size};
ghost use Rattle.words.specs.declared.fault.Fault.TheVariants.{Head};

use crate::fault::Fault;
use picture::{MAX_ARCS, MAX_STATES};
use weight::Written;

/// How many states and arcs a head word names.
#[derive(Clone, Copy)]
pub(crate) struct Counts {
    pub states: u8,
    pub arcs: u16,
    ghost few_states: { states ≤ 64 },
    ghost few_arcs: { arcs ≤ 512 },
}

impl Counts {
    /// The head word of so many states and arcs.
    pub(crate) fn head<W: Written>(self) -> u32
        ensures { result ≡ head_word W.writing self.states self.arcs }
    {
        0x1000_0000
            + W::code() * 0x100_0000
            + W::width() as u32 * 0x10_0000
            + self.states as u32 * 0x1000
            + self.arcs as u32
    }

    /// How many words stand behind it.
    pub(crate) fn size<W: Written>(self) -> usize
        ensures { result ≡ size W.writing self.states self.arcs }
    {
        let c = W::width();
        self.states as usize * (2 * c) + self.arcs as usize * (1 + c)
    }
}

/// The counts of a head word within the limits.
pub(crate) fn read_head<W: Written>(head: u32) -> Result<Counts, Fault>
    ensures { MatchResult result (λ s. head ≡ head_word W.writing s.states s.arcs) (λ f. (f ≡ Head) × ((n m : ℕ) → n ≤ 64 → m ≤ 512 → head ≢ head_word W.writing n m)) }
{
    let states = ((head >> 12) % 0x80) as u8;
    let arcs = (head % 0x1000) as u16;
    if states as usize > MAX_STATES || arcs as usize > MAX_ARCS {
        return Err(Fault::Head);
    }
    let counts = Counts { states, arcs };
    if head == counts.head::<W>() {
        Ok(counts)
    } else {
        Err(Fault::Head)
    }
}
