ghost use Rattle.std.specs.Prelude.{◌≡◌, MatchOption, ◌≢◌};
ghost use Rattle.picture.specs.Bodies.{Within};
ghost use Rattle.words.specs.Format.{arc_word};

use picture::{Arc, Quadrant};

/// The word of an arc, without its weight.
pub(crate) fn arc_word(a: Arc) -> u32
    ensures { result ≡ arc_word a }
{
    0x2000_0000 + u8::from(a.quadrant) as u32 * 0x400_0000 + a.from as u32 * 0x100 + a.to as u32
}

/// The arc of an arc word whose ends are below n.
pub(crate) fn read_arc(word: u32, n: u8) -> Option<Arc>
    ensures { MatchOption result ((a : Arc) → Within n a → word ≢ arc_word a) (λ a. Within n a × (word ≡ arc_word a)) }
{
    let a = Arc {
        from: ((word >> 8) % 0x100) as u8,
        to: (word % 0x100) as u8,
        quadrant: Quadrant::named(((word >> 26) % 4) as usize),
    };
    (a.from < n && a.to < n && word == arc_word(a)).then_some(a)
}
