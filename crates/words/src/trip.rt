ghost use Rattle.std.specs.Prelude.{◌≡◌, length};
ghost use Rattle.picture.specs.Lent.{lent};
ghost use Rattle.words.specs.Calls.{HeldUnlessUnread, Rewritten, Reread};
ghost use Rattle.words.specs.Layout.{HeadLayout, ArcLayout};
ghost use Rattle.words.specs.Laws.{OneBody, NoBody, OneFault};

use crate::fault::{TripFault, WriteFault};
use crate::reading::read;
use crate::writing::write;
use picture::{Record, Stored};
use weight::Written;

/// Reads words into 640 weights, and writes the body again: the words are the same.
// The length is a clause, and no array type: memory is lent as one slice and cut while the program runs.
pub fn rewrite<W: Written>(
    given: &[u32],
    weights: &mut [W],
    out: &mut [u32],
) -> Result<usize, TripFault>
    requires { length weights.old ≡ 640 }
    ensures outcome { Rewritten W.writing given.now out.old out.new weights.old weights.new result }
    ensures held { HeldUnlessUnread W.writing given.now weights.new result }
{
    let place = read(given, weights)?;
    let body = Stored {
        record: &place,
        weights,
    };
    Ok(write(body, out)?)
}

/// Writes a body, and reads the words into 640 other weights: the body is the same.
pub fn reread<W: Written>(
    body: Stored<'_, W>,
    out: &mut [u32],
    others: &mut [W],
) -> Result<Record, WriteFault>
    requires { length others.old ≡ 640 }
    ensures { Reread W.writing (lent body.entry) out.old out.new others.old others.new result }
{
    let count = write(body, out)?;
    Ok(read(&out[0..count], others).unwrap())
}

/// Equal words mean equal bodies, words with a fault are those of no body and have one fault, and words have their fields at their bits.
pub fn words_are_one<W: Written>()
    ensures body { OneBody {W = W} W.writing }
    ensures none { NoBody {W = W} W.writing }
    ensures fault { OneFault {W = W} W.writing }
    ensures heads { HeadLayout {W = W} W.writing }
    ensures arcs { ArcLayout }
{}
