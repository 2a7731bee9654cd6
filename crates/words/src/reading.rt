ghost use Rattle.std.specs.Prelude.{◌≡◌, length, MatchResult};
ghost use Rattle.picture.specs.Stored.{stored, Kept};
ghost use Rattle.words.specs.Calls.{ReadInto, Accepts, Refuses};
ghost use Rattle.words.specs.Faults.{Refused};
ghost use Rattle.words.specs.Format.{SpellsBody};

use crate::fault::Fault;
use crate::head::read_head;
use crate::reader::Reader;
use picture::{BAY, Record};
use std::marker::PhantomData;
use weight::{TOO_WIDE, Written};

/// Reads a body from its words into the record that is returned and 640 weights, which a refusal may change.
// The length is a clause, and no array type: memory is lent as one slice and cut while the program runs.
fn parse<W: Written>(given: &[u32], weights: &mut [W]) -> Result<Record, Fault>
    requires { length weights.old ≡ 640 }
    ensures { MatchResult result (λ place. Kept place × SpellsBody W.writing (stored place weights.new) given.now) (Refused {W = W} W.writing given.now) }
{
    if W::width() >= TOO_WIDE {
        return Err(Fault::Width);
    }
    let [head, rest @ ..] = given else {
        return Err(Fault::Head);
    };
    let counts = read_head::<W>(*head)?;
    if rest.len() != counts.size::<W>() {
        return Err(Fault::Count);
    }
    let mut reader = Reader {
        rest,
        position: 1,
        kind: PhantomData,
    };
    Ok(reader.body(counts, weights)?)
}

/// Reads a body from its words into the record that is returned and 640 weights, which a refusal leaves as they were.
pub fn read<W: Written>(given: &[u32], weights: &mut [W]) -> Result<Record, Fault>
    requires { length weights.old ≡ 640 }
    ensures outcome { ReadInto W.writing given.now weights.old weights.new result }
    ensures accepts { Accepts W.writing given.now weights.new result }
    ensures refuses { Refuses {W = W} W.writing given.now result }
{
    let mut scratch = [W::zero(); BAY];
    let all = &mut scratch[..];
    let place = parse(given, all)?;
    weights.copy_from_slice(all);
    Ok(place)
}
