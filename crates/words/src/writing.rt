ghost use Rattle.picture.specs.Lent.{lent};
ghost use Rattle.words.specs.Calls.{Wrote};
ghost use Rattle.words.specs.Format.{words_of, Limited};

use crate::fault::WriteFault;
use crate::head::Counts;
use crate::writer::Writer;
use picture::Stored;
use std::marker::PhantomData;
use weight::{TOO_WIDE, Written};

/// Writes the words of a body, and answers how many.
pub fn write<W: Written>(body: Stored<'_, W>, out: &mut [u32]) -> Result<usize, WriteFault>
    ensures outcome { Wrote {W = W} W.writing (words_of W.writing (lent body.entry)) out.old out.new result }
    ensures limited { Limited (lent body.entry) }
{
    if W::width() >= TOO_WIDE {
        return Err(WriteFault::TooWide);
    }
    let arcs = body.arcs();
    let counts = Counts {
        states: body.record.states,
        arcs: body.record.count,
    };
    let end = 1 + counts.size::<W>();
    if out.len() < end {
        return Err(WriteFault::TooShort);
    }
    let mut writer = Writer {
        out,
        position: 0,
        kind: PhantomData,
    };
    writer.word(counts.head::<W>());
    writer.states(body.first(), body.last());
    writer.arcs(arcs, body.arc_weights());
    Ok(end)
}
