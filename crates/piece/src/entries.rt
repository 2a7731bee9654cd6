ghost use Rattle.std.specs.Prelude.{◌≡◌, ◌+◌, ◌≤◌, map, length};
ghost use Rattle.std.specs.List.{zip, range_with_len};
ghost use Rattle.picture.specs.BodyOperations.{states_of, pieced_arcs};
ghost use Rattle.picture.specs.Lent.{lent};
ghost use Rattle.piece.specs.Parts.{filled, entry_arc, part_arcs, part_size};

use crate::parts::{Part, part_size};
use compose::{join, raise};
use picture::{Arc, Quadrant};
use weight::Weight;

/// Arcs from state 0 to each state of a part whose states begin at `s`.
fn enter_states(quadrant: Quadrant, s: u8, out: &mut [Arc])
    requires { s + length out.old ≤ 256 }
    ensures { out.new ≡ map (entry_arc s quadrant) (range_with_len 0 (length out.old)) }
{
    for (q, arc) in out.iter_mut().enumerate() {
        *arc = Arc {
            from: 0,
            to: s + q as u8,
            quadrant,
        };
    }
}

/// The arcs of a part whose states begin at `s`: those that enter it, then its own.
fn enter<W: Weight>(part: Part<'_, W>, s: u8, arcs: &mut [Arc], products: &mut [W])
    requires states { s + (lent part.body).states ≤ 64 }
    requires long { length arcs.old ≡ part_size (lent part.body) }
    requires wide { length products.old ≡ part_size (lent part.body) }
    ensures { zip arcs.new products.new ≡ part_arcs W.kind s part.entry.quadrant (lent part.entry.body) }
{
    let body = part.body;
    let (entering, own) = arcs.split_at_mut(body.states());
    enter_states(part.quadrant, s, entering);
    raise(body.arcs(), s, own);
    join(body.first(), body.arc_weights(), products);
}

/// The arcs of parts, the first of which begins at state `s`.
pub(crate) fn enter_all<W: Weight>(
    parts: &[Part<'_, W>],
    s: u8,
    arcs: &mut [Arc],
    products: &mut [W],
)
    requires states { s + states_of (map filled parts.now) ≤ 64 }
    requires long { length arcs.old ≡ length (pieced_arcs W.kind s (map filled parts.now)) }
    requires wide { length products.old ≡ length (pieced_arcs W.kind s (map filled parts.now)) }
    ensures { zip arcs.new products.new ≡ pieced_arcs W.kind s (map filled parts.now) }
{
    // By recursion: a loop would count a position in both slices, and a struct of both would be cut likewise.
    if let [part, rest @ ..] = parts {
        let size = part_size(part.body);
        let (front, back) = arcs.split_at_mut(size);
        let (first, last) = products.split_at_mut(size);
        enter(*part, s, front, first);
        enter_all(rest, s + part.body.record.states, back, last);
    }
}
