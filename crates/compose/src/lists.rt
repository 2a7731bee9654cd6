ghost use Rattle.std.specs.Prelude.{◌≡◌, ◌+◌, ◌<◌, ◌++◌, map, length};
ghost use Rattle.std.specs.List.{AllByRecursion};
ghost use Rattle.picture.specs.Bodies.{Within};
ghost use Rattle.picture.specs.BodyOperations.{raised_arc};

use picture::Arc;

/// One slice after another.
// That the lengths agree is a fact of two slices, and of no one type.
pub fn join<T: Copy>(front: &[T], back: &[T], out: &mut [T])
    requires { length out.old ≡ length front.now + length back.now }
    ensures { out.new ≡ front.now ++ back.now }
{
    let (start, end) = out.split_at_mut(front.len());
    start.copy_from_slice(front);
    end.copy_from_slice(back);
}

/// Arcs with both ends raised.
// That the lengths agree is a fact of two slices, and of no one type.
pub fn raise(arcs: &[Arc], by: u8, out: &mut [Arc])
    requires long { length out.old ≡ length arcs.now }
    requires small { AllByRecursion (λ a. Within 256 (raised_arc by a)) arcs.now }
    ensures { out.new ≡ map (raised_arc by) arcs.now }
{
    out.copy_from_slice(arcs);
    for arc in out {
        arc.from += by;
        arc.to += by;
    }
}
