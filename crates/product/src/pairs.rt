ghost use Rattle.std.specs.Prelude.{◌≡◌, ◌+◌, ◌*◌, ◌<◌, ◌≤◌, [], ◌∷◌, length};
ghost use Rattle.std.specs.List.{zip, flat_map, AllByRecursion};
ghost use Rattle.picture.specs.Bodies.{Within};
ghost use Rattle.picture.specs.BodyOperations.{paired, arc_pair, product_body};
ghost use Rattle.picture.specs.Lent.{lent};
ghost use Rattle.product.specs.Ends.{pair_ends};

use picture::{Arc, Stored};
use weight::Weight;

/// Each of `xs` times each of `ys`.
pub(crate) fn pair_weights<W: Weight>(xs: &[W], ys: &[W], out: &mut [W])
    requires { length out.old ≡ length xs.now * length ys.now }
    ensures { out.new ≡ paired W.kind.times xs.now ys.now }
{
    // By `/` and `%`: `ys` may be empty, and `chunks_exact_mut` stops the program at chunks of no weights.
    for (i, product) in out.iter_mut().enumerate() {
        *product = xs[i / ys.len()].times(ys[i % ys.len()]);
    }
}

/// Arcs and their weights, written in place, and how many there are.
#[derive(Drop)]
struct Pairs<'a, W> {
    // Two lent slices and a count, and no `Vec`: no heap, and arcs lie in the record, weights in lent memory.
    arcs: &'a mut [Arc],
    weights: &'a mut [W],
    count: usize,
    ghost both: { length arcs.now ≡ length weights.now },
    ghost inside: { count ≤ length arcs.now },
}

impl<W: Weight> Pairs<'_, W> {
    ghost use Rattle.product.specs.Inner.{Appended};

    /// Appends an arc and its weight.
    fn push(&mut self, arc: Arc, weight: W)
        requires { self.old.count < length self.old.arcs.now }
        ensures { Appended ((arc, weight) ∷ []) self.old self.new }
    {
        self.arcs[self.count] = arc;
        self.weights[self.count] = weight;
        self.count += 1;
    }

    /// Appends the arcs of one arc with each of `b`.
    fn pair(&mut self, arc: Arc, weight: W, b: Stored<'_, W>)
        requires room { self.old.count + length (flat_map (arc_pair W.kind (lent b).states (arc, weight)) (lent b).arcs) ≤ length self.old.arcs.now }
        requires small { AllByRecursion (λ e. Within 256 (pair_ends (lent b).states arc e.0)) (lent b).arcs }
        ensures { Appended (flat_map (arc_pair W.kind (lent b.entry).states (arc, weight)) (lent b.entry).arcs) self.old self.new }
    {
        let states = b.record.states;
        for (other, factor) in b.arcs().iter().zip(b.arc_weights()) {
            if arc.quadrant == other.quadrant {
                self.push(
                    Arc {
                        from: arc.from * states + other.from,
                        to: arc.to * states + other.to,
                        quadrant: arc.quadrant,
                    },
                    weight.times(*factor),
                );
            }
        }
    }
}

/// The arcs of each arc of `a` with each of `b`.
// That the lengths agree is a fact of two slices, and of no one type.
pub(crate) fn pair_arcs<W: Weight>(
    a: Stored<'_, W>,
    b: Stored<'_, W>,
    out: &mut [Arc],
    products: &mut [W],
)
    requires states { (lent a).states * (lent b).states ≤ 64 }
    requires long { length out.old ≡ length products.old }
    requires room { length (product_body W.kind (lent a) (lent b)).arcs ≡ length out.old }
    ensures { zip out.new products.new ≡ (product_body W.kind (lent a.entry) (lent b.entry)).arcs }
{
    let mut pairs = Pairs {
        arcs: out,
        weights: products,
        count: 0,
    };
    for (arc, weight) in a.arcs().iter().zip(a.arc_weights()) {
        pairs.pair(*arc, *weight, b);
    }
}
