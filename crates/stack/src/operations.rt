ghost use Rattle.std.specs.Prelude.{◌≡◌, ◌-◌, ◌≤◌, ◌∷◌, drop, OnOk};
ghost use Rattle.picture.specs.BodyOperations.{turned_body, mirrored_body, zoomed_body};
ghost use Rattle.stack.specs.Drawing.{drawing};
ghost use Rattle.stack.specs.Stacks.{bodies};
ghost use Rattle.stack.specs.Waiting.{body_at, Drawn};

use crate::fault::StepFault;
use crate::stack::Working;
use picture::{BAY, Quadrant, Stored};
use weight::Weight;

// A method for each: one that was handed the operation would say of it what these say now. How many bodies wait is a
// fact of the moment, and so a clause.
impl<W: Weight> Working<'_, '_, W> {
    /// Turns the latest body clockwise by a quarter.
    pub fn turn(&mut self)
        requires { 1 ≤ self.old.stack.now.height }
        ensures bodies { bodies self.new ≡ turned_body (body_at (bodies self.old) 0) ∷ drop 1 (bodies self.old) }
        ensures height { self.new.stack.now.height ≡ self.old.stack.now.height }
        ensures same_stack { self.new.stack.ghost_name ≡ self.old.stack.ghost_name }
        ensures same_reference { self.new.work.ghost_name ≡ self.old.work.ghost_name }
    {
        let mut result = [W::zero(); BAY];
        let turned = compose::turn(self.waiting(0), &mut result);
        let body = Stored {
            record: &turned,
            weights: &result,
        };
        self.put(1, body);
    }

    /// Exchanges left and right in the latest body.
    pub fn mirror(&mut self)
        requires { 1 ≤ self.old.stack.now.height }
        ensures bodies { bodies self.new ≡ mirrored_body (body_at (bodies self.old) 0) ∷ drop 1 (bodies self.old) }
        ensures height { self.new.stack.now.height ≡ self.old.stack.now.height }
        ensures same_stack { self.new.stack.ghost_name ≡ self.old.stack.ghost_name }
        ensures same_reference { self.new.work.ghost_name ≡ self.old.work.ghost_name }
    {
        let mut result = [W::zero(); BAY];
        let mirrored = compose::mirror(self.waiting(0), &mut result);
        let body = Stored {
            record: &mirrored,
            weights: &result,
        };
        self.put(1, body);
    }

    /// Zooms the latest body into a quadrant.
    pub fn zoom(&mut self, quadrant: Quadrant)
        requires { 1 ≤ self.old.stack.now.height }
        ensures bodies { bodies self.new ≡ zoomed_body W.kind quadrant (body_at (bodies self.old) 0) ∷ drop 1 (bodies self.old) }
        ensures height { self.new.stack.now.height ≡ self.old.stack.now.height }
        ensures same_stack { self.new.stack.ghost_name ≡ self.old.stack.ghost_name }
        ensures same_reference { self.new.work.ghost_name ≡ self.old.work.ghost_name }
    {
        let mut result = [W::zero(); BAY];
        let zoomed = compose::zoom(self.waiting(0), quadrant, &mut result);
        let body = Stored {
            record: &zoomed,
            weights: &result,
        };
        self.put(1, body);
    }

    /// Makes the sum of the latest two bodies, the older one on the left; the mark is the byte index of the '+'.
    pub fn add(&mut self, mark: usize) -> Result<(), StepFault>
        requires { 2 ≤ self.old.stack.now.height }
        ensures drawn { Drawn ((drawing W.kind).add mark (body_at (bodies self.old) 1) (body_at (bodies self.old) 0)) (drop 2 (bodies self.old)) (bodies self.new) result }
        ensures height { OnOk result (self.new.stack.now.height ≡ self.old.stack.now.height - 1) }
        ensures same_stack { self.new.stack.ghost_name ≡ self.old.stack.ghost_name }
        ensures same_reference { self.new.work.ghost_name ≡ self.old.work.ghost_name }
    {
        let mut result = [W::zero(); BAY];
        let sum = compose::add(self.waiting(1), self.waiting(0), &mut result);
        self.settle(2, sum, mark, &result)
    }

    /// Makes the product of the latest two bodies, the older one on the left; the mark is the byte index of the '*'.
    pub fn multiply(&mut self, mark: usize) -> Result<(), StepFault>
        requires { 2 ≤ self.old.stack.now.height }
        ensures drawn { Drawn ((drawing W.kind).multiply mark (body_at (bodies self.old) 1) (body_at (bodies self.old) 0)) (drop 2 (bodies self.old)) (bodies self.new) result }
        ensures height { OnOk result (self.new.stack.now.height ≡ self.old.stack.now.height - 1) }
        ensures same_stack { self.new.stack.ghost_name ≡ self.old.stack.ghost_name }
        ensures same_reference { self.new.work.ghost_name ≡ self.old.work.ghost_name }
    {
        let mut result = [W::zero(); BAY];
        let product = product::multiply(self.waiting(1), self.waiting(0), &mut result);
        self.settle(2, product, mark, &result)
    }

    /// Pieces the latest four bodies, for the quadrants 0 to 3 from the oldest on; the mark is the byte index of the ']'.
    pub fn piece(&mut self, mark: usize) -> Result<(), StepFault>
        requires { 4 ≤ self.old.stack.now.height }
        ensures drawn { Drawn ((drawing W.kind).piece mark (body_at (bodies self.old) 3) (body_at (bodies self.old) 2) (body_at (bodies self.old) 1) (body_at (bodies self.old) 0)) (drop 4 (bodies self.old)) (bodies self.new) result }
        ensures height { OnOk result (self.new.stack.now.height ≡ self.old.stack.now.height - 3) }
        ensures same_stack { self.new.stack.ghost_name ≡ self.old.stack.ghost_name }
        ensures same_reference { self.new.work.ghost_name ≡ self.old.work.ghost_name }
    {
        let mut result = [W::zero(); BAY];
        let pieced = piece::piece(
            self.waiting(3),
            self.waiting(2),
            self.waiting(1),
            self.waiting(0),
            &mut result,
        );
        self.settle(4, pieced, mark, &result)
    }
}
