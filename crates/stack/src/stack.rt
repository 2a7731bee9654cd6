ghost use Rattle.std.specs.Prelude.{◌≡◌, ◌+◌, ◌-◌, ◌<◌, ◌≤◌, ◌∷◌, length, drop, slice_set, slice_index_or, IfOk, OnOk};
ghost use Rattle.std.proofs.Props.{props};
ghost use Rattle.picture.specs.Lent.{lent};
ghost use Rattle.picture.specs.Stored.{stored, Kept};
ghost use Rattle.stack.specs.Waiting.{no_record, waiting, body_at, KeptBelow, Settled};

use crate::fault::StepFault;
use compose::Fault;
use picture::{BAY, BLANK, Record, Stored};
use recipe::MAX_WAITING;
use weight::Weight;

/// The records of the bodies that wait, the oldest first; each has its weights in the working bay of its slot.
// An array and a height, and no `Vec`: the library has no heap.
#[derive(Clone, Copy)]
pub struct Stack {
    records: [Record; MAX_WAITING],
    height: usize,
    ghost few: { height ≤ 6 },
    ghost kept: { KeptBelow height records } by { Prim.hlevel props },
}

impl Stack {
    ghost use Rattle.stack.specs.Stacks.{bodies};

    /// No body waits.
    pub fn new() -> Stack
        ensures none { result.height ≡ 0 }
    {
        Stack {
            records: [BLANK; MAX_WAITING],
            height: 0,
        }
    }

    /// The stack at work, in the working bays that are lent for the weights of its bodies.
    // The length is a clause, and no array type: memory is lent as one slice and cut while the program runs.
    pub fn over<'s, 'm, W>(&'s mut self, work: &'m mut [W]) -> Working<'s, 'm, W>
        requires { length work.old ≡ 3840 }
        ensures bodies { bodies result ≡ waiting self.old.height self.old.records work.old }
        ensures height { result.stack.now.height ≡ self.old.height }
        ensures same_stack { result.stack.ghost_name ≡ self.entry.ghost_name }
        ensures same_reference { result.work.ghost_name ≡ work.entry.ghost_name }
    {
        Working { stack: self, work }
    }

    /// Takes the latest body out of bays that stay as they are: its record, and its weights into `out`.
    // The lengths are clauses, and no array types: memory is lent as one slice and cut while the program runs.
    pub fn pop<W: Weight>(&mut self, work: &[W], out: &mut [W]) -> Record
        requires some { 1 ≤ self.old.height }
        requires bays { length work.now ≡ 3840 }
        requires full { length out.old ≡ 640 }
        ensures body { stored result out.new ≡ body_at (waiting self.old.height self.old.records work.now) 0 }
        ensures rest { waiting self.new.height self.new.records work.now ≡ drop 1 (waiting self.old.height self.old.records work.now) }
        ensures kept { Kept result }
        ensures height { self.new.height ≡ self.old.height - 1 }
    {
        let slot = self.height - 1;
        out.copy_from_slice(&work[BAY * slot..BAY * slot + BAY]);
        self.height -= 1;
        self.records[slot]
    }

    // Records are read and written here, and not by `Working`: of an array behind the `&mut` in its field no element can
    // be read, and a proof knows no length.

    /// The record in a slot.
    fn record(&self, slot: usize) -> &Record
        requires { slot < 6 }
        ensures { result.now ≡ slice_index_or self.now.records slot no_record }
    {
        &self.records[slot]
    }

    /// Writes the record of a slot, which becomes that of the latest body.
    fn put(&mut self, slot: usize, latest: &Record)
        requires room { slot < 6 }
        requires reached { slot ≤ self.old.height }
        requires kept { Kept latest.now }
        ensures inside { slot < length self.old.records }
        ensures records { self.new.records ≡ slice_set self.old.records slot latest.now }
        ensures height { self.new.height ≡ slot + 1 }
    {
        self.records[slot] = *latest;
        self.height = slot + 1;
    }
}

/// A stack and the working bays that hold the weights of its bodies, both lent.
#[derive(Drop)]
pub struct Working<'s, 'm, W> {
    stack: &'s mut Stack,
    work: &'m mut [W],
    ghost room: { length work.now ≡ 3840 },
}

// The length of what is lent to write into is a clause, and no array type: memory is lent as one slice and cut while the
// program runs. `same_stack` and `same_reference` say that a `Working` keeps the stack and the bays that were lent:
// clauses of each method, since a type cannot speak of what its value was before.
impl<W: Weight> Working<'_, '_, W> {
    ghost use Rattle.stack.specs.Stacks.{bodies};

    /// The body that waits at i, the latest at 0.
    pub(crate) fn waiting(&self, i: usize) -> Stored<'_, W>
        requires { i < self.now.stack.now.height }
        ensures { lent result ≡ body_at (bodies self.now) i }
    {
        let slot = self.stack.height - i - 1;
        Stored {
            record: self.stack.record(slot),
            weights: &self.work[BAY * slot..BAY * slot + BAY],
        }
    }

    /// Puts a body in place of the latest that wait.
    pub(crate) fn put(&mut self, taken: usize, body: Stored<'_, W>)
        requires some { taken ≤ self.old.stack.now.height }
        requires room { self.old.stack.now.height - taken < 6 }
        ensures bodies { bodies self.new ≡ lent body.entry ∷ drop taken (bodies self.old) }
        ensures height { self.new.stack.now.height ≡ self.old.stack.now.height - taken + 1 }
        ensures same_stack { self.new.stack.ghost_name ≡ self.old.stack.ghost_name }
        ensures same_reference { self.new.work.ghost_name ≡ self.old.work.ghost_name }
    {
        let slot = self.stack.height - taken;
        let bay = &mut self.work[BAY * slot..BAY * slot + BAY];
        bay.copy_from_slice(body.weights);
        self.stack.put(slot, body.record);
    }

    /// Puts the body of a step in place of those that it took, unless the step is refused.
    pub(crate) fn settle(
        &mut self,
        taken: usize,
        drawn: Result<Record, Fault>,
        mark: usize,
        weights: &[W],
    ) -> Result<(), StepFault>
        requires some { taken ≤ self.old.stack.now.height }
        requires room { self.old.stack.now.height - taken < 6 }
        requires kept { IfOk drawn Kept }
        requires full { length weights.now ≡ 640 }
        ensures settled { Settled drawn mark weights.now (drop taken (bodies self.old)) (bodies self.new) result }
        ensures height { OnOk result (self.new.stack.now.height ≡ self.old.stack.now.height - taken + 1) }
        ensures same_stack { self.new.stack.ghost_name ≡ self.old.stack.ghost_name }
        ensures same_reference { self.new.work.ghost_name ≡ self.old.work.ghost_name }
    {
        let record = drawn.map_err(|fault| StepFault { mark, fault })?;
        let body = Stored {
            record: &record,
            weights,
        };
        self.put(taken, body);
        Ok(())
    }

    /// Adds a body, the latest now.
    pub fn push(&mut self, body: Stored<'_, W>)
        requires { self.old.stack.now.height < 6 }
        ensures bodies { bodies self.new ≡ lent body.entry ∷ bodies self.old }
        ensures height { self.new.stack.now.height ≡ self.old.stack.now.height + 1 }
        ensures same_stack { self.new.stack.ghost_name ≡ self.old.stack.ghost_name }
        ensures same_reference { self.new.work.ghost_name ≡ self.old.work.ghost_name }
    {
        self.put(0, body);
    }

    /// Takes the latest body: its record, and its weights into `out`.
    pub fn pop(&mut self, out: &mut [W]) -> Record
        requires some { 1 ≤ self.old.stack.now.height }
        requires full { length out.old ≡ 640 }
        ensures body { stored result out.new ≡ body_at (bodies self.old) 0 }
        ensures rest { bodies self.new ≡ drop 1 (bodies self.old) }
        ensures bays { self.new.work.now ≡ self.old.work.now }
        ensures kept { Kept result }
        ensures height { self.new.stack.now.height ≡ self.old.stack.now.height - 1 }
        ensures same_stack { self.new.stack.ghost_name ≡ self.old.stack.ghost_name }
        ensures same_reference { self.new.work.ghost_name ≡ self.old.work.ghost_name }
    {
        // `Stack::pop` again: of bays that are lent on as `&`, out of a field, a proof knows nothing afterwards.
        let latest = self.waiting(0);
        let record = *latest.record;
        out.copy_from_slice(latest.weights);
        self.stack.height -= 1;
        record
    }
}
