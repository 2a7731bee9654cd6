//! Two embedded drawings composed by each operation.
use crate::drawings::parse;
use crate::embedded::{FLAT, RAMP};
use crate::tiles::{WHOLE, numbers};
use anyhow::anyhow;
use compose::{add, mirror, turn, zoom};
use picture::{BAY, Quadrant, Stored};
use piece::piece;
use product::multiply;
use weight::Grey;
use words::read;

/// Reads the ramp A and the flat drawing B, and composes them.
pub(crate) fn show(rt: &HostRuntime) -> anyhow::Result<()> {
    let mut front = [Grey::new(0); BAY];
    let mut back = [Grey::new(0); BAY];
    let (Ok(ramp), Ok(flat)) = (
        read::<Grey>(&parse(rt, RAMP)?, &mut front),
        read::<Grey>(&parse(rt, FLAT)?, &mut back),
    ) else {
        return Err(anyhow!("an embedded drawing is not read"));
    };
    let a = Stored {
        record: &ramp,
        weights: &front,
    };
    let b = Stored {
        record: &flat,
        weights: &back,
    };
    one(rt, a)?;
    two(rt, a, b)
}

/// Mirrors, turns and zooms a drawing.
fn one(rt: &HostRuntime, a: Stored<'_, Grey>) -> anyhow::Result<()> {
    let weights = &mut [Grey::new(0); BAY];
    println!(rt; "|A")?;
    let record = &mirror(a, weights);
    numbers(rt, Stored { record, weights }, WHOLE)?;
    println!(rt; "@A")?;
    let record = &turn(a, weights);
    numbers(rt, Stored { record, weights }, WHOLE)?;
    println!(rt; "^1A")?;
    let record = &zoom(a, Quadrant::UpperRight, weights);
    numbers(rt, Stored { record, weights }, WHOLE)
}

/// Adds, multiplies and pieces drawings.
fn two(rt: &HostRuntime, a: Stored<'_, Grey>, b: Stored<'_, Grey>) -> anyhow::Result<()> {
    let weights = &mut [Grey::new(0); BAY];
    let Ok(record) = &add(a, b, weights) else {
        return Err(anyhow!("the sum passes a limit"));
    };
    println!(rt; "A+B")?;
    numbers(rt, Stored { record, weights }, WHOLE)?;
    let Ok(record) = &multiply(a, a, weights) else {
        return Err(anyhow!("the product passes a limit"));
    };
    println!(rt; "A*A")?;
    numbers(rt, Stored { record, weights }, WHOLE)?;
    let Ok(record) = &piece(a, b, b, a, weights) else {
        return Err(anyhow!("the piecing passes a limit"));
    };
    println!(rt; "[A,B,B,A]")?;
    numbers(rt, Stored { record, weights }, WHOLE)
}
