//! A full tile beside plain evaluation, by the clock.
ghost use Rattle.std.specs.Prelude.{◌≡◌, length};

use crate::body::{arcs, fill};
use anyhow::anyhow;
use picture::{BAY, Quadrant, Record, Stored};
use std::time::Instant;
use tile::{SCRATCH, Tile, cell, print};
use weight::Grey;

/// How often a tile is printed for one time of the plain evaluation.
const ROUNDS: u32 = 100;

/// All cells at depth 6.
const FULL: Tile = Tile {
    depth: 6,
    digits: 0,
    prefix: 0,
};

/// The address of a cell at depth 6.
fn address(x: usize, y: usize) -> [Quadrant; 6] {
    let mut digits = [Quadrant::UpperLeft; 6];
    for (i, digit) in digits.iter_mut().enumerate() {
        let shift = 5 - i.min(5);
        *digit = Quadrant::named((x >> shift) % 2 + 2 * ((y >> shift) % 2));
    }
    digits
}

/// Prints the tile over and over.
// The length is a clause, and no array type: memory is lent as one slice.
fn print_often(body: Stored<'_, Grey>, scratch: &mut [Grey], cells: &mut [Grey])
    requires { length scratch.old ≡ 2688 }
{
    for _ in 0..ROUNDS {
        let _ = print(body, FULL, scratch, cells);
    }
}

/// Evaluates each cell from its address, and says whether all are as printed.
fn evaluate(body: Stored<'_, Grey>, cells: &[Grey], room: &mut [Grey]) -> bool
    requires { length room.old ≡ 128 }
{
    let mut agree = true;
    for (i, due) in cells.iter().enumerate() {
        let here = cell(body, &address(i % 64, i / 64), room);
        agree = agree && here == *due;
    }
    agree
}

/// Prints what both take, how often the one fits into the other, and whether they agree on every cell.
pub(crate) fn compare(rt: &HostRuntime) -> anyhow::Result<()> {
    let Some(place) = Record::new(64, &arcs()) else {
        return Err(anyhow!("the body passes a limit"));
    };
    let mut weights = [Grey::new(0); BAY];
    fill(&mut weights);
    let body = Stored {
        record: &place,
        weights: &weights,
    };
    let mut scratch = [Grey::new(0); SCRATCH];
    let mut cells = [Grey::new(0); 4096];
    let mut room = [Grey::new(0); 128];
    let start = Instant::now(rt)?;
    print_often(body, &mut scratch, &mut cells);
    let fast = start.elapsed(rt)?.as_micros() / u128::from(ROUNDS);
    let start = Instant::now(rt)?;
    let agree = evaluate(body, &cells, &mut room);
    let plain = start.elapsed(rt)?.as_micros();
    let ratio = plain / fast.max(1);
    println!(rt; "tile {fast} us, plain {plain} us, ratio {ratio}, cells agree: {agree}")?;
    Ok(())
}
