//! Tests of cells and tiles.
use crate::arcs::{arc, fan, ramp};
use picture::{Arc, BAY, Quadrant, Record, Stored};
use std::test::Fail;
use tile::{Fault, SCRATCH, Tile, cell, print, print_row};
use weight::{Grey, Height, Ink, Mask, Pair, Valve, Weight};

/// Fills in the ramp's weights: first (1, 0), last (0, 1), loops of 1 and of 2, and 1 in between.
fn fill_ramp<W: Weight>(weights: &mut [W]) {
    for (i, weight) in weights.iter_mut().enumerate() {
        *weight = match i {
            0 | 65 | 128..=133 => W::one(),
            134..=137 => W::one().plus(W::one()),
            _ => W::zero(),
        };
    }
}

/// Whether a buffer that was full of 8 begins with these greys, and nothing is written behind them.
fn begins(cells: &[Grey], greys: &[u32]) -> bool {
    let due = |i: usize| greys.get(i).copied().unwrap_or(8);
    cells
        .iter()
        .enumerate()
        .all(|(i, cell)| cell.number() == due(i))
}

const fn tile_of(depth: usize, digits: usize, prefix: usize) -> Tile {
    Tile {
        depth,
        digits,
        prefix,
    }
}

/// Whether a tile's cells are these greys, and nothing is written behind them.
fn shows(states: u8, arcs: &[Arc], weights: &[Grey; BAY], tile: Tile, greys: &[u32]) -> bool {
    let Some(record) = Record::new(states, arcs) else {
        return false;
    };
    let body = Stored {
        record: &record,
        weights,
    };
    let mut cells = [Grey::new(8); 17];
    print(body, tile, &mut [Grey::new(9); SCRATCH], &mut cells).is_ok() && begins(&cells, greys)
}

#[test]
fn ramp_tiles(rt: HostRuntime) {
    let mut weights = [Grey::new(0); BAY];
    fill_ramp(&mut weights);
    let arcs = ramp();
    assert!(rt;
        shows(
            2,
            &arcs,
            &weights,
            tile_of(2, 0, 0),
            &[0, 1, 2, 3, 0, 1, 2, 3, 0, 1, 2, 3, 0, 1, 2, 3],
        )
    );
    assert!(rt; shows(2, &arcs, &weights, tile_of(2, 1, 1), &[2, 3, 2, 3]));
    assert!(rt; shows(2, &arcs, &weights, tile_of(2, 2, 7), &[3]));
    assert!(rt; shows(2, &arcs, &weights, tile_of(0, 0, 0), &[0]));
    assert!(rt;
        shows(
            2,
            &arcs,
            &weights,
            tile_of(12, 11, 4_194_303),
            &[4094, 4095, 4094, 4095],
        )
    );
}

/// What printing a row of the ramp's tile at depth 3 under digit 1 answers.
fn ramp_row(y: usize, cells: &mut [Grey]) -> Option<Result<usize, Fault>> {
    let record = &Record::new(2, &ramp())?;
    let mut weights = [Grey::new(0); BAY];
    fill_ramp(&mut weights);
    let body = Stored {
        record,
        weights: &weights,
    };
    let mut scratch = [Grey::new(9); SCRATCH];
    Some(print_row(body, tile_of(3, 1, 1), y, &mut scratch, cells))
}

#[test]
fn rows_of_a_tile(rt: HostRuntime) {
    let mut few = [Grey::new(8); 3];
    assert_eq!(rt; ramp_row(2, &mut few), Some(Err(Fault::ShortOutput)));
    assert!(rt; begins(&few, &[]));
    let mut cells = [Grey::new(8); 5];
    assert_eq!(rt; ramp_row(4, &mut cells), Some(Err(Fault::NoTile)));
    assert!(rt; begins(&cells, &[]));
    assert_eq!(rt; ramp_row(2, &mut cells), Some(Ok(4)));
    assert!(rt; begins(&cells, &[4, 5, 6, 7]));
}

/// Fills in weights by which each cell is the number of its address in base 4: the second state's loops are of 4.
fn fill_numbers(weights: &mut [Grey]) {
    for (i, weight) in weights.iter_mut().enumerate() {
        *weight = Grey::new(match i {
            0 | 65 | 128..=131 => 1,
            132..=135 => i as u32 - 132,
            136..=139 => 4,
            _ => 0,
        });
    }
}

/// The number of the cell's address at depth 6: its digits take a bit of the row and one of the column each.
fn number(x: usize, y: usize) -> usize {
    let mut number = 0usize;
    for bit in [5u32, 4, 3, 2, 1, 0] {
        let digit = (x >> bit) % 2 + 2 * ((y >> bit) % 2);
        number = number.wrapping_mul(4).wrapping_add(digit);
    }
    number
}

/// Whether each cell of a tile has the number of its address, counted from a start.
fn in_order(cells: &[Grey], start: usize) -> bool {
    cells.iter().enumerate().all(|(i, cell)| {
        let due = start.wrapping_add(number(i % 64, i / 64)) % 65_536;
        cell.number() as usize == due
    })
}

#[test]
fn a_full_tile_in_order(rt: HostRuntime) -> Result<(), Fail> {
    let (a, b, c) = (fan(0, 0), fan(0, 1), fan(1, 1));
    let arcs = [
        a[0], a[1], a[2], a[3], b[0], b[1], b[2], b[3], c[0], c[1], c[2], c[3],
    ];
    let Some(record) = Record::new(2, &arcs) else {
        return Err(Fail::new("no record"));
    };
    let mut weights = [Grey::new(0); BAY];
    fill_numbers(&mut weights);
    let body = Stored {
        record: &record,
        weights: &weights,
    };
    let mut scratch = [Grey::new(9); SCRATCH];
    let mut cells = [Grey::new(8); 4096];
    assert!(rt; print(body, tile_of(6, 0, 0), &mut scratch, &mut cells).is_ok());
    assert!(rt; in_order(&cells, 0));
    assert!(rt; print(body, tile_of(8, 2, 6), &mut scratch, &mut cells).is_ok());
    assert!(rt; in_order(&cells, 6 * 4096));
    Ok(())
}

#[test]
fn parallel_arcs_add_up(rt: HostRuntime) {
    let both = [
        arc(0, 0, Quadrant::UpperLeft),
        arc(0, 0, Quadrant::UpperLeft),
    ];
    let mut weights = [Grey::new(1); BAY];
    weights[128] = Grey::new(2);
    weights[129] = Grey::new(3);
    assert!(rt; shows(1, &both, &weights, tile_of(1, 0, 0), &[5, 0, 0, 0]));
}

#[test]
fn no_states(rt: HostRuntime) {
    assert!(rt;
        shows(
            0,
            &[],
            &[Grey::new(7); BAY],
            tile_of(1, 0, 0),
            &[0, 0, 0, 0]
        )
    );
    assert!(rt; Record::new(0, &[arc(0, 0, Quadrant::UpperLeft)]).is_none());
    assert!(rt; Record::new(65, &[]).is_none());
}

/// The ramp's cell in the lower right at depth 2, on any kind, by the plain evaluation.
fn corner<W: Weight>(weights: &mut [W], scratch: &mut [W]) -> Option<W> {
    let record = Record::new(2, &ramp())?;
    if weights.len() != BAY || scratch.len() != 128 {
        return None;
    }
    fill_ramp(weights);
    let body = Stored {
        record: &record,
        weights,
    };
    let address = [Quadrant::LowerRight, Quadrant::LowerRight];
    Some(cell(body, &address, scratch))
}

#[test]
fn numbers_of_kinds(rt: HostRuntime) -> Result<(), Fail> {
    let Some(grey) = corner(&mut [Grey::new(0); BAY], &mut [Grey::new(5); 128]) else {
        return Err(Fail::new("no grey"));
    };
    assert_eq!(rt; grey.number(), 3);
    let Some(ink) = corner(&mut [Ink::new(0); BAY], &mut [Ink::new(5); 128]) else {
        return Err(Fail::new("no ink"));
    };
    assert_eq!(rt; ink.number(), 3);
    let Some(height) = corner(&mut [Height::new(0); BAY], &mut [Height::new(5); 128]) else {
        return Err(Fail::new("no height"));
    };
    assert_eq!(rt; height.number(), 0);
    Ok(())
}

#[test]
fn bits_of_kinds(rt: HostRuntime) -> Result<(), Fail> {
    let Some(mask) = corner(
        &mut [Mask { set: false }; BAY],
        &mut [Mask { set: true }; 128],
    ) else {
        return Err(Fail::new("no mask"));
    };
    assert_eq!(rt; mask.number(), 1);
    let Some(valve) = corner(&mut [Valve::new(0); BAY], &mut [Valve::new(5); 128]) else {
        return Err(Fail::new("no valve"));
    };
    assert_eq!(rt; valve.number(), 9);
    let zero = Pair {
        first: Ink::new(0),
        second: Valve::new(0),
    };
    let Some(pair) = corner(&mut [zero; BAY], &mut [zero; 128]) else {
        return Err(Fail::new("no pair"));
    };
    assert_eq!(rt; pair.first.number(), 3);
    assert_eq!(rt; pair.second.number(), 9);
    Ok(())
}

/// Why a blank body's tile is not printed into so many cells.
fn fault(tile: Tile, cells: &mut [Grey]) -> Option<Fault> {
    let record = &Record::new(0, &[])?;
    let body = Stored {
        record,
        weights: &[Grey::new(7); BAY],
    };
    print(body, tile, &mut [Grey::new(9); SCRATCH], cells).err()
}

#[test]
fn refusals(rt: HostRuntime) {
    let mut cells = [Grey::new(8); 16];
    assert_eq!(rt; fault(tile_of(13, 13, 0), &mut cells), Some(Fault::NoTile));
    assert_eq!(rt; fault(tile_of(2, 3, 0), &mut cells), Some(Fault::NoTile));
    assert_eq!(rt; fault(tile_of(7, 0, 0), &mut cells), Some(Fault::NoTile));
    assert_eq!(rt; fault(tile_of(2, 1, 4), &mut cells), Some(Fault::NoTile));
    assert_eq!(rt;
        fault(tile_of(3, 0, 0), &mut cells),
        Some(Fault::ShortOutput)
    );
    assert!(rt; fault(tile_of(2, 0, 0), &mut cells).is_none());
}
