//! Tests of the operations on bodies.
use crate::arcs::{arc, fan};
use compose::{Fault, add};
use picture::{Arc, BAY, Quadrant, Record, Stored};
use piece::piece;
use product::multiply;
use std::test::Fail;
use tile::{SCRATCH, Tile, print};
use weight::{Grey, Valve};

/// So many loops at the first state.
fn loops() -> [Arc; 113] {
    [arc(0, 0, Quadrant::UpperLeft); 113]
}

/// The counts of a piecing of four equal parts, or why there is none.
fn pieced(states: u8, arcs: &[Arc]) -> Option<Result<(u8, u16), Fault>> {
    let record = &Record::new(states, arcs)?;
    let part = Stored {
        record,
        weights: &[Grey::new(1); BAY],
    };
    let whole = piece(part, part, part, part, &mut [Grey::new(0); BAY]);
    Some(whole.map(|record| (record.states, record.count)))
}

#[test]
fn piecings(rt: HostRuntime) {
    assert_eq!(rt; pieced(16, &[]), Some(Err(Fault::ManyStates)));
    assert_eq!(rt; pieced(15, &loops()), Some(Ok((61, 512))));
    assert_eq!(rt; pieced(0, &[]), Some(Ok((1, 0))));
}

#[test]
fn products(rt: HostRuntime) -> Result<(), Fail> {
    let (Some(five), Some(thirteen)) = (Record::new(5, &[]), Record::new(13, &[])) else {
        return Err(Fail::new("no record"));
    };
    let weights = &[Grey::new(1); BAY];
    let a = Stored {
        record: &five,
        weights,
    };
    let b = Stored {
        record: &thirteen,
        weights,
    };
    let fault = multiply(a, b, &mut [Grey::new(0); BAY]).err();
    assert_eq!(rt; fault, Some(Fault::ManyStates));
    let weights = &[Valve::new(1); BAY];
    let a = Stored {
        record: &five,
        weights,
    };
    let b = Stored {
        record: &thirteen,
        weights,
    };
    let fault = multiply(a, b, &mut [Valve::new(0); BAY]).err();
    assert_eq!(rt; fault, Some(Fault::NoExchange));
    Ok(())
}

/// The cells at depth 1 of the sum of a one-state body with itself, first weight 7, loops of 1.
fn doubled(cells: &mut [Grey]) -> bool {
    let Some(flat) = Record::new(1, &fan(0, 0)) else {
        return false;
    };
    let mut weights = [Grey::new(1); BAY];
    weights[0] = Grey::new(7);
    let flat = Stored {
        record: &flat,
        weights: &weights,
    };
    let mut out = [Grey::new(0); BAY];
    let Ok(sum) = add(flat, flat, &mut out) else {
        return false;
    };
    let sum = Stored {
        record: &sum,
        weights: &out,
    };
    let tile = Tile {
        depth: 1,
        digits: 0,
        prefix: 0,
    };
    print(sum, tile, &mut [Grey::new(0); SCRATCH], cells).is_ok()
}

#[test]
fn sums(rt: HostRuntime) {
    let mut cells = [Grey::new(0); 4];
    assert!(rt; doubled(&mut cells));
    for cell in &cells {
        assert_eq!(rt; cell.number(), 14);
    }
}
