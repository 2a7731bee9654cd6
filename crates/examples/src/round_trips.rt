//! Tests of bodies as words.
ghost use Rattle.std.specs.Prelude.{◌≡◌, length};

use crate::pairs::{Eight, Nine, Two};
use picture::BAY;
use weight::{Grey, Weight, Written};
use words::{TripFault, rewrite};

// A grey body of one state with a loop for each digit.
const FLAT: [u32; 11] = [
    0x1210_1004,
    0x3000_0007,
    0x3000_0001,
    0x2000_0000,
    0x3000_0001,
    0x2400_0000,
    0x3000_0001,
    0x2800_0000,
    0x3000_0001,
    0x2C00_0000,
    0x3000_0001,
];

// A fault's number and index, or 0 and how many words are written again.
fn trip<W: Written>(given: &[u32], weights: &mut [W], out: &mut [u32]) -> (u8, usize)
    requires { length weights.old ≡ 640 }
{
    match rewrite(given, weights, out) {
        Ok(count) => (0, count),
        Err(TripFault::Read(f)) => (f.number(), f.index().unwrap_or(0)),
        Err(TripFault::Write(f)) => (f.number(), 0),
    }
}

#[test]
fn flat_body_and_blank_body(rt: HostRuntime) {
    let mut greys = [Grey::zero(); BAY];
    let mut out = [5; 12];
    assert_eq!(rt; trip(&FLAT, &mut greys, &mut out), (0, 11));
    assert_eq!(rt; out[..11], FLAT[..]);
    assert!(rt; out[11] == 5);
    let mut short = [5; 10];
    assert_eq!(rt; trip(&FLAT, &mut greys, &mut short), (16, 0));
    assert!(rt; short[0] == 5);
    assert_eq!(rt; trip(&[0x1210_0000], &mut greys, &mut short), (0, 1));
    assert!(rt; short[0] == 0x1210_0000 && short[1] == 5);
}

// Of each damage to the flat body the index, the word that stands there then, and the fault.
const DAMAGES: [(usize, u32, u8, usize); 13] = [
    (0, 0x1310_1004, 4, 0),
    (0, 0x2210_1004, 4, 0),
    (0, 0x1220_1004, 4, 0),
    (0, 0x1218_1004, 4, 0),
    (0, 0x1214_1004, 4, 0),
    (0, 0x1210_1201, 4, 0),
    (0, 0x1210_1003, 5, 0),
    (1, 0x3001_0000, 7, 1),
    (5, 0x2400_0001, 6, 5),
    (5, 0x2400_0100, 6, 5),
    (5, 0x2401_0000, 6, 5),
    (5, 0x3400_0000, 6, 5),
    (10, 0x3100_0001, 7, 10),
];

// The fault of the flat body with another word at one index.
fn damaged(at: usize, word: u32) -> (u8, usize) {
    let mut given = FLAT;
    if at < 11 {
        given[at] = word;
    }
    trip(&given, &mut [Grey::zero(); BAY], &mut [5; 12])
}

#[test]
fn damaged_words(rt: HostRuntime) {
    for (at, word, number, index) in DAMAGES {
        assert_eq!(rt; damaged(at, word), (number, index));
    }
    let mut given = FLAT;
    given[2] = 0;
    given[5] = 0;
    let mut greys = [Grey::zero(); BAY];
    let mut out = [5; 12];
    assert_eq!(rt; trip(&given, &mut greys, &mut out), (7, 2));
    assert_eq!(rt; trip(&FLAT[0..10], &mut greys, &mut out), (5, 0));
    assert_eq!(rt; trip(&[], &mut greys, &mut out), (4, 0));
    assert!(rt; out[0] == 5);
}

// Writes the words of 512 arcs from state 63 to itself, each before a weight of so many words.
fn loops(given: &mut [u32], first: usize, width: u8) {
    for (i, word) in given.iter_mut().enumerate().skip(first) {
        if (i - first) % (1 + width as usize) == 0 {
            *word = 0x2C00_3F3F;
        }
    }
}

#[test]
fn greatest_body_in_words_of_width_1(rt: HostRuntime) {
    let mut given = [0x3000_FFFF; 1153];
    given[0] = 0x1214_0200;
    loops(&mut given, 129, 1);
    let mut greys = [Grey::zero(); BAY];
    let mut out = [5; 1153];
    assert_eq!(rt; trip(&given, &mut greys, &mut out), (0, 1153));
    assert!(rt; out[128] == 0x3000_FFFF && out[1151] == 0x2C00_3F3F && out[1152] == 0x3000_FFFF);
    given[1152] = 0x3001_0000;
    assert_eq!(rt; trip(&given, &mut greys, &mut out), (7, 1152));
    given[1151] = 0x2C00_3F40;
    assert_eq!(rt; trip(&given, &mut greys, &mut out), (6, 1151));
    given[1] = 0;
    assert_eq!(rt; trip(&given, &mut greys, &mut out), (7, 1));
    let arc = [0x1210_0001, 0x2000_0000, 0x3000_0001];
    assert_eq!(rt; trip(&arc, &mut greys, &mut out), (6, 1));
}

#[test]
fn pairs_of_width_2_and_9(rt: HostRuntime) {
    let mut pairs = [Two::zero(); BAY];
    let mut out = [5; 5];
    let mut given = [
        0x1620_1000,
        0x3000_0001,
        0x3000_0000,
        0x3000_0003,
        0x3000_01F4,
    ];
    assert_eq!(rt; trip(&given, &mut pairs, &mut out), (0, 5));
    assert!(rt; out[3] == 0x3000_0003 && out[4] == 0x3000_01F4);
    given[4] = 0x2000_01F4;
    assert_eq!(rt; trip(&given, &mut pairs, &mut out), (7, 3));
    let mut wide = [Nine::zero(); BAY];
    assert_eq!(rt; trip(&given, &mut wide, &mut out), (3, 0));
}

#[test]
fn greatest_body_in_words_of_width_8(rt: HostRuntime) {
    let mut given = [0x3000_0007; 5633];
    given[0] = 0x1684_0200;
    loops(&mut given, 1025, 8);
    let mut weights = [Eight::zero(); BAY];
    let mut out = [5; 5633];
    assert_eq!(rt; trip(&given, &mut weights, &mut out), (0, 5633));
    assert!(rt; out[1024] == 0x3000_0007 && out[5624] == 0x2C00_3F3F && out[5632] == 0x3000_0007);
    given[5632] = 0x3100_0007;
    assert_eq!(rt; trip(&given, &mut weights, &mut out), (7, 5625));
    given[5624] = 0x2C00_403F;
    assert_eq!(rt; trip(&given, &mut weights, &mut out), (6, 5624));
}
