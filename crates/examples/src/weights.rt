//! Tests of the kinds of weight.
use crate::pairs::{Eight, Nine, Two};
use std::test::Fail;
use weight::{Grey, Height, Ink, Mask, Pair, Valve, Weight, Written};

#[test]
fn worked_values(rt: HostRuntime) {
    assert_eq!(rt;
        Height::new(16_777_214).times(Height::new(5)).number(),
        16_777_215
    );
    assert_eq!(rt; Ink::new(200).plus(Ink::new(100)).number(), 255);
    assert_eq!(rt; Ink::new(16).times(Ink::new(16)).number(), 255);
    assert_eq!(rt; Valve::new(2).times(Valve::new(4)).number(), 1);
    assert_eq!(rt; Valve::new(4).times(Valve::new(2)).number(), 8);
    assert_eq!(rt; Grey::new(65_535).plus(Grey::new(2)).number(), 1);
}

// Whether a kind reads the word with a payload, and writes it again.
fn takes<W: Written>(payload: u32) -> bool {
    let word = 0x3000_0000 + payload % 0x0100_0000;
    match W::read(&[word]) {
        Some(weight) => weight.word(0) == word && weight.word(1) == 0,
        None => false,
    }
}

#[test]
fn largest_payloads(rt: HostRuntime) {
    assert!(rt; takes::<Mask>(1) && !takes::<Mask>(2));
    assert!(rt; takes::<Grey>(65_535) && !takes::<Grey>(65_536));
    assert!(rt; takes::<Height>(0) && takes::<Height>(16_777_215));
    assert!(rt; takes::<Ink>(255) && !takes::<Ink>(256));
    assert!(rt; takes::<Valve>(15) && !takes::<Valve>(16));
}

// Another tag, a set zero bit, no word, a word too many.
fn refuses_others<W: Written>() -> bool {
    W::read(&[0x2000_0000]).is_none()
        && W::read(&[0x3100_0000]).is_none()
        && W::read(&[]).is_none()
        && W::read(&[0x3000_0000, 0x3000_0000]).is_none()
}

#[test]
fn other_words(rt: HostRuntime) {
    assert!(rt; refuses_others::<Mask>());
    assert!(rt; refuses_others::<Grey>());
    assert!(rt; refuses_others::<Height>());
    assert!(rt; refuses_others::<Ink>());
    assert!(rt; refuses_others::<Valve>());
}

const EIGHT: [u32; 8] = [
    0x3000_0001,
    0x30ff_ffff,
    0x3000_0002,
    0x3000_0100,
    0x3000_0003,
    0x3000_0000,
    0x3000_00ff,
    0x3001_0000,
];

#[test]
fn pair_of_pairs(rt: HostRuntime) -> Result<(), Fail> {
    assert_eq!(rt; Eight::width(), 8);
    let Some(weight) = Eight::read(&EIGHT) else {
        return Err(Fail::new("eight words are not read"));
    };
    for (i, word) in EIGHT.iter().enumerate() {
        assert_eq!(rt; weight.word(i), *word);
    }
    assert_eq!(rt; weight.word(8), 0);
    assert!(rt; Eight::read(&EIGHT[0..7]).is_none());
    Ok(())
}

#[test]
fn too_wide(rt: HostRuntime) {
    assert_eq!(rt; Nine::width(), 9);
    assert_eq!(rt; Nine::one().word(0), 0);
    assert!(rt; Nine::read(&[0x3000_0000; 9]).is_none());
}

#[test]
fn exchanging(rt: HostRuntime) {
    assert!(rt; Two::exchanges());
    assert!(rt; !Valve::exchanges());
    assert!(rt; !Pair::<Ink, Valve>::exchanges());
}
