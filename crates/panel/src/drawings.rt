//! A drawing of one kind: read from words, shown as numbers or as a picture, and written back.
use crate::embedded::RAMP;
use crate::kinds::Task;
use crate::shown::Shown;
use crate::tiles::{numbers, picture};
use picture::{BAY, Stored};
use std::io;
use words::{Fault, read, write};

/// The words on standard input, in base 16, or those of the embedded drawing.
pub(crate) fn input(rt: &HostRuntime) -> anyhow::Result<Vec<u32>> {
    let text = io::read_to_string(rt.alloc(), rt.stdin())?;
    let given = text.as_str().trim();
    if given.is_empty() {
        return parse(rt, RAMP);
    }
    parse(rt, given)
}

/// Words in base 16, with white space between them.
pub(crate) fn parse(rt: &HostRuntime, text: &str) -> anyhow::Result<Vec<u32>> {
    let mut words = Vec::new(rt.alloc());
    for word in text.split_whitespace() {
        words.push(u32::from_str_radix(word, 16)?)?;
    }
    Ok(words)
}

/// Reads a body of one kind, and carries out the task on it.
pub(crate) fn work<W: Shown>(rt: &HostRuntime, given: &[u32], task: Task) -> anyhow::Result<()> {
    let mut weights = vec![in rt.alloc(); W::zero(); BAY]?;
    let place = match read::<W>(given, &mut weights) {
        Ok(place) => place,
        Err(fault) => return refuse(rt, fault),
    };
    let body = Stored {
        record: &place,
        weights: &weights,
    };
    match task {
        Task::Show(tile) => {
            numbers(rt, body, tile)?;
            write_back(rt, body, given.len())
        }
        Task::Picture(tile) => picture(rt, body, tile),
    }
}

/// The words of the body, written again into so much room.
fn write_back<W: Shown>(rt: &HostRuntime, body: Stored<'_, W>, room: usize) -> anyhow::Result<()> {
    let mut words = vec![in rt.alloc(); 0u32; room]?;
    if let Err(fault) = write(body, &mut words) {
        let number = fault.number();
        println!(rt; "refused {number}: {fault}")?;
        return Ok(());
    }
    print!(rt; "words")?;
    for word in words.iter() {
        print!(rt; " {word:08x}")?;
    }
    println!(rt; "")?;
    Ok(())
}

/// Why words are not those of a body.
fn refuse(rt: &HostRuntime, fault: Fault) -> anyhow::Result<()> {
    let number = fault.number();
    match fault.index() {
        Some(word) => println!(rt; "refused {number} word {word}: {fault}")?,
        None => println!(rt; "refused {number}: {fault}")?,
    }
    Ok(())
}
