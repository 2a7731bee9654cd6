//! Shows drawings that are given as words, and recipes.
#![tactic(auto)]

mod compositions;
mod drawings;
mod embedded;
mod kinds;
mod recipes;
mod shown;
mod tiles;

use anyhow::anyhow;
use kinds::Task;
use std::env;

/// How the program is called.
const USAGE: &str =
    "panel, or panel show DEPTH LENGTH PREFIX, or panel picture DEPTH LENGTH PREFIX, or panel recipe LINE";

/// What is done where no argument asks for something else.
fn tour(rt: &HostRuntime) -> anyhow::Result<()> {
    let words = drawings::input(rt)?;
    kinds::carry_out(rt, &words, Task::Show(tiles::WHOLE))?;
    compositions::show(rt)?;
    recipes::explain(rt, embedded::RECIPE)
}

fn run(rt: &HostRuntime) -> anyhow::Result<()> {
    let mut args = env::args(rt)?.skip(1);
    let Some(command) = args.next() else {
        return tour(rt);
    };
    let (first, second, third) = (args.next(), args.next(), args.next());
    match (command.as_str(), first, second, third) {
        ("recipe", Some(line), None, None) => recipes::explain(rt, line.as_str()),
        ("show", Some(depth), Some(length), Some(prefix)) => {
            let tile = tiles::parse(depth.as_str(), length.as_str(), prefix.as_str())?;
            kinds::carry_out(rt, &drawings::input(rt)?, Task::Show(tile))
        }
        ("picture", Some(depth), Some(length), Some(prefix)) => {
            let tile = tiles::parse(depth.as_str(), length.as_str(), prefix.as_str())?;
            kinds::carry_out(rt, &drawings::input(rt)?, Task::Picture(tile))
        }
        _ => Err(anyhow!(USAGE)),
    }
}

fn main(rt: HostRuntime) -> anyhow::Result<()> {
    run(&rt)
}
