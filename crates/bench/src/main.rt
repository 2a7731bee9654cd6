//! What a full tile costs: multiply-adds by count, and with the argument `time` the time beside plain evaluation.
#![tactic(auto)]

mod body;
mod timing;
mod work;

use anyhow::anyhow;
use std::env;
use work::Work;

/// One line of the account.
fn line(rt: &HostRuntime, label: &str, work: Work) -> anyhow::Result<()> {
    let steps = work.steps;
    let products = work.products;
    let whole = products / work::CELLS;
    let hundredths = products % work::CELLS * 100 / work::CELLS;
    println!(rt;
        "{label}: {steps} steps, {products} multiply-adds, {whole}.{hundredths:02} a cell"
    )?;
    Ok(())
}

fn run(rt: &HostRuntime) -> anyhow::Result<()> {
    let mut args = env::args(rt)?.skip(1);
    match args.next() {
        Some(word) if word.as_str() == "time" => return timing::compare(rt),
        Some(_) => return Err(anyhow!("the only argument is time")),
        None => {}
    }
    println!(rt; "64 states, 512 arcs, tile depth 6: 4096 cells")?;
    line(rt, "columns", work::columns())?;
    line(rt, "rows", work::rows())?;
    line(rt, "cells", work::cells())?;
    line(rt, "in all", work::tile())?;
    line(rt, "plain", work::plain())
}

fn main(rt: HostRuntime) -> anyhow::Result<()> {
    run(&rt)
}
