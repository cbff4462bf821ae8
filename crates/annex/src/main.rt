//! Tries the steps of the table ladders against the tick table of the law, given as text on standard input.
#![tactic(auto)]

mod row;
mod totals;
mod trial;

use std::io::{BufRead, BufReader};
use totals::Totals;

// Prints a line for each line of the input, and then the totals.
fn try_input(rt: &HostRuntime) -> anyhow::Result<()> {
    let mut totals = Totals::default();
    for line in BufReader::new(rt.alloc(), rt.stdin())?.split(rt.alloc(), b'\n') {
        rt.println(totals.add(&line?))?;
    }
    rt.println(totals)?;
    Ok(())
}

fn main(rt: HostRuntime) -> anyhow::Result<()> {
    try_input(&rt)
}
