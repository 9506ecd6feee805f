//! Advances rosters for tools/bench to time: each line of standard input is a job, and is answered by a number that hangs on what each call answers and on every word of every sheet.
//!
//! A line has a plan, `wide`, `grouped` or `small`, a way, `advance`, `open` or `season`, and how often a roster is called.
#![tactic(auto)]

use anyhow::{Context, Result, bail};
use checksum::Checksum;
use job::Job;
use std::alloc::Global;
use std::io::{BufRead, BufReader, Write};

mod checksum;
mod job;
mod ways;

/// What a line is answered.
fn answer(heap: Global, line: &str) -> Result<Checksum> {
    let mut words = line.split_ascii_whitespace();
    let job = match words.next().context("no plan")? {
        "wide" => Job::wide()?,
        "grouped" => Job::grouped()?,
        "small" => Job::small()?,
        plan => bail!("no such plan: {plan}"),
    };
    let way = words.next().context("no way")?;
    let times = words.next().context("no number of calls")?.parse()?;
    match way {
        "advance" => job.advance(times),
        "open" => job.open(times),
        "season" => job.season(heap, times),
        _ => bail!("no such way: {way}"),
    }
}

fn main(rt: HostRuntime) -> Result<()> {
    for line in BufReader::new(rt.alloc(), rt.stdin())?.lines(rt.alloc()) {
        let Checksum(sum) = answer(rt.alloc(), line?.as_str())?;
        writeln!(rt.stdout(), "{sum}")?;
    }
    Ok(())
}
