//! Fills agendas for tools/bench to time: each line of standard input is one, and is answered by a line.
//!
//! A line has a tick, the number of entries of the table, and then a first date and a period for each model from 1 on, as `F,P`.
//! The answer is the number of all dates before the tick, and a checksum of them in their order.
#![tactic(auto)]

use agenda::fill;
use anyhow::{Context, Result};
use calendars::phase::PhaseCalendar;
use dates::phase::Phase;
use kinds::entries::Entry;
use set::sizes::MODELS;
use std::alloc::Global;
use std::io::{BufRead, BufReader, Write};

/// A number that hangs on each date and on their order.
fn checksum(dates: &[Entry]) -> u64 {
    dates.iter().fold(0, |sum: u64, date: &Entry| {
        sum.wrapping_mul(0x9e37_79b9_7f4a_7c15)
            .wrapping_add(((date.tick as u64) << 32) | date.model as u64)
    })
}

fn answer_line<W: Write>(heap: Global, line: &str, out: &mut W) -> Result<()> {
    let mut words = line.split_ascii_whitespace();
    let end = words.next().context("no tick")?.parse()?;
    let length = words.next().context("no length")?.parse()?;
    let mut phases = [Phase::none(); MODELS];
    for (slot, word) in words.enumerate() {
        let (first, period) = word.split_once(',').context("no phase")?;
        *phases.get_mut(slot).context("too many models")? = Phase {
            first: first.parse()?,
            period: period.parse()?,
        };
    }
    let blank = Entry { tick: 0, model: 0 };
    let mut table = vec![in heap; blank; length]?;
    let mut scratch = [blank; MODELS];
    let count = fill(&PhaseCalendar { phases }, 0..end, &mut table, &mut scratch)?;
    writeln!(out, "{count} {}", checksum(&table[..count]))?;
    Ok(())
}

fn main(rt: HostRuntime) -> Result<()> {
    for line in BufReader::new(rt.alloc(), rt.stdin())?.lines(rt.alloc()) {
        answer_line(rt.alloc(), line?.as_str(), &mut rt.stdout())?;
    }
    Ok(())
}
