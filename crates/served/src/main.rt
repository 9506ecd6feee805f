//! Plays many lists of calls on queues: each line of standard input is one, and is answered by a line.
//!
//! A line begins with the name of an order, `tick`, `model` or `remaining`, and the number of slots that are lent.
//! Then come the calls: `+M,T,R` puts the thing of model M with moment T and R parts remaining (an entry has no R), and `-` takes a thing.
//!
//! A put is answered by `put` or `full`, a take by the thing or `none`; the R of an entry is 0.
//! Then the line ends in `holds`, how many things are held, `untouched`, and how many slots are as they were lent: those that no put ever reached.
#![tactic(auto)]

use anyhow::{Context, Result, bail};
use kinds::entries::ByTick;
use kinds::runs::{ByModel, ByRemaining};
use numbers::Numbers;
use order::Order;
use queue::{Full, Queue};
use std::alloc::Global;
use std::io::{BufRead, BufReader, Write};
use std::str::SplitAsciiWhitespace;

mod numbers;

/// Makes one call, and writes its answer.
fn make_call<T: Copy + From<Numbers> + Into<Numbers>, O: Order<Item = T>, W: Write>(
    order: &O,
    queue: &mut Queue<'_, T>,
    call: &str,
    out: &mut W,
) -> Result<()> {
    if let Some(thing) = call.strip_prefix('+') {
        let thing: Numbers = thing.parse()?;
        match queue.put(order, thing.into()) {
            Ok(()) => write!(out, "put ")?,
            Err(Full) => write!(out, "full ")?,
        }
    } else if call != "-" {
        bail!("no such call: {call}");
    } else if let Some(thing) = queue.take(order) {
        let thing: Numbers = thing.into();
        write!(out, "{thing} ")?;
    } else {
        write!(out, "none ")?;
    }
    Ok(())
}

/// Makes all calls of a line, over slots that are lent blank.
fn make_calls<T: Copy + From<Numbers> + Into<Numbers>, O: Order<Item = T>, W: Write>(
    heap: Global,
    order: &O,
    lent: usize,
    calls: SplitAsciiWhitespace<'_>,
    out: &mut W,
) -> Result<()> {
    let blank = Numbers::default();
    let mut slots = vec![in heap; T::from(blank); lent]?;
    let mut queue = Queue::new(&mut slots);
    for call in calls {
        make_call(order, &mut queue, call, out)?;
    }
    let held = queue.len();
    let untouched = slots.iter().filter(|slot| (**slot).into() == blank).count();
    writeln!(out, "holds {held} untouched {untouched}")?;
    Ok(())
}

/// Plays a line in the order that it names.
fn play<W: Write>(heap: Global, line: &str, out: &mut W) -> Result<()> {
    let mut words = line.split_ascii_whitespace();
    let order = words.next().context("no order")?;
    let lent = words.next().context("no slots")?.parse()?;
    match order {
        "tick" => make_calls(heap, &ByTick, lent, words, out),
        "model" => make_calls(heap, &ByModel, lent, words, out),
        "remaining" => make_calls(heap, &ByRemaining, lent, words, out),
        _ => bail!("no such order: {order}"),
    }
}

fn main(rt: HostRuntime) -> Result<()> {
    for line in BufReader::new(rt.alloc(), rt.stdin())?.lines(rt.alloc()) {
        play(rt.alloc(), line?.as_str(), &mut rt.stdout())?;
    }
    Ok(())
}
