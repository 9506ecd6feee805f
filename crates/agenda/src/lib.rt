//! All dates of a span, in order.
#![tactic(auto)]

ghost use Rattle.std.specs.Prelude.{◌≡◌, length, take, IfNone, IfOk, OnSome};
ghost use Rattle.refusal.specs.Refusals.{Answers};
ghost use Rattle.dates.specs.Agendas.{agenda_of, IsAgenda};
ghost use Rattle.agenda.specs.Filling.{about_call, about_filling, filled};

mod merge;

use calendar::Calendar;
use dates::END;
use kinds::entries::Entry;
use merge::{merge, start};
use queue::Queue;
use refusal::{Fault, Layer, Lent, Refusal};
use set::sizes::MODELS;
use std::ops::Range;

/// Fills the table with the dates of a span, from its start up to but without its end, by tick, then model; answers their number.
/// The scratch has room for 64 entries or more, and holds anything afterwards.
pub fn fill<C: Calendar>(
    calendar: &C,
    span: Range<u32>,
    table: &mut [Entry],
    scratch: &mut [Entry],
) -> Result<usize, Refusal>
    ensures answers { Answers (about_filling (C.dates calendar.now) span.start span.end table.old scratch.old) result (λ n. n ≡ length (agenda_of (C.dates calendar.now) span.start span.end)) }
    ensures exact { IfOk result (λ n. IsAgenda (C.dates calendar.now) span.start span.end (take n table.new)) }
    ensures whole { IsAgenda (C.dates calendar.now) span.start span.end (agenda_of (C.dates calendar.now) span.start span.end) }
    ensures fills { IfNone (about_call span.start span.end (length scratch.old)) (table.new ≡ filled (agenda_of (C.dates calendar.now) span.start span.end) table.old) }
    ensures unchanged { OnSome (about_call span.start span.end (length scratch.old)) ((table.new ≡ table.old) × (scratch.new ≡ scratch.old)) }
    ensures room { length scratch.new ≡ length scratch.old }
{
    check(&span, scratch.len())?;
    let mut queue = Queue::new(scratch);
    start(&mut queue, calendar, &span);
    let count = merge(&mut queue, calendar, &span, table);
    if !queue.is_empty() {
        return Err(Fault::Crowded.at(Layer::Agenda, table.len() as u64));
    }
    Ok(count)
}

/// Refuses what is no span, and scratch that has room for too few entries.
fn check(span: &Range<u32>, room: usize) -> Result<(), Refusal>
    ensures { Answers (about_call span.now.start span.now.end room) result (λ _. Unit {0}) }
{
    if span.start > span.end || span.end > END {
        return Err(Fault::Span.at(Layer::Agenda, 0));
    }
    if room < MODELS {
        return Err(Fault::Memory.at(Layer::Agenda, Lent::Scratch.place()));
    }
    Ok(())
}
