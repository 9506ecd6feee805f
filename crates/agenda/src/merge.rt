//! How an agenda is merged: the next date of each model waits in a queue, and what comes first is taken out.
ghost use Rattle.std.specs.Prelude.{◌≡◌, ◌+◌, ◌<◌, ◌≤◌, [], length};
ghost use Rattle.order.specs.Keys.{by_keys};
ghost use Rattle.kinds.specs.Keys.{keys_by_tick};
ghost use Rattle.queue.specs.Queues.{slots_of, count_of, things_of, Ordered, Stays};
ghost use Rattle.agenda.specs.Merging.{Joined, Merged, Given};

use calendar::Calendar;
use kinds::entries::{ByTick, Entry};
use queue::Queue;
use set::sizes::MODELS;
use std::ops::Range;

/// Puts the earliest date of a model at or after `from`, if there is one below `to`.
#[tactic(auto, using(crate::proofs::Merges::stays_upto))]
fn join<C: Calendar>(queue: &mut Queue<'_, Entry>, calendar: &C, model: u32, from: u32, to: u32)
    requires few { count_of queue.old < 64 }
    requires room { 64 ≤ length (slots_of queue.old) }
    ensures joins { Joined (C.dates calendar.now) model from to (things_of queue.old) (things_of queue.new) }
    ensures few { count_of queue.new ≤ count_of queue.old + 1 }
    ensures stays { Stays (by_keys keys_by_tick) 64 queue.old queue.new }
{
    if let Some(tick) = calendar.earliest(model, from)
        && tick < to
    {
        // there is room for it
        let _ = queue.put(&ByTick, Entry { tick, model });
    }
}

/// Puts the first date of each model in the span.
pub(crate) fn start<C: Calendar>(queue: &mut Queue<'_, Entry>, calendar: &C, span: &Range<u32>)
    requires empty { count_of queue.old ≡ 0 }
    requires room { 64 ≤ length (slots_of queue.old) }
    ensures starts { Merged (C.dates calendar.now) span.now.start span.now.end [] (things_of queue.new) }
    ensures few { count_of queue.new ≤ 64 }
    ensures stays { Stays (by_keys keys_by_tick) 64 queue.old queue.new }
{
    for model in 1..=MODELS as u32 {
        join(queue, calendar, model, span.start, span.end);
    }
}

/// Gives the first dates, all or as many as the table has room for; answers how many.
pub(crate) fn merge<C: Calendar>(
    queue: &mut Queue<'_, Entry>,
    calendar: &C,
    span: &Range<u32>,
    table: &mut [Entry],
) -> usize
    requires merged { Merged (C.dates calendar.now) span.now.start span.now.end [] (things_of queue.old) }
    requires few { count_of queue.old ≤ 64 }
    requires room { 64 ≤ length (slots_of queue.old) }
    requires ordered { Ordered (by_keys keys_by_tick) queue.old }
    ensures gives { Given (C.dates calendar.now) span.now.start span.now.end result table.old table.new (things_of queue.new) }
    ensures stays { Stays (by_keys keys_by_tick) 64 queue.old queue.new }
{
    let mut count = 0;
    for slot in table.iter_mut() {
        let Some(date) = queue.take(&ByTick) else {
            return count;
        };
        *slot = date;
        count += 1;
        join(queue, calendar, date.model, date.tick + 1, span.end);
    }
    count
}
