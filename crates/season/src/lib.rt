//! A whole list of calls on a roster, performed in order.
#![tactic(auto)]

ghost use Rattle.std.specs.Prelude.{◌≡◌, OnErr};
ghost use Rattle.refusal.specs.Refusals.{Answers};
ghost use Rattle.book.specs.Racks.{rack_of};
ghost use Rattle.book.specs.Calls.{about_opening};
ghost use Rattle.season.specs.Performing.{Performed};

mod answer;
mod call;
mod entry;

pub use answer::Answer;
use calendar::Calendar;
pub use call::Call;
pub use entry::Entry;
use kinds::runs::Run;
use order::Order;
use plan::plans::Plan;
use refusal::Refusal;
use roster::Roster;

/// Opens a roster over a plan, a calendar and an order, and performs all calls of a list on it, each on the roster as the call ahead left it.
/// Each entry gets its answer, refusals too, and its own memory what the call writes. Nothing allocates, so only the opening can be refused: with 8 (`opening`) at the first model whose spacing, by the calendar, is below its period; then every entry is as it was.
pub fn perform<C: Calendar, O: Order<Item = Run>>(
    plan: &Plan,
    calendar: &C,
    order: &O,
    entries: &mut [Entry<'_>],
) -> Result<(), Refusal>
    ensures performs { Answers (about_opening (rack_of plan.now) (C.spacings calendar.now)) result (λ _. Performed plan.now (C.dates calendar.now) (O.precedes order.now) entries.old entries.new) }
    ensures unchanged { OnErr result (entries.new ≡ entries.old) }
{
    let mut roster = Roster::open(plan, calendar, order)?;
    for entry in entries.iter_mut() {
        entry.perform(&mut roster);
    }
    Ok(())
}
