//! The caller that performs a list of calls.
ghost use Rattle.std.specs.Prelude.{◌≡◌, length, Some, IsSome};
ghost use Rattle.refusal.specs.Refusals.{Answers};
ghost use Rattle.book.specs.Racks.{rack_of};
ghost use Rattle.book.specs.Calls.{about_opening};
ghost use Rattle.callers.specs.Knowing.{Knows};

use crate::{Interval, Kept, NO_RUN};
use calendar::Calendar;
use kinds::runs::Run;
use order::Order;
use plan::plans::Plan;
use refusal::Refusal;
use season::{Answer, Call, Entry, perform};

/// Withdraws one model, has group 1 go two intervals from tick 0, and then withdraws another.
/// Refused as the opening is.
#[tactic(auto, using(season::proofs::Performing::answered_at, season::proofs::Performing::long_at))]
pub fn two_intervals<C: Calendar, O: Order<Item = Run>>(
    plan: &Plan,
    calendar: &C,
    order: &O,
    before: u32,
    after: u32,
) -> Result<Kept, Refusal>
    ensures { Answers (about_opening (rack_of plan.now) (C.spacings calendar.now)) result (Knows plan.now (C.dates calendar.now) (O.precedes order.now) before after) }
{
    let mut sheet = [0; 512];
    let mut scratch = [NO_RUN; 64];
    let mut later_sheet = [0; 512];
    let mut later_scratch = [NO_RUN; 64];
    let advance = Call::Advance { group: 1 };
    let mut entries = [
        Entry::new(Call::Withdraw { model: before }, &mut [], &mut []),
        Entry::new(advance, &mut sheet, &mut scratch),
        Entry::new(advance, &mut later_sheet, &mut later_scratch),
        Entry::new(Call::Withdraw { model: after }, &mut [], &mut []),
    ];
    perform(plan, calendar, order, &mut entries)?;
    Ok(Kept {
        withdrawal: answer(&entries[0]),
        first: interval(&entries[1]),
        second: interval(&entries[2]),
        last_withdrawal: answer(&entries[3]),
    })
}

/// The answer of an entry whose call was made.
fn answer(entry: &Entry<'_>) -> Answer
    requires { IsSome entry.now.answer }
    ensures { entry.now.answer ≡ Some result }
{
    entry.answer.unwrap()
}

/// What is kept of an entry.
fn interval(entry: &Entry<'_>) -> Interval
    requires answered { IsSome entry.now.answer }
    requires long { length entry.now.sheet.now ≡ 512 }
    ensures answer { entry.now.answer ≡ Some result.answer }
    ensures words { entry.now.sheet.now ≡ result.words }
{
    let mut words = [0; 512];
    words.copy_from_slice(entry.sheet);
    Interval {
        answer: answer(entry),
        words,
    }
}
