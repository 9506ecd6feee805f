//! The caller that makes call after call on a roster of its own.
ghost use Rattle.refusal.specs.Refusals.{Answers};
ghost use Rattle.book.specs.Racks.{rack_of};
ghost use Rattle.book.specs.Calls.{about_opening, Advance, Withdraw};
ghost use Rattle.roster.specs.Keeping.{Keeps};
ghost use Rattle.season.specs.Asking.{IsAnswer};
ghost use Rattle.callers.specs.Knowing.{IsKept, Knows};

use crate::{Interval, Kept, NO_RUN};
use calendar::Calendar;
use kinds::runs::Run;
use order::Order;
use plan::plans::Plan;
use refusal::Refusal;
use roster::Roster;
use season::Answer;

/// Withdraws one model, has group 1 go two intervals from tick 0, and then withdraws another.
/// Refused as the opening is.
pub fn two_intervals<C: Calendar, O: Order<Item = Run>>(
    plan: &Plan,
    calendar: &C,
    order: &O,
    before: u32,
    after: u32,
) -> Result<Kept, Refusal>
    ensures { Answers (about_opening (rack_of plan.now) (C.spacings calendar.now)) result (Knows plan.now (C.dates calendar.now) (O.precedes order.now) before after) }
{
    let mut roster = Roster::open(plan, calendar, order)?;
    let withdrawal = withdraw(&mut roster, before);
    let first = advance(&mut roster);
    let second = advance(&mut roster);
    let last_withdrawal = withdraw(&mut roster, after);
    Ok(Kept {
        withdrawal,
        first,
        second,
        last_withdrawal,
    })
}

/// Withdraws a model, and keeps the answer.
fn withdraw<C: Calendar, O: Order<Item = Run>>(roster: &mut Roster<'_, C, O>, model: u32) -> Answer
    ensures { Keeps roster.old (Withdraw model) (IsAnswer result) roster.new }
{
    match roster.withdraw(model) {
        Ok(()) => Answer::Withdrew,
        Err(refusal) => Answer::Refused(refusal),
    }
}

/// Takes group 1 to its next moment, and keeps the interval.
fn advance<C: Calendar, O: Order<Item = Run>>(roster: &mut Roster<'_, C, O>) -> Interval
    ensures { Keeps roster.old (Advance 1 512 64) (IsKept result) roster.new }
{
    let mut words = [0; 512];
    let mut scratch = [NO_RUN; 64];
    let answer = match roster.advance(1, &mut words, &mut scratch) {
        Ok((start, end, first, written)) => Answer::Advanced {
            start,
            end,
            first,
            written,
        },
        Err(refusal) => Answer::Refused(refusal),
    };
    Interval { answer, words }
}
