//! A call, and how it is made.
ghost use Rattle.std.specs.Prelude.{◌≡◌, length};
ghost use Rattle.roster.specs.Keeping.{Keeps};
ghost use Rattle.season.specs.Asking.{asked, Gives};

use crate::answer::Answer;
use calendar::Calendar;
use kinds::runs::Run;
use order::Order;
use roster::Roster;

/// What is asked of a roster.
#[derive(Clone, Copy, Debug, PartialEq, Eq, Hash)]
pub enum Call {
    /// take a group to its next moment
    Advance { group: u32 },
    /// withdraw a model
    Withdraw { model: u32 },
    /// tell how a model stands
    Standing { model: u32 },
}

impl Call {
    /// Makes the call on a roster, with memory lent for it.
    pub(crate) fn ask<C: Calendar, O: Order<Item = Run>>(
        self,
        roster: &mut Roster<'_, C, O>,
        sheet: &mut [u64],
        scratch: &mut [Run],
    ) -> Answer
        ensures asks { Keeps roster.old (asked self sheet.old scratch.old) (Gives result sheet.old sheet.new scratch.old scratch.new) roster.new }
        ensures room { (length sheet.new ≡ length sheet.old) × (length scratch.new ≡ length scratch.old) }
    {
        match self {
            Call::Advance { group } => match roster.advance(group, sheet, scratch) {
                Ok((start, end, first, written)) => Answer::Advanced {
                    start,
                    end,
                    first,
                    written,
                },
                Err(refusal) => Answer::Refused(refusal),
            },
            Call::Withdraw { model } => match roster.withdraw(model) {
                Ok(()) => Answer::Withdrew,
                Err(refusal) => Answer::Refused(refusal),
            },
            Call::Standing { model } => match roster.standing(model) {
                Ok(standing) => Answer::Stands(standing),
                Err(refusal) => Answer::Refused(refusal),
            },
        }
    }
}
