//! The dates of another calendar, each of them later.
ghost use Rattle.std.specs.Prelude.{◌≡◌, ◌^◌, min};
ghost use Rattle.dates.specs.Delays.{delayed};
ghost use Rattle.dates.proofs.Delays.{delayed-CalendarLaws};

use calendar::Calendar;
use dates::END;

/// Each date of a calendar, later by some ticks. Dates past the end vanish; spacings stay.
#[derive(Clone, Copy, Debug)]
pub struct Delay<C> {
    calendar: C,
    ticks: u32,
}

impl<C> Delay<C> {
    /// More than 2^30 ticks count as 2^30.
    pub fn new(calendar: C, ticks: u32) -> Self
        ensures { result ≡ record { calendar = calendar; ticks = min ticks (2 ^ 30) } }
    {
        Delay {
            calendar,
            ticks: ticks.min(END),
        }
    }
}

impl<C: Calendar> Calendar for Delay<C> {
    ghost dates = { λ c. delayed c.ticks (C.dates c.calendar) };

    ghost spacings = { λ c. C.spacings c.calendar };

    ghost laws = { λ c. delayed-CalendarLaws c.ticks (C.laws c.calendar) };

    fn spacing(&self, model: u32) -> u32 {
        self.calendar.spacing(model)
    }

    fn earliest(&self, model: u32, from: u32) -> Option<u32> {
        let early = from.saturating_sub(self.ticks);
        let date = self.calendar.earliest(model, early)?;
        let late = date.checked_add(self.ticks)?;
        (late < END).then_some(late)
    }
}
