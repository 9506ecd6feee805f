//! The dates of another calendar, without those of a closed span.
ghost use Rattle.std.specs.Prelude.{◌≡◌, ◌^◌, min};
ghost use Rattle.dates.specs.Closures.{is_closed, opened};
ghost use Rattle.dates.proofs.Closures.{opened-CalendarLaws};

use calendar::Calendar;
use dates::END;
use std::ops::Range;

/// The dates of a calendar but those from one tick up to but without another. Spacings stay.
#[derive(Clone, Copy, Debug)]
pub struct Closure<C> {
    calendar: C,
    from: u32,
    to: u32,
}

impl<C> Closure<C> {
    /// An end of the span above 2^30 counts as 2^30. A span whose start is not below its end drops nothing.
    pub fn new(calendar: C, span: Range<u32>) -> Self
        ensures { result ≡ record { calendar = calendar; from = span.start; to = min span.end (2 ^ 30) } }
    {
        Closure {
            calendar,
            from: span.start,
            to: span.end.min(END),
        }
    }

    /// Whether a tick is in the closed span.
    fn closes(&self, tick: u32) -> bool
        ensures { result ≡ is_closed self.now.from self.now.to tick }
    {
        (self.from..self.to).contains(&tick)
    }
}

impl<C: Calendar> Calendar for Closure<C> {
    ghost dates = { λ c. opened c.from c.to (C.dates c.calendar) };

    ghost spacings = { λ c. C.spacings c.calendar };

    ghost laws = { λ c. opened-CalendarLaws c.from c.to (C.laws c.calendar) };

    fn spacing(&self, model: u32) -> u32 {
        self.calendar.spacing(model)
    }

    fn earliest(&self, model: u32, from: u32) -> Option<u32> {
        match self.calendar.earliest(model, from) {
            Some(date) if self.closes(date) => self.calendar.earliest(model, self.to),
            answer => answer,
        }
    }
}
