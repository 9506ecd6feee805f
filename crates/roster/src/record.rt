//! The record of a model, and how it is altered.
ghost use Rattle.std.specs.Prelude.{◌≡◌};
ghost use Rattle.roster.specs.Records.{met, HasRoom};
ghost use Rattle.roster.specs.Advancing.{settled};

use crate::event::Event;
use crate::phase::Phase;

/// The record of one model.
#[derive(Clone, Copy)]
pub(crate) struct Record {
    pub(crate) phase: Phase,
}

impl Record {
    /// Alters the record where it stands, by the model's own phase and what happens to it.
    pub(crate) fn meet(&mut self, event: Event)
        requires { HasRoom self.old.phase event }
        ensures { self.new.phase ≡ met self.old.phase event }
    {
        self.phase = match (self.phase, event) {
            (Phase::Waiting, Event::Date { tick }) => Phase::Live {
                date: tick,
                served: 0,
            },
            (Phase::Live { .. }, Event::Deadline) => Phase::Waiting,
            (Phase::Live { date, served }, Event::Service { parts }) => Phase::Live {
                date,
                served: served + parts,
            },
            (Phase::Waiting | Phase::Live { .. }, Event::Withdrawal) => Phase::Withdrawn,
            (phase, _) => phase,
        };
    }

    /// At a tick a run that ends there ends, and then one may begin.
    pub(crate) fn settle(&mut self, period: u32, dated: bool, tick: u32)
        ensures { self.new.phase ≡ settled period dated tick self.old.phase }
    {
        if self.phase.is_over(period, tick) {
            self.meet(Event::Deadline);
        }
        if dated {
            self.meet(Event::Date { tick });
        }
    }
}
