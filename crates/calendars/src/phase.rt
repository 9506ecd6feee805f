//! Dates at an even pace, for each model its own.
ghost use Rattle.std.specs.Prelude.{◌≡◌};
ghost use Rattle.dates.specs.Phases.{phase_at, phase_dates, phase_spacings};
ghost use Rattle.dates.proofs.Phases.{phase-CalendarLaws};
ghost use Rattle.calendars.specs.Periods.{own_dates, own_spacings};

use crate::table::at_model;
use calendar::Calendar;
use dates::phase::Phase;
use set::models::Model;
use set::sets::Set;
use set::sizes::MODELS;
use std::array;

/// The phases of the models 1 to 64.
#[derive(Clone, Copy, Debug)]
pub struct PhaseCalendar {
    pub phases: [Phase; MODELS],
}

impl PhaseCalendar {
    /// Each model of a set has the dates 0, T, 2T and so on, and T for spacing, where T is its period.
    /// Any other number has no dates, and the spacing 2^30.
    pub fn of_set(set: &Set) -> PhaseCalendar
        ensures dates { phase_dates result.phases ≡ own_dates set.now }
        ensures spacings { phase_spacings result.phases ≡ own_spacings set.now }
    {
        PhaseCalendar {
            phases: array::from_fn(|i| phase_from_zero(set.models[i])),
        }
    }

    /// The phase of a model. Any other number has none.
    fn phase(&self, model: u32) -> Phase
        ensures { result ≡ phase_at self.now.phases model }
    {
        at_model(&self.phases, model, Phase::none())
    }
}

/// Dates from tick 0 on, a period of the model apart.
fn phase_from_zero(model: Model) -> Phase
    ensures { (result.first ≡ 0) × (result.period ≡ model.period) }
{
    Phase {
        first: 0,
        period: model.period,
    }
}

impl Calendar for PhaseCalendar {
    ghost dates = { λ c. phase_dates c.phases };

    ghost spacings = { λ c. phase_spacings c.phases };

    ghost laws = { λ c. phase-CalendarLaws c.phases };

    fn spacing(&self, model: u32) -> u32 {
        self.phase(model).pace()
    }

    fn earliest(&self, model: u32, from: u32) -> Option<u32> {
        self.phase(model).earliest(from)
    }
}
