//! What a model is doing.
ghost use Rattle.std.specs.Prelude.{◌≡◌, ◌*◌, ◌^◌, ◌<◌, ◌≤◌};
ghost use Rattle.standing.specs.Standings.{reported};
ghost use Rattle.book.specs.Calls.{quiet};
ghost use Rattle.roster.specs.Records.{date_in, served_in};
ghost use Rattle.roster.specs.Reports.{report_of};
ghost use Rattle.roster.specs.Advancing.{is_over};
ghost use Rattle.roster.specs.Coming.{deadline_in, moment_of};
ghost use Rattle.roster.specs.Filling.{is_live_in};

use crate::coming::earlier;
use standing::Standing;

/// What a model is doing. The phase that a standing reports is this one, without what a live run has come to.
#[derive(Clone, Copy)]
pub(crate) enum Phase {
    /// it has no run, and may have one later
    Waiting,
    /// it has a run since a date, which got so many parts
    Live { date: u32, served: u64 },
    /// it is out for good
    Withdrawn,
}

impl Phase {
    /// Whether a model in this phase has a run.
    pub(crate) fn is_live(self) -> bool
        ensures { result ≡ is_live_in self }
    {
        matches!(self, Phase::Live { .. })
    }

    /// Whether a run in this phase ends at a tick.
    pub(crate) fn is_over(self, period: u32, tick: u32) -> bool
        ensures { result ≡ is_over period tick self }
    {
        match self {
            Phase::Live { date, .. } => date as u64 + period as u64 == tick as u64,
            _ => false,
        }
    }

    /// The next moment of a model in this phase, whose earliest date to come is this.
    pub(crate) fn moment(self, period: u32, coming: Option<u32>) -> Option<u32>
        requires { deadline_in period self < 2 ^ 32 }
        ensures { result ≡ moment_of period self coming }
    {
        match self {
            Phase::Waiting => coming,
            Phase::Live { date, .. } => earlier(coming, Some(date + period)),
            Phase::Withdrawn => None,
        }
    }

    /// How a model stands that is in this phase at a tick, and has so many parts of each tick at an even pace.
    pub(crate) fn standing(self, weight: u32, present: u32) -> Standing
        requires begun { date_in self ≤ present }
        requires few { served_in self < 2 ^ 63 }
        requires pace { weight * present < 2 ^ 63 }
        ensures { reported result ≡ report_of self weight present }
    {
        match self {
            Phase::Waiting => idle(standing::Phase::Waiting),
            Phase::Withdrawn => idle(standing::Phase::Withdrawn),
            Phase::Live { date, served } => {
                let even = weight as u64 * (present - date) as u64;
                Standing {
                    phase: standing::Phase::Live,
                    date,
                    served,
                    lag: served as i64 - even as i64,
                }
            }
        }
    }
}

/// The standing of a model without a run.
fn idle(phase: standing::Phase) -> Standing
    ensures { reported result ≡ quiet phase }
{
    Standing {
        phase,
        date: 0,
        served: 0,
        lag: 0,
    }
}
