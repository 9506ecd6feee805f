//! What a phase can be asked.
ghost use Rattle.std.specs.Prelude.{◌≡◌, IfNone, IfSome};
ghost use Rattle.dates.specs.Dates.{Earliest, NoneFrom};
ghost use Rattle.dates.specs.Phases.{is_beat, no_phase, pace};

use super::Phase;
use crate::END;

impl Phase {
    /// No dates.
    pub fn none() -> Phase
        ensures { result ≡ no_phase }
    {
        Phase {
            first: 0,
            period: 0,
        }
    }

    /// The earliest date at or after a tick, if there is one.
    #[tactic(auto, using(crate::proofs::Phases::beat_is_earliest))]
    pub fn earliest(self, from: u32) -> Option<u32>
        ensures date { IfSome result (Earliest (is_beat self) from) }
        ensures none { IfNone result (NoneFrom (is_beat self) from) }
    {
        let wait = from.saturating_sub(self.first);
        let date = self
            .first
            .checked_add(wait.checked_next_multiple_of(self.period)?)?;
        (date < END).then_some(date)
    }

    /// How far the dates keep apart: the period, or 2^30 where it is 0.
    pub fn pace(self) -> u32
        ensures { result ≡ pace self }
    {
        if self.period == 0 { END } else { self.period }
    }
}
