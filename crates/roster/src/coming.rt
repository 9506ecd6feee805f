//! When something is due for a group: a date of one of its models, or the end of a run.
ghost use Rattle.std.specs.Prelude.{◌≡◌, ◌≢◌};
ghost use Rattle.roster.specs.Advancing.{Soonest, Settled};
ghost use Rattle.roster.specs.Coming.{Comes, DeadlinesFit, dates_in, earlier, next_by};

use crate::group::Group;
use crate::models::Models;
use crate::phase::Phase;
use calendar::Calendar;
use set::sizes::MODELS;

/// Of each model of a group its earliest date to come.
#[derive(Drop)]
pub(crate) struct Coming {
    pub(crate) dates: [Option<u32>; MODELS],
}

impl Coming {
    /// Asks the calendar for the dates from a tick on, once for each model of a group that is not withdrawn.
    pub(crate) fn ask<C: Calendar>(
        calendar: &C,
        models: &Models,
        group: &Group<'_>,
        from: u32,
    ) -> Coming
        ensures { Comes group.now.plan.now (C.dates calendar.now) models.now.records group.now.number from result.dates }
    {
        let mut dates = [None; MODELS];
        for slot in 0..group.plan.set.sizes.models {
            if group.runs(slot + 1) {
                let phase = models.phase(slot as usize);
                dates[slot as usize] = earliest(calendar, phase, slot + 1, from);
            }
        }
        Coming { dates }
    }

    /// The next moment of the group: the earliest of these dates and of the deadlines of its runs.
    pub(crate) fn next(&self, models: &Models, group: &Group<'_>) -> Option<u32>
        requires fits { DeadlinesFit group.now.plan.now models.now.records group.now.number }
        ensures { result ≡ next_by group.now.plan.now models.now.records self.now.dates group.now.number }
    {
        let mut next = None;
        for slot in 0..group.plan.set.sizes.models {
            if group.runs(slot + 1) {
                let phase = models.phase(slot as usize);
                let period = group.plan.set.models[slot as usize].period;
                next = earlier(next, phase.moment(period, self.dates[slot as usize]));
            }
        }
        next
    }

    /// At a tick the runs of the group that end there end, and others begin.
    pub(crate) fn settle(&self, models: &mut Models, group: &Group<'_>, tick: u32)
        ensures { Settled group.now.plan.now (dates_in self.now.dates) group.now.number tick models.old.records models.new.records }
    {
        for slot in 0..group.plan.set.sizes.models {
            if group.runs(slot + 1) {
                let dated = self.dates[slot as usize] == Some(tick);
                let period = group.plan.set.models[slot as usize].period;
                models.settle(slot as usize, period, dated, tick);
            }
        }
    }
}

/// The earliest date of a model from a tick on, where that counts.
fn earliest<C: Calendar>(calendar: &C, phase: Phase, model: u32, from: u32) -> Option<u32>
    ensures { phase ≢ Phase.Withdrawn → Soonest (C.dates calendar.now model) from result }
{
    match phase {
        Phase::Withdrawn => None,
        _ => calendar.earliest(model, from),
    }
}

/// The earlier of two ticks, either of which may be missing.
pub(crate) fn earlier(a: Option<u32>, b: Option<u32>) -> Option<u32>
    ensures { result ≡ earlier a b }
{
    match (a, b) {
        (Some(x), Some(y)) => Some(x.min(y)),
        (None, other) | (other, None) => other,
    }
}
