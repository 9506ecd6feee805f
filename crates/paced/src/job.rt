//! Plans, and calendars for them.
ghost use Rattle.std.specs.Prelude.{◌≤◌};

use anyhow::Result;
use calendars::phase::PhaseCalendar;
use dates::phase::Phase;
use placement::place;
use plan::plans::Plan;
use set::figures::Figures;
use set::sizes::{GRAIN, MODELS};
use std::array;

/// A day, in ticks.
const DAY: u32 = 24;

/// A plan, and a calendar for it.
#[derive(Clone, Copy, Debug)]
pub(crate) struct Job {
    pub(crate) plan: Plan,
    pub(crate) calendar: PhaseCalendar,
    /// how many groups the plan has, counted once
    pub(crate) groups: u32,
    ghost some: { 1 ≤ groups },
}

impl Job {
    /// One group of 32 workers, and 64 models of about half a worker each: 31 of them are divided.
    pub(crate) fn wide() -> Result<Job> {
        Job::of_shares(32, 32, [49; MODELS])
    }

    /// Eight models that have a worker each, and 56 in five groups of four workers.
    pub(crate) fn grouped() -> Result<Job> {
        let mut shares = [34; MODELS];
        shares[..8].fill(90);
        Job::of_shares(28, 4, shares)
    }

    /// Three models on two workers, each with a run at each tenth tick.
    pub(crate) fn small() -> Result<Job> {
        let figures = Figures {
            workers: 2,
            group_size: 2,
            grain: 10,
            costs: &[6; 3],
            periods: &[10; 3],
        };
        Job::of_figures(&figures, [0; MODELS])
    }

    /// 64 models whose costs are shares of their periods, in hundredths. Their first dates are spread over a day.
    fn of_shares(workers: u32, group_size: u32, shares: [u32; MODELS]) -> Result<Job> {
        let periods = periods();
        let mut costs = [0; MODELS];
        for (cost, (period, share)) in costs.iter_mut().zip(periods.iter().zip(shares)) {
            *cost = period.saturating_mul(share) / 100;
        }
        let firsts: [u32; MODELS] = array::from_fn(|model| model as u32 * 5 % DAY);
        let figures = Figures {
            workers,
            group_size,
            grain: GRAIN,
            costs: &costs,
            periods: &periods,
        };
        Job::of_figures(&figures, firsts)
    }

    /// A job of these figures, with dates of each model at its own period.
    fn of_figures(figures: &Figures<'_>, firsts: [u32; MODELS]) -> Result<Job> {
        let mut phases = [Phase::none(); MODELS];
        for (phase, (first, period)) in phases.iter_mut().zip(firsts.iter().zip(figures.periods)) {
            *phase = Phase {
                first: *first,
                period: *period,
            };
        }
        let plan = place(&figures.check()?)?;
        Ok(Job {
            plan,
            calendar: PhaseCalendar { phases },
            groups: plan.group_count(),
        })
    }
}

/// The first divisors of the grain from a day up. Each 25th is dealt, so that short periods and long ones meet on a worker; 25 and 64 share no divisor, so each comes once.
fn periods() -> [u32; MODELS] {
    let found = (DAY..=GRAIN).filter(|period: &u32| GRAIN.is_multiple_of(*period));
    let mut divisors = [0; MODELS];
    for (slot, divisor) in divisors.iter_mut().zip(found) {
        *slot = divisor;
    }
    array::from_fn(|model| divisors[model * 25 % MODELS])
}
