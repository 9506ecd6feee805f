//! How a roster is opened.
ghost use Rattle.std.specs.Prelude.{◌≡◌};
ghost use Rattle.refusal.specs.Refusals.{Answers};
ghost use Rattle.book.specs.Racks.{rack_of};
ghost use Rattle.book.specs.Books.{blank};
ghost use Rattle.book.specs.Calls.{about_opening};
ghost use Rattle.roster.specs.Telling.{Phases};
ghost use Rattle.roster.specs.Keeping.{Opened};

use crate::Roster;
use crate::chains::Chains;
use crate::event::Event;
use crate::models::Models;
use calendar::Calendar;
use kinds::runs::Run;
use order::Order;
use plan::plans::Plan;
use refusal::{Fault, Layer, Refusal};
use set::sizes::WORKERS;

impl<'a, C: Calendar, O: Order<Item = Run>> Roster<'a, C, O> {
    /// A roster on which nothing has been called: every group is at tick 0, unmirrored, and models with a date at tick 0 have a run.
    /// Refused with 8 (`opening`) at the first model whose spacing, by the calendar, is below its period; then there is no roster.
    /// It asks the calendar for each model's spacing and for its first date, once.
    pub fn open(plan: &'a Plan, calendar: &'a C, order: &'a O) -> Result<Roster<'a, C, O>, Refusal>
        ensures { Answers (about_opening (rack_of plan.now) (C.spacings calendar.now)) result (Opened plan.now calendar.now order.now) }
    {
        check(plan, calendar)?;
        Ok(Roster {
            plan,
            calendar,
            order,
            presents: [0; WORKERS],
            mirrored: [false; WORKERS],
            models: start(plan, calendar),
            chains: Chains::of(plan),
            grouping: plan.grouping(),
        })
    }
}

/// Refuses a calendar whose dates of a model may lie nearer than its period.
fn check<C: Calendar>(plan: &Plan, calendar: &C) -> Result<(), Refusal>
    ensures { Answers (about_opening (rack_of plan.now) (C.spacings calendar.now)) result (λ _. Unit {0}) }
{
    for model in 1..=plan.set.sizes.models {
        if calendar.spacing(model) < plan.set.models[model as usize - 1].period {
            return Err(Fault::Spacing.at(Layer::Opening, model as u64));
        }
    }
    Ok(())
}

/// What each model is doing at tick 0.
fn start<C: Calendar>(plan: &Plan, calendar: &C) -> Models
    ensures { Phases plan.now (C.dates calendar.now) blank result.records }
{
    let mut models = Models::new();
    for slot in 0..plan.set.sizes.models {
        if is_date(calendar, slot + 1, 0) {
            models.meet(slot as usize, Event::Date { tick: 0 });
        }
    }
    models
}

/// Whether a tick is a date of a model.
fn is_date<C: Calendar>(calendar: &C, model: u32, tick: u32) -> bool
    ensures { result ≡ C.dates calendar.now model tick }
{
    calendar.earliest(model, tick) == Some(tick)
}
