ghost use Rattle.std.specs.Prelude.{◌≡◌, ◌≤◌, length, map, None, slice_index};
ghost use Rattle.std.specs.List.{range_with_len};
ghost use Rattle.refusal.specs.Refusals.{Answers};
ghost use Rattle.set.specs.Limits.{about_model, about_models};
ghost use Rattle.set.specs.Models.{slots_of};
ghost use Rattle.set.specs.Sets.{about, costs_of, periods_of, MadeOf};

use crate::models::Model;
use crate::sets::Set;
use crate::sizes::checks::outside;
use crate::sizes::{MODELS, SizeKind, Sizes};
use refusal::{Fault, Layer, Refusal};

/// What a planner brings, unchecked: the sizes, and for each model a cost and a period, both in ticks.
#[derive(Clone, Copy, Debug, PartialEq, Eq, Hash)]
pub struct Figures<'a> {
    pub workers: u32,
    pub group_size: u32,
    pub grain: u32,
    /// two slices, since a planner brings two lists, which are refused where they differ in length
    pub costs: &'a [u32],
    pub periods: &'a [u32],
}

impl Figures<'_> {
    /// The set of these figures, or a refusal for the first fault in them.
    pub fn check(&self) -> Result<Set, Refusal>
        ensures { Answers (about self.now) result (MadeOf self.now) }
    {
        if self.costs.len() != self.periods.len() {
            return Err(outside(SizeKind::Models));
        }
        let models = self.costs.len() as u64;
        let sizes = Sizes::new(models, self.workers, self.group_size, self.grain)?;
        self.check_models()?;
        Ok(self.filled(sizes))
    }

    /// Refuses the first model that is at fault.
    fn check_models(&self) -> Result<(), Refusal>
        requires { length self.now.costs.now ≡ length self.now.periods.now }
        ensures { Answers (about_models self.now.grain self.now.costs.now self.now.periods.now) result (λ _. Unit {0}) }
    {
        for (i, (cost, period)) in self.costs.iter().zip(self.periods).enumerate() {
            check_model(self.grain, i as u64 + 1, *cost, *period)?;
        }
        Ok(())
    }

    /// The set of figures that are without a fault.
    fn filled(&self, sizes: Sizes) -> Set
        requires level { length self.now.costs.now ≡ length self.now.periods.now }
        requires models { sizes.models ≡ length self.now.costs.now }
        requires grain { sizes.grain ≡ self.now.grain }
        requires fine { about_models self.now.grain self.now.costs.now self.now.periods.now ≡ None }
        ensures sizes { result.sizes ≡ sizes }
        ensures costs { costs_of result ≡ slots_of self.now.costs.now }
        ensures periods { periods_of result ≡ slots_of self.now.periods.now }
    {
        Set {
            sizes,
            models: slots(self.costs, self.periods),
        }
    }
}

impl TryFrom<&Figures<'_>> for Set {
    type Error = Refusal;

    ghost try_from_gives = { λ figures r. Answers (about figures.now) r (MadeOf figures.now) };

    fn try_from(figures: &Figures<'_>) -> Result<Set, Refusal> {
        figures.check()
    }
}

/// Refuses a model whose period or cost is at fault.
fn check_model(grain: u32, model: u64, cost: u32, period: u32) -> Result<(), Refusal>
    ensures { Answers (about_model grain model cost period) result (λ _. Unit {0}) }
{
    if period == 0 || grain % period != 0 {
        return Err(Fault::Period.at(Layer::Set, model));
    }
    if !(1..=period).contains(&cost) {
        return Err(Fault::Cost.at(Layer::Set, model));
    }
    Ok(())
}

/// Each model of these costs and periods in its slot, and 0 behind the last.
fn slots(costs: &[u32], periods: &[u32]) -> [Model; MODELS]
    requires level { length costs.now ≡ length periods.now }
    requires few { length costs.now ≤ 64 }
    ensures { result ≡ map (λ i. record { cost = slice_index costs.now i; period = slice_index periods.now i }) (range_with_len 0 64) }
{
    // only the slots of models are filled one by one, so figures of few models take little time
    let mut models = [Model { cost: 0, period: 0 }; MODELS];
    for (i, (cost, period)) in costs.iter().zip(periods).enumerate() {
        models[i] = Model {
            cost: *cost,
            period: *period,
        };
    }
    models
}
