ghost use Rattle.std.specs.Prelude.{◌≡◌, ◌-◌, true, None};
ghost use Rattle.refusal.specs.Refusals.{Answers, check};
ghost use Rattle.set.specs.Sets.{HasModel, Weighs};
ghost use Rattle.set.specs.Heavy.{heavy_count_of};
ghost use Rattle.placement.specs.Rules.{room_for_light, too_heavy};

use plan::groups::Grouping;
use refusal::{Fault, Layer, Refusal};
use set::sets::Set;

/// A set whose heavy models are counted, by how its workers stand in groups, and leave workers enough.
#[derive(Clone, Copy)]
pub(crate) struct Counted<'a> {
    pub(crate) grouping: Grouping<'a>,
    ghost roomy: { room_for_light grouping.set.now ≡ true },
}

impl<'a> Counted<'a> {
    /// Counts, and refuses heavy models that are more than the workers, or that leave no worker for a light one.
    pub(crate) fn new(set: &'a Set) -> Result<Counted<'a>, Refusal>
        ensures { Answers (check (room_for_light set.now) (too_heavy (heavy_count_of set.now)) None) result (λ counted. counted.grouping.set.now ≡ set.now) }
    {
        let grouping = Grouping::new(set);
        let alone = grouping.alone;
        let workers = set.sizes.workers;
        if alone < workers || (alone == workers && alone == set.sizes.models) {
            return Ok(Counted { grouping });
        }
        Err(Fault::Heavy.at(Layer::Placement, alone as u64))
    }
}

/// The weight of a model of the set.
pub(crate) fn known_weight(set: &Set, model: u32) -> u32
    requires { HasModel set.now model }
    ensures { Weighs set.now (model - 1) result }
{
    set.weight(model).unwrap()
}
