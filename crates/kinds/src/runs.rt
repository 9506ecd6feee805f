//! Runs that are not complete yet, and two orders of them.
ghost use Rattle.order.specs.Keys.{by_keys};
ghost use Rattle.order.proofs.Keyed.{by_keys-OrderLaws};
ghost use Rattle.kinds.specs.Keys.{keys_by_model, keys_by_remaining};

use order::{Order, Thing};

/// A run of a model: the tick that is its deadline, and the parts that it still needs.
#[derive(Clone, Copy, Debug, PartialEq, Eq, Hash)]
pub struct Run {
    pub model: u32,
    pub deadline: u32,
    pub remaining: u64,
}

impl Thing for Run {
    ghost model = { λ r. r.model };

    ghost moment = { λ r. r.deadline };
}

/// The earlier deadline first; ties by model number.
#[derive(Clone, Copy, Debug, Default, PartialEq, Eq, Hash)]
pub struct ByModel;

impl Order for ByModel {
    type Item = Run;

    ghost precedes = { λ _. by_keys keys_by_model };

    ghost laws = { λ _. by_keys-OrderLaws keys_by_model 1 };

    fn before(&self, a: &Run, b: &Run) -> bool {
        (a.deadline, a.model) < (b.deadline, b.model)
    }
}

/// The earlier deadline first; ties by fewer parts remaining, then by model number.
#[derive(Clone, Copy, Debug, Default, PartialEq, Eq, Hash)]
pub struct ByRemaining;

impl Order for ByRemaining {
    type Item = Run;

    ghost precedes = { λ _. by_keys keys_by_remaining };

    ghost laws = { λ _. by_keys-OrderLaws keys_by_remaining 2 };

    fn before(&self, a: &Run, b: &Run) -> bool {
        (a.deadline, a.remaining, a.model) < (b.deadline, b.remaining, b.model)
    }
}
