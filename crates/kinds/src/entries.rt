//! Entries of an agenda, and their order.
ghost use Rattle.order.specs.Keys.{by_keys};
ghost use Rattle.order.proofs.Keyed.{by_keys-OrderLaws};
ghost use Rattle.kinds.specs.Keys.{keys_by_tick};

use order::{Order, Thing};

/// A date of a model.
#[derive(Clone, Copy, Debug, PartialEq, Eq, Hash)]
pub struct Entry {
    pub tick: u32,
    pub model: u32,
}

impl Thing for Entry {
    ghost model = { λ e. e.model };

    ghost moment = { λ e. e.tick };
}

/// The earlier tick first; ties by model number.
#[derive(Clone, Copy, Debug, Default, PartialEq, Eq, Hash)]
pub struct ByTick;

impl Order for ByTick {
    type Item = Entry;

    ghost precedes = { λ _. by_keys keys_by_tick };

    ghost laws = { λ _. by_keys-OrderLaws keys_by_tick 1 };

    fn before(&self, a: &Entry, b: &Entry) -> bool {
        (a.tick, a.model) < (b.tick, b.model)
    }
}
