//! The models of each worker.
ghost use Rattle.std.specs.Prelude.{◌≡◌, length};

use plan::plans::Plan;
use set::sizes::MODELS;

/// Chain 0, of no worker, and one for each worker.
const CHAINS: usize = 33;

/// The models of each worker in a chain, by slots: the first one on each worker, and behind each model the next one on the same worker; where there is none, the number of models.
/// A model in two pieces is in the chain of the worker of its first piece.
#[derive(Drop)]
pub(crate) struct Chains {
    pub(crate) heads: [usize; CHAINS],
    pub(crate) nexts: [usize; MODELS],
    ghost full_heads: { length heads ≡ 33 },
    ghost full_nexts: { length nexts ≡ 64 },
}

impl Chains {
    ghost use Rattle.roster.specs.Seating.{ChainedFrom};

    /// The chains of a plan, from its last model to its first.
    pub(crate) fn of(plan: &Plan) -> Chains
        ensures { ChainedFrom plan.now 0 result.heads result.nexts }
    {
        let models = plan.set.sizes.models as usize;
        let mut heads = [models; CHAINS];
        let mut nexts = [models; MODELS];
        let mut left = models;
        while left > 0 {
            let slot = left - 1;
            let worker = plan.pieces[slot].worker() as usize;
            nexts[slot] = heads[worker];
            heads[worker] = slot;
            left = slot;
        }
        Chains { heads, nexts }
    }
}
