ghost use Rattle.std.specs.Prelude.{◌≡◌, ◌-◌, ◌<◌, MatchOption, slice_index};
ghost use Rattle.set.specs.Sets.{OfModel};
ghost use Rattle.plan.specs.Shares.{pieces_at, worker_of};
ghost use Rattle.plan.specs.Groups.{group_in, GroupIn, NoGroupIn, CountsIn};
ghost use Rattle.plan.specs.Answers.{Worker};

use super::Plan;
use crate::groups::{Grouping, Workers};
use crate::pieces::Pieces;
use set::sizes::{Sizes, WORKERS};

impl Plan {
    /// How many models, workers, workers to a group and parts to a tick there are.
    pub fn sizes(&self) -> Sizes
        ensures { result ≡ self.now.set.sizes }
    {
        self.set.sizes
    }

    /// Where a model runs.
    pub fn pieces_of(&self, model: u32) -> Option<Pieces>
        ensures { OfModel self.now.set model result (λ x. x ≡ pieces_at self.now.pieces (model - 1)) }
    {
        let i = self.set.slot(model)?;
        Some(self.pieces[i])
    }

    /// The parts of each tick that a worker's pieces take.
    pub fn load_of(&self, worker: u32) -> Option<u32>
        ensures { MatchOption result (Worker self.now worker → ⊥) (λ x. Worker self.now worker × (x ≡ slice_index self.now.loads (worker - 1))) }
    {
        if !(1..=self.set.sizes.workers).contains(&worker) {
            return None;
        }
        Some(self.loads[worker as usize - 1])
    }

    /// The loads of all workers together, as one value.
    pub fn all_loads(&self) -> [u32; WORKERS]
        ensures { result ≡ self.now.loads }
    {
        self.loads
    }

    /// How many groups there are.
    pub fn group_count(&self) -> u32
        ensures { CountsIn self.now.set result }
    {
        self.grouping().count()
    }

    /// The first and the last worker of a group.
    pub fn workers_in(&self, group: u32) -> Option<Workers>
        ensures { MatchOption result (NoGroupIn self.now.set group) (λ w. GroupIn self.now.set group w.first w.last) }
    {
        self.grouping().workers_in(group)
    }

    /// The group that a model runs in.
    pub fn group_of(&self, model: u32) -> Option<u32>
        ensures { OfModel self.now.set model result (λ g. g ≡ group_in self.now.set (worker_of (pieces_at self.now.pieces (model - 1)))) }
    {
        let worker = self.pieces_of(model)?.worker();
        Some(self.grouping().group_of(worker))
    }

    /// How the plan's workers stand in groups. The three calls above ask it anew; who asks often keeps it.
    pub fn grouping(&self) -> Grouping<'_>
        ensures { result.set.now ≡ self.now.set }
    {
        Grouping::new(&self.set)
    }
}
