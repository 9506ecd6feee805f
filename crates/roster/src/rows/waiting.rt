//! The undivided runs of a worker.
ghost use Rattle.std.specs.Prelude.{◌≡◌, ◌≤◌, length};
ghost use Rattle.std.specs.List.Sorted.{IsPermutation};
ghost use Rattle.queue.specs.Queues.{slots_of, count_of, things_of, Stays};
ghost use Rattle.book.specs.Racks.{rack_of};
ghost use Rattle.roster.specs.Filling.{waiting_on, IsWaiting};

use crate::Roster;
use crate::phase::Phase;
use calendar::Calendar;
use kinds::runs::Run;
use order::Order;
use plan::pieces::Pieces;
use queue::Queue;

impl<'a, C: Calendar, O: Order<Item = Run>> Roster<'a, C, O> {
    /// Puts the runs that wait for a worker into an empty queue.
    pub(crate) fn fill(&self, queue: &mut Queue<'_, Run>, worker: u32)
        requires worker { worker ≤ (rack_of self.now.plan.now).workers }
        requires empty { count_of queue.old ≡ 0 }
        requires room { 64 ≤ length (slots_of queue.old) }
        ensures holds { IsPermutation (waiting_on self.now.plan.now self.now.models.records worker) (things_of queue.new) }
        ensures few { count_of queue.new ≤ 64 }
        ensures stays { Stays (O.precedes self.now.order.now) 64 queue.old queue.new }
    {
        let mut slot = self.chains.heads[worker as usize];
        while slot < self.plan.set.sizes.models as usize {
            if let Some(run) = self.waiting(worker, slot as u32 + 1) {
                // there is room for it
                let _ = queue.put(self.order, run);
            }
            slot = self.chains.nexts[slot];
        }
    }

    /// The run of a model, if it has one and is whole on a worker.
    fn waiting(&self, worker: u32, model: u32) -> Option<Run>
        ensures { IsWaiting self.now.plan.now self.now.models.records worker model result }
    {
        let slot = self.plan.set.slot(model)?;
        let parts = self.plan.set.run_parts(model)?;
        let Phase::Live { date, served } = self.models.phase(slot) else {
            return None;
        };
        match self.plan.pieces[slot] {
            Pieces::Whole { worker: on, .. } if on == worker => Some(Run {
                model,
                deadline: date + self.plan.set.models[slot].period,
                remaining: parts.saturating_sub(served),
            }),
            _ => None,
        }
    }
}
