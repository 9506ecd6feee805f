//! The turns of a worker's undivided runs.
ghost use Rattle.std.specs.Prelude.{◌≡◌, ◌+◌, ◌≤◌, ℕ, Bool, min};
ghost use Rattle.book.specs.Sheets.{Says};
ghost use Rattle.queue.specs.Queues.{count_of, things_of, Ordered, Stays};
ghost use Rattle.roster.specs.Spans.{spans_of, span_count};
ghost use Rattle.roster.specs.Turns.{AreTurns, all_left};

use super::Row;
use kinds::runs::Run;
use order::Order;
use queue::Queue;

impl Row {
    /// Gives each run that waits its turn from a part on, up to another, and answers where the turns end.
    pub(crate) fn take_turns<O: Order<Item = Run>>(
        &mut self,
        queue: &mut Queue<'_, Run>,
        order: &O,
        at: u64,
        closes: u64,
    ) -> u64
        requires forward { at ≤ closes }
        requires room { span_count self.old + count_of queue.old ≤ 66 }
        requires ordered { Ordered (O.precedes order.now) queue.old }
        ensures ends { result ≡ min closes (at + all_left (things_of queue.old)) }
        ensures says { (has : ℕ → ℕ → Bool) → AreTurns (O.precedes order.now) (things_of queue.old) at closes has → Says at has (spans_of self.old) → Says result has (spans_of self.new) }
        ensures room { span_count self.new ≤ span_count self.old + count_of queue.old }
        ensures stays { Stays (O.precedes order.now) (count_of queue.old) queue.old queue.new }
    {
        let mut reached = at;
        while reached < closes {
            let Some(run) = queue.take(order) else {
                break;
            };
            let end = reached + run.remaining.min(closes - reached);
            self.reach(reached, end, run.model);
            reached = end;
        }
        reached
    }
}
