//! The row of one worker.
ghost use Rattle.std.specs.Prelude.{◌≡◌, ◌≤◌, length};

use super::ends::Ends;
use super::span::Span;
use kinds::runs::Run;
use order::Order;
use queue::Queue;

mod turns;

/// The most spans of a row: a piece that comes first, 64 runs, what is idle, and a piece that comes last.
pub(crate) const ROW_SPANS: usize = 67;

/// The spans of one worker so far, in the first `count` places of a table. One row after another is made in it.
#[derive(Drop)]
pub(crate) struct Row {
    spans: [Span; ROW_SPANS],
    count: usize,
    ghost within: { count ≤ 67 },
    ghost full: { length spans ≡ 67 },
}

impl Row {
    ghost use Rattle.std.specs.Prelude.{◌+◌, ◌<◌, ℕ, Bool, [], ◌==◌, map};
    ghost use Rattle.book.specs.Sheets.{Says};
    ghost use Rattle.queue.specs.Queues.{count_of, things_of, Ordered, Stays};
    ghost use Rattle.roster.specs.Spans.{spans_of, told_by, span_count, given};
    ghost use Rattle.roster.specs.Dividing.{Divides};

    /// A row without spans.
    pub(crate) fn new() -> Row
        ensures none { spans_of result ≡ [] }
        ensures empty { span_count result ≡ 0 }
    {
        Row {
            spans: [Span { end: 0, model: 0 }; ROW_SPANS],
            count: 0,
        }
    }

    /// Its spans, the first one first.
    pub(crate) fn spans(&self) -> &[Span]
        ensures { map told_by result.now ≡ spans_of self.now }
    {
        &self.spans[..self.count]
    }

    /// Makes it the row of a worker on which these runs wait for their turns between its two ends.
    /// Runs for which no part is left stay in the queue.
    pub(crate) fn make<O: Order<Item = Run>>(
        &mut self,
        ends: Ends,
        queue: &mut Queue<'_, Run>,
        order: &O,
    )
        requires few { count_of queue.old ≤ 64 }
        requires ordered { Ordered (O.precedes order.now) queue.old }
        ensures says { (has : ℕ → ℕ → Bool) → Divides (O.precedes order.now) (things_of queue.old) ends has → Says ends.long has (spans_of self.new) }
        ensures stays { Stays (O.precedes order.now) (count_of queue.old) queue.old queue.new }
    {
        self.clear();
        self.reach(0, ends.opens, ends.head);
        let reached = self.take_turns(queue, order, ends.opens, ends.closes);
        self.reach(reached, ends.closes, 0);
        self.reach(ends.closes, ends.long, ends.tail);
    }

    /// The spans are gone.
    fn clear(&mut self)
        ensures none { spans_of self.new ≡ [] }
        ensures empty { span_count self.new ≡ 0 }
    {
        self.count = 0;
    }

    /// The worker is with a model from the part where the row ends up to a later one, or the same.
    fn reach(&mut self, at: u64, to: u64, model: u32)
        requires forward { at ≤ to }
        requires room { span_count self.old < 67 }
        ensures says { (has : ℕ → ℕ → Bool) → ((i x : ℕ) → 1 ≤ i → at ≤ x → x < to → (model == i) ≡ has i x) → Says at has (spans_of self.old) → Says to has (spans_of self.new) }
        ensures few { span_count self.new ≤ span_count self.old + 1 }
    {
        if at < to {
            self.give(to, model);
        }
    }

    /// The worker is with a model up to a part behind those that are given. Neighbouring spans of one model are joined.
    fn give(&mut self, end: u64, model: u32)
        requires { span_count self.old < 67 }
        ensures gives { spans_of self.new ≡ given (spans_of self.old) end model }
        ensures few { span_count self.new ≤ span_count self.old + 1 }
    {
        let count = self.count;
        if count > 0 && self.spans[count - 1].model == model {
            self.spans[count - 1] = Span { end, model };
        } else {
            self.spans[count] = Span { end, model };
            self.count = count + 1;
        }
    }
}
