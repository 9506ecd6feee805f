//! How a thing finds its slot: others move along into the hole, until it may stand in the hole itself.
ghost use Rattle.std.specs.Prelude.{◌+◌, ◌*◌, ◌<◌, ◌≤◌, length, slice_set};
ghost use Rattle.queue.specs.Heaps.{Heaped};
ghost use Rattle.queue.specs.Queues.{slots_of, count_of};
ghost use Rattle.queue.specs.Sifting.{FirstChild, Sifted};

use super::Queue;
use order::Order;

impl<T: Copy> Queue<'_, T> {
    /// Writes a thing where it belongs on the way up from the first free slot; the count stays.
    pub(crate) fn rise<O: Order<Item = T>>(&mut self, order: &O, thing: T)
        requires { count_of self.old < length (slots_of self.old) }
        ensures sifts { Sifted (count_of self.old + 1) (slice_set (slots_of self.old) (count_of self.old) thing) self.old self.new }
        ensures ordered { Heaped (O.precedes order.now) (slots_of self.old) (count_of self.old) → Heaped (O.precedes order.now) (slots_of self.new) (count_of self.old + 1) }
    {
        let mut hole = self.count;
        // The tree lies in slots, so the way up goes by their numbers: no iterator over slots is plainer.
        while hole > 0 {
            let up = (hole - 1) / 2;
            let over = self.slots[up];
            if !order.before(&thing, &over) {
                break;
            }
            self.slots[hole] = over;
            hole = up;
        }
        self.slots[hole] = thing;
    }

    /// Writes a thing where it belongs on the way down from the first slot, among the first `left`; the count stays.
    pub(crate) fn sink<O: Order<Item = T>>(&mut self, order: &O, thing: T, left: usize)
        requires { left < length (slots_of self.old) }
        ensures sifts { Sifted left (slice_set (slots_of self.old) 0 thing) self.old self.new }
        ensures ordered { Heaped (O.precedes order.now) (slots_of self.old) left → Heaped (O.precedes order.now) (slots_of self.new) left }
    {
        let mut hole = 0;
        // The tree lies in slots, so the way down goes by their numbers: no iterator over slots is plainer.
        while hole < left / 2 {
            let child = self.first_child(order, hole, left);
            let under = self.slots[child];
            if !order.before(&under, &thing) {
                break;
            }
            self.slots[hole] = under;
            hole = child;
        }
        self.slots[hole] = thing;
    }

    /// The slot of that child of `parent`, among the first `left`, which no other precedes.
    fn first_child<O: Order<Item = T>>(&self, order: &O, parent: usize, left: usize) -> usize
        requires child { parent * 2 + 1 < left }
        requires room { left ≤ length (slots_of self.now) }
        ensures { FirstChild (O.precedes order.now) (slots_of self.now) parent left result }
    {
        let child = parent * 2 + 1;
        if child + 1 < left {
            let under = self.slots[child];
            let beside = self.slots[child + 1];
            if order.before(&beside, &under) {
                return child + 1;
            }
        }
        child
    }
}
