//! What can be done with a queue.
ghost use Rattle.std.specs.Prelude.{◌≡◌, Bool, length, IfNone, IfSome, OnErr, OnOk};
ghost use Rattle.queue.specs.Heaps.{Unpreceded};
ghost use Rattle.queue.specs.Queues.{slots_of, count_of, loan_of, things_of, Ordered, OneMore, Stays};

use super::{Full, Queue};
use order::Order;

impl<'a, T> Queue<'a, T> {
    /// A queue that holds nothing, over lent slots.
    pub fn new(slots: &'a mut [T]) -> Queue<'a, T>
        ensures over { slots_of result ≡ slots.old }
        ensures empty { count_of result ≡ 0 }
        ensures ordered { (precedes : T → T → Bool) → Ordered precedes result }
        ensures lent { loan_of result ≡ slots.entry.ghost_name }
    {
        Queue { slots, count: 0 }
    }
}

impl<T: Copy> Queue<'_, T> {
    /// Adds a thing, unless all slots are in use.
    #[tactic(auto, using(crate::proofs::Holes::put_holds))]
    pub fn put<O: Order<Item = T>>(&mut self, order: &O, thing: T) -> Result<(), Full>
        ensures puts { OnOk result (OneMore thing self.old self.new) }
        ensures full { OnErr result (count_of self.old ≡ length (slots_of self.old)) }
        ensures unchanged { OnErr result (self.new ≡ self.old) }
        ensures stays { Stays (O.precedes order.now) (count_of self.new) self.old self.new }
    {
        let count = self.count;
        if count == self.slots.len() {
            return Err(Full);
        }
        self.rise(order, thing);
        self.count = count + 1;
        Ok(())
    }

    /// Takes out a thing, unless none is held: under one order throughout, one that no other precedes.
    #[tactic(auto, using(crate::proofs::Holes::took))]
    pub fn take<O: Order<Item = T>>(&mut self, order: &O) -> Option<T>
        ensures takes { IfSome result (λ thing. OneMore thing self.new self.old) }
        ensures empty { IfNone result (count_of self.old ≡ 0) }
        ensures unchanged { IfNone result (self.new ≡ self.old) }
        ensures first { Ordered (O.precedes order.now) self.old → IfSome result (Unpreceded (O.precedes order.now) (things_of self.old)) }
        ensures stays { Stays (O.precedes order.now) (count_of self.new) self.old self.new }
    {
        if self.is_empty() {
            return None;
        }
        let left = self.count - 1;
        let first = self.slots[0];
        let last = self.slots[left];
        // the thing in the last slot in use sinks from the first slot
        self.sink(order, last, left);
        self.count = left;
        Some(first)
    }
}
