//! A queue over lent slots, from which, under one order, what comes first is taken first.
#![tactic(auto)]

ghost use Rattle.std.specs.Prelude.{◌≤◌, length, Some, codes};

mod serve;
mod sift;

use std::error::Error;
use std::fmt;

/// A heap: the things stand in the first `count` slots, and under one order throughout none precedes its parent, which for slot k is slot (k - 1) / 2.
/// A lent slice and a count, since nothing allocates. The order in which they stand is lent to each call, so a queue owns none.
/// No view by `Model`: clauses speak of the slots, the count and the loan, and that is all there is.
#[derive(Drop)]
pub struct Queue<'a, T> {
    slots: &'a mut [T],
    count: usize,
    ghost within: { count ≤ length slots.now },
}

impl<T> Queue<'_, T> {
    ghost use Rattle.std.specs.Prelude.{◌≡◌, ◌↔◌, IsTrue};
    ghost use Rattle.queue.specs.Queues.{things_of};

    /// How many things it holds.
    pub fn len(&self) -> usize
        ensures { result ≡ length (things_of self.now) }
    {
        self.count
    }

    /// Whether it holds nothing.
    pub fn is_empty(&self) -> bool
        ensures { IsTrue result ↔ (length (things_of self.now) ≡ 0) }
    {
        self.len() == 0
    }
}

/// Why a thing was not put: every slot is in use.
#[derive(Clone, Copy, Debug, PartialEq, Eq, Hash)]
pub struct Full;

impl fmt::Display for Full {
    ghost output = { λ _. Some (codes "every slot is in use") };

    fn fmt<W: fmt::Write>(&self, f: &mut fmt::Formatter<W>) -> fmt::Result {
        f.write_str("every slot is in use")
    }
}

impl Error for Full {}
