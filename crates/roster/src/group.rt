//! A group of a plan.
ghost use Rattle.plan.specs.Groups.{GroupIn};

use plan::groups::Workers;
use plan::plans::Plan;

/// A group of a plan: its number, and its workers from the first to the last.
#[derive(Clone, Copy)]
pub(crate) struct Group<'a> {
    pub(crate) plan: &'a Plan,
    pub(crate) number: u32,
    pub(crate) workers: Workers,
    ghost inside: { GroupIn plan.now.set number workers.first workers.last },
}

impl Group<'_> {
    ghost use Rattle.std.specs.Prelude.{◌≡◌, ◌==◌, ◌-◌, ◌≤◌, ◌<◌, ◌+◌};
    ghost use Rattle.set.specs.Sets.{HasModel};
    ghost use Rattle.book.specs.Racks.{rack_of};
    ghost use Rattle.book.specs.Books.{group_with};

    /// Whether a model runs in it: the worker of its first piece is one of the group's.
    pub(crate) fn runs(&self, model: u32) -> bool
        requires { HasModel self.now.plan.now.set model }
        ensures { result ≡ (group_with (rack_of self.now.plan.now) model == self.now.number) }
    {
        let worker = self.plan.pieces[model as usize - 1].worker();
        self.workers.first <= worker && worker <= self.workers.last
    }
}
