ghost use Rattle.std.specs.Prelude.{◌≡◌, MatchOption};
ghost use Rattle.set.specs.Heavy.{heavy_count_of};
ghost use Rattle.plan.specs.Groups.{group_in, GroupIn, NoGroupIn, CountsIn};

use set::sets::Set;

/// The workers of a group, from the first to the last.
#[derive(Clone, Copy, Debug, PartialEq, Eq, Hash)]
pub struct Workers {
    pub first: u32,
    pub last: u32,
}

/// How the workers of a set stand in groups: each heavy model has a worker alone, and the others stand by the group size.
/// Groups are numbered from 1 in the workers' order. The heavy models are counted once, and then each call takes a few steps.
#[derive(Clone, Copy, Debug)]
pub struct Grouping<'a> {
    pub set: &'a Set,
    pub alone: u32,
    ghost counted: { alone ≡ heavy_count_of set.now },
}

impl<'a> Grouping<'a> {
    /// Counts the heavy models: it looks at each model once.
    pub fn new(set: &'a Set) -> Grouping<'a>
        ensures { result.set.now ≡ set.now }
    {
        Grouping {
            set,
            alone: set.heavy_count(),
        }
    }

    /// The group of a worker; behind the last worker it goes on as if there were more.
    pub fn group_of(&self, worker: u32) -> u32
        ensures { result ≡ group_in self.now.set.now worker }
    {
        if worker <= self.alone {
            worker
        } else {
            self.alone + 1 + (worker - self.alone - 1) / self.set.sizes.group_size
        }
    }

    /// How many groups there are: the last worker's group says.
    pub fn count(&self) -> u32
        ensures { CountsIn self.now.set.now result }
    {
        self.group_of(self.set.sizes.workers)
    }

    /// The workers of a group, if there is such a group.
    pub fn workers_in(&self, group: u32) -> Option<Workers>
        ensures { MatchOption result (NoGroupIn self.now.set.now group) (λ w. GroupIn self.now.set.now group w.first w.last) }
    {
        let sizes = self.set.sizes;
        if !(1..=self.group_of(sizes.workers)).contains(&group) {
            return None;
        }
        if group <= self.alone {
            return Some(Workers {
                first: group,
                last: group,
            });
        }
        let first = self.alone + 1 + (group - self.alone - 1) * sizes.group_size;
        let last = (first + sizes.group_size - 1).min(sizes.workers);
        Some(Workers { first, last })
    }
}
