ghost use Rattle.std.specs.Prelude.{◌≡◌};
ghost use Rattle.plan.specs.Shares.{worker_of};

/// Where a model runs, and how many parts of each tick it has there. Workers are counted from 1.
#[derive(Clone, Copy, Debug, PartialEq, Eq, Hash)]
pub enum Pieces {
    /// all of it on one worker
    Whole {
        worker: u32,
        size: u32,
    },
    /// the first piece on a worker, the second on the next
    Divided {
        worker: u32,
        first: u32,
        second: u32,
    },
}

impl Pieces {
    /// The worker of the whole model, or of its first piece.
    pub fn worker(self) -> u32
        ensures { result ≡ worker_of self }
    {
        match self {
            Pieces::Whole { worker, .. } | Pieces::Divided { worker, .. } => worker,
        }
    }
}
