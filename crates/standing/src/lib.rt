//! How a model stands: what it is doing, and what its run has got.
#![tactic(auto)]

ghost use Rattle.std.specs.Prelude.{◌≡◌};
ghost use Rattle.standing.specs.Standings.{phase_number};

/// What a model is doing.
#[derive(Clone, Copy, Debug, PartialEq, Eq, Hash)]
pub enum Phase {
    /// it has no run, and may have one later
    Waiting = 1,
    /// it has a run, from its date until its deadline
    Live = 2,
    /// it is out for good
    Withdrawn = 3,
}

impl Phase {
    /// The number by which callers know the phase.
    pub fn number(self) -> u8
        ensures { result ≡ phase_number self }
    {
        self as u8
    }
}

/// How a model stands. Unless it is live, the three numbers are 0.
#[derive(Clone, Copy, Debug, PartialEq, Eq, Hash)]
pub struct Standing {
    pub phase: Phase,
    /// the date of its run
    pub date: u32,
    /// the parts that its run has got
    pub served: u64,
    /// by how many parts its run is ahead of an even pace; below 0 it is behind
    pub lag: i64,
}
