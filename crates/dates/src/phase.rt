//! Dates at an even pace.
ghost use Rattle.std.specs.Prelude.{◌<◌, ◌^◌};

/// A first date, and further ones whenever a period is over. With the period 0 there are none.
#[derive(Clone, Copy, Debug, PartialEq, Eq, Hash)]
pub struct Phase {
    pub first: u32,
    pub period: u32,
    ghost narrow: { period < 2 ^ 32 },
}

mod answers;
