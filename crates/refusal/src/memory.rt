//! Memory that is lent.
ghost use Rattle.std.specs.Prelude.{◌≡◌};
ghost use Rattle.refusal.specs.Refusals.{place_of_lent};

/// Memory that a caller lends, with the place that stands for it where it is too small.
#[derive(Clone, Copy, Debug, PartialEq, Eq, Hash)]
pub enum Lent {
    /// for the words of a sheet
    Sheet = 1,
    /// for a queue
    Scratch = 2,
    /// for a text
    Text = 3,
}

impl Lent {
    /// The place of a refusal of this memory.
    pub fn place(self) -> u64
        ensures { result ≡ place_of_lent self }
    {
        self as u64
    }
}
