//! The two ends of a row.
ghost use Rattle.std.specs.Prelude.{◌≤◌};

/// What stands at the two ends of a row: a model that comes first, up to a part, and one that comes last, from a part on.
/// Between the two the undivided runs of the worker have their turns.
/// Where a piece has no run, or there is none, model 0 stands for idle.
#[derive(Clone, Copy)]
pub(crate) struct Ends {
    pub(crate) head: u32,
    /// the part at which the turns begin
    pub(crate) opens: u64,
    /// the part at which they end
    pub(crate) closes: u64,
    pub(crate) tail: u32,
    /// the parts of the whole row
    pub(crate) long: u64,
    ghost apart: { opens ≤ closes },
    ghost within: { closes ≤ long },
}
