ghost use Rattle.std.specs.Prelude.{◌≤◌};

/// The most models that a set has.
pub const MODELS: usize = 64;

/// The most workers that a set has.
pub const WORKERS: usize = 32;

/// The most parts that a tick is cut into.
pub const GRAIN: u32 = 100_800;

/// The four sizes, each with the place at which a refusal names it.
#[derive(Clone, Copy, Debug, PartialEq, Eq, Hash)]
pub enum SizeKind {
    Models = 1,
    Workers = 2,
    GroupSize = 3,
    Grain = 4,
}

impl SizeKind {
    ghost use Rattle.std.specs.Prelude.{◌≡◌};
    ghost use Rattle.set.specs.Limits.{place_of};

    // A trait for the cast of an enum to its number would be longer than this and its likes.
    /// The place at which a refusal names the size.
    pub fn place(self) -> u64
        ensures { result ≡ place_of self }
    {
        self as u64
    }
}

/// How many models, workers, workers to a group and parts to a tick there are.
#[derive(Clone, Copy, Debug, PartialEq, Eq, Hash)]
pub struct Sizes {
    pub models: u32,
    pub workers: u32,
    pub group_size: u32,
    pub grain: u32,
    ghost some_models: { 1 ≤ models },
    ghost few_models: { models ≤ 64 },
    ghost some_workers: { 1 ≤ workers },
    ghost few_workers: { workers ≤ 32 },
    ghost some_group: { 1 ≤ group_size },
    ghost small_group: { group_size ≤ workers },
    ghost some_grain: { 1 ≤ grain },
    ghost small_grain: { grain ≤ 100800 },
}

pub(crate) mod checks;
