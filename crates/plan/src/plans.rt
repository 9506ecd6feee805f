ghost use Rattle.plan.specs.Facts.{Loaded, Shared, Grouped, OneFirst, OneSecond, Positive};

use crate::pieces::Pieces;
use set::sets::Set;
use set::sizes::{MODELS, WORKERS};

/// Which worker runs which model: the set, the pieces of each model, and the load of each worker.
/// How its workers stand in groups follows from the set.
/// The tables have room for the most models and workers: nothing allocates, and a plan is copied as a value.
/// It is not compared: the slots behind the last model are no part of what it says.
#[derive(Clone, Copy, Debug)]
pub struct Plan {
    pub set: Set,
    pub pieces: [Pieces; MODELS],
    pub loads: [u32; WORKERS],
    ghost loaded: { Loaded set pieces loads },
    ghost shared: { Shared set pieces },
    ghost grouped: { Grouped set pieces },
    ghost one_first: { OneFirst set pieces },
    ghost one_second: { OneSecond set pieces },
    ghost positive: { Positive set pieces },
}

mod answers;
