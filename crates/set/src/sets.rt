ghost use Rattle.std.specs.Prelude.{◌≡◌, length};
ghost use Rattle.set.specs.Models.{Timed, Costed, Clear};

use crate::models::Model;
use crate::sizes::{MODELS, Sizes};

/// A set that is within all limits. Slots behind the last model are 0, so sets with the same sizes and models are equal.
/// The table has room for the most models: nothing allocates, and a set is copied as a value.
#[derive(Clone, Copy, Debug, PartialEq, Eq, Hash)]
pub struct Set {
    pub sizes: Sizes,
    pub models: [Model; MODELS],
    ghost timed: { Timed sizes.models sizes.grain models },
    ghost costed: { Costed sizes.models models },
    ghost clear: { Clear sizes.models models },
    ghost full: { length models ≡ 64 },
}

mod weights;
