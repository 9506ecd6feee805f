ghost use Rattle.std.specs.Prelude.{◌≡◌, true, is_ok};
ghost use Rattle.set.specs.declared.sets.Set.{Set};
ghost use Rattle.setfile.specs.Format.{file_of};
ghost use Rattle.placement.specs.Placing.{PlacesFile, Modest};

use crate::places::place;
use plan::plans::Plan;
use refusal::Refusal;

/// The plan of a set file: the file is read, and its set is placed.
pub fn place_file(bytes: &[u8]) -> Result<Plan, Refusal>
    ensures places { PlacesFile bytes.now result }
    ensures modest { (s : Set) → bytes.now ≡ file_of s → Modest s → is_ok result ≡ true }
{
    let set = setfile::read(bytes)?;
    place(&set)
}
