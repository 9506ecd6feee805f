ghost use Rattle.std.specs.Prelude.{◌≡◌, ◌+◌, ◌<◌, None, OnOk};
ghost use Rattle.refusal.specs.Refusals.{Answers, first_below};
ghost use Rattle.set.specs.Sets.{models_of};
ghost use Rattle.set.specs.Heavy.{heavies};
ghost use Rattle.placement.specs.Rules.{cursor, placed, about_light};

use crate::counted::{Counted, known_weight};
use crate::cursors::Cursor;
use plan::pieces::Pieces;
use refusal::Refusal;

/// How far placement has come: how many heavy models there were, and the worker that light ones are being put on.
#[derive(Clone, Copy)]
pub(crate) struct Walk {
    heavies: u32,
    cursor: Cursor,
}

impl Walk {
    /// Before the first model.
    pub(crate) fn new(counted: &Counted<'_>) -> Walk
        ensures heavies { result.heavies ≡ 0 }
        ensures cursor { result.cursor ≡ cursor counted.now.grouping.set.now 0 }
    {
        Walk {
            heavies: 0,
            cursor: Cursor {
                worker: counted.grouping.alone + 1,
                load: 0,
            },
        }
    }

    /// Where the next model, in slot i, goes, and on from there, or a refusal where it is light and finds no room.
    pub(crate) fn seat(&mut self, counted: &Counted<'_>, i: usize) -> Result<Pieces, Refusal>
        requires model { i < models_of counted.now.grouping.set.now }
        requires heavies { self.old.heavies ≡ heavies counted.now.grouping.set.now i }
        requires cursor { self.old.cursor ≡ cursor counted.now.grouping.set.now i }
        requires before { first_below (about_light counted.now.grouping.set.now) i ≡ None }
        ensures answers { Answers (about_light counted.now.grouping.set.now i) result (λ x. x ≡ placed counted.now.grouping.set.now i) }
        ensures heavies { OnOk result (self.new.heavies ≡ heavies counted.now.grouping.set.now (i + 1)) }
        ensures cursor { OnOk result (self.new.cursor ≡ cursor counted.now.grouping.set.now (i + 1)) }
    {
        let weight = known_weight(counted.grouping.set, i as u32 + 1);
        if counted.grouping.set.sizes.is_heavy(weight) {
            self.heavies += 1;
            return Ok(Pieces::Whole {
                worker: self.heavies,
                size: weight,
            });
        }
        let seated = self.cursor.seat(counted, i as u64 + 1, weight)?;
        self.cursor = self.cursor.moved(seated);
        Ok(seated)
    }
}
