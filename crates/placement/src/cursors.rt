ghost use Rattle.std.specs.Prelude.{◌≡◌, ◌+◌, ◌<◌, ◌≤◌, not, ◌||◌, None, ◌==◌};
ghost use Rattle.refusal.specs.Refusals.{Answers, check};
ghost use Rattle.placement.specs.Rules.{fits, seated, moved, no_room};

use crate::counted::Counted;
use plan::pieces::Pieces;
use refusal::{Fault, Layer, Refusal};

/// The worker that light models are being put on, and its load so far.
#[derive(Clone, Copy)]
pub(crate) struct Cursor {
    pub worker: u32,
    pub load: u32,
}

impl Cursor {
    /// Where a light model goes, or a refusal where it does not fit on the last worker.
    pub(crate) fn seat(
        self,
        counted: &Counted<'_>,
        model: u64,
        weight: u32,
    ) -> Result<Pieces, Refusal>
        requires floor { counted.now.grouping.alone < self.worker }
        requires last { self.worker ≤ counted.now.grouping.set.now.sizes.workers }
        requires room { self.load ≤ counted.now.grouping.set.now.sizes.grain }
        requires light { weight ≤ counted.now.grouping.set.now.sizes.grain }
        ensures { let sizes = counted.now.grouping.set.now.sizes in Answers (check (fits sizes.grain self weight || not (self.worker == sizes.workers)) (no_room model) None) result (λ x. x ≡ seated counted.now.grouping.alone sizes.group_size sizes.grain self weight) }
    {
        let sizes = counted.grouping.set.sizes;
        let worker = self.worker;
        let wanted = self.load + weight;
        if wanted <= sizes.grain {
            return Ok(Pieces::Whole {
                worker,
                size: weight,
            });
        }
        if worker == sizes.workers {
            return Err(Fault::Full.at(Layer::Placement, model));
        }
        if (worker - counted.grouping.alone) % sizes.group_size == 0 || self.load == sizes.grain {
            return Ok(Pieces::Whole {
                worker: worker + 1,
                size: weight,
            });
        }
        Ok(Pieces::Divided {
            worker,
            first: sizes.grain - self.load,
            second: wanted - sizes.grain,
        })
    }

    /// The worker that these pieces end on, and its load then.
    pub(crate) fn moved(self, pieces: Pieces) -> Cursor
        requires worker { (moved self pieces).worker ≤ 32 }
        requires load { (moved self pieces).load ≤ 100800 }
        ensures { result ≡ moved self pieces }
    {
        match pieces {
            Pieces::Whole { worker, size } if worker == self.worker => Cursor {
                worker,
                load: self.load + size,
            },
            Pieces::Whole { worker, size } => Cursor { worker, load: size },
            Pieces::Divided { worker, second, .. } => Cursor {
                worker: worker + 1,
                load: second,
            },
        }
    }
}
