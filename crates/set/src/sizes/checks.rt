ghost use Rattle.std.specs.Prelude.{◌≡◌, None};
ghost use Rattle.refusal.specs.Refusals.{Answers, check, told};
ghost use Rattle.set.specs.Limits.{about_sizes, bad_size, within};
ghost use Rattle.set.specs.Heavy.{is_heavy_weight};

use super::{GRAIN, MODELS, SizeKind, Sizes, WORKERS};
use refusal::{Fault, Layer, Refusal};

impl Sizes {
    /// The four sizes, each within its range, or a refusal for the first that is not.
    pub fn new(models: u64, workers: u32, group_size: u32, grain: u32) -> Result<Sizes, Refusal>
        ensures { Answers (about_sizes models workers group_size grain) result (λ s. (s.models ≡ models) × (s.workers ≡ workers) × (s.group_size ≡ group_size) × (s.grain ≡ grain)) }
    {
        check_size(SizeKind::Models, models, MODELS as u64)?;
        check_size(SizeKind::Workers, workers as u64, WORKERS as u64)?;
        check_size(SizeKind::GroupSize, group_size as u64, workers as u64)?;
        check_size(SizeKind::Grain, grain as u64, GRAIN as u64)?;
        Ok(Sizes {
            models: models as u32,
            workers,
            group_size,
            grain,
        })
    }

    /// Whether a model of this weight is heavy: a group of k workers has fewer than all, and it takes more than k / (k + 1) of a worker.
    pub fn is_heavy(self, weight: u32) -> bool
        ensures { result ≡ is_heavy_weight self weight }
    {
        let k = self.group_size as u64;
        self.group_size < self.workers && weight as u64 * (k + 1) > k * self.grain as u64
    }
}

/// Refuses a size that is not from 1 to the most.
fn check_size(kind: SizeKind, size: u64, most: u64) -> Result<(), Refusal>
    ensures { Answers (check (within 1 most size) (bad_size kind) None) result (λ _. Unit {0}) }
{
    if !(1..=most).contains(&size) {
        return Err(outside(kind));
    }
    Ok(())
}

/// This size is outside its range.
pub(crate) fn outside(kind: SizeKind) -> Refusal
    ensures { told result ≡ bad_size kind }
{
    Fault::Size.at(Layer::Set, kind.place())
}
