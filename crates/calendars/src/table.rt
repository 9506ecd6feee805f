//! Tables of 64, with what each model has: that of model 1 comes first.
ghost use Rattle.std.specs.Prelude.{◌≡◌};
ghost use Rattle.dates.specs.Tables.{at_model};

use dates::is_model;

/// What the table has for a model, and `other` for a number that is no model's.
pub(crate) fn at_model<T: Copy>(table: &[T], model: u32, other: T) -> T
    ensures { result ≡ at_model other table.now model }
{
    if !is_model(model) {
        return other;
    }
    table.get(model as usize - 1).copied().unwrap_or(other)
}
