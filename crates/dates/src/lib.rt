//! What sets of dates mean, and the laws that they keep: those that are read off tables, and those that are made of others.
#![tactic(auto)]

ghost use Rattle.std.specs.Prelude.{◌≡◌};
ghost use Rattle.dates.specs.Dates.{is_model};

use set::sizes::MODELS;

/// Dates are below this tick. It is also the spacing of a phase with the period 0, and of a number that is no model's.
pub const END: u32 = 1 << 30;

pub mod phase;

/// Whether a number is a model's.
pub fn is_model(model: u32) -> bool
    ensures { result ≡ is_model model }
{
    (1..=MODELS as u32).contains(&model)
}
