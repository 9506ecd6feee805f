//! What a calendar is: the dates on which runs of each model begin, and how far they keep apart.
#![tactic(auto)]

ghost use Rattle.std.specs.Prelude.{◌≡◌, ℕ, Bool, IfNone, IfSome};
ghost use Rattle.dates.specs.Dates.{CalendarLaws, Earliest, NoneFrom};

/// Dates of the models 1 to 64, each of them a tick. Any other number has no dates.
pub trait Calendar {
    /// What the calendar means: whether a tick is a date of a model.
    ghost dates: { Self → ℕ → ℕ → Bool };

    /// How far the dates of a model keep apart at least, in ticks.
    ghost spacings: { Self → ℕ → ℕ };

    /// The spacing of a model.
    fn spacing(&self, model: u32) -> u32
        ensures { result ≡ spacings self.now model };

    /// The earliest date of a model at or after a tick, if there is one.
    fn earliest(&self, model: u32, from: u32) -> Option<u32>
        ensures date { IfSome result (Earliest (dates self.now model) from) }
        ensures none { IfNone result (NoneFrom (dates self.now model) from) };

    /// The laws, which each `impl` proves.
    ghost laws: { (c : Self) → CalendarLaws (dates c) (spacings c) };
}

/// A calendar that is lent is one too.
impl<C: Calendar> Calendar for &C {
    ghost dates = { λ c. C.dates c.now };

    ghost spacings = { λ c. C.spacings c.now };

    ghost laws = { λ c. C.laws c.now };

    fn spacing(&self, model: u32) -> u32 {
        (**self).spacing(model)
    }

    fn earliest(&self, model: u32, from: u32) -> Option<u32> {
        (**self).earliest(model, from)
    }
}
