//! What a thing is that can wait, and what an order of things is: whether one precedes another.
#![tactic(auto)]

ghost use Rattle.std.specs.Prelude.{◌≡◌, ℕ, Bool};
ghost use Rattle.order.specs.Laws.{OrderLaws};

/// A kind of thing. Each thing belongs to a model and has a moment, the same for every order; moments may have any width.
pub trait Thing {
    /// The number of its model.
    ghost model: { Self → ℕ };

    /// Its moment: in every order, what has the earlier one precedes.
    ghost moment: { Self → ℕ };
}

/// An order, of one kind of thing: so the kind is an associated type.
pub trait Order {
    type Item: Thing;

    /// What the order means: whether the first of two things precedes the second.
    ghost precedes: { Self → Self.Item → Self.Item → Bool };

    /// Whether a precedes b.
    fn before(&self, a: &Self::Item, b: &Self::Item) -> bool
        ensures { result ≡ precedes self.now a.now b.now };

    /// The five laws, which each `impl` proves.
    ghost laws: { (o : Self) → OrderLaws Self.Item.model Self.Item.moment (precedes o) };
}
