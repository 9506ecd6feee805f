ghost use Rattle.std.specs.Prelude.{◌≡◌, ◌-◌};
ghost use Rattle.set.specs.Sets.{OfModel, Weighs, parts_of};
ghost use Rattle.set.specs.Heavy.{heavy_count_of};

use super::Set;

impl Set {
    /// The slot of a model, if the set has one of this number.
    pub fn slot(&self, model: u32) -> Option<usize>
        ensures { OfModel self.now model result (λ i. i ≡ model - 1) }
    {
        if !(1..=self.sizes.models).contains(&model) {
            return None;
        }
        Some(model as usize - 1)
    }

    /// The parts of each tick that a model needs on the average.
    #[tactic(auto, using(crate::proofs::Weights::weighs))]
    pub fn weight(&self, model: u32) -> Option<u32>
        ensures { OfModel self.now model result (λ w. Weighs self.now (model - 1) w) }
    {
        let i = self.slot(model)?;
        Some(self.models[i].weight(self.sizes.grain))
    }

    /// The parts that each run of a model needs.
    pub fn run_parts(&self, model: u32) -> Option<u64>
        ensures { OfModel self.now model result (λ p. p ≡ parts_of self.now (model - 1)) }
    {
        let i = self.slot(model)?;
        Some(self.models[i].run_parts(self.sizes.grain))
    }

    /// How many models are heavy. It looks at each model once.
    pub fn heavy_count(&self) -> u32
        ensures { result ≡ heavy_count_of self.now }
    {
        (0..self.sizes.models as usize)
            .filter(|&i| {
                let weight = self.models[i].weight(self.sizes.grain);
                self.sizes.is_heavy(weight)
            })
            .count() as u32
    }
}
