ghost use Rattle.std.specs.Prelude.{◌≡◌, ◌*◌, ◌/◌, ◌≤◌};

/// What a model costs in each period, both in ticks.
#[derive(Clone, Copy, Debug, PartialEq, Eq, Hash)]
pub struct Model {
    pub cost: u32,
    pub period: u32,
}

impl Model {
    /// The parts of each tick that the model needs on the average.
    pub(crate) fn weight(self, grain: u32) -> u32
        requires timed { 1 ≤ self.period }
        requires costed { self.cost ≤ self.period }
        ensures { result ≡ self.cost * (grain / self.period) }
    {
        self.cost * (grain / self.period)
    }

    /// The parts that each of its runs needs.
    pub(crate) fn run_parts(self, grain: u32) -> u64
        ensures { result ≡ self.cost * grain }
    {
        self.cost as u64 * grain as u64
    }
}
