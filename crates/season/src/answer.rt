use refusal::Refusal;
use standing::Standing;

/// What a roster answers.
#[derive(Clone, Copy, Debug, PartialEq, Eq, Hash)]
pub enum Answer {
    /// the ticks at which the interval starts and ends, the number of the group's first worker, and how many words were written
    Advanced {
        start: u32,
        end: u32,
        first: u32,
        written: usize,
    },
    /// the model is withdrawn
    Withdrew,
    /// how the model stands
    Stands(Standing),
    /// nothing was done
    Refused(Refusal),
}
