//! Every refusal of every layer: what was wrong, which layer found it, and where.
#![tactic(auto)]

ghost use Rattle.std.specs.Prelude.{◌≡◌, Some};
ghost use Rattle.refusal.specs.Refusals.{number_of, word_of, refusal_words};

mod memory;

pub use memory::Lent;
use std::error::Error;
use std::fmt;

/// What was wrong, with the number by which callers know it. docs/REFUSALS.md says when each one is answered.
#[derive(Clone, Copy, Debug, PartialEq, Eq, Hash)]
pub enum Fault {
    /// a file, or a buffer to write one to, has too few bytes
    Short = 1,
    /// a file has too many bytes
    Long = 2,
    /// a size of the set is outside its range
    Size = 3,
    /// a period is 0 or does not divide the grain
    Period = 4,
    /// a cost is 0 or above its period
    Cost = 5,
    /// the heavy models leave too few workers
    Heavy = 6,
    /// the last worker has no room for a light model
    Full = 7,
    /// a calendar lets dates of a model lie nearer than its period
    Spacing = 8,
    /// there is no such group
    Group = 9,
    /// lent memory is too small
    Memory = 10,
    /// there is no such model
    Model = 11,
    /// a group has no later moment
    Moment = 12,
    /// the model is withdrawn already
    Withdrawn = 13,
    /// an entry of a list does not fit behind those before it
    Misfit = 14,
    /// a span ends before it begins, or goes past the last tick
    Span = 15,
    /// a span has more dates than the table has entries
    Crowded = 16,
}

impl Fault {
    /// The number by which callers know the fault.
    pub fn number(self) -> u64
        ensures { result ≡ number_of self }
    {
        self as u64
    }

    /// The refusal for this fault, which a layer found at a place.
    pub fn at(self, layer: Layer, place: u64) -> Refusal
        ensures { result ≡ record { fault = self; layer = layer; place = place } }
    {
        Refusal {
            fault: self,
            layer,
            place,
        }
    }
}

/// Who found the fault.
#[derive(Clone, Copy, Debug, PartialEq, Eq, Hash)]
pub enum Layer {
    File,
    Set,
    Placement,
    Opening,
    Running,
    Calendar,
    Agenda,
}

impl Layer {
    /// The word that is printed for the layer.
    pub fn word(self) -> &'static str
        ensures { result.now ≡ word_of self }
    {
        match self {
            Layer::File => "file",
            Layer::Set => "set",
            Layer::Placement => "placement",
            Layer::Opening => "opening",
            Layer::Running => "running",
            Layer::Calendar => "calendar",
            Layer::Agenda => "agenda",
        }
    }
}

impl fmt::Display for Layer {
    ghost output = { λ layer. Some (word_of layer) };

    fn fmt<W: fmt::Write>(&self, f: &mut fmt::Formatter<W>) -> fmt::Result {
        f.write_str(self.word())
    }
}

/// A fault, the layer that found it, and a place: a number that says where, or how many there were.
#[derive(Clone, Copy, Debug, PartialEq, Eq, Hash)]
pub struct Refusal {
    pub fault: Fault,
    pub layer: Layer,
    pub place: u64,
}

impl fmt::Display for Refusal {
    ghost output = { λ refusal. Some (refusal_words refusal) };

    fn fmt<W: fmt::Write>(&self, f: &mut fmt::Formatter<W>) -> fmt::Result {
        write!(
            f,
            "refused {} {} {}",
            self.fault.number(),
            self.layer,
            self.place
        )
    }
}

impl Error for Refusal {}
