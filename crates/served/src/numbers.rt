//! Things as text: model, moment and parts remaining.
use anyhow::{Context, Error, Result};
use kinds::entries::Entry;
use kinds::runs::Run;
use std::fmt;
use std::str::FromStr;

/// The numbers of a thing.
#[derive(Clone, Copy, Default, PartialEq, Eq)]
pub struct Numbers {
    pub model: u32,
    pub moment: u32,
    pub remaining: u64,
}

impl FromStr for Numbers {
    type Err = Error;

    fn from_str(word: &str) -> Result<Numbers> {
        let (model, rest) = word.split_once(',').context("no moment")?;
        let (moment, remaining) = rest.split_once(',').context("no parts")?;
        Ok(Numbers {
            model: model.parse()?,
            moment: moment.parse()?,
            remaining: remaining.parse()?,
        })
    }
}

impl fmt::Display for Numbers {
    fn fmt<W: fmt::Write>(&self, f: &mut fmt::Formatter<W>) -> fmt::Result {
        write!(f, "{},{},{}", self.model, self.moment, self.remaining)
    }
}

impl From<Numbers> for Entry {
    fn from(numbers: Numbers) -> Entry {
        Entry {
            tick: numbers.moment,
            model: numbers.model,
        }
    }
}

impl From<Entry> for Numbers {
    fn from(entry: Entry) -> Numbers {
        Numbers {
            model: entry.model,
            moment: entry.tick,
            remaining: 0,
        }
    }
}

impl From<Numbers> for Run {
    fn from(numbers: Numbers) -> Run {
        Run {
            model: numbers.model,
            deadline: numbers.moment,
            remaining: numbers.remaining,
        }
    }
}

impl From<Run> for Numbers {
    fn from(run: Run) -> Numbers {
        Numbers {
            model: run.model,
            moment: run.deadline,
            remaining: run.remaining,
        }
    }
}
