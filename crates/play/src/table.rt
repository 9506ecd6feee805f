//! What a calendar is read off.
use crate::words::Words;
use anyhow::{Result, bail};
use calendars::list::check;
use dates::phase::Phase;
use kinds::entries::Entry;
use refusal::Refusal;
use set::sizes::MODELS;
use std::array;

/// The phases of all models, or a list of dates with all spacings.
#[derive(Drop)]
pub(crate) enum Table {
    Phases([Phase; MODELS]),
    List(Vec<Entry>, [u32; MODELS]),
}

impl Table {
    /// The phases of the first models; the others have none.
    pub(crate) fn phases(words: &mut Words<'_>) -> Result<Table> {
        let pairs = words.pairs()?;
        if pairs.len() > MODELS {
            bail!("more than {MODELS} phases");
        }
        Ok(Table::Phases(array::from_fn(|i| match pairs.get(i) {
            Some((first, period)) => Phase {
                first: *first,
                period: *period,
            },
            None => Phase::none(),
        })))
    }

    /// A list of dates behind the spacings of all models.
    pub(crate) fn list(words: &mut Words<'_>) -> Result<Table> {
        let spacings = words.numbers()?;
        if spacings.len() != MODELS {
            bail!("not {MODELS} spacings");
        }
        let mut entries = Vec::new(words.heap);
        for (tick, model) in words.pairs()? {
            entries.push(Entry { tick, model })?;
        }
        let spacings = array::from_fn(|i| spacings.get(i).copied().unwrap_or(0));
        Ok(Table::List(entries, spacings))
    }

    /// Refuses a list with an entry that is declined.
    pub(crate) fn check(&self) -> Result<(), Refusal> {
        match self {
            Table::Phases(_) => Ok(()),
            Table::List(entries, spacings) => check(entries, spacings),
        }
    }
}
