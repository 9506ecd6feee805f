//! A set as it is written in a line.
use crate::words::Words;
use anyhow::Result;
use placement::place;
use plan::plans::Plan;
use refusal::Refusal;
use set::figures;

/// The figures of a set, with lists of their own.
#[derive(Drop)]
pub(crate) struct Figures {
    workers: u32,
    group_size: u32,
    grain: u32,
    costs: Vec<u32>,
    periods: Vec<u32>,
}

impl Figures {
    pub(crate) fn read(words: &mut Words<'_>) -> Result<Figures> {
        Ok(Figures {
            workers: words.number()?,
            group_size: words.number()?,
            grain: words.number()?,
            costs: words.numbers()?,
            periods: words.numbers()?,
        })
    }

    /// The same as the library takes them.
    pub(crate) fn lent(&self) -> figures::Figures<'_> {
        figures::Figures {
            workers: self.workers,
            group_size: self.group_size,
            grain: self.grain,
            costs: &self.costs,
            periods: &self.periods,
        }
    }

    /// The plan of the set, or the first refusal.
    pub(crate) fn plan(&self) -> Result<Plan, Refusal> {
        place(&self.lent().check()?)
    }
}
