//! Agendas that are filled in lent memory.
use crate::words::Words;
use agenda::fill;
use anyhow::Result;
use calendar::Calendar;
use kinds::entries::Entry;
use refusal::Fault;
use std::io::Write;
use std::ops::Range;

/// What lent entries are before a call: no date is such an entry.
const MARK: Entry = Entry {
    tick: u32::MAX,
    model: 0,
};

/// A span, and the memory for an agenda of it.
#[derive(Drop)]
pub(crate) struct Listing {
    span: Range<u32>,
    table: Vec<Entry>,
    scratch: Vec<Entry>,
}

impl Listing {
    pub(crate) fn read(words: &mut Words<'_>) -> Result<Listing> {
        Ok(Listing {
            span: words.span()?,
            table: words.marks(MARK)?,
            scratch: words.marks(MARK)?,
        })
    }

    /// Fills the agenda, and answers with the whole table.
    pub(crate) fn answer<C: Calendar, W: Write>(mut self, calendar: &C, out: &mut W) -> Result<()> {
        let filled = fill(calendar, self.span, &mut self.table, &mut self.scratch);
        match &filled {
            Ok(count) => write!(out, "{count} |")?,
            Err(refusal) => write!(out, "{refusal} |")?,
        }
        for entry in &self.table {
            if *entry == MARK {
                write!(out, " _")?;
            } else {
                write!(out, " {}@{}", entry.model, entry.tick)?;
            }
        }
        if self.table.is_empty() {
            write!(out, " ")?;
        }
        writeln!(out)?;
        let left = matches!(filled, Err(refusal) if refusal.fault != Fault::Crowded);
        if left && self.scratch.iter().any(|entry| *entry != MARK) {
            writeln!(out, "touched the scratch")?;
        }
        Ok(())
    }
}
