//! The calls of a roster: their memory, and their answers.
use crate::words::Words;
use anyhow::{Result, bail};
use calendar::Calendar;
use kinds::runs::Run;
use order::Order;
use roster::Roster;
use season::{Answer, Call, Entry};
use std::io::Write;

/// What lent words are before a call.
const WORD: u64 = u64::MAX;

/// What lent runs are before a call.
const RUN: Run = Run {
    model: u32::MAX,
    deadline: u32::MAX,
    remaining: u64::MAX,
};

/// A call, and the memory that it is lent.
#[derive(Drop)]
pub(crate) struct Lent {
    call: Call,
    sheet: Vec<u64>,
    scratch: Vec<Run>,
}

impl Lent {
    pub(crate) fn read(kind: &str, words: &mut Words<'_>) -> Result<Lent> {
        let number = words.number()?;
        let call = match kind {
            "advance" => {
                return Ok(Lent {
                    call: Call::Advance { group: number },
                    sheet: words.marks(WORD)?,
                    scratch: words.marks(RUN)?,
                });
            }
            "withdraw" => Call::Withdraw { model: number },
            "standing" => Call::Standing { model: number },
            _ => bail!("what is {kind}?"),
        };
        // memory that the call has no use for
        Ok(Lent {
            call,
            sheet: vec![in words.heap; WORD; 1]?,
            scratch: vec![in words.heap; RUN; 1]?,
        })
    }

    /// The entry of the call, which is not made yet.
    pub(crate) fn entry(&mut self) -> Entry<'_> {
        Entry::new(self.call, &mut self.sheet, &mut self.scratch)
    }

    /// Makes the call on a roster.
    pub(crate) fn ask<C: Calendar, O: Order<Item = Run>>(
        &mut self,
        roster: &mut Roster<'_, C, O>,
    ) -> Option<Answer> {
        let mut entry = self.entry();
        entry.perform(roster);
        entry.answer
    }

    /// Writes the answer to the call, and what it touched that it has to leave.
    pub(crate) fn write<W: Write>(&self, answer: Answer, out: &mut W) -> Result<()> {
        match answer {
            Answer::Advanced {
                start,
                end,
                first,
                written,
            } => {
                write!(out, "{start} {end} {first} {written} |")?;
                for word in self.sheet.iter().take(written) {
                    write!(out, " {word}")?;
                }
                writeln!(out)?;
                return self.write_touched(written, &[], out);
            }
            Answer::Withdrew => writeln!(out, "ok")?,
            Answer::Stands(standing) => {
                let phase = standing.phase.number();
                let (date, served, lag) = (standing.date, standing.served, standing.lag);
                writeln!(out, "{phase} {date} {served} {lag}")?;
            }
            Answer::Refused(refusal) => writeln!(out, "{refusal}")?,
        }
        self.write_touched(0, &self.scratch, out)
    }

    /// Writes what was touched of the sheet behind its words, and of the scratch that has to stay.
    fn write_touched<W: Write>(&self, words: usize, scratch: &[Run], out: &mut W) -> Result<()> {
        if self.sheet.iter().skip(words).any(|word| *word != WORD) {
            writeln!(out, "touched the sheet")?;
        }
        if scratch.iter().any(|run| *run != RUN) {
            writeln!(out, "touched the scratch")?;
        }
        Ok(())
    }
}
