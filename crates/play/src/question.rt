//! What is asked without a roster.
use crate::file::File;
use crate::listing::Listing;
use crate::words::Words;
use anyhow::{Result, bail};
use calendar::Calendar;
use std::io::Write;

/// A question to a calendar, or a file to be written.
#[derive(Drop)]
pub(crate) enum Question {
    Spacing { model: u32 },
    Earliest { model: u32, from: u32 },
    Agenda(Listing),
    File(File),
}

impl Question {
    pub(crate) fn read(kind: &str, words: &mut Words<'_>) -> Result<Question> {
        match kind {
            "spacing" => Ok(Question::Spacing {
                model: words.number()?,
            }),
            "earliest" => Ok(Question::Earliest {
                model: words.number()?,
                from: words.number()?,
            }),
            "agenda" => Ok(Question::Agenda(Listing::read(words)?)),
            "file" => Ok(Question::File(File::read(words)?)),
            _ => bail!("what is {kind}?"),
        }
    }

    pub(crate) fn answer<C: Calendar, W: Write>(self, calendar: &C, out: &mut W) -> Result<()> {
        match self {
            Question::Spacing { model } => writeln!(out, "{}", calendar.spacing(model))?,
            Question::Earliest { model, from } => match calendar.earliest(model, from) {
                Some(date) => writeln!(out, "{date}")?,
                None => writeln!(out, "none")?,
            },
            Question::Agenda(listing) => listing.answer(calendar, out)?,
            Question::File(file) => file.answer(out)?,
        }
        Ok(())
    }
}
