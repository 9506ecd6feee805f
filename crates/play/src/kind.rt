//! Orders of runs.
use anyhow::{Error, Result, bail};
use std::str::FromStr;

/// Which order a roster is lent.
#[derive(Clone, Copy)]
pub(crate) enum Kind {
    Model,
    Remaining,
}

impl FromStr for Kind {
    type Err = Error;

    fn from_str(word: &str) -> Result<Kind> {
        match word {
            "model" => Ok(Kind::Model),
            "remaining" => Ok(Kind::Remaining),
            _ => bail!("no such order: {word}"),
        }
    }
}
