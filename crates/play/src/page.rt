//! How lines are read, and answers written.
use crate::line::Line;
use anyhow::{Context, Result};
use refusal::Refusal;
use std::alloc::Global;
use std::io::{self, Write};

/// Where answers go, and the number of the line that was read last.
#[derive(Drop)]
pub(crate) struct Page<W> {
    pub(crate) heap: Global,
    pub(crate) number: u64,
    pub(crate) out: W,
}

impl<W: Write> Page<W> {
    pub(crate) fn new(heap: Global, out: W) -> Self {
        Page {
            heap,
            number: 0,
            out,
        }
    }

    /// What the next line says.
    pub(crate) fn read(&mut self, text: io::Result<String>) -> Result<Line> {
        self.number = self.number.checked_add(1).context("too many lines")?;
        Line::read(self.heap, text?.as_str())
    }

    /// Answers a line that asks for nothing.
    pub(crate) fn agree(&mut self) -> Result<()> {
        writeln!(self.out, "ok")?;
        Ok(())
    }

    /// Answers a line that is refused.
    pub(crate) fn refuse(&mut self, refusal: Refusal) -> Result<()> {
        writeln!(self.out, "{refusal}")?;
        Ok(())
    }
}
