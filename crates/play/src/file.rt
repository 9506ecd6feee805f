//! Set files that are written to lent memory.
use crate::figures::Figures;
use crate::words::Words;
use anyhow::Result;
use std::io::Write;

/// What lent bytes are before a call.
const MARK: u8 = 0xa5;

/// The figures of a set, and the memory for its file.
#[derive(Drop)]
pub(crate) struct File {
    figures: Figures,
    bytes: Vec<u8>,
}

impl File {
    pub(crate) fn read(words: &mut Words<'_>) -> Result<File> {
        let figures = Figures::read(words)?;
        let bytes = words.marks(MARK)?;
        Ok(File { figures, bytes })
    }

    /// Writes the file, and answers with its bytes.
    pub(crate) fn answer<W: Write>(mut self, out: &mut W) -> Result<()> {
        let size = match setfile::write(&self.figures.lent(), &mut self.bytes) {
            Ok(size) => {
                write!(out, "{size} ")?;
                for byte in self.bytes.iter().take(size) {
                    write!(out, "{byte:02x}")?;
                }
                writeln!(out)?;
                size
            }
            Err(refusal) => {
                writeln!(out, "{refusal}")?;
                0
            }
        };
        if self.bytes.iter().skip(size).any(|byte| *byte != MARK) {
            writeln!(out, "touched the buffer")?;
        }
        Ok(())
    }
}
