//! The words of a line, read one after another.
use anyhow::{Context, Result, bail};
use std::alloc::Global;
use std::ops::Range;
use std::str::SplitAsciiWhitespace;

/// What is left of a line, and where its lists are kept.
#[derive(Drop)]
pub(crate) struct Words<'a> {
    pub(crate) heap: Global,
    left: SplitAsciiWhitespace<'a>,
}

impl<'a> Words<'a> {
    pub(crate) fn new(heap: Global, line: &'a str) -> Self {
        let left = line.split_ascii_whitespace();
        Words { heap, left }
    }

    pub(crate) fn word(&mut self) -> Result<&'a str> {
        self.left.next().context("a word is missing")
    }

    pub(crate) fn number(&mut self) -> Result<u32> {
        Ok(self.word()?.parse()?)
    }

    pub(crate) fn span(&mut self) -> Result<Range<u32>> {
        let from = self.number()?;
        Ok(from..self.number()?)
    }

    /// So many marks as the next number says.
    pub(crate) fn marks<T: Copy>(&mut self, mark: T) -> Result<Vec<T>> {
        Ok(vec![in self.heap; mark; self.number()? as usize]?)
    }

    /// The numbers between commas; `-` stands for none.
    pub(crate) fn numbers(&mut self) -> Result<Vec<u32>> {
        let mut numbers = Vec::new(self.heap);
        let word = self.word()?;
        if word != "-" {
            for number in word.split(',') {
                numbers.push(number.parse()?)?;
            }
        }
        Ok(numbers)
    }

    /// The pairs that are left; `-` in their place stands for none.
    pub(crate) fn pairs(&mut self) -> Result<Vec<(u32, u32)>> {
        let mut pairs = Vec::new(self.heap);
        for word in &mut self.left {
            if word == "-" && pairs.is_empty() {
                break;
            }
            let (first, second) = word.split_once(',').context("one number alone")?;
            pairs.push((first.parse()?, second.parse()?))?;
        }
        Ok(pairs)
    }

    /// Fails where a word is left.
    pub(crate) fn end(&mut self) -> Result<()> {
        match self.left.next() {
            Some(word) => bail!("a word too many: {word}"),
            None => Ok(()),
        }
    }
}
