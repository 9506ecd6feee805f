//! The words of a sheet.
ghost use Rattle.std.specs.Prelude.{◌≡◌, ◌≤◌, ◌++◌, length, drop, map};
ghost use Rattle.roster.specs.Tables.{rows_of, words_in};

use super::Rows;
use crate::sheet::Span;

impl Rows {
    /// Writes them as the words of a sheet: how many rows, how many spans each has, all ends and all models.
    /// Answers how many words that are.
    pub(crate) fn write(&self, sheet: &mut [u64]) -> usize
        requires { 287 ≤ length sheet.old }
        ensures writes { sheet.new ≡ words_in (rows_of self.now) ++ drop (length (words_in (rows_of self.now))) sheet.old }
        ensures counts { result ≡ length (words_in (rows_of self.now)) }
    {
        let spans = &self.spans[..self.total];
        let ends = 1 + self.count;
        let models = ends + self.total;
        let all = models + self.total;
        sheet[0] = self.count as u64;
        put_sizes(&mut sheet[1..ends], &self.sizes[..self.count]);
        put_ends(&mut sheet[ends..models], spans);
        put_models(&mut sheet[models..all], spans);
        all
    }
}

/// The sizes as words.
fn put_sizes(words: &mut [u64], sizes: &[usize])
    requires { length words.old ≡ length sizes.now }
    ensures { words.new ≡ sizes.now }
{
    for (i, size) in sizes.iter().enumerate() {
        words[i] = *size as u64;
    }
}

/// The ends as words.
fn put_ends(words: &mut [u64], spans: &[Span])
    requires { length words.old ≡ length spans.now }
    ensures { words.new ≡ map (λ (span : Span). span.end) spans.now }
{
    for (i, span) in spans.iter().enumerate() {
        words[i] = span.end;
    }
}

/// The models as words.
fn put_models(words: &mut [u64], spans: &[Span])
    requires { length words.old ≡ length spans.now }
    ensures { words.new ≡ map (λ (span : Span). span.model) spans.now }
{
    for (i, span) in spans.iter().enumerate() {
        words[i] = span.model as u64;
    }
}
