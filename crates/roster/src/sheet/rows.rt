//! The rows of a group.
ghost use Rattle.std.specs.Prelude.{◌≡◌, ◌≤◌, length, sum, take};

use super::row::Row;
use super::span::Span;
use set::sizes::WORKERS;

mod words;

/// The most spans of a sheet, of whatever plan.
pub(crate) const SHEET_SPANS: usize = 127;

/// The rows of workers, one behind the other: how many spans each of the first `count` has, and the first `total` spans of a table.
#[derive(Drop)]
pub(crate) struct Rows {
    sizes: [usize; WORKERS],
    count: usize,
    spans: [Span; SHEET_SPANS],
    total: usize,
    ghost few: { count ≤ 32 },
    ghost small: { total ≤ 127 },
    ghost full_sizes: { length sizes ≡ 32 },
    ghost full_spans: { length spans ≡ 127 },
    ghost adds: { sum (take count sizes) ≡ total },
}

impl Rows {
    ghost use Rattle.std.specs.Prelude.{◌+◌, ◌<◌, [], ◌∷◌, ◌++◌};
    ghost use Rattle.roster.specs.Spans.{spans_of};
    ghost use Rattle.roster.specs.Tables.{rows_of, sizes_of, table_of};

    /// No rows.
    pub(crate) fn new() -> Rows
        ensures { rows_of result ≡ [] }
    {
        Rows {
            sizes: [0; WORKERS],
            count: 0,
            spans: [Span { end: 0, model: 0 }; SHEET_SPANS],
            total: 0,
        }
    }

    /// How many spans each row has.
    pub(crate) fn sizes(&self) -> &[usize]
        ensures { result.now ≡ sizes_of self.now }
    {
        &self.sizes[..self.count]
    }

    /// The spans of all rows, one row behind the other.
    pub(crate) fn spans(&self) -> &[Span]
        ensures { result.now ≡ table_of self.now }
    {
        &self.spans[..self.total]
    }

    /// Appends the row of the next worker.
    pub(crate) fn push(&mut self, row: &Row)
        requires worker { length (sizes_of self.old) < 32 }
        requires room { length (table_of self.old) + length (spans_of row.now) ≤ 127 }
        ensures { rows_of self.new ≡ rows_of self.old ++ spans_of row.now ∷ [] }
    {
        let spans = row.spans();
        let end = self.total + spans.len();
        self.spans[self.total..end].copy_from_slice(spans);
        self.sizes[self.count] = spans.len();
        self.count += 1;
        self.total = end;
    }
}
