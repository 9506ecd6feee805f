//! What an interval gives to each model.
ghost use Rattle.std.specs.Prelude.{◌≡◌, ◌≤◌, ◌<◌, if◌then◌else◌, ◌==◌, map};
ghost use Rattle.std.specs.List.{All};
ghost use Rattle.roster.specs.Spans.{told_by};
ghost use Rattle.roster.specs.Tables.{rows_of};
ghost use Rattle.roster.specs.Advancing.{Rises, row_gives, rows_give, HasRoomFor, Served};

use super::Models;
use crate::event::Event;
use crate::sheet::{Rows, Span};

impl Models {
    /// Gives each model the parts of the spans that name it.
    pub(crate) fn serve(&mut self, rows: &Rows)
        requires rises { All (Rises 0) (rows_of rows.now) }
        requires room { HasRoomFor (rows_give (rows_of rows.now)) self.old.records }
        ensures { Served (rows_give (rows_of rows.now)) self.old.records self.new.records }
    {
        let mut spans = rows.spans();
        let sizes = rows.sizes();
        for size in sizes {
            let (row, others) = spans.split_at(*size);
            self.serve_row(row);
            spans = others;
        }
    }

    /// Gives each model the parts of the spans of one row that name it.
    fn serve_row(&mut self, row: &[Span])
        requires rises { Rises 0 (map told_by row.now) }
        requires room { HasRoomFor (row_gives 0 (map told_by row.now)) self.old.records }
        ensures { Served (row_gives 0 (map told_by row.now)) self.old.records self.new.records }
    {
        let mut start = 0;
        for span in row {
            self.give(span.model, span.end - start);
            start = span.end;
        }
    }

    /// Gives a model so many parts; those of model 0 are idle.
    fn give(&mut self, model: u32, parts: u64)
        requires small { model ≤ 64 }
        requires some { 0 < parts }
        requires room { HasRoomFor (λ i. if model == i then parts else 0) self.old.records }
        ensures { Served (λ i. if model == i then parts else 0) self.old.records self.new.records }
    {
        if model != 0 {
            self.meet(model as usize - 1, Event::Service { parts });
        }
    }
}
