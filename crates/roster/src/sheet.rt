//! The rows of a sheet: who has each worker of a group in an interval, and for how long.

mod ends;
mod row;
mod rows;
mod span;

pub(crate) use ends::Ends;
pub(crate) use row::Row;
pub(crate) use rows::Rows;
pub(crate) use span::Span;
