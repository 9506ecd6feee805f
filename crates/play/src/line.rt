//! What a line says.
use crate::figures::Figures;
use crate::kind::Kind;
use crate::layer::Layer;
use crate::lent::Lent;
use crate::question::Question;
use crate::table::Table;
use crate::words::Words;
use anyhow::Result;
use std::alloc::Global;

/// A line of a script, with the memory that it names.
#[derive(Drop)]
pub(crate) enum Line {
    Set(Figures),
    Table(Table),
    Layer(Layer),
    Order(Kind),
    /// Opens a roster: the calls that follow are made one by one, or performed as one list.
    Open,
    Follow,
    Call(Lent),
    Question(Question),
}

impl Line {
    pub(crate) fn read(heap: Global, text: &str) -> Result<Line> {
        let words = &mut Words::new(heap, text);
        let line = match words.word()? {
            "set" => Line::Set(Figures::read(words)?),
            "phase" => Line::Table(Table::phases(words)?),
            "list" => Line::Table(Table::list(words)?),
            "delay" => Line::Layer(Layer::Delay(words.number()?)),
            "close" => Line::Layer(Layer::Closure(words.number()?, words.number()?)),
            "order" => Line::Order(words.word()?.parse()?),
            "open" => Line::Open,
            "follow" => Line::Follow,
            kind @ ("advance" | "withdraw" | "standing") => Line::Call(Lent::read(kind, words)?),
            kind => Line::Question(Question::read(kind, words)?),
        };
        words.end()?;
        Ok(line)
    }
}
