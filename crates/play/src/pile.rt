//! Calendars, layer over layer.
use crate::kind::Kind;
use crate::layer::Layer;
use crate::line::Line;
use crate::page::Page;
use crate::scene::Scene;
use crate::table::Table;
use anyhow::Result;
use calendar::Calendar;
use calendars::closure::Closure;
use calendars::delay::Delay;
use calendars::list::ListCalendar;
use calendars::phase::PhaseCalendar;
use kinds::runs::{ByModel, ByRemaining};
use plan::plans::Plan;
use std::io::{BufRead, Lines, Write};

/// The most layers over a table: each is laid in a function of its own.
pub(crate) const LAYERS: usize = 3;

/// The layers over a table, what else a roster is opened over, and the lines that are played.
#[derive(Drop)]
pub(crate) struct Pile<'a, B, W> {
    pub(crate) layers: &'a [Layer],
    pub(crate) plan: &'a Plan,
    pub(crate) kind: Option<Kind>,
    pub(crate) first: Line,
    pub(crate) lines: &'a mut Lines<B>,
    pub(crate) page: &'a mut Page<W>,
}

impl<'a, B: BufRead + Drop, W: Write> Pile<'a, B, W> {
    /// Plays the lines, up to one that alters the calendar, the order or the set: gives that one back.
    pub(crate) fn play(self, table: &Table) -> Result<Option<Line>> {
        match table {
            Table::Phases(phases) => self.lay(&PhaseCalendar { phases: *phases }),
            Table::List(entries, spacings) => self.lay(&ListCalendar::new(entries, *spacings)),
        }
    }

    fn lay<C: Calendar>(self, calendar: &C) -> Result<Option<Line>> {
        match self.layers.get(0).copied() {
            None => self.put_in_order(calendar),
            Some(Layer::Delay(ticks)) => self.lay_second(&Delay::new(calendar, ticks)),
            Some(Layer::Closure(from, to)) => self.lay_second(&Closure::new(calendar, from..to)),
        }
    }

    fn lay_second<C: Calendar>(self, calendar: &C) -> Result<Option<Line>> {
        match self.layers.get(1).copied() {
            None => self.put_in_order(calendar),
            Some(Layer::Delay(ticks)) => self.lay_third(&Delay::new(calendar, ticks)),
            Some(Layer::Closure(from, to)) => self.lay_third(&Closure::new(calendar, from..to)),
        }
    }

    fn lay_third<C: Calendar>(self, calendar: &C) -> Result<Option<Line>> {
        match self.layers.get(2).copied() {
            None => self.put_in_order(calendar),
            Some(Layer::Delay(ticks)) => self.put_in_order(&Delay::new(calendar, ticks)),
            Some(Layer::Closure(from, to)) => self.put_in_order(&Closure::new(calendar, from..to)),
        }
    }

    /// Puts the runs in order, if one was said.
    fn put_in_order<C: Calendar>(self, calendar: &'a C) -> Result<Option<Line>> {
        let (plan, first, lines, page) = (self.plan, self.first, self.lines, self.page);
        match self.kind {
            None => Scene::new(plan, calendar, None::<&ByModel>).play(first, lines, page),
            Some(Kind::Model) => Scene::new(plan, calendar, Some(&ByModel)).play(
                first, lines, page,
            ),
            Some(Kind::Remaining) => {
                Scene::new(plan, calendar, Some(&ByRemaining)).play(first, lines, page)
            }
        }
    }
}
