//! What is known of a set that has a plan.
use crate::kind::Kind;
use crate::layer::Layer;
use crate::line::Line;
use crate::page::Page;
use crate::pile::{LAYERS, Pile};
use crate::table::Table;
use anyhow::{Context, Result, bail};
use plan::pieces::Pieces;
use plan::plans::Plan;
use std::alloc::Global;
use std::io::{BufRead, Lines, Write};

/// A plan, and the calendar and the order so far.
#[derive(Drop)]
pub(crate) struct Stage {
    plan: Plan,
    table: Option<Table>,
    layers: Vec<Layer>,
    kind: Option<Kind>,
}

impl Stage {
    pub(crate) fn new(heap: Global, plan: Plan) -> Stage {
        Stage {
            plan,
            table: None,
            layers: Vec::new(heap),
            kind: None,
        }
    }

    /// Plays a line, and those that follow over the same calendar: gives back the one at which they end.
    pub(crate) fn play<B: BufRead + Drop, W: Write>(
        &mut self,
        line: Line,
        lines: &mut Lines<B>,
        page: &mut Page<W>,
    ) -> Result<Option<Line>> {
        match line {
            Line::Table(table) => self.begin(table, page)?,
            Line::Layer(layer) => {
                self.lay(layer)?;
                page.agree()?;
            }
            Line::Order(kind) => {
                self.kind = Some(kind);
                page.agree()?;
            }
            first => {
                let table = self.table.as_ref().context("there is no calendar")?;
                let pile = Pile {
                    layers: &self.layers,
                    plan: &self.plan,
                    kind: self.kind,
                    first,
                    lines,
                    page,
                };
                return pile.play(table);
            }
        }
        Ok(None)
    }

    /// Begins a calendar anew.
    fn begin<W: Write>(&mut self, table: Table, page: &mut Page<W>) -> Result<()> {
        let checked = table.check();
        self.table = Some(table);
        self.layers.clear();
        match checked {
            Ok(()) => page.agree(),
            Err(refusal) => page.refuse(refusal),
        }
    }

    /// Lays one layer more over the calendar.
    fn lay(&mut self, layer: Layer) -> Result<()> {
        if self.table.is_none() {
            bail!("there is no calendar");
        }
        if self.layers.len() >= LAYERS {
            bail!("more than {LAYERS} layers");
        }
        self.layers.push(layer)?;
        Ok(())
    }

    /// Writes the answer to the line of the set.
    pub(crate) fn write_plan<W: Write>(&self, out: &mut W) -> Result<()> {
        let plan = &self.plan;
        let sizes = plan.sizes();
        let grouping = plan.grouping();
        write!(out, "plan {} {} |", grouping.alone, grouping.count())?;
        for load in plan.loads.iter().take(sizes.workers as usize) {
            write!(out, " {load}")?;
        }
        write!(out, " |")?;
        for pieces in plan.pieces.iter().take(sizes.models as usize) {
            let (first, second) = match *pieces {
                Pieces::Whole { size, .. } => (size, 0),
                Pieces::Divided { first, second, .. } => (first, second),
            };
            write!(out, " {}:{first}:{second}", pieces.worker())?;
        }
        writeln!(out)?;
        Ok(())
    }
}
