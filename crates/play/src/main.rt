//! Plays scripts: each line of standard input is answered by a line.
//!
//! ```text
//! set M K G C,C,.. T,T,..          plan ALONE GROUPS | LOAD .. | WORKER:FIRST:SECOND ..
//! phase F,P F,P ..                 ok
//! list S,S,.. T,I T,I ..           ok
//! delay D                          ok
//! close A E                        ok
//! order model|remaining            ok
//! open                             ok
//! follow                           ok
//! advance G WORDS RUNS             START END FIRST WRITTEN | WORD ..
//! withdraw I                       ok
//! standing I                       PHASE DATE SERVED LAG
//! agenda A E ENTRIES THINGS        COUNT | I@T .. _ ..
//! spacing I                        a number
//! earliest I FROM                  a tick, or none
//! file M K G C,C,.. T,T,.. BYTES   SIZE HEX
//! ```
//!
//! Here M is the number of workers, K the group size, G the grain, and each model has C and T, its cost and its period; `-` is a list without numbers.
//! docs/FORMATS.md says what each line means. What is refused is answered by its refusal.
//! Lent memory is marked before each call; where one touches what it has to leave, a further line says so, which begins with `touched`.
//! A line that makes no sense ends the program with an error that names the line's number.
#![tactic(auto)]

use crate::figures::Figures;
use crate::line::Line;
use crate::page::Page;
use crate::question::Question;
use crate::stage::Stage;
use anyhow::{Context, Result};
use std::io::{BufRead, BufReader, BufWriter, Lines, Write};

mod figures;
mod file;
mod kind;
mod layer;
mod lent;
mod line;
mod list;
mod listing;
mod page;
mod pile;
mod question;
mod scene;
mod stage;
mod table;
mod words;

/// Begins with a set: writes its plan, or its refusal.
fn begin<W: Write>(figures: &Figures, page: &mut Page<W>) -> Result<Option<Stage>> {
    match figures.plan() {
        Ok(plan) => {
            let stage = Stage::new(page.heap, plan);
            stage.write_plan(&mut page.out)?;
            Ok(Some(stage))
        }
        Err(refusal) => {
            page.refuse(refusal)?;
            Ok(None)
        }
    }
}

/// Plays all lines.
fn play<B: BufRead + Drop, W: Write>(lines: &mut Lines<B>, page: &mut Page<W>) -> Result<()> {
    let mut stage = None;
    let mut held = None;
    // each loop has to end, so this one is counted
    for _ in 0..u64::MAX {
        let line = match held {
            Some(line) => line,
            None => match lines.next() {
                Some(text) => page.read(text)?,
                None => break,
            },
        };
        held = match line {
            Line::Set(figures) => {
                stage = begin(&figures, page)?;
                None
            }
            Line::Question(Question::File(file)) => {
                file.answer(&mut page.out)?;
                None
            }
            line => stage
                .as_mut()
                .context("there is no plan")?
                .play(line, lines, page)?,
        };
    }
    Ok(())
}

fn main(rt: HostRuntime) -> Result<()> {
    let mut lines = BufReader::new(rt.alloc(), rt.stdin())?.lines(rt.alloc());
    let mut page = Page::new(rt.alloc(), BufWriter::new(rt.alloc(), rt.stdout())?);
    let played = play(&mut lines, &mut page);
    page.out.flush()?;
    played.context(format_args!("line {}", page.number))
}
