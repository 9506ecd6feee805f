//! What is played over one calendar and one order.
use crate::lent::Lent;
use crate::line::Line;
use crate::list::List;
use crate::page::Page;
use crate::question::Question;
use anyhow::{Context, Result, bail};
use calendar::Calendar;
use kinds::runs::Run;
use order::Order;
use plan::plans::Plan;
use roster::Roster;
use season::perform;
use std::io::{BufRead, Lines, Write};
use std::mem;

/// How calls are made.
#[derive(Drop)]
enum Calls<'a, C: Calendar, O: Order<Item = Run>> {
    /// not at all
    Closed,
    /// one by one, as they come
    Open(Roster<'a, C, O>),
    /// as one list, once they are all there
    Follow(List),
}

/// What a roster is opened over, the order only if it was said, and how calls on it are made.
#[derive(Drop)]
pub(crate) struct Scene<'a, C: Calendar, O: Order<Item = Run>> {
    plan: &'a Plan,
    calendar: &'a C,
    order: Option<&'a O>,
    calls: Calls<'a, C, O>,
}

impl<'a, C: Calendar, O: Order<Item = Run>> Scene<'a, C, O> {
    pub(crate) fn new(plan: &'a Plan, calendar: &'a C, order: Option<&'a O>) -> Self {
        Scene {
            plan,
            calendar,
            order,
            calls: Calls::Closed,
        }
    }

    /// Plays a line and those that follow, up to one that alters what the scene is over: gives that one back.
    pub(crate) fn play<B: BufRead + Drop, W: Write>(
        mut self,
        first: Line,
        lines: &mut Lines<B>,
        page: &mut Page<W>,
    ) -> Result<Option<Line>> {
        let end = self.play_all(first, lines, page);
        // calls ahead of a line that makes no sense are answered too
        self.close(page)?;
        end
    }

    fn play_all<B: BufRead + Drop, W: Write>(
        &mut self,
        first: Line,
        lines: &mut Lines<B>,
        page: &mut Page<W>,
    ) -> Result<Option<Line>> {
        if let Some(line) = self.play_line(first, page)? {
            return Ok(Some(line));
        }
        for text in lines {
            if let Some(line) = self.play_line(page.read(text)?, page)? {
                return Ok(Some(line));
            }
        }
        Ok(None)
    }

    /// Plays a line, or gives it back.
    fn play_line<W: Write>(&mut self, line: Line, page: &mut Page<W>) -> Result<Option<Line>> {
        match line {
            Line::Open => self.open(page)?,
            Line::Follow => self.follow(page)?,
            Line::Call(lent) => self.call(lent, page)?,
            Line::Question(question) => self.ask(question, page)?,
            line => return Ok(Some(line)),
        }
        Ok(None)
    }

    /// Opens a roster for calls one by one.
    fn open<W: Write>(&mut self, page: &mut Page<W>) -> Result<()> {
        self.close(page)?;
        let order = self.order.context("there is no order")?;
        match Roster::open(self.plan, self.calendar, order) {
            Ok(roster) => {
                self.calls = Calls::Open(roster);
                page.agree()
            }
            Err(refusal) => page.refuse(refusal),
        }
    }

    /// Begins a list of calls. It is refused just where the list without calls is.
    fn follow<W: Write>(&mut self, page: &mut Page<W>) -> Result<()> {
        self.close(page)?;
        let order = self.order.context("there is no order")?;
        match perform(self.plan, self.calendar, order, &mut []) {
            Ok(()) => {
                self.calls = Calls::Follow(List::new(page.heap));
                page.agree()
            }
            Err(refusal) => page.refuse(refusal),
        }
    }

    fn call<W: Write>(&mut self, mut lent: Lent, page: &mut Page<W>) -> Result<()> {
        match &mut self.calls {
            Calls::Closed => bail!("there is no roster"),
            Calls::Open(roster) => {
                let answer = lent.ask(roster).context("a call is not answered")?;
                lent.write(answer, &mut page.out)
            }
            Calls::Follow(list) => list.push_call(lent),
        }
    }

    fn ask<W: Write>(&mut self, question: Question, page: &mut Page<W>) -> Result<()> {
        match &mut self.calls {
            Calls::Follow(list) => list.push_question(question),
            _ => question.answer(self.calendar, &mut page.out),
        }
    }

    /// Ends what is open; a list is performed then.
    fn close<W: Write>(&mut self, page: &mut Page<W>) -> Result<()> {
        if let Calls::Follow(list) = mem::replace(&mut self.calls, Calls::Closed) {
            let order = self.order.context("there is no order")?;
            list.play(self.plan, self.calendar, order, page)?;
        }
        Ok(())
    }
}
