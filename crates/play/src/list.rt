//! Calls that are performed as one list, and the questions among them.
use crate::lent::Lent;
use crate::page::Page;
use crate::question::Question;
use anyhow::{Context, Result};
use calendar::Calendar;
use kinds::runs::Run;
use order::Order;
use plan::plans::Plan;
use season::{Answer, perform};
use std::alloc::Global;
use std::io::Write;

/// A line that waits.
#[derive(Drop)]
enum Step {
    Call(Lent),
    Question(Question),
}

/// Lines that wait until the list is complete.
#[derive(Drop)]
pub(crate) struct List {
    steps: Vec<Step>,
}

impl List {
    pub(crate) fn new(heap: Global) -> List {
        let steps = Vec::new(heap);
        List { steps }
    }

    pub(crate) fn push_call(&mut self, lent: Lent) -> Result<()> {
        self.steps.push(Step::Call(lent))?;
        Ok(())
    }

    pub(crate) fn push_question(&mut self, question: Question) -> Result<()> {
        self.steps.push(Step::Question(question))?;
        Ok(())
    }

    /// Performs all calls, and then answers line by line.
    pub(crate) fn play<C: Calendar, O: Order<Item = Run>, W: Write>(
        mut self,
        plan: &Plan,
        calendar: &C,
        order: &O,
        page: &mut Page<W>,
    ) -> Result<()> {
        let mut answers = self.perform(page.heap, plan, calendar, order)?.into_iter();
        for step in self.steps {
            match step {
                Step::Call(lent) => {
                    let answer = answers.next().context("an answer is missing")?;
                    lent.write(answer, &mut page.out)?;
                }
                Step::Question(question) => question.answer(calendar, &mut page.out)?,
            }
        }
        Ok(())
    }

    /// The answers to the calls, all performed at once.
    fn perform<C: Calendar, O: Order<Item = Run>>(
        &mut self,
        heap: Global,
        plan: &Plan,
        calendar: &C,
        order: &O,
    ) -> Result<Vec<Answer>> {
        let mut entries = Vec::new(heap);
        for step in &mut self.steps {
            if let Step::Call(lent) = step {
                entries.push(lent.entry())?;
            }
        }
        perform(plan, calendar, order, &mut entries)?;
        let mut answers = Vec::new(heap);
        for entry in &entries {
            answers.push(entry.answer.context("a call is not answered")?)?;
        }
        Ok(answers)
    }
}
