//! Two callers that withdraw a model, have group 1 go two intervals, and then withdraw another: one by a list of calls, one call by call.
//! Both know the same of the sheets that they keep, from the contracts of the calls alone.
#![tactic(auto)]

pub mod listed;
pub mod stepped;

use kinds::runs::Run;
use season::Answer;

/// What fills scratch that is still to be lent.
const NO_RUN: Run = Run {
    model: 0,
    deadline: 0,
    remaining: 0,
};

/// What is kept of an interval: the answer, and the words of the sheet.
#[derive(Clone, Copy, Debug)]
pub struct Interval {
    pub answer: Answer,
    pub words: [u64; 512],
}

/// What is kept of the four calls: the answers of the two withdrawals, and the intervals between them.
#[derive(Clone, Copy, Debug)]
pub struct Kept {
    pub withdrawal: Answer,
    pub first: Interval,
    pub second: Interval,
    pub last_withdrawal: Answer,
}
