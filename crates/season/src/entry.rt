//! An entry of a list of calls.
ghost use Rattle.std.specs.Prelude.{◌≡◌, None};
ghost use Rattle.roster.specs.Keeping.{Keeps};
ghost use Rattle.season.specs.Asking.{asked};
ghost use Rattle.season.specs.Performing.{asked_by, Holds};

use crate::answer::Answer;
use crate::call::Call;
use calendar::Calendar;
use kinds::runs::Run;
use order::Order;
use roster::Roster;

/// A call with memory of its own, of any length, and a place for its answer.
/// Only an advance uses the memory: it asks for `roster::SHEET_WORDS` words for the sheet and for room for `roster::SCRATCH_RUNS` runs in the scratch.
#[derive(Drop)]
pub struct Entry<'a> {
    pub call: Call,
    pub sheet: &'a mut [u64],
    pub scratch: &'a mut [Run],
    pub answer: Option<Answer>,
}

impl<'a> Entry<'a> {
    /// A call that is still to be made, with memory lent for it.
    pub fn new(call: Call, sheet: &'a mut [u64], scratch: &'a mut [Run]) -> Entry<'a>
        ensures call { result.call ≡ call }
        ensures asks { asked_by result ≡ asked call sheet.old scratch.old }
        ensures holds { (result.sheet.now ≡ sheet.old) × (result.scratch.now ≡ scratch.old) }
        ensures lent { (result.sheet.ghost_name ≡ sheet.entry.ghost_name) × (result.scratch.ghost_name ≡ scratch.entry.ghost_name) }
        ensures unanswered { result.answer ≡ None }
    {
        Entry {
            call,
            sheet,
            scratch,
            answer: None,
        }
    }
}

impl Entry<'_> {
    /// Makes the call on a roster, and writes down its answer.
    pub fn perform<C: Calendar, O: Order<Item = Run>>(&mut self, roster: &mut Roster<'_, C, O>)
        ensures { Keeps roster.old (asked_by self.old) (λ given. Holds self.old given self.new) roster.new }
    {
        self.answer = Some(self.call.ask(roster, self.sheet, self.scratch));
    }
}
