//! The ways in which rosters are called.
use crate::checksum::Checksum;
use crate::job::Job;
use anyhow::Result;
use kinds::runs::{ByModel, Run};
use roster::{Roster, SCRATCH_RUNS, SHEET_WORDS};
use season::{Call, Entry};
use std::alloc::Global;

/// What a run of a scratch is before a call.
const BLANK: Run = Run {
    model: 0,
    deadline: 0,
    remaining: 0,
};

/// Memory that one call after another is lent.
#[derive(Clone, Copy, Debug)]
struct Memory {
    sheet: [u64; SHEET_WORDS],
    scratch: [Run; SCRATCH_RUNS],
}

impl Memory {
    fn new() -> Memory {
        Memory {
            sheet: [0; SHEET_WORDS],
            scratch: [BLANK; SCRATCH_RUNS],
        }
    }
}

impl Job {
    /// Advances the groups of one roster by turns, so often.
    pub(crate) fn advance(&self, times: u32) -> Result<Checksum> {
        let mut sum = Checksum::default();
        self.add_advances(times, &mut Memory::new(), &mut sum)?;
        Ok(sum)
    }

    /// Opens a roster for each four advances.
    pub(crate) fn open(&self, times: u32) -> Result<Checksum> {
        let mut memory = Memory::new();
        let mut sum = Checksum::default();
        for _ in 0..times / 4 {
            self.add_advances(4, &mut memory, &mut sum)?;
        }
        Ok(sum)
    }

    /// Performs so many calls on a roster, each with memory of its own.
    pub(crate) fn season(&self, heap: Global, times: u32) -> Result<Checksum> {
        let mut words = vec![in heap; 0; times as usize * SHEET_WORDS]?;
        let mut runs = vec![in heap; BLANK; times as usize * SCRATCH_RUNS]?;
        let mut entries = Vec::with_capacity(heap, times as usize)?;
        let lent = words
            .chunks_mut(SHEET_WORDS)
            .zip(runs.chunks_mut(SCRATCH_RUNS));
        for (number, (sheet, scratch)) in (0..times).zip(lent) {
            entries.push(Entry::new(self.call(number), sheet, scratch))?;
        }
        season::perform(&self.plan, &self.calendar, &ByModel, &mut entries)?;
        let mut sum = Checksum::default();
        for entry in &entries {
            if let Some(answer) = entry.answer {
                sum.add_answer(answer, entry.sheet);
            }
        }
        Ok(sum)
    }

    /// Opens a roster, advances its groups by turns, so often, and adds what is answered.
    fn add_advances(&self, times: u32, memory: &mut Memory, sum: &mut Checksum) -> Result<()> {
        let Memory { sheet, scratch } = memory;
        let mut roster = Roster::open(&self.plan, &self.calendar, &ByModel)?;
        for number in 0..times {
            let (start, end, first, written) = roster.advance(self.turn(number), sheet, scratch)?;
            sum.add_sheet(start, end, first, sheet.get(..written).unwrap_or(&[]));
        }
        Ok(())
    }

    /// A call of a season: of 512 the last withdraws a model, of 16 the last asks for a standing, and the others advance the groups by turns.
    fn call(&self, number: u32) -> Call {
        if number % 512 == 511 {
            Call::Withdraw {
                model: number / 512 + 1,
            }
        } else if number % 16 == 15 {
            Call::Standing {
                model: number / 16 % self.plan.set.sizes.models + 1,
            }
        } else {
            Call::Advance {
                group: self.turn(number),
            }
        }
    }

    /// The group whose turn it is.
    fn turn(&self, number: u32) -> u32 {
        number % self.groups + 1
    }
}
