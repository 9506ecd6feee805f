//! The records of all models.
ghost use Rattle.std.specs.Prelude.{◌≡◌, length};

use crate::event::Event;
use crate::phase::Phase;
use crate::record::Record;
use set::sizes::MODELS;

mod service;

/// The records of all models, in a plain table; the model in slot *i* has the number *i* + 1.
#[derive(Drop)]
pub(crate) struct Models {
    pub(crate) records: [Record; MODELS],
    ghost full: { length records ≡ 64 },
}

impl Models {
    ghost use Rattle.std.specs.Prelude.{◌<◌, ℕ};
    ghost use Rattle.roster.specs.Records.{met, HasRoom, phase_at, altered};
    ghost use Rattle.roster.specs.Advancing.{settled};

    /// Records of models that all wait.
    pub(crate) fn new() -> Models
        ensures { (k : ℕ) → phase_at result.records k ≡ Phase.Waiting }
    {
        let waiting = Record {
            phase: Phase::Waiting,
        };
        Models {
            records: [waiting; MODELS],
        }
    }

    /// What the model in a slot is doing.
    pub(crate) fn phase(&self, slot: usize) -> Phase
        requires { slot < 64 }
        ensures { result ≡ phase_at self.now.records slot }
    {
        self.records[slot].phase
    }

    /// Lends the record in a slot, which is altered by what happens to its model.
    pub(crate) fn meet(&mut self, slot: usize, event: Event)
        requires slot { slot < 64 }
        requires room { HasRoom (phase_at self.old.records slot) event }
        ensures { self.new.records ≡ altered self.old.records slot (λ phase. met phase event) }
    {
        self.records[slot].meet(event);
    }

    /// Lends the record in a slot, which is settled at a tick.
    pub(crate) fn settle(&mut self, slot: usize, period: u32, dated: bool, tick: u32)
        requires { slot < 64 }
        ensures { self.new.records ≡ altered self.old.records slot (settled period dated tick) }
    {
        self.records[slot].settle(period, dated, tick);
    }
}
