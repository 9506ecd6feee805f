//! Runs and entries that wait, many with equal moments, and how a queue gives them.
ghost use Rattle.std.specs.Prelude.{[], ◌∷◌};
ghost use Rattle.order.specs.Keys.{by_keys};
ghost use Rattle.order.proofs.Keyed.{by_keys-OrderLaws};

use kinds::entries::{ByTick, Entry};
use kinds::runs::{ByModel, ByRemaining, Run};
use order::{Order, Thing};
use queue::{Full, Queue};
use std::test::Fail;

fn run(model: u32, deadline: u32, remaining: u64) -> Run {
    Run {
        model,
        deadline,
        remaining,
    }
}

fn entry(tick: u32, model: u32) -> Entry {
    Entry { tick, model }
}

#[test]
fn runs_of_equal_deadlines(rt: HostRuntime) -> Result<(), Fail> {
    let runs = [
        run(4, 20, 30),
        run(2, 10, 50),
        run(3, 10, 40),
        run(1, 20, 30),
        run(5, 10, 40),
    ];
    let [four, two, three, one, five] = runs;
    let mut slots = runs;
    let mut queue = Queue::new(&mut slots);
    for waiting in runs {
        queue.put(&ByModel, waiting)?;
    }
    for first in [two, three, five, one, four] {
        assert_eq!(rt; queue.take(&ByModel), Some(first));
    }
    for waiting in runs {
        queue.put(&ByRemaining, waiting)?;
    }
    for first in [three, five, two, one, four] {
        assert_eq!(rt; queue.take(&ByRemaining), Some(first));
    }
    Ok(())
}

#[test]
fn entries_of_equal_ticks(rt: HostRuntime) -> Result<(), Fail> {
    let blank = entry(5, 5);
    let mut slots = [blank; 8];
    let mut queue = Queue::new(&mut slots);
    for (tick, model) in [(9, 2), (0, 7), (9, 1), (0, 3), (9, 1), (0, 64)] {
        queue.put(&ByTick, entry(tick, model))?;
    }
    for (tick, model) in [(0, 3), (0, 7), (0, 64), (9, 1), (9, 1), (9, 2)] {
        assert_eq!(rt; queue.take(&ByTick), Some(entry(tick, model)));
    }
    assert_eq!(rt; [slots[6], slots[7]], [blank; 2]);
    Ok(())
}

/// By model alone, nothing says which of two runs of one model and one deadline comes first; none is lost.
#[test]
fn tied_runs(rt: HostRuntime) -> Result<(), Fail> {
    let (few, many) = (run(1, 9, 3), run(1, 9, 8));
    let mut slots = [few; 2];
    let mut queue = Queue::new(&mut slots);
    queue.put(&ByModel, few)?;
    queue.put(&ByModel, many)?;
    let taken = [queue.take(&ByModel), queue.take(&ByModel)];
    assert!(rt; taken == [Some(few), Some(many)] || taken == [Some(many), Some(few)]);
    Ok(())
}

#[test]
fn full_and_empty(rt: HostRuntime) {
    let mut slots = [entry(1, 1); 2];
    let mut queue = Queue::new(&mut slots);
    assert!(rt; queue.is_empty());
    assert_eq!(rt; queue.take(&ByTick), None);
    assert_eq!(rt; queue.put(&ByTick, entry(4, 2)), Ok(()));
    assert!(rt; !queue.is_empty());
    assert_eq!(rt; queue.put(&ByTick, entry(4, 1)), Ok(()));
    assert_eq!(rt; queue.put(&ByTick, entry(0, 1)), Err(Full));
    assert_eq!(rt; queue.len(), 2);
    assert_eq!(rt; queue.take(&ByTick), Some(entry(4, 1)));
    assert_eq!(rt; queue.take(&ByTick), Some(entry(4, 2)));
    assert_eq!(rt; queue.take(&ByTick), None);
}

#[test]
fn orders_that_change(rt: HostRuntime) -> Result<(), Fail> {
    let runs = [run(1, 9, 4), run(2, 9, 3), run(3, 9, 2), run(4, 9, 1)];
    let mut slots = [run(0, 0, 0); 4];
    let mut queue = Queue::new(&mut slots);
    queue.put(&ByModel, runs[1])?;
    queue.put(&ByRemaining, runs[3])?;
    queue.put(&ByModel, runs[0])?;
    queue.put(&ByRemaining, runs[2])?;
    let taken = [
        queue.take(&ByModel),
        queue.take(&ByRemaining),
        queue.take(&ByRemaining),
        queue.take(&ByRemaining),
    ];
    // nothing was lost, and an empty queue stands in every order
    for waiting in taken.into_iter().flatten() {
        queue.put(&ByModel, waiting)?;
    }
    for first in runs {
        assert_eq!(rt; queue.take(&ByModel), Some(first));
    }
    Ok(())
}

/// A kind whose moments take 64 bits.
#[derive(Clone, Copy, Debug, PartialEq, Eq)]
struct Wide {
    moment: u64,
    model: u32,
}

impl Thing for Wide {
    ghost model = { λ w. w.model };

    ghost moment = { λ w. w.moment };
}

struct ByMoment;

impl Order for ByMoment {
    type Item = Wide;

    ghost precedes = { λ _. by_keys (λ w. w.moment ∷ w.model ∷ []) };

    ghost laws = { λ _. by_keys-OrderLaws (λ w. w.moment ∷ w.model ∷ []) 1 };

    fn before(&self, a: &Wide, b: &Wide) -> bool {
        (a.moment, a.model) < (b.moment, b.model)
    }
}

#[test]
fn moments_of_64_bits(rt: HostRuntime) -> Result<(), Fail> {
    let wide = |moment: u64, model: u32| Wide { moment, model };
    let mut slots = [wide(0, 0); 4];
    let mut queue = Queue::new(&mut slots);
    for (moment, model) in [(1 << 63, 1), (u64::MAX, 1), (1 << 32, 9), (1 << 63, 0)] {
        queue.put(&ByMoment, wide(moment, model))?;
    }
    assert_eq!(rt; queue.take(&ByMoment), Some(wide(1 << 32, 9)));
    assert_eq!(rt; queue.take(&ByMoment), Some(wide(1 << 63, 0)));
    assert_eq!(rt; queue.take(&ByMoment), Some(wide(1 << 63, 1)));
    assert_eq!(rt; queue.take(&ByMoment), Some(wide(u64::MAX, 1)));
    Ok(())
}
