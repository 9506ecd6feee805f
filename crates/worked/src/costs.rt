//! What a call on a queue costs, which no contract says: how often it asks its order, and how many slots it changes.
use crate::asked::Asked;
use kinds::entries::{ByTick, Entry};
use queue::{Full, Queue};
use std::cell::Cell;
use std::test::Fail;

/// How many slots differ.
fn count_changed(before: &[Entry; 64], after: &[Entry; 64]) -> usize {
    before.iter().zip(after).filter(|(a, b)| a != b).count()
}

/// The slots after so many puts, each of what comes first of all, and so many takes; and how often the last call asked.
fn slots_after(puts: usize, takes: usize) -> Result<([Entry; 64], u32), Full> {
    let times = Cell::new(0);
    let order = Asked {
        inner: ByTick,
        times: &times,
    };
    let mut slots = [Entry { tick: 0, model: 0 }; 64];
    let mut queue = Queue::new(&mut slots);
    for tick in (0..64).rev().take(puts) {
        times.set(0);
        queue.put(&order, Entry { tick, model: 1 })?;
    }
    for _ in 0..takes {
        times.set(0);
        queue.take(&order);
    }
    Ok((slots, times.get()))
}

#[test]
fn what_a_put_costs(rt: HostRuntime) -> Result<(), Fail> {
    for count in 1..65_usize {
        let steps = count.ilog2();
        let (before, _) = slots_after(count - 1, 0)?;
        let (after, asked) = slots_after(count, 0)?;
        assert_eq!(rt; count_changed(&before, &after), steps as usize + 1);
        assert_eq!(rt; asked, steps);
    }
    Ok(())
}

#[test]
fn what_a_take_costs(rt: HostRuntime) -> Result<(), Fail> {
    for count in 1..65_usize {
        let steps = count.ilog2();
        let (before, _) = slots_after(64, 64 - count)?;
        let (after, asked) = slots_after(64, 65 - count)?;
        assert!(rt; count_changed(&before, &after) <= steps as usize + 1);
        assert!(rt; asked <= 2 * steps);
    }
    Ok(())
}
