use super::started;
use probe_taps::{CountTap, Tap};
use std::cell::Cell;
use std::rc::Rc;
use std::test::Fail;

// Adds the cycle of each packet.
#[derive(Drop)]
struct CycleTap {
    sum: u64,
}

impl Tap for CycleTap {
    ghost use Rattle.std.specs.Prelude.{◌+◌, ◌-◌, ◌^◌, min};

    ghost form = { λ tap. record { number = tap.sum; rule = λ number cycle words. min (number + cycle) (2 ^ 64 - 1) } };

    fn see(&mut self, cycle: u64, _words: &[u32]) {
        self.sum = self.sum.saturating_add(cycle);
    }

    fn tell(&self) -> u64 {
        self.sum
    }
}

// Adds the first container of each packet.
#[derive(Drop)]
struct WordTap {
    sum: u64,
}

impl Tap for WordTap {
    ghost use Rattle.std.specs.Prelude.{◌+◌, ◌-◌, ◌^◌, min, slice_index_or};

    ghost form = { λ tap. record { number = tap.sum; rule = λ number cycle words. min (number + slice_index_or words 0 0) (2 ^ 64 - 1) } };

    fn see(&mut self, _cycle: u64, words: &[u32]) {
        let word = if words.is_empty() { 0 } else { words[0] };
        self.sum = self.sum.saturating_add(u64::from(word));
    }

    fn tell(&self) -> u64 {
        self.sum
    }
}

// Counts in a shared cell how often it is dropped.
struct DropTap {
    drops: Rc<Cell<u8>>,
}

impl Drop for DropTap {
    fn drop(self) {
        let DropTap { drops } = self;
        drops.set(drops.get().saturating_add(1));
    }
}

impl Tap for DropTap {
    ghost form = { λ _. record { number = 0; rule = λ number cycle words. number } };

    fn see(&mut self, _cycle: u64, _words: &[u32]) {}

    fn tell(&self) -> u64 {
        0
    }
}

// Packets stand before stage 2 in the cycles 2 and 5. A tap that is out for cycle 4 alone misses none.
#[test]
fn a_count_goes_on(rt: HostRuntime) -> Result<(), Fail> {
    let alloc = rt.alloc();
    let mut bench = started(alloc, Box::new(alloc, CountTap::new())?)?;
    bench.step(Some(5));
    bench.step(None);
    bench.step(None);
    bench.step(Some(7));
    let first = bench.swap_first(Box::new(alloc, CountTap::new())?);
    assert_eq!(rt; (first.tell(), bench.tell()), (1, 0));
    bench.step(None);
    let second = bench.swap_first(first);
    assert_eq!(rt; (bench.tell(), second.tell()), (1, 0));
    bench.step(None);
    bench.step(None);
    bench.step(None);
    assert_eq!(rt; (bench.tell(), second.tell()), (2, 0));
    Ok(())
}

// A tap that is swapped in sees what comes behind that.
#[test]
fn other_rules(rt: HostRuntime) -> Result<(), Fail> {
    let alloc = rt.alloc();
    let mut bench = started(alloc, Box::new(alloc, CycleTap { sum: 0 })?)?;
    bench.step(Some(5));
    bench.step(None);
    bench.step(None);
    bench.step(Some(7));
    let cycles = bench.swap_first(Box::new(alloc, WordTap { sum: 0 })?);
    bench.step(None);
    bench.step(None);
    bench.step(None);
    bench.step(None);
    assert_eq!(rt; (cycles.tell(), bench.tell()), (2, 7));
    Ok(())
}

// Each tap is dropped once: the one that was swapped out with its box, and the one that is in with the machine.
#[test]
fn dropped_once(rt: HostRuntime) -> Result<(), Fail> {
    let alloc = rt.alloc();
    let first = Rc::new(alloc, Cell::new(0))?;
    let second = Rc::new(alloc, Cell::new(0))?;
    let one = DropTap {
        drops: first.clone()?,
    };
    let other = DropTap {
        drops: second.clone()?,
    };
    let mut bench = started(alloc, Box::new(alloc, one)?)?;
    bench.step(Some(5));
    let out = bench.swap_first(Box::new(alloc, other)?);
    assert_eq!(rt; (first.get(), second.get()), (0, 0));
    drop(out);
    assert_eq!(rt; (first.get(), second.get()), (1, 0));
    bench.step(None);
    drop(bench);
    assert_eq!(rt; (first.get(), second.get()), (1, 1));
    Ok(())
}
