use super::{CONFIG, PROGRAM, ROOM, TRACE, answered, files_of, puts_each, text_of, words_of};
use dom_io::{MemShelf, MemSink};
use dom_shell::domino;
use dom_words::FnvUnits;
use probe_taps::{CountTap, Tap};
use std::rc::Rc;
use std::test::Fail;

// Adds the cycle of each packet.
#[derive(Drop)]
struct CycleTap {
    sum: u64,
}

impl Tap for CycleTap {
    ghost use Rattle.std.specs.Prelude.{◌+◌, ◌-◌, ◌^◌, min};

    ghost form = { λ tap. record { number = tap.sum; rule = λ number cycle words. min (number + cycle) (2 ^ 64 - 1) } };

    fn see(&mut self, cycle: u64, _words: &[u32]) {
        self.sum = self.sum.saturating_add(cycle);
    }

    fn tell(&self) -> u64 {
        self.sum
    }
}

// Adds the first container of each packet.
#[derive(Drop)]
struct WordTap {
    sum: u64,
}

impl Tap for WordTap {
    ghost use Rattle.std.specs.Prelude.{◌+◌, ◌-◌, ◌^◌, min, slice_index_or};

    ghost form = { λ tap. record { number = tap.sum; rule = λ number cycle words. min (number + slice_index_or words 0 0) (2 ^ 64 - 1) } };

    fn see(&mut self, _cycle: u64, words: &[u32]) {
        let word = if words.is_empty() { 0 } else { words[0] };
        self.sum = self.sum.saturating_add(u64::from(word));
    }

    fn tell(&self) -> u64 {
        self.sum
    }
}

// Each row has a command and what it puts for a tap that counts, one that adds cycles, and one that adds words.
const PROBED: [(&str, &str); 3] = [
    (
        "probe c t 1",
        "cycle,x,sum\n4,5,5\n7,7,12\nstate,total,0,12\nplace,total,1\ntap,1,2\ntap,2,5\ntap,3,12\ndone,2,8\n",
    ),
    (
        "probe c t 2",
        "cycle,x,sum\n4,5,5\n7,7,12\nstate,total,0,12\nplace,total,1\ntap,1,2\ntap,2,7\ntap,3,12\ndone,2,8\n",
    ),
    (
        "probe c t 4",
        "cycle,x,sum\n4,5,5\n7,7,12\nstate,total,0,12\nplace,total,1\ntap,1,2\ntap,2,11\ntap,3,12\ndone,2,8\n",
    ),
];

#[test]
fn probed(rt: HostRuntime) -> Result<(), Fail> {
    let alloc = rt.alloc();
    for (command, report) in PROBED {
        let words = words_of(alloc, command)?;
        let files = files_of(alloc, PROGRAM, TRACE)?;
        let mut shelf = MemShelf::new(alloc, files, Vec::new(alloc));
        let mut sink = MemSink::new(alloc, ROOM, Vec::new(alloc))?;
        let mut taps: Vec<Box<dyn Tap>> = Vec::new(alloc);
        taps.push(Box::new(alloc, CountTap::new())?)?;
        taps.push(Box::new(alloc, CycleTap { sum: 0 })?)?;
        taps.push(Box::new(alloc, WordTap { sum: 0 })?)?;
        let status = domino(
            alloc,
            words.as_slice(),
            &mut shelf,
            &mut sink,
            &FnvUnits,
            taps,
        );
        assert_eq!(rt; status, 0);
        assert_eq!(rt; sink.held(), report.as_bytes());
    }
    Ok(())
}

// With no taps the report is that of `exec`.
#[test]
fn no_taps(rt: HostRuntime) -> Result<(), Fail> {
    let alloc = rt.alloc();
    let words = words_of(alloc, "probe c t 2")?;
    let files = files_of(alloc, PROGRAM, TRACE)?;
    let mut shelf = MemShelf::new(alloc, files, Vec::new(alloc));
    let mut sink = MemSink::new(alloc, ROOM, Vec::new(alloc))?;
    let status = domino(
        alloc,
        words.as_slice(),
        &mut shelf,
        &mut sink,
        &FnvUnits,
        Vec::new(alloc),
    );
    let exec = answered(alloc, "exec c t", PROGRAM, TRACE)?;
    assert_eq!(rt; status, 0);
    assert_eq!(rt; sink.held(), exec.held.as_slice());
    Ok(())
}

// The stage is asked for behind the configuration's rules, and before the trace is read.
const REFUSED_STAGES: [(&str, &str, &str); 2] = [
    (PROGRAM, "no trace", "refused,stage,4\n"),
    (PROGRAM, TRACE, "refused,stage,4\n"),
];

#[test]
fn refused_stages(rt: HostRuntime) -> Result<(), Fail> {
    let alloc = rt.alloc();
    puts_each(&rt, alloc, "probe c t 5", 3, &REFUSED_STAGES)?;
    puts_each(&rt, alloc, "probe c t 32", 3, &REFUSED_STAGES)?;
    let (before, after) = CONFIG.split_once("stage,4\n").ok_or("no stage")?;
    let text = text_of(alloc, before, "", after, 0)?;
    let given = answered(alloc, "probe p t 5", text.as_str(), TRACE)?;
    assert_eq!(rt; given.status, 3);
    assert_eq!(rt;
        given.held.as_slice(),
        b"refused,config,depth,0,0\n".as_slice()
    );
    Ok(())
}

// Has a share, which goes when the tap is dropped.
#[derive(Drop)]
struct SharedTap {
    share: Rc<u8>,
}

impl Tap for SharedTap {
    ghost form = { λ _. record { number = 0; rule = λ number cycle words. number } };

    fn see(&mut self, _cycle: u64, _words: &[u32]) {}

    fn tell(&self) -> u64 {
        0
    }
}

// Every command, also one whose words, stage or files are refused.
const COMMANDS: [&str; 10] = [
    "run raw-small p t",
    "serial p t",
    "compile raw-small p",
    "exec c t",
    "watch c t",
    "selfrun raw-small 7 1",
    "probe c t 2",
    "probe c t 5",
    "probe p t 2",
    "probe c t 0",
];

#[test]
fn every_tap_is_dropped(rt: HostRuntime) -> Result<(), Fail> {
    let alloc = rt.alloc();
    for command in COMMANDS {
        let words = words_of(alloc, command)?;
        let files = files_of(alloc, PROGRAM, TRACE)?;
        let mut shelf = MemShelf::new(alloc, files, Vec::new(alloc));
        let mut sink = MemSink::new(alloc, ROOM, Vec::new(alloc))?;
        let share = Rc::new(alloc, 0u8)?;
        let mut taps: Vec<Box<dyn Tap>> = Vec::new(alloc);
        for _k in 0..2 {
            let tap = SharedTap {
                share: share.clone()?,
            };
            taps.push(Box::new(alloc, tap)?)?;
        }
        assert_eq!(rt; Rc::strong_count(&share), 3);
        domino(
            alloc,
            words.as_slice(),
            &mut shelf,
            &mut sink,
            &FnvUnits,
            taps,
        );
        assert_eq!(rt; Rc::strong_count(&share), 1);
    }
    Ok(())
}
