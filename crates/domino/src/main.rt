//! The program `domino`: the words of the command line, the files of the disk and standard output, handed to the top call.
#![tactic(auto)]

use dom_io::{DiskShelf, OutSink};
use dom_shell::domino;
use dom_words::FnvUnits;
use probe_taps::{CountTap, Tap};
use std::process::ExitCode;
use std::{env, io};

const NO_MEMORY: u8 = 6;

// Why the words of the command line could not be had: they are not text, or memory is wanting.
#[derive(Clone, Copy, Debug)]
enum NoWords {
    Unreadable,
    Memory,
}

// The words after the program's own name.
fn words(rt: &HostRuntime) -> Result<Vec<String>, NoWords> {
    let mut words = Vec::new(rt.alloc());
    for word in env::args(rt).map_err(reason)?.skip(1) {
        words.push(word).map_err(|_| NoWords::Memory)?;
    }
    Ok(words)
}

fn reason(error: io::Error) -> NoWords {
    if error.kind() == io::ErrorKind::OutOfMemory {
        NoWords::Memory
    } else {
        NoWords::Unreadable
    }
}

fn main(rt: HostRuntime) -> ExitCode {
    let mut shelf = DiskShelf::new(&rt, rt.alloc());
    let mut sink = OutSink::new(io::writer(&rt));
    let words = match words(&rt) {
        Ok(words) => words,
        Err(NoWords::Unreadable) => Vec::new(rt.alloc()),
        Err(NoWords::Memory) => return ExitCode::from(NO_MEMORY),
    };
    let Ok(tap) = Box::new(rt.alloc(), CountTap::new()) else {
        return ExitCode::from(NO_MEMORY);
    };
    let mut taps: Vec<Box<dyn Tap>> = Vec::new(rt.alloc());
    if taps.push(tap).is_err() {
        return ExitCode::from(NO_MEMORY);
    }
    ExitCode::from(domino(
        rt.alloc(),
        words.as_slice(),
        &mut shelf,
        &mut sink,
        &FnvUnits,
        taps,
    ))
}
