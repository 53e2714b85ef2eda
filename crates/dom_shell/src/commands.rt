mod clock;
mod compile;
mod config;
mod elastic;
mod over;
mod plans;
mod probe;
mod program;
mod run;
mod schedule;
mod selfrun;
mod serial;
mod targets;
mod task;
mod upgrade;

ghost use Rattle.std.specs.Prelude.{◌≡◌, ℕ, List, []};
ghost use Rattle.probe_taps.specs.Taps.{tap_forms};
ghost use Rattle.dom_finding.specs.CommandForm.{command_in};
ghost use Rattle.dom_shell.specs.Ends.{IsEndAfter, call_of, sent_as};

use crate::commands::config::with_config;
use crate::commands::elastic::elastic;
use crate::commands::program::with_program;
use crate::commands::serial::serial;
use crate::commands::targets::on_target;
use crate::commands::task::{ConfigTask, Task};
use crate::commands::upgrade::upgrade;
use dom_finding::{Command, own_program};
use dom_io::{Shelf, Sink};
use dom_words::HashUnits;
use probe_taps::Tap;
use std::alloc::Global;

/// Does what a command asks for, and answers the status of the call.
pub(crate) fn perform<F: Shelf, S: Sink, H: HashUnits>(
    alloc: Global,
    command: Command<'_>,
    shelf: &mut F,
    sink: &mut S,
    hash: &H,
    taps: Vec<Box<dyn Tap>>,
) -> u8
    ensures end { IsEndAfter (command_in command.entry) [] (call_of (H.meaning hash.now) (tap_forms (λ b. form b) taps.items) (F.content shelf.old) (F.faults shelf.old) (F.faults shelf.new) (sent_as result (S.held sink.old) (S.held sink.new) (S.faults sink.old) (S.faults sink.new))) }
    ensures files { (name : List ℕ) → F.content shelf.new name ≡ F.content shelf.old name }
{
    match command {
        Command::Run { target, files } => {
            let task = Task::Run(files.trace);
            with_program(alloc, target, task, files.program, shelf, sink, hash, taps)
        }
        Command::Serial(files) => serial(alloc, files, shelf, sink, hash),
        Command::Compile { target, program } => {
            with_program(
                alloc,
                target,
                Task::Compile,
                program,
                shelf,
                sink,
                hash,
                taps,
            )
        }
        Command::Codelets { target, program } => {
            let task = Task::Codelets;
            with_program(alloc, target, task, program, shelf, sink, hash, taps)
        }
        Command::Planned {
            target,
            program,
            plan,
        } => {
            let task = Task::Planned(plan);
            with_program(alloc, target, task, program, shelf, sink, hash, taps)
        }
        Command::SelfRun {
            target,
            seed,
            count,
        } => {
            let task = Task::SelfRun { seed, count };
            let text = own_program(target).as_bytes();
            on_target(alloc, target, task, text, shelf, sink, hash, taps)
        }
        Command::Exec(files) => {
            with_config(alloc, ConfigTask::Exec, files, shelf, sink, hash, taps)
        }
        Command::Watch(files) => {
            with_config(alloc, ConfigTask::Watch, files, shelf, sink, hash, taps)
        }
        Command::Probe { files, stage } => {
            let what = ConfigTask::Probe(stage);
            with_config(alloc, what, files, shelf, sink, hash, taps)
        }
        Command::Schedule { files, ranking } => {
            let what = ConfigTask::Schedule(ranking);
            with_config(alloc, what, files, shelf, sink, hash, taps)
        }
        Command::Elastic { files, events } => {
            elastic(alloc, files, events, shelf, sink, hash, taps)
        }
        Command::Upgrade(config) => upgrade(alloc, config, shelf, sink, hash, taps),
    }
}
