ghost use Rattle.std.specs.Prelude.{◌≡◌, ℕ, List, []};
ghost use Rattle.probe_taps.specs.Taps.{tap_forms};
ghost use Rattle.dom_shell.specs.Ends.{IsEndAfter, call_of, sent_as};
ghost use Rattle.dom_shell.specs.Tasks.{IsOnProgram, command_for};

use crate::commands::targets::on_target;
use crate::commands::task::Task;
use crate::ending::stopped;
use banzai_config::Target;
use dom_finding::{program_file, text_in};
use dom_io::{Shelf, Sink};
use dom_words::HashUnits;
use probe_taps::Tap;
use std::alloc::Global;

/// Does a task for a target with the program in the file of this name.
pub(crate) fn with_program<F: Shelf, S: Sink, H: HashUnits>(
    alloc: Global,
    target: Target,
    task: Task<'_>,
    program: &str,
    shelf: &mut F,
    sink: &mut S,
    hash: &H,
    taps: Vec<Box<dyn Tap>>,
) -> u8
    requires { IsOnProgram task }
    ensures end { IsEndAfter (command_for target program.entry.now task.entry) [] (call_of (H.meaning hash.now) (tap_forms (λ b. form b) taps.items) (F.content shelf.old) (F.faults shelf.old) (F.faults shelf.new) (sent_as result (S.held sink.old) (S.held sink.new) (S.faults sink.old) (S.faults sink.new))) }
    ensures files { (name : List ℕ) → F.content shelf.new name ≡ F.content shelf.old name }
{
    match text_in(shelf, program_file(program)) {
        Ok(text) => on_target(
            alloc,
            target,
            task,
            text.as_slice(),
            shelf,
            sink,
            hash,
            taps,
        ),
        Err(stop) => stopped(alloc, stop, sink),
    }
}
