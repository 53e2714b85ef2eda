ghost use Rattle.std.specs.Prelude.{◌≡◌, ℕ, List, []};
ghost use Rattle.probe_taps.specs.Taps.{tap_forms};
ghost use Rattle.dom_finding.specs.CommandForm.{configs_in};
ghost use Rattle.dom_shell.specs.Ends.{IsEndAfter, call_of, sent_as};
ghost use Rattle.dom_shell.specs.Tasks.{command_over};

use crate::commands::targets::on_target;
use crate::commands::task::{ConfigTask, Task};
use crate::ending::stopped;
use dom_finding::{ConfigFiles, config_file, parts_in, text_in};
use dom_io::{Shelf, Sink};
use dom_words::HashUnits;
use probe_taps::Tap;
use std::alloc::Global;

/// Clocks the configuration in one file over the trace in another.
pub(crate) fn with_config<F: Shelf, S: Sink, H: HashUnits>(
    alloc: Global,
    what: ConfigTask<'_>,
    files: ConfigFiles<'_>,
    shelf: &mut F,
    sink: &mut S,
    hash: &H,
    taps: Vec<Box<dyn Tap>>,
) -> u8
    ensures end { IsEndAfter (command_over what.entry (configs_in files.entry)) [] (call_of (H.meaning hash.now) (tap_forms (λ b. form b) taps.items) (F.content shelf.old) (F.faults shelf.old) (F.faults shelf.new) (sent_as result (S.held sink.old) (S.held sink.new) (S.faults sink.old) (S.faults sink.new))) }
    ensures files { (name : List ℕ) → F.content shelf.new name ≡ F.content shelf.old name }
{
    let text = match text_in(shelf, config_file(files.config)) {
        Ok(text) => text,
        Err(stop) => return stopped(alloc, stop, sink),
    };
    let bytes = text.as_slice();
    match parts_in(alloc, bytes) {
        Ok((target, parts)) => {
            let task = Task::Config {
                what,
                parts,
                trace: files.trace,
            };
            on_target(alloc, target, task, bytes, shelf, sink, hash, taps)
        }
        Err(stop) => stopped(alloc, stop, sink),
    }
}
