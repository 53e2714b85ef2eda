ghost use Rattle.std.specs.Prelude.{◌≡◌, ℕ, ◌≤◌, List, [], ◌∷◌, Option, IfOk, IfErr, Ok};
ghost use Rattle.banzai_config.specs.Checked.{shape_with};
ghost use Rattle.banzai_config.specs.Parts.{parts_form};
ghost use Rattle.banzai_config.specs.Targets.{shape_of};
ghost use Rattle.probe_taps.specs.Taps.{TapForm, tap_forms};
ghost use Rattle.config_text.specs.Fronts.{TextOf};
ghost use Rattle.dom_finding.specs.Command.{upgrade as upgrade_of};
ghost use Rattle.dom_finding.specs.Configs.{ConfigForm, IsConfig};
ghost use Rattle.dom_finding.specs.Finding.{upgraded_text};
ghost use Rattle.dom_finding.specs.Refusals.{refused_config};
ghost use Rattle.dom_finding.specs.Stops.{TextStop};
ghost use Rattle.dom_shell.specs.Ends.{IsEndAfter, call_of, sent_as};
ghost use Rattle.dom_words.specs.State.{Hash};

use crate::commands::targets::on_target;
use crate::commands::task::Task;
use crate::ending::{status_of, stopped};
use atom_traits::AtomTemplate;
use banzai_config::{Config, Parts, Target};
use config_text::write_config;
use container_plan::share;
use dom_finding::{Stop, config_file, config_stop, parts_in, text_in};
use dom_io::{Shelf, Sink};
use dom_report::put_text;
use dom_words::HashUnits;
use probe_taps::Tap;
use std::alloc::Global;

/// Puts the configuration in a file with shared containers. One that shares them already is put as it is.
pub(crate) fn upgrade<F: Shelf, S: Sink, H: HashUnits>(
    alloc: Global,
    config: &str,
    shelf: &mut F,
    sink: &mut S,
    hash: &H,
    taps: Vec<Box<dyn Tap>>,
) -> u8
    ensures end { IsEndAfter (upgrade_of config.entry.now) [] (call_of (H.meaning hash.now) (tap_forms (λ b. form b) taps.items) (F.content shelf.old) (F.faults shelf.old) (F.faults shelf.new) (sent_as result (S.held sink.old) (S.held sink.new) (S.faults sink.old) (S.faults sink.new))) }
    ensures files { (name : List ℕ) → F.content shelf.new name ≡ F.content shelf.old name }
{
    let text = match text_in(shelf, config_file(config)) {
        Ok(text) => text,
        Err(stop) => return stopped(alloc, stop, sink),
    };
    let bytes = text.as_slice();
    match parts_in(alloc, bytes) {
        Ok((target, parts)) => {
            let task = Task::Upgrade(parts);
            on_target(alloc, target, task, bytes, shelf, sink, hash, taps)
        }
        Err(stop) => stopped(alloc, stop, sink),
    }
}

/// The same for parts that have been read, and a target with these numbers.
pub(crate) fn upgrade_on<
    T: AtomTemplate,
    const DEPTH: usize,
    const SL: usize,
    const SF: usize,
    const MUL: bool,
    S: Sink,
>(alloc: Global, target: Target, parts: Parts, sink: &mut S) -> u8
    requires depth { (1 ≤ DEPTH) × (DEPTH ≤ 65535) }
    requires stateless { (1 ≤ SL) × (SL ≤ 65535) }
    requires stateful { (1 ≤ SF) × (SF ≤ 65535) }
    requires shape { shape_of target ≡ shape_with T.fits T.CONST_BITS DEPTH SL SF MUL }
    ensures { (name text : List ℕ) (hash : Hash) (taps : List TapForm) (files : List ℕ → Option (List ℕ)) (unread : List ℕ → ℕ) → TextOf target (parts_form parts) text → IsEndAfter (upgrade_of name) (text ∷ []) (call_of hash taps files unread unread (sent_as result (S.held sink.old) (S.held sink.new) (S.faults sink.old) (S.faults sink.new))) }
{
    match upgraded::<T, DEPTH, SL, SF, MUL>(alloc, target, parts) {
        Ok(written) => status_of(put_text(written.as_slice(), sink)),
        Err(stop) => stopped(alloc, stop, sink),
    }
}

// The text of the configuration with these parts, if they are legal, with shared containers.
fn upgraded<T: AtomTemplate, const DEPTH: usize, const SL: usize, const SF: usize, const MUL: bool>(
    alloc: Global,
    target: Target,
    parts: Parts,
) -> Result<Vec<u8>, Stop>
    requires depth { (1 ≤ DEPTH) × (DEPTH ≤ 65535) }
    requires stateless { (1 ≤ SL) × (SL ≤ 65535) }
    requires stateful { (1 ≤ SF) × (SF ≤ 65535) }
    requires shape { shape_of target ≡ shape_with T.fits T.CONST_BITS DEPTH SL SF MUL }
    ensures written { (text : List ℕ) → TextOf target (parts_form parts) text → IfOk result (λ written. (c : ConfigForm) × IsConfig text (Ok c) × (written.items ≡ upgraded_text c)) }
    ensures stop { (text : List ℕ) → TextOf target (parts_form parts) text → IfErr result (TextStop (IsConfig text) refused_config) }
{
    match Config::<T>::checked::<DEPTH, SL, SF, MUL>(alloc, parts) {
        Ok(config) => {
            let config = share::<T, DEPTH, SL, SF, MUL>(alloc, config)?;
            Ok(write_config(alloc, &config, target)?)
        }
        Err(fault) => Err(config_stop(fault)),
    }
}
