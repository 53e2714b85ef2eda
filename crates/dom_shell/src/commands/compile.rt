ghost use Rattle.std.specs.Prelude.{◌≡◌, ℕ, ◌≤◌, List, [], ◌∷◌, Option, IfOk, IfErr, Ok, length};
ghost use Rattle.dom_words.specs.State.{Hash};
ghost use Rattle.banzai_config.specs.Checked.{shape_with};
ghost use Rattle.banzai_config.specs.Parts.{PartsForm};
ghost use Rattle.banzai_config.specs.Targets.{shape_of};
ghost use Rattle.config_text.specs.Fronts.{text_of};
ghost use Rattle.dom_compile.specs.Answer.{IsCompileAnswer};
ghost use Rattle.dom_finding.specs.Command.{compile as compile_of};
ghost use Rattle.dom_finding.specs.Refusals.{refused_compile};
ghost use Rattle.dom_finding.specs.Stops.{TextStop};
ghost use Rattle.probe_taps.specs.Taps.{TapForm};
ghost use Rattle.dom_shell.specs.Ends.{IsEndAfter, call_of, sent_as};

use crate::ending::{status_of, stopped};
use atom_traits::AtomTemplate;
use banzai_config::Target;
use config_text::write_config;
use dom_finding::{Stop, compile_stop};
use dom_io::Sink;
use dom_report::put_text;
use std::alloc::Global;

/// Compiles a program with this text for a target with these numbers, and puts its configuration.
pub(crate) fn compile_on<
    T: AtomTemplate,
    const DEPTH: usize,
    const SL: usize,
    const SF: usize,
    const MUL: bool,
    S: Sink,
>(alloc: Global, target: Target, text: &[u8], sink: &mut S) -> u8
    requires text { length text.now ≤ 65536 }
    requires depth { (1 ≤ DEPTH) × (DEPTH ≤ 65535) }
    requires stateless { (1 ≤ SL) × (SL ≤ 65535) }
    requires stateful { (1 ≤ SF) × (SF ≤ 65535) }
    requires shape { shape_of target ≡ shape_with T.fits T.CONST_BITS DEPTH SL SF MUL }
    ensures { (name : List ℕ) (hash : Hash) (taps : List TapForm) (files : List ℕ → Option (List ℕ)) (unread : List ℕ → ℕ) → IsEndAfter (compile_of target name) (text.now ∷ []) (call_of hash taps files unread unread (sent_as result (S.held sink.old) (S.held sink.new) (S.faults sink.old) (S.faults sink.new))) }
{
    match configured::<T, DEPTH, SL, SF, MUL>(alloc, target, text) {
        Ok(written) => status_of(put_text(written.as_slice(), sink)),
        Err(stop) => stopped(alloc, stop, sink),
    }
}

// The text of the configuration of a program with this text.
fn configured<
    T: AtomTemplate,
    const DEPTH: usize,
    const SL: usize,
    const SF: usize,
    const MUL: bool,
>(alloc: Global, target: Target, text: &[u8]) -> Result<Vec<u8>, Stop>
    requires text { length text.now ≤ 65536 }
    requires depth { (1 ≤ DEPTH) × (DEPTH ≤ 65535) }
    requires stateless { (1 ≤ SL) × (SL ≤ 65535) }
    requires stateful { (1 ≤ SF) × (SF ≤ 65535) }
    requires shape { shape_of target ≡ shape_with T.fits T.CONST_BITS DEPTH SL SF MUL }
    ensures written { IfOk result (λ written. (parts : PartsForm) × IsCompileAnswer (shape_of target) text.now (Ok parts) × (written.items ≡ text_of target parts)) }
    ensures stop { IfErr result (TextStop (IsCompileAnswer (shape_of target) text.now) refused_compile) }
{
    match dom_compile::compile::<T, DEPTH, SL, SF, MUL>(alloc, text) {
        Ok(config) => Ok(write_config(alloc, &config, target)?),
        Err(fault) => Err(compile_stop(fault)),
    }
}
