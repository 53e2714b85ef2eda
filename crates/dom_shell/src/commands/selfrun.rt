ghost use Rattle.std.specs.Prelude.{◌≡◌, ℕ, ◌≤◌, true, List, [], Option, IfOk, IfErr, Ok, length};
ghost use Rattle.banzai_config.specs.Checked.{shape_with};
ghost use Rattle.banzai_config.specs.Legal.{LegalFor};
ghost use Rattle.banzai_config.specs.Parts.{PartsForm};
ghost use Rattle.banzai_config.specs.Targets.{shape_of};
ghost use Rattle.dom_compile.specs.Answer.{IsCompileAnswer};
ghost use Rattle.dom_finding.specs.Command.{selfrun as selfrun_of};
ghost use Rattle.dom_finding.specs.OwnProgram.{own_program};
ghost use Rattle.dom_finding.specs.Refusals.{refused_compile};
ghost use Rattle.dom_finding.specs.Stops.{TextStop};
ghost use Rattle.dom_report.specs.SelfRun.{drawn, selfrun_report, summary_over};
ghost use Rattle.probe_taps.specs.Taps.{TapForm};
ghost use Rattle.dom_shell.specs.Ends.{IsEndAfter, call_of, sent_as};

use crate::ending::{status_of, stopped};
use atom_traits::AtomTemplate;
use banzai_config::{Config, Target};
use banzai_machine::Machine;
use dom_finding::{Stop, compile_stop};
use dom_io::Sink;
use dom_report::{Summary, put_text, run_drawn, summary_text};
use dom_words::{HashUnits, Memory, Packet};
use std::alloc::Global;

/// Compiles the command's own program, which has this text, for a target with these numbers, clocks the configuration over so
/// many packets, drawn from the seed, and puts what that comes to.
pub(crate) fn selfrun_on<
    T: AtomTemplate,
    const DEPTH: usize,
    const SL: usize,
    const SF: usize,
    const MUL: bool,
    S: Sink,
    H: HashUnits,
>(alloc: Global, target: Target, seed: u32, count: u32, text: &[u8], sink: &mut S, hash: &H) -> u8
    requires text { text.now ≡ own_program target }
    requires few { length text.now ≤ 65536 }
    requires depth { (1 ≤ DEPTH) × (DEPTH ≤ 65535) }
    requires stateless { (1 ≤ SL) × (SL ≤ 65535) }
    requires stateful { (1 ≤ SF) × (SF ≤ 65535) }
    requires shape { shape_of target ≡ shape_with T.fits T.CONST_BITS DEPTH SL SF MUL }
    ensures { (taps : List TapForm) (files : List ℕ → Option (List ℕ)) (unread : List ℕ → ℕ) → IsEndAfter (selfrun_of target seed count) [] (call_of (H.meaning hash.now) taps files unread unread (sent_as result (S.held sink.old) (S.held sink.new) (S.faults sink.old) (S.faults sink.new))) }
{
    match summed::<T, DEPTH, SL, SF, MUL, H>(alloc, target, seed, count, text, hash) {
        Ok(written) => status_of(put_text(written.as_slice(), sink)),
        Err(stop) => stopped(alloc, stop, sink),
    }
}

// The text of what the run of the program with this text comes to.
fn summed<
    T: AtomTemplate,
    const DEPTH: usize,
    const SL: usize,
    const SF: usize,
    const MUL: bool,
    H: HashUnits,
>(
    alloc: Global,
    target: Target,
    seed: u32,
    count: u32,
    text: &[u8],
    hash: &H,
) -> Result<Vec<u8>, Stop>
    requires text { length text.now ≤ 65536 }
    requires depth { (1 ≤ DEPTH) × (DEPTH ≤ 65535) }
    requires stateless { (1 ≤ SL) × (SL ≤ 65535) }
    requires stateful { (1 ≤ SF) × (SF ≤ 65535) }
    requires shape { shape_of target ≡ shape_with T.fits T.CONST_BITS DEPTH SL SF MUL }
    ensures written { IfOk result (λ written. (parts : PartsForm) × IsCompileAnswer (shape_of target) text.now (Ok parts) × (written.items ≡ selfrun_report (H.meaning hash.now) target seed count parts)) }
    ensures stop { IfErr result (TextStop (IsCompileAnswer (shape_of target) text.now) refused_compile) }
{
    let config = match dom_compile::compile::<T, DEPTH, SL, SF, MUL>(alloc, text) {
        Ok(config) => config,
        Err(fault) => return Err(compile_stop(fault)),
    };
    let summary = clocked::<T, DEPTH, SL, SF, H>(alloc, config, seed, count, hash)?;
    Ok(summary_text(alloc, target, seed, count, summary)?)
}

// What a run of this configuration comes to.
fn clocked<T: AtomTemplate, const DEPTH: usize, const SL: usize, const SF: usize, H: HashUnits>(
    alloc: Global,
    config: Config<T>,
    seed: u32,
    count: u32,
    hash: &H,
) -> Result<Summary, Memory>
    requires depth { (1 ≤ DEPTH) × (DEPTH ≤ 65535) }
    requires stages { length config.stages ≡ DEPTH }
    requires legal { LegalFor (shape_with T.fits T.CONST_BITS DEPTH SL SF true) config }
    ensures { IfOk result (λ summary. summary ≡ summary_over (H.meaning hash.now) config (drawn (length config.fields) seed count)) }
{
    let fields = config.fields().len();
    let mut entering = Packet::zeros(alloc, fields)?;
    let mut leaving = Packet::zeros(alloc, fields)?;
    let mut machine = Machine::<T, DEPTH, SL, SF>::new(alloc, config)?;
    Ok(run_drawn(&mut machine, seed, count, hash, &mut entering, &mut leaving))
}
