ghost use Rattle.std.specs.Prelude.{◌≡◌, ◌<◌, ◌≤◌, ℕ, true, List, IfOk, length};
ghost use Rattle.dom_finding.specs.CommandForm.{ranking_in};
ghost use Rattle.dom_finding.specs.Finding.{ranked as job_of};
ghost use Rattle.dom_report.specs.RankedReport.{IsRankedReady};
ghost use Rattle.dom_words.specs.Names.{has_name};
ghost use Rattle.dom_words.specs.State.{Hash};
ghost use Rattle.probe_taps.specs.Taps.{TapForm};
ghost use Rattle.dom_shell.specs.Call.{field_at, report_of};
ghost use Rattle.dom_shell.specs.Ends.{IsTriedWithMemory, sent_as};
ghost use Rattle.dom_shell.specs.RunSetUp.{IsRunSetUp};

use crate::commands::clock::Prepared;
use crate::ending::{status_of, stopped};
use atom_traits::AtomTemplate;
use dom_finding::{Ranking, Stop};
use dom_io::Sink;
use dom_report::put_ranked_report;
use dom_words::{HashUnits, Memory, Packet};
use pifo_rank::Ranked;
use std::alloc::Global;
use trace_text::{Lines, Trace};

// What a run with a queue behind it needs, all of it taken before the first line is put.
#[derive(Drop)]
struct Serving<T: AtomTemplate, const DEPTH: usize, const SL: usize, const SF: usize> {
    ranked: Ranked<T, DEPTH, SL, SF>,
    lines: Lines,
    trace: Trace,
    entering: Packet,
    served: Packet,
    dropped: Packet,
}

/// Puts a queue behind the machine, and the report of the run with it. All memory is taken before the first line is put.
pub(crate) fn put_schedule<
    T: AtomTemplate,
    const DEPTH: usize,
    const SL: usize,
    const SF: usize,
    S: Sink,
    H: HashUnits,
>(
    alloc: Global,
    ranking: Ranking<'_>,
    run: Prepared<T, DEPTH, SL, SF>,
    hash: &H,
    sink: &mut S,
) -> u8
    requires set_up { IsRunSetUp run.machine run.lines run.trace run.entering run.leaving }
    requires named { has_name run.machine.config.fields ranking.field.now ≡ true }
    ensures { (taps : List TapForm) → IsTriedWithMemory 0 (report_of (H.meaning hash.now) taps (job_of (ranking_in ranking.entry) run.machine.config run.trace)) (sent_as result (S.held sink.old) (S.held sink.new) (S.faults sink.old) (S.faults sink.new)) }
{
    let every = u64::from(ranking.every);
    match with_queue(alloc, ranking, run) {
        Ok(mut serving) => status_of(put_ranked_report(
            &mut serving.ranked,
            &mut serving.lines,
            &serving.trace,
            &mut serving.entering,
            &mut serving.served,
            &mut serving.dropped,
            every,
            hash,
            sink,
        )),
        Err(Memory) => stopped(alloc, Stop::Memory, sink),
    }
}

// The same run with an empty queue behind the machine.
fn with_queue<T: AtomTemplate, const DEPTH: usize, const SL: usize, const SF: usize>(
    alloc: Global,
    ranking: Ranking<'_>,
    run: Prepared<T, DEPTH, SL, SF>,
) -> Result<Serving<T, DEPTH, SL, SF>, Memory>
    requires set_up { IsRunSetUp run.machine run.lines run.trace run.entering run.leaving }
    requires named { has_name run.machine.config.fields ranking.field.now ≡ true }
    ensures ready { (hash : Hash) → IfOk result (λ s. IsRankedReady hash s.ranked s.lines s.trace s.entering s.served s.dropped ranking.entry.every) }
    ensures config { IfOk result (λ s. s.ranked.machine.config ≡ run.machine.config) }
    ensures trace { IfOk result (λ s. s.trace ≡ run.trace) }
    ensures rank { IfOk result (λ s. s.ranked.rank ≡ field_at run.machine.config.fields ranking.entry.field.now) }
    ensures room { IfOk result (λ s. s.ranked.queue.room ≡ ranking.entry.room) }
{
    let Prepared {
        machine,
        lines,
        trace,
        entering,
        leaving,
    } = run;
    let fields = machine.config().fields();
    let Some(rank) = fields.find(ranking.field.as_bytes()) else {
        unreachable!()
    };
    let dropped = Packet::zeros(alloc, fields.len())?;
    let ranked = Ranked::new(alloc, machine, rank, ranking.room as usize)?;
    Ok(Serving {
        ranked,
        lines,
        trace,
        entering,
        served: leaving,
        dropped,
    })
}
