//! What holds of the cycles that are told, and of a run under taps.

ghost use Rattle.std.specs.Prelude.{◌≡◌, ℕ, List, [], Some, length, slice_get};
ghost use Rattle.banzai_config.specs.Action.{Entry};
ghost use Rattle.banzai_config.specs.Parts.{PartsForm};
ghost use Rattle.banzai_machine.specs.Own.{OwnArrays};
ghost use Rattle.dom_report.specs.Clocking.{Cycle, cycles_from};
ghost use Rattle.dom_report.specs.ElasticLaw.{IsOfQueues};
ghost use Rattle.dom_report.specs.ProbeReport.{probe_report};
ghost use Rattle.dom_report.specs.RunReport.{run_report};
ghost use Rattle.dom_report.specs.WatchReport.{IsCycleOf, at_beginning};
ghost use Rattle.dom_words.specs.State.{Hash};
ghost use Rattle.trace_text.specs.declared.events.Event.{Event};

/// The cycles of which the report of `watch` tells are those of the pipeline: there is one for each entry (`count`), and cycle
/// k shows what the pipeline emits in it, and the machine that stands at the entries up to and with its own (`each`).
pub fn watched_cycles_are_the_pipeline()
    ensures count { (hash : Hash) (p : PartsForm) (entries : List Entry) → length (cycles_from hash (at_beginning hash p) 0 entries) ≡ length entries }
    ensures each { (hash : Hash) (p : PartsForm) (entries : List Entry) (k : ℕ) (cycle : Cycle) → slice_get (cycles_from hash (at_beginning hash p) 0 entries) k ≡ Some cycle → IsCycleOf hash p entries k cycle }
{}

/// The report of a run under no taps is the report of the run.
pub fn no_taps_change_nothing()
    ensures { (hash : Hash) (p : PartsForm) (entries : List Entry) → probe_report hash [] p entries ≡ run_report hash p entries }
{}

/// The report of `elastic` is one of queues, whatever the events: the packets of its lines are those that leave the queues with the
/// events that were asked, the first of what the packets that came in come out as, one after another; the others of the trace still
/// wait, in order. Where no packet is held, all have left, and every array is as they leave it.
pub fn elastic_report_is_of_queues()
    ensures { (hash : Hash) (most : ℕ) (p : PartsForm) (packets : List (List ℕ)) (events : List Event) → OwnArrays p.stages → IsOfQueues hash most p packets events }
{}
