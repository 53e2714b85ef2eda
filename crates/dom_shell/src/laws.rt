//! What holds of every call.

ghost use Rattle.std.specs.Prelude.{◌≡◌, ◌<◌, ℕ, List, Ok, Option, length, map};
ghost use Rattle.banzai_config.specs.Action.{Entry};
ghost use Rattle.banzai_config.specs.Legal.{LegalFor, Shape};
ghost use Rattle.banzai_config.specs.Parts.{PartsForm};
ghost use Rattle.banzai_config.specs.Targets.{shape_of};
ghost use Rattle.banzai_config.specs.declared.target.Target.{Target};
ghost use Rattle.banzai_config.specs.declared.parts.Version.TheVariants.{One};
ghost use Rattle.banzai_machine.specs.Alone.{packets_of};
ghost use Rattle.config_text.specs.Fronts.{text_of};
ghost use Rattle.dom_ast.specs.Resolved.{CheckedForm};
ghost use Rattle.dom_compile.specs.Answer.{IsCompileAnswer};
ghost use Rattle.dom_compile.specs.Programs.{IsWellFormed};
ghost use Rattle.dom_compile.specs.Runs.{AreFull};
ghost use Rattle.dom_finding.specs.Configs.{IsConfig, config_form};
ghost use Rattle.dom_finding.specs.Finding.{Packets, most_config};
ghost use Rattle.dom_io.specs.Causes.{Rose};
ghost use Rattle.dom_words.specs.State.{Hash, IsSmallHash};
ghost use Rattle.probe_taps.specs.Taps.{TapForm};
ghost use Rattle.trace_text.specs.Trace.{entries};
ghost use Rattle.dom_shell.specs.Call.{IsResult, IsUnread};
ghost use Rattle.dom_shell.specs.ExecIsRun.{HoldsCompiled, exec_words, run_words};
ghost use Rattle.container_plan.specs.Shared.{shared};
ghost use Rattle.dom_shell.specs.PlannedRuns.{IsPlanned};
ghost use Rattle.dom_shell.specs.QueuesAreSerial.{IsSerialBehind, IsSerialInQueues};
ghost use Rattle.dom_shell.specs.RunIsSerial.{IsSerialMoment, IsSerialRun};
ghost use Rattle.trace_text.specs.declared.events.Event.{Event};
ghost use Rattle.dom_shell.specs.SharedRuns.{AreWhole, RunsAlike};

/// Words, told files and taps have one status and one text.
pub fn one_result()
    ensures { (hash : Hash) (taps : List TapForm) (files : List ℕ → Option (List ℕ)) (words : List (List ℕ)) (status other : ℕ) (bytes others : List ℕ) → IsResult hash taps words files status bytes → IsResult hash taps words files other others → (status ≡ other) × (bytes ≡ others) }
{}

/// Where a shelf's counts of faults are 0 before and after, no file was unread (`reads`); where a sink's count is, it did not
/// rise (`writes`). So a call over a `CleanShelf` and a `CleanSink`, whose counts are 0 at all times, answers neither 4 nor 5
/// (`read_fault` and `write_fault` of `domino`).
pub fn call_without_faults()
    ensures reads { (words : List (List ℕ)) (files : List ℕ → Option (List ℕ)) → IsUnread words files (λ name. 0) (λ name. 0) → ⊥ }
    ensures writes { Rose 0 0 → ⊥ }
{}

/// What `run` puts is the program run serially: for every program that has a configuration for a target, clocked over any list
/// of packets and idle cycles and the drain, each packet leaves as many cycles after it entered as there are stages, as the
/// program makes it when it runs on one packet after another, and so do the words that stay in the arrays (`run`). The packets
/// among the entries of a trace are the trace's packets (`trace`).
pub fn run_is_serial()
    ensures run { (s : Shape) (text : List ℕ) (program : CheckedForm) (parts : PartsForm) → IsWellFormed text program → IsCompileAnswer s text (Ok parts) → (hash : Hash) (cycles : List Entry) → IsSmallHash hash → AreFull program (packets_of cycles) → IsSerialRun hash program parts cycles }
    ensures trace { (packets : Packets) → packets_of (entries packets) ≡ map (λ p. p.1) packets }
{}

/// And so at every moment, drained or not: the arrays of each stage are those that the program leaves when it runs on the
/// packets that have passed the stage, one after another.
pub fn each_moment_is_serial()
    ensures { (s : Shape) (text : List ℕ) (program : CheckedForm) (parts : PartsForm) → IsWellFormed text program → IsCompileAnswer s text (Ok parts) → (hash : Hash) (entries : List Entry) → IsSmallHash hash → AreFull program (packets_of entries) → IsSerialMoment hash program parts entries }
{}

/// What `elastic` puts of a compiled configuration is the program run serially, whatever the events: the packets of its lines are
/// the first of what the program makes of those that came in, when it runs on one after another; where no packet is held, they
/// are all, and the arrays are as the program leaves them.
pub fn queues_are_serial()
    ensures { (s : Shape) (text : List ℕ) (program : CheckedForm) (parts : PartsForm) → IsWellFormed text program → IsCompileAnswer s text (Ok parts) → (hash : Hash) (most : ℕ) (packets : List (List ℕ)) (events : List Event) → IsSmallHash hash → AreFull program packets → IsSerialInQueues hash most program parts packets events }
{}

/// What `schedule` ranks of a compiled configuration are the packets of the program run serially, each as many cycles after it
/// entered as there are stages, however many idle cycles follow the drain.
pub fn ranked_is_serial()
    ensures { (s : Shape) (text : List ℕ) (program : CheckedForm) (parts : PartsForm) → IsWellFormed text program → IsCompileAnswer s text (Ok parts) → (hash : Hash) (entries : List Entry) (more : ℕ) → IsSmallHash hash → AreFull program (packets_of entries) → IsSerialBehind hash program parts entries more }
{}

/// A configuration by a plan is the program run serially, as one that `compile` puts is: over any list of packets and idle cycles
/// and the drain (`run`), and at every moment (`moment`).
pub fn planned_is_serial()
    ensures run { (s : Shape) (text : List ℕ) (program : CheckedForm) (parts : PartsForm) → IsWellFormed text program → IsPlanned s text parts → (hash : Hash) (cycles : List Entry) → IsSmallHash hash → AreFull program (packets_of cycles) → IsSerialRun hash program parts cycles }
    ensures moment { (s : Shape) (text : List ℕ) (program : CheckedForm) (parts : PartsForm) → IsWellFormed text program → IsPlanned s text parts → (hash : Hash) (entries : List Entry) → IsSmallHash hash → AreFull program (packets_of entries) → IsSerialMoment hash program parts entries }
{}

/// What `compile` gives of a text is its configuration by the plan of the list schedule, which is lawful.
pub fn compiled_is_planned()
    ensures { (s : Shape) (text : List ℕ) (parts : PartsForm) → IsCompileAnswer s text (Ok parts) → IsPlanned s text parts }
{}

/// The text that `compile` puts for a program and a target is that of a configuration which is legal for this target
/// (`config`), and shorter than a configuration may be (`short`).
pub fn compiled_text_is_a_configuration()
    ensures config { (target : Target) (text : List ℕ) (parts : PartsForm) → IsCompileAnswer (shape_of target) text (Ok parts) → IsConfig (text_of target parts) (Ok (config_form target parts)) }
    ensures short { (target : Target) (text : List ℕ) (parts : PartsForm) → IsCompileAnswer (shape_of target) text (Ok parts) → length (text_of target parts) < most_config }
{}

/// `exec` on the text that `compile` put is `run`: where a file holds what `compile TARGET PROGRAM` puts with status 0,
/// `exec` on this file and a trace answers what `run TARGET PROGRAM` with the trace answers, with the same status and the
/// same bytes (`exec`), and nothing else (`run`). No limit and no rule of `exec` comes between.
pub fn exec_is_run()
    ensures exec { (hash : Hash) (taps : List TapForm) (files : List ℕ → Option (List ℕ)) (target : Target) (program config trace : List ℕ) → HoldsCompiled hash files target program config → (status : ℕ) (bytes : List ℕ) → IsResult hash taps (run_words target program trace) files status bytes → IsResult hash taps (exec_words config trace) files status bytes }
    ensures run { (hash : Hash) (taps : List TapForm) (files : List ℕ → Option (List ℕ)) (target : Target) (program config trace : List ℕ) → HoldsCompiled hash files target program config → (status : ℕ) (bytes : List ℕ) → IsResult hash taps (exec_words config trace) files status bytes → IsResult hash taps (run_words target program trace) files status bytes }
{}

/// A configuration of version one runs with shared containers, as `upgrade` puts it, as it runs without: over every list of
/// packets and idle cycles and the drain the same packets leave in the same cycles, the same words stay in the arrays, and
/// `exec` puts the same report.
pub fn upgraded_runs_alike()
    ensures { (s : Shape) (p : PartsForm) → LegalFor s p → LegalFor s (shared p) → p.version ≡ One → (hash : Hash) (entries : List Entry) → AreWhole p entries → RunsAlike hash p (shared p) entries }
{}
