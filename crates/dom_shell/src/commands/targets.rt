ghost use Rattle.std.specs.Prelude.{◌≡◌, ℕ, ◌≤◌, List};
ghost use Rattle.banzai_config.specs.Checked.{shape_with};
ghost use Rattle.banzai_config.specs.Targets.{shape_of, template_fits};
ghost use Rattle.probe_taps.specs.Taps.{tap_forms};
ghost use Rattle.dom_shell.specs.Ends.{IsEndAfter, call_of, sent_as};
ghost use Rattle.dom_shell.specs.Tasks.{IsReadFor, command_for, texts_for};

use crate::commands::compile::compile_on;
use crate::commands::elastic::elastic_on;
use crate::commands::over::over_on;
use crate::commands::plans::{codelets_on, planned_on};
use crate::commands::run::run_on;
use crate::commands::selfrun::selfrun_on;
use crate::commands::task::Task;
use crate::commands::upgrade::upgrade_on;
use atom_traits::{AtomTemplate, IfElse, Nested, Pairs, Praw, Raw, Sub, Write};
use banzai_config::{Geometry, Target, Template};
use dom_io::{Shelf, Sink};
use dom_words::HashUnits;
use probe_taps::Tap;
use std::alloc::Global;

/// Does a task for a target, with the text of the first file or of the command's own program: the one place in which a target chooses the types and numbers of
/// what is done for it.
pub(crate) fn on_target<F: Shelf, S: Sink, H: HashUnits>(
    alloc: Global,
    target: Target,
    task: Task<'_>,
    text: &[u8],
    shelf: &mut F,
    sink: &mut S,
    hash: &H,
    taps: Vec<Box<dyn Tap>>,
) -> u8
    requires { IsReadFor target task text.now }
    ensures end { (name : List ℕ) → IsEndAfter (command_for target name task.entry) (texts_for task.entry text.now) (call_of (H.meaning hash.now) (tap_forms (λ b. form b) taps.items) (F.content shelf.old) (F.faults shelf.old) (F.faults shelf.new) (sent_as result (S.held sink.old) (S.held sink.new) (S.faults sink.old) (S.faults sink.new))) }
    ensures files { (name : List ℕ) → F.content shelf.new name ≡ F.content shelf.old name }
{
    match target.geometry {
        Geometry::Small => on_template::<5, 4, 4, 1, false, F, S, H>(
            alloc, target, task, text, shelf, sink, hash, taps,
        ),
        Geometry::Medium => on_template::<16, 12, 16, 4, false, F, S, H>(
            alloc, target, task, text, shelf, sink, hash, taps,
        ),
        Geometry::Large => on_template::<32, 32, 300, 10, true, F, S, H>(
            alloc, target, task, text, shelf, sink, hash, taps,
        ),
    }
}

// The same for the numbers of a geometry.
fn on_template<
    const K: u32,
    const DEPTH: usize,
    const SL: usize,
    const SF: usize,
    const MUL: bool,
    F: Shelf,
    S: Sink,
    H: HashUnits,
>(
    alloc: Global,
    target: Target,
    task: Task<'_>,
    text: &[u8],
    shelf: &mut F,
    sink: &mut S,
    hash: &H,
    taps: Vec<Box<dyn Tap>>,
) -> u8
    requires text { IsReadFor target task text.now }
    requires depth { (1 ≤ DEPTH) × (DEPTH ≤ 65535) }
    requires stateless { (1 ≤ SL) × (SL ≤ 65535) }
    requires stateful { (1 ≤ SF) × (SF ≤ 65535) }
    requires shape { shape_of target ≡ shape_with (template_fits target.template K) K DEPTH SL SF MUL }
    ensures end { (name : List ℕ) → IsEndAfter (command_for target name task.entry) (texts_for task.entry text.now) (call_of (H.meaning hash.now) (tap_forms (λ b. form b) taps.items) (F.content shelf.old) (F.faults shelf.old) (F.faults shelf.new) (sent_as result (S.held sink.old) (S.held sink.new) (S.faults sink.old) (S.faults sink.new))) }
    ensures files { (name : List ℕ) → F.content shelf.new name ≡ F.content shelf.old name }
{
    match target.template {
        Template::Write => perform_on::<Write<K>, DEPTH, SL, SF, MUL, F, S, H>(
            alloc, target, task, text, shelf, sink, hash, taps,
        ),
        Template::Raw => perform_on::<Raw<K>, DEPTH, SL, SF, MUL, F, S, H>(
            alloc, target, task, text, shelf, sink, hash, taps,
        ),
        Template::Praw => perform_on::<Praw<K>, DEPTH, SL, SF, MUL, F, S, H>(
            alloc, target, task, text, shelf, sink, hash, taps,
        ),
        Template::IfElse => perform_on::<IfElse<K>, DEPTH, SL, SF, MUL, F, S, H>(
            alloc, target, task, text, shelf, sink, hash, taps,
        ),
        Template::Sub => perform_on::<Sub<K>, DEPTH, SL, SF, MUL, F, S, H>(
            alloc, target, task, text, shelf, sink, hash, taps,
        ),
        Template::Nested => perform_on::<Nested<K>, DEPTH, SL, SF, MUL, F, S, H>(
            alloc, target, task, text, shelf, sink, hash, taps,
        ),
        Template::Pairs => perform_on::<Pairs<K>, DEPTH, SL, SF, MUL, F, S, H>(
            alloc, target, task, text, shelf, sink, hash, taps,
        ),
    }
}

// The same for a template with these numbers.
fn perform_on<
    T: AtomTemplate,
    const DEPTH: usize,
    const SL: usize,
    const SF: usize,
    const MUL: bool,
    F: Shelf,
    S: Sink,
    H: HashUnits,
>(
    alloc: Global,
    target: Target,
    task: Task<'_>,
    text: &[u8],
    shelf: &mut F,
    sink: &mut S,
    hash: &H,
    taps: Vec<Box<dyn Tap>>,
) -> u8
    requires text { IsReadFor target task text.now }
    requires depth { (1 ≤ DEPTH) × (DEPTH ≤ 65535) }
    requires stateless { (1 ≤ SL) × (SL ≤ 65535) }
    requires stateful { (1 ≤ SF) × (SF ≤ 65535) }
    requires shape { shape_of target ≡ shape_with T.fits T.CONST_BITS DEPTH SL SF MUL }
    ensures end { (name : List ℕ) → IsEndAfter (command_for target name task.entry) (texts_for task.entry text.now) (call_of (H.meaning hash.now) (tap_forms (λ b. form b) taps.items) (F.content shelf.old) (F.faults shelf.old) (F.faults shelf.new) (sent_as result (S.held sink.old) (S.held sink.new) (S.faults sink.old) (S.faults sink.new))) }
    ensures files { (name : List ℕ) → F.content shelf.new name ≡ F.content shelf.old name }
{
    match task {
        Task::Compile => compile_on::<T, DEPTH, SL, SF, MUL, S>(alloc, target, text, sink),
        Task::Run(trace) => run_on::<T, DEPTH, SL, SF, MUL, F, S, H>(
            alloc, target, text, trace, shelf, sink, hash,
        ),
        Task::Codelets => { codelets_on::<T, DEPTH, SL, SF, MUL, S>(alloc, target, text, sink) }
        Task::Planned(plan) => planned_on::<T, DEPTH, SL, SF, MUL, F, S>(
            alloc, target, text, plan, shelf, sink,
        ),
        Task::SelfRun { seed, count } => selfrun_on::<T, DEPTH, SL, SF, MUL, S, H>(
            alloc, target, seed, count, text, sink, hash,
        ),
        Task::Upgrade(parts) => {
            upgrade_on::<T, DEPTH, SL, SF, MUL, S>(alloc, target, parts, sink)
        }
        Task::Elastic {
            parts,
            trace,
            events,
        } => elastic_on::<T, DEPTH, SL, SF, MUL, F, S, H>(
            alloc, target, parts, trace, events, shelf, sink, hash,
        ),
        Task::Config { what, parts, trace } => over_on::<T, DEPTH, SL, SF, MUL, F, S, H>(
            alloc, target, what, parts, trace, shelf, sink, hash, taps,
        ),
    }
}
