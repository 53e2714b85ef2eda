ghost use Rattle.std.specs.Prelude.{◌≡◌, ◌<◌, ◌≤◌, ◌^◌, IfSome, MatchResult, None, OnOk, Some, find, length, nat_le, slice_get};
ghost use Rattle.std.specs.List.{All};
ghost use Rattle.codelets.specs.Leveled.{AreLeveled};
ghost use Rattle.stage_plan.specs.Schedule.{IsPlan, atoms_at, is_kind, stage_at, stands_at, width};
ghost use Rattle.plan_check.specs.HandFaults.{early_if, first_early, first_wide, hand_fault, number_at, wide_at, wide_if};
ghost use Rattle.plan_check.specs.PlanText.{IsHandPlan};

use crate::fault::HandFault;
use crate::plan::HandPlan;
use codelets::{Codelet, Codelets, Kind};
use stage_plan::Place;

fn stage_of(places: &[Place], u: u32) -> u32
    requires { u < length places.now }
    ensures { result ≡ stage_at places.now u }
{
    places[u as usize].stage
}

fn codelet_at(codelets: &[Codelet], k: usize) -> &Codelet
    requires { k < length codelets.now }
    ensures { slice_get codelets.now k ≡ Some result.now }
{
    &codelets[k]
}

// The least statement number of the codelet at a position.
fn number_of(codelets: &[Codelet], u: u32) -> u32
    requires { u < length codelets.now }
    ensures { result ≡ number_at codelets.now u }
{
    codelets[u as usize].first
}

// The first of some codelets that stands at no earlier stage than this one.
fn first_late(places: &[Place], stage: u32, uses: &[u32]) -> Option<u32>
    requires { All (λ u. u < length places.now) uses.now }
    ensures value { result ≡ find (λ u. nat_le stage (stage_at places.now u)) uses.now }
    ensures within { IfSome result (λ u. u < length places.now) }
{
    'uses: for u in uses {
        if stage <= stage_of(places, *u) {
            return Some(*u);
        }
    }
    None
}

// The fault of the codelet at a position.
fn early_at(codelets: &[Codelet], places: &[Place], k: usize) -> Option<HandFault>
    requires within { k < length codelets.now }
    requires places { length places.now ≡ length codelets.now }
    requires few { length codelets.now ≤ 1024 }
    requires leveled { AreLeveled codelets.now }
    ensures { result ≡ early_if codelets.now places.now k (slice_get codelets.now k) }
{
    let codelet = codelet_at(codelets, k);
    match first_late(places, stage_of(places, k as u32), codelet.uses.as_slice()) {
        None => None,
        Some(used) => Some(HandFault::Early {
            codelet: codelet.first,
            used: number_of(codelets, used),
        }),
    }
}

// The first codelet that is not at a later stage than one that it uses.
fn first_early(codelets: &[Codelet], places: &[Place]) -> Option<HandFault>
    requires places { length places.now ≡ length codelets.now }
    requires few { length codelets.now ≤ 1024 }
    requires leveled { AreLeveled codelets.now }
    ensures { result ≡ first_early codelets.now places.now }
{
    'codelets: for k in 0..codelets.len() {
        match early_at(codelets, places, k) {
            None => {}
            Some(fault) => return Some(fault),
        }
    }
    None
}

fn is_of(kind: Kind, other: Kind) -> bool
    ensures { result ≡ is_kind kind other }
{
    match kind {
        Kind::Stateless => match other {
            Kind::Stateless => true,
            Kind::Stateful => false,
        },
        Kind::Stateful => match other {
            Kind::Stateless => false,
            Kind::Stateful => true,
        },
    }
}

fn stands(kind: Kind, stage: u32, place: &Place) -> bool
    ensures { result ≡ stands_at kind stage place.now }
{
    is_of(kind, place.kind) && stage == place.stage
}

// How many atoms of a kind a stage holds.
fn count(places: &[Place], kind: Kind, stage: u32) -> usize
    ensures { result ≡ atoms_at places.now kind stage }
{
    let mut count = 0;
    'places: for place in places {
        if stands(kind, stage, place) {
            count += 1;
        }
    }
    count
}

fn width_of(kind: Kind, stateless: usize, stateful: usize) -> usize
    ensures { result ≡ width stateless stateful kind }
{
    match kind {
        Kind::Stateless => stateless,
        Kind::Stateful => stateful,
    }
}

// The fault of a stage that has more atoms of a kind than its width.
fn wide(places: &[Place], kind: Kind, stage: u32, sl: usize, sf: usize) -> Option<HandFault>
    ensures { result ≡ wide_if sl sf places.now stage kind }
{
    if width_of(kind, sl, sf) < count(places, kind, stage) {
        Some(HandFault::Wide { stage, kind })
    } else {
        None
    }
}

// The fault of a stage.
fn wide_at(places: &[Place], stage: u32, sl: usize, sf: usize) -> Option<HandFault>
    ensures { result ≡ wide_at sl sf places.now stage }
{
    match wide(places, Kind::Stateless, stage, sl, sf) {
        Some(fault) => Some(fault),
        None => wide(places, Kind::Stateful, stage, sl, sf),
    }
}

// The least stage with more atoms of a kind than its width.
fn first_wide(places: &[Place], depth: u32, sl: usize, sf: usize) -> Option<HandFault>
    ensures { result ≡ first_wide depth sl sf places.now }
{
    'stages: for k in 0..depth {
        match wide_at(places, k + 1, sl, sf) {
            None => {}
            Some(fault) => return Some(fault),
        }
    }
    None
}

// Why places are no lawful plan for codelets.
fn fault(
    codelets: &[Codelet],
    places: &[Place],
    depth: u32,
    sl: usize,
    sf: usize,
) -> Option<HandFault>
    requires places { length places.now ≡ length codelets.now }
    requires few { length codelets.now ≤ 1024 }
    requires leveled { AreLeveled codelets.now }
    ensures { result ≡ hand_fault depth sl sf codelets.now places.now }
{
    match first_early(codelets, places) {
        Some(fault) => Some(fault),
        None => first_wide(places, depth, sl, sf),
    }
}

/// Whether a plan is lawful for a pipeline of `DEPTH` stages with at most `SL` atoms without and `SF` atoms with state each.
/// It was read for these codelets and this depth. `Early` comes exactly where some codelet is not at a later stage than one
/// that it uses: the first such codelet in order, with the first such used one. `Wide` comes exactly where that is not so and
/// some stage has more atoms of a kind than its width: the least such stage, and atoms without state come first. Takes no
/// memory.
pub fn accept<const DEPTH: usize, const SL: usize, const SF: usize>(
    codelets: &Codelets,
    plan: &HandPlan,
) -> Result<(), HandFault>
    requires { IsHandPlan DEPTH codelets.now.list plan.now }
    ensures plan { OnOk result (IsPlan DEPTH SL SF codelets.now.list plan.now) }
    ensures exact { MatchResult result (λ _. hand_fault DEPTH SL SF codelets.now.list plan.now ≡ None) (λ fault. hand_fault DEPTH SL SF codelets.now.list plan.now ≡ Some fault) }
{
    match fault(codelets.list(), &plan.places, DEPTH as u32, SL, SF) {
        Some(fault) => Err(fault),
        None => Ok(()),
    }
}
