ghost use Rattle.std.specs.Prelude.{◌≡◌, ◌<◌, ◌≤◌, [], IfErr, IfOk, None, OnOk, length};
ghost use Rattle.std.specs.List.{All};
ghost use Rattle.codelets.specs.Leveled.{AreLeveled};
ghost use Rattle.stage_plan.specs.Board.{IsCounted, IsPlaceFault, IsPlacedBy, IsShowable, IsStuckBy};
ghost use Rattle.stage_plan.specs.Chains.{greatest_level};
ghost use Rattle.stage_plan.specs.Faults.{IsPlanFault};
ghost use Rattle.stage_plan.specs.Schedule.{IsPlan, all_placed, earliest, schedule};

use crate::board::Board;
use crate::chains::{deepest, longest};
use crate::fault::PlanFault;
use crate::place::{Place, Stages, other};
use codelets::{Codelet, Codelets};
use std::alloc::Global;

// What is shown where a codelet finds no place.
fn full(board: &Board, c: &Codelet, sl: usize, sf: usize) -> PlanFault
    requires counted { IsCounted board.now }
    requires stuck { earliest board.now.depth sl sf board.now.placed.items c.now ≡ None }
    requires shown { IsShowable board.now.depth sl sf board.now.placed.items c.now }
    ensures { IsStuckBy board.now.depth sl sf board.now.placed.items c.now result }
{
    match board.find_full(c.kind, sl, sf) {
        Some(stage) => PlanFault::Full {
            codelet: c.first,
            kind: c.kind,
            stage: stage as u32,
        },
        None => {
            let kind = other(c.kind);
            match board.find_full(kind, sl, sf) {
                Some(stage) => PlanFault::Full {
                    codelet: c.first,
                    kind,
                    stage: stage as u32,
                },
                None => unreachable!(),
            }
        }
    }
}

// Places the next codelet.
fn place_one(board: &mut Board, c: &Codelet, sl: usize, sf: usize) -> Result<(), PlanFault>
    requires counted { IsCounted board.old }
    requires stateless { sl ≤ 65535 }
    requires stateful { sf ≤ 65535 }
    requires uses { All (λ u. u < length board.old.placed.items) c.now.uses }
    requires shown { IsShowable board.old.depth sl sf board.old.placed.items c.now }
    ensures ok { OnOk result (IsPlacedBy (earliest board.old.depth sl sf board.old.placed.items c.now) board.old.placed.items c.now board.new.placed.items) }
    ensures counted { OnOk result (IsCounted board.new) }
    ensures depth { board.new.depth ≡ board.old.depth }
    ensures err { IfErr result (λ f. IsStuckBy board.old.depth sl sf board.old.placed.items c.now f) }
{
    let last = board.last_used(c);
    match board.find(c.kind, sl, sf, last) {
        Some(stage) => board.put(c.kind, stage).map_err(|_| PlanFault::Memory),
        None => Err(full(board, c, sl, sf)),
    }
}

// The places of all codelets.
fn place_all(
    alloc: Global,
    codelets: &[Codelet],
    depth: usize,
    sl: usize,
    sf: usize,
) -> Result<Vec<Place>, PlanFault>
    requires depth { depth ≤ 65535 }
    requires stateless { (1 ≤ sl) × (sl ≤ 65535) }
    requires stateful { (1 ≤ sf) × (sf ≤ 65535) }
    requires leveled { AreLeveled codelets.now }
    requires shallow { greatest_level codelets.now ≤ depth }
    ensures ok { IfOk result (λ places. schedule depth sl sf [] codelets.now ≡ all_placed places.items) }
    ensures err { IfErr result (λ f. IsPlaceFault depth sl sf codelets.now f) }
{
    let mut board = Board::new(alloc, depth).map_err(|_| PlanFault::Memory)?;
    'codelets: for c in codelets {
        match place_one(&mut board, c, sl, sf) {
            Ok(()) => {}
            Err(fault) => return Err(fault),
        }
    }
    Ok(board.placed)
}

// The stages of codelets by the list schedule.
fn plan_all(
    alloc: Global,
    codelets: &[Codelet],
    depth: usize,
    sl: usize,
    sf: usize,
) -> Result<Stages, PlanFault>
    requires depth { depth ≤ 65535 }
    requires stateless { (1 ≤ sl) × (sl ≤ 65535) }
    requires stateful { (1 ≤ sf) × (sf ≤ 65535) }
    requires few { length codelets.now ≤ 1024 }
    requires leveled { AreLeveled codelets.now }
    ensures shallow { IfOk result (λ _. greatest_level codelets.now ≤ depth) }
    ensures schedule { IfOk result (λ stages. schedule depth sl sf [] codelets.now ≡ all_placed stages) }
    ensures fault { IfErr result (λ f. IsPlanFault depth sl sf codelets.now f) }
{
    let level = deepest(codelets);
    if level as usize > depth {
        let chain = longest(alloc, codelets, level).map_err(|_| PlanFault::Memory)?;
        return Err(PlanFault::TooDeep(chain));
    }
    match place_all(alloc, codelets, depth, sl, sf) {
        Ok(places) => Ok(Stages { places }),
        Err(fault) => Err(fault),
    }
}

/// The stages of codelets on a pipeline of `DEPTH` stages with at most `SL` stateless and `SF` stateful atoms each, by the
/// list schedule: in their order each takes the earliest stage after those of the codelets that it uses that still has a
/// free place of its kind. `TooDeep` comes exactly where the greatest level is over the depth, and `Full` exactly where it
/// is not and some codelet finds no place: the first such, its own kind and the least of all stages that is full of it, or
/// else the other kind and the least stage full of that.
pub fn plan<const DEPTH: usize, const SL: usize, const SF: usize>(
    alloc: Global,
    codelets: &Codelets,
) -> Result<Stages, PlanFault>
    requires depth { (1 ≤ DEPTH) × (DEPTH ≤ 65535) }
    requires stateless { (1 ≤ SL) × (SL ≤ 65535) }
    requires stateful { (1 ≤ SF) × (SF ≤ 65535) }
    ensures shallow { IfOk result (λ _. greatest_level codelets.now.list ≤ DEPTH) }
    ensures schedule { IfOk result (λ stages. schedule DEPTH SL SF [] codelets.now.list ≡ all_placed stages) }
    ensures kept { IfOk result (λ stages. IsPlan DEPTH SL SF codelets.now.list stages) }
    ensures fault { IfErr result (λ f. IsPlanFault DEPTH SL SF codelets.now.list f) }
{
    plan_all(alloc, codelets.list(), DEPTH, SL, SF)
}
