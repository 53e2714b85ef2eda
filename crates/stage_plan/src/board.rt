ghost use Rattle.std.specs.Prelude.{◌≡◌, ◌==◌, ℕ, ◌<◌, ◌≤◌, ◌+◌, ◌-◌, [], ◌∷◌, ◌++◌, IfOk, IfSome, OnOk, length, map, nat_lt, slice_index, slice_set};
ghost use Rattle.std.specs.List.{All};
ghost use Rattle.codelets.specs.declared.codelet.Codelet.{Codelet};
ghost use Rattle.codelets.specs.declared.codelet.Kind.{Kind};
ghost use Rattle.codelets.specs.Lists.{max_of};
ghost use Rattle.stage_plan.specs.Board.{IsCounted, counts_of};
ghost use Rattle.stage_plan.specs.Faults.{full_stage};
ghost use Rattle.stage_plan.specs.Schedule.{atoms_at, first_from, has_room, last_used, other_kind, stage_at, width};

use crate::place::{Place, width_of};
use codelets::{Codelet, Kind};
use dom_words::Memory;
use std::alloc::Global;

// The first stage from a place on where fewer than a width are counted.
#[tactic(auto, using(crate::proofs::Firsts::firsts))]
fn free_stage(counts: &[u32], width: usize, from: usize) -> Option<usize>
    requires { from ≤ length counts.now }
    ensures { result ≡ first_from (λ s. nat_lt (slice_index counts.now s) width) from (length counts.now - from) }
{
    let mut at = from;
    'stages: while at < counts.len() {
        if (counts[at] as usize) < width {
            return Some(at);
        }
        at += 1;
    }
    None
}

// The first stage from 1 on of which a width is counted.
#[tactic(auto, using(crate::proofs::Firsts::firsts))]
fn full_at(counts: &[u32], width: usize) -> Option<usize>
    ensures { result ≡ first_from (λ s. slice_index counts.now s == width) 1 (length counts.now - 1) }
{
    let mut at = 1;
    'stages: while at < counts.len() {
        if counts[at] as usize == width {
            return Some(at);
        }
        at += 1;
    }
    None
}

fn stage_of(placed: &[Place], u: u32) -> u32
    requires { u < length placed.now }
    ensures { result ≡ stage_at placed.now u }
{
    placed[u as usize].stage
}

// The last of the stages of some codelets, or 0.
fn last_stage(placed: &[Place], uses: &[u32]) -> u32
    requires { All (λ u. u < length placed.now) uses.now }
    ensures { result ≡ max_of (map (stage_at placed.now) uses.now) }
{
    let mut last = 0;
    for u in uses {
        last = last.max(stage_of(placed, *u));
    }
    last
}

/// The places so far, and how many atoms of each kind each stage holds.
#[derive(Drop)]
pub(crate) struct Board {
    pub(crate) depth: usize,
    pub(crate) placed: Vec<Place>,
    pub(crate) stateless: Vec<u32>,
    pub(crate) stateful: Vec<u32>,
}

impl Board {
    /// No places yet.
    pub(crate) fn new(alloc: Global, depth: usize) -> Result<Board, Memory>
        requires { depth ≤ 65535 }
        ensures counted { IfOk result (λ b. IsCounted b) }
        ensures empty { IfOk result (λ b. b.placed.items ≡ []) }
        ensures depth { IfOk result (λ b. b.depth ≡ depth) }
    {
        let Ok(stateless) = Vec::from_elem(alloc, 0, depth + 1) else {
            return Err(Memory);
        };
        let Ok(stateful) = Vec::from_elem(alloc, 0, depth + 1) else {
            return Err(Memory);
        };
        Ok(Board {
            depth,
            placed: Vec::new(alloc),
            stateless,
            stateful,
        })
    }

    fn counts(&self, kind: Kind) -> &[u32]
        ensures { result.now ≡ counts_of self.now kind }
    {
        match kind {
            Kind::Stateless => self.stateless.as_slice(),
            Kind::Stateful => self.stateful.as_slice(),
        }
    }

    /// The first stage after another with a free place of a kind.
    pub(crate) fn find(&self, kind: Kind, sl: usize, sf: usize, last: usize) -> Option<usize>
        requires counted { IsCounted self.now }
        requires last { last ≤ self.now.depth }
        ensures value { result ≡ first_from (has_room sl sf self.now.placed.items kind) (last + 1) (self.now.depth - last) }
        ensures within { IfSome result (λ s. s ≤ self.now.depth) }
        ensures room { IfSome result (λ s. atoms_at self.now.placed.items kind s < width sl sf kind) }
    {
        free_stage(self.counts(kind), width_of(kind, sl, sf), last + 1)
    }

    /// The first stage that is full of a kind.
    pub(crate) fn find_full(&self, kind: Kind, sl: usize, sf: usize) -> Option<usize>
        requires { IsCounted self.now }
        ensures value { result ≡ full_stage self.now.depth sl sf self.now.placed.items kind }
        ensures within { IfSome result (λ s. s ≤ self.now.depth) }
    {
        full_at(self.counts(kind), width_of(kind, sl, sf))
    }

    /// The last stage of the codelets that a codelet uses, or 0.
    pub(crate) fn last_used(&self, c: &Codelet) -> usize
        requires counted { IsCounted self.now }
        requires uses { All (λ u. u < length self.now.placed.items) c.now.uses }
        ensures value { result ≡ last_used self.now.placed.items c.now }
        ensures within { result ≤ self.now.depth }
    {
        last_stage(self.placed.as_slice(), c.uses.as_slice()) as usize
    }

    fn raise(&mut self, kind: Kind, stage: usize)
        requires within { stage < length (counts_of self.old kind) }
        requires room { slice_index (counts_of self.old kind) stage < 65535 }
        ensures count { counts_of self.new kind ≡ slice_set (counts_of self.old kind) stage (slice_index (counts_of self.old kind) stage + 1) }
        ensures other { counts_of self.new (other_kind kind) ≡ counts_of self.old (other_kind kind) }
        ensures placed { self.new.placed.items ≡ self.old.placed.items }
        ensures depth { self.new.depth ≡ self.old.depth }
    {
        match kind {
            Kind::Stateless => self.stateless[stage] += 1,
            Kind::Stateful => self.stateful[stage] += 1,
        }
    }

    fn add(&mut self, place: Place) -> Result<(), Memory>
        ensures ok { OnOk result (self.new.placed.items ≡ self.old.placed.items ++ place ∷ []) }
        ensures counts { (k : Kind) → counts_of self.new k ≡ counts_of self.old k }
        ensures depth { self.new.depth ≡ self.old.depth }
    {
        match self.placed.push(place) {
            Ok(()) => Ok(()),
            Err(_) => Err(Memory),
        }
    }

    /// Places an atom of a kind at a stage.
    pub(crate) fn put(&mut self, kind: Kind, stage: usize) -> Result<(), Memory>
        requires counted { IsCounted self.old }
        requires stage { stage ≤ self.old.depth }
        requires room { atoms_at self.old.placed.items kind stage < 65535 }
        ensures ok { OnOk result (self.new.placed.items ≡ self.old.placed.items ++ record { kind = kind; stage = stage } ∷ []) }
        ensures counted { OnOk result (IsCounted self.new) }
        ensures depth { self.new.depth ≡ self.old.depth }
    {
        self.add(Place {
            kind,
            stage: stage as u32,
        })?;
        self.raise(kind, stage);
        Ok(())
    }
}
