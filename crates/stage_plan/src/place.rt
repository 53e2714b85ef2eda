ghost use Rattle.std.specs.Prelude.{◌≡◌, ◌<◌, length};
ghost use Rattle.stage_plan.specs.Schedule.{other_kind, stage_at, width};

use codelets::Kind;
use std::marker::Model;

/// Where a codelet stands: the stage, from 1, and its kind.
#[derive(Clone, Copy, Debug, PartialEq, Eq)]
pub struct Place {
    pub kind: Kind,
    pub stage: u32,
}

/// The places of codelets in their order, seen as the list of them.
#[derive(Drop)]
pub struct Stages {
    pub(crate) places: Vec<Place>,
}

impl Model for Stages {
    ghost use Rattle.std.specs.Prelude.{List};
    ghost use Rattle.stage_plan.specs.declared.place.Place.{Place};

    ghost Value = { List Place };

    ghost view = { λ s. s.places.items };
}

impl Stages {
    /// Places of codelets in their order. Takes no memory.
    pub fn of(places: Vec<Place>) -> Stages
        ensures { result ≡ places.items }
    {
        Stages { places }
    }

    /// The stage of the codelet at a position.
    pub fn stage(&self, codelet: usize) -> u32
        requires { codelet < length self.now }
        ensures { result ≡ stage_at self.now codelet }
    {
        self.places[codelet].stage
    }
}

/// How many atoms of a kind a stage may hold.
pub(crate) fn width_of(kind: Kind, stateless: usize, stateful: usize) -> usize
    ensures { result ≡ width stateless stateful kind }
{
    match kind {
        Kind::Stateless => stateless,
        Kind::Stateful => stateful,
    }
}

/// The kind that is not this one.
pub(crate) fn other(kind: Kind) -> Kind
    ensures { result ≡ other_kind kind }
{
    match kind {
        Kind::Stateless => Kind::Stateful,
        Kind::Stateful => Kind::Stateless,
    }
}
