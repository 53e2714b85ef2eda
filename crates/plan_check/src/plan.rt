ghost use Rattle.std.specs.Prelude.{◌≡◌, ◌<◌, length};
ghost use Rattle.stage_plan.specs.Schedule.{stage_at};

use stage_plan::Place;
use std::marker::Model;

/// A plan that was read for codelets, seen as the list of their places in order: for each its kind and its stage, from 1.
#[derive(Drop)]
pub struct HandPlan {
    pub(crate) places: Vec<Place>,
}

impl Model for HandPlan {
    ghost use Rattle.std.specs.Prelude.{List};
    ghost use Rattle.stage_plan.specs.declared.place.Place.{Place};

    ghost Value = { List Place };

    ghost view = { λ p. p.places.items };
}

impl HandPlan {
    /// The stage of the codelet at a position. Takes no memory.
    pub fn stage(&self, codelet: usize) -> u32
        requires { codelet < length self.now }
        ensures { result ≡ stage_at self.now codelet }
    {
        self.places[codelet].stage
    }
}
