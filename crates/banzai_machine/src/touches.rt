ghost use Rattle.std.specs.Prelude.{◌≡◌, ◌<◌, [], ◌∷◌, ◌++◌, length, IfOk};

use crate::touch::Touch;
use dom_words::Memory;
use std::alloc::Global;
use std::marker::Model;

/// The state words that stages touch, in a list whose room is taken once.
#[derive(Drop)]
pub struct Touches {
    items: Vec<Touch>,
    count: usize,
}

impl Model for Touches {
    ghost use Rattle.std.specs.Prelude.{◌≤◌, length, take};
    ghost use Rattle.banzai_machine.specs.Kept.{Touched};

    ghost Value = { Touched };

    ghost view = { λ t. record { list = take t.count t.items.items; room = length t.items.items } };

    ghost invariant = { λ t. t.count ≤ length t.items.items };
}

impl Touches {
    /// The empty list with room for so many.
    pub fn new(alloc: Global, room: usize) -> Result<Touches, Memory>
        ensures list { IfOk result (λ t. t.list ≡ []) }
        ensures room { IfOk result (λ t. t.room ≡ room) }
    {
        let nothing = Touch {
            stage: 0,
            array: 0,
            index: 0,
        };
        match vec![in alloc; nothing; room] {
            Ok(items) => Ok(Touches { items, count: 0 }),
            Err(_) => Err(Memory),
        }
    }

    /// Forgets all.
    pub fn clear(&mut self)
        ensures list { self.new.list ≡ [] }
        ensures room { self.new.room ≡ self.old.room }
    {
        self.count = 0;
    }

    // One more.
    pub(crate) fn push(&mut self, touch: Touch)
        requires { length self.old.list < self.old.room }
        ensures list { self.new.list ≡ self.old.list ++ touch ∷ [] }
        ensures room { self.new.room ≡ self.old.room }
    {
        self.items[self.count] = touch;
        self.count += 1;
    }

    // All so far.
    pub(crate) fn as_slice(&self) -> &[Touch]
        ensures { result.now ≡ self.now.list }
    {
        &self.items[..self.count]
    }
}
