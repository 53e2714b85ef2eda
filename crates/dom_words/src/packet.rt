ghost use Rattle.std.specs.Prelude.{◌≡◌, ℕ, length, replicate, IfOk};
ghost use Rattle.std.specs.Borrow.{Array, Lends, sem, u32 as word};
ghost use Rattle.dom_words.specs.Packet.{over};
ghost use Rattle.dom_words.specs.contracts.packet.Packet.{the_row};

use crate::seq::Memory;
use std::alloc::Global;
use std::marker::Model;

/// The words of a packet, seen as the list of them.
#[derive(Debug, Drop)]
pub struct Packet {
    words: Vec<u32>,
}

impl Model for Packet {
    ghost use Rattle.std.specs.Prelude.{List, ℕ};

    ghost Value = { List ℕ };

    ghost view = { λ p. p.words.items };
}

impl Packet {
    /// A packet of `n` words, each 0.
    pub fn zeros(alloc: Global, n: usize) -> Result<Packet, Memory>
        ensures { IfOk result (λ packet. packet ≡ replicate n 0) }
    {
        Packet::filled(alloc, n, 0)
    }

    /// A packet of `n` words, all the same.
    pub fn filled(alloc: Global, n: usize, word: u32) -> Result<Packet, Memory>
        ensures { IfOk result (λ packet. packet ≡ replicate n word) }
    {
        match vec![in alloc; word; n] {
            Ok(words) => Ok(Packet { words }),
            Err(_) => Err(Memory),
        }
    }

    /// Its words.
    pub fn words(&self) -> &[u32]
        ensures { result.now ≡ self.now }
    {
        self.words.as_slice()
    }

    /// Its words, to be written in place. Their number stays.
    pub fn words_mut(&mut self) -> &mut [u32]
        ensures* writes_back { sem 𝓛 (Lends the_row (Array word 0) self.entry result (over self.old)) }
        ensures value { result.now ≡ self.old }
    {
        self.words.as_mut_slice()
    }
}
