ghost use Rattle.std.specs.Prelude.{◌≡◌, ℕ, ◌≤◌, ◌<◌, ◌-◌, ◌^◌, [], ◌∷◌, ◌++◌, length, nat_lt, if◌then◌else◌, IfOk, replicate, vec_capacity, is_some};
ghost use Rattle.pifo_rank.specs.Queue.{Queue, popped, pushed, rank_served, words_served};

use crate::waiting::Waiting;
use dom_words::{Memory, Packet};
use std::alloc::Global;
use std::collections::BinaryHeap;
use std::marker::Model;
use std::mem;

/// A push-in first-out queue, seen as its entries in order of arrival, the number of pushes that were taken, its room and
/// the number of words of its packets.
#[derive(Drop)]
pub struct Pifo {
    waiting: BinaryHeap<Waiting>,
    spare: Vec<Packet>,
    pushes: u64,
    room: usize,
    width: usize,
}

impl Model for Pifo {
    ghost use Rattle.pifo_rank.specs.Queue.{Queue};
    ghost use Rattle.pifo_rank.specs.Kept.{IsKept, queue_of};

    ghost Value = { Queue };

    ghost view = { queue_of };

    ghost invariant = { IsKept };
}

impl Pifo {
    /// An empty queue with room for `room` packets of `width` words. It takes all memory that the queue will ever need.
    pub fn new(alloc: Global, room: usize, width: usize) -> Result<Pifo, Memory>
        ensures { IfOk result (λ queue. queue ≡ record { entries = []; pushes = 0; room = room; width = width }) }
    {
        let Ok(waiting) = BinaryHeap::with_capacity(alloc, room) else {
            return Err(Memory);
        };
        let spare = packets(alloc, room, width)?;
        Ok(Pifo {
            waiting,
            spare,
            pushes: 0,
            room,
            width,
        })
    }

    /// Takes in a packet of `width` words with its rank. Where `room` packets are held it answers false and nothing
    /// changes. Takes no memory.
    pub fn push(&mut self, rank: i32, words: &[u32]) -> bool
        requires width { length words.now ≡ self.old.width }
        requires few { self.old.pushes < 2 ^ 64 - 1 }
        ensures taken { result ≡ nat_lt (length self.old.entries) self.old.room }
        ensures queue { self.new ≡ (if result then pushed self.old rank words.now else self.old) }
    {
        let Some(mut packet) = self.spare.pop() else {
            return false;
        };
        packet.words_mut().copy_from_slice(words);
        let entry = Waiting {
            rank,
            arrival: self.pushes,
            words: packet,
        };
        let Ok(()) = self.waiting.push(entry) else {
            unreachable!()
        };
        self.pushes += 1;
        true
    }

    /// Takes out, among the packets with the least rank, the one that came first: puts its words into `words`, which has
    /// `width` words, and answers its rank. `None` exactly where no packet is held; then nothing changes. Takes no memory.
    pub fn pop(&mut self, words: &mut Packet) -> Option<i32>
        requires { length words.old ≡ self.old.width }
        ensures some { is_some result ≡ nat_lt 0 (length self.old.entries) }
        ensures rank { result ≡ rank_served self.old.entries }
        ensures words { words.new ≡ words_served self.old.entries words.old }
        ensures size { length words.new ≡ length words.old }
        ensures queue { self.new ≡ popped self.old }
    {
        let Some(mut entry) = self.waiting.pop() else {
            return None;
        };
        mem::swap(words, &mut entry.words);
        let Waiting {
            rank,
            arrival: _,
            words: spare,
        } = entry;
        let Ok(()) = self.spare.push(spare) else {
            unreachable!()
        };
        Some(rank)
    }

    /// The number of packets that are held.
    pub fn held(&self) -> usize
        ensures count { result ≡ length self.now.entries }
        ensures most { result ≤ self.now.room }
    {
        self.waiting.len()
    }

    /// The number of pushes that were taken.
    pub fn pushes(&self) -> u64
        ensures { result ≡ self.now.pushes }
    {
        self.pushes
    }
}

// Packets of `width` words, all 0, and no more places than these.
fn packets(alloc: Global, room: usize, width: usize) -> Result<Vec<Packet>, Memory>
    ensures packets { IfOk result (λ packets. packets.items ≡ replicate room (replicate width 0)) }
    ensures room { IfOk result (λ packets. room ≤ vec_capacity packets) }
{
    let Ok(mut packets) = Vec::with_capacity(alloc, room) else {
        return Err(Memory);
    };
    for _ in 0..room {
        if packets.push(Packet::zeros(alloc, width)?).is_err() {
            return Err(Memory);
        }
    }
    Ok(packets)
}
