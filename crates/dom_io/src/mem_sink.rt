ghost use Rattle.std.specs.Prelude.{◌≡◌, ◌++◌, ◌-◌, ◌<◌, ◌≤◌, ℕ, List, [], Some, take, length, is_ok, vec_len, vec_capacity, if◌then◌else◌, IfOk};
ghost use Rattle.dom_io.specs.Causes.{HasCause, next_number};
ghost use Rattle.dom_io.specs.Held.{Puts, planned_bytes, puts_all, taken_bytes};

use crate::sink::{Sink, SinkFault};
use dom_words::Memory;
use std::alloc::Global;

/// A sink in memory with a fixed room, whose puts fail by a list. It tells what it holds. Its count rises by one at each
/// failed put.
#[derive(Drop)]
pub struct MemSink {
    held: Vec<u8>,
    room: usize,
    failing: Vec<(u64, usize)>,
    puts: u64,
    faults: u64,
    ghost fits: { vec_len held ≤ room },
    ghost room_is_taken: { room ≤ vec_capacity held },
}

impl MemSink {
    /// A sink with room for so many bytes, which is taken now. Put number k, from 1, takes only the first n bytes and
    /// fails, where `(k, n)` is the first pair of the list with k; a put past the room takes what fits and fails.
    pub fn new(alloc: Global, room: usize, failing: Vec<(u64, usize)>) -> Result<MemSink, Memory>
        ensures held { IfOk result (λ s. s.held.items ≡ []) }
        ensures room { IfOk result (λ s. s.room ≡ room) }
        ensures failing { IfOk result (λ s. s.failing ≡ failing) }
        ensures puts { IfOk result (λ s. s.puts ≡ 0) }
        ensures faults { IfOk result (λ s. s.faults ≡ 0) }
    {
        let held = Vec::with_capacity(alloc, room).map_err(|_| Memory)?;
        Ok(MemSink {
            held,
            room,
            failing,
            puts: 0,
            faults: 0,
        })
    }

    /// The bytes that it holds.
    pub fn held(&self) -> &[u8]
        ensures { result.now ≡ self.now.held.items }
    {
        self.held.as_slice()
    }
}

impl Sink for MemSink {
    ghost held = { λ s. Some s.held.items };

    ghost faults = { λ s. s.faults };

    fn put(&mut self, bytes: &[u8]) -> Result<(), SinkFault>
        ensures bytes { Puts (Some self.old.held.items) (Some self.new.held.items) bytes.now result }
        ensures cause { HasCause self.old.faults self.new.faults result }
        ensures number { self.new.puts ≡ next_number self.old.puts }
        ensures room { self.new.room ≡ self.old.room }
        ensures failing { self.new.failing ≡ self.old.failing }
        ensures taken { let plan = planned_bytes self.old.failing.items (next_number self.old.puts) in let left = self.old.room - length self.old.held.items in self.new.held.items ≡ self.old.held.items ++ take (taken_bytes plan left (length bytes.now)) bytes.now }
        ensures count { let plan = planned_bytes self.old.failing.items (next_number self.old.puts) in let left = self.old.room - length self.old.held.items in self.new.faults ≡ (if puts_all plan left (length bytes.now) then self.old.faults else next_number self.old.faults) }
        ensures exact { let plan = planned_bytes self.old.failing.items (next_number self.old.puts) in let left = self.old.room - length self.old.held.items in is_ok result ≡ puts_all plan left (length bytes.now) }
    {
        self.puts = self.puts.saturating_add(1);
        let planned = planned(&self.failing, self.puts);
        let room = self.room - self.held.len();
        let count = taken(planned, room, bytes.len());
        if self.held.extend_from_slice(&bytes[..count]).is_err() {
            unreachable!()
        }
        if planned.is_some() || count < bytes.len() {
            self.faults = self.faults.saturating_add(1);
            return Err(SinkFault);
        }
        Ok(())
    }
}

// How many bytes the put of this number is to take before it fails, where it is to fail.
fn planned(failing: &[(u64, usize)], number: u64) -> Option<usize>
    ensures { result ≡ planned_bytes failing.now number }
{
    for (put, count) in failing {
        if *put == number {
            return Some(*count);
        }
    }
    None
}

// How many of the bytes are taken, with this room left.
fn taken(planned: Option<usize>, room: usize, bytes: usize) -> usize
    ensures value { result ≡ taken_bytes planned room bytes }
    ensures fits { result ≤ room }
    ensures few { result ≤ bytes }
{
    let most = bytes.min(room);
    match planned {
        Some(count) => most.min(count),
        None => most,
    }
}
