ghost use Rattle.std.specs.Prelude.{◌≡◌, None, is_ok, if◌then◌else◌, OnOk};
ghost use Rattle.std.specs.Io.KnownBytes.{Appends};
ghost use Rattle.dom_io.specs.Causes.{HasCause, next_number};
ghost use Rattle.dom_io.specs.Held.{Puts};

use crate::sink::{Sink, SinkFault};
use std::io::Write;

/// Writes to a real output, and flushes after each put. It tells no content. Its count rises by one at each refused
/// write or flush, up to the greatest u64.
#[derive(Drop)]
pub struct OutSink<W> {
    out: W,
    faults: u64,
}

impl<W: Write> OutSink<W> {
    /// A sink over this output, with the count 0.
    pub fn new(out: W) -> OutSink<W>
        ensures { result.faults ≡ 0 }
    {
        OutSink { out, faults: 0 }
    }
}

impl<W: Write> Sink for OutSink<W> {
    ghost held = { λ _. None };

    ghost faults = { λ s. s.faults };

    fn put(&mut self, bytes: &[u8]) -> Result<(), SinkFault>
        ensures bytes { Puts None None bytes.now result }
        ensures cause { HasCause self.old.faults self.new.faults result }
        ensures sent { OnOk result (Appends (W.contents self.old.out) (W.contents self.new.out) bytes.now) }
        ensures count { self.new.faults ≡ (if is_ok result then self.old.faults else next_number self.old.faults) }
    {
        let result = write_and_flush(&mut self.out, bytes);
        if result.is_err() {
            self.faults = self.faults.saturating_add(1);
        }
        result
    }
}

// All of the bytes, in as many writes as the output needs. An output that takes nothing of them has failed.
fn write_and_flush<W: Write>(out: &mut W, bytes: &[u8]) -> Result<(), SinkFault>
    ensures { OnOk result (Appends (W.contents out.old) (W.contents out.new) bytes.now) }
{
    let mut rest = bytes;
    while !rest.is_empty() {
        let count = out.write(rest).map_err(|_| SinkFault)?;
        if count == 0 {
            return Err(SinkFault);
        }
        rest = &rest[count..];
    }
    out.flush().map_err(|_| SinkFault)
}
