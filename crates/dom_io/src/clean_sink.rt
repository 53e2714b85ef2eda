ghost use Rattle.std.specs.Prelude.{◌≡◌, None, IsOk};
ghost use Rattle.dom_io.specs.Causes.{HasCause};
ghost use Rattle.dom_io.specs.Held.{Puts};

use crate::sink::{Sink, SinkFault};

/// Forgets what it takes, and never fails. It tells no content. Its count is 0, and stays so.
#[derive(Clone, Copy, Debug)]
pub struct CleanSink;

impl CleanSink {
    /// A sink. Takes no memory.
    pub fn new() -> CleanSink {
        CleanSink
    }
}

impl Sink for CleanSink {
    ghost held = { λ _. None };

    ghost faults = { λ _. 0 };

    fn put(&mut self, bytes: &[u8]) -> Result<(), SinkFault>
        ensures bytes { Puts None None bytes.now result }
        ensures cause { HasCause 0 0 result }
        ensures never { IsOk result }
    {
        Ok(())
    }
}
