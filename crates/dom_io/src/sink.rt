ghost use Rattle.std.specs.Prelude.{◌<◌, List, ℕ, length};
ghost use Rattle.std.specs.declared.option.Option.{Option};
ghost use Rattle.dom_io.specs.Causes.{HasCause};
ghost use Rattle.dom_io.specs.Held.{Puts};

/// A put failed, which the sink's count tells.
#[derive(Clone, Copy, Debug, PartialEq, Eq)]
pub struct SinkFault;

/// Takes the bytes of a result, in order.
pub trait Sink {
    /// The bytes that it holds, where it tells them.
    ghost held: { Self → Option (List ℕ) };

    /// How often a put has failed. It never falls.
    ghost faults: { Self → ℕ };

    /// Puts at least one byte at the end. Ok appends exactly the bytes and leaves the count; a fault comes only where the
    /// count rose in this call, and then a prefix of the bytes was appended.
    fn put(&mut self, bytes: &[u8]) -> Result<(), SinkFault>
        requires { 0 < length bytes.now }
        ensures bytes { Puts (held self.old) (held self.new) bytes.now result }
        ensures cause { HasCause (faults self.old) (faults self.new) result };
}
