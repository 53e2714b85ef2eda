ghost use Rattle.std.specs.Prelude.{◌<◌, ◌≤◌, length};
ghost use Rattle.dom_io.specs.Causes.{HasCause};
ghost use Rattle.dom_io.specs.Held.{Puts};

use dom_io::{Sink, SinkFault};

/// Puts a text, one line a put. Takes no memory.
pub fn put_text<S: Sink>(text: &[u8], sink: &mut S) -> Result<(), SinkFault>
    ensures bytes { Puts (S.held sink.old) (S.held sink.new) text.now result }
    ensures cause { HasCause (S.faults sink.old) (S.faults sink.new) result }
{
    let mut rest = text;
    while !rest.is_empty() {
        let (line, behind) = rest.split_at(first_line(rest));
        let Ok(()) = sink.put(line) else {
            return Err(SinkFault);
        };
        rest = behind;
    }
    Ok(())
}

// The bytes of the first line, its line feed too.
fn first_line(text: &[u8]) -> usize
    requires { 0 < length text.now }
    ensures some { 0 < result }
    ensures within { result ≤ length text.now }
{
    match text.iter().position(|byte| *byte == b'\n') {
        Some(feed) => feed + 1,
        None => text.len(),
    }
}
