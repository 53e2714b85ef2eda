ghost use Rattle.std.specs.Prelude.{◌≡◌, ◌≤◌, IfErr, IfOk, Ok, length};
ghost use Rattle.trace_text.specs.Events.{IsEventsOf};
ghost use Rattle.dom_finding.specs.Files.{ask_of};
ghost use Rattle.dom_finding.specs.Finding.{events_file as ask_events};
ghost use Rattle.dom_finding.specs.Refusals.{refused_events};
ghost use Rattle.dom_finding.specs.Stops.{TextStop, events_stop};

use crate::reading::Stop;
use crate::refusals::Refusal;
use crate::wanted::WantedFile;
use std::alloc::Global;
use trace_text::{Event, EventsFault, read_events};

// The most bytes that a text of events may have.
const MOST_EVENTS_BYTES: usize = 16_777_216;

/// The file of events, of at most 16,777,216 bytes.
pub fn events_file(name: &str) -> WantedFile<'_>
    ensures { ask_of result ≡ ask_events name.entry.now }
{
    WantedFile {
        name,
        most: MOST_EVENTS_BYTES,
        over: Refusal::EventsLimit,
    }
}

/// The events of a text within its limit, for a pipeline of this depth.
pub fn events_of(alloc: Global, text: &[u8], depth: u32) -> Result<Vec<Event>, Stop>
    requires text { length text.now ≤ 16777216 }
    requires depth { depth ≤ 65535 }
    ensures events { IfOk result (λ events. IsEventsOf text.now depth (Ok events.items)) }
    ensures stop { IfErr result (TextStop (IsEventsOf text.now depth) refused_events) }
{
    match read_events(alloc, text, depth) {
        Ok(events) => Ok(events),
        Err(fault) => Err(stop_of_events(fault)),
    }
}

// Why a fault of events stops a command.
fn stop_of_events(fault: EventsFault) -> Stop
    ensures { result ≡ events_stop fault }
{
    match fault {
        EventsFault::Line(n) => Stop::Refused(Refusal::Events(n)),
        EventsFault::Memory => Stop::Memory,
    }
}
