ghost use Rattle.std.specs.Prelude.{◌≡◌, ℕ, ◌+◌, ◌≤◌, List, All, IfErr, IfOk, IfSome, MatchResult, Ok, OnOk, length, take, vec_len};
ghost use Rattle.dom_io.specs.Reads.{ReadCause};
ghost use Rattle.trace_text.specs.Trace.{IsTraceOf, cycles_of, most_cycles};
ghost use Rattle.dom_finding.specs.Files.{ask_of};
ghost use Rattle.dom_finding.specs.Finding.{config_file as ask_config, program_file as ask_program, trace_file as ask_trace};
ghost use Rattle.dom_finding.specs.Refusals.{refused_trace};
ghost use Rattle.dom_finding.specs.Stops.{AreKept, FileStop, IsText, TextStop, trace_stop};

use crate::refusals::Refusal;
use crate::wanted::WantedFile;
use dom_io::{Shelf, ShelfFault};
use dom_words::{Memory, Names};
use std::alloc::Global;
use trace_text::{Trace, TraceFault, read_trace};

// The most bytes that a program may have.
const MOST_PROGRAM_BYTES: usize = 65536;

// The most bytes that a trace may have.
const MOST_TRACE_BYTES: usize = 16_777_216;

// The most bytes that a configuration may have.
const MOST_CONFIG_BYTES: usize = 1_048_576;

/// Why a command stops before it puts anything.
#[derive(Debug, Drop)]
pub enum Stop {
    /// A file is refused.
    Refused(Refusal),
    /// The shelf failed on a file.
    Unread,
    /// Want of memory.
    Memory,
}

impl From<Memory> for Stop {
    ghost use Rattle.std.specs.Prelude.{◌≡◌};
    ghost use Rattle.dom_finding.specs.declared.reading.Stop.TheVariants as stop;

    ghost from_gives = { λ _ e. e ≡ stop.Memory };

    fn from(_memory: Memory) -> Stop {
        Stop::Memory
    }
}

/// The file of a program, of at most 65,536 bytes.
pub fn program_file(name: &str) -> WantedFile<'_>
    ensures { ask_of result ≡ ask_program name.entry.now }
{
    WantedFile {
        name,
        most: MOST_PROGRAM_BYTES,
        over: Refusal::ProgramLimit,
    }
}

/// The file of a trace, of at most 16,777,216 bytes.
pub fn trace_file(name: &str) -> WantedFile<'_>
    ensures { ask_of result ≡ ask_trace name.entry.now }
{
    WantedFile {
        name,
        most: MOST_TRACE_BYTES,
        over: Refusal::TraceLimit,
    }
}

/// The file of a configuration, of at most 1,048,576 bytes.
pub fn config_file(name: &str) -> WantedFile<'_>
    ensures { ask_of result ≡ ask_config name.entry.now }
{
    WantedFile {
        name,
        most: MOST_CONFIG_BYTES,
        over: Refusal::ConfigLimit,
    }
}

/// The text of a file that is wanted: it is read once, up to one byte over its limit, and refused where it is longer.
pub fn text_in<F: Shelf>(shelf: &mut F, file: WantedFile<'_>) -> Result<Vec<u8>, Stop>
    ensures text { IfOk result (λ v. IsText (F.content shelf.old) (ask_of file.entry) v.items) }
    ensures stop { IfErr result (FileStop (F.content shelf.old) (F.faults shelf.old) (F.faults shelf.new) (ask_of file.entry)) }
    ensures kept { OnOk result (AreKept (F.faults shelf.old) (F.faults shelf.new)) }
    ensures files { (name : List ℕ) → F.content shelf.new name ≡ F.content shelf.old name }
{
    match first_of(shelf, &file) {
        Ok(text) => {
            if text.len() > file.most {
                return Err(Stop::Refused(file.over));
            }
            Ok(text)
        }
        Err(ShelfFault::Failed) => Err(Stop::Unread),
        Err(ShelfFault::Memory) => Err(Stop::Memory),
    }
}

// The first bytes of a file that is wanted, one more than it may have.
fn first_of<F: Shelf>(shelf: &mut F, file: &WantedFile<'_>) -> Result<Vec<u8>, ShelfFault>
    ensures bytes { IfOk result (λ v. IfSome (F.content shelf.old file.now.name.now) (λ bytes. v.items ≡ take (file.now.most + 1) bytes)) }
    ensures few { IfOk result (λ v. vec_len v ≤ file.now.most + 1) }
    ensures cause { ReadCause (F.faults shelf.old) (F.faults shelf.new) file.now.name.now result }
    ensures files { (name : List ℕ) → F.content shelf.new name ≡ F.content shelf.old name }
{
    shelf.read(file.name, file.most + 1)
}

/// The packets of a trace within its limit, for these fields and a pipeline of this depth.
pub fn packets_of(alloc: Global, text: &[u8], fields: &Names, depth: u32) -> Result<Trace, Stop>
    requires { length text.now ≤ 16777216 }
    ensures packets { IfOk result (λ trace. IsTraceOf text.now fields.now depth (Ok trace)) }
    ensures cycles { IfOk result (λ trace. cycles_of trace + depth ≤ most_cycles) }
    ensures words { IfOk result (λ trace. All (λ p. length p.1 ≡ length fields.now) trace) }
    ensures stop { IfErr result (TextStop (IsTraceOf text.now fields.now depth) refused_trace) }
{
    match read_trace(alloc, text, fields, depth) {
        Ok(trace) => Ok(trace),
        Err(fault) => Err(stop_of(fault)),
    }
}

// Why a fault of the trace stops a command.
fn stop_of(fault: TraceFault) -> Stop
    ensures { result ≡ trace_stop fault }
{
    match fault {
        TraceFault::Memory => Stop::Memory,
        _ => Stop::Refused(Refusal::Trace(fault)),
    }
}
