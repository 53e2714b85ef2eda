ghost use Rattle.std.specs.Prelude.{◌≡◌, ◌<◌, MatchResult, length};
ghost use Rattle.dom_shell.specs.Ends.{AreStopped, Tried, sent_as};

use dom_finding::Stop;
use dom_io::{Sink, SinkFault};
use std::alloc::Global;

const DONE: u8 = 0;

const READ_FAULT: u8 = 4;

const WRITE_FAULT: u8 = 5;

const NO_MEMORY: u8 = 6;

/// The status of a report that was put, or that the sink did not take.
pub(crate) fn status_of(put: Result<(), SinkFault>) -> u8
    ensures { MatchResult put (λ _. result ≡ 0) (λ _. result ≡ 5) }
{
    match put {
        Ok(()) => DONE,
        Err(_) => WRITE_FAULT,
    }
}

/// The status of a command that has nothing to put but the line of a refusal.
pub(crate) fn stopped<S: Sink>(alloc: Global, stop: Stop, sink: &mut S) -> u8
    ensures { AreStopped stop (sent_as result (S.held sink.old) (S.held sink.new) (S.faults sink.old) (S.faults sink.new)) }
{
    match stop {
        Stop::Refused(refusal) => match refusal.line(alloc) {
            Ok(line) => put_refusal(sink, line.as_slice(), refusal.status()),
            Err(_) => NO_MEMORY,
        },
        Stop::Unread => READ_FAULT,
        Stop::Memory => NO_MEMORY,
    }
}

/// Puts the line of a refusal, and answers its status.
pub(crate) fn put_refusal<S: Sink>(sink: &mut S, line: &[u8], status: u8) -> u8
    requires { 0 < length line.now }
    ensures { Tried status line.now (sent_as result (S.held sink.old) (S.held sink.new) (S.faults sink.old) (S.faults sink.new)) }
{
    match sink.put(line) {
        Ok(()) => status,
        Err(_) => WRITE_FAULT,
    }
}
