ghost use Rattle.std.specs.Prelude.{◌≡◌, ◌≤◌, drop, Err, IfErr, IfNone, IfOk, IfSome, Ok, length};
ghost use Rattle.trace_text.specs.EventWords.{BeginsWith, BeginsWithNone, event_of, feed_size, stage_of};
ghost use Rattle.trace_text.specs.Events.{IsEventsOf, line_in};

use dom_words::read_count;
use itoa::Buffer;
use std::alloc::Global;

/// What a line of a text of events asks of a machine with queues between its stages.
#[derive(Clone, Copy, Debug, PartialEq, Eq)]
pub enum Event {
    /// The next packet of the trace enters.
    Enter,
    /// The oldest packet of the last queue leaves.
    Leave,
    /// A stage, counted from 1, takes the oldest packet of the queue before it.
    Fire(u32),
}

/// Why a text is no text of events.
#[derive(Clone, Copy, Debug, PartialEq, Eq)]
pub enum EventsFault {
    /// The first line, counted from 1, that is not the line of an event.
    Line(u32),
    /// Want of memory.
    Memory,
}

/// Reads a text of events, by docs/FORMATS.md, for a pipeline of this depth. Takes at most 16,777,216 bytes. Each of its
/// lines is `enter`, `leave` or `fire,K` with its line feed, where K is the number of a stage.
pub fn read_events(alloc: Global, text: &[u8], depth: u32) -> Result<Vec<Event>, EventsFault>
    requires text { length text.now ≤ 16777216 }
    requires depth { depth ≤ 65535 }
    ensures events { IfOk result (λ events. IsEventsOf text.now depth (Ok events.items)) }
    ensures refused { IfErr result (λ fault. IfSome (line_in fault) (λ n. IsEventsOf text.now depth (Err n))) }
{
    let mut events = Vec::new(alloc);
    let mut at = 0;
    let mut number = 1u32;
    'lines: while at < text.len() {
        let Some((event, size)) = first_event(rest(text, at), depth) else {
            return Err(EventsFault::Line(number));
        };
        events.push(event).map_err(|_| EventsFault::Memory)?;
        at += size;
        number += 1;
    }
    Ok(events)
}

// The bytes from a place on.
fn rest(text: &[u8], at: usize) -> &[u8]
    requires { at ≤ length text.now }
    ensures { result.now ≡ drop at text.now }
{
    &text[at..]
}

// The event with whose line a text begins, and the bytes of this line with its line feed.
fn first_event(text: &[u8], depth: u32) -> Option<(Event, usize)>
    requires { depth ≤ 65535 }
    ensures some { IfSome result (λ first. BeginsWith depth text.now first.0 first.1) }
    ensures none { IfNone result (BeginsWithNone depth text.now) }
{
    let size = line_size(text);
    if size == text.len() {
        return None;
    }
    match event_in(&text[..size], depth) {
        Some(event) => Some((event, size + 1)),
        None => None,
    }
}

// How many bytes stand before the first line feed.
fn line_size(text: &[u8]) -> usize
    ensures value { result ≡ feed_size text.now }
    ensures within { result ≤ length text.now }
{
    text.iter().take_while(|b| **b != b'\n').count()
}

// The event of a line.
fn event_in(line: &[u8], depth: u32) -> Option<Event>
    ensures { result ≡ event_of depth line.now }
{
    if line == b"enter".as_slice() {
        return Some(Event::Enter);
    }
    if line == b"leave".as_slice() {
        return Some(Event::Leave);
    }
    let number = line.strip_prefix(b"fire,".as_slice())?;
    Some(Event::Fire(stage_in(number, depth)?))
}

// The stage that a text writes, without leading zeros.
fn stage_in(text: &[u8], depth: u32) -> Option<u32>
    ensures { result ≡ stage_of depth text.now }
{
    let stage = read_count(text)?;
    let mut digits = Buffer::new();
    if digits.format(stage).as_bytes() == text && 1 <= stage && stage <= depth {
        Some(stage)
    } else {
        None
    }
}
