ghost use Rattle.std.specs.Prelude.{◌≡◌, ◌≢◌, ◌<◌, ◌≤◌, ◌⊎◌, ℕ, List, None};
ghost use Rattle.dom_io.specs.Causes.{Rose};
ghost use Rattle.probe_taps.specs.Taps.{tap_forms};
ghost use Rattle.dom_finding.specs.Command.{command_of, texts_of};
ghost use Rattle.dom_shell.specs.Call.{Answers, IsPut, IsPutInPart, IsResult, IsUnread};
ghost use Rattle.dom_shell.specs.Ends.{IsEnd, call_of, sent_as};

use crate::commands::perform;
use crate::ending::put_refusal;
use dom_finding::read_words;
use dom_io::{Shelf, Sink};
use dom_words::HashUnits;
use probe_taps::Tap;
use std::alloc::Global;

const WORDS_REFUSED: u8 = 2;

/// Does what the words say, which are those after the program's own name: reads the files that they name from the shelf,
/// puts the result or the line of a refusal into the sink, and answers the status of docs/FORMATS.md. `probe` attaches the
/// taps; every other command drops them unused.
pub fn domino<F: Shelf, S: Sink, H: HashUnits>(
    alloc: Global,
    words: &[String],
    shelf: &mut F,
    sink: &mut S,
    hash: &H,
    taps: Vec<Box<dyn Tap>>,
) -> u8
    ensures status { result ≤ 6 }
    ensures exact { (status : ℕ) (bytes : List ℕ) → IsResult (H.meaning hash.now) (tap_forms (λ b. form b) taps.items) (texts_of words.now) (F.content shelf.old) status bytes → Answers status bytes result (S.held sink.old) (S.held sink.new) }
    ensures words { command_of (texts_of words.now) ≡ None → (result ≡ 2) ⊎ (result ≡ 5) }
    ensures no_words { result ≡ 2 → command_of (texts_of words.now) ≡ None }
    ensures put { result < 4 → IsPut (H.meaning hash.now) (tap_forms (λ b. form b) taps.items) (texts_of words.now) (F.content shelf.old) result (S.held sink.old) (S.held sink.new) }
    ensures read_fault { result ≡ 4 → IsUnread (texts_of words.now) (F.content shelf.old) (F.faults shelf.old) (F.faults shelf.new) }
    ensures reads_later { (name : List ℕ) → F.faults shelf.old name ≤ F.faults shelf.new name }
    ensures reads { result ≢ 4 → (name : List ℕ) → F.faults shelf.new name ≡ F.faults shelf.old name }
    ensures write_fault { result ≡ 5 → Rose (S.faults sink.old) (S.faults sink.new) }
    ensures part { result ≡ 5 → IsPutInPart (H.meaning hash.now) (tap_forms (λ b. form b) taps.items) (texts_of words.now) (F.content shelf.old) (S.held sink.old) (S.held sink.new) }
    ensures writes_later { S.faults sink.old ≤ S.faults sink.new }
    ensures writes { result ≢ 5 → S.faults sink.new ≡ S.faults sink.old }
    ensures unput { (result ≡ 4) ⊎ (result ≡ 6) → S.held sink.new ≡ S.held sink.old }
    ensures files { (name : List ℕ) → F.content shelf.new name ≡ F.content shelf.old name }
{
    answered(alloc, words, shelf, sink, hash, taps)
}

// The same, with one clause that says how the call ended.
fn answered<F: Shelf, S: Sink, H: HashUnits>(
    alloc: Global,
    words: &[String],
    shelf: &mut F,
    sink: &mut S,
    hash: &H,
    taps: Vec<Box<dyn Tap>>,
) -> u8
    ensures end { IsEnd (texts_of words.now) (call_of (H.meaning hash.now) (tap_forms (λ b. form b) taps.items) (F.content shelf.old) (F.faults shelf.old) (F.faults shelf.new) (sent_as result (S.held sink.old) (S.held sink.new) (S.faults sink.old) (S.faults sink.new))) }
    ensures files { (name : List ℕ) → F.content shelf.new name ≡ F.content shelf.old name }
{
    let Some(command) = read_words(words) else {
        return put_refusal(sink, b"refused,words\n", WORDS_REFUSED);
    };
    perform(alloc, command, shelf, sink, hash, taps)
}
