ghost use Rattle.std.specs.Prelude.{◌≡◌, ◌+◌, ◌%◌, ◌<◌, ◌≤◌, ◌^◌, [], ◌++◌, ◌∷◌, IfOk, OnOk, codes, length, sum};
ghost use Rattle.banzai_config.specs.Targets.{name_of};
ghost use Rattle.banzai_machine.specs.Pipe.{drain};
ghost use Rattle.banzai_machine.specs.State.{Stands};
ghost use Rattle.dom_report.specs.SelfRun.{drawn, summary_lines, summary_over, total_of};
ghost use Rattle.dom_words.specs.State.{array_of};
ghost use Rattle.trace_text.specs.Lines.{count_text, joined, line_of, word_text};
ghost use Rattle.trace_text.specs.Trace.{entries};

use crate::clocking::clock;
use crate::drawing::{Draws, Folding};
use atom_traits::AtomTemplate;
use banzai_config::Target;
use banzai_machine::Machine;
use dom_io::CleanSink;
use dom_words::{HashUnits, Memory, Packet, signed};
use itoa::Buffer;
use std::alloc::Global;

/// What a run comes to that makes its own packets.
#[derive(Clone, Copy, Debug, PartialEq, Eq)]
pub struct Summary {
    /// The packets that entered.
    pub packets: u32,
    /// The cycles, with those of the drain.
    pub cycles: u64,
    /// The fold over the words of the packets that left.
    pub fold: u32,
    /// The sum of all state words.
    pub total: u32,
}

/// Clocks a machine that stands at its beginning over so many packets, drawn from the seed, and over the drain, and answers
/// what that comes to. Nothing is put. `entering` and `leaving` have a word for each field. Takes no memory.
pub fn run_drawn<
    T: AtomTemplate,
    const DEPTH: usize,
    const SL: usize,
    const SF: usize,
    H: HashUnits,
>(
    machine: &mut Machine<T, DEPTH, SL, SF>,
    seed: u32,
    count: u32,
    hash: &H,
    entering: &mut Packet,
    leaving: &mut Packet,
) -> Summary
    requires start { Stands (H.meaning hash.now) [] machine.old }
    requires stages { length machine.old.config.stages ≤ 65535 }
    requires entering { length entering.old ≡ length machine.old.config.fields }
    requires leaving { length leaving.old ≡ length machine.old.config.fields }
    ensures stands { Stands (H.meaning hash.now) (entries (drawn (length machine.old.config.fields) seed count) ++ drain machine.old.config) machine.new }
    ensures summary { result ≡ summary_over (H.meaning hash.now) machine.old.config (drawn (length machine.old.config.fields) seed count) }
    ensures config { machine.new.config ≡ machine.old.config }
{
    let mut packets = Draws {
        word: seed,
        left: count,
        width: entering.words().len(),
    };
    let mut fold = Folding { word: 0 };
    let mut sink = CleanSink::new();
    let Ok(cycles) = clock(
        machine,
        &mut packets,
        &mut fold,
        hash,
        &mut sink,
        entering,
        leaving,
    ) else {
        unreachable!()
    };
    Summary {
        packets: count,
        cycles,
        fold: fold.word,
        total: sum_words(machine),
    }
}

// The sum of all state words.
fn sum_words<T: AtomTemplate, const DEPTH: usize, const SL: usize, const SF: usize>(
    machine: &Machine<T, DEPTH, SL, SF>,
) -> u32
    ensures { result ≡ total_of machine.now.row.state }
{
    let mut total = 0u32;
    let count = machine.config().arrays().len();
    for array in 0..count {
        let part = sum_array(machine, array);
        total = total.wrapping_add(part);
    }
    total
}

// The sum of the words of an array.
fn sum_array<T: AtomTemplate, const DEPTH: usize, const SL: usize, const SF: usize>(
    machine: &Machine<T, DEPTH, SL, SF>,
    array: usize,
) -> u32
    requires { array < length machine.now.config.arrays }
    ensures { result ≡ sum (array_of machine.now.row.state array) % 2 ^ 32 }
{
    let length = machine.config().arrays().get(array).length;
    let mut total = 0u32;
    for index in 0..length {
        let word = machine.word(array, index);
        total = total.wrapping_add(word);
    }
    total
}

/// The lines of what a run comes to that makes its own packets.
pub fn summary_text(
    alloc: Global,
    target: Target,
    seed: u32,
    count: u32,
    summary: Summary,
) -> Result<Vec<u8>, Memory>
    ensures { IfOk result (λ text. text.items ≡ joined (summary_lines target seed count summary)) }
{
    let mut text = Vec::new(alloc);
    add_first_line(target, seed, count, &mut text)?;
    add_count_line(b"packets", u64::from(summary.packets), &mut text)?;
    add_count_line(b"cycles", summary.cycles, &mut text)?;
    add_word_line(b"fold", summary.fold, &mut text)?;
    add_word_line(b"total", summary.total, &mut text)?;
    Ok(text)
}

// The line of what was asked for.
fn add_first_line(target: Target, seed: u32, count: u32, text: &mut Vec<u8>) -> Result<(), Memory>
    ensures { OnOk result (text.new.items ≡ text.old.items ++ line_of (codes "selfrun" ∷ name_of target ∷ count_text seed ∷ count_text count ∷ [])) }
{
    add(b"selfrun,", text)?;
    add(target.name().as_bytes(), text)?;
    add(b",", text)?;
    add_count(u64::from(seed), text)?;
    add(b",", text)?;
    add_count(u64::from(count), text)?;
    add(b"\n", text)
}

// The line of a count with this name.
fn add_count_line(name: &[u8], count: u64, text: &mut Vec<u8>) -> Result<(), Memory>
    ensures { OnOk result (text.new.items ≡ text.old.items ++ line_of (name.now ∷ count_text count ∷ [])) }
{
    add(name, text)?;
    add(b",", text)?;
    add_count(count, text)?;
    add(b"\n", text)
}

// The line of a word with this name.
fn add_word_line(name: &[u8], word: u32, text: &mut Vec<u8>) -> Result<(), Memory>
    ensures { OnOk result (text.new.items ≡ text.old.items ++ line_of (name.now ∷ word_text word ∷ [])) }
{
    add(name, text)?;
    add(b",", text)?;
    add_word(word, text)?;
    add(b"\n", text)
}

// A count, in decimals.
fn add_count(count: u64, text: &mut Vec<u8>) -> Result<(), Memory>
    ensures { OnOk result (text.new.items ≡ text.old.items ++ count_text count) }
{
    add(Buffer::new().format(count).as_bytes(), text)
}

// A word, in signed decimals.
fn add_word(word: u32, text: &mut Vec<u8>) -> Result<(), Memory>
    ensures { OnOk result (text.new.items ≡ text.old.items ++ word_text word) }
{
    add(Buffer::new().format(signed(word)).as_bytes(), text)
}

// Bytes at the end of a text.
fn add(bytes: &[u8], text: &mut Vec<u8>) -> Result<(), Memory>
    ensures { OnOk result (text.new.items ≡ text.old.items ++ bytes.now) }
{
    text.extend_from_slice(bytes).map_err(|_| Memory)?;
    Ok(())
}
