ghost use Rattle.std.specs.Prelude.{◌≡◌, ◌+◌, ◌*◌, ◌/◌, ◌%◌, ◌^◌, [], ◌∷◌, None, Some, length};
ghost use Rattle.dom_report.specs.Clocking.{Cycle, IsNext};
ghost use Rattle.dom_report.specs.Folding.{fold_left};
ghost use Rattle.dom_report.specs.SelfRun.{drawn, fields_drawn, folded, next_draw};

use crate::clocked::Clocked;
use crate::each_cycle::EachCycle;
use crate::entering::Packets;
use dom_io::{Sink, SinkFault};
use dom_words::Packet;

/// Packets that are drawn: the last draw, or the seed, how many packets are still to come, and how many fields each has.
#[derive(Drop)]
pub(crate) struct Draws {
    pub(crate) word: u32,
    pub(crate) left: u32,
    pub(crate) width: usize,
}

impl Draws {
    // The next draw.
    fn draw(&mut self) -> u32
        ensures word { result ≡ next_draw self.old.word }
        ensures new { self.new.word ≡ result }
        ensures left { self.new.left ≡ self.old.left }
        ensures width { self.new.width ≡ self.old.width }
    {
        self.word = self.word.wrapping_mul(1664525).wrapping_add(1013904223);
        self.word
    }
}

impl Packets for Draws {
    ghost rest = { λ draws. drawn draws.width draws.word draws.left };

    fn next_packet(&mut self, packet: &mut Packet) -> Option<u64> {
        if self.left == 0 {
            return None;
        }
        self.left -= 1;
        let gap = self.draw();
        let key = self.draw();
        let val = self.draw();
        write_fields(key >> 26, val >> 16, packet.words_mut());
        Some(u64::from(gap >> 30))
    }
}

// Writes the fields of a packet with this key and this value.
fn write_fields(key: u32, val: u32, words: &mut [u32])
    ensures { words.new ≡ fields_drawn (length words.old) key val }
{
    words.fill(0);
    if !words.is_empty() {
        words[0] = key;
    }
    if words.len() > 1 {
        words[1] = val;
    }
}

/// The fold over the words of what leaves. Nothing is put.
#[derive(Drop)]
pub(crate) struct Folding {
    pub(crate) word: u32,
}

impl<M: Clocked> EachCycle<M> for Folding {
    ghost fits = { λ _ _. Unit {0} };

    ghost bytes = { λ _ _. [] };

    ghost after = { λ folding cycle. record { word = fold_left folding.word cycle.left } };

    fn put_cycle<S: Sink>(
        &mut self,
        _machine: &M,
        _number: u64,
        left: Option<&[u32]>,
        _sink: &mut S,
    ) -> Result<(), SinkFault> {
        if let Some(words) = left {
            self.word = words
                .iter()
                .fold(self.word, |fold, word| fold_word(fold, *word));
        }
        Ok(())
    }
}

// The fold with one word more.
fn fold_word(fold: u32, word: u32) -> u32
    ensures { result ≡ folded fold word }
{
    fold.wrapping_mul(31).wrapping_add(word)
}
