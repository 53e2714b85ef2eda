ghost use Rattle.std.specs.Prelude.{◌≡◌, ◌+◌, ◌*◌, ◌<◌, ◌≤◌, ◌⊎◌, ℕ, All, List, [], ◌∷◌, ◌++◌, codes, decimal, length, map, max, vec_len, IfOk, IfSome};
ghost use Rattle.dom_io.specs.Causes.{HasCause};
ghost use Rattle.dom_io.specs.Held.{Puts};
ghost use Rattle.trace_text.specs.Lines.{after_commas, clock_line, count_text, done_line, drop_line, head_line, held_line, HasRoom, made, name_at, out_line, packet_line, place_line, reg_line, state_line, tap_line, touch_line, wait_line, word_text};

use dom_io::{Sink, SinkFault};
use dom_words::{ArrayList, Memory, Name, Names, Seq, signed};
use itoa::write_digits;
use std::alloc::Global;
use std::marker::Model;

/// The lines of a report. Each call makes one line with its line feed and puts it in one put; it answers `SinkFault`
/// where that put does, and the next call makes its line anew. The lines are made in a buffer that is taken once and has
/// room for the longest of them, so that no call but `new` takes memory. Seen as the names of the fields and of the
/// arrays, and the largest number of words that a line may have.
#[derive(Drop)]
pub struct Lines {
    fields: Seq<Name>,
    arrays: Seq<Name>,
    words: usize,
    line: Line,
}

impl Model for Lines {
    ghost use Rattle.std.specs.Prelude.{vec_len};
    ghost use Rattle.trace_text.specs.Lines.{Legend, HasRoom};

    ghost Value = { Legend };

    ghost view = { λ l. record { fields = l.fields; arrays = l.arrays; words = l.words } };

    ghost invariant = { λ l. HasRoom (record { fields = l.fields; arrays = l.arrays; words = l.words }) (vec_len l.line.bytes) };
}

impl Lines {
    /// Lines over these fields and arrays, whose names are copied, and over as many words as there are fields or
    /// containers, whichever are more.
    pub fn new(
        alloc: Global,
        fields: &Names,
        arrays: &ArrayList,
        containers: u32,
    ) -> Result<Lines, Memory>
        ensures fields { IfOk result (λ lines. lines.fields ≡ fields.now) }
        ensures arrays { IfOk result (λ lines. lines.arrays ≡ map (λ array. array.name) arrays.now) }
        ensures words { IfOk result (λ lines. lines.words ≡ max (length fields.now) containers) }
    {
        let words = fields.len().max(containers as usize);
        let fields = names_of_fields(alloc, fields)?;
        let arrays = names_of_arrays(alloc, arrays)?;
        let room = room_of(fields.as_slice(), arrays.as_slice(), words).ok_or(Memory)?;
        let line = Line::with_room(alloc, room)?;
        Ok(Lines {
            fields,
            arrays,
            words,
            line,
        })
    }

    /// Puts the heading: the word, `cycle`, `packet` or `event`, and the fields' names.
    pub fn head<S: Sink>(&mut self, sink: &mut S, word: &str) -> Result<(), SinkFault>
        requires { (word.now ≡ codes "cycle") ⊎ ((word.now ≡ codes "packet") ⊎ (word.now ≡ codes "event")) }
        ensures bytes { Puts (S.held sink.old) (S.held sink.new) (head_line word.now self.old.fields) result }
        ensures cause { HasCause (S.faults sink.old) (S.faults sink.new) result }
        ensures same { self.new ≡ self.old }
    {
        self.line.end();
        self.line.names(self.fields.as_slice());
        self.line.text(word.as_bytes());
        self.line.put(sink)
    }

    /// Puts the line of a packet: the cycle in which it left, or its number, and its words as signed numbers.
    pub fn packet<S: Sink>(
        &mut self,
        sink: &mut S,
        lead: u64,
        words: &[u32],
    ) -> Result<(), SinkFault>
        requires { length words.now ≤ self.old.words }
        ensures bytes { Puts (S.held sink.old) (S.held sink.new) (packet_line lead words.now) result }
        ensures cause { HasCause (S.faults sink.old) (S.faults sink.new) result }
        ensures same { self.new ≡ self.old }
    {
        self.line.end();
        self.line.words(words);
        self.line.lead(lead);
        self.line.put(sink)
    }

    /// Puts the line of a state word: the name of its array, counted from 0, its index and the word as a signed number.
    pub fn state<S: Sink>(
        &mut self,
        sink: &mut S,
        array: usize,
        index: u32,
        word: u32,
    ) -> Result<(), SinkFault>
        requires { array < length self.old.arrays }
        ensures bytes { Puts (S.held sink.old) (S.held sink.new) (state_line (name_at self.old.arrays array) index word) result }
        ensures cause { HasCause (S.faults sink.old) (S.faults sink.new) result }
        ensures same { self.new ≡ self.old }
    {
        self.line.end();
        self.line.word(word);
        self.line.count(u64::from(index));
        self.line.part(self.arrays.get(array).as_bytes());
        self.line.text(b"state");
        self.line.put(sink)
    }

    /// Puts the line of an array's place: the array's name, counted from 0, and the number of its stage.
    pub fn place<S: Sink>(
        &mut self,
        sink: &mut S,
        array: usize,
        stage: u32,
    ) -> Result<(), SinkFault>
        requires { array < length self.old.arrays }
        ensures bytes { Puts (S.held sink.old) (S.held sink.new) (place_line (name_at self.old.arrays array) stage) result }
        ensures cause { HasCause (S.faults sink.old) (S.faults sink.new) result }
        ensures same { self.new ≡ self.old }
    {
        self.line.end();
        self.line.count(u64::from(stage));
        self.line.part(self.arrays.get(array).as_bytes());
        self.line.text(b"place");
        self.line.put(sink)
    }

    /// Puts the line of a tap: its number and its value.
    pub fn tap<S: Sink>(&mut self, sink: &mut S, number: u64, value: u64) -> Result<(), SinkFault>
        ensures bytes { Puts (S.held sink.old) (S.held sink.new) (tap_line number value) result }
        ensures cause { HasCause (S.faults sink.old) (S.faults sink.new) result }
        ensures same { self.new ≡ self.old }
    {
        self.line.end();
        self.line.count(value);
        self.line.count(number);
        self.line.text(b"tap");
        self.line.put(sink)
    }

    /// Puts the line with which a cycle begins: its number, from 0.
    pub fn clock<S: Sink>(&mut self, sink: &mut S, cycle: u64) -> Result<(), SinkFault>
        ensures bytes { Puts (S.held sink.old) (S.held sink.new) (clock_line cycle) result }
        ensures cause { HasCause (S.faults sink.old) (S.faults sink.new) result }
        ensures same { self.new ≡ self.old }
    {
        self.line.end();
        self.line.count(cycle);
        self.line.text(b"cycle");
        self.line.put(sink)
    }

    /// Puts the line of a packet that leaves: its words as signed numbers.
    pub fn out<S: Sink>(&mut self, sink: &mut S, words: &[u32]) -> Result<(), SinkFault>
        requires { length words.now ≤ self.old.words }
        ensures bytes { Puts (S.held sink.old) (S.held sink.new) (out_line words.now) result }
        ensures cause { HasCause (S.faults sink.old) (S.faults sink.new) result }
        ensures same { self.new ≡ self.old }
    {
        self.line.end();
        self.line.words(words);
        self.line.text(b"out");
        self.line.put(sink)
    }

    /// Puts the line of a filled register: its number, from 0, and the words of its containers as signed numbers.
    pub fn reg<S: Sink>(&mut self, sink: &mut S, k: u32, words: &[u32]) -> Result<(), SinkFault>
        requires { length words.now ≤ self.old.words }
        ensures bytes { Puts (S.held sink.old) (S.held sink.new) (reg_line k words.now) result }
        ensures cause { HasCause (S.faults sink.old) (S.faults sink.new) result }
        ensures same { self.new ≡ self.old }
    {
        self.line.end();
        self.line.words(words);
        self.line.count(u64::from(k));
        self.line.text(b"reg");
        self.line.put(sink)
    }

    /// Puts the line of an element that a stage touches: the stage, the name of the array, counted from 0, and the index.
    pub fn touch<S: Sink>(
        &mut self,
        sink: &mut S,
        stage: u32,
        array: usize,
        index: u32,
    ) -> Result<(), SinkFault>
        requires { array < length self.old.arrays }
        ensures bytes { Puts (S.held sink.old) (S.held sink.new) (touch_line stage (name_at self.old.arrays array) index) result }
        ensures cause { HasCause (S.faults sink.old) (S.faults sink.new) result }
        ensures same { self.new ≡ self.old }
    {
        self.line.end();
        self.line.count(u64::from(index));
        self.line.part(self.arrays.get(array).as_bytes());
        self.line.count(u64::from(stage));
        self.line.text(b"touch");
        self.line.put(sink)
    }

    /// Puts the line of an event that was not ready: its number.
    pub fn wait<S: Sink>(&mut self, sink: &mut S, number: u64) -> Result<(), SinkFault>
        ensures bytes { Puts (S.held sink.old) (S.held sink.new) (wait_line number) result }
        ensures cause { HasCause (S.faults sink.old) (S.faults sink.new) result }
        ensures same { self.new ≡ self.old }
    {
        self.line.end();
        self.line.count(number);
        self.line.text(b"wait");
        self.line.put(sink)
    }

    /// Puts the line of how many packets are held.
    pub fn held<S: Sink>(&mut self, sink: &mut S, count: u64) -> Result<(), SinkFault>
        ensures bytes { Puts (S.held sink.old) (S.held sink.new) (held_line count) result }
        ensures cause { HasCause (S.faults sink.old) (S.faults sink.new) result }
        ensures same { self.new ≡ self.old }
    {
        self.line.end();
        self.line.count(count);
        self.line.text(b"held");
        self.line.put(sink)
    }

    /// Puts the line of a packet that is dropped: the cycle, and its words as signed numbers.
    pub fn drop<S: Sink>(
        &mut self,
        sink: &mut S,
        cycle: u64,
        words: &[u32],
    ) -> Result<(), SinkFault>
        requires { length words.now ≤ self.old.words }
        ensures bytes { Puts (S.held sink.old) (S.held sink.new) (drop_line cycle words.now) result }
        ensures cause { HasCause (S.faults sink.old) (S.faults sink.new) result }
        ensures same { self.new ≡ self.old }
    {
        self.line.end();
        self.line.words(words);
        self.line.count(cycle);
        self.line.text(b"drop");
        self.line.put(sink)
    }

    /// Puts the last line: the number of packets, and the number of cycles where cycles are counted.
    pub fn done<S: Sink>(
        &mut self,
        sink: &mut S,
        packets: u64,
        cycles: Option<u64>,
    ) -> Result<(), SinkFault>
        ensures bytes { Puts (S.held sink.old) (S.held sink.new) (done_line packets cycles) result }
        ensures cause { HasCause (S.faults sink.old) (S.faults sink.new) result }
        ensures same { self.new ≡ self.old }
    {
        self.line.end();
        if let Some(cycles) = cycles {
            self.line.count(cycles);
        }
        self.line.count(packets);
        self.line.text(b"done");
        self.line.put(sink)
    }
}

// A line while it is made, from its last byte to its first, so that each number is written where it stays. What is made stands
// from `start` on in a buffer that has had its room from the beginning.
#[derive(Drop)]
struct Line {
    bytes: Vec<u8>,
    start: usize,
    ghost line_is_within: { start ≤ vec_len bytes },
}

impl Line {
    fn with_room(alloc: Global, room: usize) -> Result<Line, Memory>
        ensures { IfOk result (λ line. vec_len line.bytes ≡ room) }
    {
        let bytes = vec![in alloc; 0u8; room].map_err(|_| Memory)?;
        Ok(Line { bytes, start: room })
    }

    // Begins the next line with its line feed.
    #[inline(always)]
    fn end(&mut self)
        requires { 0 < vec_len self.old.bytes }
        ensures text { made self.new.start self.new.bytes.items ≡ 10 ∷ [] }
        ensures left { self.new.start + 1 ≡ vec_len self.old.bytes }
        ensures room { vec_len self.new.bytes ≡ vec_len self.old.bytes }
    {
        self.start = self.bytes.len();
        self.byte(b'\n');
    }

    #[inline(always)]
    fn byte(&mut self, byte: u8)
        requires { 0 < self.old.start }
        ensures text { made self.new.start self.new.bytes.items ≡ byte ∷ made self.old.start self.old.bytes.items }
        ensures left { self.new.start + 1 ≡ self.old.start }
        ensures room { vec_len self.new.bytes ≡ vec_len self.old.bytes }
    {
        let at = self.start - 1;
        self.bytes[at] = byte;
        self.start = at;
    }

    #[inline(always)]
    fn text(&mut self, text: &[u8])
        requires { length text.now ≤ self.old.start }
        ensures text { made self.new.start self.new.bytes.items ≡ text.now ++ made self.old.start self.old.bytes.items }
        ensures left { self.new.start + length text.now ≡ self.old.start }
        ensures room { vec_len self.new.bytes ≡ vec_len self.old.bytes }
    {
        let end = self.start;
        let at = end - text.len();
        self.bytes[at..end].copy_from_slice(text);
        self.start = at;
    }

    // The number in decimals.
    #[inline(always)]
    fn decimals(&mut self, number: u64)
        requires { length (decimal number) ≤ self.old.start }
        ensures text { made self.new.start self.new.bytes.items ≡ decimal number ++ made self.old.start self.old.bytes.items }
        ensures left { self.new.start + length (decimal number) ≡ self.old.start }
        ensures room { vec_len self.new.bytes ≡ vec_len self.old.bytes }
    {
        self.start = write_digits(number, self.bytes.as_mut_slice(), self.start);
    }

    // A comma and the text.
    #[inline(always)]
    fn part(&mut self, text: &[u8])
        requires { length text.now < self.old.start }
        ensures text { made self.new.start self.new.bytes.items ≡ 44 ∷ text.now ++ made self.old.start self.old.bytes.items }
        ensures left { self.new.start + length text.now + 1 ≡ self.old.start }
        ensures room { vec_len self.new.bytes ≡ vec_len self.old.bytes }
    {
        self.text(text);
        self.byte(b',');
    }

    // The count that begins a line, in decimals.
    fn lead(&mut self, count: u64)
        requires { 20 ≤ self.old.start }
        ensures text { made self.new.start self.new.bytes.items ≡ count_text count ++ made self.old.start self.old.bytes.items }
        ensures left { self.old.start ≤ self.new.start + 20 }
        ensures some { self.new.start < self.old.start }
        ensures room { vec_len self.new.bytes ≡ vec_len self.old.bytes }
    {
        self.decimals(count);
    }

    // A comma and the count, in decimals.
    fn count(&mut self, count: u64)
        requires { 21 ≤ self.old.start }
        ensures text { made self.new.start self.new.bytes.items ≡ 44 ∷ count_text count ++ made self.old.start self.old.bytes.items }
        ensures left { self.old.start ≤ self.new.start + 21 }
        ensures room { vec_len self.new.bytes ≡ vec_len self.old.bytes }
    {
        self.lead(count);
        self.byte(b',');
    }

    // A comma and the word, in signed decimals.
    #[inline(always)]
    fn word(&mut self, word: u32)
        requires { 12 ≤ self.old.start }
        ensures text { made self.new.start self.new.bytes.items ≡ 44 ∷ word_text word ++ made self.old.start self.old.bytes.items }
        ensures left { self.old.start ≤ self.new.start + 12 }
        ensures room { vec_len self.new.bytes ≡ vec_len self.old.bytes }
    {
        let number = signed(word);
        self.decimals(u64::from(number.unsigned_abs()));
        if number < 0 {
            self.byte(b'-');
        }
        self.byte(b',');
    }

    // The names, each after a comma.
    fn names(&mut self, names: &[Name])
        requires { length (after_commas names.now) ≤ self.old.start }
        ensures text { made self.new.start self.new.bytes.items ≡ after_commas names.now ++ made self.old.start self.old.bytes.items }
        ensures left { self.new.start + length (after_commas names.now) ≡ self.old.start }
        ensures room { vec_len self.new.bytes ≡ vec_len self.old.bytes }
    {
        for k in (0..names.len()).rev() {
            self.part(names[k].as_bytes());
        }
    }

    // The words in signed decimals, each after a comma.
    #[inline(always)]
    fn words(&mut self, words: &[u32])
        requires { 12 * length words.now ≤ self.old.start }
        ensures text { made self.new.start self.new.bytes.items ≡ after_commas (map word_text words.now) ++ made self.old.start self.old.bytes.items }
        ensures left { self.old.start ≤ self.new.start + 12 * length words.now }
        ensures room { vec_len self.new.bytes ≡ vec_len self.old.bytes }
    {
        for k in (0..words.len()).rev() {
            self.word(words[k]);
        }
    }

    fn put<S: Sink>(&self, sink: &mut S) -> Result<(), SinkFault>
        requires { self.now.start < vec_len self.now.bytes }
        ensures bytes { Puts (S.held sink.old) (S.held sink.new) (made self.now.start self.now.bytes.items) result }
        ensures cause { HasCause (S.faults sink.old) (S.faults sink.new) result }
    {
        sink.put(&self.bytes[self.start..])
    }
}

// The room for the longest line over these fields, these arrays and as many words, if that is a number of the machine.
fn room_of(fields: &[Name], arrays: &[Name], words: usize) -> Option<usize>
    ensures { IfSome result (λ room. HasRoom (record { fields = fields.now; arrays = arrays.now; words = words }) room) }
{
    let heading = room_of_heading(fields)?;
    let longest = longest_name(arrays);
    let numbers = words.checked_mul(12)?;
    heading.max(longest).max(numbers).checked_add(64)
}

// The bytes of the names, each after a comma.
fn room_of_heading(names: &[Name]) -> Option<usize>
    ensures { IfSome result (λ room. room ≡ length (after_commas names.now)) }
{
    let mut room = 0usize;
    for name in names {
        room = room.checked_add(name.len())?.checked_add(1)?;
    }
    Some(room)
}

// The most bytes that a name has.
fn longest_name(names: &[Name]) -> usize
    ensures { All (λ name. length name ≤ result) names.now }
{
    names.iter().map(|name| name.len()).max().unwrap_or(0)
}

fn names_of_fields(alloc: Global, fields: &Names) -> Result<Seq<Name>, Memory>
    ensures { IfOk result (λ names. names ≡ fields.now) }
{
    let mut names = Seq::new(alloc);
    for k in 0..fields.len() {
        names.push(Name::of(alloc, fields.get(k))?)?;
    }
    Ok(names)
}

fn names_of_arrays(alloc: Global, arrays: &ArrayList) -> Result<Seq<Name>, Memory>
    ensures { IfOk result (λ names. names ≡ map (λ array. array.name) arrays.now) }
{
    let mut names = Seq::new(alloc);
    for array in arrays.as_slice() {
        names.push(Name::of(alloc, array.name.as_bytes())?)?;
    }
    Ok(names)
}
