ghost use Rattle.std.specs.Prelude.{◌≡◌, ◌+◌, ◌*◌, ◌<◌, ◌≤◌, ◌++◌, ◌∷◌, [], All, Err, IfErr, IfOk, IfSome, Ok, OnOk, None, drop, true, if◌then◌else◌, length, map, slice_index_or, take};
ghost use Rattle.csv.specs.Reading.{records, default_config, strip_bom};
ghost use Rattle.csv.specs.Records.{fields_of};
ghost use Rattle.dom_words.specs.Names.{index_of};
ghost use Rattle.trace_text.specs.Rows.{IsReading, rows_left};
ghost use Rattle.trace_text.specs.Stored.{numbers_of, stored_packet, stored_packets, word_at};
ghost use Rattle.trace_text.specs.Trace.{IsTraceOf, Tells, cycles_of, fields_refusal, gap_at, heading_refusal, most_cycles, refusal_of, rows_refusal, words_at};

use crate::plain::{read_plain_rows, rows_behind_heading};
use csv::{ByteRecord, Reader, ReaderBuilder};
use dom_words::{Memory, Name, Names, Packet, read_count, read_word};
use std::alloc::Global;
use std::marker::Model;

// The most cycles that a trace may take.
const MOST_CYCLES: u64 = 2_000_000;

/// Why a text is no trace. Columns are numbered from 1; so are the rows, without the heading.
#[derive(Debug, PartialEq, Eq, Clone, Copy)]
pub enum TraceFault {
    /// There is no record at all.
    NoHeader,
    /// This column of the heading is no field's name; the first column is not `gap`.
    UnknownColumn(u32),
    /// This column of the heading has the name of an earlier one.
    ColumnTwice(u32),
    /// This row is longer or shorter than the heading.
    RowLength(u32),
    /// In this row, the text in this column is no count or no word.
    BadValue(u32, u32),
    /// The packets, their gaps and the drain take so many cycles.
    TooManyCycles(u64),
    /// Want of memory.
    Memory,
}

impl From<Memory> for TraceFault {
    ghost use Rattle.std.specs.Prelude.{◌≡◌};
    ghost use Rattle.trace_text.specs.declared.trace.TraceFault.TheVariants as fault;

    ghost from_gives = { λ _ e. e ≡ fault.Memory };

    fn from(_memory: Memory) -> TraceFault {
        TraceFault::Memory
    }
}

/// The packets of a trace in order, seen as a list of pairs: the idle cycles before the packet, and its words, one for
/// each field.
#[derive(Drop)]
pub struct Trace {
    cells: Vec<u32>,
    width: usize,
    count: usize,
    columns: Vec<Option<usize>>,
}

impl Model for Trace {
    ghost use Rattle.std.specs.Prelude.{List, ℕ};
    ghost use Rattle.trace_text.specs.Stored.{IsStored, stored_packets};

    ghost Value = { List (ℕ × List ℕ) };

    ghost view = { λ t. stored_packets t.width t.columns.items t.count t.cells.items };

    ghost invariant = { λ t. IsStored t.width t.columns.items t.count t.cells.items };
}

impl Trace {
    /// The number of packets.
    pub fn packets(&self) -> usize
        ensures { result ≡ length self.now }
    {
        self.count
    }

    /// The idle cycles before packet `k`, from 0.
    pub fn gap(&self, k: usize) -> u32
        requires { k < length self.now }
        ensures { result ≡ gap_at self.now k }
    {
        row_at(self.cells.as_slice(), self.width, self.count, k)[0]
    }

    /// Writes the words of packet `k`, from 0, over those of `packet`, which has one for each field. A field without a
    /// column becomes 0.
    pub fn fill(&self, k: usize, packet: &mut Packet)
        requires within { k < length self.now }
        requires fields { length packet.old ≡ length (words_at self.now k) }
        ensures { packet.new ≡ words_at self.now k }
    {
        let row = row_at(self.cells.as_slice(), self.width, self.count, k);
        write_words(row, self.columns.as_slice(), packet.words_mut());
    }

    // The cycles in which its packets and their gaps enter.
    fn cycles(&self) -> u64
        requires { length self.now ≤ 16777216 }
        ensures value { result ≡ cycles_of self.now }
        ensures small { result ≤ length self.now * 4294967296 }
    {
        let mut cycles = 0u64;
        for k in 0..self.packets() {
            cycles += u64::from(self.gap(k)) + 1;
        }
        cycles
    }
}

// Row `k` of so many rows of one width.
fn row_at(cells: &[u32], width: usize, count: usize, k: usize) -> &[u32]
    requires within { k < count }
    requires rows { length cells.now ≡ count * width }
    ensures { result.now ≡ take width (drop (k * width) cells.now) }
{
    let start = k * width;
    &cells[start..start + width]
}

// Writes each field's word, from its column after the first.
fn write_words(row: &[u32], columns: &[Option<usize>], words: &mut [u32])
    requires columns { All (λ column. IfSome column (λ c. c + 1 < length row.now)) columns.now }
    requires words { length words.old ≡ length columns.now }
    ensures { words.new ≡ map (word_at row.now) columns.now }
{
    for field in 0..columns.len() {
        words[field] = match columns[field] {
            Some(column) => row[column + 1],
            None => 0,
        };
    }
}

/// Reads a trace, by docs/FORMATS.md, for these fields and a pipeline of this depth. Takes at most 16,777,216 bytes. The
/// fault is the first in this order: no record at all; the columns of the heading from left to right; the rows in order,
/// of each its length and then its texts from left to right; the cycles. Want of memory can come at any place.
pub fn read_trace(
    alloc: Global,
    text: &[u8],
    fields: &Names,
    depth: u32,
) -> Result<Trace, TraceFault>
    requires { length text.now ≤ 16777216 }
    ensures packets { IfOk result (λ trace. IsTraceOf text.now fields.now depth (Ok trace)) }
    ensures refused { IfErr result (λ fault. IfSome (refusal_of fault) (λ refusal. IsTraceOf text.now fields.now depth (Err refusal))) }
    ensures cycles { IfOk result (λ trace. cycles_of trace + depth ≤ most_cycles) }
    ensures words { IfOk result (λ trace. All (λ p. length p.1 ≡ length fields.now) trace) }
{
    let mut reader = reader_of(alloc, text);
    let mut row = ByteRecord::new(alloc);
    if !next_row(&mut reader, &mut row)? {
        return Err(TraceFault::NoHeader);
    }
    let names = read_heading(alloc, &row, fields)?;
    let columns = columns_of(alloc, &names, fields)?;
    let trace = read_rows_behind(alloc, text, &mut reader, &mut row, columns)?;
    let cycles = trace.cycles() + u64::from(depth);
    if cycles > MOST_CYCLES {
        return Err(TraceFault::TooManyCycles(cycles));
    }
    Ok(trace)
}

// A reader that takes each line as a record.
fn reader_of<'a>(alloc: Global, text: &'a [u8]) -> Reader<&'a [u8]>
    ensures reading { IsReading result }
    ensures rows { rows_left result ≡ records default_config (strip_bom text.entry.now) }
{
    ReaderBuilder::new()
        .has_headers(false)
        .flexible(true)
        .from_reader(alloc, text)
}

// Takes the next record into `row`; answers false where there is none. Every error of a reader over bytes in memory is
// want of memory.
fn next_row(reader: &mut Reader<&[u8]>, row: &mut ByteRecord) -> Result<bool, Memory>
    requires { IsReading reader.old }
    ensures reading { IfOk result (λ found. found ≡ true → IsReading reader.new) }
    ensures rows { IfOk result (λ found. rows_left reader.old ≡ (if found then fields_of row.new ∷ rows_left reader.new else [])) }
{
    let Ok(found) = reader.read_byte_record(row) else {
        return Err(Memory);
    };
    Ok(found)
}

// The text in column `c`, from 0.
fn text_at(row: &ByteRecord, c: usize) -> &[u8]
    requires { c < length (fields_of row.now) }
    ensures { result.now ≡ slice_index_or (fields_of row.now) c [] }
{
    let Some(text) = row.get(c) else {
        unreachable!()
    };
    text
}

// The names in the heading's columns after the first.
fn read_heading(alloc: Global, heading: &ByteRecord, fields: &Names) -> Result<Names, TraceFault>
    requires { length (fields_of heading.now) ≤ 16777217 }
    ensures good { OnOk result (heading_refusal fields.now (fields_of heading.now) ≡ None) }
    ensures names { IfOk result (λ names. names ≡ drop 1 (fields_of heading.now)) }
    ensures some { OnOk result (0 < length (fields_of heading.now)) }
    ensures refused { IfErr result (λ fault. Tells fault (heading_refusal fields.now (fields_of heading.now))) }
{
    if heading.len() == 0 || text_at(heading, 0) != b"gap".as_slice() {
        return Err(TraceFault::UnknownColumn(1));
    }
    let mut names = Names::new(alloc);
    for c in 1..heading.len() {
        let name = text_at(heading, c);
        if fields.find(name).is_none() {
            return Err(TraceFault::UnknownColumn(c as u32 + 1));
        }
        if !names.add(Name::of(alloc, name)?)? {
            return Err(TraceFault::ColumnTwice(c as u32 + 1));
        }
    }
    Ok(names)
}

// For each field the column with its name, among the columns with these names.
fn columns_of(alloc: Global, names: &Names, fields: &Names) -> Result<Vec<Option<usize>>, Memory>
    ensures { IfOk result (λ columns. columns.items ≡ map (λ field. index_of names.now field) fields.now) }
{
    let mut columns = Vec::new(alloc);
    for k in 0..fields.len() {
        columns.push(names.find(fields.get(k))).map_err(|_| Memory)?;
    }
    Ok(columns)
}

// Reads the rows behind the heading of a text. `row` holds the heading at first, and `reader` has read no more than that.
fn read_rows_behind(
    alloc: Global,
    text: &[u8],
    reader: &mut Reader<&[u8]>,
    row: &mut ByteRecord,
    columns: Vec<Option<usize>>,
) -> Result<Trace, TraceFault>
    requires text { records default_config (strip_bom text.now) ≡ fields_of row.old ∷ rows_left reader.old }
    requires small { length text.now ≤ 16777216 }
    requires reading { IsReading reader.old }
    requires rows { length (rows_left reader.old) ≤ 16777216 }
    requires some { 0 < length (fields_of row.old) }
    requires few { length (fields_of row.old) ≤ 16777217 }
    requires columns { All (λ column. IfSome column (λ c. c + 1 < length (fields_of row.old))) columns.items }
    ensures good { OnOk result (rows_refusal (length (fields_of row.old)) 1 (rows_left reader.old) ≡ None) }
    ensures packets { IfOk result (λ trace. trace ≡ map (λ r. stored_packet columns.items (numbers_of r)) (rows_left reader.old)) }
    ensures refused { IfErr result (λ fault. Tells fault (rows_refusal (length (fields_of row.old)) 1 (rows_left reader.old))) }
{
    match rows_behind_heading(text) {
        Some(rows) => read_lines(alloc, rows, row, columns),
        None => read_rows(reader, row, Vec::new(alloc), 0, columns),
    }
}

// Reads the rows of a text: the plain ones with which it begins, and then the others. `row` holds the heading at first.
fn read_lines(
    alloc: Global,
    text: &[u8],
    row: &mut ByteRecord,
    columns: Vec<Option<usize>>,
) -> Result<Trace, TraceFault>
    requires unmarked { strip_bom text.now ≡ text.now }
    requires small { length text.now ≤ 16777216 }
    requires rows { length (records default_config text.now) ≤ 16777216 }
    requires some { 0 < length (fields_of row.old) }
    requires few { length (fields_of row.old) ≤ 16777217 }
    requires columns { All (λ column. IfSome column (λ c. c + 1 < length (fields_of row.old))) columns.items }
    ensures good { OnOk result (rows_refusal (length (fields_of row.old)) 1 (records default_config text.now) ≡ None) }
    ensures packets { IfOk result (λ trace. trace ≡ map (λ r. stored_packet columns.items (numbers_of r)) (records default_config text.now)) }
    ensures refused { IfErr result (λ fault. Tells fault (rows_refusal (length (fields_of row.old)) 1 (records default_config text.now))) }
{
    let plain = read_plain_rows(alloc, text, row.len())?;
    let mut reader = reader_of(alloc, plain.behind);
    read_rows(&mut reader, row, plain.cells, plain.count, columns)
}

// Reads the rows that are left, behind `count` rows whose numbers are in `cells`. `row` holds a row of the same width at
// first, and at the end the last row.
fn read_rows(
    reader: &mut Reader<&[u8]>,
    row: &mut ByteRecord,
    mut cells: Vec<u32>,
    mut count: u32,
    columns: Vec<Option<usize>>,
) -> Result<Trace, TraceFault>
    requires reading { IsReading reader.old }
    requires rows { count + length (rows_left reader.old) ≤ 16777216 }
    requires some { 0 < length (fields_of row.old) }
    requires few { length (fields_of row.old) ≤ 16777217 }
    requires stored { length cells.items ≡ count * length (fields_of row.old) }
    requires columns { All (λ column. IfSome column (λ c. c + 1 < length (fields_of row.old))) columns.items }
    ensures good { OnOk result (rows_refusal (length (fields_of row.old)) (count + 1) (rows_left reader.old) ≡ None) }
    ensures packets { IfOk result (λ trace. trace ≡ stored_packets (length (fields_of row.old)) columns.items count cells.items ++ map (λ r. stored_packet columns.items (numbers_of r)) (rows_left reader.old)) }
    ensures refused { IfErr result (λ fault. Tells fault (rows_refusal (length (fields_of row.old)) (count + 1) (rows_left reader.old))) }
{
    let width = row.len();
    while next_row(reader, row)? {
        count += 1;
        if row.len() != width {
            return Err(TraceFault::RowLength(count));
        }
        push_row(&mut cells, row, count)?;
    }
    Ok(Trace {
        cells,
        width,
        count: count as usize,
        columns,
    })
}

// Puts the numbers of row `number` at the end.
fn push_row(cells: &mut Vec<u32>, row: &ByteRecord, number: u32) -> Result<(), TraceFault>
    requires some { 0 < length (fields_of row.now) }
    requires few { length (fields_of row.now) ≤ 16777217 }
    ensures good { OnOk result (fields_refusal number (fields_of row.now) ≡ None) }
    ensures cells { OnOk result (cells.new.items ≡ cells.old.items ++ numbers_of (fields_of row.now)) }
    ensures refused { IfErr result (λ fault. Tells fault (fields_refusal number (fields_of row.now))) }
{
    let Some(gap) = read_count(text_at(row, 0)) else {
        return Err(TraceFault::BadValue(number, 1));
    };
    cells.push(gap).map_err(|_| Memory)?;
    for c in 1..row.len() {
        let Some(word) = read_word(text_at(row, c)) else {
            return Err(TraceFault::BadValue(number, c as u32 + 1));
        };
        cells.push(word).map_err(|_| Memory)?;
    }
    Ok(())
}
