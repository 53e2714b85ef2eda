// Rows of plain numbers, which are read without a record for each. Whatever else a text says is left to the reader of records.
ghost use Rattle.std.specs.Prelude.{◌≡◌, ◌≢◌, ◌+◌, ◌<◌, ◌≤◌, List, ℕ, [], ◌∷◌, ◌++◌, drop, length, take, true, IfNone, IfOk, IfSome, OnOk};
ghost use Rattle.std.specs.Char.{is_ascii_digit};
ghost use Rattle.std.specs.List.{list_all};
ghost use Rattle.csv.specs.Reading.{default_config, is_bom, records, strip_bom};
ghost use Rattle.dom_words.specs.Number.{count_of, digits_value, number_up_to, word_of_text};
ghost use Rattle.trace_text.specs.Plain.{ArePlainRows, IsPlainRow, LeadsWith, ends_line, ends_row, is_in_line};

use dom_words::Memory;
use std::alloc::Global;

/// Rows that were read: their numbers, row after row, how many rows there are, and the text behind them.
#[derive(Drop)]
pub(crate) struct PlainRows<'a> {
    pub(crate) cells: Vec<u32>,
    pub(crate) count: u32,
    pub(crate) behind: &'a [u8],
}

/// Reads the plain rows with which the text begins, up to the first row that is not plain or not so wide.
pub(crate) fn read_plain_rows<'a>(
    alloc: Global,
    text: &'a [u8],
    width: usize,
) -> Result<PlainRows<'a>, Memory>
    requires some { 0 < width }
    requires small { length text.now ≤ 16777216 }
    requires unmarked { strip_bom text.now ≡ text.now }
    ensures { IfOk result (λ rows. ArePlainRows width rows.count rows.cells.items text.entry.now rows.behind.now) }
{
    let mut cells = Vec::new(alloc);
    let mut count = 0u32;
    let mut behind = text;
    while let Some(rest) = next_plain_row(&mut cells, behind, width)? {
        count += 1;
        behind = rest;
    }
    Ok(PlainRows {
        cells,
        count,
        behind,
    })
}

// Puts the numbers of the next row at the end, if it is plain and so wide, and answers what stands behind it.
fn next_plain_row<'a>(
    cells: &mut Vec<u32>,
    text: &'a [u8],
    width: usize,
) -> Result<Option<&'a [u8]>, Memory>
    requires { 0 < width }
    ensures row { IfOk result (λ found. IfSome found (λ behind. IsPlainRow width cells.old.items cells.new.items text.entry.now behind.now)) }
    ensures none { IfOk result (λ found. IfNone found (cells.new.items ≡ cells.old.items)) }
{
    let before = cells.len();
    let row = behind_bytes(text, line_ends(text));
    let Some(behind) = push_plain_row(cells, row, width)? else {
        cells.truncate(before);
        return Ok(None);
    };
    Ok(Some(behind))
}

// The same for a row that begins at once; where it is not plain, some of its numbers may stand at the end.
fn push_plain_row<'a>(
    cells: &mut Vec<u32>,
    text: &'a [u8],
    width: usize,
) -> Result<Option<&'a [u8]>, Memory>
    requires { 0 < width }
    ensures row { IfOk result (λ found. IfSome found (λ behind. IsPlainRow width cells.old.items cells.new.items text.entry.now behind.now)) }
    ensures kept { OnOk result (take (length cells.old.items) cells.new.items ≡ cells.old.items) }
{
    let Some((gap, mut behind)) = leading_number(text, u32::MAX) else {
        return Ok(None);
    };
    push(cells, gap)?;
    for _column in 1..width {
        let Some(rest) = behind_byte(behind, b',') else {
            return Ok(None);
        };
        let Some((word, rest)) = leading_word(rest) else {
            return Ok(None);
        };
        push(cells, word)?;
        behind = rest;
    }
    if !is_row_end(behind) {
        return Ok(None);
    }
    Ok(Some(behind))
}

#[inline(always)]
fn push(cells: &mut Vec<u32>, number: u32) -> Result<(), Memory>
    ensures { OnOk result (cells.new.items ≡ cells.old.items ++ number ∷ []) }
{
    cells.push(number).map_err(|_| Memory)
}

// The word that the text begins with, and what stands behind it.
#[inline(always)]
fn leading_word(text: &[u8]) -> Option<(u32, &[u8])>
    ensures { IfSome result (λ p. LeadsWith word_of_text text.now p.0 p.1.now) }
{
    let Some(digits) = behind_byte(text, b'-') else {
        return leading_number(text, u32::MAX);
    };
    let (size, behind) = leading_number(digits, 1 << 31)?;
    Some((size.wrapping_neg(), behind))
}

// What stands behind the byte, if the text begins with it.
#[inline(always)]
fn behind_byte(text: &[u8], byte: u8) -> Option<&[u8]>
    ensures { IfSome result (λ rest. text.now ≡ byte ∷ rest.now) }
{
    if text.is_empty() || text[0] != byte {
        return None;
    }
    Some(behind_bytes(text, 1))
}

// What stands behind the first bytes.
#[inline(always)]
fn behind_bytes(text: &[u8], count: usize) -> &[u8]
    requires { count ≤ length text.now }
    ensures { result.now ≡ drop count text.now }
{
    &text[count..]
}

// The number of one to ten digits that the text begins with, if it is not above `most`, and what stands behind it.
#[inline(always)]
fn leading_number(text: &[u8], most: u32) -> Option<(u32, &[u8])>
    ensures { IfSome result (λ p. LeadsWith (number_up_to most) text.now p.0 p.1.now) }
{
    let (value, count) = leading_digits(text);
    if count == 0 || value > u64::from(most) {
        return None;
    }
    Some((value as u32, behind_bytes(text, count)))
}

// The number that the digits write with which the text begins, at most ten of them, and how many they are.
#[inline(always)]
fn leading_digits(text: &[u8]) -> (u64, usize)
    ensures few { result.1 ≤ 10 }
    ensures within { result.1 ≤ length text.now }
    ensures digits { list_all is_ascii_digit (take result.1 text.now) ≡ true }
    ensures value { result.0 ≡ digits_value (take result.1 text.now) }
{
    let most = text.len().min(10);
    let mut value = 0u64;
    for count in 0..most {
        let byte = text[count];
        if !byte.is_ascii_digit() {
            return (value, count);
        }
        value = value * 10 + u64::from(byte - b'0');
    }
    (value, most)
}

// How many of the first bytes end lines.
#[inline(always)]
fn line_ends(text: &[u8]) -> usize
    ensures within { result ≤ length text.now }
    ensures ends { list_all ends_line (take result text.now) ≡ true }
{
    for count in 0..text.len() {
        if !is_line_end(text[count]) {
            return count;
        }
    }
    text.len()
}

// How many of the first bytes neither end a line nor are quotes.
fn line_size(text: &[u8]) -> usize
    ensures within { result ≤ length text.now }
    ensures inside { list_all is_in_line (take result text.now) ≡ true }
{
    for count in 0..text.len() {
        if is_line_end(text[count]) || text[count] == b'"' {
            return count;
        }
    }
    text.len()
}

#[inline(always)]
fn is_line_end(byte: u8) -> bool
    ensures { result ≡ ends_line byte }
{
    byte == b'\r' || byte == b'\n'
}

// Whether the text begins with the end of a line, or is at its own end.
#[inline(always)]
fn is_row_end(text: &[u8]) -> bool
    ensures { result ≡ ends_row text.now }
{
    match text {
        [] => true,
        [byte, ..] => is_line_end(*byte),
    }
}

/// The text from the end of the heading's line on, if there is no quote in that line.
pub(crate) fn rows_behind_heading(text: &[u8]) -> Option<&[u8]>
    ensures rows { IfSome result (λ rows. (heading : List (List ℕ)) (rest : List (List (List ℕ))) → records default_config (strip_bom text.now) ≡ heading ∷ rest → rest ≡ records default_config rows.now) }
    ensures unmarked { IfSome result (λ rows. strip_bom rows.now ≡ rows.now) }
    ensures shorter { IfSome result (λ rows. length rows.now ≤ length text.now) }
{
    let text = without_mark(text);
    let heading = behind_bytes(text, line_ends(text));
    let size = line_size(heading);
    let rows = behind_bytes(heading, size);
    if size > 0 && is_row_end(rows) {
        Some(rows)
    } else {
        None
    }
}

// The text without a byte order mark.
fn without_mark(text: &[u8]) -> &[u8]
    ensures { result.now ≡ strip_bom text.now }
{
    if text.len() >= 3 && is_mark(text[0], text[1], text[2]) {
        behind_bytes(text, 3)
    } else {
        text
    }
}

// Whether these are the bytes of the byte order mark.
fn is_mark(first: u8, second: u8, third: u8) -> bool
    ensures { result ≡ is_bom first second third }
{
    first == 0xEF && second == 0xBB && third == 0xBF
}
