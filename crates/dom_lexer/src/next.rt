ghost use Rattle.std.specs.Prelude.{◌≡◌, [], ◌∷◌, drop, ◌<◌, ◌≤◌, ◌+◌, ◌==◌, length, nat_le, IfSome, true, min, Some, None, if◌then◌else◌, take};
ghost use Rattle.std.specs.List.{prefix_len};
ghost use Rattle.std.specs.Char.{is_ascii_digit, is_ascii_hexdigit};
ghost use Rattle.dom_lexer.specs.Bytes.{is_space, number_value, is_x, digit_of, based};
ghost use Rattle.dom_words.specs.Spelling.{is_word_byte};
ghost use Rattle.dom_lexer.specs.Text.{first_is, is_no_feed, starts, close_mark, greatest_number};
ghost use Rattle.dom_lexer.specs.inner.Next.{class_of, hex_len, number_len, number_form, close_len, mark_next, next_of, up_to};
ghost use Rattle.dom_lexer.specs.inner.Reads.{IsNext};

use crate::symbol::{begins, symbol};
use crate::token::Sym;

/// What stands first in a text.
#[derive(Clone, Copy, Debug)]
pub(crate) enum Next {
    /// A byte of white space or a comment, of so many bytes.
    Gap(usize),
    /// A comment that has no end.
    Unclosed,
    /// A byte that starts no white space, comment or token.
    Nothing,
    /// The start of a token.
    Start(Form),
}

/// The form of a token.
#[derive(Clone, Copy, Debug)]
pub(crate) enum Form {
    /// A word of so many bytes.
    Letters(usize),
    /// A number: its value, and its number of bytes.
    Digits(u32, usize),
    /// A number over 4294967295.
    TooBig,
    /// A number of so many bytes that a letter, a digit or `_` follows.
    Touched(usize),
    Symbol(Sym),
}

/// What a byte may start.
#[derive(Clone, Copy, Debug)]
pub(crate) enum Class {
    Blank,
    Letter,
    Digit,
    Other,
}

/// What stands first in a text that is not empty.
pub(crate) fn next_at(text: &[u8]) -> Next
    requires some { 0 < length text.now }
    requires room { length text.now ≤ 65536 }
    ensures { IsNext text.now result }
{
    first_piece(text)
}

fn first_piece(text: &[u8]) -> Next
    requires { length text.now ≤ 65536 }
    ensures { result ≡ next_of text.now }
{
    match text {
        [] => Next::Nothing,
        [byte, rest @ ..] => match class_at(*byte) {
            Class::Blank => Next::Gap(1),
            Class::Letter => Next::Start(Form::Letters(1 + word_bytes(rest))),
            Class::Digit => Next::Start(number(text)),
            Class::Other => mark(text),
        },
    }
}

fn class_at(byte: u8) -> Class
    ensures { result ≡ class_of byte }
{
    if byte == b' ' || (9 <= byte && byte <= 13) {
        Class::Blank
    } else if byte.is_ascii_alphabetic() || byte == b'_' {
        Class::Letter
    } else if byte.is_ascii_digit() {
        Class::Digit
    } else {
        Class::Other
    }
}

/// What a text has from a place on.
pub(crate) fn tail(text: &[u8], at: usize) -> &[u8]
    requires { at ≤ length text.now }
    ensures { result.now ≡ drop at text.now }
{
    &text[at..]
}

/// The first bytes of a text.
pub(crate) fn front(text: &[u8], count: usize) -> &[u8]
    requires { count ≤ length text.now }
    ensures { result.now ≡ take count text.now }
{
    &text[..count]
}

#[tactic(auto, using(crate::proofs::Runs::runs))]
fn word_bytes(text: &[u8]) -> usize
    ensures value { result ≡ prefix_len is_word_byte text.now }
    ensures within { result ≤ length text.now }
{
    text.iter()
        .take_while(|byte| byte.is_ascii_alphanumeric() || **byte == b'_')
        .count()
}

#[tactic(auto, using(crate::proofs::Runs::runs))]
fn digits(text: &[u8]) -> usize
    ensures value { result ≡ prefix_len is_ascii_digit text.now }
    ensures within { result ≤ length text.now }
{
    text.iter().take_while(|byte| byte.is_ascii_digit()).count()
}

#[tactic(auto, using(crate::proofs::Runs::runs))]
fn hex_digits(text: &[u8]) -> usize
    ensures value { result ≡ prefix_len is_ascii_hexdigit text.now }
    ensures within { result ≤ length text.now }
{
    text.iter()
        .take_while(|byte| byte.is_ascii_hexdigit())
        .count()
}

#[tactic(auto, using(crate::proofs::Runs::runs))]
fn line_bytes(text: &[u8]) -> usize
    ensures value { result ≡ prefix_len is_no_feed text.now }
    ensures within { result ≤ length text.now }
{
    text.iter().take_while(|byte| **byte != b'\n').count()
}

fn starts_with_hex(text: &[u8]) -> bool
    ensures { result ≡ first_is is_ascii_hexdigit text.now }
{
    match text {
        [] => false,
        [byte, ..] => byte.is_ascii_hexdigit(),
    }
}

fn starts_with_word_byte(text: &[u8]) -> bool
    ensures { result ≡ first_is is_word_byte text.now }
{
    match text {
        [] => false,
        [byte, ..] => byte.is_ascii_alphanumeric() || *byte == b'_',
    }
}

/// The number that stands first in a text.
fn number(text: &[u8]) -> Form
    requires { length text.now ≤ 65536 }
    ensures { result ≡ number_form text.now }
{
    let length = number_size(text);
    let touched = starts_with_word_byte(tail(text, length));
    match number_of(front(text, length)) {
        None => Form::TooBig,
        Some(value) => {
            if touched {
                Form::Touched(length)
            } else {
                Form::Digits(value, length)
            }
        }
    }
}

fn number_size(text: &[u8]) -> usize
    requires { length text.now ≤ 65536 }
    ensures value { result ≡ number_len text.now }
    ensures within { result ≤ length text.now }
{
    match text {
        [] => 0,
        [byte, rest @ ..] => {
            if *byte == b'0' {
                hex_size(rest)
            } else {
                1 + digits(rest)
            }
        }
    }
}

// The size of a number after its first digit, which is 0, and with it.
fn hex_size(text: &[u8]) -> usize
    requires { length text.now < 65536 }
    ensures value { result ≡ hex_len text.now }
    ensures within { result ≤ length text.now + 1 }
{
    match text {
        [] => 1,
        [x, rest @ ..] => {
            if (*x == b'x' || *x == b'X') && starts_with_hex(rest) {
                2 + hex_digits(rest)
            } else {
                1
            }
        }
    }
}

/// The value of a number's bytes, if it is at most 4294967295.
fn number_of(text: &[u8]) -> Option<u32>
    ensures { result ≡ up_to greatest_number (number_value text.now) }
{
    match text {
        [_, x, rest @ ..] => {
            if *x == b'x' || *x == b'X' {
                number_in(16, rest)
            } else {
                number_in(10, text)
            }
        }
        _ => number_in(10, text),
    }
}

/// The number that digits write in a base, if it is at most 4294967295.
#[tactic(auto, using(crate::proofs::Values::cap_step))]
fn number_in(base: u64, text: &[u8]) -> Option<u32>
    requires low { 1 ≤ base }
    requires high { base ≤ 16 }
    ensures { result ≡ up_to greatest_number (based base text.now) }
{
    let mut value = 0u64;
    for byte in text {
        value = (value * base + digit(*byte)).min(4294967296);
    }
    if value <= 4294967295 {
        Some(value as u32)
    } else {
        None
    }
}

fn digit(byte: u8) -> u64
    ensures value { result ≡ digit_of byte }
    ensures small { result < 256 }
{
    if byte.is_ascii_digit() {
        u64::from(byte - b'0')
    } else if byte >= b'a' {
        u64::from(byte - b'a' + 10)
    } else {
        u64::from(byte.saturating_sub(b'A' - 10))
    }
}

/// The comment or the symbol that stands first in a text.
fn mark(text: &[u8]) -> Next
    requires { length text.now ≤ 65536 }
    ensures { result ≡ mark_next text.now }
{
    if begins(text, b"//") {
        Next::Gap(2 + line_bytes(tail(text, 2)))
    } else if begins(text, b"/*") {
        match close(tail(text, 2)) {
            None => Next::Unclosed,
            Some(length) => Next::Gap(length + 2),
        }
    } else {
        match symbol(text) {
            None => Next::Nothing,
            Some(sym) => Next::Start(Form::Symbol(sym)),
        }
    }
}

/// How many bytes there are up to and with the first `*/`.
#[tactic(auto, using(crate::proofs::Blocks::close_step))]
fn close(text: &[u8]) -> Option<usize>
    requires { length text.now ≤ 65536 }
    ensures value { result ≡ close_len text.now }
    ensures within { IfSome result (λ n. n ≤ length text.now) }
{
    let mut at = 0;
    'bytes: while at < text.len() {
        if begins(tail(text, at), b"*/") {
            return Some(at + 2);
        }
        at += 1;
    }
    None
}
