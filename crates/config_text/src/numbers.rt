ghost use Rattle.std.specs.Prelude.{◌≡◌, length, min, true};
ghost use Rattle.config_text.specs.Reading.{all_digits, bin_from, container_from, count_from, modulus_from, option_from, port_from, rel_from, small_value, source_from, un_from, value_after, version_from, word_from};

use atom_traits::{Port, Rel, Source};
use banzai_config::Version;
use dom_words::{BinOp, UnOp};

fn are_digits(text: &[u8]) -> bool
    ensures { result ≡ all_digits text.now }
{
    text.iter().all(|b| b.is_ascii_digit())
}

#[tactic(auto, using(crate::proofs::Values::cap_ten))]
fn value_of(text: &[u8]) -> u64
    ensures { result ≡ min (value_after 0 text.now) 4294967296 }
{
    let mut value = 0u64;
    for b in text {
        value = (value * 10 + u64::from(b.saturating_sub(48))).min(4294967296);
    }
    value
}

fn small(text: &[u8]) -> Option<u32>
    ensures { result ≡ small_value true (value_after 0 text.now) }
{
    let value = value_of(text);
    if value < 4294967296 {
        Some(value as u32)
    } else {
        None
    }
}

/// A count: decimals without a leading zero, up to 4294967295.
pub(crate) fn count(text: &[u8]) -> Option<u32>
    ensures { result ≡ count_from text.now }
{
    match text {
        [] => None,
        [d, rest @ ..] => {
            if are_digits(text) && (*d != b'0' || rest.is_empty()) {
                small(text)
            } else {
                None
            }
        }
    }
}

/// A word in signed decimals, without a plus sign, a leading zero or `-0`.
pub(crate) fn word(text: &[u8]) -> Option<u32>
    ensures { result ≡ word_from text.now }
{
    match text {
        [] => None,
        [b, rest @ ..] => {
            if *b == b'-' {
                match count(rest) {
                    None => None,
                    Some(n) => {
                        if 1 <= n && n <= 2147483648 {
                            Some((4294967296 - u64::from(n)) as u32)
                        } else {
                            None
                        }
                    }
                }
            } else {
                match count(text) {
                    None => None,
                    Some(n) => { if n < 2147483648 { Some(n) } else { None } }
                }
            }
        }
    }
}

/// The number of a container.
pub(crate) fn container(text: &[u8]) -> Option<u32>
    ensures { result ≡ container_from text.now }
{
    match text {
        [] => None,
        [b, rest @ ..] => { if *b == b'c' { count(rest) } else { None } }
    }
}

/// A constant or a container.
pub(crate) fn port(text: &[u8]) -> Option<Port>
    ensures { result ≡ port_from text.now }
{
    match text {
        [] => None,
        [b, rest @ ..] => {
            if *b == b'#' {
                match word(rest) {
                    None => None,
                    Some(n) => Some(Port::Const(n)),
                }
            } else if *b == b'c' {
                match count(rest) {
                    None => None,
                    Some(n) => Some(Port::Container(n)),
                }
            } else {
                None
            }
        }
    }
}

/// A constant, a container or an old word.
pub(crate) fn source(text: &[u8]) -> Option<Source>
    ensures { result ≡ source_from text.now }
{
    match text {
        [] => None,
        [b, rest @ ..] => {
            if *b == b'#' {
                match word(rest) {
                    None => None,
                    Some(n) => Some(Source::Const(n)),
                }
            } else if *b == b'c' {
                match count(rest) {
                    None => None,
                    Some(n) => Some(Source::Container(n)),
                }
            } else if *b == b's' {
                if rest == b"0".as_slice() {
                    Some(Source::State(0))
                } else if rest == b"1".as_slice() {
                    Some(Source::State(1))
                } else {
                    None
                }
            } else {
                None
            }
        }
    }
}

/// The number of a container, or `-` for none.
pub(crate) fn option(text: &[u8]) -> Option<Option<u32>>
    ensures { result ≡ option_from text.now }
{
    if text == b"-".as_slice() {
        Some(None)
    } else {
        match container(text) {
            None => None,
            Some(n) => Some(Some(n)),
        }
    }
}

/// The operator with this name on one operand.
pub(crate) fn un_op(text: &[u8]) -> Option<UnOp>
    ensures { result ≡ un_from text.now }
{
    if text == b"neg".as_slice() {
        Some(UnOp::Neg)
    } else if text == b"inv".as_slice() {
        Some(UnOp::Inv)
    } else if text == b"not".as_slice() {
        Some(UnOp::Not)
    } else {
        None
    }
}

/// The operator with this name on two operands.
pub(crate) fn bin_op(text: &[u8]) -> Option<BinOp>
    ensures { result ≡ bin_from text.now }
{
    if text == b"mul".as_slice() {
        Some(BinOp::Mul)
    } else if text == b"div".as_slice() {
        Some(BinOp::Div)
    } else if text == b"rem".as_slice() {
        Some(BinOp::Rem)
    } else if text == b"add".as_slice() {
        Some(BinOp::Add)
    } else if text == b"sub".as_slice() {
        Some(BinOp::Sub)
    } else if text == b"shl".as_slice() {
        Some(BinOp::Shl)
    } else if text == b"shr".as_slice() {
        Some(BinOp::Shr)
    } else if text == b"lt".as_slice() {
        Some(BinOp::Lt)
    } else if text == b"le".as_slice() {
        Some(BinOp::Le)
    } else if text == b"gt".as_slice() {
        Some(BinOp::Gt)
    } else if text == b"ge".as_slice() {
        Some(BinOp::Ge)
    } else if text == b"eq".as_slice() {
        Some(BinOp::Eq)
    } else if text == b"ne".as_slice() {
        Some(BinOp::Ne)
    } else if text == b"and".as_slice() {
        Some(BinOp::BitAnd)
    } else if text == b"xor".as_slice() {
        Some(BinOp::BitXor)
    } else if text == b"or".as_slice() {
        Some(BinOp::BitOr)
    } else if text == b"land".as_slice() {
        Some(BinOp::And)
    } else if text == b"lor".as_slice() {
        Some(BinOp::Or)
    } else {
        None
    }
}

/// The relation with this name.
pub(crate) fn rel(text: &[u8]) -> Option<Rel>
    ensures { result ≡ rel_from text.now }
{
    if text == b"lt".as_slice() {
        Some(Rel::Lt)
    } else if text == b"eq".as_slice() {
        Some(Rel::Eq)
    } else {
        None
    }
}

/// The version with this number.
pub(crate) fn version(text: &[u8]) -> Option<Version>
    ensures { result ≡ version_from text.now }
{
    if text == b"1".as_slice() {
        Some(Version::One)
    } else if text == b"2".as_slice() {
        Some(Version::Two)
    } else {
        None
    }
}

/// A modulus: a count up to 2147483647.
pub(crate) fn modulus(text: &[u8]) -> Option<u32>
    ensures { result ≡ modulus_from text.now }
{
    match count(text) {
        None => None,
        Some(n) => { if n <= 2147483647 { Some(n) } else { None } }
    }
}
