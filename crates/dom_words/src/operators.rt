ghost use Rattle.std.specs.Prelude.{◌≡◌, ◌%◌, ◌<◌, ◌≤◌};
ghost use Rattle.dom_words.specs.Operators.{bin_word, chosen, reduced, truth_of, un_word};

use crate::number::signed;

/// An operator before its operand: `-`, `~`, `!`.
#[derive(Clone, Copy, Debug, PartialEq, Eq)]
pub enum UnOp {
    Neg,
    Inv,
    Not,
}

/// An operator between two operands.
#[derive(Clone, Copy, Debug, PartialEq, Eq)]
pub enum BinOp {
    Mul,
    Div,
    Rem,
    Add,
    Sub,
    Shl,
    Shr,
    Lt,
    Le,
    Gt,
    Ge,
    Eq,
    Ne,
    BitAnd,
    BitXor,
    BitOr,
    And,
    Or,
}

/// What the operator gives on the word (docs/LANGUAGE.md, "Operators").
pub fn apply_un(op: UnOp, a: u32) -> u32
    ensures { result ≡ un_word op a }
{
    match op {
        UnOp::Neg => a.wrapping_neg(),
        UnOp::Inv => !a,
        UnOp::Not => truth(a == 0),
    }
}

/// What the operator gives on the words (docs/LANGUAGE.md, "Operators").
#[inline(always)]
pub fn apply_bin(op: BinOp, a: u32, b: u32) -> u32
    ensures { result ≡ bin_word op a b }
{
    match op {
        BinOp::Mul => a.wrapping_mul(b),
        BinOp::Div => divide(a, b),
        BinOp::Rem => remainder(a, b),
        BinOp::Add => a.wrapping_add(b),
        BinOp::Sub => a.wrapping_sub(b),
        BinOp::Shl => a.wrapping_shl(b),
        BinOp::Shr => signed(a).wrapping_shr(b).cast_unsigned(),
        BinOp::Lt => truth(signed(a) < signed(b)),
        BinOp::Le => truth(signed(a) <= signed(b)),
        BinOp::Gt => truth(signed(a) > signed(b)),
        BinOp::Ge => truth(signed(a) >= signed(b)),
        BinOp::Eq => truth(a == b),
        BinOp::Ne => truth(a != b),
        BinOp::BitAnd => a & b,
        BinOp::BitXor => a ^ b,
        BinOp::BitOr => a | b,
        BinOp::And => truth(a != 0 && b != 0),
        BinOp::Or => truth(a != 0 || b != 0),
    }
}

/// `a` where `c` is not 0, else `b`.
pub fn choose(c: u32, a: u32, b: u32) -> u32
    ensures { result ≡ chosen c a b }
{
    if c != 0 { a } else { b }
}

/// The element that an index reaches in an array of `length` words: the index is taken without a sign, modulo the length.
pub fn element(index: u32, length: u32) -> u32
    requires { 1 ≤ length }
    ensures value { result ≡ index % length }
    ensures within { result < length }
{
    index % length
}

/// A word modulo `modulus`; the modulus 0 is none, and leaves the word as it is.
pub fn reduce(word: u32, modulus: u32) -> u32
    ensures { result ≡ reduced modulus word }
{
    if modulus == 0 { word } else { word % modulus }
}

fn divide(a: u32, b: u32) -> u32
    ensures { result ≡ bin_word BinOp.Div a b }
{
    if b == 0 {
        0
    } else {
        signed(a).wrapping_div(signed(b)).cast_unsigned()
    }
}

fn remainder(a: u32, b: u32) -> u32
    ensures { result ≡ bin_word BinOp.Rem a b }
{
    if b == 0 {
        0
    } else {
        signed(a).wrapping_rem(signed(b)).cast_unsigned()
    }
}

fn truth(b: bool) -> u32
    ensures { result ≡ truth_of b }
{
    u32::from(b)
}
