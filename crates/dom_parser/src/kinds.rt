ghost use Rattle.std.specs.Prelude.{◌≡◌, ◌<◌, IfErr, IfOk, IfSome, length};
ghost use Rattle.dom_parser.specs.inner.Following.{begin_of, begins_operand, declared_of, declares, goes_on, lead_of, leads, suffix_of};
ghost use Rattle.dom_parser.specs.inner.AtPlace.{Where, is_fixed as fixed_is, is_name as name_is, is_there, number_of, operator_of, text_at as text_there, unary_of};
ghost use Rattle.dom_parser.specs.Tokens.{found_in, offset_at, own_kinds, rank_of, stands, symbol_kind as kind_of_symbol, token_kind, word_kind as kind_of_word, is_minus as minus_is};

use crate::faults::Fault;
use dom_lexer::{Sym, Token, TokenKind};
use dom_words::{BinOp, Name, UnOp, is_forbidden};
use std::alloc::Global;

/// An own word of the language, or a symbol that is no operator.
#[derive(Clone, Copy, Debug, PartialEq, Eq)]
pub(crate) enum Fixed {
    Struct,
    Int,
    Void,
    If,
    Else,
    Define,
    Assign,
    Question,
    Colon,
    Semi,
    Comma,
    Dot,
    OpenParen,
    CloseParen,
    OpenBracket,
    CloseBracket,
    OpenBrace,
    CloseBrace,
    Hash,
}

/// What a token is to the grammar. `-` is the operator `Sub`.
#[derive(Clone, Copy, Debug, PartialEq, Eq)]
pub(crate) enum Kind {
    Name,
    Number(u32),
    Fixed(Fixed),
    Inv,
    Not,
    Operator(BinOp),
    Forbidden,
    /// No token: the text ends.
    End,
}

/// What stands at a place.
pub(crate) fn kind_at(tokens: &[Token], at: usize) -> Kind
    ensures value { result ≡ stands tokens.now at }
    ensures within { Where (is_there result) (at < length tokens.now) }
{
    match tokens.get(at) {
        None => Kind::End,
        Some(token) => kind_of(&token.kind),
    }
}

fn kind_of(kind: &TokenKind) -> Kind
    ensures { result ≡ token_kind kind.now }
{
    match kind {
        TokenKind::Word(name) => word_kind(name.as_bytes()),
        TokenKind::Number(word) => Kind::Number(*word),
        TokenKind::Sym(sym) => symbol_kind(*sym),
    }
}

fn word_kind(text: &[u8]) -> Kind
    ensures { result ≡ kind_of_word text.now }
{
    match own_word(text) {
        Some(own) => Kind::Fixed(own),
        None => {
            if is_forbidden(text) {
                Kind::Forbidden
            } else {
                Kind::Name
            }
        }
    }
}

/// What an own word of the language is.
fn own_word(text: &[u8]) -> Option<Fixed>
    ensures { result ≡ found_in own_kinds text.now }
{
    if text == b"struct".as_slice() {
        Some(Fixed::Struct)
    } else if text == b"int".as_slice() {
        Some(Fixed::Int)
    } else if text == b"void".as_slice() {
        Some(Fixed::Void)
    } else if text == b"if".as_slice() {
        Some(Fixed::If)
    } else if text == b"else".as_slice() {
        Some(Fixed::Else)
    } else if text == b"define".as_slice() {
        Some(Fixed::Define)
    } else {
        None
    }
}

fn symbol_kind(sym: Sym) -> Kind
    ensures { result ≡ kind_of_symbol sym }
{
    match sym {
        Sym::Shl => Kind::Operator(BinOp::Shl),
        Sym::Shr => Kind::Operator(BinOp::Shr),
        Sym::Le => Kind::Operator(BinOp::Le),
        Sym::Ge => Kind::Operator(BinOp::Ge),
        Sym::EqEq => Kind::Operator(BinOp::Eq),
        Sym::NotEq => Kind::Operator(BinOp::Ne),
        Sym::AndAnd => Kind::Operator(BinOp::And),
        Sym::OrOr => Kind::Operator(BinOp::Or),
        Sym::Plus => Kind::Operator(BinOp::Add),
        Sym::Minus => Kind::Operator(BinOp::Sub),
        Sym::Star => Kind::Operator(BinOp::Mul),
        Sym::Slash => Kind::Operator(BinOp::Div),
        Sym::Percent => Kind::Operator(BinOp::Rem),
        Sym::Less => Kind::Operator(BinOp::Lt),
        Sym::Greater => Kind::Operator(BinOp::Gt),
        Sym::Assign => Kind::Fixed(Fixed::Assign),
        Sym::Bang => Kind::Not,
        Sym::Tilde => Kind::Inv,
        Sym::Amp => Kind::Operator(BinOp::BitAnd),
        Sym::Bar => Kind::Operator(BinOp::BitOr),
        Sym::Caret => Kind::Operator(BinOp::BitXor),
        Sym::Question => Kind::Fixed(Fixed::Question),
        Sym::Colon => Kind::Fixed(Fixed::Colon),
        Sym::Semi => Kind::Fixed(Fixed::Semi),
        Sym::Comma => Kind::Fixed(Fixed::Comma),
        Sym::Dot => Kind::Fixed(Fixed::Dot),
        Sym::OpenParen => Kind::Fixed(Fixed::OpenParen),
        Sym::CloseParen => Kind::Fixed(Fixed::CloseParen),
        Sym::OpenBracket => Kind::Fixed(Fixed::OpenBracket),
        Sym::CloseBracket => Kind::Fixed(Fixed::CloseBracket),
        Sym::OpenBrace => Kind::Fixed(Fixed::OpenBrace),
        Sym::CloseBrace => Kind::Fixed(Fixed::CloseBrace),
        Sym::Hash => Kind::Fixed(Fixed::Hash),
    }
}

/// How weakly an operator binds, from 1 to 10.
fn rank(op: BinOp) -> u32
    ensures { result ≡ rank_of op }
{
    match op {
        BinOp::Mul | BinOp::Div | BinOp::Rem => 1,
        BinOp::Add | BinOp::Sub => 2,
        BinOp::Shl | BinOp::Shr => 3,
        BinOp::Lt | BinOp::Le | BinOp::Gt | BinOp::Ge => 4,
        BinOp::Eq | BinOp::Ne => 5,
        BinOp::BitAnd => 6,
        BinOp::BitXor => 7,
        BinOp::BitOr => 8,
        BinOp::And => 9,
        BinOp::Or => 10,
    }
}

/// The operator of a rank at a place.
pub(crate) fn operator_at(tokens: &[Token], at: usize, wanted: u32) -> Option<BinOp>
    ensures value { result ≡ operator_of wanted (stands tokens.now at) }
    ensures within { IfSome result (λ _. at < length tokens.now) }
{
    match kind_at(tokens, at) {
        Kind::Operator(op) => { if rank(op) == wanted { Some(op) } else { None } }
        _ => None,
    }
}

/// The operator of one operand at a place.
pub(crate) fn unary_at(tokens: &[Token], at: usize) -> Option<UnOp>
    ensures value { result ≡ unary_of (stands tokens.now at) }
    ensures within { IfSome result (λ _. at < length tokens.now) }
{
    match kind_at(tokens, at) {
        Kind::Operator(op) => {
            if matches!(op, BinOp::Sub) {
                Some(UnOp::Neg)
            } else {
                None
            }
        }
        Kind::Inv => Some(UnOp::Inv),
        Kind::Not => Some(UnOp::Not),
        _ => None,
    }
}

/// The word of the number at a place.
pub(crate) fn number_at(tokens: &[Token], at: usize) -> Option<u32>
    ensures value { result ≡ number_of (stands tokens.now at) }
    ensures within { IfSome result (λ _. at < length tokens.now) }
{
    match kind_at(tokens, at) {
        Kind::Number(word) => Some(word),
        _ => None,
    }
}

#[tactic(auto, using(crate::proofs::Steps::within))]
/// Whether this own word or symbol stands at a place.
pub(crate) fn is_fixed(tokens: &[Token], at: usize, fixed: Fixed) -> bool
    ensures value { result ≡ fixed_is fixed (stands tokens.now at) }
    ensures within { Where result (at < length tokens.now) }
{
    match kind_at(tokens, at) {
        Kind::Fixed(there) => there == fixed,
        _ => false,
    }
}

#[tactic(auto, using(crate::proofs::Steps::within))]
pub(crate) fn is_name(tokens: &[Token], at: usize) -> bool
    ensures value { result ≡ name_is (stands tokens.now at) }
    ensures within { Where result (at < length tokens.now) }
{
    matches!(kind_at(tokens, at), Kind::Name)
}

/// What may begin an operand that has no operator before it.
#[derive(Clone, Copy, Debug, PartialEq, Eq)]
pub(crate) enum Begin {
    Number(u32),
    Name,
    Paren,
    Other,
}

pub(crate) fn begin_at(tokens: &[Token], at: usize) -> Begin
    ensures value { result ≡ begin_of (stands tokens.now at) }
    ensures within { Where (begins_operand result) (at < length tokens.now) }
{
    match kind_at(tokens, at) {
        Kind::Number(word) => Begin::Number(word),
        Kind::Name => Begin::Name,
        Kind::Fixed(fixed) => match fixed {
            Fixed::OpenParen => Begin::Paren,
            _ => Begin::Other,
        },
        _ => Begin::Other,
    }
}

/// What may follow a name.
#[derive(Clone, Copy, Debug, PartialEq, Eq)]
pub(crate) enum Suffix {
    Dot,
    Bracket,
    Paren,
    Other,
}

pub(crate) fn suffix_at(tokens: &[Token], at: usize) -> Suffix
    ensures value { result ≡ suffix_of (stands tokens.now at) }
    ensures within { Where (goes_on result) (at < length tokens.now) }
{
    match kind_at(tokens, at) {
        Kind::Fixed(fixed) => match fixed {
            Fixed::Dot => Suffix::Dot,
            Fixed::OpenBracket => Suffix::Bracket,
            Fixed::OpenParen => Suffix::Paren,
            _ => Suffix::Other,
        },
        _ => Suffix::Other,
    }
}

/// What may begin a statement or a branch.
#[derive(Clone, Copy, Debug, PartialEq, Eq)]
pub(crate) enum Lead {
    Block,
    Assign,
    If,
    Other,
}

pub(crate) fn lead_at(tokens: &[Token], at: usize) -> Lead
    ensures value { result ≡ lead_of (stands tokens.now at) }
    ensures within { Where (leads result) (at < length tokens.now) }
{
    match kind_at(tokens, at) {
        Kind::Name => Lead::Assign,
        Kind::Fixed(fixed) => match fixed {
            Fixed::OpenBrace => Lead::Block,
            Fixed::If => Lead::If,
            _ => Lead::Other,
        },
        _ => Lead::Other,
    }
}

#[tactic(auto, using(crate::proofs::Steps::within))]
/// Whether a `-` stands at a place.
pub(crate) fn is_minus(tokens: &[Token], at: usize) -> bool
    ensures value { result ≡ minus_is (stands tokens.now at) }
    ensures within { Where result (at < length tokens.now) }
{
    match kind_at(tokens, at) {
        Kind::Operator(op) => matches!(op, BinOp::Sub),
        _ => false,
    }
}

/// What may begin a definition or a global.
#[derive(Clone, Copy, Debug, PartialEq, Eq)]
pub(crate) enum Declared {
    Define,
    Global,
    Other,
}

pub(crate) fn declared_at(tokens: &[Token], at: usize) -> Declared
    ensures value { result ≡ declared_of (stands tokens.now at) }
    ensures within { Where (declares result) (at < length tokens.now) }
{
    match kind_at(tokens, at) {
        Kind::Fixed(fixed) => match fixed {
            Fixed::Hash => Declared::Define,
            Fixed::Int => Declared::Global,
            _ => Declared::Other,
        },
        _ => Declared::Other,
    }
}

/// The offset of the token at a place; 0 where no token stands.
pub(crate) fn offset(tokens: &[Token], at: usize) -> u32
    ensures { result ≡ offset_at tokens.now at }
{
    match tokens.get(at) {
        None => 0,
        Some(token) => token.at,
    }
}

/// A copy of the word at a place; empty where no word stands.
pub(crate) fn name_at(alloc: Global, tokens: &[Token], at: usize) -> Result<Name, Fault>
    ensures ok { IfOk result (λ name. name ≡ text_there tokens.now at) }
    ensures err { IfErr result (λ f. f ≡ Fault.Memory) }
{
    match Name::of(alloc, text_at(tokens, at)) {
        Ok(name) => Ok(name),
        Err(_) => Err(Fault::Memory),
    }
}

fn text_at(tokens: &[Token], at: usize) -> &[u8]
    ensures { result.now ≡ text_there tokens.now at }
{
    match tokens.get(at) {
        None => &[],
        Some(token) => match &token.kind {
            TokenKind::Word(name) => name.as_bytes(),
            _ => &[],
        },
    }
}
