ghost use Rattle.std.specs.Prelude.{◌≡◌};
ghost use Rattle.dom_lexer.specs.declared.token.LexFault.TheVariants.{Memory as want};

use dom_words::{Memory, Name, Seq};

/// A symbol, as `Shl` for `<<` and `Hash` for `#`.
#[derive(Clone, Copy, Debug, PartialEq, Eq)]
pub enum Sym {
    Shl,
    Shr,
    Le,
    Ge,
    EqEq,
    NotEq,
    AndAnd,
    OrOr,
    Plus,
    Minus,
    Star,
    Slash,
    Percent,
    Less,
    Greater,
    Assign,
    Bang,
    Tilde,
    Amp,
    Bar,
    Caret,
    Question,
    Colon,
    Semi,
    Comma,
    Dot,
    OpenParen,
    CloseParen,
    OpenBracket,
    CloseBracket,
    OpenBrace,
    CloseBrace,
    Hash,
}

/// What a token is: a word with its bytes, a number with its value, or a symbol.
#[derive(Debug, Drop)]
pub enum TokenKind {
    Word(Name),
    Number(u32),
    Sym(Sym),
}

/// A token, and the offset of its first byte in the text.
#[derive(Debug, Drop)]
pub struct Token {
    pub at: u32,
    pub kind: TokenKind,
}

/// Tokens in the order of the text.
pub type TokenList = Seq<Token>;

/// The tokens of a text, and the text's number of bytes.
#[derive(Debug, Drop)]
pub struct Tokens {
    pub items: TokenList,
    pub end: u32,
}

/// Why a text has no tokens, with the offset of the fault.
#[derive(Clone, Copy, Debug, PartialEq, Eq)]
pub enum LexFault {
    /// No token, comment or white space starts here, or this letter, digit or `_` follows a number.
    BadByte(u32),
    /// The `/*` here has no `*/` after it.
    OpenComment(u32),
    /// The number that starts here is over 4294967295.
    BigLiteral(u32),
    /// The token that starts here is the 16,385th.
    TooManyTokens(u32),
    /// Want of memory.
    Memory,
}

impl From<Memory> for LexFault {
    ghost from_gives = { λ _ fault. fault ≡ want };

    fn from(_memory: Memory) -> LexFault {
        LexFault::Memory
    }
}
