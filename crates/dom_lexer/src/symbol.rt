ghost use Rattle.std.specs.Prelude.{◌≡◌, ◌≤◌, length, true};
ghost use Rattle.dom_lexer.specs.Text.{spelling, starts};
ghost use Rattle.dom_lexer.specs.inner.Next.{symbol_of};

use crate::token::Sym;

// All symbols, those of two bytes first: the first one that a text begins with is the longest.
const SYMBOLS: [Sym; 33] = [
    Sym::Shl,
    Sym::Shr,
    Sym::Le,
    Sym::Ge,
    Sym::EqEq,
    Sym::NotEq,
    Sym::AndAnd,
    Sym::OrOr,
    Sym::Plus,
    Sym::Minus,
    Sym::Star,
    Sym::Slash,
    Sym::Percent,
    Sym::Less,
    Sym::Greater,
    Sym::Assign,
    Sym::Bang,
    Sym::Tilde,
    Sym::Amp,
    Sym::Bar,
    Sym::Caret,
    Sym::Question,
    Sym::Colon,
    Sym::Semi,
    Sym::Comma,
    Sym::Dot,
    Sym::OpenParen,
    Sym::CloseParen,
    Sym::OpenBracket,
    Sym::CloseBracket,
    Sym::OpenBrace,
    Sym::CloseBrace,
    Sym::Hash,
];

impl Sym {
    /// The bytes of the symbol.
    pub(crate) fn spelling(self) -> &'static [u8]
        ensures { result.now ≡ spelling self }
    {
        match self {
            Sym::Shl => b"<<",
            Sym::Shr => b">>",
            Sym::Le => b"<=",
            Sym::Ge => b">=",
            Sym::EqEq => b"==",
            Sym::NotEq => b"!=",
            Sym::AndAnd => b"&&",
            Sym::OrOr => b"||",
            Sym::Plus => b"+",
            Sym::Minus => b"-",
            Sym::Star => b"*",
            Sym::Slash => b"/",
            Sym::Percent => b"%",
            Sym::Less => b"<",
            Sym::Greater => b">",
            Sym::Assign => b"=",
            Sym::Bang => b"!",
            Sym::Tilde => b"~",
            Sym::Amp => b"&",
            Sym::Bar => b"|",
            Sym::Caret => b"^",
            Sym::Question => b"?",
            Sym::Colon => b":",
            Sym::Semi => b";",
            Sym::Comma => b",",
            Sym::Dot => b".",
            Sym::OpenParen => b"(",
            Sym::CloseParen => b")",
            Sym::OpenBracket => b"[",
            Sym::CloseBracket => b"]",
            Sym::OpenBrace => b"{",
            Sym::CloseBrace => b"}",
            Sym::Hash => b"#",
        }
    }
}

/// Whether a text begins with these bytes.
#[tactic(auto, using(crate::proofs::Blocks::starts_std))]
pub(crate) fn begins(text: &[u8], mark: &[u8]) -> bool
    ensures value { result ≡ starts mark.now text.now }
    ensures room { result ≡ true → length mark.now ≤ length text.now }
{
    text.starts_with(mark)
}

/// The longest symbol that a text begins with.
pub(crate) fn symbol(text: &[u8]) -> Option<Sym>
    ensures { result ≡ symbol_of text.now }
{
    SYMBOLS
        .iter()
        .copied()
        .find(|sym| begins(text, sym.spelling()))
}
