//! The tokens of texts, and the fault of those that have none.

use crate::tests::rows::put_times;
use dom_lexer::{LexFault, Tokens, lex};
use std::alloc::Global;
use std::test::Fail;

// `<LF>` stands for a line feed.
pub(crate) const TEXTS: &str = " => Ok(Tokens { items: Seq { items: [] }, end: 0 })
a>>=b => Ok(Tokens { items: Seq { items: [Token { at: 0, kind: Word(Name { bytes: [97] }) }, Token { at: 1, kind: Sym(Shr) }, Token { at: 3, kind: Sym(Assign) }, Token { at: 4, kind: Word(Name { bytes: [98] }) }] }, end: 5 })
&&&||| => Ok(Tokens { items: Seq { items: [Token { at: 0, kind: Sym(AndAnd) }, Token { at: 2, kind: Sym(Amp) }, Token { at: 3, kind: Sym(OrOr) }, Token { at: 5, kind: Sym(Bar) }] }, end: 6 })
<< >> <= >= == != && || + - * / % < > = ! ~ & | ^ ? : ; , . ( ) [ ] { } # => Ok(Tokens { items: Seq { items: [Token { at: 0, kind: Sym(Shl) }, Token { at: 3, kind: Sym(Shr) }, Token { at: 6, kind: Sym(Le) }, Token { at: 9, kind: Sym(Ge) }, Token { at: 12, kind: Sym(EqEq) }, Token { at: 15, kind: Sym(NotEq) }, Token { at: 18, kind: Sym(AndAnd) }, Token { at: 21, kind: Sym(OrOr) }, Token { at: 24, kind: Sym(Plus) }, Token { at: 26, kind: Sym(Minus) }, Token { at: 28, kind: Sym(Star) }, Token { at: 30, kind: Sym(Slash) }, Token { at: 32, kind: Sym(Percent) }, Token { at: 34, kind: Sym(Less) }, Token { at: 36, kind: Sym(Greater) }, Token { at: 38, kind: Sym(Assign) }, Token { at: 40, kind: Sym(Bang) }, Token { at: 42, kind: Sym(Tilde) }, Token { at: 44, kind: Sym(Amp) }, Token { at: 46, kind: Sym(Bar) }, Token { at: 48, kind: Sym(Caret) }, Token { at: 50, kind: Sym(Question) }, Token { at: 52, kind: Sym(Colon) }, Token { at: 54, kind: Sym(Semi) }, Token { at: 56, kind: Sym(Comma) }, Token { at: 58, kind: Sym(Dot) }, Token { at: 60, kind: Sym(OpenParen) }, Token { at: 62, kind: Sym(CloseParen) }, Token { at: 64, kind: Sym(OpenBracket) }, Token { at: 66, kind: Sym(CloseBracket) }, Token { at: 68, kind: Sym(OpenBrace) }, Token { at: 70, kind: Sym(CloseBrace) }, Token { at: 72, kind: Sym(Hash) }] }, end: 73 })
_1 \t\r<LF> => Ok(Tokens { items: Seq { items: [Token { at: 0, kind: Word(Name { bytes: [95, 49] }) }] }, end: 6 })
a//b<LF>c/**/d/***/ => Ok(Tokens { items: Seq { items: [Token { at: 0, kind: Word(Name { bytes: [97] }) }, Token { at: 5, kind: Word(Name { bytes: [99] }) }, Token { at: 10, kind: Word(Name { bytes: [100] }) }] }, end: 16 })
a/b// => Ok(Tokens { items: Seq { items: [Token { at: 0, kind: Word(Name { bytes: [97] }) }, Token { at: 1, kind: Sym(Slash) }, Token { at: 2, kind: Word(Name { bytes: [98] }) }] }, end: 5 })
a // b => Ok(Tokens { items: Seq { items: [Token { at: 0, kind: Word(Name { bytes: [97] }) }] }, end: 6 })
@ => Err(BadByte(0))
struct P { int x; }; /* => Err(OpenComment(21))
/*/ => Err(OpenComment(0))
4294967295 => Ok(Tokens { items: Seq { items: [Token { at: 0, kind: Number(4294967295) }] }, end: 10 })
x 4294967296 => Err(BigLiteral(2))
4294967296a => Err(BigLiteral(0))
0xFf+0X10 => Ok(Tokens { items: Seq { items: [Token { at: 0, kind: Number(255) }, Token { at: 4, kind: Sym(Plus) }, Token { at: 5, kind: Number(16) }] }, end: 9 })
0x100000000 => Err(BigLiteral(0))
0x => Err(BadByte(1))
0x1g => Err(BadByte(3))
07 => Err(BadByte(1))
1a => Err(BadByte(1))
0_ => Err(BadByte(1))";

// What stands behind 16,384 tokens.
pub(crate) const BEHIND: &str = " => 16384
; => TooManyTokens(16384)
4294967296 => TooManyTokens(16384)
@ => BadByte(16384)
/* => OpenComment(16384)";

// The tokens of a text, or their fault.
fn read(alloc: Global, text: &[u8]) -> Result<Result<Tokens, LexFault>, Fail> {
    if text.len() > 65_536 {
        return Ok(Err("the text is too long")?);
    }
    Ok(lex(alloc, text))
}

pub(crate) fn told(alloc: Global, asked: &str) -> Result<String, Fail> {
    let text = asked.replace(alloc, "<LF>", "\n")?;
    let answer = read(alloc, text.as_bytes())?;
    Ok(format!(in alloc; "{answer:?}")?)
}

// The number of tokens of 16,384 semicolons and what stands behind them, or their fault.
pub(crate) fn told_many(alloc: Global, behind: &str) -> Result<String, Fail> {
    let mut text = String::new(alloc);
    put_times(&mut text, ";", 16_384)?;
    text.push_str(behind)?;
    let shown = match read(alloc, text.as_bytes())? {
        Ok(tokens) => format!(in alloc; "{}", tokens.items.len()),
        Err(fault) => format!(in alloc; "{fault:?}"),
    };
    Ok(shown?)
}
