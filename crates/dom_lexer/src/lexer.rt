ghost use Rattle.std.specs.Prelude.{◌≡◌, ◌<◌, ◌≤◌, ◌+◌, ℕ, List, length, drop, IfOk, IfErr};
ghost use Rattle.dom_lexer.specs.declared.token.Token.{Token};
ghost use Rattle.dom_lexer.specs.declared.token.LexFault.{LexFault};
ghost use Rattle.dom_lexer.specs.Answer.{IsAnsweredExactly};
ghost use Rattle.dom_lexer.specs.Text.{Lexed, most_tokens};
ghost use Rattle.dom_lexer.specs.inner.Reads.{BeginsToken, FaultHere, Grows, IsForm, IsTokenFault};

use crate::next::{Form, Next, front, next_at, tail};
use crate::token::{LexFault, Token, TokenKind, TokenList, Tokens};
use dom_words::{Name, Seq};
use std::alloc::Global;

const MOST_TOKENS: usize = 16384;

/// The tokens of a text of at most 65,536 bytes, each with the offset of its first byte, or the fault that stands first
/// in the text. Want of memory may be answered in place of either.
pub fn lex(alloc: Global, text: &[u8]) -> Result<Tokens, LexFault>
    requires { length text.now ≤ 65536 }
    ensures items { IfOk result (λ tokens. Lexed text.now tokens.items) }
    ensures few { IfOk result (λ tokens. length tokens.items ≤ most_tokens) }
    ensures end { IfOk result (λ tokens. tokens.end ≡ length text.now) }
    ensures accepts { (tokens : List Token) → Lexed text.now tokens → length tokens ≤ most_tokens → IfErr result (λ fault. fault ≡ LexFault.Memory) }
    ensures bad_byte { (at : ℕ) → IsAnsweredExactly (LexFault.BadByte at) text.now result }
    ensures open_comment { (at : ℕ) → IsAnsweredExactly (LexFault.OpenComment at) text.now result }
    ensures big_literal { (at : ℕ) → IsAnsweredExactly (LexFault.BigLiteral at) text.now result }
    ensures too_many_tokens { (at : ℕ) → IsAnsweredExactly (LexFault.TooManyTokens at) text.now result }
{
    let mut items = Seq::new(alloc);
    let mut at = 0;
    'pieces: while at < text.len() {
        at = piece(alloc, text, at, &mut items)?;
    }
    Ok(Tokens {
        items,
        end: at as u32,
    })
}

/// Reads the piece of a text that starts at a place, and answers where the next one starts.
fn piece(alloc: Global, text: &[u8], at: usize, tokens: &mut TokenList) -> Result<usize, LexFault>
    requires room { length text.now ≤ 65536 }
    requires some { at < length text.now }
    requires few { length tokens.old ≤ most_tokens }
    ensures ok { IfOk result (λ next. Grows text.now at tokens.old next tokens.new) }
    ensures err { IfErr result (λ fault. FaultHere (drop at text.now) at (length tokens.old) fault) }
{
    let rest = tail(text, at);
    match next_at(rest) {
        Next::Gap(length) => Ok(at + length),
        Next::Unclosed => Err(LexFault::OpenComment(at as u32)),
        Next::Nothing => Err(LexFault::BadByte(at as u32)),
        Next::Start(form) => {
            if tokens.len() >= MOST_TOKENS {
                return Err(LexFault::TooManyTokens(at as u32));
            }
            let (kind, length) = token(alloc, rest, at, form)?;
            tokens.push(Token {
                at: at as u32,
                kind,
            })?;
            Ok(at + length)
        }
    }
}

/// The token of a form that stands first in the rest of a text, and its number of bytes.
fn token(alloc: Global, rest: &[u8], at: usize, form: Form) -> Result<(TokenKind, usize), LexFault>
    requires room { at + length rest.now ≤ 65536 }
    requires form { IsForm rest.now form }
    ensures ok { IfOk result (λ t. BeginsToken rest.now t.0 t.1) }
    ensures err { IfErr result (λ fault. IsTokenFault at rest.now fault) }
{
    match form {
        Form::Letters(length) => {
            let name = Name::of(alloc, front(rest, length))?;
            Ok((TokenKind::Word(name), length))
        }
        Form::Digits(value, length) => Ok((TokenKind::Number(value), length)),
        Form::Symbol(sym) => Ok((TokenKind::Sym(sym), sym.spelling().len())),
        Form::TooBig => Err(LexFault::BigLiteral(at as u32)),
        Form::Touched(length) => Err(LexFault::BadByte((at + length) as u32)),
    }
}
