//! From the bytes of a program to its tokens (docs/LANGUAGE.md).
#![tactic(auto)]

pub mod laws;
mod lexer;
mod next;
mod symbol;
mod token;

pub use lexer::lex;
pub use token::{LexFault, Sym, Token, TokenKind, TokenList, Tokens};
