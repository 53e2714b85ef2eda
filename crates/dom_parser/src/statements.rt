ghost use Rattle.std.specs.Prelude.{◌≡◌, ◌+◌, ◌-◌, ◌<◌, ◌≤◌, ◌++◌, [], ◌∷◌, IfErr, IfOk, OnOk, length};
ghost use Rattle.dom_ast.specs.Form.{form, stmt_form, stmt_forms, target_form};
ghost use Rattle.dom_parser.specs.declared.kinds.Lead.TheVariants as lead;
ghost use Rattle.dom_parser.specs.inner.AtPlace.{Where};
ghost use Rattle.dom_parser.specs.Tokens.{stands};
ghost use Rattle.dom_parser.specs.inner.Following as item;
ghost use Rattle.dom_parser.specs.inner.Following.{begins, lead_of, limit};
ghost use Rattle.dom_parser.specs.inner.Reads.{FailsBy, Passes, Reads, ReadsTarget, SpellsAssign, SpellsBlock, SpellsBody, SpellsCondition, SpellsElse, SpellsStmt};

use crate::expressions::{enclosed, expression};
use crate::faults::{Fault, MOST_OPEN};
use crate::kinds::{Fixed, Lead, Suffix, is_fixed, is_name, lead_at, name_at, offset, suffix_at};
use dom_ast::{Expr, Stmt, StmtList, Target};
use dom_lexer::Token;
use dom_words::Seq;
use std::alloc::Global;

/// Reads an expression in round brackets.
pub(crate) fn condition(
    alloc: Global,
    tokens: &[Token],
    at: usize,
    depth: u32,
) -> Result<(Expr, usize), Fault>
    requires within { at ≤ length tokens.now }
    requires depth { depth ≤ limit }
    ensures ok { IfOk result (λ r. Reads item.condition depth (SpellsCondition (form r.0)) tokens.now at r.1) }
    ensures err { IfErr result (λ f. FailsBy item.condition depth tokens.now at f) }
{
    if !is_fixed(tokens, at, Fixed::OpenParen) {
        return Err(Fault::Unexpected(at));
    }
    match enclosed(alloc, tokens, at, Fixed::CloseParen, depth) {
        Ok((test, next)) => Ok((test, next)),
        Err(fault) => Err(fault),
    }
}

/// Reads a block.
#[cycle(statements)]
pub(crate) fn block(
    alloc: Global,
    tokens: &[Token],
    at: usize,
    depth: u32,
) -> Result<(StmtList, usize), Fault>
    requires within { at ≤ length tokens.now }
    requires depth { depth ≤ limit }
    ensures ok { IfOk result (λ r. Reads item.block depth (SpellsBlock (stmt_forms r.0)) tokens.now at r.1) }
    ensures err { IfErr result (λ f. FailsBy item.block depth tokens.now at f) }
{
    if !is_fixed(tokens, at, Fixed::OpenBrace) {
        return Err(Fault::Unexpected(at));
    }
    if depth == MOST_OPEN {
        return Err(Fault::TooNested(at));
    }
    let mut next = at + 1;
    let mut stmts = Seq::new(alloc);
    'statements: while begins_statement(tokens, next) {
        match statement(alloc, tokens, next, depth + 1) {
            Ok((stmt, after)) => {
                add(&mut stmts, stmt)?;
                next = after;
            }
            Err(fault) => return Err(fault),
        }
    }
    if is_fixed(tokens, next, Fixed::CloseBrace) {
        Ok((stmts, next + 1))
    } else {
        Err(Fault::Unexpected(next))
    }
}

fn begins_statement(tokens: &[Token], at: usize) -> bool
    ensures value { result ≡ begins (lead_of (stands tokens.now at)) }
    ensures within { Where result (at < length tokens.now) }
{
    matches!(lead_at(tokens, at), Lead::Assign | Lead::If)
}

/// Reads an assignment or an `if`.
#[cycle(statements)]
fn statement(alloc: Global, tokens: &[Token], at: usize, depth: u32) -> Result<(Stmt, usize), Fault>
    requires within { at ≤ length tokens.now }
    requires depth { depth ≤ limit }
    ensures ok { IfOk result (λ r. Reads item.stmt depth (SpellsStmt (stmt_form r.0)) tokens.now at r.1) }
    ensures err { IfErr result (λ f. FailsBy item.stmt depth tokens.now at f) }
{
    match lead_at(tokens, at) {
        Lead::Assign => match assignment(alloc, tokens, at, depth) {
            Ok((stmt, next)) => Ok((stmt, next)),
            Err(fault) => Err(fault),
        },
        Lead::If => branch(alloc, tokens, at, depth),
        Lead::Block => Err(Fault::Unexpected(at)),
        Lead::Other => Err(Fault::Unexpected(at)),
    }
}

/// Reads an `if`, from that word.
#[cycle(statements)]
fn branch(alloc: Global, tokens: &[Token], at: usize, depth: u32) -> Result<(Stmt, usize), Fault>
    requires depth { depth ≤ limit }
    requires within { at < length tokens.now }
    requires lead { lead_of (stands tokens.now at) ≡ lead.If }
    ensures ok { IfOk result (λ r. Reads item.stmt depth (SpellsStmt (stmt_form r.0)) tokens.now at r.1) }
    ensures err { IfErr result (λ f. FailsBy item.stmt depth tokens.now at f) }
{
    if depth == MOST_OPEN {
        return Err(Fault::TooNested(at));
    }
    match condition(alloc, tokens, at + 1, depth + 1) {
        Ok((test, after)) => match body(alloc, tokens, after, depth + 1) {
            Ok((yes, end)) => match else_part(alloc, tokens, end, depth + 1) {
                Ok((no, next)) => Ok((Stmt::If { test, yes, no }, next)),
                Err(fault) => Err(fault),
            },
            Err(fault) => Err(fault),
        },
        Err(fault) => Err(fault),
    }
}

/// Reads what an `if` does where its condition holds.
#[cycle(statements)]
fn body(alloc: Global, tokens: &[Token], at: usize, depth: u32) -> Result<(StmtList, usize), Fault>
    requires within { at ≤ length tokens.now }
    requires depth { depth ≤ limit }
    ensures ok { IfOk result (λ r. Reads item.body depth (SpellsBody (stmt_forms r.0)) tokens.now at r.1) }
    ensures err { IfErr result (λ f. FailsBy item.body depth tokens.now at f) }
{
    match lead_at(tokens, at) {
        Lead::Block => match block(alloc, tokens, at, depth) {
            Ok((stmts, next)) => Ok((stmts, next)),
            Err(fault) => Err(fault),
        },
        Lead::Assign => match assignment(alloc, tokens, at, depth) {
            Ok((stmt, next)) => Ok((only(alloc, stmt)?, next)),
            Err(fault) => Err(fault),
        },
        Lead::If => Err(Fault::Unexpected(at)),
        Lead::Other => Err(Fault::Unexpected(at)),
    }
}

/// Reads `else` and what follows it, or nothing.
#[cycle(statements)]
fn else_part(
    alloc: Global,
    tokens: &[Token],
    at: usize,
    depth: u32,
) -> Result<(StmtList, usize), Fault>
    requires within { at ≤ length tokens.now }
    requires depth { depth ≤ limit }
    ensures ok { IfOk result (λ r. Passes item.else_part depth (SpellsElse (stmt_forms r.0)) tokens.now at r.1) }
    ensures err { IfErr result (λ f. FailsBy item.else_part depth tokens.now at f) }
{
    if !is_fixed(tokens, at, Fixed::Else) {
        return Ok((Seq::new(alloc), at));
    }
    if begins_statement(tokens, at + 1) {
        return match statement(alloc, tokens, at + 1, depth) {
            Ok((stmt, next)) => Ok((only(alloc, stmt)?, next)),
            Err(fault) => Err(fault),
        };
    }
    match block(alloc, tokens, at + 1, depth) {
        Ok((stmts, next)) => Ok((stmts, next)),
        Err(fault) => Err(fault),
    }
}

/// Reads an assignment, from the name of its target.
fn assignment(
    alloc: Global,
    tokens: &[Token],
    at: usize,
    depth: u32,
) -> Result<(Stmt, usize), Fault>
    requires depth { depth ≤ limit }
    requires within { at < length tokens.now }
    requires lead { lead_of (stands tokens.now at) ≡ lead.Assign }
    ensures ok { IfOk result (λ r. Reads item.assignment depth (SpellsAssign (stmt_form r.0)) tokens.now at r.1) }
    ensures err { IfErr result (λ f. FailsBy item.assignment depth tokens.now at f) }
{
    match target(alloc, tokens, at, depth) {
        Ok((target, after)) => {
            if !is_fixed(tokens, after, Fixed::Assign) {
                return Err(Fault::Unexpected(after));
            }
            match expression(alloc, tokens, after + 1, depth) {
                Ok((value, next)) => {
                    if is_fixed(tokens, next, Fixed::Semi) {
                        let at = offset(tokens, at);
                        Ok((Stmt::Assign { at, target, value }, next + 1))
                    } else {
                        Err(Fault::Unexpected(next))
                    }
                }
                Err(fault) => Err(fault),
            }
        }
        Err(fault) => Err(fault),
    }
}

/// Reads what an assignment writes, from its name.
fn target(alloc: Global, tokens: &[Token], at: usize, depth: u32) -> Result<(Target, usize), Fault>
    requires depth { depth ≤ limit }
    requires within { at < length tokens.now }
    requires lead { lead_of (stands tokens.now at) ≡ lead.Assign }
    ensures ok { IfOk result (λ r. ReadsTarget depth tokens.now at r.1 (target_form r.0)) }
    ensures err { IfErr result (λ f. FailsBy item.target_rest depth tokens.now (at + 1) f) }
{
    match suffix_at(tokens, at + 1) {
        Suffix::Dot => {
            if !is_name(tokens, at + 2) {
                return Err(Fault::Unexpected(at + 2));
            }
            Ok((
                Target::Field {
                    base: name_at(alloc, tokens, at)?,
                    field_at: offset(tokens, at + 2),
                    field: name_at(alloc, tokens, at + 2)?,
                },
                at + 3,
            ))
        }
        Suffix::Bracket => match enclosed(alloc, tokens, at + 1, Fixed::CloseBracket, depth) {
            Ok((index, next)) => Ok((
                Target::Index {
                    array: name_at(alloc, tokens, at)?,
                    index,
                },
                next,
            )),
            Err(fault) => Err(fault),
        },
        Suffix::Paren => Ok((Target::Word(name_at(alloc, tokens, at)?), at + 1)),
        Suffix::Other => Ok((Target::Word(name_at(alloc, tokens, at)?), at + 1)),
    }
}

fn add(to: &mut StmtList, stmt: Stmt) -> Result<(), Fault>
    ensures ok { OnOk result (to.new ≡ to.old ++ stmt ∷ []) }
    ensures err { IfErr result (λ f. f ≡ Fault.Memory) }
{
    match to.push(stmt) {
        Ok(()) => Ok(()),
        Err(_) => Err(Fault::Memory),
    }
}

/// The list of one statement.
fn only(alloc: Global, stmt: Stmt) -> Result<StmtList, Fault>
    ensures ok { IfOk result (λ stmts. stmts ≡ stmt ∷ []) }
    ensures err { IfErr result (λ f. f ≡ Fault.Memory) }
{
    let mut stmts = Seq::new(alloc);
    add(&mut stmts, stmt)?;
    Ok(stmts)
}
