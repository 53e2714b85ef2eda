ghost use Rattle.std.specs.Prelude.{◌≡◌, ◌+◌, ◌<◌, ◌≤◌, ◌++◌, [], ◌∷◌, IfErr, IfOk, OnOk, length, map, true};
ghost use Rattle.dom_ast.specs.Form.{guard_form, program_form, transaction_form};
ghost use Rattle.dom_parser.specs.declared.kinds.Fixed.TheVariants as fixed;
ghost use Rattle.dom_parser.specs.inner.AtPlace.{is_fixed as fixed_is, is_name as name_is};
ghost use Rattle.dom_parser.specs.Tokens.{stands};
ghost use Rattle.dom_parser.specs.Grammar.{SpellsWithin};
ghost use Rattle.dom_ast.specs.CheckedForm.{has_one_struct};
ghost use Rattle.dom_ast.specs.Size.{program_nested, program_nodes};
ghost use Rattle.dom_parser.specs.Faults.{IsFirstFault, SpellsNone, located_at};
ghost use Rattle.dom_parser.specs.inner.Following as item;
ghost use Rattle.dom_parser.specs.inner.Following.{whole};
ghost use Rattle.dom_parser.specs.inner.Reads.{FailsBy, Passes};
ghost use Rattle.dom_parser.specs.inner.HeadReads.{FailsRowBy, FailsWholeBy, ReadsHeader, ReadsHeads, ReadsTransaction, ReadsTransactions, ReadsWhole, SpellsGuard, transaction_row};

use crate::faults::{Fault, ParseFault};
use crate::heads::{add as add_head, declarations, structure};
use crate::kinds::{Fixed, Kind, is_fixed, is_name, kind_at, name_at, offset};
use crate::statements::{block, condition};
use dom_ast::{Expr, HeadList, Program, Transaction, TransactionList};
use dom_lexer::{Token, Tokens};
use dom_words::Seq;
use std::alloc::Global;

/// The program that the tokens spell, with no more than 64 constructs open at any of them; else the first fault. The
/// program has no more statements and expression nodes than there are tokens, and its `if`s are nested at most 64 deep,
/// where a guard counts as one nesting. It has one struct, and that has a field.
pub fn parse(alloc: Global, tokens: &Tokens) -> Result<Program, ParseFault>
    ensures ok { IfOk result (λ p. SpellsWithin (program_form p) tokens.now.items) }
    ensures nodes { IfOk result (λ p. program_nodes (program_form p) ≤ length tokens.now.items) }
    ensures nested { IfOk result (λ p. program_nested 64 (program_form p) ≡ true) }
    ensures one_struct { IfOk result (λ p. has_one_struct (program_form p).heads ≡ true) }
    ensures fault { IfErr result (λ f. IsFirstFault tokens.now.items tokens.now.end f) }
    ensures none { IfErr result (λ f. SpellsNone tokens.now.items f) }
{
    match program(alloc, tokens.items.as_slice()) {
        Ok(program) => Ok(program),
        Err(fault) => Err(located(tokens, fault)),
    }
}

/// The fault with its offset in the place of the token's number.
fn located(tokens: &Tokens, fault: Fault) -> ParseFault
    ensures { result ≡ located_at tokens.now.items tokens.now.end fault }
{
    match fault {
        Fault::Unexpected(place) => match kind_at(tokens.items.as_slice(), place) {
            Kind::Forbidden => ParseFault::Forbidden(offset(tokens.items.as_slice(), place)),
            Kind::End => ParseFault::Unexpected(tokens.end),
            _ => ParseFault::Unexpected(offset(tokens.items.as_slice(), place)),
        },
        Fault::TooNested(place) => { ParseFault::TooNested(offset(tokens.items.as_slice(), place)) }
        Fault::Memory => ParseFault::Memory,
    }
}

/// The program that the tokens spell, or the first place that rules one out.
fn program(alloc: Global, tokens: &[Token]) -> Result<Program, Fault>
    ensures ok { IfOk result (λ p. ReadsWhole (program_form p) tokens.now) }
    ensures err { IfErr result (λ f. FailsWholeBy whole tokens.now 0 f) }
{
    match all_heads(alloc, tokens) {
        Ok((heads, start)) => match transactions(alloc, tokens, start) {
            Ok((transactions, next)) => {
                if next < tokens.len() {
                    return Err(Fault::Unexpected(next));
                }
                Ok(Program {
                    heads,
                    transactions,
                })
            }
            Err(fault) => Err(fault),
        },
        Err(fault) => Err(fault),
    }
}

/// Reads what stands before the transactions.
fn all_heads(alloc: Global, tokens: &[Token]) -> Result<(HeadList, usize), Fault>
    ensures ok { IfOk result (λ r. ReadsHeads tokens.now r.1 r.0) }
    ensures err { IfErr result (λ f. FailsRowBy (item.decls ∷ item.structure ∷ item.decls ∷ []) tokens.now 0 f) }
{
    match declarations(alloc, tokens, 0, Seq::new(alloc)) {
        Ok((before, at)) => match structure(alloc, tokens, at) {
            Ok((head, after)) => {
                let mut heads = before;
                add_head(&mut heads, head)?;
                match declarations(alloc, tokens, after, heads) {
                    Ok((all, next)) => Ok((all, next)),
                    Err(fault) => Err(fault),
                }
            }
            Err(fault) => Err(fault),
        },
        Err(fault) => Err(fault),
    }
}

/// Reads one transaction or more.
fn transactions(
    alloc: Global,
    tokens: &[Token],
    at: usize,
) -> Result<(TransactionList, usize), Fault>
    requires within { at ≤ length tokens.now }
    ensures ok { IfOk result (λ r. ReadsTransactions tokens.now at r.1 (map transaction_form r.0)) }
    ensures err { IfErr result (λ f. FailsWholeBy (item.term fixed.Void ∷ (transaction_row ++ item.transactions ∷ [])) tokens.now at f) }
{
    if !is_fixed(tokens, at, Fixed::Void) {
        return Err(Fault::Unexpected(at));
    }
    match transaction(alloc, tokens, at) {
        Ok((first, next)) => more_transactions(alloc, tokens, at, first, next),
        Err(fault) => Err(fault),
    }
}

/// Reads the transactions after the first, which stands at `at`.
fn more_transactions(
    alloc: Global,
    tokens: &[Token],
    at: usize,
    first: Transaction,
    start: usize,
) -> Result<(TransactionList, usize), Fault>
    requires void { fixed_is fixed.Void (stands tokens.now at) ≡ true }
    requires first { ReadsTransaction tokens.now at start (transaction_form first) }
    ensures ok { IfOk result (λ r. ReadsTransactions tokens.now at r.1 (map transaction_form r.0)) }
    ensures err { IfErr result (λ f. FailsWholeBy (item.term fixed.Void ∷ (transaction_row ++ item.transactions ∷ [])) tokens.now at f) }
{
    let mut next = start;
    let mut transactions = Seq::new(alloc);
    add(&mut transactions, first)?;
    'transactions: while is_fixed(tokens, next, Fixed::Void) {
        match transaction(alloc, tokens, next) {
            Ok((more, after)) => {
                add(&mut transactions, more)?;
                next = after;
            }
            Err(fault) => return Err(fault),
        }
    }
    Ok((transactions, next))
}

/// Reads a transaction, from its `void`.
fn transaction(alloc: Global, tokens: &[Token], at: usize) -> Result<(Transaction, usize), Fault>
    requires within { at < length tokens.now }
    requires void { fixed_is fixed.Void (stands tokens.now at) ≡ true }
    ensures ok { IfOk result (λ r. ReadsTransaction tokens.now at r.1 (transaction_form r.0)) }
    ensures err { IfErr result (λ f. FailsRowBy transaction_row tokens.now (at + 1) f) }
{
    if !is_name(tokens, at + 1) {
        return Err(Fault::Unexpected(at + 1));
    }
    match header(tokens, at + 2) {
        Ok(()) => described(alloc, tokens, at),
        Err(fault) => Err(fault),
    }
}

/// Reads the guard and the body of the transaction whose name and parameter are read.
fn described(alloc: Global, tokens: &[Token], at: usize) -> Result<(Transaction, usize), Fault>
    requires void { fixed_is fixed.Void (stands tokens.now at) ≡ true }
    requires name { name_is (stands tokens.now (at + 1)) ≡ true }
    requires header { ReadsHeader tokens.now (at + 2) }
    ensures ok { IfOk result (λ r. ReadsTransaction tokens.now at r.1 (transaction_form r.0)) }
    ensures err { IfErr result (λ f. FailsRowBy transaction_row tokens.now (at + 1) f) }
{
    match guard(alloc, tokens, at + 7) {
        Ok((guard, after)) => match block(alloc, tokens, after, 0) {
            Ok((body, next)) => {
                let tag = name_at(alloc, tokens, at + 4)?;
                let param = name_at(alloc, tokens, at + 5)?;
                let described = Transaction {
                    tag_at: offset(tokens, at + 4),
                    tag,
                    param_at: offset(tokens, at + 5),
                    param,
                    guard,
                    body,
                };
                Ok((described, next))
            }
            Err(fault) => Err(fault),
        },
        Err(fault) => Err(fault),
    }
}

/// Reads the five tokens of the parameter in its brackets: `(`, `struct`, two names, `)`.
fn header(tokens: &[Token], at: usize) -> Result<(), Fault>
    requires within { at ≤ length tokens.now }
    ensures ok { OnOk result (ReadsHeader tokens.now at) }
    ensures err { IfErr result (λ f. FailsBy item.header 0 tokens.now at f) }
{
    if !is_fixed(tokens, at, Fixed::OpenParen) {
        return Err(Fault::Unexpected(at));
    }
    if !is_fixed(tokens, at + 1, Fixed::Struct) {
        return Err(Fault::Unexpected(at + 1));
    }
    if !is_name(tokens, at + 2) {
        return Err(Fault::Unexpected(at + 2));
    }
    if !is_name(tokens, at + 3) {
        return Err(Fault::Unexpected(at + 3));
    }
    if !is_fixed(tokens, at + 4, Fixed::CloseParen) {
        return Err(Fault::Unexpected(at + 4));
    }
    Ok(())
}

/// Reads a guard, or nothing.
fn guard(alloc: Global, tokens: &[Token], at: usize) -> Result<(Option<Expr>, usize), Fault>
    requires within { at ≤ length tokens.now }
    ensures ok { IfOk result (λ r. Passes item.guard 0 (SpellsGuard (guard_form r.0)) tokens.now at r.1) }
    ensures err { IfErr result (λ f. FailsBy item.guard 0 tokens.now at f) }
{
    if !is_fixed(tokens, at, Fixed::If) {
        return Ok((None, at));
    }
    match condition(alloc, tokens, at + 1, 0) {
        Ok((test, next)) => Ok((Some(test), next)),
        Err(fault) => Err(fault),
    }
}

fn add(to: &mut TransactionList, transaction: Transaction) -> Result<(), Fault>
    ensures ok { OnOk result (to.new ≡ to.old ++ transaction ∷ []) }
    ensures err { IfErr result (λ f. f ≡ Fault.Memory) }
{
    match to.push(transaction) {
        Ok(()) => Ok(()),
        Err(_) => Err(Fault::Memory),
    }
}
