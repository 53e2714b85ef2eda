ghost use Rattle.std.specs.Prelude.{◌≡◌, ◌+◌, ◌-◌, ◌<◌, ◌≤◌, ◌++◌, [], ◌∷◌, false, IfErr, IfOk, None, OnOk, Some, length};
ghost use Rattle.dom_ast.specs.Form.{choice as choice_form, form, forms, index as element};
ghost use Rattle.dom_parser.specs.declared.kinds.Begin.TheVariants as begin;
ghost use Rattle.dom_parser.specs.declared.kinds.Fixed.TheVariants as fixed;
ghost use Rattle.dom_parser.specs.declared.kinds.Suffix.TheVariants as suffix;
ghost use Rattle.dom_parser.specs.inner.AtPlace.{is_fixed as is_fixed_kind, text_at as text_there, unary_of};
ghost use Rattle.dom_parser.specs.Tokens.{offset_at, stands};
ghost use Rattle.dom_parser.specs.Grammar.{top};
ghost use Rattle.dom_parser.specs.inner.Following.{begin_of, level, limit, name_rest, suffix_of};
ghost use Rattle.dom_parser.specs.inner.Reads.{FailsBy, FailsIn, Reads, ReadsArgs, ReadsIn, SpellsExpr, negated_in};

use crate::faults::{Fault, MOST_OPEN};
use crate::kinds::{
    Begin, Fixed, Suffix, begin_at, is_fixed, is_name, name_at, number_at, offset, operator_at,
    suffix_at, unary_at,
};
use dom_ast::{Expr, ExprList};
use dom_lexer::Token;
use dom_words::{BinOp, Seq, UnOp};
use std::alloc::Global;

/// Reads an expression.
#[cycle(expressions)]
pub(crate) fn expression(
    alloc: Global,
    tokens: &[Token],
    at: usize,
    depth: u32,
) -> Result<(Expr, usize), Fault>
    requires within { at ≤ length tokens.now }
    requires depth { depth ≤ limit }
    ensures ok { IfOk result (λ r. Reads (level top) depth (SpellsExpr top (form r.0)) tokens.now at r.1) }
    ensures err { IfErr result (λ f. FailsBy (level top) depth tokens.now at f) }
{
    match ranked(alloc, tokens, at, 10, depth) {
        Ok((test, next)) => conditional(alloc, tokens, at, test, next, depth),
        Err(fault) => Err(fault),
    }
}

/// Reads an expression whose operators bind as strongly as `rank` or more strongly, from 0, which has none, to 10.
#[cycle(expressions)]
fn ranked(
    alloc: Global,
    tokens: &[Token],
    at: usize,
    rank: u32,
    depth: u32,
) -> Result<(Expr, usize), Fault>
    requires within { at ≤ length tokens.now }
    requires rank { rank ≤ 10 }
    requires depth { depth ≤ limit }
    ensures ok { IfOk result (λ r. Reads (level rank) depth (SpellsExpr rank (form r.0)) tokens.now at r.1) }
    ensures err { IfErr result (λ f. FailsBy (level rank) depth tokens.now at f) }
{
    if rank == 0 {
        return unary(alloc, tokens, at, depth);
    }
    match ranked(alloc, tokens, at, rank - 1, depth) {
        Ok((first, next)) => operands(alloc, tokens, at, rank, first, next, depth),
        Err(fault) => Err(fault),
    }
}

/// Reads the operators of a rank and their operands after the first.
#[cycle(expressions)]
fn operands(
    alloc: Global,
    tokens: &[Token],
    at: usize,
    rank: u32,
    first: Expr,
    start: usize,
    depth: u32,
) -> Result<(Expr, usize), Fault>
    requires positive { 0 < rank }
    requires rank { rank ≤ 10 }
    requires depth { depth ≤ limit }
    requires first { Reads (level (rank - 1)) depth (SpellsExpr (rank - 1) (form first)) tokens.now at start }
    ensures ok { IfOk result (λ r. Reads (level rank) depth (SpellsExpr rank (form r.0)) tokens.now at r.1) }
    ensures err { IfErr result (λ f. FailsBy (level rank) depth tokens.now at f) }
{
    let mut next = start;
    let mut rest = Seq::new(alloc);
    'operands: while let Some(op) = operator_at(tokens, next, rank) {
        match ranked(alloc, tokens, next + 1, rank - 1, depth) {
            Ok((operand, after)) => {
                add_operand(&mut rest, op, operand)?;
                next = after;
            }
            Err(fault) => return Err(fault),
        }
    }
    if rest.len() == 0 {
        return Ok((first, next));
    }
    match Box::new(alloc, first) {
        Ok(first) => Ok((Expr::Chain { first, rest }, next)),
        Err(_) => Err(Fault::Memory),
    }
}

/// Reads what may follow a condition: `?` and the two expressions.
#[cycle(expressions)]
fn conditional(
    alloc: Global,
    tokens: &[Token],
    at: usize,
    test: Expr,
    start: usize,
    depth: u32,
) -> Result<(Expr, usize), Fault>
    requires depth { depth ≤ limit }
    requires first { Reads (level 10) depth (SpellsExpr 10 (form test)) tokens.now at start }
    ensures ok { IfOk result (λ r. Reads (level top) depth (SpellsExpr top (form r.0)) tokens.now at r.1) }
    ensures err { IfErr result (λ f. FailsBy (level top) depth tokens.now at f) }
{
    if !is_fixed(tokens, start, Fixed::Question) {
        return Ok((test, start));
    }
    if depth == MOST_OPEN {
        return Err(Fault::TooNested(start));
    }
    match expression(alloc, tokens, start + 1, depth + 1) {
        Ok((yes, colon)) => {
            if is_fixed(tokens, colon, Fixed::Colon) {
                match expression(alloc, tokens, colon + 1, depth + 1) {
                    Ok((no, next)) => Ok((choice(alloc, test, yes, no)?, next)),
                    Err(fault) => Err(fault),
                }
            } else {
                Err(Fault::Unexpected(colon))
            }
        }
        Err(fault) => Err(fault),
    }
}

/// Reads an operand with the operators before it. A `-` directly before a number is the number of the negated word.
#[cycle(expressions)]
fn unary(alloc: Global, tokens: &[Token], at: usize, depth: u32) -> Result<(Expr, usize), Fault>
    requires within { at ≤ length tokens.now }
    requires depth { depth ≤ limit }
    ensures ok { IfOk result (λ r. Reads (level 0) depth (SpellsExpr 0 (form r.0)) tokens.now at r.1) }
    ensures err { IfErr result (λ f. FailsBy (level 0) depth tokens.now at f) }
{
    match unary_at(tokens, at) {
        None => primary(alloc, tokens, at, depth),
        Some(op) => match negated_at(tokens, at + 1, op) {
            Some(word) => Ok((
                Expr::Number {
                    at: offset(tokens, at),
                    word,
                },
                at + 2,
            )),
            None => operated(alloc, tokens, at, op, depth),
        },
    }
}

/// The negated word of the number at a place, where the operator is `-`.
fn negated_at(tokens: &[Token], at: usize, op: UnOp) -> Option<u32>
    ensures { result ≡ negated_in op (stands tokens.now at) }
{
    if matches!(op, UnOp::Neg) {
        match number_at(tokens, at) {
            Some(word) => Some(word.wrapping_neg()),
            None => None,
        }
    } else {
        None
    }
}

/// Reads the operand of an operator that makes a node.
#[cycle(expressions)]
fn operated(
    alloc: Global,
    tokens: &[Token],
    at: usize,
    op: UnOp,
    depth: u32,
) -> Result<(Expr, usize), Fault>
    requires depth { depth ≤ limit }
    requires within { at < length tokens.now }
    requires op { unary_of (stands tokens.now at) ≡ Some op }
    requires node { negated_in op (stands tokens.now (at + 1)) ≡ None }
    ensures ok { IfOk result (λ r. Reads (level 0) depth (SpellsExpr 0 (form r.0)) tokens.now at r.1) }
    ensures err { IfErr result (λ f. FailsBy (level 0) depth tokens.now at f) }
{
    if depth == MOST_OPEN {
        return Err(Fault::TooNested(at));
    }
    match unary(alloc, tokens, at + 1, depth + 1) {
        Ok((operand, next)) => {
            let arg = boxed(alloc, operand)?;
            let at = offset(tokens, at);
            Ok((Expr::Un { at, op, arg }, next))
        }
        Err(fault) => Err(fault),
    }
}

/// Reads an operand that has no operator before it.
#[cycle(expressions)]
fn primary(alloc: Global, tokens: &[Token], at: usize, depth: u32) -> Result<(Expr, usize), Fault>
    requires within { at ≤ length tokens.now }
    requires depth { depth ≤ limit }
    requires bare { unary_of (stands tokens.now at) ≡ None }
    ensures ok { IfOk result (λ r. Reads (level 0) depth (SpellsExpr 0 (form r.0)) tokens.now at r.1) }
    ensures err { IfErr result (λ f. FailsBy (level 0) depth tokens.now at f) }
{
    match begin_at(tokens, at) {
        Begin::Number(word) => Ok((
            Expr::Number {
                at: offset(tokens, at),
                word,
            },
            at + 1,
        )),
        Begin::Name => named(alloc, tokens, at, depth),
        Begin::Paren => match enclosed(alloc, tokens, at, Fixed::CloseParen, depth) {
            Ok((inner, next)) => Ok((inner, next)),
            Err(fault) => Err(fault),
        },
        Begin::Other => Err(Fault::Unexpected(at)),
    }
}

/// Reads a name with what belongs to it: a field, an index or arguments.
#[cycle(expressions)]
fn named(alloc: Global, tokens: &[Token], at: usize, depth: u32) -> Result<(Expr, usize), Fault>
    requires depth { depth ≤ limit }
    requires within { at < length tokens.now }
    requires name { begin_of (stands tokens.now at) ≡ begin.Name }
    ensures ok { IfOk result (λ r. Reads (level 0) depth (SpellsExpr 0 (form r.0)) tokens.now at r.1) }
    ensures err { IfErr result (λ f. FailsBy (level 0) depth tokens.now at f) }
{
    match suffix_at(tokens, at + 1) {
        Suffix::Dot => field_of(alloc, tokens, at, depth),
        Suffix::Bracket => match enclosed(alloc, tokens, at + 1, Fixed::CloseBracket, depth) {
            Ok((index, next)) => Ok((indexed(alloc, tokens, at, index)?, next)),
            Err(fault) => Err(fault),
        },
        Suffix::Paren => match arguments(alloc, tokens, at + 1, depth) {
            Ok((args, next)) => Ok((
                Expr::Call {
                    at: offset(tokens, at),
                    unit: name_at(alloc, tokens, at)?,
                    args,
                },
                next,
            )),
            Err(fault) => Err(fault),
        },
        Suffix::Other => Ok((
            Expr::Word {
                at: offset(tokens, at),
                name: name_at(alloc, tokens, at)?,
            },
            at + 1,
        )),
    }
}

/// The field after a name and a dot.
fn field_of(alloc: Global, tokens: &[Token], at: usize, depth: u32) -> Result<(Expr, usize), Fault>
    requires depth { depth ≤ limit }
    requires within { at + 1 < length tokens.now }
    requires name { begin_of (stands tokens.now at) ≡ begin.Name }
    requires dot { suffix_of (stands tokens.now (at + 1)) ≡ suffix.Dot }
    ensures ok { IfOk result (λ r. Reads (level 0) depth (SpellsExpr 0 (form r.0)) tokens.now at r.1) }
    ensures err { IfErr result (λ f. FailsBy (level 0) depth tokens.now at f) }
{
    if !is_name(tokens, at + 2) {
        return Err(Fault::Unexpected(at + 2));
    }
    Ok((
        Expr::Field {
            at: offset(tokens, at),
            base: name_at(alloc, tokens, at)?,
            field_at: offset(tokens, at + 2),
            field: name_at(alloc, tokens, at + 2)?,
        },
        at + 3,
    ))
}

/// The element of the array named at a place.
fn indexed(alloc: Global, tokens: &[Token], at: usize, index: Expr) -> Result<Expr, Fault>
    ensures ok { IfOk result (λ e. form e ≡ element (offset_at tokens.now at) (text_there tokens.now at) (form index)) }
    ensures err { IfErr result (λ f. f ≡ Fault.Memory) }
{
    match Box::new(alloc, index) {
        Ok(index) => Ok(Expr::Index {
            at: offset(tokens, at),
            array: name_at(alloc, tokens, at)?,
            index,
        }),
        Err(_) => Err(Fault::Memory),
    }
}

/// Reads an expression in brackets, from the opening one.
#[cycle(expressions)]
pub(crate) fn enclosed(
    alloc: Global,
    tokens: &[Token],
    at: usize,
    partner: Fixed,
    depth: u32,
) -> Result<(Expr, usize), Fault>
    requires within { at < length tokens.now }
    requires depth { depth ≤ limit }
    ensures ok { IfOk result (λ r. ReadsIn partner depth tokens.now at r.1 (form r.0)) }
    ensures err { IfErr result (λ f. FailsIn partner depth tokens.now at f) }
{
    if depth == MOST_OPEN {
        return Err(Fault::TooNested(at));
    }
    match expression(alloc, tokens, at + 1, depth + 1) {
        Ok((inner, next)) => {
            if is_fixed(tokens, next, partner) {
                Ok((inner, next + 1))
            } else {
                Err(Fault::Unexpected(next))
            }
        }
        Err(fault) => Err(fault),
    }
}

/// Reads arguments in brackets, from the opening one.
#[cycle(expressions)]
fn arguments(
    alloc: Global,
    tokens: &[Token],
    at: usize,
    depth: u32,
) -> Result<(ExprList, usize), Fault>
    requires depth { depth ≤ limit }
    requires within { at < length tokens.now }
    requires bracket { suffix_of (stands tokens.now at) ≡ suffix.Paren }
    ensures ok { IfOk result (λ r. ReadsArgs depth tokens.now at r.1 (forms r.0)) }
    ensures err { IfErr result (λ f. FailsBy name_rest depth tokens.now at f) }
{
    if depth == MOST_OPEN {
        return Err(Fault::TooNested(at));
    }
    if is_fixed(tokens, at + 1, Fixed::CloseParen) {
        return Ok((Seq::new(alloc), at + 2));
    }
    match expression(alloc, tokens, at + 1, depth + 1) {
        Ok((first, next)) => more_arguments(alloc, tokens, at, first, next, depth),
        Err(fault) => Err(fault),
    }
}

/// Reads the arguments after the first, and the closing bracket.
#[cycle(expressions)]
fn more_arguments(
    alloc: Global,
    tokens: &[Token],
    at: usize,
    first: Expr,
    start: usize,
    depth: u32,
) -> Result<(ExprList, usize), Fault>
    requires depth { depth < limit }
    requires within { at < length tokens.now }
    requires bracket { suffix_of (stands tokens.now at) ≡ suffix.Paren }
    requires some { is_fixed_kind fixed.CloseParen (stands tokens.now (at + 1)) ≡ false }
    requires first { Reads (level top) (depth + 1) (SpellsExpr top (form first)) tokens.now (at + 1) start }
    ensures ok { IfOk result (λ r. ReadsArgs depth tokens.now at r.1 (forms r.0)) }
    ensures err { IfErr result (λ f. FailsBy name_rest depth tokens.now at f) }
{
    let mut next = start;
    let mut args = Seq::new(alloc);
    add_argument(&mut args, first)?;
    'arguments: while is_fixed(tokens, next, Fixed::Comma) {
        match expression(alloc, tokens, next + 1, depth + 1) {
            Ok((arg, after)) => {
                add_argument(&mut args, arg)?;
                next = after;
            }
            Err(fault) => return Err(fault),
        }
    }
    if is_fixed(tokens, next, Fixed::CloseParen) {
        Ok((args, next + 1))
    } else {
        Err(Fault::Unexpected(next))
    }
}

fn add_operand(to: &mut Seq<(BinOp, Expr)>, op: BinOp, operand: Expr) -> Result<(), Fault>
    ensures ok { OnOk result (to.new ≡ to.old ++ (op, operand) ∷ []) }
    ensures err { IfErr result (λ f. f ≡ Fault.Memory) }
{
    match to.push((op, operand)) {
        Ok(()) => Ok(()),
        Err(_) => Err(Fault::Memory),
    }
}

fn add_argument(to: &mut ExprList, arg: Expr) -> Result<(), Fault>
    ensures ok { OnOk result (to.new ≡ to.old ++ arg ∷ []) }
    ensures err { IfErr result (λ f. f ≡ Fault.Memory) }
{
    match to.push(arg) {
        Ok(()) => Ok(()),
        Err(_) => Err(Fault::Memory),
    }
}

fn choice(alloc: Global, test: Expr, then: Expr, other: Expr) -> Result<Expr, Fault>
    ensures ok { IfOk result (λ e. form e ≡ choice_form (form test) (form then) (form other)) }
    ensures err { IfErr result (λ f. f ≡ Fault.Memory) }
{
    let test = boxed(alloc, test)?;
    let yes = boxed(alloc, then)?;
    let no = boxed(alloc, other)?;
    Ok(Expr::Cond { test, yes, no })
}

fn boxed(alloc: Global, expr: Expr) -> Result<Box<Expr>, Fault>
    ensures ok { IfOk result (λ b. b.value ≡ expr) }
    ensures err { IfErr result (λ f. f ≡ Fault.Memory) }
{
    match Box::new(alloc, expr) {
        Ok(expr) => Ok(expr),
        Err(_) => Err(Fault::Memory),
    }
}
