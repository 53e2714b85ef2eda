ghost use Rattle.std.specs.Prelude.{◌≡◌, ◌+◌, ◌-◌, ◌%◌, ◌^◌, ◌<◌, ◌≤◌, ◌++◌, [], ◌∷◌, IfErr, IfOk, OnOk, length, true};
ghost use Rattle.dom_parser.specs.declared.kinds.Declared.TheVariants as declared;
ghost use Rattle.dom_parser.specs.declared.kinds.Fixed.TheVariants as fixed;
ghost use Rattle.dom_parser.specs.inner.AtPlace.{Where, is_fixed as fixed_is};
ghost use Rattle.dom_parser.specs.Tokens.{stands};
ghost use Rattle.dom_parser.specs.inner.Following as item;
ghost use Rattle.dom_parser.specs.inner.Following.{declared_of, declares};
ghost use Rattle.dom_parser.specs.inner.Reads.{FailsBy, Passes, Reads};
ghost use Rattle.dom_parser.specs.inner.HeadReads.{FailsAny, FailsField, ReadsAny, ReadsDecls, ReadsField, ReadsFields, SpellsConstant, SpellsDecl, SpellsSize, SpellsSizePart, SpellsStart, SpellsStartPart, SpellsStruct, SpellsValue};

use crate::faults::Fault;
use crate::kinds::{
    Declared, Fixed, declared_at, is_fixed, is_minus, is_name, name_at, number_at, offset,
};
use dom_ast::{FieldList, Head, HeadList, Init, Length};
use dom_lexer::Token;
use dom_words::{Name, Seq};
use std::alloc::Global;

/// Reads definitions and globals, and adds them to the heads so far.
pub(crate) fn declarations(
    alloc: Global,
    tokens: &[Token],
    at: usize,
    so_far: HeadList,
) -> Result<(HeadList, usize), Fault>
    requires within { at ≤ length tokens.now }
    ensures ok { IfOk result (λ r. ReadsDecls tokens.now at r.1 so_far r.0) }
    ensures err { IfErr result (λ f. FailsBy item.decls 0 tokens.now at f) }
{
    let mut heads = so_far;
    let mut next = at;
    'declarations: while begins_declaration(tokens, next) {
        match declaration(alloc, tokens, next) {
            Ok((head, after)) => {
                add(&mut heads, head)?;
                next = after;
            }
            Err(fault) => return Err(fault),
        }
    }
    Ok((heads, next))
}

fn begins_declaration(tokens: &[Token], at: usize) -> bool
    ensures value { result ≡ declares (declared_of (stands tokens.now at)) }
    ensures within { Where result (at < length tokens.now) }
{
    matches!(declared_at(tokens, at), Declared::Define | Declared::Global)
}

fn declaration(alloc: Global, tokens: &[Token], at: usize) -> Result<(Head, usize), Fault>
    requires within { at ≤ length tokens.now }
    ensures ok { IfOk result (λ r. Reads item.decl 0 (SpellsDecl r.0) tokens.now at r.1) }
    ensures err { IfErr result (λ f. FailsBy item.decl 0 tokens.now at f) }
{
    match declared_at(tokens, at) {
        Declared::Define => definition(alloc, tokens, at),
        Declared::Global => global(alloc, tokens, at),
        Declared::Other => Err(Fault::Unexpected(at)),
    }
}

/// Reads a definition, from its `#`.
fn definition(alloc: Global, tokens: &[Token], at: usize) -> Result<(Head, usize), Fault>
    requires within { at < length tokens.now }
    requires hash { declared_of (stands tokens.now at) ≡ declared.Define }
    ensures ok { IfOk result (λ r. Reads item.decl 0 (SpellsDecl r.0) tokens.now at r.1) }
    ensures err { IfErr result (λ f. FailsBy item.decl 0 tokens.now at f) }
{
    if !is_fixed(tokens, at + 1, Fixed::Define) {
        return Err(Fault::Unexpected(at + 1));
    }
    if !is_name(tokens, at + 2) {
        return Err(Fault::Unexpected(at + 2));
    }
    match constant(tokens, at + 3) {
        Ok((word, next)) => {
            let name = name_at(alloc, tokens, at + 2)?;
            let at = offset(tokens, at + 2);
            Ok((Head::Define { at, name, word }, next))
        }
        Err(fault) => Err(fault),
    }
}

/// Reads a number with or without a `-`, as a word.
fn constant(tokens: &[Token], at: usize) -> Result<(u32, usize), Fault>
    requires within { at ≤ length tokens.now }
    ensures ok { IfOk result (λ r. ReadsAny item.constant (SpellsConstant r.0) tokens.now at r.1) }
    ensures err { IfErr result (λ f. FailsAny item.constant tokens.now at f) }
{
    if let Some(word) = number_at(tokens, at) {
        return Ok((word, at + 1));
    }
    if !is_minus(tokens, at) {
        return Err(Fault::Unexpected(at));
    }
    match number_at(tokens, at + 1) {
        Some(word) => Ok((negated(word), at + 2)),
        None => Err(Fault::Unexpected(at + 1)),
    }
}

fn negated(word: u32) -> u32
    ensures { result ≡ (2 ^ 32 - word) % 2 ^ 32 }
{
    word.wrapping_neg()
}

/// Reads a global, from its `int`.
fn global(alloc: Global, tokens: &[Token], at: usize) -> Result<(Head, usize), Fault>
    requires within { at < length tokens.now }
    requires int { declared_of (stands tokens.now at) ≡ declared.Global }
    ensures ok { IfOk result (λ r. Reads item.decl 0 (SpellsDecl r.0) tokens.now at r.1) }
    ensures err { IfErr result (λ f. FailsBy item.decl 0 tokens.now at f) }
{
    if !is_name(tokens, at + 1) {
        return Err(Fault::Unexpected(at + 1));
    }
    match length_part(alloc, tokens, at + 2) {
        Ok((length, after)) => match init_part(alloc, tokens, after) {
            Ok((init, next)) => {
                if !is_fixed(tokens, next, Fixed::Semi) {
                    return Err(Fault::Unexpected(next));
                }
                let name = name_at(alloc, tokens, at + 1)?;
                let at = offset(tokens, at + 1);
                let head = Head::Global {
                    at,
                    name,
                    length,
                    init,
                };
                Ok((head, next + 1))
            }
            Err(fault) => Err(fault),
        },
        Err(fault) => Err(fault),
    }
}

/// Reads a length in brackets, or nothing.
fn length_part(alloc: Global, tokens: &[Token], at: usize) -> Result<(Option<Length>, usize), Fault>
    requires within { at ≤ length tokens.now }
    ensures ok { IfOk result (λ r. Passes item.size_part 0 (SpellsSizePart r.0) tokens.now at r.1) }
    ensures err { IfErr result (λ f. FailsBy item.size_part 0 tokens.now at f) }
{
    if !is_fixed(tokens, at, Fixed::OpenBracket) {
        return Ok((None, at));
    }
    match length(alloc, tokens, at + 1) {
        Ok((length, next)) => {
            if is_fixed(tokens, next, Fixed::CloseBracket) {
                Ok((Some(length), next + 1))
            } else {
                Err(Fault::Unexpected(next))
            }
        }
        Err(fault) => Err(fault),
    }
}

fn length(alloc: Global, tokens: &[Token], at: usize) -> Result<(Length, usize), Fault>
    requires within { at ≤ length tokens.now }
    ensures ok { IfOk result (λ r. Reads item.size 1 (SpellsSize r.0) tokens.now at r.1) }
    ensures err { IfErr result (λ f. FailsBy item.size 1 tokens.now at f) }
{
    let place = offset(tokens, at);
    if is_name(tokens, at) {
        let name = name_at(alloc, tokens, at)?;
        return Ok((Length::Word { at: place, name }, at + 1));
    }
    match number_at(tokens, at) {
        Some(word) => Ok((Length::Number { at: place, word }, at + 1)),
        None => Err(Fault::Unexpected(at)),
    }
}

/// Reads `=` and an initial value, or nothing.
fn init_part(alloc: Global, tokens: &[Token], at: usize) -> Result<(Option<Init>, usize), Fault>
    requires within { at ≤ length tokens.now }
    ensures ok { IfOk result (λ r. Passes item.start_part 0 (SpellsStartPart r.0) tokens.now at r.1) }
    ensures err { IfErr result (λ f. FailsBy item.start_part 0 tokens.now at f) }
{
    if !is_fixed(tokens, at, Fixed::Assign) {
        return Ok((None, at));
    }
    match init(alloc, tokens, at + 1) {
        Ok((init, next)) => Ok((Some(init), next)),
        Err(fault) => Err(fault),
    }
}

/// Reads an initial value, alone or in braces.
fn init(alloc: Global, tokens: &[Token], at: usize) -> Result<(Init, usize), Fault>
    requires within { at ≤ length tokens.now }
    ensures ok { IfOk result (λ r. Reads item.start 0 (SpellsStart r.0) tokens.now at r.1) }
    ensures err { IfErr result (λ f. FailsBy item.start 0 tokens.now at f) }
{
    if !is_fixed(tokens, at, Fixed::OpenBrace) {
        return match value(alloc, tokens, at) {
            Ok((init, next)) => Ok((init, next)),
            Err(fault) => Err(fault),
        };
    }
    match value(alloc, tokens, at + 1) {
        Ok((init, next)) => {
            if is_fixed(tokens, next, Fixed::CloseBrace) {
                Ok((init, next + 1))
            } else {
                Err(Fault::Unexpected(next))
            }
        }
        Err(fault) => Err(fault),
    }
}

fn value(alloc: Global, tokens: &[Token], at: usize) -> Result<(Init, usize), Fault>
    requires within { at ≤ length tokens.now }
    ensures ok { IfOk result (λ r. ReadsAny item.value (SpellsValue r.0) tokens.now at r.1) }
    ensures err { IfErr result (λ f. FailsAny item.value tokens.now at f) }
{
    if is_name(tokens, at) {
        let name = name_at(alloc, tokens, at)?;
        let place = offset(tokens, at);
        return Ok((Init::Named { at: place, name }, at + 1));
    }
    match constant(tokens, at) {
        Ok((word, next)) => Ok((Init::Word { word }, next)),
        Err(fault) => Err(fault),
    }
}

/// Reads the struct.
pub(crate) fn structure(alloc: Global, tokens: &[Token], at: usize) -> Result<(Head, usize), Fault>
    requires within { at ≤ length tokens.now }
    ensures ok { IfOk result (λ r. Reads item.structure 0 (SpellsStruct r.0) tokens.now at r.1) }
    ensures err { IfErr result (λ f. FailsBy item.structure 0 tokens.now at f) }
{
    if !is_fixed(tokens, at, Fixed::Struct) {
        return Err(Fault::Unexpected(at));
    }
    if !is_name(tokens, at + 1) {
        return Err(Fault::Unexpected(at + 1));
    }
    match field_block(alloc, tokens, at + 2) {
        Ok((fields, next)) => {
            if !is_fixed(tokens, next, Fixed::Semi) {
                return Err(Fault::Unexpected(next));
            }
            let tag = name_at(alloc, tokens, at + 1)?;
            let at = offset(tokens, at + 1);
            Ok((Head::Struct { at, tag, fields }, next + 1))
        }
        Err(fault) => Err(fault),
    }
}

/// Reads one field or more in braces.
fn field_block(alloc: Global, tokens: &[Token], at: usize) -> Result<(FieldList, usize), Fault>
    requires within { at ≤ length tokens.now }
    ensures ok { IfOk result (λ r. ReadsFields tokens.now at r.1 r.0) }
    ensures err { IfErr result (λ f. FailsBy item.field_block 0 tokens.now at f) }
{
    if !is_fixed(tokens, at, Fixed::OpenBrace) {
        return Err(Fault::Unexpected(at));
    }
    if !is_fixed(tokens, at + 1, Fixed::Int) {
        return Err(Fault::Unexpected(at + 1));
    }
    match field(alloc, tokens, at + 1) {
        Ok(first) => more_fields(alloc, tokens, at, first),
        Err(fault) => Err(fault),
    }
}

/// Reads a field, from its `int`: three tokens.
fn field(alloc: Global, tokens: &[Token], at: usize) -> Result<(u32, Name), Fault>
    requires within { at < length tokens.now }
    requires int { fixed_is fixed.Int (stands tokens.now at) ≡ true }
    ensures ok { IfOk result (λ r. ReadsField tokens.now at r.0 r.1) }
    ensures err { IfErr result (λ f. FailsField tokens.now at f) }
{
    if !is_name(tokens, at + 1) {
        return Err(Fault::Unexpected(at + 1));
    }
    if !is_fixed(tokens, at + 2, Fixed::Semi) {
        return Err(Fault::Unexpected(at + 2));
    }
    let name = name_at(alloc, tokens, at + 1)?;
    Ok((offset(tokens, at + 1), name))
}

/// Reads the fields after the first, and the closing brace; the opening one stands at `at`.
fn more_fields(
    alloc: Global,
    tokens: &[Token],
    at: usize,
    first: (u32, Name),
) -> Result<(FieldList, usize), Fault>
    requires brace { fixed_is fixed.OpenBrace (stands tokens.now at) ≡ true }
    requires int { fixed_is fixed.Int (stands tokens.now (at + 1)) ≡ true }
    requires first { ReadsField tokens.now (at + 1) first.0 first.1 }
    ensures ok { IfOk result (λ r. ReadsFields tokens.now at r.1 r.0) }
    ensures err { IfErr result (λ f. FailsBy item.field_block 0 tokens.now at f) }
{
    let mut next = at + 4;
    let mut fields = Seq::new(alloc);
    add_field(&mut fields, first)?;
    'fields: while is_fixed(tokens, next, Fixed::Int) {
        match field(alloc, tokens, next) {
            Ok(more) => {
                add_field(&mut fields, more)?;
                next += 3;
            }
            Err(fault) => return Err(fault),
        }
    }
    if is_fixed(tokens, next, Fixed::CloseBrace) {
        Ok((fields, next + 1))
    } else {
        Err(Fault::Unexpected(next))
    }
}

fn add_field(to: &mut FieldList, field: (u32, Name)) -> Result<(), Fault>
    ensures ok { OnOk result (to.new ≡ to.old ++ field ∷ []) }
    ensures err { IfErr result (λ f. f ≡ Fault.Memory) }
{
    match to.push(field) {
        Ok(()) => Ok(()),
        Err(_) => Err(Fault::Memory),
    }
}

pub(crate) fn add(to: &mut HeadList, head: Head) -> Result<(), Fault>
    ensures ok { OnOk result (to.new ≡ to.old ++ head ∷ []) }
    ensures err { IfErr result (λ f. f ≡ Fault.Memory) }
{
    match to.push(head) {
        Ok(()) => Ok(()),
        Err(_) => Err(Fault::Memory),
    }
}
