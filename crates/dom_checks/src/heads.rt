ghost use Rattle.std.specs.Prelude.{◌≡◌, ◌+◌, ◌<◌, ◌≤◌, ◌++◌, [], ◌∷◌, false, true, length, map, IfErr, IfOk, None, OnOk};
ghost use Rattle.dom_words.specs.Names.{has_name};
ghost use Rattle.dom_ast.specs.declared.program.Head.TheVariants as head;
ghost use Rattle.dom_words.specs.State.{is_length, state_words};
ghost use Rattle.dom_checks.specs.Answers.{IsFirst};
ghost use Rattle.dom_checks.specs.Scope.{declared, declared_array, define_word, heads_scope, init_of, length_of, meant, nothing, with_global};
ghost use Rattle.dom_checks.specs.Walk.{define_checks, fields_checks, first_fault, global_checks, head_checks, heads_checks, init_checks, length_checks, name_checks, new_field_checks, size_checks};

use crate::faults::{CheckFault, Limit};
use crate::meant::Meant;
use crate::scope::Scope;
use dom_ast::{Head, Init, Length};
use dom_words::{Array, HashName, Name, Names};
use std::alloc::Global;

/// What the heads of a program declare, or the first check of theirs that does not hold.
pub(crate) fn heads(alloc: Global, heads: &[Head]) -> Result<Scope, CheckFault>
    ensures scope { IfOk result (λ scope. scope ≡ heads_scope heads.now) }
    ensures holds { OnOk result (first_fault (heads_checks nothing heads.now) ≡ None) }
    ensures fault { IfErr result (λ f. IsFirst f (heads_checks nothing heads.now)) }
{
    let mut scope = Scope::new(alloc)?;
    for head in heads {
        scope = with_head(alloc, scope, head)?;
    }
    Ok(scope)
}

fn with_head(alloc: Global, scope: Scope, head: &Head) -> Result<Scope, CheckFault>
    ensures scope { IfOk result (λ s. s ≡ declared scope head.now) }
    ensures holds { OnOk result (first_fault (head_checks scope head.now) ≡ None) }
    ensures fault { IfErr result (λ f. IsFirst f (head_checks scope head.now)) }
{
    match head {
        Head::Define { at, name, word } => {
            check_name(&scope, *at, name.as_bytes())?;
            let name = Name::of(alloc, name.as_bytes())?;
            Ok(scope.with_define(name, *word)?)
        }
        Head::Struct { tag, fields, .. } => {
            let fields = fields_of(alloc, fields.as_slice())?;
            let tag = Name::of(alloc, tag.as_bytes())?;
            Ok(scope.with_struct(tag, fields))
        }
        Head::Global {
            at,
            name,
            length,
            init,
        } => with_global(alloc, scope, *at, name.as_bytes(), length, init),
    }
}

/// Whether the name of a define, a global or a parameter may be declared.
pub(crate) fn check_name(scope: &Scope, at: u32, name: &[u8]) -> Result<(), CheckFault>
    ensures holds { OnOk result (first_fault (name_checks scope.now at name.now) ≡ None) }
    ensures new { OnOk result (has_name scope.now.names name.now ≡ false) }
    ensures fault { IfErr result (λ f. IsFirst f (name_checks scope.now at name.now)) }
{
    if scope.meant(name).is_some() {
        return Err(CheckFault::Twice(at));
    }
    if HashName::named(name).is_some() {
        return Err(CheckFault::ShapeOfName(at));
    }
    Ok(())
}

/// The names of the fields.
fn fields_of(alloc: Global, fields: &[(u32, Name)]) -> Result<Names, CheckFault>
    ensures names { IfOk result (λ names. names ≡ map (λ f. f.1) fields.now) }
    ensures few { IfOk result (λ names. length names ≤ 64) }
    ensures holds { OnOk result (first_fault (fields_checks [] fields.now) ≡ None) }
    ensures fault { IfErr result (λ f. IsFirst f (fields_checks [] fields.now)) }
{
    let mut names = Names::new(alloc);
    for field in fields {
        add_field(alloc, &mut names, field)?;
    }
    Ok(names)
}

fn with_global(
    alloc: Global,
    scope: Scope,
    at: u32,
    name: &[u8],
    brackets: &Option<Length>,
    init: &Option<Init>,
) -> Result<Scope, CheckFault>
    ensures scope { IfOk result (λ s. s ≡ declared scope (head.Global at name.now brackets.now init.now)) }
    ensures holds { OnOk result (first_fault (head_checks scope (head.Global at name.now brackets.now init.now)) ≡ None) }
    ensures fault { IfErr result (λ f. IsFirst f (head_checks scope (head.Global at name.now brackets.now init.now))) }
{
    check_name(&scope, at, name)?;
    if scope.arrays_count() >= 32 {
        return Err(CheckFault::TooLarge(Limit::Arrays, at));
    }
    let array = array(alloc, &scope, at, name, brackets, init)?;
    Ok(scope.with_global(alloc, brackets, array)?)
}

/// The array of a global whose own name is declared already.
fn array(
    alloc: Global,
    scope: &Scope,
    at: u32,
    name: &[u8],
    brackets: &Option<Length>,
    init: &Option<Init>,
) -> Result<Array, CheckFault>
    ensures array { IfOk result (λ a. a ≡ declared_array (with_global scope.now name.now brackets.now) name.now brackets.now init.now) }
    ensures size { IfOk result (λ a. is_length a.length ≡ true) }
    ensures words { IfOk result (λ a. state_words scope.now.arrays + a.length ≤ 1048576) }
    ensures holds { OnOk result (first_fault (global_checks (with_global scope.now name.now brackets.now) at brackets.now init.now) ≡ None) }
    ensures fault { IfErr result (λ f. IsFirst f (global_checks (with_global scope.now name.now brackets.now) at brackets.now init.now)) }
{
    let length = length_in(scope, name, brackets)?;
    check_size(scope, at, length)?;
    let init = init_in(scope, name, brackets, init)?;
    let name = Name::of(alloc, name)?;
    Ok(Array { name, length, init })
}

fn length_in(scope: &Scope, own: &[u8], brackets: &Option<Length>) -> Result<u32, CheckFault>
    ensures length { IfOk result (λ n. n ≡ length_of (with_global scope.now own.now brackets.now) brackets.now) }
    ensures holds { OnOk result (first_fault (length_checks (with_global scope.now own.now brackets.now) brackets.now) ≡ None) }
    ensures fault { IfErr result (λ f. IsFirst f (length_checks (with_global scope.now own.now brackets.now) brackets.now)) }
{
    match brackets {
        None => Ok(1),
        Some(Length::Number { word, .. }) => Ok(*word),
        Some(Length::Word { at, name }) => {
            word_of_define(scope, own, brackets, *at, name.as_bytes())
        }
    }
}

fn init_in(
    scope: &Scope,
    own: &[u8],
    brackets: &Option<Length>,
    init: &Option<Init>,
) -> Result<u32, CheckFault>
    ensures word { IfOk result (λ w. w ≡ init_of (with_global scope.now own.now brackets.now) init.now) }
    ensures holds { OnOk result (first_fault (init_checks (with_global scope.now own.now brackets.now) init.now) ≡ None) }
    ensures fault { IfErr result (λ f. IsFirst f (init_checks (with_global scope.now own.now brackets.now) init.now)) }
{
    match init {
        None => Ok(0),
        Some(Init::Word { word }) => Ok(*word),
        Some(Init::Named { at, name }) => {
            word_of_define(scope, own, brackets, *at, name.as_bytes())
        }
    }
}

/// The word that a name stands for at a global, where it has to be a define's.
fn word_of_define(
    scope: &Scope,
    own: &[u8],
    brackets: &Option<Length>,
    at: u32,
    name: &[u8],
) -> Result<u32, CheckFault>
    ensures word { IfOk result (λ w. w ≡ define_word (meant (with_global scope.now own.now brackets.now) name.now)) }
    ensures holds { OnOk result (first_fault (define_checks (with_global scope.now own.now brackets.now) at name.now) ≡ None) }
    ensures fault { IfErr result (λ f. IsFirst f (define_checks (with_global scope.now own.now brackets.now) at name.now)) }
{
    match scope.meant_at_global(own, brackets, name) {
        None => Err(CheckFault::UnknownName(at)),
        Some(Meant::Define(word)) => Ok(word),
        Some(_) => Err(CheckFault::ShapeOfName(at)),
    }
}

/// Whether a global may have so many words after those declared before it.
fn check_size(scope: &Scope, at: u32, length: u32) -> Result<(), CheckFault>
    ensures size { OnOk result (is_length length ≡ true) }
    ensures words { OnOk result (state_words scope.now.arrays + length ≤ 1048576) }
    ensures holds { OnOk result (first_fault (size_checks scope.now.arrays at length) ≡ None) }
    ensures fault { IfErr result (λ f. IsFirst f (size_checks scope.now.arrays at length)) }
{
    if length == 0 || length > 1_048_576 {
        return Err(CheckFault::TooLarge(Limit::Length, at));
    }
    if scope.words() + length > 1_048_576 {
        return Err(CheckFault::TooLarge(Limit::Words, at));
    }
    Ok(())
}

fn add_field(alloc: Global, names: &mut Names, field: &(u32, Name)) -> Result<(), CheckFault>
    requires { length names.old ≤ 64 }
    ensures names { OnOk result (names.new ≡ names.old ++ field.now.1 ∷ []) }
    ensures few { OnOk result (length names.new ≤ 64) }
    ensures holds { OnOk result (first_fault (new_field_checks names.old field.now) ≡ None) }
    ensures fault { IfErr result (λ f. IsFirst f (new_field_checks names.old field.now)) }
{
    let (at, name) = field;
    let name = Name::of(alloc, name.as_bytes())?;
    if !names.add(name)? {
        return Err(CheckFault::Twice(*at));
    }
    if names.len() > 64 {
        return Err(CheckFault::TooLarge(Limit::Fields, *at));
    }
    Ok(())
}
