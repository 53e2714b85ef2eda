ghost use Rattle.std.specs.Prelude.{◌≡◌, ◌<◌, ◌++◌, [], ◌∷◌, false, length, not, true, IfErr, IfOk, None, OnOk, Some};
ghost use Rattle.dom_words.specs.Units.{unit_named};
ghost use Rattle.dom_ast.specs.Form as syntax;
ghost use Rattle.dom_ast.specs.inner.ExprOps as expr_ops;
ghost use Rattle.dom_ast.specs.declared.part.Place.TheVariants as place;
ghost use Rattle.dom_ast.specs.Resolved as tree;
ghost use Rattle.dom_ast.specs.inner.PartOps as part_ops;
ghost use Rattle.dom_ast.specs.Kept.{are_within, guard_visits, guard_mentions_none, ops_mentions, part_mentions, parts_mentions, resolved_ranges};
ghost use Rattle.dom_checks.specs.Answers.{IsFirst};
ghost use Rattle.dom_checks.specs.inner.Noted.{AreNumbers, IsPlaceBelow, named};
ghost use Rattle.dom_checks.specs.declared.meant.Meant.TheVariants as meaning;
ghost use Rattle.dom_checks.specs.Resolve.{field_number as number_of, guard_of, name_part, ops_of, part_of, parts_of, place_of};
ghost use Rattle.dom_checks.specs.Scope.{meant};
ghost use Rattle.dom_checks.specs.Walk.{array_checks, expr_checks, expr_mentions, exprs_checks, exprs_count, field_checks, first_at as first_token, first_fault, guard_checks, index_checks, is_same_index, mention_checks, ops_checks, place_checks, unit_checks, word_checks};

use crate::faults::CheckFault;
use crate::meant::Meant;
use crate::scope::Scope;
use crate::seen::{Mention, Seen};
use dom_ast::{Expr, Part, PartList, PartOps, Place};
use dom_words::{BinOp, HashName, Seq, UnOp};
use std::alloc::Global;

/// Checks an expression, and answers it with its names resolved.
#[cycle(expressions)]
pub(crate) fn expression(
    alloc: Global,
    scope: &Scope,
    in_guard: bool,
    seen: &mut Seen,
    expr: &Expr,
) -> Result<Part, CheckFault>
    ensures form { IfOk result (λ p. tree.form p ≡ part_of scope.now (syntax.form expr.now)) }
    ensures holds { OnOk result (first_fault (expr_checks in_guard scope.now seen.old (syntax.form expr.now)) ≡ None) }
    ensures seen { OnOk result (seen.new ≡ seen.old ++ expr_mentions scope.now (syntax.form expr.now)) }
    ensures fault { IfErr result (λ f. IsFirst f (expr_checks in_guard scope.now seen.old (syntax.form expr.now))) }
{
    match expr {
        Expr::Number { word, .. } => Ok(Part::Number(*word)),
        Expr::Word { at, name } => value(scope, in_guard, seen, *at, name.as_bytes()),
        Expr::Field {
            at,
            base,
            field_at,
            field,
        } => match field_number(scope, *at, base.as_bytes(), *field_at, field.as_bytes()) {
            Ok(number) => Ok(Part::Field(number)),
            Err(fault) => Err(fault),
        },
        Expr::Index { at, array, index } => {
            match element(scope, in_guard, seen, *at, array.as_bytes(), index) {
                Ok(Mention { array, index }) => Ok(Part::State { array, index }),
                Err(fault) => Err(fault),
            }
        }
        Expr::Call { at, unit, args } => {
            call(
                alloc,
                scope,
                in_guard,
                seen,
                *at,
                unit.as_bytes(),
                args.as_slice(),
            )
        }
        Expr::Un { op, arg, .. } => match expression(alloc, scope, in_guard, seen, arg) {
            Ok(arg) => operated(alloc, *op, arg),
            Err(fault) => Err(fault),
        },
        Expr::Chain { first, rest } => match expression(alloc, scope, in_guard, seen, first) {
            Ok(first) => match operands(alloc, scope, in_guard, seen, rest.as_slice()) {
                Ok(rest) => chained(alloc, first, rest),
                Err(fault) => Err(fault),
            },
            Err(fault) => Err(fault),
        },
        Expr::Cond { test, yes, no } => match expression(alloc, scope, in_guard, seen, test) {
            Ok(test) => match expression(alloc, scope, in_guard, seen, yes) {
                Ok(yes) => match expression(alloc, scope, in_guard, seen, no) {
                    Ok(no) => chosen(alloc, test, yes, no),
                    Err(fault) => Err(fault),
                },
                Err(fault) => Err(fault),
            },
            Err(fault) => Err(fault),
        },
    }
}

/// Checks the call of a hash unit with its arguments.
#[cycle(expressions)]
fn call(
    alloc: Global,
    scope: &Scope,
    in_guard: bool,
    seen: &mut Seen,
    at: u32,
    name: &[u8],
    args: &[Expr],
) -> Result<Part, CheckFault>
    ensures form { IfOk result (λ p. tree.form p ≡ part_of scope.now (syntax.call at name.now (syntax.forms args.now))) }
    ensures holds { OnOk result (first_fault (expr_checks in_guard scope.now seen.old (syntax.call at name.now (syntax.forms args.now))) ≡ None) }
    ensures seen { OnOk result (seen.new ≡ seen.old ++ expr_mentions scope.now (syntax.call at name.now (syntax.forms args.now))) }
    ensures fault { IfErr result (λ f. IsFirst f (expr_checks in_guard scope.now seen.old (syntax.call at name.now (syntax.forms args.now)))) }
{
    match unit_of(scope, at, name, args) {
        Ok(unit) => match arguments(alloc, scope, in_guard, seen, args) {
            Ok(args) => Ok(Part::Call { unit, args }),
            Err(fault) => Err(fault),
        },
        Err(fault) => Err(fault),
    }
}

/// Checks the arguments of a hash unit.
#[cycle(expressions)]
fn arguments(
    alloc: Global,
    scope: &Scope,
    in_guard: bool,
    seen: &mut Seen,
    args: &[Expr],
) -> Result<PartList, CheckFault>
    ensures form { IfOk result (λ ps. tree.forms ps ≡ parts_of scope.now (syntax.forms args.now)) }
    ensures holds { OnOk result (first_fault (exprs_checks in_guard scope.now seen.old (syntax.forms args.now)) ≡ None) }
    ensures seen { OnOk result (seen.new ≡ seen.old ++ parts_mentions (parts_of scope.now (syntax.forms args.now))) }
    ensures fault { IfErr result (λ f. IsFirst f (exprs_checks in_guard scope.now seen.old (syntax.forms args.now))) }
{
    let mut parts = Seq::new(alloc);
    'arguments: for arg in args {
        match expression(alloc, scope, in_guard, seen, arg) {
            Ok(part) => add_argument(&mut parts, part)?,
            Err(fault) => return Err(fault),
        }
    }
    Ok(parts)
}

/// Checks the operands after the first.
#[cycle(expressions)]
fn operands(
    alloc: Global,
    scope: &Scope,
    in_guard: bool,
    seen: &mut Seen,
    rest: &[(BinOp, Expr)],
) -> Result<PartOps, CheckFault>
    ensures form { IfOk result (λ ps. part_ops.op_forms ps ≡ ops_of scope.now (expr_ops.op_forms rest.now)) }
    ensures holds { OnOk result (first_fault (ops_checks in_guard scope.now seen.old (expr_ops.op_forms rest.now)) ≡ None) }
    ensures seen { OnOk result (seen.new ≡ seen.old ++ ops_mentions (ops_of scope.now (expr_ops.op_forms rest.now))) }
    ensures fault { IfErr result (λ f. IsFirst f (ops_checks in_guard scope.now seen.old (expr_ops.op_forms rest.now))) }
{
    let mut parts = Seq::new(alloc);
    'operands: for (op, operand) in rest {
        match expression(alloc, scope, in_guard, seen, operand) {
            Ok(part) => add_operand(&mut parts, *op, part)?,
            Err(fault) => return Err(fault),
        }
    }
    Ok(parts)
}

/// Checks the guard of a transaction, where it has one.
pub(crate) fn guard(
    alloc: Global,
    scope: &Scope,
    seen: &mut Seen,
    guard: &Option<Expr>,
) -> Result<Option<Part>, CheckFault>
    requires numbers { AreNumbers (length scope.now.arrays) scope.now.meanings }
    ensures form { IfOk result (λ p. tree.guard_form p ≡ guard_of scope.now (syntax.guard_form guard.now)) }
    ensures holds { OnOk result (first_fault (guard_checks scope.now seen.old (syntax.guard_form guard.now)) ≡ None) }
    ensures seen { OnOk result (seen.new ≡ seen.old) }
    ensures fault { IfErr result (λ f. IsFirst f (guard_checks scope.now seen.old (syntax.guard_form guard.now))) }
    ensures within { OnOk result (are_within (resolved_ranges (length scope.now.fields) (length scope.now.arrays)) (guard_visits (guard_of scope.now (syntax.guard_form guard.now))) ≡ true) }
    ensures free { OnOk result (guard_mentions_none (guard_of scope.now (syntax.guard_form guard.now)) ≡ true) }
{
    match guard {
        Some(expr) => match expression(alloc, scope, true, seen, expr) {
            Ok(part) => Ok(Some(part)),
            Err(fault) => Err(fault),
        },
        None => Ok(None),
    }
}

/// Checks a name that is a value.
fn value(
    scope: &Scope,
    in_guard: bool,
    seen: &mut Seen,
    at: u32,
    name: &[u8],
) -> Result<Part, CheckFault>
    ensures form { IfOk result (λ p. tree.form p ≡ name_part (meant scope.now name.now)) }
    ensures holds { OnOk result (first_fault (word_checks in_guard scope.now at name.now) ≡ None) }
    ensures seen { OnOk result (seen.new ≡ seen.old ++ part_mentions (name_part (meant scope.now name.now))) }
    ensures fault { IfErr result (λ f. IsFirst f (word_checks in_guard scope.now at name.now)) }
{
    if HashName::named(name).is_some() {
        return Err(CheckFault::ShapeOfName(at));
    }
    match scope.meant(name) {
        None => Err(CheckFault::UnknownName(at)),
        Some(Meant::Define(word)) => Ok(Part::Number(word)),
        Some(Meant::Scalar(array)) if !in_guard => {
            let index = Place::Word(0);
            seen.add(Mention { array, index })?;
            Ok(Part::State { array, index })
        }
        Some(_) => Err(CheckFault::ShapeOfName(at)),
    }
}

/// Checks `X.f` and answers the number of the field.
pub(crate) fn field_number(
    scope: &Scope,
    at: u32,
    base: &[u8],
    field_at: u32,
    field: &[u8],
) -> Result<u32, CheckFault>
    ensures number { IfOk result (λ k. k ≡ number_of scope.now field.now) }
    ensures below { IfOk result (λ k. k < 64) }
    ensures holds { OnOk result (first_fault (field_checks scope.now at base.now field_at field.now) ≡ None) }
    ensures fault { IfErr result (λ f. IsFirst f (field_checks scope.now at base.now field_at field.now)) }
{
    match scope.meant(base) {
        None => Err(CheckFault::UnknownName(at)),
        Some(Meant::Parameter) => match scope.field(field) {
            Some(number) => Ok(number),
            None => Err(CheckFault::UnknownName(field_at)),
        },
        Some(Meant::Define(_) | Meant::Scalar(_) | Meant::Array(_)) => {
            Err(CheckFault::ShapeOfName(at))
        }
    }
}

/// Checks `X[e]` and answers the array and the index.
pub(crate) fn element(
    scope: &Scope,
    in_guard: bool,
    seen: &mut Seen,
    at: u32,
    name: &[u8],
    index: &Expr,
) -> Result<Mention, CheckFault>
    ensures array { IfOk result (λ m. meant scope.now name.now ≡ Some (meaning.Array m.array)) }
    ensures place { IfOk result (λ m. m.index ≡ place_of scope.now (syntax.form index.now)) }
    ensures holds { OnOk result (first_fault (index_checks in_guard scope.now seen.old at name.now (syntax.form index.now)) ≡ None) }
    ensures seen { IfOk result (λ m. seen.new ≡ seen.old ++ named m ∷ []) }
    ensures fault { IfErr result (λ f. IsFirst f (index_checks in_guard scope.now seen.old at name.now (syntax.form index.now))) }
{
    match array_of(scope, in_guard, at, name) {
        Ok(array) => match place(scope, index) {
            Ok(index) => indexed(seen, at, Mention { array, index }),
            Err(fault) => Err(fault),
        },
        Err(fault) => Err(fault),
    }
}

/// Checks the name of an array, which no guard may mention.
fn array_of(scope: &Scope, in_guard: bool, at: u32, name: &[u8]) -> Result<u32, CheckFault>
    ensures array { IfOk result (λ k. meant scope.now name.now ≡ Some (meaning.Array k)) }
    ensures below { IfOk result (λ k. k < 32) }
    ensures holds { OnOk result (first_fault (array_checks in_guard scope.now at name.now) ≡ None) }
    ensures fault { IfErr result (λ f. IsFirst f (array_checks in_guard scope.now at name.now)) }
{
    match scope.meant(name) {
        None => {
            if HashName::named(name).is_some() {
                Err(CheckFault::ShapeOfName(at))
            } else {
                Err(CheckFault::UnknownName(at))
            }
        }
        Some(Meant::Array(array)) => {
            if in_guard {
                Err(CheckFault::ShapeOfName(at))
            } else {
                Ok(array)
            }
        }
        Some(Meant::Define(_) | Meant::Scalar(_) | Meant::Parameter) => {
            Err(CheckFault::ShapeOfName(at))
        }
    }
}

/// Checks an index.
fn place(scope: &Scope, expr: &Expr) -> Result<Place, CheckFault>
    ensures place { IfOk result (λ i. i ≡ place_of scope.now (syntax.form expr.now)) }
    ensures below { IfOk result (λ i. IsPlaceBelow 64 i) }
    ensures holds { OnOk result (first_fault (place_checks scope.now (syntax.form expr.now)) ≡ None) }
    ensures fault { IfErr result (λ f. IsFirst f (place_checks scope.now (syntax.form expr.now))) }
{
    match expr {
        Expr::Number { word, .. } => Ok(Place::Word(*word)),
        Expr::Word { at, name } => named_place(scope, *at, name.as_bytes()),
        Expr::Field {
            at,
            base,
            field_at,
            field,
        } => match field_number(scope, *at, base.as_bytes(), *field_at, field.as_bytes()) {
            Ok(number) => Ok(Place::Field(number)),
            Err(fault) => Err(fault),
        },
        Expr::Index { at, .. } | Expr::Call { at, .. } | Expr::Un { at, .. } => {
            Err(CheckFault::BadIndex(*at))
        }
        Expr::Chain { first, .. } => Err(CheckFault::BadIndex(first_at(first))),
        Expr::Cond { test, .. } => Err(CheckFault::BadIndex(first_at(test))),
    }
}

/// Checks a name that is an index.
fn named_place(scope: &Scope, at: u32, name: &[u8]) -> Result<Place, CheckFault>
    ensures place { IfOk result (λ i. i ≡ place_of scope.now (syntax.word at name.now)) }
    ensures below { IfOk result (λ i. IsPlaceBelow 64 i) }
    ensures holds { OnOk result (first_fault (place_checks scope.now (syntax.word at name.now)) ≡ None) }
    ensures fault { IfErr result (λ f. IsFirst f (place_checks scope.now (syntax.word at name.now))) }
{
    match scope.meant(name) {
        None => Err(CheckFault::UnknownName(at)),
        Some(Meant::Define(word)) => Ok(Place::Word(word)),
        Some(Meant::Scalar(_) | Meant::Array(_) | Meant::Parameter) => {
            Err(CheckFault::BadIndex(at))
        }
    }
}

/// The offset of the first token of an expression that is no bracket.
fn first_at(expr: &Expr) -> u32
    ensures { result ≡ first_token (syntax.form expr.now) }
{
    match expr {
        Expr::Number { at, .. }
        | Expr::Word { at, .. }
        | Expr::Field { at, .. }
        | Expr::Index { at, .. }
        | Expr::Call { at, .. }
        | Expr::Un { at, .. } => *at,
        Expr::Chain { first, .. } => first_at(first),
        Expr::Cond { test, .. } => first_at(test),
    }
}

/// Mentions an array at an index, which has to be that of its first mention.
fn indexed(seen: &mut Seen, at: u32, mention: Mention) -> Result<Mention, CheckFault>
    requires array { mention.array < 32 }
    requires field { IsPlaceBelow 64 mention.index }
    ensures same { IfOk result (λ m. m ≡ mention) }
    ensures holds { OnOk result (first_fault (mention_checks seen.old at (named mention)) ≡ None) }
    ensures seen { OnOk result (seen.new ≡ seen.old ++ named mention ∷ []) }
    ensures fault { IfErr result (λ f. IsFirst f (mention_checks seen.old at (named mention))) }
{
    if is_another(seen.first(mention.array), mention.index) {
        return Err(CheckFault::TwoIndexes(at));
    }
    seen.add(mention)?;
    Ok(mention)
}

/// Whether an array's first index is there and another one.
fn is_another(first: Option<Place>, index: Place) -> bool
    ensures { result ≡ not (is_same_index first index) }
{
    match first {
        Some(first) => first != index,
        None => false,
    }
}

/// Checks the name of a hash unit, and that it takes as many arguments.
fn unit_of(scope: &Scope, at: u32, name: &[u8], args: &[Expr]) -> Result<HashName, CheckFault>
    ensures unit { IfOk result (λ unit. unit_named name.now ≡ Some unit) }
    ensures holds { OnOk result (first_fault (unit_checks scope.now at name.now (exprs_count (syntax.forms args.now))) ≡ None) }
    ensures fault { IfErr result (λ f. IsFirst f (unit_checks scope.now at name.now (exprs_count (syntax.forms args.now)))) }
{
    match HashName::named(name) {
        Some(unit) => {
            if usize::from(unit.args) == args.len() {
                Ok(unit)
            } else {
                Err(CheckFault::HashArgs(at))
            }
        }
        None => match scope.meant(name) {
            Some(_) => Err(CheckFault::ShapeOfName(at)),
            None => Err(CheckFault::UnknownName(at)),
        },
    }
}

fn operated(alloc: Global, op: UnOp, arg: Part) -> Result<Part, CheckFault>
    ensures form { IfOk result (λ p. tree.form p ≡ tree.un op (tree.form arg)) }
    ensures fault { IfErr result (λ f. f ≡ CheckFault.Memory) }
{
    let arg = boxed(alloc, arg)?;
    Ok(Part::Un { op, arg })
}

fn chained(alloc: Global, first: Part, rest: PartOps) -> Result<Part, CheckFault>
    ensures form { IfOk result (λ p. tree.form p ≡ tree.chain (tree.form first) (part_ops.op_forms rest)) }
    ensures fault { IfErr result (λ f. f ≡ CheckFault.Memory) }
{
    let first = boxed(alloc, first)?;
    Ok(Part::Chain { first, rest })
}

fn chosen(alloc: Global, test: Part, then: Part, other: Part) -> Result<Part, CheckFault>
    ensures form { IfOk result (λ p. tree.form p ≡ tree.choice (tree.form test) (tree.form then) (tree.form other)) }
    ensures fault { IfErr result (λ f. f ≡ CheckFault.Memory) }
{
    let test = boxed(alloc, test)?;
    let yes = boxed(alloc, then)?;
    let no = boxed(alloc, other)?;
    Ok(Part::Cond { test, yes, no })
}

fn boxed(alloc: Global, part: Part) -> Result<Box<Part>, CheckFault>
    ensures ok { IfOk result (λ b. b.value ≡ part) }
    ensures err { IfErr result (λ f. f ≡ CheckFault.Memory) }
{
    match Box::new(alloc, part) {
        Ok(part) => Ok(part),
        Err(_) => Err(CheckFault::Memory),
    }
}

fn add_argument(to: &mut PartList, arg: Part) -> Result<(), CheckFault>
    ensures ok { OnOk result (to.new ≡ to.old ++ arg ∷ []) }
    ensures err { IfErr result (λ f. f ≡ CheckFault.Memory) }
{
    match to.push(arg) {
        Ok(()) => Ok(()),
        Err(_) => Err(CheckFault::Memory),
    }
}

fn add_operand(to: &mut PartOps, op: BinOp, operand: Part) -> Result<(), CheckFault>
    ensures ok { OnOk result (to.new ≡ to.old ++ (op, operand) ∷ []) }
    ensures err { IfErr result (λ f. f ≡ CheckFault.Memory) }
{
    match to.push((op, operand)) {
        Ok(()) => Ok(()),
        Err(_) => Err(CheckFault::Memory),
    }
}
