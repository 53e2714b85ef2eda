ghost use Rattle.std.specs.Prelude.{◌≡◌, ◌<◌, ◌++◌, [], ◌∷◌, length, true, IfErr, IfOk, None, OnOk};
ghost use Rattle.dom_ast.specs.Form as syntax;
ghost use Rattle.dom_ast.specs.Form.{assign, stmt_form, stmt_forms, target_form};
ghost use Rattle.dom_ast.specs.Resolved.{act_form, act_forms};
ghost use Rattle.dom_ast.specs.Kept.{acts_visits, are_within, goal_mentions, keep_indexes, resolved_ranges};
ghost use Rattle.dom_checks.specs.Answers.{IsFirst};
ghost use Rattle.dom_checks.specs.inner.Noted.{AreNumbers, are_settled};
ghost use Rattle.dom_checks.specs.Resolve.{act_of, acts_of, goal_of};
ghost use Rattle.dom_ast.specs.declared.part.Goal.TheVariants as goals;
ghost use Rattle.dom_checks.specs.Walk.{first_fault, kept_checks, stmt_checks, stmt_mentions, stmts_checks, stmts_mentions, target_checks};

use crate::expressions::{element, expression, field_number};
use crate::faults::CheckFault;
use crate::meant::Meant;
use crate::scope::Scope;
use crate::seen::{Mention, Seen};
use dom_ast::{Act, ActList, Expr, Goal, Place, Stmt, Target};
use dom_words::{HashName, Seq};
use std::alloc::Global;

/// Checks statements, and answers them with their names resolved.
pub(crate) fn statements(
    alloc: Global,
    scope: &Scope,
    seen: &mut Seen,
    stmts: &[Stmt],
) -> Result<ActList, CheckFault>
    requires numbers { AreNumbers (length scope.now.arrays) scope.now.meanings }
    ensures form { IfOk result (λ acts. act_forms acts ≡ acts_of scope.now (stmt_forms stmts.now)) }
    ensures holds { OnOk result (first_fault (stmts_checks scope.now seen.old (stmt_forms stmts.now)) ≡ None) }
    ensures seen { OnOk result (seen.new ≡ seen.old ++ stmts_mentions scope.now (stmt_forms stmts.now)) }
    ensures fault { IfErr result (λ f. IsFirst f (stmts_checks scope.now seen.old (stmt_forms stmts.now))) }
    ensures within { OnOk result (are_within (resolved_ranges (length scope.now.fields) (length scope.now.arrays)) (acts_visits (acts_of scope.now (stmt_forms stmts.now))) ≡ true) }
    ensures kept { OnOk result (keep_indexes seen.old (acts_visits (acts_of scope.now (stmt_forms stmts.now))) ≡ true) }
    ensures settled { OnOk result (are_settled scope.now.meanings seen.old ≡ true → are_settled scope.now.meanings seen.new ≡ true) }
{
    match block(alloc, scope, seen, stmts) {
        Ok(acts) => Ok(acts),
        Err(fault) => Err(fault),
    }
}

/// Checks the statements of a body or of a side of an `if`.
#[cycle(statements)]
fn block(
    alloc: Global,
    scope: &Scope,
    seen: &mut Seen,
    stmts: &[Stmt],
) -> Result<ActList, CheckFault>
    ensures form { IfOk result (λ acts. act_forms acts ≡ acts_of scope.now (stmt_forms stmts.now)) }
    ensures holds { OnOk result (first_fault (stmts_checks scope.now seen.old (stmt_forms stmts.now)) ≡ None) }
    ensures seen { OnOk result (seen.new ≡ seen.old ++ stmts_mentions scope.now (stmt_forms stmts.now)) }
    ensures fault { IfErr result (λ f. IsFirst f (stmts_checks scope.now seen.old (stmt_forms stmts.now))) }
{
    let mut acts = Seq::new(alloc);
    'statements: for stmt in stmts {
        match statement(alloc, scope, seen, stmt) {
            Ok(act) => add_act(&mut acts, act)?,
            Err(fault) => return Err(fault),
        }
    }
    Ok(acts)
}

/// Checks a statement.
#[cycle(statements)]
fn statement(alloc: Global, scope: &Scope, seen: &mut Seen, stmt: &Stmt) -> Result<Act, CheckFault>
    ensures form { IfOk result (λ act. act_form act ≡ act_of scope.now (stmt_form stmt.now)) }
    ensures holds { OnOk result (first_fault (stmt_checks scope.now seen.old (stmt_form stmt.now)) ≡ None) }
    ensures seen { OnOk result (seen.new ≡ seen.old ++ stmt_mentions scope.now (stmt_form stmt.now)) }
    ensures fault { IfErr result (λ f. IsFirst f (stmt_checks scope.now seen.old (stmt_form stmt.now))) }
{
    match stmt {
        Stmt::Assign { at, target, value } => assignment(alloc, scope, seen, *at, target, value),
        Stmt::If { test, yes, no } => match expression(alloc, scope, false, seen, test) {
            Ok(test) => match block(alloc, scope, seen, yes.as_slice()) {
                Ok(yes) => match block(alloc, scope, seen, no.as_slice()) {
                    Ok(no) => Ok(Act::If { test, yes, no }),
                    Err(fault) => Err(fault),
                },
                Err(fault) => Err(fault),
            },
            Err(fault) => Err(fault),
        },
    }
}

/// Checks an assignment: its value, and then its target.
fn assignment(
    alloc: Global,
    scope: &Scope,
    seen: &mut Seen,
    at: u32,
    target: &Target,
    value: &Expr,
) -> Result<Act, CheckFault>
    ensures form { IfOk result (λ act. act_form act ≡ act_of scope.now (assign at (target_form target.now) (syntax.form value.now))) }
    ensures holds { OnOk result (first_fault (stmt_checks scope.now seen.old (assign at (target_form target.now) (syntax.form value.now))) ≡ None) }
    ensures seen { OnOk result (seen.new ≡ seen.old ++ stmt_mentions scope.now (assign at (target_form target.now) (syntax.form value.now))) }
    ensures fault { IfErr result (λ f. IsFirst f (stmt_checks scope.now seen.old (assign at (target_form target.now) (syntax.form value.now)))) }
{
    match expression(alloc, scope, false, seen, value) {
        Ok(value) => match goal(scope, seen, at, target) {
            Ok(target) => Ok(Act::Assign { target, value }),
            Err(fault) => Err(fault),
        },
        Err(fault) => Err(fault),
    }
}

/// Checks the target of an assignment that starts at an offset.
fn goal(scope: &Scope, seen: &mut Seen, at: u32, target: &Target) -> Result<Goal, CheckFault>
    ensures goal { IfOk result (λ g. g ≡ goal_of scope.now (target_form target.now)) }
    ensures holds { OnOk result (first_fault (target_checks scope.now seen.old at (target_form target.now)) ≡ None) }
    ensures seen { OnOk result (seen.new ≡ seen.old ++ goal_mentions (goal_of scope.now (target_form target.now))) }
    ensures fault { IfErr result (λ f. IsFirst f (target_checks scope.now seen.old at (target_form target.now))) }
{
    match target {
        Target::Word(name) => scalar_goal(scope, seen, at, name.as_bytes()),
        Target::Field {
            base,
            field_at,
            field,
        } => match field_number(scope, at, base.as_bytes(), *field_at, field.as_bytes()) {
            Ok(number) => field_goal(seen, at, number),
            Err(fault) => Err(fault),
        },
        Target::Index { array, index } => {
            match element(scope, false, seen, at, array.as_bytes(), index) {
                Ok(Mention { array, index }) => Ok(Goal::State { array, index }),
                Err(fault) => Err(fault),
            }
        }
    }
}

/// Checks a name that is a target.
fn scalar_goal(scope: &Scope, seen: &mut Seen, at: u32, name: &[u8]) -> Result<Goal, CheckFault>
    ensures goal { IfOk result (λ g. g ≡ goal_of scope.now (syntax.to_word name.now)) }
    ensures holds { OnOk result (first_fault (target_checks scope.now seen.old at (syntax.to_word name.now)) ≡ None) }
    ensures seen { OnOk result (seen.new ≡ seen.old ++ goal_mentions (goal_of scope.now (syntax.to_word name.now))) }
    ensures fault { IfErr result (λ f. IsFirst f (target_checks scope.now seen.old at (syntax.to_word name.now))) }
{
    if HashName::named(name).is_some() {
        return Err(CheckFault::ShapeOfName(at));
    }
    match scope.meant(name) {
        None => Err(CheckFault::UnknownName(at)),
        Some(Meant::Scalar(array)) => {
            let index = Place::Word(0);
            seen.add(Mention { array, index })?;
            Ok(Goal::State { array, index })
        }
        Some(Meant::Define(_) | Meant::Array(_) | Meant::Parameter) => {
            Err(CheckFault::ShapeOfName(at))
        }
    }
}

/// Checks that a field is no index.
fn field_goal(seen: &Seen, at: u32, number: u32) -> Result<Goal, CheckFault>
    requires { number < 64 }
    ensures goal { IfOk result (λ g. g ≡ goals.Field number) }
    ensures holds { OnOk result (first_fault (kept_checks seen.now at number) ≡ None) }
    ensures fault { IfErr result (λ f. IsFirst f (kept_checks seen.now at number)) }
{
    if seen.is_index(number) {
        Err(CheckFault::IndexAssignedLater(at))
    } else {
        Ok(Goal::Field(number))
    }
}

fn add_act(to: &mut ActList, act: Act) -> Result<(), CheckFault>
    ensures ok { OnOk result (to.new ≡ to.old ++ act ∷ []) }
    ensures err { IfErr result (λ f. f ≡ CheckFault.Memory) }
{
    match to.push(act) {
        Ok(()) => Ok(()),
        Err(_) => Err(CheckFault::Memory),
    }
}
