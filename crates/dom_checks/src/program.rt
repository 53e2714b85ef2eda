ghost use Rattle.std.specs.Prelude.{◌≡◌, ℕ, ◌≤◌, ◌++◌, [], length, map, true, IfErr, IfOk, None, OnOk};
ghost use Rattle.dom_ast.specs.CheckedForm.{checked_form, has_one_struct};
ghost use Rattle.dom_ast.specs.Form.{program_form, stmt_forms, transaction_form};
ghost use Rattle.dom_ast.specs.PartSize.{bodies_nested, bodies_nodes};
ghost use Rattle.dom_ast.specs.Resolved.{bodies_form, body_form};
ghost use Rattle.dom_ast.specs.Size.{program_nested, program_nodes};
ghost use Rattle.dom_checks.specs.Answers.{IsFirst};
ghost use Rattle.dom_checks.specs.inner.Noted.{AreNumbers};
ghost use Rattle.dom_checks.specs.Resolve.{body_of, resolved};
ghost use Rattle.dom_checks.specs.Scope.{with_param};
ghost use Rattle.dom_checks.specs.Verdict.{IsViolation};
ghost use Rattle.dom_checks.specs.Walk.{first_fault, stmts_mentions, transaction_checks, transactions_checks, violation};

use crate::expressions::guard;
use crate::faults::CheckFault;
use crate::heads::{check_name, heads};
use crate::scope::Scope;
use crate::seen::Seen;
use crate::statements::statements;
use dom_ast::{ActList, BodyList, Checked, Part, Program, Transaction};
use dom_words::Name;
use std::alloc::Global;

/// Whether a program is well formed (docs/LANGUAGE.md, "Checks"): the program with its names resolved, or the fault of the
/// first check of a walk through the program that does not hold.
pub fn check(alloc: Global, program: Program) -> Result<Checked, CheckFault>
    requires one_struct { has_one_struct (program_form program).heads ≡ true }
    ensures well { OnOk result (violation (program_form program) ≡ None) }
    ensures resolved { IfOk result (λ c. checked_form c ≡ resolved (program_form program)) }
    ensures fault { IfErr result (λ f. IsViolation (program_form program) f) }
    ensures nodes { IfOk result (λ c. bodies_nodes (bodies_form c.bodies) ≤ program_nodes (program_form program)) }
    ensures nested { (d : ℕ) → program_nested d (program_form program) ≡ true → IfOk result (λ c. bodies_nested d (bodies_form c.bodies) ≡ true) }
{
    let mut scope = heads(alloc, program.heads.as_slice())?;
    let bodies = bodies(alloc, &mut scope, program.transactions.as_slice())?;
    let (fields, arrays) = scope.into_parts();
    Ok(Checked {
        fields,
        arrays,
        bodies,
    })
}

/// Checks the transactions, and answers their guards and bodies with their names resolved.
fn bodies(
    alloc: Global,
    scope: &mut Scope,
    transactions: &[Transaction],
) -> Result<BodyList, CheckFault>
    requires numbers { AreNumbers (length scope.old.arrays) scope.old.meanings }
    requires outside { scope.old.param ≡ None }
    ensures scope { OnOk result (scope.new ≡ scope.old) }
    ensures form { IfOk result (λ bodies. bodies_form bodies ≡ map (body_of scope.old) (map transaction_form transactions.now)) }
    ensures holds { OnOk result (first_fault (transactions_checks scope.old [] (map transaction_form transactions.now)) ≡ None) }
    ensures fault { IfErr result (λ f. IsFirst f (transactions_checks scope.old [] (map transaction_form transactions.now))) }
{
    let mut seen = Seen::new(alloc);
    let mut bodies = BodyList::new(alloc);
    for transaction in transactions {
        let body = body(alloc, scope, &mut seen, transaction)?;
        bodies.push(body)?;
    }
    Ok(bodies)
}

/// Checks a transaction, in which its parameter is declared.
fn body(
    alloc: Global,
    scope: &mut Scope,
    seen: &mut Seen,
    transaction: &Transaction,
) -> Result<(Option<Part>, ActList), CheckFault>
    requires numbers { AreNumbers (length scope.old.arrays) scope.old.meanings }
    requires outside { scope.old.param ≡ None }
    ensures scope { OnOk result (scope.new ≡ scope.old) }
    ensures form { IfOk result (λ body. body_form body ≡ body_of scope.old (transaction_form transaction.now)) }
    ensures holds { OnOk result (first_fault (transaction_checks scope.old seen.old (transaction_form transaction.now)) ≡ None) }
    ensures seen { OnOk result (seen.new ≡ seen.old ++ stmts_mentions (with_param scope.old transaction.now.param) (stmt_forms transaction.now.body)) }
    ensures fault { IfErr result (λ f. IsFirst f (transaction_checks scope.old seen.old (transaction_form transaction.now))) }
{
    if transaction.tag.as_bytes() != scope.tag() {
        return Err(CheckFault::UnknownName(transaction.tag_at));
    }
    check_name(scope, transaction.param_at, transaction.param.as_bytes())?;
    let param = Name::of(alloc, transaction.param.as_bytes())?;
    scope.declare_param(param);
    let guard = guard(alloc, scope, seen, &transaction.guard)?;
    let acts = statements(alloc, scope, seen, transaction.body.as_slice())?;
    scope.end_param();
    Ok((guard, acts))
}
