ghost use Rattle.std.specs.Prelude.{◌≡◌, ◌≤◌, IfErr, IfOk, length};
ghost use Rattle.dom_ast.specs.CheckedForm.{checked_form};
ghost use Rattle.dom_compile.specs.Programs.{IsWellFormed};
ghost use Rattle.dom_compile.specs.Verdict.{IsProgram};
ghost use Rattle.dom_finding.specs.Refusals.{refused_program};
ghost use Rattle.dom_finding.specs.Stops.{TextStop, stop_of_check, stop_of_compile, stop_of_lex, stop_of_parse};

use crate::reading::Stop;
use crate::refusals::Refusal;
use dom_ast::Checked;
use dom_checks::{CheckFault, check};
use dom_compile::CompileFault;
use dom_lexer::{LexFault, lex};
use dom_parser::{ParseFault, parse};
use std::alloc::Global;

/// The well-formed program of a text within its limit.
pub fn program_in(alloc: Global, text: &[u8]) -> Result<Checked, Stop>
    requires { length text.now ≤ 65536 }
    ensures ok { IfOk result (λ c. IsWellFormed text.now (checked_form c)) }
    ensures stop { IfErr result (TextStop (IsProgram text.now) refused_program) }
{
    let tokens = match lex(alloc, text) {
        Ok(tokens) => tokens,
        Err(fault) => return Err(lex_stop(fault)),
    };
    let program = match parse(alloc, &tokens) {
        Ok(program) => program,
        Err(fault) => return Err(parse_stop(fault)),
    };
    match check(alloc, program) {
        Ok(checked) => Ok(checked),
        Err(fault) => Err(check_stop(fault)),
    }
}

// Why a fault stops a command.
fn lex_stop(fault: LexFault) -> Stop
    ensures { result ≡ stop_of_lex fault }
{
    match fault {
        LexFault::Memory => Stop::Memory,
        _ => Stop::Refused(Refusal::Lex(fault)),
    }
}

fn parse_stop(fault: ParseFault) -> Stop
    ensures { result ≡ stop_of_parse fault }
{
    match fault {
        ParseFault::Memory => Stop::Memory,
        _ => Stop::Refused(Refusal::Parse(fault)),
    }
}

fn check_stop(fault: CheckFault) -> Stop
    ensures { result ≡ stop_of_check fault }
{
    match fault {
        CheckFault::Memory => Stop::Memory,
        _ => Stop::Refused(Refusal::Check(fault)),
    }
}

/// Why a fault of the compiler stops a command.
pub fn compile_stop(fault: CompileFault) -> Stop
    ensures { result ≡ stop_of_compile fault }
{
    match fault {
        CompileFault::Lex(fault) => Stop::Refused(Refusal::Lex(fault)),
        CompileFault::Parse(fault) => Stop::Refused(Refusal::Parse(fault)),
        CompileFault::Check(fault) => Stop::Refused(Refusal::Check(fault)),
        CompileFault::TooManyStatements(count) => Stop::Refused(Refusal::Statements(count)),
        CompileFault::Outside(codelet) => Stop::Refused(Refusal::Outside(codelet)),
        CompileFault::TooDeep(chain) => Stop::Refused(Refusal::Deep(chain)),
        CompileFault::Full {
            codelet,
            kind,
            stage,
        } => Stop::Refused(Refusal::Full {
            codelet,
            kind,
            stage,
        }),
        CompileFault::Memory => Stop::Memory,
    }
}
