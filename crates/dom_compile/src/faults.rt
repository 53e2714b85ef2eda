use atom_match::MatchFault;
use codelets::Kind;
use dom_checks::CheckFault;
use dom_lexer::LexFault;
use dom_parser::ParseFault;
use dom_words::Memory;
use stage_plan::{Chain, PlanFault};
use three_address::FlatFault;

/// Why a text is not compiled, in the order in which the causes are looked for.
#[derive(Debug, Drop)]
pub enum CompileFault {
    /// It is no row of tokens.
    Lex(LexFault),
    /// The tokens spell no program.
    Parse(ParseFault),
    /// The program is not well formed.
    Check(CheckFault),
    /// The statement list has so many statements, and they are more than 512.
    TooManyStatements(u32),
    /// The least statement number of the first codelet that does not fit the target.
    Outside(u32),
    /// The longest chain of codelets has more of them than the target has stages: the least statement numbers of the first
    /// such chain in dictionary order.
    TooDeep(Chain),
    /// A codelet, by its least statement number, finds no place: a kind and a stage that is full of it.
    Full {
        codelet: u32,
        kind: Kind,
        stage: u32,
    },
    /// Want of memory.
    Memory,
}

impl From<Memory> for CompileFault {
    ghost use Rattle.std.specs.Prelude.{◌≡◌};
    ghost use Rattle.dom_compile.specs.declared.faults.CompileFault.TheVariants as fault;

    ghost from_gives = { λ _ f. f ≡ fault.Memory };

    fn from(_memory: Memory) -> Self {
        CompileFault::Memory
    }
}

impl From<LexFault> for CompileFault {
    ghost use Rattle.std.specs.Prelude.{◌≡◌};
    ghost use Rattle.dom_compile.specs.Layers.{of_lex};

    ghost from_gives = { λ inner f. f ≡ of_lex inner };

    fn from(inner: LexFault) -> Self {
        match inner {
            LexFault::Memory => CompileFault::Memory,
            _ => CompileFault::Lex(inner),
        }
    }
}

impl From<ParseFault> for CompileFault {
    ghost use Rattle.std.specs.Prelude.{◌≡◌};
    ghost use Rattle.dom_compile.specs.Layers.{of_parse};

    ghost from_gives = { λ inner f. f ≡ of_parse inner };

    fn from(inner: ParseFault) -> Self {
        match inner {
            ParseFault::Memory => CompileFault::Memory,
            _ => CompileFault::Parse(inner),
        }
    }
}

impl From<CheckFault> for CompileFault {
    ghost use Rattle.std.specs.Prelude.{◌≡◌};
    ghost use Rattle.dom_compile.specs.Layers.{of_check};

    ghost from_gives = { λ inner f. f ≡ of_check inner };

    fn from(inner: CheckFault) -> Self {
        match inner {
            CheckFault::Memory => CompileFault::Memory,
            _ => CompileFault::Check(inner),
        }
    }
}

impl From<FlatFault> for CompileFault {
    ghost use Rattle.std.specs.Prelude.{◌≡◌};
    ghost use Rattle.dom_compile.specs.Layers.{of_flat};

    ghost from_gives = { λ inner f. f ≡ of_flat inner };

    fn from(inner: FlatFault) -> Self {
        match inner {
            FlatFault::TooManyStatements(count) => CompileFault::TooManyStatements(count),
            FlatFault::Memory => CompileFault::Memory,
        }
    }
}

impl From<MatchFault> for CompileFault {
    ghost use Rattle.std.specs.Prelude.{◌≡◌};
    ghost use Rattle.dom_compile.specs.Layers.{of_match};

    ghost from_gives = { λ inner f. f ≡ of_match inner };

    fn from(inner: MatchFault) -> Self {
        match inner {
            MatchFault::Outside(number) => CompileFault::Outside(number),
            MatchFault::Memory => CompileFault::Memory,
        }
    }
}

impl From<PlanFault> for CompileFault {
    ghost use Rattle.std.specs.Prelude.{◌≡◌};
    ghost use Rattle.dom_compile.specs.Layers.{of_plan};

    ghost from_gives = { λ inner f. f ≡ of_plan inner };

    fn from(inner: PlanFault) -> Self {
        match inner {
            PlanFault::TooDeep(chain) => CompileFault::TooDeep(chain),
            PlanFault::Full {
                codelet,
                kind,
                stage,
            } => CompileFault::Full {
                codelet,
                kind,
                stage,
            },
            PlanFault::Memory => CompileFault::Memory,
        }
    }
}
