ghost use Rattle.std.specs.Prelude.{◌≡◌, ◌<◌, ◌++◌, ◌∷◌, [], IfOk, OnOk, codes, length, map};
ghost use Rattle.trace_text.specs.Lines.{after_commas, count_text};
ghost use Rattle.dom_compile.specs.Verdict.{of_bytes, of_names, of_tokens};
ghost use Rattle.dom_finding.specs.Refusals.{full_line as line_of_full, kind_text, placed, program_line, rule_line as line_of_rule, rule_text, refusal_line, refusal_status, trace_line as line_of_trace, wide_line as line_of_wide};

use banzai_config::ConfigKind;
use codelets::Kind;
use dom_checks::{CheckFault, Limit};
use dom_lexer::LexFault;
use dom_parser::ParseFault;
use dom_words::Memory;
use itoa::Buffer;
use stage_plan::Chain;
use std::alloc::Global;
use trace_text::TraceFault;

const PROGRAM_REFUSED: u8 = 1;

const INPUT_REFUSED: u8 = 3;

/// Why a command is refused (docs/FORMATS.md).
#[derive(Debug, Drop)]
pub enum Refusal {
    /// The program is too long.
    ProgramLimit,
    /// The program's text has no tokens.
    Lex(LexFault),
    /// The program's tokens spell no program.
    Parse(ParseFault),
    /// The program is not well formed.
    Check(CheckFault),
    /// The program has so many statements, and they are more than 512.
    Statements(u32),
    /// A codelet does not fit the target: the least number of its statements.
    Outside(u32),
    /// Codelets of which each uses the one before it are more than the target has stages.
    Deep(Chain),
    /// A codelet finds no place: the least number of its statements, and a stage that is full.
    Full {
        codelet: u32,
        kind: Kind,
        stage: u32,
    },
    /// The configuration is too long.
    ConfigLimit,
    /// The first line of a configuration that may not stand, from 1.
    ConfigLine(u32),
    /// No target has the name in the configuration.
    UnknownTarget,
    /// The first rule that the configuration breaks, with its stage and its atom.
    Config {
        kind: ConfigKind,
        stage: u32,
        atom: u32,
    },
    /// The configuration has only so many stages.
    Stage(u32),
    /// The configuration has no field with the name of the rank.
    Rank,
    /// The trace is too long.
    TraceLimit,
    /// The trace's text is no trace.
    Trace(TraceFault),
    /// The text of events is too long.
    EventsLimit,
    /// The first line of events that is none, from 1.
    Events(u32),
    /// The text of a plan is too long.
    PlanLimit,
    /// The first line of a plan that is not right, from 1.
    PlanLine(u32),
    /// A codelet of a plan is not at a later stage than one that it uses: the least numbers of their statements.
    PlanEarly {
        codelet: u32,
        used: u32,
    },
    /// A stage of a plan has more atoms of a kind than its width.
    PlanWide {
        stage: u32,
        kind: Kind,
    },
}

impl Refusal {
    /// The status with which a refused call ends.
    pub fn status(&self) -> u8
        ensures { result ≡ refusal_status self.now }
    {
        match self {
            Refusal::ProgramLimit
            | Refusal::Lex(_)
            | Refusal::Parse(_)
            | Refusal::Statements(_)
            | Refusal::Outside(_)
            | Refusal::Deep(_)
            | Refusal::Full { .. }
            | Refusal::Check(_) => PROGRAM_REFUSED,
            Refusal::ConfigLimit
            | Refusal::ConfigLine(_)
            | Refusal::UnknownTarget
            | Refusal::Config { .. }
            | Refusal::Stage(_)
            | Refusal::Rank
            | Refusal::TraceLimit
            | Refusal::Trace(_)
            | Refusal::EventsLimit
            | Refusal::Events(_)
            | Refusal::PlanLimit
            | Refusal::PlanLine(_)
            | Refusal::PlanEarly { .. }
            | Refusal::PlanWide { .. } => INPUT_REFUSED,
        }
    }

    /// The line that is put. Want of memory has no line.
    pub fn line(&self, alloc: Global) -> Result<Vec<u8>, Memory>
        ensures line { IfOk result (λ line. line.items ≡ refusal_line self.now) }
        ensures some { IfOk result (λ line. 0 < length line.items) }
    {
        match self {
            Refusal::ProgramLimit => placed_line(alloc, "refused,limit,program", &[]),
            Refusal::Lex(fault) => lex_line(alloc, *fault),
            Refusal::Parse(fault) => parse_line(alloc, *fault),
            Refusal::Check(fault) => check_line(alloc, *fault),
            Refusal::Statements(count) => {
                placed_line(alloc, "refused,statements", &[u64::from(*count)])
            }
            Refusal::Outside(codelet) => {
                placed_line(alloc, "refused,outside", &[u64::from(*codelet)])
            }
            Refusal::Deep(chain) => deep_line(alloc, chain),
            Refusal::Full {
                codelet,
                kind,
                stage,
            } => full_line(alloc, *codelet, *kind, *stage),
            Refusal::ConfigLimit => placed_line(alloc, "refused,limit,config", &[]),
            Refusal::ConfigLine(n) => {
                placed_line(alloc, "refused,config,line", &[u64::from(*n)])
            }
            Refusal::UnknownTarget => placed_line(alloc, "refused,config,unknown-target", &[]),
            Refusal::Config { kind, stage, atom } => rule_line(alloc, *kind, *stage, *atom),
            Refusal::Stage(depth) => placed_line(alloc, "refused,stage", &[u64::from(*depth)]),
            Refusal::Rank => placed_line(alloc, "refused,rank", &[]),
            Refusal::TraceLimit => placed_line(alloc, "refused,limit,trace", &[]),
            Refusal::Trace(fault) => trace_line(alloc, *fault),
            Refusal::EventsLimit => placed_line(alloc, "refused,limit,events", &[]),
            Refusal::Events(n) => placed_line(alloc, "refused,events", &[u64::from(*n)]),
            Refusal::PlanLimit => placed_line(alloc, "refused,limit,plan", &[]),
            Refusal::PlanLine(n) => placed_line(alloc, "refused,plan,line", &[u64::from(*n)]),
            Refusal::PlanEarly { codelet, used } => placed_line(
                alloc,
                "refused,plan,early",
                &[u64::from(*codelet), u64::from(*used)],
            ),
            Refusal::PlanWide { stage, kind } => wide_line(alloc, *stage, *kind),
        }
    }
}

fn lex_line(alloc: Global, fault: LexFault) -> Result<Vec<u8>, Memory>
    ensures line { IfOk result (λ line. line.items ≡ program_line (of_bytes fault)) }
    ensures some { IfOk result (λ line. 0 < length line.items) }
{
    let (words, at) = match fault {
        LexFault::BadByte(at) => ("refused,lex,bad-byte", at),
        LexFault::OpenComment(at) => ("refused,lex,open-comment", at),
        LexFault::BigLiteral(at) => ("refused,lex,big-literal", at),
        LexFault::TooManyTokens(at) => ("refused,lex,too-many-tokens", at),
        LexFault::Memory => return Err(Memory),
    };
    placed_line(alloc, words, &[u64::from(at)])
}

fn parse_line(alloc: Global, fault: ParseFault) -> Result<Vec<u8>, Memory>
    ensures line { IfOk result (λ line. line.items ≡ program_line (of_tokens fault)) }
    ensures some { IfOk result (λ line. 0 < length line.items) }
{
    let (words, at) = match fault {
        ParseFault::Forbidden(at) => ("refused,parse,forbidden", at),
        ParseFault::Unexpected(at) => ("refused,parse,unexpected", at),
        ParseFault::TooNested(at) => ("refused,parse,too-nested", at),
        ParseFault::Memory => return Err(Memory),
    };
    placed_line(alloc, words, &[u64::from(at)])
}

fn check_line(alloc: Global, fault: CheckFault) -> Result<Vec<u8>, Memory>
    ensures line { IfOk result (λ line. line.items ≡ program_line (of_names fault)) }
    ensures some { IfOk result (λ line. 0 < length line.items) }
{
    let (words, at) = match fault {
        CheckFault::Twice(at) => ("refused,check,twice", at),
        CheckFault::UnknownName(at) => ("refused,check,unknown-name", at),
        CheckFault::ShapeOfName(at) => ("refused,check,shape-of-name", at),
        CheckFault::BadIndex(at) => ("refused,check,bad-index", at),
        CheckFault::TwoIndexes(at) => ("refused,check,two-indexes", at),
        CheckFault::IndexAssignedLater(at) => ("refused,check,index-assigned-later", at),
        CheckFault::HashArgs(at) => ("refused,check,hash-args", at),
        CheckFault::TooLarge(limit, at) => return too_large_line(alloc, limit, at),
        CheckFault::Memory => return Err(Memory),
    };
    placed_line(alloc, words, &[u64::from(at)])
}

fn too_large_line(alloc: Global, limit: Limit, at: u32) -> Result<Vec<u8>, Memory>
    ensures line { IfOk result (λ line. line.items ≡ program_line (of_names (CheckFault.TooLarge limit at))) }
    ensures some { IfOk result (λ line. 0 < length line.items) }
{
    let words = match limit {
        Limit::Fields => "refused,check,too-large-fields",
        Limit::Arrays => "refused,check,too-large-arrays",
        Limit::Length => "refused,check,too-large-length",
        Limit::Words => "refused,check,too-large-words",
    };
    placed_line(alloc, words, &[u64::from(at)])
}

// The line of a chain that is longer than the pipeline is deep.
fn deep_line(alloc: Global, chain: &Chain) -> Result<Vec<u8>, Memory>
    ensures line { IfOk result (λ line. line.items ≡ placed (codes "refused,deep") chain.now) }
    ensures some { IfOk result (λ line. 0 < length line.items) }
{
    let mut line = Vec::from_slice(alloc, b"refused,deep").map_err(|_| Memory)?;
    for codelet in chain.as_slice() {
        push_number(&mut line, u64::from(*codelet))?;
    }
    line.push(b'\n').map_err(|_| Memory)?;
    Ok(line)
}

// The line of a codelet that finds no place, with the kind and the stage that is full of it.
fn full_line(alloc: Global, codelet: u32, kind: Kind, stage: u32) -> Result<Vec<u8>, Memory>
    ensures line { IfOk result (λ line. line.items ≡ line_of_full codelet kind stage) }
    ensures some { IfOk result (λ line. 0 < length line.items) }
{
    let mut line = Vec::from_slice(alloc, b"refused,full").map_err(|_| Memory)?;
    push_number(&mut line, u64::from(codelet))?;
    push_word(&mut line, kind_word(kind))?;
    push_number(&mut line, u64::from(stage))?;
    line.push(b'\n').map_err(|_| Memory)?;
    Ok(line)
}

// The line of a stage of a plan that has too many atoms of a kind.
fn wide_line(alloc: Global, stage: u32, kind: Kind) -> Result<Vec<u8>, Memory>
    ensures line { IfOk result (λ line. line.items ≡ line_of_wide stage kind) }
    ensures some { IfOk result (λ line. 0 < length line.items) }
{
    let mut line = Vec::from_slice(alloc, b"refused,plan,wide").map_err(|_| Memory)?;
    push_number(&mut line, u64::from(stage))?;
    push_word(&mut line, kind_word(kind))?;
    line.push(b'\n').map_err(|_| Memory)?;
    Ok(line)
}

/// The word of a kind.
pub(crate) fn kind_word(kind: Kind) -> &'static str
    ensures { result.now ≡ kind_text kind }
{
    match kind {
        Kind::Stateless => "stateless",
        Kind::Stateful => "stateful",
    }
}

// The line of a rule that a configuration breaks.
fn rule_line(alloc: Global, kind: ConfigKind, stage: u32, atom: u32) -> Result<Vec<u8>, Memory>
    ensures line { IfOk result (λ line. line.items ≡ line_of_rule kind stage atom) }
    ensures some { IfOk result (λ line. 0 < length line.items) }
{
    placed_line(
        alloc,
        rule_words(kind),
        &[u64::from(stage), u64::from(atom)],
    )
}

fn rule_words(kind: ConfigKind) -> &'static str
    ensures { result.now ≡ rule_text kind }
{
    match kind {
        ConfigKind::Depth => "refused,config,depth",
        ConfigKind::Width => "refused,config,width",
        ConfigKind::BadNumber => "refused,config,bad-number",
        ConfigKind::MulOperator => "refused,config,mul-operator",
        ConfigKind::WideConstant => "refused,config,wide-constant",
        ConfigKind::Pattern => "refused,config,pattern",
        ConfigKind::ArrayTwice => "refused,config,array-twice",
        ConfigKind::ReadBeforeWrite => "refused,config,read-before-write",
        ConfigKind::ContainerTwice => "refused,config,container-twice",
    }
}

fn trace_line(alloc: Global, fault: TraceFault) -> Result<Vec<u8>, Memory>
    ensures line { IfOk result (λ line. line.items ≡ line_of_trace fault) }
    ensures some { IfOk result (λ line. 0 < length line.items) }
{
    match fault {
        TraceFault::NoHeader => placed_line(alloc, "refused,trace,no-header", &[]),
        TraceFault::UnknownColumn(c) => {
            placed_line(alloc, "refused,trace,unknown-column", &[u64::from(c)])
        }
        TraceFault::ColumnTwice(c) => {
            placed_line(alloc, "refused,trace,column-twice", &[u64::from(c)])
        }
        TraceFault::RowLength(r) => {
            placed_line(alloc, "refused,trace,row-length", &[u64::from(r)])
        }
        TraceFault::BadValue(r, c) => {
            placed_line(alloc, "refused,trace,value", &[u64::from(r), u64::from(c)])
        }
        TraceFault::TooManyCycles(cycles) => {
            placed_line(alloc, "refused,trace,cycles", &[cycles])
        }
        TraceFault::Memory => Err(Memory),
    }
}

// The words, the numbers, each after a comma, and the line feed.
fn placed_line(alloc: Global, words: &str, numbers: &[u64]) -> Result<Vec<u8>, Memory>
    ensures line { IfOk result (λ line. line.items ≡ placed words.now numbers.now) }
    ensures some { IfOk result (λ line. 0 < length line.items) }
{
    let mut line = Vec::from_slice(alloc, words.as_bytes()).map_err(|_| Memory)?;
    for number in numbers {
        push_number(&mut line, *number)?;
    }
    line.push(b'\n').map_err(|_| Memory)?;
    Ok(line)
}

/// A comma and a number at the end of a line.
pub(crate) fn push_number(line: &mut Vec<u8>, number: u64) -> Result<(), Memory>
    ensures { OnOk result (line.new.items ≡ line.old.items ++ 44 ∷ count_text number) }
{
    line.push(b',').map_err(|_| Memory)?;
    let mut digits = Buffer::new();
    line.extend_from_slice(digits.format(number).as_bytes())
        .map_err(|_| Memory)
}

/// A comma and a word at the end of a line.
pub(crate) fn push_word(line: &mut Vec<u8>, word: &str) -> Result<(), Memory>
    ensures { OnOk result (line.new.items ≡ line.old.items ++ 44 ∷ word.now) }
{
    line.push(b',').map_err(|_| Memory)?;
    line.extend_from_slice(word.as_bytes()).map_err(|_| Memory)
}
