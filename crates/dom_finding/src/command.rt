ghost use Rattle.std.specs.Prelude.{◌≡◌, ◌≤◌, IfSome, option_map};
ghost use Rattle.dom_finding.specs.Command.{codelets_of, command_of, compile_of, elastic_of, exec_of, number_in as number_within, planned_of, probe_of, run_of, schedule_of, selfrun_of, serial_of, texts_of, upgrade_of, watch_of};
ghost use Rattle.dom_finding.specs.CommandForm.{command_in};

use crate::ranking::Ranking;
use crate::stage::Stage;
use banzai_config::Target;
use dom_words::read_count;
use itoa::Buffer;

const MOST_STAGE: u32 = 32;

const MOST_ROOM: u32 = 65_536;

const MOST_EVERY: u32 = 16;

const MOST_SEED: u32 = 4_294_967_295;

const MOST_PACKETS: u32 = 400_000;

/// The files that a command over a program names.
#[derive(Clone, Copy, Drop)]
pub struct Files<'a> {
    /// The name of the program's file.
    pub program: &'a str,
    /// The name of the trace's file.
    pub trace: &'a str,
}

/// The files that a command over a configuration names.
#[derive(Clone, Copy, Drop)]
pub struct ConfigFiles<'a> {
    /// The name of the configuration's file.
    pub config: &'a str,
    /// The name of the trace's file.
    pub trace: &'a str,
}

/// What the words ask for.
#[derive(Clone, Copy, Drop)]
pub enum Command<'a> {
    /// The program clocked on a target.
    Run {
        target: Target,
        files: Files<'a>,
    },
    /// The program run serially.
    Serial(Files<'a>),
    /// The configuration of a program for a target.
    Compile {
        target: Target,
        /// The name of the program's file.
        program: &'a str,
    },
    /// The codelets of a program for a target.
    Codelets {
        target: Target,
        /// The name of the program's file.
        program: &'a str,
    },
    /// The configuration of a program for a target by a plan.
    Planned {
        target: Target,
        /// The name of the program's file.
        program: &'a str,
        /// The name of the plan's file.
        plan: &'a str,
    },
    /// A configuration clocked.
    Exec(ConfigFiles<'a>),
    /// A configuration clocked, and every cycle of it told.
    Watch(ConfigFiles<'a>),
    /// A configuration clocked under taps.
    Probe {
        files: ConfigFiles<'a>,
        /// The stage before which they are attached.
        stage: Stage,
    },
    /// A configuration with queues in place of registers, over events.
    Elastic {
        files: ConfigFiles<'a>,
        /// The name of the events' file.
        events: &'a str,
    },
    /// A configuration clocked, with a queue behind it that serves the least rank first.
    Schedule {
        files: ConfigFiles<'a>,
        ranking: Ranking<'a>,
    },
    /// A configuration with shared containers, by the name of its file.
    Upgrade(&'a str),
    /// A program of the command's own clocked on a target, over packets that are drawn.
    SelfRun {
        target: Target,
        /// What the packets are drawn from.
        seed: u32,
        /// How many of them.
        count: u32,
    },
}

/// The command that the words spell (docs/FORMATS.md, "Commands"); `None` where they are of no form.
pub fn read_words(words: &[String]) -> Option<Command<'_>>
    ensures { option_map command_in result ≡ command_of (texts_of words.entry.now) }
{
    match words {
        [command, rest @ ..] if command.as_str() == "run" => run_in(rest),
        [command, rest @ ..] if command.as_str() == "serial" => serial_in(rest),
        [command, rest @ ..] if command.as_str() == "compile" => compile_in(rest),
        [command, rest @ ..] if command.as_str() == "codelets" => codelets_in(rest),
        [command, rest @ ..] if command.as_str() == "planned" => planned_in(rest),
        [command, rest @ ..] if command.as_str() == "exec" => exec_in(rest),
        [command, rest @ ..] if command.as_str() == "watch" => watch_in(rest),
        [command, rest @ ..] if command.as_str() == "probe" => probe_in(rest),
        [command, rest @ ..] if command.as_str() == "elastic" => elastic_in(rest),
        [command, rest @ ..] if command.as_str() == "schedule" => schedule_in(rest),
        [command, rest @ ..] if command.as_str() == "upgrade" => upgrade_in(rest),
        [command, rest @ ..] if command.as_str() == "selfrun" => selfrun_in(rest),
        _ => None,
    }
}

fn run_in(words: &[String]) -> Option<Command<'_>>
    ensures { option_map command_in result ≡ run_of (texts_of words.entry.now) }
{
    match words {
        [name, program, trace] if !program.is_empty() && !trace.is_empty() => {
            let target = Target::named(name.as_str())?;
            let files = Files {
                program: program.as_str(),
                trace: trace.as_str(),
            };
            Some(Command::Run { target, files })
        }
        _ => None,
    }
}

fn serial_in(words: &[String]) -> Option<Command<'_>>
    ensures { option_map command_in result ≡ serial_of (texts_of words.entry.now) }
{
    match words {
        [program, trace] if !program.is_empty() && !trace.is_empty() => {
            Some(Command::Serial(Files {
                program: program.as_str(),
                trace: trace.as_str(),
            }))
        }
        _ => None,
    }
}

fn compile_in(words: &[String]) -> Option<Command<'_>>
    ensures { option_map command_in result ≡ compile_of (texts_of words.entry.now) }
{
    match words {
        [name, program] if !program.is_empty() => {
            let target = Target::named(name.as_str())?;
            Some(Command::Compile {
                target,
                program: program.as_str(),
            })
        }
        _ => None,
    }
}

fn codelets_in(words: &[String]) -> Option<Command<'_>>
    ensures { option_map command_in result ≡ codelets_of (texts_of words.entry.now) }
{
    match words {
        [name, program] if !program.is_empty() => {
            let target = Target::named(name.as_str())?;
            Some(Command::Codelets {
                target,
                program: program.as_str(),
            })
        }
        _ => None,
    }
}

fn planned_in(words: &[String]) -> Option<Command<'_>>
    ensures { option_map command_in result ≡ planned_of (texts_of words.entry.now) }
{
    match words {
        [name, program, plan] if !program.is_empty() && !plan.is_empty() => {
            let target = Target::named(name.as_str())?;
            Some(Command::Planned {
                target,
                program: program.as_str(),
                plan: plan.as_str(),
            })
        }
        _ => None,
    }
}

fn exec_in(words: &[String]) -> Option<Command<'_>>
    ensures { option_map command_in result ≡ exec_of (texts_of words.entry.now) }
{
    match words {
        [config, trace] if !config.is_empty() && !trace.is_empty() => {
            Some(Command::Exec(ConfigFiles {
                config: config.as_str(),
                trace: trace.as_str(),
            }))
        }
        _ => None,
    }
}

fn watch_in(words: &[String]) -> Option<Command<'_>>
    ensures { option_map command_in result ≡ watch_of (texts_of words.entry.now) }
{
    match words {
        [config, trace] if !config.is_empty() && !trace.is_empty() => {
            Some(Command::Watch(ConfigFiles {
                config: config.as_str(),
                trace: trace.as_str(),
            }))
        }
        _ => None,
    }
}

fn probe_in(words: &[String]) -> Option<Command<'_>>
    ensures { option_map command_in result ≡ probe_of (texts_of words.entry.now) }
{
    match words {
        [config, trace, stage] if !config.is_empty() && !trace.is_empty() => {
            let number = number_in(stage.as_str(), 1, MOST_STAGE)?;
            let files = ConfigFiles {
                config: config.as_str(),
                trace: trace.as_str(),
            };
            let stage = Stage { number };
            Some(Command::Probe { files, stage })
        }
        _ => None,
    }
}

fn elastic_in(words: &[String]) -> Option<Command<'_>>
    ensures { option_map command_in result ≡ elastic_of (texts_of words.entry.now) }
{
    match words {
        [config, trace, events] if !config.is_empty() && !trace.is_empty() && !events.is_empty() =>
            {
                let files = ConfigFiles {
                    config: config.as_str(),
                    trace: trace.as_str(),
                };
                let events = events.as_str();
                Some(Command::Elastic { files, events })
            }
        _ => None,
    }
}

fn schedule_in(words: &[String]) -> Option<Command<'_>>
    ensures { option_map command_in result ≡ schedule_of (texts_of words.entry.now) }
{
    match words {
        [config, trace, field, room, every]
            if !config.is_empty() && !trace.is_empty() && !field.is_empty() => {
            let room = number_in(room.as_str(), 1, MOST_ROOM)?;
            let every = number_in(every.as_str(), 1, MOST_EVERY)?;
            let files = ConfigFiles {
                config: config.as_str(),
                trace: trace.as_str(),
            };
            let field = field.as_str();
            let ranking = Ranking { field, room, every };
            Some(Command::Schedule { files, ranking })
        }
        _ => None,
    }
}

fn upgrade_in(words: &[String]) -> Option<Command<'_>>
    ensures { option_map command_in result ≡ upgrade_of (texts_of words.entry.now) }
{
    match words {
        [config] if !config.is_empty() => Some(Command::Upgrade(config.as_str())),
        _ => None,
    }
}

fn selfrun_in(words: &[String]) -> Option<Command<'_>>
    ensures { option_map command_in result ≡ selfrun_of (texts_of words.entry.now) }
{
    match words {
        [name, seed, count] => {
            let target = Target::named(name.as_str())?;
            let seed = number_in(seed.as_str(), 0, MOST_SEED)?;
            let count = number_in(count.as_str(), 0, MOST_PACKETS)?;
            Some(Command::SelfRun {
                target,
                seed,
                count,
            })
        }
        _ => None,
    }
}

// The number from `low` to `high` that a text writes, without a sign and leading zeros.
fn number_in(text: &str, low: u32, high: u32) -> Option<u32>
    ensures number { result ≡ number_within low high text.now }
    ensures within { IfSome result (λ number. (low ≤ number) × (number ≤ high)) }
{
    let number = read_count(text.as_bytes())?;
    let mut digits = Buffer::new();
    if digits.format(number) == text && low <= number && number <= high {
        Some(number)
    } else {
        None
    }
}
