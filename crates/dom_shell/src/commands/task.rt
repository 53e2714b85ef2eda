ghost use Rattle.std.specs.Prelude.{◌≡◌, ◌≤◌, length};
ghost use Rattle.dom_shell.specs.Tasks.{against as against_parts};

use atom_traits::AtomTemplate;
use banzai_config::{Config, Parts};
use dom_finding::{Ranking, Refusal, Stage};

/// What is to be done for a target, with the text of the first file, or of the command's own program.
#[derive(Drop)]
pub(crate) enum Task<'a> {
    /// Put the configuration of the program with this text.
    Compile,
    /// Clock it over the trace in the file of this name.
    Run(&'a str),
    /// Put the codelets of the program.
    Codelets,
    /// Put its configuration by the plan in the file of this name.
    Planned(&'a str),
    /// Clock it over so many packets, drawn from the seed.
    SelfRun {
        seed: u32,
        count: u32,
    },
    /// Put the configuration with this text, which has these parts, with shared containers.
    Upgrade(Parts),
    /// Run the configuration with this text, which has these parts, with queues, over the trace and the events in the files of
    /// these names.
    Elastic {
        parts: Parts,
        trace: &'a str,
        events: &'a str,
    },
    /// Clock the configuration with this text, which has these parts, over the trace in the file of this name.
    Config {
        what: ConfigTask<'a>,
        parts: Parts,
        trace: &'a str,
    },
}

/// What is put of a configuration that is clocked.
#[derive(Clone, Copy, Drop)]
pub(crate) enum ConfigTask<'a> {
    /// The report of the run.
    Exec,
    /// Every cycle of it.
    Watch,
    /// The report of the run under taps before this stage.
    Probe(Stage),
    /// The packets as a queue serves them that takes them ranked.
    Schedule(Ranking<'a>),
}

impl ConfigTask<'_> {
    /// What stands against it: that the configuration has not the stage or the field that it names.
    pub(crate) fn against<T: AtomTemplate>(self, config: &Config<T>) -> Option<Refusal>
        requires stages { length config.now.stages ≤ 65535 }
        ensures { result ≡ against_parts self.entry config.now }
    {
        match self {
            ConfigTask::Exec | ConfigTask::Watch => None,
            ConfigTask::Probe(stage) => {
                let depth = config.stages() as u32;
                if stage.number <= depth {
                    None
                } else {
                    Some(Refusal::Stage(depth))
                }
            }
            ConfigTask::Schedule(ranking) => {
                if config.fields().find(ranking.field.as_bytes()).is_some() {
                    None
                } else {
                    Some(Refusal::Rank)
                }
            }
        }
    }
}
