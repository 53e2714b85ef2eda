ghost use Rattle.std.specs.Prelude.{◌≡◌, ◌≤◌, IfErr, IfOk, length};
ghost use Rattle.banzai_config.specs.Parts.{parts_form};
ghost use Rattle.config_text.specs.Fronts.{TextOf};
ghost use Rattle.dom_finding.specs.Configs.{IsConfig};
ghost use Rattle.dom_finding.specs.Refusals.{refused_config};
ghost use Rattle.dom_finding.specs.Stops.{TextStop, stop_of_config, stop_of_read};

use crate::reading::Stop;
use crate::refusals::Refusal;
use banzai_config::{ConfigFault, Parts, Target};
use config_text::{ReadFault, read_parts};
use std::alloc::Global;

/// The target and the parts of a configuration with a text within its limit. Whether they are legal is not asked.
pub fn parts_in(alloc: Global, text: &[u8]) -> Result<(Target, Parts), Stop>
    requires { length text.now ≤ 1048576 }
    ensures ok { IfOk result (λ r. TextOf r.0 (parts_form r.1) text.now) }
    ensures stop { IfErr result (TextStop (IsConfig text.now) refused_config) }
{
    match read_parts(alloc, text) {
        Ok(read) => Ok(read),
        Err(fault) => Err(read_stop(fault)),
    }
}

// Why a fault stops a command.
fn read_stop(fault: ReadFault) -> Stop
    ensures { result ≡ stop_of_read fault }
{
    match fault {
        ReadFault::Line(n) => Stop::Refused(Refusal::ConfigLine(n)),
        ReadFault::UnknownTarget => Stop::Refused(Refusal::UnknownTarget),
        ReadFault::Memory => Stop::Memory,
    }
}

/// Why a broken rule of a configuration stops a command.
pub fn config_stop(fault: ConfigFault) -> Stop
    ensures { result ≡ stop_of_config fault }
{
    match fault {
        ConfigFault::Refused { kind, stage, atom } => {
            Stop::Refused(Refusal::Config { kind, stage, atom })
        }
        ConfigFault::Memory => Stop::Memory,
    }
}
