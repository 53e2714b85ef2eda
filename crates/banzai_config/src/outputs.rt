ghost use Rattle.std.specs.Prelude.{◌≡◌, ◌<◌, IfSome, length};
ghost use Rattle.banzai_config.specs.Checked.{first_output};
ghost use Rattle.banzai_config.specs.Judged.{broken, sizes_in};
ghost use Rattle.banzai_config.specs.Legal.{output_tests};

use crate::fault::ConfigKind;
use crate::judge::Frame;
use crate::numbers::NumberSet;
use crate::walk::BrokenAtom;
use atom_traits::Port;

/// The first output that breaks a rule; `written` has the containers that stages write.
pub(crate) fn walk_outputs(
    frame: Frame,
    outputs: &[Port],
    written: &NumberSet,
) -> Option<BrokenAtom>
    ensures first { result ≡ first_output (sizes_in frame) written.now.numbers 0 outputs.now }
    ensures place { IfSome result (λ b. b.atom < length outputs.now) }
{
    for k in 0..outputs.len() {
        match judge_output(frame, outputs[k], written) {
            Some(kind) => return Some(BrokenAtom { kind, atom: k }),
            None => {}
        }
    }
    None
}

fn judge_output(frame: Frame, output: Port, written: &NumberSet) -> Option<ConfigKind>
    ensures { result ≡ broken (output_tests (sizes_in frame) written.now.numbers output) }
{
    match output {
        Port::Const(_) => None,
        Port::Container(container) => {
            if container >= frame.containers {
                Some(ConfigKind::BadNumber)
            } else if container < frame.fields || written.has(container) {
                None
            } else {
                Some(ConfigKind::ReadBeforeWrite)
            }
        }
    }
}
