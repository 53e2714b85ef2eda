ghost use Rattle.std.specs.Prelude.{◌≡◌, ◌+◌, ◌-◌, ◌^◌, ◌<◌, ◌≤◌, [], IfOk, IfErr, OnOk, None, length, map, true};
ghost use Rattle.std.specs.List.{list_all};
ghost use Rattle.banzai_config.specs.Checked.{IsFaultOf, outputs_say, says_if, stage_fits};
ghost use Rattle.banzai_config.specs.Judged.{HasRoom, shape_in, sizes_in};
ghost use Rattle.banzai_config.specs.Legal.{LegalFor, head_holds, sizes_of, violation};
ghost use Rattle.banzai_config.specs.Parts.{parts_form, stage_form};
ghost use Rattle.banzai_config.specs.Walked.{IsSeen};

use crate::fault::{ConfigFault, ConfigKind};
use crate::head::head_fields;
use crate::judge::{Frame, Limits, Seen};
use crate::numbers::NumberSet;
use crate::outputs::walk_outputs;
use crate::parts::Parts;
use crate::walk::{BrokenPlace, walk_stages};
use atom_traits::{AtomTemplate, Port};
use dom_words::{Memory, Names};
use std::alloc::Global;

/// The fields of parts that are legal for a target, or the first rule that they break.
pub(crate) fn legal_fields<T: AtomTemplate>(
    alloc: Global,
    limits: Limits,
    parts: &Parts,
) -> Result<Names, ConfigFault>
    requires depth { limits.depth ≤ 65535 }
    requires small { limits.stateless + limits.stateful < 2 ^ 32 - 1 }
    ensures legal { OnOk result (LegalFor (shape_in T.fits T.CONST_BITS limits) (parts_form parts.now)) }
    ensures fields { IfOk result (λ fields. fields ≡ parts.now.fields) }
    ensures fits { OnOk result (list_all (stage_fits T.fits) (map stage_form parts.now.stages) ≡ true) }
    ensures few { OnOk result (length parts.now.stages ≤ 65535) }
    ensures fault { IfErr result (λ f. IsFaultOf (shape_in T.fits T.CONST_BITS limits) (parts_form parts.now) f) }
{
    let head = head_fields(alloc, parts)?;
    match head {
        Some(fields) => {
            let rule = broken_rule::<T>(alloc, limits, parts)?;
            match rule {
                Some(place) => Err(ConfigFault::Refused {
                    kind: place.kind,
                    stage: place.stage,
                    atom: place.atom,
                }),
                None => Ok(fields),
            }
        }
        None => Err(ConfigFault::Refused {
            kind: ConfigKind::BadNumber,
            stage: 0,
            atom: 0,
        }),
    }
}

// The first broken rule behind the head.
fn broken_rule<T: AtomTemplate>(
    alloc: Global,
    limits: Limits,
    parts: &Parts,
) -> Result<Option<BrokenPlace>, Memory>
    requires head { head_holds (parts_form parts.now) ≡ true }
    requires depth { limits.depth ≤ 65535 }
    requires small { limits.stateless + limits.stateful < 2 ^ 32 - 1 }
    ensures rule { IfOk result (λ b. says_if b ≡ violation (shape_in T.fits T.CONST_BITS limits) (parts_form parts.now)) }
    ensures fits { IfOk result (λ b. b ≡ None → list_all (stage_fits T.fits) (map stage_form parts.now.stages) ≡ true) }
    ensures few { IfOk result (λ b. b ≡ None → length parts.now.stages ≤ 65535) }
{
    let depth = parts.stages.len();
    if depth != limits.depth {
        return Ok(Some(BrokenPlace {
            kind: ConfigKind::Depth,
            stage: 0,
            atom: 0,
        }));
    }
    let frame = frame_of(parts);
    let mut seen = nothing_seen(alloc, frame)?;
    let stages = parts.stages.as_slice();
    match walk_stages::<T>(alloc, limits, frame, stages, &mut seen)? {
        Some(place) => return Ok(Some(place)),
        None => {}
    }
    let outputs = parts.outputs.as_slice();
    let found = broken_output(limits.depth as u32 + 1, frame, outputs, &seen.known);
    Ok(found)
}

// The numbers of a head that breaks no rule.
fn frame_of(parts: &Parts) -> Frame
    requires { head_holds (parts_form parts.now) ≡ true }
    ensures sizes { sizes_in result ≡ sizes_of (parts_form parts.now) }
    ensures few { result.fields ≤ 64 }
{
    Frame {
        version: parts.version,
        fields: parts.fields.len() as u32,
        arrays: parts.arrays.len() as u32,
        containers: parts.containers,
    }
}

// No atom is seen.
fn nothing_seen(alloc: Global, frame: Frame) -> Result<Seen, Memory>
    ensures room { IfOk result (λ seen. HasRoom frame seen) }
    ensures none { IfOk result (λ seen. IsSeen [] [] seen) }
{
    let held = NumberSet::new(alloc, frame.arrays as usize)?;
    let containers = frame.containers as usize;
    let known = NumberSet::new(alloc, containers)?;
    let written = NumberSet::new(alloc, containers)?;
    let read = NumberSet::new(alloc, containers)?;
    Ok(Seen {
        held,
        known,
        written,
        read,
    })
}

// The first rule that outputs break; `behind` is the number of the stage behind the last one.
fn broken_output(
    behind: u32,
    frame: Frame,
    outputs: &[Port],
    written: &NumberSet,
) -> Option<BrokenPlace>
    requires { frame.fields ≤ 64 }
    ensures { says_if result ≡ outputs_say behind (sizes_in frame) written.now.numbers outputs.now }
{
    if outputs.len() != frame.fields as usize {
        return Some(BrokenPlace {
            kind: ConfigKind::BadNumber,
            stage: behind,
            atom: 0,
        });
    }
    match walk_outputs(frame, outputs, written) {
        Some(output) => Some(BrokenPlace {
            kind: output.kind,
            stage: behind,
            atom: output.atom as u32 + 1,
        }),
        None => None,
    }
}
