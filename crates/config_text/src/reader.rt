ghost use Rattle.std.specs.Prelude.{◌≡◌, ◌+◌, ◌-◌, ◌<◌, ◌≤◌, ◌^◌, IfErr, IfNone, IfOk, IfSome, length};
ghost use Rattle.banzai_config.specs.declared.target.Target.{Target};
ghost use Rattle.banzai_config.specs.Parts.{parts_form};
ghost use Rattle.banzai_config.specs.Targets.{name_of};
ghost use Rattle.config_text.specs.Drafts.{when};
ghost use Rattle.config_text.specs.Fronts.{Spells, TextOf};
ghost use Rattle.config_text.specs.ReadFaults.{IsFormFault, IsReadFault};
ghost use Rattle.config_text.specs.Reader.{feed_size, line_at, stepped};
ghost use Rattle.config_text.specs.DraftViews.{draft_form, named_form};

use crate::draft::Draft;
use crate::fault::ReadFault;
use crate::line::{front, line_of, tail};
use banzai_config::{Parts, Target};
use dom_words::{Memory, Name};
use std::alloc::Global;
use std::str;

#[tactic(auto, using(crate::proofs::TextLines::feeds))]
fn line_size(text: &[u8], at: usize) -> usize
    requires { at ≤ length text.now }
    ensures value { result ≡ feed_size text.now at }
    ensures within { at + result ≤ length text.now }
{
    tail(text, at).iter().take_while(|b| **b != 10).count()
}

// The bytes up to the next line feed.
fn line_bytes(text: &[u8], at: usize) -> &[u8]
    requires { at ≤ length text.now }
    ensures { result.now ≡ line_at text.now at }
{
    front(tail(text, at), line_size(text, at))
}

// Takes one more line, and answers whether it may stand there.
fn take_line(alloc: Global, draft: &mut Draft, bytes: &[u8]) -> Result<bool, Memory>
    ensures { IfOk result (λ stands. stepped (draft_form draft.old) bytes.now ≡ when stands (draft_form draft.new)) }
{
    match line_of(alloc, bytes)? {
        None => Ok(false),
        Some(line) => draft.add(alloc, line),
    }
}

// The configuration that a text spells, and the name of its target.
fn read_named(alloc: Global, text: &[u8]) -> Result<(Name, Parts), ReadFault>
    requires { length text.now ≤ 4294967294 }
    ensures ok { IfOk result (λ r. Spells (named_form r) text.now) }
    ensures err { IfErr result (λ f. IsFormFault text.now f) }
{
    let Ok(mut draft) = Draft::new(alloc) else {
        return Err(ReadFault::Memory);
    };
    let mut at = 0;
    let mut number = 1u32;
    'lines: while at + line_size(text, at) < text.len() {
        let size = line_size(text, at);
        let Ok(stands) = take_line(alloc, &mut draft, line_bytes(text, at)) else {
            return Err(ReadFault::Memory);
        };
        if !stands {
            return Err(ReadFault::Line(number));
        }
        at += size + 1;
        number += 1;
    }
    if at < text.len() {
        return Err(ReadFault::Line(number));
    }
    match draft.into_named() {
        Some(named) => Ok(named),
        None => Err(ReadFault::Line(number)),
    }
}

// The target with a name.
fn target_with(name: &[u8]) -> Option<Target>
    ensures some { IfSome result (λ t. name_of t ≡ name.now) }
    ensures none { IfNone result ((t : Target) → name_of t ≡ name.now → ⊥) }
{
    match str::from_utf8(name) {
        Ok(text) => Target::named(text),
        Err(_) => None,
    }
}

/// The target and the configuration that a text spells (docs/FORMATS.md, "Configurations"). The text is taken exactly where
/// it is theirs, to the last line feed: no number has a second spelling. Otherwise the first line that may not stand is
/// told, or, where all lines may, that no target has the name.
#[tactic(auto, using(crate::proofs::TargetNames::answers))]
pub fn read_parts(alloc: Global, text: &[u8]) -> Result<(Target, Parts), ReadFault>
    requires { length text.now ≤ 4294967294 }
    ensures ok { IfOk result (λ r. TextOf r.0 (parts_form r.1) text.now) }
    ensures err { IfErr result (λ f. IsReadFault text.now f) }
{
    let (name, parts) = read_named(alloc, text)?;
    match target_with(name.as_bytes()) {
        None => Err(ReadFault::UnknownTarget),
        Some(target) => Ok((target, parts)),
    }
}
