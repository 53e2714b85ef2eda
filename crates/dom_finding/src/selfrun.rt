ghost use Rattle.std.specs.Prelude.{◌≡◌, ◌≤◌, length};
ghost use Rattle.dom_finding.specs.OwnProgram.{own_program};

use banzai_config::{Target, Template};

const REPLACING: &str =
    "struct Packet { int key; int val; int seen; }; int acc[64]; void selfrun(struct Packet pkt) { pkt.seen = acc[pkt.key]; acc[pkt.key] = pkt.val; }";

const ADDING: &str =
    "struct Packet { int key; int val; int seen; }; int acc[64]; void selfrun(struct Packet pkt) { acc[pkt.key] = acc[pkt.key] + pkt.val; pkt.seen = acc[pkt.key]; }";

/// The program that `selfrun` compiles for a target (docs/FORMATS.md).
pub fn own_program(target: Target) -> &'static str
    ensures text { result.now ≡ own_program target }
    ensures few { length result.now ≤ 65536 }
{
    match target.template {
        Template::Write => REPLACING,
        _ => ADDING,
    }
}
