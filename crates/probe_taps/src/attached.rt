ghost use Rattle.std.specs.Prelude.{◌≤◌};

// What is attached, and the stage before which it looks on. Stages count from 1.
#[derive(Drop)]
pub(crate) struct Attached<B, const DEPTH: usize> {
    pub(crate) stage: u32,
    pub(crate) tap: B,
    ghost some: { 1 ≤ stage },
    ghost within: { stage ≤ DEPTH },
}
