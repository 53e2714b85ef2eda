ghost use Rattle.std.specs.Prelude.{◌≤◌};

/// The number of a stage, from 1.
#[derive(Clone, Copy, Debug)]
pub struct Stage {
    pub number: u32,
    ghost some: { 1 ≤ number },
}
