ghost use Rattle.std.specs.Prelude.{◌≤◌};

use crate::refusals::Refusal;

/// A file that a command wants.
#[derive(Debug, Drop)]
pub struct WantedFile<'a> {
    /// Its name.
    pub(crate) name: &'a str,
    /// The most bytes that it may have.
    pub(crate) most: usize,
    /// The refusal of a longer one.
    pub(crate) over: Refusal,
    ghost few: { most ≤ 16777216 },
}
