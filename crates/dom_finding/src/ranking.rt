ghost use Rattle.std.specs.Prelude.{◌≤◌};

/// How packets are ranked and served behind a pipeline.
#[derive(Clone, Copy, Debug)]
pub struct Ranking<'a> {
    /// The name of the field with the rank.
    pub field: &'a str,
    /// How many packets the queue holds, from 1 to 65,536.
    pub room: u32,
    /// In the last of so many cycles a packet is served, from 1 to 16.
    pub every: u32,
    ghost some_room: { 1 ≤ room },
    ghost few: { room ≤ 65536 },
    ghost some_cycle: { 1 ≤ every },
    ghost often: { every ≤ 16 },
}
