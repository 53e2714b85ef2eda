ghost use Rattle.std.specs.Prelude.{◌≡◌, ◌+◌, ◌<◌, length, map};
ghost use Rattle.elastic_machine.specs.Ready.{enter_waits, fire_waits, leave_waits};

use crate::mark::Mark;

/// Why an event is not ready: the queue that it takes from is empty, or the one that it puts to is full. Queues count from
/// 0; queue 0 stands before stage 1.
#[derive(Clone, Copy, Debug, PartialEq, Eq)]
pub enum NotReady {
    Empty(u32),
    Full(u32),
}

// Why no packet can come into the first queue now.
pub(crate) fn enter_waits(marks: &[Mark], cap: usize) -> Option<NotReady>
    requires { 0 < length marks.now }
    ensures { result ≡ enter_waits cap (map (λ m. m.count) marks.now) }
{
    if marks[0].count == cap {
        Some(NotReady::Full(0))
    } else {
        None
    }
}

// Why no packet can go from queue `k` through the stage behind it now.
pub(crate) fn fire_waits(marks: &[Mark], k: u32, cap: usize) -> Option<NotReady>
    requires within { k + 1 < length marks.now }
    requires few { k < 65535 }
    ensures { result ≡ fire_waits cap k (map (λ m. m.count) marks.now) }
{
    if marks[k as usize].count == 0 {
        Some(NotReady::Empty(k))
    } else if marks[k as usize + 1].count == cap {
        Some(NotReady::Full(k + 1))
    } else {
        None
    }
}

// Why no packet can leave from the last queue now.
pub(crate) fn leave_waits(marks: &[Mark], last: u32) -> Option<NotReady>
    requires { last < length marks.now }
    ensures { result ≡ leave_waits last (map (λ m. m.count) marks.now) }
{
    if marks[last as usize].count == 0 {
        Some(NotReady::Empty(last))
    } else {
        None
    }
}
