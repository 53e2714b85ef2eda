ghost use Rattle.std.specs.Prelude.{◌≡◌, ◌+◌, ◌*◌, ◌<◌, ◌^◌};
ghost use Rattle.banzai_machine.specs.Ring.{IsPlace};
ghost use Rattle.elastic_machine.specs.Lanes.{MarkWithin};

// Where the packets of a queue lie: the place of the oldest among the queue's own places, and how many there are.
#[derive(Clone, Copy)]
pub(crate) struct Mark {
    pub(crate) start: usize,
    pub(crate) count: usize,
}

// The place behind the newest packet.
pub(crate) fn end(mark: Mark, cap: usize) -> usize
    requires within { MarkWithin cap mark }
    requires room { mark.count < cap }
    ensures { IsPlace mark.start mark.count cap result }
{
    let left = cap - mark.start;
    if mark.count < left {
        mark.start + mark.count
    } else {
        mark.count - left
    }
}

// One packet more at the end.
pub(crate) fn grow(mark: &mut Mark, cap: usize)
    requires room { mark.old.count < cap }
    ensures start { mark.new.start ≡ mark.old.start }
    ensures count { mark.new.count ≡ mark.old.count + 1 }
{
    mark.count += 1;
}

// Without the oldest packet.
pub(crate) fn shrink(mark: &mut Mark, cap: usize)
    requires within { MarkWithin cap mark.old }
    requires some { 0 < mark.old.count }
    ensures start { IsPlace mark.old.start 1 cap mark.new.start }
    ensures count { mark.new.count + 1 ≡ mark.old.count }
{
    let next = mark.start + 1;
    mark.start = if next < cap { next } else { 0 };
    mark.count -= 1;
}

// A place of queue `queue`, among the places of all queues.
pub(crate) fn place(queue: usize, at: usize, cap: usize) -> usize
    requires at { at < cap }
    requires few { queue * cap + cap < 2 ^ 31 }
    ensures { result ≡ queue * cap + at }
{
    queue * cap + at
}
