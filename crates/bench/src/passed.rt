// What the importer keeps of the packets that passed: their times and their number.
ghost use Rattle.std.specs.Prelude.{◌≡◌, ◌≤◌};
ghost use Rattle.bench.specs.Play.{number_after};
ghost use Rattle.bench.specs.Import.{moved_of, due_of, paid_of, counted_of};

// Times in microseconds: the latest seen, and that up to which clock steps were put out.
#[derive(Clone, Copy)]
pub struct Clock {
    // A flag, and no Option around the two times: before the first packet both are 0, and what is due then is the same sum of them.
    pub started: bool,
    pub latest: u64,
    pub since: u64,
}

// Packets, and those left out among them.
#[derive(Clone, Copy)]
pub struct Counts {
    pub packets: u64,
    pub left: u64,
}

// One more; the highest number stays.
pub(crate) fn one_more(n: u64) -> u64
    ensures { result ≡ number_after n }
{
    n.saturating_add(1)
}

// A packet is counted.
pub(crate) fn counted(kept: bool, k: Counts) -> Counts
    ensures { result ≡ counted_of kept k }
{
    Counts {
        packets: one_more(k.packets),
        left: if kept { k.left } else { one_more(k.left) },
    }
}

// A packet's time was seen.
pub(crate) fn moved(c: Clock, time: u64) -> Clock
    ensures { result ≡ moved_of c time }
{
    if !c.started {
        return Clock {
            started: true,
            latest: time,
            since: time,
        };
    }
    Clock {
        latest: c.latest.max(time),
        ..c
    }
}

// The whole TU that are due.
pub(crate) fn due(c: Clock) -> u64
    ensures { result ≡ due_of c }
{
    c.latest.saturating_sub(c.since) / 1024
}

// Of what is due n TU were put out.
pub(crate) fn paid(c: Clock, n: u64) -> Clock
    requires { n ≤ due_of c }
    ensures { result ≡ paid_of c n }
{
    Clock {
        since: c.since + 1024 * n,
        ..c
    }
}
