//! When counts are reported, and how a server does.

ghost use Rattle.std.specs.Prelude.{◌≡◌, ◌*◌, ◌/◌, ◌^◌, ◌-◌, ◌<◌, min};
ghost use Rattle.event_log.specs.Rhythms.{begun, counts_due, doing_due, rest_of, with_counts, with_doing};
ghost use Rattle.event_log.specs.Crowdings.{crowd_due, roomy, with_crowd};

/// For how many milliseconds after a report of counts there is no other.
const COUNTS: u64 = 1_000;

/// After how many milliseconds it is reported again how a server does.
const DOING: u64 = 60_000;

/// For how many milliseconds after such a report there is no other.
const CROWD: u64 = 1_000;

/// At how many tenths of what may be held it is reported.
const MANY: u64 = 9;

/// Under how many tenths it is forgotten: when many are held again, that is reported again.
const FEW: u64 = 8;

/// When counts may be reported next, and when it is reported how the server does. Moments are in milliseconds.
#[derive(Clone, Copy)]
pub struct Rhythm {
    counts: u64,
    doing: u64,
}

impl Rhythm {
    /// The rhythm of a server that starts now: its counts may be reported at once, and how it does in a minute.
    pub fn new(now: u64) -> Rhythm
        ensures { result ≡ begun now }
    {
        Rhythm {
            counts: now,
            doing: now.saturating_add(DOING),
        }
    }

    /// Whether counts are reported now: at most once in a second.
    pub fn tells_counts(&mut self, now: u64) -> bool
        ensures due { result ≡ counts_due now self.old }
        ensures next { self.new ≡ with_counts now self.old }
    {
        if now < self.counts {
            return false;
        }
        self.counts = now.saturating_add(COUNTS);
        true
    }

    /// Whether it is reported now how the server does: once a minute has passed since the last time, whether or not it did anything.
    pub fn tells_doing(&mut self, now: u64) -> bool
        ensures due { result ≡ doing_due now self.old }
        ensures next { self.new ≡ with_doing now self.old }
    {
        if now < self.doing {
            return false;
        }
        self.doing = now.saturating_add(DOING);
        true
    }

    /// For how many milliseconds nothing is to be reported, a minute at most: until it is reported how the server does, and if there are
    /// counts, until these may be.
    pub fn rest(&self, now: u64, has_counts: bool) -> u64
        ensures { result ≡ rest_of has_counts now self.now }
    {
        let next = if has_counts {
            self.counts.min(self.doing)
        } else {
            self.doing
        };
        next.saturating_sub(now).min(DOING)
    }
}

/// Whether it was reported that nearly all is held, and when it may be next. Moments are in milliseconds.
#[derive(Clone, Copy)]
pub struct Crowding {
    was_told: bool,
    next: u64,
}

impl Crowding {
    /// Nothing was reported until now.
    pub fn new(now: u64) -> Crowding
        ensures { result ≡ roomy now }
    {
        Crowding {
            was_told: false,
            next: now,
        }
    }

    /// Whether it is reported now, if `tenths` tenths are held: once, until fewer than eight tenths were held, and at most once in a second.
    pub fn tells(&mut self, tenths: u64, now: u64) -> bool
        ensures due { result ≡ crowd_due tenths now self.old }
        ensures next { self.new ≡ with_crowd tenths now self.old }
    {
        if tenths < FEW {
            self.was_told = false;
        }
        if tenths < MANY || self.was_told || now < self.next {
            return false;
        }
        self.was_told = true;
        self.next = now.saturating_add(CROWD);
        true
    }
}

/// How many whole tenths are held of what may be.
pub fn tenths_of(held: u64, most: u64) -> u64
    requires { 0 < most }
    ensures { result ≡ min (held * 10) (2 ^ 64 - 1) / most }
{
    held.saturating_mul(10) / most
}
