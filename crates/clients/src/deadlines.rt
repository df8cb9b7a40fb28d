//! For how long a worker waits for a client.

ghost use Rattle.std.specs.Prelude.{◌≡◌, ◌<◌, ℕ, true, false, ◌+◌, ◌-◌, ◌^◌, min};
ghost use Rattle.std.specs.Option.{is_some};
ghost use Rattle.clients.specs.Deadlines.{IsDue, IsGivenUp, IsPingDue, IsQuiet, IsSilent, IsWriteDue, NeverCloses, OpensNothing, Overstays, Passed, SaysNoPart, TakesNothing, Until, counts, fresh, freed_by, heard_by, held_up_by, parting_by, pinged_by, taken_by, unread_by, wait_of};
ghost use Rattle.clients.specs.Watches.{counted};

/// For how many milliseconds a client may send nothing between two parts of its handshake.
const LONGEST_PART: u64 = 20_000;

/// For how many milliseconds a client may be connected without having opened a session, counting its handshake.
const LONGEST_GREETING: u64 = 60_000;

/// For how many milliseconds a client may be there, from its connection on, that came to a full server and is no ping: for its handshake, the
/// answer, and its close. Pings need its descriptor.
const LONGEST_GUEST: u64 = 2_000;

/// After how many milliseconds in which nothing came a client is sent a ping. Its answer is waited for as long too, and also for the
/// time that the client needs to read what its socket took before.
const QUIET: u64 = 20_000;

/// How many pings a client may leave unanswered.
const PINGS: u64 = 3;

/// How many bytes a second a client is expected to read after a ping.
const SLOWEST: u64 = 32_768;

/// For how many bytes after a ping it is given that time: for 300 seconds.
const MOST_UNREAD: u64 = 9_830_400;

/// For how many milliseconds a client may take nothing of what is written to it. A system opens a receive window that was full only once a
/// sixteenth of it was read: of 6 MiB, the usual maximum, that takes 39 seconds at 10 KB a second.
const LONGEST_WRITE: u64 = 60_000;

/// For how many milliseconds a client's close is waited for, once it was sent that its connection is being closed.
const LONGEST_CLOSE: u64 = 10_000;

/// By how many milliseconds a round may take longer than it was allowed to wait, before that counts as a pause.
const SPARE: u64 = 1_000;

/// How far a client has come in opening its session.
#[derive(Clone, Copy)]
pub enum Opening {
    /// Its handshake is under way.
    Greeting,
    /// It has its WebSocket, and no session.
    Unopened,
    /// It has opened its session.
    Open,
}

/// What is due of a client.
#[derive(Clone, Copy)]
pub enum Due {
    /// It is to be given up.
    GivenUp,
    /// What waits for it is to be offered to its socket once more. If the socket takes nothing, it is to be given up.
    Write,
    /// It is to be sent a ping.
    Ping,
    /// Nothing, for that number of milliseconds.
    In(u64),
}

/// What has happened to a client, as far as its worker's deadlines depend on it. Moments are in milliseconds of the worker's clock.
#[derive(Clone, Copy)]
pub struct Deadlines {
    // When it was connected, and whether the server was full then.
    connected: u64,
    is_guest: bool,
    // When something came from it last, or it was connected.
    heard: u64,
    // How many pings it was sent since, and when the last, or when it was connected.
    pings: u64,
    pinged: u64,
    // When its socket took bytes last, or it was connected; how many it took since something came from it; and how many in all.
    took: u64,
    unanswered: u64,
    taken: u64,
    // Since when something waits to be written, if something does; since when nothing does, or when it was connected.
    held_up: Option<u64>,
    freed: u64,
    // Whether nothing is read from it, since a command of it waits for room. If that was so, `freed` also counts from its end.
    is_unread: bool,
    // When what waits was offered to its socket last, or it was connected.
    offered: u64,
    // Since when its close is waited for.
    parting: Option<u64>,
}

impl Deadlines {
    /// The deadlines of a client that was connected just now, to a full server if it is a guest.
    pub fn new(is_guest: bool, now: u64) -> Deadlines
        ensures { result ≡ fresh is_guest now }
    {
        Deadlines {
            connected: now,
            is_guest,
            heard: now,
            pings: 0,
            pinged: now,
            took: now,
            unanswered: 0,
            taken: 0,
            held_up: None,
            freed: now,
            is_unread: false,
            offered: now,
            parting: None,
        }
    }

    /// Something came from the client.
    pub fn heard(&mut self, now: u64)
        ensures { self.new ≡ heard_by now self.old }
    {
        self.heard = now;
        self.pings = 0;
        self.unanswered = 0;
    }

    /// The client was sent a ping.
    pub fn pinged(&mut self, now: u64)
        ensures { self.new ≡ pinged_by now self.old }
    {
        self.pings = self.pings.saturating_add(1);
        self.pinged = now;
    }

    /// The client's socket has taken `taken` bytes in all.
    pub fn took(&mut self, taken: u64, now: u64)
        ensures { self.new ≡ taken_by taken now self.old }
    {
        if taken > self.taken {
            self.unanswered = self.unanswered.saturating_add(taken - self.taken);
            self.taken = taken;
            self.took = now;
        }
    }

    /// Something waits to be written to the client, and was offered to its socket just now. That began now, unless it had begun.
    pub fn held_up(&mut self, now: u64)
        ensures { self.new ≡ held_up_by now self.old }
    {
        self.offered = now;
        if self.held_up.is_none() {
            self.held_up = Some(now);
        }
    }

    /// Nothing waits to be written to the client, and it is read.
    pub fn freed(&mut self, now: u64)
        ensures { self.new ≡ freed_by now self.old }
    {
        if self.held_up.is_some() || self.is_unread {
            self.held_up = None;
            self.is_unread = false;
            self.freed = now;
        }
    }

    /// Nothing waits to be written to the client, and it isn't read, since a command of it waits for room.
    pub fn unread(&mut self)
        ensures { self.new ≡ unread_by self.old }
    {
        self.held_up = None;
        self.is_unread = true;
    }

    /// The client's close is waited for. That began now, unless it had begun.
    pub fn parting(&mut self, now: u64)
        ensures { self.new ≡ parting_by now self.old }
    {
        if self.parting.is_none() {
            self.parting = Some(now);
        }
    }

    /// Whether the client's close is waited for.
    pub fn is_parting(&self) -> bool
        ensures { result ≡ is_some self.now.parting }
    {
        self.parting.is_some()
    }

    /// What is due of a client that has come so far.
    pub fn due(&self, progress: Opening, now: u64) -> Due
        ensures { IsDue progress self.now now result }
    {
        let given_up = self.given_up_in(progress, now);
        let write = self.write_in(now);
        let ping = self.ping_in(progress, now);
        if given_up == 0 {
            Due::GivenUp
        } else if write == 0 {
            Due::Write
        } else if ping == 0 {
            Due::Ping
        } else {
            Due::In(given_up.min(write.min(ping)))
        }
    }

    // For how much longer it is waited for.
    fn given_up_in(&self, progress: Opening, now: u64) -> u64
        ensures { Until (IsGivenUp progress self.now) now result }
    {
        let stay = self.stay_in(progress, now);
        let part = self.part_in(progress, now);
        let session = self.session_in(progress, now);
        let take = self.take_in();
        let close = self.close_in(now);
        let silence = self.silence_in(progress, now);
        stay.min(part.min(session.min(take.min(close.min(silence)))))
    }

    fn stay_in(&self, progress: Opening, now: u64) -> u64
        ensures { Until (Overstays progress self.now) now result }
    {
        match progress {
            Opening::Greeting if self.is_guest => left_of(LONGEST_GUEST, self.connected, now),
            _ => u64::MAX,
        }
    }

    fn part_in(&self, progress: Opening, now: u64) -> u64
        ensures { Until (SaysNoPart progress self.now) now result }
    {
        match progress {
            Opening::Greeting => left_of(LONGEST_PART, self.heard, now),
            Opening::Unopened | Opening::Open => u64::MAX,
        }
    }

    fn session_in(&self, progress: Opening, now: u64) -> u64
        ensures { Until (OpensNothing progress self.now) now result }
    {
        match progress {
            Opening::Greeting | Opening::Unopened if !self.is_unread => left_of(
                LONGEST_GREETING,
                self.connected,
                now,
            ),
            _ => u64::MAX,
        }
    }

    // For how long it is waited for while its socket takes nothing. That counts up to the last time that it was offered something.
    fn take_in(&self) -> u64
        ensures { (now : ℕ) → Until (λ _. TakesNothing self.now.held_up self.now) now result }
    {
        match self.held_up {
            Some(since) if is_past(LONGEST_WRITE, since.max(self.took), self.offered) => 0,
            _ => u64::MAX,
        }
    }

    fn close_in(&self, now: u64) -> u64
        ensures { Until (NeverCloses self.now.parting) now result }
    {
        match self.parting {
            Some(since) => left_of(LONGEST_CLOSE, since, now),
            None => u64::MAX,
        }
    }

    fn silence_in(&self, progress: Opening, now: u64) -> u64
        ensures { Until (IsSilent progress self.now) now result }
    {
        if self.counts(progress) && self.pings >= PINGS {
            self.quiet_in(now)
        } else {
            u64::MAX
        }
    }

    // After how long what waits is to be offered to its socket once more.
    fn write_in(&self, now: u64) -> u64
        ensures { Until (IsWriteDue self.now.held_up self.now) now result }
    {
        match self.held_up {
            Some(since) => left_of(LONGEST_WRITE, since.max(self.took), now),
            None => u64::MAX,
        }
    }

    // After how long it is to be sent a ping.
    fn ping_in(&self, progress: Opening, now: u64) -> u64
        ensures { Until (IsPingDue progress self.now) now result }
    {
        if self.counts(progress) && self.pings < PINGS {
            self.quiet_in(now)
        } else {
            u64::MAX
        }
    }

    // Whether its silence counts.
    fn counts(&self, progress: Opening) -> bool
        ensures { result ≡ counts progress self.now.held_up self.now.parting self.now.is_unread }
    {
        match (progress, self.held_up, self.parting) {
            (Opening::Unopened | Opening::Open, None, None) => !self.is_unread,
            _ => false,
        }
    }

    // After how long it will have been silent for as long as it may before something is done.
    fn quiet_in(&self, now: u64) -> u64
        ensures { Until (IsQuiet self.now) now result }
    {
        let since = if self.pings == 0 {
            self.heard
        } else {
            self.pinged
        };
        left_of(self.wait(), since.max(self.freed), now)
    }

    // For how long it may be silent.
    fn wait(&self) -> u64
        ensures { result ≡ wait_of self.now }
    {
        if self.pings == 0 {
            QUIET
        } else {
            QUIET + self.unanswered.min(MOST_UNREAD) * 1_000 / SLOWEST
        }
    }
}

// Whether that span has passed since then.
fn is_past(span: u64, since: u64, now: u64) -> bool
    requires { 0 < span }
    ensures yes { result ≡ true → Passed span since now }
    ensures no { result ≡ false → Passed span since now → ⊥ }
{
    now.saturating_sub(since) >= span
}

// What is left of that span since then.
fn left_of(span: u64, since: u64, now: u64) -> u64
    requires { 0 < span }
    ensures { Until (Passed span since) now result }
{
    if is_past(span, since, now) {
        return 0;
    }
    since.saturating_add(span).saturating_sub(now).max(1)
}

/// A clock that counts a second at most of a pause of the whole process of over a second: no client is to be given up for pauses, also if
/// there are several. Moments are in milliseconds, and begin with that of the system's clock.
#[derive(Clone, Copy)]
pub struct Watch {
    // What the system's clock showed last, and what this one shows.
    seen: u64,
    shown: u64,
}

impl Watch {
    /// A clock that shows what the system's clock does.
    pub fn new(real: u64) -> Watch
        ensures { (result.seen ≡ real) × (result.shown ≡ real) }
    {
        Watch {
            seen: real,
            shown: real,
        }
    }

    /// What it shows.
    pub fn now(&self) -> u64
        ensures { result ≡ self.now.shown }
    {
        self.shown
    }

    /// A round is over for which a wait of `allowed` was allowed, and the system's clock shows this. If the round was longer by more than
    /// a second, what was allowed counts, but no more than a second of it: how much of it came before the pause is unknown.
    pub fn go_on(&mut self, real: u64, allowed: u64)
        ensures seen { self.new.seen ≡ real }
        ensures shown { self.new.shown ≡ min (self.old.shown + counted allowed (real - self.old.seen)) (2 ^ 64 - 1) }
    {
        let passed = real.saturating_sub(self.seen);
        let counted = if passed <= allowed.saturating_add(SPARE) {
            passed
        } else {
            allowed.min(SPARE)
        };
        self.seen = real;
        self.shown = self.shown.saturating_add(counted);
    }
}
