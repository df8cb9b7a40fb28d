//! What happens that is reported to an operator.

ghost use Rattle.std.specs.Prelude.{◌≡◌, ◌<◌, ◌≤◌, IfSome, IsNone};
ghost use Rattle.event_log.specs.Events.{with_errors, before_count, behind_count, place_of};
ghost use Rattle.event_log.specs.declared.event.TheConstants.{KINDS};

use std::fmt;

/// From how many milliseconds on a compaction is slow.
pub(crate) const SLOW: u64 = 100;

/// How many kinds there are.
pub const KINDS: usize = 16;

/// What a server starts with.
#[derive(Clone, Copy)]
pub struct Start {
    /// How many bytes each of the journal's two areas has.
    pub area: u64,
    /// How many messages are held.
    pub messages: u64,
    /// How many clients it takes.
    pub clients: u64,
    /// How many bytes these may hold together.
    pub memory: u64,
}

/// How a server does.
#[derive(Clone, Copy)]
pub struct Figures {
    /// How many clients are there.
    pub connections: u64,
    /// How many bytes of memory these hold.
    pub memory: u64,
    /// How many commands the journal counts.
    pub commands: u64,
    /// How many frames there were for clients since the server started.
    pub frames: u64,
    /// How many of these are ERRORs.
    pub refused: u64,
    /// How many messages are held.
    pub messages: u64,
    /// How many bytes these count for.
    pub held: u64,
    /// How many messages wait in `/queue/dead`.
    pub dead: u64,
    /// How many bytes of the live area are used.
    pub used: u64,
    /// How many commands a start would repeat.
    pub to_repeat: u64,
}

impl Figures {
    /// The same, if `more` ERRORs were sent besides, each of which is a frame.
    pub fn with_errors(self, more: u64) -> Figures
        ensures { result ≡ with_errors more self }
    {
        Figures {
            frames: self.frames.saturating_add(more),
            refused: self.refused.saturating_add(more),
            ..self
        }
    }
}

/// That nine tenths of the messages or bytes are held that may be held.
#[derive(Drop)]
pub struct Crowd {
    /// How many messages are held, of 4,096.
    pub messages: u64,
    /// How many bytes these count for, of 16,777,216.
    pub held: u64,
    /// How many of the messages wait in the place that has most.
    pub most: u64,
    /// What that place is called, as `stompd held` calls it.
    pub place: String,
}

/// What happens that is reported to an operator.
#[derive(Drop)]
pub enum Event {
    /// The server listens.
    Started(Start),
    /// An area has fewer bytes than it takes for all that may be held and as many clients. It may be full before all of them have come.
    Small { area: u64, needed: u64 },
    /// The journal was compacted. That many bytes of the live area were won, by a turn of the flusher that took that many milliseconds.
    /// For that long, receipts waited for it.
    Compacted { won: u64, millis: u64 },
    /// More than three quarters of the area are used by what is held, once the journal is compacted: it will be full.
    NearlyFull { used: u64, area: u64 },
    /// Nearly all is held that may be: SENDs will be refused.
    Crowded(Crowd),
    /// How the server does, once a minute.
    Doing(Figures),
    /// This came so often since it was last reported.
    Counted { kind: Kind, count: u64 },
    /// So many ERRORs of this code were sent since it was last reported.
    Errors { code: u64, count: u64 },
    /// The server was asked to end.
    Ending,
}

/// The words of its line.
impl fmt::Display for Event {
    ghost use Rattle.std.specs.Prelude.{Some};
    ghost use Rattle.event_log.specs.Events.{event_text};

    ghost output = { λ event. Some (event_text event) };

    fn fmt<W: fmt::Write>(&self, f: &mut fmt::Formatter<W>) -> fmt::Result {
        match self {
            Event::Started(start) => write!(f, "{start}"),
            Event::Small { area, needed } => write!(
                f,
                "journal small: areas of {area} bytes, {needed} are wanted (J4 is possible)"
            ),
            Event::Compacted { won, millis } if *millis < SLOW => {
                write!(f, "compacted: {won} bytes won in {millis} ms")
            }
            Event::Compacted { won, millis } => {
                write!(f, "compacted slowly: {won} bytes won in {millis} ms")
            }
            Event::NearlyFull { used, area } => write!(
                f,
                "journal nearly full: {used} of {area} bytes are used after a compaction (J4 is near)"
            ),
            Event::Crowded(crowd) => write!(f, "{crowd}"),
            Event::Doing(figures) => write!(f, "{figures}"),
            Event::Counted { kind, count } => {
                write!(f, "{}{count}{}", kind.before(), kind.behind())
            }
            Event::Errors { code, count } => write!(f, "sent {count} ERRORs (E{code})"),
            Event::Ending => f.write_str("ending: asked to"),
        }
    }
}

impl fmt::Display for Start {
    ghost use Rattle.std.specs.Prelude.{Some};
    ghost use Rattle.event_log.specs.Events.{start_text};

    ghost output = { λ start. Some (start_text start) };

    fn fmt<W: fmt::Write>(&self, f: &mut fmt::Formatter<W>) -> fmt::Result {
        write!(
            f,
            "started: journal of version 2, areas of {} bytes, {} messages held, {} clients allowed, {} bytes of memory for them",
            self.area, self.messages, self.clients, self.memory
        )
    }
}

impl fmt::Display for Figures {
    ghost use Rattle.std.specs.Prelude.{Some};
    ghost use Rattle.event_log.specs.Events.{figures_text};

    ghost output = { λ figures. Some (figures_text figures) };

    fn fmt<W: fmt::Write>(&self, f: &mut fmt::Formatter<W>) -> fmt::Result {
        write!(f, "doing: {}, {}", Traffic(*self), Stock(*self))
    }
}

// What clients do.
#[derive(Clone, Copy)]
struct Traffic(Figures);

impl fmt::Display for Traffic {
    ghost use Rattle.std.specs.Prelude.{Some};
    ghost use Rattle.event_log.specs.Events.{traffic_text};

    ghost output = { λ t. Some (traffic_text t.0) };

    fn fmt<W: fmt::Write>(&self, f: &mut fmt::Formatter<W>) -> fmt::Result {
        let Traffic(it) = self;
        write!(
            f,
            "{} connections, {} bytes of memory for them, {} commands, {} frames out, {} ERRORs",
            it.connections, it.memory, it.commands, it.frames, it.refused
        )
    }
}

// What the broker and its journal hold.
#[derive(Clone, Copy)]
struct Stock(Figures);

impl fmt::Display for Stock {
    ghost use Rattle.std.specs.Prelude.{Some};
    ghost use Rattle.event_log.specs.Events.{stock_text};

    ghost output = { λ t. Some (stock_text t.0) };

    fn fmt<W: fmt::Write>(&self, f: &mut fmt::Formatter<W>) -> fmt::Result {
        let Stock(it) = self;
        write!(
            f,
            "{} messages held, {} bytes held, {} dead letters, {} bytes used, {} commands to repeat",
            it.messages, it.held, it.dead, it.used, it.to_repeat
        )
    }
}

impl fmt::Display for Crowd {
    ghost use Rattle.std.specs.Prelude.{Some};
    ghost use Rattle.event_log.specs.Events.{crowd_text};

    ghost output = { λ crowd. Some (crowd_text crowd) };

    fn fmt<W: fmt::Write>(&self, f: &mut fmt::Formatter<W>) -> fmt::Result {
        write!(
            f,
            "nearly full: {} of 4096 messages held, {} of 16777216 bytes, {} of them in {} (E12 is near)",
            self.messages, self.held, self.most, self.place
        )
    }
}

/// What may come many times in a second: it is counted, and reported with how often it came.
#[derive(Clone, Copy)]
pub enum Kind {
    /// A malformed request was answered 400.
    Malformed,
    /// A client that offers only other subprotocols than `v12.stomp` was answered 400.
    OtherProtocol,
    /// A page of an origin that is not served was answered 403.
    Foreign,
    /// A request by another method than GET was answered 405.
    Method,
    /// A request for no WebSocket was answered 426.
    NoUpgrade,
    /// A request for another version of WebSocket was answered 426.
    Version,
    /// A request with too large a head was answered 431.
    TooLarge,
    /// A client was answered 503, since the server has as many clients as it takes.
    Full,
    /// A client that answered no ping, or no close, was given up.
    Silent,
    /// A client that took nothing of what was written to it was given up.
    TakesNothing,
    /// A client that opened no session in time was given up.
    Unopened,
    /// A client that held most was given up, since all together held more memory than they may.
    TookMost,
    /// A client was given up whose names, with those of the others at its desk, would have taken more of the journal than they may.
    LongNames,
    /// A client was given up whose outbox had no room for its next frame.
    FullOutbox,
    /// The system refused to accept a client: there are no descriptors or no memory for it.
    NotAccepted,
    /// A line was left out, since nobody read those before it.
    LeftOut,
}

impl Kind {
    /// Its place among all.
    pub fn place(self) -> usize
        ensures place { result ≡ place_of self }
        ensures kind { result < KINDS }
    {
        self as usize
    }

    /// The kind at that place.
    pub fn at(place: usize) -> Option<Kind>
        ensures kind { IfSome result (λ kind. place_of kind ≡ place) }
        ensures none { IsNone result → KINDS ≤ place }
    {
        match place {
            0 => Some(Kind::Malformed),
            1 => Some(Kind::OtherProtocol),
            2 => Some(Kind::Foreign),
            3 => Some(Kind::Method),
            4 => Some(Kind::NoUpgrade),
            5 => Some(Kind::Version),
            6 => Some(Kind::TooLarge),
            7 => Some(Kind::Full),
            8 => Some(Kind::Silent),
            9 => Some(Kind::TakesNothing),
            10 => Some(Kind::Unopened),
            11 => Some(Kind::TookMost),
            12 => Some(Kind::LongNames),
            13 => Some(Kind::FullOutbox),
            14 => Some(Kind::NotAccepted),
            15 => Some(Kind::LeftOut),
            _ => None,
        }
    }

    // The words before the count, and those after it.
    pub(crate) fn before(self) -> &'static str
        ensures { result.now ≡ before_count self }
    {
        match self {
            Kind::Silent
            | Kind::TakesNothing
            | Kind::Unopened
            | Kind::TookMost
            | Kind::LongNames
            | Kind::FullOutbox => "gave up ",
            Kind::NotAccepted => "failed to accept ",
            Kind::LeftOut => "left out ",
            _ => "refused ",
        }
    }

    pub(crate) fn behind(self) -> &'static str
        ensures { result.now ≡ behind_count self }
    {
        match self {
            Kind::Malformed => " malformed requests (400)",
            Kind::OtherProtocol => " requests without subprotocol v12.stomp (400)",
            Kind::Foreign => " pages of other origins (403)",
            Kind::Method => " requests by another method than GET (405)",
            Kind::NoUpgrade => " requests for no WebSocket (426)",
            Kind::Version => " requests for another version of WebSocket (426)",
            Kind::TooLarge => " requests with too large a head (431)",
            Kind::Full => " clients over the most that are taken (503)",
            Kind::Silent => " clients that answered no ping or close",
            Kind::TakesNothing => " clients that took nothing for 60 s",
            Kind::Unopened => " clients that opened no session in time",
            Kind::TookMost => " clients that took the most memory",
            Kind::LongNames => " clients whose names have no room beside the others'",
            Kind::FullOutbox => " clients whose outbox was full",
            Kind::NotAccepted => " clients: out of descriptors or memory",
            Kind::LeftOut => " lines that nobody read in time",
        }
    }
}
