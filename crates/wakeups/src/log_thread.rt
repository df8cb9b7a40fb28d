//! What takes lines for the operator, and writes them in a thread of its own.

use crate::mailbox::{Mailbox, count_clients};
use crossbeam_queue::ArrayQueue;
use event_log::{Event, Figures, Form, KINDS, Kind, Rhythm, write_line};
use flush_core::{ERRORS, Tally};
use std::alloc::{AllocError, Global};
use std::array;
use std::io::Write;
use std::sync::atomic::{AtomicBool, AtomicU64, Ordering};
use std::sync::{Arc, Wait};
use std::thread::Parker;
use std::time::{Clock, Duration};

/// How many lines may wait to be written. If nobody reads what is written, later ones are left out, and counted.
const MOST_UNWRITTEN: usize = 64;

/// How often a server that ends looks whether its last lines are written, and for how many milliseconds it waits in between, unless one is
/// written. Nobody may read them, and then it ends without.
const LOOKS: u32 = 100;

const LOOK: u64 = 5;

/// How the server did when its flusher reported last.
#[derive(Drop)]
struct Gauges {
    commands: AtomicU64,
    frames: AtomicU64,
    refused: AtomicU64,
    memory: AtomicU64,
    messages: AtomicU64,
    held: AtomicU64,
    dead: AtomicU64,
    used: AtomicU64,
    to_repeat: AtomicU64,
}

impl Gauges {
    fn new() -> Gauges {
        Gauges {
            commands: AtomicU64::new(0),
            frames: AtomicU64::new(0),
            refused: AtomicU64::new(0),
            memory: AtomicU64::new(0),
            messages: AtomicU64::new(0),
            held: AtomicU64::new(0),
            dead: AtomicU64::new(0),
            used: AtomicU64::new(0),
            to_repeat: AtomicU64::new(0),
        }
    }

    fn set(&self, figures: Figures) {
        self.commands.store(figures.commands, Ordering::SeqCst);
        self.frames.store(figures.frames, Ordering::SeqCst);
        self.refused.store(figures.refused, Ordering::SeqCst);
        self.memory.store(figures.memory, Ordering::SeqCst);
        self.messages.store(figures.messages, Ordering::SeqCst);
        self.held.store(figures.held, Ordering::SeqCst);
        self.dead.store(figures.dead, Ordering::SeqCst);
        self.used.store(figures.used, Ordering::SeqCst);
        self.to_repeat.store(figures.to_repeat, Ordering::SeqCst);
    }

    // The same, with how many clients there are.
    fn with(&self, connections: u64) -> Figures {
        Figures {
            connections,
            commands: self.commands.load(Ordering::SeqCst),
            frames: self.frames.load(Ordering::SeqCst),
            refused: self.refused.load(Ordering::SeqCst),
            memory: self.memory.load(Ordering::SeqCst),
            messages: self.messages.load(Ordering::SeqCst),
            held: self.held.load(Ordering::SeqCst),
            dead: self.dead.load(Ordering::SeqCst),
            used: self.used.load(Ordering::SeqCst),
            to_repeat: self.to_repeat.load(Ordering::SeqCst),
        }
    }
}

/// Takes what happens from the other threads, which never wait for it, and reports it in a thread of its own: events at once, counts once
/// a second at most, and how the server does once a minute.
#[derive(Drop)]
pub struct LogThread {
    unwritten: ArrayQueue<Event>,
    // How many events were taken to be written, and how many of them were.
    taken: AtomicU64,
    written: AtomicU64,
    kinds: Counts<KINDS>,
    // ERRORs by code that were not reported yet, and those of the broker that its flusher has counted.
    errors: Counts<ERRORS>,
    published: Counts<ERRORS>,
    // How many ERRORs were sent that no command asked for.
    notices: AtomicU64,
    gauges: Gauges,
    thread: Parker,
    // The sleep of what ends the server, until all is written.
    ender: Parker,
    // Whether the server has ended, and its thread with it.
    over: AtomicBool,
}

impl LogThread {
    /// Nothing has happened yet.
    pub fn new(alloc: Global) -> Result<LogThread, AllocError> {
        Ok(LogThread {
            unwritten: ArrayQueue::new(alloc, MOST_UNWRITTEN)?,
            taken: AtomicU64::new(0),
            written: AtomicU64::new(0),
            kinds: Counts::new(),
            errors: Counts::new(),
            published: Counts::new(),
            notices: AtomicU64::new(0),
            gauges: Gauges::new(),
            thread: Parker::new(),
            ender: Parker::new(),
            over: AtomicBool::new(false),
        })
    }

    /// Has an event written, unless as many wait as may: then it is counted as left out.
    pub fn note<R: Wait>(&self, rt: &R, event: Event) {
        match self.unwritten.push(rt, event) {
            Ok(()) => {
                self.taken.fetch_add(1, Ordering::SeqCst);
                self.thread.unpark();
            }
            Err(_) => self.count(Kind::LeftOut),
        }
    }

    /// Returns once each event that was noted is written, or after half a second.
    pub fn await_written<R: Wait>(&self, rt: &R) {
        for _look in 0..LOOKS {
            if self.written.load(Ordering::SeqCst) >= self.taken.load(Ordering::SeqCst) {
                return;
            }
            self.ender.park_timeout(rt, Duration::from_millis(LOOK));
        }
    }

    /// The server has ended: its thread writes the events that were noted, and ends.
    pub fn end(&self) {
        self.over.store(true, Ordering::SeqCst);
        self.thread.unpark();
    }

    /// Counts something.
    pub fn count(&self, kind: Kind) {
        if self.kinds.add(kind.place(), 1) {
            self.thread.unpark();
        }
    }

    /// Counts an ERROR of that code, which was sent and no command asked for.
    pub fn count_notice(&self, code: usize) {
        self.notices.fetch_add(1, Ordering::SeqCst);
        self.count_errors(code, 1);
    }

    fn count_errors(&self, code: usize, more: u64) {
        if self.errors.add(code, more) {
            self.thread.unpark();
        }
    }

    /// Takes how the server does, and what was published so far.
    pub fn figures(&self, figures: Figures, tally: &Tally) {
        if self.gauges.refused.load(Ordering::SeqCst) != tally.refused {
            for code in 0..ERRORS {
                let more = self.published.raise(code, tally.errors[code]);
                self.count_errors(code, more);
            }
        }
        self.gauges.set(figures);
    }

    /// Writes what comes in that form, and how many clients the desks of these mailboxes have, until the server has ended. A line that
    /// can't be written is left out.
    pub fn run<R: Wait + Clock, W: Write>(
        &self,
        alloc: Global,
        rt: &R,
        form: Form,
        mailboxes: &[Arc<Mailbox>],
        writer: &mut W,
    ) {
        let mut rhythm = Rhythm::new(moment(rt));
        for _ in rt.forever() {
            let is_over = self.over.load(Ordering::SeqCst);
            self.report_events(alloc, rt, form, writer);
            if is_over {
                return;
            }
            let now = moment(rt);
            if self.has_counts() && rhythm.tells_counts(now) {
                self.report_counts(alloc, rt, form, writer);
            }
            if rhythm.tells_doing(now) {
                let doing = Event::Doing(self.state(count_clients(mailboxes)));
                report(alloc, rt, form, doing, writer);
            }
            let rest = rhythm.rest(now, self.has_counts());
            self.thread.park_timeout(rt, Duration::from_millis(rest));
        }
    }

    fn report_events<R: Wait + Clock, W: Write>(
        &self,
        alloc: Global,
        rt: &R,
        form: Form,
        writer: &mut W,
    ) {
        for _event in 0..MOST_UNWRITTEN {
            match self.unwritten.pop(rt) {
                Some(event) => {
                    report(alloc, rt, form, event, writer);
                    self.written.fetch_add(1, Ordering::SeqCst);
                    self.ender.unpark();
                }
                None => return,
            }
        }
    }

    fn has_counts(&self) -> bool {
        self.kinds.are_any() || self.errors.are_any()
    }

    fn report_counts<R: Clock, W: Write>(&self, alloc: Global, rt: &R, form: Form, writer: &mut W) {
        for place in 0..KINDS {
            let count = self.kinds.take(place);
            if count > 0
                && let Some(kind) = Kind::at(place)
            {
                report(alloc, rt, form, Event::Counted { kind, count }, writer);
            }
        }
        for code in 0..ERRORS {
            let count = self.errors.take(code);
            if count > 0 {
                let code = code as u64;
                report(alloc, rt, form, Event::Errors { code, count }, writer);
            }
        }
    }

    // How the server does, with that number of clients.
    fn state(&self, connections: u64) -> Figures {
        let notices = self.notices.load(Ordering::SeqCst);
        self.gauges.with(connections).with_errors(notices)
    }
}

// Reports an event that comes now.
fn report<R: Clock, W: Write>(alloc: Global, rt: &R, form: Form, event: Event, writer: &mut W) {
    let since_1970 = rt.since_1970().unwrap_or(Duration::from_secs(0));
    drop(write_line(alloc, form, event, since_1970, writer));
}

// The moment, in milliseconds of the clock; 0 if it can't be read.
fn moment<R: Clock>(rt: &R) -> u64 {
    match rt.monotonic() {
        Ok(time) => u64::try_from(time.as_millis()).unwrap_or(0),
        Err(_) => 0,
    }
}

/// How often each of `N` things came, by their places.
#[derive(Drop)]
pub(crate) struct Counts<const N: usize> {
    counts: [AtomicU64; N],
}

impl<const N: usize> Counts<N> {
    /// Nothing came yet.
    pub(crate) fn new() -> Counts<N> {
        Counts {
            counts: array::from_fn(|_place| AtomicU64::new(0)),
        }
    }

    /// That many more came. Answers whether they are the first ones.
    pub(crate) fn add(&self, place: usize, more: u64) -> bool {
        more > 0 && place < N && self.counts[place].fetch_add(more, Ordering::SeqCst) == 0
    }

    /// That many came in all. Answers how many more that is than before.
    pub(crate) fn raise(&self, place: usize, all: u64) -> u64 {
        if place >= N {
            return 0;
        }
        let before = self.counts[place].swap(all, Ordering::SeqCst);
        all.saturating_sub(before)
    }

    /// How often the thing at that place came; from then on it is counted anew.
    pub(crate) fn take(&self, place: usize) -> u64 {
        if place >= N {
            return 0;
        }
        self.counts[place].swap(0, Ordering::SeqCst)
    }

    /// Whether anything came.
    pub(crate) fn are_any(&self) -> bool {
        self.counts
            .iter()
            .any(|count| count.load(Ordering::SeqCst) > 0)
    }
}
