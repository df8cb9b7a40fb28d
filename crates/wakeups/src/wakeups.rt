//! How the threads of a server wait for one another.

ghost use Rattle.std.specs.Prelude.{◌≡◌, ◌<◌, ◌≤◌, ◌-◌, ◌^◌, ◌/◌, min, not, ◌↔◌, IsTrue, ◌∷◌, [], List, Bool, false, true};
ghost use Rattle.wakeups.specs.Rooms.{since};
ghost use Rattle.wakeups.specs.declared.doorbell.BellStep.{BellStep};
ghost use Rattle.wakeups.specs.declared.doorbell.BellStep.TheVariants.{Check, Look, Note, Return, Ring, SetAsleep, SetAwake, TakeCalls, TakeRing, Wake};
ghost use Rattle.wakeups.specs.declared.doorbell.Sleeper.TheVariants.{Waits};
ghost use Rattle.wakeups.specs.Machines.{Machine, Runs, begin};
ghost use Rattle.wakeups.specs.MarkMachines.{IsLeft, MarkMachine, RunsMarked, begin_marked};
ghost use Rattle.wakeups.specs.declared.wakeups.MarkStep.{MarkStep};
ghost use Rattle.wakeups.specs.declared.wakeups.MarkStep.TheVariants.{LookWhoWaits, Raise, ReadMark, SetWaiting};
ghost use Rattle.wakeups.specs.Promises.{IsNoticed};

use crate::doorbell::Doorbell;
use crate::log_thread::LogThread;
use clients::Next;
use engine_core::Gate;
use event_log::Event;
use std::alloc::AllocError;
use std::sync::atomic::{AtomicBool, AtomicU64, Ordering};
use std::sync::{Arc, Wait};
use std::thread;
use std::thread::Parker;
use std::time::{Clock, Duration};

/// For how many seconds the flusher sleeps at most before it looks again. It is woken if there is something to do; only its look at the
/// journal's file waits for this.
const LONGEST_SLEEP: u64 = 1;

/// From how many microseconds on a turn of the flusher was on a slow disk.
const SLOW: u64 = 2_000;

/// For how many microseconds the flusher rests at most after a turn on a slow disk.
const LONGEST_REST: u64 = 2_000;

// For how many milliseconds the flusher waits for readers before it looks again.
const READER_WAIT: u64 = 1;

/// A number over every mark: that of a server that publishes no more.
const OVER_ALL: u64 = u64::MAX;

// For how many microseconds the flusher rests after a turn that took `micros`, and published `commands`. It is a quarter,
// which is half of one of its two syncs. So a client whose receipts have just come is in the next block, and not in the
// one after it. A client that sends alone, or a quick disk, is not waited for.
fn rest_after(micros: u64, commands: u64) -> u64
    ensures short { result ≤ 2000 }
    ensures quick { micros < 2000 → result ≡ 0 }
    ensures alone { commands ≤ 1 → result ≡ 0 }
    ensures quarter { 2000 ≤ micros → 1 < commands → result ≡ min (micros / 4) 2000 }
{
    if micros < SLOW || commands <= 1 {
        return 0;
    }
    (micros / 4).min(LONGEST_REST)
}

// Whether the flusher sleeps: not if its last turn took something, since more may be ready.
fn sleeps(took: bool) -> bool
    ensures { result ≡ not took }
{
    !took
}

/// Has the flusher sleep until a command was put into the ring, and wakes workers that wait for the mark once it has risen or
/// will rise no more.
///
/// No wake is lost, and only a wake of a thread that sleeps costs a call of the system. A worker sets that it waits, and then
/// reads the mark; the flusher raises the mark, and then looks which workers wait. These steps stand in one order, so one of the
/// two sees what the other did.
#[derive(Drop)]
pub struct Wakeups<T> {
    rt: T,
    // The flusher's sleep, and whether the server is to end.
    ending: Arc<Ending>,
    // Whether the flusher's last turn took something: more may be ready then, so that it doesn't sleep.
    took: AtomicBool,
    marks: Marks,
    bells: Vec<Arc<Doorbell>>,
    // When the flusher's turn began, in microseconds of the clock.
    began: AtomicU64,
    // For how many microseconds the flusher rests before its next turn.
    rest: AtomicU64,
    // Whether the flusher's last turn has compacted the journal.
    compacted: AtomicBool,
    log_thread: Arc<LogThread>,
}

impl<T: Wait> Wakeups<T> {
    /// The wakeups of a server at this mark, with what asks it to end and what reports compactions, whose workers have these
    /// bells.
    pub fn new(
        rt: T,
        mark: u64,
        ending: Arc<Ending>,
        log_thread: Arc<LogThread>,
        bells: Vec<Arc<Doorbell>>,
    ) -> Wakeups<T> {
        Wakeups {
            rt,
            ending,
            took: AtomicBool::new(false),
            marks: Marks::new(mark),
            bells,
            began: AtomicU64::new(0),
            rest: AtomicU64::new(0),
            compacted: AtomicBool::new(false),
            log_thread,
        }
    }

    /// Returns once the flusher has something to do: at once if its last turn took something, since more may be ready.
    fn await_commands(&self) {
        let took = self.took.swap(false, Ordering::SeqCst);
        if sleeps(took) {
            let longest = Duration::from_secs(LONGEST_SLEEP);
            self.ending.sleep(&self.rt, longest);
        }
    }

    /// A command was put into the ring.
    pub fn wake_flusher(&self) {
        self.ending.wake_flusher();
    }

    // The flusher took something, and the mark is this now.
    fn raise(&self, mark: u64) -> Raised
        ensures { result.mark ≡ mark }
    {
        self.took.store(true, Ordering::SeqCst);
        let raised = self.marks.raise(mark);
        self.wake_workers(&raised);
        raised
    }

    // No greater mark will be published.
    fn stop(&self) -> Raised
        ensures { result.mark ≡ 2 ^ 64 - 1 }
    {
        let raised = self.marks.close();
        self.wake_workers(&raised);
        raised
    }

    // Wakes the workers that wait for a greater mark, once it is raised.
    fn wake_workers(&self, raised: &Raised) {
        if self.marks.is_awaited(raised) {
            for bell in &self.bells {
                bell.ring_if_awaited();
            }
        }
    }
}

impl<T> Wakeups<T> {
    /// What takes lines for the operator.
    pub fn log(&self) -> &Arc<LogThread> {
        &self.log_thread
    }

    /// What asks the server to end.
    pub fn ending(&self) -> Result<Arc<Ending>, AllocError> {
        self.ending.clone()
    }

    /// Whether workers are to part with their clients.
    pub fn has_end_begun(&self) -> bool {
        self.ending.has_begun()
    }

    /// Whether the journal was compacted since this was last asked.
    pub fn has_compacted(&self) -> bool {
        self.compacted.swap(false, Ordering::SeqCst)
    }

    /// Whether the server was asked to end.
    pub fn is_asked_to_end(&self) -> bool {
        self.ending.is_asked()
    }

    /// Whether the flusher's last turn took something.
    pub fn has_taken(&self) -> bool {
        self.took.load(Ordering::SeqCst)
    }

    /// Nothing more will be published: workers are to part with their clients, and each is woken.
    pub fn end(&self) {
        drop(self.marks.close());
        self.ending.begin();
        self.ring_all();
    }

    /// Has each worker go through a round before it sleeps.
    pub fn ring_all(&self) {
        for bell in &self.bells {
            drop(bell.ring());
        }
    }

    /// The mark that was published last, or a number over every mark once none will be.
    pub fn mark(&self) -> u64 {
        self.marks.mark()
    }

    /// Sets whether this worker waits for a greater mark: then it is woken by each that is published from then on. Answers the
    /// mark as it is after that, which the worker looks at before it sleeps.
    pub fn begin_to_wait(&self, bell: &Doorbell, awaits: bool) -> Watching
        ensures { result.awaits ≡ awaits }
    {
        let awaiting = self.marks.set_waiting(bell, awaits);
        self.marks.read(awaiting)
    }

    /// This worker waits no more, if it did.
    pub fn end_to_wait(&self, bell: &Doorbell, watching: Watching) {
        self.marks.end(bell, watching);
    }
}

impl<T: Wait + Clock> Wakeups<T> {
    // The microseconds of the clock; 0 if it can't be read.
    fn micros(&self) -> u64 {
        match self.rt.monotonic() {
            Ok(time) => u64::try_from(time.as_micros()).unwrap_or(0),
            Err(_) => 0,
        }
    }

    // How many microseconds the flusher's turn has taken.
    fn taken(&self) -> u64 {
        let began = self.began.load(Ordering::SeqCst);
        self.micros().saturating_sub(began)
    }

    // Lets the flusher rest, if its last turn asks for that.
    fn rest(&self) {
        let micros = self.rest.swap(0, Ordering::SeqCst);
        if micros > 0 {
            thread::sleep(&self.rt, Duration::from_micros(micros));
        }
    }
}

impl<T: Wait + Clock> Gate for Wakeups<T> {
    fn pass(&self, _worker: u32, _turn: u64) -> bool {
        self.rest();
        self.await_commands();
        self.began.store(self.micros(), Ordering::SeqCst);
        true
    }

    fn published(&self, mark: u64) {
        let micros = self.taken();
        let raised = self.raise(mark);
        let rest = rest_after(micros, raised.commands());
        self.rest.store(rest, Ordering::SeqCst);
    }

    fn wait_for_readers(&self) {
        thread::sleep(&self.rt, Duration::from_millis(READER_WAIT));
    }

    fn compacted(&self, won: u64) {
        self.compacted.store(true, Ordering::SeqCst);
        let millis = self.taken() / 1_000;
        self.log_thread
            .note(&self.rt, Event::Compacted { won, millis });
    }

    fn stopped(&self) {
        drop(self.stop());
    }
}

/// The mark that was published last, or a number over every mark once none will be; and how many workers wait for a greater one. No contract
/// knows what they are, since other threads change them at any time.
#[derive(Drop)]
pub(crate) struct Marks {
    mark: AtomicU64,
    waiting: AtomicU64,
}

/// The mark to which the flusher has raised that of the workers, and the one before. Only `raise` and `close` make one, so who looks for workers
/// that wait has raised the mark before.
#[derive(Drop)]
pub struct Raised {
    mark: u64,
    before: u64,
}

impl Raised {
    /// How many commands were published by this.
    pub(crate) fn commands(&self) -> u64
        ensures { result ≡ self.now.mark - self.now.before }
    {
        self.mark.saturating_sub(self.before)
    }
}

/// Whether a worker that is about to wait has set that it waits for a greater mark. Only `set_waiting` makes one.
#[derive(Drop)]
pub struct Awaiting {
    awaits: bool,
}

/// A worker that waits: whether it has set that it waits for a greater mark, and the mark that it read after that. It has to be handed to what
/// ends the wait.
pub struct Watching {
    awaits: bool,
    mark: u64,
}

impl Watching {
    /// The mark that it read.
    pub fn mark(&self) -> u64
        ensures { result ≡ self.now.mark }
    {
        self.mark
    }
}

// Whether any worker waits for a greater mark.
fn are_any(waiting: u64) -> bool
    ensures { IsTrue result ↔ (0 < waiting) }
{
    waiting > 0
}

impl Marks {
    /// That mark was published, and nobody waits.
    pub(crate) fn new(mark: u64) -> Marks {
        Marks {
            mark: AtomicU64::new(mark),
            waiting: AtomicU64::new(0),
        }
    }

    /// The mark.
    pub(crate) fn mark(&self) -> u64 {
        self.mark.load(Ordering::SeqCst)
    }

    /// The mark is this now.
    pub(crate) fn raise(&self, mark: u64) -> Raised
        ensures { result.mark ≡ mark }
    {
        let before = self.mark.swap(mark, Ordering::SeqCst);
        Raised { mark, before }
    }

    /// No greater mark will be published.
    pub(crate) fn close(&self) -> Raised
        ensures { result.mark ≡ 2 ^ 64 - 1 }
    {
        self.raise(OVER_ALL)
    }

    /// Whether workers wait for a greater mark than they read before it was raised.
    pub(crate) fn is_awaited(&self, _raised: &Raised) -> bool {
        are_any(self.waiting.load(Ordering::SeqCst))
    }

    /// The worker of that bell sets whether it waits for a greater mark.
    pub(crate) fn set_waiting(&self, bell: &Doorbell, awaits: bool) -> Awaiting
        ensures { result.awaits ≡ awaits }
    {
        if awaits {
            bell.await_mark(true);
            self.waiting.fetch_add(1, Ordering::SeqCst);
        }
        Awaiting { awaits }
    }

    /// It reads the mark after that.
    pub(crate) fn read(&self, awaiting: Awaiting) -> Watching
        ensures { result.awaits ≡ awaiting.awaits }
    {
        Watching {
            awaits: awaiting.awaits,
            mark: self.mark(),
        }
    }

    /// It waits no more, if it did.
    pub(crate) fn end(&self, bell: &Doorbell, watching: Watching) {
        let Watching { awaits, mark: _ } = watching;
        if awaits {
            bell.await_mark(false);
            self.waiting.fetch_sub(1, Ordering::SeqCst);
        }
    }
}

/// How far a worker has come of which a client waits for the mark.
pub enum Waiter {
    /// It serves its clients.
    Serves,
    /// It has set that it waits for the mark, and next reads it.
    HasSet,
    /// It has read a mark that does not let the client in, and waits until its bell is rung.
    Waits,
    /// It has read a mark that lets the client in.
    Hurries,
}

/// One atomic step: the first two are the flusher's, the others the worker's.
pub enum MarkStep {
    /// The flusher raises the mark so far that the client is let in.
    Raise,
    /// The flusher that has raised the mark looks whether the worker waits for it, and then rings the worker's bell.
    LookWhoWaits,
    /// The worker sets that it waits for the mark.
    SetWaiting,
    /// It reads the mark.
    ReadMark,
    /// It waits no more, for whatever reason, and lets in those that the mark lets in. The client waits for a greater mark from then on.
    LetIn,
}

/// Whether a server was asked to end, whether it now ends, and the sleep of its flusher, which the first ends.
#[derive(Drop)]
pub struct Ending {
    asked: AtomicBool,
    begun: AtomicBool,
    flusher: Parker,
}

impl Ending {
    /// Nobody has asked for it.
    pub fn new() -> Ending {
        Ending {
            asked: AtomicBool::new(false),
            begun: AtomicBool::new(false),
            flusher: Parker::new(),
        }
    }

    /// Asks the server to end, and wakes its flusher.
    pub fn ask(&self) {
        self.asked.store(true, Ordering::SeqCst);
        self.flusher.unpark();
    }

    /// Whether the server was asked to end: no client is accepted any more, and the flusher stores what is claimed.
    pub fn is_asked(&self) -> bool {
        self.asked.load(Ordering::SeqCst)
    }

    /// Nothing more will be stored: workers are to part with their clients.
    pub(crate) fn begin(&self) {
        self.asked.store(true, Ordering::SeqCst);
        self.begun.store(true, Ordering::SeqCst);
    }

    /// Whether workers are to part with their clients.
    pub fn has_begun(&self) -> bool {
        self.begun.load(Ordering::SeqCst)
    }

    /// Wakes the flusher.
    pub(crate) fn wake_flusher(&self) {
        self.flusher.unpark();
    }

    /// Has the flusher sleep for `longest` at most, unless it is woken or the server was asked to end.
    pub(crate) fn sleep<R: Wait>(&self, rt: &R, longest: Duration) {
        if !self.is_asked() {
            self.flusher.park_timeout(rt, longest);
        }
    }
}

/// What a client waits for after turns that came to this, and that began at this mark, by whether its desk waits with a dear command.
pub(crate) fn since(next: Next, waits: bool, mark: u64) -> Next
    ensures { result ≡ since waits mark next }
{
    match next {
        Next::Room(over) if waits => Next::Mark(over.min(mark)),
        Next::Room(over) => Next::Room(over.min(mark)),
        other => other,
    }
}

/// After any steps of the worker and of any number of callers, in any order, no call is lost. The worker finds a client that was called for
/// before it sleeps, or the system was asked to end its wait. A call may come while the worker waits (`reached`).
pub fn every_call_is_heard()
    ensures heard { (steps : List BellStep) (m : Machine) → Runs begin steps m → IsNoticed m }
    ensures reached { (m : Machine) × (Runs begin (SetAsleep ∷ Check ∷ Note ∷ Ring ∷ Look ∷ Wake ∷ []) m
        × ((m.worker ≡ Waits) × (m.called ≡ true) × (m.noting ≡ 0))) }
{}

/// A worker that wakes takes what was called for. After any steps, once its callers are done, the next four steps of the worker alone take
/// it.
pub fn what_was_called_for_is_taken()
    ensures taken { (steps : List BellStep) (m n : Machine) (reported : Bool) → Runs begin steps m → m.worker ≡ Waits → m.called ≡ true → m.noting ≡ 0
        → Runs m (Return reported ∷ SetAwake ∷ TakeRing ∷ TakeCalls ∷ []) n → n.called ≡ false }
    ensures possible { (steps : List BellStep) (m : Machine) (reported : Bool) → Runs begin steps m → m.worker ≡ Waits → m.called ≡ true → m.noting ≡ 0
        → (n : Machine) × Runs m (Return reported ∷ SetAwake ∷ TakeRing ∷ TakeCalls ∷ []) n }
{}

/// After any steps of a worker that waits for the mark and of the flusher, in any order, no mark is missed: if the worker waits though the mark
/// would let its client in, its bell was rung, once the flusher has looked who waits. The mark may rise while the worker waits (`reached`).
pub fn no_mark_is_missed()
    ensures missed { (steps : List MarkStep) (m : MarkMachine) → RunsMarked begin_marked steps m → IsLeft m → m.rung ≡ true }
    ensures reached { (m : MarkMachine) × (RunsMarked begin_marked (SetWaiting ∷ ReadMark ∷ Raise ∷ LookWhoWaits ∷ []) m × IsLeft m) }
{}
