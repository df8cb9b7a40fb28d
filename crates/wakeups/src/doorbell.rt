//! What wakes a worker that waits for its sockets.

ghost use Rattle.std.specs.Prelude.{◌≡◌, Bool, ◌↔◌, IsTrue};
ghost use Rattle.wakeups.specs.Machines.{checked, took_ring, looked};
ghost use Rattle.wakeups.specs.declared.doorbell.Caller.TheVariants.{Done, Calls, HasRung};
ghost use Rattle.wakeups.specs.declared.doorbell.Sleeper.TheVariants.{Awake, FallsAsleep, Returned, Serves, TakesCalls, Waits};

use mio::{Registry, Token, Waker};
use std::io;
use std::sync::atomic::{AtomicBool, Ordering};

/// Ends the wait of one worker. The mailbox of each of its desks has for which of its clients.
///
/// No ring is lost. A call sets its client's bit, then sets that there was a ring, then looks whether the worker sleeps. The
/// worker sets that it sleeps, then looks whether there was a ring. Once it is awake, it takes the ring back before it takes the
/// bits of all its desks. All of these steps stand in one order. So a call whose bit the worker has not taken comes to its
/// second step after the worker took the ring back. Then the worker finds that ring before it sleeps the next time, or else has
/// set by then that it sleeps, and is woken. Only a ring of a sleeping worker costs a call of the system.
///
/// A number that was one client's and is another's by now may still be called for the one that is gone. Then the other gets a
/// turn in which it finds nothing.
#[derive(Drop)]
pub struct Doorbell {
    waker: Waker,
    flags: BellFlags,
    // Whether the worker waits for a greater mark.
    awaits_mark: AtomicBool,
}

impl Doorbell {
    /// The doorbell of a worker that waits for what is registered there.
    pub fn new(registry: &Registry, token: Token) -> io::Result<Doorbell> {
        Ok(Doorbell {
            waker: Waker::new(registry, token)?,
            flags: BellFlags::new(),
            awaits_mark: AtomicBool::new(false),
        })
    }

    /// Wakes the worker, or keeps it awake. If the system refuses the wake, the worker's own time limit ends its wait. The caller's steps are
    /// done then.
    pub(crate) fn ring(&self) -> Ringing
        ensures { result.caller ≡ Done }
    {
        let rung = Ringing::begin().set_rung(&self.flags);
        rung.look(&self.flags).wake(&self.waker)
    }

    /// Sets whether the worker waits for a greater mark.
    pub(crate) fn await_mark(&self, awaits: bool) {
        self.awaits_mark.store(awaits, Ordering::SeqCst);
    }

    /// Rings if the worker waits for a greater mark.
    pub(crate) fn ring_if_awaited(&self) {
        if self.awaits_mark.load(Ordering::SeqCst) {
            drop(self.ring());
        }
    }

    /// Sets that the worker is about to wait, and then looks whether it may: it may not if the bell was rung since it last woke.
    pub fn falls_asleep(&self) -> AtBell
        ensures { (rung : Bool) × (result.worker ≡ checked rung) }
    {
        AtBell::serves().set_asleep(&self.flags).check(&self.flags)
    }

    /// Sets that the worker is awake, and then takes the ring back, if there was one: then it has to look for whom.
    pub fn wakes_up(&self) -> AtBell
        ensures { (rung : Bool) × (result.worker ≡ took_ring rung) }
    {
        AtBell::returned()
            .set_awake(&self.flags)
            .take_ring(&self.flags)
    }
}

/// The flags of a doorbell: whether its worker sleeps, as it has set that, and whether there was a ring. No contract knows what they are, since
/// other threads change them at any time.
#[derive(Drop)]
pub(crate) struct BellFlags {
    asleep: AtomicBool,
    rung: AtomicBool,
}

impl BellFlags {
    /// The worker is awake, and there was no ring.
    pub(crate) fn new() -> BellFlags {
        BellFlags {
            asleep: AtomicBool::new(false),
            rung: AtomicBool::new(false),
        }
    }
}

// How far a caller has come that has looked whether the worker sleeps.
fn looked(asleep: bool) -> Caller
    ensures { result ≡ looked asleep }
{
    if asleep {
        Caller::FoundAsleep
    } else {
        Caller::Done
    }
}

// How far a worker has come that has looked whether there was a ring.
fn checked(rung: bool) -> Sleeper
    ensures { result ≡ checked rung }
{
    if rung {
        Sleeper::Hurries
    } else {
        Sleeper::Waits
    }
}

// How far a worker has come that has taken the ring back, if there was one.
fn took_ring(rung: bool) -> Sleeper
    ensures { result ≡ took_ring rung }
{
    if rung {
        Sleeper::TakesCalls
    } else {
        Sleeper::Serves
    }
}

/// A caller at a doorbell, and how far it has come. Only its steps change that, and each takes the one before it as made. So one that is done
/// has made all of them, in order.
#[derive(Drop)]
pub struct Ringing {
    caller: Caller,
}

impl Ringing {
    /// It has set its client's bit, if it calls for one.
    pub(crate) fn begin() -> Ringing
        ensures { result.caller ≡ Calls }
    {
        Ringing {
            caller: Caller::Calls,
        }
    }

    /// It sets that there was a ring.
    pub(crate) fn set_rung(self, flags: &BellFlags) -> Ringing
        requires { self.caller ≡ Calls }
        ensures { result.caller ≡ HasRung }
    {
        flags.rung.store(true, Ordering::SeqCst);
        Ringing {
            caller: Caller::HasRung,
        }
    }

    /// It looks whether the worker sleeps, and marks it as not asleep.
    pub(crate) fn look(self, flags: &BellFlags) -> Ringing
        requires { self.caller ≡ HasRung }
        ensures { (asleep : Bool) × (result.caller ≡ looked asleep) }
    {
        let asleep = flags.asleep.swap(false, Ordering::SeqCst);
        Ringing {
            caller: looked(asleep),
        }
    }

    /// It asks the system to end the worker's wait, if it has found the worker asleep.
    pub(crate) fn wake(self, waker: &Waker) -> Ringing
        requires { (asleep : Bool) × (self.caller ≡ looked asleep) }
        ensures { result.caller ≡ Done }
    {
        if matches!(&self.caller, Caller::FoundAsleep) {
            let _woken = waker.wake();
        }
        Ringing {
            caller: Caller::Done,
        }
    }
}

/// A worker at its doorbell, and how far it has come. Only its steps change that, and each takes the one before it as made.
#[derive(Drop)]
pub struct AtBell {
    worker: Sleeper,
}

impl AtBell {
    /// It serves its clients.
    pub(crate) fn serves() -> AtBell
        ensures { result.worker ≡ Serves }
    {
        AtBell {
            worker: Sleeper::Serves,
        }
    }

    /// Its poll has ended.
    pub(crate) fn returned() -> AtBell
        ensures { result.worker ≡ Returned }
    {
        AtBell {
            worker: Sleeper::Returned,
        }
    }

    /// It sets that it sleeps.
    pub(crate) fn set_asleep(self, flags: &BellFlags) -> AtBell
        requires { self.worker ≡ Serves }
        ensures { result.worker ≡ FallsAsleep }
    {
        flags.asleep.store(true, Ordering::SeqCst);
        AtBell {
            worker: Sleeper::FallsAsleep,
        }
    }

    /// It looks whether there was a ring.
    pub(crate) fn check(self, flags: &BellFlags) -> AtBell
        requires { self.worker ≡ FallsAsleep }
        ensures { (rung : Bool) × (result.worker ≡ checked rung) }
    {
        let rung = flags.rung.load(Ordering::SeqCst);
        AtBell {
            worker: checked(rung),
        }
    }

    /// It sets that it is awake.
    pub(crate) fn set_awake(self, flags: &BellFlags) -> AtBell
        requires { self.worker ≡ Returned }
        ensures { result.worker ≡ Awake }
    {
        flags.asleep.store(false, Ordering::SeqCst);
        AtBell {
            worker: Sleeper::Awake,
        }
    }

    /// It takes the ring back.
    pub(crate) fn take_ring(self, flags: &BellFlags) -> AtBell
        requires { self.worker ≡ Awake }
        ensures { (rung : Bool) × (result.worker ≡ took_ring rung) }
    {
        let rung = flags.rung.swap(false, Ordering::SeqCst);
        AtBell {
            worker: took_ring(rung),
        }
    }

    /// Whether it waits for its sockets and its bell.
    pub fn waits(&self) -> bool
        ensures { IsTrue result ↔ (self.now.worker ≡ Waits) }
    {
        matches!(&self.worker, Sleeper::Waits)
    }

    /// Whether it has to look for whom its bell was rung.
    pub fn takes_calls(&self) -> bool
        ensures { IsTrue result ↔ (self.now.worker ≡ TakesCalls) }
    {
        matches!(&self.worker, Sleeper::TakesCalls)
    }
}

/// How far the worker has come.
#[derive(Clone, Copy)]
pub enum Sleeper {
    /// It serves its clients.
    Serves,
    /// It has set that it sleeps, and next looks whether there was a ring.
    FallsAsleep,
    /// It waits in the poll, for sockets and for the system's wake.
    Waits,
    /// It has found a ring, and looks at the poll without waiting.
    Hurries,
    /// The poll has ended.
    Returned,
    /// It has set that it is awake, and next takes the ring back.
    Awake,
    /// It has taken a ring back, and next takes the calls.
    TakesCalls,
}

/// How far a caller has come.
#[derive(Clone, Copy)]
pub enum Caller {
    /// It has set the bit of its client, if it calls for one, and next sets that there was a ring.
    Calls,
    /// It has set that there was a ring, and next looks whether the worker sleeps.
    HasRung,
    /// It has found the worker asleep, and next asks the system to end its wait.
    FoundAsleep,
    /// It has nothing more to do.
    Done,
}

/// One atomic step: the first five are a caller's, the others the worker's.
pub enum BellStep {
    /// A caller sets the bit of the client.
    Note,
    /// A caller that has set the bit sets that there was a ring.
    Ring,
    /// A caller that calls for another client, or for none, sets that there was a ring.
    RingForOthers,
    /// A caller that has rung looks whether the worker sleeps, and marks it as not asleep.
    Look,
    /// A caller that found the worker asleep asks the system to end its wait.
    Wake,
    /// The worker sets that it sleeps.
    SetAsleep,
    /// It looks whether there was a ring.
    Check,
    /// Its poll ends: at any time, and at once if it does not wait. The poll may report the system's wake, which is then gone.
    Return(bool),
    /// It sets that it is awake.
    SetAwake,
    /// It takes the ring back.
    TakeRing,
    /// It takes the bits of all clients.
    TakeCalls,
}
