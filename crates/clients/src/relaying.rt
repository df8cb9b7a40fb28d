//! Outputs on their way from an outbox to a link.

ghost use Rattle.std.specs.Prelude.{◌≡◌, ℕ, List, Option, IfOk, IfErr, OnErr, length};
ghost use Rattle.frame_core.specs.Written.{written};
ghost use Rattle.ws_core.specs.Sending.{with_message};
ghost use Rattle.clients.specs.Relays.{passage, Relays, IsRefused, Finds, LinkRefuses, ReadsMark};

use claim_core::{BrokerRing, BrokerSeat, Released};
use command_core::Out;
use frame_core::Verb;
use outbox_core::{OutTaker, Taken};
use std::alloc::Global;
use std::mem;
use ws_core::{LinkFault, Outgoing};

/// Handles one output, the one that is kept or else the next in the outbox. Sends it if its number is under the mark, and if it is of
/// that session.
///
/// If it isn't sent it is kept, and the next call handles it again. No memory is taken but what sending takes. A fault is the link's own:
/// after `Memory` the link is as it was and the call may be made again; after `Gone` the link is over. The link is neither read nor closed.
pub fn relay<B, L: Outgoing>(
    alloc: Global,
    ring: &BrokerRing<B>,
    seat: &mut BrokerSeat<B>,
    session: u64,
    taker: &mut OutTaker,
    kept: &mut Kept,
    link: &mut L,
) -> Result<Relayed, LinkFault>
    requires { seat.old.ring ≡ ring.now }
    ensures reads { ReadsMark seat.old seat.new }
    ensures relays { IfOk result (Relays session (passage taker.old kept.old (L.sent link.old)) (passage taker.new kept.new (L.sent link.new)) seat.new.seen) }
    ensures refused { IfErr result (λ fault. IsRefused session (passage taker.old kept.old (L.sent link.old)) (passage taker.new kept.new (L.sent link.new)) seat.new.seen) }
    ensures unread { L.received link.new ≡ L.received link.old }
    ensures refuses { IfErr result (LinkRefuses L.refuses link.old link.new) }
{
    match find(ring, seat, taker, kept) {
        Ok(released) if released.session() == session => pass(alloc, released, kept, link),
        Ok(released) => {
            drop(mem::replace(kept, Kept::Unsent(released)));
            Ok(Relayed::Foreign)
        }
        Err(relayed) => Ok(relayed),
    }
}

// Sends an output that may leave, or keeps it if the link refuses it.
fn pass<L: Outgoing>(
    alloc: Global,
    released: Released,
    kept: &mut Kept,
    link: &mut L,
) -> Result<Relayed, LinkFault>
    requires none { kept.old ≡ Kept.Nothing }
    ensures told { IfOk result (λ relayed. (relayed ≡ Relayed.Sent released.number released.frame.verb (length released.frame.body)) × (kept.new ≡ Kept.Nothing)
        × (L.sent link.new ≡ with_message (written released.frame) (L.sent link.old))) }
    ensures untold { OnErr result ((kept.new ≡ Kept.Unsent released) × (L.sent link.new ≡ L.sent link.old)) }
    ensures unread { L.received link.new ≡ L.received link.old }
    ensures refuses { IfErr result (LinkRefuses L.refuses link.old link.new) }
{
    match link.send(alloc, &released) {
        Ok(()) => {
            let relayed = Relayed::Sent {
                number: released.number(),
                verb: released.verb(),
                bytes: released.body().len(),
            };
            drop(released);
            Ok(relayed)
        }
        Err(fault) => {
            drop(mem::replace(kept, Kept::Unsent(released)));
            Err(fault)
        }
    }
}

// The next output that may leave, or what is the matter if there is none.
fn find<B>(
    ring: &BrokerRing<B>,
    seat: &mut BrokerSeat<B>,
    taker: &mut OutTaker,
    kept: &mut Kept,
) -> Result<Released, Relayed>
    requires { seat.old.ring ≡ ring.now }
    ensures reads { ReadsMark seat.old seat.new }
    ensures found { IfOk result (Finds kept.old kept.new taker.old taker.new seat.new.seen) }
    ensures none { IfErr result (λ relayed. (session : ℕ) (sent : Option (List (List ℕ))) → Relays session (passage taker.old kept.old sent) (passage taker.new kept.new sent) seat.new.seen relayed) }
{
    let out = match mem::replace(kept, Kept::Nothing) {
        Kept::Unsent(released) => return Ok(released),
        Kept::Waits(out) => out,
        Kept::Nothing => match taker.next() {
            Taken::Item(out) => out,
            Taken::Empty => return Err(Relayed::Empty),
            Taken::Cut => return Err(Relayed::Cut),
        },
    };
    match ring.release(seat, out) {
        Ok(released) => Ok(released),
        Err((out, _)) => {
            drop(mem::replace(kept, Kept::Waits(out)));
            Err(Relayed::Waits)
        }
    }
}

/// The output that was taken out of an outbox and is not sent yet.
#[derive(Drop)]
pub enum Kept {
    /// None was taken, or the last one taken was sent.
    Nothing,
    /// Its number was not under the mark when that was last read.
    Waits(Out),
    /// It may leave, and the link has not sent it yet.
    Unsent(Released),
}

impl Kept {
    ghost use Rattle.std.specs.Prelude.{◌≡◌, IfSome, true, false};
    ghost use Rattle.clients.specs.TurnAnswers.{WaitsFor};
    ghost use Rattle.clients.specs.Reports.{IsUnsent};

    // Whether it may leave, but the link refused it.
    pub(crate) fn is_unsent(&self) -> bool
        ensures yes { result ≡ true → IsUnsent self.now }
        ensures no { result ≡ false → IsUnsent self.now → ⊥ }
    {
        matches!(self, Kept::Unsent(_))
    }

    // The number that has to come under the mark first.
    pub(crate) fn awaits(&self) -> Option<u64>
        ensures { IfSome result (λ number. WaitsFor number self.now) }
    {
        match self {
            Kept::Waits(out) => Some(out.number()),
            Kept::Nothing | Kept::Unsent(_) => None,
        }
    }
}

/// What one call of `relay` did.
#[derive(Clone, Copy)]
pub enum Relayed {
    /// The output of that command was sent: a frame of that verb, with a body of so many bytes.
    Sent {
        number: u64,
        verb: Verb,
        bytes: usize,
    },
    /// The next output is not under the mark yet, and is kept.
    Waits,
    /// The next output is of another session, and is kept unsent.
    Foreign,
    /// There is no output.
    Empty,
    /// There is no output, and none will come.
    Cut,
}
