//! What a worker's thread does.

ghost use Rattle.std.specs.Prelude.{◌≡◌};
ghost use Rattle.clients.specs.TurnAnswers.{GoesOnYet};
ghost use Rattle.clients.specs.ClientSteps.{GoesOn};
ghost use Rattle.engine_core.specs.Serving.{IsEndAt, Serves, end_of};

use crate::flushing::Gate;
use claim_core::{BrokerRing, BrokerSeat};
use clients::{Client, Next, SESSION_BYTES, Turned, Wakers};
use outbox_core::{Bell, OutSender};
use std::alloc::Global;
use ws_core::Link;

/// Serves one connection to its end, or for `turns` turns, counting those that its gate held up. Its link may wait within its calls.
/// `&Silent` makes bells that wake nobody.
///
/// What it appends is one conversation: an Open, then commands of the session whose number is the Open's ticket, and last its End, if it
/// comes to that. It is what the bytes ask for that the link gave, however they were cut: no command is left out, and none is put before
/// another. The client is sent outputs of that session alone, and before it has one the ERROR that its bytes ask for, once.
///
/// `Stopped` comes only if the ring takes nothing more. A growth that memory refuses is tried again in the next turn.
pub fn worker<B: Bell, M: Wakers<B>, L: Link, G: Gate>(
    alloc: Global,
    ring: &BrokerRing<OutSender<B>>,
    seat: &mut BrokerSeat<OutSender<B>>,
    link: &mut L,
    wakers: &M,
    gate: &G,
    turns: u64,
) -> Ended
    requires { seat.old.ring ≡ ring.now }
    ensures seat { (seat.new.ring ≡ seat.old.ring) × (seat.new.number ≡ seat.old.number) }
    ensures serves { Serves B L.sent L.received seat.old link.old seat.new link.new result }
{
    let rounds = Rounds {
        gate,
        worker: seat.number(),
        turns,
    };
    let mut client = Client::new(alloc, SESSION_BYTES);
    let ended = serve(alloc, ring, seat, link, wakers, &mut client, &rounds);
    drop(client);
    ended
}

// By which gate turns are taken, and how many at most.
#[derive(Drop)]
struct Rounds<'a, G> {
    gate: &'a G,
    worker: u32,
    turns: u64,
}

// Gives a connection its turns, until it ends or there are no more.
fn serve<B: Bell, M: Wakers<B>, L: Link, G: Gate>(
    alloc: Global,
    ring: &BrokerRing<OutSender<B>>,
    seat: &mut BrokerSeat<OutSender<B>>,
    link: &mut L,
    wakers: &M,
    client: &mut Client<B>,
    rounds: &Rounds<'_, G>,
) -> Ended
    requires ring { seat.old.ring ≡ ring.now }
    requires yet { GoesOnYet client.old.stage }
    ensures goes { GoesOn L.sent L.received client.old seat.old link.old client.new seat.new link.new }
    ensures ends { IsEndAt result client.new }
{
    for turn in 0..rounds.turns {
        if !rounds.gate.pass(rounds.worker, turn) {
            continue;
        }
        let turned = client.turn(alloc, ring, seat, link, wakers);
        if let Next::Over(ended) = turned.next {
            return Ended::of(ended);
        }
        wait(rounds.gate, rounds.worker, turned);
    }
    Ended::Turns
}

// Tells the gate of a turn, and leaves it to the gate when the next comes, if a mark is waited for or memory was refused.
fn wait<G: Gate>(gate: &G, worker: u32, turned: Turned) {
    if turned.appended {
        gate.appended(worker);
    }
    match turned.next {
        Next::Room(mark) | Next::Mark(mark) => gate.wait_for_mark(worker, mark),
        Next::Memory => gate.wait_for_memory(worker),
        _ => {}
    }
}

/// How a worker ended.
#[derive(Clone, Copy, PartialEq, Eq, Debug)]
pub enum Ended {
    /// Its connection was closed after the client's DISCONNECT, with 1000.
    Bye,
    /// Its connection is gone, or was given up.
    Lost,
    /// Its connection was closed once an ERROR was sent, with 1002.
    Bad,
    /// Its connection was closed because the broker takes nothing more.
    Stopped,
    /// Its turns have run out.
    Turns,
}

impl Ended {
    // That of a worker whose connection has ended so.
    pub(crate) fn of(ended: clients::Ended) -> Ended
        ensures { result ≡ end_of ended }
    {
        match ended {
            clients::Ended::Bye => Ended::Bye,
            clients::Ended::Lost => Ended::Lost,
            clients::Ended::Bad => Ended::Bad,
            clients::Ended::Stopped => Ended::Stopped,
        }
    }
}
