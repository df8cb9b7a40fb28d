//! How many bytes a session has in each snapshot of the broker.

ghost use Rattle.std.specs.Prelude.{◌≡◌, ◌≤◌, ◌<◌, ◌++◌, ◌∷◌, ◌^◌, [], filter, not, OnOk, OnErr};
ghost use Rattle.clients.specs.Footprints.{charged, has_id, part, parts_of, session_size, subscription_size, total};

use command_core::{Dest, HeaderText, Op, option_size, text_size};
use std::alloc::{AllocError, Global};
use std::marker::Model;

/// How many bytes the sessions of a desk may have in a snapshot of the broker for each client that may sit there, beside the messages that
/// are held. They are the clients' names, and the ids, destinations and durable names of subscriptions, with the numbers beside them.
/// 16,384 sessions of so many are 134,217,728 bytes. With all that may be held beside them they fit into each of the two areas of a
/// journal of 512 MiB.
pub const SESSION_BYTES: u64 = 8_192;

// How many bytes a snapshot has for the number of a session.
const NUMBER_BYTES: u64 = 8;

// How many it has for the length of a text.
const LENGTH_BYTES: u64 = 4;

// How many it has for the mode of a subscription.
const MODE_BYTES: u64 = 1;

// How many it has for a count of messages.
const COUNT_BYTES: u64 = 4;

/// What one command adds to a snapshot: an Open its session, a SUBSCRIBE its subscription, which has an id.
#[derive(Drop)]
pub struct Part {
    id: Option<HeaderText>,
    bytes: u64,
}

/// Why acts of a connection were cut off: not done, though its client asked for them and no command before kept them back.
#[derive(Clone, Copy)]
pub enum Cut {
    /// None were.
    No,
    /// Its next command would have its session pass so many bytes.
    Full(u64),
    /// Its server needed the memory.
    Evicted,
}

// What stands of a session in a snapshot: what its commands add, unless an UNSUBSCRIBE has ended it. What is counted for that is at most
// what it may have, which its desk says anew from turn to turn.
#[derive(Drop)]
pub(crate) struct Footprint {
    parts: Vec<Part>,
    // What stands, or more while an UNSUBSCRIBE waits.
    counted: u64,
    // What it may have now.
    room: u64,
    // What all of its desk may have together.
    limit: u64,
    cut: Cut,
}

impl Model for Footprint {
    ghost use Rattle.std.specs.Prelude.{◌≤◌};
    ghost use Rattle.clients.specs.Footprints.{FootprintValue, IsFootprint};

    ghost Value = { FootprintValue };

    ghost view = { λ a. record { parts = a.parts.items; counted = a.counted; room = a.room; limit = a.limit; cut = a.cut } };

    ghost invariant = { λ a. IsFootprint (record { parts = a.parts.items; counted = a.counted; room = a.room; limit = a.limit; cut = a.cut }) };
}

impl Footprint {
    ghost use Rattle.std.specs.Prelude.{true, false};
    ghost use Rattle.clients.specs.Footprints.{IsFootprint, none_standing, settled, spent};

    // That of a session that has said nothing, at a desk whose sessions may have so many bytes. No memory is taken.
    pub(crate) fn new(alloc: Global, limit: u64) -> Footprint
        ensures { result ≡ none_standing limit }
    {
        Footprint {
            parts: Vec::new(alloc),
            counted: 0,
            room: limit,
            limit,
            cut: Cut::No,
        }
    }

    // How many bytes are counted for it.
    pub(crate) fn counted(&self) -> u64
        ensures value { result ≡ self.now.counted }
        ensures form { IsFootprint self.now }
    {
        self.counted
    }

    pub(crate) fn cut(&self) -> Cut
        ensures { result ≡ self.now.cut }
    {
        self.cut
    }

    // It may have so many bytes.
    pub(crate) fn allow(&mut self, room: u64)
        requires least { self.old.counted ≤ room }
        requires most { room ≤ self.old.limit }
        ensures { self.new ≡ record self.old { room = room } }
    {
        self.room = room;
    }

    // Whether it keeps within what it may have with that command.
    pub(crate) fn admits(&self, op: &Op) -> bool
        ensures yes { result ≡ true → total (charged self.now.parts op.now) ≤ self.now.room }
        ensures no { result ≡ false → self.now.room < total (charged self.now.parts op.now) }
        ensures form { IsFootprint self.now }
    {
        match op {
            Op::Open { .. } | Op::Subscribe { .. } => {
                size_of(op) <= self.room - total(self.parts.as_slice())
            }
            _ => true,
        }
    }

    // Adds what the command adds, and drops what it ends. If memory is refused, it is as it was; only what adds takes memory.
    pub(crate) fn charge(&mut self, alloc: Global, op: &Op) -> Result<(), AllocError>
        requires { total (charged self.old.parts op.now) ≤ self.old.room }
        ensures ok { OnOk result (self.new ≡ spent self.old op.now) }
        ensures err { OnErr result (self.new ≡ self.old) }
    {
        add(alloc, &mut self.parts, op)?;
        self.counted = self.counted.max(total(self.parts.as_slice()));
        Ok(())
    }

    // The command that was counted last was appended.
    pub(crate) fn settle(&mut self)
        ensures { self.new ≡ settled self.old }
    {
        self.counted = total(self.parts.as_slice());
    }

    // Its session's acts are cut off, since the next would pass what it may have.
    pub(crate) fn fill(&mut self)
        ensures { self.new ≡ record self.old { cut = Cut.Full self.old.room } }
    {
        self.cut = Cut::Full(self.room);
    }

    // Its session's acts are cut off, since the memory is needed.
    pub(crate) fn evict(&mut self)
        ensures { self.new ≡ record self.old { cut = Cut.Evicted } }
    {
        self.cut = Cut::Evicted;
    }
}

// Adds what the command adds, and drops what it ends.
fn add(alloc: Global, parts: &mut Vec<Part>, op: &Op) -> Result<(), AllocError>
    ensures ok { OnOk result (parts.new.items ≡ charged parts.old.items op.now) }
    ensures err { OnErr result (parts.new.items ≡ parts.old.items) }
{
    match op {
        Op::Open { .. } => push(parts, None, size_of(op)),
        Op::Subscribe { id, .. } => push(parts, Some(id.clone()?), size_of(op)),
        Op::Unsubscribe { id, .. } => {
            release(parts, id);
            Ok(())
        }
        _ => Ok(()),
    }
}

fn push(parts: &mut Vec<Part>, id: Option<HeaderText>, bytes: u64) -> Result<(), AllocError>
    ensures ok { OnOk result (parts.new.items ≡ parts.old.items ++ part id bytes ∷ []) }
    ensures err { OnErr result (parts.new.items ≡ parts.old.items) }
{
    parts.push(Part { id, bytes })?;
    Ok(())
}

// Drops the subscriptions of that id.
fn release(parts: &mut Vec<Part>, id: &Option<HeaderText>)
    ensures { parts.new.items ≡ filter (λ one. not (has_id one.id id.now)) parts.old.items }
{
    parts.retain(|one| !has_id(one, id));
}

fn has_id(one: &Part, id: &Option<HeaderText>) -> bool
    ensures { result ≡ has_id one.now.id id.now }
{
    match (&one.id, id) {
        (Some(own), Some(id)) => own.as_str() == id.as_str(),
        _ => false,
    }
}

fn total(parts: &[Part]) -> u64
    requires { total parts.now < 2 ^ 64 }
    ensures { result ≡ total parts.now }
{
    parts.iter().map(|one| one.bytes).sum()
}

// How many bytes a snapshot has for an operation that adds to it.
fn size_of(op: &Op) -> u64
    ensures size { result ≡ total (parts_of op.now) }
    ensures small { result ≤ 32768 }
{
    match op {
        Op::Open { client_id } => session_size(client_id),
        Op::Subscribe {
            id,
            destination,
            durable,
            ..
        } => subscription_size(id, destination, durable),
        _ => 0,
    }
}

// How many bytes a snapshot has for a session of that client.
fn session_size(client_id: &Option<HeaderText>) -> u64
    ensures size { result ≡ session_size client_id.now }
    ensures small { result ≤ 16384 }
{
    NUMBER_BYTES + option_size(client_id)
}

// How many bytes a snapshot has for such a subscription at most, without the messages that it holds.
fn subscription_size(id: &HeaderText, destination: &Dest, durable: &Option<HeaderText>) -> u64
    ensures size { result ≡ subscription_size id.now destination.now durable.now }
    ensures small { result ≤ 32768 }
{
    let names = text_size(id) + option_size(durable);
    let destination = LENGTH_BYTES + destination.as_str().len() as u64;
    let counts = 2 * COUNT_BYTES;
    NUMBER_BYTES + MODE_BYTES + names + destination + counts
}
