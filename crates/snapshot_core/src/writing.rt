//! The snapshot of a broker's state, written whole or in pieces.

ghost use Rattle.std.specs.Prelude.{false, ◌≡◌, ◌<◌, ◌≤◌, ◌+◌, ◌++◌, ◌^◌, ◌⊎◌, [], ℕ, List, IfOk, OnErr, OnOk, drop, length, take, IfSome, option_map, if◌then◌else◌, map};
ghost use Rattle.std.specs.Int.{w32, w64, to_be_bytes};
ghost use Rattle.std.specs.List.{AllByRecursion};
ghost use Rattle.std.specs.BTreeMap.{insert_entry};
ghost use Rattle.std.specs.List.Sorted.{IsStrictlySortedBy};
ghost use Rattle.std.specs.Map.{keys_of};
ghost use Rattle.command_core.specs.Destinations.{IsDestination};
ghost use Rattle.command_core.specs.Sendings.{IsKept};
ghost use Rattle.command_core.specs.Texts.{IsGiven};
ghost use Rattle.command_core.specs.PartSpellings.{AreBytes, AreTexts, IsSent, IsText, counted, optional, sending};
ghost use Rattle.broker_core.specs.Names.{Name, name_cmp};
ghost use Rattle.broker_core.specs.Sound.{IsSound};
ghost use Rattle.broker_core.specs.Waiting.{is_own, line_at};
ghost use Rattle.line_core.specs.declared.message.Message.{Message};
ghost use Rattle.broker_core.specs.Lists.{is_none};
ghost use Rattle.snapshot_core.specs.Parts.{spelled_by, written};
ghost use Rattle.snapshot_core.specs.Snapshots.{Spells, HasForm, IsDelivery, IsLine, IsMessage, IsName, IsSession, IsSubscription, listed, snapshot_of};
ghost use Rattle.snapshot_core.specs.Snapshots as spelled;
ghost use Rattle.snapshot_core.specs.Reading.{lines_of};

use broker_core::Broker;
use broker_state::{DurableName, GivenName, Subscription};
use broker_tables::SharedLines;
use command_core::{Dest, HeaderText, Sending, mode_byte, put_destination, put_sending, put_text};
use frame_core::Text;
use line_core::{Line, Message};
use std::alloc::{AllocError, Global};
use std::collections::BTreeMap;
use std::marker::Model;
use std::mem;

/// Writes the snapshot of a state in pieces, of any sizes. Contracts see the bytes that are still to come.
///
/// It knows the parts of the snapshot from the beginning, which take memory by their number. It writes each as it is asked
/// for: of the bytes no more are kept than those of one part.
#[derive(Drop)]
pub struct StateWriter<'a> {
    alloc: Global,
    parts: Vec<Part<'a>>,
    // How many parts are written, and what was not given of the last of these.
    at: usize,
    kept: Vec<u8>,
}

impl<'a> Model for StateWriter<'a> {
    ghost use Rattle.std.specs.Prelude.{List, ℕ, ◌++◌, ◌≤◌, drop, length};
    ghost use Rattle.snapshot_core.specs.Parts.{written};

    ghost Value = { List ℕ };

    ghost view = { λ a. a.kept.items ++ written (drop a.at a.parts.items) };

    ghost invariant = { λ a. a.at ≤ length a.parts.items };
}

impl<'a> StateWriter<'a> {
    /// A writer of the snapshot of a broker that is not broken, which is its one spelling. It fails only if memory is
    /// refused.
    pub fn new(alloc: Global, broker: &'a Broker) -> Result<StateWriter<'a>, AllocError>
        requires whole { broker.now.broken ≡ false }
        // Four bytes count them.
        requires few_sessions { length broker.now.state.sessions < 2 ^ 32 }
        requires few_subscriptions { length broker.now.state.subscriptions < 2 ^ 32 }
        ensures { IfOk result (λ writer. Spells writer broker.now.state) }
    {
        let mut parts = Vec::new(alloc);
        list_state(alloc, &mut parts, broker)?;
        Ok(StateWriter {
            alloc,
            parts,
            at: 0,
            kept: Vec::new(alloc),
        })
    }

    /// The next so many bytes, or all that are left if these are fewer. If memory is refused, the writer is as it was.
    pub fn next(&mut self, count: usize) -> Result<Vec<u8>, AllocError>
        ensures piece { IfOk result (λ piece. piece.items ≡ take count self.old) }
        ensures rest { OnOk result (self.new ≡ drop count self.old) }
        ensures same { OnErr result (self.new ≡ self.old) }
    {
        fill(self.alloc, &self.parts, &mut self.at, &mut self.kept, count)?;
        if self.kept.len() <= count {
            return Ok(mem::replace(&mut self.kept, Vec::new(self.alloc)));
        }
        let rest = self.kept.split_off(count)?;
        Ok(mem::replace(&mut self.kept, rest))
    }

    /// All bytes that are left.
    pub fn rest(self) -> Result<Vec<u8>, AllocError>
        ensures { IfOk result (λ rest. rest.items ≡ self.entry) }
    {
        let StateWriter {
            alloc,
            parts,
            mut at,
            mut kept,
        } = self;
        fill(alloc, &parts, &mut at, &mut kept, usize::MAX)?;
        prove!(kept.len() < usize::MAX);
        Ok(kept)
    }
}

// Writes parts until so many bytes are kept, or none is left to be written.
fn fill(
    alloc: Global,
    parts: &[Part<'_>],
    at: &mut usize,
    kept: &mut Vec<u8>,
    count: usize,
) -> Result<(), AllocError>
    requires { at.old ≤ length parts.now }
    ensures same { kept.new.items ++ written (drop at.new parts.now) ≡ kept.old.items ++ written (drop at.old parts.now) }
    ensures within { at.new ≤ length parts.now }
    ensures enough { OnOk result ((count ≤ length kept.new.items) ⊎ (at.new ≡ length parts.now)) }
{
    while kept.len() < count && *at < parts.len() {
        write_part(alloc, &parts[*at], kept)?;
        *at += 1;
    }
    Ok(())
}

// Writes a part after what is kept, which stays if memory is refused.
fn write_part(alloc: Global, part: &Part<'_>, kept: &mut Vec<u8>) -> Result<(), AllocError>
    ensures put { OnOk result (kept.new.items ≡ kept.old.items ++ spelled_by part.now) }
    ensures same { OnErr result (kept.new.items ≡ kept.old.items) }
{
    let mut bytes = Vec::new(alloc);
    put_part(&mut bytes, part)?;
    kept.append(&mut bytes)
}

/// The snapshot of the state of a broker that is not broken, which is its one spelling. It fails only if memory is refused.
pub fn encode_state(alloc: Global, broker: &Broker) -> Result<Vec<u8>, AllocError>
    requires whole { broker.now.broken ≡ false }
    // Four bytes count them.
    requires few_sessions { length broker.now.state.sessions < 2 ^ 32 }
    requires few_subscriptions { length broker.now.state.subscriptions < 2 ^ 32 }
    ensures { IfOk result (λ spelling. Spells spelling.items broker.now.state) }
{
    StateWriter::new(alloc, broker)?.rest()
}

#[tactic(auto, using(crate::proofs::Parts::one_more))]
fn add<'a>(parts: &mut Vec<Part<'a>>, part: Part<'a>) -> Result<(), AllocError>
    ensures { OnOk result (written parts.new.items ≡ written parts.old.items ++ spelled_by part.entry) }
{
    Ok(parts.push(part)?)
}

fn list_number(parts: &mut Vec<Part<'_>>, number: u64) -> Result<(), AllocError>
    ensures put { OnOk result (written parts.new.items ≡ written parts.old.items ++ to_be_bytes w64 number) }
    ensures form { number < 2 ^ 64 }
{
    add(parts, Part::Number(number))
}

fn list_place(parts: &mut Vec<Part<'_>>, place: u32) -> Result<(), AllocError>
    ensures put { OnOk result (written parts.new.items ≡ written parts.old.items ++ to_be_bytes w32 place) }
    ensures form { place < 2 ^ 32 }
{
    add(parts, Part::Count(place))
}

fn list_text<'a>(parts: &mut Vec<Part<'a>>, text: &'a HeaderText) -> Result<(), AllocError>
    ensures put { OnOk result (written parts.new.items ≡ written parts.old.items ++ counted text.now) }
    ensures form { IsText text.now }
{
    text.as_str();
    add(parts, Part::Text(text))
}

fn list_destination<'a>(parts: &mut Vec<Part<'a>>, destination: &'a Dest) -> Result<(), AllocError>
    ensures put { OnOk result (written parts.new.items ≡ written parts.old.items ++ counted destination.now) }
    ensures form { IsDestination destination.now }
{
    destination.as_str();
    add(parts, Part::Destination(destination))
}

// Texts and bytes are bytes. Nothing changes.
fn stand_as_bytes(bytes: &[u8])
    ensures { AreBytes bytes.now }
{}

fn stands_as_header(name: &Text, value: &Text)
    requires { IsKept (name.now, value.now) }
    ensures { AreTexts (name.now, value.now) }
{
    stand_as_bytes(name.as_str().as_bytes());
    stand_as_bytes(value.as_str().as_bytes());
}

fn stand_as_headers(headers: &[(Text, Text)])
    requires { AllByRecursion IsKept headers.now }
    ensures { AllByRecursion AreTexts headers.now }
{
    for (name, value) in headers {
        stands_as_header(name, value);
    }
}

// What is sent: destination, headers, body.
fn list_sending<'a>(parts: &mut Vec<Part<'a>>, sent: &'a Sending) -> Result<(), AllocError>
    ensures put { OnOk result (written parts.new.items ≡ written parts.old.items ++ sending sent.now) }
    ensures form { OnOk result (IsSent sent.now) }
{
    stand_as_headers(sent.headers().as_slice());
    stand_as_bytes(sent.body().as_slice());
    add(parts, Part::Sending(sent))
}

// How many follow, in four bytes.
fn list_count<'a>(parts: &mut Vec<Part<'a>>, count: usize) -> Result<(), AllocError>
    requires { count < 2 ^ 32 }
    ensures { OnOk result (written parts.new.items ≡ written parts.old.items ++ to_be_bytes w32 count) }
{
    add(parts, Part::Count(count as u32))
}

// A name that is given: its text.
fn list_given<'a>(parts: &mut Vec<Part<'a>>, name: &'a GivenName) -> Result<(), AllocError>
    ensures put { OnOk result (written parts.new.items ≡ written parts.old.items ++ counted name.now) }
    ensures form { IsText name.now }
    ensures given { 0 < length name.now }
{
    list_text(parts, name.as_text())
}

// The name of a session's client, which may be absent: the byte 0, or the byte 1 and its text.
fn list_client<'a>(
    parts: &mut Vec<Part<'a>>,
    client: &'a Option<GivenName>,
) -> Result<(), AllocError>
    ensures put { OnOk result (written parts.new.items ≡ written parts.old.items ++ optional client.now) }
    ensures form { OnOk result (IfSome client.now IsText × IsGiven client.now) }
{
    match client {
        None => add(parts, Part::Byte(0)),
        Some(name) => {
            add(parts, Part::Byte(1))?;
            list_given(parts, name)
        }
    }
}

// A message: the number of its command, its place there, what is sent.
fn list_message<'a>(parts: &mut Vec<Part<'a>>, message: &'a Message) -> Result<(), AllocError>
    ensures put { OnOk result (written parts.new.items ≡ written parts.old.items ++ spelled.message message.now) }
    ensures form { OnOk result (IsMessage message.now) }
{
    list_number(parts, message.number.command)?;
    list_place(parts, message.number.place)?;
    list_sending(parts, &message.sending)
}

// The messages that wait in one place.
fn list_line<'a>(parts: &mut Vec<Part<'a>>, line: &'a Line) -> Result<(), AllocError>
    requires { length line.now < 2 ^ 32 }
    ensures put { OnOk result (written parts.new.items ≡ written parts.old.items ++ spelled.line line.now) }
    ensures form { OnOk result (IsLine line.now) }
{
    list_count(parts, line.len())?;
    for at in 0..line.len() {
        list_message(parts, line.get(at).unwrap())?;
    }
    Ok(())
}

// The line under a durable name. If none stands there, it has no messages.
fn list_line_under<'a>(
    parts: &mut Vec<Part<'a>>,
    name: &'a DurableName,
    shared: &'a SharedLines,
) -> Result<(), AllocError>
    requires { length (line_at name_cmp name.now shared.now.names) < 2 ^ 32 }
    ensures put { OnOk result (written parts.new.items
        ≡ written parts.old.items ++ spelled.line (line_at name_cmp name.now shared.now.names)) }
    ensures form { OnOk result (IsLine (line_at name_cmp name.now shared.now.names)) }
{
    match shared.names().get(name) {
        Some(line) => list_line(parts, line),
        None => list_count(parts, 0),
    }
}

// An open session: its number, and the name of its client.
fn list_session<'a>(
    parts: &mut Vec<Part<'a>>,
    number: u64,
    client: &'a Option<GivenName>,
) -> Result<(), AllocError>
    ensures put { OnOk result (written parts.new.items ≡ written parts.old.items ++ spelled.session (number, client.now)) }
    ensures form { OnOk result (IsSession (number, client.now)) }
{
    list_number(parts, number)?;
    list_client(parts, client)
}

// The open sessions by rising number.
fn list_sessions<'a>(
    parts: &mut Vec<Part<'a>>,
    sessions: &'a BTreeMap<u64, Option<GivenName>>,
) -> Result<(), AllocError>
    requires { length sessions.now.entries < 2 ^ 32 }
    ensures put { OnOk result (written parts.new.items ≡ written parts.old.items ++ listed spelled.session sessions.now.entries) }
    ensures form { OnOk result (AllByRecursion IsSession sessions.now.entries) }
{
    list_count(parts, sessions.len())?;
    for (number, client) in sessions {
        list_session(parts, *number, client)?;
    }
    Ok(())
}

// A durable name: that of the client, that of the subscription, the topic, and the line.
fn list_durable<'a>(
    parts: &mut Vec<Part<'a>>,
    name: &'a DurableName,
    topic: &'a Dest,
    shared: &'a SharedLines,
) -> Result<(), AllocError>
    requires { length (line_at name_cmp name.now shared.now.names) < 2 ^ 32 }
    ensures put { OnOk result (written parts.new.items ≡ written parts.old.items ++ spelled.durable shared.now (name.now, topic.now)) }
    ensures form { OnOk result (IsName name.now × IsDestination topic.now) }
    ensures line { OnOk result (IsLine (line_at name_cmp name.now shared.now.names)) }
{
    list_given(parts, name.client())?;
    list_given(parts, name.name())?;
    list_destination(parts, topic)?;
    list_line_under(parts, name, shared)
}

// The durable names by rising name, with their lines.
fn list_durables<'a>(
    parts: &mut Vec<Part<'a>>,
    durables: &'a BTreeMap<DurableName, Dest>,
    shared: &'a SharedLines,
) -> Result<(), AllocError>
    requires few { length durables.now.entries < 2 ^ 32 }
    requires short { (name : Name) → length (line_at name_cmp name shared.now.names) < 2 ^ 32 }
    ensures put { OnOk result (written parts.new.items
        ≡ written parts.old.items ++ listed (spelled.durable shared.now) durables.now.entries) }
    ensures form { OnOk result (AllByRecursion (λ e. IsName e.0 × IsDestination e.1) durables.now.entries) }
    ensures lines { OnOk result
        (AllByRecursion (λ e. IsLine (line_at name_cmp e.0 shared.now.names)) durables.now.entries) }
{
    list_count(parts, durables.len())?;
    for (name, topic) in durables {
        list_durable(parts, name, topic, shared)?;
    }
    Ok(())
}

// A queue with messages: its destination, and the line.
fn list_queue<'a>(
    parts: &mut Vec<Part<'a>>,
    queue: &'a Dest,
    line: &'a Line,
) -> Result<(), AllocError>
    requires { length line.now < 2 ^ 32 }
    ensures put { OnOk result (written parts.new.items ≡ written parts.old.items ++ spelled.queue (queue.now, line.now)) }
    ensures form { OnOk result (IsDestination queue.now × IsLine line.now) }
{
    list_destination(parts, queue)?;
    list_line(parts, line)
}

// The queues with messages, by rising bytes.
fn list_queues<'a>(
    parts: &mut Vec<Part<'a>>,
    queues: &'a BTreeMap<Dest, Line>,
) -> Result<(), AllocError>
    requires few { length queues.now.entries < 2 ^ 32 }
    requires short { AllByRecursion (λ e. length e.1 < 2 ^ 32) queues.now.entries }
    ensures put { OnOk result (written parts.new.items ≡ written parts.old.items ++ listed spelled.queue queues.now.entries) }
    ensures form { OnOk result (AllByRecursion (λ e. IsDestination e.0 × IsLine e.1) queues.now.entries) }
{
    list_count(parts, queues.len())?;
    for (queue, line) in queues {
        list_queue(parts, queue, line)?;
    }
    Ok(())
}

// A delivery that is not acknowledged: its number, and the message.
fn list_delivery<'a>(
    parts: &mut Vec<Part<'a>>,
    number: u64,
    message: &'a Message,
) -> Result<(), AllocError>
    ensures put { OnOk result (written parts.new.items ≡ written parts.old.items ++ spelled.delivery (number, message.now)) }
    ensures form { OnOk result (IsDelivery (number, message.now)) }
{
    list_number(parts, number)?;
    list_message(parts, message)
}

// What a subscription has not acknowledged, by rising number.
fn list_deliveries<'a>(
    parts: &mut Vec<Part<'a>>,
    deliveries: &'a [(u64, Message)],
) -> Result<(), AllocError>
    requires { length deliveries.now < 2 ^ 32 }
    ensures put { OnOk result (written parts.new.items ≡ written parts.old.items ++ listed spelled.delivery deliveries.now) }
    ensures form { OnOk result (AllByRecursion IsDelivery deliveries.now) }
{
    list_count(parts, deliveries.len())?;
    for (number, message) in deliveries {
        list_delivery(parts, *number, message)?;
    }
    Ok(())
}

// A durable name has the form of one. Nothing changes.
fn stands_as_name(name: &DurableName)
    ensures { IsName name.now }
{
    name.client().as_text().as_str();
    name.name().as_text().as_str();
}

// The own part of a durable name, which a subscription may have.
fn list_own_name<'a>(
    parts: &mut Vec<Part<'a>>,
    durable: &'a Option<DurableName>,
) -> Result<(), AllocError>
    ensures put { OnOk result (written parts.new.items
        ≡ written parts.old.items ++ optional (option_map (λ (name : Name). name.1) durable.now)) }
    ensures form { OnOk result (IfSome durable.now IsName) }
{
    match durable {
        None => add(parts, Part::Byte(0)),
        Some(name) => {
            stands_as_name(name);
            add(parts, Part::Byte(1))?;
            list_given(parts, name.name())
        }
    }
}

// The line of a subscription's own. One that has none writes nothing.
fn list_own_line<'a>(parts: &mut Vec<Part<'a>>, sub: &'a Subscription) -> Result<(), AllocError>
    requires short { length sub.now.line < 2 ^ 32 }
    requires own { is_own sub.now ≡ false → sub.now.line ≡ [] }
    ensures put { OnOk result (written parts.new.items ≡ written parts.old.items ++ spelled.own_line sub.now) }
    ensures form { OnOk result (IsLine sub.now.line) }
{
    if sub.durable.is_some() || sub.destination.is_queue() {
        return Ok(());
    }
    list_line(parts, &sub.line)
}

// A subscription: the session, the id, the destination, a byte for the mode, its own part of a durable name, a line of
// its own, and what it has not acknowledged.
fn list_subscription<'a>(parts: &mut Vec<Part<'a>>, sub: &'a Subscription) -> Result<(), AllocError>
    requires short { length sub.now.line < 2 ^ 32 }
    requires few { length sub.now.unacknowledged < 2 ^ 32 }
    requires own { is_own sub.now ≡ false → sub.now.line ≡ [] }
    ensures put { OnOk result (written parts.new.items ≡ written parts.old.items ++ spelled.subscription sub.now) }
    ensures form { OnOk result (IsSubscription sub.now) }
{
    list_number(parts, sub.session)?;
    list_text(parts, &sub.id)?;
    list_destination(parts, &sub.destination)?;
    add(parts, Part::Byte(mode_byte(sub.mode)))?;
    list_own_name(parts, &sub.durable)?;
    list_own_line(parts, sub)?;
    list_deliveries(parts, sub.unacknowledged.as_slice())
}

// The subscriptions in waiting order.
fn list_subscriptions<'a>(
    alloc: Global,
    parts: &mut Vec<Part<'a>>,
    broker: &'a Broker,
) -> Result<(), AllocError>
    requires sound { IsSound broker.now.state }
    requires few { length broker.now.state.subscriptions < 2 ^ 32 }
    ensures put { OnOk result (written parts.new.items
        ≡ written parts.old.items ++ listed spelled.subscription broker.now.state.subscriptions) }
    ensures form { OnOk result (AllByRecursion IsSubscription broker.now.state.subscriptions) }
{
    let subs = broker.subscriptions(alloc)?;
    list_count(parts, subs.len())?;
    for at in 0..subs.len() {
        list_subscription(parts, subs[at])?;
    }
    Ok(())
}

/// All parts of the snapshot of a broker that is not broken.
pub(crate) fn list_state<'a>(
    alloc: Global,
    parts: &mut Vec<Part<'a>>,
    broker: &'a Broker,
) -> Result<(), AllocError>
    requires whole { broker.now.broken ≡ false }
    requires few_sessions { length broker.now.state.sessions < 2 ^ 32 }
    requires few_subscriptions { length broker.now.state.subscriptions < 2 ^ 32 }
    ensures put { OnOk result (written parts.new.items ≡ written parts.old.items ++ snapshot_of broker.now.state) }
    ensures sound { IsSound broker.now.state }
    ensures form { OnOk result (HasForm broker.now.state) }
{
    // So the state is one that a broker can have, and four bytes count its lines too.
    prove!(!broker.is_broken());
    let shared = broker.shared();
    list_number(parts, broker.count())?;
    list_number(parts, broker.next_delivery())?;
    list_sessions(parts, broker.sessions())?;
    list_durables(parts, broker.durables(), shared)?;
    list_queues(parts, shared.queues())?;
    list_subscriptions(alloc, parts, broker)
}

/// A part of a snapshot that is written at once: a number of eight bytes or of four, a byte, a text, a destination, or what
/// was sent. A message is three of these, so that no part grows with the state.
#[derive(Clone, Copy)]
pub enum Part<'a> {
    Number(u64),
    Count(u32),
    Byte(u8),
    Text(&'a HeaderText),
    Destination(&'a Dest),
    Sending(&'a Sending),
}

/// Writes a part at the end of bytes. If memory is refused, some of it may stay there.
pub(crate) fn put_part(out: &mut Vec<u8>, part: &Part<'_>) -> Result<(), AllocError>
    ensures { OnOk result (out.new.items ≡ out.old.items ++ spelled_by part.now) }
{
    match part {
        Part::Number(number) => out.extend_from_slice(&number.to_be_bytes()),
        Part::Count(count) => out.extend_from_slice(&count.to_be_bytes()),
        Part::Byte(byte) => Ok(out.push(*byte)?),
        Part::Text(text) => put_text(out, text),
        Part::Destination(destination) => put_destination(out, destination),
        Part::Sending(sending) => put_sending(out, sending),
    }
}

/// The topics of durable names, and the lines of those that have messages.
#[derive(Drop)]
pub struct NameTables {
    pub topics: BTreeMap<DurableName, Dest>,
    pub lines: BTreeMap<DurableName, Line>,
}

// Puts a line in under that name, unless nothing waits in it.
fn put_line(
    lines: &mut BTreeMap<DurableName, Line>,
    name: &DurableName,
    line: Line,
) -> Result<(), AllocError>
    ensures { OnOk result (lines.new.entries
        ≡ (if is_none line then lines.old.entries else insert_entry name_cmp lines.old.entries name.now line)) }
{
    if !line.is_empty() {
        lines.insert(name.clone()?, line)?;
    }
    Ok(())
}

/// The tables of names that stand by rising name, each with its topic and its line.
pub fn tables_of(
    alloc: Global,
    names: Vec<(DurableName, (Dest, Line))>,
) -> Result<NameTables, AllocError>
    requires { IsStrictlySortedBy name_cmp (keys_of names.items) }
    ensures topics { IfOk result (λ tables. tables.topics.entries
        ≡ map (λ (e : Name × (List ℕ × List Message)). (e.0, e.1.0)) names.items) }
    ensures lines { IfOk result (λ tables. tables.lines.entries ≡ lines_of names.items) }
{
    let mut topics = BTreeMap::new(alloc);
    let mut lines = BTreeMap::new(alloc);
    for (name, (topic, line)) in names {
        put_line(&mut lines, &name, line)?;
        topics.insert(name, topic)?;
    }
    Ok(NameTables { topics, lines })
}
