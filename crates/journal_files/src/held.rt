//! Which queues and durable names hold messages, in lines or as an object.

ghost use Rattle.std.specs.Prelude.{◌≡◌, ◌+◌, ◌<◌, ◌^◌, ◌++◌, ◌∷◌, ◌≢◌, ◌-◌, [], IfErr, IfOk, OnOk, codes, false, length, map, string_bytes, take};
ghost use Rattle.std.specs.List.{flat_map, sum_by};
ghost use Rattle.broker_state.specs.Names.{name_cmp};
ghost use Rattle.broker_state.specs.States.{bytes};
ghost use Rattle.broker_state.specs.Waiting.{line_at};
ghost use Rattle.script_text.specs.PercentTexts.{encoded};
ghost use Rattle.journal_files.specs.Held.{AreLotsOf, ShowsHeld, ShowsHeldIn, ShowsHeldOf, gone_from, held_in, held_text, lot_line, name_text, names_waiting, queue_text, queues_waiting, topics_text, totals_text, waits_at, waits_of};
ghost use Rattle.std.specs.Io.KnownBytes.{Appends};
ghost use Rattle.area_core.specs.Reading.{Quiet};
ghost use Rattle.broker_state.specs.Operations.{restarted};
ghost use Rattle.journal_files.specs.HeldObjects.{ShowsHeldObject, ShowsHeldObjectIn, amount_members, durable_members, held_object, limited_members, line_members, name_object, names_member, queue_object, queues_member, topics_member, totals_members};
ghost use Rattle.json_line.specs.Objects.{Adds, WritesLine, line_of, object_of, text_member};

use crate::copying::steady_broker;
use crate::journal_files::{ShowFault, write_line};
use area_core::ReadFault;
use broker_core::Broker;
use broker_state::{DurableName, Held};
use command_core::Dest;
use disk_core::Disk;
use json::Writer;
use json_line::{begin_list, line_of, put_number, put_text};
use line_core::{Line, Message, size};
use recover_core::OpenFault;
use script_text::encode_text;
use std::alloc::{AllocError, Global};
use std::collections::BTreeMap;
use std::io;
use std::io::Write;

/// What waits in one place.
#[derive(Drop)]
pub struct Lot {
    /// How many messages.
    pub messages: usize,
    /// How many bytes they count for.
    pub bytes: u128,
    /// The place: `queue` and its destination, or `durable` and the names of client and subscription.
    pub place: String,
}

/// All that waits in lines that stay, place by place, most messages first. Each durable name is among them, whether anything waits under it
/// or not.
pub fn lots_of(alloc: Global, broker: &Broker) -> Result<Vec<Lot>, AllocError>
    ensures { IfOk result (λ lots. AreLotsOf broker.now.state lots.items) }
{
    let mut lots = Vec::new(alloc);
    match add_lots(alloc, &mut lots, broker) {
        Ok(()) => Ok(lots),
        Err(refused) => {
            drop(lots);
            Err(refused)
        }
    }
}

fn add_lots(alloc: Global, lots: &mut Vec<Lot>, broker: &Broker) -> Result<(), AllocError>
    requires { lots.old.items ≡ [] }
    ensures { OnOk result (AreLotsOf broker.now.state lots.new.items) }
{
    let shared = broker.shared();
    add_names(alloc, lots, broker.durables(), shared.names())?;
    add_queues(alloc, lots, shared.queues())?;
    lots.sort_by_key(|lot| usize::MAX - lot.messages)
}

fn add_names(
    alloc: Global,
    lots: &mut Vec<Lot>,
    durables: &BTreeMap<DurableName, Dest>,
    lines: &BTreeMap<DurableName, Line>,
) -> Result<(), AllocError>
    ensures { OnOk result (map waits_of lots.new.items ≡ map waits_of lots.old.items ++ names_waiting durables.now.entries lines.now.entries) }
{
    for (name, _topic) in durables {
        add_name(alloc, lots, name, lines)?;
    }
    Ok(())
}

// Adds what waits under a durable name, perhaps nothing.
fn add_name(
    alloc: Global,
    lots: &mut Vec<Lot>,
    name: &DurableName,
    lines: &BTreeMap<DurableName, Line>,
) -> Result<(), AllocError>
    ensures { OnOk result (map waits_of lots.new.items
        ≡ map waits_of lots.old.items ++ (waits_at (name_text name.now) (line_at name_cmp name.now lines.now.entries) ∷ [])) }
{
    let place = text_of_name(alloc, name)?;
    match lines.get(name) {
        Some(line) => add(lots, place, line),
        None => add(lots, place, &Line::new(alloc)),
    }
}

fn add_queues(
    alloc: Global,
    lots: &mut Vec<Lot>,
    lines: &BTreeMap<Dest, Line>,
) -> Result<(), AllocError>
    ensures { OnOk result (map waits_of lots.new.items ≡ map waits_of lots.old.items ++ queues_waiting lines.now.entries) }
{
    for (queue, line) in lines {
        add(lots, text_of_queue(alloc, queue)?, line)?;
    }
    Ok(())
}

fn add(lots: &mut Vec<Lot>, place: String, line: &Line) -> Result<(), AllocError>
    ensures { OnOk result (map waits_of lots.new.items ≡ map waits_of lots.old.items ++ (waits_at (string_bytes place) line.now ∷ [])) }
{
    let lot = Lot {
        messages: line.len(),
        bytes: bytes_of(line),
        place,
    };
    match lots.push(lot) {
        Ok(()) => Ok(()),
        Err(_) => Err(AllocError),
    }
}

// How many bytes the messages of a line count for. The sum fits, however long the line is.
pub(crate) fn bytes_of(line: &Line) -> u128
    ensures { result ≡ sum_by bytes line.now }
{
    let mut bytes = 0;
    for at in 0..line.len() {
        bytes += bytes_in(line.get(at).unwrap()) as u128;
    }
    bytes
}

fn bytes_in(message: &Message) -> usize
    ensures size { result ≡ bytes message.now }
    ensures small { result < 2097152 }
{
    size(&message.sending)
}

fn text_of_queue(alloc: Global, queue: &Dest) -> Result<String, AllocError>
    ensures { IfOk result (λ text. string_bytes text ≡ queue_text queue.now) }
{
    let mut text = String::from_str(alloc, "queue ")?;
    match encode_text(&mut text, queue.as_str().as_bytes()) {
        Ok(()) => Ok(text),
        Err(refused) => {
            drop(text);
            Err(refused)
        }
    }
}

fn text_of_name(alloc: Global, name: &DurableName) -> Result<String, AllocError>
    ensures { IfOk result (λ text. string_bytes text ≡ name_text name.now) }
{
    let mut text = String::from_str(alloc, "durable client-id:")?;
    match push_names(&mut text, name) {
        Ok(()) => Ok(text),
        Err(refused) => {
            drop(text);
            Err(refused)
        }
    }
}

fn push_names(text: &mut String, name: &DurableName) -> Result<(), AllocError>
    ensures { OnOk result (string_bytes text.new ≡ string_bytes text.old ++ (encoded name.now.0 ++ (codes " activemq.subscriptionName:" ++ encoded name.now.1))) }
{
    encode_text(text, name.client().as_text().as_str().as_bytes())?;
    text.push_str(" activemq.subscriptionName:")?;
    encode_text(text, name.name().as_text().as_str().as_bytes())
}

/// Writes what the journal of a disk holds: the totals with their limits, and then a line for each durable name, and for each queue for
/// which messages wait, most messages first. A line says how many messages, how many bytes, and for which queue or name. The last line has
/// what plain subscriptions of topics hold. The disk is only read, and may be that of a running server.
///
/// The totals are those that count against the limits. The lines are as they would be once all sessions had ended: what a client has not
/// acknowledged is in its line again. If the disk cannot be read as a journal, or memory is refused, nothing is written.
pub fn show_held<D: Disk, W: Write>(
    alloc: Global,
    disk: &mut D,
    writer: &mut W,
) -> Result<(), ShowFault>
    ensures shown { D.honest disk.old → OnOk result (ShowsHeldIn (D.content disk.old) (W.contents writer.old) (W.contents writer.new)) }
    ensures shows { OnOk result (ShowsHeld (W.contents writer.old) (W.contents writer.new)) }
    ensures err { IfErr result (λ fault. fault ≢ ShowFault.Output → writer.new ≡ writer.old) }
    ensures quiet { D.honest disk.old → Quiet D.Disk disk.old disk.new }
{
    match steady_broker(alloc, disk) {
        Ok(broker) => show_broker(alloc, broker, writer),
        Err(fault) => Err(fault),
    }
}

// Writes what a broker holds, and lets the broker go.
fn show_broker<W: Write>(alloc: Global, broker: Broker, writer: &mut W) -> Result<(), ShowFault>
    requires { broker.broken ≡ false }
    ensures shown { OnOk result (ShowsHeldOf broker.state (W.contents writer.old) (W.contents writer.new)) }
    ensures err { IfErr result (λ fault. fault ≢ ShowFault.Output → writer.new ≡ writer.old) }
{
    let mut broker = broker;
    let held = broker.held();
    let gathered = gather(alloc, &mut broker);
    drop(broker);
    match gathered {
        Ok((kept, lots)) => {
            let gone = Held {
                messages: held.messages.saturating_sub(kept.messages),
                bytes: held.bytes.saturating_sub(kept.bytes),
            };
            let written = write(&held, &gone, &lots, writer);
            drop(lots);
            match written {
                Ok(()) => Ok(()),
                Err(_) => Err(ShowFault::Output),
            }
        }
        Err(refused) => Err(ShowFault::Read(OpenFault::Read(ReadFault::Memory(refused)))),
    }
}

// Ends all sessions, and answers what is held then, and what waits in each place.
fn gather(alloc: Global, broker: &mut Broker) -> Result<(Held, Vec<Lot>), AllocError>
    requires { broker.old.broken ≡ false }
    ensures held { IfOk result (λ it. it.0 ≡ held_in (restarted broker.old.state)) }
    ensures lots { IfOk result (λ it. AreLotsOf (restarted broker.old.state) it.1.items) }
{
    match broker.restart(alloc) {
        Ok(()) => {
            let held = broker.held();
            let lots = lots_of(alloc, broker)?;
            Ok((held, lots))
        }
        Err(_) => Err(AllocError),
    }
}

// Writes the totals, the lots, and what goes with the sessions.
fn write<W: Write>(held: &Held, gone: &Held, lots: &[Lot], writer: &mut W) -> io::Result<()>
    ensures { OnOk result (Appends (W.contents writer.old) (W.contents writer.new) (held_text held.now gone.now lots.now)) }
{
    write_totals(held, writer)?;
    write_lots(lots, writer)?;
    writeln!(writer, "{} {} topics", gone.messages, gone.bytes)
}

fn write_totals<W: Write>(held: &Held, writer: &mut W) -> io::Result<()>
    ensures { OnOk result (Appends (W.contents writer.old) (W.contents writer.new) (totals_text held.now.messages held.now.bytes)) }
{
    writeln!(
        writer,
        "messages {} of 4096\nbytes {} of 16777216",
        held.messages, held.bytes
    )
}

fn write_lots<W: Write>(lots: &[Lot], writer: &mut W) -> io::Result<()>
    ensures { OnOk result (Appends (W.contents writer.old) (W.contents writer.new) (flat_map lot_line lots.now)) }
{
    for lot in lots {
        write_lot(lot, writer)?;
    }
    Ok(())
}

fn write_lot<W: Write>(lot: &Lot, writer: &mut W) -> io::Result<()>
    ensures { OnOk result (Appends (W.contents writer.old) (W.contents writer.new) (lot_line lot.now)) }
{
    writeln!(writer, "{} {} {}", lot.messages, lot.bytes, lot.place)
}

/// Writes what the journal of a disk holds, as one JSON object in one line: the totals with their limits, what waits in each queue and
/// under each durable name, by rising names, and what plain subscriptions of topics hold. The disk is only read, and may be that of a
/// running server.
///
/// The totals are those that count against the limits. The lines are as they would be once all sessions had ended. If the disk cannot be
/// read as a journal, or memory is refused, nothing is written.
pub fn show_held_object<D: Disk, W: Write>(
    alloc: Global,
    disk: &mut D,
    writer: &mut W,
) -> Result<(), ShowFault>
    ensures shown { D.honest disk.old → OnOk result (ShowsHeldObjectIn (D.content disk.old) (W.contents writer.old) (W.contents writer.new)) }
    ensures shows { OnOk result (ShowsHeldObject (W.contents writer.old) (W.contents writer.new)) }
    ensures err { IfErr result (λ fault. fault ≢ ShowFault.Output → writer.new ≡ writer.old) }
    ensures quiet { D.honest disk.old → Quiet D.Disk disk.old disk.new }
{
    match steady_broker(alloc, disk) {
        Ok(broker) => show_broker_object(alloc, broker, writer),
        Err(fault) => Err(fault),
    }
}

// Writes what a broker holds, and lets the broker go.
fn show_broker_object<W: Write>(
    alloc: Global,
    broker: Broker,
    writer: &mut W,
) -> Result<(), ShowFault>
    requires { broker.broken ≡ false }
    ensures shown { OnOk result (WritesLine (held_object broker.state) (W.contents writer.old) (W.contents writer.new)) }
    ensures err { IfErr result (λ fault. fault ≢ ShowFault.Output → writer.new ≡ writer.old) }
{
    let mut broker = broker;
    let line = line_of_broker(alloc, &mut broker);
    drop(broker);
    match line {
        Ok(line) => {
            let written = write_line(line.as_slice(), writer);
            drop(line);
            written
        }
        Err(refused) => Err(ShowFault::Read(OpenFault::Read(ReadFault::Memory(refused)))),
    }
}

// The line of what a broker holds. Its sessions end.
fn line_of_broker(alloc: Global, broker: &mut Broker) -> Result<Vec<u8>, AllocError>
    requires { broker.old.broken ≡ false }
    ensures { IfOk result (λ line. line.items ≡ line_of (held_object broker.old.state)) }
{
    let held = broker.held();
    match broker.restart(alloc) {
        Ok(()) => {}
        Err(_) => return Err(AllocError),
    }
    let kept = broker.held();
    let gone = Held {
        messages: held.messages.saturating_sub(kept.messages),
        bytes: held.bytes.saturating_sub(kept.bytes),
    };
    let mut out = Writer::new(Vec::new(alloc));
    put_object(alloc, &mut out, &held, &gone, broker)?;
    line_of(out)
}

// Adds the object of a broker whose sessions have ended.
fn put_object(
    alloc: Global,
    out: &mut Writer,
    held: &Held,
    gone: &Held,
    broker: &Broker,
) -> Result<(), AllocError>
    ensures { Adds result out.old out.new (object_of (totals_members held.now ++ (queues_member broker.now.state ++ (names_member broker.now.state ++ topics_member gone.now)))) }
{
    out.begin_object()?;
    put_totals(out, held)?;
    put_queues(out, broker)?;
    put_names(alloc, out, broker)?;
    put_topics(out, gone)?;
    out.end_object()
}

fn put_totals(out: &mut Writer, held: &Held) -> Result<(), AllocError>
    ensures { Adds result out.old out.new (totals_members held.now) }
{
    put_limited(out, "messages", held.messages, "messages_limit", 4_096)?;
    put_limited(out, "bytes", held.bytes, "bytes_limit", 16_777_216)
}

fn put_limited(
    out: &mut Writer,
    name: &str,
    value: u64,
    limit_name: &str,
    limit: u64,
) -> Result<(), AllocError>
    ensures { Adds result out.old out.new (limited_members name.now value limit_name.now limit) }
{
    put_number(out, name, value)?;
    put_number(out, limit_name, limit)
}

fn put_topics(out: &mut Writer, gone: &Held) -> Result<(), AllocError>
    ensures { Adds result out.old out.new (topics_member gone.now) }
{
    out.key("topics")?;
    out.begin_object()?;
    put_amount(out, gone.messages, gone.bytes)?;
    out.end_object()
}

fn put_amount(out: &mut Writer, messages: u64, held: u64) -> Result<(), AllocError>
    ensures { Adds result out.old out.new (amount_members messages held) }
{
    put_number(out, "messages", messages)?;
    put_number(out, "bytes", held)
}

// How much waits in a line. No memory has 2^64 bytes.
fn put_line(out: &mut Writer, line: &Line) -> Result<(), AllocError>
    ensures { Adds result out.old out.new (line_members line.now) }
{
    match u64::try_from(bytes_of(line)) {
        Ok(held) => put_amount(out, line.len() as u64, held),
        Err(_) => Err(AllocError),
    }
}

fn put_queues(out: &mut Writer, broker: &Broker) -> Result<(), AllocError>
    ensures { Adds result out.old out.new (queues_member broker.now.state) }
{
    begin_list(out, "queues")?;
    put_each_queue(out, broker.shared().queues())?;
    out.end_array()
}

fn put_each_queue(out: &mut Writer, lines: &BTreeMap<Dest, Line>) -> Result<(), AllocError>
    ensures { Adds result out.old out.new (flat_map queue_object lines.now.entries) }
{
    for (queue, line) in lines {
        put_queue(out, queue, line)?;
    }
    Ok(())
}

fn put_queue(out: &mut Writer, queue: &Dest, line: &Line) -> Result<(), AllocError>
    ensures { Adds result out.old out.new (queue_object (queue.now, line.now)) }
{
    out.begin_object()?;
    put_destination(out, queue)?;
    put_line(out, line)?;
    out.end_object()
}

fn put_destination(out: &mut Writer, destination: &Dest) -> Result<(), AllocError>
    ensures { Adds result out.old out.new (text_member (codes "destination") destination.now) }
{
    put_text(out, "destination", destination.as_str())
}

fn put_names(alloc: Global, out: &mut Writer, broker: &Broker) -> Result<(), AllocError>
    ensures { Adds result out.old out.new (names_member broker.now.state) }
{
    begin_list(out, "durables")?;
    put_each_name(alloc, out, broker.durables(), broker.shared().names())?;
    out.end_array()
}

fn put_each_name(
    alloc: Global,
    out: &mut Writer,
    durables: &BTreeMap<DurableName, Dest>,
    lines: &BTreeMap<DurableName, Line>,
) -> Result<(), AllocError>
    ensures { Adds result out.old out.new (flat_map (name_object lines.now.entries) durables.now.entries) }
{
    for (name, topic) in durables {
        put_name(alloc, out, name, topic, lines)?;
    }
    Ok(())
}

fn put_name(
    alloc: Global,
    out: &mut Writer,
    name: &DurableName,
    topic: &Dest,
    lines: &BTreeMap<DurableName, Line>,
) -> Result<(), AllocError>
    ensures { Adds result out.old out.new (name_object lines.now.entries (name.now, topic.now)) }
{
    out.begin_object()?;
    put_durable(out, name, topic)?;
    put_waiting(alloc, out, name, lines)?;
    out.end_object()
}

fn put_durable(out: &mut Writer, name: &DurableName, topic: &Dest) -> Result<(), AllocError>
    ensures { Adds result out.old out.new (durable_members (name.now, topic.now)) }
{
    put_client(out, name)?;
    put_own_name(out, name)?;
    put_destination(out, topic)
}

fn put_client(out: &mut Writer, name: &DurableName) -> Result<(), AllocError>
    ensures { Adds result out.old out.new (text_member (codes "client-id") name.now.0) }
{
    put_text(out, "client-id", name.client().as_text().as_str())
}

fn put_own_name(out: &mut Writer, name: &DurableName) -> Result<(), AllocError>
    ensures { Adds result out.old out.new (text_member (codes "activemq.subscriptionName") name.now.1) }
{
    put_text(
        out,
        "activemq.subscriptionName",
        name.name().as_text().as_str(),
    )
}

// What waits under a durable name, perhaps nothing.
fn put_waiting(
    alloc: Global,
    out: &mut Writer,
    name: &DurableName,
    lines: &BTreeMap<DurableName, Line>,
) -> Result<(), AllocError>
    ensures { Adds result out.old out.new (line_members (line_at name_cmp name.now lines.now.entries)) }
{
    match lines.get(name) {
        Some(line) => put_line(out, line),
        None => put_line(out, &Line::new(alloc)),
    }
}
