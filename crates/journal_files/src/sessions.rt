//! Which sessions are open, in lines or as an object.

ghost use Rattle.std.specs.Prelude.{◌≡◌, ◌≢◌, ◌++◌, IfErr, IfOk, OnOk, codes, false, map};
ghost use Rattle.std.specs.Io.KnownBytes.{Appends};
ghost use Rattle.std.specs.List.{flat_map};
ghost use Rattle.area_core.specs.Reading.{Quiet};
ghost use Rattle.percent_encoding.specs.Iter.{encoded_text};
ghost use Rattle.script_text.specs.PercentTexts.{encoded};
ghost use Rattle.journal_files.specs.Sessions.{ShowsSessions, ShowsSessionsIn, mode_text, session_line, sessions_text, standing_text, subscription_line, target_text};
ghost use Rattle.json_line.specs.Objects.{Adds, WritesLine, line_of, list_member, object_of, option_member};
ghost use Rattle.journal_files.specs.SessionObjects.{ShowsSessionsObject, ShowsSessionsObjectIn, durable_name, session_object, sessions_object, standing_members, subscription_object, target_members};

use crate::copying::steady_broker;
use crate::journal_files::{ShowFault, write_line};
use area_core::ReadFault;
use broker_core::Broker;
use broker_state::{DurableName, GivenName, Subscription};
use command_core::{AckMode, Dest, HeaderText};
use disk_core::Disk;
use json::Writer;
use json_line::{begin_list, line_of, put_number, put_option, put_text};
use percent_encoding::PercentEncode;
use recover_core::OpenFault;
use script_text::encoded;
use std::alloc::{AllocError, Global};
use std::collections::BTreeMap;
use std::io;
use std::io::Write;

/// Writes the sessions of the journal of a disk that are open, and their subscriptions. Each session has a line, by rising number, and then
/// each subscription has one, the one that has waited longest first. The disk is only read, and may be that of a running server.
///
/// If the disk cannot be read as a journal, or memory is refused, nothing is written.
pub fn show_sessions<D: Disk, W: Write>(
    alloc: Global,
    disk: &mut D,
    writer: &mut W,
) -> Result<(), ShowFault>
    ensures shown { D.honest disk.old → OnOk result (ShowsSessionsIn (D.content disk.old) (W.contents writer.old) (W.contents writer.new)) }
    ensures shows { OnOk result (ShowsSessions (W.contents writer.old) (W.contents writer.new)) }
    ensures err { IfErr result (λ fault. fault ≢ ShowFault.Output → writer.new ≡ writer.old) }
    ensures quiet { D.honest disk.old → Quiet D.Disk disk.old disk.new }
{
    match steady_broker(alloc, disk) {
        Ok(broker) => show_open(alloc, &broker, writer),
        Err(fault) => Err(fault),
    }
}

// Writes the sessions of a broker.
fn show_open<W: Write>(alloc: Global, broker: &Broker, writer: &mut W) -> Result<(), ShowFault>
    ensures shown { OnOk result (Appends (W.contents writer.old) (W.contents writer.new) (sessions_text broker.now.state)) }
    ensures err { IfErr result (λ fault. fault ≢ ShowFault.Output → writer.new ≡ writer.old) }
{
    match broker.subscriptions(alloc) {
        Ok(subscriptions) => match write(broker.sessions(), subscriptions.as_slice(), writer) {
            Ok(()) => Ok(()),
            Err(_) => Err(ShowFault::Output),
        },
        Err(refused) => Err(ShowFault::Read(OpenFault::Read(ReadFault::Memory(refused)))),
    }
}

// Writes these sessions, and then these subscriptions.
fn write<W: Write>(
    sessions: &BTreeMap<u64, Option<GivenName>>,
    subscriptions: &[&Subscription],
    writer: &mut W,
) -> io::Result<()>
    ensures { OnOk result (Appends (W.contents writer.old) (W.contents writer.new)
        (flat_map session_line sessions.now.entries ++ flat_map (λ sub. subscription_line sub.now) subscriptions.now)) }
{
    write_sessions(sessions, writer)?;
    write_subscriptions(subscriptions, writer)
}

fn write_sessions<W: Write>(
    sessions: &BTreeMap<u64, Option<GivenName>>,
    writer: &mut W,
) -> io::Result<()>
    ensures { OnOk result (Appends (W.contents writer.old) (W.contents writer.new) (flat_map session_line sessions.now.entries)) }
{
    for (number, client) in sessions {
        write_session(*number, client, writer)?;
    }
    Ok(())
}

fn write_session<W: Write>(
    number: u64,
    client: &Option<GivenName>,
    writer: &mut W,
) -> io::Result<()>
    ensures { OnOk result (Appends (W.contents writer.old) (W.contents writer.new) (session_line (number, client.now))) }
{
    match client {
        None => writeln!(writer, "session {number}"),
        Some(name) => writeln!(writer, "session {number} client-id:{}", name_text(name)),
    }
}

// A name that a client gave, as it is written.
fn name_text(name: &GivenName) -> PercentEncode<'_>
    ensures { encoded_text result ≡ encoded name.now }
{
    encoded(name.as_text().as_str().as_bytes())
}

fn write_subscriptions<W: Write>(subscriptions: &[&Subscription], writer: &mut W) -> io::Result<()>
    ensures { OnOk result (Appends (W.contents writer.old) (W.contents writer.new) (flat_map (λ sub. subscription_line sub.now) subscriptions.now)) }
{
    for subscription in subscriptions {
        write_subscription(subscription, writer)?;
    }
    Ok(())
}

fn write_subscription<W: Write>(subscription: &Subscription, writer: &mut W) -> io::Result<()>
    ensures { OnOk result (Appends (W.contents writer.old) (W.contents writer.new) (subscription_line subscription.now)) }
{
    write_target(subscription, writer)?;
    write_standing(subscription, writer)
}

// Whose it is, and what it gets.
fn write_target<W: Write>(subscription: &Subscription, writer: &mut W) -> io::Result<()>
    ensures { OnOk result (Appends (W.contents writer.old) (W.contents writer.new) (target_text subscription.now)) }
{
    write!(
        writer,
        "subscription {} id:{} destination:{}",
        subscription.session,
        id_text(&subscription.id),
        destination_text(&subscription.destination)
    )
}

fn id_text(id: &HeaderText) -> PercentEncode<'_>
    ensures { encoded_text result ≡ encoded id.now }
{
    encoded(id.as_str().as_bytes())
}

fn destination_text(destination: &Dest) -> PercentEncode<'_>
    ensures { encoded_text result ≡ encoded destination.now }
{
    encoded(destination.as_str().as_bytes())
}

// How it gets it, and how far it has come.
fn write_standing<W: Write>(subscription: &Subscription, writer: &mut W) -> io::Result<()>
    ensures { OnOk result (Appends (W.contents writer.old) (W.contents writer.new) (standing_text subscription.now)) }
{
    let mode = text_of_mode(subscription.mode);
    let count = subscription.unacknowledged.len();
    match &subscription.durable {
        None => writeln!(writer, " ack:{mode} unacknowledged:{count}"),
        Some(name) => {
            let name = name_text(name.name());
            writeln!(
                writer,
                " ack:{mode} activemq.subscriptionName:{name} unacknowledged:{count}"
            )
        }
    }
}

pub(crate) fn text_of_mode(mode: AckMode) -> &'static str
    ensures { result.now ≡ mode_text mode }
{
    match mode {
        AckMode::Auto => "auto",
        AckMode::Client => "client",
        AckMode::ClientIndividual => "client-individual",
    }
}

/// Writes the sessions of the journal of a disk that are open, and their subscriptions, as one JSON object in one line. The sessions stand
/// by rising number, and of the subscriptions the one that has waited longest first. The disk is only read, and may be that of a running
/// server.
///
/// If the disk cannot be read as a journal, or memory is refused, nothing is written.
pub fn show_sessions_object<D: Disk, W: Write>(
    alloc: Global,
    disk: &mut D,
    writer: &mut W,
) -> Result<(), ShowFault>
    ensures shown { D.honest disk.old → OnOk result (ShowsSessionsObjectIn (D.content disk.old) (W.contents writer.old) (W.contents writer.new)) }
    ensures shows { OnOk result (ShowsSessionsObject (W.contents writer.old) (W.contents writer.new)) }
    ensures err { IfErr result (λ fault. fault ≢ ShowFault.Output → writer.new ≡ writer.old) }
    ensures quiet { D.honest disk.old → Quiet D.Disk disk.old disk.new }
{
    match steady_broker(alloc, disk) {
        Ok(broker) => show_open_object(alloc, &broker, writer),
        Err(fault) => Err(fault),
    }
}

// Writes the sessions of a broker.
fn show_open_object<W: Write>(
    alloc: Global,
    broker: &Broker,
    writer: &mut W,
) -> Result<(), ShowFault>
    ensures shown { OnOk result (WritesLine (sessions_object broker.now.state) (W.contents writer.old) (W.contents writer.new)) }
    ensures err { IfErr result (λ fault. fault ≢ ShowFault.Output → writer.new ≡ writer.old) }
{
    match line_of_broker(alloc, broker) {
        Ok(line) => {
            let written = write_line(line.as_slice(), writer);
            drop(line);
            written
        }
        Err(refused) => Err(ShowFault::Read(OpenFault::Read(ReadFault::Memory(refused)))),
    }
}

fn line_of_broker(alloc: Global, broker: &Broker) -> Result<Vec<u8>, AllocError>
    ensures { IfOk result (λ line. line.items ≡ line_of (sessions_object broker.now.state)) }
{
    let subscriptions = broker.subscriptions(alloc)?;
    let mut out = Writer::new(Vec::new(alloc));
    put_object(&mut out, broker.sessions(), subscriptions.as_slice())?;
    line_of(out)
}

fn put_object(
    out: &mut Writer,
    sessions: &BTreeMap<u64, Option<GivenName>>,
    subscriptions: &[&Subscription],
) -> Result<(), AllocError>
    ensures { Adds result out.old out.new (object_of (list_member (codes "sessions") (flat_map session_object sessions.now.entries)
        ++ list_member (codes "subscriptions") (flat_map subscription_object (map (λ sub. sub.now) subscriptions.now)))) }
{
    out.begin_object()?;
    put_sessions(out, sessions)?;
    put_subscriptions(out, subscriptions)?;
    out.end_object()
}

fn put_sessions(
    out: &mut Writer,
    sessions: &BTreeMap<u64, Option<GivenName>>,
) -> Result<(), AllocError>
    ensures { Adds result out.old out.new (list_member (codes "sessions") (flat_map session_object sessions.now.entries)) }
{
    begin_list(out, "sessions")?;
    put_each_session(out, sessions)?;
    out.end_array()
}

fn put_each_session(
    out: &mut Writer,
    sessions: &BTreeMap<u64, Option<GivenName>>,
) -> Result<(), AllocError>
    ensures { Adds result out.old out.new (flat_map session_object sessions.now.entries) }
{
    for (number, client) in sessions {
        put_session(out, *number, client)?;
    }
    Ok(())
}

fn put_session(out: &mut Writer, number: u64, client: &Option<GivenName>) -> Result<(), AllocError>
    ensures { Adds result out.old out.new (session_object (number, client.now)) }
{
    let name = match client {
        Some(client) => Some(client.as_text().as_str()),
        None => None,
    };
    out.begin_object()?;
    put_number(out, "session", number)?;
    put_option(out, "client-id", name)?;
    out.end_object()
}

fn put_subscriptions(out: &mut Writer, subscriptions: &[&Subscription]) -> Result<(), AllocError>
    ensures { Adds result out.old out.new (list_member (codes "subscriptions") (flat_map subscription_object (map (λ sub. sub.now) subscriptions.now))) }
{
    begin_list(out, "subscriptions")?;
    put_each_subscription(out, subscriptions)?;
    out.end_array()
}

fn put_each_subscription(
    out: &mut Writer,
    subscriptions: &[&Subscription],
) -> Result<(), AllocError>
    ensures { Adds result out.old out.new (flat_map subscription_object (map (λ sub. sub.now) subscriptions.now)) }
{
    for subscription in subscriptions {
        put_subscription(out, subscription)?;
    }
    Ok(())
}

fn put_subscription(out: &mut Writer, subscription: &Subscription) -> Result<(), AllocError>
    ensures { Adds result out.old out.new (subscription_object subscription.now) }
{
    out.begin_object()?;
    put_target(out, subscription)?;
    put_standing(out, subscription)?;
    out.end_object()
}

// Whose it is, and what it gets.
fn put_target(out: &mut Writer, subscription: &Subscription) -> Result<(), AllocError>
    ensures { Adds result out.old out.new (target_members subscription.now) }
{
    put_number(out, "session", subscription.session)?;
    put_text(out, "id", subscription.id.as_str())?;
    put_text(out, "destination", subscription.destination.as_str())
}

// How it gets it, and how far it has come.
fn put_standing(out: &mut Writer, subscription: &Subscription) -> Result<(), AllocError>
    ensures { Adds result out.old out.new (standing_members subscription.now) }
{
    put_text(out, "ack", text_of_mode(subscription.mode))?;
    put_durable(out, &subscription.durable)?;
    put_number(
        out,
        "unacknowledged",
        subscription.unacknowledged.len() as u64,
    )
}

// The name under which its messages are kept, if it has one.
fn put_durable(out: &mut Writer, durable: &Option<DurableName>) -> Result<(), AllocError>
    ensures { Adds result out.old out.new (option_member (codes "activemq.subscriptionName") (durable_name durable.now)) }
{
    let name = match durable {
        Some(name) => Some(name.name().as_text().as_str()),
        None => None,
    };
    put_option(out, "activemq.subscriptionName", name)
}
