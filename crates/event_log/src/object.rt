//! Events as JSON objects.

ghost use Rattle.std.specs.Prelude.{◌≡◌, ◌++◌, IfOk, List, ℕ, OnOk};
ghost use Rattle.std.specs.Io.KnownBytes.{Appends};
ghost use Rattle.json_line.specs.Objects.{Adds, line_of as line_of_object};
ghost use Rattle.event_log.specs.Objects.{counted_members, crowd_members, deed_of, event_object, figures_members, head_members, journal_members, kind_of, limited_members, members_of, place_members, reason_of, size_members, start_members, stock_members, traffic_members, two_members, work_members, line_in};
ghost use Rattle.event_log.specs.Events.{line_of};

use crate::event::{Crowd, Event, Figures, Kind, SLOW, Start};
use jiff::Timestamp;
use json::Writer;
use json_line::{line_of, put_number, put_text};
use std::alloc::{AllocError, Global};
use std::io;
use std::io::Write;
use std::time::Duration;

/// The line of the object of an event.
pub(crate) fn object_line(alloc: Global, moment: &str, event: &Event) -> Result<Vec<u8>, AllocError>
    ensures { IfOk result (λ line. line.items ≡ line_of_object (event_object moment.now event.now)) }
{
    let mut out = Writer::new(Vec::new(alloc));
    put_event(&mut out, moment, event)?;
    line_of(out)
}

fn put_event(out: &mut Writer, moment: &str, event: &Event) -> Result<(), AllocError>
    ensures { Adds result out.old out.new (event_object moment.now event.now) }
{
    out.begin_object()?;
    put_head(out, moment, kind_of(event))?;
    put_members(out, event)?;
    out.end_object()
}

/// Adds when it came, and what it is.
pub(crate) fn put_head(out: &mut Writer, moment: &str, kind: &str) -> Result<(), AllocError>
    ensures { Adds result out.old out.new (head_members moment.now kind.now) }
{
    put_text(out, "time", moment)?;
    put_text(out, "kind", kind)
}

fn kind_of(event: &Event) -> &'static str
    ensures { result.now ≡ kind_of event.now }
{
    match event {
        Event::Started(_) => "started",
        Event::Small { .. } => "journal_small",
        Event::Compacted { won: _, millis } if *millis < SLOW => "compacted",
        Event::Compacted { .. } => "compacted_slowly",
        Event::NearlyFull { .. } => "journal_nearly_full",
        Event::Crowded(_) => "nearly_full",
        Event::Doing(_) => "doing",
        Event::Counted { kind, count: _ } => deed(*kind),
        Event::Errors { .. } => "errors",
        Event::Ending => "ending",
    }
}

fn put_members(out: &mut Writer, event: &Event) -> Result<(), AllocError>
    ensures { Adds result out.old out.new (members_of event.now) }
{
    match event {
        Event::Started(start) => put_start(out, *start),
        Event::Small { area, needed } => put_two(out, "area_bytes", *area, "needed_bytes", *needed),
        Event::Compacted { won, millis } => put_two(out, "won_bytes", *won, "millis", *millis),
        Event::NearlyFull { used, area } => put_two(out, "used_bytes", *used, "area_bytes", *area),
        Event::Crowded(crowd) => put_crowd(out, crowd),
        Event::Doing(figures) => put_figures(out, *figures),
        Event::Counted { kind, count } => put_counted(out, *kind, *count),
        Event::Errors { code, count } => put_two(out, "code", *code, "count", *count),
        Event::Ending => Ok(()),
    }
}

// Adds two members that are numbers.
fn put_two(
    out: &mut Writer,
    name: &str,
    value: u64,
    other_name: &str,
    other: u64,
) -> Result<(), AllocError>
    ensures { Adds result out.old out.new (two_members name.now value other_name.now other) }
{
    put_number(out, name, value)?;
    put_number(out, other_name, other)
}

fn put_start(out: &mut Writer, start: Start) -> Result<(), AllocError>
    ensures { Adds result out.old out.new (start_members start) }
{
    put_number(out, "version", 2)?;
    put_sizes(out, start)
}

fn put_sizes(out: &mut Writer, start: Start) -> Result<(), AllocError>
    ensures { Adds result out.old out.new (size_members start) }
{
    put_two(out, "area_bytes", start.area, "messages", start.messages)?;
    put_two(out, "clients", start.clients, "memory_bytes", start.memory)
}

fn put_figures(out: &mut Writer, figures: Figures) -> Result<(), AllocError>
    ensures { Adds result out.old out.new (figures_members figures) }
{
    put_traffic(out, figures)?;
    put_stock(out, figures)
}

// What clients do.
fn put_traffic(out: &mut Writer, it: Figures) -> Result<(), AllocError>
    ensures { Adds result out.old out.new (traffic_members it) }
{
    put_two(
        out,
        "connections",
        it.connections,
        "memory_bytes",
        it.memory,
    )?;
    put_work(out, it)
}

fn put_work(out: &mut Writer, it: Figures) -> Result<(), AllocError>
    ensures { Adds result out.old out.new (work_members it) }
{
    put_number(out, "commands", it.commands)?;
    put_two(out, "frames", it.frames, "errors", it.refused)
}

// What the broker and its journal hold.
fn put_stock(out: &mut Writer, it: Figures) -> Result<(), AllocError>
    ensures { Adds result out.old out.new (stock_members it) }
{
    put_two(out, "messages", it.messages, "bytes", it.held)?;
    put_journal(out, it)
}

fn put_journal(out: &mut Writer, it: Figures) -> Result<(), AllocError>
    ensures { Adds result out.old out.new (journal_members it) }
{
    put_number(out, "dead_letters", it.dead)?;
    put_two(
        out,
        "used_bytes",
        it.used,
        "commands_to_repeat",
        it.to_repeat,
    )
}

fn put_crowd(out: &mut Writer, crowd: &Crowd) -> Result<(), AllocError>
    ensures { Adds result out.old out.new (crowd_members crowd.now) }
{
    put_limited(out, crowd)?;
    put_place(out, crowd)
}

fn put_limited(out: &mut Writer, crowd: &Crowd) -> Result<(), AllocError>
    ensures { Adds result out.old out.new (limited_members crowd.now) }
{
    put_two(out, "messages", crowd.messages, "messages_limit", 4_096)?;
    put_two(out, "bytes", crowd.held, "bytes_limit", 16_777_216)
}

// Where most of them wait.
fn put_place(out: &mut Writer, crowd: &Crowd) -> Result<(), AllocError>
    ensures { Adds result out.old out.new (place_members crowd.now) }
{
    put_number(out, "most", crowd.most)?;
    put_text(out, "place", crowd.place.as_str())
}

fn put_counted(out: &mut Writer, kind: Kind, count: u64) -> Result<(), AllocError>
    ensures { Adds result out.old out.new (counted_members kind count) }
{
    put_text(out, "why", reason(kind))?;
    put_number(out, "count", count)
}

// What was done, and why.
fn deed(kind: Kind) -> &'static str
    ensures { result.now ≡ deed_of kind }
{
    match kind {
        Kind::Silent
        | Kind::TakesNothing
        | Kind::Unopened
        | Kind::TookMost
        | Kind::LongNames
        | Kind::FullOutbox => "gave_up",
        Kind::NotAccepted => "not_accepted",
        Kind::LeftOut => "left_out",
        _ => "refused",
    }
}

fn reason(kind: Kind) -> &'static str
    ensures { result.now ≡ reason_of kind }
{
    match kind {
        Kind::Malformed => "malformed",
        Kind::OtherProtocol => "other_protocol",
        Kind::Foreign => "other_origin",
        Kind::Method => "other_method",
        Kind::NoUpgrade => "no_websocket",
        Kind::Version => "other_version",
        Kind::TooLarge => "large_head",
        Kind::Full => "full",
        Kind::Silent => "silent",
        Kind::TakesNothing => "takes_nothing",
        Kind::Unopened => "no_session",
        Kind::TookMost => "most_memory",
        Kind::LongNames => "long_names",
        Kind::FullOutbox => "outbox_full",
        Kind::NotAccepted => "no_descriptors_or_memory",
        Kind::LeftOut => "unread",
    }
}

/// How lines are written.
#[derive(Clone, Copy, Debug)]
pub enum Form {
    /// As words.
    Text,
    /// As a JSON object.
    Object,
}

/// Writes the line of an event that came so long after the beginning of 1970. As words it has `stompd: `, the moment (RFC 3339, in UTC),
/// and what happened. If memory is refused for the moment, it is empty; if it is refused for an object, nothing is written, and the error
/// is `OutOfMemory`.
pub fn write_line<W: Write>(
    alloc: Global,
    form: Form,
    event: Event,
    since_1970: Duration,
    writer: &mut W,
) -> io::Result<()>
    ensures { OnOk result ((moment : List ℕ) × Appends (W.contents writer.old) (W.contents writer.new) (line_in form moment event)) }
{
    let moment = moment_text(alloc, since_1970);
    let written = match form {
        Form::Text => write_at(moment.as_str(), &event, writer),
        Form::Object => write_object(alloc, moment.as_str(), &event, writer),
    };
    drop(moment);
    drop(event);
    written
}

fn write_at<W: Write>(moment: &str, event: &Event, writer: &mut W) -> io::Result<()>
    ensures { OnOk result (Appends (W.contents writer.old) (W.contents writer.new) (line_of moment.now event.now)) }
{
    writeln!(writer, "stompd: {moment} {event}")
}

fn write_object<W: Write>(
    alloc: Global,
    moment: &str,
    event: &Event,
    writer: &mut W,
) -> io::Result<()>
    ensures { OnOk result (Appends (W.contents writer.old) (W.contents writer.new) (line_of_object (event_object moment.now event.now))) }
{
    let line = object_line(alloc, moment, event)?;
    let written = writer.write_all(line.as_slice());
    drop(line);
    written
}

/// The moment, or nothing if memory is refused.
pub(crate) fn moment_text(alloc: Global, since_1970: Duration) -> String {
    match moment_of(alloc, since_1970) {
        Ok(moment) => moment,
        Err(_) => String::new(alloc),
    }
}

// The moment in RFC 3339, section 5.6, in UTC and to the second.
fn moment_of(alloc: Global, since_1970: Duration) -> Result<String, AllocError> {
    let seconds = i64::try_from(since_1970.as_secs()).unwrap_or(0);
    match Timestamp::from_second(seconds) {
        Ok(moment) => format!(in alloc; "{moment}"),
        Err(_) => Ok(String::new(alloc)),
    }
}
