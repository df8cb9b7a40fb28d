//! What the program reports of its server from outside it.

ghost use Rattle.std.specs.Prelude.{List, ℕ, OnOk, ◌≡◌, ◌++◌, IfOk};
ghost use Rattle.std.specs.Io.KnownBytes.{Appends};
ghost use Rattle.json_line.specs.Objects.{line_of as line_of_object, Adds};
ghost use Rattle.event_log.specs.Notices.{notice_line, notice_object, notice_kind, notice_members};

use crate::object::{Form, moment_text, put_head};
use json::Writer;
use json_line::{line_of, put_number, put_text};
use std::alloc::{AllocError, Global};
use std::io::Write;
use std::time::Duration;
use std::{fmt, io};

/// What the program reports of its server from outside it: how far its start is, and why it serves no more.
#[derive(Clone, Copy)]
pub enum Notice<'a> {
    /// The journal is being opened, for that many seconds so far.
    Opening { seconds: u64 },
    /// The journal was made in this file.
    Made(&'a str),
    /// The journal of a server that was full is opened again in that many seconds.
    Reopening { seconds: u64 },
    /// What the journal holds is too much for a start.
    TooFull,
    /// The fault by which the program serves no more, in its words.
    Fault(&'a str),
}

/// The words of its line.
impl fmt::Display for Notice<'_> {
    ghost use Rattle.std.specs.Prelude.{Some};
    ghost use Rattle.event_log.specs.Notices.{notice_text};

    ghost output = { λ notice. Some (notice_text notice) };

    fn fmt<W: fmt::Write>(&self, f: &mut fmt::Formatter<W>) -> fmt::Result {
        match self {
            Notice::Opening { seconds } => write!(f, "opening the journal, {seconds} s so far"),
            Notice::Made(file) => write!(f, "made the journal {file}"),
            Notice::Reopening { seconds } => write!(
                f,
                "opening the journal again in {seconds} s, which makes room"
            ),
            Notice::TooFull => f.write_str(
                "what the journal holds does not fit into half of it; docs/RUNNING.md says what helps",
            ),
            Notice::Fault(text) => f.write_str(text),
        }
    }
}

/// Writes the line of a notice that comes so long after the beginning of 1970. Only an object has the moment, which is empty if memory is
/// refused for it. If memory is refused for an object, nothing is written, and the error is `OutOfMemory`.
pub fn write_notice<W: Write>(
    alloc: Global,
    form: Form,
    notice: Notice<'_>,
    since_1970: Duration,
    writer: &mut W,
) -> io::Result<()>
    ensures { OnOk result ((moment : List ℕ) × Appends (W.contents writer.old) (W.contents writer.new) (notice_line form moment notice.entry)) }
{
    match form {
        Form::Text => writeln!(writer, "stompd: {notice}"),
        Form::Object => {
            let moment = moment_text(alloc, since_1970);
            let written = write_object(alloc, moment.as_str(), notice, writer);
            drop(moment);
            written
        }
    }
}

fn write_object<W: Write>(
    alloc: Global,
    moment: &str,
    notice: Notice<'_>,
    writer: &mut W,
) -> io::Result<()>
    ensures { OnOk result (Appends (W.contents writer.old) (W.contents writer.new) (line_of_object (notice_object moment.now notice.entry))) }
{
    let line = object_line(alloc, moment, notice)?;
    let written = writer.write_all(line.as_slice());
    drop(line);
    written
}

/// The line of the object of a notice.
pub(crate) fn object_line(
    alloc: Global,
    moment: &str,
    notice: Notice<'_>,
) -> Result<Vec<u8>, AllocError>
    ensures { IfOk result (λ line. line.items ≡ line_of_object (notice_object moment.now notice.entry)) }
{
    let mut out = Writer::new(Vec::new(alloc));
    put_notice(&mut out, moment, notice)?;
    line_of(out)
}

fn put_notice(out: &mut Writer, moment: &str, notice: Notice<'_>) -> Result<(), AllocError>
    ensures { Adds result out.old out.new (notice_object moment.now notice.entry) }
{
    out.begin_object()?;
    put_head(out, moment, kind_of(notice))?;
    put_members(out, notice)?;
    out.end_object()
}

fn kind_of(notice: Notice<'_>) -> &'static str
    ensures { result.now ≡ notice_kind notice.entry }
{
    match notice {
        Notice::Opening { .. } => "opening",
        Notice::Made(_) => "made",
        Notice::Reopening { .. } => "reopening",
        Notice::TooFull => "too_full",
        Notice::Fault(_) => "fault",
    }
}

fn put_members(out: &mut Writer, notice: Notice<'_>) -> Result<(), AllocError>
    ensures { Adds result out.old out.new (notice_members notice.entry) }
{
    match notice {
        Notice::Opening { seconds } => put_number(out, "seconds", seconds),
        Notice::Made(file) => put_text(out, "file", file),
        Notice::Reopening { seconds } => put_number(out, "seconds", seconds),
        Notice::TooFull => Ok(()),
        Notice::Fault(text) => put_text(out, "text", text),
    }
}
