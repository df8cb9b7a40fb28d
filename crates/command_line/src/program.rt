//! The program as a function of its words and streams.

ghost use Rattle.std.specs.Prelude.{◌≡◌, ◌≤◌, ◌⊎◌, IfErr, IfOk, OnOk, map};
ghost use Rattle.std.specs.Io.KnownBytes.{Appends};
ghost use Rattle.broker_core.specs.States.{empty_state};
ghost use Rattle.recover_core.specs.Standing.{Stands};
ghost use Rattle.command_line.specs.CommandLines.{AsksForScript};
ghost use Rattle.command_line.specs.Failures.{EndsByFault, FailsBy, Finishes, IsBeforehand, IsOfFile, IsOfScript, IsRefusal, IsTold, RunsToEnd, ShowsAs, ShowsHeldAs, ShowsSessionsAs, StopsBy, Tells, WritesText, file_text, line_of, server_text, status_of, unserved_text, version_line};
ghost use Rattle.command_line.specs.Versions.{IsNoteOf, WritesVersion};

use crate::making::{copy_journal, make_journal};
use crate::parsing::{Misread, Refused, Subcommand, failure_of, subcommand_of};
use crate::usage::matches_of;
use crate::viewing::FileView;
use crate::words::WordKind;
use area_core::{FormatFault, format};
use clap::error::ErrorKind;
use client_core::{Cause, ClientFault, Step};
use disk_core::{MemDisk, OpenError};
use engine_core::{ScriptFault, run_script};
use event_log::{ServeFault, Unopened};
use journal_files::{
    CopyFault, ShowFault, show, show_held, show_held_object, show_object, show_sessions,
    show_sessions_object,
};
use std::alloc::{AllocError, Global};
use std::convert::AsStr;
use std::fs::File;
use std::io;
use std::io::{Read, Write};
use std::rt::Files;
use std::time::Clock;

/// The status if the program did what it was asked for.
pub const DONE: u8 = 0;

/// The status if it could not do it.
pub const FAILED: u8 = 1;

/// The status of a ping whose server has all the clients that it takes.
pub const FULL: u8 = 3;

/// The status if the words ask for nothing that it does, or for help.
pub const BAD_COMMAND_LINE: u8 = 2;

/// How many bytes the disk of a script has.
const SCRIPT_DISK: u64 = 2_097_184;

/// How many bytes stand before the two areas of a journal.
const HEADER: u64 = 32;

/// Why a journal file was not made, or not shown.
#[derive(Drop)]
pub enum FileFault {
    /// The file could not be made or opened, or it is there already and was to be made.
    Open(OpenError),
    /// The folder is missing in which it was to be made.
    NoFolder,
    /// The file system has no room for all of the file. It is not there.
    NoSpace,
    /// Another process makes it: `FILE.new` is locked.
    BeingMade,
    /// `FILE.new` is there, and no run that was killed left it.
    Foreign,
    /// Its file system has no hard links, by which it would get its name.
    NoLinks,
    /// It would be too small for a journal, or no journal was written into it.
    Format(FormatFault),
    /// It was not shown.
    Show(ShowFault),
    /// It was not copied.
    Copy(CopyFault),
}

/// Why there is no body to send.
#[derive(Clone, Copy)]
pub enum BodyFault {
    /// None is given, and standard input is empty or closed.
    NoBody,
    /// It has more than 65,536 bytes.
    TooLong,
    /// A read failed.
    Input,
}

impl BodyFault {
    ghost use Rattle.std.specs.Prelude.{◌≡◌};
    ghost use Rattle.command_line.specs.Failures.{body_text};

    /// The text for the user.
    pub fn text(self) -> &'static str
        ensures { result.now ≡ body_text self }
    {
        match self {
            BodyFault::NoBody =>
                "no BODY is given, and standard input has none; '' sends an empty one",
            BodyFault::TooLong => "a body has at most 65536 bytes",
            BodyFault::Input => "input or output failed",
        }
    }
}

/// Why the program did not do what it was asked for.
#[derive(Drop)]
pub enum Failure<'a> {
    /// The words ask for nothing that the program does, or for help. The error holds the text for the user.
    CommandLine(clap::Error),
    /// This word is not what stands there.
    Word(WordKind, &'a str),
    /// The script did not run to its end, or memory was refused before it began.
    Script(ScriptFault),
    /// The script's disk was not formatted.
    Format(FormatFault),
    /// The journal in this file was not made, or not shown.
    File(&'a str, FileFault),
    /// The server of the journal in this file, at this port, was not started, or has ended.
    Server(&'a str, u16, ServeFault),
    /// A conversation was not finished.
    Client(ClientFault),
    /// What a client was to send was not read.
    Input(BodyFault),
    /// Standard output failed.
    Output,
}

impl Failure<'_> {
    /// The status that the program ends with.
    pub fn status(&self) -> u8
        ensures { result ≡ status_of self.now }
    {
        match self {
            Failure::CommandLine(_) | Failure::Word(_, _) => BAD_COMMAND_LINE,
            Failure::Script(_) | Failure::Format(_) | Failure::File(_, _) => FAILED,
            Failure::Server(_, _, _) | Failure::Client(_) => FAILED,
            Failure::Input(_) | Failure::Output => FAILED,
        }
    }
}

/// How the program ends.
#[derive(Drop)]
pub struct Ended {
    /// The status: 0 if it is done, 1 on a fault, 2 on a bad command line, 3 if the server is full, 4 if no message came in time.
    pub status: u8,
    /// Whether what there was to report could be written.
    pub told: io::Result<()>,
}

/// Does what the words ask for, of which the first is the program's name, unless that is a server or a ping; answers how it ended. A fault
/// and a bad command line are reported on `errors`; how far the making of a large file has come, on `progress`.
pub fn tool<T: Files<File = File> + Clock, S: AsStr, R: Read, W: Write, E: Write, P: Write>(
    rt: &T,
    alloc: Global,
    words: &[S],
    reader: &mut R,
    writer: &mut W,
    errors: &mut E,
    progress: &mut P,
) -> Ended
    ensures status { result.status ≤ 2 }
    // What the words ask for is done, and there is nothing to report. A script was read to its end, and what it prints is written.
    ensures done { result.status ≡ 0 → Finishes (map S.text words.now) (R.remaining reader.old) (R.remaining reader.new) (W.contents writer.old) (W.contents writer.new)
        × (errors.new ≡ errors.old) }
    // Words that ask for the script are no bad command line, and a bad one leaves the script unread and writes nothing.
    ensures refused { result.status ≡ 2 → (AsksForScript (map S.text words.now) → ⊥) × (reader.new ≡ reader.old) × (writer.new ≡ writer.old) }
    // A fault is the failure of what was asked for: the script's failure if the words ask for it. What was read and written is what that
    // leaves, and it is reported in one line.
    ensures failed { result.status ≡ 1 → EndsByFault (map S.text words.now) (R.remaining reader.old) (R.remaining reader.new) (W.contents writer.old) (W.contents writer.new)
        (E.contents errors.old) (E.contents errors.new) result.told }
{
    match run(rt, alloc, words, reader, writer, progress) {
        Ok(()) => Ended {
            status: DONE,
            told: Ok(()),
        },
        Err(failure) => end_by(&failure, errors),
    }
}

/// Does what the words ask for, of which the first is the program's name.
///
/// On a bad command line nothing is read or written. If the script stops, what was written is what the lines before the fault print,
/// unless it is the writer that failed.
pub fn run<'a, T: Files<File = File> + Clock, S: AsStr, R: Read, W: Write, P: Write>(
    rt: &T,
    alloc: Global,
    words: &'a [S],
    reader: &mut R,
    writer: &mut W,
    progress: &mut P,
) -> Result<(), Failure<'a>>
    ensures finishes { OnOk result (Finishes (map S.text words.now) (R.remaining reader.old) (R.remaining reader.new) (W.contents writer.old) (W.contents writer.new)) }
    ensures command_line { IfErr result (λ failure. status_of failure ≡ 2
        → (AsksForScript (map S.text words.now) → ⊥) × (reader.new ≡ reader.old) × (writer.new ≡ writer.old)) }
    ensures fails { IfErr result (FailsBy (map S.text words.now) (R.remaining reader.old) (R.remaining reader.new) (W.contents writer.old) (W.contents writer.new)) }
{
    match subcommand_of(alloc, words) {
        Ok(Subcommand::Script) => script(alloc, reader, writer),
        Ok(Subcommand::Version) => version(writer),
        Ok(Subcommand::Help) => help(alloc, words, writer),
        Ok(
            Subcommand::Format {
                file,
                bytes,
                is_sparse,
            },
        ) => match make_journal(alloc, rt, file, bytes, is_sparse, progress) {
            Ok(()) => Ok(()),
            Err(fault) => Err(Failure::File(file, fault)),
        },
        Ok(Subcommand::Show { file, is_json }) => show_file(alloc, rt, file, is_json, writer),
        Ok(Subcommand::Held { file, is_json }) => held_file(alloc, rt, file, is_json, writer),
        Ok(Subcommand::Sessions { file, is_json }) => {
            sessions_file(alloc, rt, file, is_json, writer)
        }
        Ok(
            Subcommand::Copy {
                file,
                copy,
                bytes,
                is_sparse,
            },
        ) => copy_journal(alloc, rt, file, copy, bytes, is_sparse, progress),
        // Only `main` may open sockets.
        Ok(Subcommand::Ping { .. }) => Err(Failure::Client(ClientFault {
            step: Step::Connection,
            cause: Cause::System,
        })),
        // A server has threads, which only `main` starts.
        Ok(Subcommand::Serve { file, port, .. }) => Err(Failure::Server(
            file,
            port,
            ServeFault::Threads,
        )),
        Err(refused) => Err(refused_words(alloc, words, refused)),
    }
}

// The failure by which words are refused.
fn refused_words<'a, S: AsStr>(alloc: Global, words: &'a [S], refused: Refused) -> Failure<'a>
    ensures { IsRefusal result }
{
    match refused {
        Refused::Words(error) => refusal(words, error),
        Refused::Number => failure_of(alloc, words, Misread::Number),
        Refused::Threads => failure_of(alloc, words, Misread::Threads),
        Refused::Memory => failure_of(alloc, words, Misread::Memory),
        Refused::New => failure_of(alloc, words, Misread::New),
        Refused::Origin => failure_of(alloc, words, Misread::Origin),
    }
}

// Writes the program's version.
fn version<'a, W: Write>(writer: &mut W) -> Result<(), Failure<'a>>
    ensures ok { OnOk result (Appends (W.contents writer.old) (W.contents writer.new) version_line) }
    ensures err { IfErr result (λ failure. failure ≡ Failure.Output) }
{
    match writer.write_all(b"stompd 0.2.0\n") {
        Ok(()) => Ok(()),
        Err(_) => Err(Failure::Output),
    }
}

// Writes the help that the words ask for.
fn help<'a, S: AsStr, W: Write>(
    alloc: Global,
    words: &'a [S],
    writer: &mut W,
) -> Result<(), Failure<'a>>
    ensures ok { OnOk result (WritesText (W.contents writer.old) (W.contents writer.new)) }
    ensures err { IfErr result (λ failure. (failure ≡ Failure.Output) ⊎ (IsRefusal failure × (writer.new ≡ writer.old))) }
{
    match help_text(alloc, words) {
        Ok(text) => {
            let written = writer.write_all(text.as_bytes());
            drop(text);
            match written {
                Ok(()) => Ok(()),
                Err(_) => Err(Failure::Output),
            }
        }
        Err(failure) => Err(failure),
    }
}

// The text of that help, which `clap` answers as an error.
fn help_text<'a, S: AsStr>(alloc: Global, words: &'a [S]) -> Result<String, Failure<'a>>
    ensures { IfErr result IsRefusal }
{
    let error = match matches_of(alloc, words) {
        Ok(matches) => {
            drop(matches);
            return Ok(String::new(alloc));
        }
        Err(error) => error,
    };
    if error.use_stderr() {
        return Err(refused_words(alloc, words, Refused::Words(error)));
    }
    let text = error.to_string(alloc);
    drop(error);
    match text {
        Ok(text) => Ok(text),
        Err(refused) => Err(Failure::Script(ScriptFault::Memory(refused))),
    }
}

// Writes what the journal in a file shows of itself. The file is only opened for reading, so it stays as it is.
fn show_file<'a, R: Files<File = File>, W: Write>(
    alloc: Global,
    rt: &R,
    path: &'a str,
    is_json: bool,
    writer: &mut W,
) -> Result<(), Failure<'a>>
    ensures ok { OnOk result (ShowsAs is_json (W.contents writer.old) (W.contents writer.new)) }
    ensures err { IfErr result (λ failure. IsOfFile failure (writer.new ≡ writer.old)) }
{
    let mut disk = match FileView::open(rt, path) {
        Ok(disk) => disk,
        Err(error) => return Err(Failure::File(path, FileFault::Open(error))),
    };
    let shown = if is_json {
        show_object(alloc, &mut disk, writer)
    } else {
        show(alloc, &mut disk, writer)
    };
    match shown {
        Ok(()) => Ok(()),
        Err(fault) => Err(Failure::File(path, FileFault::Show(fault))),
    }
}

// Writes which queues and durable names of the journal in a file hold messages. The file is only opened for reading.
fn held_file<'a, R: Files<File = File>, W: Write>(
    alloc: Global,
    rt: &R,
    path: &'a str,
    is_json: bool,
    writer: &mut W,
) -> Result<(), Failure<'a>>
    ensures ok { OnOk result (ShowsHeldAs is_json (W.contents writer.old) (W.contents writer.new)) }
    ensures err { IfErr result (λ failure. IsOfFile failure (writer.new ≡ writer.old)) }
{
    let mut disk = match FileView::open(rt, path) {
        Ok(disk) => disk,
        Err(error) => return Err(Failure::File(path, FileFault::Open(error))),
    };
    let shown = if is_json {
        show_held_object(alloc, &mut disk, writer)
    } else {
        show_held(alloc, &mut disk, writer)
    };
    match shown {
        Ok(()) => Ok(()),
        Err(fault) => Err(Failure::File(path, FileFault::Show(fault))),
    }
}

// Writes which sessions of the journal in a file are open. The file is only opened for reading.
fn sessions_file<'a, R: Files<File = File>, W: Write>(
    alloc: Global,
    rt: &R,
    path: &'a str,
    is_json: bool,
    writer: &mut W,
) -> Result<(), Failure<'a>>
    ensures ok { OnOk result (ShowsSessionsAs is_json (W.contents writer.old) (W.contents writer.new)) }
    ensures err { IfErr result (λ failure. IsOfFile failure (writer.new ≡ writer.old)) }
{
    let mut disk = match FileView::open(rt, path) {
        Ok(disk) => disk,
        Err(error) => return Err(Failure::File(path, FileFault::Open(error))),
    };
    let shown = if is_json {
        show_sessions_object(alloc, &mut disk, writer)
    } else {
        show_sessions(alloc, &mut disk, writer)
    };
    match shown {
        Ok(()) => Ok(()),
        Err(fault) => Err(Failure::File(path, FileFault::Show(fault))),
    }
}

/// Runs a script over a disk in memory, with an empty journal.
fn script<'a, R: Read, W: Write>(
    alloc: Global,
    reader: &mut R,
    writer: &mut W,
) -> Result<(), Failure<'a>>
    ensures ok { OnOk result (RunsToEnd (R.remaining reader.old) (R.remaining reader.new) (W.contents writer.old) (W.contents writer.new)) }
    ensures status { IfErr result (λ failure. status_of failure ≡ 1) }
    ensures of_script { IfErr result IsOfScript }
    ensures err { IfErr result (λ failure. StopsBy failure (R.remaining reader.old) (R.remaining reader.new) (W.contents writer.old) (W.contents writer.new)) }
{
    match empty_journal(alloc, SCRIPT_DISK) {
        Ok(disk) => {
            let (disk, ended) = run_script(alloc, reader, writer, disk);
            drop(disk);
            match ended {
                Ok(()) => Ok(()),
                Err(fault) => Err(Failure::Script(fault)),
            }
        }
        Err(failure) => Err(failure),
    }
}

/// A disk in memory of `size` bytes, with an empty journal.
fn empty_journal<'a>(alloc: Global, size: u64) -> Result<MemDisk, Failure<'a>>
    requires { 32 ≤ size }
    ensures empty { IfOk result (λ disk. Stands disk.content empty_state) }
    ensures err { IfErr result IsBeforehand }
{
    let mut disk = match MemDisk::new(alloc, size) {
        Ok(disk) => disk,
        Err(refused) => return Err(Failure::Script(ScriptFault::Memory(refused))),
    };
    match format(alloc, &mut disk, (size - HEADER) / 2) {
        Ok(()) => Ok(disk),
        Err(fault) => Err(Failure::Format(fault)),
    }
}

/// Why the words were refused. If memory was refused, that is reported as a script's failure. A port after `--port` has a text of its own.
pub fn refusal<'a, S: AsStr>(words: &'a [S], error: clap::Error) -> Failure<'a>
    ensures { Tells error result }
{
    match error.kind() {
        ErrorKind::OutOfMemory => Failure::Script(ScriptFault::Memory(AllocError)),
        ErrorKind::UnknownArgument if has_port_option(words) => {
            drop(error);
            Failure::Word(WordKind::PortOption, "--port")
        }
        _ => Failure::CommandLine(error),
    }
}

fn has_port_option<S: AsStr>(words: &[S]) -> bool {
    words.iter().any(|word| word.as_str() == "--port" || word.as_str().starts_with("--port="))
}

/// Tells a failure, and how the program ends by it. The text about the command line, or one line with the fault, is written to
/// `errors`.
pub fn end_by<E: Write>(failure: &Failure<'_>, errors: &mut E) -> Ended
    ensures status { result.status ≡ status_of failure.now }
    ensures told { OnOk result.told (IsTold failure.now (E.contents errors.old) (E.contents errors.new)) }
{
    let told = tell(failure, errors);
    Ended {
        status: failure.status(),
        told,
    }
}

// Tells the user. The error is the writer's.
fn tell<E: Write>(failure: &Failure<'_>, errors: &mut E) -> io::Result<()>
    ensures { OnOk result (IsTold failure.now (E.contents errors.old) (E.contents errors.new)) }
{
    match failure {
        Failure::CommandLine(error) => write!(errors, "{error}"),
        Failure::Word(kind, word) => writeln!(errors, "stompd: '{word}': {}", kind.text()),
        Failure::Script(fault) => writeln!(errors, "stompd: {fault}"),
        Failure::Format(fault) => writeln!(errors, "stompd: {fault}"),
        Failure::File(file, fault) => tell_file(file, fault, errors),
        Failure::Server(file, port, fault) => tell_server(file, *port, fault, errors),
        Failure::Client(fault) => writeln!(errors, "stompd: {fault}"),
        Failure::Input(fault) => writeln!(errors, "stompd: {}", fault.text()),
        Failure::Output => writeln!(errors, "stompd: input or output failed"),
    }
}

// Tells why a journal file was not made, or not shown.
fn tell_file<E: Write>(file: &str, fault: &FileFault, errors: &mut E) -> io::Result<()>
    ensures { OnOk result (Appends (E.contents errors.old) (E.contents errors.new) (line_of (file_text file.now fault.now))) }
{
    match fault {
        FileFault::Open(error) => writeln!(
            errors,
            "stompd: cannot open: {file}: {}",
            Unopened::of(error).text()
        ),
        FileFault::NoFolder => writeln!(
            errors,
            "stompd: cannot open: {file}: there is no such folder"
        ),
        FileFault::NoSpace => writeln!(errors, "stompd: no space left for the file"),
        FileFault::BeingMade => writeln!(
            errors,
            "stompd: cannot open: {file}.new: it is locked, since another stompd makes the file"
        ),
        FileFault::Foreign => writeln!(
            errors,
            "stompd: cannot open: {file}.new: it is there, and no unfinished journal; rename or remove it"
        ),
        FileFault::NoLinks => writeln!(
            errors,
            "stompd: cannot open: {file}: there are no hard links here; make it elsewhere, and move it"
        ),
        FileFault::Format(fault) => writeln!(errors, "stompd: {fault}"),
        FileFault::Show(fault) => writeln!(errors, "stompd: {fault}"),
        FileFault::Copy(fault) => writeln!(errors, "stompd: {fault}"),
    }
}

// Tells why a server was not started, or has ended.
fn tell_server<E: Write>(
    file: &str,
    port: u16,
    fault: &ServeFault,
    errors: &mut E,
) -> io::Result<()>
    ensures { OnOk result (Appends (E.contents errors.old) (E.contents errors.new) (line_of (server_text file.now port fault.now))) }
{
    match fault {
        ServeFault::File(error) => tell_unserved(file, Unopened::of(error), errors),
        ServeFault::Port(why) => writeln!(
            errors,
            "stompd: cannot open: port {port}: {}",
            why.text()
        ),
        _ => writeln!(errors, "stompd: {fault}"),
    }
}

// Tells why there is no journal to serve. If its file is missing, the command is named that makes one.
fn tell_unserved<E: Write>(file: &str, why: Unopened, errors: &mut E) -> io::Result<()>
    ensures { OnOk result (Appends (E.contents errors.old) (E.contents errors.new) (line_of (unserved_text file.now why))) }
{
    match why {
        Unopened::Missing => writeln!(
            errors,
            "stompd: cannot open: {file}: there is no such file; --new BYTES makes one"
        ),
        why => writeln!(errors, "stompd: cannot open: {file}: {}", why.text()),
    }
}

/// How many bytes stand behind the program's own, if it has a note.
pub const NOTE_BYTES: i64 = 64;

/// What a note begins with.
const MARK: &[u8] = b"stompd-built:";

/// Writes the program's number, and the note on what it was built from, if these last bytes of the program have one.
pub fn write_version<W: Write>(last: &[u8], writer: &mut W) -> io::Result<()>
    ensures { OnOk result (WritesVersion last.now (W.contents writer.old) (W.contents writer.new)) }
{
    writer.write_all(b"stompd 0.2.0")?;
    writer.write_all(note_of(last))?;
    writer.write_all(b"\n")
}

// The note that these bytes have, without the blanks behind it; nothing if they have none.
fn note_of(last: &[u8]) -> &[u8]
    ensures { IsNoteOf last.now result.now }
{
    if last.starts_with(MARK) {
        let (_, note) = last.split_at(MARK.len());
        note.trim_ascii_end()
    } else {
        &last[..0]
    }
}
