//! Why a server does not serve.

ghost use Rattle.std.specs.Prelude.{◌≡◌, ◌↔◌, IsTrue};
ghost use Rattle.event_log.specs.Devices.{cause_text};
ghost use Rattle.event_log.specs.Unopened.{reason_text, unopened, unopened_by};
ghost use Rattle.event_log.specs.Reopening.{IsTooFull, Reopens};

use area_core::AreaFault;
use disk_core::{DeviceCause, OpenError};
use flush_core::FlushFault;
use recover_core::OpenFault;
use std::alloc::AllocError;
use std::io::ErrorKind;
use std::{error, fmt};

/// The shortest pause before a journal is opened again, in seconds.
const SHORTEST: u64 = 1;

/// The longest one, in seconds. After a server that ran for so long the next pause is the shortest.
const LONGEST: u64 = 64;

/// Why a server was not started, or has ended. A journal that was opened holds all that was acknowledged.
#[derive(Debug, Drop)]
pub enum ServeFault {
    /// `/dev/null` was not opened, which keeps files from taking the numbers of closed standard streams. Nothing else was
    /// opened.
    Streams(Unopened),
    /// The file was not opened: it is missing, or another server has its lock, or the system refuses it.
    File(OpenError),
    /// The port was not opened: it is taken, or the system refuses it.
    Port(Unopened),
    /// The journal was not opened.
    Opening(OpenFault),
    /// Memory was refused while the server was started.
    Memory,
    /// The system starts no more threads, or refuses what threads wait on.
    Threads,
    /// The line with its port could not be written.
    Output,
    /// A step of the flusher failed: nothing more is acknowledged.
    Flushing(FlushFault),
    /// The disk failed, while the journal was opened or after that: nothing more is acknowledged.
    Device(DeviceCause),
}

/// The text for the user.
impl fmt::Display for ServeFault {
    ghost use Rattle.std.specs.Prelude.{Some};
    ghost use Rattle.event_log.specs.Faults.{serve_text};

    ghost output = { λ fault. Some (serve_text fault) };

    fn fmt<W: fmt::Write>(&self, f: &mut fmt::Formatter<W>) -> fmt::Result {
        match self {
            ServeFault::Streams(why) => write!(f, "cannot open: /dev/null: {}", why.text()),
            ServeFault::File(error) => write!(
                f,
                "cannot open: FILE: {}",
                Unopened::of(error).text()
            ),
            ServeFault::Port(why) => write!(f, "cannot open: PORT: {}", why.text()),
            ServeFault::Opening(fault) => write!(f, "{fault}"),
            ServeFault::Memory => f.write_str("no memory"),
            ServeFault::Threads => f.write_str("cannot start a thread"),
            ServeFault::Output => f.write_str("input or output failed"),
            ServeFault::Flushing(fault) => write!(f, "{fault}"),
            ServeFault::Device(cause) => write!(f, "J3 device failed: {}", cause_text(*cause)),
        }
    }
}

impl error::Error for ServeFault {}

impl From<AllocError> for ServeFault {
    fn from(_: AllocError) -> ServeFault {
        ServeFault::Memory
    }
}

// The words for the user.
pub(crate) fn cause_text(cause: DeviceCause) -> &'static str
    ensures { result.now ≡ cause_text cause }
{
    match cause {
        DeviceCause::Removed => "the file was removed",
        DeviceCause::Replaced => "the file was replaced",
        DeviceCause::Cut => "the file was cut",
        DeviceCause::Overwritten => "the file was overwritten",
        DeviceCause::NoSpace => "no space left",
        DeviceCause::InputOutput => "input/output error",
        DeviceCause::Refused => "the system refused a call",
    }
}

/// Why a file or a port was not opened, as far as that helps the user.
#[derive(Clone, Copy, Debug)]
pub enum Unopened {
    /// What was to be made exists already.
    Exists,
    /// There is no such file.
    Missing,
    /// Another server has the file's lock.
    Locked,
    /// The user has no right to it.
    Denied,
    /// It is a directory.
    Directory,
    /// It is a FIFO, a socket or a device.
    NotAFile,
    /// It would be larger than a file of this user or file system may be.
    TooLarge,
    /// Another program listens at the port.
    InUse,
    /// The system refuses it for another reason.
    Refused,
}

impl Unopened {
    /// Why a file was not opened.
    pub fn of(error: &OpenError) -> Unopened
        ensures { result ≡ unopened error.now }
    {
        match error {
            OpenError::Exists => Unopened::Exists,
            OpenError::Locked => Unopened::Locked,
            OpenError::NotAFile => Unopened::NotAFile,
            OpenError::System(error) => Unopened::by(error.kind()),
        }
    }

    /// Why the system did not open it.
    pub fn by(kind: ErrorKind) -> Unopened
        ensures { result ≡ unopened_by kind }
    {
        match kind {
            ErrorKind::NotFound => Unopened::Missing,
            ErrorKind::PermissionDenied => Unopened::Denied,
            ErrorKind::IsADirectory => Unopened::Directory,
            ErrorKind::FileTooLarge => Unopened::TooLarge,
            ErrorKind::AddrInUse => Unopened::InUse,
            _ => Unopened::Refused,
        }
    }

    /// The text for the user.
    pub fn text(self) -> &'static str
        ensures { result.now ≡ reason_text self }
    {
        match self {
            Unopened::Exists => "it is there already",
            Unopened::Missing => "there is no such file",
            Unopened::Locked => "another server has its lock",
            Unopened::Denied => "permission denied",
            Unopened::Directory => "it is a directory",
            Unopened::NotAFile => "it is no file",
            Unopened::TooLarge => "no file may be so large here",
            Unopened::InUse => "another program listens there",
            Unopened::Refused => "the system refuses it",
        }
    }
}

/// How long a journal rests before it is opened again. Opening makes room in a full one, since it ends all sessions.
#[derive(Clone, Copy)]
pub struct Reopening {
    // The next pause, in seconds, if no server runs for long.
    pause: u64,
}

impl Reopening {
    /// No server has run yet.
    pub fn new() -> Reopening
        ensures { result.pause ≡ SHORTEST }
    {
        Reopening { pause: SHORTEST }
    }

    /// After how many seconds the journal is opened again, of a server that ran for `ran` seconds and ended by this fault. `None` if it is
    /// not: only a running server whose journal is full is followed by another.
    pub fn after(&mut self, fault: &ServeFault, ran: u64) -> Option<u64>
        ensures { Reopens self.old self.new fault.now ran result }
    {
        let ServeFault::Flushing(FlushFault::Full) = fault else {
            return None;
        };
        let pause = if ran >= LONGEST { SHORTEST } else { self.pause };
        self.pause = pause.saturating_mul(2).min(LONGEST);
        Some(pause)
    }
}

/// Whether not even a start fits into the journal: what it holds takes more than half of it.
pub fn is_too_full(fault: &ServeFault) -> bool
    ensures { IsTrue result ↔ IsTooFull fault.now }
{
    matches!(fault, ServeFault::Opening(OpenFault::Area(AreaFault::Full)))
}
