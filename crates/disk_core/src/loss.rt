//! What may have become of an open file: the decision, over what was read of the file and of its path.
ghost use Rattle.std.specs.Prelude.{◌≡◌, ◌↔◌, ◌<◌, ◌≤◌, IsTrue, Some, is_ok};
ghost use Rattle.disk_core.specs.Faults.{HasCause};
ghost use Rattle.disk_core.specs.Losses.{IsJudged, IsLoss, cause_by, expected, first_cause, header_after, noted};
ghost use Rattle.disk_core.specs.declared.loss.TheConstants.{HEADER_BYTES};

use crate::DeviceFault;
use crate::call::fail;
use std::fs::Metadata;
use std::io;
use std::io::ErrorKind;
use std::os::unix::fs::MetadataExt;

/// Why a call of a file's disk failed.
#[derive(Clone, Copy, Debug, PartialEq, Eq)]
pub enum DeviceCause {
    /// The path names nothing.
    Removed,
    /// The path names another file.
    Replaced,
    /// The file has fewer bytes than at its opening.
    Cut,
    /// The header is not the one that this process read at the opening or wrote last.
    Overwritten,
    /// The file system is full, or the user's quota is used up.
    NoSpace,
    /// The device failed to read or to write (`EIO`).
    InputOutput,
    /// The system refused the call for another reason.
    Refused,
}

/// How many bytes at the start of a file are compared: a journal's header.
pub const HEADER_BYTES: usize = 32;

/// A file, as the system numbers it.
#[derive(Clone, Copy, PartialEq, Eq)]
pub struct Node {
    device: u64,
    inode: u64,
}

impl Node {
    /// The file of that number on that device.
    pub fn new(device: u64, inode: u64) -> Node
        ensures { (result.device ≡ device) × (result.inode ≡ inode) }
    {
        Node { device, inode }
    }

    // The file that this was read of.
    pub(crate) fn of(there: &Metadata) -> Node {
        Node::new(there.dev(), there.ino())
    }

    fn is_same(self, other: Node) -> bool
        ensures { IsTrue result ↔ self ≡ other }
    {
        self.device == other.device && self.inode == other.inode
    }
}

/// What an open file should be found as: the file itself, its size at the opening, its header, and the first bytes of the last write, with
/// their offset and how many they are.
#[derive(Clone, Copy)]
pub struct Known {
    pub(crate) node: Node,
    pub(crate) size: u64,
    pub(crate) header: [u8; HEADER_BYTES],
    pub(crate) last: [u8; HEADER_BYTES],
    pub(crate) last_at: u64,
    pub(crate) last_count: usize,
}

/// What was found: the file that the path names, if it names one; and the open file's size, its header, and the bytes of the last
/// write.
#[derive(Clone, Copy)]
pub struct Found {
    pub(crate) named: Option<Node>,
    pub(crate) size: u64,
    pub(crate) header: [u8; HEADER_BYTES],
    pub(crate) last: [u8; HEADER_BYTES],
}

impl Known {
    /// A file of that size, with that header. Nothing was written yet.
    pub fn new(node: Node, size: u64, header: [u8; HEADER_BYTES]) -> Known
        ensures file { (result.node ≡ node) × (result.size ≡ size) × (result.header ≡ header) }
        ensures last { result.last_count ≡ 0 }
    {
        Known {
            node,
            size,
            header,
            last: [0; HEADER_BYTES],
            last_at: 0,
            last_count: 0,
        }
    }

    // Whether the file is long enough for a header.
    pub(crate) fn has_header(&self) -> bool
        ensures { IsTrue result ↔ (HEADER_BYTES ≤ self.now.size) }
    {
        self.size >= HEADER_BYTES as u64
    }

    // What is found if nothing has happened. A look writes over what it reads, and leaves the rest.
    pub(crate) fn expected(&self) -> Found
        ensures { result ≡ expected self.now }
    {
        Found {
            named: Some(self.node),
            size: self.size,
            header: self.header,
            last: self.last,
        }
    }

    // Notes that these bytes were written from the offset `at` on.
    pub(crate) fn note(&mut self, at: u64, bytes: &[u8])
        ensures { self.new ≡ noted at bytes.now self.old }
    {
        let mut last = [0; HEADER_BYTES];
        note(&mut last, 0, bytes);
        self.last = last;
        self.last_at = at;
        self.last_count = bytes.len().min(HEADER_BYTES);
        note(&mut self.header, at, bytes);
    }
}

// Writes over the header what of these bytes lies in it.
fn note(header: &mut [u8; HEADER_BYTES], at: u64, bytes: &[u8])
    ensures { header.new ≡ header_after at bytes.now header.old }
{
    if at < HEADER_BYTES as u64 {
        let at = at as usize;
        let count = bytes.len().min(HEADER_BYTES - at);
        header[at..at + count].copy_from_slice(&bytes[..count]);
    }
}

// Whether a write at that offset may change a header, of a file of that size.
pub(crate) fn touches_header(at: u64, size: u64) -> bool
    ensures { IsTrue result ↔ ((at < HEADER_BYTES) × (HEADER_BYTES ≤ size)) }
{
    at < HEADER_BYTES as u64 && size >= HEADER_BYTES as u64
}

// Whether the path names that file.
pub(crate) fn is_named(named: Option<Node>, node: Node) -> bool
    ensures { IsTrue result ↔ named ≡ Some node }
{
    match named {
        Some(named) => named.is_same(node),
        None => false,
    }
}

// Which loss has befallen the file, the first of those in their order, or none.
pub(crate) fn loss_of(found: &Found, known: &Known) -> Option<DeviceCause>
    ensures { IsLoss found.now known.now result }
{
    match found.named {
        None => Some(DeviceCause::Removed),
        Some(named) if !named.is_same(known.node) => Some(DeviceCause::Replaced),
        Some(_) if found.size < known.size => Some(DeviceCause::Cut),
        Some(_) if !is_same(&found.header, &known.header) => Some(DeviceCause::Overwritten),
        Some(_) if !is_same(&found.last, &known.last) => Some(DeviceCause::Overwritten),
        Some(_) => None,
    }
}

fn is_same(a: &[u8], b: &[u8]) -> bool
    ensures { IsTrue result ↔ a.now ≡ b.now }
{
    a == b
}

// The same, as a call's outcome.
pub(crate) fn judge(found: &Found, known: &Known) -> Result<(), DeviceCause>
    ensures { IsJudged found.now known.now result }
{
    match loss_of(found, known) {
        Some(cause) => Err(cause),
        None => Ok(()),
    }
}

// The number of `EIO`, an error of the device.
const EIO: i32 = 5;

// What an error of that kind stands for, from whether its number is that of `EIO`.
fn cause_by(kind: ErrorKind, is_eio: bool) -> DeviceCause
    ensures { result ≡ cause_by kind is_eio }
{
    match kind {
        ErrorKind::StorageFull | ErrorKind::QuotaExceeded => DeviceCause::NoSpace,
        ErrorKind::UnexpectedEof => DeviceCause::Cut,
        _ if is_eio => DeviceCause::InputOutput,
        _ => DeviceCause::Refused,
    }
}

impl From<io::Error> for DeviceCause {
    ghost use Rattle.disk_core.specs.Losses.{IsCauseOf};

    ghost from_gives = { IsCauseOf };

    fn from(error: io::Error) -> DeviceCause {
        cause_by(error.kind(), error.raw_os_error() == Some(EIO))
    }
}

// What became of a call, from its outcome. A failure is counted, and the cause of the first one is kept.
pub(crate) fn remember(
    outcome: Result<(), DeviceCause>,
    first: &mut Option<DeviceCause>,
    failures: &mut u64,
) -> Result<(), DeviceFault>
    ensures variant { is_ok result ≡ is_ok outcome }
    ensures cause { HasCause failures.old failures.new result }
    ensures first { first.new ≡ first_cause first.old outcome }
{
    let Err(cause) = outcome else {
        return Ok(());
    };
    if first.is_none() {
        *first = Some(cause);
    }
    fail(failures)
}
