//! A disk in a real file.

ghost use Rattle.std.specs.Prelude.{◌≡◌, None, replicate, drop, take, IfOk, ⊤, []};
ghost use Rattle.disk_core.specs.File.{IsSameFile};
ghost use Rattle.disk_core.specs.declared.file.TheConstants.{SLACK_AT, SLACK_BYTES};
ghost use Rattle.disk_core.specs.Syncing.{AsksPath, SyncsBy, WritesBack};

use crate::loss::{Found, HEADER_BYTES, Known, Node, is_named, judge, remember, touches_header};
use crate::naming::{Look, Naming, Noted, Place, folder_of, stands};
use crate::synced_file::SyncedFile;
use crate::{DeviceCause, DeviceFault, Disk};
use std::alloc::Global;
use std::fs::{File, OpenOptions, TryLockError};
use std::io::{Seek, SeekFrom};
use std::os::unix::fs::{FileExt, OpenOptionsExt};
use std::rt::Files;
use std::{error, fmt, io};

/// From which byte of a file on some are written back by the first sync, and how many. In a journal's header they follow the selector, and are
/// never read.
pub const SLACK_AT: u64 = 17;

pub const SLACK_BYTES: u64 = 15;

/// Why a file is not opened as a disk.
#[derive(Debug, Drop)]
pub enum OpenError {
    /// What was to be made already exists, as a file or as something else.
    Exists,
    /// The file's lock is taken, or it is shared and the exclusive one was asked for.
    Locked,
    /// It is a FIFO, a socket or a device.
    NotAFile,
    /// The system refuses to open, make, lock, size or sync the file.
    System(io::Error),
}

/// The text for the user, the same for every cause, because the cause would not help.
impl fmt::Display for OpenError {
    ghost use Rattle.std.specs.Prelude.{Some};
    ghost use Rattle.disk_core.specs.File.{open_error_text};

    ghost output = { λ error. Some (open_error_text error) };

    fn fmt<W: fmt::Write>(&self, f: &mut fmt::Formatter<W>) -> fmt::Result {
        f.write_str("cannot open")
    }
}

impl error::Error for OpenError {}

impl From<io::Error> for OpenError {
    fn from(error: io::Error) -> Self {
        if error.kind() == io::ErrorKind::AlreadyExists {
            OpenError::Exists
        } else {
            OpenError::System(error)
        }
    }
}

/// A path of a file, and the system in which it has that path.
#[derive(Clone, Copy)]
pub struct FileAt<'a> {
    pub host: HostRuntime,
    pub path: &'a str,
}

/// A disk in a file of the operating system.
///
/// It claims nothing of its content and images, since no contract knows what a file holds: it is never honest. A sync
/// asks the system to have the bytes on the device (`fdatasync`); the size is there since the file was made. The first
/// one after opening also writes back some bytes of the header as they were read: after a sync that failed under an earlier process the header's
/// page may be on the way to the device no more. These bytes mean nothing, so that a loss of power may leave any in their place.
///
/// Nothing keeps another process from writing the file: a lock binds only those that ask for it. A read
/// fails if the file no longer has the range; a sync if the file was cut, or its path names nothing or another file. A write fails before it
/// begins if the first bytes of the last write are others now; one that changes the header, also if the header isn't what was read at the
/// opening or written last. `look` looks for all of these. The cause of the first failure is kept.
#[derive(Drop)]
pub struct FileDisk {
    open: OpenFile,
    known: Known,
    failures: u64,
    cause: Option<DeviceCause>,
    kept: SyncKept,
}

// The bytes of the header that are written back.
pub(crate) fn slack_of(header: &[u8; HEADER_BYTES]) -> &[u8]
    ensures { result.now ≡ take SLACK_BYTES (drop SLACK_AT header.now) }
{
    let (at, count) = (SLACK_AT as usize, SLACK_BYTES as usize);
    &header[at..at + count]
}

impl FileDisk {
    ghost use Rattle.disk_core.specs.File.{file_cause, file_failures, file_size};

    /// Makes a file of `size` zeros, which only its owner may read and write, and syncs it and its name to the device.
    /// A file that already exists is left as it is. If the new file cannot be sized or synced, it is removed again.
    pub fn create<R: Files<File = File>>(
        rt: &R,
        path: &str,
        size: u64,
    ) -> Result<FileDisk, OpenError>
        ensures size { IfOk result (λ disk. file_size disk ≡ size) }
        ensures failures { IfOk result (λ disk. file_failures disk ≡ 0) }
    {
        let file = OpenOptions::new()
            .read(true)
            .write(true)
            .create_new(true)
            .mode(0o600)
            .open(rt, path)?;
        match settle(rt, &file, path, size) {
            Ok(node) => {
                let known = Known::new(node, size, [0; HEADER_BYTES]);
                Ok(FileDisk::with(file, known, false, Naming::by_links()))
            }
            Err(error) => {
                let _ = std::fs::remove_file(rt, path);
                Err(OpenError::System(error))
            }
        }
    }

    /// Opens an existing file for reading and writing, as a disk of the size that it has now.
    pub fn open<R: Files<File = File>>(rt: &R, path: &str) -> Result<FileDisk, OpenError>
        ensures { IfOk result (λ disk. file_failures disk ≡ 0) }
    {
        FileDisk::over(opened(rt, path)?, Naming::by_links())
    }

    /// The same, with the file's exclusive lock, taken before the file's size and its first bytes are read. The error is `Locked` if the
    /// lock is taken: then nothing of the file is read. The lock belongs to the open file that the disk reads and writes, so it lasts as long as
    /// the disk. Nothing of the file is written. If the file is not opened, no lock is kept. The disk fails once the path names another file, or
    /// nothing.
    pub fn open_locked(alloc: Global, at: FileAt<'_>) -> Result<FileDisk, OpenError>
        ensures { IfOk result (λ disk. file_failures disk ≡ 0) }
    {
        let place = match Place::of(alloc, at.host, at.path) {
            Ok(place) => place,
            Err(refused) => return Err(OpenError::System(io::Error::from(refused))),
        };
        let file = opened(&at.host, at.path)?;
        match file.try_lock() {
            Ok(()) => FileDisk::over(file, Naming::at(place)),
            Err(TryLockError::WouldBlock) => Err(OpenError::Locked),
            Err(TryLockError::Error(error)) => Err(OpenError::System(error)),
        }
    }

    // A disk in that file, of the size that it has now.
    fn over(file: File, naming: Naming) -> Result<FileDisk, OpenError>
        ensures { IfOk result (λ disk. file_failures disk ≡ 0) }
    {
        let there = file.metadata()?;
        if !there.is_file() {
            return Err(OpenError::NotAFile);
        }
        let size = there.len();
        let has_header = size >= HEADER_BYTES as u64;
        let mut header = [0; HEADER_BYTES];
        if has_header {
            file.read_exact_at(&mut header, 0)?;
        }
        let known = Known::new(Node::of(&there), size, header);
        Ok(FileDisk::with(file, known, has_header, naming))
    }

    // A disk none of whose calls has failed.
    fn with(file: File, known: Known, is_stale: bool, naming: Naming) -> FileDisk
        ensures { (file_failures result ≡ 0) × (file_size result ≡ known.size) × (file_cause result ≡ None) }
    {
        FileDisk {
            open: OpenFile { file, naming },
            known,
            failures: 0,
            cause: None,
            kept: SyncKept::new(is_stale),
        }
    }

    /// The cause of the first call that failed.
    pub fn cause(&self) -> Option<DeviceCause>
        ensures { result ≡ file_cause self.now }
    {
        self.cause
    }

    /// Looks whether the path still names the file, and whether the file has all of its bytes, the header that was read at the opening or
    /// written last, and the first bytes of the last write. The cause if not, or if the system refuses a look. It is counted as no failure.
    pub fn look(&self) -> Result<(), DeviceCause> {
        judge(&self.open.found(&self.known)?, &self.known)
    }

    /// Writes bytes where the file may have no room yet, and tells what the system refuses. All else is as with `write_at`.
    pub fn fill_at(&mut self, at: u64, bytes: &[u8]) -> io::Result<()>
        ensures size { file_size self.new ≡ file_size self.old }
        ensures failures { file_failures self.new ≡ file_failures self.old }
    {
        self.open.file.write_all_at(bytes, at)
    }

    // Writes, after a look at what was written before.
    fn write_known(&mut self, at: u64, bytes: &[u8]) -> Result<(), DeviceCause>
        ensures { IsSameFile self.old self.new }
    {
        self.open
            .compare(&self.known, touches_header(at, self.known.size))?;
        self.open.file.write_all_at(bytes, at)?;
        self.known.note(at, bytes);
        Ok(())
    }

    // Makes what was written stable, and looks whether the file is still whole.
    fn sync_and_look(&mut self) -> Result<(), DeviceCause>
        ensures { IsSameFile self.old self.new }
    {
        sync_by(&mut self.open, &self.known, &mut self.kept)
    }
}

// The existing file, opened for reading and writing.
fn opened<R: Files<File = File>>(rt: &R, path: &str) -> io::Result<File> {
    OpenOptions::new().read(true).write(true).open(rt, path)
}

// Sizes a new file, and syncs it and the folder that has its name. Answers which file it is.
fn settle<R: Files<File = File>>(rt: &R, file: &File, path: &str, size: u64) -> io::Result<Node> {
    file.set_len(size)?;
    file.sync_all()?;
    File::open(rt, folder_of(path))?.sync_all()?;
    Ok(Node::of(&file.metadata()?))
}

impl Disk for FileDisk {
    // Only its length has a meaning.
    ghost content = { λ f. replicate f.known.size 0 };

    ghost images = { λ _ _. ⊤ };

    ghost moment = { λ _. 0 };

    ghost images_since = { λ _ _ _. ⊤ };

    ghost failures = { λ f. f.failures };

    ghost honest = { λ _. ⊥ };

    ghost reads = { λ f honest. absurd honest };

    ghost sizes = { λ f c honest _. absurd honest };

    ghost counts_now = { λ f t c _ _. tt };

    ghost only_now = { λ f c _. tt };

    fn size(&self) -> u64 {
        self.known.size
    }

    fn read_at(&mut self, at: u64, into: &mut [u8]) -> Result<(), DeviceFault> {
        let outcome = as_cause(self.open.file.read_exact_at(into, at));
        remember(outcome, &mut self.cause, &mut self.failures)
    }

    fn write_at(&mut self, at: u64, bytes: &[u8]) -> Result<(), DeviceFault> {
        let outcome = self.write_known(at, bytes);
        remember(outcome, &mut self.cause, &mut self.failures)
    }

    fn sync(&mut self) -> Result<(), DeviceFault> {
        let outcome = self.sync_and_look();
        remember(outcome, &mut self.cause, &mut self.failures)
    }
}

// The outcome, with the cause of the error.
fn as_cause(outcome: io::Result<()>) -> Result<(), DeviceCause> {
    match outcome {
        Ok(()) => Ok(()),
        Err(error) => Err(DeviceCause::from(error)),
    }
}

/// An open file, and what its path is.
#[derive(Drop)]
pub(crate) struct OpenFile {
    pub(crate) file: File,
    pub(crate) naming: Naming,
}

impl OpenFile {
    // What the file and its path are found as.
    pub(crate) fn found(&self, known: &Known) -> io::Result<Found> {
        let mut found = known.expected();
        found.named = self.naming.look(&self.file, known.node)?;
        found.size = self.file.metadata()?.len();
        if known.has_header() {
            self.file.read_exact_at(&mut found.header, 0)?;
        }
        self.read_last(known, &mut found.last)?;
        Ok(found)
    }

    // Compares the bytes of the last write with what they read as now, and the header if it is to be.
    pub(crate) fn compare(&self, known: &Known, with_header: bool) -> Result<(), DeviceCause> {
        let mut found = known.expected();
        self.read_last(known, &mut found.last)?;
        if with_header {
            self.file.read_exact_at(&mut found.header, 0)?;
        }
        judge(&found, known)
    }

    // Reads the first bytes of the last write, as they are now.
    fn read_last(&self, known: &Known, last: &mut [u8; HEADER_BYTES]) -> io::Result<()> {
        let count = known.last_count.min(HEADER_BYTES);
        self.file.read_exact_at(&mut last[..count], known.last_at)
    }
}

/// It claims nothing of its events, since no contract knows what a file holds.
impl SyncedFile for OpenFile {
    ghost events = { λ _. [] };

    ghost failures = { λ _. 0 };

    ghost honest = { λ _. ⊥ };

    fn write_back(&mut self, known: &Known) -> Result<(), DeviceCause> {
        self.compare(known, true)?;
        self.file.write_all_at(slack_of(&known.header), SLACK_AT)?;
        Ok(())
    }

    fn make_stable(&mut self) -> Result<(), DeviceCause> {
        Ok(self.file.sync_data()?)
    }

    fn measure(&mut self) -> Result<u64, DeviceCause> {
        Ok(self.file.seek(SeekFrom::End(0))?)
    }

    fn folder_changed(&mut self) -> Result<Option<Noted>, DeviceCause> {
        Ok(self.naming.folder_changed()?)
    }

    fn named(&mut self, node: Node) -> Result<Option<Node>, DeviceCause> {
        Ok(self.naming.look(&self.file, node)?)
    }

    fn written_at(&mut self) -> Result<Noted, DeviceCause> {
        Ok(Noted::of(&self.file.metadata()?))
    }
}

/// What a file's disk keeps from sync to sync.
#[derive(Drop)]
pub struct SyncKept {
    // Whether no bytes were written back since the file was opened.
    pub(crate) is_stale: bool,
    // The last look at the path, as far as it still shows that the path names the file.
    pub(crate) last: Option<Look>,
}

impl SyncKept {
    /// Nothing was synced since the file was opened. It is stale if bytes of its header are to be written back.
    pub fn new(is_stale: bool) -> SyncKept
        ensures { result ≡ record { is_stale = is_stale; last = None } }
    {
        SyncKept {
            is_stale,
            last: None,
        }
    }
}

/// Writes back what is stale, makes all stable, and then looks whether the file still has all of its bytes, and whether its path still names
/// it. The folder is looked at before the path, and the path before the file's time, so that no change between two looks is missed.
pub fn sync_by<F: SyncedFile>(
    file: &mut F,
    known: &Known,
    kept: &mut SyncKept,
) -> Result<(), DeviceCause>
    ensures { F.honest file.old → SyncsBy F.SyncedFile file.old file.new known.now kept.old kept.new result }
{
    write_back_if_stale(file, known, &mut kept.is_stale)?;
    file.make_stable()?;
    let mut found = known.expected();
    found.size = file.measure()?;
    found.named = named_by(file, known.node, &mut kept.last)?;
    judge(&found, known)
}

// Has the bytes of the header written back, unless that was done since the file was opened.
fn write_back_if_stale<F: SyncedFile>(
    file: &mut F,
    known: &Known,
    is_stale: &mut bool,
) -> Result<(), DeviceCause>
    ensures { F.honest file.old → WritesBack F.SyncedFile file.old file.new is_stale.old is_stale.new result }
{
    if *is_stale {
        file.write_back(known)?;
        *is_stale = false;
    }
    Ok(())
}

// What the path names: asked after the folder, and not at all if the last look still stands.
fn named_by<F: SyncedFile>(
    file: &mut F,
    node: Node,
    last: &mut Option<Look>,
) -> Result<Option<Node>, DeviceCause>
    ensures { F.honest file.old → AsksPath F.SyncedFile file.old file.new node last.old last.new result }
{
    let Some(changed) = file.folder_changed()? else {
        return file.named(node);
    };
    if stands(last, changed) {
        return Ok(Some(node));
    }
    let named = file.named(node)?;
    let written = file.written_at()?;
    *last = Some(Look::of(changed, written, is_named(named, node)));
    Ok(named)
}
