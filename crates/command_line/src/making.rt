//! Making the file of a journal: under another name, until it is whole. So a name has a whole file, or none.

ghost use Rattle.std.specs.Prelude.{◌≡◌, ◌+◌, ◌*◌, ◌<◌, ◌≤◌, ◌++◌, IfErr, IfOk, IfSome, IsErr, None, Ok, OnOk, false, string_bytes, true};
ghost use Rattle.disk_core.specs.File.{file_size};
ghost use Rattle.command_line.specs.Failures.{IsOfFile, IsTooShort, IsTooShortFault};
ghost use Rattle.command_line.specs.Placing.{course_of, draft_name, is_blank};

use crate::program::{Failure, FileFault};
use crate::viewing::FileView;
use area_core::{FormatFault, format};
use disk_core::{Disk, FileDisk, OpenError};
use journal_files::area_in;
use std::alloc::{AllocError, Global};
use std::fs::{File, OpenOptions, TryLockError, hard_link, remove_file, symlink_metadata};
use std::io;
use std::io::{ErrorKind, Read, Write};
use std::os::unix::fs::{MetadataExt, OpenOptionsExt};
use std::path::Path;
use std::rt::Files;
use std::time::{Clock, Duration, Instant};

/// How many zeros are written at a time.
const PIECE: usize = 65_536;

const ZEROS: [u8; PIECE] = [0; PIECE];

/// From how many bytes on the progress of a file is reported.
const LARGE: u64 = 67_108_864;

const MEBIBYTE: u64 = 1_048_576;

/// Makes a file of `bytes` bytes with an empty journal, whose areas share what the header leaves. A file that would be too small
/// is not made, and one that is there stays as it is. Unless the file is to be sparse, its zeros are written, so that it has all
/// of its room. For a large file `progress` has how far that is, in a line a second at most.
///
/// The file is made as `FILE.new`, and gets its name once it is whole. If the file system has no room for the zeros, or the journal is
/// not written, `FILE.new` is removed again.
pub fn make_journal<R: Files<File = File> + Clock, P: Write>(
    alloc: Global,
    rt: &R,
    path: &str,
    bytes: u64,
    is_sparse: bool,
    progress: &mut P,
) -> Result<(), FileFault>
    ensures ok { OnOk result (8224 ≤ bytes) }
    ensures small { bytes < 8224 → IsTooShort result }
    ensures large { 8224 ≤ bytes → IsTooShort result → ⊥ }
{
    let Some(area) = area_in(bytes) else {
        return Err(FileFault::Format(FormatFault::TooSmall));
    };
    let mut draft = draft_of(alloc, rt, path, bytes, is_sparse, progress)?;
    let made = write_journal(alloc, &mut draft.disk, area);
    end_draft(rt, draft, path, made)
}

/// Makes the file of a server's journal, with all of its room, if `bytes` is how many it is to have and nothing is there; answers
/// whether it made it. All else is as `make_journal` has it.
pub fn journal_for_server<'a, R: Files<File = File> + Clock, P: Write>(
    alloc: Global,
    rt: &R,
    path: &'a str,
    new: Option<u64>,
    progress: &mut P,
) -> Result<bool, Failure<'a>>
    ensures none { new ≡ None → result ≡ Ok false }
    ensures made { IfOk result (λ made. made ≡ true → IfSome new (λ bytes. 8224 ≤ bytes)) }
    ensures err { IfErr result (λ failure. IsOfFile failure (Unit {0})) }
{
    let Some(bytes) = new else {
        return Ok(false);
    };
    if is_there(rt, path) {
        return Ok(false);
    }
    match make_journal(alloc, rt, path, bytes, false, progress) {
        Ok(()) => Ok(true),
        Err(fault) => Err(Failure::File(path, fault)),
    }
}

/// Makes a file of `bytes` bytes with a journal that holds what the journal in another file holds, its open sessions included. The other
/// one is only read, and may be a running server's. All else is as `make_journal` has it. A failure names the file that it is of.
pub fn copy_journal<'a, R: Files<File = File> + Clock, P: Write>(
    alloc: Global,
    rt: &R,
    path: &'a str,
    copy: &'a str,
    bytes: u64,
    is_sparse: bool,
    progress: &mut P,
) -> Result<(), Failure<'a>>
    ensures ok { OnOk result (8224 ≤ bytes) }
    ensures err { IfErr result (λ failure. IsOfFile failure (Unit {0})) }
{
    let Some(area) = area_in(bytes) else {
        return Err(Failure::File(copy, FileFault::Format(FormatFault::TooSmall)));
    };
    let mut from = match FileView::open(rt, path) {
        Ok(disk) => disk,
        Err(error) => return Err(Failure::File(path, FileFault::Open(error))),
    };
    let mut draft = match draft_of(alloc, rt, copy, bytes, is_sparse, progress) {
        Ok(draft) => draft,
        Err(fault) => return Err(Failure::File(copy, fault)),
    };
    let made = match journal_files::copy(alloc, &mut from, &mut draft.disk, area) {
        Ok(()) => Ok(()),
        Err(fault) => Err(FileFault::Copy(fault)),
    };
    match end_draft(rt, draft, copy, made) {
        Ok(()) => Ok(()),
        Err(FileFault::Copy(fault)) => Err(Failure::File(path, FileFault::Copy(fault))),
        Err(fault) => Err(Failure::File(copy, fault)),
    }
}

// A file that is being made under another name, which this process holds locked.
#[derive(Drop)]
struct Draft {
    name: String,
    lock: File,
    disk: FileDisk,
}

// Makes a file of `bytes` bytes as `FILE.new`, with all of its room unless it is to be sparse. If there is none, it is removed again.
fn draft_of<R: Files<File = File> + Clock, P: Write>(
    alloc: Global,
    rt: &R,
    path: &str,
    bytes: u64,
    is_sparse: bool,
    progress: &mut P,
) -> Result<Draft, FileFault>
    ensures size { IfOk result (λ draft. file_size draft.disk ≡ bytes) }
    ensures long { IsTooShort result → ⊥ }
{
    if most_bytes(rt).is_some_and(|most| most < bytes) {
        return Err(FileFault::Open(too_large()));
    }
    if is_there(rt, path) {
        return Err(FileFault::Open(OpenError::Exists));
    }
    let name = draft_name(alloc, path)?;
    clear(rt, &name)?;
    let lock = create(rt, &name)?;
    let drawn = draw(rt, &lock, &name, bytes, is_sparse, progress);
    match drawn {
        Ok(disk) => Ok(Draft { name, lock, disk }),
        Err(fault) => {
            unmake(rt, &lock, &name);
            drop(lock);
            drop(name);
            Err(fault)
        }
    }
}

// Gives a new file its size, and all of its room unless it is to be sparse.
fn draw<R: Files<File = File> + Clock, P: Write>(
    rt: &R,
    file: &File,
    name: &str,
    bytes: u64,
    is_sparse: bool,
    progress: &mut P,
) -> Result<FileDisk, FileFault>
    ensures size { IfOk result (λ disk. file_size disk ≡ bytes) }
    ensures long { IsTooShort result → ⊥ }
{
    if let Err(error) = file.set_len(bytes) {
        return Err(FileFault::Open(OpenError::from(error)));
    }
    let mut disk = match FileDisk::open(rt, name) {
        Ok(disk) => disk,
        Err(error) => return Err(FileFault::Open(error)),
    };
    // The name leads to another file if somebody has moved this one away.
    if disk.size() != bytes || !leads_to(rt, name, file) {
        drop(disk);
        return Err(FileFault::Foreign);
    }
    if is_sparse {
        return Ok(disk);
    }
    match fill(rt, &mut disk, bytes, progress) {
        Ok(()) => Ok(disk),
        Err(error) => {
            drop(disk);
            Err(not_filled(error))
        }
    }
}

// Gives a draft its name, unless something failed. The name under which it was made is gone then.
fn end_draft<R: Files<File = File>>(
    rt: &R,
    draft: Draft,
    path: &str,
    made: Result<(), FileFault>,
) -> Result<(), FileFault>
    ensures ok { OnOk result (IsErr made → ⊥) }
    ensures long { (IsTooShort made → ⊥) → IsTooShort result → ⊥ }
{
    let ended = match made {
        Ok(()) => place(rt, &draft.lock, &draft.name, path),
        Err(fault) => Err(fault),
    };
    unmake(rt, &draft.lock, &draft.name);
    drop(draft);
    ended
}

// How many bytes a file of this process may have, if the system has a limit. One more would end the process by a signal, for which it can
// have no handler.
fn most_bytes<R: Files<File = File>>(rt: &R) -> Option<u64> {
    let mut text = [0; 4_096];
    let mut file = File::open(rt, "/proc/self/limits").ok()?;
    let count = file.read(&mut text).ok()?;
    limit_in(str::from_utf8(&text[..count]).ok()?)
}

// The limit on a file's bytes in the system's table of limits; `None` if it is unlimited.
fn limit_in(table: &str) -> Option<u64> {
    for line in table.lines() {
        if let Some(rest) = line.strip_prefix("Max file size") {
            return rest.split_whitespace().next()?.parse().ok();
        }
    }
    None
}

// What is reported of a file that would be too large.
fn too_large() -> OpenError {
    OpenError::System(io::Error::from(ErrorKind::FileTooLarge))
}

// Writes an empty journal.
fn write_journal(alloc: Global, disk: &mut FileDisk, area: u64) -> Result<(), FileFault>
    requires least { 4096 ≤ area }
    requires room { 32 + 2 * area ≤ file_size disk.old }
    ensures { IsTooShort result → ⊥ }
{
    match format(alloc, disk, area) {
        Ok(()) => Ok(()),
        Err(fault) => Err(FileFault::Format(fault)),
    }
}

// Why a file was not filled.
fn not_filled(error: io::Error) -> FileFault
    ensures { IsTooShortFault result → ⊥ }
{
    match error.kind() {
        ErrorKind::StorageFull | ErrorKind::QuotaExceeded => FileFault::NoSpace,
        ErrorKind::FileTooLarge => FileFault::Open(OpenError::System(error)),
        _ => FileFault::Format(FormatFault::Device),
    }
}

// Writes the zeros of a file by its own descriptor: its name may be another file's meanwhile. The journal's sync has them on the device.
fn fill<R: Clock, P: Write>(
    rt: &R,
    disk: &mut FileDisk,
    bytes: u64,
    progress: &mut P,
) -> io::Result<()>
    ensures { file_size disk.new ≡ file_size disk.old }
{
    let mut told = Instant::now(rt)?;
    let mut left = bytes;
    for _piece in 0..=bytes / PIECE as u64 {
        left = fill_piece(disk, bytes, left)?;
        if bytes >= LARGE && told.elapsed(rt)? >= Duration::from_secs(1) {
            told = Instant::now(rt)?;
            tell(progress, bytes.saturating_sub(left), bytes);
        }
    }
    Ok(())
}

// Writes the next zeros, and answers how many are still left.
fn fill_piece(disk: &mut FileDisk, bytes: u64, left: u64) -> io::Result<u64>
    ensures rest { IfOk result (λ rest. rest ≤ left) }
    ensures size { file_size disk.new ≡ file_size disk.old }
{
    let count = left.min(PIECE as u64) as usize;
    disk.fill_at(bytes.saturating_sub(left), &ZEROS[..count])?;
    Ok(left - count as u64)
}

// Reports how far a file is. If that can't be written, nothing is reported.
fn tell<P: Write>(progress: &mut P, written: u64, bytes: u64) {
    let (written, all) = (written / MEBIBYTE, bytes / MEBIBYTE);
    let _told = writeln!(progress, "stompd: {written} of {all} MiB are written");
}

/// How many bytes a journal's name has.
const NAME: usize = 8;

/// What is done about a file that stands at the name under which one is to be made.
#[derive(Clone, Copy)]
pub enum Course {
    /// It is removed: a run that was killed left it, without a journal's name.
    Clear,
    /// Another process makes it.
    Wait,
    /// It may be somebody's, and stays.
    Keep,
}

/// What is done about what stands there: whether it is a file, whether this process got its lock, whether its name still leads to it after
/// that, and its first eight bytes, or all if it has fewer.
pub fn course_of(is_file: bool, is_locked: bool, is_same: bool, head: &[u8]) -> Course
    ensures { result ≡ course_of is_file is_locked is_same head.now }
{
    if !is_file {
        return Course::Keep;
    }
    if !is_locked || !is_same {
        return Course::Wait;
    }
    if is_blank(head) {
        Course::Clear
    } else {
        Course::Keep
    }
}

fn is_blank(bytes: &[u8]) -> bool
    ensures { result ≡ is_blank bytes.now }
{
    for byte in bytes {
        if *byte != 0 {
            return false;
        }
    }
    true
}

/// The name under which a file is made.
pub(crate) fn draft_name(alloc: Global, path: &str) -> Result<String, FileFault>
    ensures name { IfOk result (λ name. string_bytes name ≡ draft_name path.now) }
    ensures err { IfErr result (λ fault. IsTooShortFault fault → ⊥) }
{
    match joined(alloc, path, ".new") {
        Ok(name) => Ok(name),
        Err(refused) => Err(FileFault::Format(FormatFault::Memory(refused))),
    }
}

fn joined(alloc: Global, front: &str, back: &str) -> Result<String, AllocError>
    ensures { IfOk result (λ text. string_bytes text ≡ front.now ++ back.now) }
{
    let mut text = String::new(alloc);
    text.push_str(front)?;
    text.push_str(back)?;
    Ok(text)
}

/// Whether something has that name. A link that leads nowhere has it too.
pub(crate) fn is_there<R: Files<File = File>>(rt: &R, path: &str) -> bool {
    symlink_metadata(rt, path).is_ok()
}

/// Removes a file that a killed run left at that name. If something else is there, it stays.
pub(crate) fn clear<R: Files<File = File>>(rt: &R, name: &str) -> Result<(), FileFault>
    ensures { IsTooShort result → ⊥ }
{
    match symlink_metadata(rt, name) {
        Ok(there) if there.is_file() => clear_file(rt, name),
        Ok(_) => Err(FileFault::Foreign),
        Err(error) if is_missing(&error) => Ok(()),
        Err(error) => Err(FileFault::Open(OpenError::System(error))),
    }
}

// The same, if it is a file. Its lock is held while it is removed.
fn clear_file<R: Files<File = File>>(rt: &R, name: &str) -> Result<(), FileFault>
    ensures { IsTooShort result → ⊥ }
{
    let mut file = match OpenOptions::new().read(true).write(true).open(rt, name) {
        Ok(file) => file,
        Err(error) => return Err(FileFault::Open(OpenError::System(error))),
    };
    let cleared = match course_at(rt, &mut file, name) {
        Ok(Course::Clear) => remove_file(rt, name),
        Ok(Course::Wait) => return Err(FileFault::BeingMade),
        Ok(Course::Keep) => return Err(FileFault::Foreign),
        Err(error) => Err(error),
    };
    drop(file);
    match cleared {
        Ok(()) => Ok(()),
        Err(error) => Err(FileFault::Open(OpenError::System(error))),
    }
}

// What is done about that file, whose lock is taken if it is free.
fn course_at<R: Files<File = File>>(rt: &R, file: &mut File, name: &str) -> io::Result<Course> {
    let is_locked = locked(file)?;
    let mut head = [0; NAME];
    let count = file.read(&mut head)?;
    Ok(course_of(true, is_locked, leads_to(rt, name, file), &head[..count]))
}

// Takes the lock of a file, if it is free; answers whether it was.
fn locked(file: &File) -> io::Result<bool> {
    match file.try_lock() {
        Ok(()) => Ok(true),
        Err(TryLockError::WouldBlock) => Ok(false),
        Err(TryLockError::Error(error)) => Err(error),
    }
}

/// Whether the name leads to that file.
pub(crate) fn leads_to<R: Files<File = File>>(rt: &R, name: &str, file: &File) -> bool {
    match (symlink_metadata(rt, name), file.metadata()) {
        (Ok(there), Ok(here)) => there.ino() == here.ino() && there.dev() == here.dev(),
        _ => false,
    }
}

/// Makes a file that only its owner may read and write, and takes its lock. One that is there already is another process's.
pub(crate) fn create<R: Files<File = File>>(rt: &R, name: &str) -> Result<File, FileFault>
    ensures { IsTooShort result → ⊥ }
{
    let file = match OpenOptions::new()
        .read(true)
        .write(true)
        .create_new(true)
        .mode(0o600)
        .open(rt, name)
    {
        Ok(file) => file,
        Err(error) => return Err(unmade(error)),
    };
    match locked(&file) {
        Ok(is_locked) if is_locked && leads_to(rt, name, &file) => Ok(file),
        Ok(_) => {
            drop(file);
            Err(FileFault::BeingMade)
        }
        Err(error) => {
            let _removed = remove_file(rt, name);
            drop(file);
            Err(FileFault::Open(OpenError::System(error)))
        }
    }
}

// Why a file was not made: if something is missing, it is its folder.
fn unmade(error: io::Error) -> FileFault
    ensures { IsTooShortFault result → ⊥ }
{
    match error.kind() {
        ErrorKind::NotFound => FileFault::NoFolder,
        ErrorKind::AlreadyExists => FileFault::BeingMade,
        _ => FileFault::Open(OpenError::System(error)),
    }
}

fn is_missing(error: &io::Error) -> bool {
    matches!(error.kind(), ErrorKind::NotFound)
}

/// Gives a whole file at `name` its own name too, which nothing may have yet, and makes that name stable. If it can't be made stable, it is
/// removed again.
pub(crate) fn place<R: Files<File = File>>(
    rt: &R,
    file: &File,
    name: &str,
    path: &str,
) -> Result<(), FileFault>
    ensures { IsTooShort result → ⊥ }
{
    if let Err(error) = file.sync_all() {
        return Err(FileFault::Open(OpenError::System(error)));
    }
    if !leads_to(rt, name, file) {
        return Err(FileFault::Foreign);
    }
    if let Err(error) = hard_link(rt, name, path) {
        return Err(unlinked(error));
    }
    unmake(rt, file, name);
    match sync_folder(rt, path) {
        Ok(()) => Ok(()),
        Err(error) => {
            let _removed = remove_file(rt, path);
            Err(FileFault::Open(OpenError::System(error)))
        }
    }
}

// The folder that has the name, which is the current one for a bare name.
fn folder_of(path: &str) -> &str {
    match Path::new(path).parent() {
        Some(folder) if !folder.as_str().is_empty() => folder.as_str(),
        _ => ".",
    }
}

/// Removes the name of a file, unless it leads elsewhere meanwhile.
pub(crate) fn unmake<R: Files<File = File>>(rt: &R, file: &File, name: &str) {
    if leads_to(rt, name, file) {
        let _removed = remove_file(rt, name);
    }
}

// Syncs the folder that has the name.
fn sync_folder<R: Files<File = File>>(rt: &R, path: &str) -> io::Result<()> {
    File::open(rt, folder_of(path))?.sync_all()
}

// Why a file did not get its name. Its folder took another name before, so a refusal of the right to it means that there are no links.
fn unlinked(error: io::Error) -> FileFault
    ensures { IsTooShortFault result → ⊥ }
{
    match error.kind() {
        ErrorKind::AlreadyExists => FileFault::Open(OpenError::Exists),
        ErrorKind::PermissionDenied | ErrorKind::Unsupported | ErrorKind::TooManyLinks =>
            FileFault::NoLinks,
        _ => FileFault::Open(OpenError::System(error)),
    }
}
