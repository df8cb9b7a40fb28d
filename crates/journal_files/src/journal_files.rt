//! Journals in files: how long their areas are, and what they show. Nothing here opens a file; the program does that.

ghost use Rattle.std.specs.Prelude.{◌≡◌, ◌≢◌, ◌+◌, ◌*◌, ◌<◌, ◌≤◌, IfErr, IfOk, IfSome, IsNone, OnOk};
ghost use Rattle.std.specs.Io.KnownBytes.{Appends};
ghost use Rattle.area_core.specs.Reading.{Quiet};
ghost use Rattle.journal_files.specs.JournalFiles.{IsShowTold, Shows, ShowsOf, text_of};
ghost use Rattle.json_line.specs.Objects.{Adds, line_of};
ghost use Rattle.journal_files.specs.SeenObjects.{ShowsObject, ShowsObjectOf, area_members, seen_object, state_members};

use area_core::ReadFault;
use disk_core::Disk;
use json::Writer;
use json_line::{line_of, put_number};
use recover_core::{OpenFault, Seen, read};
use std::alloc::{AllocError, Global};
use std::io::Write;
use std::{error, fmt, io};

/// The least length of an area, in bytes.
const LEAST_AREA: u64 = 4_096;

/// The bytes before the first area.
const HEADER: u64 = 32;

/// Why a journal was not shown, or not fully.
#[derive(Debug, Drop)]
pub enum ShowFault {
    /// The disk could not be read as a journal.
    Read(OpenFault),
    /// Its server compacted it each time that it was read.
    Busy,
    /// What it shows could not be written.
    Output,
}

/// The text for the user.
impl fmt::Display for ShowFault {
    ghost use Rattle.std.specs.Prelude.{Some};
    ghost use Rattle.journal_files.specs.JournalFiles.{show_text};

    ghost output = { λ fault. Some (show_text fault) };

    fn fmt<W: fmt::Write>(&self, f: &mut fmt::Formatter<W>) -> fmt::Result {
        match self {
            ShowFault::Read(fault) => write!(f, "{fault}"),
            ShowFault::Busy => f.write_str("the journal changes faster than it is read"),
            ShowFault::Output => f.write_str("input or output failed"),
        }
    }
}

impl error::Error for ShowFault {}

/// How many bytes each of the two areas of a journal has in a file of `bytes` bytes. They share what the header leaves, and one byte may be
/// left over. `None` if they would have fewer than 4,096 bytes each.
pub fn area_in(bytes: u64) -> Option<u64>
    ensures share { IfSome result (λ area. (32 + 2 * area ≤ bytes) × (bytes ≤ 33 + 2 * area)) }
    ensures enough { IfSome result (λ area. 4096 ≤ area) }
    ensures small { IsNone result → bytes < 8224 }
{
    let area = bytes.saturating_sub(HEADER) / 2;
    if area < LEAST_AREA {
        return None;
    }
    Some(area)
}

/// Writes what the journal of a disk shows of itself, in five lines. They are its version, its live area, how much of that is used, and the
/// count and the held messages of the state that it stands for. The disk is only read. If it cannot be read as a journal, nothing is
/// written.
pub fn show<D: Disk, W: Write>(alloc: Global, disk: &mut D, writer: &mut W) -> Result<(), ShowFault>
    ensures shown { D.honest disk.old → OnOk result (ShowsOf (D.content disk.old) (W.contents writer.old) (W.contents writer.new)) }
    ensures shows { OnOk result (Shows (W.contents writer.old) (W.contents writer.new)) }
    ensures err { IfErr result (λ fault. fault ≢ ShowFault.Output → writer.new ≡ writer.old) }
    ensures refused { D.honest disk.old → IfErr result (λ fault. IsShowTold fault (D.content disk.old)) }
    ensures quiet { D.honest disk.old → Quiet D.Disk disk.old disk.new }
{
    let seen = match read(alloc, disk) {
        Ok(seen) => seen,
        Err(fault) => return Err(ShowFault::Read(fault)),
    };
    match write(&seen, writer) {
        Ok(()) => Ok(()),
        Err(_) => Err(ShowFault::Output),
    }
}

// Writes what was seen.
fn write<W: Write>(seen: &Seen, writer: &mut W) -> io::Result<()>
    ensures { OnOk result (Appends (W.contents writer.old) (W.contents writer.new) (text_of seen.now)) }
{
    writeln!(
        writer,
        "version {}\narea {}\nused {}\ncount {}\nheld {}",
        seen.version, seen.area, seen.used, seen.count, seen.held.messages
    )
}

/// Writes what the journal of a disk shows of itself, as one JSON object in one line: its version, its live area, how much of that is used,
/// and the count and the held messages of the state that it stands for. The disk is only read. If it cannot be read as a journal, or memory
/// is refused, nothing is written.
pub fn show_object<D: Disk, W: Write>(
    alloc: Global,
    disk: &mut D,
    writer: &mut W,
) -> Result<(), ShowFault>
    ensures shown { D.honest disk.old → OnOk result (ShowsObjectOf (D.content disk.old) (W.contents writer.old) (W.contents writer.new)) }
    ensures shows { OnOk result (ShowsObject (W.contents writer.old) (W.contents writer.new)) }
    ensures err { IfErr result (λ fault. fault ≢ ShowFault.Output → writer.new ≡ writer.old) }
    ensures quiet { D.honest disk.old → Quiet D.Disk disk.old disk.new }
{
    let seen = match read(alloc, disk) {
        Ok(seen) => seen,
        Err(fault) => return Err(ShowFault::Read(fault)),
    };
    match line_of_seen(alloc, &seen) {
        Ok(line) => {
            let written = write_line(line.as_slice(), writer);
            drop(line);
            written
        }
        Err(refused) => Err(ShowFault::Read(OpenFault::Read(ReadFault::Memory(refused)))),
    }
}

fn line_of_seen(alloc: Global, seen: &Seen) -> Result<Vec<u8>, AllocError>
    ensures { IfOk result (λ line. line.items ≡ line_of (seen_object seen.now)) }
{
    let mut out = Writer::new(Vec::new(alloc));
    put_object(&mut out, seen)?;
    line_of(out)
}

fn put_object(out: &mut Writer, seen: &Seen) -> Result<(), AllocError>
    ensures { Adds result out.old out.new (seen_object seen.now) }
{
    out.begin_object()?;
    put_area(out, seen)?;
    put_state(out, seen)?;
    out.end_object()
}

fn put_area(out: &mut Writer, seen: &Seen) -> Result<(), AllocError>
    ensures { Adds result out.old out.new (area_members seen.now) }
{
    put_number(out, "version", seen.version as u64)?;
    put_number(out, "area", seen.area as u64)?;
    put_number(out, "used", seen.used)
}

fn put_state(out: &mut Writer, seen: &Seen) -> Result<(), AllocError>
    ensures { Adds result out.old out.new (state_members seen.now) }
{
    put_number(out, "count", seen.count)?;
    put_number(out, "held", seen.held.messages)
}

/// Writes a line.
pub fn write_line<W: Write>(line: &[u8], writer: &mut W) -> Result<(), ShowFault>
    ensures written { OnOk result (Appends (W.contents writer.old) (W.contents writer.new) line.now) }
    ensures err { IfErr result (λ fault. fault ≡ ShowFault.Output) }
{
    match writer.write_all(line) {
        Ok(()) => Ok(()),
        Err(_) => Err(ShowFault::Output),
    }
}
