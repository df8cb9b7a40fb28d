//! A script from its bytes to the bytes that it prints.

ghost use Rattle.std.specs.Prelude.{◌≡◌, ◌≢◌, ◌+◌, ◌++◌, ◌∷◌, ◌<◌, ◌≤◌, ◌*◌, ◌^◌, [], ℕ, List, true, IfOk, IfErr, OnOk, OnErr, MatchOption, length, drop, take, slice_index};
ghost use Rattle.std.specs.List.{AllByRecursion};
ghost use Rattle.std.specs.Io.KnownBytes.{Appends, Consumes, IsAtEnd};
ghost use Rattle.disk_core.specs.Memory.{Memory};
ghost use Rattle.broker_core.specs.States.{State};
ghost use Rattle.engine_core.specs.Scripts.{IsLine, IsOpenedAs, HasNoLf, IsScript, disk_of};
ghost use Rattle.engine_core.specs.StepFaults.{IsNotOpened};
ghost use Rattle.engine_core.specs.Runs.{Goes, IsBegun, StopsIn, StopsOver, IsTooLong, Turned, Stopped};

use crate::fault::ScriptFault;
use crate::journal::Journal;
use crate::running_script::RunningScript;
use crate::script::Script;
use crate::so_far::Run;
use disk_core::MemDisk;
use memchr::memchr;
use recover_core::OpenFault;
use std::alloc::Global;
use std::io::{ErrorKind, Read, Write};

/// How many bytes are read at once.
const PIECE: usize = 65_536;

/// How many reads are made at most.
const MOST_READS: u64 = 4_294_967_296;

// As docs/PROTOCOL.md has it of reads.
const _: () = prove!(MOST_READS == 4_294_967_296);

/// How many times a line's text is offered to the writer at most.
const MOST_WRITES: u64 = 4_294_967_296;

/// How many bytes a line has at most, without its LF.
const LONGEST_LINE: usize = 1_048_576;

/// Runs a script over a disk: opens the disk's journal, reads the script to its end, and writes what each line prints as soon as
/// the line is done. The bytes are read in pieces of 65,536, and at most 4,294,967,296 reads are made.
///
/// If it is refused, what was written is what the lines before the refused one print. If it is the writer that failed, a front of
/// what that line prints may be written too, but not all of it. Commands that wait at the end of the script are dropped. The disk
/// comes back as the lines have left it.
pub fn run_script<R: Read, W: Write>(
    alloc: Global,
    reader: &mut R,
    writer: &mut W,
    disk: MemDisk,
) -> (MemDisk, Result<(), ScriptFault>)
    // What is written is what the lines that were read print, and nothing else, from the restart of the state on that the disk stands for.
    ensures ok { OnOk result.1 ((input : List ℕ) × (printed : List ℕ) × (start : State) × (first : Memory) × IsOpenedAs disk start first
        × Consumes (R.remaining reader.old) (R.remaining reader.new) input × IsAtEnd (R.remaining reader.new)
        × Appends (W.contents writer.old) (W.contents writer.new) printed
        × (script : IsScript start first input printed) × (result.0 ≡ disk_of script.end)) }
    // On a fault, what is written is what the lines before print. A line is reported only if it is none. A count too large is
    // reported only if the next line asks for a command once 2^60 have been carried out. The disk failed within the next line
    // exactly if that is reported. A full journal is reported only if the next line flushes what the disk that comes back has no
    // room for. A broken store is reported only if a step failed before, or the next line flushes. The writer's fault comes only
    // if the next line prints, and some of that is not written, though a front of it may be. If the disk is not opened at the
    // start, nothing is read or written.
    ensures err { IfErr result.1 (λ fault. StopsOver disk fault result.0 (R.remaining reader.old) (R.remaining reader.new) (W.contents writer.old) (W.contents writer.new)) }
{
    match vec![in alloc; 0u8; PIECE] {
        Ok(mut piece) => match begin(alloc, disk) {
            Ok(mut run) => {
                let ended = read_to_end(alloc, &mut run, piece.as_mut_slice(), reader, writer);
                drop(piece);
                (run.script.into_disk(), ended)
            }
            Err((disk, fault)) => {
                drop(piece);
                (disk, Err(ScriptFault::Opening(fault)))
            }
        },
        Err(refused) => (disk, Err(ScriptFault::from(refused))),
    }
}

/// A run before the first read.
fn begin(alloc: Global, disk: MemDisk) -> Result<Run, (MemDisk, OpenFault)>
    ensures ok { IfOk result (IsBegun disk) }
    ensures err { IfErr result (λ back. IsNotOpened disk back.1 back.0) }
{
    match Journal::open(alloc, disk) {
        Ok(journal) => Ok(Run {
            script: Script::Running(RunningScript::over(alloc, journal)),
            begun: Vec::new(alloc),
            lines: 0,
        }),
        Err(back) => Err(back),
    }
}

/// Reads the script to its end, and runs each line.
fn read_to_end<R: Read, W: Write>(
    alloc: Global,
    run: &mut Run,
    piece: &mut [u8],
    reader: &mut R,
    writer: &mut W,
) -> Result<(), ScriptFault>
    requires begun { IsLine run.old.begun.items }
    requires first { run.old.lines ≡ 0 }
    requires piece { length piece.old ≡ 65536 }
    ensures ok { OnOk result (Turned true run.old run.new (R.remaining reader.old) (R.remaining reader.new) (W.contents writer.old) (W.contents writer.new)) }
    ensures err { IfErr result (λ fault. Stopped fault run.old (disk_of run.new.script) (R.remaining reader.old) (R.remaining reader.new) (W.contents writer.old) (W.contents writer.new)) }
{
    for _read in 0..MOST_READS {
        if read_piece(alloc, run, piece, reader, writer)? {
            return Ok(());
        }
    }
    Err(ScriptFault::Input)
}

/// Reads a piece of the script, and runs the lines that end in it; answers whether the script is at its end.
fn read_piece<R: Read, W: Write>(
    alloc: Global,
    run: &mut Run,
    piece: &mut [u8],
    reader: &mut R,
    writer: &mut W,
) -> Result<bool, ScriptFault>
    requires begun { IsLine run.old.begun.items }
    requires room { run.old.lines ≤ 2 ^ 48 }
    requires piece { length piece.old ≡ 65536 }
    ensures ok { IfOk result (λ end. Turned end run.old run.new (R.remaining reader.old) (R.remaining reader.new) (W.contents writer.old) (W.contents writer.new)) }
    ensures few { OnOk result (run.new.lines ≤ run.old.lines + 65536) }
    ensures err { IfErr result (λ fault. Stopped fault run.old (disk_of run.new.script) (R.remaining reader.old) (R.remaining reader.new) (W.contents writer.old) (W.contents writer.new)) }
{
    match reader.read(piece) {
        Ok(0) => {
            end(run)?;
            Ok(true)
        }
        Ok(count) => {
            take_piece(alloc, run, &piece[..count], writer)?;
            Ok(false)
        }
        Err(error) => {
            if error.kind() != ErrorKind::Interrupted {
                return Err(ScriptFault::Input);
            }
            Ok(false)
        }
    }
}

/// The end of the script, which must not come within a line.
fn end(run: &Run) -> Result<(), ScriptFault>
    requires { run.now.lines + 1 < 2 ^ 64 }
    ensures ok { OnOk result (run.now.begun.items ≡ []) }
    ensures err { IfErr result (λ fault. (fault ≡ ScriptFault.NotUnderstood (run.now.lines + 1)) × (run.now.begun.items ≢ [])) }
{
    if run.begun.is_empty() {
        Ok(())
    } else {
        Err(ScriptFault::NotUnderstood {
            line: run.lines + 1,
        })
    }
}

/// Runs the lines that end within a piece, and keeps what begins the next one.
fn take_piece<W: Write>(
    alloc: Global,
    run: &mut Run,
    piece: &[u8],
    writer: &mut W,
) -> Result<(), ScriptFault>
    requires begun { IsLine run.old.begun.items }
    requires room { run.old.lines + length piece.now + 1 < 2 ^ 64 }
    ensures ok { OnOk result (Goes run.old piece.now run.new (W.contents writer.old) (W.contents writer.new)) }
    ensures err { IfErr result (λ fault. StopsIn fault run.old piece.now (disk_of run.new.script) (W.contents writer.old) (W.contents writer.new)) }
{
    let mut at = 0;
    while let Some(front) = before_lf(&piece[at..]) {
        let next = at + front.len() + 1;
        end_line(alloc, run, front, writer)?;
        at = next;
    }
    begin_line(run, &piece[at..])
}

/// What stands before the first LF.
fn before_lf(bytes: &[u8]) -> Option<&[u8]>
    ensures { MatchOption result (HasNoLf bytes.now) (λ front. HasNoLf front.now × (bytes.now ≡ front.now ++ 10 ∷ drop (length front.now + 1) bytes.now)) }
{
    match memchr(b'\n', bytes) {
        Some(at) => Some(&bytes[..at]),
        None => None,
    }
}

/// Adds bytes to the line that has begun.
fn begin_line(run: &mut Run, bytes: &[u8]) -> Result<(), ScriptFault>
    requires begun { IsLine run.old.begun.items }
    requires bytes { HasNoLf bytes.now }
    requires room { run.old.lines + 1 < 2 ^ 64 }
    ensures ok { OnOk result ((run.new.begun.items ≡ run.old.begun.items ++ bytes.now) × IsLine run.new.begun.items) }
    ensures same { (run.new.script ≡ run.old.script) × (run.new.lines ≡ run.old.lines) }
    ensures err { IfErr result (λ fault. IsTooLong fault run.old bytes.now) }
{
    if bytes.len() > LONGEST_LINE - run.begun.len() {
        return Err(ScriptFault::NotUnderstood {
            line: run.lines + 1,
        });
    }
    run.begun.extend_from_slice(bytes)?;
    Ok(())
}

/// Runs the line that ends with these bytes.
fn end_line<W: Write>(
    alloc: Global,
    run: &mut Run,
    bytes: &[u8],
    writer: &mut W,
) -> Result<(), ScriptFault>
    requires begun { IsLine run.old.begun.items }
    requires bytes { HasNoLf bytes.now }
    requires room { run.old.lines + 1 < 2 ^ 64 }
    ensures ok { OnOk result (Goes run.old (bytes.now ++ 10 ∷ []) run.new (W.contents writer.old) (W.contents writer.new)) }
    ensures err { IfErr result (λ fault. StopsIn fault run.old (bytes.now ++ 10 ∷ []) (disk_of run.new.script) (W.contents writer.old) (W.contents writer.new)) }
{
    begin_line(run, bytes)?;
    match run.script.perform(alloc, run.begun.as_slice())? {
        None => Err(ScriptFault::NotUnderstood {
            line: run.lines + 1,
        }),
        Some(text) => {
            let written = write_text(writer, text.as_str());
            drop(text);
            written?;
            run.begun.clear();
            run.lines += 1;
            Ok(())
        }
    }
}

/// Writes a text. If the writer fails, a front of the text is written, and not all of it.
fn write_text<W: Write>(writer: &mut W, text: &str) -> Result<(), ScriptFault>
    ensures ok { OnOk result (Appends (W.contents writer.old) (W.contents writer.new) text.now) }
    ensures err { IfErr result (λ fault. (fault ≡ ScriptFault.Output) × (written : List ℕ) × (unwritten : List ℕ)
        × (text.now ≡ written ++ unwritten) × (unwritten ≢ []) × Appends (W.contents writer.old) (W.contents writer.new) written) }
{
    let mut rest = text.as_bytes();
    for _write in 0..MOST_WRITES {
        if rest.is_empty() {
            break;
        }
        match write_some(writer, rest) {
            Ok(left) => rest = left,
            Err(fault) => return Err(fault),
        }
    }
    if rest.is_empty() {
        Ok(())
    } else {
        Err(ScriptFault::Output)
    }
}

/// Writes as much as the writer takes at once, and answers what is left: all, if the write was interrupted.
fn write_some<'a, W: Write>(writer: &mut W, rest: &'a [u8]) -> Result<&'a [u8], ScriptFault>
    ensures ok { IfOk result (λ left. (written : List ℕ) × (rest.now ≡ written ++ left.now) × Appends (W.contents writer.old) (W.contents writer.new) written) }
    ensures err { IfErr result (λ fault. (fault ≡ ScriptFault.Output) × Appends (W.contents writer.old) (W.contents writer.new) []) }
{
    match writer.write(rest) {
        Ok(0) => Err(ScriptFault::Output),
        Ok(count) => Ok(&rest[count..]),
        Err(error) => {
            if error.kind() != ErrorKind::Interrupted {
                return Err(ScriptFault::Output);
            }
            Ok(rest)
        }
    }
}
