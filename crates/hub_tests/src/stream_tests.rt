//! Streams that fail, that give or take a byte at a time, and that are interrupted.

ghost use Rattle.std.specs.Prelude.{◌≤◌, IfOk, length};

use crate::hubs::{CONNECT, Parts, SEND_WITH_RECEIPT, put_parts};
use area_core::ReadFault;
use command_line::tool;
use disk_core::{Disk, MemDisk};
use engine_core::{ScriptFault, run_script};
use recover_core::OpenFault;
use std::alloc::Global;
use std::fs::File;
use std::io::{ErrorKind, Read, Write};
use std::rt::Files;
use std::test::Fail;
use std::time::Clock;
use std::{fs, io, mem};

const SCRIPT: Parts = &[
    (CONNECT, 1),
    ("\nflush\n", 1),
    (SEND_WITH_RECEIPT, 1),
    ("\nflush\n", 1),
];

// One that does nothing, and whose streams fail in nothing.
const SCRIPTED: Run = Run {
    words: &["stompd", "script"],
    script: &[],
    reads: Way::Whole,
    writes: Way::Whole,
    tells: Way::Whole,
    status: 0,
    printed: "",
    told: "",
    calls: None,
};

const STREAM_FAILED: &str = "stompd: input or output failed\n";

const FAILED: [Run; 3] = [
    Run {
        reads: Way::Fails(ErrorKind::BrokenPipe),
        status: 1,
        told: STREAM_FAILED,
        ..SCRIPTED
    },
    Run {
        script: SCRIPT,
        writes: Way::Fails(ErrorKind::BrokenPipe),
        status: 1,
        told: STREAM_FAILED,
        ..SCRIPTED
    },
    // What is told can't be.
    Run {
        script: &[("0\n", 1)],
        tells: Way::Fails(ErrorKind::BrokenPipe),
        status: 1,
        ..SCRIPTED
    },
];

const BY_BYTES: Run = Run {
    script: &[
        (CONNECT, 1),
        ("\nflush\n", 1),
        ("\n", 5_000),
        (SEND_WITH_RECEIPT, 1),
        ("\nflush\n", 1),
    ],
    reads: Way::ByBytes,
    writes: Way::ByBytes,
    printed: "0 CONNECTED%0Aversion:1.2%0Asession:0%0Aheart-beat:0,0%0A%0A%00\n0 RECEIPT%0Areceipt-id:r1%0A%0A%00\n",
    ..SCRIPTED
};

const FULL: Run = Run {
    script: SCRIPT,
    writes: Way::Fails(ErrorKind::StorageFull),
    status: 1,
    told: STREAM_FAILED,
    calls: Some(1),
    ..SCRIPTED
};

const SERVED: &str = "stompd_served_file";

const OF_WORDS: [Run; 2] = [
    Run {
        words: &["stompd", "format", SERVED, "8224"],
        ..SCRIPTED
    },
    Run {
        words: &["stompd", "serve", SERVED, "080"],
        status: 1,
        told: "stompd: cannot start a thread\n",
        ..SCRIPTED
    },
];

const DISK_BYTES: u64 = 8_224;

// The header names area 0 of two with 4,096 bytes each. The snapshot is the empty state; a block of 109 bytes stands after it. In
// it, session 0 opens with a client-id, subscribes durably to a topic, and sends to that and to a queue.
const HELD: &[u8] = b"STOMPJ01\0\0\0\0\0\0\x10\0\0\0\0\0\0\0\0\0\0\0\0\0\0\0\0\0\
\0\0\0\0\0\0\0\x20\0\0\0\0\0\0\0\0\0\0\0\0\0\0\0\0\0\0\0\0\0\0\0\0\0\0\0\0\0\0\0\0\
\x01\0\0\0\0\0\0\0\x6d\
\0\0\0\0\0\0\0\0\0\x01\x01\0\0\0\x02c1\
\0\0\0\0\0\0\0\0\0\x03\0\0\0\x01d\0\0\0\x08/topic/t\x01\x01\0\0\0\x01n\
\0\0\0\0\0\0\0\0\0\x02\0\0\0\x08/topic/t\0\0\0\0\0\x01x\
\0\0\0\0\0\0\0\0\0\x02\0\0\0\x08/queue/q\0\0\0\0\0\x01y\
\0";

const START_SCRIPT: &str = "0 CONNECT%0Aaccept-version:1.2%0Aclient-id:c1%0A%0A%00
0 SUBSCRIBE%0Aid:d%0Adestination:/topic/t%0Aack:client%0Aactivemq.subscriptionName:n%0A%0A%00
0 SUBSCRIBE%0Aid:e%0Adestination:/queue/q%0A%0A%00
flush
open
";

const PRINTED: &str = "0 CONNECTED%0Aversion:1.2%0Asession:4%0Aheart-beat:0,0%0A%0A%00
0 MESSAGE%0Asubscription:d%0Amessage-id:2.0%0Adestination:/topic/t%0Aack:1%0Acontent-length:1%0A%0Ax%00
0 MESSAGE%0Asubscription:e%0Amessage-id:3.0%0Adestination:/queue/q%0Acontent-length:1%0A%0Ay%00
open 7 1
";

const GOES_ON: Start = (
    HELD,
    &[
        (&[(START_SCRIPT, 1)], PRINTED),
        (&[("open\n", 1)], "open 7 1\n"),
    ],
);

// A journal with no block, whose snapshot is the empty state: after no command, and after 2^60 - 1.
const EMPTY: &[u8] = b"STOMPJ01\0\0\0\0\0\0\x10\0\0\0\0\0\0\0\0\0\0\0\0\0\0\0\0\0\
\0\0\0\0\0\0\0\x20\0\0\0\0\0\0\0\0\0\0\0\0\0\0\0\0\0\0\0\0\0\0\0\0\0\0\0\0\0\0\0\0\
\0";

const COUNTED: &[u8] = b"STOMPJ01\0\0\0\0\0\0\x10\0\0\0\0\0\0\0\0\0\0\0\0\0\0\0\0\0\
\0\0\0\0\0\0\0\x20\x0f\xff\xff\xff\xff\xff\xff\xff\0\0\0\0\0\0\0\0\0\0\0\0\0\0\0\0\0\0\0\0\0\0\0\0\
\0";

const SEND: &str = "\n0 SEND%0Adestination:/queue/q%0A%0Ax%00";

const MOST_COMMANDS: Start = (
    COUNTED,
    &[(
        &[(CONNECT, 1), ("\nflush", 1), (SEND, 1), ("\n", 1)],
        "0 CONNECTED%0Aversion:1.2%0Asession:1152921504606846975%0Aheart-beat:0,0%0A%0A%00\nJ5 count too large",
    )],
);

// An area has 4,096 bytes. With sixteen commands a block, 132 commands in nine blocks take 41 and nine times 9 bytes besides their
// records of 11 and 131 times 29: 3,932. A snapshot takes 9 besides its 48, and 31 for each message: 4,087 for 130 messages.
const LARGEST: Start = (
    EMPTY,
    &[(
        &[(CONNECT, 1), (SEND, 130), ("\nflush\nopen\n", 1)],
        "0 CONNECTED%0Aversion:1.2%0Asession:0%0Aheart-beat:0,0%0A%0A%00\nopen 131 130\n",
    )],
);

const TOO_LARGE: Start = (
    EMPTY,
    &[(
        &[(CONNECT, 1), (SEND, 131), ("\nflush\nopen\n", 1)],
        "0 CONNECTED%0Aversion:1.2%0Asession:0%0Aheart-beat:0,0%0A%0A%00\nJ4 journal full",
    )],
);

/// What a stream does in a call: it gives or takes all that it can, a byte with an interruption before each, or nothing, with this
/// error.
#[derive(Clone, Copy)]
enum Way {
    Whole,
    ByBytes,
    Fails(ErrorKind),
}

// How many of so many bytes the call with that number moves, from 1.
fn moved(way: Way, call: usize, bytes: usize) -> io::Result<usize>
    ensures { IfOk result (λ count. count ≤ bytes) }
{
    match way {
        Way::Whole => Ok(bytes),
        Way::ByBytes if call % 2 == 1 => Err(io::Error::from(ErrorKind::Interrupted)),
        Way::ByBytes => Ok(bytes.min(1)),
        Way::Fails(error) => Err(io::Error::from(error)),
    }
}

/// A script that is read. It owns none of it, so that a proof has less to follow.
#[derive(Drop)]
struct Source<'a> {
    script: &'a [u8],
    way: Way,
    calls: usize,
}

impl Read for Source<'_> {
    fn read(&mut self, buf: &mut [u8]) -> io::Result<usize> {
        self.calls = self.calls.wrapping_add(1);
        let count = moved(self.way, self.calls, buf.len())?;
        self.script.read(&mut buf[..count])
    }
}

/// A stream that is written, and how often that was tried.
#[derive(Drop)]
struct Target<'a> {
    taken: &'a mut Vec<u8>,
    way: Way,
    calls: usize,
}

impl Write for Target<'_> {
    fn write(&mut self, buf: &[u8]) -> io::Result<usize> {
        self.calls = self.calls.wrapping_add(1);
        let count = moved(self.way, self.calls, buf.len())?;
        self.taken.write(&buf[..count])
    }

    fn flush(&mut self) -> io::Result<()> {
        Ok(())
    }
}

/// A run of the program: its words, its script, and how its streams are read and written; then its status, what it prints and tells,
/// and how often it writes, if that is looked at.
#[derive(Clone, Copy)]
struct Run {
    words: &'static [&'static str],
    script: Parts,
    reads: Way,
    writes: Way,
    tells: Way,
    status: u8,
    printed: &'static str,
    told: &'static str,
    calls: Option<usize>,
}

// Whether it ends so and writes so often. What it prints and tells is added to these.
fn ends<R: Files<File = File> + Clock>(
    rt: &R,
    alloc: Global,
    run: &Run,
    script: &[u8],
    printed: &mut Vec<u8>,
    told: &mut Vec<u8>,
) -> bool {
    let mut reader = Source {
        script,
        way: run.reads,
        calls: 0,
    };
    let mut writer = Target {
        taken: printed,
        way: run.writes,
        calls: 0,
    };
    let mut errors = Target {
        taken: told,
        way: run.tells,
        calls: 0,
    };
    let mut progress = io::sink();
    let ended = tool(
        rt,
        alloc,
        run.words,
        &mut reader,
        &mut writer,
        &mut errors,
        &mut progress,
    );
    ended.status == run.status && run.calls.is_none_or(|count| writer.calls == count)
}

// Whether all of it comes out so.
fn is_right<R: Files<File = File> + Clock>(rt: &R, alloc: Global, run: &Run) -> bool {
    let mut script = Vec::new(alloc);
    let mut printed = Vec::new(alloc);
    let mut told = Vec::new(alloc);
    let right = put_parts(&mut script, run.script).is_ok()
        && ends(rt, alloc, run, script.as_slice(), &mut printed, &mut told)
        && printed.as_slice() == run.printed.as_bytes()
        && told.as_slice() == run.told.as_bytes();
    drop(told);
    drop(printed);
    drop(script);
    right
}

// The first run that comes out otherwise.
fn first_wrong<R: Files<File = File> + Clock>(
    rt: &R,
    alloc: Global,
    runs: &[Run],
) -> Option<usize> {
    for (place, run) in runs.iter().enumerate() {
        if !is_right(rt, alloc, run) {
            return Some(place);
        }
    }
    None
}

#[test]
fn a_stream_that_fails_is_told(rt: HostRuntime) {
    assert_eq!(rt; first_wrong(&rt, rt.alloc(), &FAILED), None);
}

#[test]
fn a_script_comes_and_prints_by_bytes_with_interruptions(rt: HostRuntime) {
    assert_eq!(rt; first_wrong(&rt, rt.alloc(), &[BY_BYTES]), None);
}

#[test]
fn a_write_that_fails_is_not_tried_again(rt: HostRuntime) {
    assert_eq!(rt; first_wrong(&rt, rt.alloc(), &[FULL]), None);
}

// Only `main` starts the threads of a server.
#[test]
fn words_alone_start_no_server(rt: HostRuntime) -> Result<(), Fail> {
    let _ = fs::remove_file(&rt, SERVED);
    let wrong = first_wrong(&rt, rt.alloc(), &OF_WORDS);
    fs::remove_file(&rt, SERVED)?;
    assert_eq!(rt; wrong, None);
    Ok(())
}

// A disk that begins with these bytes.
fn disk_with(alloc: Global, front: &[u8]) -> Option<MemDisk>
    requires { length front.now ≤ 8224 }
{
    let mut disk = MemDisk::new(alloc, DISK_BYTES).ok()?;
    match disk.write_at(0, front) {
        Ok(()) => Some(disk),
        Err(_) => {
            drop(disk);
            None
        }
    }
}

// Adds what a script prints over the disk that is there, and the text of its fault if there is one. The disk comes back.
fn play(alloc: Global, disk: &mut Option<MemDisk>, script: &[u8], all: &mut Vec<u8>) -> bool {
    let Some(own) = disk.take() else {
        return false;
    };
    let mut reader = script;
    let (back, ended) = run_script(alloc, &mut reader, all, own);
    drop(mem::replace(disk, Some(back)));
    let told = tell(&ended, all);
    drop(ended);
    told
}

fn tell(ended: &Result<(), ScriptFault>, all: &mut Vec<u8>) -> bool {
    match ended {
        Ok(()) => true,
        Err(fault) => write!(all, "{fault}").is_ok(),
    }
}

// A script, and what it prints, with the text of its fault if there is one.
type Played = (Parts, &'static str);

// Whether that comes of a script.
fn comes_of(
    alloc: Global,
    disk: &mut Option<MemDisk>,
    played: Played,
    script: &mut Vec<u8>,
    all: &mut Vec<u8>,
) -> bool {
    let (parts, wanted) = played;
    script.clear();
    all.clear();
    put_parts(script, parts).is_ok()
        && play(alloc, disk, script.as_slice(), all)
        && all.as_slice() == wanted.as_bytes()
}

// Whether that comes of all of them, over one disk.
fn all_come(
    alloc: Global,
    disk: &mut Option<MemDisk>,
    scripts: &[Played],
    script: &mut Vec<u8>,
    all: &mut Vec<u8>,
) -> bool {
    for played in scripts {
        if !comes_of(alloc, disk, *played, script, all) {
            return false;
        }
    }
    true
}

// What a disk begins with, and scripts that are run over it, one after another.
type Start = (&'static [u8], &'static [Played]);

// Whether that comes of a disk.
fn is_right_start(alloc: Global, start: Start) -> bool {
    let (front, scripts) = start;
    if front.len() > 8_224 {
        return false;
    }
    let mut disk = disk_with(alloc, front);
    let mut script = Vec::new(alloc);
    let mut all = Vec::new(alloc);
    let right = all_come(alloc, &mut disk, scripts, &mut script, &mut all);
    drop(all);
    drop(script);
    drop(disk);
    right
}

// The lines have left the disk with what they count and hold, and its next script opens that.
#[test]
fn a_script_goes_on_from_what_its_disk_holds(rt: HostRuntime) {
    assert!(rt; is_right_start(rt.alloc(), GOES_ON));
}

// No command is taken once 2^60 were carried out.
#[test]
fn one_more_than_2_60_commands_are_too_many(rt: HostRuntime) {
    assert!(rt; is_right_start(rt.alloc(), MOST_COMMANDS));
}

#[test]
fn a_disk_whose_snapshot_has_no_room_is_not_opened(rt: HostRuntime) {
    assert!(rt; is_right_start(rt.alloc(), LARGEST));
    assert!(rt; is_right_start(rt.alloc(), TOO_LARGE));
}

// Whether the fault is that the disk has no journal.
fn is_no_journal(ended: &Result<(), ScriptFault>) -> bool {
    matches!(
        ended,
        Err(ScriptFault::Opening(OpenFault::Read(ReadFault::NotAJournal)))
    )
}

// Of a script over so many zeros: whether there is no journal, and how many bytes were written and are left to be read.
fn play_over_zeros(
    alloc: Global,
    size: u64,
    script: &[u8],
    written: &mut Vec<u8>,
) -> Option<(bool, usize, usize)> {
    let disk = MemDisk::new(alloc, size).ok()?;
    let mut reader = script;
    let (disk, ended) = run_script(alloc, &mut reader, written, disk);
    let is_told = is_no_journal(&ended);
    drop(ended);
    drop(disk);
    Some((is_told, written.len(), reader.len()))
}

#[test]
fn over_a_disk_of_zeros_nothing_is_read_and_nothing_written(rt: HostRuntime) {
    let mut written = Vec::new(rt.alloc());
    let came = play_over_zeros(rt.alloc(), 64, START_SCRIPT.as_bytes(), &mut written);
    drop(written);
    assert_eq!(rt; came, Some((true, 0, START_SCRIPT.len())));
}
