//! The program `stompd`: a STOMP 1.2 broker at the command line.

#![tactic(auto)]

mod calls;
mod input;
mod reporting;
mod serving;

use calls::run_call;
use client_core::Address;
use client_socket::ping;
use command_line::{
    BAD_COMMAND_LINE, DONE, Failure, NOTE_BYTES, Subcommand, end_by, end_ping, is_call,
    subcommand_of, tool, write_version,
};
use engine_core::ScriptFault;
use event_log::Form;
use server_core::{FileAt, ServeFault, Unopened};
use serving::{Asked, Streams, serve};
use std::alloc::{AllocError, Global};
use std::fs::{File, OpenOptions};
use std::io::{ErrorKind, Lock, Read, Seek, SeekFrom};
use std::process::ExitCode;
use std::{env, io, mem};

/// Runs the program on its arguments, standard input, standard output and standard error.
fn main(rt: HostRuntime) -> ExitCode {
    if let Err(status) = hold_standard_streams(&rt) {
        return ExitCode::from(status);
    }
    let words = match words_of(&rt) {
        Ok(words) => words,
        Err(status) => return ExitCode::from(status),
    };
    let status = match served(&rt, words.as_slice()) {
        Some(asked) => {
            let streams = Streams {
                input: rt.stdin(),
                output: rt.stdout(),
                errors: rt.stderr(),
            };
            let status = serve(&rt, rt.alloc(), &asked, streams);
            drop(asked);
            status
        }
        None => run_other(&rt, words.as_slice()),
    };
    ExitCode::from(status)
}

/// Opens `/dev/null` as often as there are standard streams, and never closes these files. A file gets the least number that is free.
/// So whichever of the three streams are closed, these files have their numbers from now on, and nothing that is opened later gets
/// them. What the program writes to a closed stream is lost, and is in no file. If `/dev/null` can't be opened, that is reported, and the
/// status is the answer.
fn hold_standard_streams(rt: &HostRuntime) -> Result<(), u8> {
    for _stream in 0..3u32 {
        match hold_null(rt) {
            Ok(()) => {}
            Err(error) => {
                let fault = ServeFault::Streams(Unopened::by(error.kind()));
                return Err(told(rt, &Failure::Server("", 0, fault)));
            }
        }
    }
    Ok(())
}

/// Opens `/dev/null`, and never closes it.
fn hold_null(rt: &HostRuntime) -> io::Result<()> {
    let null = OpenOptions::new()
        .read(true)
        .write(true)
        .open(rt, "/dev/null")?;
    mem::forget(null);
    Ok(())
}

/// The arguments, of which the first is the program's name. If they are not UTF-8, they are a bad command line, of which nothing is
/// reported. If memory is refused, that is reported. The status is the answer then.
fn words_of(rt: &HostRuntime) -> Result<Vec<String>, u8> {
    match collected(rt) {
        Ok(words) => Ok(words),
        Err(error) if error.kind() == ErrorKind::OutOfMemory => {
            let failure = Failure::Script(ScriptFault::Memory(AllocError));
            Err(told(rt, &failure))
        }
        Err(_) => Err(BAD_COMMAND_LINE),
    }
}

fn collected(rt: &HostRuntime) -> io::Result<Vec<String>> {
    Ok(env::args(rt)?.collect(rt.alloc())?)
}

/// What the words ask of a server, if they ask for one.
fn served<'a>(rt: &HostRuntime, words: &'a [String]) -> Option<Asked<'a>> {
    match subcommand_of(rt.alloc(), words) {
        Ok(
            Subcommand::Serve {
                file,
                port,
                origins,
                threads,
                memory,
                until_eof,
                new,
                is_json,
            },
        ) => Some(Asked {
            at: FileAt {
                host: *rt,
                path: file,
            },
            port,
            origins,
            threads,
            memory,
            until_eof,
            new,
            form: if is_json { Form::Object } else { Form::Text },
        }),
        _ => None,
    }
}

/// What the words ask for, if that is no server, and the status.
fn run_other(rt: &HostRuntime, words: &[String]) -> u8 {
    if is_call(words) {
        return run_call(rt, words);
    }
    if asks_for_version(rt.alloc(), words) {
        return run_version(rt);
    }
    match pinged(rt.alloc(), words) {
        Some(address) => run_ping(rt, address),
        None => run_tool(rt, words),
    }
}

/// Whether the words ask for the program's version, by `--version` or `-V`.
fn asks_for_version(alloc: Global, words: &[String]) -> bool {
    match words {
        [_, word] if word.as_str() == "-V" => true,
        _ => matches!(subcommand_of(alloc, words), Ok(Subcommand::Version)),
    }
}

/// Writes the version, with what the program was built from if its file has a note of that, and answers the status.
fn run_version(rt: &HostRuntime) -> u8 {
    let last = match last_bytes(rt) {
        Ok(last) => last,
        Err(_) => Vec::new(rt.alloc()),
    };
    let written = write_version(last.as_slice(), &mut rt.stdout().lock());
    drop(last);
    match written {
        Ok(()) => DONE,
        Err(_) => told(rt, &Failure::Output),
    }
}

/// The last bytes of the program's own file, where a note may stand.
fn last_bytes(rt: &HostRuntime) -> io::Result<Vec<u8>> {
    let mut last = Vec::new(rt.alloc());
    let mut file = File::open(rt, "/proc/self/exe")?;
    file.seek(SeekFrom::End(-NOTE_BYTES))?;
    file.read_to_end(&mut last)?;
    Ok(last)
}

/// The address of the server that is to be pinged, if the words ask for that.
fn pinged(alloc: Global, words: &[String]) -> Option<Address<'_>> {
    match subcommand_of(alloc, words) {
        Ok(Subcommand::Ping { address }) => Some(address),
        _ => None,
    }
}

/// Pings the server at that address, prints the outcome, and answers the status.
fn run_ping(rt: &HostRuntime, address: Address<'_>) -> u8 {
    let mut writer = rt.stdout().lock();
    let mut errors = rt.stderr().lock();
    let pinged = ping(rt, rt.alloc(), address);
    end_ping(pinged, &mut writer, &mut errors).status
}

/// What the words ask for, if that opens no socket, and the status.
fn run_tool(rt: &HostRuntime, words: &[String]) -> u8 {
    let mut reader = rt.stdin().lock();
    let mut writer = rt.stdout().lock();
    let (mut errors, mut progress) = (rt.stderr(), rt.stderr());
    let alloc = rt.alloc();
    tool(
        rt,
        alloc,
        words,
        &mut reader,
        &mut writer,
        &mut errors,
        &mut progress,
    )
    .status
}

/// Tells a failure, and answers its status.
fn told(rt: &HostRuntime, failure: &Failure) -> u8 {
    let mut errors = rt.stderr().lock();
    end_by(failure, &mut errors).status
}
