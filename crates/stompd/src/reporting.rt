//! What is written to standard error by threads of their own, since it may be full and unread.

use event_log::{Form, Notice, write_notice};
use server_core::ServeFault;
use std::alloc::Global;
use std::io::{ErrorKind, Write};
use std::sync::atomic::{AtomicBool, Ordering};
use std::sync::{Arc, Wait};
use std::thread::{Parker, Threads};
use std::time::{Clock, Duration};
use std::{io, thread};

/// For how many milliseconds a report is waited for at most.
const PATIENCE: u64 = 500;

/// For how many seconds it is reported that a journal is being opened.
const LONGEST_OPENING: u64 = 86_400;

/// Writes a text in a thread of its own, and waits for that for half a second at most: if nobody reads it and its pipe is full, the program
/// goes on all the same.
pub fn write_apart<R, E>(rt: &R, alloc: Global, text: Vec<u8>, errors: E)
where
    R: Threads + Wait,
    E: Write + Drop + Send + 'static,
{
    if let Ok(written) = start_writing(rt, alloc, text, errors) {
        written.park_timeout(rt, Duration::from_millis(PATIENCE));
    }
}

/// Starts a thread that writes this text, and then wakes anyone who waits for that.
fn start_writing<R, E>(rt: &R, alloc: Global, text: Vec<u8>, errors: E) -> io::Result<Arc<Parker>>
where
    R: Threads,
    E: Write + Drop + Send + 'static,
{
    let written = Arc::new(alloc, Parker::new())?;
    let wakes = written.clone()?;
    let mut errors = errors;
    let writes = move || {
        drop(errors.write_all(text.as_slice()));
        wakes.unpark();
    };
    thread::spawn(rt, writes)?;
    Ok(written)
}

/// Adds the line of a notice that comes now to a text, in that form; in words if memory is refused for an object.
pub fn add_notice<R: Clock, W: Write>(
    rt: &R,
    alloc: Global,
    form: Form,
    notice: Notice<'_>,
    text: &mut W,
) -> io::Result<()> {
    let since_1970 = rt.since_1970().unwrap_or(Duration::from_secs(0));
    match write_notice(alloc, form, notice, since_1970, text) {
        Err(error) if error.kind() == ErrorKind::OutOfMemory => {
            write_notice(alloc, Form::Text, notice, since_1970, text)
        }
        written => written,
    }
}

/// Starts a thread that reports each second for how long a server has been opening its journal, until the answer is set.
pub fn report_opening<R, E>(
    rt: &R,
    alloc: Global,
    form: Form,
    errors: E,
) -> Result<Arc<AtomicBool>, ServeFault>
where
    R: Threads + Wait + Clock + Clone + Drop + Send + 'static,
    E: Write + Drop + Send + 'static,
{
    let is_open = Arc::new(alloc, AtomicBool::new(false)).map_err(|_| ServeFault::Memory)?;
    let (is_over, its) = (is_open.clone()?, rt.clone()?);
    let mut errors = errors;
    let reports = move || write_seconds(&its, alloc, form, &is_over, &mut errors);
    match thread::spawn(rt, reports) {
        Ok(_) => Ok(is_open),
        Err(_) => Err(ServeFault::Threads),
    }
}

/// Reports each second for how long a server has been opening its journal, until it has.
fn write_seconds<R: Wait + Clock, E: Write>(
    rt: &R,
    alloc: Global,
    form: Form,
    is_over: &AtomicBool,
    errors: &mut E,
) {
    for seconds in 1..=LONGEST_OPENING {
        thread::sleep(rt, Duration::from_secs(1));
        if is_over.load(Ordering::SeqCst) {
            return;
        }
        let mut text = Vec::new(alloc);
        let added = add_notice(rt, alloc, form, Notice::Opening { seconds }, &mut text);
        // A line is one write, so that no other thread's line comes between.
        let written = errors.write_all(text.as_slice());
        drop(text);
        if added.is_err() || written.is_err() {
            return;
        }
    }
}
