//! Standard input, whose end asks servers to end.

use crossbeam_queue::ArrayQueue;
use server_core::{Ender, ServeFault};
use std::alloc::{AllocError, Global};
use std::io::{ErrorKind, Read};
use std::sync::atomic::{AtomicBool, Ordering};
use std::sync::{Arc, Wait};
use std::thread;
use std::thread::{Parker, Threads};
use std::time::Duration;

/// How many looks a second's pause has.
const LOOKS: u64 = 10;

/// Whether standard input has ended, and the server that is asked to end then.
#[derive(Drop)]
pub struct Input {
    ended: AtomicBool,
    ender: ArrayQueue<Ender>,
    pause: Parker,
}

impl Input {
    /// An input that nobody reads: it never ends.
    pub fn new(alloc: Global) -> Result<Input, AllocError> {
        Ok(Input {
            ended: AtomicBool::new(false),
            ender: ArrayQueue::new(alloc, 1)?,
            pause: Parker::new(),
        })
    }

    /// From now on the end of the input asks this server to end, and no other. If the input has ended, it is asked at once.
    pub fn attach<R: Wait>(&self, rt: &R, ender: Ender) {
        drop(self.ender.pop(rt));
        // The place is free, since only this call fills it.
        drop(self.ender.push(rt, ender));
        if self.has_ended() {
            self.ask(rt);
        }
    }

    /// Whether the input has ended.
    pub fn has_ended(&self) -> bool {
        self.ended.load(Ordering::SeqCst)
    }

    /// Waits for that many seconds, or until the input ends.
    pub fn pause<R: Wait>(&self, rt: &R, seconds: u64) {
        for _look in 0..seconds.saturating_mul(LOOKS) {
            if self.has_ended() {
                return;
            }
            self.pause
                .park_timeout(rt, Duration::from_millis(1_000 / LOOKS));
        }
    }

    fn ask<R: Wait>(&self, rt: &R) {
        if let Some(ender) = self.ender.pop(rt) {
            ender.ask();
        }
    }

    fn end<R: Wait>(&self, rt: &R) {
        self.ended.store(true, Ordering::SeqCst);
        self.ask(rt);
        self.pause.unpark();
    }
}

/// Starts a thread that reads this to its end, which is the input's.
pub fn read_apart<R, I>(rt: &R, input: &Arc<Input>, reader: I) -> Result<(), ServeFault>
where
    R: Threads + Wait + Clone + Drop + Send + 'static,
    I: Read + Drop + Send + 'static,
{
    let its: Result<R, AllocError> = rt.clone();
    let input: Result<Arc<Input>, AllocError> = input.clone();
    let (Ok(its), Ok(input)) = (its, input) else {
        drop(reader);
        return Err(ServeFault::Memory);
    };
    let mut reader = reader;
    let reads = move || {
        read_to_end(&mut reader);
        input.end(&its);
    };
    match thread::spawn(rt, reads) {
        Ok(_) => Ok(()),
        Err(_) => Err(ServeFault::Threads),
    }
}

/// Reads until there is nothing more, or a read fails.
fn read_to_end<I: Read>(reader: &mut I) {
    let mut bytes = [0; 512];
    for _read in 0..u64::MAX {
        match reader.read(&mut bytes) {
            Ok(0) => return,
            Ok(_) => {}
            Err(error) if error.kind() == ErrorKind::Interrupted => {}
            Err(_) => return,
        }
    }
}
