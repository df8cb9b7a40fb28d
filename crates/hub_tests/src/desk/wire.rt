//! A stream in memory, which many may hold, as they may a socket.

use std::alloc::AllocError;
use std::cell::{Cell, RefCell};
use std::io;
use std::io::{ErrorKind, Read, Write};
use ws_core::Ending;

/// Gives what is open of its input, and adds what is written to its output. It owns neither, so that a proof has less to follow.
#[derive(Drop)]
pub struct Wire<'a> {
    input: &'a [u8],
    output: &'a RefCell<Vec<u8>>,
    // So many bytes come with one read, and after them at most `step` with each.
    head: usize,
    step: usize,
    /// What a read that finds nothing open is refused with, and how many were.
    pub refusal: Cell<ErrorKind>,
    pub refused: Cell<u64>,
    /// How many bytes have been read.
    pub at: Cell<usize>,
    /// How far the input is open. After that a read is refused; after all of it the stream has ended.
    pub open: Cell<usize>,
    /// How many bytes a write takes at most.
    pub gulp: Cell<usize>,
    /// How many bytes are taken at all. After that each write would block.
    pub room: Cell<usize>,
    /// How many writes took some.
    pub writes: Cell<u64>,
    /// What each write fails with from now on.
    pub broken: Cell<Option<ErrorKind>>,
}

impl<'a> Wire<'a> {
    /// One that is open, and takes all.
    pub fn new(
        input: &'a [u8],
        head: usize,
        step: usize,
        output: &'a RefCell<Vec<u8>>,
    ) -> Wire<'a> {
        Wire {
            input,
            output,
            head,
            step,
            refusal: Cell::new(ErrorKind::WouldBlock),
            refused: Cell::new(0),
            at: Cell::new(0),
            open: Cell::new(usize::MAX),
            gulp: Cell::new(usize::MAX),
            room: Cell::new(usize::MAX),
            writes: Cell::new(0),
            broken: Cell::new(None),
        }
    }

    // Where the next read begins, and how far the input is open.
    fn span(&self) -> (usize, usize) {
        (self.at.get(), self.open.get().min(self.input.len()))
    }

    // Adds these to what was written.
    fn put(&self, bytes: &[u8]) -> io::Result<()> {
        let done = match self.output.try_borrow_mut() {
            Ok(mut output) => output.extend_from_slice(bytes).is_ok(),
            Err(_) => false,
        };
        if done {
            Ok(())
        } else {
            Err(io::Error::from(ErrorKind::OutOfMemory))
        }
    }

    /// Moves what was written to the end of these bytes.
    pub fn move_output(&self, bytes: &mut Vec<u8>) -> Result<(), AllocError> {
        match self.output.try_borrow_mut() {
            Ok(mut output) => {
                let done = bytes.extend_from_slice(output.as_slice());
                output.clear();
                done
            }
            Err(_) => Ok(()),
        }
    }
}

impl Read for &Wire<'_> {
    fn read(&mut self, buf: &mut [u8]) -> io::Result<usize> {
        let (at, end) = self.span();
        let rest = self.input.get(at..end).unwrap_or(&[]);
        if rest.is_empty() && end < self.input.len() {
            self.refused.set(self.refused.get().saturating_add(1));
            return Err(io::Error::from(self.refusal.get()));
        }
        let most = if at < self.head {
            self.head - at
        } else {
            self.step
        };
        let n = buf.len().min(rest.len()).min(most);
        buf[..n].copy_from_slice(&rest[..n]);
        self.at.set(at.saturating_add(n));
        Ok(n)
    }
}

impl Write for &Wire<'_> {
    fn write(&mut self, buf: &[u8]) -> io::Result<usize> {
        if let Some(error) = self.broken.get() {
            return Err(io::Error::from(error));
        }
        let room = self.room.get();
        if room == 0 {
            return Err(io::Error::from(ErrorKind::WouldBlock));
        }
        let n = buf.len().min(self.gulp.get()).min(room);
        self.room.set(room - n);
        self.writes.set(self.writes.get().saturating_add(1));
        match self.put(&buf[..n]) {
            Ok(()) => Ok(n),
            Err(error) => Err(error),
        }
    }

    fn flush(&mut self) -> io::Result<()> {
        Ok(())
    }
}

// All that is open is dropped at once. A stream that is shut shows |.
impl Ending for &Wire<'_> {
    fn drop_some(&self) -> io::Result<usize> {
        let (at, end) = self.span();
        if at >= end && end < self.input.len() {
            return Err(io::Error::from(self.refusal.get()));
        }
        self.at.set(end.max(at));
        Ok(end.saturating_sub(at))
    }

    fn shut_down(&self) -> io::Result<()> {
        self.put(b"|")
    }

    fn given(&self) -> u64 {
        0
    }
}
