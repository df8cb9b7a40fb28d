//! A file that is only read.

ghost use Rattle.std.specs.Prelude.{◌≡◌, ◌+◌, ◌≤◌, IfOk, IsErr, length, ⊤};
ghost use Rattle.disk_core.specs.Faults.{HasCause};
ghost use Rattle.command_line.specs.Views.{zeros};

use disk_core::{DeviceFault, Disk, OpenError};
use std::fs::{self, File, OpenOptions};
use std::io::{self, ErrorKind};
use std::os::unix::fs::FileExt;
use std::rt::Files;

/// A disk in a file that is only opened for reading: it has no write. So a program that looks at the journal of a running server
/// cannot change it, whatever becomes of the program's descriptors.
///
/// Nothing is claimed of its content, as of any file's: it is never honest.
#[derive(Drop)]
pub struct FileView {
    file: File,
    size: u64,
    failures: u64,
}

impl FileView {
    /// Opens a file that is there, as a disk of the size that it has now.
    pub fn open<R: Files<File = File>>(rt: &R, path: &str) -> Result<FileView, OpenError>
        ensures { IfOk result (λ disk. disk.failures ≡ 0) }
    {
        // Opening a FIFO would wait for somebody who writes it.
        let there = fs::metadata(rt, path)?;
        if there.is_dir() {
            return Err(OpenError::System(io::Error::from(ErrorKind::IsADirectory)));
        }
        if !there.is_file() {
            return Err(OpenError::NotAFile);
        }
        let file = OpenOptions::new().read(true).open(rt, path)?;
        let size = file.metadata()?.len();
        Ok(FileView {
            file,
            size,
            failures: 0,
        })
    }

    // A call that fails.
    fn fail(&mut self) -> Result<(), DeviceFault>
        ensures fails { IsErr result }
        ensures cause { HasCause self.old.failures self.new.failures result }
        ensures same { self.new ≡ record self.old { failures = self.new.failures } }
    {
        self.failures = self.failures.saturating_add(1);
        Err(DeviceFault)
    }
}

impl Disk for FileView {
    // Only its length is meant.
    ghost content = { λ f. zeros f.size };

    ghost images = { λ _ _. ⊤ };

    ghost moment = { λ _. 0 };

    ghost images_since = { λ _ _ _. ⊤ };

    ghost failures = { λ f. f.failures };

    ghost honest = { λ _. ⊥ };

    ghost reads = { λ f honest. absurd honest };

    ghost sizes = { λ f c honest _. absurd honest };

    ghost counts_now = { λ f t c _ _. tt };

    ghost only_now = { λ f c _. tt };

    fn size(&self) -> u64 {
        self.size
    }

    fn read_at(&mut self, at: u64, into: &mut [u8]) -> Result<(), DeviceFault> {
        match self.file.read_exact_at(into, at) {
            Ok(()) => Ok(()),
            Err(_) => self.fail(),
        }
    }

    /// It fails, and nothing is written.
    fn write_at(&mut self, at: u64, bytes: &[u8]) -> Result<(), DeviceFault>
        requires { at + length bytes.now ≤ length (zeros self.old.size) }
        ensures cause { HasCause self.old.failures self.new.failures result }
        ensures refused { IsErr result }
        ensures same { self.new ≡ record self.old { failures = self.new.failures } }
    {
        let _nowhere = (at, bytes.len());
        self.fail()
    }

    /// It fails: there is nothing to be made stable.
    fn sync(&mut self) -> Result<(), DeviceFault> {
        self.fail()
    }
}
