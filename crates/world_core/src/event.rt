//! What may happen next in a world.

use command_core::Command;
use frame_core::Bytes;

/// A list of device calls.
#[derive(Clone, Copy, Debug)]
pub enum CallList {
    /// A block is added: written, synced, and its gate written and synced.
    Append,
    /// A snapshot of the state as it is, its sessions included, is written into the area that is not live, piece by piece, and synced. It
    /// begins only if no list is under way.
    Snapshot,
    /// The area with that snapshot is made live: the selector is written and synced. This comes right after Snapshot.
    Switch,
    /// A journal is opened: a sync, then reads. Then a snapshot of what a restart leaves is written and synced, and the selector is written
    /// and synced.
    Open,
}

/// A device call.
#[derive(Clone, Copy, Debug)]
pub enum CallKind {
    /// Bytes are read.
    Read,
    /// Bytes are written, and are not stable yet.
    Write,
    /// All that was written becomes stable.
    Sync,
}

/// The next call of a list, and whether it succeeds. A write that fails leaves its range unsynced; a sync that fails makes
/// nothing stable.
#[derive(Clone, Copy, Debug)]
pub struct Call {
    /// The list that the call is of.
    pub list: CallList,
    /// What kind of call it is.
    pub kind: CallKind,
    /// Whether it succeeds.
    pub ok: bool,
}

/// An event. Sessions are named by the numbers of their seats, from 0.
#[derive(Drop)]
pub enum Event {
    /// A session reads the mark.
    Look(usize),
    /// A session claims the next number for a command.
    Claim(usize, Command),
    /// A session's last command is ready to be taken.
    Ready(usize),
    /// The flusher takes the next command.
    Take,
    /// The flusher, or whatever opens the journal, calls the device.
    Device(Call),
    /// The flusher raises the mark to a number.
    Raise(u64),
    /// A session releases an output that waited for a number.
    Release(usize, u64),
    /// The flusher stops the ring.
    Stop,
    /// Everything stops, and the disk is started again with these bytes.
    Crash(Bytes),
    /// Opening the journal has ended, and a new life begins.
    Open,
}
