//! A disk, and what a stop at any moment may leave of it. Here are the contract, a disk in memory
//! that can be crashed, one that fails from a chosen call on, one of which a single call fails, and
//! a file.
#![tactic(auto)]

mod call;
mod disk;
mod file;
mod fuse;
mod loss;
mod memory;
mod naming;
mod span;
mod synced_file;

pub use call::{Call, DeviceFault, publish};
pub use disk::Disk;
pub use file::{FileAt, FileDisk, OpenError, SLACK_AT, SLACK_BYTES, SyncKept, sync_by};
pub use fuse::{FailOnce, FuseDisk};
pub use loss::{DeviceCause, HEADER_BYTES, Known, Node};
pub use memory::MemDisk;
pub use naming::Noted;
pub use span::{is_image, overwrite, release};
pub use synced_file::{FileEvent, SyncedFile};
