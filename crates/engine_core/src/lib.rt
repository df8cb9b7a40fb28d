//! The broker as a whole, for a program that embeds it: an opened journal with its threads; and scripts of sessions, from the bytes of a
//! script to the bytes that it prints.

#![tactic(auto)]

mod command_queue;
mod fault;
mod flushing;
mod hub;
mod journal;
mod laws;
mod printing;
mod run;
mod running_script;
mod script;
mod so_far;
mod working;

pub use area_core::format;
pub use claim_core::{BrokerRing, BrokerSeat};
pub use clients::{Kept, Relayed, relay};
pub use disk_core::{Disk, FileDisk, MemDisk};
pub use fault::ScriptFault;
pub use flushing::{Gate, compact_last, flush_loop};
pub use hub::{
    Closed, HELD_BYTES, Hub, HubFlusher, HubWidth, SeatRoom, desk_bytes,
    sessions_take_what_they_add, snapshots_leave_room,
};
pub use laws::{
    a_line_too_far_prints_nothing, a_script_has_one_text, a_script_that_prints_has_not_failed,
    flushes_print_what_is_answered,
};
pub use outbox_core::{Bell, OutSender, Silent};
pub use run::run_script;
pub use working::{Ended, worker};
pub use ws_core::{Link, MemLink, WsLink};
