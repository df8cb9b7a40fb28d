//! The commands of the broker and what it answers: what clients ask for, the faults that refuse it, and the frames
//! that go back. Commands and snapshots are made of parts: texts, names, destinations, messages. Here stands how each
//! is spelled, and how each is read from the front of bytes.

#![tactic(auto)]

mod command;
mod decoding;
mod destination;
mod encoding;
mod entry;
mod fault;
mod output;
mod ready;
mod sending;

pub use command::{AckMode, Command, End, Member, Members, Op};
pub use decoding::{
    DecodeFault, decode, lists_are_read_as_they_are_spelled, parts_are_read_as_they_are_spelled,
    read_byte, read_destination, read_few, read_list, read_mode, read_name, read_optional,
    read_sending, read_text, read_u32, read_u64, spellings_begin_no_other,
};
pub use destination::{Dest, DestFault, HeaderText, is_header_text};
pub use encoding::{
    encode, member_size, mode_byte, op_size, option_size, put_destination, put_optional,
    put_sending, put_text, sending_size, text_size,
};
pub use entry::Entry;
pub use fault::{Fault, fault_text};
pub use output::{Alike, Out, Written, connected_reply, error_reply};
pub use sending::{Sending, SharedSending, is_kept_name};
