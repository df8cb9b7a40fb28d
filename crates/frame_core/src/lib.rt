//! The frames of STOMP 1.2: what a frame is, how it is written, and how a stream of bytes is read as frames.

#![tactic(auto)]

mod fault;
mod frame;
mod reader;
mod text;
mod write;

pub use fault::FrameFault;
pub use frame::{Frame, Headers, Verb, first};
pub use reader::{
    Fed, FeedFault, FrameReader, answers_stay, one_answer, one_spelling, read_pieces,
};
pub use text::{Bytes, Text, Word};
pub use write::{writable, write_frame, write_header, write_headers};
