//! The program `stompd` as a function of its words and streams, apart from a server's threads: what the words ask for, and doing it.

#![tactic(auto)]

mod called;
mod calling;
mod making;
mod parsing;
mod program;
mod usage;
mod viewing;
mod words;

pub use called::{end_call, end_move, end_ping, tell_taken, tell_unsure};
pub use calling::{Call, Uncalled, call_of, is_call};
pub use making::journal_for_server;
pub use parsing::{Refused, Subcommand, subcommand_of};
pub use program::{
    BAD_COMMAND_LINE, BodyFault, DONE, Ended, FAILED, Failure, FileFault, NOTE_BYTES, end_by,
    refusal, run, tool, write_version,
};
pub use viewing::FileView;
pub use words::WordKind;
