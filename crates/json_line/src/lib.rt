//! JSON objects (RFC 8259) in one line, member by member.

#![tactic(auto)]

mod objects;

pub use objects::{begin_list, line_of, put_number, put_option, put_text};
