//! What a line of a script says, and bytes as the text of a script.

#![tactic(auto)]

mod percent;
mod script_line;

pub use percent::{decode_text, encode_text, encoded};
pub use script_line::{ScriptLine, read_line};
