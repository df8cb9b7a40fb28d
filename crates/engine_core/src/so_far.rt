//! A script as far as its bytes were read.

ghost use Rattle.std.specs.Prelude.{◌≡◌, true};
ghost use Rattle.engine_core.specs.Scripts.{is_there};

use crate::script::Script;

/// A script while its bytes are read: how far it has run, the line that has begun, and how many lines were whole.
#[derive(Drop)]
pub struct Run {
    pub script: Script,
    pub begun: Vec<u8>,
    pub lines: u64,
    ghost there: { is_there script ≡ true },
}
