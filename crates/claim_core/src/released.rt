//! What may leave.

ghost use Rattle.std.specs.Prelude.{◌≡◌, ◌<◌, ◌≤◌, IfOk, IfErr, true};
ghost use Rattle.std.specs.Str.{IsUtf8};
ghost use Rattle.frame_core.specs.Writable.{Writable};
ghost use Rattle.frame_core.specs.Written.{written};

use crate::refusals::NotYet;
use command_core::{Out, Written};
use frame_core::Verb;
use std::alloc::{AllocError, Global};
use std::marker::Model;

/// An output that may leave, because its number is under a mark that was read. Only `Ring::release` makes one.
/// Contracts see it as the output.
#[derive(Drop)]
pub struct Released {
    out: Out,
}

impl Model for Released {
    ghost use Rattle.command_core.specs.Outs.{OutValue};

    ghost Value = { OutValue };

    ghost view = { λ a. a.out };
}

impl Released {
    // The output, if its number is under the mark.
    pub(crate) fn under(mark: u64, out: Out) -> Result<Released, (Out, NotYet)>
        ensures ok { IfOk result (λ released. (released ≡ out) × (out.number < mark)) }
        ensures not_yet { IfErr result (λ back. (back.0 ≡ out) × (back.1.0 ≡ mark) × (mark ≤ out.number)) }
    {
        if out.number() < mark {
            Ok(Released { out })
        } else {
            Err((out, NotYet(mark)))
        }
    }

    /// The command of the frame that may leave.
    pub fn verb(&self) -> Verb
        ensures { result ≡ self.now.frame.verb }
    {
        self.out.verb()
    }

    /// The body of the frame that may leave.
    pub fn body(&self) -> &[u8]
        ensures { result.now ≡ self.now.frame.body }
    {
        self.out.body()
    }

    /// The bytes of the frame that may leave, which can be written.
    pub fn write(&self, alloc: Global) -> Result<Written, AllocError>
        ensures bytes { IfOk result (λ it. it.bytes ≡ written self.now.frame) }
        ensures text { IfOk result (λ it. it.is_text ≡ true → IsUtf8 it.bytes) }
        ensures form { Writable self.now.frame }
    {
        self.out.write(alloc)
    }

    /// The number of the command that the output comes from.
    pub fn number(&self) -> u64
        ensures { result ≡ self.now.number }
    {
        self.out.number()
    }

    /// The session that the output goes to.
    pub fn session(&self) -> u64
        ensures { result ≡ self.now.session }
    {
        self.out.session()
    }
}
