//! Where the bells of outboxes come from, and how many clients a worker has.

ghost use Rattle.std.specs.Prelude.{◌≤◌};
ghost use Rattle.claim_core.specs.declared.limits.TheConstants.{WINDOW};

use claim_core::WINDOW;
use command_core::Op;
use outbox_core::{Bell, Silent};
use session_core::Notice;
use std::alloc::AllocError;

/// How many clients a worker has at a time at most, counting those that are only answered that the server is full. Each has a
/// number at its worker, which is under this.
pub const CLIENTS: usize = 512;

/// For how many milliseconds clients to which memory was refused wait before they try again.
pub(crate) const SHORTAGE: u64 = 20;

/// Makes the bell that the outbox of a worker's session rings. It is for a worker that waits within its link's `receive`,
/// and is to hear of outputs there.
pub trait Wakers<B: Bell> {
    /// A bell. If memory is refused, the worker asks again in its next turn.
    fn bell(&self) -> Result<B, AllocError>;

    /// How many commands of the desk may be under way, with one of this operation that comes next: none while it has to wait for others.
    fn window(&self, _op: &Op) -> usize
        ensures { result ≤ WINDOW }
    {
        WINDOW
    }

    /// The command that was asked about last has got that ticket.
    fn appended(&self, _ticket: u64) {}

    /// The client was sent this ERROR, which doesn't wait for the broker.
    fn answered(&self, _notice: &Notice) {}

    /// The client's outbox had no room for an output, and was cut: it is given up.
    fn cut(&self) {}
}

impl Wakers<Silent> for Silent {
    fn bell(&self) -> Result<Silent, AllocError> {
        Ok(Silent)
    }
}
