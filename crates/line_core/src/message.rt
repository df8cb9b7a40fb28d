//! A message on its way.

ghost use Rattle.std.specs.Prelude.{◌≡◌, ◌+◌, ◌<◌, ◌≤◌, ◌*◌, ◌^◌, List, ℕ, length};
ghost use Rattle.std.specs.List.{sum_by, AllByRecursion};
ghost use Rattle.command_core.specs.Sendings.{IsKept, IsSending};
ghost use Rattle.line_core.specs.Messages.{header_size, size_of};

use command_core::Sending;
use frame_core::Text;

/// The number of a message: that of the command that sent it, and the message's place among the members of that
/// command, which is 0 for a plain SEND.
#[derive(Clone, Copy, PartialEq, Eq, PartialOrd, Ord)]
pub struct MessageNumber {
    /// The number of the command, from 0.
    pub command: u64,
    /// The place among its members, from 0.
    pub place: u32,
}

/// A message: its number, and what was sent where.
#[derive(Clone, Drop)]
pub struct Message {
    /// Its number, by which messages stand in a line.
    pub number: MessageNumber,
    /// Its destination, headers and body.
    pub sending: Sending,
}

/// The bytes of the names and values.
fn headers_size(headers: &[(Text, Text)]) -> usize
    requires few { length headers.now ≤ 64 }
    requires each { AllByRecursion IsKept headers.now }
    ensures size { result ≡ sum_by header_size headers.now }
    ensures small { result ≤ 64 * 16384 }
{
    let mut size = 0;
    for (name, value) in headers {
        size += name.as_str().len() + value.as_str().len();
    }
    size
}

/// The bytes that what is sent counts for: those of its destination, of its headers' names and values, and of its
/// body.
pub fn size(sending: &Sending) -> usize
    ensures size { result ≡ size_of sending.now }
    ensures small { result < 2 ^ 21 }
{
    let destination = sending.destination().as_str().len();
    let body = sending.body().as_slice().len();
    destination + headers_size(sending.headers().as_slice()) + body
}
