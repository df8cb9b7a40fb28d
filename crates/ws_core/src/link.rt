//! What the broker asks of a connection.

ghost use Rattle.std.specs.Prelude.{◌≡◌, ℕ, List, Bool, false, not, Option, None, IfOk, OnOk, OnErr, IfErr, ⊤};
ghost use Rattle.frame_core.specs.Written.{written};
ghost use Rattle.ws_core.specs.Receiving.{with_received};
ghost use Rattle.ws_core.specs.Sending.{with_message};
ghost use Rattle.ws_core.specs.Holdings.{whole_after};

use claim_core::Released;
use session_core::Notice;
use std::alloc::Global;
use std::marker::Model;
use thiserror::Error;
use tungstenite::{CloseCode, CloseFrame, Utf8Bytes};

/// The most bytes that may wait to be sent.
pub const WAITING_BYTES: u64 = 1_048_576;

/// How many of them a send leaves to the next flush.
pub const WRITING_BYTES: u64 = 65_536;

/// The most bytes of a message that a peer may send, and of a frame of it.
pub const MESSAGE_BYTES: u64 = 131_072;

/// What one read of the stream asks for. A peer may fill it with the smallest fragments, some 700, before others have their turns.
pub const READ_BYTES: u64 = 4_096;

// The most bytes that are read of a message before it is whole.
const UNREAD_BYTES: u64 = MESSAGE_BYTES + READ_BYTES;

// The most bytes that a ping or a pong of a client takes (RFC 6455, section 5.5): its head, its mask and its payload.
const CONTROL_BYTES: u64 = 131;

/// What one read of a link gave.
#[derive(Drop)]
pub enum Received {
    /// The next bytes of the peer's STOMP stream. A frame may be cut over several of these.
    Bytes(Vec<u8>),
    /// Nothing for the STOMP stream: a ping or a pong, or a message that came after the link's end. More may be there at once.
    Skipped,
    /// The stream has nothing to give now. There may be more once it can be read again, or, if some bytes wait, once it takes bytes
    /// again.
    Nothing,
    /// The peer broke the protocol and was sent its close code, or it has closed and was answered. The link is ended: it sends nothing
    /// more, and drops what comes until the stream's end. Then it is `Closed`.
    Failed,
    /// The peer has closed, or the link has failed, perhaps because memory was refused. It is over for good.
    Closed,
}

/// The part of a connection that sends what may leave. Each frame goes out as one message. A caller that has this alone can neither
/// read the connection nor close it. No call waits.
///
/// A link may show what was sent: then contracts see a list of the messages, to which only a send that answers Ok adds one. It may
/// show what was received: then they see all the bytes that reads gave, to which only a read adds. It may also show what a refusal
/// leaves, by its fault: then nobody can take one fault for another. And it may show what a flush does.
pub trait Outgoing {
    ghost use Rattle.ws_core.specs.declared.link.LinkFault.{LinkFault};

    /// The messages that were sent, if the link shows them.
    ghost sent: { Self → Option (List (List ℕ)) } = { λ _. None };

    /// The bytes that were received, if the link shows them.
    ghost received: { Self → Option (List ℕ) } = { λ _. None };

    /// What a refusal with that fault leaves, if the link shows it: the link before the call, and after it.
    ghost refuses: { Self → Self → LinkFault → Type 0 } = { λ _ _ _. ⊤ };

    /// What a flush does, if the link shows it: the link before the call, and after it.
    ghost flushes: { Self → Self → Type 0 } = { λ _ _. ⊤ };

    /// Whether the stream has not taken all that it was last offered.
    ghost is_held_up: { Self → Bool } = { λ _. false };

    /// Sends what may leave as one message, after all that was sent before. It is Ok even if the stream takes only a part now, or
    /// nothing: the rest waits in the link, and leaves by later calls. `flush` has all leave that was sent since the last one, in as
    /// few writes as can be.
    ///
    /// `Memory` leaves the link as it was, and the call may be made again. `Gone` says that the link was ended or over, or now is
    /// over. It is also over if too much waits, which never happens if nothing is sent while `waits`.
    fn send(&mut self, alloc: Global, released: &Released) -> Result<(), LinkFault>
        ensures told { OnOk result (sent self.new ≡ with_message (written released.now.frame) (sent self.old)) }
        ensures untold { OnErr result (sent self.new ≡ sent self.old) }
        ensures unread { received self.new ≡ received self.old }
        ensures memory { IfErr result (λ fault. fault ≡ LinkFault.Memory → self.new ≡ self.old) }
        ensures refused { IfErr result (λ fault. refuses self.old self.new fault) };

    /// Writes what waits, as far as the stream takes it, and answers whether nothing waits any more. `Gone` says that the link was
    /// over or now is.
    fn flush(&mut self) -> Result<bool, LinkFault>
        ensures told { sent self.new ≡ sent self.old }
        ensures unread { received self.new ≡ received self.old }
        ensures flushes { flushes self.old self.new }
        ensures rest { IfOk result (λ all. is_held_up self.new ≡ not all) }
        ensures gone { IfErr result (λ fault. fault ≡ LinkFault.Gone) };

    /// Whether the stream has not taken all that it was last offered; after a flush, whether something waits to be written. While
    /// this is so, nothing more should be sent. A flush ends it once the stream takes bytes again.
    fn waits(&self) -> bool
        ensures { result ≡ is_held_up self.now };
}

/// A connection to one client, which carries one STOMP stream each way. A link may show what a ping does, and how much it keeps.
pub trait Link: Outgoing {
    /// What a ping that is Ok does, if the link shows it: the link before the call, and after it.
    ghost pings: { Self → Self → Type 0 } = { λ _ _. ⊤ };

    /// That a link may answer that it keeps that many bytes. One that doesn't show this keeps none.
    ghost keeps: { Self → ℕ → Type 0 } = { λ _ bytes. bytes ≡ 0 };

    /// Reads one message, or as much of it as there is. A link that was ended drops what comes, until the stream's end. A link that
    /// is over answers `Closed`.
    fn receive(&mut self, alloc: Global) -> Received
        ensures told { Self.sent self.new ≡ Self.sent self.old }
        ensures read { Self.received self.new ≡ with_received result (Self.received self.old) };

    /// Sends an ERROR that doesn't wait for the broker, as `send` does: one that a session made, and not the broker.
    fn send_direct(&mut self, alloc: Global, notice: &Notice) -> Result<(), LinkFault>
        ensures told { OnOk result (Self.sent self.new ≡ with_message (written notice.now) (Self.sent self.old)) }
        ensures untold { OnErr result (Self.sent self.new ≡ Self.sent self.old) }
        ensures unread { Self.received self.new ≡ Self.received self.old }
        ensures memory { IfErr result (λ fault. fault ≡ LinkFault.Memory → self.new ≡ self.old) };

    /// Sends a ping with no payload (RFC 6455, section 5.5.2), as `send` does. It is no message of the STOMP stream.
    fn ping(&mut self) -> Result<(), LinkFault>
        ensures told { Self.sent self.new ≡ Self.sent self.old }
        ensures unread { Self.received self.new ≡ Self.received self.old }
        ensures pings { OnOk result (pings self.old self.new) }
        ensures memory { IfErr result (λ fault. fault ≡ LinkFault.Memory → self.new ≡ self.old) }
        ensures refused { IfErr result (λ fault. Self.refuses self.old self.new fault) };

    /// How many bytes it keeps, as far as it knows: those that wait to be written, and those of a message that isn't whole yet.
    fn held(&self) -> u64
        ensures { keeps self.now result };

    /// Says the close with that reason, after all that was sent, as far as the stream takes it; the rest leaves by later calls. From
    /// then on the link sends nothing, and `receive` reads the peer's close. A link that has answered `Failed` sends nothing more and
    /// stays as it is: that is Ok. `Memory` leaves the link as it was. `Gone` says that it was ended or over, or that its stream
    /// failed.
    fn end(&mut self, reason: CloseReason) -> Result<(), LinkFault>
        ensures told { Self.sent self.new ≡ Self.sent self.old }
        ensures unread { Self.received self.new ≡ Self.received self.old }
        ensures memory { IfErr result (λ fault. fault ≡ LinkFault.Memory → self.new ≡ self.old) };
}

/// Why the broker closes a connection (RFC 6455, section 7.4.1).
#[derive(Clone, Copy)]
pub enum CloseReason {
    /// The client has sent DISCONNECT: 1000.
    NormalClosure,
    /// The broker stops, or has given the connection up: 1001.
    GoingAway,
    /// The client was sent an ERROR: 1002.
    ProtocolError,
}

impl CloseReason {
    ghost use Rattle.std.specs.Prelude.{◌≡◌, [], Some};
    ghost use Rattle.tungstenite.specs.CloseCode.{close_code_of};
    ghost use Rattle.ws_core.specs.Closing.{code_of};

    /// Its number on the wire.
    pub fn code(self) -> u16
        ensures { result ≡ code_of self }
    {
        match self {
            CloseReason::NormalClosure => 1000,
            CloseReason::GoingAway => 1001,
            CloseReason::ProtocolError => 1002,
        }
    }

    // Its close frame, with no text.
    pub(crate) fn frame(self) -> CloseFrame
        ensures code { result.code ≡ close_code_of (code_of self) }
        ensures reason { result.reason ≡ [] }
    {
        CloseFrame {
            code: CloseCode::from(self.code()),
            reason: Utf8Bytes::new(),
        }
    }
}

/// Why a link did not do what it was asked.
#[derive(Clone, Copy, Debug, PartialEq, Eq, Error)]
pub enum LinkFault {
    /// Memory was refused. A link is unchanged; a connection that was to be accepted is given up.
    #[error("no memory")]
    Memory,
    /// The stream or the handshake failed, or too much waits to be sent. The link is over for good.
    #[error("connection gone")]
    Gone,
}

/// How far a link has come.
#[derive(Clone, Copy, PartialEq, Eq)]
pub enum LinkPhase {
    /// It reads and sends.
    Open,
    /// It was ended: it sends no more, and reads the peer's close (RFC 6455, section 7.1.2).
    Closing,
    /// The peer has closed, or has broken the protocol and was sent the reason. The link sends nothing more, and drops what comes
    /// until the stream's end (section 7.1.1).
    Failed,
    /// The same, and all that it sent was written: the stream's writing side is shut.
    Shut,
    /// It is over for good.
    Over,
}

/// What a link counts of what it sends and reads. Contracts see all three counts.
///
/// What is counted may be more than it is. What wasn't sent has messages of up to 64 KiB that the stream has taken, until a flush. What was
/// read has the heads of a message's fragments. The socket grows by doubling, and keeps what it has.
#[derive(Drop)]
pub struct Holding {
    // How many bytes of messages were put into the socket since nothing waited there.
    unsent: u64,
    // How many bytes the stream had given when the last message was whole.
    whole: u64,
    // The most bytes that were read of a message before it was whole. From then on the socket has room for twice as many.
    most_read: u64,
}

impl Model for Holding {
    ghost use Rattle.std.specs.Prelude.{◌≤◌};
    ghost use Rattle.ws_core.specs.Holdings.{HoldingValue};

    ghost Value = { HoldingValue };

    ghost view = { λ a. record { unsent = a.unsent; whole = a.whole; most_read = a.most_read } };

    ghost invariant = { λ a. (a.unsent ≤ 1048576) × (a.most_read ≤ 135168) };
}

impl Holding {
    ghost use Rattle.std.specs.Prelude.{◌≤◌, ◌+◌, ◌*◌};
    ghost use Rattle.ws_core.specs.Holdings.{held_by, most_read_by, nothing_held, settled, with_put, with_read};

    /// Nothing was put in or read.
    pub fn new() -> Holding
        ensures { result ≡ nothing_held }
    {
        Holding {
            unsent: 0,
            whole: 0,
            most_read: 0,
        }
    }

    /// A message of that many bytes was put into the socket, and by then the stream is held up or not. From `WRITING_BYTES` on all was offered
    /// to the stream, which has taken it unless it is held up.
    pub fn put(&mut self, bytes: u64, held_up: bool)
        ensures { self.new ≡ with_put bytes held_up self.old }
    {
        self.unsent = self.unsent.saturating_add(bytes).min(WAITING_BYTES);
        self.settle(self.unsent < WRITING_BYTES || held_up);
    }

    /// What waited was offered to the stream, which has taken it unless it is held up.
    pub fn settle(&mut self, held_up: bool)
        ensures { self.new ≡ settled held_up self.old }
    {
        if !held_up {
            self.unsent = 0;
        }
    }

    /// A read came to that, and by then the stream has given `given` bytes.
    pub fn read(&mut self, given: u64, received: &Received)
        ensures { self.new ≡ with_read given received.now self.old }
    {
        self.most_read = self.most_read(given);
        self.whole = whole_after(given, received, self.whole);
    }

    /// How many bytes are counted, once the stream has given `given`.
    pub fn bytes(&self, given: u64) -> u64
        ensures exact { result ≡ held_by given self.now }
        ensures most { result ≤ 1048576 + 2 * (131072 + 4096) }
    {
        self.unsent + 2 * self.most_read(given)
    }

    // The most bytes that were read of a message, once the stream has given `given`.
    fn most_read(&self, given: u64) -> u64
        ensures exact { result ≡ most_read_by given self.now }
        ensures most { result ≤ 135168 }
    {
        self.most_read
            .max(given.saturating_sub(self.whole))
            .min(UNREAD_BYTES)
    }
}

// How many bytes the stream had given when the last message was whole. A ping or a pong is no part of a message.
fn whole_after(given: u64, received: &Received, whole: u64) -> u64
    ensures { result ≡ whole_after given received.now whole }
{
    match received {
        Received::Bytes(_) => given,
        Received::Skipped => whole.saturating_add(CONTROL_BYTES).min(given),
        Received::Nothing | Received::Failed | Received::Closed => whole,
    }
}
