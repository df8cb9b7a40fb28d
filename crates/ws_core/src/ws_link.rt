//! A link over a WebSocket.

ghost use Rattle.std.specs.Prelude.{◌≡◌, ◌≢◌, ◌<◌, ◌≤◌, IfOk, IfErr, OnOk, IsTrue, [], false, true, ◌⊎◌, Some, OnErr, length, not, ℕ};
ghost use Rattle.std.specs.Str.{IsUtf8};
ghost use Rattle.tungstenite.specs.Failure.{IsIo};
ghost use Rattle.tungstenite.specs.declared.error.Error.TheVariants.{OutOfMemory};
ghost use Rattle.tungstenite.specs.Socket.{byte_count, content_of, Flushed, Writes};
ghost use Rattle.tungstenite.specs.Connection.{close_step, write_step};
ghost use Rattle.tungstenite.specs.CloseCode.{close_code_of};
ghost use Rattle.ws_core.specs.Limits.{HasOurLimits};
ghost use Rattle.ws_core.specs.Closing.{breach_code, close_of};
ghost use Rattle.ws_core.specs.Receiving.{Counts, Drops, Hears, Holds};
ghost use Rattle.ws_core.specs.Sending.{IsMessageOf};
ghost use Rattle.ws_core.specs.Pieces.{Feeding, IsFed};

use crate::link::{
    CloseReason, Holding, Link, LinkFault, LinkPhase, MESSAGE_BYTES, Outgoing, READ_BYTES,
    Received, WAITING_BYTES, WRITING_BYTES,
};
use claim_core::Released;
use command_core::Written;
use frame_core::write_frame;
use session_core::Notice;
use std::alloc::{AllocError, Global};
use std::io::{ErrorKind, Read, Write};
use std::marker::Model;
use std::{io, mem};
use tungstenite::{
    Bytes, CloseCode, CloseFrame, Error, Message, NoMask, Role, Utf8Bytes, WebSocket,
    WebSocketConfig,
};
use websocket::error::ProtocolError;

// How many bytes are dropped at most after a close.
const DROPPED_BYTES: u64 = 16_777_216;

/// How many bytes of a message a link gives at a time. A session may find some 50 frames in them, and nobody else has a turn
/// meanwhile.
const PIECE_BYTES: usize = 1_024;

/// A WebSocket over a stream, after its handshake. If a stream has nothing to give, or takes nothing, a read or a write fails with
/// `WouldBlock`; any other failure but `Interrupted` ends the link. Contracts see the socket, how far the link has come, and how many bytes
/// were dropped after the close. They also see whether the stream has not taken all that it was last offered, what is left of a message and
/// how much of it was given, and what the link counts of what it sends and reads.
///
/// A message is given in pieces of 1,024 bytes, one a call: the next message is read once all are.
///
/// A link drops what comes after the peer's close, and after the close of a peer that broke the protocol. Its stream's writing
/// side is shut once all is written. It drops bytes up to the stream's end, but no more than 16,777,216 (RFC 6455, section 7.1.1). For a
/// system resets a connection that is closed before all was read, and then the peer may never read why.
///
/// A message may have 131,072 bytes, and so may a frame of it. A link is `Gone` if a message would make over 1,048,576 bytes wait to be
/// sent. From 65,536 on, a send offers them to the stream, so that many messages may be sent before a flush.
#[derive(Drop)]
pub struct WsLink<S> {
    socket: WebSocket<S, NoMask>,
    phase: LinkPhase,
    held_up: bool,
    dropped: u64,
    // What is left of the last message.
    unfed: Unfed,
    holding: Holding,
}

impl<S> Model for WsLink<S> {
    ghost use Rattle.ws_core.specs.Links.{Linked, linked_code};

    ghost Value = { Linked S };

    ghost coded = { linked_code S.code };

    ghost view = { λ a. record { socket = a.socket; phase = a.phase; held_up = a.held_up; dropped = a.dropped; unfed = a.unfed.left; fed = a.unfed.fed; holding = a.holding } };
}

fn limits() -> WebSocketConfig
    ensures { HasOurLimits result }
{
    WebSocketConfig::default()
        .max_message_size(Some(MESSAGE_BYTES as usize))
        .max_frame_size(Some(MESSAGE_BYTES as usize))
        .max_write_buffer_size(WAITING_BYTES as usize)
        .write_buffer_size(WRITING_BYTES as usize)
        .read_buffer_size(READ_BYTES as usize)
}

impl<S: Read + Write + Drop> WsLink<S> {
    ghost use Rattle.std.specs.Prelude.{◌≡◌, ◌≢◌, OnErr, OnOk, IfErr, length, true};
    ghost use Rattle.std.specs.Str.{IsUtf8};
    ghost use Rattle.tungstenite.specs.Socket.{byte_count, content_of};
    ghost use Rattle.tungstenite.specs.declared.error.Error.TheVariants.{OutOfMemory};
    ghost use Rattle.ws_core.specs.declared.link.LinkPhase.TheVariants.{Open, Over};
    ghost use Rattle.ws_core.specs.Links.{IsReady};
    ghost use Rattle.ws_core.specs.Sending.{CountsOn, CountsPut, Puts, Sends, Refuses};

    /// The link of a client to which this stream leads, and whose handshake is done. No memory is taken.
    pub(crate) fn new(alloc: Global, stream: S) -> WsLink<S>
        ensures ready { IsReady result }
        ensures stream { result.socket.stream ≡ stream }
    {
        let mut socket = WebSocket::from_raw_socket(alloc, stream, NoMask, Role::Server, None);
        socket.set_config(limits());
        WsLink {
            socket,
            phase: LinkPhase::Open,
            held_up: false,
            dropped: 0,
            unfed: Unfed::new(Vec::new(alloc)),
            holding: Holding::new(),
        }
    }

    /// The stream.
    pub fn stream(&self) -> &S
        ensures { result.now ≡ self.now.socket.stream }
    {
        self.socket.get_ref()
    }

    // Sends bytes as one message. The traits call it, so that they are those of a frame that was released, or of a notice.
    fn send_bytes(&mut self, written: Written) -> Result<(), LinkFault>
        requires open { self.old.phase ≡ Open }
        requires text { written.is_text ≡ true → IsUtf8 written.bytes }
        ensures sends { OnOk result (Sends S.contents written.bytes self.old self.new) }
        ensures counts { OnOk result (CountsPut (length written.bytes) self.old self.new) }
        ensures refuses { IfErr result (Refuses self.old self.new) }
        ensures stays { OnErr result (CountsOn self.old self.new) }
    {
        let message = message_of(written)?;
        self.put(message)
    }

    // Puts a message after what waits to be sent.
    fn put(&mut self, message: Message) -> Result<(), LinkFault>
        requires { self.old.phase ≡ Open }
        ensures puts { OnOk result (Puts S.contents (content_of message) self.old self.new) }
        ensures counts { OnOk result (CountsPut (byte_count message) self.old self.new) }
        ensures refuses { IfErr result (Refuses self.old self.new) }
        ensures stays { OnErr result (CountsOn self.old self.new) }
    {
        let bytes = message.len() as u64;
        match put(&mut self.socket, message) {
            Ok(all) => {
                if !all {
                    self.held_up = true;
                }
                self.holding.put(bytes, self.held_up);
                Ok(())
            }
            Err(error) => Err(self.refuse(&error)),
        }
    }

    // What a failed write leaves: a link that is over, unless memory was refused.
    fn refuse(&mut self, error: &Error) -> LinkFault
        ensures memory { error.now ≡ OutOfMemory → (result ≡ LinkFault.Memory) × (self.new ≡ self.old) }
        ensures gone { error.now ≢ OutOfMemory → (result ≡ LinkFault.Gone) × (self.new.phase ≡ Over) }
        ensures stays { CountsOn self.old self.new }
    {
        if matches!(error, Error::OutOfMemory) {
            return LinkFault::Memory;
        }
        self.phase = LinkPhase::Over;
        LinkFault::Gone
    }
}

impl<S: Read + Write + Drop> Outgoing for WsLink<S> {
    ghost use Rattle.std.specs.Prelude.{◌≡◌, IfOk, OnErr, OnOk, IfErr, length};
    ghost use Rattle.frame_core.specs.Written.{written};
    ghost use Rattle.ws_core.specs.Sending.{CountsOn, CountsPut, CountsWritten, Fails, Flushes, IsFlushed, Sends, Refuses};

    ghost refuses = { Refuses };

    ghost flushes = { IsFlushed S.contents };

    ghost is_held_up = { λ a. a.held_up };

    fn send(&mut self, alloc: Global, released: &Released) -> Result<(), LinkFault>
        ensures sends { OnOk result (Sends S.contents (written released.now.frame) self.old self.new) }
        ensures counts { OnOk result (CountsPut (length (written released.now.frame)) self.old self.new) }
        ensures refuses { IfErr result (Refuses self.old self.new) }
        ensures stays { OnErr result (CountsOn self.old self.new) }
    {
        if self.phase != LinkPhase::Open {
            return Err(LinkFault::Gone);
        }
        let written = released.write(alloc).map_err(|_| LinkFault::Memory)?;
        self.send_bytes(written)
    }

    fn flush(&mut self) -> Result<bool, LinkFault>
        ensures flushes { IfOk result (Flushes S.contents self.old self.new) }
        ensures fails { IfErr result (Fails self.old self.new) }
        ensures counts { OnOk result (CountsWritten self.old self.new) }
        ensures stays { OnErr result (CountsOn self.old self.new) }
    {
        if self.phase == LinkPhase::Over {
            return Err(LinkFault::Gone);
        }
        match flush(&mut self.socket) {
            Ok(all) => {
                self.held_up = !all;
                self.holding.settle(self.held_up);
                Ok(all)
            }
            Err(_) => {
                self.phase = LinkPhase::Over;
                Err(LinkFault::Gone)
            }
        }
    }

    fn waits(&self) -> bool
        ensures { result ≡ self.now.held_up }
    {
        self.held_up
    }
}

impl<S: Read + Write + Ending + Drop> Link for WsLink<S> {
    ghost use Rattle.std.specs.Prelude.{◌≡◌, OnErr, OnOk, IfErr, length};
    ghost use Rattle.frame_core.specs.Written.{written};
    ghost use Rattle.ws_core.specs.declared.link.LinkPhase.TheVariants.{Open};
    ghost use Rattle.ws_core.specs.Links.{IsCounted, IsEnded, Keeps};
    ghost use Rattle.ws_core.specs.Receiving.{CountsRead, Receives};
    ghost use Rattle.ws_core.specs.Sending.{CountsOn, CountsPut, CountsWritten, Pings, Sends, Refuses};

    ghost pings = { Pings S.contents };

    ghost keeps = { IsCounted S.count_given };

    fn receive(&mut self, alloc: Global) -> Received
        ensures receives { Receives S.remaining S.contents self.old self.new result }
        ensures counts { CountsRead S.count_given self.old self.new result }
    {
        match self.phase {
            LinkPhase::Open => {
                let received = self.listen(alloc);
                self.note(&received);
                received
            }
            LinkPhase::Closing => {
                let received = hear_close(&mut self.socket);
                self.note(&received);
                received
            }
            LinkPhase::Failed | LinkPhase::Shut => self.leave(),
            LinkPhase::Over => Received::Closed,
        }
    }

    fn held(&self) -> u64
        ensures counted { IsCounted S.count_given self.now result }
        ensures keeps { Keeps self.now result }
    {
        let counted = self.holding.bytes(self.socket.get_ref().given());
        let fed = (self.unfed.fed() as u64).min(MESSAGE_BYTES);
        (counted + fed).saturating_add(self.unfed.len() as u64)
    }

    fn send_direct(&mut self, alloc: Global, notice: &Notice) -> Result<(), LinkFault>
        ensures sends { OnOk result (Sends S.contents (written notice.now) self.old self.new) }
        ensures counts { OnOk result (CountsPut (length (written notice.now)) self.old self.new) }
        ensures refuses { IfErr result (Refuses self.old self.new) }
        ensures stays { OnErr result (CountsOn self.old self.new) }
    {
        if self.phase != LinkPhase::Open {
            return Err(LinkFault::Gone);
        }
        let frame = write_frame(alloc, notice.frame()).map_err(|_| LinkFault::Memory)?;
        let bytes = Bytes::from_vec(frame).map_err(|_| LinkFault::Memory)?;
        self.send_bytes(Written {
            bytes,
            is_text: false,
        })
    }

    fn ping(&mut self) -> Result<(), LinkFault>
        ensures pings { OnOk result (Pings S.contents self.old self.new) }
        ensures counts { OnOk result (CountsPut 0 self.old self.new) }
        ensures refuses { IfErr result (Refuses self.old self.new) }
        ensures stays { OnErr result (CountsOn self.old self.new) }
    {
        if self.phase != LinkPhase::Open {
            return Err(LinkFault::Gone);
        }
        self.put(Message::Ping(Bytes::new()))
    }

    fn end(&mut self, reason: CloseReason) -> Result<(), LinkFault>
        ensures ends { OnOk result (IsEnded S.contents reason self.old self.new) }
        ensures counts { OnOk result (self.old.phase ≡ Open → CountsWritten self.old self.new) }
        ensures refuses { IfErr result (Refuses self.old self.new) }
        ensures stays { OnErr result (CountsOn self.old self.new) }
    {
        match self.phase {
            LinkPhase::Open => {}
            LinkPhase::Failed | LinkPhase::Shut => return Ok(()),
            LinkPhase::Closing | LinkPhase::Over => return Err(LinkFault::Gone),
        }
        match say_close(&mut self.socket, reason) {
            Ok(all) => {
                self.held_up = !all;
                self.holding.settle(self.held_up);
                self.phase = LinkPhase::Closing;
                Ok(())
            }
            Err(error) => Err(self.refuse(&error)),
        }
    }
}

impl<S: Read + Write + Ending + Drop> WsLink<S> {
    ghost use Rattle.std.specs.Prelude.{◌≡◌, ◌≢◌, [], cond, false, not};
    ghost use Rattle.ws_core.specs.Links.{HasFailed};
    ghost use Rattle.ws_core.specs.Holdings.{settled};
    ghost use Rattle.ws_core.specs.Receiving.{Feeds, KeepsFed, Leaves, Listens, after, counted_after};
    ghost use Rattle.ws_core.specs.declared.link.LinkPhase.TheVariants.{Failed, Shut};

    // The next piece of a message: of the one that is left, or of the next one.
    fn listen(&mut self, alloc: Global) -> Received
        ensures listens { Listens S.remaining S.contents self.old self.new result }
        ensures same { self.new ≡ record self.old { socket = self.new.socket; held_up = self.new.held_up; unfed = self.new.unfed; fed = self.new.fed } }
        ensures fed { KeepsFed self.old.fed self.new.unfed result self.new.fed }
        ensures held_up { result ≢ Received.Failed → self.new.held_up ≡ self.old.held_up }
        ensures rest { result ≡ Received.Failed → self.new.held_up ≡ false → self.new.socket.output ≡ [] }
    {
        if self.unfed.len() > 0 {
            return self.feed(alloc);
        }
        match hear(alloc, &mut self.socket, &mut self.held_up) {
            Received::Bytes(message) => {
                drop(mem::replace(&mut self.unfed, Unfed::new(message)));
                self.feed(alloc)
            }
            received => received,
        }
    }

    // The next piece of the message that is left. If memory is refused for it, the link is over.
    fn feed(&mut self, alloc: Global) -> Received
        ensures piece { Feeds self.old.unfed self.new.unfed result }
        ensures fed { KeepsFed self.old.fed self.new.unfed result self.new.fed }
        ensures same { self.new ≡ record self.old { unfed = self.new.unfed; fed = self.new.fed } }
    {
        let Ok(piece) = self.unfed.next(alloc) else {
            return Received::Closed;
        };
        Received::Bytes(piece)
    }

    // Notes how far it has come by what a read gave, and counts that.
    fn note(&mut self, received: &Received)
        ensures { self.new ≡ record self.old { phase = after self.old.phase received.now; holding = counted_after (S.count_given self.old.socket.stream) self.old.held_up received.now self.old.holding } }
    {
        self.holding.read(self.socket.get_ref().given(), received);
        match received {
            Received::Failed => {
                self.holding.settle(self.held_up);
                self.phase = LinkPhase::Failed;
            }
            Received::Closed => self.phase = LinkPhase::Over,
            Received::Bytes(_) | Received::Skipped | Received::Nothing => {}
        }
    }

    // Has what was sent go to the stream, shuts that once nothing waits any more, and drops what comes.
    fn leave(&mut self) -> Received
        requires { HasFailed self.old.phase }
        ensures leaves { Leaves S.contents self.old self.new result }
        ensures counts { result ≢ Received.Closed → self.new.holding ≡ settled self.new.held_up self.old.holding }
        ensures same { (self.new.unfed ≡ self.old.unfed) × (self.new.fed ≡ self.old.fed) }
    {
        let received = match flush(&mut self.socket) {
            Ok(all) => {
                self.shut(all);
                count_dropped(self.socket.get_ref().drop_some(), &mut self.dropped)
            }
            Err(_) => Received::Closed,
        };
        if matches!(received, Received::Closed) {
            self.phase = LinkPhase::Over;
        }
        received
    }

    // Shuts the stream's writing side if all was written, unless it is shut.
    fn shut(&mut self, all: bool)
        ensures { self.new ≡ record self.old { phase = cond all Shut Failed; held_up = not all; holding = settled (not all) self.old.holding } }
    {
        if all && self.phase != LinkPhase::Shut {
            let _ = self.socket.get_ref().shut_down();
        }
        self.phase = if all {
            LinkPhase::Shut
        } else {
            LinkPhase::Failed
        };
        self.held_up = !all;
        self.holding.settle(self.held_up);
    }
}

// Reads once, and answers what came for the STOMP stream. A peer that closes is answered, and one that breaks the protocol is sent the
// reason (RFC 6455, section 7.1.7). Then it also answers whether the stream has taken all of that.
pub fn hear<S: Read + Write + Drop>(
    alloc: Global,
    socket: &mut WebSocket<S, NoMask>,
    held_up: &mut bool,
) -> Received
    ensures hears { Hears S.remaining S.contents socket.old socket.new result }
    ensures same { result ≢ Received.Failed → held_up.new ≡ held_up.old }
    ensures rest { result ≡ Received.Failed → held_up.new ≡ false → socket.new.output ≡ [] }
{
    match socket.read() {
        Ok(Message::Text(text)) => bytes_of(alloc, text.into_bytes()),
        Ok(Message::Binary(bytes)) => bytes_of(alloc, bytes),
        Ok(Message::Ping(_)) | Ok(Message::Pong(_)) => Received::Skipped,
        // The answer to it waits in the socket.
        Ok(Message::Close(_)) => said(flush(socket), held_up),
        Err(error) => {
            if is_wait(&error) {
                return nothing(&error);
            }
            match failure_code(&error) {
                Some(code) => said(say_failure(socket, code), held_up),
                None => Received::Closed,
            }
        }
    }
}

// A link that has sent its last, as far as the stream takes it.
fn said(all: Result<bool, Error>, held_up: &mut bool) -> Received
    ensures ok { IfOk all (λ all. (result ≡ Received.Failed) × (held_up.new ≡ not all)) }
    ensures err { OnErr all ((result ≡ Received.Closed) × (held_up.new ≡ held_up.old)) }
{
    match all {
        Ok(all) => {
            *held_up = !all;
            Received::Failed
        }
        Err(_) => Received::Closed,
    }
}

// Reads once after the close frame was sent, and drops what came, until the peer's close or the stream's end (RFC 6455, section
// 7.1.2).
pub fn hear_close<S: Read + Write + Drop>(socket: &mut WebSocket<S, NoMask>) -> Received
    ensures { Drops S.remaining socket.old socket.new result }
{
    match socket.read() {
        Ok(Message::Close(_)) => Received::Failed,
        Ok(_) => Received::Skipped,
        Err(error) => {
            if is_wait(&error) {
                return nothing(&error);
            }
            match failure_code(&error) {
                Some(_) => Received::Failed,
                None => Received::Closed,
            }
        }
    }
}

// What a read came to whose bytes are dropped. After `DROPPED_BYTES` the link is over. A read that was interrupted counts as a byte.
pub fn count_dropped(read: io::Result<usize>, dropped: &mut u64) -> Received
    ensures { Counts dropped.old dropped.new result }
{
    let count = match read {
        Ok(0) => return Received::Closed,
        Ok(count) => count as u64,
        Err(error) => match error.kind() {
            ErrorKind::WouldBlock => return Received::Nothing,
            ErrorKind::Interrupted => 1,
            _ => return Received::Closed,
        },
    };
    *dropped = dropped.saturating_add(count);
    if *dropped <= DROPPED_BYTES {
        Received::Skipped
    } else {
        Received::Closed
    }
}

// What a read gave that failed only for now. One that was interrupted is to be made again.
fn nothing(error: &Error) -> Received
    ensures { (result ≡ Received.Skipped) ⊎ (result ≡ Received.Nothing) }
{
    match error {
        Error::Io(error) if error.kind() == ErrorKind::Interrupted => Received::Skipped,
        _ => Received::Nothing,
    }
}

// Tells the peer by that code what it did wrong, and answers whether the stream has taken all.
fn say_failure<S: Read + Write + Drop>(
    socket: &mut WebSocket<S, NoMask>,
    code: u16,
) -> Result<bool, Error>
    ensures wrote { OnOk result (Writes S.contents socket.old socket.new (close_step socket.old.conn (Some (close_code_of code, [])))) }
    ensures rest { IfOk result (λ all. all ≡ true → socket.new.output ≡ []) }
{
    let frame = CloseFrame {
        code: CloseCode::from(code),
        reason: Utf8Bytes::new(),
    };
    match socket.close(Some(frame)) {
        Ok(()) => Ok(true),
        Err(error) => held_up(error),
    }
}

// The bytes of a message. They are nobody else's, so they move, and no memory is taken.
fn bytes_of(alloc: Global, bytes: Bytes) -> Received
    ensures { Holds result bytes }
{
    match vec_of(alloc, bytes) {
        Ok(bytes) => Received::Bytes(bytes),
        Err(_) => Received::Closed,
    }
}

// The bytes as a vector; a copy if others share them.
fn vec_of(alloc: Global, bytes: Bytes) -> Result<Vec<u8>, AllocError>
    ensures { IfOk result (λ vec. vec.items ≡ bytes) }
{
    match bytes.try_into_mut() {
        Ok(bytes) => bytes.into_vec().map_err(|_| AllocError),
        Err(bytes) => bytes.as_slice().to_vec(alloc),
    }
}

// Whether the stream only has nothing to give yet. `TimedOut` means something else. A read first sends what waits, such as the answer
// to a ping, and the peer took nothing of it for as long as it was given.
fn is_wait(error: &Error) -> bool
    ensures { IsTrue result → IsIo error.now }
{
    match error {
        Error::Io(error) => {
            matches!(error.kind(), ErrorKind::WouldBlock | ErrorKind::Interrupted)
        }
        _ => false,
    }
}

// The code of what the peer did wrong (RFC 6455, section 7.4.1), if it did.
fn failure_code(error: &Error) -> Option<u16>
    ensures { result ≡ breach_code error.now }
{
    match error {
        Error::Protocol(ProtocolError::ResetWithoutClosingHandshake) => None,
        Error::Protocol(_) => Some(1002),
        Error::Utf8 => Some(1007),
        Error::Capacity(_) => Some(1009),
        _ => None,
    }
}

// A text if the bytes are UTF-8, or else binary. They are looked at unless they are known to be.
pub fn message_of(written: Written) -> Result<Message, LinkFault>
    requires { written.is_text ≡ true → IsUtf8 written.bytes }
    ensures ok { IfOk result (λ message. IsMessageOf written.bytes (content_of message)) }
    ensures count { IfOk result (λ message. byte_count message ≡ length written.bytes) }
    ensures err { IfErr result (λ fault. fault ≡ LinkFault.Memory) }
{
    let Written { bytes, is_text } = written;
    if is_text {
        return Ok(Message::Text(Utf8Bytes::from_known_utf8(bytes)));
    }
    match Utf8Bytes::from_utf8(bytes) {
        Ok(text) => Ok(Message::Text(text)),
        Err(error) => Ok(Message::Binary(error.bytes)),
    }
}

// Puts a message after what waits to be sent, and answers whether the stream has taken all that it was offered.
pub fn put<S: Read + Write + Drop>(
    socket: &mut WebSocket<S, NoMask>,
    message: Message,
) -> Result<bool, Error>
    ensures wrote { OnOk result (Writes S.contents socket.old socket.new (write_step socket.old.conn (content_of message))) }
    ensures memory { IfErr result (λ error. error ≡ OutOfMemory → socket.new ≡ socket.old) }
{
    match socket.write(message) {
        Ok(()) => Ok(true),
        Err(error) => held_up(error),
    }
}

// Writes what waits to be sent, and answers whether the stream has taken all of it.
pub fn flush<S: Read + Write + Drop>(socket: &mut WebSocket<S, NoMask>) -> Result<bool, Error>
    ensures wrote { OnOk result (Flushed S.contents socket.old socket.new) }
    ensures rest { IfOk result (λ all. all ≡ true → socket.new.output ≡ []) }
    ensures failed { IfErr result IsIo }
{
    match socket.flush() {
        Ok(()) => Ok(true),
        Err(error) => held_up(error),
    }
}

// Puts the close frame after what waits to be sent, writes all that, and answers whether the stream has taken it.
pub fn say_close<S: Read + Write + Drop>(
    socket: &mut WebSocket<S, NoMask>,
    reason: CloseReason,
) -> Result<bool, Error>
    ensures wrote { OnOk result (Writes S.contents socket.old socket.new (close_step socket.old.conn (close_of reason))) }
    ensures rest { IfOk result (λ all. all ≡ true → socket.new.output ≡ []) }
    ensures memory { IfErr result (λ error. error ≡ OutOfMemory → socket.new ≡ socket.old) }
{
    match socket.close(Some(reason.frame())) {
        Ok(()) => Ok(true),
        Err(error) => held_up(error),
    }
}

// What a write that failed came to: if the stream only takes nothing more now, what it has not taken waits.
fn held_up(error: Error) -> Result<bool, Error>
    ensures now { IfOk result (λ all. (all ≡ false) × IsIo error) }
    ensures failed { IfErr result (λ same. same ≡ error) }
{
    if is_wait(&error) {
        return Ok(false);
    }
    Err(error)
}

/// The bytes of a whole message that are still to be fed. Contracts see these, and how many were fed and are kept with them.
#[derive(Drop)]
pub struct Unfed {
    message: Vec<u8>,
    // How many of its bytes were fed.
    fed: usize,
}

impl Model for Unfed {
    ghost use Rattle.std.specs.Prelude.{◌≡◌, ◌≤◌, [], drop, length};
    ghost use Rattle.ws_core.specs.Pieces.{Feeding};

    ghost Value = { Feeding };

    ghost view = { λ a. record { left = drop a.fed a.message.items; fed = a.fed } };

    ghost invariant = { λ a. (a.fed ≤ length a.message.items) × (length a.message.items ≡ a.fed → a.fed ≡ 0) };
}

impl Unfed {
    /// A message of which nothing was fed.
    pub fn new(message: Vec<u8>) -> Unfed
        ensures { result ≡ record { left = message.items; fed = 0 } }
    {
        Unfed { message, fed: 0 }
    }

    /// How many bytes are left.
    pub fn len(&self) -> usize
        ensures left { result ≡ length self.now.left }
        ensures none { result ≡ 0 → self.now.fed ≡ 0 }
    {
        self.message.len() - self.fed
    }

    /// How many bytes are kept beside these, since they were fed.
    pub fn fed(&self) -> usize
        ensures { result ≡ self.now.fed }
    {
        self.fed
    }

    /// The next piece. If memory is refused for it, nothing has changed. Of a message that is wholly fed nothing is kept.
    pub fn next(&mut self, alloc: Global) -> Result<Vec<u8>, AllocError>
        ensures ok { IfOk result (λ piece. IsFed self.old piece.items self.new) }
        ensures err { OnErr result (self.new ≡ self.old) }
    {
        let left = self.message.len() - self.fed;
        if left > PIECE_BYTES {
            return self.cut(alloc);
        }
        let piece = if self.fed == 0 {
            mem::replace(&mut self.message, Vec::new(alloc))
        } else {
            let last = self.message[self.fed..].to_vec(alloc)?;
            drop(mem::replace(&mut self.message, Vec::new(alloc)));
            last
        };
        self.fed = 0;
        Ok(piece)
    }

    // A piece after which more are left.
    fn cut(&mut self, alloc: Global) -> Result<Vec<u8>, AllocError>
        requires { PIECE_BYTES < length self.old.left }
        ensures ok { IfOk result (λ piece. IsFed self.old piece.items self.new) }
        ensures err { OnErr result (self.new ≡ self.old) }
    {
        let end = self.fed + PIECE_BYTES;
        let piece = self.message[self.fed..end].to_vec(alloc)?;
        self.fed = end;
        Ok(piece)
    }
}

/// A stream that can be brought to its end by a caller that shares it. No contract sees what that does: a stream that shows contracts
/// what it has to give, or what it holds, is to show the same afterwards.
pub trait Ending {
    /// How many bytes came for its reads in all, if it counts them.
    ghost count_given: { Self → ℕ } = { λ _. 0 };

    /// Reads some bytes and drops them, and answers how many: none if the stream has ended. It is `WouldBlock` if there are none now.
    fn drop_some(&self) -> io::Result<usize>;

    /// Says that nothing more will be written. The peer finds the stream's end after what was written.
    fn shut_down(&self) -> io::Result<()>;

    /// How many bytes came for its reads in all, with those that it keeps for the next one, and without those that were dropped; 0 if it
    /// counts none.
    fn given(&self) -> u64
        ensures { result ≡ count_given self.now };
}
