//! Why a client gets no WebSocket, and how it is told so.

ghost use Rattle.std.specs.Prelude.{◌≡◌, IfOk, string_bytes, ◌≤◌, ◌==◌, ◌++◌, IfErr, OnOk, length, take, false, true};
ghost use Rattle.ws_core.specs.Handshakes.{body_of, content_of, further_fields, refusal_bytes, refusal_of, status_line, WritesOn, accepting, response_to};
ghost use Rattle.ws_core.specs.Receiving.{Counts};

use crate::handshake::Answer;
use crate::link::{LinkFault, Received};
use crate::ws_link::{Ending, count_dropped};
use httparse::Header;
use std::alloc::{AllocError, Global};
use std::io::{ErrorKind, Write};
use websocket::handshake::HandshakeError;
use websocket::handshake::server::write_response;

// How many writes one call makes at most. No response has so many bytes.
const MOST_WRITES: usize = 1_024;

/// Why a client that asks for a WebSocket, or for something else, is refused.
#[derive(Clone, Copy)]
pub enum Refusal {
    /// 400: its head is no request's, it has no Host or two, its key is missing or not of 16 bytes, its key or its version stands
    /// there twice, or it announces a body in pieces.
    Malformed,
    /// 400: it offers only other subprotocols, such as `v10.stomp` and `v11.stomp`.
    OtherProtocol,
    /// 403: it comes from a page of an origin that is not served.
    Foreign,
    /// 405: it asks by another method than GET.
    Method,
    /// 426: it asks for no WebSocket.
    NoUpgrade,
    /// 426: it asks for another version of WebSocket than 13.
    Version,
    /// 431: its head has more than 16,384 bytes or 124 fields.
    TooLarge,
    /// 503: it would get one, but the server takes no more clients now. The answer asks it to come again in ten seconds.
    Full,
}

impl Refusal {
    /// What the client is sent: a response of HTTP/1.1 with a short text, after which the connection is closed. The answer to a HEAD has no
    /// text, but has the length that it would have (RFC 9110, section 9.3.2).
    pub fn response(self, alloc: Global, is_head: bool) -> Result<String, AllocError>
        ensures { IfOk result (λ text. string_bytes text ≡ refusal_bytes is_head self) }
    {
        let (status, fields, content) = (
            self.status_line(),
            self.further_fields(),
            self.content(is_head),
        );
        let size = self.body().len();
        format!(in alloc;
            "HTTP/1.1 {status}\r\n{fields}Content-Type: text/plain\r\nContent-Length: {size}\r\n\r\n{content}"
        )
    }

    // The text that is sent.
    fn content(self, is_head: bool) -> &'static str
        ensures { result.now ≡ content_of is_head self }
    {
        if is_head { "" } else { self.body() }
    }

    fn status_line(self) -> &'static str
        ensures { result.now ≡ status_line self }
    {
        match self {
            Refusal::Malformed => "400 Bad Request",
            Refusal::OtherProtocol => "400 Bad Request",
            Refusal::Foreign => "403 Forbidden",
            Refusal::Method => "405 Method Not Allowed",
            Refusal::NoUpgrade => "426 Upgrade Required",
            Refusal::Version => "426 Upgrade Required",
            Refusal::TooLarge => "431 Request Header Fields Too Large",
            Refusal::Full => "503 Service Unavailable",
        }
    }

    // The fields with which the client may try again.
    fn further_fields(self) -> &'static str
        ensures { result.now ≡ further_fields self }
    {
        match self {
            Refusal::Malformed => "Connection: close\r\n",
            Refusal::OtherProtocol => "Connection: close\r\n",
            Refusal::Foreign => "Connection: close\r\n",
            Refusal::Method => "Connection: close\r\nAllow: GET\r\n",
            Refusal::NoUpgrade => {
                "Connection: close, Upgrade\r\nUpgrade: websocket\r\nSec-WebSocket-Version: 13\r\n"
            }
            Refusal::Version => {
                "Connection: close, Upgrade\r\nUpgrade: websocket\r\nSec-WebSocket-Version: 13\r\n"
            }
            Refusal::TooLarge => "Connection: close\r\n",
            Refusal::Full => "Connection: close\r\nRetry-After: 10\r\n",
        }
    }

    fn body(self) -> &'static str
        ensures { result.now ≡ body_of self }
    {
        match self {
            Refusal::Malformed => {
                "This is no proper request for a WebSocket. This server speaks STOMP over WebSocket alone.\n"
            }
            Refusal::OtherProtocol => {
                "This server speaks STOMP 1.2 alone: offer the subprotocol v12.stomp.\n"
            }
            Refusal::Foreign => "This server does not serve pages of your origin.\n",
            Refusal::Method => "A WebSocket is asked for by GET.\n",
            Refusal::NoUpgrade => {
                "This is a server for WebSockets alone: connect with ws:// in place of http://.\n"
            }
            Refusal::Version => "This server speaks version 13 of WebSocket alone.\n",
            Refusal::TooLarge => "The head of this request is too large.\n",
            Refusal::Full => "This server has as many clients as it takes.\n",
        }
    }
}

// The refusal of what a request lacks.
pub fn refusal_of(lacking: HandshakeError) -> Refusal
    ensures { result ≡ refusal_of lacking }
{
    match lacking {
        HandshakeError::WrongHttpMethod => Refusal::Method,
        HandshakeError::WrongHttpVersion
        | HandshakeError::MissingConnectionUpgradeHeader
        | HandshakeError::MissingUpgradeWebSocketHeader => Refusal::NoUpgrade,
        HandshakeError::MissingSecWebSocketVersionHeader => Refusal::Version,
        _ => Refusal::Malformed,
    }
}

/// A stream on which all was written: its writing side is shut, and what comes is dropped, 16,777,216 bytes at most. A system resets a
/// connection that is closed before all was read, and then the peer may never read why it was refused. How long that takes is the caller's
/// to limit. Contracts see how many bytes were dropped.
#[derive(Drop)]
pub struct Farewell<S> {
    stream: S,
    dropped: u64,
}

impl<S: Ending> Farewell<S> {
    ghost use Rattle.std.specs.Prelude.{◌≡◌};

    /// Shuts the stream's writing side.
    pub fn new(stream: S) -> Farewell<S>
        ensures { result ≡ record { stream = stream; dropped = 0 } }
    {
        let _ = stream.shut_down();
        Farewell { stream, dropped: 0 }
    }

    /// Drops some of what has come. It is `Skipped` if there may be more at once, `Nothing` if there is none now, and `Closed` once the
    /// stream has ended or failed, or has given too much.
    pub fn go_on(&mut self) -> Received
        ensures counts { Counts self.old.dropped self.new.dropped result }
        ensures same { self.new ≡ record self.old { dropped = self.new.dropped } }
    {
        count_dropped(self.stream.drop_some(), &mut self.dropped)
    }
}

/// An answer, its whole response, and how many bytes of that were written.
#[derive(Drop)]
pub struct Saying {
    pub answer: Answer,
    pub response: Vec<u8>,
    pub said: usize,
}

impl Saying {
    /// An answer of which nothing was written yet, to a HEAD or not. It fails only if memory is refused.
    pub fn new(alloc: Global, answer: Answer, is_head: bool) -> Result<Saying, LinkFault>
        ensures said { IfOk result (λ saying. (saying.answer ≡ answer) × (saying.said ≡ 0)) }
        ensures response { IfOk result (λ saying. saying.response.items ≡ response_to is_head answer) }
        ensures memory { IfErr result (λ fault. fault ≡ LinkFault.Memory) }
    {
        let response = response_to(alloc, answer, is_head)?;
        Ok(Saying {
            answer,
            response,
            said: 0,
        })
    }

    /// Writes on, as far as the stream takes it, and answers whether the whole response is written. It is `Gone` if the stream
    /// fails.
    pub fn go_on<S: Write>(&mut self, stream: &mut S) -> Result<bool, LinkFault>
        requires { self.old.said ≤ length self.old.response.items }
        ensures same { (self.new.answer ≡ self.old.answer) × (self.new.response ≡ self.old.response) }
        ensures within { self.new.said ≤ length self.new.response.items }
        ensures wrote { OnOk result (WritesOn (S.contents stream.old) (S.contents stream.new) (take self.old.said self.old.response.items) (take self.new.said self.new.response.items)) }
        ensures all { IfOk result (λ all. all ≡ true → self.new.said ≡ length self.new.response.items) }
        ensures gone { IfErr result (λ fault. fault ≡ LinkFault.Gone) }
    {
        say(stream, self.response.as_slice(), &mut self.said)?;
        Ok(self.said == self.response.len())
    }
}

// The whole response of an answer.
fn response_to(alloc: Global, answer: Answer, is_head: bool) -> Result<Vec<u8>, LinkFault>
    ensures response { IfOk result (λ response. response.items ≡ response_to is_head answer) }
    ensures memory { IfErr result (λ fault. fault ≡ LinkFault.Memory) }
{
    match answer {
        Answer::Accept(accept_key, has_stomp) => acceptance(alloc, &accept_key, has_stomp),
        Answer::Refuse(refusal) => refusing(alloc, refusal, is_head),
    }
}

fn refusing(alloc: Global, refusal: Refusal, is_head: bool) -> Result<Vec<u8>, LinkFault>
    ensures response { IfOk result (λ response. response.items ≡ refusal_bytes is_head refusal) }
    ensures memory { IfErr result (λ fault. fault ≡ LinkFault.Memory) }
{
    match refusal.response(alloc, is_head) {
        Ok(response) => Ok(response.into_bytes()),
        Err(_) => Err(LinkFault::Memory),
    }
}

// The response that the WebSocket is there, with its subprotocol.
fn acceptance(alloc: Global, accept_key: &[u8; 28], has_stomp: bool) -> Result<Vec<u8>, LinkFault>
    ensures response { IfOk result (λ response. response.items ≡ accepting accept_key.now has_stomp) }
    ensures memory { IfErr result (λ fault. fault ≡ LinkFault.Memory) }
{
    let mut response = Vec::new(alloc);
    match put_acceptance(accept_key, has_stomp, &mut response) {
        Ok(()) => Ok(response),
        Err(_) => Err(LinkFault::Memory),
    }
}

fn put_acceptance(
    accept_key: &[u8; 28],
    has_stomp: bool,
    response: &mut Vec<u8>,
) -> Result<(), HandshakeError>
    ensures { OnOk result (response.new.items ≡ response.old.items ++ accepting accept_key.now has_stomp) }
{
    if has_stomp {
        put_stomp(accept_key, response)
    } else {
        put_plain(accept_key, response)
    }
}

fn put_stomp(accept_key: &[u8; 28], response: &mut Vec<u8>) -> Result<(), HandshakeError>
    ensures { OnOk result (response.new.items ≡ response.old.items ++ accepting accept_key.now true) }
{
    let subprotocol = Header {
        name: "sec-websocket-protocol",
        value: b"v12.stomp",
    };
    write_response(accept_key, &[subprotocol], response)
}

fn put_plain(accept_key: &[u8; 28], response: &mut Vec<u8>) -> Result<(), HandshakeError>
    ensures { OnOk result (response.new.items ≡ response.old.items ++ accepting accept_key.now false) }
{
    write_response(accept_key, &[], response)
}

// Writes what is left of a response, as far as the stream takes it.
fn say<S: Write>(stream: &mut S, response: &[u8], said: &mut usize) -> Result<(), LinkFault>
    requires { said.old ≤ length response.now }
    ensures within { said.new ≤ length response.now }
    ensures wrote { OnOk result (WritesOn (S.contents stream.old) (S.contents stream.new) (take said.old response.now) (take said.new response.now)) }
    ensures gone { IfErr result (λ fault. fault ≡ LinkFault.Gone) }
{
    for _write in 0..MOST_WRITES {
        if *said >= response.len() || !say_piece(stream, response, said)? {
            return Ok(());
        }
    }
    Err(LinkFault::Gone)
}

// Writes once, and answers whether the stream may take more now.
fn say_piece<S: Write>(stream: &mut S, response: &[u8], said: &mut usize) -> Result<bool, LinkFault>
    requires { said.old ≤ length response.now }
    ensures within { said.new ≤ length response.now }
    ensures wrote { OnOk result (WritesOn (S.contents stream.old) (S.contents stream.new) (take said.old response.now) (take said.new response.now)) }
    ensures gone { IfErr result (λ fault. fault ≡ LinkFault.Gone) }
{
    match stream.write(&response[*said..]) {
        Ok(0) => Err(LinkFault::Gone),
        Ok(count) => {
            *said += count;
            Ok(true)
        }
        Err(error) => match error.kind() {
            ErrorKind::WouldBlock => Ok(false),
            ErrorKind::Interrupted => Ok(true),
            _ => Err(LinkFault::Gone),
        },
    }
}
