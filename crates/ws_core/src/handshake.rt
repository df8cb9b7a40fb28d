//! An opening handshake that never waits (RFC 6455, section 4.2): how the request is read, and what it is answered.

ghost use Rattle.std.specs.Prelude.{◌≡◌, ◌++◌, IfOk, IfSome, OnOk, map, ◌≤◌, ℕ, List, IfErr, false, length, true, All, bytes_eq, codes, ◌==◌, ◌||◌, IsNone, cond, take};
ghost use Rattle.std.specs.Arc.{arc_value};
ghost use Rattle.std.specs.List.{list_all, list_any};
ghost use Rattle.httparse.specs.Spans.{IsHeaderWithin, header_bytes, IsRequestWithin, span_bytes};
ghost use Rattle.websocket.specs.Headers.{eq_ignore_case, fields_of};
ghost use Rattle.httparse.specs.Grammar.{HasNoRequest};
ghost use Rattle.ws_core.specs.Handshakes.{IsAnswerTo, ReadsOn, is_head, response_to, is_let_in, IsAnswer, answer_by, as_refusal, is_malformed};
ghost use Rattle.ws_core.specs.Greetings.{Greeter, Tells, answer_at, begun, greeter, is_ping, shuts_out};
ghost use Rattle.ws_core.specs.Greeted.{Greets};
ghost use Rattle.ws_core.specs.Fields.{values};
ghost use Rattle.ws_core.specs.Offers.{choice_of, has_stomp, is_stomp, is_blank, without_blanks};

use crate::link::LinkFault;
use crate::refusal::{Refusal, Saying, refusal_of};
use crate::ws_link::WsLink;
use httparse::spans::{EMPTY_HEADER_SPAN, HeaderSpan, RequestSpans, parse_request};
use httparse::{Error, Status};
use std::alloc::Global;
use std::io::{ErrorKind, Read, Write};
use std::marker::Model;
use std::snapshot::Snapshot;
use std::sync::Arc;
use websocket::handshake::HandshakeError;
use websocket::handshake::server::check_request;

// How many bytes one read of a head asks for, and the most bytes of a head.
const PIECE_BYTES: usize = 4_096;

const HEAD_BYTES: usize = 16_384;

// How many reads a head may take; and, after that many of them, how many bytes a read must have given on average.
const MOST_READS: usize = 1_024;

const FREE_READS: usize = 64;

const LEAST_BYTES: usize = 128;

// The most fields that a head may have.
const MOST_FIELDS: usize = 124;

/// Reads on until the head is whole or is none, and reports the answer; `None` if the stream has no more of it now. So many reads
/// have been made for it.
pub fn hear_head<S: Read>(
    stream: &mut S,
    head: &mut Vec<u8>,
    reads: &mut usize,
    origins: &[Vec<u8>],
) -> Result<Option<Answer>, LinkFault>
    ensures reads { OnOk result (ReadsOn (S.remaining stream.old) (S.remaining stream.new) head.old.items head.new.items) }
    ensures answered { IfOk result (λ answer. IfSome answer (IsAnswerTo (map (λ origin. origin.items) origins.now) head.new.items)) }
{
    for _read in 0..MOST_READS {
        if !hear_piece(stream, head)? {
            return Ok(None);
        }
        if head.len() > HEAD_BYTES {
            return Ok(Some(Answer::Refuse(Refusal::TooLarge)));
        }
        if let Some(answer) = answer_to(origins, head.as_slice()) {
            return Ok(Some(answer));
        }
        if is_too_slow(*reads, head.len()) {
            return Err(LinkFault::Gone);
        }
        *reads = reads.saturating_add(1);
    }
    Err(LinkFault::Gone)
}

/// Whether these bytes begin a HEAD.
pub fn is_head(bytes: &[u8]) -> bool
    ensures { result ≡ is_head bytes.now }
{
    bytes.starts_with(b"HEAD ")
}

// Whether `reads` before the last one, and it, have given too little.
fn is_too_slow(reads: usize, bytes: usize) -> bool {
    reads >= FREE_READS && bytes / LEAST_BYTES <= reads
}

// Reads the next piece of a head, and answers whether there may be more now. A stream that has ended is gone.
fn hear_piece<S: Read>(stream: &mut S, head: &mut Vec<u8>) -> Result<bool, LinkFault>
    ensures { OnOk result (ReadsOn (S.remaining stream.old) (S.remaining stream.new) head.old.items head.new.items) }
{
    let mut piece = [0u8; PIECE_BYTES];
    match stream.read(&mut piece) {
        Ok(0) => Err(LinkFault::Gone),
        Ok(count) => match head.extend_from_slice(&piece[..count]) {
            Ok(()) => Ok(true),
            Err(_) => Err(LinkFault::Memory),
        },
        Err(error) => match error.kind() {
            ErrorKind::WouldBlock => Ok(false),
            ErrorKind::Interrupted => Ok(true),
            _ => Err(LinkFault::Gone),
        },
    }
}

/// A client's opening handshake over a stream, as far as it has come. A call of `greet` does what the stream lets it do and returns.
/// A read that has nothing to give, and a write that takes nothing, fails with `WouldBlock`.
///
/// A client gets a WebSocket if it sends a whole request for one, whatever path it names, and nothing after it. The subprotocol is
/// `v12.stomp` if the client offers it, and none if it offers none. A browser's page, which sends its origin, is served if its
/// origin is among the named ones, or if none is named. Any other client gets a response with the status of its refusal.
///
/// A head may have 16,384 bytes and 124 fields, and from the 65th read on at least 128 bytes a read. Beyond that the stream is given
/// up, so a client that never ends its head costs no more than that. How long a client takes is the caller's to limit.
///
/// Contracts see the stream as it was given, the origins, and whom the server has a place for; and the stream and the head by now.
#[derive(Drop)]
pub struct Greeting<S: Read + Write> {
    // The stream as it was given.
    opening: Snapshot<S>,
    stream: S,
    origins: Arc<Vec<Vec<u8>>>,
    vacancy: Vacancy,
    // What was read, and by how many reads.
    head: Vec<u8>,
    reads: usize,
    // The answer, once there is one.
    saying: Option<Saying>,
}

impl<S: Read + Write> Model for Greeting<S> {
    ghost use Rattle.std.specs.Prelude.{map};
    ghost use Rattle.std.specs.Arc.{arc_value};
    ghost use Rattle.ws_core.specs.Greetings.{Handshake, IsUnderWay, greeter};

    ghost Value = { Handshake S };

    ghost view = { λ a. record {
      greeter = greeter a.opening.value (map (λ origin. origin.items) (arc_value a.origins).items) a.vacancy;
      stream = a.stream;
      head = a.head.items;
    } };

    ghost invariant = { λ a. IsUnderWay S.remaining S.contents
        (greeter a.opening.value (map (λ origin. origin.items) (arc_value a.origins).items) a.vacancy) a.head.items a.stream a.saying };
}

/// What a handshake has come to.
#[derive(Drop)]
pub enum Greeted<S: Read + Write> {
    /// The stream gives or takes no more now: the handshake goes on once it does.
    Waits(Greeting<S>),
    /// The client has its WebSocket, and the whole response to its request is written.
    Accepted(WsLink<S>),
    /// The client gets none. The whole response with the reason is written, and what comes is to be dropped before the stream is closed
    /// (`Farewell`).
    Refused(Refusal, S),
    /// The handshake is given up, and the stream is closed. It is `Memory` if memory was refused, and `Gone` if the stream has ended
    /// or failed, or gave its head too slowly.
    Failed(LinkFault),
}

impl<S: Read + Write + Drop> Greeting<S> {
    /// The handshake with a client to which that stream leads, of which nothing was read. Only pages of these origins are served; if
    /// none is named, all pages are. No memory is taken.
    pub fn new(alloc: Global, stream: S, origins: Arc<Vec<Vec<u8>>>) -> Greeting<S>
        ensures { result ≡ begun (greeter stream (map (λ origin. origin.items) (arc_value origins).items) Vacancy.Any) }
    {
        Greeting::begin(alloc, stream, origins, Vacancy::Any)
    }

    /// The same of a server that has a place for those alone. Any other that would get a WebSocket is answered `Refusal::Full`.
    pub fn begin(
        alloc: Global,
        stream: S,
        origins: Arc<Vec<Vec<u8>>>,
        vacancy: Vacancy,
    ) -> Greeting<S>
        ensures { result ≡ begun (greeter stream (map (λ origin. origin.items) (arc_value origins).items) vacancy) }
    {
        let opening = Snapshot::of(&stream);
        Greeting {
            opening,
            stream,
            origins,
            vacancy,
            head: Vec::new(alloc),
            reads: 0,
            saying: None,
        }
    }

    /// Goes on with the handshake: reads the request as far as it has come, and once there is an answer, writes that as far as the
    /// stream takes it.
    pub fn greet(self, alloc: Global) -> Greeted<S>
        ensures { Greets S.remaining S.contents self.greeter result }
    {
        match self.hear(alloc) {
            Ok(greeting) => greeting.say(alloc),
            Err(greeted) => greeted,
        }
    }

    /// The stream.
    pub fn stream(&self) -> &S
        ensures { result.now ≡ self.now.stream }
    {
        &self.stream
    }

    /// How many bytes it keeps for a head that isn't whole: what has come of it, and room for more.
    pub fn held(&self) -> u64
        ensures { length self.now.head ≤ result }
    {
        self.head.capacity() as u64
    }

    // Hears the request, unless it has its answer.
    fn hear(self, alloc: Global) -> Result<Greeting<S>, Greeted<S>>
        ensures same { IfOk result (λ greeting. greeting.greeter ≡ self.greeter) }
        ensures greets { IfErr result (Greets S.remaining S.contents self.greeter) }
    {
        if self.saying.is_some() {
            return Ok(self);
        }
        let Greeting {
            opening,
            mut stream,
            origins,
            vacancy,
            mut head,
            mut reads,
            saying,
        } = self;
        drop(saying);
        match hear_head(&mut stream, &mut head, &mut reads, origins.as_slice()) {
            Ok(Some(answer)) => {
                let answer = at(vacancy.shuts_out(head.as_slice()), answer);
                match Saying::new(alloc, answer, is_head(head.as_slice())) {
                    Ok(saying) => Ok(Greeting {
                        opening,
                        stream,
                        origins,
                        vacancy,
                        head,
                        reads,
                        saying: Some(saying),
                    }),
                    Err(fault) => Err(Greeted::Failed(fault)),
                }
            }
            Ok(None) => Err(Greeted::Waits(Greeting {
                opening,
                stream,
                origins,
                vacancy,
                head,
                reads,
                saying: None,
            })),
            Err(fault) => Err(Greeted::Failed(fault)),
        }
    }

    // Says the answer, if there is one.
    fn say(self, alloc: Global) -> Greeted<S>
        ensures { Greets S.remaining S.contents self.greeter result }
    {
        let Greeting {
            opening,
            mut stream,
            origins,
            vacancy,
            head,
            reads,
            saying,
        } = self;
        let Some(mut saying) = saying else {
            return Greeted::Waits(Greeting {
                opening,
                stream,
                origins,
                vacancy,
                head,
                reads,
                saying: None,
            });
        };
        match saying.go_on(&mut stream) {
            Ok(true) => done(alloc, stream, saying.answer),
            Ok(false) => Greeted::Waits(Greeting {
                opening,
                stream,
                origins,
                vacancy,
                head,
                reads,
                saying: Some(saying),
            }),
            Err(fault) => Greeted::Failed(fault),
        }
    }
}

// The answer, unless the client finds no place.
fn at(is_shut_out: bool, answer: Answer) -> Answer
    ensures { result ≡ answer_at is_shut_out answer }
{
    match answer {
        Answer::Accept(..) if is_shut_out => Answer::Refuse(Refusal::Full),
        answer => answer,
    }
}

// What a handshake has come to if its answer is wholly written.
fn done<S: Read + Write + Drop>(alloc: Global, stream: S, answer: Answer) -> Greeted<S>
    ensures { (g : Greeter S) (head : List ℕ) → Tells S.remaining S.contents g head stream answer (response_to (is_head head) answer) → Greets S.remaining S.contents g result }
{
    match answer {
        Answer::Accept(..) => Greeted::Accepted(WsLink::new(alloc, stream)),
        Answer::Refuse(refusal) => Greeted::Refused(refusal, stream),
    }
}

// Whether these are the same but for the case of letters.
fn eq_ignore_case(one: &[u8], other: &[u8]) -> bool
    ensures { result ≡ eq_ignore_case one.now other.now }
{
    one.eq_ignore_ascii_case(other)
}

fn are_same(one: &[u8], other: &[u8]) -> bool
    ensures { result ≡ bytes_eq one.now other.now }
{
    one == other
}

// How many fields have that name.
pub fn count(head: &[u8], fields: &[HeaderSpan], name: &[u8]) -> usize
    requires { All (IsHeaderWithin (length head.now)) fields.now }
    ensures { result ≡ length (values (fields_of head.now fields.now) name.now) }
{
    let mut count = 0;
    for field in fields {
        if eq_ignore_case(field.name.of(head), name) {
            count += 1;
        }
    }
    count
}

// Whether the request comes from no page, or from a page that is served.
pub fn is_let_in(origins: &[Vec<u8>], head: &[u8], fields: &[HeaderSpan]) -> bool
    requires { All (IsHeaderWithin (length head.now)) fields.now }
    ensures { result ≡ is_let_in (map (λ origin. origin.items) origins.now) (fields_of head.now fields.now) }
{
    origins.is_empty() || are_among(origins, head, fields)
}

// Whether each Origin is one of these.
fn are_among(origins: &[Vec<u8>], head: &[u8], fields: &[HeaderSpan]) -> bool
    requires { All (IsHeaderWithin (length head.now)) fields.now }
    ensures { result ≡ list_all (λ origin. list_any (λ served. bytes_eq served origin) (map (λ origin. origin.items) origins.now)) (values (fields_of head.now fields.now) (codes "Origin")) }
{
    for field in fields {
        if eq_ignore_case(field.name.of(head), b"Origin")
            && !is_among(origins, field.value.of(head))
        {
            return false;
        }
    }
    true
}

fn is_among(origins: &[Vec<u8>], origin: &[u8]) -> bool
    ensures { result ≡ list_any (λ served. bytes_eq served origin.now) (map (λ origin. origin.items) origins.now) }
{
    for served in origins {
        if are_same(served.as_slice(), origin) {
            return true;
        }
    }
    false
}

/// The answer to the subprotocols that a request offers. Each `Sec-WebSocket-Protocol` is a list with commas, and several of
/// them form one list (RFC 6455, section 11.3.4).
pub fn choose(head: &[u8], fields: &[HeaderSpan]) -> Choice
    requires { All (IsHeaderWithin (length head.now)) fields.now }
    ensures { result ≡ choice_of (values (fields_of head.now fields.now) (codes "Sec-WebSocket-Protocol")) }
{
    let name = b"Sec-WebSocket-Protocol".as_slice();
    if some_has_stomp(head, fields, name) {
        Choice::Stomp
    } else if count(head, fields, name) == 0 {
        Choice::Nothing
    } else {
        Choice::Refuse
    }
}

// Whether one of the offers, which are the fields of that name, has `v12.stomp`.
fn some_has_stomp(head: &[u8], fields: &[HeaderSpan], name: &[u8]) -> bool
    requires { All (IsHeaderWithin (length head.now)) fields.now }
    ensures { result ≡ list_any has_stomp (values (fields_of head.now fields.now) name.now) }
{
    for field in fields {
        if eq_ignore_case(field.name.of(head), name) && has_stomp(field.value.of(head)) {
            return true;
        }
    }
    false
}

/// What a handshake answers to the subprotocols that the client offers.
#[derive(Clone, Copy)]
pub enum Choice {
    /// `v12.stomp`.
    Stomp,
    /// No subprotocol, as none was offered.
    Nothing,
    /// The client offers only other subprotocols, so it isn't accepted.
    Refuse,
}

// Whether an item of the list is `v12.stomp`.
pub fn has_stomp(offer: &[u8]) -> bool
    ensures { result ≡ has_stomp offer.now }
{
    offer.split(|byte| *byte == b',').any(|item| is_stomp(item))
}

fn is_stomp(item: &[u8]) -> bool
    ensures { result ≡ is_stomp item.now }
{
    let rest = skip_blanks(item);
    rest.starts_with(b"v12.stomp") && are_blanks(&rest[9..])
}

fn are_blanks(text: &[u8]) -> bool
    ensures { result ≡ list_all is_blank text.now }
{
    text.iter().all(|byte| *byte == b' ' || *byte == b'\t')
}

fn skip_blanks(text: &[u8]) -> &[u8]
    ensures { result.now ≡ without_blanks text.now }
{
    let mut rest = text;
    while !rest.is_empty() && (rest[0] == b' ' || rest[0] == b'\t') {
        rest = &rest[1..];
    }
    rest
}

/// The answer to a request for a WebSocket.
#[derive(Clone, Copy)]
pub enum Answer {
    /// It gets one: what its key is answered (section 4.2.2), and whether the subprotocol is `v12.stomp` or there is none.
    Accept([u8; 28], bool),
    /// It gets none.
    Refuse(Refusal),
}

/// The answer to these bytes of a client; `None` while they hold no whole head of a request. Only pages of these origins are
/// served; if none is named, all pages are. No memory is taken.
pub fn answer_to(origins: &[Vec<u8>], bytes: &[u8]) -> Option<Answer>
    ensures answered { IfSome result (IsAnswerTo (map (λ origin. origin.items) origins.now) bytes.now) }
    ensures waits { IsNone result → HasNoRequest bytes.now }
{
    let mut spans = [EMPTY_HEADER_SPAN; MOST_FIELDS];
    match parse_request(bytes, &mut spans) {
        Ok(Status::Complete(found)) => {
            let answer = answer_of(origins, bytes, &found, &spans);
            Some(followed(answer, bytes.len() - found.len))
        }
        Ok(Status::Partial) => None,
        Err(Error::TooManyHeaders) => Some(Answer::Refuse(Refusal::TooLarge)),
        Err(_) => Some(Answer::Refuse(Refusal::Malformed)),
    }
}

// The answer to a head that is followed by that many bytes.
fn followed(answer: Answer, more: usize) -> Answer
    ensures { result ≡ cond (more == 0) answer (as_refusal answer) }
{
    match answer {
        Answer::Accept(..) if more > 0 => Answer::Refuse(Refusal::Malformed),
        answer => answer,
    }
}

// The answer to a whole head.
fn answer_of(
    origins: &[Vec<u8>],
    head: &[u8],
    request: &RequestSpans,
    spans: &[HeaderSpan],
) -> Answer
    requires { IsRequestWithin head.now spans.now request.now }
    ensures { IsAnswer (map (λ origin. origin.items) origins.now) (span_bytes head.now request.now.method) request.now.version
        (fields_of head.now (take request.now.headers spans.now)) result }
{
    let asked = check_request(head, request, spans);
    let fields = &spans[..request.headers];
    if is_malformed(head, fields) {
        return Answer::Refuse(Refusal::Malformed);
    }
    answer_by(origins, head, fields, asked)
}

// Whether a field stands there another number of times than it may.
fn is_malformed(head: &[u8], fields: &[HeaderSpan]) -> bool
    requires { All (IsHeaderWithin (length head.now)) fields.now }
    ensures { result ≡ is_malformed (fields_of head.now fields.now) }
{
    count(head, fields, b"Host") != 1
        || count(head, fields, b"Transfer-Encoding") != 0
        || count(head, fields, b"Sec-WebSocket-Key") > 1
        || count(head, fields, b"Sec-WebSocket-Version") > 1
}

// The answer if the request's key is answered so, or lacks that.
fn answer_by(
    origins: &[Vec<u8>],
    head: &[u8],
    fields: &[HeaderSpan],
    asked: Result<[u8; 28], HandshakeError>,
) -> Answer
    requires { All (IsHeaderWithin (length head.now)) fields.now }
    ensures { result ≡ answer_by (map (λ origin. origin.items) origins.now) (fields_of head.now fields.now) asked }
{
    let accept_key = match asked {
        Ok(accept_key) => accept_key,
        Err(lacking) => return Answer::Refuse(refusal_of(lacking)),
    };
    if !is_let_in(origins, head, fields) {
        return Answer::Refuse(Refusal::Foreign);
    }
    match choose(head, fields) {
        Choice::Stomp => Answer::Accept(accept_key, true),
        Choice::Nothing => Answer::Accept(accept_key, false),
        Choice::Refuse => Answer::Refuse(Refusal::OtherProtocol),
    }
}

/// Whom a server has a place for when a client comes.
#[derive(Clone, Copy)]
pub enum Vacancy {
    /// Anyone.
    Any,
    /// A ping alone: a few places are kept for those, since whoever watches a full server asks whether its disk still stores.
    Ping,
    /// Nobody.
    Nobody,
}

impl Vacancy {
    // Whether a client with this head finds no place.
    pub(crate) fn shuts_out(self, head: &[u8]) -> bool
        ensures { result ≡ shuts_out self head.now }
    {
        match self {
            Vacancy::Any => false,
            Vacancy::Ping => !is_ping(head),
            Vacancy::Nobody => true,
        }
    }
}

// Whether the head is that of a ping.
fn is_ping(head: &[u8]) -> bool
    ensures { result ≡ is_ping head.now }
{
    head.starts_with(b"GET /stompd-ping ")
}
