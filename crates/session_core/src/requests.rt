//! What a frame asks for, or why it is refused.

ghost use Rattle.std.specs.Prelude.{◌≡◌, IfOk, codes, ◌==◌};
ghost use Rattle.std.specs.List.{list_all};
ghost use Rattle.frame_core.specs.Writable.{first_of};
ghost use Rattle.command_core.specs.Sendings.{kept_headers as kept};
ghost use Rattle.command_core.specs.Texts.{IsHeaderText};
ghost use Rattle.session_core.specs.ReadFrames.{IsRead, receipt_of, some_text, durable_at, durable_of, mode_of, delivery_of};
ghost use Rattle.session_core.specs.Requests.{asked, asked_first, aborts, acks, begins, commits, connects, nacks, sends, subscribes, unsubscribes};
ghost use Rattle.session_core.specs.Numbers.{decimal_value};
ghost use Rattle.session_core.specs.Versions.{offers, is_version, without_blanks};

use command_core::{
    AckMode, Dest, DestFault, Fault, HeaderText, Member, Op, Sending, is_kept_name,
};
use frame_core::{Frame, Headers, Text, Verb, first};
use std::alloc::{AllocError, Global};

/// What a frame of an open session asks for.
#[derive(Drop)]
pub enum Request {
    /// An operation of the broker.
    Ask(Op),
    /// A member, by itself or of the transaction of that name.
    Join(Member, Option<HeaderText>),
    /// A transaction of that name begins.
    Begin(HeaderText),
    /// The transaction of that name is carried out.
    Commit(HeaderText),
    /// The transaction of that name is given up.
    Abort(HeaderText),
    /// The session ends.
    Disconnect,
}

/// What the first frame of a session asks for, or why it is refused.
pub fn ask_first(alloc: Global, frame: &Frame) -> Result<Result<Op, Fault>, AllocError>
    requires { IsRead frame.now }
    ensures { IfOk result (λ r. r ≡ asked_first frame.now) }
{
    match frame.verb {
        Verb::Connected | Verb::Message | Verb::Receipt | Verb::Error => {
            Ok(Err(Fault::UnknownCommand))
        }
        Verb::Connect | Verb::Stomp => connect(alloc, frame),
        _ => Ok(Err(Fault::UnexpectedFrame)),
    }
}

/// What a frame of an open session asks for, or why it is refused. The checks come in this order: a server's frame, a
/// frame that may not come now, a header that isn't there, a value.
pub fn ask(alloc: Global, frame: Frame) -> Result<Result<Request, Fault>, AllocError>
    requires { IsRead frame }
    ensures { IfOk result (λ r. r ≡ asked frame) }
{
    match frame.verb {
        Verb::Connected | Verb::Message | Verb::Receipt | Verb::Error => {
            Ok(Err(Fault::UnknownCommand))
        }
        Verb::Connect | Verb::Stomp => Ok(Err(Fault::UnexpectedFrame)),
        Verb::Send => send(alloc, frame),
        Verb::Subscribe => subscribe(alloc, &frame),
        Verb::Unsubscribe => unsubscribe(alloc, &frame),
        Verb::Ack => ack(alloc, &frame),
        Verb::Nack => nack(alloc, &frame),
        Verb::Begin => begin(alloc, &frame),
        Verb::Commit => commit(alloc, &frame),
        Verb::Abort => abort(alloc, &frame),
        Verb::Disconnect => Ok(Ok(Request::Disconnect)),
    }
}

fn connect(alloc: Global, frame: &Frame) -> Result<Result<Op, Fault>, AllocError>
    requires { IsRead frame.now }
    ensures { IfOk result (λ r. r ≡ connects frame.now) }
{
    let versions = first(frame, "accept-version").unwrap_or("");
    if !offers_version(versions.as_bytes()) {
        return Ok(Err(Fault::UnsupportedVersion));
    }
    Ok(Ok(Op::Open {
        client_id: client_id(alloc, frame)?,
    }))
}

fn send(alloc: Global, frame: Frame) -> Result<Result<Request, Fault>, AllocError>
    requires { IsRead frame }
    ensures { IfOk result (λ r. r ≡ sends frame) }
{
    let destination = match first(&frame, "destination") {
        Some(destination) => Dest::read(alloc, destination),
        None => return Ok(Err(Fault::MissingHeader)),
    };
    match destination {
        Ok(destination) => {
            let transaction = header(alloc, &frame, "transaction")?;
            let headers = kept_headers(alloc, frame.headers)?;
            let sending = Sending::new(destination, headers, frame.body);
            Ok(Ok(Request::Join(Member::Send(sending), transaction)))
        }
        Err(DestFault::Bad) => Ok(Err(Fault::BadDestination)),
        Err(DestFault::Memory(refused)) => Err(refused),
    }
}

fn subscribe(alloc: Global, frame: &Frame) -> Result<Result<Request, Fault>, AllocError>
    requires { IsRead frame.now }
    ensures { IfOk result (λ r. r ≡ subscribes frame.now) }
{
    let Some(destination) = first(frame, "destination") else {
        return Ok(Err(Fault::MissingHeader));
    };
    let Some(id) = first(frame, "id") else {
        return Ok(Err(Fault::MissingHeader));
    };
    match (Dest::read(alloc, destination), ack_mode(frame)) {
        (Err(DestFault::Bad), _) => Ok(Err(Fault::BadDestination)),
        (_, None) => Ok(Err(Fault::BadHeaderValue)),
        (Err(DestFault::Memory(refused)), Some(_)) => Err(refused),
        (Ok(destination), Some(mode)) => Ok(Ok(Request::Ask(Op::Subscribe {
            id: text(alloc, id)?,
            durable: durable_name_at(alloc, &destination, frame)?,
            destination,
            mode,
        }))),
    }
}

fn unsubscribe(alloc: Global, frame: &Frame) -> Result<Result<Request, Fault>, AllocError>
    requires { IsRead frame.now }
    ensures { IfOk result (λ r. r ≡ unsubscribes frame.now) }
{
    match (header(alloc, frame, "id")?, durable_name(alloc, frame)?) {
        (None, None) => Ok(Err(Fault::MissingHeader)),
        (id, durable) => Ok(Ok(Request::Ask(Op::Unsubscribe { id, durable }))),
    }
}

fn ack(alloc: Global, frame: &Frame) -> Result<Result<Request, Fault>, AllocError>
    requires { IsRead frame.now }
    ensures { IfOk result (λ r. r ≡ acks frame.now) }
{
    match delivery(frame) {
        Err(fault) => Ok(Err(fault)),
        Ok(delivery) => Ok(Ok(Request::Join(
            Member::Ack(delivery),
            header(alloc, frame, "transaction")?,
        ))),
    }
}

fn nack(alloc: Global, frame: &Frame) -> Result<Result<Request, Fault>, AllocError>
    requires { IsRead frame.now }
    ensures { IfOk result (λ r. r ≡ nacks frame.now) }
{
    match delivery(frame) {
        Err(fault) => Ok(Err(fault)),
        Ok(delivery) => Ok(Ok(Request::Join(
            Member::Nack(delivery),
            header(alloc, frame, "transaction")?,
        ))),
    }
}

fn begin(alloc: Global, frame: &Frame) -> Result<Result<Request, Fault>, AllocError>
    requires { IsRead frame.now }
    ensures { IfOk result (λ r. r ≡ begins frame.now) }
{
    match header(alloc, frame, "transaction")? {
        Some(name) => Ok(Ok(Request::Begin(name))),
        None => Ok(Err(Fault::MissingHeader)),
    }
}

fn commit(alloc: Global, frame: &Frame) -> Result<Result<Request, Fault>, AllocError>
    requires { IsRead frame.now }
    ensures { IfOk result (λ r. r ≡ commits frame.now) }
{
    match header(alloc, frame, "transaction")? {
        Some(name) => Ok(Ok(Request::Commit(name))),
        None => Ok(Err(Fault::MissingHeader)),
    }
}

fn abort(alloc: Global, frame: &Frame) -> Result<Result<Request, Fault>, AllocError>
    requires { IsRead frame.now }
    ensures { IfOk result (λ r. r ≡ aborts frame.now) }
{
    match header(alloc, frame, "transaction")? {
        Some(name) => Ok(Ok(Request::Abort(name))),
        None => Ok(Err(Fault::MissingHeader)),
    }
}

/// The text of a header, to be kept.
pub fn text(alloc: Global, value: &str) -> Result<HeaderText, AllocError>
    requires { IsHeaderText value.now }
    ensures { IfOk result (λ kept. kept ≡ value.now) }
{
    let value = Text::copy(alloc, value)?;
    Ok(HeaderText::new(value))
}

/// The text of the first header of that name, to be kept.
pub fn header(alloc: Global, frame: &Frame, name: &str) -> Result<Option<HeaderText>, AllocError>
    requires { IsRead frame.now }
    ensures { IfOk result (λ r. r ≡ first_of name.now frame.now.headers) }
{
    match first(frame, name) {
        Some(value) => Ok(Some(text(alloc, value)?)),
        None => Ok(None),
    }
}

/// The receipt that a frame asks for. A CONNECT or STOMP gets none (STOMP 1.2, "Header receipt").
pub fn receipt(alloc: Global, frame: &Frame) -> Result<Option<HeaderText>, AllocError>
    requires { IsRead frame.now }
    ensures { IfOk result (λ r. r ≡ receipt_of frame.now) }
{
    if matches!(frame.verb, Verb::Connect | Verb::Stomp) {
        return Ok(None);
    }
    header(alloc, frame, "receipt")
}

/// The text of the first header of that name, to be kept. An empty one counts as absent.
fn nonempty_header(
    alloc: Global,
    frame: &Frame,
    name: &str,
) -> Result<Option<HeaderText>, AllocError>
    requires { IsRead frame.now }
    ensures { IfOk result (λ r. r ≡ some_text (first_of name.now frame.now.headers)) }
{
    match first(frame, name) {
        Some(value) if !value.is_empty() => Ok(Some(text(alloc, value)?)),
        _ => Ok(None),
    }
}

/// The name that a client gives itself for durable subscriptions. An empty one is none.
pub fn client_id(alloc: Global, frame: &Frame) -> Result<Option<HeaderText>, AllocError>
    requires { IsRead frame.now }
    ensures { IfOk result (λ r. r ≡ some_text (first_of (codes "client-id") frame.now.headers)) }
{
    nonempty_header(alloc, frame, "client-id")
}

/// The name of the durable subscription that a frame speaks of. An empty one is none.
pub fn durable_name(alloc: Global, frame: &Frame) -> Result<Option<HeaderText>, AllocError>
    requires { IsRead frame.now }
    ensures { IfOk result (λ r. r ≡ durable_of frame.now) }
{
    nonempty_header(alloc, frame, "activemq.subscriptionName")
}

/// The durable name that a SUBSCRIBE to the destination asks for. It is left out for a queue, whose messages wait for
/// a client that takes them.
pub fn durable_name_at(
    alloc: Global,
    destination: &Dest,
    frame: &Frame,
) -> Result<Option<HeaderText>, AllocError>
    requires { IsRead frame.now }
    ensures { IfOk result (λ r. r ≡ durable_at destination.now frame.now) }
{
    if destination.is_queue() {
        return Ok(None);
    }
    durable_name(alloc, frame)
}

/// The headers that go on with a message.
pub fn kept_headers(alloc: Global, headers: Headers) -> Result<Headers, AllocError>
    ensures { IfOk result (λ r. r ≡ kept headers) }
{
    let headers = headers.into_vec();
    let mut kept = Vec::with_capacity(alloc, headers.len())?;
    for (name, value) in headers {
        if is_kept_name(name.as_str()) {
            kept.push((name, value))?;
        }
    }
    Ok(Headers::new(kept))
}

/// How a SUBSCRIBE wants its messages acknowledged (STOMP 1.2, "SUBSCRIBE ack Header").
pub fn ack_mode(frame: &Frame) -> Option<AckMode>
    ensures { result ≡ mode_of (first_of (codes "ack") frame.now.headers) }
{
    match first(frame, "ack") {
        None | Some("auto") => Some(AckMode::Auto),
        Some("client") => Some(AckMode::Client),
        Some("client-individual") => Some(AckMode::ClientIndividual),
        Some(_) => None,
    }
}

/// The delivery that an ACK or NACK speaks of.
pub fn delivery(frame: &Frame) -> Result<u64, Fault>
    ensures { result ≡ delivery_of frame.now }
{
    match first(frame, "id") {
        None => Err(Fault::MissingHeader),
        Some(id) => match number_of(id) {
            None => Err(Fault::BadHeaderValue),
            Some(delivery) => Ok(delivery),
        },
    }
}

/// The number below 2^64 that a text is in decimal, without leading zeros.
pub fn number_of(text: &str) -> Option<u64>
    ensures { result ≡ decimal_value text.now }
{
    let bytes = text.as_bytes();
    if bytes.is_empty() {
        return None;
    }
    let first = bytes[0];
    if first == b'0' && bytes.len() > 1 {
        return None;
    }
    if first == b'+' {
        return None;
    }
    match text.parse() {
        Ok(number) => Some(number),
        Err(_) => None,
    }
}

/// Whether an `accept-version` offers version 1.2: it is cut at commas, and blanks round an item don't count.
/// (STOMP 1.2, "Protocol Negotiation")
pub fn offers_version(text: &[u8]) -> bool
    ensures { result ≡ offers text.now }
{
    text.split(|byte| *byte == b',')
        .any(|item| is_version_item(item))
}

fn is_version_item(item: &[u8]) -> bool
    ensures { result ≡ is_version item.now }
{
    let rest = skip_blanks(item);
    rest.starts_with(b"1.2") && are_blanks(&rest[3..])
}

fn are_blanks(text: &[u8]) -> bool
    ensures { result ≡ list_all (λ b. b == 32) text.now }
{
    text.iter().all(|byte| *byte == b' ')
}

fn skip_blanks(text: &[u8]) -> &[u8]
    ensures { result.now ≡ without_blanks text.now }
{
    let mut rest = text;
    while !rest.is_empty() && rest[0] == b' ' {
        rest = &rest[1..];
    }
    rest
}
