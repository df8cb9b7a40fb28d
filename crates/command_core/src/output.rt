//! What the broker answers.

ghost use Rattle.std.specs.Prelude.{◌≡◌, ◌<◌, ◌^◌, None, Some, IfOk, MatchOption, SomeIff, codes, true, ◌≤◌, ◌+◌, ◌++◌, IfSome, OnOk, length, ◌∷◌, []};
ghost use Rattle.std.specs.Str.{IsUtf8};
ghost use Rattle.std.specs.Fmt.{decimal};
ghost use Rattle.std.specs.List.{AllByRecursion, flat_map, sum_by};
ghost use Rattle.frame_core.specs.Writable.{Writable, first_of};
ghost use Rattle.frame_core.specs.Written.{written, IsText, written_header};
ghost use Rattle.frame_core.specs.declared.frame.Verb.TheVariants as verbs;
ghost use Rattle.frame_core.specs.Words.{word_bytes};
ghost use Rattle.command_core.specs.Outs.{bytes_in, weight_of, header_bytes};
ghost use Rattle.command_core.specs.Replies.{message_frame, receipt_frame, ack_header, message_id, connected, error_frame, receipt_header};
ghost use Rattle.command_core.specs.Deliveries.{message_of, own_of};
ghost use Rattle.command_core.specs.Texts.{IsHeaderText};

use crate::destination::HeaderText;
use crate::encoding::add_headers;
use crate::fault::{Fault, fault_text};
use crate::ready::Ready;
use crate::sending::{Sending, SharedSending};
use bytes::Bytes as WireBytes;
use frame_core::{
    Bytes, Frame, Headers, Text, Verb, Word, first, write_frame, write_header, write_headers,
};
use itoa::Buffer;
use std::alloc::{AllocError, Global};
use std::marker::Model;
use std::sync::Arc;

// What is told: a frame, or a RECEIPT or a MESSAGE in its parts, for which none is built, or a MESSAGE that is written already.
#[derive(Drop)]
pub(crate) enum Content {
    Framed(Frame),
    Receipt(HeaderText),
    Message(Delivery),
    Ready(Ready),
}

/// The bytes of a frame. Outputs that share a MESSAGE share its bytes.
#[derive(Drop)]
pub struct Written {
    /// These bytes.
    pub bytes: WireBytes,
    /// Whether they are known to be UTF-8.
    pub is_text: bool,
}

/// An output: a frame that a command gives, and the session that it goes to. Contracts see it as its three parts. Its
/// frame can be written.
///
/// It takes 24 bytes where it waits, since what it tells stands elsewhere. A MESSAGE is kept in its parts there and shares its message with
/// other deliveries, or is written there once for all who get it alike.
#[derive(Drop)]
pub struct Out {
    number: u64,
    session: u64,
    content: Arc<Content>,
}

impl Model for Out {
    ghost use Rattle.std.specs.Arc.{arc_value};
    ghost use Rattle.frame_core.specs.Writable.{Writable};
    ghost use Rattle.command_core.specs.Contents.{frame_of};
    ghost use Rattle.command_core.specs.Outs.{OutValue};

    ghost Value = { OutValue };

    ghost view = { λ a. record { number = a.number; session = a.session; frame = frame_of (arc_value a.content) } };

    ghost invariant = { λ a. Writable (frame_of (arc_value a.content)) };
}

impl Out {
    /// Takes memory for the frame. If that is refused, the frame is let go.
    pub fn new(alloc: Global, number: u64, session: u64, frame: Frame) -> Result<Out, AllocError>
        requires { Writable frame }
        ensures { IfOk result (λ out. out ≡ record { number = number; session = session; frame = frame }) }
    {
        let content = Arc::new(alloc, Content::Framed(frame))?;
        Ok(Out {
            number,
            session,
            content,
        })
    }

    /// The MESSAGE that gives what was sent to a subscription of that id (STOMP 1.2, "MESSAGE"). The message's number is
    /// that of its command and its place there. `delivery` is the number by which it is acknowledged, if it is to be.
    ///
    /// Takes memory for the delivery, for the id if that isn't shared, and for the message if that isn't. If it is refused, the message
    /// is let go.
    pub fn message(
        alloc: Global,
        number: u64,
        session: u64,
        subscription: &HeaderText,
        command: u64,
        place: u32,
        delivery: Option<u64>,
        sending: Sending,
    ) -> Result<Out, AllocError>
        ensures { IfOk result (λ out. out ≡ record { number = number; session = session; frame = message_frame subscription.now command place delivery sending }) }
    {
        let delivery = Delivery::new(alloc, subscription, command, place, delivery, sending)?;
        let content = Arc::new(alloc, Content::Message(delivery))?;
        Ok(Out {
            number,
            session,
            content,
        })
    }

    /// The MESSAGE that others get alike. It shares what is written: that is copied for nobody.
    ///
    /// It is refused only if the MESSAGE has as many sharers as can be counted.
    pub fn alike(number: u64, session: u64, alike: &Alike) -> Result<Out, AllocError>
        ensures { IfOk result (λ out. out ≡ record { number = number; session = session; frame = alike.now }) }
    {
        let content = alike.content.clone()?;
        Ok(Out {
            number,
            session,
            content,
        })
    }

    /// The RECEIPT that was asked for with that text (STOMP 1.2, "RECEIPT").
    ///
    /// Takes memory for the text. If that is refused, the text is let go.
    pub fn receipt(
        alloc: Global,
        number: u64,
        session: u64,
        id: HeaderText,
    ) -> Result<Out, AllocError>
        ensures { IfOk result (λ out. out ≡ record { number = number; session = session; frame = receipt_frame id }) }
    {
        let _id = id.as_str();
        let content = Arc::new(alloc, Content::Receipt(id))?;
        Ok(Out {
            number,
            session,
            content,
        })
    }

    /// The number of the command that gives it.
    pub fn number(&self) -> u64
        ensures { result ≡ self.now.number }
    {
        self.number
    }

    /// The number of the session that it goes to.
    pub fn session(&self) -> u64
        ensures { result ≡ self.now.session }
    {
        self.session
    }

    /// The command of its frame.
    pub fn verb(&self) -> Verb
        ensures { result ≡ self.now.frame.verb }
    {
        match &*self.content {
            Content::Framed(frame) => frame.verb,
            Content::Receipt(_) => Verb::Receipt,
            Content::Message(_) => Verb::Message,
            Content::Ready(ready) => ready.verb(),
        }
    }

    /// The body of its frame.
    pub fn body(&self) -> &[u8]
        ensures { result.now ≡ self.now.frame.body }
    {
        match &*self.content {
            Content::Framed(frame) => frame.body.as_slice(),
            Content::Receipt(_) => &[],
            Content::Message(delivery) => delivery.sending.body().as_slice(),
            Content::Ready(ready) => ready.body(),
        }
    }

    /// What an ERROR says in its header `message`.
    pub fn error(&self) -> Option<&str>
        ensures { MatchOption result
            (self.now.frame.verb ≡ verbs.Error → first_of (codes "message") self.now.frame.headers ≡ None)
            (λ text. (self.now.frame.verb ≡ verbs.Error) × (first_of (codes "message") self.now.frame.headers ≡ Some text.now)) }
    {
        match &*self.content {
            Content::Framed(frame) => match frame.verb {
                Verb::Error => first(frame, "message"),
                _ => None,
            },
            Content::Receipt(_) | Content::Message(_) => None,
            Content::Ready(ready) => {
                let _message = ready.verb();
                None
            }
        }
    }

    /// The bytes that it counts for, those of its body and of its headers' names and values, or `None` if there are 2^64 or more. It
    /// looks at each header once, and at no byte.
    pub fn weight(&self) -> Option<u64>
        ensures { SomeIff result (weight_of self.now < 2 ^ 64) (weight_of self.now) }
    {
        match &*self.content {
            Content::Framed(frame) => {
                let body = frame.body.as_slice().len() as u64;
                add_headers(body, frame.headers.as_slice())
            }
            Content::Receipt(id) => Some(10 + id.as_str().len() as u64),
            Content::Message(delivery) => delivery.weight(),
            Content::Ready(ready) => ready.weight(),
        }
    }

    /// The bytes of its frame, which can be written.
    pub fn write(&self, alloc: Global) -> Result<Written, AllocError>
        ensures bytes { IfOk result (λ it. it.bytes ≡ written self.now.frame) }
        ensures text { IfOk result (λ it. it.is_text ≡ true → IsUtf8 it.bytes) }
        ensures form { Writable self.now.frame }
    {
        match &*self.content {
            Content::Framed(frame) => {
                let bytes = write_frame(alloc, frame)?;
                Ok(Written {
                    bytes: WireBytes::from_vec(bytes)?,
                    is_text: false,
                })
            }
            Content::Receipt(id) => {
                let bytes = write_receipt(alloc, id)?;
                Ok(Written {
                    bytes: WireBytes::from_vec(bytes)?,
                    is_text: true,
                })
            }
            Content::Message(delivery) => delivery.write(alloc),
            Content::Ready(ready) => ready.written(),
        }
    }
}

/// A MESSAGE that several sessions get alike: the same message, for subscriptions of the same id that don't acknowledge. It is written once,
/// and its outputs share that. Contracts see its frame.
#[derive(Drop)]
pub struct Alike {
    content: Arc<Content>,
}

impl Model for Alike {
    ghost use Rattle.std.specs.Arc.{arc_value};
    ghost use Rattle.frame_core.specs.Writable.{Writable};
    ghost use Rattle.frame_core.specs.declared.frame.Frame.{Frame};
    ghost use Rattle.command_core.specs.Contents.{frame_of};

    ghost Value = { Frame };

    ghost view = { λ a. frame_of (arc_value a.content) };

    ghost invariant = { λ a. Writable (frame_of (arc_value a.content)) };
}

impl Alike {
    /// The MESSAGE that gives what was sent to subscriptions of that id, which don't acknowledge it. It is named as by `Out::message`.
    ///
    /// Takes memory for the bytes, for the id if that isn't shared, and for the message if that isn't. If it is refused, the message is
    /// let go.
    pub fn new(
        alloc: Global,
        subscription: &HeaderText,
        command: u64,
        place: u32,
        sending: Sending,
    ) -> Result<Alike, AllocError>
        ensures { IfOk result (λ alike. alike ≡ message_frame subscription.now command place None sending) }
    {
        let delivery = Delivery::new(alloc, subscription, command, place, None, sending)?;
        let ready = Ready::new(alloc, delivery)?;
        let content = Arc::new(alloc, Content::Ready(ready))?;
        Ok(Alike { content })
    }
}

// What is delivered to whom: no frame is built for it. It shares its message with other deliveries.
#[derive(Drop)]
pub(crate) struct Delivery {
    pub subscription: HeaderText,
    // The number of the command that sent the message, and the message's place there.
    pub command: u64,
    pub place: u32,
    // The number by which it is acknowledged, if it is to be.
    pub delivery: Option<u64>,
    pub sending: SharedSending,
}

/// Whether a delivery is to be acknowledged, by a number that fits.
pub fn is_acknowledged(delivery: Option<u64>) -> bool
    ensures fits { IfSome delivery (λ number. number < 2 ^ 64) }
{
    match delivery {
        None => false,
        Some(_) => true,
    }
}

fn digits_of(number: u64) -> u64
    ensures digits { result ≡ length (decimal number) }
    ensures few { result ≤ 40 }
{
    Buffer::new().format(number).len() as u64
}

/// The bytes of the header that names a delivery for its acknowledgement, if one is expected.
fn ack_bytes(delivery: Option<u64>) -> u64
    ensures bytes { result ≡ sum_by header_bytes (ack_header delivery) }
    ensures small { result ≤ 43 }
{
    match delivery {
        None => 0,
        Some(number) => 3 + digits_of(number),
    }
}

/// Appends a header line whose value is a number in decimal.
fn write_number(
    alloc: Global,
    bytes: &mut Vec<u8>,
    name: Word,
    value: u64,
) -> Result<(), AllocError>
    ensures text { OnOk result (IsText (word_bytes name, decimal value)) }
    ensures line { OnOk result (bytes.new.items ≡ bytes.old.items ++ written_header verbs.Message (word_bytes name, decimal value)) }
{
    let mut digits = Buffer::new();
    write_header(
        alloc,
        bytes,
        Verb::Message,
        name.as_str(),
        digits.format(value),
    )
}

/// Appends the header line that names a delivery for its acknowledgement, if one is expected.
fn write_ack(alloc: Global, bytes: &mut Vec<u8>, delivery: Option<u64>) -> Result<(), AllocError>
    ensures texts { OnOk result (AllByRecursion IsText (ack_header delivery)) }
    ensures lines { OnOk result (bytes.new.items ≡ bytes.old.items ++ flat_map (written_header verbs.Message) (ack_header delivery)) }
{
    match delivery {
        None => Ok(()),
        Some(number) => write_number(alloc, bytes, Word::Ack, number),
    }
}

/// Appends the header line that says which message it is. None of its bytes needs an escape.
fn write_id(bytes: &mut Vec<u8>, command: u64, place: u32) -> Result<(), AllocError>
    ensures text { OnOk result (IsText (codes "message-id", message_id command place)) }
    ensures line { OnOk result (bytes.new.items ≡ bytes.old.items ++ written_header verbs.Message (codes "message-id", message_id command place)) }
{
    let (mut first, mut second) = (Buffer::new(), Buffer::new());
    bytes.extend_from_slice(b"message-id:")?;
    bytes.extend_from_slice(first.format(command).as_bytes())?;
    bytes.push(b'.')?;
    bytes.extend_from_slice(second.format(place).as_bytes())?;
    bytes.push(b'\n')?;
    Ok(())
}

impl Delivery {
    ghost use Rattle.std.specs.Prelude.{◌≡◌, ◌<◌, ◌+◌, ◌^◌, ◌++◌, IfOk, OnOk, SomeIff, length, true};
    ghost use Rattle.std.specs.List.{AllByRecursion, flat_map, sum_by};

    fn new(
        alloc: Global,
        subscription: &HeaderText,
        command: u64,
        place: u32,
        delivery: Option<u64>,
        sending: Sending,
    ) -> Result<Delivery, AllocError>
        ensures value { IfOk result (λ it. message_of it ≡ message_frame subscription.now command place delivery sending) }
        ensures form { IfOk result (λ it. Writable (message_of it)) }
    {
        let subscription = subscription.clone()?;
        let sending = sending.into_shared(alloc)?;
        let (_name, _destination) = (subscription.as_str(), sending.destination());
        let _fits = is_acknowledged(delivery);
        Ok(Delivery {
            subscription,
            command,
            place,
            delivery,
            sending,
        })
    }

    /// The bytes of the broker's own headers.
    fn own_bytes(&self) -> u64
        ensures bytes { result ≡ sum_by header_bytes (own_of self.now) }
        ensures small { result < 2 ^ 14 }
    {
        let subscription = 12 + self.subscription.as_str().len() as u64;
        let id = 11 + digits_of(self.command) + digits_of(self.place as u64);
        let destination = 11 + self.sending.destination().as_str().len() as u64;
        let length = 14 + digits_of(self.sending.body().as_slice().len() as u64);
        subscription + id + destination + ack_bytes(self.delivery) + length
    }

    /// The bytes of body, names and values, or `None` if there are 2^64 or more. It looks at each header once, and at no byte.
    pub fn weight(&self) -> Option<u64>
        ensures { SomeIff result (bytes_in (message_of self.now) < 2 ^ 64) (bytes_in (message_of self.now)) }
    {
        let body = self.sending.body().as_slice().len() as u64;
        add_headers(body + self.own_bytes(), self.sending.headers().as_slice())
    }

    /// At least as many bytes as it has when it is written.
    fn room(&self) -> usize {
        let body = self.sending.body().as_slice().len();
        let kept = self.sending.headers().as_slice();
        let lines = kept.len().saturating_mul(2).saturating_add(body);
        match add_headers(self.own_bytes(), kept) {
            Some(texts) => (texts as usize)
                .saturating_mul(2)
                .saturating_add(lines)
                .saturating_add(32),
            None => lines,
        }
    }

    /// Appends the broker's own header lines.
    fn write_own(&self, alloc: Global, bytes: &mut Vec<u8>) -> Result<(), AllocError>
        ensures texts { OnOk result (AllByRecursion IsText (own_of self.now)) }
        ensures lines { OnOk result (bytes.new.items ≡ bytes.old.items ++ flat_map (written_header verbs.Message) (own_of self.now)) }
    {
        let (verb, destination) = (Verb::Message, self.sending.destination());
        let length = self.sending.body().as_slice().len() as u64;
        let (to, name) = (Word::Subscription.as_str(), Word::Destination.as_str());
        write_header(alloc, bytes, verb, to, self.subscription.as_str())?;
        write_id(bytes, self.command, self.place)?;
        write_header(alloc, bytes, verb, name, destination.as_str())?;
        write_ack(alloc, bytes, self.delivery)?;
        write_number(alloc, bytes, Word::ContentLength, length)
    }

    /// The bytes of its MESSAGE. They are known to be UTF-8 if its body is.
    pub fn write(&self, alloc: Global) -> Result<Written, AllocError>
        ensures bytes { IfOk result (λ it. it.bytes ≡ written (message_of self.now)) }
        ensures text { IfOk result (λ it. it.is_text ≡ true → IsUtf8 it.bytes) }
    {
        let bytes = self.write_bytes(alloc)?;
        Ok(Written {
            bytes: WireBytes::from_vec(bytes)?,
            is_text: self.sending.is_text(),
        })
    }

    fn write_bytes(&self, alloc: Global) -> Result<Vec<u8>, AllocError>
        ensures bytes { IfOk result (λ bytes. bytes.items ≡ written (message_of self.now)) }
        ensures text { IfOk result (λ bytes. IsUtf8 self.now.sending.body → IsUtf8 bytes.items) }
    {
        let mut bytes = Vec::with_capacity(alloc, self.room())?;
        bytes.extend_from_slice(b"MESSAGE\n")?;
        self.write_own(alloc, &mut bytes)?;
        write_headers(
            alloc,
            &mut bytes,
            Verb::Message,
            self.sending.headers().as_slice(),
        )?;
        bytes.push(b'\n')?;
        bytes.extend_from_slice(self.sending.body().as_slice())?;
        bytes.push(0)?;
        Ok(bytes)
    }
}

/// Adds a header after the others.
fn add_header(headers: &mut Vec<(Text, Text)>, name: Word, value: Text) -> Result<(), AllocError>
    ensures { OnOk result (headers.new.items ≡ headers.old.items ++ (word_bytes name, value) ∷ []) }
{
    headers.push((Text::of_word(name), value))?;
    Ok(())
}

/// Adds a header whose value is a copy of this text.
fn add_text(
    alloc: Global,
    headers: &mut Vec<(Text, Text)>,
    name: Word,
    value: &str,
) -> Result<(), AllocError>
    ensures { OnOk result (headers.new.items ≡ headers.old.items ++ (word_bytes name, value.now) ∷ []) }
{
    let value = Text::copy(alloc, value)?;
    add_header(headers, name, value)
}

/// Adds a header whose value is a number in decimal.
fn add_number(
    alloc: Global,
    headers: &mut Vec<(Text, Text)>,
    name: Word,
    value: u64,
) -> Result<(), AllocError>
    ensures { OnOk result (headers.new.items ≡ headers.old.items ++ (word_bytes name, decimal value) ∷ []) }
{
    let value = format!(in alloc; "{value}")?;
    add_header(headers, name, Text::new(value))
}

/// The CONNECTED that opens a session of that number (STOMP 1.2, "CONNECTED").
pub fn connected_reply(alloc: Global, session: u64) -> Result<Frame, AllocError>
    ensures value { IfOk result (λ frame. frame ≡ connected session) }
    ensures form { IfOk result (λ frame. Writable frame) }
{
    let mut headers = Vec::with_capacity(alloc, 3)?;
    add_text(alloc, &mut headers, Word::Version, "1.2")?;
    add_number(alloc, &mut headers, Word::Session, session)?;
    add_text(alloc, &mut headers, Word::HeartBeat, "0,0")?;
    Ok(Frame {
        verb: Verb::Connected,
        headers: Headers::new(headers),
        body: Bytes::new(Vec::new(alloc)),
    })
}

/// The bytes of the RECEIPT that was asked for with that text.
pub(crate) fn write_receipt(alloc: Global, id: &HeaderText) -> Result<Vec<u8>, AllocError>
    ensures bytes { IfOk result (λ bytes. bytes.items ≡ written (receipt_frame id.now)) }
    ensures text { IfOk result (λ bytes. IsUtf8 bytes.items) }
{
    let id = id.as_str();
    let mut bytes = Vec::with_capacity(alloc, id.len().saturating_mul(2).saturating_add(22))?;
    bytes.extend_from_slice(b"RECEIPT\n")?;
    write_header(
        alloc,
        &mut bytes,
        Verb::Receipt,
        Word::ReceiptId.as_str(),
        id,
    )?;
    bytes.extend_from_slice(b"\n\0")?;
    Ok(bytes)
}

fn add_receipt(
    headers: &mut Vec<(Text, Text)>,
    receipt: Option<HeaderText>,
) -> Result<(), AllocError>
    ensures added { OnOk result (headers.new.items ≡ headers.old.items ++ receipt_header receipt) }
    ensures form { OnOk result (IfSome receipt IsHeaderText) }
{
    if let Some(id) = receipt {
        add_header(headers, Word::ReceiptId, id.into_text())?;
    }
    Ok(())
}

/// The ERROR that tells a fault, and names the frame if that asked for a receipt (STOMP 1.2, "ERROR").
pub fn error_reply(
    alloc: Global,
    fault: Fault,
    receipt: Option<HeaderText>,
) -> Result<Frame, AllocError>
    ensures value { IfOk result (λ frame. frame ≡ error_frame fault receipt) }
    ensures form { IfOk result (λ frame. Writable frame) }
{
    let mut headers = Vec::with_capacity(alloc, 2)?;
    add_text(alloc, &mut headers, Word::Message, fault_text(fault))?;
    add_receipt(&mut headers, receipt)?;
    Ok(Frame {
        verb: Verb::Error,
        headers: Headers::new(headers),
        body: Bytes::new(Vec::new(alloc)),
    })
}
