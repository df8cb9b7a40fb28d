//! What a mover of messages sends next, and what it makes of what it reads.

ghost use Rattle.std.specs.Prelude.{◌≡◌, ◌<◌, ◌+◌, ◌^◌, ◌↔◌, ◌++◌, ◌==◌, ◌∷◌, [], IfErr, IfNone, IfOk, IfSome, IsTrue, List, OnErr, OnOk, Some, ℕ, codes, decimal, false, flat_map, true};
ghost use Rattle.std.specs.List.{before_first};
ghost use Rattle.frame_core.specs.Written.{written};
ghost use Rattle.client_core.specs.declared.moving.Stage.TheVariants.{Sent, Settling};
ghost use Rattle.client_core.specs.Answers.{IsReceiptOf};
ghost use Rattle.client_core.specs.Moving.{IsEarly, IsLater, IsNumbered, IsSaid, IsSession, IsSettledBy, bare_frame, is_made_anew, is_owed, kept_headers, moved_frame, sent_frame, settling_frame, stage_after, transaction_frames};
ghost use Rattle.frame_core.specs.declared.frame.Verb.TheVariants.{Ack, Begin, Commit};
ghost use Rattle.client_core.specs.Talks.{IsOfPeer};

use crate::fault::Cause;
use crate::lines::number_of;
use crate::listening::is_message;
use crate::probe::{cause_by, is_receipt_of};
use crate::requests::{add, add_length, spelled};
use frame_core::{Frame, Text, Verb, first};
use std::alloc::Global;
use std::collections::VecDeque;
use std::marker::Model;

/// Where messages go.
#[derive(Clone, Copy)]
pub struct Route<'a> {
    pub destination: &'a str,
    /// Whether that is at another server than the one that holds them.
    pub is_far: bool,
}

/// How far the first message is of those that came.
#[derive(Clone, Copy)]
pub enum Stage {
    /// Nothing was sent of it.
    Free,
    /// It was sent to the other server, whose RECEIPT has not come.
    Sent,
    /// The other server has it, and here it is not settled.
    Stored,
    /// It was settled here, and the RECEIPT has not come.
    Settling,
}

/// What is sent, and to whom.
#[derive(Drop)]
pub enum Saying {
    /// To the server that holds the messages.
    Here(Vec<u8>),
    /// To the other one.
    There(Vec<u8>),
}

/// The messages that came and are not moved yet. At most one is under way: the one that came first.
#[derive(Drop)]
pub struct Mover {
    waiting: VecDeque<Frame>,
    stage: Stage,
    moved: u64,
    // The number that a message had at most that was there when it began, if that is known.
    bound: Option<u64>,
    // Whether a message came that was not there yet.
    is_over: bool,
}

impl Model for Mover {
    ghost use Rattle.client_core.specs.Moving.{Moves};

    ghost Value = { Moves };

    ghost view = { λ a. record { waiting = a.waiting.items; stage = a.stage; moved = a.moved; bound = a.bound; is_over = a.is_over } };
}

impl Mover {
    ghost use Rattle.std.specs.Prelude.{◌≡◌, ◌↔◌, [], IfNone, IfOk, IfSome, IsTrue, None, OnErr, OnOk, false};
    ghost use Rattle.frame_core.specs.declared.frame.Verb.TheVariants.{Message};
    ghost use Rattle.client_core.specs.declared.moving.Stage.TheVariants.{Free};
    ghost use Rattle.client_core.specs.Moving.{HearsHere, HearsThere, IsDone, IsSilent, Says};

    /// No message has come. No memory is taken.
    pub fn new(alloc: Global) -> Mover
        ensures { result ≡ record { waiting = []; stage = Free; moved = 0; bound = None; is_over = false } }
    {
        Mover {
            waiting: VecDeque::new(alloc),
            stage: Stage::Free,
            moved: 0,
            bound: None,
            is_over: false,
        }
    }

    /// From now on it leaves messages that came after the command of that number, if there is one.
    pub fn limit(&mut self, bound: Option<u64>)
        ensures { self.new ≡ record self.old { bound = bound } }
    {
        self.bound = bound;
    }

    /// Whether all are moved that were there when it began: one came that was not, and none waits.
    pub fn is_done(&self) -> bool
        ensures { IsTrue result ↔ IsDone self.now }
    {
        self.is_over && self.waiting.is_empty()
    }

    /// How many messages were moved.
    pub fn moved(&self) -> u64
        ensures { result ≡ self.now.moved }
    {
        self.moved
    }

    /// How far the first message is of those that came.
    pub fn stage(&self) -> Stage
        ensures { result ≡ self.now.stage }
    {
        self.stage
    }

    /// What is sent next, which moves the first message on; `None` if something has to be read first. A fault leaves all as it was.
    pub fn say(&mut self, alloc: Global, route: &Route<'_>) -> Result<Option<Saying>, Cause>
        ensures says { IfOk result (λ said. IfSome said (Says route.now self.old self.new)) }
        ensures silent { IfOk result (λ said. IfNone said (IsSilent self.old × (self.new ≡ self.old))) }
        ensures same { OnErr result (self.new ≡ self.old) }
    {
        let Some(message) = self.waiting.front() else {
            return Ok(None);
        };
        let said = said_of(alloc, self.stage, self.moved, route, message)?;
        let Some(saying) = said else {
            return Ok(None);
        };
        self.stage = stage_after(&saying);
        Ok(Some(saying))
    }

    /// Takes a frame of the server that holds the messages. A fault is that another one came than a message, or the RECEIPT that is
    /// owed; or memory was refused. It leaves all as it was.
    pub fn hear(&mut self, alloc: Global, frame: Frame) -> Result<(), Cause>
        ensures ok { OnOk result (HearsHere frame self.old self.new) }
        ensures same { OnErr result (self.new ≡ self.old) }
    {
        if is_message(frame.verb) {
            return self.take_in(frame);
        }
        let heard = self.settle(alloc, &frame);
        drop(frame);
        heard
    }

    // Takes a message, unless it was not there when it began.
    fn take_in(&mut self, frame: Frame) -> Result<(), Cause>
        requires { frame.verb ≡ Message }
        ensures ok { OnOk result (HearsHere frame self.old self.new) }
        ensures same { OnErr result (self.new ≡ self.old) }
    {
        if is_later(self.bound, &frame) {
            drop(frame);
            self.is_over = true;
            return Ok(());
        }
        match self.waiting.push_back(frame) {
            Ok(()) => Ok(()),
            Err(_) => Err(Cause::Memory),
        }
    }

    // Takes the RECEIPT of the message that was settled.
    fn settle(&mut self, alloc: Global, frame: &Frame) -> Result<(), Cause>
        ensures ok { OnOk result (HearsHere frame.now self.old self.new) }
        ensures same { OnErr result (self.new ≡ self.old) }
    {
        let moved = next(self.moved)?;
        if !is_settling(self.stage) || !is_receipt_numbered(alloc, frame, moved)? {
            return Err(cause_by(alloc, frame));
        }
        match self.waiting.pop_front() {
            Some(message) => {
                drop(message);
                self.stage = Stage::Free;
                self.moved = moved;
                Ok(())
            }
            None => Err(cause_by(alloc, frame)),
        }
    }

    /// Takes a frame of the other server, which is to be the RECEIPT of the message that was sent to it. A fault leaves all as it was.
    pub fn hear_there(&mut self, alloc: Global, frame: &Frame) -> Result<(), Cause>
        ensures ok { OnOk result (HearsThere frame.now self.old self.new) }
        ensures same { OnErr result (self.new ≡ self.old) }
    {
        let moved = next(self.moved)?;
        if !is_sent(self.stage) || !is_receipt_numbered(alloc, frame, moved)? {
            return Err(cause_by(alloc, frame));
        }
        self.stage = Stage::Stored;
        Ok(())
    }
}

/// The number that CONNECTED gives a session: that of the command that opened it (docs/PROTOCOL.md, "The broker").
pub fn session_of(frame: &Frame) -> Option<u64>
    ensures some { IfSome result (λ number. IsSession number frame.now) }
    ensures none { IfNone result ((number : ℕ) → number < 2 ^ 64 → IsSession number frame.now → ⊥) }
{
    match first(frame, "session") {
        Some(session) => number_of(session),
        None => None,
    }
}

// Whether a message came after the command of that number, if both are known.
fn is_later(bound: Option<u64>, message: &Frame) -> bool
    ensures later { result ≡ true → IsLater bound message.now }
    ensures early { result ≡ false → IsEarly bound message.now }
{
    match bound {
        Some(bound) => is_after(bound, message),
        None => false,
    }
}

// The same of a number that is known.
fn is_after(bound: u64, message: &Frame) -> bool
    ensures later { result ≡ true → IsLater (Some bound) message.now }
    ensures early { result ≡ false → IsEarly (Some bound) message.now }
{
    match message_number(message) {
        Some(number) => number > bound,
        None => false,
    }
}

// The number of the command by which a message came: that before the point of its `message-id`.
fn message_number(message: &Frame) -> Option<u64>
    ensures some { IfSome result (λ number. IsNumbered number message.now) }
    ensures none { IfNone result ((number : ℕ) → number < 2 ^ 64 → IsNumbered number message.now → ⊥) }
{
    match first(message, "message-id") {
        Some(id) => number_of(before_point(id)),
        None => None,
    }
}

// A text up to its first point.
fn before_point(text: &str) -> &str
    ensures { result.now ≡ before_first (λ b. b == 46) text.now }
{
    match text.split_once('.') {
        Some((front, _)) => front,
        None => text,
    }
}

// The number after this one.
fn next(moved: u64) -> Result<u64, Cause>
    ensures { IfOk result (λ number. number ≡ moved + 1) }
{
    match moved.checked_add(1) {
        Some(number) => Ok(number),
        None => Err(Cause::System),
    }
}

fn is_settling(stage: Stage) -> bool
    ensures { IsTrue result ↔ (stage ≡ Settling) }
{
    matches!(stage, Stage::Settling)
}

fn is_sent(stage: Stage) -> bool
    ensures { IsTrue result ↔ (stage ≡ Sent) }
{
    matches!(stage, Stage::Sent)
}

// Whether a frame is the RECEIPT with that number.
fn is_receipt_numbered(alloc: Global, frame: &Frame, number: u64) -> Result<bool, Cause>
    ensures { IfOk result (λ is. IsTrue is ↔ IsReceiptOf (decimal number) frame.now) }
{
    let id = text_of(alloc, number)?;
    let is = is_receipt_of(frame, id.as_str());
    drop(id);
    Ok(is)
}

// A number in decimal.
fn text_of(alloc: Global, number: u64) -> Result<Text, Cause>
    ensures { IfOk result (λ text. text ≡ decimal number) }
{
    match format!(in alloc; "{number}") {
        Ok(text) => Ok(Text::new(text)),
        Err(_) => Err(Cause::Memory),
    }
}

// What is sent of a message at this stage, after that many were moved; `None` while a RECEIPT is owed.
fn said_of(
    alloc: Global,
    stage: Stage,
    moved: u64,
    route: &Route<'_>,
    message: &Frame,
) -> Result<Option<Saying>, Cause>
    ensures said { IfOk result (λ said. IfSome said (IsSaid route.now message.now (decimal (moved + 1)) stage)) }
    ensures owed { IfOk result (λ said. IfNone said (is_owed stage ≡ true)) }
{
    match stage {
        Stage::Free if route.is_far => {
            let text = far_of(alloc, moved, route, message)?;
            Ok(Some(Saying::There(text)))
        }
        Stage::Free => {
            let text = transaction_of(alloc, moved, route, message)?;
            Ok(Some(Saying::Here(text)))
        }
        Stage::Stored => {
            let text = settling_of(alloc, moved, message)?;
            Ok(Some(Saying::Here(text)))
        }
        _ => Ok(None),
    }
}

// How far a message is after this is sent.
fn stage_after(saying: &Saying) -> Stage
    ensures { result ≡ stage_after saying.now }
{
    match saying {
        Saying::Here(_) => Stage::Settling,
        Saying::There(_) => Stage::Sent,
    }
}

// SEND of a message to the other server, after that many were moved.
fn far_of(alloc: Global, moved: u64, route: &Route<'_>, message: &Frame) -> Result<Vec<u8>, Cause>
    ensures { IfOk result (λ text. text.items ≡ written (moved_frame route.now.destination.now (codes "receipt", decimal (moved + 1)) message.now)) }
{
    let number = text_of(alloc, next(moved)?)?;
    let text = far_text(alloc, number.as_str(), route.destination, message);
    drop(number);
    text
}

// ACK and SEND of a message in one transaction, after that many were moved.
fn transaction_of(
    alloc: Global,
    moved: u64,
    route: &Route<'_>,
    message: &Frame,
) -> Result<Vec<u8>, Cause>
    ensures { IfOk result (λ text. (delivery : List ℕ) × IsSettledBy message.now delivery
        × (text.items ≡ flat_map written (transaction_frames (decimal (moved + 1)) route.now.destination.now message.now delivery))) }
{
    let Some(delivery) = first(message, "ack") else {
        return Err(Cause::NotStomp);
    };
    let text = numbered_transaction(alloc, moved, route, message, delivery)?;
    Ok(text)
}

// The same for a message that is settled by this.
fn numbered_transaction(
    alloc: Global,
    moved: u64,
    route: &Route<'_>,
    message: &Frame,
    delivery: &str,
) -> Result<Vec<u8>, Cause>
    ensures { IfOk result (λ text. text.items ≡ flat_map written (transaction_frames (decimal (moved + 1)) route.now.destination.now message.now delivery.now)) }
{
    let number = text_of(alloc, next(moved)?)?;
    let text = transaction_text(alloc, number.as_str(), route.destination, message, delivery);
    drop(number);
    text
}

// ACK of a message, after that many were moved.
fn settling_of(alloc: Global, moved: u64, message: &Frame) -> Result<Vec<u8>, Cause>
    ensures { IfOk result (λ text. (delivery : List ℕ) × IsSettledBy message.now delivery
        × (text.items ≡ written (settling_frame (decimal (moved + 1)) delivery))) }
{
    let Some(delivery) = first(message, "ack") else {
        return Err(Cause::NotStomp);
    };
    let number = text_of(alloc, next(moved)?)?;
    let text = settling_text(alloc, number.as_str(), delivery);
    drop(number);
    text
}

/// ACK and SEND of a message in a transaction of that name, whose COMMIT has it as its receipt: its body, and the headers that it keeps. A
/// server that is full has the room that the ACK gives back, since members are applied in their order.
pub fn transaction_text(
    alloc: Global,
    number: &str,
    to: &str,
    message: &Frame,
    delivery: &str,
) -> Result<Vec<u8>, Cause>
    ensures ok { IfOk result (λ text. text.items ≡ flat_map written (transaction_frames number.now to.now message.now delivery.now)) }
    ensures cause { IfErr result IsOfPeer }
{
    let mut text = begin_text(alloc, number)?;
    join(&mut text, ack_text(alloc, "transaction", number, delivery)?)?;
    join(
        &mut text,
        moved_text(alloc, "transaction", number, to, message)?,
    )?;
    join(&mut text, commit_text(alloc, number)?)?;
    Ok(text)
}

/// SEND of a message to another server, with that receipt: its body, and the headers that it keeps.
pub fn far_text(alloc: Global, number: &str, to: &str, message: &Frame) -> Result<Vec<u8>, Cause>
    ensures ok { IfOk result (λ text. text.items ≡ written (moved_frame to.now (codes "receipt", number.now) message.now)) }
    ensures cause { IfErr result IsOfPeer }
{
    moved_text(alloc, "receipt", number, to, message)
}

/// ACK of the delivery with that number, and with that receipt.
pub fn settling_text(alloc: Global, number: &str, delivery: &str) -> Result<Vec<u8>, Cause>
    ensures ok { IfOk result (λ text. text.items ≡ written (settling_frame number.now delivery.now)) }
    ensures cause { IfErr result IsOfPeer }
{
    ack_text(alloc, "receipt", number, delivery)
}

// Adds a frame to a text.
fn join(text: &mut Vec<u8>, frame: Vec<u8>) -> Result<(), Cause>
    ensures ok { OnOk result (text.new.items ≡ text.old.items ++ frame.items) }
    ensures cause { IfErr result IsOfPeer }
{
    let joined = text.extend_from_slice(frame.as_slice());
    drop(frame);
    match joined {
        Ok(()) => Ok(()),
        Err(_) => Err(Cause::Memory),
    }
}

fn begin_text(alloc: Global, number: &str) -> Result<Vec<u8>, Cause>
    ensures ok { IfOk result (λ text. text.items ≡ written (bare_frame Begin ((codes "transaction", number.now) ∷ []))) }
    ensures cause { IfErr result IsOfPeer }
{
    let mut headers = Vec::new(alloc);
    add(alloc, &mut headers, "transaction", number)?;
    spelled(alloc, Verb::Begin, headers, b"")
}

fn commit_text(alloc: Global, number: &str) -> Result<Vec<u8>, Cause>
    ensures ok { IfOk result (λ text. text.items ≡ written (bare_frame Commit ((codes "transaction", number.now) ∷ (codes "receipt", number.now) ∷ []))) }
    ensures cause { IfErr result IsOfPeer }
{
    let mut headers = Vec::new(alloc);
    add(alloc, &mut headers, "transaction", number)?;
    add(alloc, &mut headers, "receipt", number)?;
    spelled(alloc, Verb::Commit, headers, b"")
}

// ACK with one header more.
fn ack_text(alloc: Global, name: &str, value: &str, delivery: &str) -> Result<Vec<u8>, Cause>
    ensures ok { IfOk result (λ text. text.items ≡ written (bare_frame Ack ((codes "id", delivery.now) ∷ (name.now, value.now) ∷ []))) }
    ensures cause { IfErr result IsOfPeer }
{
    let mut headers = Vec::new(alloc);
    add(alloc, &mut headers, "id", delivery)?;
    add(alloc, &mut headers, name, value)?;
    spelled(alloc, Verb::Ack, headers, b"")
}

// SEND of a message, with one header more.
fn moved_text(
    alloc: Global,
    name: &str,
    value: &str,
    to: &str,
    message: &Frame,
) -> Result<Vec<u8>, Cause>
    ensures ok { IfOk result (λ text. text.items ≡ written (moved_frame to.now (name.now, value.now) message.now)) }
    ensures cause { IfErr result IsOfPeer }
{
    let headers = message.headers.as_slice();
    let body = message.body.as_slice();
    let text = sent_text(alloc, name, value, to, headers, body);
    text
}

// SEND with one header more, and those of the others that a message keeps.
fn sent_text(
    alloc: Global,
    name: &str,
    value: &str,
    to: &str,
    given: &[(Text, Text)],
    body: &[u8],
) -> Result<Vec<u8>, Cause>
    ensures ok { IfOk result (λ text. text.items ≡ written (sent_frame to.now (name.now, value.now) given.now body.now)) }
    ensures cause { IfErr result IsOfPeer }
{
    let mut headers = Vec::new(alloc);
    add(alloc, &mut headers, "destination", to)?;
    add(alloc, &mut headers, name, value)?;
    add_length(alloc, &mut headers, body)?;
    add_kept(alloc, &mut headers, given)?;
    spelled(alloc, Verb::Send, headers, body)
}

// Adds the headers that a message keeps, in their order.
fn add_kept(
    alloc: Global,
    headers: &mut Vec<(Text, Text)>,
    given: &[(Text, Text)],
) -> Result<(), Cause>
    ensures ok { OnOk result (headers.new.items ≡ headers.old.items ++ kept_headers given.now) }
    ensures cause { IfErr result IsOfPeer }
{
    for (name, value) in given {
        if !is_made_anew(name.as_str()) {
            add(alloc, headers, name.as_str(), value.as_str())?;
        }
    }
    Ok(())
}

// Whether a message does not keep a header of this name.
fn is_made_anew(name: &str) -> bool
    ensures { result ≡ is_made_anew name.now }
{
    matches!(
        name,
        "destination"
            | "receipt"
            | "transaction"
            | "content-length"
            | "subscription"
            | "message-id"
            | "ack"
    )
}
