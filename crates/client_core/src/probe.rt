//! A frame is sent, and its answer read: what a ping sends, and what of the answer has come.

ghost use Rattle.std.specs.Prelude.{◌≡◌, ◌↔◌, ◌++◌, ◌⊎◌, ◌∷◌, [], IfErr, IfOk, IsTrue, List, MatchOption, None, OnOk, ℕ, false, map};
ghost use Rattle.frame_core.specs.declared.frame.Verb.TheVariants.{Connected, Receipt};
ghost use Rattle.client_core.specs.Answers.{AreHeard, AreRight, Breaks, HasId, Hears, IsAnswer, IsCauseBy, IsCauseOf, IsReceiptOf, IsWrong, said, step_of, told_by};
ghost use Rattle.frame_core.specs.declared.frame.Verb.TheVariants as verbs;
ghost use Rattle.client_core.specs.declared.fault.Cause.TheVariants.{Memory};
ghost use Rattle.client_core.specs.Talks.{Adds, Answers, Heard, IsAnswered, IsOfPeer, IsUnanswered, Refuses, all_of};

use crate::fault::{Cause, ClientFault, Step};
use crate::peer::Peer;
use frame_core::{Fed, Frame, FrameReader, Text, Verb, first};
use script_text::encode_text;
use std::alloc::{AllocError, Global};

/// What a ping sends, in this order. Each is answered by one frame.
#[derive(Clone, Copy)]
pub enum Probe {
    /// CONNECT, which CONNECTED answers.
    Connect,
    /// BEGIN, and COMMIT of no members, which a RECEIPT answers once it is in the journal. It needs no room there, and concerns nobody.
    Send,
    /// DISCONNECT, which a RECEIPT answers.
    Disconnect,
}

impl Probe {
    /// The frame that is sent.
    pub fn text(self) -> &'static str
        ensures { result.now ≡ said self }
    {
        match self {
            Probe::Connect => "CONNECT\naccept-version:1.2\nhost:127.0.0.1\n\n\0",
            Probe::Send =>
                "BEGIN\ntransaction:ping\n\n\0COMMIT\ntransaction:ping\nreceipt:sent\n\n\0",
            Probe::Disconnect => "DISCONNECT\nreceipt:left\n\n\0",
        }
    }

    /// The step that goes wrong if no answer comes.
    pub fn step(self) -> Step
        ensures { result ≡ step_of self }
    {
        match self {
            Probe::Connect => Step::Connected,
            Probe::Send => Step::Receipt,
            Probe::Disconnect => Step::Farewell,
        }
    }

    /// Whether this frame answers it: CONNECTED, or the RECEIPT with its id.
    pub fn is_answer(self, frame: &Frame) -> bool
        ensures { IsTrue result ↔ IsAnswer self frame.now }
    {
        match self {
            Probe::Connect => is_connected(frame.verb),
            Probe::Send => is_receipt_of(frame, "sent"),
            Probe::Disconnect => is_receipt_of(frame, "left"),
        }
    }
}

fn is_connected(verb: Verb) -> bool
    ensures { IsTrue result ↔ (verb ≡ Connected) }
{
    matches!(verb, Verb::Connected)
}

pub(crate) fn is_receipt(verb: Verb) -> bool
    ensures { IsTrue result ↔ (verb ≡ Receipt) }
{
    matches!(verb, Verb::Receipt)
}

/// Whether a frame is the RECEIPT with that id.
pub(crate) fn is_receipt_of(frame: &Frame, id: &str) -> bool
    ensures { IsTrue result ↔ IsReceiptOf id.now frame.now }
{
    is_receipt(frame.verb) && has_id(frame, id)
}

fn has_id(frame: &Frame, id: &str) -> bool
    ensures { IsTrue result ↔ HasId id.now frame.now }
{
    match first(frame, "receipt-id") {
        Some(value) => value == id,
        None => false,
    }
}

/// Reads the next bytes after the frame of this probe, and answers whether the answer is whole. The reader has what was read
/// before. No frame may stand after the answer, since nothing more was asked for.
///
/// After an error the reader may have failed.
pub fn hear(
    alloc: Global,
    probe: Probe,
    reader: &mut FrameReader,
    piece: &[u8],
) -> Result<bool, Cause>
    requires { reader.old.failed ≡ false }
    ensures heard { IfOk result (Hears probe (reader.old.rest ++ piece.now) reader.new.rest) }
    ensures unfailed { IfOk result (λ _. reader.new.failed ≡ false) }
    ensures cause { IfErr result (λ cause. (cause ≡ Memory) ⊎ Breaks probe (reader.old.rest ++ piece.now) cause) }
{
    match reader.feed(alloc, piece) {
        Ok(fed) => {
            let judged = judge(alloc, probe, &fed);
            drop(fed);
            judged
        }
        Err(_) => Err(Cause::Memory),
    }
}

// What was read, judged by its first frame that should not have come, and then by its fault.
fn judge(alloc: Global, probe: Probe, fed: &Fed) -> Result<bool, Cause>
    ensures heard { IfOk result (AreHeard probe fed.now.frames.items) }
    ensures sound { IfOk result (λ _. fed.now.fault ≡ None) }
    ensures cause { IfErr result (λ cause. (cause ≡ Memory) ⊎ IsCauseOf probe fed.now.frames.items fed.now.fault cause) }
{
    if let Some(frame) = wrong(probe, fed.frames.as_slice()) {
        return Err(cause_by(alloc, frame));
    }
    match fed.fault {
        Some(_) => Err(Cause::NotStomp),
        None => Ok(!fed.frames.is_empty()),
    }
}

// The first of these frames that should not have come: one that is no answer, or stands after the answer.
fn wrong(probe: Probe, frames: &[Frame]) -> Option<&Frame>
    ensures { MatchOption result (AreRight probe frames.now) (λ frame. IsWrong probe frames.now frame.now) }
{
    let Some((one, others)) = frames.split_first() else {
        return None;
    };
    if !probe.is_answer(one) {
        return Some(one);
    }
    match others.split_first() {
        Some((another, _)) => Some(another),
        None => None,
    }
}

/// What a frame has that should not have come.
pub fn cause_by(alloc: Global, frame: &Frame) -> Cause
    ensures { (result ≡ Memory) ⊎ IsCauseBy frame.now result }
{
    if !is_error(frame.verb) {
        return Cause::Other(frame.verb);
    }
    match told_by(alloc, frame) {
        Ok(text) => Cause::Error(text),
        Err(_) => Cause::Memory,
    }
}

fn is_error(verb: Verb) -> bool
    ensures { IsTrue result ↔ (verb ≡ verbs.Error) }
{
    matches!(verb, Verb::Error)
}

// Its message, as one line.
fn told_by(alloc: Global, frame: &Frame) -> Result<Text, AllocError>
    ensures { IfOk result (λ text. text ≡ told_by frame.now) }
{
    let message = first(frame, "message").unwrap_or("");
    let mut text = String::new(alloc);
    match encode_text(&mut text, message.as_bytes()) {
        Ok(()) => Ok(Text::new(text)),
        Err(refused) => {
            drop(text);
            Err(refused)
        }
    }
}

/// Sends a frame, and reads the answer that this probe awaits.
pub fn ask<P: Peer>(
    alloc: Global,
    probe: Probe,
    frame: &[u8],
    peer: &mut P,
) -> Result<(), ClientFault>
    ensures ok { OnOk result (Answers probe frame.now (P.talk peer.old) (P.talk peer.new)) }
    ensures fault { IfErr result (λ fault. IsUnanswered probe frame.now fault (P.talk peer.old) (P.talk peer.new)) }
    ensures step { IfErr result (λ fault. fault.step ≡ step_of probe) }
{
    match answer(alloc, probe, frame, peer) {
        Ok(()) => Ok(()),
        Err(cause) => Err(ClientFault {
            step: probe.step(),
            cause,
        }),
    }
}

// The same. The fault is why the answer did not come.
fn answer<P: Peer>(alloc: Global, probe: Probe, frame: &[u8], peer: &mut P) -> Result<(), Cause>
    ensures ok { OnOk result (Answers probe frame.now (P.talk peer.old) (P.talk peer.new)) }
    ensures cause { IfErr result (λ cause. IsOfPeer cause ⊎ Refuses probe frame.now cause (P.talk peer.old) (P.talk peer.new)) }
{
    match peer.say(frame) {
        Ok(()) => {
            let mut reader = FrameReader::new(alloc);
            let answered = hear_answer(alloc, probe, &mut reader, peer);
            drop(reader);
            answered
        }
        Err(cause) => Err(cause),
    }
}

// Hears pieces until the answer is whole.
fn hear_answer<P: Peer>(
    alloc: Global,
    probe: Probe,
    reader: &mut FrameReader,
    peer: &mut P,
) -> Result<(), Cause>
    requires fresh { reader.old.rest ≡ [] }
    requires unfailed { reader.old.failed ≡ false }
    ensures ok { OnOk result ((pieces : List (List ℕ)) × Adds (map Heard pieces) (P.talk peer.old) (P.talk peer.new) × IsAnswered probe pieces) }
    ensures cause { IfErr result (λ cause. IsOfPeer cause
        ⊎ ((pieces : List (List ℕ)) × Adds (map Heard pieces) (P.talk peer.old) (P.talk peer.new) × Breaks probe (all_of pieces) cause)) }
{
    for _piece in 0..u64::MAX {
        match hear_one(alloc, probe, reader, peer) {
            Ok(true) => return Ok(()),
            Ok(false) => {}
            Err(cause) => return Err(cause),
        }
    }
    Err(Cause::Late)
}

// Hears one piece, and answers whether the answer is whole.
fn hear_one<P: Peer>(
    alloc: Global,
    probe: Probe,
    reader: &mut FrameReader,
    peer: &mut P,
) -> Result<bool, Cause>
    requires { reader.old.failed ≡ false }
    ensures heard { IfOk result (λ is_answered. (piece : List ℕ) × Adds (Heard piece ∷ []) (P.talk peer.old) (P.talk peer.new)
        × Hears probe (reader.old.rest ++ piece) reader.new.rest is_answered) }
    ensures unfailed { IfOk result (λ _. reader.new.failed ≡ false) }
    ensures cause { IfErr result (λ cause. IsOfPeer cause ⊎ ((piece : List ℕ) × Adds (Heard piece ∷ []) (P.talk peer.old) (P.talk peer.new)
        × Breaks probe (reader.old.rest ++ piece) cause)) }
{
    match peer.hear() {
        Ok(piece) => {
            let heard = hear(alloc, probe, reader, piece.as_slice());
            drop(piece);
            heard
        }
        Err(cause) => Err(cause),
    }
}
