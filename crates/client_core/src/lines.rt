//! Lines that are sent before the RECEIPTs of those before them have come.

ghost use Rattle.std.specs.Prelude.{◌≡◌, ◌+◌, ◌++◌, ◌∷◌, ◌⊎◌, ◌<◌, ◌≤◌, ◌^◌, [], IfErr, IfNone, IfSome, List, None, OnErr, OnOk, ℕ};
ghost use Rattle.frame_core.specs.declared.frame.Frame.{Frame};
ghost use Rattle.frame_core.specs.Streams.{Reads};
ghost use Rattle.frame_core.specs.Written.{written};
ghost use Rattle.client_core.specs.declared.fault.Step.TheVariants.{Receipt};
ghost use Rattle.client_core.specs.Lines.{AreSettled, HasLineReason, IsMissed, IsReceiptOfLine, IsStray, MaySettle, Means, Misses, Settles, StopsAt};
ghost use Rattle.client_core.specs.Requests.{line_frame};
ghost use Rattle.client_core.specs.Talks.{Adds, Heard, IsOfPeer, Said};
ghost use Rattle.client_core.specs.Windows.{begun};
ghost use Rattle.client_core.specs.declared.fault.Cause.TheVariants.{Memory};
ghost use Rattle.client_core.specs.Answers.{IsCauseBy};

use crate::fault::{Cause, ClientFault, Step};
use crate::peer::Peer;
use crate::plan::Outgoing;
use crate::probe::{cause_by, is_receipt};
use crate::requests::line_text;
use frame_core::{Fed, Frame, FrameReader, first};
use std::alloc::{AllocError, Global};
use std::marker::Model;

// How many lines may be under way: a server has 16 commands of a client under way (docs/PROTOCOL.md, "Limits").
const MOST_UNDER_WAY: usize = 16;

/// What a stream has of the next line.
#[derive(Clone, Copy)]
pub enum Input {
    /// All of it is read already.
    AtHand,
    /// Not all of it is read: it may have to be waited for.
    Awaited,
    /// The stream has ended.
    Ended,
}

/// What one who sends lines does next.
#[derive(Clone, Copy)]
pub enum Turn {
    /// Reads the next line, and sends it.
    Send,
    /// Reads what the server sends.
    Hear,
    /// Ends: each line has its RECEIPT.
    End,
}

/// Which lines are under way: sent, with no RECEIPT yet. They are numbered from 1 on, as they are sent.
#[derive(Drop)]
pub struct Window {
    sent: u64,
    owed: Vec<u64>,
}

impl Model for Window {
    ghost use Rattle.client_core.specs.Windows.{Lines, Rises};

    ghost Value = { Lines };

    ghost view = { λ a. record { sent = a.sent; owed = a.owed.items } };

    ghost invariant = { λ a. Rises 0 a.owed.items a.sent };
}

impl Window {
    ghost use Rattle.std.specs.Prelude.{◌≡◌, ◌+◌, [], IfOk, OnErr, false, length, true};
    ghost use Rattle.client_core.specs.Windows.{IsTaken, begun, is_owed, settled, turn_of};

    /// No line was sent. No memory is taken.
    pub fn new(alloc: Global) -> Window
        ensures { result ≡ record { sent = 0; owed = [] } }
    {
        Window {
            sent: 0,
            owed: Vec::new(alloc),
        }
    }

    /// What is done next. A line that is at hand is sent while fewer than 16 are under way. Nothing is waited for at the stream while a
    /// RECEIPT is owed, and no RECEIPT while none is.
    pub fn turn(&self, input: Input) -> Turn
        ensures { result ≡ turn_of (length self.now.owed) input }
    {
        match input {
            Input::AtHand if self.owed.len() < MOST_UNDER_WAY => Turn::Send,
            Input::Awaited if self.owed.is_empty() => Turn::Send,
            Input::Ended if self.owed.is_empty() => Turn::End,
            _ => Turn::Hear,
        }
    }

    /// Notes that the next line is sent, and answers its number. If memory is refused, nothing changes.
    pub fn begin(&mut self) -> Result<u64, AllocError>
        ensures ok { IfOk result (λ number. (number ≡ self.old.sent + 1) × (self.new ≡ begun self.old)) }
        ensures same { OnErr result (self.new ≡ self.old) }
    {
        let Some(number) = self.sent.checked_add(1) else {
            return Err(AllocError);
        };
        self.owed.push(number)?;
        self.sent = number;
        Ok(number)
    }

    /// Notes that the RECEIPT of the line of that number has come, and answers whether it was owed. If not, nothing changes.
    pub fn settle(&mut self, number: u64) -> bool
        ensures owed { result ≡ is_owed number self.old.owed }
        ensures settled { result ≡ true → self.new ≡ settled number self.old }
        ensures same { result ≡ false → self.new ≡ self.old }
    {
        if !self.owed.as_slice().contains(&number) {
            return false;
        }
        self.owed.retain(|line| *line != number);
        true
    }

    /// How many lines were surely taken: the RECEIPTs of all up to this one have come, and that of the next has not.
    pub fn taken(&self) -> u64
        ensures { IsTaken self.now result }
    {
        match self.owed.as_slice() {
            [line, ..] => *line - 1,
            [] => self.sent,
        }
    }

    /// How many lines are under way.
    pub fn under_way(&self) -> usize
        ensures { result ≡ length self.now.owed }
    {
        self.owed.len()
    }

    /// How many lines were sent.
    pub fn sent(&self) -> u64
        ensures { result ≡ self.now.sent }
    {
        self.sent
    }
}

/// Sends the next line, whose receipt is its number, and waits for nothing.
///
/// If the peer ends the connection meanwhile, the fault is what came before the end, and what RECEIPTs came is noted.
pub fn send_line<P: Peer>(
    alloc: Global,
    window: &mut Window,
    message: &Outgoing<'_>,
    reader: &mut FrameReader,
    peer: &mut P,
) -> Result<(), ClientFault>
    ensures ok { OnOk result ((window.new ≡ begun window.old) × Adds (Said (written (line_frame (window.old.sent + 1) message.now)) ∷ []) (P.talk peer.old) (P.talk peer.new)) }
    ensures fault { IfErr result HasLineReason }
    ensures window { OnErr result ((window.new ≡ window.old) ⊎ MaySettle (begun window.old) window.new) }
{
    let Ok(number) = window.begin() else {
        return Err(unreceipted(Cause::Memory));
    };
    match say_line(alloc, number, message, peer) {
        Ok(()) => Ok(()),
        Err(Cause::Ended) => Err(hear_out(alloc, window, reader, peer)),
        Err(cause) => Err(unreceipted(cause)),
    }
}

fn say_line<P: Peer>(
    alloc: Global,
    number: u64,
    message: &Outgoing<'_>,
    peer: &mut P,
) -> Result<(), Cause>
    ensures ok { OnOk result (Adds (Said (written (line_frame number message.now)) ∷ []) (P.talk peer.old) (P.talk peer.new)) }
    ensures cause { IfErr result IsOfPeer }
{
    let text = line_text(alloc, number, message)?;
    let said = peer.say(text.as_slice());
    drop(text);
    said
}

/// Hears the next bytes, which are to be RECEIPTs of lines that are under way, and notes those that end in them. Each RECEIPT begins a
/// step. A fault of what came stands after the RECEIPTs that are noted.
pub fn hear_receipts<P: Peer>(
    alloc: Global,
    window: &mut Window,
    reader: &mut FrameReader,
    peer: &mut P,
) -> Result<(), ClientFault>
    ensures ok { OnOk result ((piece : List ℕ) × (frames : List Frame) × Adds (Heard piece ∷ []) (P.talk peer.old) (P.talk peer.new)
        × Reads (reader.old.rest ++ piece) frames reader.new.rest × AreSettled frames window.old window.new) }
    ensures fault { IfErr result (λ fault. (IsOfPeer fault.cause × (window.new ≡ window.old))
        ⊎ ((piece : List ℕ) × Adds (Heard piece ∷ []) (P.talk peer.old) (P.talk peer.new) × Misses (reader.old.rest ++ piece) window.old window.new fault.cause)) }
    ensures step { IfErr result (λ fault. fault.step ≡ Receipt) }
{
    match hear_piece(alloc, window, reader, peer) {
        Ok(()) => Ok(()),
        Err(cause) => Err(unreceipted(cause)),
    }
}

// The same. The fault is why other than RECEIPTs came.
fn hear_piece<P: Peer>(
    alloc: Global,
    window: &mut Window,
    reader: &mut FrameReader,
    peer: &mut P,
) -> Result<(), Cause>
    ensures ok { OnOk result ((piece : List ℕ) × (frames : List Frame) × Adds (Heard piece ∷ []) (P.talk peer.old) (P.talk peer.new)
        × Reads (reader.old.rest ++ piece) frames reader.new.rest × AreSettled frames window.old window.new) }
    ensures cause { IfErr result (λ cause. (IsOfPeer cause × (window.new ≡ window.old))
        ⊎ ((piece : List ℕ) × Adds (Heard piece ∷ []) (P.talk peer.old) (P.talk peer.new) × Misses (reader.old.rest ++ piece) window.old window.new cause)) }
{
    match peer.hear() {
        Ok(piece) => {
            let under_way = window.under_way();
            let noted = note(alloc, window, reader, piece.as_slice());
            drop(piece);
            if window.under_way() < under_way {
                peer.renew();
            }
            noted
        }
        Err(cause) => Err(cause),
    }
}

// Hears what came before the end of the connection, and answers why no more comes.
fn hear_out<P: Peer>(
    alloc: Global,
    window: &mut Window,
    reader: &mut FrameReader,
    peer: &mut P,
) -> ClientFault
    ensures fault { HasLineReason result }
    ensures window { MaySettle window.old window.new }
{
    for _piece in 0..u64::MAX {
        match hear_receipts(alloc, window, reader, peer) {
            Ok(()) => {}
            Err(fault) => return fault,
        }
    }
    unreceipted(Cause::Late)
}

fn unreceipted(cause: Cause) -> ClientFault
    ensures cause { result.cause ≡ cause }
    ensures step { result.step ≡ Receipt }
{
    ClientFault {
        step: Step::Receipt,
        cause,
    }
}

/// Reads the next bytes while lines are under way, and notes each RECEIPT that ends in them. The reader has what was read before. Any
/// other frame is a fault; the RECEIPTs before it are noted.
pub fn note(
    alloc: Global,
    window: &mut Window,
    reader: &mut FrameReader,
    piece: &[u8],
) -> Result<(), Cause>
    ensures ok { OnOk result ((frames : List Frame) × Reads (reader.old.rest ++ piece.now) frames reader.new.rest × AreSettled frames window.old window.new) }
    ensures cause { IfErr result (Misses (reader.old.rest ++ piece.now) window.old window.new) }
{
    match reader.feed(alloc, piece) {
        Ok(fed) => {
            let noted = note_fed(alloc, window, &fed);
            drop(fed);
            noted
        }
        Err(_) => Err(Cause::Memory),
    }
}

// Notes what was read, after which no fault may stand.
fn note_fed(alloc: Global, window: &mut Window, fed: &Fed) -> Result<(), Cause>
    ensures sound { OnOk result (fed.now.fault ≡ None) }
    ensures ok { OnOk result (AreSettled fed.now.frames.items window.old window.new) }
    ensures cause { IfErr result (IsMissed fed.now.frames.items fed.now.fault window.old window.new) }
{
    match settle_all(alloc, window, fed.frames.as_slice()) {
        Ok(()) => match fed.fault {
            Some(_) => Err(Cause::NotStomp),
            None => Ok(()),
        },
        Err(cause) => Err(cause),
    }
}

// Notes RECEIPTs, up to a frame that is none.
fn settle_all(alloc: Global, window: &mut Window, frames: &[Frame]) -> Result<(), Cause>
    ensures ok { OnOk result (AreSettled frames.now window.old window.new) }
    ensures cause { IfErr result (StopsAt frames.now window.old window.new) }
{
    for frame in frames {
        match settle(alloc, window, frame) {
            Ok(()) => {}
            Err(cause) => return Err(cause),
        }
    }
    Ok(())
}

// Notes a RECEIPT of a line that is under way.
fn settle(alloc: Global, window: &mut Window, frame: &Frame) -> Result<(), Cause>
    ensures ok { OnOk result (Settles frame.now window.old window.new) }
    ensures same { OnErr result (window.new ≡ window.old) }
    ensures stray { OnErr result (IsStray frame.now window.old) }
    ensures cause { IfErr result (λ cause. (cause ≡ Memory) ⊎ IsCauseBy frame.now cause) }
{
    match line_of(frame) {
        Some(number) => {
            if window.settle(number) {
                return Ok(());
            }
            Err(cause_by(alloc, frame))
        }
        None => Err(cause_by(alloc, frame)),
    }
}

// The number of the line whose RECEIPT a frame is.
fn line_of(frame: &Frame) -> Option<u64>
    ensures some { IfSome result (λ number. IsReceiptOfLine number frame.now) }
    ensures none { IfNone result ((number : ℕ) → number < 2 ^ 64 → IsReceiptOfLine number frame.now → ⊥) }
{
    if !is_receipt(frame.verb) {
        return None;
    }
    match first(frame, "receipt-id") {
        Some(id) => number_of(id),
        None => None,
    }
}

/// The number that decimal digits mean.
pub(crate) fn number_of(text: &str) -> Option<u64>
    ensures some { IfSome result (Means text.now) }
    ensures none { IfNone result ((number : ℕ) → Means text.now number → 2 ^ 64 ≤ number) }
{
    match text.as_bytes() {
        [b'+', ..] => None,
        _ => text.parse::<u64>().ok(),
    }
}
