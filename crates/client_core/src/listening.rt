//! The conversation of one who listens: what frames ask of it, and how it ends.

ghost use Rattle.std.specs.Prelude.{◌≡◌, ◌++◌, ◌∷◌, ◌↔◌, [], IfOk, IsTrue, List, MatchOption, None, OnOk, Some, ℕ, codes, false, flat_map, map, string_bytes, true};
ghost use Rattle.frame_core.specs.declared.frame.Frame.{Frame};
ghost use Rattle.frame_core.specs.Written.{written};
ghost use Rattle.client_core.specs.declared.fault.Cause.TheVariants.{Quiet};
ghost use Rattle.client_core.specs.declared.fault.Step.TheVariants.{Message};
ghost use Rattle.client_core.specs.Deeds.{AreDone, IsDone, acts_of, header_line, shown_text};
ghost use Rattle.client_core.specs.Listening.{AllAreShown, AreLast, AreLeft, EndsIn, EndsWell, Listens, ListensIn, MayEnd};
ghost use Rattle.client_core.specs.Requests.{ack_frame, subscribe_frame};
ghost use Rattle.client_core.specs.Talks.{Adds, Heard, Said, Spoken, all_of, listening_step, turn};
ghost use Rattle.frame_core.specs.declared.frame.Verb.TheVariants as verbs;
ghost use Rattle.frame_core.specs.Writable.{first_of};
ghost use Rattle.client_core.specs.declared.probe.Probe.TheVariants.{Disconnect};
ghost use Rattle.client_core.specs.Answers.{said};

use crate::fault::{Cause, ClientFault, Step};
use crate::peer::{Listener, Peer};
use crate::plan::Plan;
use crate::probe::{Probe, cause_by};
use crate::requests::{ack_text, subscribe_text};
use crate::sending::{close, open};
use frame_core::{Fed, Frame, FrameReader, Text, Verb, first};
use script_text::encode_text;
use std::alloc::Global;

/// Opens a session, perhaps with a `client-id`, and subscribes. Shows the messages that come, and settles each once it is shown if that
/// is asked for. After the last it ends the session, and closes.
pub fn listen<L: Listener>(
    alloc: Global,
    host: &str,
    client: Option<&str>,
    plan: &Plan<'_>,
    peer: &mut L,
) -> Result<(), ClientFault>
    ensures { OnOk result (Listens host.now client.entry plan.now (L.Peer.talk peer.old) (L.Peer.talk peer.new)) }
{
    match open(alloc, host, client, peer) {
        Ok(()) => listen_in(alloc, plan, peer),
        Err(fault) => Err(fault),
    }
}

// The same in an open session.
fn listen_in<L: Listener>(alloc: Global, plan: &Plan<'_>, peer: &mut L) -> Result<(), ClientFault>
    ensures { OnOk result ((talk : List Spoken) × ListensIn plan.now talk × Adds talk (L.Peer.talk peer.old) (L.Peer.talk peer.new)) }
{
    let mut reader = FrameReader::new(alloc);
    let listened = hear_all(alloc, plan, &mut reader, peer);
    drop(reader);
    match listened {
        Ok(()) => close(peer),
        Err(fault) => Err(fault),
    }
}

// All of it, up to the close.
fn hear_all<L: Listener>(
    alloc: Global,
    plan: &Plan<'_>,
    reader: &mut FrameReader,
    peer: &mut L,
) -> Result<(), ClientFault>
    requires { reader.old.rest ≡ [] }
    ensures { OnOk result ((talk : List Spoken) × ListensIn plan.now talk × Adds talk (L.Peer.talk peer.old) (L.Peer.talk peer.new)) }
{
    match hear_messages(alloc, plan, reader, peer) {
        Ok(()) => leave_after(alloc, reader, peer),
        Err(Cause::Quiet) => {
            leave_after(alloc, reader, peer)?;
            close(peer)?;
            Err(quiet())
        }
        Err(cause) => Err(ClientFault {
            step: step_by(&cause),
            cause,
        }),
    }
}

// The fault if no message has come for as long as the plan allows.
fn quiet() -> ClientFault
    ensures { result ≡ record { step = Message; cause = Quiet } }
{
    ClientFault {
        step: Step::Message,
        cause: Cause::Quiet,
    }
}

// The step that went wrong while it listened.
fn step_by(cause: &Cause) -> Step
    ensures { result ≡ listening_step cause.now }
{
    match cause {
        Cause::Output => Step::Output,
        _ => Step::Message,
    }
}

// Says SUBSCRIBE, and shows messages until all have come.
fn hear_messages<L: Listener>(
    alloc: Global,
    plan: &Plan<'_>,
    reader: &mut FrameReader,
    peer: &mut L,
) -> Result<(), Cause>
    requires { reader.old.rest ≡ [] }
    ensures { OnOk result ((listening : List Spoken) × AllAreShown plan.now listening reader.new.rest
        × Adds (Said (written (subscribe_frame plan.now)) ∷ listening) (L.Peer.talk peer.old) (L.Peer.talk peer.new)) }
{
    match subscribe(alloc, plan, peer) {
        Ok(()) => hear_until_all(alloc, plan, reader, peer),
        Err(cause) => Err(cause),
    }
}

/// Says the SUBSCRIBE of a plan. No RECEIPT is asked for: what comes are its messages.
pub fn subscribe<P: Peer>(alloc: Global, plan: &Plan<'_>, peer: &mut P) -> Result<(), Cause>
    ensures { OnOk result (Adds (Said (written (subscribe_frame plan.now)) ∷ []) (P.talk peer.old) (P.talk peer.new)) }
{
    let text = subscribe_text(alloc, plan)?;
    let said = peer.say(text.as_slice());
    drop(text);
    said
}

// Hears pieces until all messages have come.
fn hear_until_all<L: Listener>(
    alloc: Global,
    plan: &Plan<'_>,
    reader: &mut FrameReader,
    peer: &mut L,
) -> Result<(), Cause>
    requires { reader.old.rest ≡ [] }
    ensures { OnOk result ((listening : List Spoken) × AllAreShown plan.now listening reader.new.rest × Adds listening (L.Peer.talk peer.old) (L.Peer.talk peer.new)) }
{
    let mut left = plan.count;
    for _piece in 0..u64::MAX {
        if left == 0 {
            return Ok(());
        }
        let after = hear_some(alloc, plan, reader, left, peer)?;
        left = after;
    }
    Err(Cause::Silent)
}

// Reads a piece, of which it shows `left` messages at most. Answers how many are left.
fn hear_some<L: Listener>(
    alloc: Global,
    plan: &Plan<'_>,
    reader: &mut FrameReader,
    left: u64,
    peer: &mut L,
) -> Result<u64, Cause>
    ensures { IfOk result (λ after. (piece : List ℕ) × (messages : List Frame) × (others : List Frame) × (acts : List Spoken)
        × EndsIn plan.now (reader.old.rest ++ piece) messages others acts reader.new.rest × AreLeft left after messages others
        × Adds (Heard piece ∷ acts) (L.Peer.talk peer.old) (L.Peer.talk peer.new)) }
{
    match peer.wait() {
        Ok(piece) => {
            let after = show_piece(alloc, plan, reader, piece.as_slice(), left, peer);
            drop(piece);
            after
        }
        Err(cause) => Err(cause),
    }
}

// Shows what ends in a piece.
fn show_piece<L: Listener>(
    alloc: Global,
    plan: &Plan<'_>,
    reader: &mut FrameReader,
    piece: &[u8],
    left: u64,
    peer: &mut L,
) -> Result<u64, Cause>
    ensures { IfOk result (λ after. (messages : List Frame) × (others : List Frame) × (acts : List Spoken)
        × EndsIn plan.now (reader.old.rest ++ piece.now) messages others acts reader.new.rest × AreLeft left after messages others
        × Adds acts (L.Peer.talk peer.old) (L.Peer.talk peer.new)) }
{
    match reader.feed(alloc, piece) {
        Ok(fed) => {
            let after = show_fed(alloc, plan, &fed, left, peer);
            drop(fed);
            after
        }
        Err(_) => Err(Cause::Memory),
    }
}

// Shows what was read, after which no fault may stand.
fn show_fed<L: Listener>(
    alloc: Global,
    plan: &Plan<'_>,
    fed: &Fed,
    left: u64,
    peer: &mut L,
) -> Result<u64, Cause>
    ensures sound { OnOk result (fed.now.fault ≡ None) }
    ensures shown { IfOk result (λ after. (messages : List Frame) × (others : List Frame) × (acts : List Spoken) × (fed.now.frames.items ≡ messages ++ others)
        × AreLeft left after messages others × AreDone plan.now messages acts × Adds acts (L.Peer.talk peer.old) (L.Peer.talk peer.new)) }
{
    let after = show_all(alloc, plan, fed.frames.as_slice(), left, peer)?;
    match fed.fault {
        Some(_) => Err(Cause::NotStomp),
        None => Ok(after),
    }
}

// Shows `left` of these at most, and settles them if that is asked for.
fn show_all<L: Listener>(
    alloc: Global,
    plan: &Plan<'_>,
    frames: &[Frame],
    left: u64,
    peer: &mut L,
) -> Result<u64, Cause>
    ensures { IfOk result (λ after. (messages : List Frame) × (others : List Frame) × (acts : List Spoken) × (frames.now ≡ messages ++ others)
        × AreLeft left after messages others × AreDone plan.now messages acts × Adds acts (L.Peer.talk peer.old) (L.Peer.talk peer.new)) }
{
    let mut left = left;
    for frame in frames {
        if left == 0 {
            return Ok(0);
        }
        show(alloc, plan, frame, peer)?;
        left -= 1;
    }
    Ok(left)
}

// Shows a message, and then settles it if that is asked for.
fn show<L: Listener>(
    alloc: Global,
    plan: &Plan<'_>,
    frame: &Frame,
    peer: &mut L,
) -> Result<(), Cause>
    ensures { OnOk result ((acts : List Spoken) × IsDone plan.now frame.now acts × Adds acts (L.Peer.talk peer.old) (L.Peer.talk peer.new)) }
{
    let deed = deed_of(alloc, plan, frame)?;
    let done = perform(&deed, peer);
    drop(deed);
    done
}

// Shows the text of a deed, and then sends its frame, if it has one.
fn perform<L: Listener>(deed: &Deed, peer: &mut L) -> Result<(), Cause>
    ensures { OnOk result (Adds (acts_of deed.now) (L.Peer.talk peer.old) (L.Peer.talk peer.new)) }
{
    peer.show(deed.text.as_slice())?;
    match &deed.ack {
        Some(ack) => peer.say(ack.as_slice()),
        None => Ok(()),
    }
}

/// A message's text for the user, and the frame by which it is settled then, if it is to be.
#[derive(Drop)]
pub struct Deed {
    pub text: Vec<u8>,
    pub ack: Option<Vec<u8>>,
}

/// What a frame asks of one who listens. Only messages are awaited.
pub fn deed_of(alloc: Global, plan: &Plan<'_>, frame: &Frame) -> Result<Deed, Cause>
    ensures message { OnOk result (frame.now.verb ≡ verbs.Message) }
    ensures shown { IfOk result (λ deed. deed.text.items ≡ shown_text plan.now.with_headers frame.now) }
    ensures settled { IfOk result (λ deed. MatchOption deed.ack (plan.now.settles ≡ false)
        (λ ack. (plan.now.settles ≡ true) × (delivery : List ℕ) × (first_of (codes "ack") frame.now.headers ≡ Some delivery) × (ack.items ≡ written (ack_frame delivery)))) }
{
    if !is_message(frame.verb) {
        return Err(cause_by(alloc, frame));
    }
    let text = shown_text(alloc, plan.with_headers, frame)?;
    if !plan.settles {
        return Ok(Deed { text, ack: None });
    }
    match settling_text(alloc, frame) {
        Ok(ack) => Ok(Deed {
            text,
            ack: Some(ack),
        }),
        Err(cause) => {
            drop(text);
            Err(cause)
        }
    }
}

/// Whether it is a MESSAGE.
pub fn is_message(verb: Verb) -> bool
    ensures { IsTrue result ↔ (verb ≡ verbs.Message) }
{
    matches!(verb, Verb::Message)
}

// The ACK of a message. One that is to be acknowledged has the header for that (STOMP 1.2, "MESSAGE").
fn settling_text(alloc: Global, frame: &Frame) -> Result<Vec<u8>, Cause>
    ensures { IfOk result (λ ack. (delivery : List ℕ) × (first_of (codes "ack") frame.now.headers ≡ Some delivery) × (ack.items ≡ written (ack_frame delivery))) }
{
    match first(frame, "ack") {
        Some(delivery) => ack_text(alloc, delivery),
        None => Err(Cause::NotStomp),
    }
}

// The body and an end of line, perhaps with the headers before it.
fn shown_text(alloc: Global, with_headers: bool, frame: &Frame) -> Result<Vec<u8>, Cause>
    ensures { IfOk result (λ text. text.items ≡ shown_text with_headers frame.now) }
{
    let mut text = Vec::new(alloc);
    if with_headers {
        add_headers(alloc, &mut text, frame.headers.as_slice())?;
    }
    let body = frame.body.as_slice();
    match text.extend_from_slice(body) {
        Ok(()) => {}
        Err(_) => return Err(Cause::Memory),
    }
    match text.push(b'\n') {
        Ok(()) => Ok(text),
        Err(_) => Err(Cause::Memory),
    }
}

// Each header on a line of its own, and an empty line.
fn add_headers(alloc: Global, text: &mut Vec<u8>, headers: &[(Text, Text)]) -> Result<(), Cause>
    ensures { OnOk result (text.new.items ≡ text.old.items ++ (flat_map header_line headers.now ++ 10 ∷ [])) }
{
    let mut lines = String::new(alloc);
    for (name, value) in headers {
        add_line(&mut lines, name.as_str(), value.as_str())?;
    }
    if lines.push('\n').is_err() || text.extend_from_slice(lines.as_bytes()).is_err() {
        return Err(Cause::Memory);
    }
    Ok(())
}

fn add_line(lines: &mut String, name: &str, value: &str) -> Result<(), Cause>
    ensures { OnOk result (string_bytes lines.new ≡ string_bytes lines.old ++ header_line (name.now, value.now)) }
{
    if encode_text(lines, name.as_bytes()).is_err()
        || lines.push(':').is_err()
        || encode_text(lines, value.as_bytes()).is_err()
        || lines.push('\n').is_err()
    {
        return Err(Cause::Memory);
    }
    Ok(())
}

/// Sends DISCONNECT, and reads its RECEIPT. Messages that come before that go back.
pub fn leave_after<P: Peer>(
    alloc: Global,
    reader: &mut FrameReader,
    peer: &mut P,
) -> Result<(), ClientFault>
    ensures { OnOk result ((last : List (List ℕ)) × Adds (turn (said Disconnect) last) (P.talk peer.old) (P.talk peer.new) × EndsWell (reader.old.rest ++ all_of last)) }
{
    match hear_farewell(alloc, reader, peer) {
        Ok(()) => Ok(()),
        Err(cause) => Err(ClientFault {
            step: Step::Farewell,
            cause,
        }),
    }
}

// The same. The fault is why the RECEIPT did not come.
fn hear_farewell<P: Peer>(
    alloc: Global,
    reader: &mut FrameReader,
    peer: &mut P,
) -> Result<(), Cause>
    ensures { OnOk result ((last : List (List ℕ)) × Adds (turn (said Disconnect) last) (P.talk peer.old) (P.talk peer.new) × EndsWell (reader.old.rest ++ all_of last)) }
{
    match peer.say(Probe::Disconnect.text().as_bytes()) {
        Ok(()) => hear_receipt(alloc, reader, peer),
        Err(cause) => Err(cause),
    }
}

// Hears pieces until the RECEIPT is whole.
fn hear_receipt<P: Peer>(alloc: Global, reader: &mut FrameReader, peer: &mut P) -> Result<(), Cause>
    ensures { OnOk result ((last : List (List ℕ)) × Adds (map Heard last) (P.talk peer.old) (P.talk peer.new) × EndsWell (reader.old.rest ++ all_of last)) }
{
    for _piece in 0..u64::MAX {
        match hear_last(alloc, reader, peer) {
            Ok(true) => return Ok(()),
            Ok(false) => {}
            Err(cause) => return Err(cause),
        }
    }
    Err(Cause::Late)
}

// Hears one piece, and answers whether the RECEIPT is whole.
fn hear_last<P: Peer>(alloc: Global, reader: &mut FrameReader, peer: &mut P) -> Result<bool, Cause>
    ensures { IfOk result (λ is_over. (piece : List ℕ) × Adds (Heard piece ∷ []) (P.talk peer.old) (P.talk peer.new) × MayEnd (reader.old.rest ++ piece) reader.new.rest is_over) }
{
    match peer.hear() {
        Ok(piece) => {
            let is_over = is_over(alloc, reader, piece.as_slice());
            drop(piece);
            is_over
        }
        Err(cause) => Err(cause),
    }
}

fn is_over(alloc: Global, reader: &mut FrameReader, piece: &[u8]) -> Result<bool, Cause>
    ensures { IfOk result (MayEnd (reader.old.rest ++ piece.now) reader.new.rest) }
{
    match reader.feed(alloc, piece) {
        Ok(fed) => {
            let is_over = is_farewell(alloc, &fed);
            drop(fed);
            is_over
        }
        Err(_) => Err(Cause::Memory),
    }
}

// Whether the RECEIPT is among what was read, after messages alone.
fn is_farewell(alloc: Global, fed: &Fed) -> Result<bool, Cause>
    ensures over { IfOk result (AreLast fed.now.frames.items) }
    ensures sound { IfOk result (λ is_over. is_over ≡ false → fed.now.fault ≡ None) }
{
    match has_receipt(alloc, fed.frames.as_slice()) {
        Ok(false) => match fed.fault {
            Some(_) => Err(Cause::NotStomp),
            None => Ok(false),
        },
        has => has,
    }
}

fn has_receipt(alloc: Global, frames: &[Frame]) -> Result<bool, Cause>
    ensures { IfOk result (AreLast frames.now) }
{
    for frame in frames {
        if Probe::Disconnect.is_answer(frame) {
            return Ok(true);
        }
        if !is_message(frame.verb) {
            return Err(cause_by(alloc, frame));
        }
    }
    Ok(false)
}
