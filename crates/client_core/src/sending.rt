//! Conversations of one who sends, gives up a durable name, or pings.

ghost use Rattle.std.specs.Prelude.{◌≡◌, ◌⊎◌, IfErr, OnOk};
ghost use Rattle.frame_core.specs.Written.{written};
ghost use Rattle.client_core.specs.declared.fault.Step.TheVariants.{Close, Receipt};
ghost use Rattle.client_core.specs.declared.probe.Probe.TheVariants.{Connect, Disconnect, Send};
ghost use Rattle.client_core.specs.Answers.{said, step_of};
ghost use Rattle.client_core.specs.Requests.{connect_frame, forget_frame, forget_turns, send_frame, send_turns};
ghost use Rattle.client_core.specs.Talks.{Answers, AreDoneFirst, BreaksOff, Converses, HasReason, IsOfPeer, IsUnanswered, IsUndone};

use crate::fault::{Cause, ClientFault, Step};
use crate::peer::Peer;
use crate::plan::Outgoing;
use crate::probe::{Probe, ask};
use crate::requests::{connect_text, forget_text, send_text};
use std::alloc::Global;
use std::time::{Clock, Duration, Instant};

/// Opens a session, perhaps with a `client-id`: it is open once CONNECTED has come.
pub fn open<P: Peer>(
    alloc: Global,
    host: &str,
    client: Option<&str>,
    peer: &mut P,
) -> Result<(), ClientFault>
    ensures ok { OnOk result (Answers Connect (written (connect_frame host.now client.entry)) (P.talk peer.old) (P.talk peer.new)) }
    ensures fault { IfErr result (λ fault. IsUnanswered Connect (written (connect_frame host.now client.entry)) fault (P.talk peer.old) (P.talk peer.new)) }
    ensures step { IfErr result (λ fault. fault.step ≡ step_of Connect) }
{
    match connect_text(alloc, host, client) {
        Ok(text) => ask_owned(alloc, Probe::Connect, text, peer),
        Err(cause) => Err(unsaid(Probe::Connect, cause)),
    }
}

/// Sends a message: it is sent once its RECEIPT has come.
pub fn send<P: Peer>(alloc: Global, message: &Outgoing<'_>, peer: &mut P) -> Result<(), ClientFault>
    ensures ok { OnOk result (Answers Send (written (send_frame message.now)) (P.talk peer.old) (P.talk peer.new)) }
    ensures fault { IfErr result (λ fault. IsUnanswered Send (written (send_frame message.now)) fault (P.talk peer.old) (P.talk peer.new)) }
    ensures step { IfErr result (λ fault. fault.step ≡ step_of Send) }
{
    match send_text(alloc, message) {
        Ok(text) => ask_owned(alloc, Probe::Send, text, peer),
        Err(cause) => Err(unsaid(Probe::Send, cause)),
    }
}

/// Gives up a durable name of the session's `client-id`: it is gone once the RECEIPT has come.
pub fn forget<P: Peer>(alloc: Global, name: &str, peer: &mut P) -> Result<(), ClientFault>
    ensures ok { OnOk result (Answers Send (written (forget_frame name.now)) (P.talk peer.old) (P.talk peer.new)) }
    ensures fault { IfErr result (λ fault. IsUnanswered Send (written (forget_frame name.now)) fault (P.talk peer.old) (P.talk peer.new)) }
    ensures step { IfErr result (λ fault. fault.step ≡ step_of Send) }
{
    match forget_text(alloc, name) {
        Ok(text) => ask_owned(alloc, Probe::Send, text, peer),
        Err(cause) => Err(unsaid(Probe::Send, cause)),
    }
}

/// Ends the session, and closes.
pub fn leave<P: Peer>(alloc: Global, peer: &mut P) -> Result<(), ClientFault>
    ensures ok { OnOk result (Answers Disconnect (said Disconnect) (P.talk peer.old) (P.talk peer.new)) }
    ensures fault { IfErr result (λ fault. IsUnanswered Disconnect (said Disconnect) fault (P.talk peer.old) (P.talk peer.new)) }
{
    match ask(
        alloc,
        Probe::Disconnect,
        Probe::Disconnect.text().as_bytes(),
        peer,
    ) {
        Ok(()) => close(peer),
        Err(fault) => Err(fault),
    }
}

/// Closes.
pub fn close<P: Peer>(peer: &mut P) -> Result<(), ClientFault>
    ensures told { P.talk peer.new ≡ P.talk peer.old }
    ensures step { IfErr result (λ fault. fault.step ≡ Close) }
    ensures cause { IfErr result (λ fault. IsOfPeer fault.cause) }
{
    match peer.close() {
        Ok(()) => Ok(()),
        Err(cause) => Err(ClientFault {
            step: Step::Close,
            cause,
        }),
    }
}

// Sends a frame, lets its bytes go, and reads the answer.
fn ask_owned<P: Peer>(
    alloc: Global,
    probe: Probe,
    text: Vec<u8>,
    peer: &mut P,
) -> Result<(), ClientFault>
    ensures ok { OnOk result (Answers probe text.items (P.talk peer.old) (P.talk peer.new)) }
    ensures fault { IfErr result (λ fault. IsUnanswered probe text.items fault (P.talk peer.old) (P.talk peer.new)) }
    ensures step { IfErr result (λ fault. fault.step ≡ step_of probe) }
{
    let answered = ask(alloc, probe, text.as_slice(), peer);
    drop(text);
    answered
}

// The fault if a frame was not sent.
fn unsaid(probe: Probe, cause: Cause) -> ClientFault
    ensures cause { result.cause ≡ cause }
    ensures step { result.step ≡ step_of probe }
{
    ClientFault {
        step: probe.step(),
        cause,
    }
}

/// Opens a session, sends a message, and ends the session once its RECEIPT has come. The RECEIPT is success, however the session ends
/// (STOMP 1.2, "RECEIPT").
pub fn send_once<P: Peer>(
    alloc: Global,
    host: &str,
    message: &Outgoing<'_>,
    peer: &mut P,
) -> Result<(), ClientFault>
    ensures ok { OnOk result (AreDoneFirst (send_turns host.now message.now) (P.talk peer.old) (P.talk peer.new)) }
    ensures fault { IfErr result HasReason }
    ensures undone { IfErr result IsUndone }
{
    match open(alloc, host, None, peer) {
        Ok(()) => match send(alloc, message, peer) {
            Ok(()) => {
                part(alloc, peer);
                Ok(())
            }
            Err(fault) => Err(fault),
        },
        Err(fault) => Err(fault),
    }
}

/// Opens a session of a client, gives up one of its durable names, and ends the session once its RECEIPT has come, which is success.
pub fn forget_once<P: Peer>(
    alloc: Global,
    host: &str,
    client: &str,
    name: &str,
    peer: &mut P,
) -> Result<(), ClientFault>
    ensures ok { OnOk result (AreDoneFirst (forget_turns host.now client.entry name.now) (P.talk peer.old) (P.talk peer.new)) }
    ensures fault { IfErr result HasReason }
    ensures undone { IfErr result IsUndone }
{
    match open(alloc, host, Some(client), peer) {
        Ok(()) => match forget(alloc, name, peer) {
            Ok(()) => {
                part(alloc, peer);
                Ok(())
            }
            Err(fault) => Err(fault),
        },
        Err(fault) => Err(fault),
    }
}

// Ends the session, as far as the peer goes along with that.
fn part<P: Peer>(alloc: Global, peer: &mut P) {
    drop(leave(alloc, peer));
}

/// Sends CONNECT, a COMMIT of no members and DISCONNECT, each once the frame before is answered, and closes. Answers how long it was
/// from the COMMIT to its RECEIPT. A fault names the first step that went wrong.
pub fn converse<C: Clock, P: Peer>(
    clock: &C,
    alloc: Global,
    peer: &mut P,
) -> Result<Duration, ClientFault>
    ensures ok { OnOk result (Converses (P.talk peer.old) (P.talk peer.new)) }
    ensures fault { IfErr result (λ fault. IsOfPeer fault.cause ⊎ BreaksOff fault (P.talk peer.old) (P.talk peer.new)) }
{
    match say(alloc, Probe::Connect, peer) {
        Ok(()) => match ask_for_receipt(clock, alloc, peer) {
            Ok(took) => match say(alloc, Probe::Disconnect, peer) {
                Ok(()) => close_after(took, peer),
                Err(fault) => Err(fault),
            },
            Err(fault) => Err(fault),
        },
        Err(fault) => Err(fault),
    }
}

// Closes, after so long a wait for the receipt.
fn close_after<P: Peer>(took: Duration, peer: &mut P) -> Result<Duration, ClientFault>
    ensures told { P.talk peer.new ≡ P.talk peer.old }
    ensures step { IfErr result (λ fault. fault.step ≡ Close) }
    ensures cause { IfErr result (λ fault. IsOfPeer fault.cause) }
{
    match peer.close() {
        Ok(()) => Ok(took),
        Err(cause) => Err(ClientFault {
            step: Step::Close,
            cause,
        }),
    }
}

// Sends, and answers how long it was until the receipt.
fn ask_for_receipt<C: Clock, P: Peer>(
    clock: &C,
    alloc: Global,
    peer: &mut P,
) -> Result<Duration, ClientFault>
    ensures ok { OnOk result (Answers Send (said Send) (P.talk peer.old) (P.talk peer.new)) }
    ensures fault { IfErr result (λ fault. IsUnanswered Send (said Send) fault (P.talk peer.old) (P.talk peer.new)) }
{
    let Ok(began) = Instant::now(clock) else {
        return Err(no_clock());
    };
    say(alloc, Probe::Send, peer)?;
    match began.elapsed(clock) {
        Ok(took) => Ok(took),
        Err(_) => Err(no_clock()),
    }
}

// The fault if the clock can't be read.
fn no_clock() -> ClientFault
    ensures step { result.step ≡ Receipt }
    ensures cause { IsOfPeer result.cause }
{
    ClientFault {
        step: Step::Receipt,
        cause: Cause::System,
    }
}

// Sends what a ping sends at this probe, and reads the answer.
fn say<P: Peer>(alloc: Global, probe: Probe, peer: &mut P) -> Result<(), ClientFault>
    ensures ok { OnOk result (Answers probe (said probe) (P.talk peer.old) (P.talk peer.new)) }
    ensures fault { IfErr result (λ fault. IsUnanswered probe (said probe) fault (P.talk peer.old) (P.talk peer.new)) }
{
    ask(alloc, probe, probe.text().as_bytes(), peer)
}
