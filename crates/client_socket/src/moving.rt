//! Moving messages from one place to another, which may be at another server.

ghost use Rattle.std.specs.Prelude.{◌≡◌, IfSome, OnOk, ℕ, true};
ghost use Rattle.client_core.specs.declared.fault.Doubt.TheVariants.{Nothing};

use crate::calls::{open, open_numbered};
use crate::lines::is_stale;
use crate::listening::{PAUSE_SECONDS, Patience, Siege, wait_for};
use crate::web_peer::WebPeer;
use client_core::{
    Address, Cause, ClientFault, Doubt, Errand, Mover, Peer, Route, Saying, Stage, Step, doubt_of,
    leave_after, subscribe,
};
use frame_core::{Fed, FrameReader};
use std::alloc::Global;
use std::io::Write;
use std::net::{Net, TcpStream};
use std::random::RandomSource;
use std::thread;
use std::time::{Clock, Duration, Instant};

/// From which server messages are moved, perhaps with a `client-id`, and to which one, if that is another.
#[derive(Clone, Copy)]
pub struct Haul<'a, R> {
    pub rt: &'a R,
    pub alloc: Global,
    pub address: Address<'a>,
    pub client: Option<&'a str>,
    pub other: Option<Address<'a>>,
    pub errand: Errand<'a>,
}

/// What became of the messages that were to be moved.
#[derive(Drop)]
pub struct Moved {
    /// How many were moved: the RECEIPTs of all of these have come.
    pub moved: u64,
    /// What is not known of the next one.
    pub doubt: Doubt,
    /// Why no more were moved; `Ok` if as many were as was asked for, or all of them.
    pub ended: Result<(), ClientFault>,
}

// A connection, and the beginning of a frame that it may have brought.
#[derive(Drop)]
struct Link<R> {
    peer: WebPeer<R>,
    reader: FrameReader,
}

// The server that holds the messages, and the other one, if there is a connection to it.
#[derive(Drop)]
struct Ends<R> {
    here: Link<R>,
    there: Option<Link<R>>,
}

/// Moves messages, one after another. The next one is begun once the RECEIPT of the one before has come. Without a count it moves
/// all that are there: until one comes that was not, or none has come for the errand's timeout. How the sessions end changes nothing. A
/// durable name that another session has is waited for, which is told to `errors`.
pub fn move_messages<R, E: Write>(haul: &Haul<'_, R>, errors: &mut E) -> Moved
where
    R: Net<Stream = TcpStream> + Clock + RandomSource + Clone + Drop,
    ensures count { OnOk result.ended (IfSome haul.now.errand.count (λ count. result.moved ≡ count)) }
    ensures sure { OnOk result.ended (result.doubt ≡ Nothing) }
{
    let mut mover = Mover::new(haul.alloc);
    let ended = move_patiently(haul, &mut mover, errors);
    let (moved, stage) = (mover.moved(), mover.stage());
    drop(mover);
    let doubt = match &ended {
        Ok(()) => Doubt::Nothing,
        Err(fault) => doubt_of(haul.other.is_some(), stage, &fault.cause),
    };
    Moved {
        moved,
        doubt,
        ended,
    }
}

// Moves messages, once no other session has the durable name.
fn move_patiently<R, E: Write>(
    haul: &Haul<'_, R>,
    mover: &mut Mover,
    errors: &mut E,
) -> Result<(), ClientFault>
where
    R: Net<Stream = TcpStream> + Clock + RandomSource + Clone + Drop,
    ensures { OnOk result (IfSome haul.now.errand.count (λ count. mover.new.moved ≡ count)) }
{
    let mut siege = Siege::new();
    for _try in 0..u64::MAX {
        match move_all(haul, mover) {
            Ok(()) => return Ok(()),
            Err(fault) => {
                if !siege.goes_on(haul.rt, &fault, errors) {
                    return Err(fault);
                }
                drop(fault);
            }
        }
        thread::sleep(haul.rt, Duration::from_secs(PAUSE_SECONDS));
    }
    Err(fault_at(mover.stage(), Cause::System))
}

// Connects, moves messages, and ends the sessions. The other server is connected to first, so that nothing is taken if it is not there.
fn move_all<R>(haul: &Haul<'_, R>, mover: &mut Mover) -> Result<(), ClientFault>
where
    R: Net<Stream = TcpStream> + Clock + RandomSource + Clone + Drop,
    ensures { OnOk result (IfSome haul.now.errand.count (λ count. mover.new.moved ≡ count)) }
{
    let there = link_to_other(haul)?;
    let here = link_here(haul, mover)?;
    let mut ends = Ends { here, there };
    let moved = move_between(haul, mover, &mut ends);
    match moved {
        Ok(()) => {
            leave_both(haul.alloc, ends);
            Ok(())
        }
        Err(fault) => {
            if fault.is_quiet() {
                leave_both(haul.alloc, ends);
            } else {
                drop(ends);
            }
            Err(fault)
        }
    }
}

fn link_to_other<R>(haul: &Haul<'_, R>) -> Result<Option<Link<R>>, ClientFault>
where
    R: Net<Stream = TcpStream> + Clock + RandomSource + Clone + Drop,
{
    match haul.other {
        Some(other) => Ok(Some(link_to(haul, other, None)?)),
        None => Ok(None),
    }
}

// An open session with the server that holds the messages. If all are moved, the mover learns which were there before it.
fn link_here<R>(haul: &Haul<'_, R>, mover: &mut Mover) -> Result<Link<R>, ClientFault>
where
    R: Net<Stream = TcpStream> + Clock + RandomSource + Clone + Drop,
{
    let (peer, session) = open_numbered(haul.rt, haul.alloc, haul.address, haul.client)?;
    mover.limit(bound_of(haul.errand.count, session));
    Ok(Link {
        peer,
        reader: FrameReader::new(haul.alloc),
    })
}

// The number that a message has at most which is moved: that of the session, if all are moved. So many are waited for.
fn bound_of(count: Option<u64>, session: Option<u64>) -> Option<u64> {
    match count {
        Some(_) => None,
        None => session,
    }
}

// An open session.
fn link_to<R>(
    haul: &Haul<'_, R>,
    address: Address<'_>,
    client: Option<&str>,
) -> Result<Link<R>, ClientFault>
where
    R: Net<Stream = TcpStream> + Clock + RandomSource + Clone + Drop,
{
    Ok(Link {
        peer: open(haul.rt, haul.alloc, address, client)?,
        reader: FrameReader::new(haul.alloc),
    })
}

// Ends the sessions, as far as the servers go along with that: what was moved has its RECEIPT.
fn leave_both<R: Clock + RandomSource + Drop>(alloc: Global, ends: Ends<R>) {
    let Ends { here, there } = ends;
    leave(alloc, here);
    match there {
        Some(link) => leave(alloc, link),
        None => {}
    }
}

fn leave<R: Clock + RandomSource + Drop>(alloc: Global, link: Link<R>) {
    let Link { peer, reader } = link;
    let (mut peer, mut reader) = (peer, reader);
    if leave_after(alloc, &mut reader, &mut peer).is_ok() {
        drop(peer.close());
    }
    drop(reader);
    drop(peer);
}

// Subscribes, and moves messages until as many are moved as was asked for, or no more come.
fn move_between<R>(
    haul: &Haul<'_, R>,
    mover: &mut Mover,
    ends: &mut Ends<R>,
) -> Result<(), ClientFault>
where
    R: Net<Stream = TcpStream> + Clock + RandomSource + Clone + Drop,
    ensures { OnOk result (IfSome haul.now.errand.count (λ count. mover.new.moved ≡ count)) }
{
    let mut patience = match Patience::new(haul.rt, Some(haul.errand.timeout)) {
        Ok(patience) => patience,
        Err(cause) => return Err(fault_at(Stage::Free, cause)),
    };
    match subscribe(haul.alloc, &haul.errand.plan(), &mut ends.here.peer) {
        Ok(()) => {}
        Err(cause) => return Err(fault_at(Stage::Free, cause)),
    }
    for _turn in 0..u64::MAX {
        if is_all(haul.errand.count, mover.moved())
            || (is_unbounded(haul.errand.count) && mover.is_done())
        {
            return Ok(());
        }
        let began = Instant::now(haul.rt);
        match go_on(haul, mover, ends, &mut patience) {
            // Pings of the other server were not answered while a message was waited for.
            Ok(()) if is_stale(haul.rt, began) => renew_other(haul, ends)?,
            Ok(()) => {}
            Err(Cause::Quiet) if is_unbounded(haul.errand.count) => return Ok(()),
            Err(cause) => return Err(fault_at(mover.stage(), cause)),
        }
    }
    Err(fault_at(mover.stage(), Cause::System))
}

// Whether so many are as many as was asked for.
fn is_all(count: Option<u64>, moved: u64) -> bool
    ensures { result ≡ true → IfSome count (λ count. moved ≡ count) }
{
    match count {
        Some(count) => moved == count,
        None => false,
    }
}

// Whether all of them were asked for, however many.
fn is_unbounded(count: Option<u64>) -> bool
    ensures { result ≡ true → (moved : ℕ) → IfSome count (λ count. moved ≡ count) }
{
    match count {
        Some(_) => false,
        None => true,
    }
}

// The step that went wrong.
fn fault_at(stage: Stage, cause: Cause) -> ClientFault {
    let step = match stage {
        Stage::Free => Step::Message,
        _ => Step::Receipt,
    };
    ClientFault { step, cause }
}

// Says what there is to say, or else hears the next bytes.
fn go_on<R>(
    haul: &Haul<'_, R>,
    mover: &mut Mover,
    ends: &mut Ends<R>,
    patience: &mut Patience,
) -> Result<(), Cause>
where
    R: Net<Stream = TcpStream> + Clock + RandomSource + Clone + Drop,
{
    let route = Route {
        destination: haul.errand.to,
        is_far: haul.other.is_some(),
    };
    match mover.say(haul.alloc, &route)? {
        Some(Saying::Here(text)) => say(&mut ends.here.peer, text),
        Some(Saying::There(text)) => match &mut ends.there {
            Some(link) => say(&mut link.peer, text),
            None => {
                drop(text);
                Err(Cause::System)
            }
        },
        None => hear(haul, mover, ends, patience),
    }
}

// Says a text, and lets it go.
fn say<R: Clock + RandomSource + Drop>(peer: &mut WebPeer<R>, text: Vec<u8>) -> Result<(), Cause> {
    let said = peer.say(text.as_slice());
    drop(text);
    said
}

// Hears the next bytes of the server that is to answer, or to bring a message.
fn hear<R>(
    haul: &Haul<'_, R>,
    mover: &mut Mover,
    ends: &mut Ends<R>,
    patience: &mut Patience,
) -> Result<(), Cause>
where
    R: Net<Stream = TcpStream> + Clock + RandomSource + Clone + Drop,
{
    match mover.stage() {
        Stage::Sent => hear_there(haul.alloc, mover, &mut ends.there),
        Stage::Free => {
            let piece = wait_for(haul.rt, patience, &mut ends.here.peer)?;
            if take_here(haul.alloc, mover, &mut ends.here.reader, piece)? {
                patience.renew(haul.rt);
            }
            Ok(())
        }
        _ => {
            let piece = ends.here.peer.hear()?;
            if take_here(haul.alloc, mover, &mut ends.here.reader, piece)? {
                patience.renew(haul.rt);
            }
            Ok(())
        }
    }
}

// Takes the next bytes of the server that holds the messages, and answers whether a frame ends in them.
fn take_here(
    alloc: Global,
    mover: &mut Mover,
    reader: &mut FrameReader,
    piece: Vec<u8>,
) -> Result<bool, Cause> {
    let fed = reader.feed(alloc, piece.as_slice());
    drop(piece);
    let Ok(Fed { frames, fault }) = fed else {
        return Err(Cause::Memory);
    };
    let has_frames = !frames.is_empty();
    for frame in frames {
        mover.hear(alloc, frame)?;
    }
    match fault {
        Some(_) => Err(Cause::NotStomp),
        None => Ok(has_frames),
    }
}

// Hears the next bytes of the other server, which are to be its RECEIPT.
fn hear_there<R: Clock + RandomSource + Drop>(
    alloc: Global,
    mover: &mut Mover,
    there: &mut Option<Link<R>>,
) -> Result<(), Cause> {
    let Some(link) = there else {
        return Err(Cause::System);
    };
    let piece = link.peer.hear()?;
    let fed = link.reader.feed(alloc, piece.as_slice());
    drop(piece);
    let Ok(Fed { frames, fault }) = fed else {
        return Err(Cause::Memory);
    };
    for frame in frames.as_slice() {
        mover.hear_there(alloc, frame)?;
    }
    drop(frames);
    match fault {
        Some(_) => Err(Cause::NotStomp),
        None => Ok(()),
    }
}

// Connects to the other server anew, if there is one.
fn renew_other<R>(haul: &Haul<'_, R>, ends: &mut Ends<R>) -> Result<(), ClientFault>
where
    R: Net<Stream = TcpStream> + Clock + RandomSource + Clone + Drop,
{
    drop(ends.there.take());
    ends.there = link_to_other(haul)?;
    Ok(())
}
