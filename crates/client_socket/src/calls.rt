//! Conversations with the server at an address, and how it is reached.

ghost use Rattle.std.specs.Prelude.{◌≡◌, ◌⊎◌, IfErr, None};
ghost use Rattle.client_core.specs.Talks.{BreaksOff, HasReason, IsOfPeer};
ghost use Rattle.client_core.specs.declared.fault.Step.TheVariants.{Connection, Handshake};

use crate::listening::Patience;
use crate::web_peer::{STEP_SECONDS, Timed, WebPeer, cause_by, cause_of};
use client_core::{
    Address, Cause, ClientFault, Outgoing, Peer, Step, converse, forget_once, send_once, session_of,
};
use frame_core::FrameReader;
use http::Request;
use std::alloc::Global;
use std::net::{Ipv4Addr, Net, SocketAddr, SocketAddrV4, TcpStream, ToSocketAddrs};
use std::random::RandomSource;
use std::time::{Clock, Duration};
use tungstenite::{ClientHandshake, HandshakeError, RandomKeys, WebSocketConfig, client};

// The virtual host that is named. The broker knows none.
pub(crate) const HOST: &str = "127.0.0.1";

// After how many milliseconds a server is pinged again that took the connection and ended it.
const AGAIN_MILLIS: u64 = 250;

/// Finds out whether a server of STOMP 1.2 over WebSocket answers at that address, and how long it is from a COMMIT to its RECEIPT. Each
/// step may take five seconds. The fault names the first step that goes wrong. A server that takes connections and ends them without an
/// answer, since all of its places are taken, is asked again for five seconds.
pub fn ping<R>(rt: &R, alloc: Global, address: Address<'_>) -> Result<Duration, ClientFault>
where
    R: Net<Stream = TcpStream> + Clock + RandomSource + Clone + Drop,
    ensures { IfErr result (λ fault. IsOfPeer fault.cause ⊎ BreaksOff fault None None) }
{
    let patience = match Patience::new(rt, Some(STEP_SECONDS)) {
        Ok(patience) => patience,
        Err(cause) => return Err(unconnected(cause)),
    };
    for _try in 0..u64::MAX {
        let pinged = ping_once(rt, alloc, address);
        if !is_unanswered(&pinged)
            || patience
                .pause(rt, Duration::from_millis(AGAIN_MILLIS))
                .is_err()
        {
            return pinged;
        }
        drop(pinged);
    }
    Err(unconnected(Cause::Late))
}

fn is_unanswered(pinged: &Result<Duration, ClientFault>) -> bool {
    match pinged {
        Ok(_) => false,
        Err(fault) => fault.is_unanswered(),
    }
}

// The same, once.
fn ping_once<R>(rt: &R, alloc: Global, address: Address<'_>) -> Result<Duration, ClientFault>
where
    R: Net<Stream = TcpStream> + Clock + RandomSource + Clone + Drop,
    ensures { IfErr result (λ fault. IsOfPeer fault.cause ⊎ BreaksOff fault None None) }
{
    match connect(rt, alloc, address, "/stompd-ping") {
        Ok(peer) => {
            let mut peer = peer;
            let took = converse(rt, alloc, &mut peer);
            drop(peer);
            took
        }
        Err(fault) => Err(fault),
    }
}

/// An open session at that address, perhaps with a `client-id`.
pub fn open<R>(
    rt: &R,
    alloc: Global,
    address: Address<'_>,
    client: Option<&str>,
) -> Result<WebPeer<R>, ClientFault>
where
    R: Net<Stream = TcpStream> + Clock + RandomSource + Clone + Drop,
    ensures { IfErr result HasReason }
{
    match connect(rt, alloc, address, "/") {
        Ok(peer) => {
            let mut peer = peer;
            match client_core::open(alloc, HOST, client, &mut peer) {
                Ok(()) => Ok(peer),
                Err(fault) => {
                    drop(peer);
                    Err(fault)
                }
            }
        }
        Err(fault) => Err(fault),
    }
}

/// The same, and the number that CONNECTED gives the session, if it gives one.
pub fn open_numbered<R>(
    rt: &R,
    alloc: Global,
    address: Address<'_>,
    client: Option<&str>,
) -> Result<(WebPeer<R>, Option<u64>), ClientFault>
where
    R: Net<Stream = TcpStream> + Clock + RandomSource + Clone + Drop,
{
    let mut peer = connect(rt, alloc, address, "/")?;
    let mut noting = Noting {
        peer: &mut peer,
        heard: Vec::new(alloc),
    };
    let opened = client_core::open(alloc, HOST, client, &mut noting);
    let session = session_in(alloc, noting.heard.as_slice());
    drop(noting);
    match opened {
        Ok(()) => Ok((peer, session)),
        Err(fault) => {
            drop(peer);
            Err(fault)
        }
    }
}

// The number of the session that the first of these frames opens.
fn session_in(alloc: Global, bytes: &[u8]) -> Option<u64> {
    let mut reader = FrameReader::new(alloc);
    let fed = reader.feed(alloc, bytes);
    drop(reader);
    let Ok(fed) = fed else {
        return None;
    };
    let session = match fed.frames.as_slice() {
        [connected, ..] => session_of(connected),
        [] => None,
    };
    drop(fed);
    session
}

// A peer of which all is kept that is heard.
#[derive(Drop)]
struct Noting<'a, R> {
    peer: &'a mut WebPeer<R>,
    heard: Vec<u8>,
}

impl<R: Clock + RandomSource + Drop> Peer for Noting<'_, R> {
    fn say(&mut self, frame: &[u8]) -> Result<(), Cause> {
        self.peer.say(frame)
    }

    fn hear(&mut self) -> Result<Vec<u8>, Cause> {
        let piece = self.peer.hear()?;
        match self.heard.extend_from_slice(piece.as_slice()) {
            Ok(()) => Ok(piece),
            Err(_) => {
                drop(piece);
                Err(Cause::Memory)
            }
        }
    }

    fn renew(&mut self) {
        self.peer.renew();
    }

    fn close(&mut self) -> Result<(), Cause> {
        self.peer.close()
    }
}

/// Sends a message to the server at that address.
pub fn send<R>(
    rt: &R,
    alloc: Global,
    address: Address<'_>,
    message: &Outgoing<'_>,
) -> Result<(), ClientFault>
where
    R: Net<Stream = TcpStream> + Clock + RandomSource + Clone + Drop,
    ensures { IfErr result HasReason }
{
    match connect(rt, alloc, address, "/") {
        Ok(peer) => {
            let mut peer = peer;
            let sent = send_once(alloc, HOST, message, &mut peer);
            drop(peer);
            sent
        }
        Err(fault) => Err(fault),
    }
}

/// Gives up a durable name of a client at the server at that address.
pub fn forget<R>(
    rt: &R,
    alloc: Global,
    address: Address<'_>,
    client: &str,
    name: &str,
) -> Result<(), ClientFault>
where
    R: Net<Stream = TcpStream> + Clock + RandomSource + Clone + Drop,
    ensures { IfErr result HasReason }
{
    match connect(rt, alloc, address, "/") {
        Ok(peer) => {
            let mut peer = peer;
            let forgotten = forget_once(alloc, HOST, client, name, &mut peer);
            drop(peer);
            forgotten
        }
        Err(fault) => Err(fault),
    }
}

// How many bytes a message may have that is heard. One of this broker has fewer.
const MESSAGE_BYTES: usize = 131_072;

/// The peer at that address, after the handshake. At a port of this machine it asks for that path.
pub fn connect<R>(
    rt: &R,
    alloc: Global,
    address: Address<'_>,
    path: &str,
) -> Result<WebPeer<R>, ClientFault>
where
    R: Net<Stream = TcpStream> + Clock + RandomSource + Clone + Drop,
    ensures { IfErr result (λ fault. ((fault.step ≡ Connection) ⊎ (fault.step ≡ Handshake)) × IsOfPeer fault.cause) }
{
    let Some(request) = request_of(alloc, address, path) else {
        return Err(unconnected(Cause::NoHost));
    };
    match socket_to(rt, address, &request) {
        Ok(socket) => match shake(rt, alloc, request, socket) {
            Ok(peer) => Ok(peer),
            Err(cause) => Err(ClientFault {
                step: Step::Handshake,
                cause,
            }),
        },
        Err(cause) => {
            drop(request);
            Err(unconnected(cause))
        }
    }
}

fn unconnected(cause: Cause) -> ClientFault
    ensures { (result.step ≡ Connection) × (result.cause ≡ cause) }
{
    ClientFault {
        step: Step::Connection,
        cause,
    }
}

// The request of the handshake, which offers the subprotocol of STOMP 1.2. `None` if the URL is none, or memory is refused.
fn request_of(alloc: Global, address: Address<'_>, path: &str) -> Option<Request<()>> {
    match address {
        Address::Port(port) => {
            let place = format!(in alloc; "ws://127.0.0.1:{port}{path}").ok()?;
            let request = request_to(alloc, place.as_str());
            drop(place);
            request
        }
        Address::Url(url) => request_to(alloc, url),
    }
}

fn request_to(alloc: Global, url: &str) -> Option<Request<()>> {
    Request::builder(alloc)
        .uri(url)
        .header("Sec-WebSocket-Protocol", "v12.stomp")
        .body(())
        .ok()
}

// A connection to that address, with the time of the next step.
fn socket_to<R>(rt: &R, address: Address<'_>, request: &Request<()>) -> Result<Timed<R>, Cause>
where
    R: Net<Stream = TcpStream> + Clock + Clone + Drop,
    ensures { IfErr result IsOfPeer }
{
    match address {
        Address::Port(port) => {
            let place = SocketAddr::V4(SocketAddrV4::new(Ipv4Addr::LOCALHOST, port));
            timed_to(rt, &place)
        }
        Address::Url(_) => {
            let uri = request.uri();
            match uri.host() {
                Some(host) => socket_at(rt, host, uri.port_u16().unwrap_or(80)),
                None => Err(Cause::NoHost),
            }
        }
    }
}

// A connection to the first address of a host that takes one. An address of IPv6 stands in brackets.
fn socket_at<R>(rt: &R, host: &str, port: u16) -> Result<Timed<R>, Cause>
where
    R: Net<Stream = TcpStream> + Clock + Clone + Drop,
    ensures { IfErr result IsOfPeer }
{
    let bare = host
        .strip_prefix("[")
        .and_then(|rest| rest.strip_suffix("]"))
        .unwrap_or(host);
    let Ok(places) = (bare, port).to_socket_addrs(rt) else {
        return Err(Cause::NoHost);
    };
    let mut cause = Cause::NoHost;
    for place in places {
        match timed_to(rt, &place) {
            Ok(socket) => return Ok(socket),
            Err(other) => cause = other,
        }
    }
    Err(cause)
}

fn timed_to<R>(rt: &R, place: &SocketAddr) -> Result<Timed<R>, Cause>
where
    R: Net<Stream = TcpStream> + Clock + Clone + Drop,
    ensures { IfErr result IsOfPeer }
{
    let limit = Duration::from_secs(STEP_SECONDS);
    let socket = match TcpStream::connect_timeout(rt, place, limit) {
        Ok(socket) => socket,
        Err(error) => return Err(cause_by(error.kind())),
    };
    // A frame goes out at once, though the one before is not acknowledged yet. If the system refuses that, it is only slower.
    drop(socket.set_nodelay(true));
    let Ok(clock) = rt.clone() else {
        drop(socket);
        return Err(Cause::Memory);
    };
    match Timed::new(clock, socket) {
        Ok(timed) => Ok(timed),
        Err(error) => Err(cause_by(error.kind())),
    }
}

// The handshake.
fn shake<R>(
    rt: &R,
    alloc: Global,
    request: Request<()>,
    socket: Timed<R>,
) -> Result<WebPeer<R>, Cause>
where
    R: Clock + RandomSource + Clone + Drop,
    ensures { IfErr result IsOfPeer }
{
    let Some(source) = rt.clone().ok() else {
        return Err(Cause::Memory);
    };
    match client(alloc, source, request, socket) {
        Ok((socket, response)) => {
            drop(response);
            let mut socket = socket;
            socket.set_config(WebSocketConfig::default().max_message_size(Some(MESSAGE_BYTES)));
            Ok(WebPeer { socket, alloc })
        }
        Err(fault) => {
            let cause = refusal_of(&fault);
            drop(fault);
            Err(cause)
        }
    }
}

// Why there was no handshake.
fn refusal_of<R: Clock + RandomSource + Drop>(
    fault: &HandshakeError<ClientHandshake<Timed<R>, RandomKeys<R>>>,
) -> Cause
    ensures { IsOfPeer result }
{
    match fault {
        HandshakeError::Interrupted(_) => Cause::Late,
        HandshakeError::Failure(error) => cause_of(error),
    }
}
