use crate::desk::driver::{REQUEST, VISITOR, Visitor, Want, first_wrong, is_right};
use crate::desk::feeds::Feed;
use std::alloc::Global;
use ws_core::Vacancy;

// What section 4.2.2 of RFC 6455 asks of a response, with the accept key of section 1.3.
const ACCEPTED: &str =
    "HTTP/1.1 101 Switching Protocols\r\nconnection: Upgrade\r\nupgrade: websocket\r\nsec-websocket-accept: s3pPLMBiTxaQ9kYGzzhZRbK+xOo=\r\n\r\n";

const ACCEPTED_STOMP: &str =
    "HTTP/1.1 101 Switching Protocols\r\nconnection: Upgrade\r\nupgrade: websocket\r\nsec-websocket-accept: s3pPLMBiTxaQ9kYGzzhZRbK+xOo=\r\nsec-websocket-protocol: v12.stomp\r\n\r\n";

const MALFORMED: &str =
    "HTTP/1.1 400 Bad Request\r\nConnection: close\r\nContent-Type: text/plain\r\nContent-Length: 90\r\n\r\nThis is no proper request for a WebSocket. This server speaks STOMP over WebSocket alone.\n";

const OTHER_PROTOCOL: &str =
    "HTTP/1.1 400 Bad Request\r\nConnection: close\r\nContent-Type: text/plain\r\nContent-Length: 69\r\n\r\nThis server speaks STOMP 1.2 alone: offer the subprotocol v12.stomp.\n";

const FOREIGN: &str =
    "HTTP/1.1 403 Forbidden\r\nConnection: close\r\nContent-Type: text/plain\r\nContent-Length: 49\r\n\r\nThis server does not serve pages of your origin.\n";

// It names the methods that are allowed (RFC 9110, section 15.5.6).
const OTHER_METHOD: &str =
    "HTTP/1.1 405 Method Not Allowed\r\nConnection: close\r\nAllow: GET\r\nContent-Type: text/plain\r\nContent-Length: 33\r\n\r\nA WebSocket is asked for by GET.\n";

// It says what to upgrade to (RFC 9110, section 15.5.22), and names the version (RFC 6455, section 4.4).
const NO_UPGRADE: &str =
    "HTTP/1.1 426 Upgrade Required\r\nConnection: close, Upgrade\r\nUpgrade: websocket\r\nSec-WebSocket-Version: 13\r\nContent-Type: text/plain\r\nContent-Length: 79\r\n\r\nThis is a server for WebSockets alone: connect with ws:// in place of http://.\n";

const OTHER_VERSION: &str =
    "HTTP/1.1 426 Upgrade Required\r\nConnection: close, Upgrade\r\nUpgrade: websocket\r\nSec-WebSocket-Version: 13\r\nContent-Type: text/plain\r\nContent-Length: 50\r\n\r\nThis server speaks version 13 of WebSocket alone.\n";

const TOO_LARGE: &str =
    "HTTP/1.1 431 Request Header Fields Too Large\r\nConnection: close\r\nContent-Type: text/plain\r\nContent-Length: 39\r\n\r\nThe head of this request is too large.\n";

const FULL: &str =
    "HTTP/1.1 503 Service Unavailable\r\nConnection: close\r\nRetry-After: 10\r\nContent-Type: text/plain\r\nContent-Length: 45\r\n\r\nThis server has as many clients as it takes.\n";

// A text of the request, what stands in its place, the mark of the handshake, and what is written.
type Edited = (&'static str, &'static str, u8, &'static str);

// More header lines at the end, for which `v12.stomp` is answered or not.
const OFFERS: &[Edited] = &[
    ("", "", b'+', ACCEPTED),
    (
        "\r\n\r\n",
        "\r\nSec-WebSocket-Protocol: v11.stomp, v12.stomp\r\n\r\n",
        b'+',
        ACCEPTED_STOMP,
    ),
    (
        "\r\n\r\n",
        "\r\nsec-websocket-protocol:v12.stomp\r\n\r\n",
        b'+',
        ACCEPTED_STOMP,
    ),
    (
        "\r\n\r\n",
        "\r\nSec-WebSocket-Protocol: v12.stomp\t,v10.stomp\r\n\r\n",
        b'+',
        ACCEPTED_STOMP,
    ),
    (
        "\r\n\r\n",
        "\r\nSec-WebSocket-Protocol: v10.stomp\r\nSec-WebSocket-Protocol: v11.stomp, v12.stomp\r\n\r\n",
        b'+',
        ACCEPTED_STOMP,
    ),
    (
        "\r\n\r\n",
        "\r\nSec-WebSocket-Protocol: v11.stomp\r\n\r\n",
        b'-',
        OTHER_PROTOCOL,
    ),
    (
        "\r\n\r\n",
        "\r\nSec-WebSocket-Protocol: V12.STOMP\r\n\r\n",
        b'-',
        OTHER_PROTOCOL,
    ),
    (
        "\r\n\r\n",
        "\r\nSec-WebSocket-Protocol: v12.stomp v11.stomp\r\n\r\n",
        b'-',
        OTHER_PROTOCOL,
    ),
    (
        "\r\n\r\n",
        "\r\nSec-WebSocket-Protocol: v12.stompx,xv12.stomp\r\n\r\n",
        b'-',
        OTHER_PROTOCOL,
    ),
];

// What is no handshake.
const SPOILED: &[Edited] = &[
    ("GET /chat", "POST /chat", b'-', OTHER_METHOD),
    ("HTTP/1.1", "HTTP/1.0", b'-', NO_UPGRADE),
    ("Upgrade: websocket\r\n", "", b'-', NO_UPGRADE),
    ("Connection: Upgrade", "Connection: close", b'-', NO_UPGRADE),
    ("Version: 13", "Version: 8", b'-', OTHER_VERSION),
    ("dGhlIHNhbXBsZSBub25jZQ==", "dGhl", b'-', MALFORMED),
    ("Sec-WebSocket-Key:", "X-Key:", b'-', MALFORMED),
    ("Host:", "X-Host:", b'-', MALFORMED),
    ("Host:", "Host: a\r\nHost:", b'-', MALFORMED),
    // Sections 11.3.1 and 11.3.5.
    (
        "Sec-WebSocket-Key:",
        "sec-websocket-key: AAAAAAAAAAAAAAAAAAAAAA==\r\nSec-WebSocket-Key:",
        b'-',
        MALFORMED,
    ),
    (
        "Version: 13\r\n",
        "Version: 13\r\nSec-WebSocket-Version: 13\r\n",
        b'-',
        MALFORMED,
    ),
    (
        "Upgrade: websocket\r\n",
        "Upgrade: websocket\r\nTransfer-Encoding: chunked\r\n",
        b'-',
        MALFORMED,
    ),
    ("GET", "\u{0}", b'-', MALFORMED),
    ("\r\n\r\n", "\r\n\r\nmore", b'-', MALFORMED),
    // Half of a head is not answered: the stream has ended.
    ("\r\n\r\n", "\r\n", b'!', ""),
    // A server that names no origins serves the pages of them all.
    (ORIGIN, "", b'+', ACCEPTED),
    (ORIGIN, "Origin: http://a.example\r\n", b'+', ACCEPTED),
    (ORIGIN, "origin:null\r\n", b'+', ACCEPTED),
    (ORIGIN, "Origin: http://a.example:8080\r\n", b'+', ACCEPTED),
    (ORIGIN, "Origin: https://a.example\r\n", b'+', ACCEPTED),
    (
        ORIGIN,
        "Origin: http://a.example\r\nOrigin: http://b.example\r\n",
        b'+',
        ACCEPTED,
    ),
    (ORIGIN, "Origin: \r\n", b'+', ACCEPTED),
];

// Header lines in the place of the origin, and what comes of them if only pages of `http://a.example` and of `null` are served.
const ORIGIN: &str = "Origin: http://example.com\r\n";

const CHOSEN: &[Edited] = &[
    (ORIGIN, "", b'+', ACCEPTED),
    (ORIGIN, "Origin: http://a.example\r\n", b'+', ACCEPTED),
    (ORIGIN, "origin:null\r\n", b'+', ACCEPTED),
    (ORIGIN, "Origin: http://a.example:8080\r\n", b'-', FOREIGN),
    (ORIGIN, "Origin: https://a.example\r\n", b'-', FOREIGN),
    (
        ORIGIN,
        "Origin: http://a.example\r\nOrigin: http://b.example\r\n",
        b'-',
        FOREIGN,
    ),
    (ORIGIN, "Origin: \r\n", b'-', FOREIGN),
];

const CHOOSY: Visitor<'static> = Visitor {
    is_choosy: true,
    ..VISITOR
};

const ENDLESS: Visitor<'static> = Visitor {
    request: "",
    feeds: &[Feed::Flood(1_000_000)],
    ..VISITOR
};

// A client of the origin that is served, and the same that asks for the path of a ping.
const SERVED: Visitor<'static> = Visitor {
    edit: ("http://example.com", "http://a.example"),
    ..CHOOSY
};

const PING: Visitor<'static> = Visitor {
    edit: ("/chat", "/stompd-ping"),
    ..VISITOR
};

const SINGLES: &[(Visitor<'static>, Want<'static>)] = &[
    // The limit and one read of 4,096 bytes is refused.
    (ENDLESS, Want::Reads(b'-', TOO_LARGE, 20_480)),
    // 64 reads and one more of a byte each are too slow, and not answered.
    (Visitor { step: 1, ..ENDLESS }, Want::Reads(b'!', "", 65)),
    // A response may go out a byte at a time.
    (Visitor { gulp: 1, ..VISITOR }, Want::Hears(b'+', ACCEPTED)),
    // One client too many is told when to ask again. One that any server would refuse is told that.
    (
        Visitor {
            vacancy: Vacancy::Nobody,
            ..SERVED
        },
        Want::Hears(b'f', FULL),
    ),
    (
        Visitor {
            vacancy: Vacancy::Nobody,
            ..CHOOSY
        },
        Want::Hears(b'-', FOREIGN),
    ),
    // Places are kept for pings alone.
    (
        Visitor {
            vacancy: Vacancy::Ping,
            ..PING
        },
        Want::Hears(b'+', ACCEPTED),
    ),
    (
        Visitor {
            vacancy: Vacancy::Ping,
            ..SERVED
        },
        Want::Hears(b'f', FULL),
    ),
    (
        Visitor {
            vacancy: Vacancy::Nobody,
            ..PING
        },
        Want::Hears(b'f', FULL),
    ),
];

// The first of these requests of which something else comes; `None` if memory is refused.
fn first_wrong_edit(
    alloc: Global,
    visitor: &Visitor<'static>,
    rows: &[Edited],
) -> Option<Option<usize>> {
    for (i, (old, new, mark, text)) in rows.iter().enumerate() {
        let edited = Visitor {
            edit: (*old, *new),
            ..*visitor
        };
        if !is_right(alloc, &edited, &Want::Hears(*mark, *text))? {
            return Some(Some(i));
        }
    }
    Some(None)
}

#[test]
fn a_client_is_accepted_or_told_why_not(rt: HostRuntime) {
    let wrong = [
        first_wrong_edit(rt.alloc(), &VISITOR, OFFERS),
        first_wrong_edit(rt.alloc(), &VISITOR, SPOILED),
        first_wrong_edit(rt.alloc(), &CHOOSY, CHOSEN),
        first_wrong(rt.alloc(), SINGLES),
    ];
    assert_eq!(rt; wrong, [Some(None); 4]);
}

// The first place at which a request that comes in two parts is not answered as a whole one is; `None` if memory is refused.
fn first_wrong_cut(alloc: Global) -> Option<Option<usize>> {
    for open in 0..REQUEST.len() {
        let visitor = Visitor { open, ..VISITOR };
        if !is_right(alloc, &visitor, &Want::Waits(0, b'+', ACCEPTED))? {
            return Some(Some(open));
        }
    }
    Some(None)
}

// The first place in a response up to which a stream takes it, and at which its client is told the outcome too soon, or another one.
fn first_wrong_room(
    alloc: Global,
    visitor: &Visitor<'static>,
    mark: u8,
    text: &str,
) -> Option<Option<usize>> {
    for room in 0..text.len() {
        let slow = Visitor { room, ..*visitor };
        if !is_right(alloc, &slow, &Want::Waits(room, mark, text))? {
            return Some(Some(room));
        }
    }
    Some(None)
}

#[test]
fn nobody_is_accepted_or_refused_before_all_is_read_and_written(rt: HostRuntime) {
    let wrong = [
        first_wrong_cut(rt.alloc()),
        first_wrong_room(rt.alloc(), &SERVED, b'+', ACCEPTED),
        first_wrong_room(rt.alloc(), &CHOOSY, b'-', FOREIGN),
    ];
    assert_eq!(rt; wrong, [Some(None); 3]);
}
