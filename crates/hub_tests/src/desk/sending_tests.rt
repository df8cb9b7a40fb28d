use crate::desk::acts::Do;
use crate::desk::driver::{Talk, Want, first_wrong_talk};
use crate::desk::feeds::Feed;
use std::io::ErrorKind;
use ws_core::CloseReason;

const SEND: Do = Do::Send(b"");

const CLOSE: Do = Do::End(CloseReason::NormalClosure);

// Nothing that follows the request is open, though there is some.
const REST: &[Feed<'static>] = &[Feed::Bytes(b"a")];

const SHUT: Do = Do::Open(0);

const ALL: Do = Do::Take(usize::MAX);

// An ERROR with no headers is its command, an empty line, the body and a NUL. Each comes with whole reads, and with a byte a read.
const SENT: &[Talk] = &[
    (
        &[],
        &[Do::Send(b""), Do::Flush],
        Want::Shows(b"kt\x81\x08ERROR\n\n\0"),
    ),
    (
        &[],
        &[Do::Send(b"\xc3\xa9"), Do::Flush],
        Want::Shows(b"kt\x81\x0aERROR\n\n\xc3\xa9\0"),
    ),
    (
        &[],
        &[Do::Send(b"\xff"), Do::Send(b""), Do::Flush, Do::Flush],
        Want::Shows(b"kkt\x82\x09ERROR\n\n\xff\0\x81\x08ERROR\n\n\0t"),
    ),
    (
        &[],
        &[Do::Ping, Do::Send(b""), Do::Flush],
        Want::Shows(b"kkt\x89\x00\x81\x08ERROR\n\n\0"),
    ),
    (
        &[Feed::Frame(0x82, b"a")],
        &[
            Do::Break(ErrorKind::ConnectionReset),
            Do::Send(b""),
            Do::Flush,
            Do::Hear,
            Do::Send(b""),
            Do::Ping,
            Do::Flush,
        ],
        Want::Shows(b"kg!ggg"),
    ),
];

// The close of a client has eight bytes.
const CLOSED: &[Talk] = &[
    (
        &[
            Feed::Frame(0x82, b"late"),
            Feed::Frame(0x89, b""),
            Feed::Frame(0x88, b"\x03\xe8"),
        ],
        &[
            Do::End(CloseReason::NormalClosure),
            Do::Hear,
            Do::Send(b""),
            Do::Ping,
            Do::End(CloseReason::NormalClosure),
            Do::Hear,
            Do::Hear,
            Do::Hear,
        ],
        Want::Shows(b"k\x88\x02\x03\xe8-ggg-x!|"),
    ),
    (
        &[],
        &[Do::End(CloseReason::GoingAway), Do::Hear],
        Want::Shows(b"k\x88\x02\x03\xe9!"),
    ),
    (
        &[],
        &[
            Do::Send(b""),
            Do::End(CloseReason::ProtocolError),
            Do::Hear,
            Do::Flush,
        ],
        Want::Shows(b"kk\x81\x08ERROR\n\n\0\x88\x02\x03\xea!g"),
    ),
    (
        &[Feed::Frame(0x82, b"a")],
        &[
            Do::Break(ErrorKind::ConnectionReset),
            Do::End(CloseReason::GoingAway),
            Do::Hear,
        ],
        Want::Shows(b"g!"),
    ),
    (
        &[Feed::Frame(0x88, b"\x03\xe8")],
        &[
            Do::Open(0),
            Do::Take(0),
            Do::End(CloseReason::NormalClosure),
            Do::Hear,
            Do::Flush,
            Do::Take(4),
            Do::Flush,
            Do::Open(7),
            Do::Hear,
            Do::Open(8),
            Do::Hear,
        ],
        Want::Shows(b"k.ft\x88\x02\x03\xe8.x"),
    ),
];

// What a stream shows that takes so many bytes of a frame or of a close, and later all. A close is offered to the stream at once, so that its
// first bytes stand in front of what the flush shows.
const IN_TWO: &[Talk] = &[
    (
        REST,
        &[SHUT, Do::Take(0), SEND, Do::Flush, ALL, Do::Flush],
        Want::Shows(b"kft\x81\x08ERROR\n\n\0"),
    ),
    (
        REST,
        &[SHUT, Do::Take(1), SEND, Do::Flush, ALL, Do::Flush],
        Want::Shows(b"kf\x81t\x08ERROR\n\n\0"),
    ),
    (
        REST,
        &[SHUT, Do::Take(2), SEND, Do::Flush, ALL, Do::Flush],
        Want::Shows(b"kf\x81\x08tERROR\n\n\0"),
    ),
    (
        REST,
        &[SHUT, Do::Take(3), SEND, Do::Flush, ALL, Do::Flush],
        Want::Shows(b"kf\x81\x08EtRROR\n\n\0"),
    ),
    (
        REST,
        &[SHUT, Do::Take(4), SEND, Do::Flush, ALL, Do::Flush],
        Want::Shows(b"kf\x81\x08ERtROR\n\n\0"),
    ),
    (
        REST,
        &[SHUT, Do::Take(5), SEND, Do::Flush, ALL, Do::Flush],
        Want::Shows(b"kf\x81\x08ERRtOR\n\n\0"),
    ),
    (
        REST,
        &[SHUT, Do::Take(6), SEND, Do::Flush, ALL, Do::Flush],
        Want::Shows(b"kf\x81\x08ERROtR\n\n\0"),
    ),
    (
        REST,
        &[SHUT, Do::Take(7), SEND, Do::Flush, ALL, Do::Flush],
        Want::Shows(b"kf\x81\x08ERRORt\n\n\0"),
    ),
    (
        REST,
        &[SHUT, Do::Take(8), SEND, Do::Flush, ALL, Do::Flush],
        Want::Shows(b"kf\x81\x08ERROR\nt\n\0"),
    ),
    (
        REST,
        &[SHUT, Do::Take(9), SEND, Do::Flush, ALL, Do::Flush],
        Want::Shows(b"kf\x81\x08ERROR\n\nt\0"),
    ),
    (
        REST,
        &[SHUT, Do::Take(0), CLOSE, Do::Flush, ALL, Do::Flush],
        Want::Shows(b"kft\x88\x02\x03\xe8"),
    ),
    (
        REST,
        &[SHUT, Do::Take(1), CLOSE, Do::Flush, ALL, Do::Flush],
        Want::Shows(b"k\x88ft\x02\x03\xe8"),
    ),
    (
        REST,
        &[SHUT, Do::Take(2), CLOSE, Do::Flush, ALL, Do::Flush],
        Want::Shows(b"k\x88\x02ft\x03\xe8"),
    ),
    (
        REST,
        &[SHUT, Do::Take(3), CLOSE, Do::Flush, ALL, Do::Flush],
        Want::Shows(b"k\x88\x02\x03ft\xe8"),
    ),
];

// A send offers 65,536 bytes to the stream and no fewer. Beside its body an ERROR has eight bytes, and its frame four more, or ten if these are 65,536.
const OFFERED: &[Talk] = &[
    (&[], &[Do::Take(0), Do::SendLong(65_523)], Want::Shows(b"k")),
    (&[], &[Do::Take(0), Do::SendLong(65_524)], Want::Shows(b"w")),
    (&[], &[Do::Take(0), Do::SendLong(65_528)], Want::Shows(b"w")),
];

// As much as 1,048,576 bytes may wait and no more. A link is gone where more would.
const MOST: &[Talk] = &[
    // Each frame has 131,082 bytes.
    (
        &[],
        &[
            Do::Take(0),
            Do::SendLong(131_064),
            Do::SendLong(131_064),
            Do::SendLong(131_064),
            Do::SendLong(131_064),
            Do::SendLong(131_064),
            Do::SendLong(131_064),
            Do::SendLong(131_064),
            Do::SendLong(131_064),
            Do::Hear,
        ],
        Want::Shows(b"wwwwwwwg!"),
    ),
    // Eight bytes of an ERROR with no headers are its command, an empty line and the NUL; a frame's head has ten.
    (&[], &[Do::SendLong(1_048_568)], Want::ShowsMany(1_048_587)),
    (
        &[],
        &[Do::SendLong(1_048_569), Do::Hear],
        Want::Shows(b"g!"),
    ),
];

// Twenty messages, each a frame of ten bytes.
const TWENTY: &[u8] = b"kkkkkkkkkkkkkkkkkkkkt\
\x81\x08ERROR\n\n\0\x81\x08ERROR\n\n\0\x81\x08ERROR\n\n\0\x81\x08ERROR\n\n\0\x81\x08ERROR\n\n\0\
\x81\x08ERROR\n\n\0\x81\x08ERROR\n\n\0\x81\x08ERROR\n\n\0\x81\x08ERROR\n\n\0\x81\x08ERROR\n\n\0\
\x81\x08ERROR\n\n\0\x81\x08ERROR\n\n\0\x81\x08ERROR\n\n\0\x81\x08ERROR\n\n\0\x81\x08ERROR\n\n\0\
\x81\x08ERROR\n\n\0\x81\x08ERROR\n\n\0\x81\x08ERROR\n\n\0\x81\x08ERROR\n\n\0\x81\x08ERROR\n\n\0=";

// They leave in one write, or a byte at a time.
const AT_ONCE: &[Talk] = &[
    (
        &[],
        &[
            Do::Sip(usize::MAX),
            SEND,
            SEND,
            SEND,
            SEND,
            SEND,
            SEND,
            SEND,
            SEND,
            SEND,
            SEND,
            SEND,
            SEND,
            SEND,
            SEND,
            SEND,
            SEND,
            SEND,
            SEND,
            SEND,
            SEND,
            Do::Flush,
            Do::Writes(1),
        ],
        Want::Shows(TWENTY),
    ),
    (
        &[],
        &[
            Do::Sip(1),
            SEND,
            SEND,
            SEND,
            SEND,
            SEND,
            SEND,
            SEND,
            SEND,
            SEND,
            SEND,
            SEND,
            SEND,
            SEND,
            SEND,
            SEND,
            SEND,
            SEND,
            SEND,
            SEND,
            SEND,
            Do::Flush,
            Do::Writes(200),
        ],
        Want::Shows(TWENTY),
    ),
];

// A link that hears the peer's close reads once a call, and a read asks for 4,096 bytes.
const READING: &[Talk] = &[
    (
        REST,
        &[
            SHUT,
            Do::Refuse(ErrorKind::WouldBlock),
            Do::End(CloseReason::GoingAway),
            Do::Hear,
            Do::Refusals(1),
        ],
        Want::Shows(b"k\x88\x02\x03\xe9.="),
    ),
    (
        REST,
        &[
            SHUT,
            Do::Refuse(ErrorKind::Interrupted),
            Do::End(CloseReason::GoingAway),
            Do::Hear,
            Do::Refusals(1),
        ],
        Want::Shows(b"k\x88\x02\x03\xe9-="),
    ),
    (
        REST,
        &[
            SHUT,
            Do::Refuse(ErrorKind::TimedOut),
            Do::End(CloseReason::GoingAway),
            Do::Hear,
            Do::Refusals(1),
        ],
        Want::Shows(b"k\x88\x02\x03\xe9!="),
    ),
    (
        REST,
        &[
            SHUT,
            Do::Refuse(ErrorKind::ConnectionReset),
            Do::End(CloseReason::GoingAway),
            Do::Hear,
            Do::Refusals(1),
        ],
        Want::Shows(b"k\x88\x02\x03\xe9!="),
    ),
    (
        &[Feed::Frames(2_000, 0x82, b"late")],
        &[Do::Hear, Do::Reads(4_096)],
        Want::Shows(b"<late>="),
    ),
];

#[test]
fn what_a_link_sends_leaves_whole_and_in_order(rt: HostRuntime) {
    let wrong = [
        first_wrong_talk(rt.alloc(), SENT, usize::MAX),
        first_wrong_talk(rt.alloc(), SENT, 1),
        first_wrong_talk(rt.alloc(), CLOSED, usize::MAX),
        first_wrong_talk(rt.alloc(), CLOSED, 1),
        first_wrong_talk(rt.alloc(), IN_TWO, usize::MAX),
        first_wrong_talk(rt.alloc(), OFFERED, usize::MAX),
        first_wrong_talk(rt.alloc(), MOST, usize::MAX),
        first_wrong_talk(rt.alloc(), AT_ONCE, usize::MAX),
        first_wrong_talk(rt.alloc(), READING, usize::MAX),
    ];
    assert_eq!(rt; wrong, [Some(None); 9]);
}
