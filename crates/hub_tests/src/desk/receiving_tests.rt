use crate::desk::acts::Do;
use crate::desk::driver::{Talk, Want, first_wrong_talk};
use crate::desk::feeds::Feed;
use command_core::Op;
use session_core::{Act, Session};
use std::alloc::Global;
use std::io::ErrorKind;

const ONCE: &[Do] = &[Do::Hear];

const TWICE: &[Do] = &[Do::Hear, Do::Hear];

// Each comes with whole reads, and with a byte a read.
const MESSAGES: &[Talk] = &[
    (
        &[Feed::Frame(0x81, b"Hello")],
        TWICE,
        Want::Shows(b"<Hello>!"),
    ),
    (&[Feed::Frame(0x81, b"")], ONCE, Want::Shows(b"<>")),
    // A frame of STOMP that is cut over two messages.
    (
        &[
            Feed::Frame(0x82, b"CONNECT\naccept-vers"),
            Feed::Frame(0x82, b"ion:1.2\n\n\0"),
        ],
        TWICE,
        Want::Shows(b"<CONNECT\naccept-vers><ion:1.2\n\n\0>"),
    ),
    (
        &[Feed::Frame(0x01, b"Hel"), Feed::Frame(0x80, b"lo")],
        ONCE,
        Want::Shows(b"<Hello>"),
    ),
    (
        &[
            Feed::Frame(0x02, b"\xff"),
            Feed::Frame(0x00, b""),
            Feed::Frame(0x80, b"\x00"),
        ],
        ONCE,
        Want::Shows(b"<\xff\x00>"),
    ),
    (
        &[Feed::Frame(0x01, b"\xc3"), Feed::Frame(0x80, b"\xa9")],
        ONCE,
        Want::Shows(b"<\xc3\xa9>"),
    ),
    (
        &[
            Feed::Frame(0x01, b"Hel"),
            Feed::Frame(0x89, b"Hello"),
            Feed::Frame(0x80, b"lo"),
        ],
        TWICE,
        Want::Shows(b"-<Hello>\x8a\x05Hello"),
    ),
    (
        &[Feed::Frame(0x8a, b"Hello"), Feed::Frame(0x82, b"a")],
        TWICE,
        Want::Shows(b"-<a>"),
    ),
    (
        &[Feed::Frame(0x88, b"\x03\xe8"), Feed::Frame(0x82, b"a")],
        ONCE,
        Want::Shows(b"x\x88\x02\x03\xe8"),
    ),
    (
        &[Feed::Frame(0x88, b"")],
        TWICE,
        Want::Shows(b"x\x88\x00!|"),
    ),
];

const LONG_PING: &[u8] = &[0; 126];

// Each fails the link, with the code 1002 (RFC 6455, section 7.4.1), or the last with 1007.
const BREACHES: &[Talk] = &[
    (
        &[Feed::Frame(0xc1, b"Hello"), Feed::Frame(0x82, b"a")],
        ONCE,
        Want::Shows(b"x\x88\x02\x03\xea"),
    ),
    (
        &[Feed::Frame(0xa1, b"Hello"), Feed::Frame(0x82, b"a")],
        ONCE,
        Want::Shows(b"x\x88\x02\x03\xea"),
    ),
    (
        &[Feed::Frame(0x91, b"Hello"), Feed::Frame(0x82, b"a")],
        ONCE,
        Want::Shows(b"x\x88\x02\x03\xea"),
    ),
    (
        &[Feed::Frame(0x83, b"Hello"), Feed::Frame(0x82, b"a")],
        ONCE,
        Want::Shows(b"x\x88\x02\x03\xea"),
    ),
    (
        &[Feed::Frame(0x80, b"lo"), Feed::Frame(0x82, b"a")],
        ONCE,
        Want::Shows(b"x\x88\x02\x03\xea"),
    ),
    (
        &[Feed::Frame(0x01, b"Hel"), Feed::Frame(0x81, b"lo")],
        ONCE,
        Want::Shows(b"x\x88\x02\x03\xea"),
    ),
    (
        &[Feed::Frame(0x09, b""), Feed::Frame(0x82, b"a")],
        ONCE,
        Want::Shows(b"x\x88\x02\x03\xea"),
    ),
    (
        &[Feed::Frame(0x89, LONG_PING), Feed::Frame(0x82, b"a")],
        ONCE,
        Want::Shows(b"x\x88\x02\x03\xea"),
    ),
    (
        &[Feed::Frame(0x81, b"\xff"), Feed::Frame(0x82, b"a")],
        ONCE,
        Want::Shows(b"x\x88\x02\x03\xef"),
    ),
];

// "A single-frame masked text message" of RFC 6455, section 5.7, and the same unmasked.
const MASKED_HELLO: &[u8] = b"\x81\x85\x37\xfa\x21\x3d\x7f\x9f\x4d\x51\x58";

const UNMASKED_HELLO: &[u8] = b"\x81\x05Hello";

const IN_TWO: &[Do] = &[
    Do::Open(0),
    Do::Hear,
    Do::Open(5),
    Do::Hear,
    Do::Open(10),
    Do::Hear,
    Do::Open(11),
    Do::Hear,
];

const LATER: Want<'static> = Want::Shows(b"..<Hello>");

const WHOLE: &[Talk] = &[
    (&[Feed::Bytes(MASKED_HELLO)], ONCE, Want::Shows(b"<Hello>")),
    (
        &[Feed::Bytes(UNMASKED_HELLO)],
        ONCE,
        Want::Shows(b"x\x88\x02\x03\xea"),
    ),
    (
        &[Feed::Bytes(b"\x81\x85\x37\xfa\x21\x3d\x7f\x9f")],
        TWICE,
        Want::Shows(b"!!"),
    ),
    (
        &[Feed::Bytes(MASKED_HELLO)],
        IN_TWO,
        Want::Shows(b"...<Hello>"),
    ),
    // Nothing comes at each place of a frame, and then all of it.
    (
        &[Feed::Bytes(MASKED_HELLO)],
        &[Do::Open(0), Do::Hear, Do::Hear, Do::Open(11), Do::Hear],
        LATER,
    ),
    (
        &[Feed::Bytes(MASKED_HELLO)],
        &[Do::Open(1), Do::Hear, Do::Hear, Do::Open(11), Do::Hear],
        LATER,
    ),
    (
        &[Feed::Bytes(MASKED_HELLO)],
        &[Do::Open(2), Do::Hear, Do::Hear, Do::Open(11), Do::Hear],
        LATER,
    ),
    (
        &[Feed::Bytes(MASKED_HELLO)],
        &[Do::Open(3), Do::Hear, Do::Hear, Do::Open(11), Do::Hear],
        LATER,
    ),
    (
        &[Feed::Bytes(MASKED_HELLO)],
        &[Do::Open(4), Do::Hear, Do::Hear, Do::Open(11), Do::Hear],
        LATER,
    ),
    (
        &[Feed::Bytes(MASKED_HELLO)],
        &[Do::Open(5), Do::Hear, Do::Hear, Do::Open(11), Do::Hear],
        LATER,
    ),
    (
        &[Feed::Bytes(MASKED_HELLO)],
        &[Do::Open(6), Do::Hear, Do::Hear, Do::Open(11), Do::Hear],
        LATER,
    ),
    (
        &[Feed::Bytes(MASKED_HELLO)],
        &[Do::Open(7), Do::Hear, Do::Hear, Do::Open(11), Do::Hear],
        LATER,
    ),
    (
        &[Feed::Bytes(MASKED_HELLO)],
        &[Do::Open(8), Do::Hear, Do::Hear, Do::Open(11), Do::Hear],
        LATER,
    ),
    (
        &[Feed::Bytes(MASKED_HELLO)],
        &[Do::Open(9), Do::Hear, Do::Hear, Do::Open(11), Do::Hear],
        LATER,
    ),
    (
        &[Feed::Bytes(MASKED_HELLO)],
        &[Do::Open(10), Do::Hear, Do::Hear, Do::Open(11), Do::Hear],
        LATER,
    ),
];

// The code 1009.
const TOO_BIG: Want<'static> = Want::Shows(b"x\x88\x02\x03\xf1");

// A message may have 131,072 bytes and no more, and is given in pieces of 1,024.
const LONG: &[Talk] = &[
    // The first piece, between two marks.
    (
        &[Feed::Letters(0x82, 131_072), Feed::Frame(0x80, b"a")],
        ONCE,
        Want::ShowsMany(1_026),
    ),
    (
        &[Feed::Letters(0x02, 131_072), Feed::Frame(0x80, b"a")],
        ONCE,
        TOO_BIG,
    ),
    (&[Feed::Head(0x82, 131_073)], ONCE, TOO_BIG),
    (&[Feed::Head(0x82, 1 << 62)], ONCE, TOO_BIG),
    (
        &[Feed::Letters(0x82, 1_024), Feed::Frame(0x82, b"-")],
        TWICE,
        Want::ShowsPieces(1_024),
    ),
    (
        &[Feed::Letters(0x82, 1_025), Feed::Frame(0x82, b"-")],
        &[Do::Hear; 3],
        Want::ShowsPieces(1_025),
    ),
    (
        &[Feed::Letters(0x82, 2_048), Feed::Frame(0x82, b"-")],
        &[Do::Hear; 3],
        Want::ShowsPieces(2_048),
    ),
    (
        &[Feed::Letters(0x82, 10_000), Feed::Frame(0x82, b"-")],
        &[Do::Hear; 11],
        Want::ShowsPieces(10_000),
    ),
];

// A ping is answered before the next read, and the peer takes nothing of that for as long as the write may take.
const UNANSWERED: &[Talk] = &[(
    &[
        Feed::Frame(0x89, b"Hello"),
        Feed::Frame(0x82, b"a"),
        Feed::Frame(0x82, b"b"),
    ],
    &[Do::Break(ErrorKind::TimedOut), Do::Hear, Do::Hear, Do::Hear],
    Want::Shows(b"-!!"),
)];

#[test]
fn bytes_come_out_of_messages_however_they_are_cut(rt: HostRuntime) {
    let wrong = [
        first_wrong_talk(rt.alloc(), MESSAGES, usize::MAX),
        first_wrong_talk(rt.alloc(), MESSAGES, 1),
        first_wrong_talk(rt.alloc(), BREACHES, usize::MAX),
        first_wrong_talk(rt.alloc(), BREACHES, 1),
        first_wrong_talk(rt.alloc(), WHOLE, usize::MAX),
        first_wrong_talk(rt.alloc(), LONG, usize::MAX),
    ];
    assert_eq!(rt; wrong, [Some(None); 6]);
}

#[test]
fn a_write_that_timed_out_within_a_read_ends_the_link(rt: HostRuntime) {
    let wrong = [
        first_wrong_talk(rt.alloc(), UNANSWERED, usize::MAX),
        first_wrong_talk(rt.alloc(), UNANSWERED, 1),
    ];
    assert_eq!(rt; wrong, [Some(None); 2]);
}

// What a session does for some bytes: nothing, a command that opens it, or something else.
fn mark_of(alloc: Global, session: &mut Session, bytes: &[u8]) -> char {
    match session.feed(alloc, bytes) {
        Ok(acts) => {
            let mark = match acts.as_slice() {
                [] => '.',
                [Act::Do(Op::Open { .. }, None)] => 'o',
                _ => '?',
            };
            drop(acts);
            mark
        }
        Err(_) => '!',
    }
}

// That its link gives these two parts is tried above.
#[test]
fn a_frame_of_stomp_may_be_cut_over_two_messages(rt: HostRuntime) {
    let mut session = Session::new(rt.alloc());
    let first = mark_of(rt.alloc(), &mut session, b"CONNECT\naccept-vers");
    let second = mark_of(rt.alloc(), &mut session, b"ion:1.2\n\n\0");
    drop(session);
    assert_eq!(rt; (first, second), ('.', 'o'));
}
