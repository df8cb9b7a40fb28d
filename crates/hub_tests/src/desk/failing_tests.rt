use crate::desk::acts::Do;
use crate::desk::driver::{Talk, Want, first_wrong_talk};
use crate::desk::feeds::Feed;
use ws_core::CloseReason;

// Bytes as a peer may send them after what has failed its link.
const BEHIND: Feed<'static> = Feed::Bytes(b"none of this is looked at");

// The stream takes two bytes of the close at first, and then none, while the peer goes on sending.
const SLOWLY: &[Do] = &[
    Do::Open(11),
    Do::Take(2),
    Do::Hear,
    Do::Hear,
    Do::Open(12),
    Do::Hear,
    Do::Hear,
    Do::Take(1_000),
    Do::Hear,
    Do::Send(b""),
    Do::Ping,
    Do::End(CloseReason::GoingAway),
    Do::Flush,
    Do::Open(1_000),
    Do::Hear,
    Do::Hear,
    Do::End(CloseReason::GoingAway),
];

const FLOOD: usize = 16_777_216;

/// The close is written whole, and then the stream is shut, though what comes is dropped before that (RFC 6455, section 7.1.1). Nothing
/// else is said.
const FAILED: &[Talk] = &[
    // A reserved bit is set, a text is not UTF-8, or the peer closes with 1000 and three letters.
    (
        &[Feed::Frame(0xc1, b"Hello"), BEHIND],
        SLOWLY,
        Want::Shows(b"x\x88\x02.-..\x03\xea|ggkt-!g"),
    ),
    (
        &[Feed::Frame(0x81, b"\xff...."), BEHIND],
        SLOWLY,
        Want::Shows(b"x\x88\x02.-..\x03\xef|ggkt-!g"),
    ),
    (
        &[Feed::Frame(0x88, b"\x03\xe8abc"), BEHIND],
        SLOWLY,
        Want::Shows(b"x\x88\x05.-..\x03\xe8abc|ggkt-!g"),
    ),
    // As much as 16,777,216 bytes are dropped and no more.
    (
        &[Feed::Frame(0xc1, b"Hello"), Feed::Flood(FLOOD + 2)],
        &[
            Do::Open(11),
            Do::Hear,
            Do::Open(11 + FLOOD),
            Do::Hear,
            Do::Hear,
            Do::Open(12 + FLOOD),
            Do::Hear,
            Do::Hear,
        ],
        Want::Shows(b"x\x88\x02\x03\xea-|.!!"),
    ),
];

#[test]
fn a_failed_link_says_its_close_and_drops_what_comes(rt: HostRuntime) {
    assert_eq!(rt;
        first_wrong_talk(rt.alloc(), FAILED, usize::MAX),
        Some(None)
    );
}
