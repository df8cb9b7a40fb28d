use crate::desk::guests::Guest;
use crate::desk::rooms::{Cue, play};
use crate::desk::says::Say;
use crate::desk::texts::{CONNECT, CONNECTED, DISCONNECT, RECEIPT, SECOND_RECEIPT, SEND};
use std::alloc::Global;

// A session with no client's name has 8 bytes of its number and 1 that says so: 9.
//
// A plain subscription of `/topic/a` has 8 of its session's number, 4 and those of its id, 4 and 8 of its destination, 1 of its mode, 1
// that says that it has no name, and 4 and 4 of two counts: 34 and those of its id.
//
// With an id of 8,149 bytes both have 8,192 (docs/PROTOCOL.md, "Limits").
const LARGEST: usize = 8_149;

// A session of a client with the name `abc` has 8 of its number, 1 that says so, 4 and 3 of the name: 16. A durable one of the id `d`
// and the name `n` has 8, 4 and 1, 4 and 8, 1, then 1, 4 and 1 of its name, and 4 and 4: 40. With a plain one beside them whose id
// has 8,102 they have 8,192.
const LARGEST_BESIDE: usize = 8_102;

const NAMED: Say<'static> = Say::Text(b"CONNECT\naccept-version:1.2\nclient-id:abc\n\n\0");

const DURABLE: Say<'static> = Say::Text(
    b"SUBSCRIBE\nid:d\ndestination:/topic/a\nactivemq.subscriptionName:n\n\n\0",
);

// The subscription ends, and the name stays.
const DURABLE_END: Say<'static> = Say::Text(b"UNSUBSCRIBE\nid:d\n\n\0");

// Plain subscriptions with ids of so many bytes.
const FRONT: &[u8] = b"SUBSCRIBE\nid:";

const BACK: &[u8] = b"\ndestination:/topic/a\n\n\0";

const LARGE: Say<'static> = Say::Filled(FRONT, LARGEST, BACK);

const TOO_LARGE: Say<'static> = Say::Filled(FRONT, LARGEST + 1, BACK);

const LARGE_END: Say<'static> = Say::Filled(b"UNSUBSCRIBE\nid:", LARGEST, b"\n\n\0");

// The same in one message with all that is said before and after it. Of that the DISCONNECT was heard by then.
const FRONT_AT_ONCE: &[u8] = b"CONNECT\naccept-version:1.2\n\n\0SUBSCRIBE\nid:";

const BACK_AT_ONCE: &[u8] = b"\ndestination:/topic/a\n\n\0\
SEND\ndestination:/queue/a\nreceipt:r1\n\nhi\0DISCONNECT\nreceipt:r2\n\n\0";

const RECEIPTS: &[Say<'static>] = &[CONNECTED, RECEIPT, SECOND_RECEIPT];

// What a client says, how many commands are carried out, the code with which it is closed, and what it hears.
type Budget = (&'static [Say<'static>], u64, u16, &'static [Say<'static>]);

const BUDGETS: &[Budget] = &[
    // A session of 8,192 bytes goes on.
    (&[CONNECT, LARGE, SEND, DISCONNECT], 4, 1000, RECEIPTS),
    // One of 8,193 is ended. The Open and the End are carried out: nothing of the subscription, and of what comes behind it. The CONNECTED,
    // which waits by then, is not sent any more.
    (&[CONNECT, TOO_LARGE, SEND, DISCONNECT], 2, 1001, &[]),
    // What stands behind it in one message is dropped.
    (
        &[Say::Filled(FRONT_AT_ONCE, LARGEST, BACK_AT_ONCE)],
        4,
        1000,
        RECEIPTS,
    ),
    (
        &[Say::Filled(FRONT_AT_ONCE, LARGEST + 1, BACK_AT_ONCE)],
        2,
        1001,
        &[],
    ),
    // Names count too.
    (
        &[
            NAMED,
            DURABLE,
            Say::Filled(FRONT, LARGEST_BESIDE, BACK),
            SEND,
            DISCONNECT,
        ],
        5,
        1000,
        RECEIPTS,
    ),
    (
        &[
            NAMED,
            DURABLE,
            Say::Filled(FRONT, LARGEST_BESIDE + 1, BACK),
            SEND,
            DISCONNECT,
        ],
        3,
        1001,
        &[CONNECTED],
    ),
    // A durable subscription that has ended leaves room for one of 40 bytes more.
    (
        &[
            NAMED,
            DURABLE,
            DURABLE_END,
            Say::Filled(FRONT, LARGEST_BESIDE + 40, BACK),
            SEND,
            DISCONNECT,
        ],
        6,
        1000,
        RECEIPTS,
    ),
    (
        &[
            NAMED,
            DURABLE,
            DURABLE_END,
            Say::Filled(FRONT, LARGEST_BESIDE + 41, BACK),
            SEND,
            DISCONNECT,
        ],
        4,
        1001,
        &[CONNECTED],
    ),
    // One subscribes with all that it may, and ends that, twelve times.
    (
        &[
            CONNECT, LARGE, LARGE_END, LARGE, LARGE_END, LARGE, LARGE_END, LARGE, LARGE_END, LARGE,
            LARGE_END, LARGE, LARGE_END, LARGE, LARGE_END, LARGE, LARGE_END, LARGE, LARGE_END,
            LARGE, LARGE_END, LARGE, LARGE_END, LARGE, LARGE_END, SEND, DISCONNECT,
        ],
        27,
        1000,
        RECEIPTS,
    ),
];

// The first client of which something else comes; `None` if memory is refused.
fn first_wrong(alloc: Global) -> Option<Option<usize>> {
    for (i, (says, count, code, hears)) in BUDGETS.iter().enumerate() {
        let guest = Guest {
            says: *says,
            stuck: 0,
            short: 0,
        };
        let cues = [
            Cue::Comes(0, guest),
            Cue::Rounds(60),
            Cue::Counts(*count),
            Cue::Goes(0, Some(*code), *hears),
        ];
        if play(alloc, 262_144, &cues)?.is_some() {
            return Some(Some(i));
        }
    }
    Some(None)
}

#[test]
fn a_session_of_8192_bytes_goes_on_and_a_larger_one_is_ended(rt: HostRuntime) {
    assert_eq!(rt; first_wrong(rt.alloc()), Some(None));
}
