use crate::desk::guests::Guest;
use crate::desk::rooms::{Cue, play};
use crate::desk::says::Say;
use crate::desk::texts::{
    CONNECT, CONNECTED, DISCONNECT, LISTENER, LOWER_RECEIPTS, NOT_EXPECTED, OPENED_TWENTY, RECEIPT,
    SECOND_RECEIPT, SEND, SEND_X, SPEAKER, SUBSCRIBER, THREE_RECEIPTS, TOPIC_X, TOPIC_Y,
    TWENTY_LOWER, TWENTY_UPPER, TWO_MESSAGES, UPPER_RECEIPTS,
};
use std::alloc::Global;

// The smallest areas.
const AREA: u64 = 4_096;

const ROUNDS: Cue<'static> = Cue::Rounds(40);

// One that says nothing.
const SILENT: Guest<'static> = Guest {
    says: &[],
    stuck: 0,
    short: 0,
};

// One that is to hear both messages of the speaker, whose commands are the third to the sixth.
const READER: Guest<'static> = Guest {
    says: &[LISTENER],
    ..SILENT
};

const TALKER: Guest<'static> = Guest {
    says: &[Say::Text(SPEAKER)],
    ..SILENT
};

const SENDER: Guest<'static> = Guest {
    says: &[CONNECT, SEND, DISCONNECT],
    ..SILENT
};

const SENT: &[Say<'static>] = &[CONNECTED, RECEIPT, SECOND_RECEIPT];

const PLAYS: [&[Cue<'static>]; 7] = [
    // Each asks for more than a window.
    &[
        Cue::Comes(
            0,
            Guest {
                says: &[CONNECT, TWENTY_LOWER],
                ..SILENT
            },
        ),
        Cue::Comes(
            1,
            Guest {
                says: &[CONNECT, TWENTY_UPPER],
                ..SILENT
            },
        ),
        ROUNDS,
        Cue::Counts(42),
        Cue::Hears(0, LOWER_RECEIPTS),
        Cue::Hears(1, UPPER_RECEIPTS),
    ],
    // A stream that takes nothing, beside one that takes all.
    &[
        Cue::Comes(
            0,
            Guest {
                stuck: 1_000,
                ..READER
            },
        ),
        Cue::Comes(1, TALKER),
        ROUNDS,
        Cue::Counts(6),
        Cue::Hears(0, &[]),
        Cue::Hears(1, THREE_RECEIPTS),
        // Once it is lost it goes, and who takes its place hears nothing that waited for it.
        Cue::Stays(0),
        Cue::IsLost(0),
        Cue::Rounds(2),
        Cue::Hears(0, &[]),
        Cue::Goes(0, None, &[]),
        Cue::Comes(
            0,
            Guest {
                says: &[CONNECT],
                ..SILENT
            },
        ),
        ROUNDS,
        Cue::Hears(0, &[CONNECTED]),
    ],
    // One that takes nothing for ten turns: it hears all then.
    &[
        Cue::Comes(
            0,
            Guest {
                stuck: 10,
                ..READER
            },
        ),
        Cue::Comes(1, TALKER),
        ROUNDS,
        Cue::Counts(6),
        Cue::Hears(0, &[CONNECTED, TOPIC_X, TOPIC_Y]),
        Cue::Hears(1, THREE_RECEIPTS),
    ],
    // Two sessions at once.
    &[
        Cue::Comes(0, SENDER),
        Cue::Comes(1, SENDER),
        ROUNDS,
        Cue::Counts(6),
        Cue::Hears(0, SENT),
        Cue::Hears(1, SENT),
    ],
    // A client like a script's, among others that say nothing.
    &[
        Cue::Comes(0, SILENT),
        Cue::Comes(
            1,
            Guest {
                says: SUBSCRIBER,
                ..SILENT
            },
        ),
        Cue::Comes(2, SILENT),
        ROUNDS,
        Cue::Counts(6),
        Cue::Hears(0, &[]),
        Cue::Hears(1, TWO_MESSAGES),
        Cue::Hears(2, &[]),
    ],
    // An ERROR at once, told to that client alone, and once.
    &[
        Cue::Comes(0, SENDER),
        Cue::Comes(
            1,
            Guest {
                says: &[Say::Text(SEND_X), Say::Text(SEND_X)],
                ..SILENT
            },
        ),
        Cue::Comes(2, SENDER),
        ROUNDS,
        Cue::Counts(6),
        Cue::Hears(0, SENT),
        Cue::Hears(1, &[NOT_EXPECTED]),
        Cue::Hears(2, SENT),
    ],
    // A client that is refused memory for its CONNECTED. The next turn sends that and reads nothing, so that there is another at once: bytes
    // may have come meanwhile, of which nothing tells again.
    &[
        Cue::Comes(
            0,
            Guest {
                says: &[CONNECT, SEND],
                short: 1,
                ..SILENT
            },
        ),
        Cue::Turns(0, b'g'),
        Cue::Flushes,
        Cue::Turns(0, b'm'),
        Cue::Turns(0, b'g'),
    ],
];

// The first of these plays in which something is not so; `None` if memory is refused.
fn first_wrong(alloc: Global) -> Option<Option<usize>> {
    for (i, cues) in PLAYS.iter().enumerate() {
        if play(alloc, AREA, *cues)?.is_some() {
            return Some(Some(i));
        }
    }
    Some(None)
}

#[test]
fn each_client_of_a_desk_hears_its_own(rt: HostRuntime) {
    assert_eq!(rt; first_wrong(rt.alloc()), Some(None));
}

// A client that says these, beside one that says nothing.
fn play_beside<'a>(
    alloc: Global,
    says: &'a [Say<'a>],
    count: u64,
    wanted: &'a [Say<'a>],
) -> Option<Option<usize>> {
    let guest = Guest {
        says,
        stuck: 0,
        short: 0,
    };
    let cues = [
        Cue::Comes(0, SILENT),
        Cue::Comes(1, guest),
        ROUNDS,
        Cue::Counts(count),
        Cue::Hears(1, wanted),
    ];
    play(alloc, AREA, &cues)
}

// The first place at which something else comes of a client whose bytes are two messages, so many of them and the rest.
fn first_wrong_cut(
    alloc: Global,
    stream: &'static [u8],
    count: u64,
    wanted: &[Say<'static>],
) -> Option<Option<usize>> {
    for at in 0..stream.len() {
        let (front, rest) = stream.split_at(at);
        let says = [Say::Text(front), Say::Text(rest)];
        if play_beside(alloc, &says, count, wanted)?.is_some() {
            return Some(Some(at));
        }
    }
    Some(None)
}

#[test]
fn bytes_that_are_cut_anywhere_come_out_the_same(rt: HostRuntime) {
    let wrong = [
        first_wrong_cut(rt.alloc(), SPEAKER, 4, THREE_RECEIPTS),
        first_wrong_cut(rt.alloc(), OPENED_TWENTY, 21, LOWER_RECEIPTS),
        first_wrong_cut(rt.alloc(), SEND_X, 0, &[NOT_EXPECTED]),
    ];
    assert_eq!(rt; wrong, [Some(None); 3]);
}
