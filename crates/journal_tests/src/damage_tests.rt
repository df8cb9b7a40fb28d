use crate::journal_steps::{
    FailingCalls, JournalImage, JournalStep, OPEN, SEND, SIZE, SUBSCRIBE, StoreWork, Told,
    empty_image, expect, expect_none, play, put, told_of,
};
use crate::opening_tests::{Cause, Given, first_lost};
use byteorder::{BigEndian, ByteOrder};
use std::alloc::Global;

// A journal whose second area is live, from place 4,128 on. It has the empty state, a block of an Open and a SEND, and two blocks of a SEND
// each. The gates stand at 4,168, 4,217, 4,255 and 4,293. All bytes that are not named here are zero.
const JOURNAL: [(usize, Overwrite); 15] = [
    (0, Overwrite::Bytes(b"STOMPJ02")),
    (8, Overwrite::Word(4_096)),
    (16, Overwrite::Bytes(b"\x01")),
    // The first area, as it was formatted.
    (32, Overwrite::Front(32)),
    // The second area.
    (4_128, Overwrite::Front(32)),
    (4_168, Overwrite::Bytes(b"\x01")),
    (4_169, Overwrite::Word(40)),
    (4_177, Overwrite::Bytes(OPEN)),
    (4_188, Overwrite::Bytes(SEND)),
    (4_217, Overwrite::Bytes(b"\x01")),
    (4_218, Overwrite::Word(29)),
    (4_226, Overwrite::Bytes(SEND)),
    (4_255, Overwrite::Bytes(b"\x01")),
    (4_256, Overwrite::Word(29)),
    (4_264, Overwrite::Bytes(SEND)),
];

// What is written over the journal, from a place on, and what opening then reports.
const DAMAGES: [(usize, Overwrite, Told); 32] = [
    (0, Overwrite::Bytes(b"X"), Told::NotAJournal),
    (6, Overwrite::Bytes(b"03"), Told::UnknownVersion),
    (6, Overwrite::Bytes(b"00"), Told::UnknownVersion),
    (8, Overwrite::Word(4_095), Told::TooSmall),
    (8, Overwrite::Word(4_097), Told::TooSmall),
    // A name of the first version, which does not decide, and an area of that version.
    (6, Overwrite::Bytes(b"01"), Told::Holds(4, 3)),
    (4_128, Overwrite::Bytes(b"\0"), Told::Holds(4, 3)),
    // Bytes that no version's area begins with, even if the snapshot's length would not fit.
    (4_128, Overwrite::Bytes(b"\x01"), Told::Damaged(4_128)),
    (4_128, Overwrite::Bytes(b"\x03"), Told::Damaged(4_128)),
    (4_128, Overwrite::Bytes(b"\xff"), Told::Damaged(4_128)),
    (4_128, Overwrite::Word(u64::MAX), Told::Damaged(4_128)),
    // The greatest length of a snapshot that fits into seven bytes.
    (4_128, Overwrite::Front((1 << 56) - 1), Told::Damaged(4_128)),
    // Another odd selector; bytes that are not read; and an even selector, for the area as it was formatted.
    (16, Overwrite::Bytes(b"\x7b"), Told::Holds(4, 3)),
    (17, Overwrite::Bytes(&[0xff; 15]), Told::Holds(4, 3)),
    (16, Overwrite::Bytes(b"\x7a"), Told::Holds(0, 0)),
    // The snapshot's length: one less, one more, as much as fits, and one more than that.
    (4_128, Overwrite::Front(31), Told::Damaged(4_136)),
    (4_128, Overwrite::Front(33), Told::Damaged(4_136)),
    (4_128, Overwrite::Front(4_087), Told::Damaged(4_136)),
    (4_128, Overwrite::Front(4_088), Told::Damaged(4_128)),
    // A count of more than 2^61 before the blocks; one that is 2^61 after them; and one more.
    (4_136, Overwrite::Word((1 << 61) + 1), Told::TooMany),
    (
        4_136,
        Overwrite::Word((1 << 61) - 4),
        Told::Holds(1 << 61, 0),
    ),
    (4_136, Overwrite::Word((1 << 61) - 3), Told::TooMany),
    // The gates: a gate that is not 1 is closed.
    (4_168, Overwrite::Bytes(b"\0"), Told::Holds(0, 0)),
    (4_217, Overwrite::Bytes(b"\x37"), Told::Holds(2, 1)),
    (4_255, Overwrite::Bytes(b"\x02"), Told::Holds(3, 2)),
    // A block's length: zero, one less, one more, and more than the area has.
    (4_169, Overwrite::Word(0), Told::Damaged(4_169)),
    (4_169, Overwrite::Word(39), Told::Damaged(4_188)),
    (4_169, Overwrite::Word(41), Told::Damaged(4_217)),
    (4_218, Overwrite::Word(4_095), Told::Damaged(4_218)),
    // The tags of the first command and of the last.
    (4_186, Overwrite::Bytes(b"\x0a"), Told::Damaged(4_177)),
    (4_273, Overwrite::Bytes(b"\x0a"), Told::Damaged(4_264)),
    // The last gate open, with nothing behind it.
    (4_293, Overwrite::Bytes(b"\x01"), Told::Damaged(4_294)),
];

// The same for an empty journal, whose first area is live.
const DAMAGES_OF_EMPTY: [(usize, Overwrite, Told); 5] = [
    (6, Overwrite::Bytes(b"03"), Told::UnknownVersion),
    (8, Overwrite::Word(4_095), Told::TooSmall),
    (32, Overwrite::Front(31), Told::Damaged(40)),
    (40, Overwrite::Word(1 << 61), Told::Holds(1 << 61, 0)),
    (40, Overwrite::Word((1 << 61) + 1), Told::TooMany),
];

// What the journal holds as it is: four commands, of which the last three each leave a message.
const ALL: Told = Told::Holds(4, 3);

const BYTES: [u8; 3] = [0x00, 0x01, 0xff];

// The bytes of the file that are not zero. It was made on 26 November 2026 with the program of commit ac9e524: `stompd format FILE
// 8224`, `stompd serve FILE PORT`, and then two WebSocket connections, after whose last frame the server was killed. A block each:
//
// - 0: `anna` opens a session, and in 1 listens to `/topic/news` under the durable name `reader`, acknowledging in `client`;
// - 2: a second session opens, and in 3 sends `first` to `/topic/news`, which is handed to `anna` as delivery 0;
// - 4: it listens to `/queue/jobs`, acknowledging one by one, and in 5 and 6 sends `x` and `y` there, deliveries 1 and 2;
// - 7: it refuses delivery 1, and in 8 sends `second` to `/topic/news`, delivery 3.
const WRITTEN: [(usize, &[u8]); 12] = [
    (0, b"STOMPJ01\0\0\0\0\0\0\x10\0\x01"),
    (32, b"\0\0\0\0\0\0\0 \0"),
    (4_128, b"\0\0\0\0\0\0\0 "),
    (
        4_168,
        b"\x01\0\0\0\0\0\0\0\x13\0\0\0\0\0\0\0\0\0\x01\x01\0\0\0\x04anna",
    ),
    (
        4_196,
        b"\x01\0\0\0\0\0\0\02\0\0\0\0\0\0\0\0\x01\0\0\0\x011\x03\0\0\0\x04news\0\0\0\x0b/topic/news\x01\x01\0\0\0\x06reader",
    ),
    (4_255, b"\x01\0\0\0\0\0\0\0\x0b\0\0\0\0\0\0\0\0\0\x01\0"),
    (
        4_275,
        b"\x01\0\0\0\0\0\0\0)\0\0\0\0\0\0\0\x02\x01\0\0\0\x013\x02\0\0\0\x0b/topic/news\0\0\0\0\0\x05first",
    ),
    (
        4_325,
        b"\x01\0\0\0\0\0\0\0(\0\0\0\0\0\0\0\x02\x01\0\0\0\x014\x03\0\0\0\x04jobs\0\0\0\x0b/queue/jobs\x02\0",
    ),
    (
        4_374,
        b"\x01\0\0\0\0\0\0\0 \0\0\0\0\0\0\0\x02\0\x02\0\0\0\x0b/queue/jobs\0\0\0\0\0\x01x",
    ),
    (
        4_415,
        b"\x01\0\0\0\0\0\0\0 \0\0\0\0\0\0\0\x02\0\x02\0\0\0\x0b/queue/jobs\0\0\0\0\0\x01y",
    ),
    (
        4_456,
        b"\x01\0\0\0\0\0\0\0\x17\0\0\0\0\0\0\0\x02\x01\0\0\0\x017\x06\0\0\0\0\0\0\0\x01",
    ),
    (
        4_488,
        b"\x01\0\0\0\0\0\0\0*\0\0\0\0\0\0\0\x02\x01\0\0\0\x018\x02\0\0\0\x0b/topic/news\0\0\0\0\0\x06second",
    ),
];

// What is left of that once both sessions have ended: nine commands, four deliveries, and no session. There is `reader` of `anna`, for
// which both messages to `/topic/news` wait again, and in `/queue/jobs` the message of command 6. The message of command 5 was refused, and
// is gone.
pub(crate) const RESTARTED: &[u8] = b"\0\0\0\0\0\0\0\x09\0\0\0\0\0\0\0\x04\0\0\0\0\
\0\0\0\x01\0\0\0\x04anna\0\0\0\x06reader\0\0\0\x0b/topic/news\0\0\0\x02\
\0\0\0\0\0\0\0\x03\0\0\0\0\0\0\0\x0b/topic/news\0\0\0\0\0\x05first\
\0\0\0\0\0\0\0\x08\0\0\0\0\0\0\0\x0b/topic/news\0\0\0\0\0\x06second\
\0\0\0\x01\0\0\0\x0b/queue/jobs\0\0\0\x01\
\0\0\0\0\0\0\0\x06\0\0\0\0\0\0\0\x0b/queue/jobs\0\0\0\0\0\x01y\
\0\0\0\0";

// The session of command 0 refuses delivery 0.
const NACK: &[u8] = b"\0\0\0\0\0\0\0\0\0\x06\0\0\0\0\0\0\0\0";

// The digits in a journal's name, the byte that its live area begins with, and what opening it reports. That is how many commands were
// carried out, and how many messages are held.
const JOURNALS: [(&[u8], u8, Told); 7] = [
    // By the rule of the first version a NACK drops the message; by that of the second it keeps the message. The area decides, not the
    // name.
    (b"01", 0, Told::Holds(4, 0)),
    (b"02", 2, Told::Holds(4, 1)),
    (b"01", 2, Told::Holds(4, 1)),
    (b"02", 0, Told::Holds(4, 0)),
    // Other bytes belong to no version.
    (b"02", 1, Told::Damaged(32)),
    (b"02", 3, Told::Damaged(32)),
    (b"01", 255, Told::Damaged(32)),
];

// What is written over a journal.
#[derive(Clone, Copy)]
enum Overwrite {
    Bytes(&'static [u8]),
    // A number, in eight bytes.
    Word(u64),
    // The length of a snapshot, in seven bytes after the byte of the second version.
    Front(u64),
}

fn put_word(image: &mut JournalImage, at: usize, number: u64) {
    let mut word = [0; 8];
    BigEndian::write_u64(&mut word, number);
    put(image, at, &word);
}

fn write_over(image: &mut JournalImage, at: usize, what: Overwrite) {
    match what {
        Overwrite::Bytes(bytes) => put(image, at, bytes),
        Overwrite::Word(number) => put_word(image, at, number),
        Overwrite::Front(count) => {
            put_word(image, at, count);
            put(image, at, b"\x02");
        }
    }
}

pub(crate) fn journal() -> JournalImage {
    let mut image = [0; SIZE];
    for (at, what) in JOURNAL {
        write_over(&mut image, at, what);
    }
    image
}

#[test]
fn a_journal_is_written_as_its_format_says(rt: HostRuntime) {
    let batches: [&[&[u8]]; 3] = [&[OPEN, SEND], &[SEND], &[SEND]];
    let add = JournalStep::Open(FailingCalls::None, StoreWork::Add(&batches));
    let image = journal();
    let steps = [
        (JournalStep::Format(4_096, u64::MAX), Told::Done),
        (add, Told::Done),
        (JournalStep::Has(0, &image), Told::Done),
    ];
    expect_none(&rt, play(rt.alloc(), SIZE as u64, &steps));
}

// Whether that is told of a journal once this is written over it.
fn is_told(alloc: Global, was: &JournalImage, at: usize, what: Overwrite, wanted: Told) -> bool {
    let mut image = *was;
    write_over(&mut image, at, what);
    told_of(alloc, &image, 0) == wanted
}

// The first of these damages that is told otherwise.
fn first_wrong_damage(
    alloc: Global,
    image: &JournalImage,
    damages: &[(usize, Overwrite, Told)],
) -> Option<usize> {
    for (place, (at, what, wanted)) in damages.iter().enumerate() {
        if !is_told(alloc, image, *at, *what, *wanted) {
            return Some(place);
        }
    }
    None
}

#[test]
fn what_is_damaged_is_told_with_its_place(rt: HostRuntime) {
    expect_none(&rt, first_wrong_damage(rt.alloc(), &journal(), &DAMAGES));
}

#[test]
fn what_is_damaged_in_an_empty_journal_is_told(rt: HostRuntime) {
    expect_none(
        &rt,
        first_wrong_damage(rt.alloc(), &empty_image(), &DAMAGES_OF_EMPTY),
    );
    expect(&rt, told_of(rt.alloc(), &[0; 64], 0) == Told::NotAJournal);
}

// Damage after a count that is too large is reported, wherever in the live area it is.
#[test]
fn damage_is_told_before_a_count_that_is_too_large(rt: HostRuntime) {
    let mut image = journal();
    write_over(&mut image, 4_136, Overwrite::Word((1 << 61) + 1));
    write_over(&mut image, 4_273, Overwrite::Bytes(b"\x0a"));
    expect(&rt, told_of(rt.alloc(), &image, 0) == Told::Damaged(4_264));
}

// What opening reports if this byte is inverted.
fn wanted_at(at: usize) -> Told {
    match at {
        0..=5 => Told::NotAJournal,
        6 | 7 => Told::UnknownVersion,
        8..=15 => Told::TooSmall,
        17..=31 => Told::Holds(4, 3),
        4_169..=4_175 => Told::Damaged(4_169),
        4_176 => Told::Damaged(4_217),
        _ => Told::Holds(0, 0),
    }
}

fn counts(alloc: Global, at: usize) -> bool {
    let mut image = journal();
    if at < SIZE {
        image[at] ^= 0xff;
    }
    told_of(alloc, &image, 0) == wanted_at(at)
}

// The first byte of the header, of the first block's gate and of its length that does not count.
fn first_wrong_byte(alloc: Global) -> Option<usize> {
    for step in 0..41usize {
        let at = if step < 32 { step } else { step + 4_136 };
        if !counts(alloc, at) {
            return Some(at);
        }
    }
    None
}

#[test]
fn each_byte_of_the_frame_counts(rt: HostRuntime) {
    expect_none(&rt, first_wrong_byte(rt.alloc()));
}

#[test]
fn an_empty_journal_shows_that_it_holds_nothing(rt: HostRuntime) {
    let steps = [
        (JournalStep::Format(4_096, u64::MAX), Told::Done),
        (JournalStep::Shows([2, 0, 41, 0, 0, 0]), Told::Done),
    ];
    expect_none(&rt, play(rt.alloc(), SIZE as u64, &steps));
}

// The journal is shown twice as it is: opening would leave another area and another used length.
#[test]
fn a_journal_shows_what_it_holds(rt: HostRuntime) {
    let image = journal();
    let shows = JournalStep::Shows([2, 1, 166, 4, 3, 27]);
    let steps = [
        (JournalStep::Write(&image), Told::Done),
        (shows, Told::Done),
        (shows, Told::Done),
    ];
    expect_none(&rt, play(rt.alloc(), SIZE as u64, &steps));
}

// The two versions of the journal of four commands in three blocks, whose second area is live. In the first version the name ends with 1,
// and both areas begin with 0 in place of 2.
#[derive(Clone, Copy)]
enum Version {
    First,
    Second,
}

fn image_of(version: Version) -> JournalImage {
    let mut image = journal();
    if let Version::First = version {
        image[7] = b'1';
        image[32] = 0;
        image[4_128] = 0;
    }
    image
}

// A number of eight bytes that are zero but for this byte, which is this many places after the first.
fn number_of(place: u64, byte: u8) -> u64 {
    let mut word = [0; 8];
    if place < 8 {
        word[place as usize] = byte;
    }
    u64::from_be_bytes(word)
}

// A byte of the header.
fn told_in_header(at: u64, byte: u8) -> Told {
    match at {
        0..=5 => Told::NotAJournal,
        6 | 7 => Told::UnknownVersion,
        // Areas that are too short or do not fit.
        8..=15 => Told::TooSmall,
        // The area that is not live, as it was formatted.
        16 if byte % 2 == 0 => Told::Holds(0, 0),
        _ => ALL,
    }
}

// A byte of the live area's front, from its version to the gate after its snapshot. After another count, the session that opens is not the
// one that sends.
fn told_in_front(at: u64, byte: u8) -> Told {
    match at {
        4_128 if byte == 0 || byte == 2 => ALL,
        // A snapshot of up to 288 bytes spells no state, and a longer one does not fit.
        4_135 => Told::Damaged(4_136),
        4_134 if byte == 1 => Told::Damaged(4_136),
        4_128..=4_134 => Told::Damaged(4_128),
        4_136..=4_143 => {
            let count = number_of(at.saturating_sub(4_136), byte).saturating_add(4);
            if count > 1 << 61 {
                Told::TooMany
            } else {
                Told::Holds(count, 0)
            }
        }
        // The next delivery is 2^63 at most.
        4_144 if byte >= 0x80 => Told::Damaged(4_136),
        4_144..=4_151 => ALL,
        // One of the four lists counts something, but there are no bytes for it.
        4_152..=4_167 => Told::Damaged(4_136),
        _ => Told::Holds(0, 0),
    }
}

// A byte of a block's length. In its last place it gives no byte, or one byte, which is no record. Or it gives more than the block has, so
// that the gate after it is read as a record. A length greater than the area is reported at the length.
fn told_in_length(at: u64, byte: u8, length: u64, gate: u64) -> Told {
    match (length.saturating_add(7).saturating_sub(at), byte) {
        (0, 0) => Told::Damaged(length),
        (0, 1) => Told::Damaged(length.saturating_add(8)),
        (0, _) | (1, 1) => Told::Damaged(gate),
        _ => Told::Damaged(length),
    }
}

// A byte of the record of a SEND that begins at that place.
fn told_in_send(at: u64, byte: u8, record: u64) -> Told {
    match (at.saturating_sub(record), byte) {
        // The session is another, which is not open: the message is not taken.
        (0..=7, _) => Told::Holds(4, 2),
        // An Open, which has eleven bytes, and no record after it.
        (9, 1) => Told::Damaged(record.saturating_add(11)),
        // No body, and after the record a byte that is no record.
        (27, 0) => Told::Damaged(record.saturating_add(28)),
        // A body of another byte.
        (28, _) => ALL,
        _ => Told::Damaged(record),
    }
}

// A byte of the blocks, from the first one's length on. What stands behind the last gate is not read if the gate is closed.
fn told_in_blocks(at: u64, byte: u8) -> Told {
    match at {
        4_169..=4_176 => told_in_length(at, byte, 4_169, 4_217),
        // The Open, whose session is 0, and which has no receipt and no client's name.
        4_177..=4_187 => Told::Damaged(4_177),
        4_188..=4_216 => told_in_send(at, byte, 4_188),
        4_217 => Told::Holds(2, 1),
        4_218..=4_225 => told_in_length(at, byte, 4_218, 4_255),
        4_226..=4_254 => told_in_send(at, byte, 4_226),
        4_255 => Told::Holds(3, 2),
        4_256..=4_263 => told_in_length(at, byte, 4_256, 4_293),
        4_264..=4_292 => told_in_send(at, byte, 4_264),
        // A block of no bytes.
        4_293 if byte == 1 => Told::Damaged(4_294),
        _ => ALL,
    }
}

// What is reported once the byte at this place is this one, which was not there before. The area that is not live is not read.
fn told_at(at: u64, byte: u8) -> Told {
    match at {
        0..=31 => told_in_header(at, byte),
        32..=4_127 => ALL,
        4_128..=4_168 => told_in_front(at, byte),
        _ => told_in_blocks(at, byte),
    }
}

// Whether each of those bytes at this place is reported as it should be.
fn is_told_at(alloc: Global, image: &mut JournalImage, place: usize) -> bool {
    if place >= SIZE {
        return false;
    }
    let was = image[place];
    for byte in BYTES {
        let wanted = if byte == was {
            ALL
        } else {
            told_at(place as u64, byte)
        };
        image[place] = byte;
        if told_of(alloc, &image[..], place) != wanted {
            return false;
        }
    }
    image[place] = was;
    true
}

// Whether a place is tried: each of the header and of what is used of both areas, and every 29th of the rest.
fn is_tried(place: usize) -> bool {
    place < 80 || (place >= 4_096 && place < 4_352) || place % 29 == 0
}

// The first place where a byte is reported otherwise.
fn first_wrong_of_bytes(alloc: Global, version: Version) -> Option<usize> {
    let mut image = image_of(version);
    for place in 0..SIZE {
        if is_tried(place) && !is_told_at(alloc, &mut image, place) {
            return Some(place);
        }
    }
    None
}

#[test]
fn each_byte_of_a_journal_may_be_any(rt: HostRuntime) {
    expect_none(&rt, first_wrong_of_bytes(rt.alloc(), Version::Second));
}

#[test]
fn each_byte_of_an_older_journal_may_be_any(rt: HostRuntime) {
    expect_none(&rt, first_wrong_of_bytes(rt.alloc(), Version::First));
}

// The first size at which a disk is reported otherwise, the whole one included. A disk of fewer than 32 bytes is no journal, and any other
// that was cut is too small.
fn first_wrong_size(alloc: Global, version: Version) -> Option<usize> {
    let image = image_of(version);
    for size in 0..SIZE + 1 {
        let wanted = match size {
            0..32 => Told::NotAJournal,
            32..SIZE => Told::TooSmall,
            _ => ALL,
        };
        if told_of(alloc, &image[..size], 0) != wanted {
            return Some(size);
        }
    }
    None
}

#[test]
fn each_shorter_disk_is_told(rt: HostRuntime) {
    expect_none(&rt, first_wrong_size(rt.alloc(), Version::Second));
}

#[test]
fn each_shorter_disk_of_an_older_journal_is_told(rt: HostRuntime) {
    expect_none(&rt, first_wrong_size(rt.alloc(), Version::First));
}

pub(crate) fn old_journal() -> JournalImage {
    let mut image = [0; SIZE];
    for (at, bytes) in WRITTEN {
        put(&mut image, at, bytes);
    }
    image
}

// Its second area is live. Three messages are not acknowledged: the two of the topic, and `y`.
#[test]
fn an_older_journal_is_shown(rt: HostRuntime) {
    let image = old_journal();
    let steps = [
        (JournalStep::Write(&image), Told::Done),
        (JournalStep::Shows([1, 1, 412, 9, 3, 45]), Told::Done),
    ];
    expect_none(&rt, play(rt.alloc(), SIZE as u64, &steps));
}

// Six calls read its header, two its front, and three each of the nine blocks, so opening it takes about forty.
#[test]
fn a_stop_at_each_call_of_opening_it_leaves_its_state(rt: HostRuntime) {
    expect_none(&rt, first_lost(rt.alloc(), Given::Old, Cause::Stop));
}

// A journal whose name has these digits. Its first area is live and begins with this byte, for its version. It has the empty state and one
// block: a session opens, listens to `/queue/q`, sends a message there, is handed it, and refuses it. The records have 87 bytes.
fn journal_of_version(digits: &[u8], first: u8) -> JournalImage {
    let mut image = [0; SIZE];
    put(&mut image, 0, b"STOMPJ");
    put(&mut image, 6, digits);
    put(&mut image, 8, b"\0\0\0\0\0\0\x10\0");
    put(&mut image, 32, &[first, 0, 0, 0, 0, 0, 0, 32]);
    put(&mut image, 72, b"\x01\0\0\0\0\0\0\0\x57");
    put(&mut image, 81, OPEN);
    put(&mut image, 92, SUBSCRIBE);
    put(&mut image, 121, SEND);
    put(&mut image, 150, NACK);
    image
}

fn first_wrong_version(alloc: Global) -> Option<usize> {
    for (place, (digits, first, wanted)) in JOURNALS.iter().enumerate() {
        if told_of(alloc, &journal_of_version(digits, *first), 0) != *wanted {
            return Some(place);
        }
    }
    None
}

#[test]
fn blocks_are_carried_out_by_the_rule_of_their_area(rt: HostRuntime) {
    expect_none(&rt, first_wrong_version(rt.alloc()));
}

// What such a journal shows before it is opened, and after. Opening leaves the name as it is.
fn shows_twice(alloc: Global, image: &JournalImage, before: [u64; 6], after: [u64; 6]) -> bool {
    let steps = [
        (JournalStep::Write(image), Told::Done),
        (JournalStep::Shows(before), Told::Done),
        (
            JournalStep::Open(FailingCalls::None, StoreWork::Nothing),
            Told::Done,
        ),
        (JournalStep::Shows(after), Told::Done),
        (JournalStep::Has(0, &image[..8]), Told::Done),
    ];
    play(alloc, SIZE as u64, &steps).is_none()
}

// The refused message has the destination `/queue/dead` and a body of one byte: 12 bytes. Opening writes the second version.
#[test]
fn opening_makes_a_journal_one_of_the_second_version(rt: HostRuntime) {
    let (before, after) = ([1, 0, 137, 4, 0, 0], [2, 1, 41, 4, 0, 0]);
    expect(
        &rt,
        shows_twice(rt.alloc(), &journal_of_version(b"01", 0), before, after),
    );
}

// In a snapshot a message has 22 bytes beside its destination and body, its queue has 8 and its name, and the rest of the state has 32.
#[test]
fn a_journal_of_the_second_version_keeps_what_was_refused(rt: HostRuntime) {
    let (before, after) = ([2, 0, 137, 4, 1, 12], [2, 1, 94, 4, 1, 12]);
    expect(
        &rt,
        shows_twice(rt.alloc(), &journal_of_version(b"02", 2), before, after),
    );
}
