//! Steps with the disk of a journal, one after another.

use area_core::{
    AreaFault, FormatFault, ReadFault, Version, closed, closed_snapshot, format, header_of,
};
use broker_core::Broker;
use command_core::{Entry, decode};
use disk_core::{Call, Disk, FailOnce, FuseDisk, MemDisk};
use recover_core::{OpenFault, Store, open, read};
use snapshot_core::encode_state;
use std::alloc::{AllocError, Global};
use std::mem;
use std::process::Abort;

// The size of a disk with two areas of 4,096 bytes.
pub(crate) const SIZE: usize = 8_224;

// What a stop may fill unsynced bytes with; `None` leaves what was there.
pub(crate) const FILLS: [Option<u8>; 4] = [None, Some(0x00), Some(0x01), Some(0x37)];

// A session opens.
pub(crate) const OPEN: &[u8] = b"\0\0\0\0\0\0\0\0\0\x01\0";

// The session sends `x` to `/queue/q`.
pub(crate) const SEND: &[u8] = b"\0\0\0\0\0\0\0\0\0\x02\0\0\0\x08/queue/q\0\0\0\0\0\x01x";

// The session listens to `/queue/q` as `s`, and acknowledges.
pub(crate) const SUBSCRIBE: &[u8] = b"\0\0\0\0\0\0\0\0\0\x03\0\0\0\x01s\0\0\0\x08/queue/q\x01\0";

// Where images have bytes that are not zero: in the header and the first area, and in the second area.
const WRITTEN: [(usize, usize); 2] = [(0, 256), (4_128, 4_640)];

// What formatting asks of a disk without a name: whether it has one, the header behind it, the front of the first area, the name; each
// is synced.
const FORMAT_CALLS: [Call; 7] = [
    Call::Read { at: 0, len: 6 },
    Call::Write { at: 8, len: 24 },
    Call::Sync,
    Call::Write { at: 32, len: 41 },
    Call::Sync,
    Call::Write { at: 0, len: 8 },
    Call::Sync,
];

// How large a disk is, how large its areas are to be, and whether they fit.
const FORMATS: [(u64, u64, bool); 9] = [
    (8_224, 4_096, true),
    (8_225, 4_096, true),
    (8_223, 4_096, false),
    (8_224, 4_097, false),
    (8_224, 4_095, false),
    (0, 4_096, false),
    (31, 0, false),
    // Twice this is more than 64 bits hold.
    (8_224, 1 << 63, false),
    (8_224, u64::MAX, false),
];

// How many calls a disk makes until it is formatted.
const CALLS: u64 = 7;

// Formatting a journal takes its name away first: two calls more. The sync of the third fails, or it succeeds.
const RENAMED: [(JournalStep<'static>, Told); 7] = [
    (JournalStep::Format(4_096, u64::MAX), Told::Done),
    (JournalStep::Format(4_096, 2), Told::Device),
    (JournalStep::Stop(None), Told::Done),
    (JournalStep::Read, Told::Holds(0, 0)),
    (JournalStep::Format(4_096, 3), Told::Device),
    (JournalStep::Stop(None), Told::Done),
    (JournalStep::Read, Told::NotAJournal),
];

const FILLED: JournalImage = [0xee; SIZE];

// Formatting loses what the disk held.
const FORMATTED: [(JournalStep<'static>, Told); 4] = [
    (JournalStep::Write(&FILLED), Told::Done),
    (JournalStep::Format(4_096, u64::MAX), Told::Done),
    (
        JournalStep::Has(
            0,
            b"STOMPJ02\0\0\0\0\0\0\x10\0\0\0\0\0\0\0\0\0\0\0\0\0\0\0\0\0",
        ),
        Told::Done,
    ),
    (
        JournalStep::Has(
            32,
            b"\x02\0\0\0\0\0\0\x20\0\0\0\0\0\0\0\0\0\0\0\0\0\0\0\0\0\0\0\0\0\0\0\0\0\0\0\0\0\0\0\0\0",
        ),
        Told::Done,
    ),
];

// Which calls of a disk fail.
#[derive(Clone, Copy)]
pub(crate) enum FailingCalls {
    None,
    // All after the first so many.
    After(u64),
    // The one of that number.
    Once(u64),
    // All after the first so many that come once the journal is open.
    OnceOpen(u64),
}

// What is done with a journal that was opened.
#[derive(Clone, Copy)]
pub(crate) enum StoreWork<'a> {
    Nothing,
    // What its broker holds is told.
    Look,
    // Its broker has the state with this snapshot.
    Compare(&'a [u8]),
    // It takes batches of these records.
    Add(&'a [&'a [&'a [u8]]]),
    // It takes a batch of these records twice; the second answer is told if the first is that the device failed.
    AddAgain(&'a [&'a [u8]]),
}

// A step with a disk.
#[derive(Clone, Copy)]
pub(crate) enum JournalStep<'a> {
    // These bytes are written and synced.
    Write(&'a JournalImage),
    // It becomes an empty journal with areas of so many bytes, while so many calls pass.
    Format(u64, u64),
    Open(FailingCalls, StoreWork<'a>),
    // It is opened while calls fail, and has to open.
    Attempt(FailingCalls, bool),
    // It stops, and its unsynced bytes become that.
    Stop(Option<u8>),
    // It stops, and is left with this image; or a stop can't leave that.
    Left(&'a JournalImage),
    Read,
    // The version, the live area, how much of it is used, the count, and the messages and bytes that are held.
    Shows([u64; 6]),
    // It was asked for these calls since it stopped.
    Called(&'a [Call]),
    // It was opened by calls of which these write the snapshot.
    Opened(&'a [Call]),
    // It has these bytes from there on.
    Has(u64, &'a [u8]),
}

// The entry of a record's command.
fn entry_of(alloc: Global, record: &[u8]) -> Option<Entry<()>> {
    match decode(alloc, record) {
        Ok((command, _)) => Entry::new(alloc, command, None).ok(),
        Err(_) => None,
    }
}

// Adds the command of a record to a batch.
pub(crate) fn push_record(alloc: Global, batch: &mut Vec<Entry<()>>, record: &[u8]) -> bool {
    match entry_of(alloc, record) {
        Some(entry) => batch.push(entry).is_ok(),
        None => false,
    }
}

// Makes a SEND to `/queue/q` with a body of so many bytes, whose record has 28 bytes more.
pub(crate) fn push_sending(record: &mut Vec<u8>, body: u32) -> Result<(), AllocError> {
    record.extend_from_slice(b"\0\0\0\0\0\0\0\0\0\x02\0\0\0\x08/queue/q\0\0")?;
    record.extend_from_slice(&body.to_be_bytes())?;
    record.resize((body as usize).saturating_add(28), b'x')
}

// Fills a batch with the commands of these records.
fn fill(alloc: Global, batch: &mut Vec<Entry<()>>, records: &[&[u8]]) -> bool {
    for record in records {
        if !push_record(alloc, batch, record) {
            return false;
        }
    }
    true
}

// Adds the batch, which is not empty.
pub(crate) fn append<D: Disk>(alloc: Global, store: &mut Store<D>, batch: &[Entry<()>]) -> Told {
    if batch.is_empty() {
        return Told::Done;
    }
    told_of_area(store.append(alloc, batch))
}

// Adds a batch of these records, and then again if the device failed.
fn add<D: Disk>(alloc: Global, store: &mut Store<D>, records: &[&[u8]], is_again: bool) -> Told {
    let mut batch = Vec::new(alloc);
    let mut told = Told::Other;
    if fill(alloc, &mut batch, records) {
        told = append(alloc, store, batch.as_slice());
        if is_again && told == Told::Device {
            told = append(alloc, store, batch.as_slice());
        }
    }
    drop(batch);
    told
}

pub(crate) fn add_all<D: Disk>(alloc: Global, store: &mut Store<D>, batches: &[&[&[u8]]]) -> Told {
    for records in batches {
        let told = add(alloc, store, records, false);
        if told != Told::Done {
            return told;
        }
    }
    Told::Done
}

// The snapshot of a broker that is small and whole.
pub(crate) fn snapshot(alloc: Global, broker: &Broker) -> Option<Vec<u8>> {
    if broker.is_broken()
        || broker.sessions().len() > 1_000
        || broker.subscription_count() > 1_000
    {
        return None;
    }
    encode_state(alloc, broker).ok()
}

// Whether the broker has the state with this snapshot.
fn has_state(alloc: Global, broker: &Broker, wanted: &[u8]) -> bool {
    match snapshot(alloc, broker) {
        Some(snapshot) => {
            let is_same = snapshot.as_slice() == wanted;
            drop(snapshot);
            is_same
        }
        None => false,
    }
}

// What the broker holds, unless it has not the state with that snapshot.
fn told_of_broker(alloc: Global, broker: &Broker, wanted: Option<&[u8]>) -> Told {
    match wanted {
        None => Told::Holds(broker.count(), broker.held().messages),
        Some(wanted) if has_state(alloc, broker, wanted) => Told::Done,
        Some(_) => Told::Other,
    }
}

// The same for the broker of the store.
pub(crate) fn told_of_store<D: Disk>(
    alloc: Global,
    store: &mut Store<D>,
    wanted: Option<&[u8]>,
) -> Told {
    match store.broker() {
        Some(broker) => {
            let told = told_of_broker(alloc, &broker, wanted);
            drop(broker);
            told
        }
        None => Told::Other,
    }
}

fn work_on<D: Disk>(alloc: Global, store: &mut Store<D>, work: StoreWork<'_>) -> Told {
    match work {
        StoreWork::Nothing => Told::Done,
        StoreWork::Look => told_of_store(alloc, store, None),
        StoreWork::Compare(wanted) => told_of_store(alloc, store, Some(wanted)),
        StoreWork::Add(batches) => add_all(alloc, store, batches),
        StoreWork::AddAgain(records) => add(alloc, store, records, true),
    }
}

// Opens the disk, does that with the store, and hands the disk back.
pub(crate) fn opened<D: Disk>(alloc: Global, disk: D, work: StoreWork<'_>) -> (D, Told) {
    match open(alloc, disk) {
        Ok(mut store) => {
            let told = work_on(alloc, &mut store, work);
            (store.into_disk(), told)
        }
        Err((disk, fault)) => {
            let told = told_of_opening(&fault);
            drop(fault);
            (disk, told)
        }
    }
}

fn opened_after(alloc: Global, disk: MemDisk, calls: u64, work: StoreWork<'_>) -> (MemDisk, Told) {
    let (fuse, told) = opened(alloc, FuseDisk::new(disk, calls), work);
    (fuse.into_inner(), told)
}

// The device fails if and only if that call has failed.
fn opened_once(alloc: Global, disk: MemDisk, call: u64, work: StoreWork<'_>) -> (MemDisk, Told) {
    let (disk, told) = opened(alloc, FailOnce::new(disk, call), work);
    let has_failed = disk.has_failed();
    let told = if has_failed == (told == Told::Device) {
        told
    } else {
        Told::Other
    };
    (disk.into_inner(), told)
}

// Opens the disk, and does that with the store over a disk that passes so many calls more.
fn opened_and_fused(
    alloc: Global,
    disk: MemDisk,
    calls: u64,
    work: StoreWork<'_>,
) -> (MemDisk, Told) {
    match open(alloc, disk) {
        Ok(store) => {
            let mut store = store.fuse(calls);
            let told = work_on(alloc, &mut store, work);
            (store.into_disk().into_inner(), told)
        }
        Err((disk, fault)) => {
            drop(fault);
            (disk, Told::Other)
        }
    }
}

// Opens the disk while calls fail.
pub(crate) fn open_in(
    alloc: Global,
    slot: &mut MemDisk,
    failing: FailingCalls,
    work: StoreWork<'_>,
) -> Told {
    let Ok(nothing) = MemDisk::new(alloc, 0) else {
        return Told::Other;
    };
    let disk = mem::replace(slot, nothing);
    let (disk, told) = match failing {
        FailingCalls::None => opened(alloc, disk, work),
        FailingCalls::After(calls) => opened_after(alloc, disk, calls, work),
        FailingCalls::Once(call) => opened_once(alloc, disk, call, work),
        FailingCalls::OnceOpen(calls) => opened_and_fused(alloc, disk, calls, work),
    };
    drop(mem::replace(slot, disk));
    told
}

// Opens the disk while calls fail. If it has not to open, the device may have failed.
fn attempt(alloc: Global, disk: &mut MemDisk, failing: FailingCalls, has_to: bool) -> Told {
    match open_in(alloc, disk, failing, StoreWork::Nothing) {
        Told::Device if !has_to => Told::Done,
        told => told,
    }
}

// Makes the disk an empty journal while so many calls pass.
fn format_in(alloc: Global, slot: &mut MemDisk, area_bytes: u64, passed: u64) -> Told {
    let Ok(nothing) = MemDisk::new(alloc, 0) else {
        return Told::Other;
    };
    let mut fuse = FuseDisk::new(mem::replace(slot, nothing), passed);
    let told = told_of_format(format(alloc, &mut fuse, area_bytes));
    drop(mem::replace(slot, fuse.into_inner()));
    told
}

fn told_by_read(alloc: Global, disk: &mut MemDisk) -> Told {
    match read(alloc, disk) {
        Ok(seen) => Told::Holds(seen.count, seen.held.messages),
        Err(fault) => told_of_opening(&fault),
    }
}

pub(crate) fn shows<D: Disk>(alloc: Global, disk: &mut D, wanted: &[u64; 6]) -> bool {
    let Ok(seen) = read(alloc, disk) else {
        return false;
    };
    let shown = [
        u64::from(seen.version),
        u64::from(seen.area),
        seen.used,
        seen.count,
        seen.held.messages,
        seen.held.bytes,
    ];
    shown == *wanted
}

// Whether the call is a read that leaves the bytes from 17 to 31 alone, which have no meaning.
fn is_read_beside(call: &Call) -> bool {
    match *call {
        Call::Read { at, len } => at >= 32 || at <= 17 && len <= 17 - at,
        _ => false,
    }
}

// Whether the calls are a sync, reads, these writes, a sync, and those that make the other area live.
fn are_of_opening(calls: &[Call], writes: &[Call]) -> bool {
    let live = [Call::Sync, Call::Write { at: 16, len: 1 }, Call::Sync];
    let Some((Call::Sync, rest)) = calls.split_first() else {
        return false;
    };
    match (rest.strip_suffix(live.as_slice()), writes.len()) {
        (Some(before), count) if before.len() > count => {
            let (reads, pieces) = before.split_at(before.len() - count);
            reads.iter().all(is_read_beside) && pieces == writes
        }
        _ => false,
    }
}

// Whether the disk has these bytes, of which there are at most 8,224.
fn has(disk: &mut MemDisk, at: u64, wanted: &[u8]) -> bool {
    let mut bytes = [0xee; 8_224];
    let size = disk.size();
    let len = wanted.len();
    if len > bytes.len() || at > size || len as u64 > size - at {
        return false;
    }
    disk.read_at(at, &mut bytes[..len]).is_ok() && &bytes[..len] == wanted
}

fn done_if(is_right: bool) -> Told {
    if is_right { Told::Done } else { Told::Other }
}

fn make(alloc: Global, disk: &mut MemDisk, step: JournalStep<'_>) -> Told {
    match step {
        JournalStep::Write(image) => done_if(write_image(disk, image, 0)),
        JournalStep::Format(area_bytes, passed) => format_in(alloc, disk, area_bytes, passed),
        JournalStep::Open(failing, work) => open_in(alloc, disk, failing, work),
        JournalStep::Attempt(failing, has_to) => attempt(alloc, disk, failing, has_to),
        JournalStep::Stop(fill) => {
            disk.crash(fill);
            Told::Done
        }
        JournalStep::Left(image) => done_if(disk.crash_to(image)),
        JournalStep::Read => told_by_read(alloc, disk),
        JournalStep::Shows(wanted) => done_if(shows(alloc, disk, &wanted)),
        JournalStep::Called(calls) => done_if(disk.calls() == calls),
        JournalStep::Opened(writes) => done_if(are_of_opening(disk.calls(), writes)),
        JournalStep::Has(at, wanted) => done_if(has(disk, at, wanted)),
    }
}

pub(crate) fn first_wrong(
    alloc: Global,
    disk: &mut MemDisk,
    steps: &[(JournalStep<'_>, Told)],
) -> Option<usize> {
    for (place, (step, wanted)) in steps.iter().enumerate() {
        if make(alloc, disk, *step) != *wanted {
            return Some(place);
        }
    }
    None
}

// Makes the steps with a new disk of that size. It answers with the place of the first of which something else comes.
pub(crate) fn play(alloc: Global, size: u64, steps: &[(JournalStep<'_>, Told)]) -> Option<usize> {
    let Ok(mut disk) = MemDisk::new(alloc, size) else {
        return Some(0);
    };
    let wrong = first_wrong(alloc, &mut disk, steps);
    drop(disk);
    wrong
}

// What is told of an image that is zero but for the front of its areas and that place, by reading and by opening it.
pub(crate) fn told_of(alloc: Global, image: &[u8], place: usize) -> Told {
    let Some(mut disk) = disk_of(alloc, image, place) else {
        return Told::Other;
    };
    let read = told_by_read(alloc, &mut disk);
    let opened = open_in(alloc, &mut disk, FailingCalls::None, StoreWork::Look);
    drop(disk);
    if read == opened { read } else { Told::Other }
}

// The two assertions of almost all tests. In a function of their own they are proved once.
pub(crate) fn expect(rt: &impl Abort, is_right: bool) {
    assert!(rt; is_right);
}

pub(crate) fn expect_none(rt: &impl Abort, wrong: Option<usize>) {
    assert_eq!(rt; wrong, None);
}

// The bytes of such a disk.
pub(crate) type JournalImage = [u8; SIZE];

// What comes of a step with a journal: what a disk that is read or opened holds, or why the step is refused.
#[derive(Clone, Copy, PartialEq, Eq)]
pub(crate) enum Told {
    Done,
    // So many commands were carried out, and so many messages are held.
    Holds(u64, u64),
    NotAJournal,
    UnknownVersion,
    TooSmall,
    Damaged(u64),
    TooMany,
    Device,
    Full,
    Broken,
    // Something that no test wants, a refusal of memory included.
    Other,
}

pub(crate) fn told_of_reading(fault: &ReadFault) -> Told {
    match fault {
        ReadFault::NotAJournal => Told::NotAJournal,
        ReadFault::UnknownVersion => Told::UnknownVersion,
        ReadFault::TooSmall => Told::TooSmall,
        ReadFault::Damaged(place) => Told::Damaged(*place),
        ReadFault::Device => Told::Device,
        ReadFault::Memory(_) => Told::Other,
    }
}

pub(crate) fn told_of_area(done: Result<(), AreaFault>) -> Told {
    match done {
        Ok(()) => Told::Done,
        Err(AreaFault::Device) => Told::Device,
        Err(AreaFault::Full) => Told::Full,
        Err(AreaFault::Broken) => Told::Broken,
        Err(AreaFault::Memory(_)) => Told::Other,
    }
}

pub(crate) fn told_of_opening(fault: &OpenFault) -> Told {
    match fault {
        OpenFault::Read(fault) => told_of_reading(fault),
        OpenFault::CountTooLarge => Told::TooMany,
        OpenFault::Area(AreaFault::Device) => Told::Device,
        OpenFault::Area(_) => Told::Other,
    }
}

pub(crate) fn told_of_format(done: Result<(), FormatFault>) -> Told {
    match done {
        Ok(()) => Told::Done,
        Err(FormatFault::TooSmall) => Told::TooSmall,
        Err(FormatFault::Device) => Told::Device,
        Err(FormatFault::Memory(_)) => Told::Other,
    }
}

// Puts bytes into an image, from a place on where they fit.
pub(crate) fn put(image: &mut JournalImage, at: usize, bytes: &[u8]) {
    if at <= SIZE && bytes.len() <= SIZE - at {
        image[at..at + bytes.len()].copy_from_slice(bytes);
    }
}

// Writes the bytes that the image has from one place up to another, as far as it goes.
fn write_range(disk: &mut MemDisk, image: &[u8], from: usize, to: usize) -> bool {
    let end = to.min(image.len());
    if from >= end {
        return true;
    }
    disk.size() == image.len() as u64 && disk.write_at(from as u64, &image[from..end]).is_ok()
}

// Writes an image that is zero but for those ranges and the byte at that place, and syncs it.
pub(crate) fn write_image(disk: &mut MemDisk, image: &[u8], place: usize) -> bool {
    for (from, to) in WRITTEN {
        if !write_range(disk, image, from, to) {
            return false;
        }
    }
    let is_written = write_range(disk, image, place, place.saturating_add(1));
    let is_synced = disk.sync().is_ok();
    disk.crash(None);
    is_written && is_synced
}

// A disk with such an image.
pub(crate) fn disk_of(alloc: Global, image: &[u8], place: usize) -> Option<MemDisk> {
    let mut disk = MemDisk::new(alloc, image.len() as u64).ok()?;
    if write_image(&mut disk, image, place) {
        return Some(disk);
    }
    drop(disk);
    None
}

// The bytes of a header with this name: how long an area is, and the selector of the first area.
pub(crate) fn header_with(name: &[u8; 8]) -> [u8; 32] {
    let mut bytes = [0; 32];
    bytes[..8].copy_from_slice(name);
    bytes[14] = 0x10;
    bytes
}

// The front of an area that begins with this byte: the byte, the length of the snapshot, the empty snapshot, and a closed gate.
pub(crate) fn front_with(first: u8) -> [u8; 41] {
    let mut bytes = [0; 41];
    bytes[0] = first;
    bytes[7] = 32;
    bytes
}

// An empty journal.
pub(crate) fn empty_image() -> JournalImage {
    let mut image = [0; SIZE];
    put(&mut image, 0, &header_with(b"STOMPJ02"));
    put(&mut image, 32, &front_with(2));
    image
}

// Whether memory was had for that text.
pub(crate) fn is_text<E: Drop>(made: Result<String, E>, wanted: &str) -> bool {
    match made {
        Ok(text) => {
            let is_same = text.as_str() == wanted;
            drop(text);
            is_same
        }
        Err(_) => false,
    }
}

#[test]
fn each_refusal_has_its_text(rt: HostRuntime) {
    let formats = format!(in rt.alloc();
        "{}; {}; {}",
        FormatFault::TooSmall,
        FormatFault::Device,
        FormatFault::Memory(AllocError),
    );
    expect(
        &rt,
        is_text(formats, "J8 disk too small; J3 device failed; no memory"),
    );
    let reads = format!(in rt.alloc();
        "{}; {}; {}; {}; {}; {}",
        ReadFault::NotAJournal,
        ReadFault::Damaged(4_294_967_296),
        ReadFault::Device,
        ReadFault::UnknownVersion,
        ReadFault::TooSmall,
        ReadFault::Memory(AllocError),
    );
    expect(
        &rt,
        is_text(
            reads,
            "J1 not a journal; J2 damaged at 4294967296; J3 device failed; J7 unknown version; J8 disk too small; no memory",
        ),
    );
    let areas = format!(in rt.alloc();
        "{}; {}; {}; {}",
        AreaFault::Device,
        AreaFault::Full,
        AreaFault::Broken,
        AreaFault::Memory(AllocError),
    );
    expect(
        &rt,
        is_text(
            areas,
            "J3 device failed; J4 journal full; J6 store broken; no memory",
        ),
    );
}

// Whether such areas are refused on such a disk just if they don't fit.
fn is_formatted(alloc: Global, size: u64, area_bytes: u64, fits: bool) -> bool {
    let (told, calls): (Told, &[Call]) = if fits {
        (Told::Done, &FORMAT_CALLS)
    } else {
        (Told::TooSmall, &[])
    };
    let steps = [
        (JournalStep::Format(area_bytes, u64::MAX), told),
        (JournalStep::Called(calls), Told::Done),
    ];
    play(alloc, size, &steps).is_none()
}

fn first_wrong_size(alloc: Global) -> Option<usize> {
    for (place, (size, area_bytes, fits)) in FORMATS.iter().enumerate() {
        if !is_formatted(alloc, *size, *area_bytes, *fits) {
            return Some(place);
        }
    }
    None
}

// A disk that is too small is not touched.
#[test]
fn a_disk_is_formatted_where_both_areas_fit(rt: HostRuntime) {
    expect_none(&rt, first_wrong_size(rt.alloc()));
}

// The steps in which formatting is stopped after so many calls, and the unsynced bytes become that. A name of other bytes is none.
fn stopped(passed: u64, fill: Option<u8>) -> [(JournalStep<'static>, Told); 3] {
    let (told, read) = if passed < CALLS {
        (Told::Device, Told::NotAJournal)
    } else {
        (Told::Done, Told::Holds(0, 0))
    };
    [
        (JournalStep::Format(4_096, passed), told),
        (JournalStep::Stop(fill), Told::Done),
        (JournalStep::Read, read),
    ]
}

// The number of calls after which a stop of formatting leaves something else.
fn first_wrong_stop(alloc: Global) -> Option<usize> {
    for passed in 0..=CALLS {
        for fill in [None, Some(0), Some(b'S')] {
            if play(alloc, SIZE as u64, &stopped(passed, fill)).is_some() {
                return Some(passed as usize);
            }
        }
    }
    None
}

#[test]
fn formatting_that_stops_leaves_no_journal(rt: HostRuntime) {
    expect_none(&rt, first_wrong_stop(rt.alloc()));
}

// The number of calls after which a stop of formatting may leave this image, a header and no area.
fn first_with_header_alone(alloc: Global) -> Option<usize> {
    let mut image = [0; SIZE];
    put(&mut image, 0, &header_with(b"STOMPJ02"));
    for passed in 0..=CALLS {
        let told = if passed < CALLS {
            Told::Device
        } else {
            Told::Done
        };
        let steps = [
            (JournalStep::Format(4_096, passed), told),
            (JournalStep::Left(&image), Told::Other),
        ];
        if play(alloc, SIZE as u64, &steps).is_some() {
            return Some(passed as usize);
        }
    }
    None
}

// The name comes only once all else is synced.
#[test]
fn no_stop_leaves_a_header_without_its_area(rt: HostRuntime) {
    expect_none(&rt, first_with_header_alone(rt.alloc()));
}

#[test]
fn formatting_a_journal_takes_its_name_first(rt: HostRuntime) {
    expect_none(&rt, play(rt.alloc(), SIZE as u64, &RENAMED));
}

#[test]
fn an_empty_journal_has_the_bytes_of_its_format(rt: HostRuntime) {
    expect_none(&rt, play(rt.alloc(), SIZE as u64, &FORMATTED));
}

// Whether memory was had for those bytes.
fn is_same(made: Result<Vec<u8>, AllocError>, wanted: &[u8]) -> bool {
    match made {
        Ok(bytes) => {
            let is_same = bytes.as_slice() == wanted;
            drop(bytes);
            is_same
        }
        Err(_) => false,
    }
}

// The digits in the name, and the byte that an area begins with: 0 in the first version, 2 in the second. A block does not begin with such
// a byte.
#[test]
fn each_version_has_its_bytes(rt: HostRuntime) {
    let old = header_of(rt.alloc(), Version::One, 4_096);
    expect(&rt, is_same(old, &header_with(b"STOMPJ01")));
    let new = header_of(rt.alloc(), Version::Two, 4_096);
    expect(&rt, is_same(new, &header_with(b"STOMPJ02")));
    let old = closed_snapshot(rt.alloc(), Version::One, &[0; 32]);
    expect(&rt, is_same(old, &front_with(0)));
    let new = closed_snapshot(rt.alloc(), Version::Two, &[0; 32]);
    expect(&rt, is_same(new, &front_with(2)));
    let block = closed(rt.alloc(), &[0; 32]);
    expect(&rt, is_same(block, &front_with(0)));
}
