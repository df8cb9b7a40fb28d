//! Something is done with a new journal, whose disk may fail; then all stops, and what is left is looked at.

ghost use Rattle.std.specs.Prelude.{◌≡◌, ◌≤◌, ◌^◌, All, IfSome, IsSome, false, length, IsTrue};
ghost use Rattle.claim_core.specs.Seats.{new_session};
ghost use Rattle.recover_core.specs.Standing.{StandFor};
ghost use Rattle.recover_core.specs.Stores.{disk_of, is_broken, opened_by};

use crate::step_tests::{Deed, act, count_durable};
use area_core::format;
use broker_core::Broker;
use claim_core::{BrokerRing, BrokerSeat, Refused, Ring};
use command_core::{Command, Dest, Entry, Op, Sending, decode};
use disk_core::{Call, Disk, FailOnce, FuseDisk, MemDisk};
use flush_core::{Flusher, Width};
use frame_core::{Bytes, Headers};
use outbox_core::{OutSender, Silent};
use recover_core::{Store, open, read, stored_broker};
use snapshot_core::encode_state;
use std::alloc::Global;
use std::mem;
use std::process::Abort;

/// The bytes of the smallest area.
pub(crate) const SMALL_AREA: u32 = 4_096;

/// What a stop may fill unsynced bytes with; none leaves what was there.
pub(crate) const FILLS: [Option<u8>; 4] = [None, Some(0x00), Some(0x01), Some(0x37)];

/// No call fails, and nothing is done with two open sessions.
pub(crate) const CALM: Trial = Trial {
    area: SMALL_AREA,
    beginning: Beginning::Opened,
    deed: Deed::Nothing,
    failing: u64::MAX,
    passed: u64::MAX,
    fill: None,
};

/// A session opens.
pub(crate) const OPEN: &[u8] = b"\0\0\0\0\0\0\0\0\0\x01\0";

/// What the two sessions send to `/queue/q` in turn: the last asks for a receipt.
pub(crate) const FIRST_SEND: &[u8] = b"\0\0\0\0\0\0\0\0\0\x02\0\0\0\x08/queue/q\0\0\0\0\0\x01x";

pub(crate) const SECOND_SEND: &[u8] = b"\0\0\0\0\0\0\0\x01\0\x02\0\0\0\x08/queue/q\0\0\0\0\0\x01y";

pub(crate) const LAST_SEND: &[u8] =
    b"\0\0\0\0\0\0\0\0\x01\0\0\0\x01r\x02\0\0\0\x08/queue/q\0\0\0\0\0\x01z";

// The first session takes from `/queue/q` as `s`, and acknowledges.
const SUBSCRIBE: &[u8] = b"\0\0\0\0\0\0\0\0\0\x03\0\0\0\x01s\0\0\0\x08/queue/q\x01\0";

// It takes from `/queue/q` as `a`, and what it gets is gone.
const SUBSCRIBE_AUTO: &[u8] = b"\0\0\0\0\0\0\0\0\0\x03\0\0\0\x01a\0\0\0\x08/queue/q\0\0";

/// What is tried.
#[derive(Clone, Copy)]
pub(crate) struct Trial {
    /// How many bytes an area has.
    pub(crate) area: u32,
    pub(crate) beginning: Beginning,
    pub(crate) deed: Deed,
    /// The call of the disk that fails, by its number since the formatting.
    pub(crate) failing: u64,
    /// How many calls of the disk pass, before it fails each.
    pub(crate) passed: u64,
    /// What the stop fills unsynced bytes with.
    pub(crate) fill: Option<u8>,
}

/// What is seen of a trial. A state is empty if it could not be spelled.
#[derive(Drop)]
pub(crate) struct Findings {
    /// Whether the beginning was made.
    pub(crate) begun: bool,
    /// Whether the deed was done or failed as it may.
    pub(crate) done: Option<bool>,
    /// How many commands are then durable, executed and published.
    pub(crate) count: Option<u64>,
    /// The broker's state, as its snapshot spells it.
    pub(crate) state: Vec<u8>,
    /// How many calls were made of the disk since the formatting.
    pub(crate) made: u64,
    /// The calls that the disk below saw, also of the formatting.
    pub(crate) calls: Vec<Call>,
    /// What the journal shows after the stop: its version, its live area, how much of it is used, how many commands were carried out, and
    /// how many messages are held.
    pub(crate) shown: Option<[u64; 5]>,
    /// The state that the disk then stands for, its sessions included.
    pub(crate) stored: Vec<u8>,
    /// The state that it is opened with.
    pub(crate) opened: Vec<u8>,
    /// Such a state of an earlier trial, which was kept.
    pub(crate) kept: Vec<u8>,
}

impl Findings {
    pub(crate) fn new(alloc: Global) -> Findings {
        Findings {
            begun: false,
            done: None,
            count: None,
            state: Vec::new(alloc),
            made: 0,
            calls: Vec::new(alloc),
            shown: None,
            stored: Vec::new(alloc),
            opened: Vec::new(alloc),
            kept: Vec::new(alloc),
        }
    }

    fn clear(&mut self) {
        self.begun = false;
        self.done = None;
        self.count = None;
        self.state.clear();
        self.made = 0;
        self.calls.clear();
        self.shown = None;
        self.stored.clear();
        self.opened.clear();
    }

    /// Keeps the state that the journal was opened with.
    pub(crate) fn keep(&mut self) {
        mem::swap(&mut self.opened, &mut self.kept);
    }

    /// Whether the deed was done, or came to a failure, and so many commands are durable.
    pub(crate) fn is(&self, done: bool, count: u64) -> bool {
        self.done == Some(done) && self.count == Some(count)
    }

    /// Whether the disk stands for the state that the broker has.
    pub(crate) fn is_stored(&self) -> bool {
        !self.state.is_empty() && self.state.as_slice() == self.stored.as_slice()
    }

    /// Whether the disk is opened with the state that was kept.
    pub(crate) fn is_opened_as_kept(&self) -> bool {
        !self.kept.is_empty() && self.opened.as_slice() == self.kept.as_slice()
    }
}

fn spell(alloc: Global, broker: &Broker, into: &mut Vec<u8>) {
    if broker.is_broken()
        || broker.sessions().len() > 1_000
        || broker.subscription_count() > 1_000
    {
        return;
    }
    if let Ok(state) = encode_state(alloc, broker) {
        drop(mem::replace(into, state));
    }
}

fn spell_stored(alloc: Global, disk: &mut MemDisk, into: &mut Vec<u8>) {
    if let Ok(broker) = stored_broker(alloc, disk) {
        spell(alloc, &broker, into);
        drop(broker);
    }
}

fn spell_opened(alloc: Global, disk: MemDisk, into: &mut Vec<u8>) {
    match open(alloc, disk) {
        Ok(mut store) => {
            let broker = store.broker();
            drop(store);
            if let Some(broker) = broker {
                spell(alloc, &broker, into);
                drop(broker);
            }
        }
        Err((disk, _)) => drop(disk),
    }
}

fn shown(alloc: Global, disk: &mut MemDisk) -> Option<[u64; 5]> {
    match read(alloc, disk) {
        Ok(seen) => {
            let numbers = [
                u64::from(seen.version),
                u64::from(seen.area),
                seen.used,
                seen.count,
                seen.held.messages,
            ];
            drop(seen);
            Some(numbers)
        }
        Err(_) => None,
    }
}

// Stops the disk, and looks at it.
fn look(alloc: Global, disk: &mut MemDisk, fill: Option<u8>, findings: &mut Findings) {
    if findings.calls.extend_from_slice(disk.calls()).is_err() {
        findings.calls.clear();
    }
    disk.crash(fill);
    findings.shown = shown(alloc, disk);
    spell_stored(alloc, disk, &mut findings.stored);
}

fn stop(alloc: Global, disk: TestDisk, fill: Option<u8>, findings: &mut Findings) {
    findings.made = disk.made();
    let mut disk = disk.into_inner().into_inner();
    look(alloc, &mut disk, fill, findings);
    spell_opened(alloc, disk, &mut findings.opened);
}

// Does what is to be done.
fn go<D: Disk>(
    alloc: Global,
    ring: &TestRing,
    first: &mut TestSeat,
    second: &mut TestSeat,
    flusher: &mut TestFlusher<D>,
    trial: Trial,
    findings: &mut Findings,
)
    requires seats { (first.old.ring ≡ ring.now) × (second.old.ring ≡ ring.now) }
    requires flusher { (flusher.old.seat.ring ≡ ring.now) × (flusher.old.executed ≡ flusher.old.stored) }
{
    if begin(alloc, ring, first, second, flusher, trial.beginning) {
        findings.begun = true;
        findings.done = act(alloc, ring, first, second, flusher, trial.deed);
        let done = findings.done == Some(true);
        findings.count = count_durable(alloc, ring, first, flusher, done);
    }
    spell(alloc, flusher.broker(), &mut findings.state);
}

// Two of the seats are kept for it.
fn go_at<D: Disk + Drop>(
    alloc: Global,
    ring: TestRing,
    seats: Vec<TestSeat>,
    flusher: TestFlusher<D>,
    trial: Trial,
    findings: &mut Findings,
) -> D
    requires seats { All (λ seat. seat ≡ new_session ring flusher.seat.base seat.number) seats.items }
    requires two { 2 ≤ length seats.items }
    requires flusher { (flusher.seat.ring ≡ ring) × (flusher.executed ≡ flusher.stored) }
{
    let mut seats = seats;
    let mut flusher = flusher;
    let mut first = seats.pop().unwrap();
    let mut second = seats.pop().unwrap();
    drop(seats);
    go(
        alloc,
        &ring,
        &mut first,
        &mut second,
        &mut flusher,
        trial,
        findings,
    );
    drop(first);
    drop(second);
    drop(ring);
    flusher.into_disk()
}

// A flusher of a journal that was just opened, before a new ring.
fn go_on<D: Disk + Drop>(
    alloc: Global,
    store: Store<D>,
    trial: Trial,
    findings: &mut Findings,
) -> Option<D>
    requires whole { is_broken store ≡ false }
    requires opened { IsSome (opened_by store) }
    requires small { IfSome (opened_by store) (λ broker. (broker.state.count ≤ 2 ^ 61) × (broker.broken ≡ false)) }
    requires stands { D.Disk.honest (disk_of store) → IfSome (opened_by store) (λ broker. StandFor (D.Disk.images (disk_of store)) broker.state) }
{
    let mut store = store;
    let broker = store.broker().unwrap();
    match Ring::new(alloc, broker.count()) {
        Ok((ring, seats, seat)) => {
            let flusher = Flusher::new(alloc, store, broker, seat);
            Some(go_at(alloc, ring, seats, flusher, trial, findings))
        }
        Err(_) => {
            drop(broker);
            drop(store);
            None
        }
    }
}

// The same over a disk with a journal.
fn go_over<D: Disk + Drop>(
    alloc: Global,
    disk: D,
    trial: Trial,
    findings: &mut Findings,
) -> Option<D> {
    match open(alloc, disk) {
        Ok(store) => go_on(alloc, store, trial, findings),
        Err((disk, _)) => {
            drop(disk);
            None
        }
    }
}

fn try_over(alloc: Global, disk: MemDisk, trial: Trial, findings: &mut Findings) {
    let mut disk = disk;
    // A disk that is not formatted is not opened.
    let _ = format(alloc, &mut disk, u64::from(trial.area)).is_ok();
    let disk = FailOnce::new(FuseDisk::new(disk, trial.passed), trial.failing);
    if let Some(disk) = go_over(alloc, disk, trial, findings) {
        stop(alloc, disk, trial.fill, findings);
    }
}

/// Tries it, and looks at all.
pub(crate) fn try_out(alloc: Global, trial: Trial, findings: &mut Findings) {
    findings.clear();
    match MemDisk::new(
        alloc,
        u64::from(trial.area).saturating_mul(2).saturating_add(32),
    ) {
        Ok(disk) => try_over(alloc, disk, trial, findings),
        Err(_) => {}
    }
}

/// How many calls are made of the disk before the deed of a trial.
pub(crate) fn calls_before(alloc: Global, trial: Trial, findings: &mut Findings) -> u64 {
    try_out(
        alloc,
        Trial {
            deed: Deed::Nothing,
            ..trial
        },
        findings,
    );
    findings.made
}

/// The two assertions of almost all tests. In a function of their own they are proved once.
pub(crate) fn expect(rt: &impl Abort, is_right: bool) {
    assert!(rt; is_right);
}

pub(crate) fn expect_none(rt: &impl Abort, wrong: Option<u64>) {
    assert_eq!(rt; wrong, None);
}

pub(crate) type TestRing = BrokerRing<OutSender<Silent>>;

pub(crate) type TestSeat = BrokerSeat<OutSender<Silent>>;

/// Blocks of at most 32 commands, which go on up to 262,144 bytes.
pub(crate) struct TestWidth;

impl Width for TestWidth {
    const COMMANDS: usize = 32;

    const BYTES: u64 = 262_144;

    ghost COMMANDS = { 32 };

    ghost BYTES = { 262144 };
}

pub(crate) type TestFlusher<D> = Flusher<D, Silent, TestWidth>;

/// A disk of which one call may fail, and which may stop for good.
pub(crate) type TestDisk = FailOnce<FuseDisk<MemDisk>>;

/// A SEND of the first session to a destination, with a body of so many bytes, 65,536 at most.
pub(crate) fn send_to(alloc: Global, destination: &str, bytes: usize) -> Option<Command> {
    if bytes > 65_536 {
        return None;
    }
    let mut body = Vec::new(alloc);
    if body.resize(bytes, b'x').is_err() {
        return None;
    }
    match Dest::read(alloc, destination) {
        Ok(destination) => {
            let sending = Sending::new(
                destination,
                Headers::new(Vec::new(alloc)),
                Bytes::new(body),
            );
            Some(Command::new(0, Op::Send(sending), None))
        }
        Err(_) => None,
    }
}

/// Appends a command, and answers its ticket or why it was refused.
pub(crate) fn append_command(
    alloc: Global,
    ring: &TestRing,
    seat: &mut TestSeat,
    command: Command,
) -> Option<Result<u64, Refused>>
    requires { seat.old.ring ≡ ring.now }
    ensures { seat.new.ring ≡ ring.now }
{
    match Entry::new(alloc, command, None) {
        Ok(entry) => match ring.append(seat, entry) {
            Ok(ticket) => Some(Ok(ticket)),
            Err((_, refused)) => Some(Err(refused)),
        },
        Err(_) => None,
    }
}

/// The same with the command of a record.
pub(crate) fn append(
    alloc: Global,
    ring: &TestRing,
    seat: &mut TestSeat,
    record: &[u8],
) -> Option<Result<u64, Refused>>
    requires { seat.old.ring ≡ ring.now }
    ensures { seat.new.ring ≡ ring.now }
{
    match decode(alloc, record) {
        Ok((command, _)) => append_command(alloc, ring, seat, command),
        Err(_) => None,
    }
}

/// The same with a SEND to `/queue/q`, whose body has so many bytes.
pub(crate) fn append_send(
    alloc: Global,
    ring: &TestRing,
    seat: &mut TestSeat,
    bytes: usize,
) -> Option<Result<u64, Refused>>
    requires { seat.old.ring ≡ ring.now }
    ensures { seat.new.ring ≡ ring.now }
{
    match send_to(alloc, "/queue/q", bytes) {
        Some(command) => append_command(alloc, ring, seat, command),
        None => None,
    }
}

/// What has been done before. All but what `Sent` sends is durable.
#[derive(Clone, Copy)]
pub(crate) enum Beginning {
    /// Both sessions are open.
    Opened,
    /// They are, and three messages wait in the ring.
    Sent,
    /// They are. The first has so many messages of 40,000 bytes, and has acknowledged none.
    Held(u32),
    /// They are. So many messages of 1,000 bytes wait in a queue that nobody takes from.
    Stuck(u32),
    /// The first has opened and subscribed in one batch. So many messages of 1,000 bytes came to it and are gone.
    Passed(u32),
}

// A turn makes so many commands durable, and answers how many outputs went to no box.
fn turns<D: Disk>(
    alloc: Global,
    ring: &TestRing,
    flusher: &mut TestFlusher<D>,
    commands: u64,
) -> Option<usize>
    requires { (flusher.old.seat.ring ≡ ring.now) × (flusher.old.executed ≡ flusher.old.stored) }
    ensures { IfSome result (λ _. (flusher.new.seat.ring ≡ ring.now) × (flusher.new.executed ≡ flusher.new.stored)) }
{
    match flusher.turn(alloc, ring) {
        Ok(count) if count == commands => {
            let left = flusher.take_left();
            let count = left.len();
            drop(left);
            Some(count)
        }
        _ => None,
    }
}

// Both sessions open, which is a turn of its own.
fn open_both<D: Disk>(
    alloc: Global,
    ring: &TestRing,
    first: &mut TestSeat,
    second: &mut TestSeat,
    flusher: &mut TestFlusher<D>,
) -> bool
    requires seats { (first.old.ring ≡ ring.now) × (second.old.ring ≡ ring.now) }
    requires flusher { (flusher.old.seat.ring ≡ ring.now) × (flusher.old.executed ≡ flusher.old.stored) }
    ensures seats { (first.new.ring ≡ ring.now) × (second.new.ring ≡ ring.now) }
    ensures flusher { IsTrue result → (flusher.new.seat.ring ≡ ring.now) × (flusher.new.executed ≡ flusher.new.stored) }
{
    let one = append(alloc, ring, first, OPEN);
    let other = append(alloc, ring, second, OPEN);
    if one != Some(Ok(0)) || other != Some(Ok(1)) {
        return false;
    }
    matches!(turns(alloc, ring, flusher, 2), Some(2))
}

// They send in turn.
fn send_three(alloc: Global, ring: &TestRing, first: &mut TestSeat, second: &mut TestSeat) -> bool
    requires { (first.old.ring ≡ ring.now) × (second.old.ring ≡ ring.now) }
    ensures { (first.new.ring ≡ ring.now) × (second.new.ring ≡ ring.now) }
{
    let x = append(alloc, ring, first, FIRST_SEND);
    let y = append(alloc, ring, second, SECOND_SEND);
    let z = append(alloc, ring, first, LAST_SEND);
    x == Some(Ok(2)) && y == Some(Ok(3)) && z == Some(Ok(4))
}

// The first session subscribes, and acknowledges.
fn subscribe<D: Disk>(
    alloc: Global,
    ring: &TestRing,
    first: &mut TestSeat,
    flusher: &mut TestFlusher<D>,
) -> bool
    requires seat { first.old.ring ≡ ring.now }
    requires flusher { (flusher.old.seat.ring ≡ ring.now) × (flusher.old.executed ≡ flusher.old.stored) }
    ensures seat { first.new.ring ≡ ring.now }
    ensures flusher { IsTrue result → (flusher.new.seat.ring ≡ ring.now) × (flusher.new.executed ≡ flusher.new.stored) }
{
    let answer = append(alloc, ring, first, SUBSCRIBE);
    matches!(answer, Some(Ok(_))) && matches!(turns(alloc, ring, flusher, 1), Some(_))
}

// It opens and subscribes in one batch.
fn accept<D: Disk>(
    alloc: Global,
    ring: &TestRing,
    first: &mut TestSeat,
    flusher: &mut TestFlusher<D>,
) -> bool
    requires seat { first.old.ring ≡ ring.now }
    requires flusher { (flusher.old.seat.ring ≡ ring.now) × (flusher.old.executed ≡ flusher.old.stored) }
    ensures seat { first.new.ring ≡ ring.now }
    ensures flusher { IsTrue result → (flusher.new.seat.ring ≡ ring.now) × (flusher.new.executed ≡ flusher.new.stored) }
{
    let opened = append(alloc, ring, first, OPEN);
    let subscribed = append(alloc, ring, first, SUBSCRIBE_AUTO);
    if opened != Some(Ok(0)) || subscribed != Some(Ok(1)) {
        return false;
    }
    matches!(turns(alloc, ring, flusher, 2), Some(_))
}

// It sends a body of so many bytes, so many times, each in a turn.
fn sends_often<D: Disk>(
    alloc: Global,
    ring: &TestRing,
    first: &mut TestSeat,
    flusher: &mut TestFlusher<D>,
    bytes: usize,
    times: u32,
) -> bool
    requires seat { first.old.ring ≡ ring.now }
    requires flusher { (flusher.old.seat.ring ≡ ring.now) × (flusher.old.executed ≡ flusher.old.stored) }
    ensures seat { first.new.ring ≡ ring.now }
    ensures flusher { IsTrue result → (flusher.new.seat.ring ≡ ring.now) × (flusher.new.executed ≡ flusher.new.stored) }
{
    for _ in 0..times {
        let Some(Ok(_)) = append_send(alloc, ring, first, bytes) else {
            return false;
        };
        let Some(_) = turns(alloc, ring, flusher, 1) else {
            return false;
        };
    }
    true
}

/// Makes a beginning, and answers whether that was done.
pub(crate) fn begin<D: Disk>(
    alloc: Global,
    ring: &TestRing,
    first: &mut TestSeat,
    second: &mut TestSeat,
    flusher: &mut TestFlusher<D>,
    beginning: Beginning,
) -> bool
    requires seats { (first.old.ring ≡ ring.now) × (second.old.ring ≡ ring.now) }
    requires flusher { (flusher.old.seat.ring ≡ ring.now) × (flusher.old.executed ≡ flusher.old.stored) }
    ensures seats { (first.new.ring ≡ ring.now) × (second.new.ring ≡ ring.now) }
    ensures flusher { IsTrue result → (flusher.new.seat.ring ≡ ring.now) × (flusher.new.executed ≡ flusher.new.stored) }
{
    if let Beginning::Passed(times) = beginning {
        return accept(alloc, ring, first, flusher)
            && sends_often(alloc, ring, first, flusher, 1_000, times);
    }
    if !open_both(alloc, ring, first, second, flusher) {
        return false;
    }
    match beginning {
        Beginning::Sent => send_three(alloc, ring, first, second),
        Beginning::Held(times) => {
            subscribe(alloc, ring, first, flusher)
                && sends_often(alloc, ring, first, flusher, 40_000, times)
        }
        Beginning::Stuck(times) => sends_often(alloc, ring, first, flusher, 1_000, times),
        _ => true,
    }
}
