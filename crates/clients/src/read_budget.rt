//! The socket of a client, which is read in portions, and never in vain.

ghost use Rattle.std.specs.Prelude.{◌≡◌, ◌≤◌, ◌+◌, ◌-◌, ◌^◌, [], false, true, IfOk, OnErr, length, min, ◌≢◌, ◌<◌, take};
ghost use Rattle.std.specs.Io.{ReadsAtMost, WritesAtMost};
ghost use Rattle.std.specs.Io.KnownBytes.{Keeps, ReadConsumes, WriteAppends};
ghost use Rattle.clients.specs.declared.read_budget.TheConstants.{FRAMES, READS};
ghost use Rattle.clients.specs.Supplies.{drained, is_dry, leaves_nothing, reported_after, reported_by, with_reported};
ghost use Rattle.clients.specs.Frames.{Passes, behind_second, ended, is_front, passed, step};

use mio::event::Event;
use mio::net::TcpStream;
use std::alloc::{AllocError, Global};
use std::cell::Cell;
use std::io::{ErrorKind, Read, Write};
use std::marker::Model;
use std::net::Shutdown;
use std::{io, mem};
use ws_core::Ending;

/// How many reads that gave bytes make a portion. A link reads 4,096 bytes at a time. The other clients of the worker wait for as long as
/// it takes to read that many of the smallest fragments.
const READS: u32 = 1;

/// How many frames of its WebSocket end in a portion at most. One has six bytes at least, so a read may bring 682.
const FRAMES: u32 = 64;

/// How many bytes are dropped at a time that come after a close.
const DROPPED: usize = 16_384;

/// How many bytes the mask of a client's frame has (RFC 6455, section 5.3).
const MASK: u64 = 4;

/// What the stream of a client reports after a turn.
#[derive(Clone, Copy)]
pub struct Flow {
    /// How many bytes its socket took in all.
    pub taken: u64,
    /// Whether its last read found the end of a portion: then the socket was not asked, and more may be there.
    pub has_rest: bool,
}

/// A stream of which frames are counted. Only `count_frames` makes one, so whoever has it has called that. Contracts see
/// whether it counts them.
#[derive(Drop)]
pub struct Framed {
    is_framed: bool,
}

impl Model for Framed {
    ghost use Rattle.std.specs.Prelude.{Bool};

    ghost Value = { Bool };

    ghost view = { λ a. a.is_framed };
}

/// A socket that answers that it has nothing to give after `READS` reads that gave bytes, though it may have more. So a caller that reads
/// until there is nothing comes to an end, whatever a client sends. For a client may send fragments of a WebSocket's message without end
/// (RFC 6455, section 5.4). `flow` has whether there may be more, since the poll does not report it again. It also has how many bytes the
/// socket took, from which a worker sees whether its client takes anything.
///
/// Once frames are counted, the 64th ends a portion too. What was read behind it is kept for the next one; if memory is refused for that, it
/// is given.
///
/// Nor is a socket asked in vain. A read that gave fewer bytes than it asked for has left a stream empty, and so has one that gave none for
/// now (epoll(7), on edge-triggered polls). From then on reads answer `WouldBlock` without asking the socket, until `note_report` is called with
/// what the poll reports. Once its end or a failure was reported, it is asked each time, since the poll doesn't report that again. For a read that
/// gave fewer bytes may have left the end. A client may mark bytes as urgent, though by RFC 6093 none should. It may be read up to
/// its mark, and beyond only once it sends more.
///
/// Contracts see the socket; how many reads that give bytes are left of the portion, one at most; what there may be to read; and what the
/// flow is. Each read that gives bytes takes one away, and one that gives none begins another portion. No contract sees what the poll has
/// reported since the last read.
#[derive(Drop)]
pub struct ReadBudget<S> {
    alloc: Global,
    socket: S,
    left: u32,
    flow: Flow,
    supply: Supply,
    // What the poll has reported since the last read.
    reported: Cell<Reported>,
    // How many bytes its socket gave in all.
    given: u64,
    // Whether what comes is frames, how far it has come in one, and what was read and not given.
    is_framed: Cell<bool>,
    place: FrameProgress,
    spare: Vec<u8>,
    ghost most: { left ≤ READS },
}

impl<S: Drop> ReadBudget<S> {
    ghost use Rattle.clients.specs.declared.read_budget.Supply.{Supply};

    /// A budget over that socket, of which nothing is known yet.
    pub fn new(alloc: Global, socket: S) -> ReadBudget<S>
        ensures given { result.given ≡ 0 }
        ensures begins { (result.socket ≡ socket) × (result.left ≡ READS) × (result.supply ≡ Supply.Unknown) × (result.flow ≡ record { taken = 0; has_rest = false }) }
        ensures spare { result.spare.items ≡ [] }
    {
        ReadBudget {
            alloc,
            socket,
            left: READS,
            flow: Flow {
                taken: 0,
                has_rest: false,
            },
            supply: Supply::Unknown,
            reported: Cell::new(Reported::Nothing),
            given: 0,
            is_framed: Cell::new(false),
            place: FrameProgress::Front,
            spare: Vec::new(alloc),
        }
    }

    /// What the stream reports now.
    pub fn flow(&self) -> Flow
        ensures { result ≡ self.now.flow }
    {
        self.flow
    }

    /// From now on what comes is frames, and the first of them is still to begin.
    pub fn count_frames(&self) -> Framed
        ensures { result ≡ true }
    {
        let framed = Framed { is_framed: true };
        self.is_framed.set(framed.is_framed);
        framed
    }

    /// The poll has reported this of the socket, which the next read takes into account. An end that was reported stays.
    pub fn note_report(&self, reported: Reported) {
        let all = reported_after(self.reported.get(), reported);
        self.reported.set(all);
    }
}

impl<S: Read> ReadBudget<S> {
    ghost use Rattle.std.specs.Prelude.{◌≢◌};
    ghost use Rattle.clients.specs.ReadBudget.{Asks, Declines, Reads, left_in};

    // Reads, if the poll has reported this since the last read.
    fn read_reported(
        &mut self,
        reported: Reported,
        is_framed: bool,
        buf: &mut [u8],
    ) -> io::Result<usize>
        ensures bound { ReadsAtMost result buf.new }
        ensures bytes { ReadConsumes (left_in S.remaining self.old) (left_in S.remaining self.new) result buf.new }
        ensures reads { Reads reported (length buf.old) self.old self.new result }
    {
        self.supply = supply_with(self.supply, reported);
        if self.spare.is_empty() && is_dry(self.supply) {
            return self.decline(false);
        }
        if self.left == 0 {
            return self.decline(true);
        }
        self.flow.has_rest = false;
        if self.spare.is_empty() {
            self.ask(is_framed, buf)
        } else {
            Ok(self.give(buf))
        }
    }

    // Asks the socket. Of frames it gives those of a portion.
    fn ask(&mut self, is_framed: bool, buf: &mut [u8]) -> io::Result<usize>
        requires spare { self.old.spare.items ≡ [] }
        requires left { self.old.left ≢ 0 }
        ensures bound { ReadsAtMost result buf.new }
        ensures bytes { ReadConsumes (left_in S.remaining self.old) (left_in S.remaining self.new) result buf.new }
        ensures asks { Asks (length buf.old) self.old self.new result }
    {
        let asked = buf.len();
        let outcome = self.socket.read(buf);
        self.left = if outcome.is_ok() {
            self.left - 1
        } else {
            READS
        };
        self.supply = supply_behind(self.supply, asked, &outcome);
        match outcome {
            Ok(count) => {
                self.given = self.given.saturating_add(count as u64);
                Ok(self.portion(is_framed, &buf[..count]))
            }
            Err(error) => Err(error),
        }
    }

    // Gives nothing and asks for nothing, at the end of a portion or not.
    fn decline(&mut self, has_rest: bool) -> io::Result<usize>
        ensures declines { Declines has_rest self.old self.new result }
        ensures same { (self.new.supply ≡ self.old.supply) × (self.new.flow.taken ≡ self.old.flow.taken) }
        ensures given { self.new.given ≡ self.old.given }
    {
        self.left = READS;
        self.flow.has_rest = has_rest;
        Err(io::Error::from(ErrorKind::WouldBlock))
    }
}

impl<S> ReadBudget<S> {
    ghost use Rattle.std.specs.Prelude.{◌≢◌, ◌<◌, OnOk, drop, take};
    ghost use Rattle.clients.specs.Frames.{ended, passed};
    ghost use Rattle.clients.specs.ReadBudget.{IsPortion, IsSame};

    // How many of the bytes that were read are given; the others are kept. If memory is refused for these, all are given.
    fn portion(&mut self, is_framed: bool, bytes: &[u8]) -> usize
        requires { self.old.spare.items ≡ [] }
        ensures { IsPortion bytes.now self.old self.new result }
    {
        if !is_framed {
            return bytes.len();
        }
        match self.keep(bytes) {
            Ok(count) => count,
            Err(_) => bytes.len(),
        }
    }

    // The same of frames.
    fn keep(&mut self, bytes: &[u8]) -> Result<usize, AllocError>
        requires { self.old.spare.items ≡ [] }
        ensures portion { IfOk result (IsPortion bytes.now self.old self.new) }
        ensures place { IfOk result (λ count. self.new.place ≡ passed self.old.place (take count bytes.now)) }
        ensures most { IfOk result (λ count. ended self.old.place (take count bytes.now) ≤ FRAMES) }
        ensures err { OnErr result ((self.new.spare.items ≡ []) × IsSame self.old self.new) }
    {
        let mut place = self.place;
        let count = front_of(&mut place, FRAMES, bytes);
        let rest = &bytes[count..];
        match self.set_aside(rest) {
            Ok(()) => {
                self.place = place;
                Ok(count)
            }
            Err(refused) => {
                let _ = front_of(&mut place, u32::MAX, rest);
                self.place = place;
                Err(refused)
            }
        }
    }

    // Keeps these bytes.
    fn set_aside(&mut self, bytes: &[u8]) -> Result<(), AllocError>
        requires { self.old.spare.items ≡ [] }
        ensures ok { OnOk result (self.new.spare.items ≡ bytes.now) }
        ensures err { OnErr result (self.new.spare.items ≡ []) }
        ensures same { IsSame self.old self.new }
    {
        if bytes.is_empty() {
            return Ok(());
        }
        let spare = bytes.to_vec(self.alloc)?;
        drop(mem::replace(&mut self.spare, spare));
        Ok(())
    }

    // Gives a portion of what was read before.
    fn give(&mut self, buf: &mut [u8]) -> usize
        requires spare { self.old.spare.items ≢ [] }
        requires left { self.old.left ≢ 0 }
        ensures within { (result ≤ length buf.new) × (0 < length buf.new → 0 < result) }
        ensures given { take result buf.new ≡ take result self.old.spare.items }
        ensures spare { self.new.spare.items ≡ drop result self.old.spare.items }
        ensures most { ended self.old.place (take result self.old.spare.items) ≤ FRAMES }
        ensures left { self.new.left + 1 ≡ self.old.left }
        ensures same { (self.new.socket ≡ self.old.socket) × (self.new.flow ≡ self.old.flow) × (self.new.supply ≡ self.old.supply) }
        ensures count { self.new.given ≡ self.old.given }
    {
        let spare = mem::replace(&mut self.spare, Vec::new(self.alloc));
        let there = spare.len().min(buf.len());
        let mut place = self.place;
        let count = front_of(&mut place, FRAMES, &spare[..there]);
        buf[..count].copy_from_slice(&spare[..count]);
        self.place = place;
        self.left -= 1;
        self.keep_on(spare, count);
        count
    }

    // Keeps the bytes after the first `count`.
    fn keep_on(&mut self, spare: Vec<u8>, count: usize)
        requires within { count ≤ length spare.items }
        requires none { self.old.spare.items ≡ [] }
        ensures spare { self.new.spare.items ≡ drop count spare.items }
        ensures same { IsSame self.old self.new }
        ensures place { self.new.place ≡ self.old.place }
    {
        let mut spare = spare;
        if count == spare.len() {
            drop(spare);
            return;
        }
        spare.drain(..count);
        drop(mem::replace(&mut self.spare, spare));
    }
}

impl<S: Read> Read for ReadBudget<S> {
    ghost use Rattle.clients.specs.ReadBudget.{Reads, left_in};
    ghost use Rattle.clients.specs.declared.read_budget.Reported.{Reported};

    ghost remaining = { λ p. left_in S.remaining p };

    fn read(&mut self, buf: &mut [u8]) -> io::Result<usize>
        ensures bound { ReadsAtMost result buf.new }
        ensures bytes { ReadConsumes (left_in S.remaining self.old) (left_in S.remaining self.new) result buf.new }
        ensures reads { (reported : Reported) × Reads reported (length buf.old) self.old self.new result }
    {
        let reported = self.reported.get();
        self.reported.set(Reported::Nothing);
        let is_framed = self.is_framed.get();
        self.read_reported(reported, is_framed, buf)
    }
}

impl<S: Write> Write for ReadBudget<S> {
    ghost contents = { λ p. S.contents p.socket };

    fn write(&mut self, buf: &[u8]) -> io::Result<usize>
        ensures bound { WritesAtMost result buf.now }
        ensures bytes { WriteAppends (S.contents self.old.socket) (S.contents self.new.socket) result buf.now }
        ensures counts { IfOk result (λ count. self.new.flow.taken ≡ min (self.old.flow.taken + count) (2 ^ 64 - 1)) }
        ensures none { OnErr result (self.new.flow.taken ≡ self.old.flow.taken) }
        ensures same { (self.new.flow.has_rest ≡ self.old.flow.has_rest) × (self.new.left ≡ self.old.left) × (self.new.supply ≡ self.old.supply) }
        ensures given { self.new.given ≡ self.old.given }
    {
        let outcome = self.socket.write(buf);
        if let Ok(count) = outcome {
            self.flow.taken = self.flow.taken.saturating_add(count as u64);
        }
        outcome
    }

    fn flush(&mut self) -> io::Result<()>
        ensures bytes { Keeps (S.contents self.old.socket) (S.contents self.new.socket) }
        ensures same { (self.new.flow ≡ self.old.flow) × (self.new.left ≡ self.old.left) × (self.new.supply ≡ self.old.supply) }
        ensures given { self.new.given ≡ self.old.given }
    {
        self.socket.flush()
    }
}

impl Ending for ReadBudget<TcpStream> {
    ghost count_given = { λ p. p.given };

    fn drop_some(&self) -> io::Result<usize> {
        let mut some = [0u8; DROPPED];
        (&self.socket).read(&mut some)
    }

    fn shut_down(&self) -> io::Result<()> {
        self.socket.shutdown(Shutdown::Write)
    }

    fn given(&self) -> u64 {
        self.given
    }
}

/// What the poll has reported of a socket since it was read last.
#[derive(Clone, Copy)]
pub enum Reported {
    /// Nothing that a read would find.
    Nothing,
    /// That there are bytes.
    Bytes,
    /// That its peer sends no more, or that it has failed. A read finds that after the bytes that came before.
    End,
}

/// What there may be to read.
#[derive(Clone, Copy)]
pub enum Supply {
    /// Perhaps bytes, which the poll need not report again.
    Unknown,
    /// Nothing, until the poll reports some.
    Dry,
    /// Bytes, and then the end. The poll reports neither again.
    Ending,
}

/// What the poll reports of a socket that is to be read. Each flag that a read may answer to counts, whether or not it reports that there
/// are bytes.
pub fn reported_by(event: &Event) -> Reported
    ensures { result ≡ reported_by event.now }
{
    if event.is_read_closed() || event.is_write_closed() || event.is_error() {
        Reported::End
    } else if event.is_readable() {
        Reported::Bytes
    } else {
        Reported::Nothing
    }
}

/// What the poll has reported since the last read, once it has reported this after that. An end that was reported stays.
pub(crate) fn reported_after(before: Reported, reported: Reported) -> Reported
    ensures { result ≡ reported_after before reported }
{
    match (before, reported) {
        (Reported::End, _) | (_, Reported::Nothing) => before,
        (_, reported) => reported,
    }
}

/// What there may be to read once the poll has reported this.
pub(crate) fn supply_with(supply: Supply, reported: Reported) -> Supply
    ensures { result ≡ with_reported reported supply }
{
    match (supply, reported) {
        (Supply::Ending, _) | (_, Reported::End) => Supply::Ending,
        (_, Reported::Bytes) => Supply::Unknown,
        (supply, Reported::Nothing) => supply,
    }
}

/// Whether a read does not ask the socket.
pub(crate) fn is_dry(supply: Supply) -> bool
    ensures { result ≡ is_dry supply }
{
    matches!(supply, Supply::Dry)
}

/// What there may be to read after a read that asked for `asked` bytes and came to this.
pub(crate) fn supply_behind(supply: Supply, asked: usize, outcome: &io::Result<usize>) -> Supply
    ensures { result ≡ drained asked outcome.now supply }
{
    if matches!(supply, Supply::Unknown) && leaves_nothing(asked, outcome) {
        Supply::Dry
    } else {
        supply
    }
}

// Whether a read that asked for `asked` bytes has found that there are no more now. One that gave none has found the end.
fn leaves_nothing(asked: usize, outcome: &io::Result<usize>) -> bool
    ensures { result ≡ leaves_nothing asked outcome.now }
{
    match outcome {
        Ok(count) => 0 < *count && *count < asked,
        Err(error) => matches!(error.kind(), ErrorKind::WouldBlock),
    }
}

/// How far a stream has come in a frame of a client (section 5.2).
#[derive(Clone, Copy)]
pub enum FrameProgress {
    /// Before a frame.
    Front,
    /// Behind its first byte. The next one is the length of its payload, or of that length.
    Second,
    /// In its length: that many bytes of it are to come, and those before have this value.
    Length(u32, u64),
    /// Before that many bytes of its mask and its payload.
    Payload(u64),
}

/// How many of these bytes come up to the end of the frame of number `most`: all, if fewer frames end there.
pub(crate) fn front_of(place: &mut FrameProgress, most: u32, bytes: &[u8]) -> usize
    ensures within { result ≤ length bytes.now }
    ensures place { place.new ≡ passed place.old (take result bytes.now) }
    ensures most { ended place.old (take result bytes.now) ≤ most }
    ensures all { ended place.old (take result bytes.now) < most → result ≡ length bytes.now }
{
    let mut rest = bytes;
    let mut left = most;
    while !rest.is_empty() && left > 0 {
        let count = pass(place, &mut left, rest);
        rest = &rest[count..];
    }
    bytes.len() - rest.len()
}

// Passes what there is of a payload, or else a byte, and answers how many bytes these are.
fn pass(place: &mut FrameProgress, left: &mut u32, bytes: &[u8]) -> usize
    requires some { bytes.now ≢ [] }
    requires left { 0 < left.old }
    ensures some { 0 < result }
    ensures passes { Passes place.old place.new left.old left.new bytes.now result }
{
    match *place {
        FrameProgress::Payload(count) if count > 1 => pass_payload(place, count, left, bytes),
        _ => {
            *place = step(*place, bytes[0]);
            if is_front(*place) {
                *left -= 1;
            }
            1
        }
    }
}

// Passes what there is of `count` bytes.
fn pass_payload(place: &mut FrameProgress, count: u64, left: &mut u32, bytes: &[u8]) -> usize
    requires some { bytes.now ≢ [] }
    requires left { 0 < left.old }
    requires place { place.old ≡ FrameProgress.Payload count }
    requires count { 1 < count }
    ensures some { 0 < result }
    ensures passes { Passes place.old place.new left.old left.new bytes.now result }
{
    let there = bytes.len() as u64;
    if there < count {
        *place = FrameProgress::Payload(count - there);
        return bytes.len();
    }
    *place = FrameProgress::Front;
    *left -= 1;
    count as usize
}

// Behind one byte more.
fn step(place: FrameProgress, byte: u8) -> FrameProgress
    ensures { result ≡ step place byte }
{
    match place {
        FrameProgress::Front => FrameProgress::Second,
        FrameProgress::Second => behind_second(byte % 128),
        FrameProgress::Length(count, before) => {
            let length = before.saturating_mul(256).saturating_add(u64::from(byte));
            if count > 1 {
                FrameProgress::Length(count - 1, length)
            } else {
                FrameProgress::Payload(length.saturating_add(MASK))
            }
        }
        FrameProgress::Payload(count) if count > 1 => FrameProgress::Payload(count - 1),
        FrameProgress::Payload(_) => FrameProgress::Front,
    }
}

// Behind the second byte, which has this for the length.
fn behind_second(length: u8) -> FrameProgress
    requires { length < 128 }
    ensures { result ≡ behind_second length }
{
    match length {
        126 => FrameProgress::Length(2, 0),
        127 => FrameProgress::Length(8, 0),
        length => FrameProgress::Payload(MASK + u64::from(length)),
    }
}

// Whether a frame has just ended.
fn is_front(place: FrameProgress) -> bool
    ensures { result ≡ is_front place }
{
    matches!(place, FrameProgress::Front)
}
