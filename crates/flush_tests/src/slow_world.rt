//! A world computed slowly, by the description of events and of the journal's bytes. Its only command is an Open, whose
//! record has 11 bytes.
use crate::schedule_tests::AREA;
use std::alloc::{AllocError, Global};
use world_core::{Call, CallKind, CallList, LastCall, Period};

/// The record of an Open without a client's name.
const RECORD: [u8; 11] = [0, 0, 0, 0, 0, 0, 0, 0, 0, 1, 0];

#[derive(Drop)]
pub(crate) struct SlowWorld {
    pub(crate) base: u64,
    // The seat that claimed each number from the base on, and whether its command is ready.
    claims: Vec<(usize, bool)>,
    pub(crate) taken: u64,
    pub(crate) stored: u64,
    pub(crate) mark: u64,
    // The mark that each seat saw last.
    seen: [u64; 64],
    phase: Period,
    place: LastCall,
    pub(crate) content: Vec<u8>,
    // The range that is unsynced, from one place up to another.
    pub(crate) unsynced: (usize, usize),
}

// What a restart leaves is only the count: 32 bytes, of which the first eight are not zero. A closed gate comes after it. Before it stand
// the byte of the second version and how many bytes follow.
fn front_of(count: u64) -> [u8; 41] {
    let mut front = [0; 41];
    front[..8].copy_from_slice(&32_u64.to_be_bytes());
    front[0] = 2;
    front[8..16].copy_from_slice(&count.to_be_bytes());
    front
}

fn number_at(bytes: &[u8], at: usize) -> u64 {
    let mut number = 0_u64;
    for i in 0..8 {
        let byte = byte_at(bytes, at.saturating_add(i));
        number = number.wrapping_mul(256).wrapping_add(u64::from(byte));
    }
    number
}

fn byte_at(bytes: &[u8], at: usize) -> u8 {
    if at < bytes.len() { bytes[at] } else { 0 }
}

impl SlowWorld {
    /// A world that has just begun, over no bytes yet.
    pub(crate) fn new(alloc: Global) -> SlowWorld {
        SlowWorld {
            base: 0,
            claims: Vec::new(alloc),
            taken: 0,
            stored: 0,
            mark: 0,
            seen: [0; 64],
            phase: Period::Running,
            place: LastCall::Rest,
            content: Vec::new(alloc),
            unsynced: (0, 0),
        }
    }

    /// It begins with these bytes.
    pub(crate) fn begin(&mut self, content: &[u8]) -> Result<(), AllocError> {
        self.content.extend_from_slice(content)
    }

    /// It begins with these bytes, after a life that had that many commands and crashed.
    pub(crate) fn begin_crashed(&mut self, content: &[u8], count: u64) -> Result<(), AllocError> {
        self.begin(content)?;
        self.restart(count);
        self.phase = Period::Crashed;
        self.place = LastCall::Broken;
        Ok(())
    }

    fn restart(&mut self, count: u64) {
        self.base = count;
        self.taken = count;
        self.stored = count;
        self.mark = count;
        self.claims.clear();
        self.seen = [count; 64];
    }

    pub(crate) fn claimed(&self) -> u64 {
        self.base.saturating_add(self.claims.len() as u64)
    }

    pub(crate) fn is_running(&self) -> bool {
        self.phase == Period::Running
    }

    pub(crate) fn look(&mut self, j: usize) -> bool {
        if self.phase == Period::Crashed || j >= 64 {
            return false;
        }
        self.seen[j] = self.mark;
        true
    }

    // The place of the last claim of a seat.
    fn last_of(&self, j: usize) -> Option<usize> {
        let mut last = None;
        for (place, (seat, _)) in self.claims.iter().enumerate() {
            if *seat == j {
                last = Some(place);
            }
        }
        last
    }

    fn is_ready(&self, place: usize) -> Option<bool> {
        if place < self.claims.len() {
            Some(self.claims[place].1)
        } else {
            None
        }
    }

    // How many commands of a seat are not under the mark that it saw.
    fn waiting(&self, j: usize) -> usize {
        let seen = if j < 64 { self.seen[j] } else { 0 };
        let mut count = 0_usize;
        for (place, (seat, _)) in self.claims.iter().enumerate() {
            if *seat == j && self.base.saturating_add(place as u64) >= seen {
                count = count.saturating_add(1);
            }
        }
        count
    }

    pub(crate) fn claim(&mut self, j: usize) -> Result<bool, AllocError> {
        if !self.is_running() || j >= 64 || self.waiting(j) >= 16 {
            return Ok(false);
        }
        if let Some(last) = self.last_of(j) {
            if self.is_ready(last) != Some(true) {
                return Ok(false);
            }
        }
        self.claims.push((j, false))?;
        Ok(true)
    }

    pub(crate) fn ready(&mut self, j: usize) -> bool {
        let Some(last) = self.last_of(j) else {
            return false;
        };
        if !self.is_running() || self.is_ready(last) != Some(false) {
            return false;
        }
        if last < self.claims.len() {
            self.claims[last] = (j, true);
        }
        true
    }

    pub(crate) fn take(&mut self) -> bool {
        let place = self.taken.saturating_sub(self.base) as usize;
        if !self.is_running() || self.is_ready(place) != Some(true) {
            return false;
        }
        self.taken = self.taken.saturating_add(1);
        true
    }

    pub(crate) fn raise(&mut self, n: u64) -> bool {
        if !self.is_running() || n < self.mark || n > self.stored {
            return false;
        }
        self.mark = n;
        true
    }

    pub(crate) fn release(&self, j: usize, n: u64) -> bool {
        self.phase != Period::Crashed && j < 64 && n < self.seen[j]
    }

    pub(crate) fn stop(&self) -> bool {
        self.is_running()
    }

    /// Whether a stop may leave another byte at this place.
    pub(crate) fn is_free(&self, at: usize) -> bool {
        self.unsynced.0 <= at && at < self.unsynced.1
    }

    pub(crate) fn crash(&mut self, at: usize, byte: u8) -> bool {
        if at < self.content.len() && self.content[at] != byte {
            if !self.is_free(at) {
                return false;
            }
            self.content[at] = byte;
        }
        self.unsynced = (0, 0);
        self.phase = Period::Crashed;
        self.place = LastCall::Broken;
        true
    }

    fn live(&self) -> usize {
        if byte_at(&self.content, 16) % 2 == 1 {
            32 + AREA
        } else {
            32
        }
    }

    // Where the first closed gate is on the disk, and how many commands are counted before it.
    fn read(&self) -> (usize, u64) {
        let begins = self.live();
        let mut count = number_at(&self.content, begins.saturating_add(8));
        // The highest byte is the version's.
        let size = number_at(&self.content, begins) % 72_057_594_037_927_936;
        let mut gate = begins.saturating_add(8).saturating_add(size as usize);
        for _ in 0..AREA {
            if byte_at(&self.content, gate) != 1 {
                return (gate, count);
            }
            let size = number_at(&self.content, gate.saturating_add(1));
            count = count.saturating_add(size / 11);
            gate = gate.saturating_add(9).saturating_add(size as usize);
        }
        (gate, count)
    }

    // Puts these bytes at a place, and answers the place after them.
    fn put(&mut self, at: usize, bytes: &[u8]) -> usize {
        for (i, byte) in bytes.iter().enumerate() {
            let place = at.saturating_add(i);
            if place < self.content.len() {
                self.content[place] = *byte;
            }
        }
        at.saturating_add(bytes.len())
    }

    fn write(&mut self, at: usize, bytes: &[u8]) {
        self.unsynced = (at, self.put(at, bytes));
    }

    // A block, and the closed gate after it.
    fn write_block(&mut self) -> bool {
        let (gate, _) = self.read();
        let used = gate.saturating_sub(self.live()) as u64;
        let room = (AREA as u64).saturating_sub(used).saturating_sub(10);
        // As many as fit, each of which has 11 bytes.
        let count = self.taken.saturating_sub(self.stored).min(room / 11);
        if count == 0 {
            return false;
        }
        let begins = gate.saturating_add(1);
        let mut at = self.put(begins, &count.saturating_mul(11).to_be_bytes());
        for _ in 0..count {
            at = self.put(at, &RECORD);
        }
        self.unsynced = (begins, self.put(at, &[0]));
        self.place = LastCall::BlockWritten(self.stored.saturating_add(count));
        true
    }

    fn idle(&self) -> usize {
        if self.live() == 32 { 32 + AREA } else { 32 }
    }

    fn write_snapshot(&mut self) {
        let (_, count) = self.read();
        self.write(self.idle(), &front_of(count));
        self.place = LastCall::SnapshotWriting(41, 41);
    }

    // Where the sessions of the live area's snapshot are. How many there are stands after three numbers of eight bytes.
    fn sessions(&self) -> (usize, usize) {
        let from = self.live().saturating_add(24);
        let count = number_at(&self.content, from.saturating_sub(4)) % 4_294_967_296;
        let begins = from.saturating_add(4);
        (
            begins,
            begins.saturating_add((count as usize).saturating_mul(9)),
        )
    }

    // The sessions that stand in that snapshot, and after them those between these numbers. Each has a number and no client's name.
    fn put_sessions(&mut self, at: usize, first: u64, count: u64) -> usize {
        let (from, to) = self.sessions();
        let mut at = at;
        for place in from..to {
            let byte = byte_at(&self.content, place);
            at = self.put(at, &[byte]);
        }
        for number in first..count {
            at = self.put(at, &number.to_be_bytes());
            at = self.put(at, &[0]);
        }
        at
    }

    // A snapshot of the second version with its length and a closed gate. It has the count, no delivery, the open sessions, and nothing
    // else.
    fn write_copy(&mut self) -> bool {
        let (_, count) = self.read();
        let first = number_at(&self.content, self.live().saturating_add(8));
        let (from, to) = self.sessions();
        let stood = (to.saturating_sub(from) / 9) as u64;
        let sessions = stood.saturating_add(count.saturating_sub(first));
        let all = sessions.saturating_mul(9).saturating_add(41);
        if all > AREA as u64 {
            return false;
        }
        let mut word = all.saturating_sub(9).to_be_bytes();
        word[0] = 2;
        let idle = self.idle();
        let mut at = self.put(idle, &word);
        at = self.put(at, &count.to_be_bytes());
        at = self.put(at, &[0; 8]);
        at = self.put(at, &sessions.to_be_bytes()[4..]);
        at = self.put_sessions(at, first, count);
        self.unsynced = (idle, self.put(at, &[0; 13]));
        self.place = LastCall::Copying(all, all);
        true
    }

    fn compact(&mut self, call: Call) -> bool {
        match (call.list, call.kind, self.place) {
            (CallList::Snapshot, CallKind::Write, LastCall::Rest | LastCall::CopySynced) => {
                return self.write_copy();
            }
            (CallList::Snapshot, CallKind::Sync, LastCall::Copying(_, _)) => {
                self.place = LastCall::CopySynced;
            }
            (CallList::Switch, CallKind::Write, LastCall::CopySynced) => {
                self.write_selector();
                self.place = LastCall::SwitchWritten;
            }
            (CallList::Switch, CallKind::Sync, LastCall::SwitchWritten) => self.place =
                LastCall::Rest,
            _ => return false,
        }
        true
    }

    fn write_selector(&mut self) {
        let selector = byte_at(&self.content, 16).wrapping_add(1);
        self.write(16, &[selector]);
    }

    fn append(&mut self, kind: CallKind, ok: bool) -> bool {
        match (kind, self.place) {
            (CallKind::Write, LastCall::Rest | LastCall::CopySynced) => return self.write_block(),
            (CallKind::Write, LastCall::BlockSynced(to)) => {
                let (gate, _) = self.read();
                self.write(gate, &[1]);
                self.place = LastCall::GateWritten(to);
            }
            (CallKind::Sync, LastCall::BlockWritten(to)) => self.place = LastCall::BlockSynced(to),
            (CallKind::Sync, LastCall::GateWritten(to)) => {
                self.place = LastCall::Rest;
                if ok {
                    self.stored = to;
                }
            }
            _ => return false,
        }
        true
    }

    fn open_call(&mut self, kind: CallKind) -> bool {
        match (kind, self.place) {
            (
                CallKind::Sync,
                LastCall::Rest
                | LastCall::Broken
                | LastCall::CopySynced
                | LastCall::OpenSynced
                | LastCall::OpenRead,
            ) => self.place = LastCall::OpenSynced,
            (CallKind::Sync, LastCall::SnapshotWriting(_, _)) => self.place =
                LastCall::SnapshotSynced,
            (CallKind::Sync, LastCall::SelectorWritten) => self.place = LastCall::Opened,
            (CallKind::Read, LastCall::OpenSynced | LastCall::OpenRead) => self.place =
                LastCall::OpenRead,
            (CallKind::Write, LastCall::OpenRead) => self.write_snapshot(),
            (CallKind::Write, LastCall::SnapshotSynced) => {
                self.write_selector();
                self.place = LastCall::SelectorWritten;
            }
            _ => return false,
        }
        true
    }

    pub(crate) fn device(&mut self, call: Call) -> bool {
        let done = match call.list {
            CallList::Append => self.append(call.kind, call.ok),
            CallList::Open => self.open_call(call.kind),
            CallList::Snapshot | CallList::Switch => self.compact(call),
        };
        if !done {
            return false;
        }
        if call.list == CallList::Open && self.is_running() {
            self.phase = Period::Reopening;
        }
        if !call.ok {
            self.place = LastCall::Broken;
        } else if call.kind == CallKind::Sync {
            self.unsynced = (0, 0);
        }
        true
    }

    pub(crate) fn open(&mut self) -> bool {
        if self.place != LastCall::Opened {
            return false;
        }
        let (_, count) = self.read();
        self.restart(count);
        self.phase = Period::Running;
        self.place = LastCall::Rest;
        true
    }
}
