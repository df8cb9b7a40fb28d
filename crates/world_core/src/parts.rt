//! The parts of a world.

ghost use Rattle.std.specs.Prelude.{◌≡◌, ◌↔◌, ◌<◌, ◌^◌, IsTrue, Some, false, length, slice_get, true, IfOk, IfSome, None, ◌+◌, ◌≤◌, OnErr, slice_index, ◌-◌, drop, take};
ghost use Rattle.broker_core.specs.States.{State};
ghost use Rattle.area_core.specs.Areas.{closed, commands, records};
ghost use Rattle.area_core.specs.Journals.{is_odd, start};
ghost use Rattle.world_core.specs.Events.{AreThere, reopened};
ghost use Rattle.world_core.specs.Calls.{append_syncs, append_writes, copy_syncs, copy_writes, open_reads, open_syncs, open_writes, phase_after, piece_end, place_after, stored_after, switch_syncs, switch_writes, patch, synced, with_disk, wrote, as_many, batch, fitting, CanCopy, CanRestart, copy_of, done_at, idle_of, rest_of};
ghost use Rattle.world_core.specs.Keeping.{IsKept};
ghost use Rattle.world_core.specs.Parts.{value_of, disk_of};
ghost use Rattle.world_core.specs.Touches.{IsLead, LeadsNowhere, LeadsTo, is_measured, IsDue, IsTouched, begun, IsBlockPatch, IsNoPatch, IsPatch, HasPiece};
ghost use Rattle.world_core.specs.declared.event.CallKind.TheVariants.{Write};
ghost use Rattle.world_core.specs.declared.event.CallList.TheVariants as lists;
ghost use Rattle.world_core.specs.declared.event.CallList.TheVariants.{Append, Open};
ghost use Rattle.world_core.specs.Answers.{IsTold};
ghost use Rattle.world_core.specs.Readings.{IsRead, Reading};

use crate::recovering::{gate_in, restarted_broker, restarted_snapshot, stored_snapshot};
use crate::seat::renew;
use crate::{Call, CallKind, CallList, Event, Seat};
use area_core::{Version, closed, closed_snapshot};
use broker_core::Broker;
use command_core::Entry;
use disk_core::{overwrite, release};
use std::alloc::{AllocError, Global};
use std::snapshot::Snapshot;

// A snapshot is written in pieces of this many bytes, the last of which may be shorter.
const PIECE_BYTES: u64 = 65_536;

// The fields of a world, without what they keep together.
#[derive(Drop)]
pub(crate) struct Parts {
    pub(crate) base: u64,
    // The broker as it was when this life began.
    pub(crate) opening: Snapshot<Broker>,
    pub(crate) history: Vec<Entry<()>>,
    pub(crate) ready: Vec<bool>,
    pub(crate) taken: u64,
    pub(crate) stored: u64,
    pub(crate) mark: u64,
    pub(crate) seats: Vec<Seat>,
    pub(crate) stopped: bool,
    pub(crate) released: Vec<u64>,
    pub(crate) earlier: Vec<u64>,
    pub(crate) phase: Period,
    pub(crate) place: LastCall,
    // How many bytes each of the two areas has.
    pub(crate) size: u64,
    pub(crate) content: Vec<u8>,
    // Of each byte that was written since the last sync, what it held then.
    pub(crate) held: Vec<Option<u8>>,
}

pub(crate) fn is_running(phase: Period) -> bool
    ensures { IsTrue result ↔ phase ≡ Period.Running }
{
    match phase {
        Period::Running => true,
        Period::Reopening | Period::Crashed => false,
    }
}

pub(crate) fn are_there(phase: Period) -> bool
    ensures { IsTrue result ↔ AreThere phase }
{
    match phase {
        Period::Running | Period::Reopening => true,
        Period::Crashed => false,
    }
}

pub(crate) fn is_clear(flags: &[bool], at: usize) -> bool
    ensures clear { IsTrue result ↔ slice_get flags.now at ≡ Some false }
    ensures within { IsTrue result → at < length flags.now }
{
    at < flags.len() && !flags[at]
}

pub(crate) fn is_set(flags: &[bool], at: usize) -> bool
    ensures set { IsTrue result ↔ slice_get flags.now at ≡ Some true }
    ensures small { IsTrue result → at < 2 ^ 63 }
{
    at < flags.len() && flags[at]
}

/// The last device call that was made of the list in progress.
#[derive(Clone, Copy, PartialEq, Eq)]
pub enum LastCall {
    /// No list is in progress, and any list may begin.
    Rest,
    /// A call failed, or the disk crashed: only the list of Open may begin.
    Broken,
    /// Append: the block of the commands under a number is written behind the closed gate.
    BlockWritten(u64),
    /// Append: the block is synced.
    BlockSynced(u64),
    /// Append: the block's gate is written.
    GateWritten(u64),
    /// Snapshot: of a snapshot of the state as it is, the first number of bytes is written into the idle area; the second is how many there
    /// are in all.
    Copying(u64, u64),
    /// Snapshot: it is synced. All calls of the list are made.
    CopySynced,
    /// Switch: the selector is written.
    SwitchWritten,
    /// Open: the first sync is made.
    OpenSynced,
    /// Open: a read is made.
    OpenRead,
    /// Open: of the snapshot, the first number of bytes is written into the idle area; the second is how many there are in all.
    SnapshotWriting(u64, u64),
    /// Open: the snapshot is synced.
    SnapshotSynced,
    /// Open: the selector is written.
    SelectorWritten,
    /// Open: the selector is synced. All calls of the list are made.
    Opened,
}

/// Which part of its life a world is in.
#[derive(Clone, Copy, PartialEq, Eq)]
pub enum Period {
    /// Sessions and the flusher run.
    Running,
    /// The journal is opened again, without a crash before.
    Reopening,
    /// A crash came.
    Crashed,
}

// How far the piece goes that begins after `done` bytes of the whole.
fn piece_end(done: u64, whole: u64) -> u64
    ensures { result ≡ piece_end done whole }
{
    done.saturating_add(PIECE_BYTES).min(whole)
}

fn append_writes(under: u64, place: LastCall) -> Option<LastCall>
    ensures { result ≡ append_writes under place }
{
    match place {
        LastCall::Rest | LastCall::CopySynced => Some(LastCall::BlockWritten(under)),
        LastCall::BlockSynced(to) => Some(LastCall::GateWritten(to)),
        _ => None,
    }
}

fn append_syncs(place: LastCall) -> Option<LastCall>
    ensures { result ≡ append_syncs place }
{
    match place {
        LastCall::BlockWritten(to) => Some(LastCall::BlockSynced(to)),
        LastCall::GateWritten(_) => Some(LastCall::Rest),
        _ => None,
    }
}

fn copy_writes(whole: u64, place: LastCall) -> Option<LastCall>
    ensures { result ≡ copy_writes whole place }
{
    match place {
        LastCall::Rest | LastCall::CopySynced => Some(LastCall::Copying(
            piece_end(0, whole),
            whole,
        )),
        LastCall::Copying(done, all) if done < all => Some(LastCall::Copying(
            piece_end(done, all),
            all,
        )),
        _ => None,
    }
}

fn copy_syncs(place: LastCall) -> Option<LastCall>
    ensures { result ≡ copy_syncs place }
{
    match place {
        LastCall::Copying(done, all) if done >= all => Some(LastCall::CopySynced),
        _ => None,
    }
}

fn switch_writes(place: LastCall) -> Option<LastCall>
    ensures { result ≡ switch_writes place }
{
    match place {
        LastCall::CopySynced => Some(LastCall::SwitchWritten),
        _ => None,
    }
}

fn switch_syncs(place: LastCall) -> Option<LastCall>
    ensures { result ≡ switch_syncs place }
{
    match place {
        LastCall::SwitchWritten => Some(LastCall::Rest),
        _ => None,
    }
}

fn open_syncs(place: LastCall) -> Option<LastCall>
    ensures { result ≡ open_syncs place }
{
    match place {
        LastCall::Rest
        | LastCall::Broken
        | LastCall::CopySynced
        | LastCall::OpenSynced
        | LastCall::OpenRead => Some(LastCall::OpenSynced),
        LastCall::Copying(done, all) if done < all => Some(LastCall::OpenSynced),
        LastCall::SnapshotWriting(done, all) if done < all => Some(LastCall::OpenSynced),
        LastCall::SnapshotWriting(_, _) => Some(LastCall::SnapshotSynced),
        LastCall::SelectorWritten => Some(LastCall::Opened),
        _ => None,
    }
}

fn open_reads(place: LastCall) -> Option<LastCall>
    ensures { result ≡ open_reads place }
{
    match place {
        LastCall::OpenSynced | LastCall::OpenRead => Some(LastCall::OpenRead),
        _ => None,
    }
}

fn open_writes(whole: u64, place: LastCall) -> Option<LastCall>
    ensures { result ≡ open_writes whole place }
{
    match place {
        LastCall::OpenRead => Some(LastCall::SnapshotWriting(piece_end(0, whole), whole)),
        LastCall::SnapshotWriting(done, all) if done < all => {
            Some(LastCall::SnapshotWriting(piece_end(done, all), all))
        }
        LastCall::SnapshotSynced => Some(LastCall::SelectorWritten),
        _ => None,
    }
}

// Whether it may be the write of a block or of a snapshot; where that leads depends on what is read of the disk.
fn is_measured(list: CallList, kind: CallKind) -> bool
    ensures { result ≡ is_measured list kind }
{
    match (list, kind) {
        (CallList::Append | CallList::Snapshot | CallList::Open, CallKind::Write) => true,
        _ => false,
    }
}

impl Parts {
    // Where the next call leads if it succeeds, but for the writes of blocks and snapshots.
    fn place_leads(&self, list: CallList, kind: CallKind) -> Option<LastCall>
        ensures { IsLead (value_of self.now) list kind result }
    {
        match (list, kind) {
            (CallList::Append, CallKind::Sync) => append_syncs(self.place),
            (CallList::Snapshot, CallKind::Sync) => copy_syncs(self.place),
            (CallList::Switch, CallKind::Write) => switch_writes(self.place),
            (CallList::Switch, CallKind::Sync) => switch_syncs(self.place),
            (CallList::Open, CallKind::Read) => open_reads(self.place),
            (CallList::Open, CallKind::Sync) => open_syncs(self.place),
            _ => None,
        }
    }

    // Where the next write of a block or of a gate leads, or `None` if it may not come.
    fn append_leads(&self, alloc: Global) -> Result<Option<LastCall>, AllocError>
        requires { IsKept (value_of self.now) }
        ensures some { IfOk result (λ found. IfSome found (LeadsTo (value_of self.now) Append Write)) }
        ensures none { IfOk result (λ found. found ≡ None → LeadsNowhere (value_of self.now) Append Write) }
    {
        let under = self.fitting(alloc)?;
        Ok(append_writes(under, self.place))
    }

    // Where the next write of a snapshot of the state as it is leads, or `None` if it may not come.
    fn copy_leads(&self, alloc: Global) -> Result<Option<LastCall>, AllocError>
        requires { IsKept (value_of self.now) }
        ensures some { IfOk result (λ found. IfSome found (LeadsTo (value_of self.now) lists.Snapshot Write)) }
        ensures none { IfOk result (λ found. found ≡ None → LeadsNowhere (value_of self.now) lists.Snapshot Write) }
    {
        match self.copy_bytes(alloc)? {
            Some(bytes) => {
                let whole = bytes.len() as u64;
                drop(bytes);
                Ok(copy_writes(whole, self.place))
            }
            None => Ok(None),
        }
    }

    // Where the next write of an opening leads, or `None` if it may not come.
    fn open_leads(&self, alloc: Global) -> Result<Option<LastCall>, AllocError>
        requires { IsKept (value_of self.now) }
        ensures some { IfOk result (λ found. IfSome found (LeadsTo (value_of self.now) Open Write)) }
        ensures none { IfOk result (λ found. found ≡ None → LeadsNowhere (value_of self.now) Open Write) }
    {
        if let LastCall::SnapshotSynced = self.place {
            return Ok(Some(LastCall::SelectorWritten));
        }
        match self.rest_bytes(alloc)? {
            Some(bytes) => {
                let whole = bytes.len() as u64;
                drop(bytes);
                Ok(open_writes(whole, self.place))
            }
            None => Ok(None),
        }
    }

    // Where the next call of a list leads if it succeeds, or `None` if it may not come.
    pub(crate) fn leads(
        &self,
        alloc: Global,
        list: CallList,
        kind: CallKind,
    ) -> Result<Option<LastCall>, AllocError>
        requires { IsKept (value_of self.now) }
        ensures some { IfOk result (λ found. IfSome found (LeadsTo (value_of self.now) list kind)) }
        ensures none { IfOk result (λ found. found ≡ None → LeadsNowhere (value_of self.now) list kind) }
    {
        if !is_measured(list, kind) {
            return Ok(self.place_leads(list, kind));
        }
        match list {
            CallList::Append => self.append_leads(alloc),
            CallList::Snapshot => self.copy_leads(alloc),
            _ => self.open_leads(alloc),
        }
    }

    // Writes over a range of the disk, which is then unsynced.
    fn put(&mut self, at: usize, bytes: &[u8])
        requires sizes { length self.old.held.items ≡ length self.old.content.items }
        requires within { at + length bytes.now ≤ length self.old.content.items }
        ensures { value_of self.new ≡ with_disk (value_of self.old) (wrote (disk_of self.old) (patch at bytes.now)) }
    {
        overwrite(&mut self.content, &mut self.held, at, bytes);
    }

    // Writes what the write that leads to a place writes, if it may come.
    fn write(&mut self, alloc: Global, ok: bool, to: LastCall) -> Result<bool, AllocError>
        requires kept { IsKept (value_of self.old) }
        requires due { IsDue (value_of self.old) to }
        ensures ok { IfOk result (λ answer. IsTouched (value_of self.old) CallKind.Write ok to answer (value_of self.new)) }
        ensures err { OnErr result (value_of self.new ≡ value_of self.old) }
    {
        let Some(patch) = self.patch(alloc, to)? else {
            return Ok(false);
        };
        self.put(patch.at, &patch.bytes);
        Ok(true)
    }

    // Makes all stable, if it succeeds.
    fn sync(&mut self, ok: bool)
        requires sizes { length self.old.held.items ≡ length self.old.content.items }
        ensures ok { ok ≡ true → value_of self.new ≡ with_disk (value_of self.old) (synced (disk_of self.old)) }
        ensures failed { ok ≡ false → value_of self.new ≡ value_of self.old }
    {
        if ok {
            release(&mut self.held);
        }
    }

    // Makes a call on the disk, if it may come. If the call succeeds, it leads to a place.
    fn touch(&mut self, alloc: Global, call: Call, to: LastCall) -> Result<bool, AllocError>
        requires kept { IsKept (value_of self.old) }
        requires leads { LeadsTo (value_of self.old) call.list call.kind to }
        ensures ok { IfOk result (λ answer. IsTouched (value_of self.old) call.kind call.ok to answer (value_of self.new)) }
        ensures err { OnErr result (value_of self.new ≡ value_of self.old) }
    {
        match call.kind {
            CallKind::Read => Ok(true),
            CallKind::Write => self.write(alloc, call.ok, to),
            CallKind::Sync => {
                self.sync(call.ok);
                Ok(true)
            }
        }
    }

    pub(crate) fn device(&mut self, alloc: Global, call: Call) -> Result<bool, AllocError>
        requires { IsKept (value_of self.old) }
        ensures ok { IfOk result (λ answer. IsTold (value_of self.old) (Event.Device call) answer (value_of self.new)) }
        ensures err { OnErr result (value_of self.new ≡ value_of self.old) }
    {
        let Some(to) = self.leads(alloc, call.list, call.kind)? else {
            return Ok(false);
        };
        if !self.touch(alloc, call, to)? {
            return Ok(false);
        }
        self.stored = stored_after(self.stored, self.place, call.ok);
        self.phase = phase_after(call.list, self.phase);
        self.place = place_after(call.ok, to);
        Ok(true)
    }

    // A new life begins with the broker's state.
    fn begin(&mut self, broker: &Broker)
        ensures { value_of self.new ≡ begun (value_of self.old) broker.now.state }
    {
        let count = broker.count();
        self.base = count;
        self.opening = Snapshot::of(broker);
        self.history.clear();
        self.ready.clear();
        self.taken = count;
        self.stored = count;
        self.mark = count;
        renew(&mut self.seats, count);
        self.stopped = false;
        self.released.clear();
        self.phase = Period::Running;
        self.place = LastCall::Rest;
    }

    // A new life begins, and the released numbers go to the earlier ones.
    fn begin_behind(&mut self, broker: &Broker) -> Result<bool, AllocError>
        ensures ok { IfOk result (λ begun. (begun ≡ true) × (value_of self.new ≡ reopened (value_of self.old) broker.now.state)) }
        ensures err { OnErr result (value_of self.new ≡ value_of self.old) }
    {
        self.earlier.extend_from_slice(&self.released)?;
        self.begin(broker);
        Ok(true)
    }

    pub(crate) fn open(&mut self, alloc: Global) -> Result<bool, AllocError>
        requires { IsKept (value_of self.old) }
        ensures ok { IfOk result (λ answer. IsTold (value_of self.old) Event.Open answer (value_of self.new)) }
        ensures err { OnErr result (value_of self.new ≡ value_of self.old) }
    {
        match self.place {
            LastCall::Opened => {}
            _ => return Ok(false),
        }
        match restarted_broker(alloc, &self.content)? {
            Some(broker) => {
                let begun = self.begin_behind(&broker);
                drop(broker);
                begun
            }
            None => Ok(false),
        }
    }

    pub(crate) fn is_second_live(&self) -> bool
        requires { IsKept (value_of self.now) }
        ensures { result ≡ is_odd (slice_index self.now.content.items 16) }
    {
        self.content[16] % 2 == 1
    }

    // Where the first closed gate of the live area is, counted from the area's first byte.
    fn gate(&self, alloc: Global) -> Result<u64, AllocError>
        requires { IsKept (value_of self.now) }
        ensures is { IfOk result (λ gate. (r : Reading) → IsRead self.now.size self.now.content.items r → gate ≡ r.gate) }
        ensures within { IfOk result (λ gate. gate < self.now.size) }
    {
        let gate = gate_in(alloc, &self.content)?;
        Ok(gate)
    }

    // The number under which commands go into the next block.
    pub(crate) fn fitting(&self, alloc: Global) -> Result<u64, AllocError>
        requires { IsKept (value_of self.now) }
        ensures { IfOk result (λ under. (r : Reading) → IsRead self.now.size self.now.content.items r → under ≡ fitting (value_of self.now) r) }
    {
        let gate = self.gate(alloc)?;
        let room = self.size.saturating_sub(gate + 10);
        let from = (self.stored - self.base) as usize;
        let to = (self.taken - self.base) as usize;
        let count = as_many(room, &self.history[from..to]);
        Ok(self.stored + count)
    }

    // The records of what is taken and not stored, under a number.
    fn batch_records(&self, alloc: Global, under: u64) -> Result<Vec<u8>, AllocError>
        requires kept { IsKept (value_of self.now) }
        requires some { self.now.stored ≤ under }
        requires taken { under ≤ self.now.taken }
        ensures { IfOk result (λ bytes. bytes.items ≡ records (batch (value_of self.now) under)) }
    {
        let from = (self.stored - self.base) as usize;
        let to = (under - self.base) as usize;
        let records = records_of(alloc, &self.history[from..to])?;
        Ok(records)
    }

    // The block of these records behind the gate, or `None` if it doesn't fit.
    fn block_within(
        &self,
        alloc: Global,
        gate: u64,
        records: &[u8],
    ) -> Result<Option<Patch>, AllocError>
        requires kept { IsKept (value_of self.now) }
        requires within { gate < self.now.size }
        ensures some { IfOk result (λ found. IfSome found (λ p. IsBlockPatch (disk_of self.now) gate records.now p.at p.bytes.items)) }
        ensures none { IfOk result (λ found. found ≡ None → self.now.size < gate + 10 + length records.now) }
    {
        if gate + 10 + records.len() as u64 > self.size {
            return Ok(None);
        }
        let begins = area_begins(self.size, self.is_second_live());
        let patch = block_behind(alloc, begins + gate as usize, records)?;
        Ok(Some(patch))
    }

    // The block of what is taken and not stored, under a number.
    fn block_patch(&self, alloc: Global, under: u64) -> Result<Option<Patch>, AllocError>
        requires kept { IsKept (value_of self.now) }
        requires taken { under ≤ self.now.taken }
        ensures some { IfOk result (λ found. IfSome found (λ p. IsPatch (value_of self.now) (LastCall.BlockWritten under) p.at p.bytes.items)) }
        ensures none { IfOk result (λ found. found ≡ None → IsNoPatch (value_of self.now) (LastCall.BlockWritten under)) }
    {
        if self.stored >= under {
            return Ok(None);
        }
        let gate = self.gate(alloc)?;
        let records = self.batch_records(alloc, under)?;
        let patch = self.block_within(alloc, gate, &records);
        drop(records);
        patch
    }

    fn gate_patch(&self, alloc: Global, to: u64) -> Result<Patch, AllocError>
        requires { IsKept (value_of self.now) }
        ensures { IfOk result (λ p. IsPatch (value_of self.now) (LastCall.GateWritten to) p.at p.bytes.items) }
    {
        let gate = self.gate(alloc)?;
        let bytes = Vec::from_slice(alloc, &[1])?;
        let begins = area_begins(self.size, self.is_second_live());
        Ok(Patch {
            at: begins + gate as usize,
            bytes,
        })
    }

    fn selector_patch(&self, alloc: Global) -> Result<Patch, AllocError>
        requires { IsKept (value_of self.now) }
        ensures switch { IfOk result (λ p. IsPatch (value_of self.now) LastCall.SwitchWritten p.at p.bytes.items) }
        ensures open { IfOk result (λ p. IsPatch (value_of self.now) LastCall.SelectorWritten p.at p.bytes.items) }
    {
        Ok(Patch {
            at: 16,
            bytes: Vec::from_slice(alloc, &[self.content[16].wrapping_add(1)])?,
        })
    }

    // What the write that leads to a place writes, or `None` if it may not come.
    pub(crate) fn patch(&self, alloc: Global, to: LastCall) -> Result<Option<Patch>, AllocError>
        requires kept { IsKept (value_of self.now) }
        requires due { IsDue (value_of self.now) to }
        ensures some { IfOk result (λ found. IfSome found (λ p. IsPatch (value_of self.now) to p.at p.bytes.items)) }
        ensures none { IfOk result (λ found. found ≡ None → IsNoPatch (value_of self.now) to) }
    {
        match to {
            LastCall::BlockWritten(under) => self.block_patch(alloc, under),
            LastCall::GateWritten(to) => Ok(Some(self.gate_patch(alloc, to)?)),
            LastCall::Copying(done, all) => self.copy_patch(alloc, done, all),
            LastCall::SnapshotWriting(done, all) => self.rest_patch(alloc, done, all),
            LastCall::SwitchWritten => Ok(Some(self.selector_patch(alloc)?)),
            LastCall::SelectorWritten => Ok(Some(self.selector_patch(alloc)?)),
            _ => Ok(Some(Patch {
                at: 0,
                bytes: Vec::new(alloc),
            })),
        }
    }

    // What is written of the state that is read, or `None` if it can't be written.
    pub(crate) fn copy_bytes(&self, alloc: Global) -> Result<Option<Vec<u8>>, AllocError>
        requires { IsKept (value_of self.now) }
        ensures some { IfOk result (λ found. IfSome found (λ bytes. (r : Reading) → IsRead self.now.size self.now.content.items r
            → CanCopy self.now.size r × (bytes.items ≡ copy_of r))) }
        ensures none { IfOk result (λ found. found ≡ None → (r : Reading) → IsRead self.now.size self.now.content.items r → CanCopy self.now.size r → ⊥) }
    {
        let Some(snapshot) = stored_snapshot(alloc, &self.content, self.size)? else {
            return Ok(None);
        };
        let bytes = closed_snapshot(alloc, Version::Two, &snapshot);
        drop(snapshot);
        Ok(Some(bytes?))
    }

    // What is written of what a restart leaves of the state that is read, or `None` if it can't be written.
    pub(crate) fn rest_bytes(&self, alloc: Global) -> Result<Option<Vec<u8>>, AllocError>
        requires { IsKept (value_of self.now) }
        ensures some { IfOk result (λ found. IfSome found (λ bytes. (r : Reading) → IsRead self.now.size self.now.content.items r
            → CanRestart self.now.size r × (bytes.items ≡ rest_of r))) }
        ensures none { IfOk result (λ found. found ≡ None → (r : Reading) → IsRead self.now.size self.now.content.items r → CanRestart self.now.size r → ⊥) }
    {
        let Some(snapshot) = restarted_snapshot(alloc, &self.content, self.size)? else {
            return Ok(None);
        };
        let bytes = closed_snapshot(alloc, Version::Two, &snapshot);
        drop(snapshot);
        Ok(Some(bytes?))
    }

    // The piece of these bytes that ends before a place, after those that are written.
    fn piece(&self, alloc: Global, done: u64, bytes: &[u8]) -> Result<Patch, AllocError>
        requires kept { IsKept (value_of self.now) }
        requires there { HasPiece (done_at self.now.place) done bytes.now }
        ensures at { IfOk result (λ p. p.at ≡ idle_of (disk_of self.now) + done_at self.now.place) }
        ensures bytes { IfOk result (λ p. p.bytes.items ≡ take (done - done_at self.now.place) (drop (done_at self.now.place) bytes.now)) }
    {
        let from = done_at(self.place) as usize;
        let part = Vec::from_slice(alloc, &bytes[from..done as usize])?;
        let begins = area_begins(self.size, !self.is_second_live());
        Ok(Patch {
            at: begins + from,
            bytes: part,
        })
    }

    pub(crate) fn copy_patch(
        &self,
        alloc: Global,
        done: u64,
        all: u64,
    ) -> Result<Option<Patch>, AllocError>
        requires kept { IsKept (value_of self.now) }
        requires due { IsDue (value_of self.now) (LastCall.Copying done all) }
        ensures some { IfOk result (λ found. IfSome found (λ p. IsPatch (value_of self.now) (LastCall.Copying done all) p.at p.bytes.items)) }
        ensures none { IfOk result (λ found. found ≡ None → IsNoPatch (value_of self.now) (LastCall.Copying done all)) }
    {
        let Some(bytes) = self.copy_bytes(alloc)? else {
            return Ok(None);
        };
        let patch = self.piece(alloc, done, &bytes);
        drop(bytes);
        Ok(Some(patch?))
    }

    pub(crate) fn rest_patch(
        &self,
        alloc: Global,
        done: u64,
        all: u64,
    ) -> Result<Option<Patch>, AllocError>
        requires kept { IsKept (value_of self.now) }
        requires due { IsDue (value_of self.now) (LastCall.SnapshotWriting done all) }
        ensures some { IfOk result (λ found. IfSome found (λ p. IsPatch (value_of self.now) (LastCall.SnapshotWriting done all) p.at p.bytes.items)) }
        ensures none { IfOk result (λ found. found ≡ None → IsNoPatch (value_of self.now) (LastCall.SnapshotWriting done all)) }
    {
        let Some(bytes) = self.rest_bytes(alloc)? else {
            return Ok(None);
        };
        let patch = self.piece(alloc, done, &bytes);
        drop(bytes);
        Ok(Some(patch?))
    }
}

pub(crate) fn phase_after(list: CallList, phase: Period) -> Period
    ensures { result ≡ phase_after list phase }
{
    match (list, phase) {
        (CallList::Open, Period::Running) => Period::Reopening,
        _ => phase,
    }
}

pub(crate) fn place_after(ok: bool, to: LastCall) -> LastCall
    ensures { result ≡ place_after ok to }
{
    if ok { to } else { LastCall::Broken }
}

pub(crate) fn stored_after(stored: u64, place: LastCall, ok: bool) -> u64
    ensures { result ≡ stored_after stored place ok }
{
    match place {
        LastCall::GateWritten(to) => if ok { to } else { stored },
        _ => stored,
    }
}

// Bytes, and where they are to be written.
#[derive(Drop)]
pub(crate) struct Patch {
    pub(crate) at: usize,
    pub(crate) bytes: Vec<u8>,
}

// The records of entries, one after another.
fn records_of(alloc: Global, entries: &[Entry<()>]) -> Result<Vec<u8>, AllocError>
    ensures { IfOk result (λ bytes. bytes.items ≡ records (commands entries.now)) }
{
    let mut out = Vec::new(alloc);
    for entry in entries {
        out.extend_from_slice(entry.bytes())?;
    }
    Ok(out)
}

// How many of these entries, from the first on, have records of no more than so many bytes together.
fn as_many(room: u64, entries: &[Entry<()>]) -> u64
    ensures { result ≡ as_many room (commands entries.now) }
{
    let mut left = room;
    let mut count = 0u64;
    for entry in entries {
        let size = entry.bytes().len() as u64;
        if size > left {
            return count;
        }
        left -= size;
        count += 1;
    }
    count
}

// Where the first or the second of two areas of `size` bytes begins.
pub(crate) fn area_begins(size: u64, second: bool) -> usize
    requires { size ≤ 1048576 }
    ensures at { result ≡ start size second }
    ensures low { result ≤ 32 + size }
{
    if second { 32 + size as usize } else { 32 }
}

// The block of these records and the next gate, behind the gate at that place.
fn block_behind(alloc: Global, gate: usize, records: &[u8]) -> Result<Patch, AllocError>
    requires { gate ≤ 2097184 }
    ensures at { IfOk result (λ p. p.at ≡ gate + 1) }
    ensures bytes { IfOk result (λ p. p.bytes.items ≡ closed records.now) }
{
    let bytes = closed(alloc, records)?;
    Ok(Patch {
        at: gate + 1,
        bytes,
    })
}

// How much is written of a snapshot.
fn done_at(place: LastCall) -> u64
    ensures { result ≡ done_at place }
{
    match place {
        LastCall::Copying(done, _) | LastCall::SnapshotWriting(done, _) => done,
        _ => 0,
    }
}
