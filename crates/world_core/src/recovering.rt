//! What is read of a disk, by the code that reads journals, and the disks of the first worlds.

ghost use Rattle.std.specs.Prelude.{◌≡◌, ◌+◌, ◌*◌, ◌<◌, ◌≤◌, ◌^◌, ◌⊎◌, IfOk, IfSome, MatchOption, None, OnOk, IsTrue, List, false, length, true, ℕ, ◌++◌, [], ◌∷◌, replicate};
ghost use Rattle.std.specs.List.{AllByRecursion, flat_map};
ghost use Rattle.broker_core.specs.Operations.{restarted};
ghost use Rattle.broker_core.specs.States.{State};
ghost use Rattle.recover_core.specs.Standing.{Stands};
ghost use Rattle.recover_core.specs.Stores.{opened_by};
ghost use Rattle.recover_core.specs.Told.{IsOpenTold, IsTooLarge, IsTooLong};
ghost use Rattle.snapshot_core.specs.Snapshots.{Spells, snapshot_of};
ghost use Rattle.disk_core.specs.Images.{patched};
ghost use Rattle.area_core.specs.Areas.{HasRecord, block, records};
ghost use Rattle.area_core.specs.Journals.{header};
ghost use Rattle.area_core.specs.declared.version.Version.TheVariants.{One};
ghost use Rattle.world_core.specs.Calls.{CanCopy, CanRestart};
ghost use Rattle.world_core.specs.Readings.{IsRead, Reading};
ghost use Rattle.world_core.specs.Recoveries.{HasEnded, HasNoSnapshot, HasPassed, IsReadable};
ghost use Rattle.world_core.specs.Schedules.{old_area, one_block, opened_once};

use area_core::{Area, AreaFault, Version, closed_snapshot, header_of};
use broker_core::Broker;
use command_core::{Command, encode};
use disk_core::{Disk, MemDisk};
use recover_core::{OpenFault, Store, open, stored_broker};
use snapshot_core::encode_state;
use std::alloc::{AllocError, Global};

// A disk with these bytes.
fn copy_of(alloc: Global, content: &[u8]) -> Result<MemDisk, AllocError>
    ensures { IfOk result (λ disk. disk.content ≡ content.now) }
{
    let mut disk = MemDisk::new(alloc, content.len() as u64)?;
    match disk.write_at(0, content) {
        Ok(()) => Ok(disk),
        Err(_) => {
            drop(disk);
            Err(AllocError)
        }
    }
}

// The live area at its first gate. A journal is refused only if memory is.
fn front_of(alloc: Global, disk: &mut MemDisk) -> Result<Area, AllocError>
    ensures passed { IfOk result (λ area. HasPassed area disk.old.content) }
    ensures room { IfOk result (λ area. 32 + 2 * area.size ≤ length disk.new.content) }
    ensures content { disk.new.content ≡ disk.old.content }
{
    match Area::front(alloc, disk) {
        Ok((area, snapshot)) => {
            drop(snapshot);
            Ok(area)
        }
        Err(_) => Err(AllocError),
    }
}

// Goes on past the next block, and answers whether there was one.
fn pass_block(alloc: Global, disk: &mut MemDisk, area: &mut Area) -> Result<bool, AllocError>
    requires room { 32 + 2 * area.old.size ≤ length disk.old.content }
    ensures on { IfOk result (λ more. more ≡ true → HasPassed area.old disk.old.content → HasPassed area.new disk.old.content) }
    ensures end { IfOk result (λ more. more ≡ false → HasPassed area.old disk.old.content → HasEnded area.new disk.old.content) }
    ensures forward { area.old.gate ≤ area.new.gate }
    ensures grows { IfOk result (λ more. more ≡ true → area.old.gate < area.new.gate) }
    ensures size { area.new.size ≡ area.old.size }
    ensures content { disk.new.content ≡ disk.old.content }
{
    match area.next_block(alloc, disk) {
        Ok(Some(_)) => Ok(true),
        Ok(None) => Ok(false),
        Err(_) => Err(AllocError),
    }
}

// Where the first closed gate of the live area is, counted from the area's first byte.
fn gate_on(alloc: Global, disk: &mut MemDisk) -> Result<u64, AllocError>
    ensures { IfOk result (λ gate. (size : ℕ) (r : Reading) → IsRead size disk.old.content r → gate ≡ r.gate) }
{
    let mut area = front_of(alloc, disk)?;
    let mut more = true;
    while more {
        more = pass_block(alloc, disk, &mut area)?;
    }
    Ok(area.used() - 1)
}

pub(crate) fn gate_in(alloc: Global, content: &[u8]) -> Result<u64, AllocError>
    ensures { IfOk result (λ gate. (size : ℕ) (r : Reading) → IsRead size content.now r → gate ≡ r.gate) }
{
    let mut disk = copy_of(alloc, content)?;
    let gate = gate_on(alloc, &mut disk);
    drop(disk);
    gate
}

// The broker that a journal was opened with.
fn broker_of(store: Store<MemDisk>) -> Option<Broker>
    ensures { result ≡ opened_by store }
{
    let mut store = store;
    let broker = store.broker();
    drop(store);
    broker
}

// Whether the count was too large, or the snapshot did not fit.
fn is_too_much(fault: &OpenFault) -> bool
    ensures { IsTrue result → (content : List ℕ) → IsOpenTold fault.now content → IsTooLarge content ⊎ IsTooLong content }
{
    match fault {
        OpenFault::CountTooLarge => true,
        OpenFault::Area(AreaFault::Full) => true,
        _ => false,
    }
}

// The broker of what a restart leaves of the state that these bytes stand for, or `None` if its count is too large or its snapshot doesn't
// fit. A journal is refused only for these two reasons, or if memory is refused.
pub(crate) fn restarted_broker(alloc: Global, content: &[u8]) -> Result<Option<Broker>, AllocError>
    ensures state { IfOk result (λ found. IfSome found (λ broker. (s : State) → Stands content.now s → broker.state ≡ restarted s)) }
    ensures small { IfOk result (λ found. IfSome found (λ broker. (broker.state.count ≤ 2 ^ 61) × (broker.broken ≡ false))) }
    ensures none { IfOk result (λ found. found ≡ None → IsTooLarge content.now ⊎ IsTooLong content.now) }
{
    let disk = copy_of(alloc, content)?;
    match open(alloc, disk) {
        Ok(store) => Ok(broker_of(store)),
        Err((disk, fault)) => {
            drop(disk);
            if is_too_much(&fault) {
                drop(fault);
                return Ok(None);
            }
            drop(fault);
            Err(AllocError)
        }
    }
}

// A broker's snapshot, or `None` if it doesn't fit into an area of `size` bytes with the gate after it.
fn snapshot_within(alloc: Global, broker: &Broker, size: u64) -> Result<Option<Vec<u8>>, AllocError>
    requires whole { broker.now.broken ≡ false }
    requires few_sessions { length broker.now.state.sessions < 2 ^ 32 }
    requires few_subscriptions { length broker.now.state.subscriptions < 2 ^ 32 }
    ensures some { IfOk result (λ found. IfSome found (λ snapshot. Spells snapshot.items broker.now.state × (length snapshot.items + 9 ≤ size))) }
    ensures none { IfOk result (λ found. found ≡ None → (spelling : List ℕ) × Spells spelling broker.now.state × (size < length spelling + 9)) }
{
    let snapshot = encode_state(alloc, broker)?;
    if snapshot.len() as u64 + 9 > size {
        drop(snapshot);
        return Ok(None);
    }
    Ok(Some(snapshot))
}

// The snapshot of that broker, or `None` if its count is too large or the snapshot doesn't fit into an area of `size` bytes.
pub(crate) fn restarted_snapshot(
    alloc: Global,
    content: &[u8],
    size: u64,
) -> Result<Option<Vec<u8>>, AllocError>
    requires { IsReadable size content.now }
    ensures some { IfOk result (λ found. IfSome found (λ snapshot. (r : Reading) → IsRead size content.now r
        → CanRestart size r × (snapshot.items ≡ snapshot_of (restarted r.state)))) }
    ensures none { IfOk result (λ found. found ≡ None → (r : Reading) → IsRead size content.now r → CanRestart size r → ⊥) }
{
    match restarted_broker(alloc, content)? {
        Some(broker) => {
            let snapshot = snapshot_within(alloc, &broker, size);
            drop(broker);
            snapshot
        }
        None => Ok(None),
    }
}

// The broker of the state that these bytes stand for, or `None` if its count is too large. A journal is refused only for that, or if memory
// is refused.
pub(crate) fn broker_in(alloc: Global, content: &[u8]) -> Result<Option<Broker>, AllocError>
    ensures state { IfOk result (λ found. IfSome found (λ broker. Stands content.now broker.state)) }
    ensures small { IfOk result (λ found. IfSome found (λ broker. (broker.state.count ≤ 2 ^ 61) × (broker.broken ≡ false))) }
    ensures none { IfOk result (λ found. found ≡ None → IsTooLarge content.now) }
{
    let mut disk = copy_of(alloc, content)?;
    let found = stored_broker(alloc, &mut disk);
    drop(disk);
    match found {
        Ok(broker) => Ok(Some(broker)),
        Err(OpenFault::CountTooLarge) => Ok(None),
        Err(fault) => {
            drop(fault);
            Err(AllocError)
        }
    }
}

// A broker's snapshot, or `None` if four bytes can't count what the broker has, or if the snapshot doesn't fit into an area of `size`
// bytes.
fn counted_snapshot(
    alloc: Global,
    broker: &Broker,
    size: u64,
) -> Result<Option<Vec<u8>>, AllocError>
    requires whole { broker.now.broken ≡ false }
    ensures some { IfOk result (λ found. IfSome found (λ snapshot. Spells snapshot.items broker.now.state × (length snapshot.items + 9 ≤ size))) }
    ensures none { IfOk result (λ found. found ≡ None → HasNoSnapshot size broker.now.state) }
{
    if broker.sessions().len() >= 1 << 32 || broker.subscription_count() >= 1 << 32 {
        return Ok(None);
    }
    snapshot_within(alloc, broker, size)
}

// The snapshot of the state that these bytes stand for, its sessions included. `None` if the state's count is too large, if four bytes
// can't count what it has, or if the snapshot doesn't fit into an area of `size` bytes.
pub(crate) fn stored_snapshot(
    alloc: Global,
    content: &[u8],
    size: u64,
) -> Result<Option<Vec<u8>>, AllocError>
    requires { IsReadable size content.now }
    ensures some { IfOk result (λ found. IfSome found (λ snapshot. (r : Reading) → IsRead size content.now r
        → CanCopy size r × (snapshot.items ≡ snapshot_of r.state))) }
    ensures none { IfOk result (λ found. found ≡ None → (r : Reading) → IsRead size content.now r → CanCopy size r → ⊥) }
{
    match broker_in(alloc, content)? {
        Some(broker) => {
            let snapshot = counted_snapshot(alloc, &broker, size);
            drop(broker);
            snapshot
        }
        None => Ok(None),
    }
}

fn put_at(bytes: &mut [u8], at: usize, new: &[u8])
    requires { at + length new.now ≤ length bytes.old }
    ensures { bytes.new ≡ patched at new.now bytes.old }
{
    bytes[at..at + new.len()].copy_from_slice(new);
}

fn zeros(alloc: Global, count: usize) -> Result<Vec<u8>, AllocError>
    ensures { IfOk result (λ bytes. bytes.items ≡ replicate count 0) }
{
    let mut bytes = Vec::new(alloc);
    bytes.resize(count, 0)?;
    Ok(bytes)
}

// Puts these at the front of the disk and of the first area.
fn put_first(bytes: &mut [u8], size: u64, head: &[u8], front: &[u8])
    requires room { length bytes.old ≡ 32 + 2 * size }
    requires head { length head.now ≤ 32 }
    requires front { length front.now ≤ size }
    ensures { bytes.new ≡ patched 0 head.now (patched 32 front.now bytes.old) }
{
    put_at(bytes, 32, front);
    put_at(bytes, 0, head);
}

// The same for both areas, which begin alike; the selector names the second.
fn put_both(bytes: &mut [u8], size: u64, head: &[u8], front: &[u8])
    requires least { 4096 ≤ size }
    requires most { size ≤ 1048576 }
    requires room { length bytes.old ≡ 32 + 2 * size }
    requires head { length head.now ≤ 32 }
    requires front { length front.now ≤ 41 }
    ensures { bytes.new ≡ patched 16 (1 ∷ []) (patched (32 + size) front.now (patched 0 head.now (patched 32 front.now bytes.old))) }
{
    put_at(bytes, 32, front);
    put_at(bytes, 0, head);
    put_at(bytes, (32 + size) as usize, front);
    put_at(bytes, 16, &[1]);
}

// The records of commands, one after another.
fn records_of(alloc: Global, commands: &[Command]) -> Result<Vec<u8>, AllocError>
    ensures bytes { IfOk result (λ bytes. bytes.items ≡ records commands.now) }
    ensures each { IfOk result (λ _. AllByRecursion HasRecord commands.now) }
{
    let mut out = Vec::new(alloc);
    for command in commands {
        let record = encode(alloc, command)?;
        out.extend_from_slice(&record)?;
    }
    Ok(out)
}

// Adds these commands as a block behind its open gate, if there are any. Their records are given.
fn put_block(out: &mut Vec<u8>, commands: &[Command], bytes: &[u8]) -> Result<(), AllocError>
    requires { bytes.now ≡ records commands.now }
    ensures { OnOk result (out.new.items ≡ out.old.items ++ flat_map block (one_block commands.now)) }
{
    if !commands.is_empty() {
        out.push(1)?;
        out.extend_from_slice(&(bytes.len() as u64).to_be_bytes())?;
        out.extend_from_slice(bytes)?;
    }
    Ok(())
}

// An area of the first version with the empty state and these commands in one block.
pub(crate) fn old_area(alloc: Global, commands: &[Command]) -> Result<Vec<u8>, AllocError>
    ensures bytes { IfOk result (λ bytes. bytes.items ≡ old_area commands.now) }
    ensures each { IfOk result (λ _. AllByRecursion HasRecord commands.now) }
{
    let records = records_of(alloc, commands)?;
    let mut out = Vec::new(alloc);
    out.extend_from_slice(&32_u64.to_be_bytes())?;
    out.extend_from_slice(&[0; 32])?;
    put_block(&mut out, commands, &records)?;
    out.push(0)?;
    Ok(out)
}

// A disk of the first version, whose first area is this one.
pub(crate) fn old_content(alloc: Global, size: u64, area: &[u8]) -> Result<Vec<u8>, AllocError>
    requires least { 4096 ≤ size }
    requires most { size ≤ 1048576 }
    requires fits { length area.now ≤ size }
    ensures { IfOk result (λ content. content.items ≡
        patched 0 (header One size ++ replicate 16 0) (patched 32 area.now (replicate (32 + 2 * size) 0))) }
{
    let head = header_of(alloc, Version::One, size)?;
    let mut content = zeros(alloc, (32 + 2 * size) as usize)?;
    put_first(&mut content, size, &head, area);
    drop(head);
    Ok(content)
}

// What formatting and then opening leave of a disk of zeros.
pub(crate) fn first_content(alloc: Global, size: u64) -> Result<Vec<u8>, AllocError>
    requires least { 4096 ≤ size }
    requires most { size ≤ 1048576 }
    ensures { IfOk result (λ content. content.items ≡ opened_once size) }
{
    let head = header_of(alloc, Version::Two, size)?;
    let front = closed_snapshot(alloc, Version::Two, &[0; 32])?;
    let mut content = zeros(alloc, (32 + 2 * size) as usize)?;
    put_both(&mut content, size, &head, &front);
    drop(front);
    drop(head);
    Ok(content)
}
