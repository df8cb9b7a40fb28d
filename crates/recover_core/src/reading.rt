//! The state that a disk stands for is read.

ghost use Rattle.std.specs.Prelude.{◌≡◌, ◌+◌, ◌*◌, ◌≤◌, IfErr, IfOk, OnOk, false, length, ◌<◌, ◌^◌};
ghost use Rattle.area_core.specs.Reading.{GoesOn, ReadsOnly};
ghost use Rattle.snapshot_core.specs.Snapshots.{Spells};
ghost use Rattle.broker_core.specs.Steps.{step_by};
ghost use Rattle.recover_core.specs.Opens.{HasRead, IsFolded};
ghost use Rattle.recover_core.specs.Reads.{IsCounted, IsLoaded, RefusesWalk, Steps, Walks};
ghost use Rattle.recover_core.specs.Told.{IsOfReading, IsOpenCaused, IsSnapshotTold, IsStateRefused};
ghost use Rattle.recover_core.specs.Walks.{HasWalked};
ghost use Rattle.recover_core.specs.Standing.{rule_of, Stands};

use crate::OpenFault;
use area_core::{Area, ReadFault, Version};
use broker_core::{Broker, BrokerFault};
use broker_state::NackRule;
use command_core::{Command, DecodeFault};
use disk_core::Disk;
use snapshot_core::decode_state;
use std::alloc::{AllocError, Global};

/// A journal of more commands is not opened.
pub(crate) const MOST_COUNTED: u64 = 1 << 61;

// The broker of the state that the bytes spell; the first byte is at that place of the disk.
fn state_of(alloc: Global, bytes: &[u8], place: u64) -> Result<Broker, OpenFault>
    ensures spelled { IfOk result (λ broker. Spells bytes.now broker.state) }
    ensures whole { IfOk result (λ broker. broker.broken ≡ false) }
    ensures refused { IfErr result (λ fault. IsSnapshotTold fault bytes.now place) }
{
    match decode_state(alloc, bytes) {
        Ok(broker) => Ok(broker),
        Err(DecodeFault::NoSpelling) => Err(OpenFault::Read(ReadFault::Damaged(place))),
        Err(DecodeFault::Memory(refused)) => Err(OpenFault::Read(ReadFault::Memory(refused))),
    }
}

// Reads the next block and carries out its commands. It answers whether there was one; if not, the gate is closed.
fn read_block<D: Disk>(
    alloc: Global,
    disk: &mut D,
    area: &mut Area,
    broker: &mut Broker,
) -> Result<bool, OpenFault>
    requires room { 32 + 2 * area.old.size ≤ length (D.content disk.old) }
    requires whole { broker.old.broken ≡ false }
    ensures walks { D.honest disk.old →
        IfOk result (Walks area.old area.new broker.old.state broker.new.state (D.content disk.old)) }
    ensures refuses { IfErr result (RefusesWalk D.Disk disk.old area.old broker.old.state) }
    ensures steps { IfOk result (Steps area.old area.new broker.new) }
    ensures place { GoesOn area.old area.new }
    ensures reads { ReadsOnly D.Disk disk.old disk.new }
    ensures cause { IsOpenCaused (D.failures disk.old) (D.failures disk.new) result }
{
    match area.next_block(alloc, disk) {
        Ok(Some(commands)) => {
            repeat_all(alloc, broker, area.told_version(), commands)?;
            Ok(true)
        }
        Ok(None) => Ok(false),
        Err(fault) => Err(OpenFault::Read(fault)),
    }
}

// Reads blocks up to the first closed gate, and carries out their commands. It reports too many commands only once all was read, since
// damage anywhere in the live area is reported first.
fn read_blocks<D: Disk>(
    alloc: Global,
    disk: &mut D,
    area: &mut Area,
    broker: &mut Broker,
) -> Result<(), OpenFault>
    requires room { 32 + 2 * area.old.size ≤ length (D.content disk.old) }
    requires whole { broker.old.broken ≡ false }
    ensures read { D.honest disk.old → HasWalked area.old broker.old.state (D.content disk.old) →
        OnOk result (HasRead area.new broker.new.state (D.content disk.old)) }
    ensures counted { OnOk result (IsCounted broker.new) }
    ensures refuses { IfErr result (RefusesWalk D.Disk disk.old area.old broker.old.state) }
    ensures place { GoesOn area.old area.new }
    ensures reads { ReadsOnly D.Disk disk.old disk.new }
    ensures cause { IsOpenCaused (D.failures disk.old) (D.failures disk.new) result }
{
    let mut more = true;
    while more {
        more = read_block(alloc, disk, area, broker)?;
    }
    if broker.count() > MOST_COUNTED {
        return Err(OpenFault::CountTooLarge);
    }
    Ok(())
}

// The live area, and the broker of the state that the disk stands for.
pub(crate) fn read_state<D: Disk>(alloc: Global, disk: &mut D) -> Result<(Area, Broker), OpenFault>
    ensures read { D.honest disk.old → IfOk result (λ r. HasRead r.0 r.1.state (D.content disk.old)) }
    ensures refused { D.honest disk.old → IfErr result (λ fault. IsStateRefused fault (D.content disk.old)) }
    ensures kind { IfErr result IsOfReading }
    ensures loaded { IfOk result (λ r. IsLoaded r.0 r.1 (D.content disk.new)) }
    ensures reads { ReadsOnly D.Disk disk.old disk.new }
    ensures cause { IsOpenCaused (D.failures disk.old) (D.failures disk.new) result }
{
    let (mut area, snapshot) = Area::front(alloc, disk)?;
    let mut broker = match state_of(alloc, &snapshot, area.snapshot_place()) {
        Ok(broker) => broker,
        Err(fault) => return Err(fault),
    };
    match read_blocks(alloc, disk, &mut area, &mut broker) {
        Ok(()) => Ok((area, broker)),
        Err(fault) => Err(fault),
    }
}

// What a NACK does by that version.
fn rule_of(version: Version) -> NackRule
    ensures { result ≡ rule_of version }
{
    match version {
        Version::One => NackRule::Drops,
        Version::Two => NackRule::Keeps,
    }
}

// Carries out one command by the rule of that version, and makes no output.
fn repeat(
    alloc: Global,
    broker: &mut Broker,
    version: Version,
    command: Command,
) -> Result<(), AllocError>
    requires count { broker.old.state.count < 2 ^ 62 }
    requires whole { broker.old.broken ≡ false }
    ensures state { OnOk result (broker.new.state ≡ step_by (rule_of version) broker.old.state command) }
    ensures whole { OnOk result (broker.new.broken ≡ false) }
{
    match broker.repeat(alloc, rule_of(version), command) {
        Ok(()) => Ok(()),
        Err(BrokerFault::Memory(refused)) => Err(refused),
        Err(BrokerFault::Broken) => Err(AllocError),
    }
}

// Carries out commands in their order, by the rule of that version. Once more than 2^61 are counted, it lets the rest go.
pub(crate) fn repeat_all(
    alloc: Global,
    broker: &mut Broker,
    version: Version,
    commands: Vec<Command>,
) -> Result<(), AllocError>
    requires whole { broker.old.broken ≡ false }
    ensures state { OnOk result (IsFolded (rule_of version) broker.old.state commands.items broker.new.state) }
    ensures whole { OnOk result (broker.new.broken ≡ false) }
{
    for command in commands {
        if broker.count() > MOST_COUNTED {
            return Ok(());
        }
        repeat(alloc, broker, version, command)?;
    }
    Ok(())
}

/// The broker of the state that a journal stands for, with the sessions as they were: none has ended. Nothing is written. Its faults are
/// those of `read`.
#[tactic(auto, using(crate::proofs::Opens::has_read_stands))]
pub fn stored_broker<D: Disk>(alloc: Global, disk: &mut D) -> Result<Broker, OpenFault>
    ensures stands { D.honest disk.old → IfOk result (λ broker. Stands (D.content disk.old) broker.state) }
    ensures small { IfOk result (λ broker. (broker.state.count ≤ 2 ^ 61) × (broker.broken ≡ false)) }
    ensures refused { D.honest disk.old → IfErr result (λ fault. IsStateRefused fault (D.content disk.old)) }
    ensures kind { IfErr result IsOfReading }
    ensures reads { ReadsOnly D.Disk disk.old disk.new }
    ensures cause { IsOpenCaused (D.failures disk.old) (D.failures disk.new) result }
{
    match read_state(alloc, disk) {
        Ok((area, broker)) => {
            drop(area);
            Ok(broker)
        }
        Err(fault) => Err(fault),
    }
}
