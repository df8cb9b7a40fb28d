//! A script while its disk runs: its connections and the queue.

ghost use Rattle.std.specs.Prelude.{◌≡◌, ◌≤◌, ◌^◌, IfErr, IfOk, IfSome, IsSomeAnd, OnOk, string_bytes, unwrap_or};
ghost use Rattle.std.specs.List.{AllByRecursion, fold};
ghost use Rattle.session_core.specs.Sessions.{HasForm};
ghost use Rattle.std.specs.BTreeMap.{is_at};
ghost use Rattle.std.specs.Map.{lookup, remove_entry};
ghost use Rattle.std.specs.Ordering.{nat_cmp};
ghost use Rattle.engine_core.specs.Connections.{new_connection};
ghost use Rattle.engine_core.specs.Queues.{ComeTo, IsTooFar, StaysCalm, acted, acted_on, progress_of};
ghost use Rattle.engine_core.specs.Refusals.{RefusesActs};
ghost use Rattle.engine_core.specs.Running.{ActsOn, HearsSuch};

use crate::command_queue::CommandQueue;
use crate::fault::QueueFault;
use crate::journal::Journal;
use crate::printing::print_frame;
use disk_core::MemDisk;
use script_text::decode_text;
use session_core::{Act, Session};
use std::alloc::Global;
use std::collections::BTreeMap;
use std::marker::Model;

/// A connection of a script: its session, and that session's number once it has one.
#[derive(Drop)]
pub struct ScriptConnection {
    pub session: Session,
    pub number: u64,
}

/// A script while its disk runs. Contracts see its connections by rising number, the queue, and the disk.
#[derive(Drop)]
pub struct RunningScript {
    connections: BTreeMap<u8, ScriptConnection>,
    queue: CommandQueue,
}

impl Model for RunningScript {
    ghost use Rattle.engine_core.specs.Running.{ScriptValue};

    ghost Value = { ScriptValue };

    ghost view = { λ a. record { connections = a.connections.entries; queue = a.queue.queue; disk = a.queue.disk } };
}

impl RunningScript {
    ghost use Rattle.std.specs.Prelude.{◌≡◌, [], IfOk, IfErr, OnOk, false, true, string_bytes};
    ghost use Rattle.recover_core.specs.Standing.{Stands};
    ghost use Rattle.engine_core.specs.Queues.{flush_text, flushed};
    ghost use Rattle.engine_core.specs.Refusals.{RefusesActs, RefusesFlush};
    ghost use Rattle.engine_core.specs.Running.{beginning, Loses, LosesSuch, Receives, ReceivesSuch, on_disk};

    /// A script with nobody connected, over a journal that was just opened. No memory is taken.
    pub fn over(alloc: Global, journal: Journal<MemDisk>) -> RunningScript
        requires count { journal.state.count ≤ 2 ^ 62 }
        requires durable { journal.durable ≡ true }
        ensures { result ≡ beginning journal.state journal.disk }
    {
        RunningScript {
            connections: BTreeMap::new(alloc),
            queue: CommandQueue::over(alloc, journal),
        }
    }

    /// Flushes, and answers what is printed.
    pub fn flush(&mut self, alloc: Global) -> Result<String, QueueFault>
        ensures state { OnOk result (self.new ≡ record self.old { queue = flushed self.old.queue; disk = self.new.disk }) }
        ensures calm { OnOk result (self.new.disk.failures ≡ self.old.disk.failures) }
        ensures text { IfOk result (λ text. string_bytes text ≡ flush_text self.old.queue) }
        ensures refuses { IfErr result (RefusesFlush (on_disk self.old) (on_disk self.new)) }
    {
        let mut text = String::new(alloc);
        self.queue.flush(alloc, &mut text)?;
        Ok(text)
    }

    /// The disk, as an error if the journal failed. What waits and the connections are dropped.
    pub fn into_disk(self) -> Result<MemDisk, MemDisk>
        ensures stands { IfOk result (λ disk. (disk ≡ self.disk) × Stands disk.content self.queue.state) }
        ensures failed { IfErr result (λ disk. (disk ≡ self.disk) × (self.queue.durable ≡ false)) }
    {
        self.queue.into_disk()
    }

    /// The queue. The connections are dropped.
    pub fn into_queue(self) -> CommandQueue
        ensures { result ≡ record { queue = self.queue; disk = self.disk } }
    {
        let RunningScript { queue, .. } = self;
        queue
    }

    /// A connection receives bytes; answers what is printed.
    pub fn receive(&mut self, alloc: Global, n: u8, bytes: &[u8]) -> Result<String, QueueFault>
        ensures ok { IfOk result (λ text. Receives self.old n bytes.now (string_bytes text) self.new) }
        ensures calm { OnOk result (self.new.disk.failures ≡ self.old.disk.failures) }
        ensures refuses { IfErr result (RefusesActs (λ Such. ReceivesSuch Such self.old n bytes.now) (on_disk self.old) (on_disk self.new)) }
    {
        let mut connection = take_connection(alloc, &mut self.connections, n);
        let mut text = String::new(alloc);
        match hear(alloc, &mut self.queue, n, &mut connection, bytes, &mut text) {
            Ok(()) => {
                self.connections.insert(n, connection)?;
                Ok(text)
            }
            Err(fault) => {
                drop(text);
                drop(connection);
                Err(fault)
            }
        }
    }

    /// A connection is gone; answers what is printed.
    pub fn lose(&mut self, alloc: Global, n: u8) -> Result<String, QueueFault>
        ensures ok { IfOk result (λ text. Loses self.old n (string_bytes text) self.new) }
        ensures calm { OnOk result (self.new.disk.failures ≡ self.old.disk.failures) }
        ensures refuses { IfErr result (RefusesActs (λ Such. LosesSuch Such self.old n) (on_disk self.old) (on_disk self.new)) }
    {
        let ScriptConnection {
            mut session,
            number,
        } = take_connection(alloc, &mut self.connections, n);
        let act = session.lost();
        drop(session);
        let mut text = String::new(alloc);
        match do_loss(alloc, &mut self.queue, n, number, act, &mut text) {
            Ok(_) => Ok(text),
            Err(fault) => {
                drop(text);
                Err(fault)
            }
        }
    }
}

/// Takes a connection out of the others; a new one if there is none of that number.
fn take_connection(
    alloc: Global,
    connections: &mut BTreeMap<u8, ScriptConnection>,
    n: u8,
) -> ScriptConnection
    ensures taken { result ≡ unwrap_or (lookup (is_at (nat_cmp n)) connections.old.entries) new_connection }
    ensures others { connections.new.entries ≡ remove_entry (is_at (nat_cmp n)) connections.old.entries }
{
    match connections.remove(&n) {
        Some(connection) => connection,
        None => ScriptConnection {
            session: Session::new(alloc),
            number: 0,
        },
    }
}

/// Gives bytes to a connection's session, and does what they ask for.
fn hear(
    alloc: Global,
    queue: &mut CommandQueue,
    n: u8,
    connection: &mut ScriptConnection,
    bytes: &[u8],
    text: &mut String,
) -> Result<(), QueueFault>
    ensures ok { OnOk result (ActsOn n bytes.now connection.old queue.old.queue (string_bytes text.old) connection.new queue.new.queue (string_bytes text.new)) }
    ensures refuses { IfErr result (RefusesActs (λ Such. HearsSuch Such n bytes.now connection.old queue.old.queue (string_bytes text.old)) queue.old queue.new) }
    ensures calm { OnOk result (StaysCalm queue.old queue.new) }
{
    let acts = connection.session.feed(alloc, bytes)?;
    let number = do_acts(alloc, queue, n, connection.number, acts, text)?;
    connection.number = number;
    Ok(())
}

/// Does what the loss of a connection asks for, if it asks for something; answers the number of its session then.
fn do_loss(
    alloc: Global,
    queue: &mut CommandQueue,
    connection: u8,
    number: u64,
    act: Option<Act>,
    text: &mut String,
) -> Result<u64, QueueFault>
    requires { IfSome act HasForm }
    ensures ok { IfOk result (λ n. progress_of n queue.new.queue (string_bytes text.new) ≡ acted_on connection (progress_of number queue.old.queue (string_bytes text.old)) act) }
    ensures within { OnOk result (IsSomeAnd act (IsTooFar connection queue.old.queue) → ⊥) }
    ensures refuses { IfErr result (RefusesActs (λ Such. IsSomeAnd act (Such connection queue.old.queue)) queue.old queue.new) }
    ensures calm { OnOk result (StaysCalm queue.old queue.new) }
{
    match act {
        Some(act) => do_act(alloc, queue, connection, number, act, text),
        None => Ok(number),
    }
}

/// Does what a connection's acts ask for, one after another; answers the number of its session then.
fn do_acts(
    alloc: Global,
    queue: &mut CommandQueue,
    connection: u8,
    number: u64,
    acts: Vec<Act>,
    text: &mut String,
) -> Result<u64, QueueFault>
    requires { AllByRecursion HasForm acts.items }
    ensures ok { IfOk result (λ n. progress_of n queue.new.queue (string_bytes text.new) ≡ fold (acted connection) (progress_of number queue.old.queue (string_bytes text.old)) acts.items) }
    ensures within { OnOk result (ComeTo connection IsTooFar (progress_of number queue.old.queue (string_bytes text.old)) acts.items → ⊥) }
    ensures refuses { IfErr result (RefusesActs (λ Such. ComeTo connection Such (progress_of number queue.old.queue (string_bytes text.old)) acts.items) queue.old queue.new) }
    ensures calm { OnOk result (StaysCalm queue.old queue.new) }
{
    let mut number = number;
    for act in acts {
        number = do_act(alloc, queue, connection, number, act, text)?;
    }
    Ok(number)
}

fn do_act(
    alloc: Global,
    queue: &mut CommandQueue,
    connection: u8,
    number: u64,
    act: Act,
    text: &mut String,
) -> Result<u64, QueueFault>
    requires { HasForm act }
    ensures ok { IfOk result (λ n. progress_of n queue.new.queue (string_bytes text.new) ≡ acted connection (progress_of number queue.old.queue (string_bytes text.old)) act) }
    ensures within { OnOk result (IsTooFar connection queue.old.queue act → ⊥) }
    ensures refuses { IfErr result (RefusesActs (λ Such. Such connection queue.old.queue act) queue.old queue.new) }
    ensures calm { OnOk result (StaysCalm queue.old queue.new) }
{
    match act {
        Act::Do(op, receipt) => queue.submit(alloc, connection, number, op, receipt, text),
        Act::Direct(notice) => {
            print_frame(alloc, text, connection, notice.frame())?;
            Ok(number)
        }
        Act::Close(_) => Ok(number),
    }
}
