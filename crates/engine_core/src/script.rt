//! A script as far as it has run, line by line.

ghost use Rattle.std.specs.Prelude.{◌≡◌, ◌≤◌, ◌^◌, ◌++◌, List, ℕ, IfErr, IfNone, IfOk, IfSome, MatchOption, OnOk, true, string_bytes};
ghost use Rattle.engine_core.specs.Journals.{IsFull, StandsAfterFront};
ghost use Rattle.engine_core.specs.Placed.{commands_of};
ghost use Rattle.engine_core.specs.OfQueue.{IsMemory};
ghost use Rattle.engine_core.specs.Scripts.{HasFailed, IsOpenedAs, StandsAs, disk_of, is_there, open_text};
ghost use Rattle.engine_core.specs.StepFaults.{IsCrashTold, IsOpeningTold};

use crate::command_queue::Waiting;
use crate::fault::QueueFault;
use crate::journal::Journal;
use crate::running_script::RunningScript;
use disk_core::MemDisk;
use flush_core::FlushFault;
use script_text::{ScriptLine, decode_text, read_line};
use std::alloc::Global;
use std::mem;

/// A script as far as it has run.
#[derive(Drop)]
pub enum Script {
    /// Its disk runs.
    Running(RunningScript),
    /// Its disk has stopped, and is to be opened.
    Stopped(MemDisk),
    /// Its disk is elsewhere, which is so only within a step.
    Over,
}

impl Script {
    ghost use Rattle.script_text.specs.PercentTexts.{decoded};
    ghost use Rattle.engine_core.specs.Queues.{IsAny, LacksRoom, flush_text, flushed};
    ghost use Rattle.engine_core.specs.Refusals.{RefusesActs, RefusesFlush, RefusesRunning};
    ghost use Rattle.engine_core.specs.Running.{Loses, LosesSuch, Receives, ReceivesSuch, on_disk};
    ghost use Rattle.engine_core.specs.StepFaults.{IsCrashTold, IsLineTold, IsOpeningTold};
    ghost use Rattle.engine_core.specs.Scripts.{Crashes, GoesBy, IsNotUnderstood, IsStopped, OnRunning, Opens, Prints, RunsTooFar, disk_of, is_there};

    /// Does what a line asks for, and answers what it prints; `None` if the line is not understood. The disk is still
    /// there, whatever is reported.
    pub fn perform(&mut self, alloc: Global, line: &[u8]) -> Result<Option<String>, QueueFault>
        requires { is_there self.old ≡ true }
        ensures there { is_there self.new ≡ true }
        ensures ok { IfOk result (λ printed. MatchOption printed (IsNotUnderstood self.old line.now × (self.new ≡ self.old))
            (λ text. Prints self.old line.now (string_bytes text) self.new)) }
        ensures err { IfErr result (λ fault. fault ≡ QueueFault.CountTooLarge → RunsTooFar self.old line.now) }
        ensures told { IfErr result (IsLineTold self.old line.now (disk_of self.new)) }
    {
        match read_line(line) {
            None => Ok(None),
            Some(ScriptLine::Blank) => Ok(Some(String::new(alloc))),
            Some(ScriptLine::Open) => Ok(Some(self.open(alloc)?)),
            Some(ScriptLine::Crash { calls, fill }) => self.crash(alloc, calls, fill),
            Some(ScriptLine::Flush) => self.flush(alloc),
            Some(ScriptLine::Lose { connection }) => self.lose(alloc, connection),
            Some(ScriptLine::Receive { connection, text }) => self.receive(alloc, connection, text),
        }
    }

    /// The disk, as the lines have left it.
    pub fn into_disk(self) -> MemDisk
        requires { is_there self ≡ true }
        ensures { result ≡ disk_of self }
    {
        match whole_disk(self) {
            Ok(disk) | Err(disk) => disk,
        }
    }

    /// Opens the disk, and begins anew with what it stands for; answers what is printed. A disk that is not opened has stopped.
    fn open(&mut self, alloc: Global) -> Result<String, QueueFault>
        requires { is_there self.old ≡ true }
        ensures there { is_there self.new ≡ true }
        ensures ok { IfOk result (λ text. Opens self.old (string_bytes text) self.new) }
        ensures told { IfErr result (IsOpeningTold self.old (disk_of self.new)) }
    {
        match whole_disk(mem::replace(self, Script::Over)) {
            Ok(disk) => self.begin_anew(alloc, disk),
            Err(disk) => {
                drop(mem::replace(self, Script::Stopped(disk)));
                Err(QueueFault::Storing(FlushFault::Broken))
            }
        }
    }

    // Begins with what a disk stands for.
    fn begin_anew(&mut self, alloc: Global, disk: MemDisk) -> Result<String, QueueFault>
        ensures there { is_there self.new ≡ true }
        ensures ok { IfOk result (λ text. Opens (Script.Stopped disk) (string_bytes text) self.new) }
        ensures told { IfErr result (IsOpeningTold (Script.Stopped disk) (disk_of self.new)) }
    {
        let mut text = String::new(alloc);
        match open_journal(alloc, disk, &mut text) {
            Ok(journal) => {
                let running = Script::Running(RunningScript::over(alloc, journal));
                drop(mem::replace(self, running));
                Ok(text)
            }
            Err((disk, fault)) => {
                drop(text);
                drop(mem::replace(self, Script::Stopped(disk)));
                Err(fault)
            }
        }
    }

    /// The disk stops within a flush, of which nothing is printed; `None` if it has stopped before.
    fn crash(
        &mut self,
        alloc: Global,
        calls: u64,
        fill: Option<u8>,
    ) -> Result<Option<String>, QueueFault>
        requires { is_there self.old ≡ true }
        ensures there { is_there self.new ≡ true }
        ensures ok { IfOk result (λ printed. MatchOption printed (IsStopped self.old × (self.new ≡ self.old))
            (λ text. OnRunning self.old (λ s. Crashes s (string_bytes text) self.new))) }
        ensures full { IfErr result (λ fault. fault ≡ QueueFault.Storing FlushFault.Full → OnRunning self.old (λ s. LacksRoom (disk_of self.new).content s.queue)) }
        ensures told { IfErr result (λ fault. IsCrashTold fault × OnRunning self.old (λ s. IsAny s.queue)) }
    {
        match mem::replace(self, Script::Over) {
            Script::Running(script) => {
                let (waiting, journal) = script.into_queue().into_parts();
                let (disk, fault) = stop_within(alloc, journal, waiting, calls, fill);
                drop(mem::replace(self, Script::Stopped(disk)));
                match fault {
                    None => Ok(Some(String::new(alloc))),
                    Some(fault) => Err(fault),
                }
            }
            stopped => {
                drop(mem::replace(self, stopped));
                Ok(None)
            }
        }
    }

    /// Flushes; answers what is printed, `None` if the disk has stopped.
    fn flush(&mut self, alloc: Global) -> Result<Option<String>, QueueFault>
        requires { is_there self.old ≡ true }
        ensures there { is_there self.new ≡ true }
        ensures ok { IfOk result (λ printed. MatchOption printed (IsStopped self.old × (self.new ≡ self.old))
            (λ text. GoesBy self.old (λ s u. (string_bytes text ≡ flush_text s.queue) × (u ≡ record s { queue = flushed s.queue; disk = u.disk })) self.new)) }
        ensures refuses { IfErr result (RefusesRunning (λ s. RefusesFlush (on_disk s)) self.old self.new) }
    {
        match self {
            Script::Running(script) => Ok(Some(script.flush(alloc)?)),
            Script::Stopped(_) | Script::Over => Ok(None),
        }
    }

    /// A connection is gone; answers what is printed, `None` if the disk has stopped.
    fn lose(&mut self, alloc: Global, n: u8) -> Result<Option<String>, QueueFault>
        requires { is_there self.old ≡ true }
        ensures there { is_there self.new ≡ true }
        ensures ok { IfOk result (λ printed. MatchOption printed (IsStopped self.old × (self.new ≡ self.old))
            (λ text. GoesBy self.old (λ s u. Loses s n (string_bytes text) u) self.new)) }
        ensures refuses { IfErr result (RefusesRunning (λ s. RefusesActs (λ Such. LosesSuch Such s n) (on_disk s)) self.old self.new) }
    {
        match self {
            Script::Running(script) => Ok(Some(script.lose(alloc, n)?)),
            Script::Stopped(_) | Script::Over => Ok(None),
        }
    }

    /// A connection receives what a text stands for; answers what is printed, `None` if the disk has stopped.
    fn receive(&mut self, alloc: Global, n: u8, text: &[u8]) -> Result<Option<String>, QueueFault>
        requires { is_there self.old ≡ true }
        ensures there { is_there self.new ≡ true }
        ensures ok { IfOk result (λ printed. MatchOption printed (IsStopped self.old × (self.new ≡ self.old))
            (λ answer. GoesBy self.old (λ s u. Receives s n (decoded text.now) (string_bytes answer) u) self.new)) }
        ensures refuses { IfErr result (RefusesRunning (λ s. RefusesActs (λ Such. ReceivesSuch Such s n (decoded text.now)) (on_disk s)) self.old self.new) }
    {
        match self {
            Script::Running(script) => {
                let bytes = decode_text(alloc, text)?;
                Ok(Some(script.receive(alloc, n, bytes.as_slice())?))
            }
            Script::Stopped(_) | Script::Over => Ok(None),
        }
    }
}

// The disk, as an error if a step of a script failed.
fn whole_disk(script: Script) -> Result<MemDisk, MemDisk>
    requires { is_there script ≡ true }
    ensures ok { IfOk result (λ disk. (disk ≡ disk_of script) × StandsAs script disk) }
    ensures failed { IfErr result (λ disk. (disk ≡ disk_of script) × HasFailed script) }
{
    match script {
        Script::Running(script) => script.into_disk(),
        Script::Stopped(disk) => Ok(disk),
        Script::Over => unreachable!(),
    }
}

// Records what waits within `calls` calls of the disk. Then the disk stops, and has the fill in what was not synced, or,
// without a fill, what it held at the last sync. If what waits is not recorded for another reason, that is reported too.
fn stop_within(
    alloc: Global,
    journal: Journal<MemDisk>,
    waiting: Vec<Waiting>,
    calls: u64,
    fill: Option<u8>,
) -> (MemDisk, Option<QueueFault>)
    ensures stands { IfNone result.1 (∥ StandsAfterFront journal.state (commands_of waiting.items) result.0.content ∥₁) }
    ensures full { IfSome result.1 (λ fault. fault ≡ QueueFault.Storing FlushFault.Full → IsFull journal.state (commands_of waiting.items) result.0.content) }
    ensures told { IfSome result.1 IsCrashTold }
{
    let mut fused = journal.fuse(calls);
    match fused.record(alloc, waiting) {
        Ok(outs) => {
            drop(outs);
            let mut disk = fused.into_disk().into_inner();
            disk.crash(fill);
            (disk, None)
        }
        Err(fault) => (
            fused.into_disk().into_inner(),
            Some(QueueFault::Storing(beside_stop(fault))),
        ),
    }
}

// The fault if a disk was to stop: that it did is none.
fn beside_stop(fault: FlushFault) -> FlushFault
    ensures kind { IsCrashTold (QueueFault.Storing result) }
    ensures full { result ≡ FlushFault.Full → fault ≡ FlushFault.Full }
{
    match fault {
        FlushFault::Full => FlushFault::Full,
        FlushFault::Memory(refused) => FlushFault::Memory(refused),
        FlushFault::Device | FlushFault::Broken => FlushFault::Broken,
    }
}

// Opens the journal of a disk, and adds its line to the text.
fn open_journal(
    alloc: Global,
    disk: MemDisk,
    text: &mut String,
) -> Result<Journal<MemDisk>, (MemDisk, QueueFault)>
    ensures opened { IfOk result (λ journal. IsOpenedAs disk journal.state journal.disk) }
    ensures durable { IfOk result (λ journal. journal.durable ≡ true) }
    ensures text { IfOk result (λ journal. string_bytes text.new ≡ string_bytes text.old ++ open_text journal.state) }
    ensures small { IfOk result (λ journal. journal.state.count ≤ 2 ^ 61) }
    ensures told { IfErr result (λ back. IsOpeningTold (Script.Stopped disk) back.0 back.1) }
{
    match Journal::open(alloc, disk) {
        Ok(journal) => match tell(alloc, &journal, text) {
            Ok(()) => Ok(journal),
            Err(fault) => Err((journal.into_disk(), fault)),
        },
        Err((disk, fault)) => Err((disk, QueueFault::Opening(fault))),
    }
}

// Adds the line of a journal to the text: how many commands it counts, and how many messages it holds.
fn tell(alloc: Global, journal: &Journal<MemDisk>, text: &mut String) -> Result<(), QueueFault>
    requires durable { journal.now.durable ≡ true }
    ensures ok { OnOk result (string_bytes text.new ≡ string_bytes text.old ++ open_text journal.now.state) }
    ensures memory { IfErr result IsMemory }
{
    let held = journal.held().unwrap();
    let count = journal.count();
    let line = format!(in alloc; "open {count} {held}\n")?;
    let told = text.push_str(line.as_str());
    drop(line);
    told?;
    Ok(())
}
