//! What a session has asked for that is still to be done.

ghost use Rattle.std.specs.Prelude.{◌≡◌, ◌≢◌, ◌≤◌, ◌-◌, ◌^◌, ◌++◌, [], None, Some, true, false, min, option_to_list, IfSome, IfOk, IfErr, ◌*◌, length};
ghost use Rattle.std.specs.List.{AllByRecursion};
ghost use Rattle.std.specs.VecDeque.{deque_capacity};
ghost use Rattle.session_core.specs.Sessions.{HasForm};
ghost use Rattle.claim_core.specs.declared.limits.TheConstants.{WINDOW};
ghost use Rattle.claim_core.specs.Appends.{Refuses};
ghost use Rattle.clients.specs.Acts.{tasks, all_of};
ghost use Rattle.clients.specs.Weights.{weight_of_all, headers_of_all, headers_of_member, headers_of_op, op_weight, weight_of};
ghost use Rattle.clients.specs.Boxes.{HasBox, IsBoxFor};
ghost use Rattle.clients.specs.Footprints.{charged, spent, total, settled};
ghost use Rattle.clients.specs.Progress.{IsNext};
ghost use Rattle.clients.specs.Continues.{Continues};
ghost use Rattle.clients.specs.ClientSteps.{SaysNext};

use crate::footprint::Footprint;
use crate::progress::{Progress, Role, is_last, last_after};
use crate::wakers::Wakers;
use claim_core::{BrokerRing, BrokerSeat, Refused};
use command_core::{Command, Entry, HeaderText, Member, Op, op_size, option_size};
use outbox_core::{Bell, BoxSize, OutSender, OutTaker, outbox};
use session_core::Act;
use std::alloc::{AllocError, Global};
use std::collections::VecDeque;
use std::marker::Model;

// How many bytes a frame that waits takes beside its texts.
const FRAME_BYTES: u64 = 512;

// How many bytes a header takes beside its name and value, which stand in blocks of their own.
const HEADER_BYTES: u64 = 128;

// How many bytes an ERROR takes at most: it repeats one header of its client's frame. No more than one waits.
const NOTICE_BYTES: u64 = 9_216;

/// The acts of a session that are still to be done, in their order, each in its form. Contracts see the one that was tried
/// and is to be tried again, and those after it. The list of these is given back once it is empty.
#[derive(Drop)]
pub(crate) struct Acts {
    again: Option<Act>,
    rest: VecDeque<Act>,
    // What they count for, which a list that fits into memory can't make pass a u128.
    bytes: u128,
}

impl Model for Acts {
    ghost use Rattle.std.specs.Prelude.{◌≡◌, ◌≤◌, ◌^◌, ◌++◌, []};
    ghost use Rattle.std.specs.List.{AllByRecursion};
    ghost use Rattle.std.specs.VecDeque.{deque_capacity};
    ghost use Rattle.session_core.specs.Sessions.{HasForm};
    ghost use Rattle.clients.specs.Acts.{Tasks, tasks, all_of};
    ghost use Rattle.clients.specs.Weights.{weight_of_all};

    ghost Value = { Tasks };

    ghost view = { λ a. tasks a.again a.rest.items };

    ghost invariant = { λ a. AllByRecursion HasForm (all_of (tasks a.again a.rest.items)) × (a.bytes ≡ weight_of_all (all_of (tasks a.again a.rest.items))) × (weight_of_all a.rest.items ≤ 2 ^ 96) × (a.rest.items ≡ [] → deque_capacity a.rest ≡ 0) };
}

impl Acts {
    pub(crate) fn none(alloc: Global) -> Acts
        ensures { result ≡ tasks None [] }
    {
        let mut rest = VecDeque::new(alloc);
        give_back(&mut rest);
        Acts {
            again: None,
            rest,
            bytes: 0,
        }
    }

    // No memory is taken.
    pub(crate) fn all(acts: Vec<Act>) -> Acts
        requires { AllByRecursion HasForm acts.items }
        ensures { result ≡ tasks None acts.items }
    {
        let bytes = weigh_all(acts.as_slice());
        let mut rest = VecDeque::from(acts);
        give_back(&mut rest);
        Acts {
            again: None,
            rest,
            bytes,
        }
    }

    pub(crate) fn is_empty(&self) -> bool
        ensures yes { result ≡ true → all_of self.now ≡ [] }
        ensures no { result ≡ false → all_of self.now ≢ [] }
    {
        self.again.is_none() && self.rest.is_empty()
    }

    // What they count for, or 2^64 - 1 if that is less.
    pub(crate) fn bytes(&self) -> u64
        ensures { result ≡ min (weight_of_all (all_of self.now)) (2 ^ 64 - 1) }
    {
        self.bytes.min(u64::MAX as u128) as u64
    }

    pub(crate) fn next(&mut self) -> Option<Act>
        ensures next { all_of self.old ≡ option_to_list result ++ all_of self.new }
        ensures none { result ≡ None → all_of self.old ≡ [] }
        ensures first { self.new.again ≡ None }
        ensures form { IfSome result HasForm }
    {
        let act = take_first(&mut self.again, &mut self.rest)?;
        self.bytes -= weigh(&act) as u128;
        Some(act)
    }

    // Puts back the act that came last, to be the next again.
    pub(crate) fn put_back(&mut self, act: Act)
        requires form { HasForm act }
        requires first { self.old.again ≡ None }
        ensures { self.new ≡ record self.old { again = Some act } }
    {
        self.bytes += weigh(&act) as u128;
        drop(self.again.replace(act));
    }
}

// The first of all, if there is one. The list is given back with its last.
fn take_first(again: &mut Option<Act>, rest: &mut VecDeque<Act>) -> Option<Act>
    ensures next { all_of (tasks again.old rest.old.items) ≡ option_to_list result ++ all_of (tasks again.new rest.new.items) }
    ensures none { result ≡ None → all_of (tasks again.old rest.old.items) ≡ [] }
    ensures first { again.new ≡ None }
    ensures light { weight_of_all rest.new.items ≤ weight_of_all rest.old.items }
    ensures empty { rest.new.items ≡ [] → deque_capacity rest.new ≡ 0 }
{
    let act = match again.take() {
        Some(act) => Some(act),
        None => rest.pop_front(),
    };
    give_back(rest);
    act
}

// Gives the memory of an empty list back.
fn give_back(rest: &mut VecDeque<Act>)
    ensures same { rest.new.items ≡ rest.old.items }
    ensures empty { rest.new.items ≡ [] → deque_capacity rest.new ≡ 0 }
{
    if rest.is_empty() {
        rest.shrink_to_fit();
    }
}

/// The entry of a command that is to be appended. That of an Open carries the giving end of a new outbox, and has its taking end beside
/// it; no other command has a box.
pub(crate) type Boxed<B> = (Entry<OutSender<B>>, Option<OutTaker>);

// Makes the entry of a command, with its box, and counts the command. If memory is refused for any of them, the command comes back and
// nothing has changed.
pub fn charge<B: Bell, M: Wakers<B>>(
    alloc: Global,
    wakers: &M,
    footprint: &mut Footprint,
    command: Command,
) -> Result<Boxed<B>, Command>
    requires { total (charged footprint.old.parts command.op) ≤ footprint.old.room }
    ensures ok { IfOk result (λ boxed. (boxed.0.command ≡ command) × (footprint.new ≡ spent footprint.old command.op)) }
    ensures boxed { IfOk result (λ boxed. HasBox boxed.0 boxed.1) }
    ensures back { IfErr result (λ back. (back ≡ command) × (footprint.new ≡ footprint.old)) }
{
    let (entry, taker) = boxed(alloc, wakers, command)?;
    match footprint.charge(alloc, entry.command().op()) {
        Ok(()) => Ok((entry, taker)),
        Err(_) => Err(command_of(entry)),
    }
}

// The entry of a command, with its box.
fn boxed<B: Bell, M: Wakers<B>>(
    alloc: Global,
    wakers: &M,
    command: Command,
) -> Result<Boxed<B>, Command>
    ensures ok { IfOk result (λ boxed. (boxed.0.command ≡ command) × HasBox boxed.0 boxed.1) }
    ensures back { IfErr result (λ back. back ≡ command) }
{
    let Ok((sender, taker)) = box_for(alloc, wakers, Role::of(command.op())) else {
        return Err(command);
    };
    match Entry::new(alloc, command, sender) {
        Ok(entry) => Ok((entry, taker)),
        Err((command, _)) => Err(command),
    }
}

// The command. Its entry and its box are let go.
fn command_of<B: Bell>(entry: Entry<OutSender<B>>) -> Command
    ensures { result ≡ entry.command }
{
    let (command, _) = entry.into_parts();
    command
}

// The ends of a new outbox, for an Open alone.
fn box_for<B: Bell, M: Wakers<B>>(
    alloc: Global,
    wakers: &M,
    role: Role,
) -> Result<(Option<OutSender<B>>, Option<OutTaker>), AllocError>
    ensures { IfOk result (λ ends. IsBoxFor role ends.0 ends.1) }
{
    if role != Role::Opens {
        return Ok((None, None));
    }
    let (sender, taker) = outbox(alloc, wakers.bell()?, BoxSize::SERVER)?;
    Ok((Some(sender), Some(taker)))
}

/// The bytes that an act counts for.
pub(crate) fn weigh(act: &Act) -> u64
    ensures weight { result ≡ weight_of act.now }
    ensures small { result ≤ 2 ^ 32 }
{
    match act {
        Act::Do(op, receipt) => weigh_op(op, receipt),
        Act::Direct(_) => NOTICE_BYTES,
        Act::Close(_) => FRAME_BYTES,
    }
}

/// The bytes that these acts count for together.
pub(crate) fn weigh_all(acts: &[Act]) -> u128
    ensures weight { result ≡ weight_of_all acts.now }
    ensures small { result ≤ 2 ^ 96 }
{
    let mut bytes = 0u128;
    for act in acts {
        bytes += weigh(act) as u128;
    }
    bytes
}

/// The bytes that an operation counts for, with the receipt that it asks for: those of its record, and more for each header of its
/// messages.
pub fn weigh_op(op: &Op, receipt: &Option<HeaderText>) -> u64
    ensures weight { result ≡ op_weight op.now receipt.now }
    ensures small { result ≤ 2 ^ 32 }
{
    FRAME_BYTES + op_size(op) + option_size(receipt) + HEADER_BYTES * headers_of_op(op)
}

// How many headers its messages have.
fn headers_of_op(op: &Op) -> u64
    ensures count { result ≡ headers_of_op op.now }
    ensures few { result ≤ 4096 }
{
    match op {
        Op::Send(sending) => sending.headers().as_slice().len() as u64,
        Op::Commit(members) => headers_of_all(members.as_slice()),
        _ => 0,
    }
}

fn headers_of_all(members: &[Member]) -> u64
    requires { length members.now ≤ 64 }
    ensures count { result ≡ headers_of_all members.now }
    ensures few { result ≤ 64 * 64 }
{
    let mut count = 0;
    for member in members {
        count += headers_of_member(member);
    }
    count
}

fn headers_of_member(member: &Member) -> u64
    ensures count { result ≡ headers_of_member member.now }
    ensures few { result ≤ 64 }
{
    match member {
        Member::Send(sending) => sending.headers().as_slice().len() as u64,
        Member::Ack(_) | Member::Nack(_) => 0,
    }
}

// Appends the next command of a conversation, and answers its ticket. If the ring refuses, the entry comes back.
pub fn speak<B: Drop>(
    ring: &BrokerRing<B>,
    seat: &mut BrokerSeat<B>,
    progress: &mut Progress,
    last_receipt: &mut Option<u64>,
    entry: Entry<B>,
    window: usize,
) -> Result<u64, (Entry<B>, Refused)>
    requires ring { seat.old.ring ≡ ring.now }
    requires next { IsNext progress.old entry.command }
    requires window { window ≤ WINDOW }
    ensures continues { Continues progress.old seat.old progress.new seat.new }
    ensures spoken { IfOk result (SaysNext entry.command progress.old last_receipt.old seat.old progress.new last_receipt.new seat.new) }
    ensures back { IfErr result (λ back. (back.0 ≡ entry) × Refuses window seat.old seat.new back.1 × (progress.new ≡ progress.old) × (last_receipt.new ≡ last_receipt.old)) }
{
    let role = Role::of(entry.command().op());
    let is_last = is_last(entry.command());
    match ring.append_within(seat, entry, window) {
        Ok(ticket) => {
            *progress = progress.after(role, ticket);
            *last_receipt = last_after(*last_receipt, is_last, ticket);
            Ok(ticket)
        }
        Err(back) => Err(back),
    }
}
