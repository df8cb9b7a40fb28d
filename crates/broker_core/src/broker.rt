//! The broker, one command after another.

ghost use Rattle.std.specs.Prelude.{◌≡◌, ◌+◌, ◌++◌, ◌<◌, ◌^◌, ◌↔◌, false, true, IfOk, IfSome, IsSome, OnOk, length, map, ℕ, ◌≤◌, IsErr, ◌∷◌, []};
ghost use Rattle.std.specs.List.{sum_by};
ghost use Rattle.broker_state.specs.Operations.{restarted, ended, opened};
ghost use Rattle.broker_state.specs.PartsOf.{state_of_parts};
ghost use Rattle.broker_state.specs.Sound.{IsSound};
ghost use Rattle.broker_state.specs.States.{empty_state, held_messages, held_bytes};
ghost use Rattle.broker_state.specs.declared.subscription.Subscription.{Subscription};
ghost use Rattle.broker_tables.specs.Answers.{with_outs};
ghost use Rattle.waiting_order.specs.Waiting.{subs_of};
ghost use Rattle.broker_state.specs.Steps.{outs, outs_by, outs_v1, step, step_by, step_v1, is_opening, led_to, outs_to, replies, farewell, receipts};
ghost use Rattle.broker_state.specs.Executing.{HasFewMembers, applied, committed, executed};
ghost use Rattle.broker_state.specs.Parts.{leaving, is_end};
ghost use Rattle.command_core.specs.Texts.{IsGiven};
ghost use Rattle.command_core.specs.Operations.{IsOp};
ghost use Rattle.command_core.specs.Replies.{connected, error_frame};
ghost use Rattle.broker_state.specs.HandOut.{settled};
ghost use Rattle.broker_tables.specs.Sendings.{IsCarriedOut};
ghost use Rattle.broker_core.specs.Outcomes.{IsOutcome, is_send, led_in_session, outs_of};

use crate::precheck::precheck_members;
use broker_state::{
    DurableName, GivenName, Held, NackRule, Parts, Subscription, are_sound, held_of,
};
use broker_tables::{Answers, SharedLines, Tables};
use command_core::{
    Command, Dest, End, Fault, HeaderText, Member, Members, Op, Out, connected_reply, error_reply,
};
use indexmap::map::Slice;
use std::alloc::{AllocError, Global};
use std::collections::BTreeMap;
use std::marker::Model;
use std::mem::replace;
use thiserror::Error;
use waiting_order::{Key, Waiter};

/// The broker: it carries out commands one after another, numbered from 0, and answers each. Contracts see its state and
/// whether it is broken. It breaks if memory is refused within a command, and stays so for good. It holds nothing then.
#[derive(Drop)]
pub struct Broker {
    tables: Tables,
}

impl Model for Broker {
    ghost use Rattle.broker_state.specs.States.{BrokerValue};
    ghost use Rattle.broker_core.specs.Outcomes.{IsWholeOrEmpty};

    ghost Value = { BrokerValue };

    ghost view = { λ a. record { state = a.tables.state; broken = a.tables.broken } };

    ghost invariant = { λ a. IsWholeOrEmpty a.tables };
}

impl Broker {
    /// A broker that has carried out no command. No memory is taken.
    pub fn new(alloc: Global) -> Broker
        ensures { result ≡ record { state = empty_state; broken = false } }
    {
        Broker {
            tables: Tables::new(alloc, 0),
        }
    }

    /// A broker of the state that has these parts, or none if no broker can have it: if they do not go together, or
    /// something is over its limit. If memory is refused, the parts are let go.
    pub fn from_parts(alloc: Global, parts: Parts) -> Result<Option<Broker>, AllocError>
        ensures sound { IfOk result (λ found. IsSome found ↔ IsSound (state_of_parts parts)) }
        ensures state { IfOk result (λ found. IfSome found (λ broker. broker ≡ record { state = state_of_parts parts; broken = false })) }
    {
        if !are_sound(alloc, &parts)? {
            return Ok(None);
        }
        let held = held_of(&parts);
        let tables = Tables::of(alloc, parts, held)?;
        Ok(Some(Broker { tables }))
    }

    /// Carries out the command of the next number, and answers its outputs. A NACK keeps what it settles: it goes to
    /// `/queue/dead`, unless it is of a plain subscription of a topic or was refused before. The answer is `Memory` if
    /// memory is refused. Then what the broker held is let go, its count stays, and from then on the answer is `Broken`,
    /// which changes nothing.
    pub fn step(&mut self, alloc: Global, command: Command) -> Result<Vec<Out>, BrokerFault>
        requires { self.old.state.count < 2 ^ 62 }
        ensures state { OnOk result (self.new.state ≡ step self.old.state command) }
        ensures outs { IfOk result (λ given. given.items ≡ outs self.old.state command) }
        ensures outcome { IsOutcome self.old self.new result }
    {
        self.answer_by(alloc, NackRule::Keeps, command)
    }

    /// Carries out the command of the next number as `step` does, and its outputs come after those that wait already. If memory
    /// is refused, some of them may.
    pub fn step_onto(
        &mut self,
        alloc: Global,
        command: Command,
        waiting: &mut Vec<Out>,
    ) -> Result<(), BrokerFault>
        requires { self.old.state.count < 2 ^ 62 }
        ensures state { OnOk result (self.new.state ≡ step self.old.state command) }
        ensures outs { OnOk result (waiting.new.items ≡ waiting.old.items ++ outs self.old.state command) }
        ensures outcome { IsOutcome self.old self.new result }
    {
        let mut answers = Answers::after(replace(waiting, Vec::new(alloc)));
        let outcome = self.step_by(alloc, NackRule::Keeps, command, &mut answers);
        *waiting = answers.into_outs(alloc);
        outcome
    }

    /// Carries out the command of the next number as `step` does, but for a NACK: it drops all messages that it settles, as
    /// an ACK does. The commands of a journal of version 1 were carried out so. It answers `Memory` and `Broken` as `step`
    /// does.
    pub fn step_v1(&mut self, alloc: Global, command: Command) -> Result<Vec<Out>, BrokerFault>
        requires { self.old.state.count < 2 ^ 62 }
        ensures state { OnOk result (self.new.state ≡ step_v1 self.old.state command) }
        ensures outs { IfOk result (λ given. given.items ≡ outs_v1 self.old.state command) }
        ensures outcome { IsOutcome self.old self.new result }
    {
        self.answer_by(alloc, NackRule::Drops, command)
    }

    /// Carries out the command of the next number once more, and makes no output: they were given out before a stop, or nobody
    /// is there to hear them. A NACK goes by that rule. It answers `Memory` and `Broken` as `step` does.
    pub fn repeat(
        &mut self,
        alloc: Global,
        rule: NackRule,
        command: Command,
    ) -> Result<(), BrokerFault>
        requires { self.old.state.count < 2 ^ 62 }
        ensures state { OnOk result (self.new.state ≡ step_by rule self.old.state command) }
        ensures outcome { IsOutcome self.old self.new result }
    {
        self.step_by(alloc, rule, command, &mut Answers::let_go())
    }

    /// Carries out the command of the next number by that rule of NACK, and answers its outputs.
    fn answer_by(
        &mut self,
        alloc: Global,
        rule: NackRule,
        command: Command,
    ) -> Result<Vec<Out>, BrokerFault>
        requires { self.old.state.count < 2 ^ 62 }
        ensures state { OnOk result (self.new.state ≡ step_by rule self.old.state command) }
        ensures outs { IfOk result (λ given. given.items ≡ outs_by rule self.old.state command) }
        ensures outcome { IsOutcome self.old self.new result }
    {
        let mut answers = Answers::kept(alloc);
        match self.step_by(alloc, rule, command, &mut answers) {
            Ok(()) => Ok(answers.into_outs(alloc)),
            Err(fault) => Err(fault),
        }
    }

    /// Carries out the command of the next number by that rule of NACK. Its outputs are made if they are kept.
    fn step_by(
        &mut self,
        alloc: Global,
        rule: NackRule,
        command: Command,
        answers: &mut Answers,
    ) -> Result<(), BrokerFault>
        requires { self.old.state.count < 2 ^ 62 }
        ensures state { OnOk result (self.new.state ≡ step_by rule self.old.state command) }
        ensures outs { OnOk result (answers.new ≡ with_outs (outs_by rule self.old.state command) answers.old) }
        ensures outcome { IsOutcome self.old self.new result }
    {
        if self.tables.is_broken() {
            return Err(BrokerFault::Broken);
        }
        have_few_members(command.op());
        let count = self.tables.count();
        match execute(&mut self.tables, alloc, rule, command, answers) {
            Ok(()) => Ok(()),
            Err(refused) => {
                self.tables.let_go(alloc, count);
                Err(BrokerFault::Memory(refused))
            }
        }
    }

    /// Ends every session with its subscriptions, as a stop does, and hands nothing out. What was not acknowledged stands
    /// in its line again, but for plain subscriptions of topics. The answer is `Memory` if memory is refused. Then what the
    /// broker held is let go, its count stays, and from then on the answer is `Broken`, which changes nothing.
    pub fn restart(&mut self, alloc: Global) -> Result<(), BrokerFault>
        ensures state { OnOk result (self.new.state ≡ restarted self.old.state) }
        ensures outcome { IsOutcome self.old self.new result }
    {
        if self.tables.is_broken() {
            return Err(BrokerFault::Broken);
        }
        let count = self.tables.count();
        match self.tables.restart(alloc) {
            Ok(()) => Ok(()),
            Err(refused) => {
                self.tables.let_go(alloc, count);
                Err(BrokerFault::Memory(refused))
            }
        }
    }

    /// How many commands it has carried out.
    pub fn count(&self) -> u64
        ensures { result ≡ self.now.state.count }
    {
        self.tables.count()
    }

    /// Whether memory was refused within a command. If not, its state is one that a broker can have.
    pub fn is_broken(&self) -> bool
        ensures value { result ≡ self.now.broken }
        ensures sound { self.now.broken ≡ false → IsSound self.now.state }
    {
        self.tables.is_broken()
    }

    /// The number of the next delivery.
    pub fn next_delivery(&self) -> u64
        ensures { result ≡ self.now.state.next_delivery }
    {
        self.tables.next_delivery()
    }

    /// The open sessions, each with the name of its client if it has one.
    pub fn sessions(&self) -> &BTreeMap<u64, Option<GivenName>>
        ensures { result.now.entries ≡ self.now.state.sessions }
    {
        self.tables.sessions()
    }

    /// The topic of each durable name.
    pub fn durables(&self) -> &BTreeMap<DurableName, Dest>
        ensures { result.now.entries ≡ self.now.state.durables }
    {
        self.tables.durables()
    }

    /// The lines that stay when a subscription ends.
    pub fn shared(&self) -> &SharedLines
        ensures { result.now ≡ self.now.state.shared }
    {
        self.tables.shared()
    }

    /// How many subscriptions there are.
    pub fn subscription_count(&self) -> usize
        ensures { result ≡ length self.now.state.subscriptions }
    {
        self.tables.order().len()
    }

    /// The subscriptions in waiting order; the one that waits longest is the first.
    pub fn subscriptions(&self, alloc: Global) -> Result<Vec<&Subscription>, AllocError>
        ensures { IfOk result (λ subs. map (λ sub. sub.now) subs.items ≡ self.now.state.subscriptions) }
    {
        self.tables.order().in_order(alloc)
    }

    /// The subscriptions in any order, each with its key.
    pub fn subscriptions_by_key(&self) -> Slice<'_, Key, Waiter>
        ensures { (f : Subscription → ℕ) → sum_by f (subs_of result) ≡ sum_by f self.now.state.subscriptions }
    {
        self.tables.order().as_slice()
    }

    /// How much it holds: nothing once it is broken.
    pub fn held(&self) -> Held
        ensures messages { result.messages ≡ held_messages self.now.state }
        ensures bytes { result.bytes ≡ held_bytes self.now.state }
    {
        if self.tables.is_broken() {
            return Held {
                messages: 0,
                bytes: 0,
            };
        }
        self.tables.held()
    }
}

/// A transaction has at most 64 members: it knows that when it is asked. Nothing changes.
pub fn have_few_members(op: &Op)
    ensures { HasFewMembers op.now }
{
    if let Op::Commit(members) = op {
        let _members = members.as_slice();
    }
}

/// A member of a transaction is carried out. If it is refused, the tables are as they were.
fn apply(
    tables: &mut Tables,
    alloc: Global,
    rule: NackRule,
    session: u64,
    place: u32,
    member: Member,
) -> Result<Result<(), Fault>, AllocError>
    requires few { place < 64 }
    requires whole { tables.old.broken ≡ false }
    ensures applied { IfOk result (λ r. applied rule tables.old.state session place member ≡ leaving r tables.new.state) }
    ensures same { IfOk result (λ r. IsErr r → tables.new ≡ tables.old) }
    ensures whole { OnOk result (tables.new.broken ≡ false) }
{
    match member {
        Member::Send(sending) => tables.send(alloc, place, sending),
        Member::Ack(delivery) => tables.acknowledge(session, delivery),
        Member::Nack(delivery) => tables.nack(alloc, rule, place, session, delivery),
    }
}

/// The members of a transaction are carried out in their order, or refused together, and then the tables are as they were.
/// So they are checked before the first of them is carried out. If memory is refused, the tables may be broken.
pub fn commit(
    tables: &mut Tables,
    alloc: Global,
    rule: NackRule,
    session: u64,
    members: Members,
) -> Result<Result<(), Fault>, AllocError>
    requires whole { tables.old.broken ≡ false }
    ensures committed { IfOk result (λ r. committed rule tables.old.state session 0 members ≡ leaving r tables.new.state) }
    ensures same { IfOk result (λ r. IsErr r → tables.new ≡ tables.old) }
    ensures whole { OnOk result (tables.new.broken ≡ false) }
{
    match precheck_members(alloc, rule, tables, session, members.as_slice()) {
        Ok(Ok(())) => apply_all(tables, alloc, rule, session, members.into_vec()),
        refused => refused,
    }
}

/// Members are carried out in their order, up to the first one that is refused. What those before it did stays.
fn apply_all(
    tables: &mut Tables,
    alloc: Global,
    rule: NackRule,
    session: u64,
    members: Vec<Member>,
) -> Result<Result<(), Fault>, AllocError>
    requires few { length members.items ≤ 64 }
    requires whole { tables.old.broken ≡ false }
    ensures committed { IfOk result (λ r. committed rule tables.old.state session 0 members.items ≡ leaving r tables.new.state) }
    ensures whole { OnOk result (tables.new.broken ≡ false) }
{
    let mut place = 0;
    for member in members {
        if let Err(fault) = apply(tables, alloc, rule, session, place, member)? {
            return Ok(Err(fault));
        }
        place += 1;
    }
    Ok(Ok(()))
}

/// Carries out the command whose number is how many were carried out before it, and counts it. Its outputs, if they are kept,
/// are the MESSAGEs that it hands out, and then what answers it. A NACK goes by that rule. If memory is refused, the tables may
/// be broken.
pub fn execute(
    tables: &mut Tables,
    alloc: Global,
    rule: NackRule,
    command: Command,
    answers: &mut Answers,
) -> Result<(), AllocError>
    requires small { tables.old.state.count < 2 ^ 62 }
    requires whole { tables.old.broken ≡ false }
    requires due { tables.old.due ≡ 0 }
    ensures state { OnOk result (tables.new.state ≡ step_by rule tables.old.state command) }
    ensures outs { OnOk result (answers.new ≡ with_outs (outs_by rule tables.old.state command) answers.old) }
    ensures whole { OnOk result (tables.new.broken ≡ false) }
    ensures due { OnOk result (tables.new.due ≡ 0) }
{
    let number = tables.count();
    let (session, op, receipt) = command.into_parts();
    carry_out(tables, alloc, rule, session, op, receipt, answers)?;
    tables.set_count(number + 1);
    Ok(())
}

/// The same, before the command is counted. An operation other than an Open is carried out if its session is open.
fn carry_out(
    tables: &mut Tables,
    alloc: Global,
    rule: NackRule,
    session: u64,
    op: Op,
    receipt: Option<HeaderText>,
    answers: &mut Answers,
) -> Result<(), AllocError>
    requires form { IsOp op }
    requires whole { tables.old.broken ≡ false }
    requires due { tables.old.due ≡ 0 }
    ensures state { OnOk result (tables.new.state ≡ (led_to rule tables.old.state session op).state) }
    ensures outs { OnOk result (answers.new ≡ with_outs (outs_of rule tables.old.state session receipt op) answers.old) }
    ensures whole { OnOk result (tables.new.broken ≡ false) }
    ensures due { OnOk result (tables.new.due ≡ 0) }
{
    if let Op::Open { client_id } = op {
        open(tables, alloc, client_id, answers)?;
        return Ok(());
    }
    if !tables.sessions().contains_key(&session) {
        return Ok(());
    }
    execute_in_session(tables, alloc, rule, session, op, receipt, answers)?;
    Ok(())
}

/// A session is opened.
fn open(
    tables: &mut Tables,
    alloc: Global,
    client_id: Option<HeaderText>,
    answers: &mut Answers,
) -> Result<(), AllocError>
    requires form { IsGiven client_id }
    requires whole { tables.old.broken ≡ false }
    ensures state { OnOk result (tables.new.state ≡ (settled (opened tables.old.state client_id)).state) }
    ensures outs { OnOk result (answers.new ≡ with_outs ((settled (opened tables.old.state client_id)).outs ++ outs_to tables.old.state.count tables.old.state.count (connected tables.old.state.count ∷ [])) answers.old) }
    ensures whole { OnOk result (tables.new.broken ≡ false) }
    ensures due { OnOk result (tables.new.due ≡ 0) }
{
    let number = tables.count();
    tables.open(client_id)?;
    tables.settle(alloc, answers)?;
    answer_open(alloc, number, answers)
}

/// An operation of an open session is carried out.
fn execute_in_session(
    tables: &mut Tables,
    alloc: Global,
    rule: NackRule,
    session: u64,
    op: Op,
    receipt: Option<HeaderText>,
    answers: &mut Answers,
) -> Result<(), AllocError>
    requires form { IsOp op }
    requires other { is_opening op ≡ false }
    requires whole { tables.old.broken ≡ false }
    ensures state { OnOk result (tables.new.state ≡ (led_in_session rule tables.old.state session op).state) }
    ensures outs { OnOk result (answers.new ≡ with_outs ((led_in_session rule tables.old.state session op).outs ++ outs_to tables.old.state.count session (replies rule tables.old.state session op receipt)) answers.old) }
    ensures whole { OnOk result (tables.new.broken ≡ false) }
    ensures due { OnOk result (tables.new.due ≡ 0) }
{
    let number = tables.count();
    if let Op::End(end) = op {
        end_and_settle(tables, alloc, session, answers)?;
        answer_end(alloc, number, session, end, receipt, answers)?;
        return Ok(());
    }
    match execute_and_settle(tables, alloc, rule, session, op, answers)? {
        Ok(()) => answer_done(alloc, number, session, receipt, answers),
        Err(fault) => {
            end_and_settle(tables, alloc, session, answers)?;
            answer_refused(alloc, number, session, fault, receipt, answers)?;
            Ok(())
        }
    }
}

/// An operation of an open session other than its end is carried out, and what waits is handed out. If it is refused, the
/// tables are as they were.
fn execute_and_settle(
    tables: &mut Tables,
    alloc: Global,
    rule: NackRule,
    session: u64,
    op: Op,
    answers: &mut Answers,
) -> Result<Result<(), Fault>, AllocError>
    requires form { IsOp op }
    requires other { (is_opening op ≡ false) × (is_end op ≡ false) }
    requires whole { tables.old.broken ≡ false }
    ensures executed { IfOk result (λ r. IsCarriedOut (executed rule tables.old.state session op) tables.old answers.old r tables.new answers.new) }
    ensures whole { OnOk result (tables.new.broken ≡ false) }
{
    if let Op::Send(sending) = op {
        return tables.send_out(alloc, sending, answers);
    }
    match execute_operation(tables, alloc, rule, session, op)? {
        Ok(()) => {
            tables.settle(alloc, answers)?;
            Ok(Ok(()))
        }
        Err(fault) => Ok(Err(fault)),
    }
}

/// A session ends, and what waits is handed out.
fn end_and_settle(
    tables: &mut Tables,
    alloc: Global,
    session: u64,
    answers: &mut Answers,
) -> Result<(), AllocError>
    requires whole { tables.old.broken ≡ false }
    ensures state { OnOk result (tables.new.state ≡ (settled (ended tables.old.state session)).state) }
    ensures outs { OnOk result (answers.new ≡ with_outs (settled (ended tables.old.state session)).outs answers.old) }
    ensures whole { OnOk result (tables.new.broken ≡ false) }
    ensures due { OnOk result (tables.new.due ≡ 0) }
{
    tables.end(alloc, session)?;
    tables.settle(alloc, answers)
}

/// An operation of an open session other than its end or a SEND is carried out, before anything is handed out. If it is
/// refused, the tables are as they were.
fn execute_operation(
    tables: &mut Tables,
    alloc: Global,
    rule: NackRule,
    session: u64,
    op: Op,
) -> Result<Result<(), Fault>, AllocError>
    requires form { IsOp op }
    requires other { (is_opening op ≡ false) × (is_end op ≡ false) × (is_send op ≡ false) }
    requires whole { tables.old.broken ≡ false }
    ensures executed { IfOk result (λ r. executed rule tables.old.state session op ≡ leaving r tables.new.state) }
    ensures same { IfOk result (λ r. IsErr r → tables.new ≡ tables.old) }
    ensures whole { OnOk result (tables.new.broken ≡ false) }
{
    match op {
        Op::Ack(delivery) => tables.acknowledge(session, delivery),
        Op::Nack(delivery) => tables.nack(alloc, rule, 0, session, delivery),
        Op::Commit(members) => commit(tables, alloc, rule, session, members),
        Op::Subscribe {
            id,
            destination,
            mode,
            durable,
        } => tables.subscribe(alloc, session, id, destination, mode, durable),
        Op::Unsubscribe { id, durable } => tables.unsubscribe(alloc, session, id, durable),
        Op::Note | Op::Open { .. } | Op::End(_) | Op::Send(_) => Ok(Ok(())),
    }
}

/// CONNECTED, to the session that the command of that number opens.
pub fn answer_open(alloc: Global, number: u64, answers: &mut Answers) -> Result<(), AllocError>
    ensures { OnOk result (answers.new ≡ with_outs (outs_to number number (connected number ∷ [])) answers.old) }
{
    if !answers.are_kept() {
        return Ok(());
    }
    let frame = connected_reply(alloc, number)?;
    let out = Out::new(alloc, number, number, frame)?;
    answers.add(out)
}

/// RECEIPT, if one was asked for.
pub fn answer_done(
    alloc: Global,
    number: u64,
    session: u64,
    receipt: Option<HeaderText>,
    answers: &mut Answers,
) -> Result<(), AllocError>
    ensures { OnOk result (answers.new ≡ with_outs (outs_to number session (receipts receipt)) answers.old) }
{
    let Some(id) = receipt else {
        return Ok(());
    };
    if !answers.are_kept() {
        drop(id);
        return Ok(());
    }
    let out = Out::receipt(alloc, number, session, id)?;
    answers.add(out)
}

/// ERROR, with the receipt if one was asked for.
pub fn answer_refused(
    alloc: Global,
    number: u64,
    session: u64,
    fault: Fault,
    receipt: Option<HeaderText>,
    answers: &mut Answers,
) -> Result<(), AllocError>
    ensures { OnOk result (answers.new ≡ with_outs (outs_to number session (error_frame fault receipt ∷ [])) answers.old) }
{
    if !answers.are_kept() {
        drop(receipt);
        return Ok(());
    }
    let frame = error_reply(alloc, fault, receipt)?;
    let out = Out::new(alloc, number, session, frame)?;
    answers.add(out)
}

/// What the end of a session answers.
pub fn answer_end(
    alloc: Global,
    number: u64,
    session: u64,
    end: End,
    receipt: Option<HeaderText>,
    answers: &mut Answers,
) -> Result<(), AllocError>
    ensures { OnOk result (answers.new ≡ with_outs (outs_to number session (farewell end receipt)) answers.old) }
{
    match end {
        End::Bye => answer_done(alloc, number, session, receipt, answers),
        End::Lost => Ok(()),
        End::Bad(fault) => answer_refused(alloc, number, session, fault, receipt, answers),
    }
}

/// Why a broker did not carry out a command or a restart.
#[derive(Debug, Drop, Error)]
pub enum BrokerFault {
    /// Memory was refused within this call: the broker is broken from now on.
    #[error(transparent)]
    Memory(#[from(alloc)] AllocError),
    /// Memory was refused before, within a call.
    #[error("broken broker")]
    Broken,
}
