//! A session: what the frames of one connection ask of the broker.

ghost use Rattle.std.specs.Prelude.{◌≡◌, ◌++◌, None, IfOk, IsSome, OnOk, MatchResult};
ghost use Rattle.std.specs.List.{AllByRecursion};
ghost use Rattle.tx_core.specs.TxFaults.{fault_of};
ghost use Rattle.frame_core.specs.declared.frame.Verb.TheVariants as verbs;
ghost use Rattle.frame_core.specs.Writable.{Writable};
ghost use Rattle.session_core.specs.ReadFrames.{IsRead};
ghost use Rattle.session_core.specs.Sessions.{acts_of, executed, ends_by, first_answered, heard, next, note, phase_of, refused, told, unless, does};
ghost use Rattle.session_core.specs.declared.session.Phase.TheVariants as phases;
ghost use Rattle.session_core.specs.declared.requests.Request.TheVariants as requests;

use crate::requests::{Request, ask, ask_first, receipt};
use command_core::{End, Fault, HeaderText, Member, Op, error_reply};
use frame_core::{Frame, FrameReader};
use std::alloc::{AllocError, Global};
use std::marker::Model;
use std::mem;
use thiserror::Error;
use tx_core::{OpenTx, TxFault};

/// Why bytes were not taken.
#[derive(Debug, Drop, Error)]
pub enum SessionFault {
    /// Memory was refused. The session has failed.
    #[error("no memory")]
    Memory,
    /// The session has failed before.
    #[error("session failed")]
    Failed,
}

/// A session of STOMP 1.2. Contracts see the bytes of the frame that isn't finished, and where the session stands.
#[derive(Drop)]
pub struct Session {
    reader: FrameReader,
    phase: Phase,
}

impl Model for Session {
    ghost use Rattle.std.specs.Prelude.{◌≡◌, false, ◌⊎◌};
    ghost use Rattle.session_core.specs.Sessions.{Hearing, IsOver};

    ghost Value = { Hearing };

    ghost view = { λ a. record { rest = a.reader.rest; phase = a.phase } };

    ghost invariant = { λ a. IsOver a.phase ⊎ (a.reader.failed ≡ false) };
}

impl Session {
    ghost use Rattle.std.specs.Prelude.{◌≡◌, ◌+◌, ◌-◌, ◌^◌, Bool, Err, IfOk, IfErr, IfSome, IsOk, OnErr, length, min};
    ghost use Rattle.std.specs.List.{AllByRecursion};
    ghost use Rattle.session_core.specs.Sessions.{Hears, HasForm, after_loss, fresh, held_in, is_held, loss_of};
    ghost use Rattle.session_core.specs.declared.session.Phase.TheVariants as phases;

    /// A session that has heard nothing yet. No memory is taken.
    pub fn new(alloc: Global) -> Session
        ensures { result ≡ fresh }
    {
        Session {
            reader: FrameReader::new(alloc),
            phase: Phase::New,
        }
    }

    /// Hears bytes, and says what they ask for. If memory is refused, the session has failed, and says so from then on.
    pub fn feed(&mut self, alloc: Global, bytes: &[u8]) -> Result<Vec<Act>, SessionFault>
        ensures acts { IfOk result (λ acts. Hears self.old bytes.now acts.items self.new) }
        ensures forms { IfOk result (λ acts. AllByRecursion HasForm acts.items) }
        ensures err { OnErr result (self.new.phase ≡ phases.Failed (is_held self.old.phase)) }
        ensures failed { IfErr result (λ e. (e ≡ SessionFault.Failed) → self.old.phase ≡ phases.Failed (is_held self.old.phase)) }
        ensures ended { self.old.phase ≡ phases.Ended → IsOk result }
        ensures stays { (held : Bool) → self.old.phase ≡ phases.Failed held → result ≡ Err SessionFault.Failed }
    {
        match self.phase {
            Phase::Ended => return Ok(Vec::new(alloc)),
            Phase::Failed { .. } => return Err(SessionFault::Failed),
            Phase::New | Phase::Open(_) => {}
        }
        let is_held = self.phase.is_held();
        let phase = mem::replace(&mut self.phase, Phase::Failed { is_held });
        let fed = match self.reader.feed(alloc, bytes) {
            Ok(fed) => fed,
            Err(_) => return Err(SessionFault::Memory),
        };
        let mut acts = Vec::new(alloc);
        let phase = answer_all(alloc, phase, fed.frames, &mut acts).map_err(
            |_| SessionFault::Memory,
        )?;
        let Some(fault) = fed.fault else {
            self.phase = phase;
            return Ok(acts);
        };
        refuse(alloc, phase, Fault::from(fault), &mut acts).map_err(|_| SessionFault::Memory)?;
        self.phase = Phase::Ended;
        Ok(acts)
    }

    /// How many bytes it keeps of what its client said: those of the frame that isn't finished, and of the members of open transactions.
    pub fn held(&self) -> u64
        ensures { result ≡ min (held_in self.now.phase + length self.now.rest) (2 ^ 64 - 1) }
    {
        self.phase.held().saturating_add(self.reader.len() as u64)
    }

    /// Hears that the connection is gone, and says what is to be done then: the session's end, if the broker was asked to open it and
    /// not to end it. It hears no more. A session that has failed still says so. No memory is taken.
    pub fn lost(&mut self) -> Option<Act>
        ensures act { result ≡ loss_of self.old.phase }
        ensures form { IfSome result HasForm }
        ensures rest { self.new.rest ≡ self.old.rest }
        ensures phase { self.new.phase ≡ after_loss self.old.phase }
    {
        let is_held = self.phase.is_held();
        self.phase = self.phase.after_loss();
        if is_held {
            Some(Act::Do(Op::End(End::Lost), None))
        } else {
            None
        }
    }
}

/// What is to be done for frames, one after another. It answers where the session stands then.
pub fn answer_all(
    alloc: Global,
    phase: Phase,
    frames: Vec<Frame>,
    acts: &mut Vec<Act>,
) -> Result<Phase, AllocError>
    requires { AllByRecursion IsRead frames.items }
    ensures acts { OnOk result (acts.new.items ≡ acts.old.items ++ acts_of phase frames.items) }
    ensures phase { IfOk result (λ end. end ≡ phase_of phase frames.items) }
{
    let mut phase = phase;
    for frame in frames {
        phase = answer(alloc, phase, frame, acts)?;
    }
    Ok(phase)
}

/// What is to be done for a frame. It answers where the session stands then.
fn answer(
    alloc: Global,
    phase: Phase,
    frame: Frame,
    acts: &mut Vec<Act>,
) -> Result<Phase, AllocError>
    requires { IsRead frame }
    ensures acts { OnOk result (acts.new.items ≡ acts.old.items ++ told phase frame) }
    ensures phase { IfOk result (λ end. end ≡ next phase frame) }
{
    match phase {
        Phase::New => {
            let end = answer_first(alloc, &frame, acts);
            drop(frame);
            end
        }
        Phase::Open(transactions) => answer_next(alloc, transactions, frame, acts),
        Phase::Ended => Ok(Phase::Ended),
        Phase::Failed { is_held } => Ok(Phase::Failed { is_held }),
    }
}

/// What is to be done for the first frame of a session.
fn answer_first(alloc: Global, frame: &Frame, acts: &mut Vec<Act>) -> Result<Phase, AllocError>
    requires { IsRead frame.now }
    ensures acts { OnOk result (acts.new.items ≡ acts.old.items ++ told phases.New frame.now) }
    ensures phase { IfOk result (λ end. end ≡ next phases.New frame.now) }
{
    let receipt = receipt(alloc, frame)?;
    match ask_first(alloc, frame)? {
        Ok(op) => {
            acts.push(Act::Do(op, receipt))?;
            Ok(Phase::Open(OpenTx::new(alloc)))
        }
        Err(fault) => {
            refuse_first(alloc, fault, receipt, acts)?;
            Ok(Phase::Ended)
        }
    }
}

/// What is to be done for a frame of an open session.
fn answer_next(
    alloc: Global,
    transactions: OpenTx,
    frame: Frame,
    acts: &mut Vec<Act>,
) -> Result<Phase, AllocError>
    requires { IsRead frame }
    ensures acts { OnOk result (acts.new.items ≡ acts.old.items ++ told (phases.Open transactions) frame) }
    ensures phase { IfOk result (λ end. end ≡ next (phases.Open transactions) frame) }
{
    let receipt = receipt(alloc, &frame)?;
    match ask(alloc, frame)? {
        Ok(request) => execute(alloc, transactions, request, receipt, acts),
        Err(fault) => {
            end_by(fault, receipt, acts)?;
            Ok(Phase::Ended)
        }
    }
}

/// What is to be done for a request.
fn execute(
    alloc: Global,
    transactions: OpenTx,
    request: Request,
    receipt: Option<HeaderText>,
    acts: &mut Vec<Act>,
) -> Result<Phase, AllocError>
    ensures acts { OnOk result (acts.new.items ≡ acts.old.items ++ (executed transactions request receipt).acts) }
    ensures phase { IfOk result (λ end. end ≡ (executed transactions request receipt).phase) }
{
    let mut transactions = transactions;
    match request {
        Request::Ask(op) => ask_broker(op, receipt, transactions, acts),
        Request::Join(member, name) => join(transactions, member, name, receipt, acts),
        Request::Begin(name) => {
            let fault = fault_in(transactions.begin(alloc, name))?;
            go_on(fault, transactions, receipt, acts)
        }
        Request::Commit(name) => commit(transactions, name, receipt, acts),
        Request::Abort(name) => {
            let fault = fault_in(transactions.abort(name.as_str()))?;
            go_on(fault, transactions, receipt, acts)
        }
        Request::Disconnect => {
            acts.push(Act::Do(Op::End(End::Bye), receipt))?;
            acts.push(Act::Close(CloseCode::NormalClosure))?;
            Ok(Phase::Ended)
        }
    }
}

/// What is to be done for a member.
fn join(
    transactions: OpenTx,
    member: Member,
    name: Option<HeaderText>,
    receipt: Option<HeaderText>,
    acts: &mut Vec<Act>,
) -> Result<Phase, AllocError>
    ensures acts { OnOk result (acts.new.items ≡ acts.old.items ++ (executed transactions (requests.Join member name) receipt).acts) }
    ensures phase { IfOk result (λ end. end ≡ (executed transactions (requests.Join member name) receipt).phase) }
{
    let mut transactions = transactions;
    match name {
        None => ask_broker(Op::from(member), receipt, transactions, acts),
        Some(name) => {
            let fault = fault_in(transactions.add(name.as_str(), member))?;
            go_on(fault, transactions, receipt, acts)
        }
    }
}

/// What is to be done for a COMMIT.
fn commit(
    transactions: OpenTx,
    name: HeaderText,
    receipt: Option<HeaderText>,
    acts: &mut Vec<Act>,
) -> Result<Phase, AllocError>
    ensures acts { OnOk result (acts.new.items ≡ acts.old.items ++ (executed transactions (requests.Commit name) receipt).acts) }
    ensures phase { IfOk result (λ end. end ≡ (executed transactions (requests.Commit name) receipt).phase) }
{
    let mut transactions = transactions;
    match transactions.commit(name.as_str()) {
        Ok(members) => ask_broker(Op::Commit(members), receipt, transactions, acts),
        Err(_) => {
            end_by(Fault::TransactionNotBegun, receipt, acts)?;
            Ok(Phase::Ended)
        }
    }
}

/// Asks the broker for an operation.
fn ask_broker(
    op: Op,
    receipt: Option<HeaderText>,
    transactions: OpenTx,
    acts: &mut Vec<Act>,
) -> Result<Phase, AllocError>
    ensures acts { OnOk result (acts.new.items ≡ acts.old.items ++ (does op receipt transactions).acts) }
    ensures phase { IfOk result (λ end. end ≡ (does op receipt transactions).phase) }
{
    acts.push(Act::Do(op, receipt))?;
    Ok(Phase::Open(transactions))
}

/// The fault for which a change of the transactions was refused, if it was.
fn fault_in(changed: Result<(), TxFault>) -> Result<Option<Fault>, AllocError>
    ensures { IfOk result (λ fault. MatchResult changed (λ _. fault ≡ None) (λ refused. (fault ≡ fault_of refused) × IsSome fault)) }
{
    let Err(refused) = changed else {
        return Ok(None);
    };
    match refused.fault() {
        Some(fault) => Ok(Some(fault)),
        None => Err(AllocError),
    }
}

/// Goes on with these transactions, unless there was a fault.
fn go_on(
    fault: Option<Fault>,
    transactions: OpenTx,
    receipt: Option<HeaderText>,
    acts: &mut Vec<Act>,
) -> Result<Phase, AllocError>
    ensures acts { OnOk result (acts.new.items ≡ acts.old.items ++ (unless fault transactions receipt).acts) }
    ensures phase { IfOk result (λ end. end ≡ (unless fault transactions receipt).phase) }
{
    match fault {
        Some(fault) => {
            end_by(fault, receipt, acts)?;
            Ok(Phase::Ended)
        }
        None => {
            put_note(receipt, acts)?;
            Ok(Phase::Open(transactions))
        }
    }
}

/// The receipt that is asked for when there is nothing to be done yet.
fn put_note(receipt: Option<HeaderText>, acts: &mut Vec<Act>) -> Result<(), AllocError>
    ensures { OnOk result (acts.new.items ≡ acts.old.items ++ note receipt) }
{
    if let Some(id) = receipt {
        acts.push(Act::Do(Op::Note, Some(id)))?;
    }
    Ok(())
}

/// What a fault leads to in an open session.
fn end_by(fault: Fault, receipt: Option<HeaderText>, acts: &mut Vec<Act>) -> Result<(), AllocError>
    ensures { OnOk result (acts.new.items ≡ acts.old.items ++ (ends_by fault receipt).acts) }
{
    acts.push(Act::Do(Op::End(End::Bad(fault)), receipt))?;
    acts.push(Act::Close(CloseCode::ProtocolError))?;
    Ok(())
}

/// What a fault leads to before a session is open.
fn refuse_first(
    alloc: Global,
    fault: Fault,
    receipt: Option<HeaderText>,
    acts: &mut Vec<Act>,
) -> Result<(), AllocError>
    ensures { OnOk result (acts.new.items ≡ acts.old.items ++ refused phases.New fault receipt) }
{
    let error = error_reply(alloc, fault, receipt)?;
    acts.push(Act::Direct(Notice::new(error)))?;
    acts.push(Act::Close(CloseCode::ProtocolError))?;
    Ok(())
}

/// What a fault of the stream leads to.
pub fn refuse(
    alloc: Global,
    phase: Phase,
    fault: Fault,
    acts: &mut Vec<Act>,
) -> Result<(), AllocError>
    ensures { OnOk result (acts.new.items ≡ acts.old.items ++ refused phase fault None) }
{
    match phase {
        Phase::New => refuse_first(alloc, fault, None, acts),
        Phase::Open(_) => end_by(fault, None, acts),
        Phase::Ended | Phase::Failed { .. } => Ok(()),
    }
}

/// Why a connection is closed (RFC 6455, section 7.4.1).
#[derive(Clone, Copy)]
pub enum CloseCode {
    /// The client has said DISCONNECT: 1000.
    NormalClosure,
    /// The client did what it may not do: 1002.
    ProtocolError,
}

impl CloseCode {
    ghost use Rattle.std.specs.Prelude.{◌≡◌};
    ghost use Rattle.session_core.specs.CloseCodes.{code_of};

    /// Its number.
    pub fn code(self) -> u16
        ensures { result ≡ code_of self }
    {
        match self {
            CloseCode::NormalClosure => 1000,
            CloseCode::ProtocolError => 1002,
        }
    }
}

/// What is to be done for a session.
#[derive(Drop)]
pub enum Act {
    /// A command for the broker, and the receipt that it asks for.
    Do(Op, Option<HeaderText>),
    /// A frame for the client, which doesn't wait for the broker.
    Direct(Notice),
    /// The end of the connection.
    Close(CloseCode),
}

/// An ERROR frame that a session tells its client at once. It can be written. Contracts see the frame. Only sessions make these: an
/// ERROR of the broker is none, and so waits for the mark.
#[derive(Drop)]
pub struct Notice {
    frame: Frame,
}

impl Model for Notice {
    ghost use Rattle.std.specs.Prelude.{◌≡◌};
    ghost use Rattle.frame_core.specs.declared.frame.Frame.{Frame};
    ghost use Rattle.frame_core.specs.declared.frame.Verb.TheVariants as verbs;
    ghost use Rattle.frame_core.specs.Writable.{Writable};

    ghost Value = { Frame };

    ghost view = { λ a. a.frame };

    ghost invariant = { λ a. Writable a.frame × (a.frame.verb ≡ verbs.Error) };
}

impl Notice {
    // An ERROR frame that can be written, which moves: no memory is taken.
    pub(crate) fn new(frame: Frame) -> Notice
        requires form { Writable frame }
        requires error { frame.verb ≡ verbs.Error }
        ensures { result ≡ frame }
    {
        Notice { frame }
    }

    /// The frame, as a link asks for one: an ERROR that can be written.
    pub fn frame(&self) -> &Frame
        ensures value { result.now ≡ self.now }
        ensures form { Writable self.now }
        ensures error { self.now.verb ≡ verbs.Error }
    {
        &self.frame
    }
}

/// Where a session stands.
#[derive(Drop)]
pub enum Phase {
    /// It expects a CONNECT or STOMP frame.
    New,
    /// It is connected, with these open transactions.
    Open(OpenTx),
    /// It is over, and what comes is ignored.
    Ended,
    /// Memory was refused, and the session can't go on.
    Failed {
        /// The broker was asked to open it, and not to end it.
        is_held: bool,
    },
}

impl Phase {
    ghost use Rattle.std.specs.Prelude.{◌≡◌};
    ghost use Rattle.session_core.specs.Sessions.{after_loss, held_in, is_held};

    /// Whether the broker was asked to open it, and not to end it.
    pub(crate) fn is_held(&self) -> bool
        ensures { result ≡ is_held self.now }
    {
        match self {
            Phase::New | Phase::Ended => false,
            Phase::Open(_) => true,
            Phase::Failed { is_held } => *is_held,
        }
    }

    /// How many bytes the members of open transactions take.
    pub(crate) fn held(&self) -> u64
        ensures { result ≡ held_in self.now }
    {
        match self {
            Phase::Open(transactions) => transactions.bytes(),
            Phase::New | Phase::Ended | Phase::Failed { .. } => 0,
        }
    }

    /// Where it stands once the connection is gone.
    pub(crate) fn after_loss(&self) -> Phase
        ensures { result ≡ after_loss self.now }
    {
        match self {
            Phase::New | Phase::Open(_) | Phase::Ended => Phase::Ended,
            Phase::Failed { .. } => Phase::Failed { is_held: false },
        }
    }
}
