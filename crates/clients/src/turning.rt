//! The turns of a connection.

ghost use Rattle.std.specs.Prelude.{◌≡◌, ◌≢◌, false, None, true, ℕ, Option, IfSome, ◌⊎◌};
ghost use Rattle.command_core.specs.Entries.{EntryValue};
ghost use Rattle.session_core.specs.Sessions.{HasForm};
ghost use Rattle.session_core.specs.declared.session.Act.TheVariants as acts;
ghost use Rattle.clients.specs.TurnAnswers.{IsPressing};
ghost use Rattle.clients.specs.Boxes.{HasBox};
ghost use Rattle.clients.specs.Histories.{Taken, Waits, Steady};
ghost use Rattle.clients.specs.Progress.{IsNext};
ghost use Rattle.clients.specs.Connections.{Asks, IsSent, closed_by, loss_of, ConnectionValue, standing};
ghost use Rattle.clients.specs.Concluding.{IsError};
ghost use Rattle.clients.specs.Conversations.{StaysOrEnds};
ghost use Rattle.clients.specs.Relays.{ReadsMark};

use crate::acts::{Acts, charge, speak};
use crate::client::Client;
use crate::progress::{Progress, Role, Stage};
use crate::relaying::{Relayed, relay};
use crate::turned::{Ended, Next, Outcome, Turned, also_appended};
use crate::wakers::Wakers;
use claim_core::{BrokerRing, BrokerSeat, Refused};
use command_core::{Command, End, Entry, HeaderText, Op};
use frame_core::Verb;
use outbox_core::{Bell, OutSender};
use session_core::{Act, CloseCode, Notice, SessionFault};
use std::alloc::Global;
use std::mem;
use ws_core::{CloseReason, Link, LinkFault, Received};

// How many acts of a connection are done in a turn at most: half of what its seat may have under way. So a connection that has much
// to say leaves room for the next one, if the whole window is free.
const ACTS: u32 = 8;

// How many outputs of a connection are sent in a turn at most, and after how many bytes of bodies no other follows. Their frames may
// wait in the link until the turn's flush, which has room for 1,048,576 bytes. A body has 65,536 at most, a head some 17,000.
const RELAYS: u32 = 32;

const RELAYED_BYTES: usize = 131_072;

impl<B: Bell> Client<B> {
    ghost use Rattle.std.specs.Prelude.{◌≢◌, None, true, ℕ, ◌∷◌, ◌⊎◌, [], Some, OnOk, OnErr, ◌≤◌};
    ghost use Rattle.outbox_core.specs.Boxes.{TakerValue};
    ghost use Rattle.clients.specs.TurnAnswers.{Answers, AwaitsBy, Heard, IsRest, IsSatisfied, Appended, IsQuiet, IsSeen, Leaves};
    ghost use Rattle.clients.specs.declared.turned.Outcome.{Outcome};
    ghost use Rattle.clients.specs.Connections.{Listens, connection_of, Fails, HearsBytes, Takes};
    ghost use Rattle.clients.specs.declared.progress.Stage.TheVariants.{Running};
    ghost use Rattle.clients.specs.ClientSteps.{GoesOn, CarriesOut, IsUnsaid, MayAppend, TakesStep, TellsIt};
    ghost use Rattle.clients.specs.Histories.{Idles, LivesOn};
    ghost use Rattle.clients.specs.Reports.{MayRead, Reports, SendsFew};
    ghost use Rattle.clients.specs.Clients.{Unserved, Stays, StaysBeside, Served};
    ghost use Rattle.clients.specs.declared.turned.Ended.{Ended};
    ghost use Rattle.clients.specs.Continues.{Continues};
    ghost use Rattle.clients.specs.Conversations.{StaysOrEnds};
    ghost use Rattle.clients.specs.Halting.{HasHalted, IsFinal};
    ghost use Rattle.clients.specs.Stages.{CanTell};
    ghost use Rattle.clients.specs.Refusals.{WaitsIfFull};
    ghost use Rattle.clients.specs.Concluding.{Concludes};

    /// Lets the connection go on. What waits in its link is written, and its client is heard if nothing else is to be done first.
    /// What that asks for is appended, and what may leave is sent, all of it bounded. No call waits unless the link's calls do.
    ///
    /// What is appended goes on with the connection's conversation, whatever others speak through the seat. The client is sent only
    /// what is its own: outputs of its session, and before it has one, once, the ERROR that its own bytes ask for.
    pub fn turn<M: Wakers<B>, L: Link>(
        &mut self,
        alloc: Global,
        ring: &BrokerRing<OutSender<B>>,
        seat: &mut BrokerSeat<OutSender<B>>,
        link: &mut L,
        wakers: &M,
    ) -> Turned
        requires { seat.old.ring ≡ ring.now }
        ensures goes { GoesOn L.sent L.received self.old seat.old link.old self.new seat.new link.new }
        ensures answers { Answers L.received result seat.old link.old self.new seat.new link.new }
        ensures reports { Reports L.sent L.is_held_up self.old link.old result self.new seat.new link.new }
    {
        let (heard, read) = self.read(alloc, link);
        let (appended, acted) = self.execute(alloc, ring, seat, link, wakers);
        let passed = self.pass_on(alloc, ring, seat, link, wakers);
        let is_short = self.finish(link);
        let lacks = is_short || matches!(passed, Outcome::Memory);
        // A client that was not read may have sent something of which nothing will tell again.
        let more = !matches!(read, Outcome::Rest) || matches!(passed, Outcome::Done);
        Turned {
            appended,
            heard,
            next: self.next(lacks, more, acted, link.waits()),
        }
    }

    // Reads once, if nothing else is to be done first. Answers whether something came, and `Outcome::Rest` if its link has nothing to give
    // now. After its own close it waits for the peer's.
    fn read<L: Link>(&mut self, alloc: Global, link: &mut L) -> (bool, Outcome)
        ensures unserved { Unserved L.sent self.old link.old self.new link.new }
        ensures lives { Idles L.received self.old link.old self.new link.new }
        ensures heard { Heard L.received result.0 link.old link.new }
        ensures may { result.0 ≡ true → MayRead self.old (L.is_held_up link.old) }
    {
        if matches!(self.stage, Stage::Parting(_)) {
            return self.await_close(alloc, link);
        }
        if !self.listens() || self.waiting.is_some() {
            return (false, Outcome::Done);
        }
        if self.kept.is_unsent() || link.waits() {
            return (false, Outcome::Done);
        }
        self.listen(alloc, link)
    }

    // Hears what came.
    fn listen<L: Link>(&mut self, alloc: Global, link: &mut L) -> (bool, Outcome)
        requires listens { Listens (connection_of self.old) }
        requires nothing { self.old.waiting ≡ None }
        ensures unserved { Unserved L.sent self.old link.old self.new link.new }
        ensures lives { Idles L.received self.old link.old self.new link.new }
        ensures heard { Heard L.received result.0 link.old link.new }
    {
        match link.receive(alloc) {
            Received::Bytes(bytes) => {
                let _ = self.hear(alloc, bytes.as_slice());
                (true, Outcome::Done)
            }
            Received::Skipped => (true, Outcome::Done),
            Received::Nothing => (false, Outcome::Rest),
            Received::Failed => {
                self.stage = self.stage.given_up();
                (true, Outcome::Done)
            }
            Received::Closed => {
                self.stage = self.stage.lost();
                (false, Outcome::Rest)
            }
        }
    }

    // Drops what came after its own close.
    fn await_close<L: Link>(&mut self, alloc: Global, link: &mut L) -> (bool, Outcome)
        requires { self.old.stage ≢ Running }
        ensures unserved { Unserved L.sent self.old link.old self.new link.new }
        ensures lives { Idles L.received self.old link.old self.new link.new }
        ensures heard { Heard L.received result.0 link.old link.new }
    {
        match link.receive(alloc) {
            Received::Closed => {
                self.stage = self.stage.lost();
                (false, Outcome::Rest)
            }
            Received::Nothing => (false, Outcome::Rest),
            Received::Skipped => (true, Outcome::Done),
            Received::Failed => (true, Outcome::Done),
            Received::Bytes(bytes) => {
                drop(bytes);
                (true, Outcome::Done)
            }
        }
    }

    // Has all leave that was sent, and closes the link if that is to be done. Answers whether memory was refused for that.
    fn finish<L: Link>(&mut self, link: &mut L) -> bool
        ensures unserved { Unserved L.sent self.old link.old self.new link.new }
        ensures lives { Idles L.received self.old link.old self.new link.new }
        ensures unread { L.received link.new ≡ L.received link.old }
    {
        match self.stage {
            Stage::Leaving | Stage::Over(_) => return false,
            Stage::Closing(ended) => return self.part(link, ended),
            Stage::Running | Stage::GivingUp | Stage::Parting(_) => {}
        }
        if link.flush().is_err() {
            self.stage = self.stage.lost();
        }
        false
    }

    // Says the close, and answers whether memory was refused for it.
    fn part<L: Link>(&mut self, link: &mut L, ended: Ended) -> bool
        ensures unserved { Unserved L.sent self.old link.old self.new link.new }
        ensures lives { Idles L.received self.old link.old self.new link.new }
        ensures unread { L.received link.new ≡ L.received link.old }
    {
        match link.end(reason_of(ended)) {
            Ok(()) => self.stage = self.stage.parted(),
            Err(LinkFault::Gone) => self.stage = self.stage.lost(),
            Err(LinkFault::Memory) => return true,
        }
        false
    }

    // What it waits for: by whether memory was refused for its close or an output, and by whether there may be more to hear or to
    // send. Also by what the last act came to, and by whether its link has not taken all.
    fn next(&self, lacks: bool, more: bool, last: Outcome, waits: bool) -> Next
        ensures awaits { AwaitsBy result last self.now }
        ensures write { result ≡ Next.Write → waits ≡ true }
        ensures close { (ended : Ended) → self.now.stage ≡ Stage.Parting ended → result ≡ Next.Close }
    {
        match self.stage {
            Stage::Over(ended) => Next::Over(ended),
            Stage::Parting(_) => Next::Close,
            Stage::Closing(_) => {
                if lacks {
                    return Next::Memory;
                }
                Next::Go
            }
            Stage::GivingUp | Stage::Leaving => pressing(lacks, last),
            Stage::Running => self.next_of_running(lacks, more, last, waits),
        }
    }

    // What a connection that runs waits for.
    fn next_of_running(&self, lacks: bool, more: bool, last: Outcome, waits: bool) -> Next
        requires { self.now.stage ≡ Running }
        ensures awaits { AwaitsBy result last self.now }
        ensures write { result ≡ Next.Write → waits ≡ true }
    {
        let next = pressing(lacks, last);
        if !matches!(next, Next::Go) {
            return next;
        }
        if waits {
            return Next::Write;
        }
        if more || !matches!(last, Outcome::Rest) || !self.is_satisfied() {
            return Next::Go;
        }
        self.rest()
    }

    // Whether nothing of what its client asked for is left to be done.
    fn is_satisfied(&self) -> bool
        ensures { result ≡ true → IsSatisfied self.now }
    {
        self.waiting.is_none() && self.listens()
    }

    // What a connection that runs and has nothing to do waits for.
    fn rest(&self) -> Next
        requires { self.now.stage ≡ Running }
        ensures { IsRest result self.now }
    {
        match self.kept.awaits() {
            Some(number) => Next::Mark(number),
            None => Next::Read,
        }
    }

    // Does what its client asked for, in order, until something has to wait or `ACTS` are done. Answers whether a command was appended,
    // and what the last act came to.
    pub(crate) fn execute<M: Wakers<B>, L: Link>(
        &mut self,
        alloc: Global,
        ring: &BrokerRing<OutSender<B>>,
        seat: &mut BrokerSeat<OutSender<B>>,
        link: &mut L,
        wakers: &M,
    ) -> (bool, Outcome)
        requires { seat.old.ring ≡ ring.now }
        ensures goes { GoesOn L.sent L.received self.old seat.old link.old self.new seat.new link.new }
        ensures grows { Appended result.0 seat.old seat.new }
        ensures leaves { Leaves result.1 self.new.waiting }
        ensures seen { IsSeen result.1 seat.new }
        ensures few { SendsFew L.sent 8 link.old link.new }
        ensures unread { L.received link.new ≡ L.received link.old }
    {
        let mut appended = false;
        for _act in 0..ACTS {
            let step = self.step(alloc, ring, seat, link, wakers);
            appended = also_appended(appended, step);
            if matches!(step, Outcome::Room(_) | Outcome::Memory | Outcome::Rest) {
                return (appended, step);
            }
        }
        (appended, Outcome::Done)
    }

    // Appends the entry that waits, or else does the next act.
    fn step<M: Wakers<B>, L: Link>(
        &mut self,
        alloc: Global,
        ring: &BrokerRing<OutSender<B>>,
        seat: &mut BrokerSeat<OutSender<B>>,
        link: &mut L,
        wakers: &M,
    ) -> Outcome
        requires { seat.old.ring ≡ ring.now }
        ensures goes { GoesOn L.sent L.received self.old seat.old link.old self.new seat.new link.new }
        ensures takes { TakesStep result seat.old seat.new self.new.waiting }
        ensures few { SendsFew L.sent 1 link.old link.new }
        ensures unread { L.received link.new ≡ L.received link.old }
    {
        if !self.stage.executes() {
            return Outcome::Rest;
        }
        if let Some(entry) = self.waiting.take() {
            return self.append(ring, seat, wakers, entry);
        }
        match self.next_act() {
            Some(Act::Do(op, receipt)) => self.request(alloc, ring, seat, wakers, op, receipt),
            Some(Act::Direct(notice)) => self.tell(alloc, link, wakers, notice),
            Some(Act::Close(code)) => {
                self.stage = closed_by(code, self.last_receipt, self.progress, self.stage);
                Outcome::Done
            }
            None => {
                self.stage = self.stage.rested();
                Outcome::Rest
            }
        }
    }

    // Appends the command of an operation, unless it may not be the next of the conversation. If memory is refused, it is the next act
    // again. If its session would pass what it may have by the command, the connection is given up: the command is dropped, with all that
    // waits after it.
    fn request<M: Wakers<B>>(
        &mut self,
        alloc: Global,
        ring: &BrokerRing<OutSender<B>>,
        seat: &mut BrokerSeat<OutSender<B>>,
        wakers: &M,
        op: Op,
        receipt: Option<HeaderText>,
    ) -> Outcome
        requires ring { seat.old.ring ≡ ring.now }
        requires form { HasForm (acts.Do op receipt) }
        requires taken { (self.old.acts.again ≡ None) × (self.old.waiting ≡ None) }
        ensures continues { Continues self.old.progress seat.old self.new.progress seat.new }
        ensures stays { Stays self.old self.new }
        ensures lives { CarriesOut (Taken (acts.Do op receipt)) [] self.old seat.old self.new seat.new }
        ensures takes { TakesStep result seat.old seat.new self.new.waiting }
    {
        let Some(command) = ask(self.progress, op, receipt) else {
            return Outcome::Done;
        };
        if !self.footprint.admits(command.op()) {
            drop(command);
            self.cut_off(alloc);
            return Outcome::Done;
        }
        match charge(alloc, wakers, &mut self.footprint, command) {
            Ok((entry, taker)) => {
                self.opening = taker;
                self.append(ring, seat, wakers, entry)
            }
            Err(command) => {
                let (_, op, receipt) = command.into_parts();
                self.acts.put_back(Act::Do(op, receipt));
                Outcome::Memory
            }
        }
    }

    // Appends an entry, or keeps it if the window is full.
    fn append<M: Wakers<B>>(
        &mut self,
        ring: &BrokerRing<OutSender<B>>,
        seat: &mut BrokerSeat<OutSender<B>>,
        wakers: &M,
        entry: Entry<OutSender<B>>,
    ) -> Outcome
        requires ring { seat.old.ring ≡ ring.now }
        requires may { MayAppend self.old entry }
        ensures continues { Continues self.old.progress seat.old self.new.progress seat.new }
        ensures stays { Stays self.old self.new }
        ensures taker { (taker : TakerValue) → self.old.opening ≡ Some taker → result ≡ Outcome.Appended → self.new.outbox ≡ Some taker }
        ensures lives { CarriesOut (Waits entry.command) (entry.command.op ∷ []) self.old seat.old self.new seat.new }
        ensures takes { TakesStep result seat.old seat.new self.new.waiting }
    {
        let window = wakers.window(entry.command().op());
        match speak(
            ring,
            seat,
            &mut self.progress,
            &mut self.last_receipt,
            entry,
            window,
        ) {
            Ok(ticket) => {
                self.footprint.settle();
                wakers.appended(ticket);
                if let Some(taker) = self.opening.take() {
                    self.outbox = Some(taker);
                }
                Outcome::Appended
            }
            Err((entry, refused)) => self.handle_refusal(entry, refused),
        }
    }

    // An entry that the ring refused is kept for as long as the window is full. A ring that takes nothing more ends the
    // connection.
    fn handle_refusal(&mut self, entry: Entry<OutSender<B>>, refused: Refused) -> Outcome
        requires { IsNext self.old.progress entry.command × HasBox entry self.old.opening × (self.old.waiting ≡ None) }
        ensures same { IsUnsaid (connection_of self.old) (connection_of self.new) }
        ensures stays { (self.new.outbox ≡ self.old.outbox) × (self.new.kept ≡ self.old.kept) }
        ensures waits { WaitsIfFull entry refused self.new.waiting result }
        ensures tells { CanTell self.new.stage → CanTell self.old.stage }
        ensures halts { HasHalted self.new.stage → HasHalted self.old.stage ⊎ IsFinal refused }
        ensures lives { LivesOn (Waits entry.command) (entry.command.op ∷ []) (connection_of self.old) (connection_of self.new) self.new.waiting [] }
    {
        match refused {
            Refused::Busy(mark) => {
                drop(self.waiting.replace(entry));
                Outcome::Room(mark)
            }
            Refused::Stopped | Refused::Exhausted => {
                drop(entry);
                drop(self.opening.take());
                self.stage = self.stage.stopped();
                Outcome::Rest
            }
        }
    }

    // Sends the client an ERROR that doesn't wait for the broker, as the last frame. Nothing is sent if its link is over.
    fn tell<M: Wakers<B>, L: Link>(
        &mut self,
        alloc: Global,
        link: &mut L,
        wakers: &M,
        notice: Notice,
    ) -> Outcome
        requires first { self.old.acts.again ≡ None }
        requires nothing { self.old.waiting ≡ None }
        ensures ends { StaysOrEnds self.old.progress self.new.progress }
        ensures unread { L.received link.new ≡ L.received link.old }
        ensures tells { TellsIt L.sent notice self.old link.old self.new link.new }
        ensures few { SendsFew L.sent 1 link.old link.new }
        ensures quiet { IsQuiet result }
    {
        if is_cut_off(self.stage) {
            drop(notice);
            return Outcome::Done;
        }
        let _form = notice.frame();
        match link.send_direct(alloc, &notice) {
            Ok(()) => {
                wakers.answered(&notice);
                drop(notice);
                self.progress = self.progress.over();
                self.stage = Stage::Closing(Ended::Bad);
            }
            Err(LinkFault::Gone) => {
                drop(notice);
                self.stage = self.stage.lost();
            }
            Err(LinkFault::Memory) => {
                self.acts.put_back(Act::Direct(notice));
                return Outcome::Memory;
            }
        }
        Outcome::Done
    }

    // Hears its next bytes. If memory is refused, its connection is given up, and nothing that these bytes ask for is done.
    pub(crate) fn hear(&mut self, alloc: Global, bytes: &[u8]) -> Result<(), SessionFault>
        requires { Listens (connection_of self.old) }
        ensures heard { OnOk result (HearsBytes (connection_of self.old) bytes.now (connection_of self.new)) }
        ensures failed { OnErr result (Fails (connection_of self.old) (connection_of self.new)) }
        ensures same { StaysBeside self.old self.new }
    {
        match self.session.feed(alloc, bytes) {
            Ok(acts) => {
                drop(mem::replace(&mut self.acts, Acts::all(acts)));
                Ok(())
            }
            Err(fault) => {
                self.stage = Stage::GivingUp;
                Err(fault)
            }
        }
    }

    // The next act, which is taken. If none waits and its connection is lost, it is the end of a session that is open.
    pub(crate) fn next_act(&mut self) -> Option<Act>
        ensures takes { Takes (connection_of self.old) (connection_of self.new) result }
        ensures form { IfSome result HasForm }
        ensures same { StaysBeside self.old self.new }
    {
        match self.acts.next() {
            Some(act) => Some(act),
            None if self.stage.is_lost() => loss_of(self.progress),
            None => None,
        }
    }

    // Sends what may leave, until nothing more may or so much was sent. A link that has not taken all before gets nothing more. Answers
    // `Outcome::Rest` if nothing more may leave.
    pub(crate) fn pass_on<M: Wakers<B>, L: Link>(
        &mut self,
        alloc: Global,
        ring: &BrokerRing<OutSender<B>>,
        seat: &mut BrokerSeat<OutSender<B>>,
        link: &mut L,
        wakers: &M,
    ) -> Outcome
        requires { seat.old.ring ≡ ring.now }
        ensures goes { GoesOn L.sent L.received self.old seat.old link.old self.new seat.new link.new }
        ensures waiting { self.new.waiting ≡ self.old.waiting }
        ensures own { seat.new.own ≡ seat.old.own }
        ensures no_less { seat.old.seen ≤ seat.new.seen }
        ensures few { SendsFew L.sent 32 link.old link.new }
        ensures unread { L.received link.new ≡ L.received link.old }
    {
        let mut bytes = 0usize;
        for _relay in 0..RELAYS {
            if bytes >= RELAYED_BYTES || link.waits() {
                return Outcome::Done;
            }
            match self.pass_one(alloc, ring, seat, link, wakers) {
                Ok(Some(sent)) => bytes = bytes.saturating_add(sent),
                Ok(None) => return Outcome::Rest,
                Err(_) => return Outcome::Memory,
            }
        }
        Outcome::Done
    }

    // Sends one output, and answers how many bytes its body has; nothing if none may leave. Once the connection no longer runs, none may.
    fn pass_one<M: Wakers<B>, L: Link>(
        &mut self,
        alloc: Global,
        ring: &BrokerRing<OutSender<B>>,
        seat: &mut BrokerSeat<OutSender<B>>,
        link: &mut L,
        wakers: &M,
    ) -> Result<Option<usize>, LinkFault>
        requires { seat.old.ring ≡ ring.now }
        ensures ends { StaysOrEnds self.old.progress self.new.progress }
        ensures reads { ReadsMark seat.old seat.new }
        ensures served { Served L.sent [] self.old link.old self.new link.new }
        ensures lives { Idles L.received self.old link.old self.new link.new }
        ensures concludes { Concludes L.sent (connection_of self.old) link.old (connection_of self.new) link.new [] }
        ensures few { SendsFew L.sent 1 link.old link.new }
        ensures waiting { self.new.waiting ≡ self.old.waiting }
        ensures unread { L.received link.new ≡ L.received link.old }
    {
        if !runs(self.stage) {
            return Ok(None);
        }
        let Some(session) = self.progress.number() else {
            return Ok(None);
        };
        let Some(taker) = &mut self.outbox else {
            return Ok(None);
        };
        match relay(alloc, ring, seat, session, taker, &mut self.kept, link) {
            Ok(relayed) => {
                report::<B, M>(wakers, relayed);
                let last_receipt = self.last_receipt;
                Ok(note(&mut self.progress, &mut self.stage, last_receipt, relayed))
            }
            Err(LinkFault::Memory) => Err(LinkFault::Memory),
            Err(LinkFault::Gone) => {
                self.stage = self.stage.lost();
                Ok(None)
            }
        }
    }
}

// What is to come first: memory, if it was refused, or room for an entry that waits.
fn pressing(lacks: bool, last: Outcome) -> Next
    ensures { IsPressing result last }
{
    if lacks {
        return Next::Memory;
    }
    match last {
        Outcome::Memory => Next::Memory,
        Outcome::Room(mark) => Next::Room(mark),
        Outcome::Appended | Outcome::Done | Outcome::Rest => Next::Go,
    }
}

// Why a connection that ends so is closed (RFC 6455, section 7.4.1).
fn reason_of(ended: Ended) -> CloseReason {
    match ended {
        Ended::Bye => CloseReason::NormalClosure,
        Ended::Bad => CloseReason::ProtocolError,
        Ended::Lost | Ended::Stopped => CloseReason::GoingAway,
    }
}

// Whether nobody hears any more what is sent.
fn is_cut_off(stage: Stage) -> bool
    ensures yes { result ≡ true → stage ≡ Stage.Leaving }
    ensures no { result ≡ false → stage ≢ Stage.Leaving }
{
    matches!(stage, Stage::Leaving)
}

// The command of an operation, if it may be the next of the conversation.
pub fn ask(progress: Progress, op: Op, receipt: Option<HeaderText>) -> Option<Command>
    requires { HasForm (acts.Do op receipt) }
    ensures { Asks progress op receipt result }
{
    let role = Role::of(&op);
    if !progress.admits(role) {
        return None;
    }
    Some(Command::new(progress.session(role), op, receipt))
}

// What the loss of a connection asks for: the end of a session that is open.
fn loss_of(progress: Progress) -> Option<Act>
    ensures loss { result ≡ loss_of progress }
    ensures form { IfSome result HasForm }
{
    match progress {
        Progress::Open(_) => Some(Act::Do(Op::End(End::Lost), None)),
        Progress::New | Progress::Ended(_) | Progress::Gone => None,
    }
}

// The stage once its session closes. A fault closes the connection once its ERROR is sent. A DISCONNECT closes it at once, or once its
// RECEIPT is sent. Its End comes before; here it is made sure of.
pub fn closed_by(
    code: CloseCode,
    last_receipt: Option<u64>,
    progress: Progress,
    stage: Stage,
) -> Stage
    ensures { result ≡ closed_by code last_receipt progress stage }
{
    match (code, last_receipt, progress) {
        (CloseCode::ProtocolError, _, _) | (_, Some(_), _) | (_, _, Progress::Open(_)) => stage,
        (CloseCode::NormalClosure, None, _) => Stage::Closing(Ended::Bye),
    }
}

// The frame of that command's output was sent.
pub fn sent(
    progress: &mut Progress,
    stage: &mut Stage,
    last_receipt: Option<u64>,
    number: u64,
    verb: Verb,
)
    ensures { IsSent progress.old stage.old last_receipt number verb progress.new stage.new }
{
    match verb {
        Verb::Error => {
            *progress = progress.over();
            *stage = Stage::Closing(Ended::Bad);
        }
        Verb::Receipt if last_receipt == Some(number) => {
            *stage = Stage::Closing(Ended::Bye);
        }
        _ => {}
    }
}

// Reports an outbox that was cut.
fn report<B: Bell, M: Wakers<B>>(wakers: &M, relayed: Relayed) {
    if matches!(relayed, Relayed::Cut) {
        wakers.cut();
    }
}

// What comes of an output that was handled. A connection is given up if its outbox is cut, or has another's output. Only an ERROR that was
// sent ends its conversation.
fn note(
    progress: &mut Progress,
    stage: &mut Stage,
    last_receipt: Option<u64>,
    relayed: Relayed,
) -> Option<usize>
    requires { stage.old ≡ Stage.Running }
    ensures ends { StaysOrEnds progress.old progress.new }
    ensures rest { (c : ConnectionValue) → Steady (standing c progress.old last_receipt stage.old) (standing c progress.new last_receipt stage.new) }
    ensures error { (progress.new ≡ progress.old) ⊎ IsError relayed }
    ensures gives_up { relayed ≡ Relayed.Foreign → stage.new ≢ Stage.Running }
    ensures cut { relayed ≡ Relayed.Cut → stage.new ≢ Stage.Running }
{
    match relayed {
        Relayed::Sent {
            number,
            verb,
            bytes,
        } => {
            sent(progress, stage, last_receipt, number, verb);
            Some(bytes)
        }
        Relayed::Cut | Relayed::Foreign => {
            *stage = stage.given_up();
            None
        }
        Relayed::Waits | Relayed::Empty => None,
    }
}

// Whether the connection runs.
fn runs(stage: Stage) -> bool
    ensures { result ≡ true → stage ≡ Stage.Running }
{
    matches!(stage, Stage::Running)
}
