//! One client at a desk.

ghost use Rattle.std.specs.Prelude.{◌≡◌, None, Some};
ghost use Rattle.clients.specs.Progress.{number_in};
ghost use Rattle.command_core.specs.Entries.{EntryValue};
ghost use Rattle.outbox_core.specs.Boxes.{SenderValue};
ghost use Rattle.clients.specs.Boxes.{HasBox};
ghost use Rattle.clients.specs.ConnectionKeeps.{KeepsOwn, WaitsNext};

use crate::acts::{Acts, weigh_op};
use crate::footprint::Footprint;
use crate::progress::{Progress, Stage};
use crate::relaying::Kept;
use command_core::Entry;
use outbox_core::{Bell, OutSender, OutTaker};
use session_core::Session;
use std::alloc::Global;
use std::mem;

/// One client at a desk: its connection, and its outbox. Its link is lent to each turn. What came goes in, and what is to be done comes
/// out, one at a time and in order. What became of it goes in again.
///
/// Its commands are one conversation with the broker: an Open, then commands of the session whose number is the Open's ticket, and at
/// most one End. After the End there are none. These are what the client's bytes ask for, in that order, however they were cut.
/// If the connection is lost while its session is open, the session's end is one of them.
#[derive(Drop)]
pub struct Client<B: Bell> {
    pub(crate) session: Session,
    // What the session has asked for that is still to be done.
    pub(crate) acts: Acts,
    pub(crate) progress: Progress,
    // What stands of its session in a snapshot, with the command that is under way.
    pub(crate) footprint: Footprint,
    // The number of the DISCONNECT whose RECEIPT is the last frame.
    pub(crate) last_receipt: Option<u64>,
    pub(crate) stage: Stage,
    // The entry of the next command, which found the window full.
    pub(crate) waiting: Option<Entry<OutSender<B>>>,
    // The taking end of its box, if it is an Open's.
    pub(crate) opening: Option<OutTaker>,
    // Where its outputs wait, once its Open is appended.
    pub(crate) outbox: Option<OutTaker>,
    pub(crate) kept: Kept,
    ghost opened: { number_in progress ≡ None → outbox ≡ None },
    ghost own: { KeepsOwn stage progress kept },
    ghost next: { WaitsNext stage progress waiting },
    ghost boxed: { (entry : EntryValue SenderValue) → waiting ≡ Some entry → HasBox entry opening },
}

impl<B: Bell> Client<B> {
    ghost use Rattle.std.specs.Prelude.{true, false};
    ghost use Rattle.clients.specs.Connections.{Listens, connection_of, evicted, filled};
    ghost use Rattle.clients.specs.Holdings.{IsKept, MayWait, entry_weight};
    ghost use Rattle.clients.specs.Clients.{IsNew, StaysBeside};

    /// One whose client was not heard yet. All sessions of its desk together may have `limit` bytes in a snapshot of the broker, and so may
    /// this one until its turn says otherwise. No memory is taken.
    pub fn new(alloc: Global, limit: u64) -> Client<B>
        ensures { IsNew limit result }
    {
        Client {
            session: Session::new(alloc),
            acts: Acts::none(alloc),
            progress: Progress::New,
            footprint: Footprint::new(alloc, limit),
            last_receipt: None,
            stage: Stage::Running,
            waiting: None,
            opening: None,
            outbox: None,
            kept: Kept::Nothing,
        }
    }

    // Whether it may be heard: nothing that it asked for is still to be done, and its connection runs.
    pub(crate) fn listens(&self) -> bool
        ensures yes { result ≡ true → Listens (connection_of self.now) }
        ensures no { result ≡ false → Listens (connection_of self.now) → ⊥ }
    {
        self.stage == Stage::Running && self.acts.is_empty()
    }

    // How many bytes wait in its outbox, or are kept of what it said. Those are the frame that isn't finished, the members of open
    // transactions, the acts that are still to be done, and the entry that waits.
    pub(crate) fn held(&self) -> u64
        ensures { IsKept self.now 0 result }
    {
        self.waiting()
            .saturating_add(self.session.held())
            .saturating_add(self.acts.bytes())
            .saturating_add(self.entry_bytes())
    }

    // How many bytes wait in its outbox.
    fn waiting(&self) -> u64
        ensures { MayWait self.now.outbox result }
    {
        match &self.outbox {
            Some(taker) => taker.waiting(),
            None => 0,
        }
    }

    // What the entry counts for that waits.
    fn entry_bytes(&self) -> u64
        ensures { result ≡ entry_weight self.now.waiting }
    {
        match &self.waiting {
            Some(entry) => weigh_op(entry.command().op(), entry.command().receipt()),
            None => 0,
        }
    }

    // Its next command would make its session pass what it may have. It is given up, and what it has asked for and still waits is
    // dropped. No memory is taken.
    pub(crate) fn cut_off(&mut self, alloc: Global)
        ensures filled { connection_of self.new ≡ filled (connection_of self.old) }
        ensures same { StaysBeside self.old self.new }
    {
        self.footprint.fill();
        drop(mem::replace(&mut self.acts, Acts::none(alloc)));
        self.stage = self.stage.given_up();
    }

    // It is evicted, since its server needs the memory: its link is over, and what it has asked for is dropped, but for the entry that
    // waits. No memory is taken.
    pub(crate) fn evict(&mut self, alloc: Global)
        ensures evicted { connection_of self.new ≡ evicted (connection_of self.old) }
        ensures same { StaysBeside self.old self.new }
    {
        self.footprint.evict();
        drop(mem::replace(&mut self.acts, Acts::none(alloc)));
        self.stage = self.stage.lost();
    }
}
