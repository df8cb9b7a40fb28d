//! What a client is to send, listen to and move, and how it goes on from connection to connection.

ghost use Rattle.std.specs.Prelude.{◌≡◌};
ghost use Rattle.client_core.specs.Requests.{is_own, mode_of};
ghost use Rattle.client_core.specs.Courses.{course_after, course_of, goes_on, is_among};

use crate::fault::{ClientFault, Step};
use frame_core::Text;
use std::alloc::{AllocError, Global};
use std::marker::Model;

/// A message that is to be sent.
#[derive(Clone, Copy)]
pub struct Outgoing<'a> {
    pub destination: &'a str,
    /// Further headers, by name and value. A header that the client writes itself stands before them, and counts.
    pub headers: &'a [(&'a str, &'a str)],
    pub body: &'a [u8],
}

/// What a client listens to, and what it does with what comes.
#[derive(Clone, Copy)]
pub struct Plan<'a> {
    pub destination: &'a str,
    /// The name of a durable subscription, if it is to be one.
    pub name: Option<&'a str>,
    /// After how many messages it ends.
    pub count: u64,
    /// Whether each message is settled once it is shown.
    pub settles: bool,
    /// Whether the headers of a message are shown before its body.
    pub with_headers: bool,
    /// Whether it ends once its connection does.
    pub is_once: bool,
    /// For how many seconds no message may come, if it is not to wait as long as it takes.
    pub timeout: Option<u64>,
}

/// Which messages are moved, and where to.
#[derive(Clone, Copy)]
pub struct Errand<'a> {
    pub from: &'a str,
    /// The durable name under which a topic keeps them.
    pub name: Option<&'a str>,
    pub to: &'a str,
    /// How many; all of them, if it is not given.
    pub count: Option<u64>,
    /// After how many seconds without a message all of them have come.
    pub timeout: u64,
}

impl<'a> Errand<'a> {
    ghost use Rattle.std.specs.Prelude.{◌≡◌, true};

    /// The plan by which they are listened to.
    pub fn plan(&self) -> Plan<'a>
        ensures settles { (result.settles ≡ true) × (result.destination ≡ self.now.from) × (result.name ≡ self.now.name) }
    {
        Plan {
            destination: self.from,
            name: self.name,
            count: u64::MAX,
            settles: true,
            with_headers: false,
            is_once: true,
            timeout: Some(self.timeout),
        }
    }
}

impl Plan<'_> {
    /// Whether what it shows is its own: the copies of a plain subscription of a topic, which nobody else gets.
    pub fn is_own(&self) -> bool
        ensures { result ≡ is_own self.now }
    {
        !self.settles && self.name.is_none() && self.destination.starts_with("/topic/")
    }

    /// The `ack` of its SUBSCRIBE. Without settling it takes only what is its own.
    pub fn mode(&self) -> &'static str
        ensures { result.now ≡ mode_of self.now }
    {
        if self.is_own() {
            "auto"
        } else {
            "client-individual"
        }
    }
}

/// How far one who listens is, over all its connections.
#[derive(Clone, Copy)]
pub struct Course {
    /// How many messages are to come.
    pub left: u64,
    /// Whether it had a session.
    pub has_listened: bool,
    /// Whether it ends once its connection does.
    pub is_once: bool,
}

impl Course {
    /// Before the first connection.
    pub fn new(plan: &Plan<'_>) -> Course
        ensures { result ≡ course_of plan.now }
    {
        Course {
            left: plan.count,
            has_listened: false,
            is_once: plan.is_once,
        }
    }

    /// After a connection that has shown `shown` messages, and whose conversation went wrong at this step.
    pub fn after(self, shown: u64, step: Step) -> Course
        ensures { result ≡ course_after shown step self }
    {
        Course {
            left: self.left.saturating_sub(shown),
            has_listened: self.has_listened || step.is_of_session(),
            is_once: self.is_once,
        }
    }

    /// Whether it connects again after this fault: it had a session, the server is gone, and messages are to come.
    pub fn goes_on(&self, fault: &ClientFault) -> bool
        ensures { result ≡ goes_on fault.now self.now }
    {
        !self.is_once
            && self.has_listened
            && self.left > 0
            && fault.step.is_before_message()
            && fault.is_of_gone_server()
    }
}

// How many messages of a subscription may be unacknowledged (docs/PROTOCOL.md, "Limits").
const MOST_UNACKNOWLEDGED: usize = 16;

/// The `message-id`s of the messages that were printed last. After a connection is lost no others come again, since a server hands out no
/// more before some are acknowledged.
#[derive(Drop)]
pub struct Printed {
    last: Vec<Text>,
}

impl Model for Printed {
    ghost use Rattle.std.specs.Prelude.{List, ℕ};

    ghost Value = { List (List ℕ) };

    ghost view = { λ a. a.last.items };
}

impl Printed {
    ghost use Rattle.std.specs.Prelude.{◌≡◌, [], IfOk, OnErr, OnOk, not};
    ghost use Rattle.client_core.specs.Courses.{is_among, printed_after};

    /// None was printed. No memory is taken.
    pub fn new(alloc: Global) -> Printed
        ensures { result ≡ [] }
    {
        Printed {
            last: Vec::new(alloc),
        }
    }

    /// Notes that a message is printed, and answers whether it counts: it was not among the last ones. If memory is refused, nothing
    /// changes.
    pub fn note(&mut self, id: Text) -> Result<bool, AllocError>
        ensures counts { IfOk result (λ counts. counts ≡ not (is_among id self.old)) }
        ensures noted { OnOk result (self.new ≡ printed_after id self.old) }
        ensures same { OnErr result (self.new ≡ self.old) }
    {
        if is_among(self.last.as_slice(), id.as_str()) {
            drop(id);
            return Ok(false);
        }
        self.last.push(id)?;
        if self.last.len() > MOST_UNACKNOWLEDGED {
            drop(self.last.remove(0));
        }
        Ok(true)
    }
}

fn is_among(ids: &[Text], id: &str) -> bool
    ensures { result ≡ is_among id.now ids.now }
{
    for one in ids {
        if one.as_str() == id {
            return true;
        }
    }
    false
}
