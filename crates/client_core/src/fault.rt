//! Which step of a conversation went wrong, why, and what is unknown then.

ghost use Rattle.std.specs.Prelude.{◌≡◌};
ghost use Rattle.client_core.specs.Doubts.{doubt_of};

use crate::moving::Stage;
use frame_core::{Text, Verb};
use std::fmt;

// For how many seconds it is tried again to get a durable name that another session has.
const HELD_SECONDS: u64 = 90;

/// A step of a conversation. Each may take five seconds, but for a message, which may take 90.
#[derive(Clone, Copy)]
pub enum Step {
    /// The connection to the port.
    Connection,
    /// The handshake of the WebSocket.
    Handshake,
    /// CONNECTED, which answers the CONNECT.
    Connected,
    /// The RECEIPT of the SEND.
    Receipt,
    /// A message of the subscription.
    Message,
    /// What is shown to the user.
    Output,
    /// The RECEIPT of the DISCONNECT.
    Farewell,
    /// The close of the WebSocket.
    Close,
}

impl Step {
    ghost use Rattle.std.specs.Prelude.{◌≡◌};
    ghost use Rattle.client_core.specs.Texts.{is_before_message, is_of_session, step_text};

    /// Whether it is of a session that has begun.
    pub fn is_of_session(self) -> bool
        ensures { result ≡ is_of_session self }
    {
        matches!(
            self,
            Step::Message | Step::Output | Step::Farewell | Step::Close
        )
    }

    /// Whether it comes before a message, so that nothing is lost if it is done again.
    pub fn is_before_message(self) -> bool
        ensures { result ≡ is_before_message self }
    {
        matches!(
            self,
            Step::Connection | Step::Handshake | Step::Connected | Step::Message
        )
    }

    /// What did not come.
    pub fn text(self) -> &'static str
        ensures { result.now ≡ step_text self }
    {
        match self {
            Step::Connection => "no connection: ",
            Step::Handshake => "no handshake: ",
            Step::Connected => "no CONNECTED: ",
            Step::Receipt => "no RECEIPT: ",
            Step::Message => "no more messages: ",
            Step::Output => "",
            Step::Farewell => "no RECEIPT of the DISCONNECT: ",
            Step::Close => "no close: ",
        }
    }
}

/// Why a step went wrong.
#[derive(Drop)]
pub enum Cause {
    /// Nobody listens at the port.
    Unserved,
    /// There is no host of that name, or the URL has none.
    NoHost,
    /// No way leads there: the network, the host or an address of this machine is away.
    Unreached,
    /// Five seconds have passed.
    Late,
    /// Nothing has come for 90 seconds, in which a server pings.
    Silent,
    /// The handshake was answered by this status of HTTP, which is not 101.
    Status(u16),
    /// What came is not a WebSocket (RFC 6455).
    NotWebSocket,
    /// The peer has closed, with this code (RFC 6455, section 7.4), or 1005 if it sent none.
    Closed(u16),
    /// The connection has ended without a close.
    Ended,
    /// An ERROR came, with this `message` header. Bytes under 0x20, `%`, 0x7F and those from 0x80 on stand in it as `%XX`.
    Error(Text),
    /// Another frame came than the answer, or one more after the answer.
    Other(Verb),
    /// What came is not STOMP.
    NotStomp,
    /// What was to be sent can't be written as a frame: a header has no name, or a `client-id` an end of line.
    Unwritable,
    /// Nothing more can be shown to the user.
    Output,
    /// A growth of memory was refused.
    Memory,
    /// The system refused a call.
    System,
    /// No message has come for as long as the plan allows.
    Quiet,
}

/// The text for the user.
impl fmt::Display for Cause {
    ghost use Rattle.std.specs.Prelude.{Some};
    ghost use Rattle.client_core.specs.Texts.{cause_text};

    ghost output = { λ cause. Some (cause_text cause) };

    fn fmt<W: fmt::Write>(&self, f: &mut fmt::Formatter<W>) -> fmt::Result {
        match self {
            Cause::Unserved => f.write_str("nobody listens there"),
            Cause::NoHost => f.write_str("there is no such host"),
            Cause::Unreached => f.write_str("no network leads there"),
            Cause::Late => f.write_str("no answer within 5 s"),
            Cause::Silent => f.write_str("nothing came for 90 s"),
            Cause::Status(status) => write!(f, "HTTP status {status}"),
            Cause::NotWebSocket => f.write_str("what came is no WebSocket"),
            Cause::Closed(code) => write!(f, "closed with {code}"),
            Cause::Ended => f.write_str("the connection has ended"),
            Cause::Error(message) => write!(f, "ERROR: {}", message.as_str()),
            Cause::Other(verb) => write!(f, "{} came", verb.name()),
            Cause::NotStomp => f.write_str("what came is no STOMP"),
            Cause::Unwritable => f.write_str("no frame can have such a header"),
            Cause::Output => f.write_str("input or output failed"),
            Cause::Memory => f.write_str("out of memory"),
            Cause::System => f.write_str("the system refuses it"),
            Cause::Quiet => f.write_str("none came within --timeout"),
        }
    }
}

/// Why a conversation was not finished.
#[derive(Drop)]
pub struct ClientFault {
    pub step: Step,
    pub cause: Cause,
}

impl ClientFault {
    ghost use Rattle.std.specs.Prelude.{◌≡◌};
    ghost use Rattle.client_core.specs.Texts.{is_of_full};

    /// Whether the server has all the clients that it takes: it answers the handshake with status 503, so it is alive.
    pub fn is_of_full_server(&self) -> bool
        ensures { result ≡ is_of_full self.now.step self.now.cause }
    {
        match (self.step, &self.cause) {
            (Step::Handshake, Cause::Status(status)) => *status == 503,
            _ => false,
        }
    }
}

impl ClientFault {
    ghost use Rattle.std.specs.Prelude.{◌≡◌};
    ghost use Rattle.client_core.specs.Texts.{is_crowded};

    /// Whether the server is alive, as one that is full is: it says so, or takes the connection and ends it without an answer.
    pub fn is_of_crowded_server(&self) -> bool
        ensures { result ≡ is_crowded self.now.step self.now.cause }
    {
        self.is_of_full_server() || self.is_unanswered()
    }
}

impl ClientFault {
    ghost use Rattle.std.specs.Prelude.{◌≡◌};
    ghost use Rattle.client_core.specs.Texts.{is_unanswered};

    /// Whether the connection was taken, and ended before a byte of the handshake's answer.
    pub fn is_unanswered(&self) -> bool
        ensures { result ≡ is_unanswered self.now.step self.now.cause }
    {
        match (self.step, &self.cause) {
            (Step::Handshake, Cause::Ended) => true,
            _ => false,
        }
    }
}

impl ClientFault {
    ghost use Rattle.std.specs.Prelude.{◌≡◌};
    ghost use Rattle.client_core.specs.Texts.{may_pass};

    /// Whether it is worth another try, so many seconds after it came first: another session has the durable name (E14), whose client may be
    /// gone. A server takes at most 80 seconds to end such a session.
    pub fn may_pass(&self, waited: u64) -> bool
        ensures { result ≡ may_pass waited self.now }
    {
        match (self.step, &self.cause) {
            // Of a subscription that waits no longer it comes in place of the last RECEIPT.
            (Step::Message | Step::Farewell, Cause::Error(text)) => text
                .as_str()
                .starts_with("E14 ")
                && waited < HELD_SECONDS,
            _ => false,
        }
    }
}

impl ClientFault {
    ghost use Rattle.std.specs.Prelude.{◌≡◌};
    ghost use Rattle.client_core.specs.Texts.{is_unknown};

    /// Whether a message was sent, and no answer shows whether it was taken.
    pub fn is_unknown(&self) -> bool
        ensures { result ≡ is_unknown self.now.step self.now.cause }
    {
        match (self.step, &self.cause) {
            (Step::Receipt, Cause::Error(_) | Cause::Unwritable) => false,
            (Step::Receipt, _) => true,
            _ => false,
        }
    }
}

impl ClientFault {
    ghost use Rattle.std.specs.Prelude.{◌≡◌};
    ghost use Rattle.client_core.specs.Texts.{is_gone, is_quiet};

    /// Whether no message has come for as long as the plan allows.
    pub fn is_quiet(&self) -> bool
        ensures { result ≡ is_quiet self.now.cause }
    {
        matches!(self.cause, Cause::Quiet)
    }

    /// Whether the server, or the connection to it, is gone, and may be there again later.
    pub fn is_of_gone_server(&self) -> bool
        ensures { result ≡ is_gone self.now.cause }
    {
        match &self.cause {
            Cause::Unserved | Cause::NoHost | Cause::Unreached | Cause::Late | Cause::Ended => true,
            Cause::Closed(code) => *code == 1001 || *code == 1012 || *code == 1013,
            Cause::Status(status) => *status == 502 || *status == 503 || *status == 504,
            _ => false,
        }
    }
}

/// The text for the user.
impl fmt::Display for ClientFault {
    ghost use Rattle.std.specs.Prelude.{Some};
    ghost use Rattle.client_core.specs.Texts.{client_text};

    ghost output = { λ fault. Some (client_text fault) };

    fn fmt<W: fmt::Write>(&self, f: &mut fmt::Formatter<W>) -> fmt::Result {
        write!(f, "{}{}", self.step.text(), self.cause)
    }
}

/// What became of the message that was to be moved when a fault ended that.
#[derive(Clone, Copy)]
pub enum Doubt {
    /// None was under way.
    Nothing,
    /// It was refused: it stays where it was.
    Stays,
    /// Its transaction was committed, or not: it is at one of the two places.
    Uncounted,
    /// The other server may have it, and this one too.
    Twice,
}

impl Doubt {
    ghost use Rattle.std.specs.Prelude.{◌≡◌};
    ghost use Rattle.client_core.specs.Doubts.{doubt_text};

    /// What is reported of it after the fault.
    pub fn text(self) -> &'static str
        ensures { result.now ≡ doubt_text self }
    {
        match self {
            Doubt::Nothing => "",
            Doubt::Stays => "; the message stays where it was",
            Doubt::Uncounted => "; one more message may be moved, or not",
            Doubt::Twice => "; one message may be at both servers, and would be moved again",
        }
    }
}

/// What is not known once a fault of this cause ends the way to the same server, or to another one that is far, at this stage.
pub fn doubt_of(is_far: bool, stage: Stage, cause: &Cause) -> Doubt
    ensures { result ≡ doubt_of is_far stage cause.now }
{
    match (stage, cause) {
        (Stage::Free, _) => Doubt::Nothing,
        (Stage::Sent, Cause::Error(_)) => Doubt::Stays,
        (Stage::Settling, Cause::Error(_)) if !is_far => Doubt::Stays,
        (Stage::Settling, _) if !is_far => Doubt::Uncounted,
        _ => Doubt::Twice,
    }
}
