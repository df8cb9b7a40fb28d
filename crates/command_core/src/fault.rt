//! Why a frame or a command is refused.

ghost use Rattle.std.specs.Prelude.{◌≡◌, ◌≢◌, Some, MatchOption};
ghost use Rattle.command_core.specs.declared.fault.Fault.{Fault};
ghost use Rattle.command_core.specs.Faults.{code_of, text_of};

use frame_core::FrameFault;
use std::error::Error;
use std::fmt;

/// Why a frame or a command is refused. Its code and text stand in the `message` header of an ERROR frame (STOMP 1.2,
/// "ERROR").
#[derive(Clone, Copy, Debug)]
pub enum Fault {
    /// Bytes that are no frame.
    MalformedFrame,
    /// A head, a list of headers or a body over its limit.
    FrameTooLarge,
    /// A backslash in a header that begins none of the four escapes.
    UndefinedEscape,
    /// A command that STOMP 1.2 doesn't have, or that only servers send.
    UnknownCommand,
    /// A header that the command needs isn't there.
    MissingHeader,
    /// The client doesn't offer version 1.2.
    UnsupportedVersion,
    /// A frame that may not come at this moment of the session.
    UnexpectedFrame,
    /// A destination that is neither a topic's nor a queue's.
    BadDestination,
    /// The session has a subscription of that id.
    SubscriptionIdInUse,
    /// The session has no subscription of that id.
    UnknownSubscription,
    /// The session has no unacknowledged delivery of that id.
    UnknownAcknowledgement,
    /// The broker holds as much as it may.
    NoRoom,
    /// A durable subscription of a session without a `client-id`.
    NoClientId,
    /// A durable subscription that is unknown, in use or of another topic.
    DurableSubscription,
    /// The session has begun a transaction of that name.
    TransactionBegun,
    /// The session has no transaction of that name.
    TransactionNotBegun,
    /// A transaction with more members or bytes than it may have.
    TransactionTooLarge,
    /// More subscriptions, durable names or transactions than may be.
    TooManyEntries,
    /// A body on a command that has none.
    BodyNotAllowed,
    /// A header whose value can't be understood.
    BadHeaderValue,
}

impl Fault {
    /// Its number, from 1 to 20.
    pub fn code(self) -> u8
        ensures { result ≡ code_of self }
    {
        match self {
            Fault::MalformedFrame => 1,
            Fault::FrameTooLarge => 2,
            Fault::UndefinedEscape => 3,
            Fault::UnknownCommand => 4,
            Fault::MissingHeader => 5,
            Fault::UnsupportedVersion => 6,
            Fault::UnexpectedFrame => 7,
            Fault::BadDestination => 8,
            Fault::SubscriptionIdInUse => 9,
            Fault::UnknownSubscription => 10,
            Fault::UnknownAcknowledgement => 11,
            Fault::NoRoom => 12,
            Fault::NoClientId => 13,
            Fault::DurableSubscription => 14,
            Fault::TransactionBegun => 15,
            Fault::TransactionNotBegun => 16,
            Fault::TransactionTooLarge => 17,
            Fault::TooManyEntries => 18,
            Fault::BodyNotAllowed => 19,
            Fault::BadHeaderValue => 20,
        }
    }

    /// The fault of that number, or `None` if it is none of 1 to 20.
    pub fn from_code(code: u8) -> Option<Fault>
        ensures { MatchOption result
            ((fault : Fault) → code_of fault ≢ code)
            (λ fault. code_of fault ≡ code) }
    {
        match code {
            1 => Some(Fault::MalformedFrame),
            2 => Some(Fault::FrameTooLarge),
            3 => Some(Fault::UndefinedEscape),
            4 => Some(Fault::UnknownCommand),
            5 => Some(Fault::MissingHeader),
            6 => Some(Fault::UnsupportedVersion),
            7 => Some(Fault::UnexpectedFrame),
            8 => Some(Fault::BadDestination),
            9 => Some(Fault::SubscriptionIdInUse),
            10 => Some(Fault::UnknownSubscription),
            11 => Some(Fault::UnknownAcknowledgement),
            12 => Some(Fault::NoRoom),
            13 => Some(Fault::NoClientId),
            14 => Some(Fault::DurableSubscription),
            15 => Some(Fault::TransactionBegun),
            16 => Some(Fault::TransactionNotBegun),
            17 => Some(Fault::TransactionTooLarge),
            18 => Some(Fault::TooManyEntries),
            19 => Some(Fault::BodyNotAllowed),
            20 => Some(Fault::BadHeaderValue),
            _ => None,
        }
    }
}

/// The value of an ERROR frame's `message` header: the code and what is wrong, such as `E3 undefined escape`.
pub fn fault_text(fault: Fault) -> &'static str
    ensures { result.now ≡ text_of fault }
{
    match fault {
        Fault::MalformedFrame => "E1 malformed frame",
        Fault::FrameTooLarge => "E2 frame too large",
        Fault::UndefinedEscape => "E3 undefined escape",
        Fault::UnknownCommand => "E4 unknown command",
        Fault::MissingHeader => "E5 missing header",
        Fault::UnsupportedVersion => "E6 only version 1.2 is spoken",
        Fault::UnexpectedFrame => "E7 frame not expected here",
        Fault::BadDestination => "E8 bad destination",
        Fault::SubscriptionIdInUse => "E9 subscription id in use",
        Fault::UnknownSubscription => "E10 unknown subscription id",
        Fault::UnknownAcknowledgement => "E11 unknown acknowledgement id",
        Fault::NoRoom => "E12 no room for the message",
        Fault::NoClientId => "E13 durable subscription without client-id",
        Fault::DurableSubscription =>
            "E14 durable subscription unknown, in use or of another topic",
        Fault::TransactionBegun => "E15 transaction already begun",
        Fault::TransactionNotBegun => "E16 transaction not begun",
        Fault::TransactionTooLarge => "E17 transaction too large",
        Fault::TooManyEntries => "E18 too many subscriptions or transactions",
        Fault::BodyNotAllowed => "E19 body not allowed",
        Fault::BadHeaderValue => "E20 bad header value",
    }
}

impl fmt::Display for Fault {
    ghost output = { λ fault. Some (text_of fault) };

    fn fmt<W: fmt::Write>(&self, f: &mut fmt::Formatter<W>) -> fmt::Result {
        f.write_str(fault_text(*self))
    }
}

impl Error for Fault {}

impl From<FrameFault> for Fault {
    ghost use Rattle.std.specs.Prelude.{◌≡◌};
    ghost use Rattle.command_core.specs.Faults.{fault_of};

    ghost from_gives = { λ fault r. r ≡ fault_of fault };

    fn from(fault: FrameFault) -> Fault {
        match fault {
            FrameFault::Malformed => Fault::MalformedFrame,
            FrameFault::TooLarge => Fault::FrameTooLarge,
            FrameFault::UndefinedEscape => Fault::UndefinedEscape,
            FrameFault::UnknownCommand => Fault::UnknownCommand,
            FrameFault::BodyNotAllowed => Fault::BodyNotAllowed,
            FrameFault::BadHeaderValue => Fault::BadHeaderValue,
        }
    }
}
