//! A frame: its command, its headers and its body.

ghost use Rattle.std.specs.Prelude.{◌≡◌, Some, None, MatchOption};
ghost use Rattle.frame_core.specs.Writable.{first_of};

use crate::text::{Bytes, Text};
use std::marker::Model;

/// A command of STOMP 1.2 ("Standard Headers" and the sections on client and server frames). The first eleven come
/// from clients, the last four from servers.
#[derive(Clone, Copy)]
pub enum Verb {
    /// CONNECT: opens a session.
    Connect,
    /// STOMP: the same, by its newer name.
    Stomp,
    /// SEND: a message to a destination.
    Send,
    /// SUBSCRIBE: listens to a destination.
    Subscribe,
    /// UNSUBSCRIBE: listens no more.
    Unsubscribe,
    /// ACK: a delivery is done with.
    Ack,
    /// NACK: a delivery is not wanted.
    Nack,
    /// BEGIN: begins a transaction.
    Begin,
    /// COMMIT: carries a transaction out.
    Commit,
    /// ABORT: forgets a transaction.
    Abort,
    /// DISCONNECT: ends the session.
    Disconnect,
    /// CONNECTED: the session is open.
    Connected,
    /// MESSAGE: a message of a subscription.
    Message,
    /// RECEIPT: the frame that asked for it is done.
    Receipt,
    /// ERROR: a refusal, after which the connection ends.
    Error,
}

impl Verb {
    ghost use Rattle.std.specs.Prelude.{◌≡◌, ◌≢◌, MatchOption};
    ghost use Rattle.frame_core.specs.declared.frame.Verb.{Verb};
    ghost use Rattle.frame_core.specs.Verbs.{name_of, is_raw, has_body};

    /// The word of the command line.
    pub fn name(self) -> &'static str
        ensures { result.now ≡ name_of self }
    {
        match self {
            Verb::Connect => "CONNECT",
            Verb::Stomp => "STOMP",
            Verb::Send => "SEND",
            Verb::Subscribe => "SUBSCRIBE",
            Verb::Unsubscribe => "UNSUBSCRIBE",
            Verb::Ack => "ACK",
            Verb::Nack => "NACK",
            Verb::Begin => "BEGIN",
            Verb::Commit => "COMMIT",
            Verb::Abort => "ABORT",
            Verb::Disconnect => "DISCONNECT",
            Verb::Connected => "CONNECTED",
            Verb::Message => "MESSAGE",
            Verb::Receipt => "RECEIPT",
            Verb::Error => "ERROR",
        }
    }

    /// The command of that word.
    pub fn from_name(name: &str) -> Option<Verb>
        ensures { MatchOption result
            ((verb : Verb) → name_of verb ≢ name.now)
            (λ verb. name.now ≡ name_of verb) }
    {
        match name {
            "CONNECT" => Some(Verb::Connect),
            "STOMP" => Some(Verb::Stomp),
            "SEND" => Some(Verb::Send),
            "SUBSCRIBE" => Some(Verb::Subscribe),
            "UNSUBSCRIBE" => Some(Verb::Unsubscribe),
            "ACK" => Some(Verb::Ack),
            "NACK" => Some(Verb::Nack),
            "BEGIN" => Some(Verb::Begin),
            "COMMIT" => Some(Verb::Commit),
            "ABORT" => Some(Verb::Abort),
            "DISCONNECT" => Some(Verb::Disconnect),
            "CONNECTED" => Some(Verb::Connected),
            "MESSAGE" => Some(Verb::Message),
            "RECEIPT" => Some(Verb::Receipt),
            "ERROR" => Some(Verb::Error),
            _ => None,
        }
    }

    /// Whether its headers stand as they are, with no escapes: CONNECT, STOMP and CONNECTED (STOMP 1.2, "Value
    /// Encoding").
    pub fn is_raw(self) -> bool
        ensures { result ≡ is_raw self }
    {
        matches!(self, Verb::Connect | Verb::Stomp | Verb::Connected)
    }

    /// Whether a frame of it may have a body: SEND, MESSAGE and ERROR (STOMP 1.2, "Body").
    pub fn has_body(self) -> bool
        ensures { result ≡ has_body self }
    {
        matches!(self, Verb::Send | Verb::Message | Verb::Error)
    }
}

/// One frame of STOMP 1.2 as it is meant: names and values without their escapes, and all entries of a repeated
/// header, of which the first counts.
#[derive(Drop)]
pub struct Frame {
    /// Its command.
    pub verb: Verb,
    /// Its headers, in their order.
    pub headers: Headers,
    /// Its body: any bytes.
    pub body: Bytes,
}

/// The value of the first of these headers that has that name.
pub(crate) fn value_of<'a>(headers: &'a [(Text, Text)], name: &str) -> Option<&'a str>
    ensures { MatchOption result
        (first_of name.now headers.now ≡ None)
        (λ value. first_of name.now headers.now ≡ Some value.now) }
{
    for (key, value) in headers {
        if name == key.as_str() {
            return Some(value.as_str());
        }
    }
    None
}

/// The value of the first header of that name, which is the one that counts (STOMP 1.2, "Repeated Header Entries"),
/// or `None` if there is none.
pub fn first<'a>(frame: &'a Frame, name: &str) -> Option<&'a str>
    ensures { MatchOption result
        (first_of name.now frame.now.headers ≡ None)
        (λ value. first_of name.now frame.now.headers ≡ Some value.now) }
{
    value_of(frame.headers.as_slice(), name)
}

/// The headers of a frame in the order in which they stand there, repeated ones too. Contracts see them as the list
/// of their names and values.
#[derive(Clone, Drop)]
pub struct Headers {
    all: Vec<(Text, Text)>,
}

impl Model for Headers {
    ghost use Rattle.std.specs.Prelude.{List, ℕ};

    ghost Value = { List (List ℕ × List ℕ) };

    ghost view = { λ a. a.all.items };
}

impl Headers {
    /// The headers of a vector, which moves: no memory is taken.
    pub fn new(all: Vec<(Text, Text)>) -> Headers
        ensures { result ≡ all.items }
    {
        Headers { all }
    }

    /// The names and values in their order.
    pub fn as_slice(&self) -> &[(Text, Text)]
        ensures { result.now ≡ self.now }
    {
        self.all.as_slice()
    }

    /// The vector of the headers, which moves: no memory is taken.
    pub fn into_vec(self) -> Vec<(Text, Text)>
        ensures { result.items ≡ self }
    {
        self.all
    }
}

impl PartialEq for Headers {
    ghost use Rattle.frame_core.specs.SameHeaders.{same_headers, same_headers_equiv};
    ghost use Rattle.std.specs.Cmp.{partial_equiv_from_equiv};

    ghost eq = { same_headers };

    ghost laws = { partial_equiv_from_equiv same_headers_equiv };

    fn eq(&self, other: &Headers) -> bool {
        self.all == other.all
    }
}

impl Eq for Headers {
    ghost use Rattle.frame_core.specs.SameHeaders.{same_headers_equiv};

    ghost laws = { same_headers_equiv };
}
