//! What a client asks of a connection, and where that leads.

ghost use Rattle.std.specs.Prelude.{◌≡◌, ◌∷◌, [], IfErr, IfOk, List, None, OnOk, Option};
ghost use Rattle.client_core.specs.Talks.{Adds, Heard, IsOfPeer, Said, Shown, Spoken};

use crate::fault::Cause;

/// Where a server is.
#[derive(Clone, Copy)]
pub enum Address<'a> {
    /// At this port of this machine.
    Port(u16),
    /// At this URL, `ws://HOST:PORT/PATH`.
    Url(&'a str),
}

/// A connection that carries one STOMP stream each way. A step begins when something is sent, and a peer may end it as `Late`.
///
/// A peer may show what was sent and read: then contracts see all of that, in its order.
pub trait Peer {
    /// What was sent and read, if the peer shows it.
    ghost talk: { Self → Option (List Spoken) } = { λ _. None };

    /// Says a frame. This begins a step.
    fn say(&mut self, frame: &[u8]) -> Result<(), Cause>
        ensures told { OnOk result (Adds (Said frame.now ∷ []) (talk self.old) (talk self.new)) }
        ensures cause { IfErr result IsOfPeer };

    /// The next bytes that the peer sends, perhaps none. A frame may be cut over several of these.
    fn hear(&mut self) -> Result<Vec<u8>, Cause>
        ensures told { IfOk result (λ bytes. Adds (Heard bytes.items ∷ []) (talk self.old) (talk self.new)) }
        ensures cause { IfErr result IsOfPeer };

    /// Begins a step in which nothing is sent. If the clock can't be read, the step before goes on.
    fn renew(&mut self)
        ensures told { talk self.new ≡ talk self.old };

    /// Closes the connection in good order. This begins a step.
    fn close(&mut self) -> Result<(), Cause>
        ensures told { talk self.new ≡ talk self.old }
        ensures cause { IfErr result IsOfPeer };
}

/// A connection whose messages are shown to the user.
pub trait Listener: Peer {
    /// The next bytes that the peer sends, for which it may take its time. This begins a step.
    fn wait(&mut self) -> Result<Vec<u8>, Cause>
        ensures told { IfOk result (λ bytes. Adds (Heard bytes.items ∷ []) (Self.Peer.talk self.old) (Self.Peer.talk self.new)) }
        ensures cause { IfErr result IsOfPeer };

    /// Shows these bytes to the user at once.
    fn show(&mut self, text: &[u8]) -> Result<(), Cause>
        ensures told { OnOk result (Adds (Shown text.now ∷ []) (Self.Peer.talk self.old) (Self.Peer.talk self.new)) }
        ensures cause { IfErr result IsOfPeer };
}
