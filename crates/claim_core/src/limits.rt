//! The limits of the ring between sessions and the flusher. Code that speaks of one of these numbers takes its name from here.

use crate::ring::Ring;
use crate::seats::SessionSeat;

/// How many seats the ring has. A server's desk has one, and so has each connection of a script, whose number is less than this.
pub const SEATS: usize = 64;

/// How many commands of a seat may be under way: claimed, and not known at the seat to be in the journal. A desk with that many hears
/// nothing more until one of them is stored. A script flushes before one more waits.
pub const WINDOW: usize = 16;

/// How many places the ring has: one for each command that all seats may have under way, so that no seat waits for a place.
pub const PLACES: usize = 1_024;

const _: () = prove!(SEATS * WINDOW <= PLACES);

/// The ring of the broker.
pub type BrokerRing<B> = Ring<B, SEATS, WINDOW, PLACES>;

/// A session's seat at the broker's ring.
pub type BrokerSeat<B> = SessionSeat<B, WINDOW>;
