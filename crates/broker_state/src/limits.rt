//! How much a broker takes.

/// How many messages may be held.
pub const MOST_MESSAGES: u64 = 4096;

/// How many bytes may be held.
pub const MOST_BYTES: u64 = 16_777_216;

/// How many deliveries of a subscription may be unacknowledged.
pub const WINDOW: usize = 16;

/// How many subscriptions a session may have.
pub const MOST_SUBSCRIPTIONS: usize = 16;

/// How many durable names there may be.
pub const MOST_NAMES: usize = 256;

/// From this number on, nothing is delivered.
pub const LAST_DELIVERY: u64 = 1 << 63;

/// How much the broker holds. A message counts in each line and for each subscription where it stands.
#[derive(Clone, Copy)]
pub struct Held {
    /// The messages that wait or are not acknowledged, at most 4,096.
    pub messages: u64,
    /// Their bytes, at most 16,777,216: those of destinations, of headers' names and values, and of bodies.
    pub bytes: u64,
}
