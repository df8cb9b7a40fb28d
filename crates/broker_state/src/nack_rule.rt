//! What a NACK does.

/// What a NACK does with the messages that it settles, which are those that an ACK would settle.
#[derive(Clone, Copy)]
pub enum NackRule {
    /// It drops them, as an ACK does. That was the rule at first, and the blocks of a journal of version 1 are read
    /// by it.
    Drops,
    /// It drops those of a plain subscription of a topic, and those that were refused before, whose destination is
    /// `/queue/dead`. Every other one goes to `/queue/dead`, with its headers and body. That is the rule now.
    Keeps,
}
