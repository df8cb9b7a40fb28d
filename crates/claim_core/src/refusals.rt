//! Why a call at the ring is refused.

use thiserror::Error;

/// Why an entry was not appended. The entry comes back with this, and nothing was claimed.
#[derive(Clone, Copy, Debug, PartialEq, Eq, Error)]
pub enum Refused {
    /// The flusher has stopped the ring, for good.
    #[error("ring stopped")]
    Stopped,
    /// The mark is 2^60 or over: the tickets of this ring are used up.
    #[error("tickets exhausted")]
    Exhausted,
    /// As many of the caller's own commands as its window holds are not under the mark. The number here is the mark
    /// just read. The call may be made again once the mark has risen.
    #[error("window full at mark {0}")]
    Busy(u64),
}

/// The output may not leave yet: its number is not under the mark. The number here is the mark just read.
#[derive(Clone, Copy, Debug, PartialEq, Eq, Error)]
#[error("not yet: the mark is {0}")]
pub struct NotYet(pub u64);
