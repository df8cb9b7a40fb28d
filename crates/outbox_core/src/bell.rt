//! How a taker that waits elsewhere learns that it should look.

/// A box rings its bell when something was put in, and when the sending end is gone: cut, finished or dropped. So a taker that waits
/// elsewhere learns that it should look. What ringing does is up to the bell's maker, and no clause speaks of it.
pub trait Bell: Drop {
    /// Tells the taker to look. The thread that gives makes this call, and goes on once it returns.
    fn ring(&self);

    /// Says that a ring will follow. If one thread looks for several takers, it can find them all once the first of their bells is rung. A
    /// bell need not define it.
    fn note(&self) {}
}

/// A bell that does nothing, for a taker that looks by itself.
#[derive(Clone, Copy)]
pub struct Silent;

impl Bell for Silent {
    fn ring(&self) {}
}
