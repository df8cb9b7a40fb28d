//! When a server that was asked to end has stored what was claimed by then.

ghost use Rattle.std.specs.Prelude.{◌≡◌, ◌≤◌, ◌↔◌, ◌⊎◌, ℕ, None, Some, false, true};
ghost use Rattle.server_core.specs.Endings.{over_all};

use claim_core::PLACES;

/// The rounds of a flusher after its server was asked to end.
#[derive(Clone, Copy)]
pub(crate) struct LastRounds {
    // Once the server was found asked, a number over all that was claimed by then.
    end: Option<u64>,
}

impl LastRounds {
    /// The server was not asked yet.
    pub(crate) fn new() -> LastRounds
        ensures { result.end ≡ None }
    {
        LastRounds { end: None }
    }

    /// A round is over: whether the server was asked to end, the mark, and whether the round took anything. Answers whether all that was
    /// claimed when the server was asked is published. A round that began before the server was found asked does not show that.
    pub(crate) fn is_last(&mut self, is_asked: bool, mark: u64, took: bool) -> bool
        ensures serves { is_asked ≡ false → (result ≡ false) × (self.new ≡ self.old) }
        ensures asked { is_asked ≡ true → self.old.end ≡ None → (result ≡ false) × (self.new.end ≡ Some (over_all mark)) }
        ensures ends { (end : ℕ) → is_asked ≡ true → self.old.end ≡ Some end → ((result ≡ true) ↔ ((end ≤ mark) ⊎ (took ≡ false))) × (self.new ≡ self.old) }
    {
        if !is_asked {
            return false;
        }
        match self.end {
            Some(end) => end <= mark || !took,
            None => {
                self.end = Some(mark.saturating_add(2 * PLACES as u64));
                false
            }
        }
    }
}
