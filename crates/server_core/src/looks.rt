//! When a server looks at the file of its journal, and what it found.

ghost use Rattle.std.specs.Prelude.{◌≡◌, ◌≤◌, ◌↔◌, IsTrue, MatchBool, None, Some};
ghost use Rattle.server_core.specs.Looks.{a_second_after, reported_cause};

use disk_core::DeviceCause;

// After how many milliseconds it looks again.
const PAUSE: u64 = 1_000;

/// When the next look is due, in milliseconds of the clock, and what the last one found.
#[derive(Clone, Copy)]
pub(crate) struct Looks {
    next: u64,
    found: Option<DeviceCause>,
}

impl Looks {
    /// A look is due.
    pub(crate) fn new() -> Looks
        ensures { result ≡ record { next = 0; found = None } }
    {
        Looks {
            next: 0,
            found: None,
        }
    }

    /// Whether a look is due at this moment. The next one is due a second after it.
    pub(crate) fn is_due(&mut self, now: u64) -> bool
        ensures due { IsTrue result ↔ (self.old.next ≤ now) }
        ensures next { MatchBool result (self.new.next ≡ a_second_after now) (self.new.next ≡ self.old.next) }
        ensures found { self.new.found ≡ self.old.found }
    {
        let is_due = now >= self.next;
        if is_due {
            self.next = now.saturating_add(PAUSE);
        }
        is_due
    }

    /// Notes what a look found.
    pub(crate) fn note(&mut self, cause: DeviceCause)
        ensures { self.new ≡ record self.old { found = Some cause } }
    {
        self.found = Some(cause);
    }

    /// Why the disk failed: what a look found, or else the cause that the disk kept.
    pub(crate) fn cause(&self, kept: Option<DeviceCause>) -> DeviceCause
        ensures { result ≡ reported_cause self.now.found kept }
    {
        match (self.found, kept) {
            (Some(cause), _) | (None, Some(cause)) => cause,
            (None, None) => DeviceCause::Refused,
        }
    }
}
