//! Where messages are sent to.

ghost use Rattle.std.specs.Prelude.{◌≡◌, ◌↔◌, ◌++◌, IsTrue, IfOk, IfErr, MatchOption, List, ℕ, ◌≤◌, length};
ghost use Rattle.std.specs.List.{list_all};
ghost use Rattle.frame_core.specs.Writable.{HasNoNul};
ghost use Rattle.command_core.specs.Destinations.{IsDestination, is_destination, is_destination_byte, is_name, is_queue};
ghost use Rattle.command_core.specs.Texts.{IsHeaderText};

use frame_core::Text;
use std::alloc::{AllocError, Global};
use std::marker::Model;
use thiserror::Error;

/// A valid destination: `/topic/` or `/queue/` and a name of 1 to 200 bytes, each an ASCII letter, a digit, `.`, `-`,
/// `_` or `/`. STOMP 1.2 leaves the form to the server ("SEND"). Contracts see it as the list of its bytes.
#[derive(Clone, Drop, PartialEq, Eq, PartialOrd, Ord)]
pub struct Dest {
    text: Text,
}

impl Model for Dest {
    ghost use Rattle.std.specs.Prelude.{List, ℕ};
    ghost use Rattle.command_core.specs.Destinations.{IsDestination};

    ghost Value = { List ℕ };

    ghost view = { λ a. a.text };

    ghost inverse = { λ bytes. record { text = bytes } };

    ghost invariant = { λ a. IsDestination a.text };
}

/// Why a text was not read as a destination.
#[derive(Debug, Drop, Error)]
pub enum DestFault {
    /// The text is no destination.
    #[error("bad destination")]
    Bad,
    /// Memory for the destination was refused.
    #[error(transparent)]
    Memory(#[from(alloc)] AllocError),
}

/// Whether a destination's name may have the byte.
fn may_name(byte: u8) -> bool
    ensures { result ≡ is_destination_byte byte }
{
    matches!(byte, b'a'..=b'z' | b'A'..=b'Z' | b'0'..=b'9' | b'.' | b'-' | b'_' | b'/')
}

fn all_may_name(bytes: &[u8]) -> bool
    ensures { result ≡ list_all is_destination_byte bytes.now }
{
    bytes.iter().all(|byte| may_name(*byte))
}

/// Whether a topic or a queue may have the name.
fn is_name(name: &[u8]) -> bool
    ensures { result ≡ is_name name.now }
{
    !name.is_empty() && name.len() <= 200 && all_may_name(name)
}

fn is_destination(text: &str) -> bool
    ensures { result ≡ is_destination text.now }
{
    let bytes = text.as_bytes();
    (bytes.starts_with(b"/topic/") || bytes.starts_with(b"/queue/")) && is_name(&bytes[7..])
}

impl Dest {
    /// The text as a destination. If it is none, no memory is taken.
    pub fn read(alloc: Global, text: &str) -> Result<Dest, DestFault>
        ensures ok { IfOk result (λ dest. (dest ≡ text.now) × IsDestination text.now) }
        ensures bad { IfErr result (λ fault. (fault ≡ DestFault.Bad) ↔ (¬ IsDestination text.now)) }
    {
        if !is_destination(text) {
            return Err(DestFault::Bad);
        }
        let text = Text::copy(alloc, text).map_err(DestFault::Memory)?;
        Ok(Dest { text })
    }

    /// The destination as it is written, with `/topic/` or `/queue/`.
    pub fn as_str(&self) -> &str
        ensures text { result.now ≡ self.now }
        ensures form { IsDestination self.now }
    {
        self.text.as_str()
    }

    /// Whether messages to it wait in a line for a client that takes them, and are not copied to all that listen.
    pub fn is_queue(&self) -> bool
        ensures { result ≡ is_queue self.now }
    {
        self.text.as_str().as_bytes().starts_with(b"/queue/")
    }
}

/// A text that may stand in a header: UTF-8 without NUL, at most 8,192 bytes. Contracts see it as the list of its
/// bytes.
#[derive(Clone, Drop, PartialEq, Eq, PartialOrd, Ord)]
pub struct HeaderText {
    text: Text,
}

impl Model for HeaderText {
    ghost use Rattle.std.specs.Prelude.{List, ℕ};
    ghost use Rattle.command_core.specs.Texts.{IsHeaderText};

    ghost Value = { List ℕ };

    ghost view = { λ a. a.text };

    ghost inverse = { λ bytes. record { text = bytes } };

    ghost invariant = { λ a. IsHeaderText a.text };
}

fn is_short(text: &str) -> bool
    ensures { IsTrue result ↔ (length text.now ≤ 8192) }
{
    text.len() <= 8192
}

fn has_no_nul(text: &str) -> bool
    ensures { IsTrue result ↔ HasNoNul text.now }
{
    !text.as_bytes().contains(&0)
}

/// Whether the text may stand in a header: it has no NUL, and at most 8,192 bytes.
pub fn is_header_text(text: &str) -> bool
    ensures { IsTrue result ↔ IsHeaderText text.now }
{
    is_short(text) && has_no_nul(text)
}

impl HeaderText {
    /// A text that [`is_header_text`], which moves: no memory is taken.
    pub fn new(text: Text) -> HeaderText
        requires { IsHeaderText text }
        ensures { result ≡ text }
    {
        HeaderText { text }
    }

    /// The text, as UTF-8.
    pub fn as_str(&self) -> &str
        ensures text { result.now ≡ self.now }
        ensures form { IsHeaderText self.now }
    {
        self.text.as_str()
    }

    /// The same text, whose clones share its bytes from now on. If memory is refused for that, the text is gone.
    pub fn share(self, alloc: Global) -> Result<HeaderText, AllocError>
        ensures { IfOk result (λ shared. shared ≡ self) }
    {
        let text = self.text.share(alloc)?;
        Ok(HeaderText { text })
    }

    /// The text, which moves: no memory is taken.
    pub fn into_text(self) -> Text
        ensures text { result ≡ self }
        ensures form { IsHeaderText self }
    {
        self.text
    }
}
