//! Text that contracts see as its bytes.

ghost use Rattle.std.specs.Prelude.{◌≡◌, IfOk, string_bytes};
ghost use Rattle.frame_core.specs.Words.{word_bytes};

use arrayvec::ArrayString;
use std::alloc::{AllocError, Global};
use std::cmp::Ordering;
use std::marker::Model;
use std::sync::Arc;

/// The longest text that stands in the value itself. Most names, destinations and receipts are shorter.
const INLINE_BYTES: usize = 24;

// How a text is kept: as a word of the broker, in the value itself, as a string of its own, or as one that several texts share.
#[derive(Drop)]
pub(crate) enum TextForm {
    Written(Word),
    Inline(ArrayString<INLINE_BYTES>),
    Own(String),
    Shared(Arc<String>),
}

/// A text in UTF-8. Contracts see it as the list of its bytes. A clone copies these bytes, unless they are a word of the broker or
/// shared, and takes no memory for one of up to 24 bytes that was made by `copy`.
pub struct Text {
    form: TextForm,
}

impl Model for Text {
    ghost use Rattle.std.specs.Prelude.{List, ℕ};
    ghost use Rattle.frame_core.specs.Forms.{text_bytes};

    ghost Value = { List ℕ };

    ghost view = { λ a. text_bytes a.form };
}

impl Text {
    /// The text of a string, which moves: no memory is taken.
    pub fn new(text: String) -> Text
        ensures { result ≡ string_bytes text }
    {
        Text {
            form: TextForm::Own(text),
        }
    }

    /// A copy of a text. One of up to 24 bytes takes no memory.
    pub fn copy(alloc: Global, text: &str) -> Result<Text, AllocError>
        ensures { IfOk result (λ copy. copy ≡ text.now) }
    {
        match ArrayString::from(text) {
            Ok(text) => Ok(Text {
                form: TextForm::Inline(text),
            }),
            Err(_) => Ok(Text::new(String::from_str(alloc, text)?)),
        }
    }

    /// The text of a word of the broker: no memory is taken.
    pub fn of_word(word: Word) -> Text
        ensures { result ≡ word_bytes word }
    {
        Text {
            form: TextForm::Written(word),
        }
    }

    /// The same text, whose clones share its bytes from now on. If memory is refused for that, the text is gone.
    pub fn share(self, alloc: Global) -> Result<Text, AllocError>
        ensures { IfOk result (λ shared. shared ≡ self) }
    {
        let Text { form } = self;
        match form {
            TextForm::Own(text) => {
                let text = Arc::new(alloc, text)?;
                Ok(Text {
                    form: TextForm::Shared(text),
                })
            }
            form => Ok(Text { form }),
        }
    }

    /// The text, as UTF-8.
    pub fn as_str(&self) -> &str
        ensures { result.now ≡ self.now }
    {
        match &self.form {
            TextForm::Written(word) => word.as_str(),
            TextForm::Inline(text) => text.as_str(),
            TextForm::Own(text) => text.as_str(),
            TextForm::Shared(text) => text.as_str(),
        }
    }
}

// Written out, so that dropping a text is one step, and not one for each form.
impl Drop for Text {
    fn drop(self) {
        let Text { form } = self;
        drop(form);
    }
}

impl Clone for Text {
    ghost use Rattle.std.specs.Prelude.{◌≡◌};

    ghost is_clone = { λ old copy. copy ≡ old };

    fn clone(&self) -> Result<Text, AllocError> {
        let form = match &self.form {
            TextForm::Written(word) => TextForm::Written(*word),
            TextForm::Inline(text) => TextForm::Inline(*text),
            TextForm::Own(text) => TextForm::Own(text.clone()?),
            TextForm::Shared(text) => TextForm::Shared(text.clone()?),
        };
        Ok(Text { form })
    }
}

impl PartialEq for Text {
    ghost use Rattle.std.specs.Cmp.{partial_equiv_from_equiv};
    ghost use Rattle.std.specs.Str.{bytes_eq};
    ghost use Rattle.std.proofs.lemmas.Cmp.{nat_list_eq_equiv};

    ghost eq = { bytes_eq };

    ghost laws = { partial_equiv_from_equiv nat_list_eq_equiv };

    fn eq(&self, other: &Text) -> bool {
        self.as_str() == other.as_str()
    }
}

impl Eq for Text {
    ghost use Rattle.std.proofs.lemmas.Cmp.{nat_list_eq_equiv};

    ghost laws = { nat_list_eq_equiv };
}

impl PartialOrd for Text {
    ghost use Rattle.std.specs.Prelude.{Some};
    ghost use Rattle.std.specs.Cmp.Lexicographic.{slice_cmp, texts_po};
    ghost use Rattle.std.specs.Ordering.{nat_cmp};

    ghost partial_cmp = { λ x y. Some (slice_cmp nat_cmp x y) };

    ghost laws = { texts_po };

    fn partial_cmp(&self, other: &Text) -> Option<Ordering> {
        Some(self.cmp(other))
    }
}

impl Ord for Text {
    ghost use Rattle.std.specs.Prelude.{refl};
    ghost use Rattle.std.specs.Cmp.Lexicographic.{slice_cmp, texts_ties};
    ghost use Rattle.std.specs.Ordering.{nat_cmp};
    ghost use Rattle.std.proofs.lemmas.Cmp.{nat_list_cmp_total};

    ghost cmp = { slice_cmp nat_cmp };

    ghost total = { nat_list_cmp_total };

    ghost matches_partial_cmp = { λ x y. refl };

    ghost matches_eq = { texts_ties };

    fn cmp(&self, other: &Text) -> Ordering {
        self.as_str().cmp(other.as_str())
    }
}

/// The bytes of a body. Contracts see them as a list.
#[derive(Clone, Drop)]
pub struct Bytes {
    all: Vec<u8>,
}

impl Model for Bytes {
    ghost use Rattle.std.specs.Prelude.{List, ℕ};

    ghost Value = { List ℕ };

    ghost view = { λ a. a.all.items };
}

impl Bytes {
    /// The bytes of a vector, which moves: no memory is taken.
    pub fn new(all: Vec<u8>) -> Bytes
        ensures { result ≡ all.items }
    {
        Bytes { all }
    }

    /// The bytes.
    pub fn as_slice(&self) -> &[u8]
        ensures { result.now ≡ self.now }
    {
        self.all.as_slice()
    }
}

impl PartialEq for Bytes {
    ghost use Rattle.std.specs.Cmp.{partial_equiv_from_equiv};
    ghost use Rattle.std.specs.Str.{bytes_eq};
    ghost use Rattle.std.proofs.lemmas.Cmp.{nat_list_eq_equiv};

    ghost eq = { bytes_eq };

    ghost laws = { partial_equiv_from_equiv nat_list_eq_equiv };

    fn eq(&self, other: &Bytes) -> bool {
        self.as_slice() == other.as_slice()
    }
}

impl Eq for Bytes {
    ghost use Rattle.std.proofs.lemmas.Cmp.{nat_list_eq_equiv};

    ghost laws = { nat_list_eq_equiv };
}

/// The name of a header that a broker writes itself (STOMP 1.2, "CONNECTED", "MESSAGE", "RECEIPT" and "ERROR").
#[derive(Clone, Copy)]
pub enum Word {
    /// `version`
    Version,
    /// `session`
    Session,
    /// `heart-beat`
    HeartBeat,
    /// `receipt-id`
    ReceiptId,
    /// `message`
    Message,
    /// `subscription`
    Subscription,
    /// `message-id`
    MessageId,
    /// `destination`
    Destination,
    /// `ack`
    Ack,
    /// `content-length`
    ContentLength,
}

impl Word {
    /// The word as it is written.
    pub fn as_str(self) -> &'static str
        ensures { result.now ≡ word_bytes self }
    {
        match self {
            Word::Version => "version",
            Word::Session => "session",
            Word::HeartBeat => "heart-beat",
            Word::ReceiptId => "receipt-id",
            Word::Message => "message",
            Word::Subscription => "subscription",
            Word::MessageId => "message-id",
            Word::Destination => "destination",
            Word::Ack => "ack",
            Word::ContentLength => "content-length",
        }
    }
}
