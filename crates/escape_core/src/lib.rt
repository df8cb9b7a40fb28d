//! The escapes of STOMP 1.2 in header names and values ("Value Encoding").

#![tactic(auto)]

ghost use Rattle.std.specs.Prelude.{◌++◌, ◌∷◌, ◌≡◌, ◌↔◌, [], Some, None, IfOk, List, ℕ, is_some, true};
ghost use Rattle.escape_core.specs.Escapes.{code_of, escaped, unescaped, escape_of};

use std::alloc::{AllocError, Global};
use thiserror::Error;

/// Why written bytes could not be read as a text.
#[derive(Clone, Copy, Debug, PartialEq, Eq, Error)]
pub enum EscapeFault {
    /// A backslash that begins none of the four escapes, or one at the end.
    #[error("undefined escape")]
    Undefined,
    /// The room for the text was refused.
    #[error("no memory")]
    Memory,
}

/// What a backslash and this byte stand for.
fn meaning_of(c: u8) -> Option<u8>
    ensures { result ≡ escape_of c }
{
    match c {
        b'r' => Some(b'\r'),
        b'n' => Some(b'\n'),
        b'c' => Some(b':'),
        b'\\' => Some(b'\\'),
        _ => None,
    }
}

/// Writes a byte of a text: CR, LF, colon and backslash as their escapes, every other byte as itself.
fn push_escaped(written: &mut Vec<u8>, b: u8) -> Result<(), AllocError>
    ensures { IfOk result (λ _. written.new.items ≡ written.old.items ++ code_of b) }
{
    match b {
        b'\r' => written.extend_from_slice(b"\\r"),
        b'\n' => written.extend_from_slice(b"\\n"),
        b':' => written.extend_from_slice(b"\\c"),
        b'\\' => written.extend_from_slice(b"\\\\"),
        plain => Ok(written.push(plain)?),
    }
}

/// Whether a byte is written as itself.
fn is_plain_byte(b: u8) -> bool
    ensures { result ≡ true → code_of b ≡ b ∷ [] }
{
    !matches!(b, b'\r' | b'\n' | b':' | b'\\')
}

/// Whether the text is written as it is, since no byte of it has an escape. No memory is taken.
pub fn is_plain(text: &[u8]) -> bool
    ensures { result ≡ true → escaped text.now ≡ text.now }
{
    for b in text {
        if !is_plain_byte(*b) {
            return false;
        }
    }
    true
}

/// The text as it is written in a header: CR, LF, colon and backslash as their escapes, every other byte as itself
/// (STOMP 1.2, "Value Encoding"). Room for the longest result, two bytes for each of the text's, is taken at once. If it
/// is refused, that is the error.
pub fn escape(alloc: Global, text: &[u8]) -> Result<Vec<u8>, AllocError>
    ensures { IfOk result (λ written. written.items ≡ escaped text.now) }
{
    let mut written = Vec::with_capacity(alloc, text.len().saturating_mul(2))?;
    for b in text {
        push_escaped(&mut written, *b)?;
    }
    Ok(written)
}

/// Whether the written bytes mean a text: each backslash begins one of the four escapes. No memory is taken.
pub fn is_defined(bytes: &[u8]) -> bool
    ensures { result ≡ is_some (unescaped bytes.now) }
{
    let mut in_escape = false;
    for b in bytes {
        if in_escape {
            if meaning_of(*b).is_none() {
                return false;
            }
            in_escape = false;
        } else {
            in_escape = *b == b'\\';
        }
    }
    !in_escape
}

/// The text that written bytes mean: each escape is the byte that it stands for, and every other byte is itself. Room
/// for the longest result, one byte for each that is written, is taken at once.
///
/// It is `Undefined` just if a backslash begins none of the four escapes or ends the bytes. That is looked at before any
/// room is taken. So `Memory`, if the room was refused, is answered only for bytes with a meaning.
pub fn unescape(alloc: Global, bytes: &[u8]) -> Result<Vec<u8>, EscapeFault>
    ensures ok { IfOk result (λ text. unescaped bytes.now ≡ Some text.items) }
    ensures undefined { (result ≡ Err EscapeFault.Undefined) ↔ (unescaped bytes.now ≡ None) }
{
    if !is_defined(bytes) {
        return Err(EscapeFault::Undefined);
    }
    let mut text = Vec::with_capacity(alloc, bytes.len()).map_err(|_| EscapeFault::Memory)?;
    let mut in_escape = false;
    for b in bytes {
        let meant = if in_escape {
            meaning_of(*b).unwrap()
        } else if *b == b'\\' {
            in_escape = true;
            continue;
        } else {
            *b
        };
        text.push(meant).map_err(|_| EscapeFault::Memory)?;
        in_escape = false;
    }
    Ok(text)
}

/// What is escaped means the text again.
pub fn means_itself()
    ensures { (text : List ℕ) → unescaped (escaped text) ≡ Some text }
{}

/// Each text is written in a way of its own.
pub fn one_spelling()
    ensures { (text other : List ℕ) → escaped text ≡ escaped other → text ≡ other }
{}
