//! Bytes as the text of a script, and back.

ghost use Rattle.std.specs.Prelude.{◌≡◌, ◌++◌, IfOk, OnOk, OnErr, string_bytes};
ghost use Rattle.percent_encoding.specs.Iter.{encoded_text};
ghost use Rattle.script_text.specs.PercentTexts.{encoded, decoded};

use percent_encoding::{
    AsciiSet, CONTROLS, PercentEncode, ascii_set, percent_decode, percent_encode,
};
use std::alloc::{AllocError, Global};

// what is written as `%XX`: controls, `%`, and all that is not ASCII
const ESCAPED: AsciiSet = ascii_set!(CONTROLS.add(b'%'));

/// Bytes as text, to be displayed: those under 0x20, 0x7F, `%` and those from 0x80 on as `%XX`, the others as they are. No memory is taken.
pub fn encoded(bytes: &[u8]) -> PercentEncode<'_>
    ensures { encoded_text result ≡ encoded bytes.now }
{
    percent_encode(bytes, ESCAPED)
}

/// Adds bytes as text: those under 0x20, 0x7F, `%` and those from 0x80 on as `%XX`, the others as they are.
pub fn encode_text(text: &mut String, bytes: &[u8]) -> Result<(), AllocError>
    ensures ok { OnOk result (string_bytes text.new ≡ string_bytes text.old ++ encoded bytes.now) }
    ensures err { OnErr result (string_bytes text.new ≡ string_bytes text.old) }
{
    encoded(bytes).append_to(text)
}

/// The bytes that a text stands for: `%XX` is the byte of that number, all else is itself.
pub fn decode_text(alloc: Global, text: &[u8]) -> Result<Vec<u8>, AllocError>
    ensures { IfOk result (λ bytes. bytes.items ≡ decoded text.now) }
{
    let mut bytes = Vec::new(alloc);
    percent_decode(text).append_to(&mut bytes)?;
    Ok(bytes)
}
