//! Ranges of a disk, and the passes over the bytes in them.
ghost use Rattle.std.specs.Prelude.{◌≡◌, ◌+◌, ◌≤◌, [], ◌∷◌, ◌++◌, length, OnOk, OnErr, vec_capacity, ◌↔◌, IsTrue};
ghost use Rattle.disk_core.specs.Spans.{IsCover, whole};
ghost use Rattle.disk_core.specs.Images.{patched, IsImage};
ghost use Rattle.disk_core.specs.Memory.{none_held, byte_after, crashed, noted, held_over};

use std::alloc::AllocError;

/// A range of bytes of a disk.
#[derive(Clone, Copy)]
pub struct Span {
    pub at: usize,
    pub len: usize,
}

// Holds what each of these bytes is, if nothing is held of it yet.
pub(crate) fn note(held: &mut [Option<u8>], bytes: &[u8])
    requires { length held.old ≡ length bytes.now }
    ensures { held.new ≡ noted held.old bytes.now }
{
    for (i, byte) in bytes.iter().enumerate() {
        held[i] = Some(held[i].unwrap_or(*byte));
    }
}

// A byte after a crash, from what was held of it.
fn after_crash(old: Option<u8>, byte: u8, fill: Option<u8>) -> u8
    ensures { result ≡ byte_after fill old byte }
{
    match old {
        Some(old) => fill.unwrap_or(old),
        None => byte,
    }
}

// Puts back each byte that is held, or fills it.
pub(crate) fn put_back(bytes: &mut [u8], held: &[Option<u8>], fill: Option<u8>)
    requires { length held.now ≡ length bytes.old }
    ensures { bytes.new ≡ crashed fill held.now bytes.old }
{
    for (i, old) in held.iter().enumerate() {
        bytes[i] = after_crash(*old, bytes[i], fill);
    }
}

/// Writes over a range of a disk's bytes, and holds what each was, if nothing is held of it yet.
pub fn overwrite(bytes: &mut [u8], held: &mut [Option<u8>], at: usize, new: &[u8])
    requires sizes { length held.old ≡ length bytes.old }
    requires within { at + length new.now ≤ length bytes.old }
    ensures bytes { bytes.new ≡ patched at new.now bytes.old }
    ensures held { held.new ≡ held_over at (length new.now) held.old bytes.old }
{
    let end = at + new.len();
    note(&mut held[at..end], &bytes[at..end]);
    bytes[at..end].copy_from_slice(new);
}

/// Lets go of all that is held: what is written is stable.
pub fn release(held: &mut [Option<u8>])
    ensures { held.new ≡ none_held (length held.old) }
{
    held.fill(None);
}

// Lets go of all that is held.
pub(crate) fn release_all(spans: &[Span], held: &mut [Option<u8>])
    requires { IsCover spans.now held.old }
    ensures { held.new ≡ none_held (length held.old) }
{
    for span in spans {
        release(&mut held[span.at..span.at + span.len]);
    }
}

// Puts back all that is held, or fills it, and lets it go.
pub(crate) fn put_all_back(
    spans: &[Span],
    bytes: &mut [u8],
    held: &mut [Option<u8>],
    fill: Option<u8>,
)
    requires sizes { length held.old ≡ length bytes.old }
    requires cover { IsCover spans.now held.old }
    ensures bytes { bytes.new ≡ crashed fill held.old bytes.old }
    ensures held { held.new ≡ none_held (length held.old) }
{
    for span in spans {
        let end = span.at + span.len;
        put_back(&mut bytes[span.at..end], &held[span.at..end], fill);
        release(&mut held[span.at..end]);
    }
}

/// Whether a stop may leave these bytes of a disk: as many as the disk has, and the same wherever nothing is held.
pub fn is_image(bytes: &[u8], held: &[Option<u8>], image: &[u8]) -> bool
    requires { length held.now ≡ length bytes.now }
    ensures { IsTrue result ↔ IsImage bytes.now held.now image.now }
{
    if image.len() != bytes.len() {
        return false;
    }
    for (at, old) in held.iter().enumerate() {
        if old.is_none() && image[at] != bytes[at] {
            return false;
        }
    }
    true
}

// Adds a range, or takes the whole disk if memory is refused.
pub(crate) fn add(spans: &mut Vec<Span>, span: Span, size: usize) -> Result<(), AllocError>
    requires { 1 ≤ vec_capacity spans.old }
    ensures room { 1 ≤ vec_capacity spans.new }
    ensures ok { OnOk result (spans.new.items ≡ spans.old.items ++ span ∷ []) }
    ensures err { OnErr result (spans.new.items ≡ whole size ∷ []) }
{
    if spans.push(span).is_err() {
        spans.clear();
        let _ = spans.push(Span { at: 0, len: size });
        return Err(AllocError);
    }
    Ok(())
}
