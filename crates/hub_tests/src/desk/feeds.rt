//! What a client sends: its request, and what follows that.

use std::alloc::AllocError;

// The masking key of the examples in RFC 6455, section 5.7.
const KEY: [u8; 4] = [0x37, 0xfa, 0x21, 0x3d];

/// What follows a request. A frame begins with a first byte and is masked.
#[derive(Clone, Copy)]
pub enum Feed<'a> {
    /// A frame with this payload.
    Frame(u8, &'a [u8]),
    /// So many of these.
    Frames(usize, u8, &'a [u8]),
    /// A frame with so many letters.
    Letters(u8, usize),
    /// A frame of that length ends behind its key.
    Head(u8, u64),
    /// These bytes as they are.
    Bytes(&'a [u8]),
    /// So many bytes.
    Flood(usize),
}

/// The letter at that place of a long payload.
pub fn letter(place: usize) -> u8 {
    b'a' + (place % 26) as u8
}

// The length of a payload as section 5.2 has it, with the bit that says that the payload is masked.
fn put_length(bytes: &mut Vec<u8>, length: u64) -> Result<(), AllocError> {
    if length < 126 {
        bytes.extend_from_slice(&[0x80 | length as u8])
    } else if length < 65_536 {
        let [high, low] = (length as u16).to_be_bytes();
        bytes.extend_from_slice(&[0xfe, high, low])
    } else {
        bytes.extend_from_slice(&[0xff])?;
        bytes.extend_from_slice(&length.to_be_bytes())
    }
}

// A frame's first byte, its length and its key.
fn put_head(bytes: &mut Vec<u8>, first: u8, length: u64) -> Result<(), AllocError> {
    bytes.extend_from_slice(&[first])?;
    put_length(bytes, length)?;
    bytes.extend_from_slice(&KEY)
}

// A masked frame (section 5.3).
fn put_frame(bytes: &mut Vec<u8>, first: u8, payload: &[u8]) -> Result<(), AllocError> {
    put_head(bytes, first, payload.len() as u64)?;
    for (i, byte) in payload.iter().enumerate() {
        bytes.extend_from_slice(&[*byte ^ KEY[i % 4]])?;
    }
    Ok(())
}

fn put_letters(bytes: &mut Vec<u8>, first: u8, length: usize) -> Result<(), AllocError> {
    put_head(bytes, first, length as u64)?;
    for i in 0..length {
        bytes.extend_from_slice(&[letter(i) ^ KEY[i % 4]])?;
    }
    Ok(())
}

fn put_frames(
    bytes: &mut Vec<u8>,
    count: usize,
    first: u8,
    payload: &[u8],
) -> Result<(), AllocError> {
    for _ in 0..count {
        put_frame(bytes, first, payload)?;
    }
    Ok(())
}

fn put_feed(bytes: &mut Vec<u8>, feed: Feed) -> Result<(), AllocError> {
    match feed {
        Feed::Frame(first, payload) => put_frame(bytes, first, payload),
        Feed::Frames(count, first, payload) => put_frames(bytes, count, first, payload),
        Feed::Letters(first, length) => put_letters(bytes, first, length),
        Feed::Head(first, length) => put_head(bytes, first, length),
        Feed::Bytes(all) => bytes.extend_from_slice(all),
        Feed::Flood(count) => bytes.resize(bytes.len().saturating_add(count), b'a'),
    }
}

/// All of these, one after another.
pub fn put_feeds(bytes: &mut Vec<u8>, feeds: &[Feed]) -> Result<(), AllocError> {
    for feed in feeds {
        put_feed(bytes, *feed)?;
    }
    Ok(())
}

/// A request in which the first of two texts is replaced by the other.
pub fn put_request(
    bytes: &mut Vec<u8>,
    request: &str,
    edit: (&str, &str),
) -> Result<(), AllocError> {
    let (old, new) = edit;
    match request.split_once(old) {
        Some((front, back)) => {
            bytes.extend_from_slice(front.as_bytes())?;
            bytes.extend_from_slice(new.as_bytes())?;
            bytes.extend_from_slice(back.as_bytes())
        }
        None => bytes.extend_from_slice(request.as_bytes()),
    }
}
