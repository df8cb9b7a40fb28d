//! Messages: what clients say, and what they are to hear (docs/PROTOCOL.md).

use std::alloc::{AllocError, Global};

/// A message.
#[derive(Clone, Copy)]
pub enum Say<'a> {
    /// These bytes.
    Text(&'a [u8]),
    /// What is heard begins so: a CONNECTED, whose session's number is another each time.
    Front(&'a [u8]),
    /// A number of three digits stands between the two.
    Numbered(&'a [u8], u32, &'a [u8]),
    /// So many letters stand between the two.
    Filled(&'a [u8], usize, &'a [u8]),
}

fn digits(number: u32) -> [u8; 3] {
    [digit(number / 100), digit(number / 10), digit(number)]
}

fn digit(number: u32) -> u8 {
    b'0' + (number % 10) as u8
}

fn put(message: &mut Vec<u8>, say: Say) -> Result<(), AllocError> {
    let back = match say {
        Say::Text(bytes) | Say::Front(bytes) => bytes,
        Say::Numbered(front, number, back) => {
            message.extend_from_slice(front)?;
            message.extend_from_slice(&digits(number))?;
            back
        }
        Say::Filled(front, count, back) => {
            message.extend_from_slice(front)?;
            message.resize(front.len().saturating_add(count), b'x')?;
            back
        }
    };
    message.extend_from_slice(back)
}

/// Its bytes.
pub fn bytes_of(alloc: Global, say: Say) -> Result<Vec<u8>, AllocError> {
    let mut message = Vec::new(alloc);
    match put(&mut message, say) {
        Ok(()) => Ok(message),
        Err(refused) => Err(refused),
    }
}

/// Whether it is that message.
pub fn is_said(message: &[u8], say: Say) -> bool {
    match say {
        Say::Text(bytes) => message == bytes,
        Say::Front(front) => message.starts_with(front),
        Say::Numbered(front, number, back) => { is_in_three(message, front, &digits(number), back) }
        // Only clients say these.
        Say::Filled(_, _, _) => false,
    }
}

fn is_in_three(message: &[u8], front: &[u8], middle: &[u8], back: &[u8]) -> bool {
    match message.strip_prefix(front) {
        Some(rest) => rest.strip_prefix(middle) == Some(back),
        None => false,
    }
}
