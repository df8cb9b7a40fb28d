//! Bytes that are handed out piece by piece.

ghost use Rattle.std.specs.Prelude.{◌≡◌, ◌-◌, ◌^◌, ℕ, List, drop, take, length, min, IfOk, OnOk, OnErr};

use std::alloc::{AllocError, Global};
use std::marker::Model;

/// Bytes that are handed out piece by piece, from the first to the last.
pub trait Pieces {
    /// The bytes still to come.
    ghost coming: { Self → List ℕ };

    /// How many bytes are still to come, or 2^64 - 1 if there are more.
    fn len(&self) -> u64
        ensures { result ≡ min (length (coming self.now)) (2 ^ 64 - 1) };

    /// The next bytes: `count` of them, or all if there are fewer. If memory is refused, none is gone.
    fn next(&mut self, count: usize) -> Result<Vec<u8>, AllocError>
        ensures piece { IfOk result (λ piece. piece.items ≡ take count (coming self.old)) }
        ensures rest { OnOk result (coming self.new ≡ drop count (coming self.old)) }
        ensures same { OnErr result (coming self.new ≡ coming self.old) };
}

/// Bytes that are all in memory.
#[derive(Drop)]
pub struct LentBytes<'a> {
    alloc: Global,
    rest: &'a [u8],
}

impl<'a> Model for LentBytes<'a> {
    ghost use Rattle.std.specs.Prelude.{ℕ, List};

    ghost Value = { List ℕ };

    ghost view = { λ lent. lent.rest.now };
}

impl<'a> LentBytes<'a> {
    /// These bytes, whose pieces take their memory from `alloc`.
    pub fn new(alloc: Global, bytes: &'a [u8]) -> LentBytes<'a>
        ensures { result ≡ bytes.now }
    {
        LentBytes { alloc, rest: bytes }
    }
}

impl<'a> Pieces for LentBytes<'a> {
    ghost coming = { λ lent. lent };

    fn len(&self) -> u64 {
        self.rest.len() as u64
    }

    fn next(&mut self, count: usize) -> Result<Vec<u8>, AllocError> {
        let count = count.min(self.rest.len());
        let (front, back) = self.rest.split_at(count);
        let piece = Vec::from_slice(self.alloc, front)?;
        self.rest = back;
        Ok(piece)
    }
}
