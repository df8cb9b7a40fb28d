//! A snapshot between an area's first word and a closed gate, piece by piece.

ghost use Rattle.std.specs.Prelude.{◌≡◌, ◌<◌, ◌^◌, ◌-◌, ◌++◌, ◌∷◌, [], IfOk, OnOk, cond, drop, length, take};
ghost use Rattle.area_core.specs.Closing.{closing, heading};

use crate::Version;
use crate::pieces::Pieces;
use crate::put::word_of;
use std::alloc::{AllocError, Global};

// How many bytes are written in one call.
const PIECE: usize = 65_536;

// The second version, and how many bytes follow, while none is written yet.
fn heading(alloc: Global, at: u64, total: u64) -> Result<Vec<u8>, AllocError>
    requires { total < 2 ^ 56 }
    ensures { IfOk result (λ v. v.items ≡ heading at total) }
{
    if at == 0 {
        return Vec::from_slice(alloc, &word_of(Version::Two, total).to_be_bytes());
    }
    Ok(Vec::new(alloc))
}

// Adds a closed gate after the last of the bytes.
fn close(out: &mut Vec<u8>, is_last: bool) -> Result<(), AllocError>
    ensures { OnOk result (out.new.items ≡ out.old.items ++ cond is_last (0 ∷ []) []) }
{
    if is_last {
        out.push(0)?;
    }
    Ok(())
}

// The next piece, once `at` bytes are written.
pub(crate) fn next_closed<P: Pieces>(
    alloc: Global,
    pieces: &mut P,
    at: u64,
    total: u64,
) -> Result<Vec<u8>, AllocError>
    requires { total < 2 ^ 56 }
    ensures piece { IfOk result (λ v. v.items ≡ take 65536 (closing at total (P.coming pieces.old))) }
    ensures rest { OnOk result (P.coming pieces.new ≡ drop (65536 - length (heading at total)) (P.coming pieces.old)) }
{
    let mut out = heading(alloc, at, total)?;
    let room = PIECE - out.len();
    let next = pieces.next(room)?;
    out.extend_from_slice(&next)?;
    close(&mut out, next.len() < room)?;
    Ok(out)
}
