//! How many descriptors the system allows.

ghost use Rattle.std.specs.Prelude.{◌≡◌};
ghost use Rattle.server_core.specs.Descriptors.{clients_within};

use std::alloc::Global;
use std::fs::{File, Files};
use std::io;

/// How many descriptors a server has besides those of its clients: two for each of its workers, its file, its port, the standard
/// streams, and those of its guests.
const OWN: u64 = 160;

/// How many descriptors a process may have; `None` if the system does not list that.
pub(crate) fn descriptors_allowed<R: Files<File = File>>(alloc: Global, rt: &R) -> Option<u64> {
    let file = File::open(rt, "/proc/self/limits").ok()?;
    let text = io::read_to_string(alloc, file).ok()?;
    let limit = soft_limit(text.as_str());
    drop(text);
    limit
}

/// How many clients a server takes that is to take `most` at most, and may have `limit` descriptors.
pub(crate) fn clients_within(limit: Option<u64>, most: u64) -> u64
    ensures { result ≡ clients_within limit most }
{
    match limit {
        Some(limit) => most.min(limit.saturating_sub(OWN).max(1)),
        None => most,
    }
}

// The limit that holds now: the first number of the line `Max open files`.
fn soft_limit(limits: &str) -> Option<u64> {
    for line in limits.lines() {
        if let Some(rest) = line.strip_prefix("Max open files") {
            return rest.split_whitespace().next()?.parse::<u64>().ok();
        }
    }
    None
}
