//! What the path of an open file names, at the cost of a look at the folder.
//!
//! A look at the file itself makes the next sync dear: since Linux 6.13 a file whose times were read gets new ones with its next write,
//! and the sync writes them too.
ghost use Rattle.std.specs.Prelude.{◌≡◌, ◌-◌, ◌↔◌, IsTrue, MatchBool};
ghost use Rattle.disk_core.specs.Naming.{Holds, IsBefore, IsCounted, IsOf, StandsFor, folder_of, says_missing};

use crate::loss::Node;
use std::alloc::{AllocError, Global};
use std::fs::{File, Metadata, metadata, symlink_metadata};
use std::io;
use std::io::ErrorKind;
use std::os::unix::fs::MetadataExt;
use std::path::Path;
use std::rt::Files;

/// A time that a file system has noted, in seconds and nanoseconds.
#[derive(Clone, Copy, Drop)]
pub struct Noted {
    seconds: i64,
    nanoseconds: i64,
}

impl Noted {
    /// That many seconds and nanoseconds.
    pub fn new(seconds: i64, nanoseconds: i64) -> Noted
        ensures { (result.seconds ≡ seconds) × (result.nanoseconds ≡ nanoseconds) }
    {
        Noted {
            seconds,
            nanoseconds,
        }
    }

    // When the content of a file or folder was last changed.
    pub(crate) fn of(there: &Metadata) -> Noted {
        Noted::new(there.mtime(), there.mtime_nsec())
    }

    fn is_same(self, other: Noted) -> bool
        ensures { IsTrue result ↔ self ≡ other }
    {
        self.seconds == other.seconds && self.nanoseconds == other.nanoseconds
    }

    fn is_before(self, other: Noted) -> bool
        ensures { IsTrue result ↔ IsBefore self other }
    {
        self.seconds < other.seconds
            || self.seconds == other.seconds && self.nanoseconds < other.nanoseconds
    }
}

// The last look at a path, as far as it still shows that the path names the file.
#[derive(Drop)]
pub struct Look {
    // The folder's last change, if the path was seen to name the file after it.
    seen: Option<Noted>,
    // How many more calls it may stand for.
    left: u8,
}

// How many calls in turn do without a look at the path.
const MOST: u8 = 63;

impl Look {
    // Whether it stands for one more call, in which the folder had last changed at that time.
    fn holds(&mut self, changed: Noted) -> bool
        ensures holds { IsTrue result ↔ Holds self.old changed }
        ensures left { MatchBool result (self.new.left ≡ self.old.left - 1) (self.new.left ≡ self.old.left) }
        ensures seen { self.new.seen ≡ self.old.seen }
    {
        let holds = self.left > 0 && self.seen.is_some_and(|seen| seen.is_same(changed));
        if holds {
            self.left -= 1;
        }
        holds
    }

    // A look after the folder had last changed, at a path that names the file or doesn't. The file was written at that time. A change in the
    // moment of the writing may be followed by another with the same time.
    pub(crate) fn of(changed: Noted, written: Noted, is_named: bool) -> Look
        ensures { IsOf changed written is_named result }
    {
        let seen = if is_named && changed.is_before(written) {
            Some(changed)
        } else {
            None
        };
        Look { seen, left: MOST }
    }
}

// Whether the last look, if there was one, stands for one more call, in which the folder had last changed at that time.
pub(crate) fn stands(last: &mut Option<Look>, changed: Noted) -> bool
    ensures stands { IsTrue result ↔ StandsFor last.old changed }
    ensures counted { IsCounted result last.old last.new }
{
    match last {
        Some(look) => look.holds(changed),
        None => false,
    }
}

/// A path, and the system that names a file by it.
#[derive(Drop)]
pub(crate) struct Place {
    host: HostRuntime,
    path: String,
}

impl Place {
    pub(crate) fn of(alloc: Global, host: HostRuntime, path: &str) -> Result<Place, AllocError> {
        let path = String::from_str(alloc, path)?;
        Ok(Place { host, path })
    }

    // The file that the path names, after all links, or `None` if it names nothing.
    fn named(&self) -> io::Result<Option<Node>> {
        match metadata(&self.host, self.path.as_str()) {
            Ok(there) => Ok(Some(Node::of(&there))),
            Err(error) if is_missing(error.kind()) => Ok(None),
            Err(error) => Err(error),
        }
    }
}

// Whether an error of that kind says that a path names nothing: its last part is missing, or one before it is missing or no folder.
fn is_missing(kind: ErrorKind) -> bool
    ensures { result ≡ says_missing kind }
{
    matches!(kind, ErrorKind::NotFound | ErrorKind::NotADirectory)
}

/// What tells which file a path names. Whoever removes or renames a file, or renames another over it, changes its folder. So the path is
/// looked at only after such a change, and at each 64th call, since a file may be mounted there, or a folder above be renamed.
#[derive(Drop)]
pub(crate) struct Naming {
    // The path; without one, a file is named for as long as it has a name at all.
    place: Option<Place>,
    // The folder, unless it can't be read, or the file is elsewhere and a link leads there.
    folder: Option<File>,
}

impl Naming {
    /// Each call looks at the file, under whichever names it has.
    pub(crate) fn by_links() -> Naming {
        Naming {
            place: None,
            folder: None,
        }
    }

    /// The naming of the file at a path.
    pub(crate) fn at(place: Place) -> Naming {
        let folder = match own_folder(&place.host, place.path.as_str()) {
            Ok(folder) => folder,
            Err(_refused) => None,
        };
        Naming {
            place: Some(place),
            folder,
        }
    }

    /// When the folder was last changed, if it is watched.
    pub(crate) fn folder_changed(&self) -> io::Result<Option<Noted>> {
        match &self.folder {
            Some(folder) => Ok(Some(Noted::of(&folder.metadata()?))),
            None => Ok(None),
        }
    }

    /// The file that the path names now.
    pub(crate) fn look(&self, file: &File, node: Node) -> io::Result<Option<Node>> {
        match &self.place {
            Some(place) => place.named(),
            None if file.metadata()?.nlink() > 0 => Ok(Some(node)),
            None => Ok(None),
        }
    }
}

/// The folder that has the name, which is the current one for a bare name.
pub fn folder_of(path: &str) -> &str
    ensures { result.now ≡ folder_of path.now }
{
    match Path::new(path).parent() {
        Some(folder) if !folder.as_str().is_empty() => folder.as_str(),
        _ => ".",
    }
}

// The folder of a file, unless a link leads to the file, which then has its name elsewhere.
fn own_folder<R: Files<File = File>>(rt: &R, path: &str) -> io::Result<Option<File>> {
    if !symlink_metadata(rt, path)?.is_file() {
        return Ok(None);
    }
    Ok(Some(File::open(rt, folder_of(path))?))
}
