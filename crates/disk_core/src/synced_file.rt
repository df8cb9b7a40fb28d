//! An open file, with its folder and its path, as a sync asks them.
ghost use Rattle.std.specs.Prelude.{ℕ, List};
ghost use Rattle.disk_core.specs.Asking.{IsAsked};

use crate::DeviceCause;
use crate::loss::{Known, Node};
use crate::naming::Noted;

/// What an open file, its folder or its path did or answered.
#[derive(Clone, Copy)]
pub enum FileEvent {
    /// Some bytes of the header were written back as they were.
    WroteBack,
    /// All that was written before was made stable.
    Synced,
    /// The file has this many bytes.
    SizeIs(u64),
    /// The folder was last changed then. There is no time if no folder is watched.
    FolderIs(Option<Noted>),
    /// The path names this file, or nothing.
    PathIs(Option<Node>),
    /// The file was last written then.
    WrittenAt(Noted),
}

/// An open file, with its folder and its path, as a sync asks them. Only an honest one promises anything.
pub trait SyncedFile {
    ghost use Rattle.disk_core.specs.declared.synced_file.FileEvent.{FileEvent};

    /// What was done and answered so far, in order. A call that fails adds nothing.
    ghost events: { Self → List FileEvent };

    /// How many calls have failed, up to the end of a `u64`.
    ghost failures: { Self → ℕ };

    /// The file keeps to what is said of its calls.
    ghost honest: { Self → Type 0 };

    /// Writes some bytes of the header back as they are, after a look whether they are as they were.
    fn write_back(&mut self, known: &Known) -> Result<(), DeviceCause>
        ensures { honest self.old → IsAsked events failures honest self.old self.new result (λ _. FileEvent.WroteBack) };

    /// Makes all that was written stable.
    fn make_stable(&mut self) -> Result<(), DeviceCause>
        ensures { honest self.old → IsAsked events failures honest self.old self.new result (λ _. FileEvent.Synced) };

    /// The number of bytes.
    fn measure(&mut self) -> Result<u64, DeviceCause>
        ensures { honest self.old → IsAsked events failures honest self.old self.new result (λ size. FileEvent.SizeIs size) };

    /// When the folder was last changed, if it is watched.
    fn folder_changed(&mut self) -> Result<Option<Noted>, DeviceCause>
        ensures { honest self.old → IsAsked events failures honest self.old self.new result (λ changed. FileEvent.FolderIs changed) };

    /// The file that the path names, this one if it is that of the node.
    fn named(&mut self, node: Node) -> Result<Option<Node>, DeviceCause>
        ensures { honest self.old → IsAsked events failures honest self.old self.new result (λ named. FileEvent.PathIs named) };

    /// When the file was last written.
    fn written_at(&mut self) -> Result<Noted, DeviceCause>
        ensures { honest self.old → IsAsked events failures honest self.old self.new result (λ written. FileEvent.WrittenAt written) };
}
