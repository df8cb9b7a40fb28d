//! Why a journal was not opened.

ghost use Rattle.std.specs.Prelude.{◌≡◌};

use area_core::{AreaFault, ReadFault};
use disk_core::DeviceFault;
use std::alloc::AllocError;
use std::{error, fmt};

/// Why a journal was not opened.
#[derive(Debug, Drop)]
pub enum OpenFault {
    /// It could not be read.
    Read(ReadFault),
    /// The disk stands for a state after more than 2^61 commands.
    CountTooLarge,
    /// Something other than reading went wrong: the disk failed, memory was refused, or the snapshot of the state after the restart does
    /// not fit.
    Area(AreaFault),
}

/// The text for the user.
impl fmt::Display for OpenFault {
    ghost use Rattle.std.specs.Prelude.{Some};
    ghost use Rattle.recover_core.specs.Texts.{open_text};

    ghost output = { λ fault. Some (open_text fault) };

    fn fmt<W: fmt::Write>(&self, f: &mut fmt::Formatter<W>) -> fmt::Result {
        match self {
            OpenFault::Read(fault) => write!(f, "{fault}"),
            OpenFault::CountTooLarge => f.write_str("J5 count too large"),
            OpenFault::Area(fault) => write!(f, "{fault}"),
        }
    }
}

impl error::Error for OpenFault {}

impl From<ReadFault> for OpenFault {
    ghost use Rattle.std.specs.Prelude.{◌≡◌};
    ghost use Rattle.recover_core.specs.declared.faults.OpenFault.TheVariants.{Read};

    ghost from_gives = { λ refused fault. fault ≡ Read refused };

    fn from(refused: ReadFault) -> OpenFault {
        OpenFault::Read(refused)
    }
}

impl From<AreaFault> for OpenFault {
    ghost use Rattle.std.specs.Prelude.{◌≡◌};
    ghost use Rattle.recover_core.specs.declared.faults.OpenFault.TheVariants.{Area};

    ghost from_gives = { λ refused fault. fault ≡ Area refused };

    fn from(refused: AreaFault) -> OpenFault {
        OpenFault::Area(refused)
    }
}

impl From<DeviceFault> for OpenFault {
    ghost use Rattle.std.specs.Prelude.{◌≡◌};
    ghost use Rattle.area_core.specs.declared.faults.AreaFault.TheVariants.{Device};
    ghost use Rattle.recover_core.specs.declared.faults.OpenFault.TheVariants.{Area};

    ghost from_gives = { λ refused fault. fault ≡ Area Device };

    fn from(_refused: DeviceFault) -> OpenFault {
        OpenFault::Area(AreaFault::Device)
    }
}

impl From<AllocError> for OpenFault {
    ghost use Rattle.std.specs.Prelude.{◌≡◌};
    ghost use Rattle.area_core.specs.declared.faults.AreaFault.TheVariants.{Memory};
    ghost use Rattle.recover_core.specs.declared.faults.OpenFault.TheVariants.{Area};

    ghost from_gives = { λ refused fault. fault ≡ Area (Memory refused) };

    fn from(refused: AllocError) -> OpenFault {
        OpenFault::Area(AreaFault::Memory(refused))
    }
}
