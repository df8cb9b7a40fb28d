//! Why a step of a journal is refused.

ghost use Rattle.std.specs.Prelude.{◌≡◌};

use disk_core::DeviceFault;
use std::alloc::AllocError;
use std::{error, fmt};

/// Why an area took nothing.
#[derive(Debug, Drop)]
pub enum AreaFault {
    /// The disk failed.
    Device,
    /// The block or snapshot doesn't fit into the area with the gate after it.
    Full,
    /// A step failed before.
    Broken,
    /// Memory was refused.
    Memory(AllocError),
}

/// The text for the user.
impl fmt::Display for AreaFault {
    ghost use Rattle.std.specs.Prelude.{Some};
    ghost use Rattle.area_core.specs.Texts.{area_text};

    ghost output = { λ fault. Some (area_text fault) };

    fn fmt<W: fmt::Write>(&self, f: &mut fmt::Formatter<W>) -> fmt::Result {
        match self {
            AreaFault::Device => f.write_str("J3 device failed"),
            AreaFault::Full => f.write_str("J4 journal full"),
            AreaFault::Broken => f.write_str("J6 store broken"),
            AreaFault::Memory(_) => f.write_str("no memory"),
        }
    }
}

impl error::Error for AreaFault {}

impl From<AllocError> for AreaFault {
    ghost use Rattle.std.specs.Prelude.{◌≡◌};
    ghost use Rattle.area_core.specs.declared.faults.AreaFault.TheVariants.{Memory};

    ghost from_gives = { λ refused fault. fault ≡ Memory refused };

    fn from(refused: AllocError) -> AreaFault {
        AreaFault::Memory(refused)
    }
}

impl From<DeviceFault> for AreaFault {
    ghost use Rattle.std.specs.Prelude.{◌≡◌};
    ghost use Rattle.area_core.specs.declared.faults.AreaFault.TheVariants.{Device};

    ghost from_gives = { λ refused fault. fault ≡ Device };

    fn from(_refused: DeviceFault) -> AreaFault {
        AreaFault::Device
    }
}

/// Why a disk was not read as a journal.
#[derive(Debug, Drop)]
pub enum ReadFault {
    /// The disk has fewer than 32 bytes, or another name.
    NotAJournal,
    /// What stands at that place of the disk is no known version, no length that fits, no state's snapshot, or no record.
    Damaged(u64),
    /// The disk failed.
    Device,
    /// The disk has the name, but with another version of the format.
    UnknownVersion,
    /// The header gives areas of fewer than 4,096 bytes, or of more than the disk has.
    TooSmall,
    /// Memory was refused.
    Memory(AllocError),
}

/// The text for the user.
impl fmt::Display for ReadFault {
    ghost use Rattle.std.specs.Prelude.{Some};
    ghost use Rattle.area_core.specs.Texts.{read_text};

    ghost output = { λ fault. Some (read_text fault) };

    fn fmt<W: fmt::Write>(&self, f: &mut fmt::Formatter<W>) -> fmt::Result {
        match self {
            ReadFault::NotAJournal => f.write_str("J1 not a journal"),
            ReadFault::Damaged(place) => write!(f, "J2 damaged at {place}"),
            ReadFault::Device => f.write_str("J3 device failed"),
            ReadFault::UnknownVersion => f.write_str("J7 unknown version"),
            ReadFault::TooSmall => f.write_str("J8 disk too small"),
            ReadFault::Memory(_) => f.write_str("no memory"),
        }
    }
}

impl error::Error for ReadFault {}

impl From<AllocError> for ReadFault {
    ghost use Rattle.std.specs.Prelude.{◌≡◌};
    ghost use Rattle.area_core.specs.declared.faults.ReadFault.TheVariants.{Memory};

    ghost from_gives = { λ refused fault. fault ≡ Memory refused };

    fn from(refused: AllocError) -> ReadFault {
        ReadFault::Memory(refused)
    }
}

impl From<DeviceFault> for ReadFault {
    ghost use Rattle.std.specs.Prelude.{◌≡◌};
    ghost use Rattle.area_core.specs.declared.faults.ReadFault.TheVariants.{Device};

    ghost from_gives = { λ refused fault. fault ≡ Device };

    fn from(_refused: DeviceFault) -> ReadFault {
        ReadFault::Device
    }
}

/// Why a disk was not formatted.
#[derive(Debug, Drop)]
pub enum FormatFault {
    /// The areas would have fewer than 4,096 bytes each, or more than the disk has.
    TooSmall,
    /// The disk failed.
    Device,
    /// Memory was refused.
    Memory(AllocError),
}

/// The text for the user.
impl fmt::Display for FormatFault {
    ghost use Rattle.std.specs.Prelude.{Some};
    ghost use Rattle.area_core.specs.Texts.{format_text};

    ghost output = { λ fault. Some (format_text fault) };

    fn fmt<W: fmt::Write>(&self, f: &mut fmt::Formatter<W>) -> fmt::Result {
        match self {
            FormatFault::TooSmall => f.write_str("J8 disk too small"),
            FormatFault::Device => f.write_str("J3 device failed"),
            FormatFault::Memory(_) => f.write_str("no memory"),
        }
    }
}

impl error::Error for FormatFault {}

impl From<AllocError> for FormatFault {
    ghost use Rattle.std.specs.Prelude.{◌≡◌};
    ghost use Rattle.area_core.specs.declared.faults.FormatFault.TheVariants.{Memory};

    ghost from_gives = { λ refused fault. fault ≡ Memory refused };

    fn from(refused: AllocError) -> FormatFault {
        FormatFault::Memory(refused)
    }
}

impl From<DeviceFault> for FormatFault {
    ghost use Rattle.std.specs.Prelude.{◌≡◌};
    ghost use Rattle.area_core.specs.declared.faults.FormatFault.TheVariants.{Device};

    ghost from_gives = { λ refused fault. fault ≡ Device };

    fn from(_refused: DeviceFault) -> FormatFault {
        FormatFault::Device
    }
}
