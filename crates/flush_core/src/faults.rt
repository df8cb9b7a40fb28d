//! Why a step of the flusher failed.

ghost use Rattle.std.specs.Prelude.{◌≡◌};

use area_core::AreaFault;
use broker_core::BrokerFault;
use std::alloc::AllocError;
use std::{error, fmt};

/// Why a step of the flusher failed. After each of these the flusher is broken and its ring is stopped.
#[derive(Debug, Drop)]
pub enum FlushFault {
    /// The disk failed.
    Device,
    /// No snapshot of the state fits into an area, or the block of the next command doesn't after one.
    Full,
    /// A step failed before.
    Broken,
    /// Memory was refused.
    Memory(AllocError),
}

/// The text for the user.
impl fmt::Display for FlushFault {
    ghost use Rattle.std.specs.Prelude.{Some};
    ghost use Rattle.flush_core.specs.Faults.{flush_text};

    ghost output = { λ fault. Some (flush_text fault) };

    fn fmt<W: fmt::Write>(&self, f: &mut fmt::Formatter<W>) -> fmt::Result {
        match self {
            FlushFault::Device => f.write_str("J3 device failed"),
            FlushFault::Full => f.write_str("J4 journal full"),
            FlushFault::Broken => f.write_str("J6 store broken"),
            FlushFault::Memory(_) => f.write_str("no memory"),
        }
    }
}

impl error::Error for FlushFault {}

impl From<AllocError> for FlushFault {
    ghost use Rattle.std.specs.Prelude.{◌≡◌};
    ghost use Rattle.flush_core.specs.declared.faults.FlushFault.TheVariants.{Memory};

    ghost from_gives = { λ refused fault. fault ≡ Memory refused };

    fn from(refused: AllocError) -> FlushFault {
        FlushFault::Memory(refused)
    }
}

impl From<AreaFault> for FlushFault {
    ghost use Rattle.std.specs.Prelude.{◌≡◌};
    ghost use Rattle.flush_core.specs.Faults.{of_area};

    ghost from_gives = { λ refused fault. fault ≡ of_area refused };

    fn from(refused: AreaFault) -> FlushFault {
        match refused {
            AreaFault::Device => FlushFault::Device,
            AreaFault::Full => FlushFault::Full,
            AreaFault::Broken => FlushFault::Broken,
            AreaFault::Memory(refused) => FlushFault::Memory(refused),
        }
    }
}

impl From<BrokerFault> for FlushFault {
    ghost use Rattle.std.specs.Prelude.{◌≡◌};
    ghost use Rattle.flush_core.specs.Faults.{of_broker};

    ghost from_gives = { λ refused fault. fault ≡ of_broker refused };

    fn from(refused: BrokerFault) -> FlushFault {
        match refused {
            BrokerFault::Memory(refused) => FlushFault::Memory(refused),
            BrokerFault::Broken => FlushFault::Broken,
        }
    }
}
