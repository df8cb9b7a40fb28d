//! Why a script does not run to its end.

use broker_core::BrokerFault;
use flush_core::FlushFault;
use recover_core::OpenFault;
use session_core::SessionFault;
use std::alloc::{AllocError, AllocFailed};
use std::{error, fmt};

/// Why a line of a script isn't carried out.
#[derive(Drop)]
pub enum QueueFault {
    /// Memory was refused.
    Memory(AllocError),
    /// As many commands have been carried out as may be: 2^60.
    CountTooLarge,
    /// The disk was not opened.
    Opening(OpenFault),
    /// Commands were not stored and carried out, or the journal failed before.
    Storing(FlushFault),
}

impl From<AllocError> for QueueFault {
    ghost use Rattle.std.specs.Prelude.{◌≡◌};
    ghost use Rattle.engine_core.specs.declared.fault.QueueFault.TheVariants as faults;

    ghost from_gives = { λ refused r. r ≡ faults.Memory refused };

    fn from(refused: AllocError) -> QueueFault {
        QueueFault::Memory(refused)
    }
}

impl<Lost: Drop> From<AllocFailed<Lost>> for QueueFault {
    ghost use Rattle.engine_core.specs.OfQueue.{IsMemory};

    ghost from_gives = { λ _ r. IsMemory r };

    fn from(failed: AllocFailed<Lost>) -> QueueFault {
        QueueFault::Memory(AllocError::from(failed))
    }
}

impl From<OpenFault> for QueueFault {
    ghost use Rattle.std.specs.Prelude.{◌≡◌};
    ghost use Rattle.engine_core.specs.declared.fault.QueueFault.TheVariants as faults;

    ghost from_gives = { λ fault r. r ≡ faults.Opening fault };

    fn from(fault: OpenFault) -> QueueFault {
        QueueFault::Opening(fault)
    }
}

impl From<FlushFault> for QueueFault {
    ghost use Rattle.std.specs.Prelude.{◌≡◌};
    ghost use Rattle.engine_core.specs.declared.fault.QueueFault.TheVariants as faults;

    ghost from_gives = { λ fault r. r ≡ faults.Storing fault };

    fn from(fault: FlushFault) -> QueueFault {
        QueueFault::Storing(fault)
    }
}

impl From<SessionFault> for QueueFault {
    ghost use Rattle.engine_core.specs.OfQueue.{IsMemory};

    ghost from_gives = { λ _ r. IsMemory r };

    fn from(_: SessionFault) -> QueueFault {
        QueueFault::Memory(AllocError)
    }
}

/// Why a script does not run to its end. What it printed before stays.
#[derive(Debug, Drop)]
pub enum ScriptFault {
    /// Memory was refused.
    Memory(AllocError),
    /// The line of that number, counted from 1, is not understood there, or is longer than 1,048,576 bytes, or
    /// is the last one and has no LF.
    NotUnderstood { line: u64 },
    /// A command comes once as many have been carried out as may be: 2^60.
    CountTooLarge,
    /// The disk was not opened, at the start or by a line.
    Opening(OpenFault),
    /// Commands were not stored, or what they give was not printed. They do not fit, the disk failed, memory was refused, or
    /// the journal failed before.
    Storing(FlushFault),
    /// The script can't be read, or was read 4,294,967,296 times.
    Input,
    /// What it prints can't be written.
    Output,
}

/// The text for the user.
impl fmt::Display for ScriptFault {
    ghost use Rattle.std.specs.Prelude.{Some};
    ghost use Rattle.engine_core.specs.FaultTexts.{fault_text};

    ghost output = { λ fault. Some (fault_text fault) };

    fn fmt<W: fmt::Write>(&self, f: &mut fmt::Formatter<W>) -> fmt::Result {
        match self {
            ScriptFault::Memory(_) => f.write_str("no memory"),
            ScriptFault::NotUnderstood { line } => write!(f, "line {line} not understood"),
            ScriptFault::CountTooLarge => f.write_str("J5 count too large"),
            ScriptFault::Opening(fault) => write!(f, "{fault}"),
            ScriptFault::Storing(fault) => write!(f, "{fault}"),
            ScriptFault::Input | ScriptFault::Output => f.write_str("input or output failed"),
        }
    }
}

impl error::Error for ScriptFault {}

impl From<QueueFault> for ScriptFault {
    ghost use Rattle.engine_core.specs.OfQueue.{of_queue};
    ghost use Rattle.std.specs.Prelude.{◌≡◌};

    ghost from_gives = { λ fault r. r ≡ of_queue fault };

    fn from(fault: QueueFault) -> ScriptFault {
        match fault {
            QueueFault::Memory(refused) => ScriptFault::Memory(refused),
            QueueFault::CountTooLarge => ScriptFault::CountTooLarge,
            QueueFault::Opening(fault) => ScriptFault::Opening(fault),
            QueueFault::Storing(fault) => ScriptFault::Storing(fault),
        }
    }
}

impl From<OpenFault> for ScriptFault {
    ghost use Rattle.std.specs.Prelude.{◌≡◌};
    ghost use Rattle.engine_core.specs.declared.fault.ScriptFault.TheVariants as faults;

    ghost from_gives = { λ fault r. r ≡ faults.Opening fault };

    fn from(fault: OpenFault) -> ScriptFault {
        ScriptFault::Opening(fault)
    }
}

impl From<AllocError> for ScriptFault {
    ghost use Rattle.std.specs.Prelude.{◌≡◌};
    ghost use Rattle.engine_core.specs.declared.fault.ScriptFault.TheVariants as faults;

    ghost from_gives = { λ refused r. r ≡ faults.Memory refused };

    fn from(refused: AllocError) -> ScriptFault {
        ScriptFault::Memory(refused)
    }
}
