//! Why a call was refused.

ghost use Rattle.std.specs.Prelude.{◌≡◌};
ghost use Rattle.sync_port.specs.Faults.{passed_on};
ghost use Rattle.sync_port.specs.declared.faults.WholeFault.TheVariants.{Memory};

use std::alloc::AllocError;
use thiserror::Error;

/// Why a file was not opened, or not read on.
#[derive(Debug, Drop, PartialEq, Eq, Error)]
pub enum PortFault {
    #[error("reading failed")]
    Failed,
    #[error("out of memory")]
    Memory,
}

/// Why a file was not read as a whole.
#[derive(Debug, Drop, PartialEq, Eq, Error)]
pub enum WholeFault {
    #[error("reading failed")]
    ReadFault,
    #[error("too large")]
    TooLarge,
    #[error("out of memory")]
    Memory,
}

/// A sink did not take what it was handed.
#[derive(Debug, Drop, PartialEq, Eq, Error)]
#[error("writing failed")]
pub struct SinkFailed;

impl From<PortFault> for WholeFault {
    ghost from_gives = { λ fault whole. whole ≡ passed_on fault };

    fn from(fault: PortFault) -> WholeFault {
        match fault {
            PortFault::Failed => WholeFault::ReadFault,
            PortFault::Memory => WholeFault::Memory,
        }
    }
}

impl From<AllocError> for WholeFault {
    ghost from_gives = { λ _ whole. whole ≡ Memory };

    fn from(_e: AllocError) -> WholeFault {
        WholeFault::Memory
    }
}
