//! Why a round was not done.

ghost use Rattle.std.specs.Prelude.{◌≡◌};
ghost use Rattle.sync_round.specs.Faults.{fault_of};
ghost use Rattle.sync_round.specs.declared.faults.RoundFault.TheVariants.{Memory};

use resume_apply::ApplyFault;
use sync_path::NoMemory;
use thiserror::Error;

/// Why a round was not done, or not to its end.
#[derive(Debug, Drop, Error)]
pub enum RoundFault {
    /// The tree of this number, counted from 1, is not ready for its transition, or a call of it was refused. `fault`
    /// is never `ApplyFault::Memory`.
    #[error("a tree refused")]
    Tree { number: u32, fault: ApplyFault },
    /// Memory ran out, here or in a tree.
    #[error("out of memory")]
    Memory,
}

impl From<NoMemory> for RoundFault {
    ghost from_gives = { λ _ e. e ≡ Memory };

    fn from(_e: NoMemory) -> RoundFault {
        RoundFault::Memory
    }
}

/// What a fault of the tree of this number is to the round.
pub(crate) fn fault_of(number: u32, fault: ApplyFault) -> RoundFault
    ensures { result ≡ fault_of number fault }
{
    match fault {
        ApplyFault::Memory => RoundFault::Memory,
        fault => RoundFault::Tree { number, fault },
    }
}
