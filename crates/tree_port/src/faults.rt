//! Why a call of a tree was refused.

ghost use Rattle.std.specs.Prelude.{◌≡◌};
ghost use Rattle.tree_port.specs.declared.faults.TreeFault.TheVariants.{Memory};

use std::alloc::{AllocError, AllocFailed};
use sync_path::NoMemory;
use thiserror::Error;

/// Why a call of a tree was refused.
#[derive(Clone, Copy, Debug, Drop, Error, PartialEq, Eq)]
pub enum TreeFault {
    /// The tree failed. A changing call may have been done all the same.
    #[error("the tree failed")]
    Failed,
    /// The call's condition does not hold, or it is not permitted. Nothing was changed.
    #[error("the tree denied it")]
    Denied,
    /// Nothing was changed.
    #[error("out of memory")]
    Memory,
}

impl From<AllocError> for TreeFault {
    ghost from_gives = { λ _ e. e ≡ Memory };

    fn from(_e: AllocError) -> TreeFault {
        TreeFault::Memory
    }
}

impl<T: Drop> From<AllocFailed<T>> for TreeFault {
    ghost from_gives = { λ _ e. e ≡ Memory };

    fn from(_e: AllocFailed<T>) -> TreeFault {
        TreeFault::Memory
    }
}

impl From<NoMemory> for TreeFault {
    ghost from_gives = { λ _ e. e ≡ Memory };

    fn from(_e: NoMemory) -> TreeFault {
        TreeFault::Memory
    }
}
