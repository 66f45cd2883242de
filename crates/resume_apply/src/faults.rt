//! Why a set was not applied.

ghost use Rattle.std.specs.Prelude.{◌≡◌};
ghost use Rattle.resume_apply.specs.Faults.{of_tree};
ghost use Rattle.resume_apply.specs.declared.faults.ApplyFault.TheVariants.{Memory};

use sync_path::{NoMemory, Path};
use thiserror::Error;
use tree_port::TreeFault;

/// Why a set cannot be applied to a tree.
#[derive(Debug, Drop, Error)]
pub enum ApplyFault {
    /// The node holds no value at which the set can begin or go on.
    #[error("diverged")]
    Diverged { path: Path },
    /// The node would be left without a directory above it.
    #[error("blocked")]
    Blocked { path: Path },
    #[error("the tree failed")]
    Failed,
    #[error("the tree denied it")]
    Denied,
    #[error("out of memory")]
    Memory,
}

impl From<TreeFault> for ApplyFault {
    ghost from_gives = { λ fault e. e ≡ of_tree fault };

    fn from(fault: TreeFault) -> ApplyFault {
        match fault {
            TreeFault::Failed => ApplyFault::Failed,
            TreeFault::Denied => ApplyFault::Denied,
            TreeFault::Memory => ApplyFault::Memory,
        }
    }
}

impl From<NoMemory> for ApplyFault {
    ghost from_gives = { λ _ e. e ≡ Memory };

    fn from(_e: NoMemory) -> ApplyFault {
        ApplyFault::Memory
    }
}
