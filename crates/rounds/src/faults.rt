//! Why sets have no composition.

ghost use Rattle.std.specs.Prelude.{◌≡◌};
ghost use Rattle.rounds.specs.declared.faults.ComposeFault.TheVariants.{Memory};

use sync_path::{NoMemory, Path};
use thiserror::Error;

/// Why sets were not composed.
#[derive(Debug, Drop, Error)]
pub enum ComposeFault {
    /// No tree takes the sets one after another. The first command with which none does is of the set of this number,
    /// counted from 1, and of the node of this path.
    #[error("set {set} does not follow")]
    NoFollow { set: usize, path: Path },
    /// Memory ran out.
    #[error("out of memory")]
    Memory,
}

impl From<NoMemory> for ComposeFault {
    ghost from_gives = { λ _ e. e ≡ Memory };

    fn from(_e: NoMemory) -> ComposeFault {
        ComposeFault::Memory
    }
}
