//! Why logs have no joint.

ghost use Rattle.std.specs.Prelude.{◌≡◌};
ghost use Rattle.refluent.specs.declared.faults.JoinFault.TheVariants.{Memory};

use sync_path::{NoMemory, Path};
use thiserror::Error;

/// Why logs were not joined.
#[derive(Debug, Drop, Error)]
pub enum JoinFault {
    /// No tree takes all the logs. The two logs, counted from 1, are the least pair that disagrees, by the first
    /// and then by the second; the path is their first node of disagreement in path order.
    #[error("no common tree")]
    NoCommonTree { first: u32, second: u32, path: Path },
    /// Memory ran out.
    #[error("out of memory")]
    Memory,
}

impl From<NoMemory> for JoinFault {
    ghost from_gives = { λ _ e. e ≡ Memory };

    fn from(_e: NoMemory) -> JoinFault {
        JoinFault::Memory
    }
}
