//! Why rules give no ranking.

ghost use Rattle.std.specs.Prelude.{◌≡◌};
ghost use Rattle.pref_list.specs.declared.faults.RankFault.TheVariants.{Memory};

use sync_path::NoMemory;
use thiserror::Error;

/// The first rule at fault, by its number from 1: its log is none of the joined ones, or it is an `At` rule and its log
/// has no net command at the path. Or out of memory.
#[derive(Debug, Drop, Error)]
pub enum RankFault {
    #[error("rule {number}: no such log")]
    NoSuchLog { number: usize },
    #[error("rule {number}: no such command")]
    NoCommand { number: usize },
    #[error("out of memory")]
    Memory,
}

impl From<NoMemory> for RankFault {
    ghost from_gives = { λ _ e. e ≡ Memory };

    fn from(_fault: NoMemory) -> RankFault {
        RankFault::Memory
    }
}
