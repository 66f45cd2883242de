//! Why a recording was refused, and why a log was not sealed.

ghost use Rattle.std.specs.Prelude.{◌≡◌};
ghost use Rattle.record_core.specs.Looks.{of_log, of_tree};
ghost use Rattle.record_core.specs.declared.faults.RecordFault.TheVariants.{Memory};

use log_text::{LogFault, TextFault};
use std::alloc::AllocFailed;
use sync_path::{NoMemory, Path};
use thiserror::Error;
use tree_port::TreeFault;

/// Why an operation is refused on the tree as it is.
#[derive(Clone, Copy, Debug, PartialEq, Eq, Error)]
pub enum Why {
    /// The node is empty.
    #[error("missing")]
    Missing,
    /// Something is at the node.
    #[error("exists")]
    Exists,
    /// The node has a parent, and that is no directory.
    #[error("no-parent")]
    NoParent,
    /// The node is a directory.
    #[error("is-dir")]
    IsDir,
    /// The node has a child.
    #[error("not-empty")]
    NotEmpty,
    /// The second path is under the first.
    #[error("inside")]
    Inside,
    /// A path would have more than 64 names.
    #[error("too-deep")]
    TooDeep,
    /// The node is no directory.
    #[error("not-dir")]
    NotDir,
    /// A label would stand in a log of version 1.
    #[error("labelled")]
    Labelled,
}

/// Why a recording ended early.
#[derive(Clone, Copy, Debug, Error)]
pub enum RecordFault {
    /// The operation of this number, counted from 1, is refused.
    #[error("operation {number}: {why}")]
    OpRefused { number: usize, why: Why },
    /// A call of the tree failed. It may have been done all the same.
    #[error("tree failed")]
    TreeFailed,
    /// A call of the tree was denied.
    #[error("tree denied")]
    TreeDenied,
    /// The sink failed.
    #[error("write failed")]
    WriteFault,
    /// An operation would take the log past its limits.
    #[error("too large")]
    TooLarge,
    /// Memory ran out.
    #[error("out of memory")]
    Memory,
}

impl From<NoMemory> for RecordFault {
    ghost from_gives = { λ _ e. e ≡ Memory };

    fn from(_e: NoMemory) -> RecordFault {
        RecordFault::Memory
    }
}

impl<T: Drop> From<AllocFailed<T>> for RecordFault {
    ghost from_gives = { λ _ e. e ≡ Memory };

    fn from(_e: AllocFailed<T>) -> RecordFault {
        RecordFault::Memory
    }
}

/// Why a log was not sealed.
#[derive(Debug, Drop, Error)]
pub enum SealFault {
    /// The text is not that of a log, with or without its end.
    #[error("{0}")]
    Text(TextFault),
    /// No tree takes the first `number` commands; some tree takes those before.
    #[error("no tree takes this log")]
    Broken { number: usize },
    /// The node holds neither its last value nor, as the node of a last command that may not be done, its old one.
    #[error("diverged")]
    Diverged { path: Path },
    /// A call of the tree failed.
    #[error("the tree failed")]
    Failed,
    /// A call of the tree was denied.
    #[error("the tree denied it")]
    Denied,
    /// Memory ran out.
    #[error("out of memory")]
    Memory,
}

impl From<LogFault> for SealFault {
    ghost from_gives = { λ fault e. e ≡ of_log fault };

    fn from(fault: LogFault) -> SealFault {
        match fault {
            LogFault::Text(fault) => SealFault::Text(fault),
            LogFault::Memory => SealFault::Memory,
        }
    }
}

impl From<TreeFault> for SealFault {
    ghost from_gives = { λ fault e. e ≡ of_tree fault };

    fn from(fault: TreeFault) -> SealFault {
        match fault {
            TreeFault::Failed => SealFault::Failed,
            TreeFault::Denied => SealFault::Denied,
            TreeFault::Memory => SealFault::Memory,
        }
    }
}

impl From<NoMemory> for SealFault {
    ghost use Rattle.record_core.specs.declared.faults.SealFault.TheVariants as seal;

    ghost from_gives = { λ _ e. e ≡ seal.Memory };

    fn from(_e: NoMemory) -> SealFault {
        SealFault::Memory
    }
}
