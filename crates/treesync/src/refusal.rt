//! Why a job is refused. A file is named by the place of its word, and a command by its number.

ghost use Rattle.std.specs.Prelude.{◌≡◌};
ghost use Rattle.treesync.specs.declared.refusal.Refusal.TheVariants.{OutOfMemory};

use log_text::TextFault;
use record_core::Why;
use sync_path::{NoMemory, Path};

/// Why a job is refused. A kind of refusal stands here by how it is shown to be right: what is wrong with the words
/// or with what was read follows from them, a call that failed was counted, and memory may run out at any time.
/// Words count from 0.
#[derive(Debug, Drop)]
pub enum Refusal {
    /// The words are no job.
    InvalidArguments,
    /// Memory ran out.
    OutOfMemory,
    /// A call on a file or a tree was refused.
    CallFailed(Failure),
    /// What was read is refused.
    Found(Finding),
}

/// Which calls were refused. Words count from 0.
#[derive(Clone, Copy, Debug, PartialEq, Eq)]
pub enum Failure {
    /// The file could not be read.
    ReadFailed { word: usize },
    /// A call of the tree failed.
    TreeFailed { word: usize },
    /// The tree denied a call.
    TreeDenied { word: usize },
}

/// What is wrong with what was read. Words count from 0; lines, commands, logs, rules and
/// operations from 1.
#[derive(Debug, Drop)]
pub enum Finding {
    /// The file is too large.
    TooLarge {
        word: usize,
    },
    /// The file's text is not in its grammar.
    Text {
        word: usize,
        fault: TextFault,
    },
    /// No tree takes the log as far as this command.
    NoTree {
        word: usize,
        number: usize,
    },
    /// No tree takes all the logs: the least two that disagree, and the first node at which they do.
    NoCommonTree {
        first: u32,
        second: u32,
        path: Path,
    },
    /// The log that a rule names is none of the job's.
    NoSuchLog {
        word: usize,
        number: usize,
    },
    /// The log that a rule names has no net command at the rule's path.
    NoCommand {
        word: usize,
        number: usize,
    },
    /// The path holds none of the values at which the set's command there can begin or go on.
    Diverged {
        word: usize,
        path: Path,
    },
    /// With the set done, the path holds something below what is no directory.
    Blocked {
        word: usize,
        path: Path,
    },
    /// The set has a command at the path that no log's net set has.
    NotDrawn {
        word: usize,
        path: Path,
    },
    /// With the set done, the path holds something where it may not.
    DoesNotFit {
        word: usize,
        path: Path,
    },
    /// The log's net command at the path can be added to the set.
    CanAdd {
        word: usize,
        log: u32,
        path: Path,
    },
    /// The operation of the script is refused on the tree as it is then.
    OpRefused {
        word: usize,
        number: usize,
        why: Why,
    },
    /// No tree takes the sets one after another: the first that does not follow those before it, and the path of the
    /// command at which it does not.
    NoFollow {
        word: usize,
        path: Path,
    },
    /// The tree does not take this command of the log.
    NotTaken {
        word: usize,
        number: usize,
    },
}

impl From<NoMemory> for Refusal {
    ghost from_gives = { λ _ refusal. refusal ≡ OutOfMemory };

    fn from(_: NoMemory) -> Refusal {
        Refusal::OutOfMemory
    }
}
