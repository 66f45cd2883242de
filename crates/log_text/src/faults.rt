//! What can be wrong with a text, and where.

ghost use Rattle.std.specs.Prelude.{◌≡◌};
ghost use Rattle.log_text.specs.declared.faults.LogFault.TheVariants.{Memory};

use std::alloc::{AllocError, AllocFailed};
use thiserror::Error;

/// What is wrong with a line. It is shown as messages print it.
#[derive(Clone, Copy, Debug, PartialEq, Eq, Error)]
pub enum TextKind {
    /// The text does not begin with the form's first line and a line feed.
    #[error("header")]
    Header,
    /// Split at its spaces, the line has too few fields or too many.
    #[error("fields")]
    Fields,
    /// This line would be one more than the 2^20 that a text may have.
    #[error("too-many")]
    TooMany,
    /// This rule would be one more than the 256 that may speak of many nodes.
    #[error("too-wide")]
    TooWide,
    /// A log's number is out of 1 to 64, or not spelled in plain decimal.
    #[error("number")]
    Number,
    /// What should name a path is no text of one.
    #[error("path")]
    Path,
    /// What should spell a value is no text of one.
    #[error("value")]
    Value,
    /// The command would change nothing.
    #[error("same")]
    Same,
    /// The row would hold nothing.
    #[error("empty")]
    Empty,
    /// The path does not come after that of the previous row.
    #[error("order")]
    Order,
    /// The path is a child, and its parent was not listed as a directory.
    #[error("parent")]
    Parent,
    /// The text breaks off without an end line.
    #[error("end")]
    End,
    /// The end line's number is not that of the lines, in plain decimal.
    #[error("count")]
    Count,
    /// There are bytes after the end line.
    #[error("after")]
    After,
}

/// Where a text goes wrong first, and in what way.
#[derive(Clone, Copy, Debug, PartialEq, Eq, Error)]
#[error("line {line}: {kind}")]
pub struct TextFault {
    /// The line's number, from 1.
    pub line: u64,
    /// What is wrong with it: of several kinds the one that its form looks for first.
    pub kind: TextKind,
}

/// Why a text was not read.
#[derive(Clone, Copy, Debug, Error)]
pub enum LogFault {
    /// The text is none of its form.
    #[error("{0}")]
    Text(TextFault),
    #[error("out of memory")]
    Memory,
}

/// Why a line was not read: what is wrong with it, or that memory ran out.
#[derive(Debug, Drop, Error)]
pub enum LineFault {
    #[error("{0}")]
    Kind(TextKind),
    #[error("out of memory")]
    Memory,
}

impl From<AllocError> for LogFault {
    ghost from_gives = { λ _ e. e ≡ Memory };

    fn from(_e: AllocError) -> LogFault {
        LogFault::Memory
    }
}

impl<T: Drop> From<AllocFailed<T>> for LogFault {
    ghost from_gives = { λ _ e. e ≡ Memory };

    fn from(_e: AllocFailed<T>) -> LogFault {
        LogFault::Memory
    }
}
