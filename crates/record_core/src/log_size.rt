//! How large a log is so far.

ghost use Rattle.std.specs.Prelude.{◌≡◌, ◌⊎◌, ◌+◌, ◌<◌, ◌≤◌, MatchOption};
ghost use Rattle.log_text.specs.declared.frame.TheConstants.{MAX_ITEMS};
ghost use Rattle.record_core.specs.declared.limits.TheConstants.{MAX_LOG_LEN};

use crate::MAX_LOG_LEN;
use log_text::frame::MAX_ITEMS;

/// How many commands a log has, and how many bytes its text without the end line.
#[derive(Clone, Copy)]
pub(crate) struct LogSize {
    pub(crate) commands: usize,
    pub(crate) bytes: u64,
    ghost few: { commands ≤ MAX_ITEMS },
    ghost short: { bytes ≤ MAX_LOG_LEN },
}

impl LogSize {
    /// The size of a log without commands, whose first line has 10 bytes in either version.
    pub(crate) fn new() -> LogSize
        ensures commands { result.commands ≡ 0 }
        ensures bytes { result.bytes ≡ 10 }
    {
        LogSize {
            commands: 0,
            bytes: 10,
        }
    }

    /// The size with one line more, of so many bytes; `None` where it is past the limits.
    pub(crate) fn with_line(self, length: usize) -> Option<LogSize>
        ensures { MatchOption result
            ((MAX_ITEMS < self.commands + 1) ⊎ (MAX_LOG_LEN < self.bytes + length))
            (λ next. (next.commands ≡ self.commands + 1) × (next.bytes ≡ self.bytes + length)) }
    {
        if self.commands >= MAX_ITEMS || length as u64 > MAX_LOG_LEN - self.bytes {
            return None;
        }
        Some(LogSize {
            commands: self.commands + 1,
            bytes: self.bytes + length as u64,
        })
    }
}
