//! Preference rules.

use sync_path::Path;

/// The most rules of a preference list that are wide.
pub const MAX_WIDE: usize = 256;

/// A rule of a preference list: the net command of a log at a node, its net commands at and under a node, or all of
/// them. Logs count from 1.
#[derive(Debug, Drop)]
pub enum Rule {
    At { log: u32, path: Path },
    Under { log: u32, path: Path },
    All { log: u32 },
}
