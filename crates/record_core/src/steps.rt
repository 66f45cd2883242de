//! The steps of an operation.

use sync_command::Command;
use sync_path::Path;

/// A step of an operation: a command, or where to read the values of one.
#[derive(Drop)]
pub(crate) enum Step {
    /// This command.
    Give(Command),
    /// What is at the first path is made at the second.
    Make(Path, Path),
    /// The node is emptied.
    Clear(Path),
}
