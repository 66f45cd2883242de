//! The operations of a script.

use sync_command::{Bytes, Label};
use sync_path::Path;

/// One operation of a script. `docs/FORMATS.md` has their lines, and `docs/MODEL.md` what they mean on
/// a tree.
#[derive(Debug, Drop)]
pub enum Op {
    /// Makes a directory with the empty label where nothing is.
    Mkdir(Path),
    /// Puts a file with the contents, in place of a file or of nothing.
    Put(Path, Bytes),
    /// Removes a file, or a directory without children.
    Del(Path),
    /// Removes the node and all under it.
    Deltree(Path),
    /// Copies the node and all under it from the first path to the second, and removes the first.
    Move(Path, Path),
    /// Copies the node and all under it from the first path to the second.
    Copy(Path, Path),
    /// Gives a directory the label.
    Label(Path, Label),
}
