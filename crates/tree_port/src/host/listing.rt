//! The names in a folder of the system, as paths.

ghost use Rattle.std.specs.Prelude.{◌≡◌, ◌+◌, ◌<◌, ◌≤◌, ℕ, IfOk, IsTrue, true, length, option_copied, vec_len};
ghost use Rattle.std.specs.List.{slice_index_or};
ghost use Rattle.sync_path.specs.Paths.{Node, comes_before, parent};
ghost use Rattle.tree_port.specs.Conditions.{AreBelow};
ghost use Rattle.tree_port.specs.declared.host.listing.TheConstants.{MAX_LISTED};

use super::contents::fault_of;
use crate::TreeFault;
use std::alloc::Global;
use std::io::Read;
use sync_path::{Path, PathFault};

/// How many names a folder may have.
pub(super) const MAX_LISTED: usize = 1 << 20;

/// How many bytes of names are read at a time.
const PIECE: usize = 32768;

/// Whether a name belongs to the tree: the adapter's own names do not, nor do the two dots.
fn is_of_tree(name: &[u8]) -> bool {
    !name.is_empty()
        && name != b".".as_slice()
        && name != b"..".as_slice()
        && !name.starts_with(b".sync-")
}

/// The path with the name below the node, or the root with that name.
fn below(alloc: Global, above: Option<&Path>, name: &[u8]) -> Result<Path, TreeFault> {
    let path = match above {
        Some(above) => above.child(alloc, name),
        None => Path::root(alloc, name),
    };
    path.map_err(|fault| match fault {
        PathFault::Memory => TreeFault::Memory,
        _ => TreeFault::Failed,
    })
}

/// Takes the names of a piece, each ended by a NUL.
fn take_names(
    alloc: Global,
    above: Option<&Path>,
    piece: &[u8],
    found: &mut Vec<Path>,
) -> Result<(), TreeFault> {
    for name in piece.split(|byte| *byte == 0) {
        if is_of_tree(name) {
            found
                .push(below(alloc, above, name)?)
                .map_err(|_| TreeFault::Memory)?;
        }
    }
    Ok(())
}

/// The paths of an open folder's names, below a node or as roots, in path order. `Failed` where there are more than
/// 1,048,576.
pub(super) fn list<D: Read>(
    dir: &mut D,
    alloc: Global,
    above: Option<&Path>,
) -> Result<Vec<Path>, TreeFault>
    ensures below { IfOk result (λ found. AreBelow (option_copied above.entry) found.items) }
    ensures few { IfOk result (λ found. vec_len found ≤ MAX_LISTED) }
{
    let mut found = Vec::new(alloc);
    let mut piece = [0u8; PIECE];
    for _ in 0..=MAX_LISTED {
        if found.len() > MAX_LISTED {
            return Err(TreeFault::Failed);
        }
        let count = match dir.read(&mut piece) {
            Ok(count) => count,
            Err(error) => return Err(fault_of(&error)),
        };
        if count == 0 {
            return in_order(above, found);
        }
        take_names(alloc, above, &piece[..count], &mut found)?;
    }
    Err(TreeFault::Failed)
}

/// The paths in path order. `Failed` where one stands twice or is not below the node, which no folder gives.
fn in_order(above: Option<&Path>, mut paths: Vec<Path>) -> Result<Vec<Path>, TreeFault>
    requires { vec_len paths ≤ MAX_LISTED }
    ensures below { IfOk result (λ found. AreBelow (option_copied above.entry) found.items) }
    ensures few { IfOk result (λ found. vec_len found ≤ MAX_LISTED) }
{
    paths.sort_unstable_by(|first, second| first.cmp(second));
    if are_below(above, &paths) {
        Ok(paths)
    } else {
        Err(TreeFault::Failed)
    }
}

/// Whether the path has this parent, or is a root where none is given.
fn is_child(above: Option<&Path>, path: &Path) -> bool
    ensures { IsTrue result → parent path.now ≡ option_copied above.entry }
{
    match above {
        Some(above) => above.parent_of(path),
        None => path.depth() == 1,
    }
}

/// Whether the path at the place comes after the one before it.
fn follows(paths: &[Path], place: usize) -> bool
    requires { place < length paths.now }
    ensures { IsTrue result → (k : ℕ) (d : Node) → place ≡ k + 1 →
        comes_before (slice_index_or paths.now k d) (slice_index_or paths.now place d) ≡ true }
{
    place == 0 || paths[place - 1].cmp(&paths[place]).is_lt()
}

/// Whether the paths ascend and all have this parent.
fn are_below(above: Option<&Path>, paths: &[Path]) -> bool
    ensures { IsTrue result → AreBelow (option_copied above.entry) paths.now }
{
    let mut place = 0;
    'places: while place < paths.len() {
        if !is_child(above, &paths[place]) || !follows(paths, place) {
            return false;
        }
        place += 1;
    }
    true
}
