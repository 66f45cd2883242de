//! The paths of a subtree of the live tree.

ghost use Rattle.std.specs.Prelude.{◌≡◌, ◌++◌, false, IfOk, All, AllPairs, IsTrue, Some};
ghost use Rattle.sync_path.specs.Paths.{comes_before};
ghost use Rattle.sync_command.specs.Values.{is_empty};
ghost use Rattle.sync_command.specs.Maps.{IsTreeMap, at};
ghost use Rattle.tree_port.specs.States.{WhereKnown};
ghost use Rattle.tree_port.specs.Conditions.{AreBelow, AreChildren};
ghost use Rattle.record_core.specs.Meanings.{backwards, nodes_of, subtree};
ghost use Rattle.record_core.specs.Reading.{Finds, ReadsTree};
ghost use Rattle.record_core.specs.Steps.{IsAtOrUnder};

use crate::RecordFault;
use crate::reading::{children_at, is_dir_at};
use std::alloc::Global;
use sync_path::{NoMemory, Path};
use tree_port::Tree;

/// Appends the paths, the last of them first.
fn push_backwards(stack: &mut Vec<Path>, paths: Vec<Path>) -> Result<(), NoMemory>
    ensures { IfOk result (λ done. stack.new.items ≡ stack.old.items ++ backwards paths.items) }
{
    let mut left = paths;
    'paths: while let Some(path) = left.pop() {
        stack.push(path)?;
    }
    Ok(())
}

/// The children of the node, if it is a directory.
pub(crate) fn children_if_dir(
    alloc: Global,
    tree: &mut Box<dyn Tree>,
    path: &Path,
) -> Result<Vec<Path>, RecordFault>
    ensures cause { ReadsTree result (live tree.old) (live tree.new) }
    ensures tree { WhereKnown (live tree.old) IsTreeMap }
    ensures below { IfOk result (λ found. AreBelow (Some path.now) found.items) }
    ensures known { WhereKnown (live tree.old)
        (λ m. Finds (λ found. AreChildren (at m) (Some path.now) found.items) result) }
{
    if !is_dir_at(tree, path)? {
        return Ok(Vec::new(alloc));
    }
    children_at(alloc, tree, path)
}

/// The paths of the node and of all that is under it, in path order. Each directory is listed once.
pub(crate) fn list_subtree(
    alloc: Global,
    tree: &mut Box<dyn Tree>,
    path: &Path,
) -> Result<Vec<Path>, RecordFault>
    requires { WhereKnown (live tree.old)
        (λ m. IsTreeMap m × (is_empty (at m path.now) ≡ false)) }
    ensures cause { ReadsTree result (live tree.old) (live tree.new) }
    ensures below { IfOk result (λ paths. All (IsAtOrUnder path.now) paths.items) }
    ensures known { WhereKnown (live tree.old)
        (λ m. Finds (λ paths. paths.items ≡ subtree (nodes_of m) path.now) result) }
{
    let mut found = Vec::new(alloc);
    let mut stack = Vec::new(alloc);
    stack.push(path.copy(alloc)?)?;
    'nodes: while let Some(next) = stack.pop() {
        let children = children_if_dir(alloc, tree, &next)?;
        push_backwards(&mut stack, children)?;
        found.push(next)?;
    }
    Ok(found)
}
