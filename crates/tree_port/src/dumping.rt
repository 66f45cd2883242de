//! A whole live tree, read into a map.

ghost use Rattle.std.specs.Prelude.{◌≡◌, ◌++◌, [], ⊤, false, IfErr, IfOk, None, OnOk, Some, reverse};
ghost use Rattle.sync_command.specs.Maps.{IsTreeMap, at};
ghost use Rattle.sync_command.specs.Rows.{IsRowTree};
ghost use Rattle.sync_command.specs.Values.{is_dir};
ghost use Rattle.apply_model.specs.Entries.{store_of};
ghost use Rattle.tree_port.specs.States.{WhereKnown};
ghost use Rattle.tree_port.specs.Conditions.{AreBelow, AreChildren};
ghost use Rattle.tree_port.specs.Calls.{Finds, GivesMap, IsReading, IsWholeReading};

use crate::{Tree, TreeFault};
use apply_model::TreeMap;
use std::alloc::Global;
use sync_command::{Kind, Row, Value};
use sync_path::Path;

/// What the node holds.
fn value_at(alloc: Global, tree: &mut Box<dyn Tree>, path: &Path) -> Result<Value, TreeFault>
    ensures reading { IsReading result (live tree.old) (live tree.new) }
    ensures answer { WhereKnown (live tree.old)
        (λ m. Finds (λ v. v ≡ at m path.now) result) }
{
    match tree.kind(path)? {
        Kind::Empty => Ok(Value::Empty),
        Kind::Dir => Ok(Value::Dir(tree.label(alloc, path)?)),
        Kind::File => Ok(Value::File(tree.read_file(alloc, path)?)),
    }
}

/// The roots.
fn roots_of(alloc: Global, tree: &mut Box<dyn Tree>) -> Result<Vec<Path>, TreeFault>
    ensures reading { IsReading result (live tree.old) (live tree.new) }
    ensures below { IfOk result (λ found. AreBelow None found.items) }
    ensures answer { WhereKnown (live tree.old)
        (λ m. Finds (λ found. AreChildren (at m) None found.items) result) }
{
    tree.children(alloc, None)
}

/// The children of the node, if the value that it holds is a directory.
fn children_of(
    alloc: Global,
    tree: &mut Box<dyn Tree>,
    path: &Path,
    value: &Value,
) -> Result<Vec<Path>, TreeFault>
    requires { WhereKnown (live tree.old) (λ m. IsTreeMap m × (value.now ≡ at m path.now)) }
    ensures reading { IsReading result (live tree.old) (live tree.new) }
    ensures below { IfOk result (λ found. AreBelow (Some path.now) found.items) }
    ensures none { IfOk result (λ found. is_dir value.now ≡ false → found.items ≡ []) }
    ensures answer { WhereKnown (live tree.old)
        (λ m. Finds (λ found. AreChildren (at m) (Some path.now) found.items) result) }
{
    if !value.is_dir() {
        return Ok(Vec::new(alloc));
    }
    tree.children(alloc, Some(path))
}

/// Puts the paths on the stack, so that the first of them is the next.
fn push_all(stack: &mut Vec<Path>, mut paths: Vec<Path>) -> Result<(), TreeFault>
    ensures items { OnOk result (stack.new.items ≡ stack.old.items ++ reverse paths.items) }
    ensures memory { IfErr result (λ fault. fault ≡ TreeFault.Memory) }
{
    paths.reverse();
    stack.append(&mut paths)?;
    Ok(())
}

/// The rows of the tree, in path order. Each directory is listed once.
fn read_rows(alloc: Global, tree: &mut Box<dyn Tree>) -> Result<Vec<Row>, TreeFault>
    ensures reading { IsWholeReading result (live tree.old) (live tree.new) }
    ensures rows { IfOk result (λ rows. IsRowTree rows.items) }
    ensures answer { WhereKnown (live tree.old)
        (λ m. Finds (λ rows. store_of rows.items ≡ m) result) }
{
    let mut rows = Vec::new(alloc);
    let mut stack = Vec::new(alloc);
    push_all(&mut stack, roots_of(alloc, tree)?)?;
    'nodes: while let Some(path) = stack.pop() {
        let value = value_at(alloc, tree, &path)?;
        if value.is_empty() {
            continue;
        }
        push_all(&mut stack, children_of(alloc, tree, &path, &value)?)?;
        rows.push(Row { path, value })?;
    }
    Ok(rows)
}

/// The whole tree. Each node is asked for its value once, and each directory is listed once.
///
/// It is a reading call made of many: it changes nothing, no count falls, and each call that failed or was denied is
/// counted. Memory may also run out beside the tree, which counts nothing then. Where it is known what the tree holds,
/// `Ok` gives just that, and `Denied` never comes. A node of another tree that is listed and then found empty is left
/// out. There is no condition ("Boxes of trees" in `docs/DECISIONS.md`).
pub fn dump(alloc: Global, tree: &mut Box<dyn Tree>) -> Result<TreeMap, TreeFault>
    requires { ⊤ }
    ensures reading { IsWholeReading result (live tree.old) (live tree.new) }
    ensures tree { IfOk result IsTreeMap }
    ensures answer { WhereKnown (live tree.old) (GivesMap result) }
{
    let rows = read_rows(alloc, tree)?;
    Ok(TreeMap::from_rows(alloc, rows)?)
}
