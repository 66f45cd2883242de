//! The table of a tree's nodes: the value of each, and how many of its children are not empty.

ghost use Rattle.std.specs.Prelude.{◌≡◌, List, OnOk, OnErr, IfOk, true, false, if◌then◌else◌, option_copied};
ghost use Rattle.std.specs.HashMap as hash;
ghost use Rattle.std.specs.HashMap.{spare};
ghost use Rattle.std.specs.List.Sorted.{IsPermutation, IsSortedByKey};
ghost use Rattle.sync_path.specs.Paths.{Node, parent, path_cmp, same_path};
ghost use Rattle.sync_path.specs.Order.{path_eq};
ghost use Rattle.sync_command.specs.declared.commands.Row.{Row};
ghost use Rattle.apply_model.specs.Steps.{NamesParent, after_step};
ghost use Rattle.apply_model.specs.Tables.{any_dir_above, entry_with, is_below, is_full_child, recounted, revalued, with_child};

use std::collections::HashMap;
use sync_command::{Row, Value};
use sync_path::{NoMemory, Path};

/// What the table keeps of a node. A node that was removed stays in the table, with the value `Empty`.
#[derive(Debug, Drop)]
pub(crate) struct Entry {
    pub value: Value,
    /// How many of its children are not empty.
    pub children: usize,
}

/// What a command does to the table: it makes a node or removes one, where its parent counts anew, or replaces a value.
#[derive(Drop)]
pub(crate) enum Step {
    Make(Option<Path>),
    Remove(Option<Path>),
    Replace,
}

/// The node at the path has one child more. The one refusal is that no machine counts so far.
fn add_child(nodes: &mut HashMap<Path, Entry>, above: &Path) -> Result<(), NoMemory>
    ensures ok { OnOk result ((p : Node) →
        hash.get path_eq nodes.new p ≡ (if same_path p above.now
        then recounted true (hash.get path_eq nodes.old p)
        else hash.get path_eq nodes.old p)) }
    ensures space { spare nodes.new ≡ spare nodes.old }
    ensures err { OnErr result ((p : Node) →
        hash.get path_eq nodes.new p ≡ hash.get path_eq nodes.old p) }
{
    if let Some(entry) = nodes.get_mut(above) {
        let Some(children) = entry.children.checked_add(1) else {
            return Err(NoMemory);
        };
        entry.children = children;
    }
    Ok(())
}

/// The node at the path has one child fewer.
fn remove_child(nodes: &mut HashMap<Path, Entry>, above: &Path)
    ensures { (p : Node) → hash.get path_eq nodes.new p ≡ (if same_path p above.now
        then recounted false (hash.get path_eq nodes.old p)
        else hash.get path_eq nodes.old p) }
{
    if let Some(entry) = nodes.get_mut(above) {
        entry.children = entry.children.saturating_sub(1);
    }
}

/// Gives a node of the table another value; its count of children stays.
fn replace(nodes: &mut HashMap<Path, Entry>, path: &Path, value: Value)
    ensures { (p : Node) → hash.get path_eq nodes.new p ≡ (if same_path p path.now
        then revalued value (hash.get path_eq nodes.old p)
        else hash.get path_eq nodes.old p) }
{
    if let Some(entry) = nodes.get_mut(path) {
        entry.value = value;
    }
}

/// Gives a node without children its first value: its parent has one child more. After a refusal the table has what
/// it had.
fn fill(
    nodes: &mut HashMap<Path, Entry>,
    above: Option<&Path>,
    path: Path,
    value: Value,
) -> Result<(), NoMemory>
    requires { option_copied above ≡ parent path }
    ensures ok { OnOk result ((p : Node) →
        hash.get path_eq nodes.new p ≡ (if same_path p path
        then entry_with value
        else with_child true path (hash.get path_eq nodes.old) p)) }
    ensures err { OnErr result ((p : Node) →
        hash.get path_eq nodes.new p ≡ hash.get path_eq nodes.old p) }
{
    nodes.reserve(1)?;
    if let Some(above) = above {
        add_child(nodes, above)?;
    }
    match nodes.insert(path, Entry { value, children: 0 }) {
        Ok(_) => Ok(()),
        Err(_) => unreachable!(),
    }
}

/// Gives a node of the table its last value, the empty one: its parent has one child fewer.
fn clear(nodes: &mut HashMap<Path, Entry>, above: Option<&Path>, path: &Path, value: Value)
    requires { option_copied above ≡ parent path.now }
    ensures { (p : Node) → hash.get path_eq nodes.new p ≡ (if same_path p path.now
        then revalued value (hash.get path_eq nodes.old p)
        else with_child false path.now (hash.get path_eq nodes.old) p) }
{
    replace(nodes, path, value);
    if let Some(above) = above {
        remove_child(nodes, above);
    }
}

/// Does a step. After a refusal the table has what it had.
pub(crate) fn change(
    nodes: &mut HashMap<Path, Entry>,
    step: Step,
    path: Path,
    value: Value,
) -> Result<(), NoMemory>
    requires { NamesParent step path }
    ensures ok { OnOk result ((p : Node) →
        hash.get path_eq nodes.new p ≡ after_step step path value (hash.get path_eq nodes.old) p) }
    ensures err { OnErr result ((p : Node) →
        hash.get path_eq nodes.new p ≡ hash.get path_eq nodes.old p) }
{
    match step {
        Step::Make(above) => fill(nodes, above.as_ref(), path, value)?,
        Step::Remove(above) => clear(nodes, above.as_ref(), &path, value),
        Step::Replace => replace(nodes, &path, value),
    }
    Ok(())
}

/// Whether the parent of the path is a directory. Looks at all nodes, and takes no memory.
pub(crate) fn any_dir_above(nodes: &HashMap<Path, Entry>, path: &Path) -> bool
    ensures value { result ≡ any_dir_above path.now nodes.now.entries }
    ensures unique { hash.IsUnique path_eq nodes.now }
{
    let _count = nodes.len();
    'nodes: for (above, entry) in nodes {
        if above.parent_of(path) && entry.value.is_dir() {
            return true;
        }
    }
    false
}

/// The rows in path order. Takes no memory.
pub(crate) fn in_order(mut rows: Vec<Row>) -> Vec<Row>
    ensures moved { IsPermutation rows.items result.items }
    ensures sorted { IsSortedByKey (λ (r : Row). r.path) path_cmp result.items }
{
    rows.sort_unstable_by(|first, second| first.path.cmp(&second.path));
    rows
}

/// Whether the node is a child of the other, or a root where none is given.
fn is_below(path: &Path, above: Option<&Path>) -> bool
    ensures { result ≡ is_below (option_copied above.entry) path.now }
{
    match above {
        Some(above) => above.parent_of(path),
        None => path.depth() == 1,
    }
}

/// The same of a node that is not empty.
pub(crate) fn is_full_child(path: &Path, value: &Value, above: Option<&Path>) -> bool
    ensures { result ≡ is_full_child (option_copied above.entry) path.now value.now }
{
    is_below(path, above) && !value.is_empty()
}

/// The paths in path order. Takes no memory.
pub(crate) fn paths_in_order(mut paths: Vec<Path>) -> Vec<Path>
    ensures moved { IsPermutation paths.items result.items }
    ensures sorted { IsSortedByKey (λ (p : Node). p) path_cmp result.items }
{
    paths.sort_unstable_by(|first, second| first.cmp(second));
    paths
}
