//! The steps of an operation on the live tree, or why it is refused.

ghost use Rattle.std.specs.Prelude.{◌≡◌, ◌<◌, length, ◌++◌, [], IfOk, OnOk, map, true, false, All, if◌then◌else◌, ◌∷◌};
ghost use Rattle.sync_path.specs.Paths.{is_under};
ghost use Rattle.sync_command.specs.Values.{same_value};
ghost use Rattle.sync_command.specs.Maps.{IsTreeMap, at};
ghost use Rattle.tree_port.specs.States.{WhereKnown};
ghost use Rattle.record_core.specs.Meanings.{Nodes, backwards, has_child, lacks_parent, nodes_of};
ghost use Rattle.record_core.specs.Reading.{Finds, ReadsTree};
ghost use Rattle.record_core.specs.Steps.{IsAtOrUnder};
ghost use Rattle.record_core.specs.Plans.{MayCopy, Moves, MovesOne, Plans, Prepares, RefusesWhere, given_steps};

use crate::labelling::is_labelled;
use crate::reading::{is_dir_at, is_empty_at, kind_at, value_at};
use crate::steps::Step;
use crate::subtrees::{children_if_dir, list_subtree};
use crate::{Op, RecordFault, Why};
use std::alloc::Global;
use sync_command::{Bytes, Command, Kind, Label, Value, Version};
use sync_path::{NoMemory, Path, PathFault};
use tree_port::Tree;

/// Whether the path has a parent that is no directory.
fn lacks_parent(alloc: Global, tree: &mut Box<dyn Tree>, path: &Path) -> Result<bool, RecordFault>
    ensures cause { ReadsTree result (live tree.old) (live tree.new) }
    ensures known { WhereKnown (live tree.old)
        (λ m. Finds (λ b. b ≡ lacks_parent (nodes_of m) path.now) result) }
{
    match path.parent(alloc)? {
        None => Ok(false),
        Some(above) => Ok(!is_dir_at(tree, &above)?),
    }
}

/// Whether the node has a child.
fn has_child(alloc: Global, tree: &mut Box<dyn Tree>, path: &Path) -> Result<bool, RecordFault>
    ensures cause { ReadsTree result (live tree.old) (live tree.new) }
    ensures known { WhereKnown (live tree.old)
        (λ m. Finds (λ b. b ≡ has_child (nodes_of m) path.now) result) }
{
    let children = children_if_dir(alloc, tree, path)?;
    Ok(!children.as_slice().is_empty())
}

/// The step from the old value to the new one; none where they are equal.
fn change_step(
    alloc: Global,
    path: &Path,
    old: Value,
    new_value: Value,
) -> Result<Vec<Step>, NoMemory>
    ensures { IfOk result (λ steps. steps.items ≡ given_steps path.now old new_value) }
{
    let mut steps = Vec::new(alloc);
    if let Ok(command) = Command::new(path.copy(alloc)?, old, new_value) {
        steps.push(Step::Give(command))?;
    }
    Ok(steps)
}

/// The refusal of an operation for this reason, where it applies.
fn refuse_where(number: usize, applies: bool, why: Why) -> Result<(), RecordFault>
    ensures { RefusesWhere number applies why result }
{
    if applies {
        return Err(RecordFault::OpRefused { number, why });
    }
    Ok(())
}

/// `mkdir`.
fn prepare_mkdir(
    alloc: Global,
    tree: &mut Box<dyn Tree>,
    number: usize,
    path: &Path,
) -> Result<Vec<Step>, RecordFault>
    ensures cause { ReadsTree result (live tree.old) (live tree.new) }
    ensures tree { OnOk result (WhereKnown (live tree.old) IsTreeMap) }
    ensures known { WhereKnown (live tree.old) (Prepares number (Op.Mkdir path.now) result) }
{
    refuse_where(number, kind_at(tree, path)? != Kind::Empty, Why::Exists)?;
    refuse_where(number, lacks_parent(alloc, tree, path)?, Why::NoParent)?;
    Ok(change_step(alloc, path, Value::Empty, Value::Dir(Label::empty(alloc)))?)
}

/// `put`.
fn prepare_put(
    alloc: Global,
    tree: &mut Box<dyn Tree>,
    number: usize,
    path: &Path,
    bytes: &Bytes,
) -> Result<Vec<Step>, RecordFault>
    ensures cause { ReadsTree result (live tree.old) (live tree.new) }
    ensures tree { OnOk result (WhereKnown (live tree.old) IsTreeMap) }
    ensures known { WhereKnown (live tree.old)
        (Prepares number (Op.Put path.now bytes.now) result) }
{
    let old = value_at(alloc, tree, path)?;
    refuse_where(number, old.is_dir(), Why::IsDir)?;
    refuse_where(number, lacks_parent(alloc, tree, path)?, Why::NoParent)?;
    Ok(change_step(alloc, path, old, Value::File(bytes.copy()?))?)
}

/// `del`.
fn prepare_del(
    alloc: Global,
    tree: &mut Box<dyn Tree>,
    number: usize,
    path: &Path,
) -> Result<Vec<Step>, RecordFault>
    ensures cause { ReadsTree result (live tree.old) (live tree.new) }
    ensures tree { OnOk result (WhereKnown (live tree.old) IsTreeMap) }
    ensures known { WhereKnown (live tree.old) (Prepares number (Op.Del path.now) result) }
{
    let old = value_at(alloc, tree, path)?;
    refuse_where(number, old.is_empty(), Why::Missing)?;
    refuse_where(number, has_child(alloc, tree, path)?, Why::NotEmpty)?;
    Ok(change_step(alloc, path, old, Value::Empty)?)
}

/// `label`.
fn prepare_label(
    alloc: Global,
    tree: &mut Box<dyn Tree>,
    number: usize,
    path: &Path,
    label: &Label,
) -> Result<Vec<Step>, RecordFault>
    ensures cause { ReadsTree result (live tree.old) (live tree.new) }
    ensures tree { OnOk result (WhereKnown (live tree.old) IsTreeMap) }
    ensures known { WhereKnown (live tree.old)
        (Prepares number (Op.Label path.now label.now) result) }
{
    let old = value_at(alloc, tree, path)?;
    refuse_where(number, old.is_empty(), Why::Missing)?;
    refuse_where(number, !old.is_dir(), Why::NotDir)?;
    Ok(change_step(alloc, path, old, Value::Dir(label.copy()?))?)
}

/// Appends the steps that empty the paths, the last first.
fn push_clears(steps: &mut Vec<Step>, paths: Vec<Path>) -> Result<(), NoMemory>
    ensures { IfOk result (λ done.
        steps.new.items ≡ steps.old.items ++ map Step.Clear (backwards paths.items)) }
{
    let mut left = paths;
    'paths: while let Some(path) = left.pop() {
        steps.push(Step::Clear(path))?;
    }
    Ok(())
}

/// The step that makes the path at its moved one. `TooDeep` comes where that is.
fn moved_step(
    alloc: Global,
    number: usize,
    path: &Path,
    from: &Path,
    to: &Path,
) -> Result<Step, RecordFault>
    requires { IsAtOrUnder from.now path.now }
    ensures { MovesOne number path.now from.now to.now result }
{
    match path.moved(alloc, from, to) {
        Ok(target) => Ok(Step::Make(path.copy(alloc)?, target)),
        Err(PathFault::TooDeep) => {
            Err(RecordFault::OpRefused {
                number,
                why: Why::TooDeep,
            })
        }
        Err(_) => Err(RecordFault::Memory),
    }
}

/// The steps that make the paths at their moved ones. `TooDeep` comes where one of these is.
fn moved_steps(
    alloc: Global,
    number: usize,
    paths: &[Path],
    from: &Path,
    to: &Path,
) -> Result<Vec<Step>, RecordFault>
    requires { All (IsAtOrUnder from.now) paths.now }
    ensures { Moves number paths.now from.now to.now result }
{
    let mut steps = Vec::new(alloc);
    'paths: for path in paths {
        steps.push(moved_step(alloc, number, path, from, to)?)?;
    }
    Ok(steps)
}

/// `deltree`.
fn prepare_deltree(
    alloc: Global,
    tree: &mut Box<dyn Tree>,
    number: usize,
    path: &Path,
) -> Result<Vec<Step>, RecordFault>
    ensures cause { ReadsTree result (live tree.old) (live tree.new) }
    ensures tree { OnOk result (WhereKnown (live tree.old) IsTreeMap) }
    ensures known { WhereKnown (live tree.old) (Prepares number (Op.Deltree path.now) result) }
{
    refuse_where(number, kind_at(tree, path)? == Kind::Empty, Why::Missing)?;
    let paths = list_subtree(alloc, tree, path)?;
    let mut steps = Vec::new(alloc);
    push_clears(&mut steps, paths)?;
    Ok(steps)
}

/// Whether the path is under the other. What is under a path is deeper.
fn is_under(path: &Path, other: &Path) -> bool
    ensures under { result ≡ is_under path.now other.now }
    ensures named { 0 < length path.now }
    ensures other_named { 0 < length other.now }
{
    path.depth() > other.depth() && path.under(other)
}

/// Why `copy` and `move` are refused, but for the depth of the moved paths.
fn refuse_copy(
    alloc: Global,
    tree: &mut Box<dyn Tree>,
    number: usize,
    from: &Path,
    to: &Path,
) -> Result<(), RecordFault>
    ensures cause { ReadsTree result (live tree.old) (live tree.new) }
    ensures tree { OnOk result (WhereKnown (live tree.old) IsTreeMap) }
    ensures known { WhereKnown (live tree.old) (MayCopy number from.now to.now result) }
{
    refuse_where(number, is_empty_at(tree, from)?, Why::Missing)?;
    refuse_where(number, is_under(to, from), Why::Inside)?;
    refuse_where(number, !is_empty_at(tree, to)?, Why::Exists)?;
    refuse_where(number, lacks_parent(alloc, tree, to)?, Why::NoParent)?;
    Ok(())
}

/// `copy`.
fn prepare_copy(
    alloc: Global,
    tree: &mut Box<dyn Tree>,
    number: usize,
    from: &Path,
    to: &Path,
) -> Result<Vec<Step>, RecordFault>
    ensures cause { ReadsTree result (live tree.old) (live tree.new) }
    ensures tree { OnOk result (WhereKnown (live tree.old) IsTreeMap) }
    ensures known { WhereKnown (live tree.old)
        (Prepares number (Op.Copy from.now to.now) result) }
{
    refuse_copy(alloc, tree, number, from, to)?;
    let paths = list_subtree(alloc, tree, from)?;
    moved_steps(alloc, number, &paths, from, to)
}

/// `move`.
fn prepare_move(
    alloc: Global,
    tree: &mut Box<dyn Tree>,
    number: usize,
    from: &Path,
    to: &Path,
) -> Result<Vec<Step>, RecordFault>
    ensures cause { ReadsTree result (live tree.old) (live tree.new) }
    ensures tree { OnOk result (WhereKnown (live tree.old) IsTreeMap) }
    ensures known { WhereKnown (live tree.old)
        (Prepares number (Op.Move from.now to.now) result) }
{
    refuse_copy(alloc, tree, number, from, to)?;
    let paths = list_subtree(alloc, tree, from)?;
    let mut steps = moved_steps(alloc, number, &paths, from, to)?;
    push_clears(&mut steps, paths)?;
    Ok(steps)
}

/// The steps of an operation, or the first reason of its own that refuses it.
fn prepare(
    alloc: Global,
    tree: &mut Box<dyn Tree>,
    number: usize,
    op: &Op,
) -> Result<Vec<Step>, RecordFault>
    ensures cause { ReadsTree result (live tree.old) (live tree.new) }
    ensures tree { OnOk result (WhereKnown (live tree.old) IsTreeMap) }
    ensures known { WhereKnown (live tree.old) (Prepares number op.now result) }
{
    match op {
        Op::Mkdir(path) => prepare_mkdir(alloc, tree, number, path),
        Op::Put(path, bytes) => prepare_put(alloc, tree, number, path, bytes),
        Op::Del(path) => prepare_del(alloc, tree, number, path),
        Op::Deltree(path) => prepare_deltree(alloc, tree, number, path),
        Op::Move(from, to) => prepare_move(alloc, tree, number, from, to),
        Op::Copy(from, to) => prepare_copy(alloc, tree, number, from, to),
        Op::Label(path, label) => prepare_label(alloc, tree, number, path, label),
    }
}

/// The steps of an operation, whose commands are its meaning; or why it is refused.
pub(crate) fn plan(
    alloc: Global,
    tree: &mut Box<dyn Tree>,
    version: Version,
    number: usize,
    op: &Op,
) -> Result<Vec<Step>, RecordFault>
    ensures cause { ReadsTree result (live tree.old) (live tree.new) }
    ensures known { WhereKnown (live tree.old) (Plans version number op.now result) }
{
    let steps = prepare(alloc, tree, number, op)?;
    if is_labelled(alloc, tree, version, &steps)? {
        return Err(RecordFault::OpRefused {
            number,
            why: Why::Labelled,
        });
    }
    Ok(steps)
}
