//! `prepare`, which looks whether a set can be applied, and changes nothing.

ghost use Rattle.std.specs.Prelude.{◌≡◌, ◌↔◌, ⊤, IfOk, IsTrue, OnOk, Some, option_copied};
ghost use Rattle.sync_command.specs.Maps.{at};
ghost use Rattle.sync_command.specs.Trees.{command_at};
ghost use Rattle.sync_command.specs.Values.{is_dir};
ghost use Rattle.canon_set.specs.Sets.{IsFitting};
ghost use Rattle.tree_port.specs.Conditions.{AreBelow};
ghost use Rattle.tree_port.specs.States.{WhereKnown};
ghost use Rattle.tree_port.specs.Calls.{Answers, GivesChildren, IsReading};
ghost use Rattle.resume_apply.specs.Preparing.{Finds, FindsBelow, FindsFirst, FindsValues, IsAsking, IsBlocked, IsFew, IsOfTree, IsWorkAt, HoldsReady, KeepsFirst, LooksAt, first_diverged, first_unnamed, goes_first};

use crate::ApplyFault;
use crate::finishing::{changes_kind, holds, is_empty_at};
use canon_set::CanonSet;
use std::alloc::Global;
use sync_command::{Command, Kind};
use sync_path::Path;
use tree_port::{Tree, TreeFault};

/// The work that is left at a command's node; `None` where the node holds none of the values of ready.
fn work_of(tree: &mut Box<dyn Tree>, command: &Command) -> Result<Option<u64>, TreeFault>
    ensures reading { IsReading result (live tree.old) (live tree.new) }
    ensures answer { WhereKnown (live tree.old)
        (λ m. Answers ⊤ (IsWorkAt command.now (at m command.now.node)) result) }
    ensures few { IfOk result IsFew }
{
    let path = command.path();
    if holds(tree, path, command.new_value())? {
        return Ok(Some(0));
    }
    if holds(tree, path, command.old())? {
        return Ok(Some(if changes_kind(command) { 2 } else { 1 }));
    }
    if !changes_kind(command) {
        return Ok(None);
    }
    if is_empty_at(tree, path)? {
        return Ok(Some(1));
    }
    Ok(None)
}

/// The work that is left, or the first node in the order of the set that holds none of the values of ready.
fn work_left(alloc: Global, tree: &mut Box<dyn Tree>, set: &CanonSet) -> Result<u64, ApplyFault>
    ensures asking { IsAsking result (live tree.old) (live tree.new) }
    ensures answer { WhereKnown (live tree.old) (λ m. FindsValues set.now (at m) result) }
{
    let mut work = 0u64;
    let commands = set.commands();
    'values: for command in commands {
        match work_of(tree, command) {
            Ok(Some(more)) => work += more,
            Ok(None) => {
                return match command.path().copy(alloc) {
                    Ok(path) => Err(ApplyFault::Diverged { path }),
                    Err(_) => Err(ApplyFault::Memory),
                };
            }
            Err(fault) => return Err(ApplyFault::from(fault)),
        }
    }
    Ok(work)
}

/// Whether the path comes before the one that is kept, if one is.
fn goes_first(kept: &Option<Path>, path: &Path) -> bool
    ensures { result ≡ goes_first kept.now path.now }
{
    match kept {
        Some(kept) => path.cmp(kept).is_lt(),
        None => true,
    }
}

/// Keeps the path that comes first.
fn keep_first(first: &mut Option<Path>, path: Path)
    ensures { KeepsFirst path first.old first.new }
{
    if goes_first(first, &path) {
        *first = Some(path);
    }
}

/// The first of some paths that the set does not name.
fn first_unnamed(set: &CanonSet, paths: Vec<Path>) -> Option<Path>
    ensures { result ≡ first_unnamed set.now paths.items }
{
    'paths: for path in paths {
        if set.at(&path).is_none() {
            return Some(path);
        }
    }
    None
}

/// Whether the node is a directory.
fn is_dir_at(tree: &mut Box<dyn Tree>, path: &Path) -> Result<bool, TreeFault>
    ensures reading { IsReading result (live tree.old) (live tree.new) }
    ensures answer { WhereKnown (live tree.old)
        (λ m. Answers ⊤ (λ b. b ≡ is_dir (at m path.now)) result) }
{
    match tree.kind(path) {
        Ok(Kind::Dir) => Ok(true),
        Ok(_) => Ok(false),
        Err(fault) => Err(fault),
    }
}

/// The children of a directory.
fn children_of(tree: &mut Box<dyn Tree>, alloc: Global, path: &Path) -> Result<Vec<Path>, TreeFault>
    ensures reading { IsReading result (live tree.old) (live tree.new) }
    ensures below { IfOk result (λ found. AreBelow (Some path.now) found.items) }
    ensures answer { WhereKnown (live tree.old) (GivesChildren (Some path.now) result) }
{
    tree.children(alloc, Some(path))
}

/// Whether the node would be left without a directory above it. A parent that the set names is one after the set, since
/// the set fits some tree.
fn is_left_alone(
    alloc: Global,
    tree: &mut Box<dyn Tree>,
    set: &CanonSet,
    command: &Command,
) -> Result<bool, ApplyFault>
    requires fitting { IsFitting set.now }
    requires named { command_at set.now command.now.node ≡ Some command.now }
    ensures asking { IsAsking result (live tree.old) (live tree.new) }
    ensures answer { WhereKnown (live tree.old)
        (λ m. IfOk result (λ b. IsTrue b ↔ IsBlocked set.now (at m) command.now.node)) }
    ensures refusal { IsOfTree result }
{
    if command.new_value().is_empty() {
        return Ok(false);
    }
    let Some(parent) = command.path().parent(alloc)? else {
        return Ok(false);
    };
    if set.at(&parent).is_some() {
        return Ok(false);
    }
    let is_dir = is_dir_at(tree, &parent)?;
    Ok(!is_dir)
}

/// The first child that would be left under the node, where that is no directory after the set. A node that is one now
/// holds the command's old value, since the tree holds values of ready.
fn first_left_under(
    alloc: Global,
    tree: &mut Box<dyn Tree>,
    set: &CanonSet,
    command: &Command,
) -> Result<Option<Path>, ApplyFault>
    requires fitting { IsFitting set.now }
    requires named { command_at set.now command.now.node ≡ Some command.now }
    requires ready { WhereKnown (live tree.old) (HoldsReady set.now) }
    ensures asking { IsAsking result (live tree.old) (live tree.new) }
    ensures answer { WhereKnown (live tree.old)
        (λ m. IfOk result (FindsBelow set.now (at m) command.now)) }
    ensures refusal { IsOfTree result }
{
    if command.new_value().is_dir() {
        return Ok(None);
    }
    if !command.old().is_dir() {
        return Ok(None);
    }
    if !is_dir_at(tree, command.path())? {
        return Ok(None);
    }
    let children = children_of(tree, alloc, command.path())?;
    Ok(first_unnamed(set, children))
}

/// Looks for nodes that would be left alone, at a command's node and below it, and keeps the first.
fn look_at(
    alloc: Global,
    tree: &mut Box<dyn Tree>,
    set: &CanonSet,
    command: &Command,
    first: &mut Option<Path>,
) -> Result<(), ApplyFault>
    requires fitting { IsFitting set.now }
    requires named { command_at set.now command.now.node ≡ Some command.now }
    requires ready { WhereKnown (live tree.old) (HoldsReady set.now) }
    ensures asking { IsAsking result (live tree.old) (live tree.new) }
    ensures answer { WhereKnown (live tree.old)
        (λ m. OnOk result (LooksAt set.now (at m) command.now first.old first.new)) }
    ensures refusal { IsOfTree result }
{
    if is_left_alone(alloc, tree, set, command)? {
        keep_first(first, command.path().copy(alloc)?);
    }
    match first_left_under(alloc, tree, set, command)? {
        Some(path) => keep_first(first, path),
        None => {}
    }
    Ok(())
}

/// The first node, in path order, that would be left without a directory above it, where each node of the set holds a
/// value of ready.
fn first_blocked(
    alloc: Global,
    tree: &mut Box<dyn Tree>,
    set: &CanonSet,
) -> Result<Option<Path>, ApplyFault>
    requires { WhereKnown (live tree.old) (λ m. first_diverged set.now (at m) ≡ None) }
    ensures asking { IsAsking result (live tree.old) (live tree.new) }
    ensures answer { WhereKnown (live tree.old) (λ m. IfOk result (FindsFirst set.now (at m))) }
    ensures refusal { IsOfTree result }
{
    let _changes = tree.changed();
    let mut first = None;
    let commands = set.commands();
    'nodes: for command in commands {
        look_at(alloc, tree, set, command, &mut first)?;
    }
    Ok(first)
}

/// Looks whether the tree is ready for the set, and gives the work that is left. Nothing is changed.
///
/// `Diverged` names the first node, in the order of the set, that holds none of the values at which its command can
/// begin or go on. Where there is none, `Blocked` names the first node, in path order, that would be left without a
/// directory above it. A call of the tree that is refused comes before both. Of the tree only the set's nodes are looked
/// at, their parents, and the children of those that must be emptied.
///
/// There is no condition. The clause that says so lets callers in other crates know that the tree in the box is the one
/// that they put there ("Boxes of trees" in `docs/DECISIONS.md`).
pub fn prepare(alloc: Global, tree: &mut Box<dyn Tree>, set: &CanonSet) -> Result<u64, ApplyFault>
    requires { ⊤ }
    ensures asking { IsAsking result (live tree.old) (live tree.new) }
    ensures answer { WhereKnown (live tree.old) (λ m. Finds set.now (at m) result) }
{
    let work = work_left(alloc, tree, set)?;
    match first_blocked(alloc, tree, set)? {
        Some(path) => Err(ApplyFault::Blocked { path }),
        None => Ok(work),
    }
}
