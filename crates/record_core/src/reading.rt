//! Reading the live tree, with the faults of a recording.

ghost use Rattle.std.specs.Prelude.{◌≡◌, true, false, IfOk, Some, None, Option};
ghost use Rattle.sync_path.specs.Paths.{Node};
ghost use Rattle.sync_command.specs.Values.{is_dir, is_empty, kind_of};
ghost use Rattle.sync_command.specs.Maps.{IsTreeMap, at};
ghost use Rattle.tree_port.specs.States.{WhereKnown};
ghost use Rattle.tree_port.specs.Conditions.{AreBelow, AreChildren};
ghost use Rattle.record_core.specs.Meanings.{nodes_of, subtree, lacks_parent};
ghost use Rattle.record_core.specs.Reading.{Finds, ReadsTree, fault_of};
ghost use Rattle.record_core.specs.Steps.{IsChangeOf, IsFull};

use crate::RecordFault;
use crate::steps::Step;
use std::alloc::Global;
use sync_command::{Bytes, Command, Kind, Label, Value};
use sync_path::Path;
use tree_port::{Tree, TreeFault};

/// What a fault of the tree is to a recording.
fn fault_of(fault: TreeFault) -> RecordFault
    ensures { result ≡ fault_of fault }
{
    match fault {
        TreeFault::Failed => RecordFault::TreeFailed,
        TreeFault::Denied => RecordFault::TreeDenied,
        TreeFault::Memory => RecordFault::Memory,
    }
}

/// The node's kind.
pub(crate) fn kind_at(tree: &mut Box<dyn Tree>, path: &Path) -> Result<Kind, RecordFault>
    ensures cause { ReadsTree result (live tree.old) (live tree.new) }
    ensures tree { WhereKnown (live tree.old) IsTreeMap }
    ensures known { WhereKnown (live tree.old)
        (λ m. Finds (λ k. k ≡ kind_of (at m path.now)) result) }
{
    match tree.kind(path) {
        Ok(kind) => Ok(kind),
        Err(fault) => Err(fault_of(fault)),
    }
}

/// Whether the node is a directory.
pub(crate) fn is_dir_at(tree: &mut Box<dyn Tree>, path: &Path) -> Result<bool, RecordFault>
    ensures cause { ReadsTree result (live tree.old) (live tree.new) }
    ensures tree { WhereKnown (live tree.old) IsTreeMap }
    ensures known { WhereKnown (live tree.old)
        (λ m. Finds (λ b. b ≡ is_dir (at m path.now)) result) }
{
    match kind_at(tree, path) {
        Err(fault) => Err(fault),
        Ok(Kind::Dir) => Ok(true),
        Ok(Kind::Empty) => Ok(false),
        Ok(Kind::File) => Ok(false),
    }
}

/// Whether the node is empty.
pub(crate) fn is_empty_at(tree: &mut Box<dyn Tree>, path: &Path) -> Result<bool, RecordFault>
    ensures cause { ReadsTree result (live tree.old) (live tree.new) }
    ensures tree { WhereKnown (live tree.old) IsTreeMap }
    ensures known { WhereKnown (live tree.old)
        (λ m. Finds (λ b. b ≡ is_empty (at m path.now)) result) }
{
    match kind_at(tree, path) {
        Err(fault) => Err(fault),
        Ok(Kind::Empty) => Ok(true),
        Ok(Kind::Dir) => Ok(false),
        Ok(Kind::File) => Ok(false),
    }
}

/// The contents of a file.
fn bytes_at(alloc: Global, tree: &mut Box<dyn Tree>, path: &Path) -> Result<Bytes, RecordFault>
    requires { WhereKnown (live tree.old) (λ m. kind_of (at m path.now) ≡ Kind.File) }
    ensures cause { ReadsTree result (live tree.old) (live tree.new) }
    ensures known { WhereKnown (live tree.old)
        (λ m. Finds (λ bytes. at m path.now ≡ Value.File bytes) result) }
{
    match tree.read_file(alloc, path) {
        Ok(bytes) => Ok(bytes),
        Err(fault) => Err(fault_of(fault)),
    }
}

/// The label of a directory.
pub(crate) fn label_at(
    alloc: Global,
    tree: &mut Box<dyn Tree>,
    path: &Path,
) -> Result<Label, RecordFault>
    requires { WhereKnown (live tree.old) (λ m. is_dir (at m path.now) ≡ true) }
    ensures cause { ReadsTree result (live tree.old) (live tree.new) }
    ensures known { WhereKnown (live tree.old)
        (λ m. Finds (λ label. at m path.now ≡ Value.Dir label) result) }
{
    match tree.label(alloc, path) {
        Ok(label) => Ok(label),
        Err(fault) => Err(fault_of(fault)),
    }
}

/// The children of a directory.
pub(crate) fn children_at(
    alloc: Global,
    tree: &mut Box<dyn Tree>,
    path: &Path,
) -> Result<Vec<Path>, RecordFault>
    requires { WhereKnown (live tree.old) (λ m. is_dir (at m path.now) ≡ true) }
    ensures cause { ReadsTree result (live tree.old) (live tree.new) }
    ensures below { IfOk result (λ found. AreBelow (Some path.now) found.items) }
    ensures known { WhereKnown (live tree.old)
        (λ m. Finds (λ found. AreChildren (at m) (Some path.now) found.items) result) }
{
    match tree.children(alloc, Some(path)) {
        Ok(found) => Ok(found),
        Err(fault) => Err(fault_of(fault)),
    }
}

/// What the node holds.
pub(crate) fn value_at(
    alloc: Global,
    tree: &mut Box<dyn Tree>,
    path: &Path,
) -> Result<Value, RecordFault>
    ensures cause { ReadsTree result (live tree.old) (live tree.new) }
    ensures tree { WhereKnown (live tree.old) IsTreeMap }
    ensures known { WhereKnown (live tree.old)
        (λ m. Finds (λ v. v ≡ at m path.now) result) }
{
    match kind_at(tree, path) {
        Err(fault) => Err(fault),
        Ok(Kind::Empty) => Ok(Value::Empty),
        Ok(Kind::Dir) => match label_at(alloc, tree, path) {
            Ok(label) => Ok(Value::Dir(label)),
            Err(fault) => Err(fault),
        },
        Ok(Kind::File) => match bytes_at(alloc, tree, path) {
            Ok(bytes) => Ok(Value::File(bytes)),
            Err(fault) => Err(fault),
        },
    }
}

/// The command of a step, as the tree holds it. Where a step reads a node that is empty there is none.
pub(crate) fn command_of(
    alloc: Global,
    tree: &mut Box<dyn Tree>,
    step: &Step,
) -> Result<Option<Command>, RecordFault>
    requires { WhereKnown (live tree.old) (λ m. IsFull (at m) step.now) }
    ensures cause { ReadsTree result (live tree.old) (live tree.new) }
    ensures known { WhereKnown (live tree.old)
        (λ m. Finds (IsChangeOf (at m) step.now) result) }
{
    match step {
        Step::Give(command) => Ok(Some(command.copy(alloc)?)),
        Step::Make(path, target) => {
            let value = value_at(alloc, tree, path)?;
            Ok(Command::new(target.copy(alloc)?, Value::Empty, value).ok())
        }
        Step::Clear(path) => {
            let value = value_at(alloc, tree, path)?;
            Ok(Command::new(path.copy(alloc)?, value, Value::Empty).ok())
        }
    }
}
