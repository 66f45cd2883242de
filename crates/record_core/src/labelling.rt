//! Whether the commands of an operation have labels that the log's version lacks.

ghost use Rattle.std.specs.Prelude.{◌≡◌};
ghost use Rattle.sync_command.specs.Values.{has_label};
ghost use Rattle.sync_command.specs.Maps.{at};
ghost use Rattle.tree_port.specs.States.{WhereKnown};
ghost use Rattle.record_core.specs.Meanings.{has_foreign_label, is_labelled};
ghost use Rattle.record_core.specs.Reading.{Finds, ReadsTree};
ghost use Rattle.record_core.specs.Steps.{change_of, changes_of};

use crate::RecordFault;
use crate::reading::{kind_at, label_at};
use crate::steps::Step;
use std::alloc::Global;
use sync_command::{Kind, Value, Version};
use sync_path::Path;
use tree_port::Tree;

/// Whether the value is a directory with a label that is not empty.
fn has_label(value: &Value) -> bool
    ensures { result ≡ has_label value.now }
{
    match value {
        Value::Dir(label) => !label.as_slice().is_empty(),
        _ => false,
    }
}

/// Whether the node is a directory with a label that is not empty.
fn has_label_at(alloc: Global, tree: &mut Box<dyn Tree>, path: &Path) -> Result<bool, RecordFault>
    ensures cause { ReadsTree result (live tree.old) (live tree.new) }
    ensures known { WhereKnown (live tree.old)
        (λ m. Finds (λ b. b ≡ has_label (at m path.now)) result) }
{
    match kind_at(tree, path) {
        Err(fault) => Err(fault),
        Ok(Kind::Dir) => match label_at(alloc, tree, path) {
            Err(fault) => Err(fault),
            Ok(label) => Ok(!label.as_slice().is_empty()),
        },
        Ok(_) => Ok(false),
    }
}

/// Whether the step's command has a label that is not empty.
fn step_has_label(alloc: Global, tree: &mut Box<dyn Tree>, step: &Step) -> Result<bool, RecordFault>
    ensures cause { ReadsTree result (live tree.old) (live tree.new) }
    ensures known { WhereKnown (live tree.old)
        (λ m. Finds (λ b. b ≡ has_foreign_label Version.One (change_of (at m) step.now)) result) }
{
    match step {
        Step::Give(command) => Ok(has_label(command.old()) || has_label(command.new_value())),
        Step::Make(path, _) => has_label_at(alloc, tree, path),
        Step::Clear(path) => has_label_at(alloc, tree, path),
    }
}

/// Whether some step's command has a label that is not empty.
fn any_has_label(
    alloc: Global,
    tree: &mut Box<dyn Tree>,
    steps: &[Step],
) -> Result<bool, RecordFault>
    ensures cause { ReadsTree result (live tree.old) (live tree.new) }
    ensures known { WhereKnown (live tree.old)
        (λ m. Finds (λ b. b ≡ is_labelled Version.One (changes_of (at m) steps.now)) result) }
{
    'steps: for step in steps {
        if step_has_label(alloc, tree, step)? {
            return Ok(true);
        }
    }
    Ok(false)
}

/// Whether some step's command has a label that texts of this version lack.
pub(crate) fn is_labelled(
    alloc: Global,
    tree: &mut Box<dyn Tree>,
    version: Version,
    steps: &[Step],
) -> Result<bool, RecordFault>
    ensures cause { ReadsTree result (live tree.old) (live tree.new) }
    ensures known { WhereKnown (live tree.old)
        (λ m. Finds (λ b. b ≡ is_labelled version (changes_of (at m) steps.now)) result) }
{
    match version {
        Version::One => any_has_label(alloc, tree, steps),
        Version::Two => Ok(false),
    }
}
