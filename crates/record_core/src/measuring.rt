//! How large a log is.

ghost use Rattle.std.specs.Prelude.{List, [], ◌∷◌, All, IsErrOf};
ghost use Rattle.sync_command.specs.declared.values.Version.{Version};
ghost use Rattle.sync_command.specs.Changes.{Change};
ghost use Rattle.sync_command.specs.Maps.{at};
ghost use Rattle.tree_port.specs.States.{WhereKnown};
ghost use Rattle.record_core.specs.Reading.{ReadsTree};
ghost use Rattle.record_core.specs.Steps.{IsFull, change_of, changes_of};
ghost use Rattle.record_core.specs.Plans.{AddsUp, IsSizeOf, Measures, OfEachLog};

use crate::framing::end_line_of;
use crate::log_size::LogSize;
use crate::reading::command_of;
use crate::stepping::line_of;
use crate::steps::Step;
use crate::{MAX_LOG_LEN, RecordFault};
use std::alloc::Global;
use sync_command::Command;
use tree_port::Tree;

/// The size with one command more.
fn add_command(alloc: Global, size: LogSize, command: &Command) -> Result<LogSize, RecordFault>
    ensures adds { OfEachLog (AddsUp size (command.now ∷ [])) size result }
    ensures not_failed { IsErrOf result RecordFault.TreeFailed → ⊥ }
    ensures not_denied { IsErrOf result RecordFault.TreeDenied → ⊥ }
    ensures not_written { IsErrOf result RecordFault.WriteFault → ⊥ }
{
    let Ok(line) = line_of(alloc, command) else {
        return Err(RecordFault::Memory);
    };
    let length = line.as_slice().len();
    match size.with_line(length) {
        Some(next) => Ok(next),
        None => Err(RecordFault::TooLarge),
    }
}

/// The size with the command of a step more.
fn add_step(
    alloc: Global,
    tree: &mut Box<dyn Tree>,
    size: LogSize,
    step: &Step,
) -> Result<LogSize, RecordFault>
    requires { WhereKnown (live tree.old) (λ m. IsFull (at m) step.now) }
    ensures cause { ReadsTree result (live tree.old) (live tree.new) }
    ensures never_denied { WhereKnown (live tree.old)
        (λ m. IsErrOf result RecordFault.TreeDenied → ⊥) }
    ensures known { WhereKnown (live tree.old)
        (λ m. OfEachLog (AddsUp size (change_of (at m) step.now ∷ [])) size result) }
{
    match command_of(alloc, tree, step) {
        Err(fault) => Err(fault),
        Ok(None) => Ok(size),
        Ok(Some(command)) => add_command(alloc, size, &command),
    }
}

/// The size with the commands of the steps more.
fn add_steps(
    alloc: Global,
    tree: &mut Box<dyn Tree>,
    size: LogSize,
    steps: &[Step],
) -> Result<LogSize, RecordFault>
    requires { WhereKnown (live tree.old) (λ m. All (IsFull (at m)) steps.now) }
    ensures cause { ReadsTree result (live tree.old) (live tree.new) }
    ensures never_denied { WhereKnown (live tree.old)
        (λ m. IsErrOf result RecordFault.TreeDenied → ⊥) }
    ensures known { WhereKnown (live tree.old)
        (λ m. OfEachLog (AddsUp size (changes_of (at m) steps.now)) size result) }
{
    let mut next = size;
    'steps: for step in steps {
        next = add_step(alloc, tree, next, step)?;
    }
    Ok(next)
}

/// The size, where the log with its end line is within the limits.
fn within_limits(alloc: Global, size: LogSize) -> Result<LogSize, RecordFault>
    ensures limits { (version : Version) (cs : List Change) → IsSizeOf version cs size →
        Measures size [] version cs result }
    ensures not_failed { IsErrOf result RecordFault.TreeFailed → ⊥ }
    ensures not_denied { IsErrOf result RecordFault.TreeDenied → ⊥ }
    ensures not_written { IsErrOf result RecordFault.WriteFault → ⊥ }
{
    let Ok(end) = end_line_of(alloc, size.commands as u64) else {
        return Err(RecordFault::Memory);
    };
    let length = end.as_slice().len() as u64;
    if length > MAX_LOG_LEN - size.bytes {
        return Err(RecordFault::TooLarge);
    }
    Ok(size)
}

/// The size with the commands of the steps more. `TooLarge` comes where the log with its end line would be
/// past the limits then.
pub(crate) fn measure(
    alloc: Global,
    tree: &mut Box<dyn Tree>,
    size: LogSize,
    steps: &[Step],
) -> Result<LogSize, RecordFault>
    requires { WhereKnown (live tree.old) (λ m. All (IsFull (at m)) steps.now) }
    ensures cause { ReadsTree result (live tree.old) (live tree.new) }
    ensures never_denied { WhereKnown (live tree.old)
        (λ m. IsErrOf result RecordFault.TreeDenied → ⊥) }
    ensures known { WhereKnown (live tree.old)
        (λ m. OfEachLog (Measures size (changes_of (at m) steps.now)) size result) }
{
    match add_steps(alloc, tree, size, steps) {
        Err(fault) => Err(fault),
        Ok(next) => within_limits(alloc, next),
    }
}
