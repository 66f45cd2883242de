//! A script, recorded operation by operation.

ghost use Rattle.std.specs.Prelude.{◌≡◌, ◌⊎◌, ◌≤◌, ⊤, IsErrOf, OnErr};
ghost use Rattle.sync_port.specs.States.{FaultCounted, IfKnown};
ghost use Rattle.tree_port.specs.States.{IfTreeKnown, WhereKnown};
ghost use Rattle.record_core.specs.Recording.{HasCause, IfBothKnown};
ghost use Rattle.record_core.specs.Plans.{CarriesOutOp, OpGoesOn};
ghost use Rattle.record_core.specs.Outcomes.{AnswersAfter, CarriesOutOps, CarriesOutScript, ClosesAfter, OpsGoOn, RecordsScript, ScriptGoesOn};

use crate::framing::{close_log, open_log};
use crate::log_size::LogSize;
use crate::measuring::measure;
use crate::planning::plan;
use crate::walking::record_steps;
use crate::{Op, RecordFault};
use std::alloc::Global;
use sync_command::Version;
use sync_port::Sink;
use tree_port::Tree;

/// Records an operation: what it is refused for comes before its first command.
fn record_op<O: Sink>(
    alloc: Global,
    tree: &mut Box<dyn Tree>,
    sink: &mut O,
    version: Version,
    size: &mut LogSize,
    number: usize,
    op: &Op,
) -> Result<(), RecordFault>
    ensures cause { HasCause result
        (O.sink sink.old) (O.sink sink.new) (live tree.old) (live tree.new) }
    ensures never_denied { WhereKnown (live tree.old)
        (λ m. IsErrOf result RecordFault.TreeDenied → ⊥) }
    ensures tree { IfTreeKnown (live tree.old) (live tree.new)
        (CarriesOutOp version number op.now size.old size.new result) }
    ensures size { OnErr result (size.new ≡ size.old) }
    ensures recorded { IfBothKnown
        (O.sink sink.old) (O.sink sink.new) (live tree.old) (live tree.new)
        (OpGoesOn version number op.now size.old size.new result) }
{
    let steps = plan(alloc, tree, version, number, op)?;
    let next = measure(alloc, tree, *size, &steps)?;
    record_steps(alloc, tree, sink, &steps)?;
    *size = next;
    Ok(())
}

/// Records the operations up to the first that is refused or too large.
fn record_ops<O: Sink>(
    alloc: Global,
    tree: &mut Box<dyn Tree>,
    sink: &mut O,
    version: Version,
    size: &mut LogSize,
    script: &[Op],
) -> Result<(), RecordFault>
    ensures cause { HasCause result
        (O.sink sink.old) (O.sink sink.new) (live tree.old) (live tree.new) }
    ensures never_denied { WhereKnown (live tree.old)
        (λ m. IsErrOf result RecordFault.TreeDenied → ⊥) }
    ensures tree { IfTreeKnown (live tree.old) (live tree.new)
        (CarriesOutOps version script.now size.old size.new result) }
    ensures recorded { IfBothKnown
        (O.sink sink.old) (O.sink sink.new) (live tree.old) (live tree.new)
        (OpsGoOn version script.now size.old size.new result) }
{
    'ops: for place in 0..script.len() {
        record_op(alloc, tree, sink, version, size, place + 1, &script[place])?;
    }
    Ok(())
}

/// Why a recording ended early, after the log was closed where an operation was refused or too large.
fn close_after<O: Sink>(alloc: Global, sink: &mut O, count: u64, fault: RecordFault) -> RecordFault
    ensures later { (O.sink sink.old).faults ≤ (O.sink sink.new).faults }
    ensures write { result ≡ RecordFault.WriteFault → (fault ≡ RecordFault.WriteFault) ⊎
        FaultCounted (O.sink sink.old) (O.sink sink.new) }
    ensures failed { result ≡ RecordFault.TreeFailed → fault ≡ RecordFault.TreeFailed }
    ensures denied { result ≡ RecordFault.TreeDenied → fault ≡ RecordFault.TreeDenied }
    ensures answer { AnswersAfter fault result }
    ensures closed { IfKnown (O.sink sink.old) (O.sink sink.new) (ClosesAfter count fault result) }
{
    match fault {
        RecordFault::OpRefused { number, why } => match close_log(alloc, sink, count) {
            Ok(()) => RecordFault::OpRefused { number, why },
            Err(failed) => failed,
        },
        RecordFault::TooLarge => match close_log(alloc, sink, count) {
            Ok(()) => RecordFault::TooLarge,
            Err(failed) => failed,
        },
        other => other,
    }
}

/// Records the operations after the first line, and closes the log where it is to be closed.
fn record_opened<O: Sink>(
    alloc: Global,
    tree: &mut Box<dyn Tree>,
    version: Version,
    script: &[Op],
    sink: &mut O,
) -> Result<u64, RecordFault>
    ensures cause { HasCause result
        (O.sink sink.old) (O.sink sink.new) (live tree.old) (live tree.new) }
    ensures never_denied { WhereKnown (live tree.old)
        (λ m. IsErrOf result RecordFault.TreeDenied → ⊥) }
    ensures tree { IfTreeKnown (live tree.old) (live tree.new)
        (CarriesOutScript version script.now result) }
    ensures recorded { IfBothKnown
        (O.sink sink.old) (O.sink sink.new) (live tree.old) (live tree.new)
        (ScriptGoesOn version script.now result) }
{
    let mut size = LogSize::new();
    match record_ops(alloc, tree, sink, version, &mut size, script) {
        Ok(()) => match close_log(alloc, sink, size.commands as u64) {
            Ok(()) => Ok(size.commands as u64),
            Err(fault) => Err(fault),
        },
        Err(fault) => Err(close_after(alloc, sink, size.commands as u64, fault)),
    }
}

/// Carries out the script on the tree and records what it changes: the first line of a log, and then each command's
/// line, its flush, and only then the tree's change.
///
/// `Ok` gives the number of commands; the log is closed by its end line. `OpRefused` comes exactly where an operation
/// is refused on the tree as it is then, with its number and the first reason that applies, and `TooLarge` exactly
/// where an operation would take the log past 2^20 commands or past 2^28 bytes with its end line; both come before the
/// operation's first command, and the log of the operations before is closed. A fault of the tree or the sink comes
/// only where it was counted there, and `TreeDenied` never from a tree whose contents are known. After any refusal but
/// the first two the log is left open: its complete lines are those of a first part of the script's commands, and the
/// tree is the result of these, or of all but the last. Of a tree whose contents are known all this holds whatever is
/// known of the sink: after `Ok`, `OpRefused` and `TooLarge` the tree is the result of the operations before the end, and
/// after any other refusal that of a first part of the script's commands. `docs/MODEL.md` has the meaning of the
/// operations. There is no condition ("Boxes of trees" in `docs/DECISIONS.md`).
pub fn record<O: Sink>(
    alloc: Global,
    tree: &mut Box<dyn Tree>,
    version: Version,
    script: &[Op],
    sink: &mut O,
) -> Result<u64, RecordFault>
    requires { ⊤ }
    ensures cause { HasCause result
        (O.sink sink.old) (O.sink sink.new) (live tree.old) (live tree.new) }
    ensures never_denied { WhereKnown (live tree.old)
        (λ m. IsErrOf result RecordFault.TreeDenied → ⊥) }
    ensures tree { IfTreeKnown (live tree.old) (live tree.new)
        (CarriesOutScript version script.now result) }
    ensures recorded { IfBothKnown
        (O.sink sink.old) (O.sink sink.new) (live tree.old) (live tree.new)
        (RecordsScript version script.now result) }
{
    match open_log(sink, version) {
        Err(fault) => Err(fault),
        Ok(()) => record_opened(alloc, tree, version, script, sink),
    }
}
