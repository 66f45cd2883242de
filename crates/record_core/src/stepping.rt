//! One command: its line, the flush, and only then the change of the tree.

ghost use Rattle.std.specs.Prelude.{◌≡◌, ◌∷◌, [], IfOk};
ghost use Rattle.sync_command.specs.Maps.{at};
ghost use Rattle.sync_port.specs.States.{IfKnown};
ghost use Rattle.sync_port.specs.Ports.{SinkFaults};
ghost use Rattle.tree_port.specs.States.{IfTreeKnown, WhereKnown};
ghost use Rattle.record_core.specs.Changing.{CanChange, CanRecord};
ghost use Rattle.record_core.specs.Recording.{CarriesOut, IfBothKnown, GoesOn, HasCause, StopsInside, WritesLine};
ghost use Rattle.record_core.specs.Texts.{line_of};

use crate::RecordFault;
use crate::changing::change;
use std::alloc::Global;
use sync_command::Command;
use sync_path::NoMemory;
use sync_port::{Sink, SinkFailed, send};
use tree_port::{Tree, TreeFault};

/// The command's line in a log.
pub(crate) fn line_of(alloc: Global, command: &Command) -> Result<Vec<u8>, NoMemory>
    ensures { IfOk result (λ line. line.items ≡ line_of command.now) }
{
    let mut line = Vec::new(alloc);
    command.print_to(&mut line)?;
    line.push(b'\n')?;
    Ok(line)
}

/// Writes the line and flushes it.
pub(crate) fn write_line<O: Sink>(sink: &mut O, line: &[u8]) -> Result<(), SinkFailed>
    ensures faults { SinkFaults result (O.sink sink.old) (O.sink sink.new) }
    ensures contents { IfKnown (O.sink sink.old) (O.sink sink.new) (WritesLine line.now result) }
{
    send(sink, line)?;
    sink.flush()?;
    Ok(())
}

/// Writes the command's line, flushes it, and then changes the tree.
pub(crate) fn record_command<O: Sink>(
    alloc: Global,
    tree: &mut Box<dyn Tree>,
    sink: &mut O,
    command: &Command,
) -> Result<(), RecordFault>
    requires { WhereKnown (live tree.old)
        (λ m. CanChange command.now.old command.now.new (at m) command.now.node) }
    ensures cause { HasCause result
        (O.sink sink.old) (O.sink sink.new) (live tree.old) (live tree.new) }
    ensures stops { WhereKnown (live tree.old) (λ m. StopsInside result) }
    ensures tree { IfTreeKnown (live tree.old) (live tree.new)
        (CarriesOut (command.now ∷ []) result) }
    ensures recorded { IfBothKnown
        (O.sink sink.old) (O.sink sink.new) (live tree.old) (live tree.new)
        (GoesOn (command.now ∷ []) result) }
{
    let Ok(line) = line_of(alloc, command) else {
        return Err(RecordFault::Memory);
    };
    match write_line(sink, &line) {
        Err(_) => Err(RecordFault::WriteFault),
        Ok(()) => match change(tree, command) {
            Ok(()) => Ok(()),
            Err(TreeFault::Failed) => Err(RecordFault::TreeFailed),
            Err(TreeFault::Denied) => Err(RecordFault::TreeDenied),
            Err(TreeFault::Memory) => Err(RecordFault::Memory),
        },
    }
}
