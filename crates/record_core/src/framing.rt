//! The first line of a log, and its end line.

ghost use Rattle.std.specs.Prelude.{◌≡◌, ◌⊎◌, ◌≤◌, IfErr, IfOk, IsErrOf, OnOk};
ghost use Rattle.log_text.specs.Frame.{ended, end_line};
ghost use Rattle.sync_port.specs.States.{FaultCounted, IfKnown};
ghost use Rattle.record_core.specs.Recording.{Begins, Closes};
ghost use Rattle.record_core.specs.Texts.{first_line};

use crate::RecordFault;
use crate::stepping::write_line;
use log_text::frame::print_end;
use std::alloc::Global;
use sync_command::Version;
use sync_path::NoMemory;
use sync_port::Sink;

/// The first line of a log and its line feed.
fn first_line(version: Version) -> &'static [u8]
    ensures { result.now ≡ first_line version }
{
    match version {
        Version::One => b"treelog 1\n",
        Version::Two => b"treelog 2\n",
    }
}

/// Writes the first line and flushes it.
pub(crate) fn open_log<O: Sink>(sink: &mut O, version: Version) -> Result<(), RecordFault>
    ensures later { (O.sink sink.old).faults ≤ (O.sink sink.new).faults }
    ensures quiet { OnOk result ((O.sink sink.new).faults ≡ (O.sink sink.old).faults) }
    ensures write { IsErrOf result RecordFault.WriteFault →
        FaultCounted (O.sink sink.old) (O.sink sink.new) }
    ensures only { IfErr result (λ e. e ≡ RecordFault.WriteFault) }
    ensures contents { IfKnown (O.sink sink.old) (O.sink sink.new) (Begins version result) }
{
    match write_line(sink, first_line(version)) {
        Err(_) => Err(RecordFault::WriteFault),
        Ok(()) => Ok(()),
    }
}

/// The end line of a log of so many commands.
pub(crate) fn end_line_of(alloc: Global, count: u64) -> Result<Vec<u8>, NoMemory>
    ensures { IfOk result (λ line. line.items ≡ ended (end_line count)) }
{
    let mut line = Vec::new(alloc);
    print_end(&mut line, count)?;
    Ok(line)
}

/// Writes the end line of a log of so many commands and flushes it.
pub(crate) fn close_log<O: Sink>(alloc: Global, sink: &mut O, count: u64) -> Result<(), RecordFault>
    ensures later { (O.sink sink.old).faults ≤ (O.sink sink.new).faults }
    ensures quiet { OnOk result ((O.sink sink.new).faults ≡ (O.sink sink.old).faults) }
    ensures write { IsErrOf result RecordFault.WriteFault →
        FaultCounted (O.sink sink.old) (O.sink sink.new) }
    ensures fault { IfErr result
        (λ e. (e ≡ RecordFault.WriteFault) ⊎ (e ≡ RecordFault.Memory)) }
    ensures not_failed { IsErrOf result RecordFault.TreeFailed → ⊥ }
    ensures not_denied { IsErrOf result RecordFault.TreeDenied → ⊥ }
    ensures contents { IfKnown (O.sink sink.old) (O.sink sink.new) (Closes count result) }
{
    let Ok(line) = end_line_of(alloc, count) else {
        return Err(RecordFault::Memory);
    };
    match write_line(sink, &line) {
        Err(_) => Err(RecordFault::WriteFault),
        Ok(()) => Ok(()),
    }
}
