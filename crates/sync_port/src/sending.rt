//! Writing a text as a whole.

ghost use Rattle.sync_path.specs.Escapes.{escaped};
ghost use Rattle.sync_path.specs.Paths.{path_text};
ghost use Rattle.sync_port.specs.States.{IfKnown};
ghost use Rattle.sync_port.specs.Ports.{SinkFaults};
ghost use Rattle.sync_port.specs.Sending.{Sends, Gathers};

use crate::{Sink, SinkFailed};
use arrayvec::ArrayString;
use sync_path::{Path, escaped_pieces};

/// How many bytes are gathered before they are sent.
const BLOCK: usize = 1024;

/// Appends all the bytes to the sink. After a refusal, which was counted, the first of them were appended. What was
/// flushed is as before. It takes no memory.
pub fn send<O: Sink>(sink: &mut O, bytes: &[u8]) -> Result<(), SinkFailed>
    ensures faults { SinkFaults result (O.sink sink.old) (O.sink sink.new) }
    ensures contents { IfKnown (O.sink sink.old) (O.sink sink.new) (Sends bytes.now result) }
{
    let mut sent = 0;
    'writes: while sent < bytes.len() {
        sent += sink.write(&bytes[sent..])?;
    }
    Ok(())
}

/// Appends the path's text to the sink, as `send` does its bytes. It takes no memory.
pub fn send_path<O: Sink>(sink: &mut O, path: &Path) -> Result<(), SinkFailed>
    ensures faults { SinkFaults result (O.sink sink.old) (O.sink sink.new) }
    ensures contents { IfKnown (O.sink sink.old) (O.sink sink.new)
        (Sends (path_text path.now) result) }
{
    let mut gathered = ArrayString::new();
    let depth = path.depth();
    gather_name(sink, &mut gathered, path.name_at(0))?;
    'names: for place in 1..depth {
        gather(sink, &mut gathered, "/")?;
        gather_name(sink, &mut gathered, path.name_at(place))?;
    }
    send(sink, gathered.as_str().as_bytes())
}

/// Gathers the escaped text of the name.
fn gather_name<O: Sink>(
    sink: &mut O,
    gathered: &mut ArrayString<BLOCK>,
    name: &[u8],
) -> Result<(), SinkFailed>
    ensures faults { SinkFaults result (O.sink sink.old) (O.sink sink.new) }
    ensures contents { IfKnown (O.sink sink.old) (O.sink sink.new)
        (Gathers gathered.old.bytes (escaped name.now) gathered.new.bytes result) }
{
    'pieces: for piece in escaped_pieces(name) {
        gather(sink, gathered, piece)?;
    }
    Ok(())
}

/// Gathers the text, and sends what was gathered where there is no space for it.
fn gather<O: Sink>(
    sink: &mut O,
    gathered: &mut ArrayString<BLOCK>,
    text: &str,
) -> Result<(), SinkFailed>
    ensures faults { SinkFaults result (O.sink sink.old) (O.sink sink.new) }
    ensures contents { IfKnown (O.sink sink.old) (O.sink sink.new)
        (Gathers gathered.old.bytes text.now gathered.new.bytes result) }
{
    if gathered.try_push_str(text).is_ok() {
        return Ok(());
    }
    send(sink, gathered.as_str().as_bytes())?;
    gathered.clear();
    if gathered.try_push_str(text).is_ok() {
        return Ok(());
    }
    send(sink, text.as_bytes())
}
