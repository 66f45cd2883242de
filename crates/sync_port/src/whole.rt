//! Reading a file, piece by piece and as a whole.

ghost use Rattle.std.specs.Prelude.{◌≡◌, ◌+◌, ◌<◌, ◌≤◌, IfOk, length, vec_len};
ghost use Rattle.sync_port.specs.States.{IfKnown};
ghost use Rattle.sync_port.specs.Ports.{Reads, ReadFaults};
ghost use Rattle.sync_port.specs.Whole.{ReadsWhole, WholeFaults};

use crate::{Files, PortFault, WholeFault};
use std::alloc::Global;

/// How many bytes are asked for at a time.
pub const PIECE: usize = 65536;

/// Reads the file under the name, as a whole. `limit` is the number of bytes that it may have at most.
///
/// `ReadFault` comes only where a fault was counted or no file has the name, `TooLarge` exactly where no call failed
/// and the file has more than `limit` bytes, and `Memory` where memory ran out. The file is opened once. Whatever is
/// answered, at most one byte past the limit is read of it, and none of another.
pub fn read_whole<F: Files>(
    alloc: Global,
    files: &mut F,
    name: &str,
    limit: usize,
) -> Result<Vec<u8>, WholeFault>
    ensures faults { WholeFaults name.now result (F.files files.old) (F.files files.new) }
    ensures within { IfOk result (λ whole. vec_len whole ≤ limit) }
    ensures contents { IfKnown (F.files files.old) (F.files files.new)
        (ReadsWhole name.now limit result) }
{
    files.open(name)?;
    let mut buffer = [0u8; PIECE];
    let mut whole = Vec::new(alloc);
    'pieces: while whole.len() <= limit {
        let count = read_piece(files, &mut buffer, whole.len(), limit)?;
        if count == 0 {
            return Ok(whole);
        }
        whole.extend_from_slice(&buffer[..count])?;
    }
    Err(WholeFault::TooLarge)
}

/// Reads the next piece of the open file into the buffer, from its first byte on, and gives its length, which is 0 only
/// at the file's end. `taken` bytes of the file came before, and with this piece they are at most one more than `limit`.
pub fn read_piece<F: Files>(
    files: &mut F,
    buffer: &mut [u8],
    taken: usize,
    limit: usize,
) -> Result<usize, PortFault>
    requires within { taken ≤ limit }
    requires space { 0 < length buffer.old }
    ensures bound { IfOk result (λ count. count ≤ length buffer.new) }
    ensures limit { IfOk result (λ count. taken + count ≤ limit + 1) }
    ensures length { length buffer.new ≡ length buffer.old }
    ensures faults { ReadFaults result (F.files files.old) (F.files files.new) }
    ensures contents { IfKnown (F.files files.old) (F.files files.new) (Reads buffer.new result) }
{
    let most = (limit - taken).min(buffer.len() - 1) + 1;
    files.read(&mut buffer[..most])
}
