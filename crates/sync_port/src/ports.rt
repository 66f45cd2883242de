//! What files and sinks are to the rest of the program.

ghost use Rattle.std.specs.Prelude.{◌≤◌, ℕ, IfOk, length};
ghost use Rattle.sync_port.specs.States.{PortState, IfKnown};
ghost use Rattle.sync_port.specs.Ports.{FilesState, SinkState, Opens, OpenFaults, Reads, ReadFaults, SinkFaults, WritesSome, Writes, Flushes};

use crate::{PortFault, SinkFailed};

/// Files that are read, one at a time.
///
/// `files` is what is known of the object: its contents, if they are known, which are the bytes under each name, the
/// name of the open file and the bytes still to come of it, how often `open` was called, how many bytes were read, how
/// many since the last call of `open`, and for each name the most after one `open` of it; and its count of faults. What
/// is held never changes, and contents that are known go on being known. The count never falls; where it stands at
/// `u64::MAX`, a refused call passes for one that was counted.
pub trait Files {
    ghost files: { Self → FilesState };

    /// Opens the file under the name, in place of the one that was open.
    ///
    /// After `Ok` its bytes are to come; after a refusal no file is open and nothing is to come. `Ok` leaves the count
    /// of faults. `Failed` comes only where a fault was counted or no file has the name, and then the count stays.
    fn open(&mut self, name: &str) -> Result<(), PortFault>
        ensures faults { OpenFaults name.now result (files self.old) (files self.new) }
        ensures contents { IfKnown (files self.old) (files self.new) (Opens name.now result) };

    /// Puts the next bytes of the open file into the piece, from its first byte on, and gives their number: at most
    /// the piece's length, and 0 only where the piece is empty or nothing is to come.
    ///
    /// After a refusal the same bytes are to come. `Ok` leaves the count of faults, and `Failed` comes only where a
    /// fault was counted.
    fn read(&mut self, piece: &mut [u8]) -> Result<usize, PortFault>
        ensures bound { IfOk result (λ count. count ≤ length piece.new) }
        ensures faults { ReadFaults result (files self.old) (files self.new) }
        ensures contents { IfKnown (files self.old) (files self.new) (Reads piece.new result) };
}

/// A place where bytes go.
///
/// `sink` is what is known of the object: its contents, if they are known, which are the bytes written so far and how
/// many of them were there at the last flush that was not refused; and its count of faults. Both are as for `Files`.
/// A sink is never out of memory.
pub trait Sink {
    ghost sink: { Self → SinkState };

    /// Appends the first bytes of the piece, and gives their number: at least 1 where the piece is not empty.
    ///
    /// After a refusal nothing was appended. `Ok` leaves the count of faults, and a refusal was counted.
    fn write(&mut self, piece: &[u8]) -> Result<usize, SinkFailed>
        ensures some { WritesSome piece.now result }
        ensures faults { SinkFaults result (sink self.old) (sink self.new) }
        ensures contents { IfKnown (sink self.old) (sink self.new) (Writes piece.now result) };

    /// Sees to it that what was written is at its place.
    ///
    /// After a refusal it is open how much of it is. `Ok` leaves the count of faults, and a refusal was counted.
    fn flush(&mut self) -> Result<(), SinkFailed>
        ensures faults { SinkFaults result (sink self.old) (sink self.new) }
        ensures contents { IfKnown (sink self.old) (sink self.new) (Flushes result) };
}
