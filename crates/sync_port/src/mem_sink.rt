//! A sink in memory, which takes so many bytes.

ghost use Rattle.std.specs.Prelude.{◌≡◌, ◌≢◌, ◌↔◌, ◌-◌, ◌<◌, ◌≤◌, ◌+◌, [], Some, false, length, min, vec_len, vec_capacity, OnErr, IsErr, IfOk, IsTrue, is_ok, if◌then◌else◌};

use crate::{Sink, SinkFailed};
use std::alloc::Global;
use sync_path::NoMemory;

/// A sink in memory, whose contents are known.
#[derive(Drop)]
pub struct MemSink {
    bytes: Vec<u8>,
    capacity: usize,
    flushed: usize,
    flush_fails: bool,
    faults: u64,
    ghost within: { vec_len bytes ≤ capacity },
    ghost has_space: { capacity ≤ vec_capacity bytes },
}

impl MemSink {
    ghost use Rattle.sync_port.specs.InMemory.{bytes_written, bytes_flushed, capacity_of, flushes_fail, sink_faults};

    /// A sink that takes `space` bytes in all, and whose flushes all fail or all succeed. It takes the memory
    /// for its bytes at once.
    pub fn new(alloc: Global, space: usize, flush_fails: bool) -> Result<MemSink, NoMemory>
        ensures written { IfOk result (λ s. bytes_written s ≡ []) }
        ensures flushed { IfOk result (λ s. bytes_flushed s ≡ 0) }
        ensures capacity { IfOk result (λ s. capacity_of s ≡ space) }
        ensures flush_fails { IfOk result (λ s. flushes_fail s ≡ flush_fails) }
        ensures faults { IfOk result (λ s. sink_faults s ≡ 0) }
    {
        let bytes = Vec::with_capacity(alloc, space)?;
        Ok(MemSink {
            bytes,
            capacity: space,
            flushed: 0,
            flush_fails,
            faults: 0,
        })
    }

    /// The bytes written so far.
    pub fn bytes(&self) -> &[u8]
        ensures { result.now ≡ bytes_written self.now }
    {
        &self.bytes
    }
}

impl Sink for MemSink {
    ghost use Rattle.sync_port.specs.States.{next_number};
    ghost use Rattle.sync_port.specs.Ports.{SinkFaults, WritesSome, Writes, Flushes};
    ghost use Rattle.sync_port.specs.InMemory.{bytes_written, capacity_of, flushes_fail, sink_faults, sink_contents, sink_state};

    ghost sink = { sink_state };

    fn write(&mut self, piece: &[u8]) -> Result<usize, SinkFailed>
        ensures some { WritesSome piece.now result }
        ensures faults { SinkFaults result (sink_state self.old) (sink_state self.new) }
        ensures contents { Writes piece.now result (sink_contents self.old)
            (sink_contents self.new) }
        ensures failed { IsErr result ↔ ((0 < length piece.now) ×
            (length (bytes_written self.old) ≡ capacity_of self.old)) }
        ensures count { IfOk result (λ count. count ≡ min
            (capacity_of self.old - length (bytes_written self.old)) (length piece.now)) }
        ensures counted { sink_faults self.new ≡
            (if is_ok result then sink_faults self.old else next_number (sink_faults self.old)) }
        ensures capacity { capacity_of self.new ≡ capacity_of self.old }
        ensures flush_fails { flushes_fail self.new ≡ flushes_fail self.old }
    {
        let count = (self.capacity - self.bytes.len()).min(piece.len());
        if count == 0 && !piece.is_empty() {
            self.faults = self.faults.saturating_add(1);
            return Err(SinkFailed);
        }
        self.bytes.extend_from_slice(&piece[..count]).unwrap();
        Ok(count)
    }

    fn flush(&mut self) -> Result<(), SinkFailed>
        ensures faults { SinkFaults result (sink_state self.old) (sink_state self.new) }
        ensures contents { Flushes result (sink_contents self.old) (sink_contents self.new) }
        ensures failed { IsErr result ↔ IsTrue (flushes_fail self.old) }
        ensures counted { sink_faults self.new ≡
            (if is_ok result then sink_faults self.old else next_number (sink_faults self.old)) }
        ensures capacity { capacity_of self.new ≡ capacity_of self.old }
        ensures flush_fails { flushes_fail self.new ≡ flushes_fail self.old }
    {
        if self.flush_fails {
            self.faults = self.faults.saturating_add(1);
            return Err(SinkFailed);
        }
        self.flushed = self.bytes.len();
        Ok(())
    }
}
