//! Files and streams of the system. Nothing is known of their contents.

ghost use Rattle.std.specs.Prelude.{◌≡◌, ◌≤◌, IfOk, length, is_ok, if◌then◌else◌};
ghost use Rattle.sync_port.specs.States.{next_number, unknown_but};
ghost use Rattle.sync_port.specs.Ports.{OpenFaults, ReadFaults, SinkFaults, WritesSome};

use crate::{Files, PortFault, Sink, SinkFailed};
use std::alloc::Global;
use std::fs;
use std::io::{Read, Write};
use std::marker::Model;

/// The files of a runtime. They are seen as their count of faults, which rises at each error, up to `u64::MAX`.
pub struct HostFiles<R: std::rt::Files + Clone + Drop> {
    rt: R,
    opened: Option<R::File>,
    faults: u64,
}

impl<R: std::rt::Files + Clone + Drop> Model for HostFiles<R> {
    ghost use Rattle.std.specs.Prelude.{ℕ};

    ghost Value = { ℕ };

    ghost view = { λ s. s.faults };
}

impl<R: std::rt::Files + Clone + Drop> Drop for HostFiles<R> {
    fn drop(self) {
        let HostFiles {
            rt: _,
            opened: _,
            faults: _,
        } = self;
    }
}

impl<R: std::rt::Files + Clone + Drop> HostFiles<R> {
    /// The files of the runtime `rt`, which is kept. `_alloc` is not used: opening and reading take no memory of it.
    pub fn new(rt: R, _alloc: Global) -> HostFiles<R>
        ensures { result ≡ 0 }
    {
        HostFiles {
            rt,
            opened: None,
            faults: 0,
        }
    }
}

impl<R: std::rt::Files + Clone + Drop> Files for HostFiles<R> {
    ghost files = { unknown_but };

    fn open(&mut self, name: &str) -> Result<(), PortFault>
        ensures faults { OpenFaults name.now result (unknown_but self.old) (unknown_but self.new) }
        ensures counted { self.new ≡ (if is_ok result then self.old else next_number self.old) }
    {
        self.opened = None;
        match fs::open(&self.rt, name) {
            Ok(file) => {
                self.opened = Some(file);
                Ok(())
            }
            Err(_) => {
                self.faults = self.faults.saturating_add(1);
                Err(PortFault::Failed)
            }
        }
    }

    fn read(&mut self, piece: &mut [u8]) -> Result<usize, PortFault>
        ensures bound { IfOk result (λ count. count ≤ length piece.new) }
        ensures faults { ReadFaults result (unknown_but self.old) (unknown_but self.new) }
        ensures counted { self.new ≡ (if is_ok result then self.old else next_number self.old) }
    {
        let Some(file) = &mut self.opened else {
            return Ok(0);
        };
        match file.read(piece) {
            Ok(count) => Ok(count),
            Err(_) => {
                self.faults = self.faults.saturating_add(1);
                Err(PortFault::Failed)
            }
        }
    }
}

/// A stream of the system, as standard output. It is seen as its count of faults, which rises at each error and at each
/// write that takes nothing of a piece that is not empty, up to `u64::MAX`.
#[derive(Drop)]
pub struct HostSink<W> {
    stream: W,
    faults: u64,
}

impl<W> Model for HostSink<W> {
    ghost use Rattle.std.specs.Prelude.{ℕ};

    ghost Value = { ℕ };

    ghost view = { λ s. s.faults };
}

impl<W: Write + Drop> HostSink<W> {
    /// The stream as a sink. It is kept.
    pub fn new(stream: W) -> HostSink<W>
        ensures { result ≡ 0 }
    {
        HostSink { stream, faults: 0 }
    }
}

impl<W: Write + Drop> Sink for HostSink<W> {
    ghost sink = { unknown_but };

    fn write(&mut self, piece: &[u8]) -> Result<usize, SinkFailed>
        ensures some { WritesSome piece.now result }
        ensures faults { SinkFaults result (unknown_but self.old) (unknown_but self.new) }
        ensures counted { self.new ≡ (if is_ok result then self.old else next_number self.old) }
    {
        match self.stream.write(piece) {
            Ok(count) if count > 0 || piece.is_empty() => Ok(count),
            _ => {
                self.faults = self.faults.saturating_add(1);
                Err(SinkFailed)
            }
        }
    }

    fn flush(&mut self) -> Result<(), SinkFailed>
        ensures faults { SinkFaults result (unknown_but self.old) (unknown_but self.new) }
        ensures counted { self.new ≡ (if is_ok result then self.old else next_number self.old) }
    {
        match self.stream.flush() {
            Ok(()) => Ok(()),
            Err(_) => {
                self.faults = self.faults.saturating_add(1);
                Err(SinkFailed)
            }
        }
    }
}
