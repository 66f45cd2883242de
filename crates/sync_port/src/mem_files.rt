//! Files in memory, whose calls fail at given numbers.

ghost use Rattle.std.specs.Prelude.{◌≡◌, ◌≢◌, ◌≤◌, ◌||◌, ◌&&◌, List, ℕ, [], None, Some, length, min, OnOk, OnErr, IfOk, is_some, is_none, if◌then◌else◌};

use crate::entries::{Entry, bytes_from, bytes_in, copy_first, counted, note_read, place_of, put};
use crate::{Files, PortFault};
use std::alloc::Global;
use sync_path::NoMemory;

/// Files in memory, whose contents are known.
///
/// The calls of `open` and `read` are counted together from 1, up to `u64::MAX`, where the number stays. A call
/// answers `Failed` exactly where its number was listed or it opens a name that is not held, and never `Memory`.
#[derive(Drop)]
pub struct MemFiles {
    alloc: Global,
    entries: Vec<Entry>,
    opened: Option<usize>,
    at: usize,
    fails: Vec<u64>,
    calls: u64,
    opens: u64,
    taken: u64,
    since_open: u64,
    faults: u64,
}

impl MemFiles {
    ghost use Rattle.sync_port.specs.InMemory.{names_held, name_opened, bytes_to_come, opens_counted, bytes_taken, bytes_since_open, most_taken, file_contents, calls_that_fail, calls_made, faults_counted};

    /// Files that hold nothing. `fails` are the numbers of the calls that fail.
    pub fn new(alloc: Global, fails: Vec<u64>) -> MemFiles
        ensures held { (name : List ℕ) → names_held result name ≡ None }
        ensures current { name_opened result ≡ None }
        ensures rest { bytes_to_come result ≡ [] }
        ensures fails { calls_that_fail result ≡ fails.items }
        ensures calls { calls_made result ≡ 0 }
        ensures opened { opens_counted result ≡ 0 }
        ensures taken { bytes_taken result ≡ 0 }
        ensures since_open { bytes_since_open result ≡ 0 }
        ensures most { (name : List ℕ) → most_taken result name ≡ 0 }
        ensures faults { faults_counted result ≡ 0 }
    {
        MemFiles {
            alloc,
            entries: Vec::new(alloc),
            opened: None,
            at: 0,
            fails,
            calls: 0,
            opens: 0,
            taken: 0,
            since_open: 0,
            faults: 0,
        }
    }

    /// Puts the bytes under the name, in place of any that it had. After `Ok` no file is open; where
    /// memory ran out all is as before.
    pub fn add(&mut self, name: &str, bytes: &[u8]) -> Result<(), NoMemory>
        ensures put { OnOk result (names_held self.new name.now ≡ Some bytes.now) }
        ensures others { (other : List ℕ) → other ≢ name.now →
            names_held self.new other ≡ names_held self.old other }
        ensures current { OnOk result (name_opened self.new ≡ None) }
        ensures rest { OnOk result (bytes_to_come self.new ≡ []) }
        ensures unchanged { OnErr result (file_contents self.new ≡ file_contents self.old) }
        ensures fails { calls_that_fail self.new ≡ calls_that_fail self.old }
        ensures calls { calls_made self.new ≡ calls_made self.old }
        ensures opened { opens_counted self.new ≡ opens_counted self.old }
        ensures taken { bytes_taken self.new ≡ bytes_taken self.old }
        ensures since_open { bytes_since_open self.new ≡ bytes_since_open self.old }
        ensures most { (other : List ℕ) → most_taken self.new other ≡ most_taken self.old other }
        ensures faults { faults_counted self.new ≡ faults_counted self.old }
    {
        let bytes = Vec::from_slice(self.alloc, bytes)?;
        put(self.alloc, &mut self.entries, name, bytes)?;
        self.opened = None;
        self.at = 0;
        Ok(())
    }
}

impl Files for MemFiles {
    ghost use Rattle.sync_port.specs.States.{next_number};
    ghost use Rattle.sync_port.specs.Ports.{Opens, OpenFaults, Reads, ReadFaults};
    ghost use Rattle.sync_port.specs.InMemory.{names_held, bytes_to_come, calls_that_fail, calls_made, faults_counted, next_call_fails, file_contents, files_state};

    ghost files = { files_state };

    fn open(&mut self, name: &str) -> Result<(), PortFault>
        ensures faults { OpenFaults name.now result (files_state self.old) (files_state self.new) }
        ensures contents { Opens name.now result (file_contents self.old) (file_contents self.new) }
        ensures answer { result ≡ (if next_call_fails self.old ||
            is_none (names_held self.old name.now)
            then Err PortFault.Failed
            else Ok tt) }
        ensures counted { faults_counted self.new ≡
            (if next_call_fails self.old && is_some (names_held self.old name.now)
            then next_number (faults_counted self.old)
            else faults_counted self.old) }
        ensures calls { calls_made self.new ≡ next_number (calls_made self.old) }
        ensures fails { calls_that_fail self.new ≡ calls_that_fail self.old }
    {
        let fails = counted(&mut self.calls, &self.fails);
        self.opens = self.opens.saturating_add(1);
        self.opened = None;
        self.at = 0;
        self.since_open = 0;
        let Some(place) = place_of(&self.entries, name) else {
            return Err(PortFault::Failed);
        };
        if fails {
            self.faults = self.faults.saturating_add(1);
            return Err(PortFault::Failed);
        }
        self.opened = Some(place);
        Ok(())
    }

    #[tactic(auto, using(crate::proofs::EntryLemmas::first_then_rest))]
    fn read(&mut self, piece: &mut [u8]) -> Result<usize, PortFault>
        ensures bound { IfOk result (λ count. count ≤ length piece.new) }
        ensures faults { ReadFaults result (files_state self.old) (files_state self.new) }
        ensures contents { Reads piece.new result (file_contents self.old)
            (file_contents self.new) }
        ensures answer { result ≡ (if next_call_fails self.old
            then Err PortFault.Failed
            else Ok (min (length (bytes_to_come self.old)) (length piece.old))) }
        ensures counted { faults_counted self.new ≡
            (if next_call_fails self.old
            then next_number (faults_counted self.old)
            else faults_counted self.old) }
        ensures calls { calls_made self.new ≡ next_number (calls_made self.old) }
        ensures fails { calls_that_fail self.new ≡ calls_that_fail self.old }
    {
        if counted(&mut self.calls, &self.fails) {
            self.faults = self.faults.saturating_add(1);
            return Err(PortFault::Failed);
        }
        let rest = bytes_from(bytes_in(&self.entries, self.opened), self.at);
        let count = copy_first(rest, piece);
        self.at = self.at.saturating_add(count);
        self.taken = self.taken.saturating_add(count as u64);
        self.since_open = self.since_open.saturating_add(count as u64);
        note_read(&mut self.entries, self.opened, self.since_open);
        Ok(count)
    }
}
