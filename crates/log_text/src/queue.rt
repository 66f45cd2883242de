//! The commands of a log that are taken one by one.

ghost use Rattle.std.specs.Prelude.{◌≡◌, ◌≤◌, ◌++◌, ◌∷◌, [], length, MatchOption};
ghost use Rattle.log_text.specs.declared.frame.TheConstants.{MAX_ITEMS};

use crate::faults::LineFault;
use crate::frame::Fields;
use crate::log::{read_fields, version_of};
use crate::pieces::Form;
use std::alloc::Global;
use std::collections::VecDeque;
use sync_command::{Command, Version};

/// The version, how many commands were read, and those of them that were not taken.
#[derive(Drop)]
pub struct CommandQueue {
    version: Version,
    count: usize,
    waiting: VecDeque<Command>,
    ghost few: { count ≤ MAX_ITEMS },
}

impl CommandQueue {
    pub fn new(alloc: Global) -> CommandQueue
        ensures version { result.version ≡ Version.One }
        ensures count { result.count ≡ 0 }
        ensures waiting { result.waiting.items ≡ [] }
    {
        CommandQueue {
            version: Version::One,
            count: 0,
            waiting: VecDeque::new(alloc),
        }
    }

    /// The version of the first line, where that was read right.
    pub fn version(&self) -> Version
        ensures { result ≡ self.now.version }
    {
        self.version
    }

    /// How many commands were read.
    pub fn read_count(&self) -> usize
        ensures { result ≡ self.now.count }
    {
        self.count
    }

    /// Takes the first that waits.
    pub fn take(&mut self) -> Option<Command>
        ensures version { self.new.version ≡ self.old.version }
        ensures count { self.new.count ≡ self.old.count }
        ensures waiting { MatchOption result
            ((self.old.waiting.items ≡ []) × (self.new.waiting.items ≡ []))
            (λ c. self.old.waiting.items ≡ c ∷ self.new.waiting.items) }
    {
        self.waiting.pop_front()
    }
}

impl Form for CommandQueue {
    ghost use Rattle.std.specs.Prelude.{List};
    ghost use Rattle.sync_command.specs.declared.values.Version.{Version as VersionValue};
    ghost use Rattle.sync_command.specs.Changes.{Change};
    ghost use Rattle.log_text.specs.Versions.{version_of};
    ghost use Rattle.log_text.specs.Logs.{log_first, judge_change};
    ghost use Rattle.log_text.specs.Queue.{IsQueue};

    ghost Item = { Change };

    ghost Past = { List Change };

    ghost Head = { VersionValue };

    ghost first = { version_of log_first };

    ghost judge = { judge_change };

    ghost holds = { IsQueue };

    fn opens(&mut self, line: &[u8]) -> bool {
        match version_of(line) {
            Some(version) => {
                self.version = version;
                true
            }
            None => false,
        }
    }

    fn count(&self) -> usize {
        self.count
    }

    fn add(&mut self, alloc: Global, fields: Fields<'_>) -> Result<(), LineFault> {
        let command = read_fields(alloc, self.version, self.count, fields)?;
        match self.waiting.push_back(command) {
            Ok(()) => {
                self.count += 1;
                Ok(())
            }
            Err(_) => Err(LineFault::Memory),
        }
    }
}
