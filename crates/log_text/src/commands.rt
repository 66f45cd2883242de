//! The commands of a log that is read as a whole.

ghost use Rattle.std.specs.Prelude.{◌≡◌, ◌≤◌, [], length};
ghost use Rattle.log_text.specs.declared.frame.TheConstants.{MAX_ITEMS};

use crate::faults::LineFault;
use crate::frame::Fields;
use crate::log::{read_fields, version_of};
use crate::pieces::Form;
use std::alloc::Global;
use sync_command::{Command, Version};

/// The version, and all commands so far.
#[derive(Drop)]
pub struct CommandList {
    version: Version,
    commands: Vec<Command>,
    ghost few: { length commands.items ≤ MAX_ITEMS },
}

impl CommandList {
    pub fn new(alloc: Global) -> CommandList
        ensures version { result.version ≡ Version.One }
        ensures commands { result.commands.items ≡ [] }
    {
        CommandList {
            version: Version::One,
            commands: Vec::new(alloc),
        }
    }

    pub fn into_parts(self) -> (Version, Vec<Command>)
        ensures version { result.0 ≡ self.version }
        ensures commands { result.1 ≡ self.commands }
    {
        let CommandList { version, commands } = self;
        (version, commands)
    }
}

impl Form for CommandList {
    ghost use Rattle.sync_command.specs.declared.values.Version.{Version as VersionValue};
    ghost use Rattle.sync_command.specs.Changes.{Change};
    ghost use Rattle.log_text.specs.Versions.{version_of};
    ghost use Rattle.log_text.specs.Logs.{log_first, judge_change};
    ghost use Rattle.log_text.specs.CommandLists.{IsCommandList};

    ghost Item = { Change };

    ghost Past = { Unit {0} };

    ghost Head = { VersionValue };

    ghost first = { version_of log_first };

    ghost judge = { judge_change };

    ghost holds = { IsCommandList };

    fn opens(&mut self, line: &[u8]) -> bool {
        match version_of(line) {
            Some(version) => {
                self.version = version;
                true
            }
            None => false,
        }
    }

    fn count(&self) -> usize {
        self.commands.len()
    }

    fn add(&mut self, alloc: Global, fields: Fields<'_>) -> Result<(), LineFault> {
        let command = read_fields(alloc, self.version, self.commands.len(), fields)?;
        match self.commands.push(command) {
            Ok(()) => Ok(()),
            Err(_) => Err(LineFault::Memory),
        }
    }
}
