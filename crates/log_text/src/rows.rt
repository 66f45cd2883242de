//! The rows of a snapshot that is read as a whole.

ghost use Rattle.std.specs.Prelude.{◌≡◌, []};
ghost use Rattle.sync_command.specs.Rows.{IsRowTree};

use crate::faults::{LineFault, TextKind};
use crate::frame::Fields;
use crate::pieces::Form;
use crate::snapshot::{read_row, version_of};
use std::alloc::Global;
use std::marker::Model;
use sync_command::{Row, Version};
use sync_path::Path;

/// The version, all rows so far, which are a tree in path order, and a directory among them that spares
/// look-ups: the last parent that was asked for. Contracts see the version and the rows.
#[derive(Drop)]
pub struct RowList {
    version: Version,
    rows: Vec<Row>,
    parent: Option<Path>,
}

impl Model for RowList {
    ghost use Rattle.std.specs.Prelude.{List};
    ghost use Rattle.sync_command.specs.declared.values.Version.{Version as VersionValue};
    ghost use Rattle.sync_command.specs.declared.commands.Row.{Row as RowValue};

    ghost Value = { VersionValue × List RowValue };

    ghost view = { λ a. (a.version, a.rows.items) };

    ghost use Rattle.log_text.specs.RowLists.{AreRows};

    ghost invariant = { λ a. AreRows a.rows.items a.parent };
}

impl RowList {
    pub fn new(alloc: Global) -> RowList
        ensures { result ≡ (Version.One, []) }
    {
        RowList {
            version: Version::One,
            rows: Vec::new(alloc),
            parent: None,
        }
    }

    pub fn into_parts(self) -> (Version, Vec<Row>)
        ensures version { result.0 ≡ self.0 }
        ensures rows { result.1.items ≡ self.1 }
        ensures tree { IsRowTree self.1 }
    {
        let RowList {
            version,
            rows,
            parent: _parent,
        } = self;
        (version, rows)
    }
}

impl Form for RowList {
    ghost use Rattle.std.specs.Prelude.{◌≡◌};
    ghost use Rattle.sync_command.specs.declared.values.Version.{Version as VersionValue};
    ghost use Rattle.sync_command.specs.declared.commands.Row.{Row as RowValue};
    ghost use Rattle.log_text.specs.Versions.{version_of};
    ghost use Rattle.log_text.specs.Snapshots.{snapshot_first, row_of};

    ghost Item = { RowValue };

    ghost Past = { Unit {0} };

    ghost Head = { VersionValue };

    ghost first = { version_of snapshot_first };

    ghost judge = { row_of };

    ghost holds = { λ s _ xs. s ≡ xs };

    fn opens(&mut self, line: &[u8]) -> bool {
        match version_of(line) {
            Some(version) => {
                self.version = version;
                true
            }
            None => false,
        }
    }

    fn count(&self) -> usize {
        self.rows.len()
    }

    fn add(&mut self, alloc: Global, fields: Fields<'_>) -> Result<(), LineFault> {
        match fields {
            Fields::Two(path, value) => {
                let row = read_row(
                    alloc,
                    self.version,
                    &self.rows,
                    &mut self.parent,
                    path,
                    value,
                )?;
                match self.rows.push(row) {
                    Ok(()) => Ok(()),
                    Err(_) => Err(LineFault::Memory),
                }
            }
            _ => Err(LineFault::Kind(TextKind::Fields)),
        }
    }
}
