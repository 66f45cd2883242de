//! The command `undo SET`.

ghost use Rattle.std.specs.Prelude.{◌≡◌, ◌∷◌, [], Ok};
ghost use Rattle.std.specs.List.{AllByRecursion};
ghost use Rattle.log_text.specs.Logs.{IsOfVersion, log_text};
ghost use Rattle.rounds.specs.Compositions.{inverse_set};
ghost use Rattle.treesync.specs.Checks.{Answers, HasItems, IsJudged};
ghost use Rattle.treesync.specs.Logs.{IsLogFile, IsTotal, ReadLog};
ghost use Rattle.treesync.specs.Undo.{IsUndo, IsUndoing};

use crate::Refusal;
use crate::input::FILE_LIMIT;
use crate::logs::{FULL_ALLOWANCE, LogFile, Total, read_sum};
use crate::steer::net_set;
use canon_set::CanonSet;
use log_text::print_log;
use std::alloc::Global;
use sync_command::Version;
use sync_port::Files;

/// The text of the inverse of a set.
fn inverse_text(alloc: Global, version: Version, set: &CanonSet) -> Result<Vec<u8>, Refusal>
    requires { AllByRecursion (IsOfVersion version) set.now }
    ensures { IsJudged HasItems (λ answer. answer ≡ Ok (log_text version (inverse_set set.now)))
        result }
{
    let inverse = set.inverse(alloc)?;
    let mut text = Vec::new(alloc);
    print_log(&mut text, version, inverse.commands())?;
    Ok(text)
}

/// The text of what leads back from the net set of a log, which the word at the place `word` names.
fn undone(alloc: Global, word: usize, log: LogFile<Total>) -> Result<Vec<u8>, Refusal>
    requires { (read : ReadLog) × IsLogFile IsTotal log read }
    ensures { (read : ReadLog) → IsLogFile IsTotal log read →
        IsJudged HasItems (IsUndoing word read) result }
{
    let version = log.version;
    let set = net_set(word, log)?;
    inverse_text(alloc, version, &set)
}

/// What leads back from the net set of the log in the file `name`, which the word at the place `word` names, as a log's
/// text.
pub fn undo<F: Files>(
    alloc: Global,
    word: usize,
    name: &str,
    files: &mut F,
) -> Result<Vec<u8>, Refusal>
    ensures { Answers HasItems (IsUndo word name.now) ((name.now, FILE_LIMIT) ∷ [])
        (F.files files.old) (F.files files.new) result }
{
    let log = read_sum(alloc, word, name, FULL_ALLOWANCE, files)?;
    undone(alloc, word, log)
}
