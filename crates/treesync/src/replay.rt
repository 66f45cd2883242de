//! The command `replay SNAP LOG`.

ghost use Rattle.std.specs.Prelude.{◌≡◌, ◌∷◌, [], ℕ, List, Ok};
ghost use Rattle.std.specs.List.{AllByRecursion};
ghost use Rattle.treesync.specs.Checks.{Answers, HasItems, IsJudged};
ghost use Rattle.treesync.specs.Files.{HasRows};
ghost use Rattle.treesync.specs.Logs.{IsLogFile, ReadLog, later_version};
ghost use Rattle.treesync.specs.Replay.{IsReplay, IsAfter, run_refusal};
ghost use Rattle.sync_command.specs.declared.commands.Row.{Row};
ghost use Rattle.sync_command.specs.declared.values.Version.{Version};
ghost use Rattle.sync_command.specs.Rows.{IsRowTree};
ghost use Rattle.apply_model.specs.Entries.{rows_of};
ghost use Rattle.log_text.specs.Snapshots.{IsRowOfVersion, snapshot_text};

use crate::input::{FILE_LIMIT, snapshot_file};
use crate::logs::{FULL_ALLOWANCE, LogFile, later_version, read_log};
use crate::{Finding, Refusal};
use apply_model::{RunBreak, TreeMap, replay_owned};
use log_text::print_snapshot;
use std::alloc::Global;
use sync_command::{Command, Row, Version};
use sync_port::Files;

/// Why a log, which the word at the place `word` names, was not done to its end.
fn refusal_of(word: usize, fault: RunBreak) -> Refusal
    ensures { result ≡ run_refusal word fault }
{
    match fault {
        RunBreak::NotTaken { number } => Refusal::Found(Finding::NotTaken { word, number }),
        RunBreak::Memory { .. } => Refusal::OutOfMemory,
    }
}

/// The text of the snapshot after the log, which the word at the place `word` names. The tree takes both over.
fn text_after(
    alloc: Global,
    word: usize,
    snapshot: (Version, Vec<Row>),
    log: LogFile<Vec<Command>>,
) -> Result<Vec<u8>, Refusal>
    requires tree { IsRowTree snapshot.1.items }
    requires printable { AllByRecursion (IsRowOfVersion snapshot.0) snapshot.1.items }
    requires log { (read : ReadLog) × IsLogFile HasItems log read }
    ensures { (read : ReadLog) → IsLogFile HasItems log read →
        IsJudged HasItems (IsAfter word (snapshot.0, snapshot.1.items) read) result }
{
    let (version, rows) = snapshot;
    let mut tree = TreeMap::from_rows(alloc, rows)?;
    let version = later_version(version, log.version);
    match replay_owned(&mut tree, log.commands) {
        Ok(()) => tree_text(alloc, version, tree),
        Err(fault) => Err(refusal_of(word, fault)),
    }
}

/// The text of a tree's snapshot. The tree goes into it, so that no row is copied.
fn tree_text(alloc: Global, version: Version, tree: TreeMap) -> Result<Vec<u8>, Refusal>
    requires { AllByRecursion (IsRowOfVersion version) (rows_of tree) }
    ensures { IsJudged HasItems (λ a. a ≡ Ok (snapshot_text version (rows_of tree))) result }
{
    let rows = tree.into_rows()?;
    let mut text = Vec::new(alloc);
    print_snapshot(&mut text, version, &rows)?;
    Ok(text)
}

/// The snapshot in the file `snap` after the log in the file `log`. The words at the places `snap_word` and `log_word`
/// name the files.
pub fn replay<F: Files>(
    alloc: Global,
    snap_word: usize,
    snap: &str,
    log_word: usize,
    log: &str,
    files: &mut F,
) -> Result<Vec<u8>, Refusal>
    ensures { Answers HasItems (IsReplay snap_word snap.now log_word log.now)
        ((snap.now, FILE_LIMIT) ∷ (log.now, FILE_LIMIT) ∷ [])
        (F.files files.old) (F.files files.new) result }
{
    let snapshot = snapshot_file(alloc, snap_word, snap, files)?;
    let commands = Vec::new(alloc);
    let read = read_log(alloc, log_word, log, FULL_ALLOWANCE, files, commands)?;
    text_after(alloc, log_word, snapshot, read)
}
