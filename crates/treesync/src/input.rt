//! The files that a job names: their calls, their bytes, and snapshots.

ghost use Rattle.std.specs.Prelude.{◌≡◌, ◌∷◌, [], IfOk};
ghost use Rattle.std.specs.List.{AllByRecursion};
ghost use Rattle.treesync.specs.Checks.{Answers, HasItems, IsJudged};
ghost use Rattle.treesync.specs.Files.{HasRows, IsFile, IsSnapshot, call_refusal, text_answer, text_refusal};
ghost use Rattle.sync_path.specs.Paths.{parts};
ghost use Rattle.log_text.specs.Snapshots.{snapshot_of, IsRowOfVersion};
ghost use Rattle.sync_command.specs.Rows.{IsRowTree};

use crate::{Failure, Finding, Refusal};
use log_text::{LogFault, read_snapshot};
use std::alloc::Global;
use sync_command::{Row, Version};
use sync_port::{Files, PortFault, WholeFault, read_whole};

/// The most bytes of a snapshot's file, of a log's, and of all logs of a job together: 2^28.
pub const FILE_LIMIT: usize = 268_435_456;

/// What a refused call on the file means that the word at the place `word` names.
pub fn call_refusal(word: usize, fault: PortFault) -> Refusal
    ensures { result ≡ call_refusal word fault }
{
    match fault {
        PortFault::Failed => Refusal::CallFailed(Failure::ReadFailed { word }),
        PortFault::Memory => Refusal::OutOfMemory,
    }
}

/// What a fault of the text of the file means that the word at the place `word` names.
pub fn text_refusal(word: usize, fault: LogFault) -> Refusal
    ensures { result ≡ text_refusal word fault }
{
    match fault {
        LogFault::Text(fault) => Refusal::Found(Finding::Text { word, fault }),
        LogFault::Memory => Refusal::OutOfMemory,
    }
}

/// The bytes of the file `name`, at most `limit` of them, which the word at the place `word` names.
pub fn read_file<F: Files>(
    alloc: Global,
    word: usize,
    name: &str,
    limit: usize,
    files: &mut F,
) -> Result<Vec<u8>, Refusal>
    ensures { Answers HasItems (IsFile limit word name.now) ((name.now, limit) ∷ [])
        (F.files files.old) (F.files files.new) result }
{
    match read_whole(alloc, files, name, limit) {
        Ok(bytes) => Ok(bytes),
        Err(WholeFault::ReadFault) => { Err(Refusal::CallFailed(Failure::ReadFailed { word })) }
        Err(WholeFault::TooLarge) => Err(Refusal::Found(Finding::TooLarge { word })),
        Err(WholeFault::Memory) => Err(Refusal::OutOfMemory),
    }
}

/// The version and the rows of a snapshot's text.
fn judge_snapshot(alloc: Global, word: usize, bytes: &[u8]) -> Result<(Version, Vec<Row>), Refusal>
    ensures rows { IsJudged HasRows
        (λ a. a ≡ text_answer word (snapshot_of (parts 10 bytes.now))) result }
    ensures tree { IfOk result (λ r. IsRowTree r.1.items) }
    ensures printable { IfOk result (λ r. AllByRecursion (IsRowOfVersion r.0) r.1.items) }
{
    match read_snapshot(alloc, bytes) {
        Ok(snapshot) => Ok(snapshot),
        Err(LogFault::Text(fault)) => Err(Refusal::Found(Finding::Text { word, fault })),
        Err(LogFault::Memory) => Err(Refusal::OutOfMemory),
    }
}

/// The version and the rows of the snapshot in the file `name`, which are a tree in path order.
#[tactic(auto, using(crate::proofs::CheckLemmas::then_judged, crate::proofs::CheckLemmas::then_handed_on))]
pub fn snapshot_file<F: Files>(
    alloc: Global,
    word: usize,
    name: &str,
    files: &mut F,
) -> Result<(Version, Vec<Row>), Refusal>
    ensures answer { Answers HasRows (IsSnapshot word name.now) ((name.now, FILE_LIMIT) ∷ [])
        (F.files files.old) (F.files files.new) result }
    ensures tree { IfOk result (λ r. IsRowTree r.1.items) }
    ensures printable { IfOk result (λ r. AllByRecursion (IsRowOfVersion r.0) r.1.items) }
{
    let bytes = read_file(alloc, word, name, FILE_LIMIT, files)?;
    judge_snapshot(alloc, word, &bytes)
}
