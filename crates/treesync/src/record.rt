//! The command `record FOLDER SCRIPT`, which writes as it goes.

ghost use Rattle.std.specs.Prelude.{◌≡◌, ◌≤◌, ◌∷◌, [], length, map, string_bytes};
ghost use Rattle.sync_path.specs.Paths.{parts};
ghost use Rattle.record_core.specs.Scripts.{script_of};
ghost use Rattle.treesync.specs.Apply.{OfOnlyTree};
ghost use Rattle.treesync.specs.Checks.{Answers, IsJudged};
ghost use Rattle.treesync.specs.Ends.{Says};
ghost use Rattle.treesync.specs.Files.{text_answer};
ghost use Rattle.treesync.specs.Jobs.{outside};
ghost use Rattle.treesync.specs.Record.{HasOps, IsScript, RecordsOnTree, record_refusal};
ghost use Rattle.treesync.specs.Runs.{RanRecording, recording_line, recording_status};

use crate::input::{FILE_LIMIT, read_file};
use crate::report::{report, say_end};
use crate::{Failure, Finding, Refusal};
use log_text::LogFault;
use record_core::{Op, RecordFault, read_script};
use std::alloc::Global;
use sync_command::Version;
use sync_port::{Files, Sink};
use tool_words::Word;
use tree_port::Tree;

/// The version and the operations of a script's text.
fn judge_script(alloc: Global, word: usize, bytes: &[u8]) -> Result<(Version, Vec<Op>), Refusal>
    ensures { IsJudged HasOps (λ a. a ≡ text_answer word (script_of (parts 10 bytes.now)))
        result }
{
    match read_script(alloc, bytes) {
        Ok(script) => Ok(script),
        Err(LogFault::Text(fault)) => Err(Refusal::Found(Finding::Text { word, fault })),
        Err(LogFault::Memory) => Err(Refusal::OutOfMemory),
    }
}

/// The version and the operations of the script in the file that the word names.
#[tactic(auto, using(crate::proofs::CheckLemmas::then_judged, crate::proofs::CheckLemmas::then_handed_on))]
fn script_file<F: Files>(
    alloc: Global,
    file: &Word<'_>,
    files: &mut F,
) -> Result<(Version, Vec<Op>), Refusal>
    ensures { Answers HasOps (IsScript file.now) ((file.now.text, FILE_LIMIT) ∷ [])
        (F.files files.old) (F.files files.new) result }
{
    let bytes = read_file(alloc, file.place(), file.as_str(), FILE_LIMIT, files)?;
    judge_script(alloc, file.place(), &bytes)
}

/// What a recording that ended early means, of the script that the word at the place `word` names and the tree that the
/// one at the place `folder` names; `None` where a line could not be written.
fn record_refusal(folder: usize, word: usize, fault: RecordFault) -> Option<Refusal>
    ensures { result ≡ record_refusal folder word fault }
{
    match fault {
        RecordFault::OpRefused { number, why } => {
            Some(Refusal::Found(Finding::OpRefused { word, number, why }))
        }
        RecordFault::TreeFailed => {
            Some(Refusal::CallFailed(Failure::TreeFailed { word: folder }))
        }
        RecordFault::TreeDenied => {
            Some(Refusal::CallFailed(Failure::TreeDenied { word: folder }))
        }
        RecordFault::WriteFault => None,
        RecordFault::TooLarge => Some(Refusal::Found(Finding::TooLarge { word })),
        RecordFault::Memory => Some(Refusal::OutOfMemory),
    }
}

/// Records a script on the only tree of a list.
fn record_on_only<O: Sink>(
    alloc: Global,
    version: Version,
    script: &[Op],
    trees: &mut Vec<Box<dyn Tree>>,
    out: &mut O,
) -> Result<u64, RecordFault>
    ensures { length trees.old.items ≡ 1 →
        OfOnlyTree (map (λ tree. live tree) trees.old.items)
        (map (λ tree. live tree) trees.new.items)
        (RecordsOnTree (version, script.now) result (O.sink out.old) (O.sink out.new)) }
{
    match trees.first_mut() {
        Some(tree) => record_core::record(alloc, tree, version, script, out),
        None => Err(RecordFault::Memory),
    }
}

/// Says on `err` why a recording ended early, where it did, and gives its status. Two words name the tree and the script.
fn end_recording<O: Sink, E: Sink>(
    alloc: Global,
    words: &[String],
    folder: usize,
    word: usize,
    recorded: Result<u64, RecordFault>,
    out: &mut O,
    err: &mut E,
) -> u8
    ensures status { result ≡ recording_status folder word recorded }
    ensures out { O.sink out.new ≡ O.sink out.old }
    ensures err { (E.sink err.old).faults ≤ (E.sink err.new).faults }
    ensures says { Says (recording_line (map string_bytes words.now) folder word recorded)
        (E.sink err.old) (E.sink err.new) }
{
    match recorded {
        Ok(_) => 0,
        Err(fault) => match record_refusal(folder, word, fault) {
            Some(refusal) => report(alloc, words, Err(refusal), out, err),
            None => {
                say_end(err, 4);
                4
            }
        },
    }
}

/// Carries out the script in the file that `file` names on the tree that `folder` names, which is the only one of
/// `trees`. `out` gains the log of what that changes, each line flushed before its change, and the status is given; where
/// it is not 0, `err` gains its line.
pub fn record<F: Files, O: Sink, E: Sink>(
    alloc: Global,
    words: &[String],
    folder: &Word<'_>,
    file: &Word<'_>,
    files: &mut F,
    trees: &mut Vec<Box<dyn Tree>>,
    out: &mut O,
    err: &mut E,
) -> u8
    ensures ran { length trees.old.items ≡ 1 →
        RanRecording folder.now file.now (map string_bytes words.now)
        (outside (F.files files.old) (map (λ tree. live tree) trees.old.items) (O.sink out.old)
        (E.sink err.old))
        (outside (F.files files.new) (map (λ tree. live tree) trees.new.items) (O.sink out.new)
        (E.sink err.new)) result }
    ensures err { (E.sink err.old).faults ≤ (E.sink err.new).faults }
{
    match script_file(alloc, file, files) {
        Ok((version, script)) => {
            let recorded = record_on_only(alloc, version, &script, trees, out);
            end_recording(
                alloc,
                words,
                folder.place(),
                file.place(),
                recorded,
                out,
                err,
            )
        }
        Err(refusal) => report(alloc, words, Err(refusal), out, err),
    }
}
