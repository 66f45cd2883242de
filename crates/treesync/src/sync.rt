//! The command `sync [--prefs FILE] K FOLDER... LOG...`.

ghost use Rattle.std.specs.Prelude.{◌≡◌, ◌≤◌, length, map, IfOk};
ghost use Rattle.refluent.specs.declared.joint.TheConstants.{MAX_LOGS};
ghost use Rattle.treesync.specs.Answering.{output_of};
ghost use Rattle.treesync.specs.Checks.{seen};
ghost use Rattle.treesync.specs.Sync.{CanLead, FindsRound, IsOfTrees, LeadsTrees, Merged, StandsForMerged, round_refusal, synced_text};

use crate::apply::apply_refusal;
use crate::merging::{MergedLogs, merged_logs};
use crate::{Answer, Refusal};
use itoa::Buffer;
use std::alloc::Global;
use sync_path::NoMemory;
use sync_port::Files;
use sync_round::{RoundFault, round};
use tool_words::{FileList, Word, texts};
use tree_port::Tree;

/// The text `synced N`.
fn synced_text(alloc: Global, number: u64) -> Result<Vec<u8>, NoMemory>
    ensures { IfOk result (λ text. text.items ≡ synced_text number) }
{
    let mut digits = Buffer::new();
    let mut text = Vec::from_slice(alloc, texts::SYNCED.as_bytes())?;
    text.extend_from_slice(digits.format(number).as_bytes())?;
    text.extend_from_slice(texts::LINE_END.as_bytes())?;
    Ok(text)
}

/// What a round that was not done means, by the folder of the tree that is named.
fn round_refusal(folders: &FileList<'_>, fault: RoundFault) -> Refusal
    requires { IsOfTrees (length folders.now) fault }
    ensures { result ≡ round_refusal folders.now fault }
{
    match fault {
        RoundFault::Tree { number, fault } => {
            let place = folders.place(number as usize - 1);
            apply_refusal(place, fault)
        }
        RoundFault::Memory => Refusal::OutOfMemory,
    }
}

/// Leads the trees in the folders to the merger's result, each by the transition of the log in its place, and gives the
/// text. There is a tree for each folder.
fn lead_trees(
    alloc: Global,
    folders: &FileList<'_>,
    merged: &MergedLogs,
    trees: &mut Vec<Box<dyn Tree>>,
) -> Result<Answer, Refusal>
    requires { CanLead (length folders.now) merged.now }
    ensures { length trees.old.items ≡ length folders.now →
        (logs : Merged) → StandsForMerged merged.now logs →
        LeadsTrees folders.now logs (seen output_of result)
        (map (λ tree. live tree) trees.old.items)
        (map (λ tree. live tree) trees.new.items) }
{
    if trees.len() != folders.len() {
        return Err(Refusal::OutOfMemory);
    }
    match round(alloc, &merged.logs.joint, &merged.merger, trees) {
        Ok(number) => Ok(Answer::Text(synced_text(alloc, number)?)),
        Err(fault) => Err(round_refusal(folders, fault)),
    }
}

/// Leads the trees in the folders to the result of the first merger of the logs in the files of these names, each by the
/// transition of the log in its place, and gives the text: the number of all changes. The merger is the one under the
/// rules of the file that `prefs` names, or under none.
///
/// There are as many `trees` as folders and as logs. The logs are read and merged before any tree is looked at, and every
/// tree is looked at before the first one is changed. A refusal of a tree names the word of its folder.
pub fn sync<F: Files>(
    alloc: Global,
    prefs: &Option<Word<'_>>,
    folders: &FileList<'_>,
    names: &FileList<'_>,
    files: &mut F,
    trees: &mut Vec<Box<dyn Tree>>,
) -> Result<Answer, Refusal>
    requires few { length names.now ≤ MAX_LOGS }
    requires many { length folders.now ≡ length names.now }
    ensures { length trees.old.items ≡ length folders.now →
        FindsRound prefs.now folders.now names.now (F.files files.old) (F.files files.new)
        (map (λ tree. live tree) trees.old.items) (map (λ tree. live tree) trees.new.items)
        (seen output_of result) }
{
    let merged = merged_logs(alloc, prefs, names, files)?;
    lead_trees(alloc, folders, &merged, trees)
}
