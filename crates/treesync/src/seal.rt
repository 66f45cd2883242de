//! The command `seal FOLDER LOG`.

ghost use Rattle.std.specs.Prelude.{◌≡◌, ◌∷◌, [], IfOk, length, map};
ghost use Rattle.std.specs.List.{AllByRecursion};
ghost use Rattle.log_text.specs.Logs.{IsOfVersion, log_text};
ghost use Rattle.tool_words.specs.declared.job.Job.TheVariants.{Seal};
ghost use Rattle.treesync.specs.Apply.{OfOnlyTree};
ghost use Rattle.treesync.specs.Checks.{HasItems};
ghost use Rattle.treesync.specs.Jobs.{FindsText, held_tree, inputs};
ghost use Rattle.treesync.specs.Seal.{IsSeal, Seals, seal_refusal};

use crate::input::{FILE_LIMIT, read_file};
use crate::{Failure, Finding, Refusal};
use log_text::print_log;
use record_core::SealFault;
use std::alloc::Global;
use sync_command::{Command, Version};
use sync_path::NoMemory;
use sync_port::Files;
use tool_words::Word;
use tree_port::Tree;

/// What a refused sealing means, of the log that the word at the place `word` names and the tree that the one at the
/// place `folder` names.
fn seal_refusal(folder: usize, word: usize, fault: SealFault) -> Refusal
    ensures { result ≡ seal_refusal folder word fault }
{
    match fault {
        SealFault::Text(fault) => Refusal::Found(Finding::Text { word, fault }),
        SealFault::Broken { number } => Refusal::Found(Finding::NoTree { word, number }),
        SealFault::Diverged { path } => Refusal::Found(Finding::Diverged { word: folder, path }),
        SealFault::Failed => Refusal::CallFailed(Failure::TreeFailed { word: folder }),
        SealFault::Denied => Refusal::CallFailed(Failure::TreeDenied { word: folder }),
        SealFault::Memory => Refusal::OutOfMemory,
    }
}

/// The text of a sealed log.
fn sealed_text(alloc: Global, version: Version, sealed: &[Command]) -> Result<Vec<u8>, NoMemory>
    requires { AllByRecursion (IsOfVersion version) sealed.now }
    ensures { IfOk result (λ text. text.items ≡ log_text version sealed.now) }
{
    let mut text = Vec::new(alloc);
    print_log(&mut text, version, sealed)?;
    Ok(text)
}

/// Seals the text of a log over a tree; two words name them. The tree is only looked at.
fn seal_text(
    alloc: Global,
    folder: usize,
    word: usize,
    text: &[u8],
    tree: &mut Box<dyn Tree>,
) -> Result<Vec<u8>, Refusal>
    ensures { Seals HasItems folder word text.now (live tree.old) (live tree.new) result }
{
    match record_core::seal(alloc, text, tree) {
        Ok((version, sealed)) => Ok(sealed_text(alloc, version, &sealed)?),
        Err(fault) => Err(seal_refusal(folder, word, fault)),
    }
}

/// Seals the text of a log over the only tree of a list; two words name them.
fn seal_over_only(
    alloc: Global,
    folder: usize,
    word: usize,
    text: &[u8],
    trees: &mut Vec<Box<dyn Tree>>,
) -> Result<Vec<u8>, Refusal>
    ensures { length trees.old.items ≡ 1 →
        OfOnlyTree (map (λ tree. live tree) trees.old.items)
        (map (λ tree. live tree) trees.new.items)
        (λ before now. Seals HasItems folder word text.now before now result) }
{
    match trees.first_mut() {
        Some(tree) => seal_text(alloc, folder, word, text, tree),
        None => Err(Refusal::OutOfMemory),
    }
}

/// Seals the open log in the file that `file` names over the tree that `folder` names, which is the only one of `trees`,
/// and gives the text.
pub fn seal<F: Files>(
    alloc: Global,
    folder: &Word<'_>,
    file: &Word<'_>,
    files: &mut F,
    trees: &mut Vec<Box<dyn Tree>>,
) -> Result<Vec<u8>, Refusal>
    ensures { length trees.old.items ≡ 1 → FindsText
        (IsSeal folder.now file.now (held_tree (map (λ tree. live tree) trees.old.items)))
        (Seal folder.now file.now)
        (inputs (F.files files.old) (map (λ tree. live tree) trees.old.items))
        (inputs (F.files files.new) (map (λ tree. live tree) trees.new.items)) result }
{
    let text = read_file(alloc, file.place(), file.as_str(), FILE_LIMIT, files)?;
    seal_over_only(alloc, folder.place(), file.place(), &text, trees)
}
