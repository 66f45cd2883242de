//! The command `apply FOLDER SET`.

ghost use Rattle.std.specs.Prelude.{◌≡◌, ◌+◌, ◌∷◌, [], IfOk, length, map};
ghost use Rattle.sync_command.specs.Maps.{at};
ghost use Rattle.tree_port.specs.States.{WhereKnown};
ghost use Rattle.resume_apply.specs.Ready.{IsReady};
ghost use Rattle.tool_words.specs.declared.job.Job.TheVariants.{Apply};
ghost use Rattle.treesync.specs.Apply.{AppliesSet, IsApply, IsSetOf, OfOnlyTree, applied_text, apply_refusal};
ghost use Rattle.treesync.specs.Checks.{Answers, HasItems};
ghost use Rattle.treesync.specs.Jobs.{FindsText, held_tree, inputs};

use crate::input::FILE_LIMIT;
use crate::logs::{FULL_ALLOWANCE, read_sum};
use crate::steer::net_set;
use crate::{Failure, Finding, Refusal};
use canon_set::CanonSet;
use itoa::Buffer;
use resume_apply::{ApplyFault, finish, prepare};
use std::alloc::Global;
use sync_path::NoMemory;
use sync_port::Files;
use tool_words::{Word, texts};
use tree_port::{Tree, TreeFault};

/// What a refused application means, to the tree that the word at the place `word` names.
pub fn apply_refusal(word: usize, fault: ApplyFault) -> Refusal
    ensures { result ≡ apply_refusal word fault }
{
    match fault {
        ApplyFault::Diverged { path } => Refusal::Found(Finding::Diverged { word, path }),
        ApplyFault::Blocked { path } => Refusal::Found(Finding::Blocked { word, path }),
        ApplyFault::Failed => Refusal::CallFailed(Failure::TreeFailed { word }),
        ApplyFault::Denied => Refusal::CallFailed(Failure::TreeDenied { word }),
        ApplyFault::Memory => Refusal::OutOfMemory,
    }
}

/// The net set of the log in the file that the word names.
#[tactic(auto, using(crate::proofs::CheckLemmas::then_judged, crate::proofs::CheckLemmas::then_handed_on))]
fn set_of<F: Files>(alloc: Global, file: &Word<'_>, files: &mut F) -> Result<CanonSet, Refusal>
    ensures { Answers (λ set cs. set ≡ cs) (IsSetOf file.now) ((file.now.text, FILE_LIMIT) ∷ [])
        (F.files files.old) (F.files files.new) result }
{
    let log = read_sum(alloc, file.place(), file.as_str(), FULL_ALLOWANCE, files)?;
    net_set(file.place(), log)
}

/// The text `applied N`.
fn applied_text(alloc: Global, number: u64) -> Result<Vec<u8>, NoMemory>
    ensures { IfOk result (λ text. text.items ≡ applied_text number) }
{
    let mut digits = Buffer::new();
    let mut text = Vec::from_slice(alloc, texts::APPLIED.as_bytes())?;
    text.extend_from_slice(digits.format(number).as_bytes())?;
    text.extend_from_slice(texts::LINE_END.as_bytes())?;
    Ok(text)
}

/// Applies what is left of a set to a tree that is ready for it, which the word at the place `word` names, and gives
/// the text.
fn finish_set(
    alloc: Global,
    word: usize,
    tree: &mut Box<dyn Tree>,
    set: &CanonSet,
) -> Result<Vec<u8>, Refusal>
    requires { WhereKnown (live tree.old) (λ m. IsReady (at m) set.now) }
    ensures { AppliesSet HasItems word set.now (live tree.old) (live tree.new) result }
{
    match finish(tree, set) {
        Ok(number) => Ok(applied_text(alloc, number)?),
        Err(fault) => Err(apply_refusal(word, ApplyFault::from(fault))),
    }
}

/// Applies a set to the tree that the word at the place `word` names, and gives the text.
fn apply_set(
    alloc: Global,
    word: usize,
    tree: &mut Box<dyn Tree>,
    set: &CanonSet,
) -> Result<Vec<u8>, Refusal>
    ensures { AppliesSet HasItems word set.now (live tree.old) (live tree.new) result }
{
    match prepare(alloc, tree, set) {
        Ok(_) => finish_set(alloc, word, tree, set),
        Err(fault) => Err(apply_refusal(word, fault)),
    }
}

/// Applies a set to the only tree of a list, which the word at the place `word` names, and gives the text.
fn apply_to_only(
    alloc: Global,
    word: usize,
    trees: &mut Vec<Box<dyn Tree>>,
    set: &CanonSet,
) -> Result<Vec<u8>, Refusal>
    ensures { length trees.old.items ≡ 1 →
        OfOnlyTree (map (λ tree. live tree) trees.old.items)
        (map (λ tree. live tree) trees.new.items)
        (λ before now. AppliesSet HasItems word set.now before now result) }
{
    match trees.first_mut() {
        Some(tree) => apply_set(alloc, word, tree, set),
        None => Err(Refusal::OutOfMemory),
    }
}

/// Applies the net set of the log in the file that `file` names to the tree that `folder` names, which is the only one of
/// `trees`, and gives the text.
pub fn apply<F: Files>(
    alloc: Global,
    folder: &Word<'_>,
    file: &Word<'_>,
    files: &mut F,
    trees: &mut Vec<Box<dyn Tree>>,
) -> Result<Vec<u8>, Refusal>
    ensures { length trees.old.items ≡ 1 → FindsText
        (IsApply folder.now file.now (held_tree (map (λ tree. live tree) trees.old.items)))
        (Apply folder.now file.now)
        (inputs (F.files files.old) (map (λ tree. live tree) trees.old.items))
        (inputs (F.files files.new) (map (λ tree. live tree) trees.new.items)) result }
{
    let set = set_of(alloc, file, files)?;
    apply_to_only(alloc, folder.place(), trees, &set)
}
