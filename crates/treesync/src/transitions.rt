//! The command `transition [--prefs FILE] N LOG...`.

ghost use Rattle.std.specs.Prelude.{◌≡◌, ◌<◌, ◌≤◌, ◌++◌, length};
ghost use Rattle.refluent.specs.declared.joint.TheConstants.{MAX_LOGS};
ghost use Rattle.treesync.specs.Checks.{Answers, HasItems, IsJudged};
ghost use Rattle.treesync.specs.Joining.{log_limits};
ghost use Rattle.treesync.specs.Merging.{Asked, IsMergedOf};
ghost use Rattle.treesync.specs.Preferences.{preference_limits};
ghost use Rattle.treesync.specs.Transition.{IsTransition, IsTransitionText};

use crate::Refusal;
use crate::merging::{MergedLogs, merged_logs};
use log_text::print_log;
use std::alloc::Global;
use sync_port::Files;
use tool_words::{FileList, Word};

/// The text of the transition of the log of this number, from 1, by the logs' first merger.
fn transition_text(alloc: Global, number: u32, merged: &MergedLogs) -> Result<Vec<u8>, Refusal>
    requires number { (0 < number) × (number ≤ length merged.now.logs.joint.sets) }
    requires merged { (asked : Asked) × IsMergedOf merged.now asked }
    ensures { (asked : Asked) → IsMergedOf merged.now asked →
        IsJudged HasItems (IsTransitionText number asked.0 asked.1) result }
{
    let set = transition::transition(alloc, &merged.logs.joint, &merged.merger, number)?;
    let mut text = Vec::new(alloc);
    print_log(&mut text, merged.logs.version, set.commands())?;
    Ok(text)
}

/// The transition of the log of this number, from 1, by the first merger of the logs in the files of these names, as a
/// log's text, under the rules of the file that `prefs` names, or under none.
pub fn transition<F: Files>(
    alloc: Global,
    number: u32,
    prefs: &Option<Word<'_>>,
    names: &FileList<'_>,
    files: &mut F,
) -> Result<Vec<u8>, Refusal>
    requires number { (0 < number) × (number ≤ length names.now) }
    requires few { length names.now ≤ MAX_LOGS }
    ensures { Answers HasItems (IsTransition number prefs.now names.now)
        (preference_limits prefs.now ++ log_limits names.now)
        (F.files files.old) (F.files files.new) result }
{
    let merged = merged_logs(alloc, prefs, names, files)?;
    transition_text(alloc, number, &merged)
}
