//! The command `merge [--prefs FILE] LOG...`.

ghost use Rattle.std.specs.Prelude.{◌≡◌, ◌≤◌, ◌++◌, length};
ghost use Rattle.refluent.specs.declared.joint.TheConstants.{MAX_LOGS};
ghost use Rattle.treesync.specs.Checks.{Answers, HasItems, IsJudged};
ghost use Rattle.treesync.specs.Joining.{log_limits};
ghost use Rattle.treesync.specs.Merge.{IsMerge, IsMergerText};
ghost use Rattle.treesync.specs.Merging.{Asked, IsMergedOf};
ghost use Rattle.treesync.specs.Preferences.{preference_limits};

use crate::Refusal;
use crate::merging::{MergedLogs, merged_logs};
use log_text::print_log;
use std::alloc::Global;
use sync_port::Files;
use tool_words::{FileList, Word};

/// The text of a merger.
fn merger_text(alloc: Global, merged: &MergedLogs) -> Result<Vec<u8>, Refusal>
    requires { (asked : Asked) × IsMergedOf merged.now asked }
    ensures { (asked : Asked) → IsMergedOf merged.now asked →
        IsJudged HasItems (IsMergerText asked.0 asked.1) result }
{
    let mut text = Vec::new(alloc);
    print_log(&mut text, merged.logs.version, merged.merger.commands())?;
    Ok(text)
}

/// The first merger of the logs in the files of these names, as a log's text, under the rules of the file that `prefs`
/// names, or under none.
pub fn merge<F: Files>(
    alloc: Global,
    prefs: &Option<Word<'_>>,
    names: &FileList<'_>,
    files: &mut F,
) -> Result<Vec<u8>, Refusal>
    requires { length names.now ≤ MAX_LOGS }
    ensures { Answers HasItems (IsMerge prefs.now names.now)
        (preference_limits prefs.now ++ log_limits names.now)
        (F.files files.old) (F.files files.new) result }
{
    let merged = merged_logs(alloc, prefs, names, files)?;
    merger_text(alloc, &merged)
}
