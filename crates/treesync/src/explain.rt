//! The command `explain [--prefs FILE] LOG...`.

ghost use Rattle.std.specs.Prelude.{◌≡◌, ◌≤◌, ◌++◌, length, IfOk, Ok};
ghost use Rattle.refluent.specs.declared.joint.TheConstants.{MAX_LOGS};
ghost use Rattle.explain_core.specs.Reasons.{IsMergerOf, reasons};
ghost use Rattle.treesync.specs.Checks.{Answers, IsJudged};
ghost use Rattle.treesync.specs.Explain.{AreReasons, IsExplain, ShowsReasons};
ghost use Rattle.treesync.specs.Joining.{log_limits};
ghost use Rattle.treesync.specs.Merging.{Asked, IsMergedOf};
ghost use Rattle.treesync.specs.Preferences.{preference_limits};

use crate::Refusal;
use crate::merging::{MergedLogs, merged_logs};
use canon_set::CanonSet;
use explain_core::Reasons;
use refluent::Joint;
use std::alloc::Global;
use std::marker::Model;
use sync_path::NoMemory;
use sync_port::Files;
use tool_words::{FileList, Word};

/// The joint of logs, and a merger of them, whose reasons are to be listed. Contracts see the two.
#[derive(Drop)]
pub struct Explained {
    joint: Joint,
    merger: CanonSet,
}

impl Model for Explained {
    ghost use Rattle.std.specs.Prelude.{List};
    ghost use Rattle.sync_command.specs.Changes.{Change};
    ghost use Rattle.refluent.specs.Joints.{Joined};
    ghost use Rattle.explain_core.specs.Reasons.{IsMergerOf};

    ghost Value = { Joined × List Change };

    ghost view = { λ e. (e.joint, e.merger) };

    ghost invariant = { λ e. IsMergerOf e.joint e.merger };
}

impl Explained {
    /// The joint, and a merger of its logs.
    fn new(joint: Joint, merger: CanonSet) -> Explained
        requires { IsMergerOf joint merger }
        ensures { result ≡ (joint, merger) }
    {
        Explained { joint, merger }
    }

    /// The joint of the logs.
    pub fn joint(&self) -> &Joint
        ensures { result.now ≡ self.now.0 }
    {
        &self.joint
    }

    /// The reasons of all drawn commands that the merger leaves out.
    pub fn reasons(&self, alloc: Global) -> Result<Reasons<'_>, NoMemory>
        ensures { IfOk result (λ r. r ≡ reasons self.now.0 self.now.1) }
    {
        Reasons::new(alloc, &self.joint, &self.merger)
    }
}

/// What the first merger of logs leaves out, to be explained.
fn explain_merged(merged: MergedLogs) -> Explained
    requires { (asked : Asked) × IsMergedOf merged asked }
    ensures { (asked : Asked) → IsMergedOf merged asked →
        IsJudged ShowsReasons (AreReasons asked.0 asked.1) (Ok result) }
{
    let MergedLogs { logs, merger } = merged;
    let _commands = merger.commands();
    Explained::new(logs.joint, merger)
}

/// The first merger of the logs in the files of these names, under the rules of the file that `prefs` names or under
/// none, beside their joint: what it leaves out is to be explained.
pub fn explain<F: Files>(
    alloc: Global,
    prefs: &Option<Word<'_>>,
    names: &FileList<'_>,
    files: &mut F,
) -> Result<Explained, Refusal>
    requires { length names.now ≤ MAX_LOGS }
    ensures { Answers ShowsReasons (IsExplain prefs.now names.now)
        (preference_limits prefs.now ++ log_limits names.now)
        (F.files files.old) (F.files files.new) result }
{
    let merged = merged_logs(alloc, prefs, names, files)?;
    Ok(explain_merged(merged))
}
