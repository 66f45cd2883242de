//! The command `conflicts LOG...`.

ghost use Rattle.std.specs.Prelude.{◌≤◌, length};
ghost use Rattle.refluent.specs.declared.joint.TheConstants.{MAX_LOGS};
ghost use Rattle.treesync.specs.Checks.{Answers};
ghost use Rattle.treesync.specs.Conflicts.{IsConflicts, ShowsClashes};
ghost use Rattle.treesync.specs.Joining.{log_limits};

use crate::Refusal;
use crate::joining::{join_logs, read_logs};
use crate::logs::FULL_ALLOWANCE;
use refluent::Joint;
use std::alloc::Global;
use sync_port::Files;
use tool_words::FileList;

/// The joint of the logs in the files of these names, whose clashes are to be listed.
pub fn conflicts<F: Files>(
    alloc: Global,
    names: &FileList<'_>,
    files: &mut F,
) -> Result<Joint, Refusal>
    requires { length names.now ≤ MAX_LOGS }
    ensures { Answers ShowsClashes (IsConflicts names.now) (log_limits names.now)
        (F.files files.old) (F.files files.new) result }
{
    let logs = read_logs(alloc, FULL_ALLOWANCE, names, files)?;
    let joined = join_logs(alloc, names, logs)?;
    Ok(joined.joint)
}
