//! The logs of a drill.

ghost use Rattle.std.specs.Prelude.{◌≡◌, ◌<◌, ◌^◌, ◌++◌, ◌∷◌, [], List, length, IfOk, OnOk};
ghost use Rattle.sync_command.specs.Changes.{Change};
ghost use Rattle.sync_command.specs.Maps.{at};
ghost use Rattle.refluent.specs.Joints.{EachStandsFor};
ghost use Rattle.sync_drill.specs.Draws.{state_after_steps};
ghost use Rattle.sync_drill.specs.DrillLogs.{AreLogs};
ghost use Rattle.sync_drill.specs.Walks.{IsSumOfLog};

use crate::steps::step;
use apply_model::TreeMap;
use canon_set::LogSum;
use std::alloc::Global;
use sync_path::NoMemory;

/// The sum of the log that so many steps from a tree make.
fn make_log(alloc: Global, base: &TreeMap, state: &mut u64, steps: u32) -> Result<LogSum, NoMemory>
    requires { state.old < 2 ^ 31 }
    ensures state { OnOk result (state.new ≡ state_after_steps steps state.old) }
    ensures below { state.new < 2 ^ 31 }
    ensures log { IfOk result (IsSumOfLog (at base.now) state.old steps) }
{
    let mut tree = base.copy(alloc)?;
    let mut sum = LogSum::new(alloc);
    'steps: for _step in 0..steps {
        step(alloc, &mut tree, &mut sum, state)?;
    }
    Ok(sum)
}

/// Appends a sum.
fn push_sum(sums: &mut Vec<LogSum>, sum: LogSum) -> Result<(), NoMemory>
    ensures { OnOk result (sums.new.items ≡ sums.old.items ++ sum ∷ []) }
{
    sums.push(sum)?;
    Ok(())
}

/// The sums of so many logs, each of so many steps from the tree.
pub(crate) fn make_logs(
    alloc: Global,
    base: &TreeMap,
    seed: u32,
    logs: u32,
    steps: u32,
) -> Result<Vec<LogSum>, NoMemory>
    requires { seed < 2 ^ 31 }
    ensures many { IfOk result (λ sums. length sums.items ≡ logs) }
    ensures logs { IfOk result (λ sums. (made : List (List Change)) ×
        EachStandsFor sums.items made × AreLogs (at base.now) seed steps logs made) }
{
    let mut state = seed as u64;
    let mut sums = Vec::new(alloc);
    'logs: for _log in 0..logs {
        let sum = make_log(alloc, base, &mut state, steps)?;
        push_sum(&mut sums, sum)?;
    }
    Ok(sums)
}
