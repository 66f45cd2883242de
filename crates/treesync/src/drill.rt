//! The command `drill SEED LOGS STEPS`.

ghost use Rattle.std.specs.Prelude.{◌≤◌};
ghost use Rattle.treesync.specs.Checks.{HasItems, IsJudged};
ghost use Rattle.treesync.specs.Drill.{IsDrillOf};

use crate::Refusal;
use std::alloc::Global;

/// The summary of a drill of so many logs, that are made in so many steps each from a number ("Drills" in
/// `docs/MODEL.md`). Only memory can run out.
pub fn drill(alloc: Global, seed: u32, logs: u32, steps: u32) -> Result<Vec<u8>, Refusal>
    requires seed { seed ≤ 2147483647 }
    requires logs { logs ≤ 64 }
    ensures { IsJudged HasItems (IsDrillOf seed logs steps) result }
{
    Ok(sync_drill::drill(alloc, seed, logs, steps)?)
}
