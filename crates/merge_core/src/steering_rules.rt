//! Preference rules that steer to a set.

ghost use Rattle.std.specs.Prelude.{◌≡◌, IfOk, IfErr};
ghost use Rattle.refluent.specs.Sets.{IsSubset};
ghost use Rattle.refluent.specs.Drawn.{in_turn};
ghost use Rattle.merge_core.specs.Steering.{at_rules};
ghost use Rattle.merge_core.specs.Steered.{SteerTo, IsSteerFault};
ghost use Rattle.merge_core.specs.declared.steering_rules.SteerFault.TheVariants.{Memory};

use crate::checking::{Verdict, check, log_of};
use canon_set::CanonSet;
use pref_list::Rule;
use refluent::Joint;
use std::alloc::Global;
use sync_command::Command;
use sync_path::{NoMemory, Path};
use thiserror::Error;

/// Why no rules steer to a set: it is no merger, as `Verdict` says, or memory ran out.
#[derive(Debug, Drop, Error)]
pub enum SteerFault {
    #[error("not drawn")]
    NotDrawn { path: Path },
    #[error("does not fit")]
    DoesNotFit { path: Path },
    #[error("can add of log {log}")]
    CanAdd { log: u32, path: Path },
    #[error("out of memory")]
    Memory,
}

impl From<NoMemory> for SteerFault {
    ghost from_gives = { λ _ e. e ≡ Memory };

    fn from(_fault: NoMemory) -> SteerFault {
        SteerFault::Memory
    }
}

/// An `At` rule for each command, with the least log that has it.
fn rules_of(alloc: Global, joint: &Joint, commands: &[Command]) -> Result<Vec<Rule>, NoMemory>
    requires { IsSubset commands.now (in_turn joint.now.sets) }
    ensures { IfOk result (λ rules. rules.items ≡ at_rules joint.now.sets commands.now) }
{
    let mut rules = Vec::with_capacity(alloc, commands.len())?;
    'commands: for command in commands {
        let log = log_of(joint, command).unwrap();
        let path = command.path().copy(alloc)?;
        rules.push(Rule::At { log, path })?;
    }
    Ok(rules)
}

/// The preference rules under which a set is the first merger: one `At` rule for each command of the set, in the
/// admissible order, with the least log that has the command.
///
/// The set has to be a merger for the common trees. Otherwise the refusal is the verdict of `check`: `NotDrawn`,
/// `DoesNotFit` or `CanAdd`, exactly where that is the verdict. `Memory` may come at any time.
pub fn steer(alloc: Global, joint: &Joint, set: &CanonSet) -> Result<Vec<Rule>, SteerFault>
    ensures rules { IfOk result (λ rules. SteerTo joint.now set.now rules.items) }
    ensures refused { IfErr result (IsSteerFault joint.now set.now) }
{
    let _logs = joint.logs();
    match check(alloc, joint, set)? {
        Verdict::Merger => Ok(rules_of(alloc, joint, set.commands())?),
        Verdict::NotDrawn { path } => Err(SteerFault::NotDrawn { path }),
        Verdict::DoesNotFit { path } => Err(SteerFault::DoesNotFit { path }),
        Verdict::CanAdd { log, path } => Err(SteerFault::CanAdd { log, path }),
    }
}
