//! Rebasing recorded work.

ghost use Rattle.std.specs.Prelude.{◌≡◌, length, IfErr, IfOk, None};
ghost use Rattle.pref_list.specs.Orders.{IsFirstFault, first_fault};
ghost use Rattle.rounds.specs.Rebasing.{IsRebasedOf, log_number};

use canon_set::CanonSet;
use merge_core::merge;
use pref_list::{RankFault, Rule, rank};
use refluent::Joint;
use std::alloc::Global;
use transition::transition;

/// Which transition of a rebase is wanted: that of the work, for the live tree, or that of the rounds that were missed,
/// which is the log of the next round.
#[derive(Clone, Copy, Debug)]
pub enum Side {
    Tree,
    Next,
}

/// The number of the log that a side's transition is of.
fn log_number(side: Side) -> u32
    ensures { result ≡ log_number side }
{
    match side {
        Side::Tree => 1,
        Side::Next => 2,
    }
}

/// The work of log 1 rebased on the rounds of log 2 ("Undoing, composing and rebasing" in `docs/MODEL.md`): the
/// transition of the side's log to the first merger of the two logs under the rules, whose logs are 1 and 2.
///
/// The rules are refused as by `rank`: the first rule at fault, by its number from 1, or `Memory`.
pub fn rebase(
    alloc: Global,
    joint: &Joint,
    rules: &[Rule],
    side: Side,
) -> Result<CanonSet, RankFault>
    requires { length joint.now.sets ≡ 2 }
    ensures rebased { IfOk result (IsRebasedOf joint.now rules.now side) }
    ensures faultless { IfOk result (λ _. first_fault joint.now.sets rules.now ≡ None) }
    ensures refused { IfErr result (IsFirstFault joint.now.sets rules.now) }
{
    let _logs = joint.logs();
    let ranking = rank(alloc, joint, rules)?;
    let merger = merge(alloc, joint, &ranking)?;
    let set = transition(alloc, joint, &merger, log_number(side))?;
    Ok(set)
}
