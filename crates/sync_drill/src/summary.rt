//! A drill and its summary.

ghost use Rattle.std.specs.Prelude.{◌<◌, ◌≤◌, ◌^◌, [], List, length, IfOk};
ghost use Rattle.sync_command.specs.Changes.{Change};
ghost use Rattle.refluent.specs.CommonTrees.{HasCommonTree};
ghost use Rattle.refluent.specs.Joints.{EachStandsFor, StandsForAll};
ghost use Rattle.refluent.specs.declared.joint.TheConstants.{MAX_LOGS};
ghost use Rattle.merge_core.specs.FirstMergers.{IsFirstMergerOf};
ghost use Rattle.sync_drill.specs.Summaries.{IsSummary};

use crate::base::base_tree;
use crate::counts::{count_clashes, count_commands, count_nodes, count_transitions};
use crate::logs::make_logs;
use canon_set::{CanonSet, LogSum};
use pref_list::rank;
use refluent::{JoinFault, Joint, join};
use std::alloc::Global;
use sync_path::NoMemory;

/// The numbers of a drill.
#[derive(Clone, Copy, Debug)]
pub struct Summary {
    /// The commands of all logs.
    pub commands: usize,
    /// The drawn commands.
    pub drawn: usize,
    /// The clashes of the drawn commands.
    pub clashes: usize,
    /// The commands of the first merger without rules.
    pub merger: usize,
    /// The commands of the transitions of all logs by that merger.
    pub transitions: usize,
    /// The nodes of the tree that the logs begin at, after the merger.
    pub tree: usize,
}

/// Joins the logs, which some tree takes together, so that only memory can run out.
fn join_all(alloc: Global, sums: Vec<LogSum>) -> Result<Joint, NoMemory>
    requires few { length sums.items ≤ MAX_LOGS }
    requires common { (made : List (List Change)) ×
        EachStandsFor sums.items made × HasCommonTree made }
    ensures { IfOk result (λ joint. (made : List (List Change)) →
        EachStandsFor sums.items made → StandsForAll joint made) }
{
    match join(alloc, sums) {
        Ok(joint) => Ok(joint),
        Err(JoinFault::Memory) => Err(NoMemory),
        Err(JoinFault::NoCommonTree { .. }) => unreachable!(),
    }
}

/// The first merger of the joint without rules, of which none can be at fault.
fn merge_all(alloc: Global, joint: &Joint) -> Result<CanonSet, NoMemory>
    ensures { IfOk result (IsFirstMergerOf joint.now []) }
{
    match rank(alloc, joint, &[]) {
        Ok(ranking) => merge_core::merge(alloc, joint, &ranking),
        Err(_) => Err(NoMemory),
    }
}

/// The summary of a drill of so many logs, 1 to 64, that are made in so many steps each from the number `seed`, below
/// 2^31 ("Drills" in `docs/MODEL.md`). Only memory can run out. It keeps the logs' net sets, their joint and one transition.
pub fn summarize(alloc: Global, seed: u32, logs: u32, steps: u32) -> Result<Summary, NoMemory>
    requires seed { seed < 2 ^ 31 }
    requires logs { logs ≤ MAX_LOGS }
    ensures { IfOk result (IsSummary seed logs steps) }
{
    let base = base_tree(alloc)?;
    let sums = make_logs(alloc, &base, seed, logs, steps)?;
    let commands = count_commands(&sums)?;
    let joint = join_all(alloc, sums)?;
    let merger = merge_all(alloc, &joint)?;
    let clashes = count_clashes(alloc, &joint)?;
    let transitions = count_transitions(alloc, &joint, &merger)?;
    let tree = count_nodes(base, &merger)?;
    Ok(Summary {
        commands,
        drawn: joint.drawn(),
        clashes,
        merger: merger.commands().len(),
        transitions,
        tree,
    })
}
