//! What a summary counts.

ghost use Rattle.std.specs.Prelude.{◌≡◌, ◌+◌, [], List, length, IfOk};
ghost use Rattle.sync_command.specs.Changes.{Change};
ghost use Rattle.sync_command.specs.Maps.{Store, at, stored};
ghost use Rattle.apply_model.specs.Entries.{rows_of};
ghost use Rattle.refluent.specs.Joints.{EachStandsFor, StandsForAll};
ghost use Rattle.refluent.specs.CommonTrees.{IsCommonTree};
ghost use Rattle.merge_core.specs.FirstMergers.{IsFirstMergerOf};
ghost use Rattle.clash_list.specs.ClashLists.{clashes};
ghost use Rattle.sync_drill.specs.Summaries.{command_count, transition_count};

use apply_model::{TreeMap, replay};
use canon_set::{CanonSet, LogSum};
use clash_list::Clashes;
use refluent::Joint;
use std::alloc::Global;
use sync_path::NoMemory;

/// The sum of two counts. No machine counts further than the greatest number.
fn add_counts(first: usize, second: usize) -> Result<usize, NoMemory>
    ensures { IfOk result (λ sum. sum ≡ first + second) }
{
    match first.checked_add(second) {
        Some(sum) => Ok(sum),
        None => Err(NoMemory),
    }
}

/// How many commands the logs have.
pub(crate) fn count_commands(sums: &[LogSum]) -> Result<usize, NoMemory>
    ensures { IfOk result (λ count. (made : List (List Change)) →
        EachStandsFor sums.now made → count ≡ command_count made) }
{
    let mut count = 0;
    'sums: for sum in sums {
        count = add_counts(count, sum.count())?;
    }
    Ok(count)
}

/// How many clashes the drawn commands of the joint have.
pub(crate) fn count_clashes(alloc: Global, joint: &Joint) -> Result<usize, NoMemory>
    ensures { IfOk result (λ count. count ≡ length (clashes joint.now)) }
{
    let mut clashes = Clashes::new(alloc, joint)?;
    let mut count = 0;
    'clashes: while let Some(_clash) = clashes.next() {
        count = add_counts(count, 1)?;
    }
    Ok(count)
}

/// How many commands the transitions of all logs by the merger have; one transition stands at a time.
pub(crate) fn count_transitions(
    alloc: Global,
    joint: &Joint,
    merger: &CanonSet,
) -> Result<usize, NoMemory>
    requires { IsFirstMergerOf joint.now [] merger.now }
    ensures { IfOk result (λ count. (made : List (List Change)) (m : Store) →
        StandsForAll joint.now made → IsCommonTree m made →
        count ≡ transition_count (at m) merger.now made) }
{
    let mut count = 0;
    'logs: for log in 0..joint.logs() {
        let transition = transition::transition(alloc, joint, merger, log + 1)?;
        count = add_counts(count, transition.len())?;
    }
    Ok(count)
}

/// How many nodes the tree has after a set that fits it, so that only memory can run out.
pub(crate) fn count_nodes(tree: TreeMap, set: &CanonSet) -> Result<usize, NoMemory>
    ensures { IfOk result (λ count. count ≡ length (rows_of (stored tree set.now))) }
{
    let mut tree = tree;
    match replay(&mut tree, set.commands()) {
        Ok(()) => Ok(tree.into_rows()?.len()),
        Err(_) => Err(NoMemory),
    }
}
