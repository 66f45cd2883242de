//! `round`, which looks at every tree before it changes the first.

ghost use Rattle.std.specs.Prelude.{◌≡◌, ◌<◌, ◌≤◌, ⊤, List, length, map};
ghost use Rattle.sync_command.specs.Maps.{Store};
ghost use Rattle.refluent.specs.Drawn.{drawn_of};
ghost use Rattle.refluent.specs.Sets.{IsSubset};
ghost use Rattle.transition.specs.Transitions.{FitsCommonTrees};
ghost use Rattle.sync_round.specs.Rounds.{OfRound};
ghost use Rattle.sync_round.specs.Rounding.{IsReadyIfKnown, Rounds};
ghost use Rattle.sync_round.specs.KnownRounds.{AreHeld, RoundsKnown};
ghost use Rattle.sync_round.specs.Walking.{AreReadyIfKnown, Leads, Looks, LooksAtAll, set_of};

use crate::RoundFault;
use crate::faults::fault_of;
use canon_set::CanonSet;
use refluent::Joint;
use resume_apply::{ApplyFault, finish, prepare};
use std::alloc::Global;
use transition::transition;
use tree_port::Tree;

/// Looks whether the tree of this number is ready for the transition of the log of this number. Nothing is changed.
fn look_at(
    alloc: Global,
    joint: &Joint,
    set: &CanonSet,
    number: u32,
    tree: &mut Box<dyn Tree>,
) -> Result<(), RoundFault>
    requires number { (0 < number) × (number ≤ length joint.now.sets) }
    requires drawn { IsSubset set.now (drawn_of joint.now.sets) }
    requires fits { FitsCommonTrees joint.now set.now }
    ensures { OfRound joint.now set.now (λ sets.
        Looks number (set_of sets number) result (live tree.old) (live tree.new)) }
{
    let transition = transition(alloc, joint, set, number)?;
    match prepare(alloc, tree, &transition) {
        Ok(_) => Ok(()),
        Err(fault) => Err(fault_of(number, fault)),
    }
}

/// Looks at all the trees, the first one first.
fn look_at_all(
    alloc: Global,
    joint: &Joint,
    set: &CanonSet,
    trees: &mut Vec<Box<dyn Tree>>,
) -> Result<(), RoundFault>
    requires many { length trees.old.items ≡ length joint.now.sets }
    requires drawn { IsSubset set.now (drawn_of joint.now.sets) }
    requires fits { FitsCommonTrees joint.now set.now }
    ensures { OfRound joint.now set.now (λ sets. LooksAtAll sets result
        (map (λ tree. live tree) trees.old.items) (map (λ tree. live tree) trees.new.items)) }
{
    'trees: for place in 0..joint.logs() {
        look_at(alloc, joint, set, place + 1, &mut trees[place as usize])?;
    }
    Ok(())
}

/// Leads the tree of this number on to the end of the transition of the log of this number, and gives the number of
/// changes.
fn lead_on(
    alloc: Global,
    joint: &Joint,
    set: &CanonSet,
    number: u32,
    tree: &mut Box<dyn Tree>,
) -> Result<u64, RoundFault>
    requires number { (0 < number) × (number ≤ length joint.now.sets) }
    requires drawn { IsSubset set.now (drawn_of joint.now.sets) }
    requires fits { FitsCommonTrees joint.now set.now }
    requires ready { OfRound joint.now set.now (λ sets.
        IsReadyIfKnown (set_of sets number) (live tree.old)) }
    ensures { OfRound joint.now set.now (λ sets.
        Leads number (set_of sets number) result (live tree.old) (live tree.new)) }
{
    let _logs = joint.logs();
    let transition = transition(alloc, joint, set, number)?;
    match finish(tree, &transition) {
        Ok(changes) => Ok(changes),
        Err(fault) => Err(fault_of(number, ApplyFault::from(fault))),
    }
}

/// Leads all the trees to their ends, the first one first, and gives the number of changes. Past `u64::MAX`, which no
/// machine comes to, it is `Memory`.
fn lead_all_on(
    alloc: Global,
    joint: &Joint,
    set: &CanonSet,
    trees: &mut Vec<Box<dyn Tree>>,
) -> Result<u64, RoundFault>
    requires many { length trees.old.items ≡ length joint.now.sets }
    requires drawn { IsSubset set.now (drawn_of joint.now.sets) }
    requires fits { FitsCommonTrees joint.now set.now }
    requires ready { OfRound joint.now set.now (λ sets.
        AreReadyIfKnown sets (map (λ tree. live tree) trees.old.items)) }
    ensures { OfRound joint.now set.now (λ sets. Rounds sets result
        (map (λ tree. live tree) trees.old.items) (map (λ tree. live tree) trees.new.items)) }
{
    let mut changes = 0u64;
    'trees: for place in 0..joint.logs() {
        let more = lead_on(alloc, joint, set, place + 1, &mut trees[place as usize])?;
        changes = changes.checked_add(more).ok_or(RoundFault::Memory)?;
    }
    Ok(changes)
}

/// Leads each tree of a list to the result of a drawn set that fits the common trees, as a merger is, by the transition
/// of the log of its number, and gives the number of all changes ("Rounds" in `docs/MODEL.md`). There are as many trees
/// as logs.
///
/// Every tree is looked at for its transition before one is changed, tree 1 first in both walks; one transition is held
/// at a time. Where a tree is not ready no tree is changed, and `Diverged` or `Blocked` names the first one that is not,
/// with the node that `prepare` names. `Failed` and `Denied` name the tree whose call was refused, which it counted; a
/// tree that is known denies nothing. `RoundFault::Memory` says that memory ran out here or in a tree, or that the
/// changes are more than `u64::MAX`, to which no machine comes.
///
/// At every exit either no tree was changed, or each one is on its way: it was ready, is ready with the same target, and
/// holds outside its transition's nodes what it held. So another call goes on from there. After `Ok` each tree is its
/// target, and the number is all the work that was left. Each change that a tree counts takes one off its work.
///
/// The clause that always holds says to callers in other crates that the trees in the boxes are the ones that they put
/// there ("Boxes of trees" in `docs/DECISIONS.md`).
pub fn round(
    alloc: Global,
    joint: &Joint,
    set: &CanonSet,
    trees: &mut Vec<Box<dyn Tree>>,
) -> Result<u64, RoundFault>
    requires boxes { ⊤ }
    requires many { length trees.old.items ≡ length joint.now.sets }
    requires drawn { IsSubset set.now (drawn_of joint.now.sets) }
    requires fits { FitsCommonTrees joint.now set.now }
    ensures leaves { OfRound joint.now set.now (λ sets. Rounds sets result
        (map (λ tree. live tree) trees.old.items) (map (λ tree. live tree) trees.new.items)) }
    ensures of_known { OfRound joint.now set.now (λ sets. (maps : List Store) →
        AreHeld (map (λ tree. live tree) trees.old.items) maps →
        RoundsKnown sets maps result (map (λ tree. live tree) trees.new.items)) }
{
    let _logs = joint.logs();
    look_at_all(alloc, joint, set, trees)?;
    lead_all_on(alloc, joint, set, trees)
}
