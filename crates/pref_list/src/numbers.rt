//! The numbers of the drawn commands: equal net commands of several logs have one.

ghost use Rattle.std.specs.Prelude.{◌≡◌, ◌<◌, ◌≤◌, ◌+◌, ◌-◌, [], ℕ, true, length, slice_get, Some, IfOk, OnOk, IfSome, IfNone};
ghost use Rattle.sync_command.specs.Changes.{Change};
ghost use Rattle.refluent.specs.Joints.{IsJoint};
ghost use Rattle.refluent.specs.declared.joint.Pick.{Pick};
ghost use Rattle.pref_list.specs.Ranking.{set_of};
ghost use Rattle.pref_list.specs.Picks.{command_of, log_of};
ghost use Rattle.pref_list.specs.Numbers.{IsNodeAt, IsPick, IsLastOf, AreLinked, AreCovered, AreNodesOf, AreNumbersOf, AreBefore, KeepNumbers, AddsPick, numbered, IsChainsOf, IsNumberingOf};

use crate::nodes::{commands_of, nodes_of};
use refluent::{Joint, Pick};
use std::alloc::Global;
use sync_command::Command;
use sync_path::NoMemory;

/// The drawn commands, numbered from 0 by their least log and then by their place in its net set: the pick of each, and
/// the number of each net command, one list for each log.
#[derive(Debug, Drop)]
pub struct Numbers {
    pub picks: Vec<Pick>,
    pub lists: Vec<Vec<usize>>,
}

/// The drawn commands so far; for each node the last number of a command that names it, and for each number the one
/// before it with the same node.
#[derive(Drop)]
struct Chains {
    picks: Vec<Pick>,
    heads: Vec<Option<usize>>,
    nexts: Vec<Option<usize>>,
}

/// The command of a pick.
pub fn command_at(joint: &Joint, pick: Pick) -> &Command
    requires { IsPick joint.now.sets pick }
    ensures { command_of joint.now.sets pick ≡ Some result.now }
{
    &commands_of(joint, pick.log)[pick.place]
}

/// The number of an equal command, if there is one among those that name the node. Net commands of one node have one
/// old value, so their new values are compared alone.
fn find(
    joint: &Joint,
    picks: &[Pick],
    nexts: &[Option<usize>],
    head: Option<usize>,
    command: &Command,
) -> Option<usize>
    requires joint { IsJoint joint.now }
    requires net { (pick : Pick) × (command_of joint.now.sets pick ≡ Some command.now) }
    requires linked { AreLinked joint.now.sets picks.now nexts.now }
    requires head { IsLastOf joint.now.sets picks.now command.now.node (length picks.now) head }
    ensures some { IfSome result (λ m. numbered joint.now.sets picks.now m ≡ Some command.now) }
    ensures none { IfNone result ((m : ℕ) → numbered joint.now.sets picks.now m ≡
        Some command.now → ⊥) }
{
    let mut at = head;
    'chain: while let Some(number) = at {
        let other = command_at(joint, picks[number]);
        if other.new_value().same(command.new_value()) {
            return Some(number);
        }
        at = nexts[number];
    }
    None
}

/// Gives a command of the node the next number.
fn add(chains: &mut Chains, node: usize, pick: Pick) -> Result<usize, NoMemory>
    requires { node < length chains.old.heads.items }
    ensures { IfOk result (λ m.
        AddsPick chains.old.picks.items chains.old.heads.items chains.old.nexts.items node pick
        chains.new.picks.items chains.new.heads.items chains.new.nexts.items m) }
{
    let number = chains.picks.len();
    let head = chains.heads[node];
    chains.picks.push(pick)?;
    chains.nexts.push(head)?;
    chains.heads[node] = Some(number);
    Ok(number)
}

/// The number of a net command that names the node: that of an equal one, or the next.
fn number(joint: &Joint, chains: &mut Chains, node: usize, pick: Pick) -> Result<usize, NoMemory>
    requires joint { IsJoint joint.now }
    requires chained { IsChainsOf joint.now chains.old }
    requires pick { IsPick joint.now.sets pick }
    requires node { (c : Change) → command_of joint.now.sets pick ≡ Some c →
        IsNodeAt joint.now.nodes node c.node }
    requires covered { AreCovered joint.now.sets chains.old.picks.items (pick.log - 1) }
    requires before { AreBefore chains.old.picks.items pick.log pick.place }
    ensures chained { OnOk result (IsChainsOf joint.now chains.new) }
    ensures before { OnOk result (AreBefore chains.new.picks.items pick.log (pick.place + 1)) }
    ensures number { IfOk result (λ m.
        numbered joint.now.sets chains.new.picks.items m ≡ command_of joint.now.sets pick) }
    ensures kept { OnOk result (KeepNumbers joint.now.sets chains.old.picks.items
        chains.new.picks.items) }
{
    let command = command_at(joint, pick);
    let head = chains.heads[node];
    let found = find(joint, &chains.picks, &chains.nexts, head, command);
    match found {
        Some(number) => Ok(number),
        None => {
            let number = add(chains, node, pick)?;
            Ok(number)
        }
    }
}

/// The numbers of a log's net commands; those of the logs before it are numbered.
fn number_set(
    alloc: Global,
    joint: &Joint,
    chains: &mut Chains,
    log: u32,
    nodes: &[usize],
) -> Result<Vec<usize>, NoMemory>
    requires log { (0 < log) × (log ≤ length joint.now.sets) }
    requires joint { IsJoint joint.now }
    requires chained { IsChainsOf joint.now chains.old }
    requires nodes { AreNodesOf joint.now.nodes (set_of joint.now.sets log) nodes.now }
    requires covered { AreCovered joint.now.sets chains.old.picks.items (log - 1) }
    requires before { AreBefore chains.old.picks.items log 0 }
    ensures chained { OnOk result (IsChainsOf joint.now chains.new) }
    ensures before { OnOk result (AreBefore chains.new.picks.items (log + 1) 0) }
    ensures numbers { IfOk result (λ numbers.
        AreNumbersOf joint.now.sets chains.new.picks.items (set_of joint.now.sets log)
        numbers.items) }
    ensures kept { OnOk result (KeepNumbers joint.now.sets chains.old.picks.items
        chains.new.picks.items) }
{
    let count = commands_of(joint, log).len();
    let mut numbers = Vec::with_capacity(alloc, count)?;
    'places: for place in 0..count {
        let own = number(joint, chains, nodes[place], Pick { log, place })?;
        numbers.push(own)?;
    }
    Ok(numbers)
}

/// Nothing is numbered.
fn no_chains(alloc: Global, joint: &Joint) -> Result<Chains, NoMemory>
    ensures chained { IfOk result (IsChainsOf joint.now) }
    ensures none { IfOk result (λ chains. chains.picks.items ≡ []) }
{
    let none: Option<usize> = None;
    Ok(Chains {
        picks: Vec::new(alloc),
        heads: vec![in alloc; none; joint.nodes()]?,
        nexts: Vec::new(alloc),
    })
}

/// Numbers the drawn commands of a joint.
pub fn number_all(alloc: Global, joint: &Joint) -> Result<Numbers, NoMemory>
    ensures { IfOk result (IsNumberingOf joint.now) }
{
    let nodes = nodes_of(alloc, joint)?;
    let count = joint.logs();
    let mut chains = no_chains(alloc, joint)?;
    let mut lists = Vec::with_capacity(alloc, count as usize)?;
    'logs: for log in 0..count {
        let places = &nodes[log as usize];
        let numbers = number_set(alloc, joint, &mut chains, log + 1, places)?;
        lists.push(numbers)?;
    }
    let Chains { picks, .. } = chains;
    Ok(Numbers { picks, lists })
}
