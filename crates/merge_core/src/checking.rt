//! Whether a set is a merger, and if not, why.

ghost use Rattle.std.specs.Prelude.{◌≡◌, ◌<◌, ◌≤◌, not, List, length, find, slice_get, Some, IfOk, IsTrue};
ghost use Rattle.std.specs.Option.{option_copied};
ghost use Rattle.sync_path.specs.Paths.{Node};
ghost use Rattle.sync_command.specs.declared.values.Value.{Value};
ghost use Rattle.sync_command.specs.declared.commands.Row.{Row};
ghost use Rattle.sync_command.specs.Changes.{Change};
ghost use Rattle.refluent.specs.Sets.{is_in};
ghost use Rattle.refluent.specs.Drawn.{in_turn};
ghost use Rattle.refluent.specs.Families.{IsFirstPlace};
ghost use Rattle.refluent.specs.Picks.{net_commands};
ghost use Rattle.refluent.specs.Joints.{IsJoint, path_at, value_at};
ghost use Rattle.pref_list.specs.Ranking.{set_of};
ghost use Rattle.pref_list.specs.Numbers.{AreNodesOf, AreAllNodesOf};
ghost use Rattle.merge_core.specs.Parents.{AreParentsOf};
ghost use Rattle.merge_core.specs.Verdicts.{IsVerdictOf};
ghost use Rattle.merge_core.specs.Afterwards.{IsLeastLog, IsAfter, AreAfter, AreFilled, IsAddable, IsPlaceOf, IsFirstPick, is_bare, marked, is_misfit, can_add};

use crate::parents::parents_of;
use canon_set::CanonSet;
use pref_list::{command_at, find_node, nodes_of};
use refluent::{Joint, Pick};
use std::alloc::Global;
use sync_command::Command;
use sync_path::{NoMemory, Path};

/// What a set is for joined logs.
#[derive(Debug, Drop)]
pub enum Verdict {
    /// It is a merger.
    Merger,
    /// A command of the set is of no log's net set; its node.
    NotDrawn { path: Path },
    /// The set leaves a node, which is not empty, under one that is no directory.
    DoesNotFit { path: Path },
    /// A net command of a log fits with the set; its log and its node.
    CanAdd { log: u32, path: Path },
}

/// What a node is after a set: whether the set names it, and what it holds then.
#[derive(Clone, Copy)]
pub(crate) struct After {
    named: bool,
    empty: bool,
    dir: bool,
}

/// The log of the first pick of the command among the net commands that name its node.
fn first_log(joint: &Joint, picks: &[Pick], command: &Command) -> Option<u32>
    requires { picks.now ≡ net_commands joint.now.sets command.now.node }
    ensures { IsLeastLog joint.now.sets command.now result }
{
    let _logs = joint.logs();
    'picks: for at in 0..picks.len() {
        let pick = picks[at];
        if command_at(joint, pick).same(command) {
            return Some(pick.log);
        }
    }
    None
}

/// The least log that has the command.
pub(crate) fn log_of(joint: &Joint, command: &Command) -> Option<u32>
    ensures { IsLeastLog joint.now.sets command.now result }
{
    let _logs = joint.logs();
    match find_node(joint, command.path()) {
        Some(place) => first_log(joint, joint.commands(place), command),
        None => None,
    }
}

/// Whether some log has the command.
fn is_drawn(joint: &Joint, command: &Command) -> bool
    ensures { result ≡ is_in (in_turn joint.now.sets) command.now }
{
    match log_of(joint, command) {
        Some(_) => true,
        None => false,
    }
}

/// The first command that no log has.
fn first_undrawn<'a>(joint: &Joint, commands: &'a [Command]) -> Option<&'a Command>
    ensures { option_copied result ≡
        find (λ c. not (is_in (in_turn joint.now.sets) c)) commands.now }
{
    commands.iter().find(|command| !is_drawn(joint, command))
}

/// What the node at a place is after the set.
fn after_at(joint: &Joint, set: &CanonSet, place: usize) -> After
    requires { place < length joint.now.nodes }
    ensures { (p : Node) (v : Value) → path_at joint.now.nodes place ≡ Some p →
        value_at joint.now.nodes place ≡ Some v → IsAfter set.now p v result }
{
    let (named, value) = match set.at(joint.node(place)) {
        Some(command) => (true, command.new_value()),
        None => (false, joint.first(place)),
    };
    After {
        named,
        empty: value.is_empty(),
        dir: value.is_dir(),
    }
}

/// What all nodes are after the set.
fn all_after(alloc: Global, joint: &Joint, set: &CanonSet) -> Result<Vec<After>, NoMemory>
    ensures { IfOk result (λ seen. AreAfter joint.now.nodes set.now seen.items) }
{
    let count = joint.nodes();
    let mut seen = Vec::with_capacity(alloc, count)?;
    'nodes: for place in 0..count {
        seen.push(after_at(joint, set, place))?;
    }
    Ok(seen)
}

/// Whether the node has a parent that is no directory.
fn is_bare(parents: &[Option<usize>], seen: &[After], place: usize) -> bool
    requires parents { (nodes : List Row) × AreParentsOf nodes parents.now }
    requires many { length seen.now ≡ length parents.now }
    requires place { place < length parents.now }
    ensures { result ≡ is_bare seen.now (slice_get parents.now place) }
{
    match parents[place] {
        Some(upper) => !seen[upper].dir,
        None => false,
    }
}

/// The first node that is not empty, and whose parent is no directory.
fn first_misfit(parents: &[Option<usize>], seen: &[After]) -> Option<usize>
    requires parents { (nodes : List Row) × AreParentsOf nodes parents.now }
    requires many { length seen.now ≡ length parents.now }
    ensures { IsFirstPlace (λ i. IsTrue (is_misfit parents.now seen.now i)) 0 (length
        parents.now) result }
{
    'nodes: for place in 0..parents.len() {
        if !seen[place].empty && is_bare(parents, seen, place) {
            return Some(place);
        }
    }
    None
}

/// For each node whether a child of it is not empty.
fn filled_by(
    alloc: Global,
    parents: &[Option<usize>],
    seen: &[After],
) -> Result<Vec<bool>, NoMemory>
    requires parents { (nodes : List Row) × AreParentsOf nodes parents.now }
    requires many { length seen.now ≡ length parents.now }
    ensures { IfOk result (λ filled. AreFilled parents.now seen.now (length parents.now)
        filled.items) }
{
    let mut filled = vec![in alloc; false; parents.len()]?;
    'nodes: for place in 0..parents.len() {
        if !seen[place].empty {
            mark_parent(parents, place, &mut filled);
        }
    }
    Ok(filled)
}

/// Sets the flag of the node's parent, which a root has not.
fn mark_parent(parents: &[Option<usize>], place: usize, filled: &mut Vec<bool>)
    requires parents { (nodes : List Row) × AreParentsOf nodes parents.now }
    requires many { length filled.old.items ≡ length parents.now }
    requires place { place < length parents.now }
    ensures { filled.new.items ≡ marked filled.old.items (slice_get parents.now place) }
{
    if let Some(upper) = parents[place] {
        filled[upper] = true;
    }
}

/// Whether the command, which names the node at the place, can be added.
fn can_add(
    parents: &[Option<usize>],
    seen: &[After],
    filled: &[bool],
    place: usize,
    command: &Command,
) -> bool
    requires parents { (nodes : List Row) × AreParentsOf nodes parents.now }
    requires many { length seen.now ≡ length parents.now }
    requires filled { length filled.now ≡ length parents.now }
    requires place { place < length parents.now }
    ensures { result ≡ can_add parents.now seen.now filled.now place command.now }
{
    let value = command.new_value();
    !seen[place].named
        && (value.is_empty() || !is_bare(parents, seen, place))
        && (value.is_dir() || !filled[place])
}

/// The first net command of a log that can be added, by its place.
fn first_in_log(
    joint: &Joint,
    log: u32,
    nodes: &[usize],
    parents: &[Option<usize>],
    seen: &[After],
    filled: &[bool],
) -> Option<usize>
    requires log { (0 < log) × (log ≤ length joint.now.sets) }
    requires nodes { AreNodesOf joint.now.nodes (set_of joint.now.sets log) nodes.now }
    requires parents { AreParentsOf joint.now.nodes parents.now }
    requires many { length seen.now ≡ length parents.now }
    requires filled { length filled.now ≡ length parents.now }
    ensures { IsFirstPlace (IsPlaceOf (set_of joint.now.sets log) (IsAddable joint.now.nodes
        parents.now seen.now filled.now)) 0 (length (set_of joint.now.sets log)) result }
{
    let commands = joint.set(log).commands();
    'places: for place in 0..commands.len() {
        if can_add(parents, seen, filled, nodes[place], &commands[place]) {
            return Some(place);
        }
    }
    None
}

/// The first net command that can be added, by log and then in the admissible order.
fn first_addable(
    joint: &Joint,
    nodes: &[Vec<usize>],
    parents: &[Option<usize>],
    seen: &[After],
    filled: &[bool],
) -> Option<Pick>
    requires nodes { AreAllNodesOf joint.now.nodes joint.now.sets nodes.now }
    requires parents { AreParentsOf joint.now.nodes parents.now }
    requires many { length seen.now ≡ length parents.now }
    requires filled { length filled.now ≡ length parents.now }
    ensures { IsFirstPick joint.now.sets (IsAddable joint.now.nodes parents.now seen.now
        filled.now) result }
{
    'logs: for log in 0..joint.logs() {
        let own = &nodes[log as usize];
        if let Some(place) = first_in_log(joint, log + 1, own, parents, seen, filled) {
            return Some(Pick {
                log: log + 1,
                place,
            });
        }
    }
    None
}

/// The first thing that keeps a set from being a merger of the joined logs, or that nothing does ("Verdict" in
/// `docs/MODEL.md`).
///
/// `NotDrawn` has the node of the set's first command that no log's net set has, in the admissible order. `DoesNotFit`
/// has the first node, in path order, that is not empty after the set and whose parent is no directory then. `CanAdd`
/// has the log and the node of the first net command that fits with the set and is none of its own, by log and then in
/// the admissible order. Otherwise the set is a merger, for every common tree.
pub fn check(alloc: Global, joint: &Joint, set: &CanonSet) -> Result<Verdict, NoMemory>
    ensures { IfOk result (IsVerdictOf joint.now set.now) }
{
    let _logs = joint.logs();
    if let Some(command) = first_undrawn(joint, set.commands()) {
        let path = command.path().copy(alloc)?;
        return Ok(Verdict::NotDrawn { path });
    }
    let parents = parents_of(alloc, joint)?;
    let seen = all_after(alloc, joint, set)?;
    if let Some(place) = first_misfit(&parents, &seen) {
        let path = joint.node(place).copy(alloc)?;
        return Ok(Verdict::DoesNotFit { path });
    }
    let nodes = nodes_of(alloc, joint)?;
    let filled = filled_by(alloc, &parents, &seen)?;
    match first_addable(joint, &nodes, &parents, &seen, &filled) {
        Some(pick) => {
            let path = command_at(joint, pick).path().copy(alloc)?;
            Ok(Verdict::CanAdd {
                log: pick.log,
                path,
            })
        }
        None => Ok(Verdict::Merger),
    }
}
