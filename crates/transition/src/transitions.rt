//! The transition of a log by a merger.

ghost use Rattle.std.specs.Prelude.{◌≡◌, ◌<◌, ◌≤◌, ◌++◌, length, IfOk, OnOk};
ghost use Rattle.std.specs.List.{filter, flat_map};
ghost use Rattle.sync_command.specs.Trees.{command_at, new_or};
ghost use Rattle.refluent.specs.Drawn.{drawn_of};
ghost use Rattle.refluent.specs.Sets.{IsSubset};
ghost use Rattle.transition.specs.Transitions.{FitsCommonTrees, IsTransitionOf};
ghost use Rattle.transition.specs.Parts.{difference, undone, is_missing};

use canon_set::CanonSet;
use refluent::Joint;
use std::alloc::Global;
use sync_command::{Command, Value};
use sync_path::{NoMemory, Path};

/// Appends the command at the node from one value to another, where the two differ.
fn push_difference(
    alloc: Global,
    commands: &mut Vec<Command>,
    path: &Path,
    old: &Value,
    new_value: &Value,
) -> Result<(), NoMemory>
    ensures { OnOk result
        (commands.new.items ≡ commands.old.items ++ difference path.now old.now new_value.now) }
{
    if old.same(new_value) {
        return Ok(());
    }
    let path = path.copy(alloc)?;
    let old = old.copy(alloc)?;
    let new_value = new_value.copy(alloc)?;
    if let Ok(command) = Command::new(path, old, new_value) {
        commands.push(command)?;
    }
    Ok(())
}

/// The value that the merger leaves at the node of a net command: that of its command there, or the old one.
fn target<'a>(merger: &'a CanonSet, command: &'a Command) -> &'a Value
    ensures { result.now ≡
        new_or (command_at merger.now command.now.node) command.now.old }
{
    match merger.at(command.path()) {
        Some(merged) => merged.new_value(),
        None => command.old(),
    }
}

/// The commands at the nodes that the log's net set names, from its value there to the merger's.
fn undo(alloc: Global, net: &CanonSet, merger: &CanonSet) -> Result<Vec<Command>, NoMemory>
    ensures { IfOk result (λ commands. commands.items ≡ flat_map (undone merger.now) net.now) }
{
    let mut commands = Vec::new(alloc);
    'net: for command in net.commands() {
        let merged = target(merger, command);
        push_difference(
            alloc,
            &mut commands,
            command.path(),
            command.new_value(),
            merged,
        )?;
    }
    Ok(commands)
}

/// Appends the merger's commands at the nodes that the log's net set does not name.
fn add_missing(
    alloc: Global,
    net: &CanonSet,
    merger: &CanonSet,
    commands: &mut Vec<Command>,
) -> Result<(), NoMemory>
    ensures { OnOk result
        (commands.new.items ≡ commands.old.items ++ filter (is_missing net.now) merger.now) }
{
    'merger: for command in merger.commands() {
        if net.at(command.path()).is_none() {
            commands.push(command.copy(alloc)?)?;
        }
    }
    Ok(())
}

/// The transition of a log by a drawn set that fits the common trees ("Transition" in `docs/MODEL.md`): the commands that
/// lead from the log's result on a common tree to that of the set. Logs count from 1. It looks only at what the log and
/// the set name.
pub fn transition(
    alloc: Global,
    joint: &Joint,
    set: &CanonSet,
    log: u32,
) -> Result<CanonSet, NoMemory>
    requires log { (0 < log) × (log ≤ length joint.now.sets) }
    requires drawn { IsSubset set.now (drawn_of joint.now.sets) }
    requires fits { FitsCommonTrees joint.now set.now }
    ensures { IfOk result (IsTransitionOf joint.now log set.now) }
{
    let _logs = joint.logs();
    let net = joint.set(log);
    let mut commands = undo(alloc, net, set)?;
    add_missing(alloc, net, set, &mut commands)?;
    let transition = CanonSet::from_parts(alloc, commands)?;
    Ok(transition)
}
