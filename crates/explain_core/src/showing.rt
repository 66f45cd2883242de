//! Whether a reason's nodes are a chain for its command.

ghost use Rattle.std.specs.Prelude.{◌≡◌, ◌<◌, ◌↔◌, ◌&&◌, ◌||◌, not, is_none, List, length, Some, IsTrue};
ghost use Rattle.sync_path.specs.Paths.{Node};
ghost use Rattle.sync_command.specs.Trees.{command_at};
ghost use Rattle.sync_path.specs.Children.{is_child};
ghost use Rattle.refluent.specs.Joints.{IsJoint, path_at};
ghost use Rattle.refluent.specs.Sets.{is_in};
ghost use Rattle.explain_core.specs.Chains.{denies, is_chain, is_denied, is_downward_chain, is_upward_chain, leads_down, leads_up};
ghost use Rattle.explain_core.specs.FirstChains.{first_tree};
ghost use Rattle.explain_core.specs.Reasons.{AreAt, Shows};
ghost use Rattle.explain_core.specs.Demands.{AreWithin, is_met};

use crate::reasons::Reason;
use canon_set::CanonSet;
use refluent::Joint;
use sync_command::{Command, Value};

/// What a node has to be: a directory, or Empty.
#[derive(Clone, Copy)]
enum Demand {
    Directory,
    Nothing,
}

/// Whether the value meets the demand.
fn is_met(demand: Demand, value: &Value) -> bool
    ensures { result ≡ is_met demand value.now }
{
    match demand {
        Demand::Directory => value.is_dir(),
        Demand::Nothing => value.is_empty(),
    }
}

/// Whether each of the places is one of the joint.
fn are_within(joint: &Joint, places: &[usize]) -> bool
    ensures { IsTrue result ↔ AreWithin (length joint.now.nodes) places.now }
{
    let count = joint.nodes();
    places.iter().all(|place| *place < count)
}

/// Whether the first node is a child of the second.
fn is_child(joint: &Joint, place: usize, above: usize) -> bool
    requires place { place < length joint.now.nodes }
    requires above { above < length joint.now.nodes }
    ensures { (p q : Node) → path_at joint.now.nodes place ≡ Some p →
        path_at joint.now.nodes above ≡ Some q → result ≡ is_child p q }
{
    joint.node(above).parent_of(joint.node(place))
}

/// Whether each node is the parent of the one before it, from the given one on.
fn leads_up(joint: &Joint, place: usize, via: &[usize]) -> bool
    requires place { place < length joint.now.nodes }
    requires via { AreWithin (length joint.now.nodes) via.now }
    ensures { (n : Node) (xs : List Node) → path_at joint.now.nodes place ≡ Some n →
        AreAt joint.now.nodes via.now xs → result ≡ leads_up n xs }
{
    let mut before = place;
    'via: for next in via {
        if !is_child(joint, before, *next) {
            return false;
        }
        before = *next;
    }
    true
}

/// Whether each node is a child of the one before it, from the given one on.
fn leads_down(joint: &Joint, place: usize, via: &[usize]) -> bool
    requires place { place < length joint.now.nodes }
    requires via { AreWithin (length joint.now.nodes) via.now }
    ensures { (n : Node) (xs : List Node) → path_at joint.now.nodes place ≡ Some n →
        AreAt joint.now.nodes via.now xs → result ≡ leads_down n xs }
{
    let mut before = place;
    'via: for next in via {
        if !is_child(joint, *next, before) {
            return false;
        }
        before = *next;
    }
    true
}

/// Whether the set's command at the node leaves a value that does not meet the demand.
fn denies(joint: &Joint, set: &CanonSet, demand: Demand, place: usize) -> bool
    requires { place < length joint.now.nodes }
    ensures { (p : Node) → path_at joint.now.nodes place ≡ Some p →
        result ≡ denies (is_met demand) (command_at set.now p) }
{
    match set.at(joint.node(place)) {
        Some(command) => !is_met(demand, command.new_value()),
        None => false,
    }
}

/// Whether the set has no command at the node, and what the node holds at first does not meet the demand.
fn passes_on(joint: &Joint, set: &CanonSet, demand: Demand, place: usize) -> bool
    requires joint { IsJoint joint.now }
    requires place { place < length joint.now.nodes }
    ensures { (p : Node) → path_at joint.now.nodes place ≡ Some p → result ≡
        (is_none (command_at set.now p) && not (is_met demand (first_tree joint.now p))) }
{
    set.at(joint.node(place)).is_none() && !is_met(demand, joint.first(place))
}

/// Whether the demand is passed on along the nodes, and denied at the last.
fn is_denied(joint: &Joint, set: &CanonSet, demand: Demand, via: &[usize]) -> bool
    requires joint { IsJoint joint.now }
    requires via { AreWithin (length joint.now.nodes) via.now }
    ensures { (xs : List Node) → AreAt joint.now.nodes via.now xs →
        result ≡ is_denied (is_met demand) (first_tree joint.now) set.now xs }
{
    'via: for at in 0..via.len() {
        if at + 1 == via.len() {
            return denies(joint, set, demand, via[at]);
        }
        if !passes_on(joint, set, demand, via[at]) {
            return false;
        }
    }
    false
}

/// Whether the nodes lead up or down from the command's, and its demand is denied at the last.
fn is_way(joint: &Joint, set: &CanonSet, place: usize, command: &Command, via: &[usize]) -> bool
    requires joint { IsJoint joint.now }
    requires place { path_at joint.now.nodes place ≡ Some command.now.node }
    requires via { AreWithin (length joint.now.nodes) via.now }
    ensures { (xs : List Node) → AreAt joint.now.nodes via.now xs → result ≡
        (is_upward_chain (first_tree joint.now) set.now command.now xs
        || is_downward_chain (first_tree joint.now) set.now command.now xs) }
{
    let value = command.new_value();
    (!value.is_empty()
        && leads_up(joint, place, via)
        && is_denied(joint, set, Demand::Directory, via))
        || (!value.is_dir()
            && leads_down(joint, place, via)
            && is_denied(joint, set, Demand::Nothing, via))
}

/// Whether the nodes are a chain for the command, which is a net command of a log and names the node at the place.
fn is_chain(joint: &Joint, set: &CanonSet, place: usize, command: &Command, via: &[usize]) -> bool
    requires joint { IsJoint joint.now }
    requires place { path_at joint.now.nodes place ≡ Some command.now.node }
    requires via { AreWithin (length joint.now.nodes) via.now }
    ensures { (xs : List Node) → AreAt joint.now.nodes via.now xs → result ≡
        (not (is_in set.now command.now)
        && is_chain (first_tree joint.now) set.now command.now xs) }
{
    let _commands = set.commands();
    match set.at(command.path()) {
        Some(own) => via.is_empty() && !own.same(command),
        None => !via.is_empty() && is_way(joint, set, place, command, via),
    }
}

/// Whether a reason holds ("Reasons" in `docs/MODEL.md`): its places are the joint's and its log is one of them, the log
/// has a net command at the node, that command is not in the set, and the nodes of the other places are a chain for
/// it. Takes no memory.
///
/// For a drawn set that fits the common trees, a command with a chain can never stand beside the whole set.
pub fn shows(joint: &Joint, set: &CanonSet, reason: &Reason) -> bool
    ensures { IsTrue result ↔ Shows joint.now set.now reason.now }
{
    let via = reason.via.as_slice();
    if reason.log == 0 || joint.logs() < reason.log {
        return false;
    }
    if joint.nodes() <= reason.node || !are_within(joint, via) {
        return false;
    }
    match joint.set(reason.log).at(joint.node(reason.node)) {
        Some(command) => is_chain(joint, set, reason.node, command, via),
        None => false,
    }
}
