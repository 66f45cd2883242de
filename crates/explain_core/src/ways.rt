//! The first chain of a command, by the places of its nodes.

ghost use Rattle.std.specs.Prelude.{◌≡◌, ◌<◌, ◌++◌, ◌∷◌, [], ℕ, List, length, drop, true, false, Some, None, IsTrue, IfOk, MatchOption};
ghost use Rattle.sync_path.specs.Paths.{Node, is_under};
ghost use Rattle.sync_command.specs.Values.{is_dir};
ghost use Rattle.sync_command.specs.Changes.{Change};
ghost use Rattle.refluent.specs.Joints.{IsJoint, path_at};
ghost use Rattle.explain_core.specs.Chains.{is_denied};
ghost use Rattle.explain_core.specs.FirstChains.{first_chain, first_left_under, first_tree, way_down, way_up};
ghost use Rattle.explain_core.specs.Nexts.{AreNexts};
ghost use Rattle.explain_core.specs.Reasons.{AreAt};

use crate::nexts::next_at;
use canon_set::CanonSet;
use refluent::Joint;
use std::alloc::Global;
use sync_command::Command;
use sync_path::NoMemory;

/// The way up from a node to the nearest one above it at which the set has a command, where a directory is denied all
/// along it.
fn way_up(
    alloc: Global,
    joint: &Joint,
    set: &CanonSet,
    place: usize,
) -> Result<Option<Vec<usize>>, NoMemory>
    requires joint { IsJoint joint.now }
    requires place { place < length joint.now.nodes }
    ensures { (n : Node) → path_at joint.now.nodes place ≡ Some n → IfOk result (λ found.
        MatchOption found
        (is_denied is_dir (first_tree joint.now) set.now (way_up set.now n) ≡ false)
        (λ via. AreAt joint.now.nodes via.items (way_up set.now n)
        × IsTrue (is_denied is_dir (first_tree joint.now) set.now (way_up set.now n)))) }
{
    let mut via = Vec::new(alloc);
    let mut at = place;
    'up: while let Some(up) = joint.parent(at) {
        match set.at(joint.node(up)) {
            Some(command) => {
                if command.new_value().is_dir() {
                    return Ok(None);
                }
                via.push(up)?;
                return Ok(Some(via));
            }
            None => {
                if joint.first(up).is_dir() {
                    return Ok(None);
                }
                via.push(up)?;
            }
        }
        at = up;
    }
    Ok(None)
}

/// The first node under another, in path order, at which the set of the table leaves something.
fn first_left_under(joint: &Joint, nexts: &[Option<usize>], place: usize) -> Option<usize>
    requires joint { IsJoint joint.now }
    requires place { place < length joint.now.nodes }
    requires nexts { (ms : List Change) × AreNexts joint.now.nodes ms 0 nexts.now }
    ensures { (ms : List Change) (n : Node) → AreNexts joint.now.nodes ms 0 nexts.now →
        path_at joint.now.nodes place ≡ Some n →
        MatchOption result (first_left_under joint.now.nodes ms n ≡ None)
        (λ low. (p : Node) × (path_at joint.now.nodes low ≡ Some p)
        × (first_left_under joint.now.nodes ms n ≡ Some p) × IsTrue (is_under p n)) }
{
    let _count = joint.nodes();
    let above = joint.node(place);
    let _names = above.depth();
    match next_at(nexts, place + 1) {
        Some(low) => {
            if joint.node(low).under(above) {
                Some(low)
            } else {
                None
            }
        }
        None => None,
    }
}

/// The way down from a node to one under it.
fn way_down(alloc: Global, joint: &Joint, place: usize, low: usize) -> Result<Vec<usize>, NoMemory>
    requires joint { IsJoint joint.now }
    requires under { (n : Node) × (p : Node) × (path_at joint.now.nodes place ≡ Some n)
        × (path_at joint.now.nodes low ≡ Some p) × IsTrue (is_under p n) }
    ensures { (n p : Node) → path_at joint.now.nodes place ≡ Some n →
        path_at joint.now.nodes low ≡ Some p →
        IfOk result (λ via.
        AreAt joint.now.nodes via.items (way_down n (drop (length n) p))) }
{
    let mut via = Vec::new(alloc);
    let mut at = low;
    'down: while at != place {
        via.push(at)?;
        match joint.parent(at) {
            Some(up) => at = up,
            None => unreachable!(),
        }
    }
    via.reverse();
    Ok(via)
}

/// The first chain of the command, whose node is at the place.
pub(crate) fn first_chain(
    alloc: Global,
    joint: &Joint,
    set: &CanonSet,
    nexts: &[Option<usize>],
    place: usize,
    command: &Command,
) -> Result<Vec<usize>, NoMemory>
    requires place { path_at joint.now.nodes place ≡ Some command.now.node }
    requires nexts { AreNexts joint.now.nodes set.now 0 nexts.now }
    ensures { IfOk result (λ via. AreAt joint.now.nodes via.items
        (first_chain joint.now set.now command.now)) }
{
    let _logs = joint.logs();
    if set.at(command.path()).is_some() {
        return Ok(Vec::new(alloc));
    }
    if !command.new_value().is_empty() {
        if let Some(via) = way_up(alloc, joint, set, place)? {
            return Ok(via);
        }
    }
    match first_left_under(joint, nexts, place) {
        Some(low) => way_down(alloc, joint, place, low),
        None => Ok(Vec::new(alloc)),
    }
}
