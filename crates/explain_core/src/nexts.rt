//! For each place the next node at which a set leaves something.

ghost use Rattle.std.specs.Prelude.{◌≡◌, ◌<◌, length, Some, IfOk};
ghost use Rattle.sync_path.specs.Paths.{Node};
ghost use Rattle.sync_command.specs.Values.{is_empty};
ghost use Rattle.sync_command.specs.Trees.{command_at};
ghost use Rattle.refluent.specs.Joints.{path_at};
ghost use Rattle.explain_core.specs.Chains.{denies};
ghost use Rattle.explain_core.specs.Nexts.{AreNexts, next_at};

use canon_set::CanonSet;
use refluent::Joint;
use std::alloc::Global;
use sync_path::NoMemory;

/// Whether a command of the set leaves something at the node of a place.
fn is_left(joint: &Joint, set: &CanonSet, place: usize) -> bool
    requires { place < length joint.now.nodes }
    ensures { (p : Node) → path_at joint.now.nodes place ≡ Some p →
        result ≡ denies is_empty (command_at set.now p) }
{
    match set.at(joint.node(place)) {
        Some(command) => !command.new_value().is_empty(),
        None => false,
    }
}

/// What a table has for a place; nothing past its end.
pub(crate) fn next_at(nexts: &[Option<usize>], place: usize) -> Option<usize>
    ensures { result ≡ next_at nexts.now place }
{
    match nexts.get(place) {
        Some(next) => *next,
        None => None,
    }
}

/// For each place the first one, not before it, of a node at which a command of the set leaves something.
pub(crate) fn nexts_of(
    alloc: Global,
    joint: &Joint,
    set: &CanonSet,
) -> Result<Vec<Option<usize>>, NoMemory>
    ensures { IfOk result (λ nexts. AreNexts joint.now.nodes set.now 0 nexts.items) }
{
    let count = joint.nodes();
    let mut nexts: Vec<Option<usize>> = vec![in alloc; None; count]?;
    let mut next = None;
    'places: for done in 0..count {
        let place = count - 1 - done;
        if is_left(joint, set, place) {
            next = Some(place);
        }
        nexts[place] = next;
    }
    Ok(nexts)
}
