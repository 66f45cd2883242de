//! The nodes of the net commands of joined logs.

ghost use Rattle.std.specs.Prelude.{◌≡◌, ◌<◌, ◌≤◌, true, length, slice_get, Some, IfOk, IfSome, IfNone, ℕ};
ghost use Rattle.sync_command.specs.Changes.{is_canonical};
ghost use Rattle.refluent.specs.Joints.{path_at, is_ascending};
ghost use Rattle.pref_list.specs.Ranking.{set_of};
ghost use Rattle.pref_list.specs.Numbers.{IsNodeAt, AreAllNodesOf};

use refluent::Joint;
use std::alloc::Global;
use std::cmp::Ordering;
use sync_command::Command;
use sync_path::{NoMemory, Path};

/// The place of a path among the joint's nodes, by halving; `None` exactly where it is none of them. Takes no memory.
pub fn find_node(joint: &Joint, path: &Path) -> Option<usize>
    requires { is_ascending joint.now.nodes ≡ true }
    ensures some { IfSome result (λ place. IsNodeAt joint.now.nodes place path.now) }
    ensures none { IfNone result ((place : ℕ) → IsNodeAt joint.now.nodes place path.now →
        ⊥) }
{
    let mut low = 0;
    let mut high = joint.nodes();
    'halving: while low < high {
        let middle = low + (high - low) / 2;
        match joint.node(middle).cmp(path) {
            Ordering::Equal => return Some(middle),
            Ordering::Less => low = middle + 1,
            Ordering::Greater => high = middle,
        }
    }
    None
}

/// The net commands of a log, in the admissible order; logs count from 1.
pub(crate) fn commands_of(joint: &Joint, log: u32) -> &[Command]
    requires { (0 < log) × (log ≤ length joint.now.sets) }
    ensures commands { result.now ≡ set_of joint.now.sets log }
    ensures order { is_canonical result.now ≡ true }
{
    joint.set(log).commands()
}

/// The places of the nodes that the net commands name, one list for each log.
pub fn nodes_of(alloc: Global, joint: &Joint) -> Result<Vec<Vec<usize>>, NoMemory>
    ensures { IfOk result (λ lists. AreAllNodesOf joint.now.nodes joint.now.sets lists.items) }
{
    let count = joint.logs();
    let mut lists = Vec::with_capacity(alloc, count as usize)?;
    'logs: for log in 0..count {
        let commands = commands_of(joint, log + 1);
        lists.push(vec![in alloc; 0; commands.len()]?)?;
    }
    'nodes: for node in 0..joint.nodes() {
        'picks: for pick in joint.commands(node) {
            lists[pick.log as usize - 1][pick.place] = node;
        }
    }
    Ok(lists)
}
