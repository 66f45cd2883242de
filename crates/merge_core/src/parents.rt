//! The parents of the nodes of a joint.

ghost use Rattle.std.specs.Prelude.{IfOk};
ghost use Rattle.refluent.specs.Joints.{IsJoint};
ghost use Rattle.merge_core.specs.Parents.{AreParentsOf};

use refluent::Joint;
use std::alloc::Global;
use sync_path::NoMemory;

/// The places of the parents of all nodes.
pub(crate) fn parents_of(alloc: Global, joint: &Joint) -> Result<Vec<Option<usize>>, NoMemory>
    requires { IsJoint joint.now }
    ensures { IfOk result (λ parents. AreParentsOf joint.now.nodes parents.items) }
{
    let count = joint.nodes();
    let mut parents = Vec::with_capacity(alloc, count)?;
    'nodes: for place in 0..count {
        parents.push(joint.parent(place))?;
    }
    Ok(parents)
}
