//! `Reason`, and `Reasons`, which gives them.

ghost use Rattle.std.specs.Prelude.{◌≡◌, [], ◌∷◌, IfOk, OnErr, MatchOption};
ghost use Rattle.explain_core.specs.Reasons.{IsMergerOf, reasons};

use crate::places::Places;
use crate::walk::Walk;
use canon_set::CanonSet;
use refluent::Joint;
use std::alloc::Global;
use std::marker::Model;
use sync_path::NoMemory;

/// Why a drawn command is left out of a set ("Reasons" in `docs/MODEL.md`). Places are those of the joint.
#[derive(Debug, Drop)]
pub struct Reason {
    /// A log that has the command; logs count from 1.
    pub log: u32,
    /// The place of the command's node.
    pub node: usize,
    /// The places of the nodes of its chain, in the chain's order.
    pub via: Places,
}

/// The reasons of a merger: one for each drawn command that it leaves out, by the least log that has the command and then
/// in the admissible order, each with the first chain. Contracts see the list of the reasons that are still to come.
#[derive(Drop)]
pub struct Reasons<'a> {
    walk: Walk<'a>,
}

impl<'a> Model for Reasons<'a> {
    ghost use Rattle.std.specs.Prelude.{List};
    ghost use Rattle.explain_core.specs.declared.reasons.Reason.{Reason};
    ghost use Rattle.explain_core.specs.Walks.{IsAt, left_of};

    ghost Value = { List Reason };

    ghost view = { λ r. left_of r.walk };

    ghost invariant = { λ r. IsAt r.walk };
}

impl<'a> Reasons<'a> {
    /// All reasons are to come. The set has to be a merger of the joined logs. Memory is taken for each drawn command and
    /// for each node of the joint.
    pub fn new(alloc: Global, joint: &'a Joint, set: &'a CanonSet) -> Result<Reasons<'a>, NoMemory>
        requires { IsMergerOf joint.now set.now }
        ensures { IfOk result (λ r. r ≡ reasons joint.now set.now) }
    {
        let walk = Walk::new(alloc, joint, set)?;
        Ok(Reasons { walk })
    }

    /// The next reason; `None` exactly where all were given. Where memory runs out the same reasons are still to come,
    /// and the next call tries the first of them again.
    pub fn next(&mut self) -> Result<Option<Reason>, NoMemory>
        ensures next { IfOk result (λ found.
            MatchOption found (self.old ≡ [] × self.new ≡ [])
            (λ reason. self.old ≡ reason ∷ self.new)) }
        ensures again { OnErr result (self.new ≡ self.old) }
    {
        self.walk.next()
    }
}
