//! `join`.

ghost use Rattle.std.specs.Prelude.{◌≡◌, ◌<◌, ◌≤◌, ◌-◌, ℕ, List, length, slice_get, Some, Err, IfOk, OnOk};
ghost use Rattle.sync_path.specs.Paths.{Node};
ghost use Rattle.sync_command.specs.Changes.{Change};
ghost use Rattle.canon_set.specs.Sums.{Sum};
ghost use Rattle.refluent.specs.Joints.{AreSums, EachStandsFor, StandsForAll};
ghost use Rattle.refluent.specs.CommonTrees.{HasCommonTree};
ghost use Rattle.refluent.specs.Tables.{AreClaims, AreOfLogs, AreSorted, AreOrdered, AreClosed, IsTable};
ghost use Rattle.refluent.specs.FirstDisagreements.{IsRefused};
ghost use Rattle.refluent.specs.Comparisons.{IsComparison, IsComparisonOf, IsAgreed};
ghost use Rattle.refluent.specs.declared.joint.TheConstants.{MAX_LOGS};
ghost use Rattle.refluent.specs.declared.faults.JoinFault.TheVariants.{NoCommonTree};

use crate::JoinFault;
use crate::claims::{Claim, gather, sorted};
use crate::families::families_of;
use crate::joint::Joint;
use crate::numbering::number_commands;
use crate::parts::{rows_of, sets_of};
use crate::table::{Group, first_disagreement, groups_of, node};
use canon_set::LogSum;
use std::alloc::Global;
use sync_path::{NoMemory, Path};

/// How logs compare: the sorted claims with the table of their nodes, or the first disagreement.
enum Comparison {
    Agreed {
        claims: Vec<Claim>,
        groups: Vec<Group>,
    },
    Disagreed {
        first: usize,
        second: usize,
        path: Path,
    },
}

/// The table of sorted claims, or the first disagreement.
fn compare_claims(alloc: Global, claims: Vec<Claim>, count: usize) -> Result<Comparison, NoMemory>
    requires sorted { AreSorted claims.items }
    requires closed { AreClosed claims.items }
    requires logs { AreOfLogs claims.items count }
    requires ordered { AreOrdered claims.items }
    ensures range { IfOk result (IsComparisonOf count) }
    ensures comparison { (sums : List Sum) (logs : List (List Change)) → EachStandsFor sums logs →
        length logs ≡ count →
        AreClaims claims.items logs → IfOk result (IsComparison logs) }
{
    let groups = groups_of(alloc, claims.as_slice())?;
    match first_disagreement(alloc, claims.as_slice(), groups.as_slice(), count)? {
        None => Ok(Comparison::Agreed { claims, groups }),
        Some(disagreement) => {
            let nodes = groups.as_slice();
            let path = node(claims.as_slice(), nodes[disagreement.place]).copy(alloc)?;
            Ok(Comparison::Disagreed {
                first: disagreement.first,
                second: disagreement.second,
                path,
            })
        }
    }
}

/// The sorted claims of logs with the table of their nodes, or the first disagreement.
fn compare_logs(alloc: Global, sums: Vec<LogSum>) -> Result<(Vec<Claim>, Vec<Group>), JoinFault>
    requires { length sums.items ≤ MAX_LOGS }
    ensures agreed { (logs : List (List Change)) → EachStandsFor sums.items logs →
        IfOk result (λ r. IsAgreed logs r.0.items r.1.items × HasCommonTree logs) }
    ensures table { IfOk result (λ r. AreOrdered r.0.items × IsTable r.0.items r.1.items) }
    ensures sums { OnOk result (AreSums sums.items) }
    ensures refused { (logs : List (List Change)) (first second : ℕ) (path : Node) →
        EachStandsFor sums.items logs →
        result ≡ Err (NoCommonTree first second path) → IsRefused logs first second path }
{
    let count = sums.len();
    let claims = sorted(gather(alloc, sums)?);
    match compare_claims(alloc, claims, count)? {
        Comparison::Agreed { claims, groups } => Ok((claims, groups)),
        Comparison::Disagreed {
            first,
            second,
            path,
        } => Err(JoinFault::NoCommonTree {
            first: first as u32 + 1,
            second: second as u32 + 1,
            path,
        }),
    }
}

/// Joins logs by their sums, of whose paths and values the joint is made. It has a joint exactly where some tree takes
/// all the logs, and `NoCommonTree` comes exactly where none does: it names the least pair of logs that disagree,
/// counted from 1, and their first node of disagreement in path order. Memory may run out in place of either.
pub fn join(alloc: Global, sums: Vec<LogSum>) -> Result<Joint, JoinFault>
    requires { length sums.items ≤ MAX_LOGS }
    ensures joined { (logs : List (List Change)) → EachStandsFor sums.items logs →
        IfOk result (λ joint. StandsForAll joint logs) }
    ensures refused { (logs : List (List Change)) (first second : ℕ) (path : Node) →
        EachStandsFor sums.items logs →
        result ≡ Err (NoCommonTree first second path) → IsRefused logs first second path }
{
    let count = sums.len();
    let (claims, groups) = compare_logs(alloc, sums)?;
    let nodes = rows_of(alloc, claims.as_slice(), groups.as_slice())?;
    let (links, numbering) = number_commands(alloc, claims.as_slice(), groups.as_slice(), count)?;
    let families = families_of(alloc, links.as_slice())?;
    let sets = sets_of(alloc, claims, count)?;
    Ok(Joint {
        sets,
        nodes,
        links,
        picks: numbering.picks,
        drawn: numbering.drawn,
        families,
    })
}
