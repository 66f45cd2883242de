//! The nodes that sorted claims name, and the first disagreement on them.

ghost use Rattle.std.specs.Prelude.{◌≡◌, ◌≢◌, ◌↔◌, ◌<◌, ◌≤◌, ◌+◌, ◌-◌, ℕ, true, List, length, map, slice_get, slice_range, get_or, IfOk, IsTrue, Option, Some, None};
ghost use Rattle.sync_path.specs.Paths.{Node, parent};
ghost use Rattle.sync_command.specs.Changes.{Change};
ghost use Rattle.refluent.specs.FirstDisagreements.{log_at, pair_before};
ghost use Rattle.refluent.specs.Demands.{demanded};
ghost use Rattle.refluent.specs.Tables.{AreFor, AreClaims, AreOfLogs, AreSorted, AreClosed, IsTable, IsTableTo, IsFresh, IsGroup, IsParentGroup, node_of, wanted, need_said, write_own, write_absent};
ghost use Rattle.refluent.specs.Disagreements.{IsDisagreementSoFar, IsWithin, better_of};
ghost use Rattle.refluent.specs.Needs.{Anything};
ghost use Rattle.refluent.specs.declared.claims.Claim.{Claim};
ghost use Rattle.refluent.specs.declared.demands.Demand.{Demand};
ghost use Rattle.refluent.specs.declared.table.Group.{Group};

use crate::claims::{Claim, Statement};
use crate::demands::{Demand, least_pair};
use std::alloc::Global;
use sync_path::{NoMemory, Path};

/// The claims of a node, by their places among the sorted ones, and the place of its parent among the nodes.
#[derive(Clone, Copy, Debug)]
pub(crate) struct Group {
    pub start: usize,
    pub end: usize,
    pub parent: Option<usize>,
}

/// The node of a group.
pub(crate) fn node(claims: &[Claim], group: Group) -> &Path
    requires { group.start < length claims.now }
    ensures { result.now ≡ node_of claims.now group }
{
    &claims[group.start].path
}

/// The last of so many places.
fn last_place(count: usize) -> Option<usize>
    ensures none { count ≡ 0 → result ≡ None }
    ensures some { 0 < count → result ≡ Some (count - 1) }
{
    if count == 0 { None } else { Some(count - 1) }
}

/// The place of the parent of the node that follows those of the table; a root has none. The last of these is
/// the parent or is under it, so the parent is the nearest node from there up that the new node is under.
fn find_parent(claims: &[Claim], groups: &[Group], start: usize) -> Option<usize>
    requires low { start < length claims.now }
    requires table { IsTableTo claims.now groups.now start }
    requires sorted { AreSorted claims.now }
    requires closed { AreClosed claims.now }
    requires fresh { IsFresh claims.now start }
    ensures { (c : Claim) → slice_get claims.now start ≡ Some c →
        IsParentGroup claims.now groups.now (parent c.path) result }
{
    let path = &claims[start].path;
    if path.depth() == 1 {
        return None;
    }
    let mut at = last_place(groups.len());
    'above: while let Some(place) = at {
        let group = groups[place];
        if path.under(node(claims, group)) {
            return Some(place);
        }
        at = group.parent;
    }
    None
}

/// Whether the claim is the last one of its node.
fn is_last(claims: &[Claim], place: usize) -> bool
    requires { place < length claims.now }
    ensures end { place + 1 ≡ length claims.now → result ≡ true }
    ensures next { (c d : Claim) → slice_get claims.now place ≡ Some c →
        slice_get claims.now (place + 1) ≡ Some d →
        IsTrue result ↔ (d.path ≢ c.path) }
{
    place + 1 == claims.len() || !claims[place + 1].path.same(&claims[place].path)
}

/// The nodes of sorted claims, in path order.
pub(crate) fn groups_of(alloc: Global, claims: &[Claim]) -> Result<Vec<Group>, NoMemory>
    requires sorted { AreSorted claims.now }
    requires closed { AreClosed claims.now }
    ensures { IfOk result (λ groups. IsTable claims.now groups.items) }
{
    let mut groups: Vec<Group> = Vec::new(alloc);
    let mut start = 0;
    'claims: for place in 0..claims.len() {
        if is_last(claims, place) {
            let parent = find_parent(claims, groups.as_slice(), start);
            groups.push(Group {
                start,
                end: place + 1,
                parent,
            })?;
            start = place + 1;
        }
    }
    Ok(groups)
}

/// The least pair of logs that disagree at a node, with the node's place.
#[derive(Clone, Copy, Debug)]
pub(crate) struct Disagreement {
    pub first: usize,
    pub second: usize,
    pub place: usize,
}

/// What the log of a claim demands.
fn said(claim: &Claim) -> Demand<'_>
    ensures { demanded result ≡ need_said claim.now.says }
{
    match &claim.says {
        Statement::Above => Demand::AnyDirectory,
        Statement::Touches { first, .. } => Demand::Exactly(first),
    }
}

/// Writes the demands of the logs that have the claims over those of others.
fn write_own<'a>(claims: &'a [Claim], demands: &mut [Demand<'a>])
    requires { AreOfLogs claims.now (length demands.old) }
    ensures { map demanded demands.new ≡ write_own claims.now (map demanded demands.old) }
{
    'claims: for claim in claims {
        demands[claim.log] = said(claim);
    }
}

/// Has each log that leaves the node of the claims demand that a child of it is absent.
fn write_absent(claims: &[Claim], demands: &mut [Demand<'_>])
    requires { AreOfLogs claims.now (length demands.old) }
    ensures { map demanded demands.new ≡ write_absent claims.now (map demanded demands.old) }
{
    'claims: for claim in claims {
        if claim.leaves() {
            demands[claim.log] = Demand::Absent;
        }
    }
}

/// The claims of a group.
pub(crate) fn run<'a>(claims: &'a [Claim], group: Group) -> &'a [Claim]
    requires start { group.start ≤ group.end }
    requires end { group.end ≤ length claims.now }
    ensures { result.now ≡ slice_range claims.now group.start group.end }
{
    &claims[group.start..group.end]
}

/// Clears the demands.
fn clear(demands: &mut [Demand<'_>])
    ensures { (k : ℕ) (d : Demand) → slice_get demands.new k ≡ Some d →
        demanded d ≡ Anything }
{
    'demands: for place in 0..demands.len() {
        demands[place] = Demand::Anything;
    }
}

/// The logs' demands of the node of a group, in place of those of another one.
fn demand<'a>(claims: &'a [Claim], groups: &[Group], place: usize, demands: &mut [Demand<'a>])
    requires place { place < length groups.now }
    requires table { IsTable claims.now groups.now }
    requires logs { AreOfLogs claims.now (length demands.old) }
    ensures { (logs : List (List Change)) (s : Group) → AreClaims claims.now logs →
        slice_get groups.now place ≡ Some s →
        AreFor logs (node_of claims.now s) demands.new }
{
    clear(demands);
    let group = groups[place];
    if let Some(parent) = group.parent {
        let above = groups[parent];
        write_absent(run(claims, above), demands);
    }
    write_own(run(claims, group), demands);
}

/// Whether the one pair goes before the other, by the first and then by the second.
fn goes_before(one: (usize, usize), other: Disagreement) -> bool
    ensures { result ≡ pair_before one.0 one.1 other.first other.second }
{
    one.0 < other.first || (one.0 == other.first && one.1 < other.second)
}

/// The better of the best pair so far and that of a further node.
fn better(
    best: Option<Disagreement>,
    found: Option<(usize, usize)>,
    place: usize,
) -> Option<Disagreement>
    ensures { result ≡ better_of best found place }
{
    match (best, found) {
        (_, None) => best,
        (None, Some(pair)) => Some(Disagreement {
            first: pair.0,
            second: pair.1,
            place,
        }),
        (Some(disagreement), Some(pair)) => {
            if goes_before(pair, disagreement) {
                Some(Disagreement {
                    first: pair.0,
                    second: pair.1,
                    place,
                })
            } else {
                best
            }
        }
    }
}

/// The least pair of logs that disagree, at its first node in path order.
pub(crate) fn first_disagreement(
    alloc: Global,
    claims: &[Claim],
    groups: &[Group],
    count: usize,
) -> Result<Option<Disagreement>, NoMemory>
    requires table { IsTable claims.now groups.now }
    requires logs { AreOfLogs claims.now count }
    ensures within { IfOk result (λ found. IsWithin (length groups.now) count found) }
    ensures least { (logs : List (List Change)) → AreClaims claims.now logs → length logs ≡ count →
        IfOk result (IsDisagreementSoFar logs claims.now groups.now (length groups.now)) }
{
    let mut demands = vec![in alloc; Demand::Anything; count]?;
    let mut best: Option<Disagreement> = None;
    'nodes: for place in 0..groups.len() {
        demand(claims, groups, place, demands.as_mut_slice());
        best = better(best, least_pair(demands.as_slice()), place);
    }
    Ok(best)
}
