//! Which net commands name a node, by their places in the net sets, and how many commands are drawn.

ghost use Rattle.std.specs.Prelude.{◌≡◌, ◌<◌, ◌≤◌, ◌+◌, ◌^◌, ℕ, List, length, slice_get, slice_index, slice_set, slice_range, IsTrue, Some, None, IfOk, OnOk, true, false};
ghost use Rattle.std.specs.List.{list_any};
ghost use Rattle.std.specs.Option.{option_map};
ghost use Rattle.sync_path.specs.Paths.{Node};
ghost use Rattle.sync_command.specs.Changes.{is_down};
ghost use Rattle.refluent.specs.Tables.{AreOfLogs, AreOrdered, IsGroup, IsTable};
ghost use Rattle.refluent.specs.JointParts.{change_in, changes_of};
ghost use Rattle.refluent.specs.Numberings.{AreLinks, IsNumbered, downs_in, makes_down, touch_alike};
ghost use Rattle.refluent.specs.declared.joint.TheConstants.{MAX_LOGS};

use crate::claims::{Claim, Statement};
use crate::joint::{Link, Pick};
use crate::table::Group;
use std::alloc::Global;
use sync_command::Value;
use sync_path::NoMemory;

/// Whether the command from the one value to the other is down.
fn is_down(first: &Value, last: &Value) -> bool
    ensures { (p : Node) → result ≡ is_down
        (record { node = p; old = first.now; new = last.now }) }
{
    last.is_empty() || (first.is_dir() && !last.is_dir())
}

/// Whether the log of the claim has a net command at the node, and whether it is down.
fn change_of(claim: &Claim) -> Option<bool>
    ensures { result ≡ option_map is_down (change_in claim.now) }
{
    match &claim.says {
        Statement::Above => None,
        Statement::Touches { first, last, .. } => {
            if first.same(last) {
                None
            } else {
                Some(is_down(first, last))
            }
        }
    }
}

/// Whether the log of the claim has a down command at the node.
fn has_down(claim: &Claim) -> bool
    ensures { result ≡ makes_down (change_in claim.now) }
{
    matches!(change_of(claim), Some(true))
}

/// Whether both claims touch their node, with equal first and equal last values.
fn is_alike(one: &Claim, other: &Claim) -> bool
    ensures { result ≡ touch_alike one.now.says other.now.says }
{
    match (&one.says, &other.says) {
        (
            Statement::Touches { first, last, .. },
            Statement::Touches {
                first: other_first,
                last: other_last,
                ..
            },
        ) => first.same(other_first) && last.same(other_last),
        _ => false,
    }
}

/// Whether one of the earlier claims of the node has the command of the claim too.
fn is_repeated(claim: &Claim, earlier: &[Claim]) -> bool
    ensures { result ≡ list_any (λ other. touch_alike claim.now.says other.says) earlier.now }
{
    earlier.iter().any(|other| is_alike(claim, other))
}

/// Adds one to the count of a log.
fn count_one(counts: &mut Vec<usize>, log: usize)
    requires log { log < length counts.old.items }
    requires space { slice_index counts.old.items log + 1 < 2 ^ 64 }
    ensures { counts.new.items ≡ slice_set counts.old.items log
        (slice_index counts.old.items log + 1) }
{
    let count = counts[log];
    counts[log] = count + 1;
}

/// How many down commands each log has.
fn count_downs(alloc: Global, claims: &[Claim], count: usize) -> Result<Vec<usize>, NoMemory>
    requires { AreOfLogs claims.now count }
    ensures many { IfOk result (λ downs. length downs.items ≡ count) }
    ensures each { IfOk result (λ downs. (l m : ℕ) → slice_get downs.items l ≡ Some m →
        m ≡ downs_in (changes_of l claims.now)) }
{
    let mut downs: Vec<usize> = vec![in alloc; 0; count]?;
    'claims: for claim in claims {
        if has_down(claim) {
            count_one(&mut downs, claim.log);
        }
    }
    Ok(downs)
}

/// The place of the next command of a log in its net set, where the down ones come first, in descending path order.
/// `downs` has for each log how many of its down commands are still to come, and `others` the place of its next
/// command that is not down.
fn next_place(downs: &mut Vec<usize>, others: &mut Vec<usize>, log: usize, is_down: bool) -> usize
    requires downs { log < length downs.old.items }
    requires others { log < length others.old.items }
    requires some_down { IsTrue is_down → 0 < slice_index downs.old.items log }
    requires space { is_down ≡ false → slice_index others.old.items log + 1 < 2 ^ 64 }
    ensures down { IsTrue is_down →
        (result + 1 ≡ slice_index downs.old.items log)
        × (downs.new.items ≡ slice_set downs.old.items log result)
        × (others.new.items ≡ others.old.items) }
    ensures other { is_down ≡ false →
        (result ≡ slice_index others.old.items log)
        × (others.new.items ≡ slice_set others.old.items log (result + 1))
        × (downs.new.items ≡ downs.old.items) }
{
    if is_down {
        let place = downs[log] - 1;
        downs[log] = place;
        place
    } else {
        let place = others[log];
        others[log] = place + 1;
        place
    }
}

/// The net commands of the claims so far, by node and then by log, with what is counted on the way.
#[derive(Debug, Drop)]
pub(crate) struct Numbering {
    pub picks: Vec<Pick>,
    /// For each log, how many of its down commands are still to come.
    pub downs: Vec<usize>,
    /// For each log, the place of its next command that is not down.
    pub others: Vec<usize>,
    /// How many of the net commands so far are drawn: no earlier log has an equal one.
    pub drawn: usize,
}

impl Numbering {
    /// No claim is numbered.
    fn new(alloc: Global, claims: &[Claim], count: usize) -> Result<Numbering, NoMemory>
        requires { AreOfLogs claims.now count }
        ensures many { IfOk result (λ n. length n.downs.items ≡ count) }
        ensures numbered { IfOk result (λ n. IsNumbered claims.now 0 n) }
    {
        let downs = count_downs(alloc, claims, count)?;
        let others = downs.clone()?;
        Ok(Numbering {
            picks: Vec::new(alloc),
            downs,
            others,
            drawn: 0,
        })
    }

    /// Adds a claim of a group.
    fn add(&mut self, claims: &[Claim], group: Group, place: usize) -> Result<(), NoMemory>
        requires group { IsGroup claims.now group }
        requires low { group.start ≤ place }
        requires high { place < group.end }
        requires ordered { AreOrdered claims.now }
        requires few { length self.old.downs.items ≤ MAX_LOGS }
        requires so_far { IsNumbered claims.now place self.old }
        ensures few { OnOk result (length self.new.downs.items ≡ length self.old.downs.items) }
        ensures numbered { OnOk result (IsNumbered claims.now (place + 1) self.new) }
    {
        let claim = &claims[place];
        if let Some(is_down) = change_of(claim) {
            let at = next_place(&mut self.downs, &mut self.others, claim.log, is_down);
            self.picks.push(Pick {
                log: claim.log as u32 + 1,
                place: at,
            })?;
            if !is_repeated(claim, &claims[group.start..place]) {
                self.drawn += 1;
            }
        }
        Ok(())
    }

    /// Adds the claims of a group.
    fn add_group(&mut self, claims: &[Claim], group: Group) -> Result<(), NoMemory>
        requires group { IsGroup claims.now group }
        requires ordered { AreOrdered claims.now }
        requires few { length self.old.downs.items ≤ MAX_LOGS }
        requires so_far { IsNumbered claims.now group.start self.old }
        ensures few { OnOk result (length self.new.downs.items ≡ length self.old.downs.items) }
        ensures numbered { OnOk result (IsNumbered claims.now group.end self.new) }
    {
        'own: for place in group.start..group.end {
            self.add(claims, group, place)?;
        }
        Ok(())
    }
}

/// A link for each node, and the net commands of all claims.
pub(crate) fn number_commands(
    alloc: Global,
    claims: &[Claim],
    groups: &[Group],
    count: usize,
) -> Result<(Vec<Link>, Numbering), NoMemory>
    requires few { count ≤ MAX_LOGS }
    requires logs { AreOfLogs claims.now count }
    requires ordered { AreOrdered claims.now }
    requires table { IsTable claims.now groups.now }
    ensures links { IfOk result (λ r.
        AreLinks claims.now groups.now r.0.items (length groups.now)) }
    ensures numbered { IfOk result (λ r. IsNumbered claims.now (length claims.now) r.1) }
{
    let mut numbering = Numbering::new(alloc, claims, count)?;
    let mut links = Vec::with_capacity(alloc, groups.len())?;
    'groups: for place in 0..groups.len() {
        let group = groups[place];
        links.push(Link {
            parent: group.parent,
            start: numbering.picks.len(),
        })?;
        numbering.add_group(claims, group)?;
    }
    Ok((links, numbering))
}
