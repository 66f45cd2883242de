//! What a joint is made of: the nodes of the least common tree, and the net sets.

ghost use Rattle.std.specs.Prelude.{◌≡◌, ◌<◌, ◌≤◌, ℕ, List, [], Vec, IsTrue, length, map, slice_get, slice_range, Some, IfOk, OnOk};
ghost use Rattle.std.specs.Global.{Global};
ghost use Rattle.refluent.specs.Tables.{IsTable, AreOfLogs};
ghost use Rattle.sync_command.specs.Changes.{Change};
ghost use Rattle.refluent.specs.JointParts.{AreRowsOf, HasNets, value_by, change_in, changes_of, sets_by, IsPut};
ghost use Rattle.sync_command.specs.Trees.{one_each};
ghost use Rattle.canon_set.specs.Sets.{IsFitting, canonical};

use crate::claims::{Claim, Statement};
use crate::table::{Group, node, run};
use canon_set::CanonSet;
use std::alloc::Global;
use sync_command::{Command, Label, Row, Value};
use sync_path::NoMemory;

/// What the least common tree holds at the node of the claims: the first value of a log that touches it, or
/// a directory with the empty label.
fn value_of(alloc: Global, claims: &[Claim]) -> Result<Value, NoMemory>
    ensures { IfOk result (λ v. v ≡ value_by claims.now) }
{
    'claims: for claim in claims {
        if let Statement::Touches { first, .. } = &claim.says {
            return first.copy(alloc);
        }
    }
    Ok(Value::Dir(Label::empty(alloc)))
}

/// The nodes with what the least common tree holds there.
pub(crate) fn rows_of(
    alloc: Global,
    claims: &[Claim],
    groups: &[Group],
) -> Result<Vec<Row>, NoMemory>
    requires { IsTable claims.now groups.now }
    ensures { IfOk result (λ rows. AreRowsOf claims.now groups.now rows.items) }
{
    let mut rows = Vec::with_capacity(alloc, groups.len())?;
    'groups: for place in 0..groups.len() {
        let group = groups[place];
        let path = node(claims, group).copy(alloc)?;
        let value = value_of(alloc, run(claims, group))?;
        rows.push(Row { path, value })?;
    }
    Ok(rows)
}

/// The net set of commands that are given in path order. The down ones are turned round and put first, so that
/// the sort finds the commands in their order.
fn set_of(alloc: Global, given: Vec<Command>) -> Result<CanonSet, NoMemory>
    requires one { IsTrue (one_each given.items) }
    requires fitting { IsFitting given.items }
    ensures { IfOk result (λ s. s ≡ canonical given.items) }
{
    let mut commands = Vec::with_capacity(alloc, given.len())?;
    let mut others = Vec::new(alloc);
    'given: for command in given {
        if command.is_down() {
            commands.push(command)?;
        } else {
            others.push(command)?;
        }
    }
    commands.as_mut_slice().reverse();
    'others: for command in others {
        commands.push(command)?;
    }
    CanonSet::from_parts(alloc, commands)
}

/// The net command of the claim's log at the node, where the first value and the last differ.
fn command_of(claim: Claim) -> Option<Command>
    ensures { result ≡ change_in claim }
{
    let Claim { path, says, .. } = claim;
    match says {
        Statement::Above => None,
        Statement::Touches { first, last, .. } => match Command::new(path, first, last) {
            Ok(command) => Some(command),
            Err(_) => None,
        },
    }
}

/// Space for the commands of each log.
fn empty_lists(alloc: Global, count: usize) -> Result<Vec<Vec<Command>>, NoMemory>
    ensures many { IfOk result (λ lists. length lists.items ≡ count) }
    ensures none { IfOk result (λ lists. (l : ℕ) (cs : Vec Change Global) →
        slice_get lists.items l ≡ Some cs → cs.items ≡ []) }
{
    let mut lists = Vec::with_capacity(alloc, count)?;
    'logs: for _log in 0..count {
        lists.push(Vec::new(alloc))?;
    }
    Ok(lists)
}

/// Appends a command to the list of a log.
fn put(lists: &mut Vec<Vec<Command>>, log: usize, command: Command) -> Result<(), NoMemory>
    requires { log < length lists.old.items }
    ensures { OnOk result (IsPut lists.old.items lists.new.items log command) }
{
    lists[log].push(command)?;
    Ok(())
}

/// The net commands of each log in path order, made of the claims' own paths and values.
fn lists_of(alloc: Global, claims: Vec<Claim>, count: usize) -> Result<Vec<Vec<Command>>, NoMemory>
    requires { AreOfLogs claims.items count }
    ensures many { IfOk result (λ lists. length lists.items ≡ count) }
    ensures each { IfOk result (λ lists. (l : ℕ) (cs : Vec Change Global) →
        slice_get lists.items l ≡ Some cs →
        cs.items ≡ changes_of l claims.items) }
{
    let mut lists = empty_lists(alloc, count)?;
    'claims: for claim in claims {
        let log = claim.log;
        if let Some(command) = command_of(claim) {
            put(&mut lists, log, command)?;
        }
    }
    Ok(lists)
}

/// The net sets of the logs.
pub(crate) fn sets_of(
    alloc: Global,
    claims: Vec<Claim>,
    count: usize,
) -> Result<Vec<CanonSet>, NoMemory>
    requires { HasNets claims.items count }
    ensures { IfOk result (λ sets. sets.items ≡ sets_by claims.items count) }
{
    let lists = lists_of(alloc, claims, count)?;
    let mut sets = Vec::with_capacity(alloc, count)?;
    'lists: for list in lists {
        sets.push(set_of(alloc, list)?)?;
    }
    Ok(sets)
}
