//! Rankings.

ghost use Rattle.std.specs.Prelude.{◌≡◌, ◌≢◌, ◌<◌, ◌≤◌, ◌++◌, ◌∷◌, [], ℕ, List, true, length, slice_get, slice_range, Some, None, Err, IfOk, IfErr, OnOk, is_some};
ghost use Rattle.sync_command.specs.Changes.{Change, is_canonical};
ghost use Rattle.sync_command.specs.Trees.{command_at};
ghost use Rattle.std.specs.List.{filter};
ghost use Rattle.pref_list.specs.Ranking.{set_of, expansion, expansions};
ghost use Rattle.refluent.specs.Drawn.{in_turn};
ghost use Rattle.pref_list.specs.Numbers.{IsNumberingOf};
ghost use Rattle.pref_list.specs.Stages.{is_within};
ghost use Rattle.pref_list.specs.Orders.{IsOrderOf, IsRankingOf, IsFirstFault, Takes, TakesInto, fault_of, first_fault};

use crate::nodes::commands_of;
use crate::numbers::{Numbers, number_all};
use crate::stages::bound;
use crate::{RankFault, Rule};
use refluent::{Joint, Pick};
use std::alloc::Global;
use std::marker::Model;
use sync_path::{NoMemory, Path};

/// The drawn commands in the order of a ranking, each once. Contracts see the picks: each by the least log that has the
/// command, and by its place in that log's net set.
#[derive(Debug, Drop)]
pub struct Ranking {
    picks: Vec<Pick>,
}

impl Model for Ranking {
    ghost use Rattle.std.specs.Prelude.{List};
    ghost use Rattle.refluent.specs.declared.joint.Pick.{Pick};

    ghost Value = { List Pick };

    ghost view = { λ r. r.picks.items };
}

impl Ranking {
    /// The number of drawn commands. Takes no memory.
    pub fn len(&self) -> usize
        ensures { result ≡ length self.now }
    {
        self.picks.len()
    }

    /// The drawn command at a place of the ranking; places count from 0. Takes no memory.
    pub fn entry(&self, place: usize) -> Pick
        requires { place < length self.now }
        ensures { slice_get self.now place ≡ Some result }
    {
        self.picks[place]
    }
}

/// The picks so far, and for each number whether its command is among them.
#[derive(Drop)]
struct Order {
    seen: Vec<bool>,
    picks: Vec<Pick>,
}

/// Takes the command of a number, unless it is among the picks.
fn take(order: &mut Order, table: &[Pick], number: usize) -> Result<(), NoMemory>
    requires seen { length order.old.seen.items ≡ length table.now }
    requires number { number < length table.now }
    ensures seen { OnOk result (length order.new.seen.items ≡ length table.now) }
    ensures taken { OnOk result (Takes table.now order.old.seen.items order.old.picks.items
        order.new.seen.items order.new.picks.items number) }
{
    if !order.seen[number] {
        order.picks.push(table[number])?;
        order.seen[number] = true;
    }
    Ok(())
}

/// Takes the net commands of a log from one place up to another.
fn take_range(
    joint: &Joint,
    order: &mut Order,
    numbers: &Numbers,
    log: u32,
    from: usize,
    to: usize,
) -> Result<(), NoMemory>
    requires numbered { IsNumberingOf joint.now numbers.now }
    requires log { (0 < log) × (log ≤ length joint.now.sets) }
    requires range { to ≤ length (set_of joint.now.sets log) }
    requires order { from ≤ to }
    requires seen { length order.old.seen.items ≡ length numbers.now.picks.items }
    ensures seen { OnOk result (length order.new.seen.items ≡ length numbers.now.picks.items) }
    ensures taken { OnOk result (TakesInto joint.now numbers.now order.old order.new
        (slice_range (set_of joint.now.sets log) from to)) }
{
    let own = numbers.lists[log as usize - 1].as_slice();
    'places: for place in from..to {
        take(order, &numbers.picks, own[place])?;
    }
    Ok(())
}

/// Takes the net commands of a log that name the path or, if `wide`, a node under it.
fn take_within(
    joint: &Joint,
    order: &mut Order,
    numbers: &Numbers,
    log: u32,
    path: &Path,
    wide: bool,
) -> Result<(), NoMemory>
    requires numbered { IsNumberingOf joint.now numbers.now }
    requires log { (0 < log) × (log ≤ length joint.now.sets) }
    requires seen { length order.old.seen.items ≡ length numbers.now.picks.items }
    ensures seen { OnOk result (length order.new.seen.items ≡ length numbers.now.picks.items) }
    ensures taken { OnOk result (TakesInto joint.now numbers.now order.old order.new
        (filter (λ c. is_within path.now wide c.node) (set_of joint.now.sets log))) }
{
    let names = path.depth();
    let commands = commands_of(joint, log);
    let down_from = bound(commands, path, wide, 1);
    let down_to = bound(commands, path, wide, 2);
    let other_from = bound(commands, path, wide, 4);
    let other_to = bound(commands, path, wide, 5);
    take_range(joint, order, numbers, log, down_from, down_to)?;
    take_range(joint, order, numbers, log, other_from, other_to)?;
    Ok(())
}

/// Takes all net commands of a log.
fn take_log(joint: &Joint, order: &mut Order, numbers: &Numbers, log: u32) -> Result<(), NoMemory>
    requires numbered { IsNumberingOf joint.now numbers.now }
    requires log { (0 < log) × (log ≤ length joint.now.sets) }
    requires seen { length order.old.seen.items ≡ length numbers.now.picks.items }
    ensures seen { OnOk result (length order.new.seen.items ≡ length numbers.now.picks.items) }
    ensures taken { OnOk result (TakesInto joint.now numbers.now order.old order.new
        (set_of joint.now.sets log)) }
{
    let count = commands_of(joint, log).len();
    take_range(joint, order, numbers, log, 0, count)
}

/// Whether a log has a net command at the path.
fn has_command(joint: &Joint, log: u32, path: &Path) -> bool
    requires { (0 < log) × (log ≤ length joint.now.sets) }
    ensures { result ≡ is_some (command_at (set_of joint.now.sets log) path.now) }
{
    match joint.set(log).at(path) {
        Some(_) => true,
        None => false,
    }
}

/// Why a rule with this number is at fault, if it is.
fn fault_in(joint: &Joint, rule: &Rule, number: usize) -> Option<RankFault>
    ensures { result ≡ fault_of joint.now.sets number rule.now }
{
    let count = joint.logs();
    match rule {
        Rule::At { log, path } => {
            if *log == 0 || *log > count {
                Some(RankFault::NoSuchLog { number })
            } else if has_command(joint, *log, path) {
                None
            } else {
                Some(RankFault::NoCommand { number })
            }
        }
        Rule::Under { log, .. } | Rule::All { log } => {
            if *log == 0 || *log > count {
                Some(RankFault::NoSuchLog { number })
            } else {
                None
            }
        }
    }
}

/// Takes the commands that a rule names.
fn take_rule(
    joint: &Joint,
    order: &mut Order,
    numbers: &Numbers,
    rule: &Rule,
    number: usize,
) -> Result<(), NoMemory>
    requires faultless { fault_of joint.now.sets number rule.now ≡ None }
    requires numbered { IsNumberingOf joint.now numbers.now }
    requires seen { length order.old.seen.items ≡ length numbers.now.picks.items }
    ensures seen { OnOk result (length order.new.seen.items ≡ length numbers.now.picks.items) }
    ensures taken { OnOk result (TakesInto joint.now numbers.now order.old order.new
        (expansion joint.now.sets rule.now)) }
{
    match rule {
        Rule::At { log, path } => take_within(joint, order, numbers, *log, path, false),
        Rule::Under { log, path } => take_within(joint, order, numbers, *log, path, true),
        Rule::All { log } => take_log(joint, order, numbers, *log),
    }
}

/// Nothing is taken.
fn no_order(alloc: Global, numbers: &Numbers) -> Result<Order, NoMemory>
    ensures seen { IfOk result (λ order. length order.seen.items ≡
        length numbers.now.picks.items) }
    ensures none { IfOk result (λ order. (sets : List (List Change)) →
        IsOrderOf sets numbers.now.picks.items order.seen.items order.picks.items []) }
{
    Ok(Order {
        seen: vec![in alloc; false; numbers.picks.len()]?,
        picks: Vec::new(alloc),
    })
}

/// Takes the commands that the rules name, rule by rule, up to the first one at fault.
fn take_rules(
    joint: &Joint,
    order: &mut Order,
    numbers: &Numbers,
    rules: &[Rule],
) -> Result<(), RankFault>
    requires numbered { IsNumberingOf joint.now numbers.now }
    requires seen { length order.old.seen.items ≡ length numbers.now.picks.items }
    ensures seen { OnOk result (length order.new.seen.items ≡ length numbers.now.picks.items) }
    ensures taken { OnOk result (TakesInto joint.now numbers.now order.old order.new
        (expansions joint.now.sets rules.now)) }
    ensures faultless { OnOk result (first_fault joint.now.sets rules.now ≡ None) }
    ensures refused { IfErr result (IsFirstFault joint.now.sets rules.now) }
{
    'rules: for at in 0..rules.len() {
        let rule = &rules[at];
        match fault_in(joint, rule, at + 1) {
            Some(fault) => return Err(fault),
            None => take_rule(joint, order, numbers, rule, at + 1)?,
        }
    }
    Ok(())
}

/// Takes the net commands of the logs, log by log.
fn take_logs(joint: &Joint, order: &mut Order, numbers: &Numbers) -> Result<(), NoMemory>
    requires numbered { IsNumberingOf joint.now numbers.now }
    requires seen { length order.old.seen.items ≡ length numbers.now.picks.items }
    ensures taken { OnOk result (TakesInto joint.now numbers.now order.old order.new
        (in_turn joint.now.sets)) }
{
    'logs: for log in 0..joint.logs() {
        take_log(joint, order, numbers, log + 1)?;
    }
    Ok(())
}

/// The ranking of the drawn commands under rules: what the rules name, rule by rule, then all net commands, log by log,
/// and of each the first place counts.
///
/// The first rule at fault gives the refusal, with its number from 1: `NoSuchLog` where its log is none of the joint's,
/// and `NoCommand` where it is an `At` rule and its log has no net command at the path. `Memory` may come at any time.
pub fn rank(alloc: Global, joint: &Joint, rules: &[Rule]) -> Result<Ranking, RankFault>
    ensures ranked { IfOk result (IsRankingOf joint.now.sets rules.now) }
    ensures faultless { IfOk result (λ _. first_fault joint.now.sets rules.now ≡ None) }
    ensures refused { IfErr result (IsFirstFault joint.now.sets rules.now) }
{
    let numbers = number_all(alloc, joint)?;
    let mut order = no_order(alloc, &numbers)?;
    take_rules(joint, &mut order, &numbers, rules)?;
    take_logs(joint, &mut order, &numbers)?;
    let Order { picks, .. } = order;
    Ok(Ranking { picks })
}
