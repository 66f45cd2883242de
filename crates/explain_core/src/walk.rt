//! The walk over the drawn commands that a set leaves out.

ghost use Rattle.std.specs.Prelude.{◌≡◌, ◌<◌, ◌∷◌, [], ℕ, List, length, drop, slice_get, false, Some, IfOk, OnErr, MatchOption};
ghost use Rattle.sync_command.specs.Changes.{Change};
ghost use Rattle.refluent.specs.Drawn.{drawn_of};
ghost use Rattle.refluent.specs.Sets.{is_in};
ghost use Rattle.pref_list.specs.Numbers.{IsPick};
ghost use Rattle.pref_list.specs.Orders.{IsRankingOf};
ghost use Rattle.pref_list.specs.Picks.{command_of, log_of};
ghost use Rattle.explain_core.specs.Chains.{without};
ghost use Rattle.explain_core.specs.Nexts.{AreNexts};
ghost use Rattle.explain_core.specs.Reasons.{reason_of, reasons};
ghost use Rattle.explain_core.specs.Walks.{IsAt, left_of};

use crate::nexts::nexts_of;
use crate::places::Places;
use crate::reasons::Reason;
use crate::ways::first_chain;
use canon_set::CanonSet;
use pref_list::{Ranking, Rule, command_at, find_node, rank};
use refluent::{Joint, Pick};
use std::alloc::Global;
use sync_command::Command;
use sync_path::NoMemory;

/// The drawn commands by log and then in the admissible order, and which of them comes next; for each place the next
/// node at which the set leaves something.
#[derive(Drop)]
pub(crate) struct Walk<'a> {
    pub alloc: Global,
    pub joint: &'a Joint,
    pub set: &'a CanonSet,
    pub drawn: Ranking,
    pub nexts: Vec<Option<usize>>,
    pub at: usize,
}

/// The drawn commands, by log and then in the admissible order.
fn drawn_commands(alloc: Global, joint: &Joint) -> Result<Ranking, NoMemory>
    ensures { IfOk result (IsRankingOf joint.now.sets []) }
{
    let rules: [Rule; 0] = [];
    match rank(alloc, joint, &rules) {
        Ok(drawn) => Ok(drawn),
        // without rules none is at fault
        Err(_) => Err(NoMemory),
    }
}

/// Whether the set has the command.
fn has(set: &CanonSet, command: &Command) -> bool
    ensures { result ≡ is_in set.now command.now }
{
    let _commands = set.commands();
    match set.at(command.path()) {
        Some(own) => own.same(command),
        None => false,
    }
}

/// The next drawn command, from a place on, that the set has not.
fn next_left_out(joint: &Joint, set: &CanonSet, drawn: &Ranking, from: usize) -> usize
    requires { IsRankingOf joint.now.sets [] drawn.now }
    ensures rest { without set.now (drop result (drawn_of joint.now.sets)) ≡
        without set.now (drop from (drawn_of joint.now.sets)) }
    ensures out { result < length drawn.now → (c : Change)
        × (slice_get (drawn_of joint.now.sets) result ≡ Some c)
        × (is_in set.now c ≡ false) }
{
    let mut at = from;
    'drawn: while at < drawn.len() {
        if !has(set, command_at(joint, drawn.entry(at))) {
            return at;
        }
        at += 1;
    }
    at
}

/// The reason of a drawn command, by the least log that has it.
fn reason(
    alloc: Global,
    joint: &Joint,
    set: &CanonSet,
    nexts: &[Option<usize>],
    pick: Pick,
) -> Result<Reason, NoMemory>
    requires pick { IsPick joint.now.sets pick }
    requires least { (c : Change) → command_of joint.now.sets pick ≡ Some c →
        pick.log ≡ log_of joint.now.sets c }
    requires nexts { AreNexts joint.now.nodes set.now 0 nexts.now }
    ensures { (c : Change) → command_of joint.now.sets pick ≡ Some c →
        IfOk result (λ reason. reason ≡ reason_of joint.now set.now c) }
{
    let _logs = joint.logs();
    let command = command_at(joint, pick);
    match find_node(joint, command.path()) {
        Some(node) => {
            let via = first_chain(alloc, joint, set, nexts, node, command)?;
            Ok(Reason {
                log: pick.log,
                node,
                via: Places::new(via),
            })
        }
        None => unreachable!(),
    }
}

impl<'a> Walk<'a> {
    /// A walk that begins at the first drawn command.
    pub fn new(alloc: Global, joint: &'a Joint, set: &'a CanonSet) -> Result<Walk<'a>, NoMemory>
        ensures state { IfOk result (λ walk. IsAt walk) }
        ensures left { IfOk result (λ walk. left_of walk ≡ reasons joint.now set.now) }
    {
        let drawn = drawn_commands(alloc, joint)?;
        let nexts = nexts_of(alloc, joint, set)?;
        Ok(Walk {
            alloc,
            joint,
            set,
            drawn,
            nexts,
            at: 0,
        })
    }

    /// The next reason; after a refusal the next call tries the same one again.
    pub fn next(&mut self) -> Result<Option<Reason>, NoMemory>
        requires { IsAt self.old }
        ensures state { IsAt self.new }
        ensures next { IfOk result (λ found.
            MatchOption found (left_of self.old ≡ [] × left_of self.new ≡ [])
            (λ reason. left_of self.old ≡ reason ∷ left_of self.new)) }
        ensures again { OnErr result (left_of self.new ≡ left_of self.old) }
    {
        self.at = next_left_out(self.joint, self.set, &self.drawn, self.at);
        if self.at >= self.drawn.len() {
            return Ok(None);
        }
        let pick = self.drawn.entry(self.at);
        let found = reason(self.alloc, self.joint, self.set, &self.nexts, pick)?;
        self.at += 1;
        Ok(Some(found))
    }
}
