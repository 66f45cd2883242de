//! `Joint`, and its calls.

ghost use Rattle.std.specs.Prelude.{◌≡◌, ◌<◌, ◌≤◌, ◌-◌, ◌+◌, ℕ, length, slice_get, slice_range, None, Some};
ghost use Rattle.sync_path.specs.Paths.{Node, parent};
ghost use Rattle.refluent.specs.Drawn.{drawn_of};
ghost use Rattle.refluent.specs.Families.{IsFirstChild};
ghost use Rattle.refluent.specs.Joints.{IsJoint, path_at, value_at};
ghost use Rattle.refluent.specs.JointTables.{start_at};
ghost use Rattle.refluent.specs.declared.joint.TheConstants.{MAX_LOGS};
ghost use Rattle.refluent.specs.Picks.{IsParentPlace, net_commands};

use crate::families::Families;
use canon_set::CanonSet;
use std::marker::Model;
use sync_command::{Row, Value};
use sync_path::Path;

/// The most logs that are joined.
pub const MAX_LOGS: usize = 64;

/// A net command of a log, by the log's number from 1 and the command's place in the log's net set.
#[derive(Clone, Copy, Debug)]
pub struct Pick {
    pub log: u32,
    pub place: usize,
}

/// What the joint keeps of a node beside its path and its first value: its parent's place, and where the net commands
/// that name it begin among all of them.
#[derive(Clone, Copy, Debug)]
pub(crate) struct Link {
    pub parent: Option<usize>,
    pub start: usize,
}

/// Logs that some tree takes together: their net sets, and the nodes of their least common tree. Contracts see the net
/// sets and the nodes with their values.
#[derive(Debug, Drop)]
pub struct Joint {
    pub(crate) sets: Vec<CanonSet>,
    pub(crate) nodes: Vec<Row>,
    // one link for each node; the net commands, by node and then by log; how many commands are drawn
    pub(crate) links: Vec<Link>,
    pub(crate) picks: Vec<Pick>,
    pub(crate) drawn: usize,
    pub(crate) families: Families,
}

impl Model for Joint {
    ghost use Rattle.refluent.specs.Joints.{Joined};
    ghost use Rattle.refluent.specs.JointTables.{IsHeld, HasFamilies};

    ghost Value = { Joined };

    ghost view = { λ j. record { sets = j.sets.items; nodes = j.nodes.items } };

    ghost invariant = { λ j.
        IsHeld j.sets.items j.nodes.items j.links.items j.picks.items j.drawn
        × HasFamilies j.nodes.items j.families.children.items j.families.siblings.items };
}

/// Where the net commands of a node begin among all.
fn start_of(links: &[Link], picks: &[Pick], place: usize) -> usize
    ensures { result ≡ start_at links.now picks.now place }
{
    match links.get(place) {
        Some(link) => link.start,
        None => picks.len(),
    }
}

/// The picks from one place up to another.
fn picks_between(picks: &[Pick], start: usize, end: usize) -> &[Pick]
    requires start { start ≤ end }
    requires end { end ≤ length picks.now }
    ensures { result.now ≡ slice_range picks.now start end }
{
    &picks[start..end]
}

impl Joint {
    /// The number of logs, at most 64. Takes no memory.
    pub fn logs(&self) -> u32
        ensures logs { result ≡ length self.now.sets }
        ensures few { result ≤ MAX_LOGS }
        ensures joint { IsJoint self.now }
    {
        self.sets.len() as u32
    }

    /// The net set of a log; logs count from 1. Takes no memory.
    pub fn set(&self, log: u32) -> &CanonSet
        requires { (0 < log) × (log ≤ length self.now.sets) }
        ensures { slice_get self.now.sets (log - 1) ≡ Some result.now }
    {
        &self.sets[log as usize - 1]
    }

    /// The number of nodes: the touched ones and those above them. Takes no memory.
    pub fn nodes(&self) -> usize
        ensures { result ≡ length self.now.nodes }
    {
        self.nodes.len()
    }

    /// The node at a place, in path order. Takes no memory.
    pub fn node(&self, place: usize) -> &Path
        requires { place < length self.now.nodes }
        ensures { path_at self.now.nodes place ≡ Some result.now }
    {
        &self.nodes[place].path
    }

    /// What the least common tree holds at a node. Takes no memory.
    pub fn first(&self, place: usize) -> &Value
        requires { place < length self.now.nodes }
        ensures { value_at self.now.nodes place ≡ Some result.now }
    {
        &self.nodes[place].value
    }

    /// The number of drawn commands: the commands of all net sets, equal ones once. Takes no memory.
    pub fn drawn(&self) -> usize
        ensures { result ≡ length (drawn_of self.now.sets) }
    {
        self.drawn
    }

    /// The place of a node's parent, which a root has not. Takes no memory.
    pub fn parent(&self, place: usize) -> Option<usize>
        requires { place < length self.now.nodes }
        ensures { (p : Node) → path_at self.now.nodes place ≡ Some p →
            IsParentPlace self.now.nodes (parent p) result }
    {
        self.links[place].parent
    }

    /// The place of the first root. Takes no memory.
    pub fn first_root(&self) -> Option<usize>
        ensures { IsFirstChild self.now.nodes None 0 result }
    {
        let roots = self.nodes.len();
        self.families.children[roots]
    }

    /// The place of a node's first child, in path order. Takes no memory.
    pub fn first_child(&self, place: usize) -> Option<usize>
        requires { place < length self.now.nodes }
        ensures { (p : Node) → path_at self.now.nodes place ≡ Some p →
            IsFirstChild self.now.nodes (Some p) 0 result }
    {
        self.families.children[place]
    }

    /// The place of the next child of a node's parent, in path order; of a root that of the next root. Takes no memory.
    pub fn next_sibling(&self, place: usize) -> Option<usize>
        requires { place < length self.now.nodes }
        ensures { (p : Node) → path_at self.now.nodes place ≡ Some p →
            IsFirstChild self.now.nodes (parent p) (place + 1) result }
    {
        self.families.siblings[place]
    }

    /// The net commands that name a node, by log. Takes no memory.
    pub fn commands(&self, place: usize) -> &[Pick]
        requires { place < length self.now.nodes }
        ensures { (p : Node) → path_at self.now.nodes place ≡ Some p →
            result.now ≡ net_commands self.now.sets p }
    {
        let links = self.links.as_slice();
        let picks = self.picks.as_slice();
        let start = start_of(links, picks, place);
        let end = start_of(links, picks, place + 1);
        picks_between(picks, start, end)
    }
}
