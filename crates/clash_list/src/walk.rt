//! The walk over the nodes of a joint and their children.

ghost use Rattle.std.specs.Prelude.{◌≡◌, ◌<◌, ◌≤◌, ◌+◌, ◌++◌, ℕ, [], ◌∷◌, length, Some, None, MatchOption};
ghost use Rattle.refluent.specs.Joints.{path_at};
ghost use Rattle.clash_list.specs.declared.drawn.Kept.TheVariants.{Every};
ghost use Rattle.clash_list.specs.DrawnAt.{logs_in};
ghost use Rattle.clash_list.specs.ClashLists.{clashes, clashes_from};
ghost use Rattle.clash_list.specs.Walks.{below_next, IsLater};
ghost use Rattle.clash_list.specs.WalkStates.{IsAt, group_of, groups_after, left_of, steps_of};

use crate::clashes::Clash;
use crate::cursor::Cursor;
use crate::drawn::{Kept, Logs, drawn_logs};
use arrayvec::ArrayVec;
use refluent::Joint;

/// A node and, where its commands are compared with those of a child, the child; the logs that are compared, and the
/// pair of them that comes next.
#[derive(Drop)]
pub(crate) struct Walk<'a> {
    pub joint: &'a Joint,
    pub node: usize,
    pub child: Option<usize>,
    pub lefts: Logs,
    pub rights: Logs,
    pub cursor: Cursor,
}

/// The logs of all drawn commands at a node, none past the last node.
fn every_log(joint: &Joint, place: usize) -> Logs
    ensures { result.items ≡ logs_in Every joint.now.sets (path_at joint.now.nodes place) }
{
    if place < joint.nodes() {
        drawn_logs(joint, place, Kept::Every)
    } else {
        ArrayVec::new()
    }
}

impl<'a> Walk<'a> {
    /// A walk that begins at the first node.
    pub fn new(joint: &'a Joint) -> Walk<'a>
        ensures state { IsAt result }
        ensures left { left_of result ≡ clashes joint.now }
    {
        Walk {
            joint,
            node: 0,
            child: None,
            lefts: every_log(joint, 0),
            rights: ArrayVec::new(),
            cursor: Cursor { left: 0, right: 1 },
        }
    }

    /// The next clash of the node's commands with each other, or with those of the child.
    fn next_here(&mut self) -> Option<Clash>
        requires { IsAt self.old }
        ensures state { IsAt self.new }
        ensures kept { self.new ≡ record self.old { cursor = self.new.cursor } }
        ensures next { MatchOption result (group_of self.old ≡ [])
            (λ clash. group_of self.old ≡ clash ∷ group_of self.new) }
    {
        let node = self.node;
        match self.child {
            None => match self.cursor.next_pair(self.lefts.as_slice()) {
                Some((left, right)) => Some(Clash::Same { node, left, right }),
                None => None,
            },
            Some(child) => {
                let lefts = self.lefts.as_slice();
                match self.cursor.next_product(lefts, self.rights.as_slice()) {
                    Some((left, right)) => Some(Clash::Below {
                        node,
                        child,
                        left,
                        right,
                    }),
                    None => None,
                }
            }
        }
    }

    /// The first child, where some command leaves the node other than a directory; these are compared from then on.
    fn first_child(&mut self) -> Option<usize>
        requires { self.old.node < length self.old.joint.now.nodes }
        ensures kept { self.new ≡ record self.old { lefts = self.new.lefts } }
        ensures next { self.old.child ≡ None → groups_after self.old ≡
            below_next self.old.joint.now self.old.node self.new.lefts.items result }
        ensures later { self.old.child ≡ None → (k : ℕ) → result ≡ Some k →
            IsLater self.old.joint.now self.old.node self.old.child k }
    {
        let _node = self.joint.node(self.node);
        match self.joint.first_child(self.node) {
            None => None,
            Some(first) => {
                self.lefts = drawn_logs(self.joint, self.node, Kept::NoDirectory);
                if self.lefts.is_empty() {
                    None
                } else {
                    Some(first)
                }
            }
        }
    }

    /// The next child whose commands are compared with the node's.
    fn next_child(&mut self) -> Option<usize>
        requires state { IsAt self.old }
        requires node { self.old.node < length self.old.joint.now.nodes }
        ensures kept { self.new ≡ record self.old { lefts = self.new.lefts } }
        ensures next { groups_after self.old ≡
            below_next self.old.joint.now self.old.node self.new.lefts.items result }
        ensures later { (k : ℕ) → result ≡ Some k →
            IsLater self.old.joint.now self.old.node self.old.child k }
    {
        match self.child {
            None => self.first_child(),
            Some(child) => self.joint.next_sibling(child),
        }
    }

    /// Goes on at a child of the node.
    fn enter_child(&mut self, child: usize)
        requires later { IsLater self.old.joint.now self.old.node self.old.child child }
        requires node { self.old.node < length self.old.joint.now.nodes }
        ensures joint { self.new.joint ≡ self.old.joint }
        ensures node { self.new.node ≡ self.old.node }
        ensures child { self.new.child ≡ Some child }
        ensures state { IsAt self.new }
        ensures left { left_of self.new ≡
            below_next self.old.joint.now self.old.node self.old.lefts.items (Some child)
            ++ clashes_from self.old.joint.now (self.old.node + 1) }
    {
        self.rights = drawn_logs(self.joint, child, Kept::Something);
        self.child = Some(child);
        self.cursor = Cursor { left: 0, right: 0 };
    }

    /// Goes on at a node.
    fn enter_node(&mut self, node: usize)
        ensures joint { self.new.joint ≡ self.old.joint }
        ensures node { self.new.node ≡ node }
        ensures child { self.new.child ≡ None }
        ensures state { IsAt self.new }
        ensures left { left_of self.new ≡ clashes_from self.old.joint.now node }
    {
        self.lefts = every_log(self.joint, node);
        self.node = node;
        self.child = None;
        self.cursor = Cursor { left: 0, right: 1 };
    }

    /// Goes on after the clashes of the node's commands with each other, or with those of the child.
    fn enter_next(&mut self)
        requires state { IsAt self.old }
        requires node { self.old.node < length self.old.joint.now.nodes }
        ensures joint { self.new.joint ≡ self.old.joint }
        ensures state { IsAt self.new }
        ensures left { left_of self.new ≡
            groups_after self.old ++ clashes_from self.old.joint.now (self.old.node + 1) }
        ensures fewer { steps_of self.new < steps_of self.old }
    {
        let _nodes = self.joint.nodes();
        match self.next_child() {
            Some(child) => self.enter_child(child),
            None => self.enter_node(self.node + 1),
        }
    }

    /// The next clash.
    pub fn next(&mut self) -> Option<Clash>
        requires { IsAt self.old }
        ensures state { IsAt self.new }
        ensures next { MatchOption result (left_of self.old ≡ [] × left_of self.new ≡ [])
            (λ clash. left_of self.old ≡ clash ∷ left_of self.new) }
    {
        'groups: while self.node < self.joint.nodes() {
            if let Some(clash) = self.next_here() {
                return Some(clash);
            }
            self.enter_next();
        }
        None
    }
}
