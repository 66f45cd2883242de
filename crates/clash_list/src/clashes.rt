//! `Clash`, and `Clashes`, which gives them.

ghost use Rattle.std.specs.Prelude.{◌≡◌, [], ◌∷◌, IfOk, MatchOption};
ghost use Rattle.clash_list.specs.ClashLists.{clashes};

use crate::walk::Walk;
use refluent::Joint;
use std::alloc::Global;
use std::marker::Model;
use sync_path::NoMemory;

/// Two drawn commands that clash ("Clash" in `docs/MODEL.md`). Nodes are places of the joint, and a command is named by
/// the least log that has it.
#[derive(Clone, Copy, Debug)]
pub enum Clash {
    /// Two commands of one node that differ; `left < right` are their logs.
    Same {
        node: usize,
        left: u32,
        right: u32,
    },
    /// A command that leaves the node other than a directory, and one that leaves something at a child of the node:
    /// `left` is the log of the first, `right` that of the second.
    Below {
        node: usize,
        child: usize,
        left: u32,
        right: u32,
    },
}

/// The clashes of the drawn commands of a joint, each once, in order: by node; at one node first those of its commands
/// with each other, by their logs; then those with the commands of its children, by child, and by the logs. Contracts
/// see the list of the clashes that are still to come.
#[derive(Drop)]
pub struct Clashes<'a> {
    walk: Walk<'a>,
}

impl<'a> Model for Clashes<'a> {
    ghost use Rattle.std.specs.Prelude.{List};
    ghost use Rattle.clash_list.specs.declared.clashes.Clash.{Clash};
    ghost use Rattle.clash_list.specs.WalkStates.{IsAt, left_of};

    ghost Value = { List Clash };

    ghost view = { λ c. left_of c.walk };

    ghost invariant = { λ c. IsAt c.walk };
}

impl<'a> Clashes<'a> {
    /// All clashes of the joint are to come.
    pub fn new(_alloc: Global, joint: &'a Joint) -> Result<Clashes<'a>, NoMemory>
        ensures { IfOk result (λ c. c ≡ clashes joint.now) }
    {
        Ok(Clashes {
            walk: Walk::new(joint),
        })
    }

    /// The next clash; `None` exactly where all were given. Takes no memory.
    pub fn next(&mut self) -> Option<Clash>
        ensures { MatchOption result (self.old ≡ [] × self.new ≡ [])
            (λ clash. self.old ≡ clash ∷ self.new) }
    {
        self.walk.next()
    }
}
