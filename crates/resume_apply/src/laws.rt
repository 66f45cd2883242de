//! Laws over the definitions: each function's contract is a law, and its body is empty.

ghost use Rattle.std.specs.Prelude.{◌≡◌, ◌≢◌, ◌+◌, List, Some, IsTrue, false};
ghost use Rattle.sync_path.specs.Paths.{Node, same_path};
ghost use Rattle.sync_command.specs.Changes.{Change};
ghost use Rattle.sync_command.specs.Trees.{command_at, after, one_each, Fits};
ghost use Rattle.sync_command.specs.Maps.{Store, at, IsTreeMap};
ghost use Rattle.canon_set.specs.Logs.{all_change};
ghost use Rattle.resume_apply.specs.Ready.{IsReady, IsStep, work};

/// A tree that a set fits is ready for it.
pub fn fitting_tree_is_ready()
    ensures { (m : Store) (cs : List Change) → Fits (at m) cs → IsReady (at m) cs }
{}

/// Let a tree be ready for a set, and let another differ from it at one node of the set only, by one step of that
/// node's command. Then the other is ready too, with the same target, and the work is less by one.
pub fn step_leaves_a_tree_ready()
    ensures { (m n : Store) → IsTreeMap m → IsTreeMap n → (cs : List Change) →
        IsTrue (one_each cs) → IsTrue (all_change cs) → IsReady (at m) cs →
        (p : Node) (c : Change) → command_at cs p ≡ Some c →
        ((q : Node) → same_path q p ≡ false → at n q ≡ at m q) →
        at m p ≢ at n p → IsStep c (at m p) (at n p) →
        IsReady (at n) cs × (after cs (at n) ≡ after cs (at m)) ×
        (work cs (at m) ≡ work cs (at n) + 1) }
{}
