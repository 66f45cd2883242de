//! Laws of chains and reasons, over the definitions alone. Each is the contract of a function that does nothing; where
//! it rests on a law of mergers, it calls that law.

ghost use Rattle.std.specs.Prelude.{◌≡◌, List, ◌∷◌, IsTrue, false, None};
ghost use Rattle.sync_path.specs.Paths.{Node, comes_before, is_under};
ghost use Rattle.sync_command.specs.Values.{is_dir, is_empty};
ghost use Rattle.sync_command.specs.Changes.{Change};
ghost use Rattle.sync_command.specs.Trees.{command_at, Fits};
ghost use Rattle.sync_command.specs.Maps.{Store, at};
ghost use Rattle.sync_path.specs.Children.{has};
ghost use Rattle.refluent.specs.Sets.{is_in, IsSubset};
ghost use Rattle.refluent.specs.CommonTrees.{AllChange, IsCommonTree, least_common_tree};
ghost use Rattle.refluent.specs.Drawn.{drawn_commands};
ghost use Rattle.refluent.specs.Joints.{Joined, StandsForAll};
ghost use Rattle.refluent.specs.Mergers.{IsMerger};
ghost use Rattle.explain_core.specs.Chains.{is_chain, is_node, is_upward_chain, IsFirstChain, last_from, leads_down, left_out};
ghost use Rattle.explain_core.specs.Reasons.{Explains, Shows, reason_of};
ghost use Rattle.explain_core.specs.declared.reasons.Reason.{Reason};

use merge_core::laws::conflicts_tell_what_can_be_taken;

/// Where there is a chain for a command outside a set, no set that fits has both the command and the whole set.
pub fn chain_bars_the_command()
    ensures { (logs : List (List Change)) (m : Store) (ms : List Change) (c : Change) →
        is_in ms c ≡ false → (via : List Node) →
        IsTrue (is_chain (least_common_tree logs) ms c via) → (whole : List Change) →
        Fits (at m) whole → IsSubset (c ∷ ms) whole → ⊥ }
{}

/// Each drawn command outside a merger has a chain.
pub fn command_outside_a_merger_has_a_chain()
    ensures { (logs : List (List Change)) → AllChange logs → (m : Store) → IsCommonTree m logs →
        (ms : List Change) → IsMerger (at m) (drawn_commands logs) ms → (c : Change) →
        IsTrue (is_in (drawn_commands logs) c) → is_in ms c ≡ false →
        (via : List Node) × IsTrue (is_chain (least_common_tree logs) ms c via) }
{
    conflicts_tell_what_can_be_taken();
}

/// Each drawn command outside a merger has one first chain.
pub fn command_outside_a_merger_has_one_first_chain()
    ensures { (logs : List (List Change)) → AllChange logs → (m : Store) → IsCommonTree m logs →
        (ms : List Change) → IsMerger (at m) (drawn_commands logs) ms → (c : Change) →
        IsTrue (is_in (drawn_commands logs) c) → is_in ms c ≡ false →
        (via : List Node) × IsFirstChain (least_common_tree logs) ms c via ×
        ((other : List Node) → IsFirstChain (least_common_tree logs) ms c other → other ≡ via) }
{
    conflicts_tell_what_can_be_taken();
}

/// Where no chain leads up for a command that leaves its node other than a directory, the way down to the first node, in
/// path order, at which a command of the set leaves anything is the first chain.
pub fn first_way_down_is_the_first_chain()
    ensures { (logs : List (List Change)) → AllChange logs → (m : Store) → IsCommonTree m logs →
        (ms : List Change) → IsSubset ms (drawn_commands logs) → Fits (at m) ms →
        (c d : Change) → command_at ms c.node ≡ None → is_dir c.new ≡ false →
        ((other : List Node) → is_upward_chain (least_common_tree logs) ms c other ≡ false) →
        IsTrue (is_in ms d) → is_empty d.new ≡ false →
        ((e : Change) → IsTrue (is_in ms e) → IsTrue (is_under e.node c.node) →
        is_empty e.new ≡ false → comes_before e.node d.node ≡ false) →
        (x : Node) (xs : List Node) → IsTrue (leads_down c.node (x ∷ xs)) →
        last_from x xs ≡ d.node → IsFirstChain (least_common_tree logs) ms c (x ∷ xs) }
{}

/// Each member of a chain is a node that the least common tree holds non-empty, or that a log touches.
pub fn chain_is_of_known_nodes()
    ensures { (logs : List (List Change)) (ms : List Change) →
        IsSubset ms (drawn_commands logs) → (c : Change) → IsTrue (is_in (drawn_commands logs) c) →
        (via : List Node) → IsTrue (is_chain (least_common_tree logs) ms c via) → (p : Node) →
        IsTrue (has via p) → IsTrue (is_node logs p) }
{}

/// The reason that is listed for a drawn command outside a merger names the least log that has the command, the place of
/// its node, and the places of the nodes of its first chain.
pub fn listed_reason_explains_its_command()
    ensures { (j : Joined) (logs : List (List Change)) → StandsForAll j logs → (m : Store) →
        IsCommonTree m logs → (ms : List Change) → IsMerger (at m) (drawn_commands logs) ms →
        (c : Change) → IsTrue (is_in (left_out logs ms) c) →
        Explains j logs ms c (reason_of j ms c) }
{
    conflicts_tell_what_can_be_taken();
}

/// Where a reason is shown, no set that fits has both its command and the whole set.
pub fn shown_reason_bars_its_command()
    ensures { (j : Joined) (ms : List Change) (r : Reason) (s : Shows j ms r) (m : Store) →
        (whole : List Change) → Fits (at m) whole → IsSubset (s.command ∷ ms) whole → ⊥ }
{}
