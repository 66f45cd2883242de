//! Laws of common trees, over the definitions alone. Each is the contract of a function with an empty body.

ghost use Rattle.std.specs.Prelude.{◌≡◌, ◌↔◌, List, [], Some, IsTrue, false, if◌then◌else◌};
ghost use Rattle.std.specs.List.{list_any};
ghost use Rattle.sync_path.specs.Paths.{Node};
ghost use Rattle.sync_command.specs.declared.values.Value.{Value};
ghost use Rattle.sync_command.specs.declared.values.Value.TheVariants.{Empty, Dir};
ghost use Rattle.sync_command.specs.Changes.{Change};
ghost use Rattle.sync_command.specs.Trees.{command_at, Fits};
ghost use Rattle.sync_command.specs.Maps.{Store, at};
ghost use Rattle.canon_set.specs.Logs.{IsTaken, names, touches};
ghost use Rattle.canon_set.specs.Leaving.{above};
ghost use Rattle.refluent.specs.Sets.{IsSubset};
ghost use Rattle.refluent.specs.Needs.{Need, meets, are_incompatible, disagree};
ghost use Rattle.refluent.specs.CommonTrees.{IsAmong, AllChange, AreTaken, Agree, IsCommonTree, HasCommonTree, least_common_tree};
ghost use Rattle.refluent.specs.Drawn.{drawn_commands};

/// Two needs are incompatible exactly where no value meets both.
pub fn incompatible_needs_share_no_value()
    ensures { (m n : Need) →
        IsTrue (are_incompatible m n)
        ↔ ((v : Value) → IsTrue (meets m v) → IsTrue (meets n v) → ⊥) }
{}

/// Logs that are taken, each by some tree, have a common tree exactly where no two of them disagree at a node.
pub fn logs_that_agree_have_a_common_tree()
    ensures { (logs : List (List Change)) → AllChange logs → AreTaken logs →
        (HasCommonTree logs ↔ Agree logs) }
{}

/// Where logs have a common tree, the least common tree is one.
pub fn least_common_tree_is_common()
    ensures { (logs : List (List Change)) → AllChange logs → HasCommonTree logs →
        (m : Store) × (at m ≡ least_common_tree logs) × IsCommonTree m logs }
{}

/// The least common tree has the touched nodes at their first old values, the untouched ones above touched ones as
/// directories with the empty label, and nothing else.
pub fn least_common_tree_values()
    ensures touched { (logs : List (List Change)) → AllChange logs → HasCommonTree logs →
        (log : List Change) → IsAmong log logs → (p : Node) (d : Change) →
        command_at (touches log) p ≡ Some d → least_common_tree logs p ≡ d.old }
    ensures untouched { (logs : List (List Change)) (p : Node) →
        ((log : List Change) → IsAmong log logs → names log p ≡ false) →
        least_common_tree logs p ≡ if list_any (λ log. above log p) logs then Dir [] else Empty }
{}

/// A set drawn from the net sets of logs that fits one common tree fits each.
pub fn drawn_set_fits_each_common_tree()
    ensures { (logs : List (List Change)) → AllChange logs →
        (m n : Store) → IsCommonTree m logs → IsCommonTree n logs →
        (cs : List Change) → IsSubset cs (drawn_commands logs) → Fits (at m) cs → Fits (at n) cs }
{}
