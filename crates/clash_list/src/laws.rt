//! Laws of clashes, over the definitions alone. Each is the contract of a function with an empty body.

ghost use Rattle.std.specs.Prelude.{◌≡◌, ◌↔◌, List, []};
ghost use Rattle.sync_command.specs.Changes.{Change};
ghost use Rattle.sync_command.specs.Trees.{Fits};
ghost use Rattle.sync_command.specs.Maps.{Store, at};
ghost use Rattle.refluent.specs.Sets.{HaveSameCommands};
ghost use Rattle.refluent.specs.CommonTrees.{AllChange, IsCommonTree};
ghost use Rattle.refluent.specs.Drawn.{drawn_commands};
ghost use Rattle.refluent.specs.Clashes.{HasNoClash};
ghost use Rattle.refluent.specs.Joints.{Joined, StandsForAll};
ghost use Rattle.refluent.specs.Mergers.{IsMerger};
ghost use Rattle.clash_list.specs.ClashLists.{clashes};

/// The list of a joint's clashes is empty exactly where no two drawn commands clash.
pub fn no_clash_is_listed_where_none_clash()
    ensures { (j : Joined) (logs : List (List Change)) → StandsForAll j logs →
        ((clashes j ≡ []) ↔ HasNoClash (drawn_commands logs)) }
{}

/// No two drawn commands clash exactly where all of them fit the common trees.
pub fn drawn_commands_fit_where_none_clash()
    ensures { (logs : List (List Change)) → AllChange logs → (m : Store) → IsCommonTree m logs →
        (HasNoClash (drawn_commands logs) ↔ Fits (at m) (drawn_commands logs)) }
{}

/// Where no two drawn commands clash, the only merger is all of them.
pub fn all_drawn_commands_are_the_only_merger()
    ensures { (logs : List (List Change)) → AllChange logs → (m : Store) → IsCommonTree m logs →
        HasNoClash (drawn_commands logs) →
        IsMerger (at m) (drawn_commands logs) (drawn_commands logs) ×
        ((merger : List Change) → IsMerger (at m) (drawn_commands logs) merger →
        HaveSameCommands merger (drawn_commands logs)) }
{}
