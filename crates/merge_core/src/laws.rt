//! Laws of mergers.

ghost use Rattle.std.specs.Prelude.{◌≡◌, ◌≤◌, ◌↔◌, List, [], ◌∷◌, length, IsTrue, false, Ok};
ghost use Rattle.sync_path.specs.Paths.{IsPath, parts};
ghost use Rattle.log_text.specs.declared.frame.TheConstants.{MAX_ITEMS};
ghost use Rattle.refluent.specs.declared.joint.TheConstants.{MAX_LOGS};
ghost use Rattle.std.specs.List.{list_any};
ghost use Rattle.sync_command.specs.Changes.{Change};
ghost use Rattle.sync_command.specs.Trees.{one_each, Fits};
ghost use Rattle.sync_command.specs.Maps.{Store, at};
ghost use Rattle.refluent.specs.Sets.{is_in, IsSubset, HaveSameCommands};
ghost use Rattle.refluent.specs.CommonTrees.{AllChange, IsCommonTree};
ghost use Rattle.refluent.specs.Drawn.{drawn_commands};
ghost use Rattle.refluent.specs.Clashes.{HasNoClash};
ghost use Rattle.refluent.specs.Joints.{Joined};
ghost use Rattle.scan_board.specs.Tables.{State};
ghost use Rattle.scan_board.specs.Boards.{IsNew};
ghost use Rattle.merge_core.specs.Boards.{IsSettledOf};
ghost use Rattle.pref_list.specs.declared.rules.Rule.{Rule};
ghost use Rattle.pref_list.specs.Prefs.{IsPrefs, prefs_of, prefs_text};
ghost use Rattle.pref_list.specs.Ranking.{ranking};
ghost use Rattle.merge_core.specs.Steering.{steering_rules};
ghost use Rattle.refluent.specs.Mergers.{IsMerger};
ghost use Rattle.merge_core.specs.FirstMergers.{IsFirstMerger, IsExtendable};
ghost use Rattle.refluent.specs.Prerequisites.{HoldsPrerequisites};
ghost use Rattle.merge_core.specs.Conflicts.{conflicts, greedy_scan};

/// Where two sets fit a tree and one is a proper subset of the other, some further command of the larger can be added
/// to the smaller so that it still fits.
pub fn fitting_subset_can_grow()
    ensures { (m : Store) (ms ns : List Change) → Fits (at m) ms → Fits (at m) ns →
        IsSubset ms ns →
        (d : Change) → IsTrue (is_in ns d) → is_in ms d ≡ false →
        (c : Change) × IsTrue (is_in ns c) × (is_in ms c ≡ false) × Fits (at m) (c ∷ ms) }
{}

/// No merger is a proper subset of a drawn set that fits.
pub fn merger_is_no_proper_subset()
    ensures { (m : Store) (drawn ms ns : List Change) → IsMerger (at m) drawn ms →
        IsSubset ns drawn → Fits (at m) ns → IsSubset ms ns → IsSubset ns ms }
{}

/// A drawn set fits exactly where it has one command per node, holds the prerequisites of each member, and no two
/// members clash.
pub fn drawn_set_fits_by_its_parts()
    ensures { (logs : List (List Change)) → AllChange logs → (m : Store) → IsCommonTree m logs →
        (ms : List Change) → IsSubset ms (drawn_commands logs) →
        (Fits (at m) ms ↔ (IsTrue (one_each ms) × HoldsPrerequisites (at m) ms × HasNoClash ms)) }
{}

/// Under the rules that steer to a merger, that merger is the first one.
pub fn steered_merger_is_first()
    ensures { (logs : List (List Change)) → AllChange logs → (m : Store) → IsCommonTree m logs →
        (ms : List Change) → IsMerger (at m) (drawn_commands logs) ms →
        IsFirstMerger (at m) (drawn_commands logs) (ranking logs (steering_rules logs ms)) ms }
{}

/// The rules that steer to a drawn set of at most 2^20 commands of at most 64 logs are a preference list, and their text
/// is read back.
pub fn steering_rules_are_a_preference_list()
    ensures limits { (logs : List (List Change)) (set : List Change) → length logs ≤ MAX_LOGS →
        IsTrue (one_each set) → IsSubset set (drawn_commands logs) → length set ≤ MAX_ITEMS →
        ((c : Change) → IsTrue (is_in set c) → IsPath c.node) →
        IsPrefs (steering_rules logs set) }
    ensures read { (logs : List (List Change)) (set : List Change) → length logs ≤ MAX_LOGS →
        IsTrue (one_each set) → IsSubset set (drawn_commands logs) → length set ≤ MAX_ITEMS →
        ((c : Change) → IsTrue (is_in set c) → IsPath c.node) →
        prefs_of (parts 10 (prefs_text (steering_rules logs set))) ≡ Ok (steering_rules logs set) }
{}

/// The scan of the ranking that takes each command in no conflict with one taken before gives the first merger.
pub fn greedy_scan_gives_the_first_merger()
    ensures { (logs : List (List Change)) → AllChange logs → (m : Store) → IsCommonTree m logs →
        (rules : List Rule) →
        IsFirstMerger (at m) (drawn_commands logs) (ranking logs rules) (greedy_scan (ranking
        logs rules) []) }
{}

/// There is one first merger: any two have the same commands.
pub fn first_merger_is_one()
    ensures { (logs : List (List Change)) → AllChange logs → (m : Store) → IsCommonTree m logs →
        (rules : List Rule) (ms ns : List Change) →
        IsFirstMerger (at m) (drawn_commands logs) (ranking logs rules) ms →
        IsFirstMerger (at m) (drawn_commands logs) (ranking logs rules) ns →
        HaveSameCommands ms ns }
{}

/// The first merger for one common tree is the first merger for each.
pub fn first_merger_is_that_of_each_common_tree()
    ensures { (logs : List (List Change)) → AllChange logs → (m n : Store) →
        IsCommonTree m logs → IsCommonTree n logs → (rules : List Rule) (ms : List Change) →
        IsFirstMerger (at m) (drawn_commands logs) (ranking logs rules) ms →
        IsFirstMerger (at n) (drawn_commands logs) (ranking logs rules) ms }
{}

/// Beside taken commands that some drawn set that fits has, a drawn command can be in such a set exactly where it
/// conflicts with none of them.
pub fn conflicts_tell_what_can_be_taken()
    ensures { (logs : List (List Change)) → AllChange logs → (m : Store) → IsCommonTree m logs →
        (taken : List Change) → IsTrue (one_each taken) →
        IsExtendable (at m) (drawn_commands logs) taken → (c : Change) →
        IsTrue (is_in (drawn_commands logs) c) →
        (IsExtendable (at m) (drawn_commands logs) (c ∷ taken) ↔ (list_any (conflicts c) taken ≡
        false)) }
{}

/// A new board of a joint is settled for it.
pub fn new_board_is_settled()
    ensures { (j : Joined) (s : State) → IsNew j s → IsSettledOf j s }
{}
