//! Laws of undoing, composing and rebasing, over the definitions alone. Each is the contract of a function with an empty
//! body.

ghost use Rattle.std.specs.Prelude.{◌≡◌, ℕ, suc, false, ◌∷◌, [], List, IsTrue, map};
ghost use Rattle.sync_path.specs.Paths.{Node};
ghost use Rattle.sync_command.specs.Changes.{Change, is_canonical};
ghost use Rattle.sync_command.specs.Trees.{Takes, after, Fits};
ghost use Rattle.sync_command.specs.Maps.{Store, at, stored, IsTreeMap};
ghost use Rattle.canon_set.specs.Logs.{IsTaken, all_change, net};
ghost use Rattle.canon_set.specs.Sets.{canonical};
ghost use Rattle.refluent.specs.Sets.{is_in, IsSubset};
ghost use Rattle.refluent.specs.CommonTrees.{IsAmong, AllChange, IsCommonTree, least_common_tree};
ghost use Rattle.refluent.specs.Drawn.{drawn_commands, in_turn};
ghost use Rattle.refluent.specs.FirstDisagreements.{log_at};
ghost use Rattle.pref_list.specs.declared.rules.Rule.{Rule};
ghost use Rattle.pref_list.specs.declared.rules.Rule.TheVariants.{All};
ghost use Rattle.pref_list.specs.Ranking.{ranking};
ghost use Rattle.merge_core.specs.FirstMergers.{IsFirstMerger};
ghost use Rattle.transition.specs.Transitions.{transition};
ghost use Rattle.transition.specs.Limits.{IsWithinLogs};
ghost use Rattle.resume_apply.specs.Ready.{IsReady};
ghost use Rattle.rounds.specs.Compositions.{inverse_set, undoing, chain_list, composition, StopsAt};
ghost use Rattle.rounds.specs.Rebasing.{IsRankedFirst, rebase_logs, rebased_tree, rebased_next};

/// What undoes a log fits the log's result on each tree that takes the log, and leads back to that tree.
pub fn undoing_leads_back()
    ensures { (m : Store) → IsTreeMap m → (log : List Change) → Takes (at m) log →
        Fits (at (stored m log)) (undoing log) ×
        (after (undoing log) (at (stored m log)) ≡ at m) }
{}

/// Let a set fit a tree, and let another tree be ready for the set with the same target, as an application that was
/// stopped anywhere leaves it. Then the other is ready for the inverse of the set, with the first tree for target.
pub fn stopped_tree_is_ready_for_the_inverse()
    ensures { (m n : Store) → IsTreeMap m → (cs : List Change) → Fits (at m) cs →
        IsReady (at n) cs → after cs (at n) ≡ after cs (at m) →
        IsReady (at n) (inverse_set cs) × (after (inverse_set cs) (at n) ≡ at m) }
{}

/// A list in the admissible order is its own canonical list.
pub fn canonical_list_stays()
    ensures { (cs : List Change) → IsTrue (is_canonical cs) → canonical cs ≡ cs }
{}

/// The composition of sets fits each tree that takes their chain list, with the chain list's result.
pub fn composition_fits()
    ensures { (m : Store) → IsTreeMap m → (sets : List (List Change)) →
        Takes (at m) (chain_list sets) →
        Fits (at m) (composition sets) ×
        (after (composition sets) (at m) ≡ at (stored m (chain_list sets))) }
{}

/// The composition has no more commands than the sets together, and its lines no more bytes than theirs.
pub fn composition_is_within_its_sets()
    ensures { (sets : List (List Change)) → IsWithinLogs sets (composition sets) }
{}

/// A tree that takes some logs one after another takes the chain list of their net sets too, with the same result.
pub fn net_sets_follow_one_another()
    ensures { (m : Store) → IsTreeMap m → (logs : List (List Change)) →
        Takes (at m) (in_turn logs) →
        Takes (at m) (chain_list (map net logs)) ×
        (at (stored m (chain_list (map net logs))) ≡ at (stored m (in_turn logs))) }
{}

/// Where sets stop following one another, no tree takes their chain list, and there is one such place.
pub fn sets_stop_at_one_place()
    ensures none { (sets : List (List Change)) (number : ℕ) (node : Node) →
        StopsAt sets number node → IsTaken (chain_list sets) → ⊥ }
    ensures once { (sets : List (List Change)) (number other : ℕ) (node place : Node) →
        StopsAt sets number node → StopsAt sets other place →
        (number ≡ other) × (node ≡ place) }
{}

/// A log's net set that is ranked before all else is held by the first merger.
pub fn log_ranked_first_is_held()
    ensures { (logs : List (List Change)) → AllChange logs → (m : Store) → IsCommonTree m logs →
        (log : List Change) → IsAmong log logs →
        (rules : List Rule) → IsRankedFirst log logs rules →
        (merger : List Change) →
        IsFirstMerger (at m) (drawn_commands logs) (ranking logs rules) merger →
        IsSubset (net log) merger }
{}

/// Without rules log 1 is ranked before all else, and under rules that begin with `all` the log of that rule.
pub fn first_rule_ranks_its_log_first()
    ensures none { (log : List Change) (logs : List (List Change)) →
        IsRankedFirst log (log ∷ logs) [] }
    ensures all { (logs : List (List Change)) (place : ℕ) (rules : List Rule) →
        IsRankedFirst (log_at logs place) logs (All (suc place) ∷ rules) }
{}

/// Where a drawn set that fits has a log's whole net set, the log's transition is a subset of it, and has no command of
/// the log: nothing that the log did is undone.
pub fn transition_of_a_held_log_is_of_the_others()
    ensures { (logs : List (List Change)) → AllChange logs → (m : Store) → IsCommonTree m logs →
        (log : List Change) → IsAmong log logs →
        (set : List Change) → IsSubset set (drawn_commands logs) → Fits (at m) set →
        IsSubset (net log) set →
        (c : Change) → IsTrue (is_in (transition (least_common_tree logs) (net log) set) c) →
        IsTrue (is_in set c) × (is_in (net log) c ≡ false) }
{}

/// On each tree that takes the work and the chain list, the two transitions fit the work's result and the sets' result,
/// and both lead to the result of the first merger, whatever the rules.
pub fn rebased_sets_lead_to_the_merger()
    ensures tree { (recorded : List Change) → IsTrue (all_change recorded) →
        (sets : List (List Change)) (m : Store) → IsTreeMap m →
        Takes (at m) recorded → Takes (at m) (chain_list sets) →
        (rules : List Rule) (merger : List Change) →
        IsFirstMerger (at m) (drawn_commands (rebase_logs recorded sets))
        (ranking (rebase_logs recorded sets) rules) merger →
        Fits (at (stored m recorded)) (rebased_tree recorded sets merger) ×
        (after (rebased_tree recorded sets merger) (at (stored m recorded)) ≡
        after merger (at m)) }
    ensures next { (recorded : List Change) → IsTrue (all_change recorded) →
        (sets : List (List Change)) (m : Store) → IsTreeMap m →
        Takes (at m) recorded → Takes (at m) (chain_list sets) →
        (rules : List Rule) (merger : List Change) →
        IsFirstMerger (at m) (drawn_commands (rebase_logs recorded sets))
        (ranking (rebase_logs recorded sets) rules) merger →
        Fits (at (stored m (chain_list sets))) (rebased_next recorded sets merger) ×
        (after (rebased_next recorded sets merger) (at (stored m (chain_list sets))) ≡
        after merger (at m)) }
{}

/// Without rules the first merger has the work's whole net set, and the transition for the live tree is a subset of the
/// composition: nothing that was recorded is undone.
pub fn recorded_work_is_kept()
    ensures { (recorded : List Change) → IsTrue (all_change recorded) →
        (sets : List (List Change)) (m : Store) → IsTreeMap m →
        Takes (at m) recorded → Takes (at m) (chain_list sets) →
        (merger : List Change) →
        IsFirstMerger (at m) (drawn_commands (rebase_logs recorded sets))
        (ranking (rebase_logs recorded sets) []) merger →
        IsSubset (net recorded) merger ×
        IsSubset (rebased_tree recorded sets merger) (composition sets) }
{}

/// Under the one rule `all 2` the first merger has the whole composition, and the transition for the next round is a
/// subset of the work's net set: nothing of the rounds is undone.
pub fn rounds_are_kept()
    ensures { (recorded : List Change) → IsTrue (all_change recorded) →
        (sets : List (List Change)) (m : Store) → IsTreeMap m →
        Takes (at m) recorded → Takes (at m) (chain_list sets) →
        (merger : List Change) →
        IsFirstMerger (at m) (drawn_commands (rebase_logs recorded sets))
        (ranking (rebase_logs recorded sets) (All 2 ∷ [])) merger →
        IsSubset (composition sets) merger ×
        IsSubset (rebased_next recorded sets merger) (net recorded) }
{}
