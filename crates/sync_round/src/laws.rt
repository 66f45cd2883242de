//! Laws of a round over a list of trees, over the definitions alone. Each is the contract of a function with an empty
//! body.

ghost use Rattle.std.specs.Prelude.{◌≡◌, ◌↔◌, ◌+◌, ◌<◌, ℕ, List, [], length, map, slice_index_or, None, IsTrue, Result};
ghost use Rattle.std.specs.List.{list_all};
ghost use Rattle.sync_path.specs.Paths.{Node};
ghost use Rattle.sync_command.specs.Changes.{Change};
ghost use Rattle.sync_command.specs.Trees.{command_at, one_each, after, Fits, Holding};
ghost use Rattle.sync_command.specs.Maps.{Store, at};
ghost use Rattle.canon_set.specs.Logs.{all_change};
ghost use Rattle.refluent.specs.Sets.{IsSubset};
ghost use Rattle.refluent.specs.CommonTrees.{AllChange, IsCommonTree, least_common_tree};
ghost use Rattle.refluent.specs.Drawn.{drawn_commands};
ghost use Rattle.resume_apply.specs.Ready.{IsReady};
ghost use Rattle.sync_round.specs.KnownRounds.{IsRoundAnswer};
ghost use Rattle.sync_round.specs.declared.faults.RoundFault.{RoundFault};
ghost use Rattle.sync_round.specs.Rounds.{AreReady, targets, round_work, transitions, IsReadyRound, results, IsRoundStep};

/// The results of the logs on one common tree are ready for the round, and all have the merger's result on that tree as
/// target.
pub fn results_are_ready_for_the_round()
    ensures { (logs : List (List Change)) → AllChange logs →
        (m : Store) → IsCommonTree m logs →
        (merger : List Change) → IsSubset merger (drawn_commands logs) → Fits (at m) merger →
        IsReadyRound logs merger (results (at m) logs) ×
        (targets (transitions (least_common_tree logs) logs merger) (results (at m) logs) ≡
        map {B = Holding} (λ log. after merger (at m)) logs) }
{}

/// The transitions are the same lists for all common trees.
pub fn transitions_are_those_of_each_common_tree()
    ensures { (logs : List (List Change)) → AllChange logs → (m n : Store) →
        IsCommonTree m logs → IsCommonTree n logs →
        (merger : List Change) → IsSubset merger (drawn_commands logs) →
        transitions (at m) logs merger ≡ transitions (at n) logs merger }
{}

/// Let trees be ready for their sets, and let one of them make a step of one command of its set. Then all are ready
/// with the same targets, and the work on all of them is less by one.
pub fn step_leaves_the_trees_ready()
    ensures { (sets : List (List Change)) → IsTrue (list_all one_each sets) →
        IsTrue (list_all all_change sets) → (trees others : List Holding) →
        AreReady sets trees → IsRoundStep sets trees others →
        AreReady sets others × (targets sets others ≡ targets sets trees) ×
        (round_work sets trees ≡ round_work sets others + 1) }
{}

/// Two trees with the same target for a set hold the same where the set has no command.
pub fn trees_with_one_target_differ_in_the_set_alone()
    ensures { (t u : Holding) (cs : List Change) → after cs u ≡ after cs t →
        (p : Node) → command_at cs p ≡ None → u p ≡ t p }
{}

/// Where no work is left on trees that are ready, each is its target.
pub fn trees_without_work_are_their_targets()
    ensures { (sets : List (List Change)) (trees : List Holding) → AreReady sets trees →
        round_work sets trees ≡ 0 → targets sets trees ≡ trees }
{}

/// Trees are ready for their sets exactly where there are as many and each is ready for the set of its number; and the
/// targets go by the numbers too.
pub fn trees_are_ready_number_by_number()
    ensures target { (sets : List (List Change)) (trees : List Holding) (t : Holding) →
        length sets ≡ length trees → (k : ℕ) → k < length sets →
        slice_index_or (targets sets trees) k t ≡
        after (slice_index_or sets k []) (slice_index_or trees k t) }
    ensures ready { (sets : List (List Change)) (trees : List Holding) (t : Holding) →
        AreReady sets trees ↔ ((length sets ≡ length trees) × ((k : ℕ) → k < length sets →
        IsReady (slice_index_or trees k t) (slice_index_or sets k []))) }
{}

/// Each transition has one command per node, and each of its commands changes its node's value.
pub fn transitions_have_one_change_per_node()
    ensures one { (t : Holding) (logs : List (List Change)) (merger : List Change) →
        IsTrue (list_all one_each (transitions t logs merger)) }
    ensures change { (t : Holding) (logs : List (List Change)) (merger : List Change) →
        IsTrue (list_all all_change (transitions t logs merger)) }
{}

/// On trees of which it is known what they hold one answer of a round is right, where no call is refused and memory does
/// not run out.
pub fn round_has_one_answer()
    ensures { (sets : List (List Change)) → IsTrue (list_all one_each sets) →
        (maps : List Store) (one other : Result ℕ RoundFault) →
        IsRoundAnswer sets maps one → IsRoundAnswer sets maps other → one ≡ other }
{}
