//! Laws of transitions, over the definitions alone. Each is the contract of a function with an empty body.

ghost use Rattle.std.specs.Prelude.{◌≡◌, ◌<◌, ◌≤◌, ◌||◌, ◌&&◌, not, List, map, length, Some, None, IsTrue, if◌then◌else◌};
ghost use Rattle.std.specs.List.{sum_by};
ghost use Rattle.sync_path.specs.Paths.{Node};
ghost use Rattle.sync_command.specs.declared.values.Version.{Version};
ghost use Rattle.sync_command.specs.Values.{same_value};
ghost use Rattle.sync_command.specs.Changes.{Change};
ghost use Rattle.sync_command.specs.Trees.{Holding, command_at, after, one_each, Fits};
ghost use Rattle.sync_command.specs.Maps.{Store, at};
ghost use Rattle.log_text.specs.Logs.{log_text};
ghost use Rattle.canon_set.specs.Logs.{names, net};
ghost use Rattle.canon_set.specs.Sets.{canonical};
ghost use Rattle.refluent.specs.Sets.{is_in, IsSubset};
ghost use Rattle.refluent.specs.CommonTrees.{IsAmong, AllChange, IsCommonTree};
ghost use Rattle.refluent.specs.Drawn.{drawn_commands};
ghost use Rattle.transition.specs.Transitions.{change_between, transition, IsMadeOfNets};
ghost use Rattle.transition.specs.Limits.{IsWithinLogs};

/// The transition has a command at each node that one of the two sets names and at which their results differ, from
/// the one result to the other.
pub fn transition_has_each_difference()
    ensures { (t : Holding) (set merger : List Change) (p : Node) →
        command_at (transition t set merger) p ≡
        if (names set p || names merger p) && not (same_value (after set t p) (after merger t p))
        then Some (change_between (after set t) (after merger t) p) else None }
{}

/// The transition has one command per node.
pub fn transition_has_one_command_per_node()
    ensures { (t : Holding) (set merger : List Change) →
        IsTrue (one_each (transition t set merger)) }
{}

/// The transition of a log fits the log's result on each common tree, and leads to the merger's result there.
pub fn transition_leads_to_the_merger()
    ensures { (logs : List (List Change)) → AllChange logs → (m : Store) → IsCommonTree m logs →
        (log : List Change) → IsAmong log logs →
        (merger : List Change) → IsSubset merger (drawn_commands logs) → Fits (at m) merger →
        Fits (after (net log) (at m)) (transition (at m) (net log) merger) ×
        (after (transition (at m) (net log) merger) (after (net log) (at m)) ≡
        after merger (at m)) }
{}

/// The transition is one list for all common trees.
pub fn transition_is_that_of_each_common_tree()
    ensures { (logs : List (List Change)) → AllChange logs → (m n : Store) →
        IsCommonTree m logs → IsCommonTree n logs →
        (log : List Change) → IsAmong log logs →
        (merger : List Change) → IsSubset merger (drawn_commands logs) →
        transition (at m) (net log) merger ≡ transition (at n) (net log) merger }
{}

/// Each command of the transition is a net command of a log, the inverse of one, or leads from the new value of one to
/// that of another at its node. So a transition names no node and holds no value that the logs' net sets do not have.
pub fn transition_is_made_of_net_commands()
    ensures { (logs : List (List Change)) → AllChange logs → (m : Store) → IsCommonTree m logs →
        (log : List Change) → IsAmong log logs →
        (merger : List Change) → IsSubset merger (drawn_commands logs) →
        (c : Change) → IsTrue (is_in (transition (at m) (net log) merger) c) →
        IsMadeOfNets logs c }
{}

/// A drawn set with one command per node, as a merger is, has no more commands than the logs together, and its lines no
/// more bytes than theirs.
pub fn drawn_set_is_within_its_logs()
    ensures { (logs : List (List Change)) (set : List Change) → IsTrue (one_each set) →
        IsSubset set (drawn_commands logs) → IsWithinLogs logs set }
{}

/// The same holds of the transition of a log by such a set, on each common tree.
pub fn transition_is_within_its_logs()
    ensures { (logs : List (List Change)) (m : Store) → IsCommonTree m logs →
        (log : List Change) → IsAmong log logs →
        (merger : List Change) → IsTrue (one_each merger) →
        IsSubset merger (drawn_commands logs) →
        IsWithinLogs logs (transition (at m) (net log) merger) }
{}

/// A set within its logs is within them in the admissible order.
pub fn canonical_list_is_within_its_logs()
    ensures { (logs : List (List Change)) (set : List Change) →
        IsWithinLogs logs set → IsWithinLogs logs (canonical set) }
{}

/// The text of a set within its logs is no longer than the texts of the logs together, where there is a log. Each text
/// may be of either version.
pub fn text_is_no_longer_than_those_of_its_logs()
    ensures { (version : Version) (logs : List (Version × List Change)) (set : List Change) →
        0 < length logs → IsWithinLogs (map (λ log. log.1) logs) set →
        length (log_text version set) ≤ sum_by (λ log. length (log_text log.0 log.1)) logs }
{}
