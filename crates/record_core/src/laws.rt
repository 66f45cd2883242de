//! Laws over the definitions alone: each is the contract of a function with an empty body.

ghost use Rattle.std.specs.Prelude.{◌≡◌, ℕ, true, List, Ok, Result};
ghost use Rattle.std.specs.List.{AllByRecursion};
ghost use Rattle.sync_path.specs.Paths.{Node};
ghost use Rattle.sync_port.specs.Ports.{SinkContents};
ghost use Rattle.sync_command.specs.declared.values.Version.{Version};
ghost use Rattle.sync_command.specs.Changes.{Change};
ghost use Rattle.sync_command.specs.Maps.{IsTreeMap, Store, at, stored};
ghost use Rattle.sync_command.specs.Trees.{Holding, Takes};
ghost use Rattle.log_text.specs.Logs.{IsLog};
ghost use Rattle.canon_set.specs.Logs.{all_change};
ghost use Rattle.record_core.specs.declared.faults.RecordFault.{RecordFault};
ghost use Rattle.record_core.specs.declared.ops.Op.{Op};
ghost use Rattle.record_core.specs.Outcomes.{RecordsScript, outcome_of};
ghost use Rattle.record_core.specs.Recording.{IsClosed, LeavesOpen};
ghost use Rattle.record_core.specs.Plans.{HasNames};
ghost use Rattle.record_core.specs.Scripts.{script_of};
ghost use Rattle.record_core.specs.Validity.{HoldsValues, IsOp};
ghost use Rattle.record_core.specs.Seals.{Diverges, IsAllOrAllButLast, IsSealed, LeavesLog, OpenLog};

/// Where a tree takes the list of an open log, and the tree as it stands is the result of the whole list or, without an
/// end line, of all but its last command, the commands whose result the tree is are the sealed list. So the sealed log
/// leads the first tree to the tree as it is.
pub fn what_was_done_is_sealed()
    ensures { (m : Store) (log : OpenLog) (done : List Change) → Takes (at m) log.commands →
        IsAllOrAllButLast log done → IsSealed log (at (stored m done)) done }
{}

/// A log of commands that change their nodes has one sealed list on a tree at most.
pub fn sealed_list_is_one()
    ensures { (log : OpenLog) (t : Holding) (one other : List Change) →
        all_change log.commands ≡ true → IsSealed log t one → IsSealed log t other →
        one ≡ other }
{}

/// Where a log has a sealed list on a tree, no node diverges.
pub fn sealed_list_does_not_diverge()
    ensures { (log : OpenLog) (t : Holding) (sealed : List Change) (n : Node) →
        IsSealed log t sealed → Diverges log t n → ⊥ }
{}

/// What a recording of a list of commands leaves is an open log of a first part of the list, wherever it was cut short
/// or closed, if a tree takes the list and the list has a text of the version. The commands whose result the tree is are
/// the sealed list of that log.
pub fn what_is_left_is_an_open_log()
    ensures cut { (version : Version) (cs : List Change) (w x : SinkContents) (m n : Store) →
        IsLog version cs → Takes (at m) cs → LeavesOpen version cs w x m n →
        LeavesLog cs w x m n }
    ensures closed { (version : Version) (cs : List Change) (w x : SinkContents) (m n : Store) →
        IsLog version cs → Takes (at m) cs → IsClosed version cs w x m n →
        LeavesLog cs w x m n }
{}

/// A script that is read is of paths and values alone.
pub fn read_script_is_valid()
    ensures { (lines : List (List ℕ)) (version : Version) (script : List Op) →
        script_of lines ≡ Ok (version, script) → AllByRecursion IsOp script }
{}

/// A tree takes the commands of a script's operations before its end, where the paths of each copy have names. What is
/// copied to the path of no names may be there already.
pub fn outcome_is_taken()
    ensures { (version : Version) (script : List Op) (m : Store) → IsTreeMap m →
        AllByRecursion HasNames script → Takes (at m) (outcome_of version m script).commands }
{}

/// Those commands have a text of the script's version, where the script and the tree are of paths and values alone.
pub fn outcome_has_a_text()
    ensures { (version : Version) (script : List Op) (m : Store) → IsTreeMap m →
        HoldsValues (at m) → AllByRecursion IsOp script →
        IsLog version (outcome_of version m script).commands }
{}

/// What `record` leaves at every exit is such a log, over the commands of the script's operations before its end, where
/// the script and the tree are of paths and values alone, and wherever else these commands have a text and the tree takes
/// them.
pub fn record_leaves_an_open_log()
    ensures valid { (version : Version) (script : List Op) (result : Result ℕ RecordFault)
        (w x : SinkContents) (m n : Store) → IsTreeMap m → HoldsValues (at m) →
        AllByRecursion IsOp script → RecordsScript version script result w x m n →
        LeavesLog (outcome_of version m script).commands w x m n }
    ensures taken { (version : Version) (script : List Op) (result : Result ℕ RecordFault)
        (w x : SinkContents) (m n : Store) → let cs = (outcome_of version m script).commands in
        IsLog version cs → Takes (at m) cs → RecordsScript version script result w x m n →
        LeavesLog cs w x m n }
{}
