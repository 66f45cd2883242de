//! What a live tree is to the rest of the program.

ghost use Rattle.std.specs.Prelude.{◌≡◌, IfOk, option_copied};
ghost use Rattle.sync_command.specs.Maps.{IsTreeMap};
ghost use Rattle.tree_port.specs.States.{IfTreeKnown, TreeState, WhereKnown};
ghost use Rattle.tree_port.specs.Conditions.{AreBelow};
ghost use Rattle.tree_port.specs.Calls.{GivesBytes, GivesChildren, GivesKind, GivesLabel, IsChanging, IsReading, MakesDir, PutsFile, Removes, SetsLabel, AnswersIfHeld};

use crate::TreeFault;
use std::alloc::Global;
use sync_command::{Bytes, Kind, Label, Value};
use sync_path::Path;

/// A live tree, whose calls may be refused. It is used as a `Box<dyn Tree>`.
///
/// `live` is what is known of the object: what it holds, if that is known, and its four counts. What is known to be
/// held is a tree, and goes on being known. Each call is refused in one of three ways, and each refusal is counted:
/// `Failed` among the faults, `Denied` among the denials, `Memory` among the times that memory ran out. `Ok` leaves
/// these three as they were. A changing call that answers `Ok` counts one change. No count falls; where one stands at
/// `u64::MAX`, it passes for one that was counted.
///
/// A call has a condition on what the tree holds. Where that is known, `Ok` comes only where the condition holds, and
/// `Denied` only where it does not. The reading calls change nothing. After a changing call every node but the one that
/// was named holds what it held, and that one too after `Denied` and `Memory`; after `Failed` the change may have been
/// done or not.
pub trait Tree: Drop {
    ghost live: { Self → TreeState };

    /// The node's kind.
    fn kind(&mut self, path: &Path) -> Result<Kind, TreeFault>
        ensures reading { IsReading result (live self.old) (live self.new) }
        ensures answer { WhereKnown (live self.old) (GivesKind path.now result) };

    /// Whether the node holds the value.
    fn holds(&mut self, path: &Path, value: &Value) -> Result<bool, TreeFault>
        ensures reading { IsReading result (live self.old) (live self.new) }
        ensures answer { WhereKnown (live self.old) (AnswersIfHeld path.now value.now result) };

    /// The contents of a file. Condition: the node is a file.
    fn read_file(&mut self, alloc: Global, path: &Path) -> Result<Bytes, TreeFault>
        ensures reading { IsReading result (live self.old) (live self.new) }
        ensures answer { WhereKnown (live self.old) (GivesBytes path.now result) };

    /// The label of a directory. Condition: the node is a directory.
    fn label(&mut self, alloc: Global, path: &Path) -> Result<Label, TreeFault>
        ensures reading { IsReading result (live self.old) (live self.new) }
        ensures answer { WhereKnown (live self.old) (GivesLabel path.now result) };

    /// The children of a node that are not empty, or the roots where no path is given, in path order. Condition: the
    /// node is a directory.
    fn children(&mut self, alloc: Global, path: Option<&Path>) -> Result<Vec<Path>, TreeFault>
        ensures reading { IsReading result (live self.old) (live self.new) }
        ensures below { IfOk result (λ found. AreBelow (option_copied path.entry) found.items) }
        ensures answer { WhereKnown (live self.old)
            (GivesChildren (option_copied path.entry) result) };

    /// Puts a file with the contents. Condition: the node is a file or empty, and a root or below a directory.
    fn put_file(&mut self, path: &Path, bytes: &Bytes) -> Result<(), TreeFault>
        ensures counts { IsChanging result (live self.old) (live self.new) }
        ensures contents { IfTreeKnown (live self.old) (live self.new)
            (PutsFile path.now bytes.now result) };

    /// Makes a directory with the label. Condition: the node is empty, and a root or below a directory.
    fn make_dir(&mut self, path: &Path, label: &Label) -> Result<(), TreeFault>
        ensures counts { IsChanging result (live self.old) (live self.new) }
        ensures contents { IfTreeKnown (live self.old) (live self.new)
            (MakesDir path.now label.now result) };

    /// Gives a directory the label. Condition: the node is a directory.
    fn set_label(&mut self, path: &Path, label: &Label) -> Result<(), TreeFault>
        ensures counts { IsChanging result (live self.old) (live self.new) }
        ensures contents { IfTreeKnown (live self.old) (live self.new)
            (SetsLabel path.now label.now result) };

    /// Empties the node. Condition: it is a file, or a directory without children.
    fn remove(&mut self, path: &Path) -> Result<(), TreeFault>
        ensures counts { IsChanging result (live self.old) (live self.new) }
        ensures contents { IfTreeKnown (live self.old) (live self.new) (Removes path.now result) };

    /// How many changes were counted. It can't be refused and takes no memory. What is known to be held is a tree.
    fn changed(&self) -> u64
        ensures count { result ≡ (live self.now).counts.changes }
        ensures tree { WhereKnown (live self.now) IsTreeMap };
}
