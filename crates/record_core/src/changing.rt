//! The one call of a tree that a recorded command stands for.

ghost use Rattle.std.specs.Prelude.{◌≡◌, ⊤};
ghost use Rattle.sync_command.specs.Maps.{at};
ghost use Rattle.tree_port.specs.States.{IfTreeKnown, WhereKnown};
ghost use Rattle.tree_port.specs.Calls.{IsChanging, Puts};
ghost use Rattle.record_core.specs.Changing.{CanChange};

use sync_command::{Command, Value};
use tree_port::{Tree, TreeFault};

/// Gives the node its new value by one call.
pub(crate) fn change(tree: &mut Box<dyn Tree>, command: &Command) -> Result<(), TreeFault>
    requires { WhereKnown (live tree.old)
        (λ m. CanChange command.now.old command.now.new (at m) command.now.node) }
    ensures counts { IsChanging result (live tree.old) (live tree.new) }
    ensures contents { IfTreeKnown (live tree.old) (live tree.new)
        (Puts ⊤ command.now.node command.now.new result) }
{
    let path = command.path();
    match command.new_value() {
        Value::Empty => tree.remove(path),
        Value::File(bytes) => tree.put_file(path, bytes),
        Value::Dir(label) => match command.old() {
            Value::Dir(_) => tree.set_label(path, label),
            _ => tree.make_dir(path, label),
        },
    }
}
