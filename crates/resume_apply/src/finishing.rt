//! `finish`, which applies what is left of a set.

ghost use Rattle.std.specs.Prelude.{◌≡◌, ⊤};
ghost use Rattle.sync_command.specs.Maps.{IsTreeMap, at};
ghost use Rattle.sync_command.specs.Values.{is_empty};
ghost use Rattle.sync_command.specs.declared.values.Value.TheVariants.{Empty};
ghost use Rattle.tree_port.specs.States.{IfTreeKnown, WhereKnown};
ghost use Rattle.tree_port.specs.Conditions.{CanRemove};
ghost use Rattle.tree_port.specs.Calls.{Answers, IsChanging, IsReading, Puts, AnswersIfHeld};
ghost use Rattle.resume_apply.specs.Ready.{IsReady, changes_kind};
ghost use Rattle.resume_apply.specs.Finishing.{CanChange, CanDo, Does, Finishes};

use canon_set::CanonSet;
use sync_command::{Command, Kind, Value};
use sync_path::Path;
use tree_port::{Tree, TreeFault};

/// Whether the two values are not empty and of different kinds.
pub(crate) fn changes_kind(command: &Command) -> bool
    ensures { result ≡ changes_kind command.now }
{
    match (command.old(), command.new_value()) {
        (Value::Dir(_), Value::File(_)) => true,
        (Value::File(_), Value::Dir(_)) => true,
        _ => false,
    }
}

/// Whether the node holds the value.
pub(crate) fn holds(tree: &mut Box<dyn Tree>, path: &Path, value: &Value) -> Result<bool, TreeFault>
    ensures reading { IsReading result (live tree.old) (live tree.new) }
    ensures answer { WhereKnown (live tree.old) (AnswersIfHeld path.now value.now result) }
{
    tree.holds(path, value)
}

/// Whether the node is empty.
pub(crate) fn is_empty_at(tree: &mut Box<dyn Tree>, path: &Path) -> Result<bool, TreeFault>
    ensures reading { IsReading result (live tree.old) (live tree.new) }
    ensures answer { WhereKnown (live tree.old)
        (λ m. Answers ⊤ (λ b. b ≡ is_empty (at m path.now)) result) }
{
    match tree.kind(path) {
        Ok(Kind::Empty) => Ok(true),
        Ok(_) => Ok(false),
        Err(fault) => Err(fault),
    }
}

/// Removes what stands at the node.
fn remove(tree: &mut Box<dyn Tree>, path: &Path) -> Result<(), TreeFault>
    requires { WhereKnown (live tree.old) (λ m. CanRemove (at m) path.now) }
    ensures counts { IsChanging result (live tree.old) (live tree.new) }
    ensures contents { IfTreeKnown (live tree.old) (live tree.new)
        (λ m n. Puts ⊤ path.now Empty result m n) }
{
    tree.remove(path)
}

/// Gives the node its new value by one call.
fn change(tree: &mut Box<dyn Tree>, command: &Command) -> Result<(), TreeFault>
    requires { WhereKnown (live tree.old)
        (λ m. CanChange command.now.old command.now.new (at m) command.now.node) }
    ensures counts { IsChanging result (live tree.old) (live tree.new) }
    ensures contents { IfTreeKnown (live tree.old) (live tree.new)
        (λ m n. Puts ⊤ command.now.node command.now.new result m n) }
{
    let path = command.path();
    match command.new_value() {
        Value::Empty => tree.remove(path),
        Value::File(bytes) => tree.put_file(path, bytes),
        Value::Dir(label) => match command.old() {
            Value::Dir(_) => tree.set_label(path, label),
            _ => tree.make_dir(path, label),
        },
    }
}

/// Does one command, or what is left of it, and gives the number of changes that this took.
fn do_command(tree: &mut Box<dyn Tree>, command: &Command) -> Result<u64, TreeFault>
    requires { WhereKnown (live tree.old) (λ m. IsTreeMap m → CanDo command.now (at m)) }
    ensures { Does command.now result (live tree.old) (live tree.new) }
{
    let path = command.path();
    if holds(tree, path, command.new_value())? {
        return Ok(0);
    }
    if !changes_kind(command) {
        change(tree, command)?;
        return Ok(1);
    }
    if is_empty_at(tree, path)? {
        change(tree, command)?;
        return Ok(1);
    }
    remove(tree, path)?;
    change(tree, command)?;
    Ok(2)
}

/// Applies what is left of a set to a tree that is ready for it, and gives the number of changes.
///
/// After `Ok` the tree is the target, and the number is all the work that was left. After a refusal it is ready with the
/// same target, and holds outside the set's nodes what it held: so another call goes on from there. Each change that is
/// counted takes one off the work that is left, and none is made twice. Takes no memory of its own: `Memory` comes only
/// from the tree, as `Failed` and `Denied` do; a known tree that is ready denies nothing.
pub fn finish(tree: &mut Box<dyn Tree>, set: &CanonSet) -> Result<u64, TreeFault>
    requires { WhereKnown (live tree.old) (λ m. IsReady (at m) set.now) }
    ensures { Finishes set.now result (live tree.old) (live tree.new) }
{
    let mut changes = 0u64;
    let commands = set.commands();
    'walk: for command in commands {
        changes += do_command(tree, command)?;
    }
    Ok(changes)
}
