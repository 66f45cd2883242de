//! What the calls of a tree do to a map. None of them fails.

ghost use Rattle.std.specs.Prelude.{◌≡◌, ◌↔◌, Err, IfOk, IsTrue, option_copied};
ghost use Rattle.sync_command.specs.Maps.{IsTreeMap, at};
ghost use Rattle.sync_command.specs.Trees.{IsTree, put};
ghost use Rattle.sync_command.specs.Values.{kind_of};
ghost use Rattle.sync_command.specs.declared.values.Value.TheVariants.{Empty};
ghost use Rattle.tree_port.specs.Calls.{GivesBytes, GivesChildren, GivesLabel, MakesDir, Puts, PutsFile, Removes, SetsLabel};
ghost use Rattle.tree_port.specs.Conditions.{AreBelow};
ghost use Rattle.tree_port.specs.InMemory.{DidNotFail};

use crate::TreeFault;
use apply_model::{Break, TreeMap};
use std::alloc::Global;
use sync_command::{Bytes, Command, Kind, Label, Value};
use sync_path::{NoMemory, Path};

/// The kind of the node.
pub(crate) fn kind(map: &TreeMap, path: &Path) -> Kind
    ensures kind { result ≡ kind_of (at map.now path.now) }
    ensures tree { IsTreeMap map.now }
{
    match map.get(path) {
        Some(value) => value.kind(),
        None => Kind::Empty,
    }
}

/// Whether the node holds the value.
pub(crate) fn holds(map: &TreeMap, path: &Path, value: &Value) -> bool
    ensures holds { IsTrue result ↔ (at map.now path.now ≡ value.now) }
    ensures tree { IsTreeMap map.now }
{
    match map.get(path) {
        Some(held) => held.same(value),
        None => value.same(&Value::Empty),
    }
}

/// A copy of what the node holds.
fn held(map: &TreeMap, path: &Path) -> Result<Value, NoMemory>
    ensures value { IfOk result (λ v. v ≡ at map.now path.now) }
    ensures tree { IsTreeMap map.now }
{
    match map.get(path) {
        Some(held) => held.copy(map.alloc()),
        None => Ok(Value::Empty),
    }
}

/// Does the command; `Denied` exactly where that leaves no tree.
fn apply(map: &mut TreeMap, command: Command) -> Result<(), TreeFault>
    requires { at map.old command.node ≡ command.old }
    ensures puts { Puts (IsTree (put (at map.old) command.node command.new)) command.node
        command.new result map.old map.new }
    ensures fault { DidNotFail result }
{
    match map.apply_owned(command) {
        Ok(()) => Ok(()),
        Err(Break::NotTaken) => Err(TreeFault::Denied),
        Err(Break::Memory) => Err(TreeFault::Memory),
    }
}

/// Puts the value at the node where that leaves a tree; `Denied` exactly where it does not.
fn set(map: &mut TreeMap, path: &Path, value: Value) -> Result<(), TreeFault>
    ensures puts { Puts (IsTree (put (at map.old) path.now value)) path.now value result map.old
        map.new }
    ensures fault { DidNotFail result }
    ensures tree { IsTreeMap map.old }
{
    let Ok(old) = held(map, path) else {
        return Err(TreeFault::Memory);
    };
    let Ok(path) = path.copy(map.alloc()) else {
        return Err(TreeFault::Memory);
    };
    match Command::new(path, old, value) {
        Ok(command) => apply(map, command),
        Err(_) => Ok(()),
    }
}

/// Puts a file with the contents.
pub(crate) fn put_file(map: &mut TreeMap, path: &Path, bytes: &Bytes) -> Result<(), TreeFault>
    ensures puts { PutsFile path.now bytes.now result map.old map.new }
    ensures fault { DidNotFail result }
{
    if let Kind::Dir = kind(map, path) {
        return Err(TreeFault::Denied);
    }
    match bytes.copy() {
        Ok(bytes) => set(map, path, Value::File(bytes)),
        Err(_) => Err(TreeFault::Memory),
    }
}

/// Makes a directory with the label.
pub(crate) fn make_dir(map: &mut TreeMap, path: &Path, label: &Label) -> Result<(), TreeFault>
    ensures puts { MakesDir path.now label.now result map.old map.new }
    ensures fault { DidNotFail result }
{
    let Kind::Empty = kind(map, path) else {
        return Err(TreeFault::Denied);
    };
    match label.copy() {
        Ok(label) => set(map, path, Value::Dir(label)),
        Err(_) => Err(TreeFault::Memory),
    }
}

/// Gives a directory the label.
pub(crate) fn set_label(map: &mut TreeMap, path: &Path, label: &Label) -> Result<(), TreeFault>
    ensures puts { SetsLabel path.now label.now result map.old map.new }
    ensures fault { DidNotFail result }
{
    let Kind::Dir = kind(map, path) else {
        return Err(TreeFault::Denied);
    };
    match label.copy() {
        Ok(label) => set(map, path, Value::Dir(label)),
        Err(_) => Err(TreeFault::Memory),
    }
}

/// Removes a file, or a directory without children.
pub(crate) fn remove(map: &mut TreeMap, path: &Path) -> Result<(), TreeFault>
    ensures puts { Removes path.now result map.old map.new }
    ensures fault { DidNotFail result }
{
    if let Kind::Empty = kind(map, path) {
        return Err(TreeFault::Denied);
    }
    set(map, path, Value::Empty)
}

/// The contents of a file.
pub(crate) fn read_file(map: &TreeMap, path: &Path) -> Result<Bytes, TreeFault>
    ensures answer { GivesBytes path.now result map.now }
    ensures fault { DidNotFail result }
    ensures tree { IsTreeMap map.now }
{
    match map.get(path) {
        Some(Value::File(bytes)) => bytes.copy().map_err(|_| TreeFault::Memory),
        _ => Err(TreeFault::Denied),
    }
}

/// The label of a directory.
pub(crate) fn label(map: &TreeMap, path: &Path) -> Result<Label, TreeFault>
    ensures answer { GivesLabel path.now result map.now }
    ensures fault { DidNotFail result }
    ensures tree { IsTreeMap map.now }
{
    match map.get(path) {
        Some(Value::Dir(label)) => label.copy().map_err(|_| TreeFault::Memory),
        _ => Err(TreeFault::Denied),
    }
}

/// The children of a directory that are not empty, or the roots, in path order.
pub(crate) fn children(
    map: &TreeMap,
    alloc: Global,
    path: Option<&Path>,
) -> Result<Vec<Path>, TreeFault>
    ensures answer { GivesChildren (option_copied path.entry) result map.now }
    ensures below { IfOk result (λ found. AreBelow (option_copied path.entry) found.items) }
    ensures fault { DidNotFail result }
    ensures tree { IsTreeMap map.now }
{
    if let Some(path) = path {
        let Kind::Dir = kind(map, path) else {
            return Err(TreeFault::Denied);
        };
    }
    map.children(alloc, path).map_err(|_| TreeFault::Memory)
}
