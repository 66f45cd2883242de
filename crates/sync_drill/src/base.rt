//! The tree that each log begins at, and the names of its nodes.

ghost use Rattle.std.specs.Prelude.{◌≡◌, ◌∷◌, [], ◌++◌, map, IfOk, OnOk};
ghost use Rattle.std.specs.List.{flat_map};
ghost use Rattle.sync_command.specs.Maps.{IsTreeMap, store, stored};
ghost use Rattle.sync_drill.specs.BaseTrees.{base_tree, child_make, child_path, child_value, grandchild_path, name_of, numbers_from, root_makes, root_path};

use apply_model::TreeMap;
use itoa::Buffer;
use std::alloc::Global;
use sync_command::{Bytes, Command, Label, Value};
use sync_path::{NoMemory, Path};

/// The name of a node: a letter and its number.
fn name_of(alloc: Global, letter: u8, number: u64) -> Result<Vec<u8>, NoMemory>
    ensures { IfOk result (λ name. name.items ≡ name_of letter number) }
{
    let mut name = Vec::new(alloc);
    name.push(letter)?;
    let mut buffer = Buffer::new();
    name.extend_from_slice(buffer.format(number).as_bytes())?;
    Ok(name)
}

/// The root of this number. Its name is one, so that only memory can run out.
#[tactic(auto, using(crate::proofs::Planting::root_named))]
pub(crate) fn root_path(alloc: Global, root: u64) -> Result<Path, NoMemory>
    ensures { IfOk result (λ path. path ≡ root_path root) }
{
    let name = name_of(alloc, b'r', root)?;
    match Path::root(alloc, &name) {
        Ok(path) => Ok(path),
        Err(_) => Err(NoMemory),
    }
}

/// The path with one more name, of this letter and number. It is short and the name is one, so that only memory can run
/// out.
#[tactic(auto, using(crate::proofs::Planting::child_named))]
fn path_below(alloc: Global, above: &Path, letter: u8, number: u64) -> Result<Path, NoMemory>
    ensures { IfOk result (λ path. path ≡ above.now ++ name_of letter number ∷ []) }
{
    let name = name_of(alloc, letter, number)?;
    match above.child(alloc, &name) {
        Ok(path) => Ok(path),
        Err(_) => Err(NoMemory),
    }
}

/// A child of a root.
pub(crate) fn child_path(alloc: Global, root: u64, child: u64) -> Result<Path, NoMemory>
    ensures { IfOk result (λ path. path ≡ child_path root child) }
{
    let above = root_path(alloc, root)?;
    path_below(alloc, &above, b'n', child)
}

/// A child of a child of a root.
pub(crate) fn grandchild_path(
    alloc: Global,
    root: u64,
    child: u64,
    grandchild: u64,
) -> Result<Path, NoMemory>
    ensures { IfOk result (λ path. path ≡ grandchild_path root child grandchild) }
{
    let above = child_path(alloc, root, child)?;
    path_below(alloc, &above, b'm', grandchild)
}

/// What a child of a root is: an even one a directory, an odd one a file with one byte.
fn child_value(alloc: Global, child: u64) -> Result<Value, NoMemory>
    ensures { IfOk result (λ value. value ≡ child_value child) }
{
    if child % 2 == 0 {
        Ok(Value::Dir(Label::empty(alloc)))
    } else {
        Ok(Value::File(Bytes::new(alloc, b"0")?))
    }
}

/// Makes a node of the tree. It is new and has its parent, so that only memory can run out.
fn plant(tree: &mut TreeMap, path: Path, value: Value) -> Result<(), NoMemory>
    ensures { OnOk result (tree.new ≡ store tree.old path value) }
{
    match Command::new(path, Value::Empty, value) {
        Ok(command) => match tree.apply_owned(command) {
            Ok(()) => Ok(()),
            Err(_) => Err(NoMemory),
        },
        Err(_) => Err(NoMemory),
    }
}

/// Makes the first children of a root, so many.
fn plant_children(alloc: Global, tree: &mut TreeMap, root: u64, count: u64) -> Result<(), NoMemory>
    ensures { OnOk result (tree.new ≡
        stored tree.old (map (child_make root) (numbers_from 0 count))) }
{
    'children: for child in 0..count {
        let path = child_path(alloc, root, child)?;
        let value = child_value(alloc, child)?;
        plant(tree, path, value)?;
    }
    Ok(())
}

/// Makes a root with its children.
#[tactic(auto, using(crate::proofs::Planting::root_with_children))]
fn plant_root(alloc: Global, tree: &mut TreeMap, root: u64) -> Result<(), NoMemory>
    ensures { OnOk result (tree.new ≡ stored tree.old (root_makes root)) }
{
    let path = root_path(alloc, root)?;
    plant(tree, path, Value::Dir(Label::empty(alloc)))?;
    plant_children(alloc, tree, root, 16)
}

/// Makes the first roots, so many, with their children.
fn plant_roots(alloc: Global, tree: &mut TreeMap, count: u64) -> Result<(), NoMemory>
    ensures { OnOk result (tree.new ≡
        stored tree.old (flat_map root_makes (numbers_from 0 count))) }
{
    'roots: for root in 0..count {
        plant_root(alloc, tree, root)?;
    }
    Ok(())
}

/// The tree that each log begins at: 64 roots with 16 children each.
pub(crate) fn base_tree(alloc: Global) -> Result<TreeMap, NoMemory>
    ensures base { IfOk result (λ tree. tree ≡ base_tree) }
    ensures tree { IfOk result IsTreeMap }
{
    let mut tree = TreeMap::new(alloc);
    plant_roots(alloc, &mut tree, 64)?;
    let _ = tree.alloc();
    Ok(tree)
}
