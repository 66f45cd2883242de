//! Live trees that are read whole.

use apply_model::TreeMap;
use std::alloc::Global;
use std::test::Fail;
use sync_command::{Command, Row, Value};
use tree_port::{FuseTree, MemTree, Shot, Tree, TreeFault, dump};
use worked_texts::lines::{path, value};

/// The tree's rows, a line each.
fn text(alloc: Global, tree: &TreeMap) -> Result<Vec<u8>, Fail> {
    let mut out = Vec::new(alloc);
    for row in tree.rows(alloc)? {
        let Row { path, value } = row;
        path.print_to(&mut out)?;
        out.push(b' ')?;
        value.print_to(&mut out)?;
        out.push(b'\n')?;
    }
    Ok(out)
}

/// Nodes in path order, and what each holds.
const HELD: &[(&'static str, &'static str)] = &[
    ("a", "d:1"),
    ("a/b", "d"),
    ("a/b/x", "f:1"),
    ("a/b/y", "d"),
    ("a/c", "f:"),
    ("a+", "f:2"),
    ("b", "d"),
    ("b/x", "d:2"),
];

const HELD_TEXT: &[u8] = b"a d:1\na/b d\na/b/x f:1\na/b/y d\na/c f:\na+ f:2\nb d\nb/x d:2\n";

fn held_map(alloc: Global) -> Result<TreeMap, Fail> {
    let mut map = TreeMap::new(alloc);
    for (node, held) in HELD {
        map.apply_owned(Command::new(path(alloc, node)?, Value::Empty, value(alloc, held)?)?)?;
    }
    Ok(map)
}

#[test]
fn a_live_tree_is_read_whole(rt: HostRuntime) -> Result<(), Fail> {
    let alloc = rt.alloc();
    let mut tree: Box<dyn Tree> = Box::new(alloc, MemTree::new(held_map(alloc)?))?;
    let map = dump(alloc, &mut tree)?;
    assert_eq!(rt; text(alloc, &map)?.as_slice(), HELD_TEXT);
    let mut bare: Box<dyn Tree> = Box::new(alloc, MemTree::new(TreeMap::new(alloc)))?;
    let nothing = dump(alloc, &mut bare)?;
    assert_eq!(rt; text(alloc, &nothing)?.as_slice(), b"".as_slice());
    Ok(())
}

#[test]
fn a_call_that_fails_leaves_the_tree(rt: HostRuntime) -> Result<(), Fail> {
    let alloc = rt.alloc();
    for done in [false, true] {
        let shots = vec![in alloc; Shot { call: 3, done }]?;
        let mut tree: Box<dyn Tree> = Box::new(alloc, FuseTree::new(held_map(alloc)?, shots))?;
        assert!(rt; matches!(dump(alloc, &mut tree), Err(TreeFault::Failed)));
        let map = dump(alloc, &mut tree)?;
        assert_eq!(rt; text(alloc, &map)?.as_slice(), HELD_TEXT);
        assert_eq!(rt; tree.changed(), 0);
    }
    Ok(())
}
