//! Sums of small logs, and sets that are copied, inverted and looked up.

use crate::logs::sum;
use canon_set::{CanonSet, canon};
use std::alloc::Global;
use std::test::Fail;
use sync_command::Kind;
use sync_path::Path;
use worked_texts::lines::{Line, commands};

fn text(alloc: Global, set: &CanonSet) -> Result<Vec<u8>, Fail> {
    let mut out = Vec::new(alloc);
    for command in set.commands() {
        command.print_to(&mut out)?;
        out.push(b'\n')?;
    }
    Ok(out)
}

/// A directory with one file in it becomes a file.
const REPLACED: &[Line] = &[("a/x", "f:1", "-"), ("a", "d", "-"), ("a", "-", "f:2")];

/// Nodes, and whether the net set names each.
const LOOKED_UP: &[(&str, bool)] = &[("a", true), ("a/x", true), ("a/y", false), ("x", false)];

#[test]
fn a_set_is_copied_inverted_and_looked_up(rt: HostRuntime) -> Result<(), Fail> {
    let commands = commands(rt.alloc(), REPLACED)?;
    let set = canon(rt.alloc(), &commands)?.copy(rt.alloc())?;
    let out = text(rt.alloc(), &set.inverse(rt.alloc())?)?;
    assert!(rt; out.as_slice() == b"a f:2 d\na/x - f:1\n".as_slice());
    assert_eq!(rt; set.len(), 2);
    for &(path, found) in LOOKED_UP {
        let path = Path::read(rt.alloc(), path.as_bytes())?;
        let command = set.at(&path);
        assert_eq!(rt; command.is_some(), found);
        if let Some(command) = command {
            assert!(rt; command.path().same(&path));
        }
    }
    Ok(())
}

#[test]
fn touches_of_a_sum(rt: HostRuntime) -> Result<(), Fail> {
    let sum = sum(rt.alloc(), REPLACED)?;
    assert_eq!(rt; sum.count(), 3);
    assert_eq!(rt; sum.touched(), 2);
    let touch = sum.touch(1);
    assert!(rt; touch.path.same(&Path::read(rt.alloc(), b"a")?));
    assert!(rt; touch.first.kind() == Kind::Dir && touch.left_dir);
    let expected = b"a/x f:1 -\na d f:2\n".as_slice();
    assert!(rt; text(rt.alloc(), &sum.net(rt.alloc())?)?.as_slice() == expected);
    assert!(rt; text(rt.alloc(), &sum.into_net()?)?.as_slice() == expected);
    Ok(())
}
