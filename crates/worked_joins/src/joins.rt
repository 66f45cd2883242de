//! Joints of small logs.

use crate::logs::joined;
use refluent::Joint;
use std::alloc::Global;
use std::test::Fail;
use worked_texts::lines::Line;

/// The nodes of a joint, each with its first value, its parent's place and its net commands as `LOG.PLACE`, and the
/// number of drawn commands.
fn text_of(alloc: Global, joint: &Joint) -> Result<Vec<u8>, Fail> {
    let mut out = Vec::new(alloc);
    for place in 0..joint.nodes() {
        joint.node(place).print_to(&mut out)?;
        out.push(b' ')?;
        joint.first(place).print_to(&mut out)?;
        if let Some(parent) = joint.parent(place) {
            out.extend_from_slice(format!(in alloc; " in {parent}")?.as_bytes())?;
        }
        for pick in joint.commands(place) {
            let log = pick.log;
            let at = pick.place;
            out.extend_from_slice(format!(in alloc; " {log}.{at}")?.as_bytes())?;
        }
        out.extend_from_slice(format!(in alloc; " | ")?.as_bytes())?;
    }
    let drawn = joint.drawn();
    out.extend_from_slice(format!(in alloc; "{drawn}")?.as_bytes())?;
    Ok(out)
}

/// A folder with a file is made.
const MADE: &[Line] = &[("a", "-", "d"), ("a/x", "-", "f:1")];

/// Logs, and what is joined of them.
const JOINTS: &[(&[&[Line]], &str)] = &[
    (&[&[]], "0"),
    (
        &[MADE, MADE, MADE],
        "a - 1.0 2.0 3.0 | a/x - in 0 1.1 2.1 3.1 | 2",
    ),
    // the down commands come first in a net set, in descending path order
    (
        &[&[
            ("a/x", "f:1", "-"),
            ("b", "-", "f:2"),
            ("c", "f:3", "f:4"),
            ("d", "f:5", "-"),
        ]],
        "a d | a/x f:1 in 0 1.1 | b - 1.2 | c f:3 1.3 | d f:5 1.0 | 4",
    ),
    // a node that is touched without a net command
    (
        &[&[("t", "-", "d"), ("t", "d", "-")], &[("t", "-", "f:1")]],
        "t - 2.0 | 1",
    ),
    // labels
    (
        &[&[("a", "d:x", "d:y")], &[("a/b", "-", "d")]],
        "a d:x 1.0 | a/b - in 0 2.0 | 2",
    ),
    (&[&[("a/b", "-", "d:x")]], "a d | a/b - in 0 1.0 | 1"),
    (
        &[
            &[("a", "-", "d:x")],
            &[("a", "-", "d:y"), ("a/b", "-", "f:1")],
        ],
        "a - 1.0 2.0 | a/b - in 0 2.1 | 3",
    ),
    (
        &[
            &[("a", "d", "d:x")],
            &[("a/x", "f:1", "-"), ("a", "d", "-")],
            &[("a/y", "-", "f:2")],
        ],
        "a d 1.0 2.1 | a/x f:1 in 0 2.0 | a/y - in 0 3.0 | 4",
    ),
];

#[test]
fn joins_of_small_logs(rt: HostRuntime) -> Result<(), Fail> {
    for &(logs, expected) in JOINTS {
        let found = text_of(rt.alloc(), &joined(rt.alloc(), logs)?)?;
        assert!(rt; found.as_slice() == expected.as_bytes(), "{expected}");
    }
    Ok(())
}
