//! Reasons that hold, and those that differ from one of these in the log or in one place, which do not.

use crate::logs::joined;
use canon_set::CanonSet;
use explain_core::{Places, Reason, shows};
use merge_core::merge;
use pref_list::{Rule, rank};
use refluent::Joint;
use std::alloc::Global;
use std::test::Fail;
use worked_texts::lines::{Line, path};

/// The log of a command that is left out, its node, and its chain.
type Wanted = (u32, &'static str, &'static [&'static str]);

/// Logs, `at` rules, and the reasons for what the merger leaves out.
struct Case {
    logs: &'static [&'static [Line]],
    rules: &'static [(u32, &'static str)],
    reasons: &'static [Wanted],
}

const EMPTIED: &[&[Line]] = &[
    &[("a/x", "f:1", "-"), ("a", "d", "-")],
    &[("a/y", "-", "f:2")],
];

const CASES: &[Case] = &[
    Case {
        logs: &[&[("a/x", "f:1", "f:2")], &[("a/x", "f:1", "f:3")]],
        rules: &[],
        reasons: &[(2, "a/x", &[])],
    },
    Case {
        logs: EMPTIED,
        rules: &[],
        reasons: &[(2, "a/y", &["a"])],
    },
    Case {
        logs: EMPTIED,
        rules: &[(2, "a/y")],
        reasons: &[(1, "a", &["a/y"])],
    },
    Case {
        logs: &[
            &[("a/b", "d", "-"), ("a", "d", "-")],
            &[("a/b/c", "-", "f:1")],
        ],
        rules: &[(2, "a/b/c")],
        reasons: &[(1, "a/b", &["a/b/c"]), (1, "a", &["a/b", "a/b/c"])],
    },
    Case {
        logs: &[
            &[("a", "d", "d:x"), ("a", "d:x", "-")],
            &[("a/b", "-", "d"), ("a/b/c", "-", "f:1")],
        ],
        rules: &[],
        reasons: &[(2, "a/b", &["a"]), (2, "a/b/c", &["a/b", "a"])],
    },
];

/// The place of the node with this path.
fn place(alloc: Global, joint: &Joint, text: &str) -> Result<usize, Fail> {
    let path = path(alloc, text)?;
    for place in 0..joint.nodes() {
        if joint.node(place).same(&path) {
            return Ok(place);
        }
    }
    Err("no log knows the node".into())
}

/// The places, with another one where the index is the given one.
fn changed(alloc: Global, via: &[usize], index: usize, other: usize) -> Result<Vec<usize>, Fail> {
    let mut places = Vec::new(alloc);
    for at in 0..via.len() {
        places.push(if at == index { other } else { via[at] })?;
    }
    Ok(places)
}

/// Whether the log, the node and the chain are a reason.
fn holds(
    alloc: Global,
    joint: &Joint,
    set: &CanonSet,
    log: u32,
    node: usize,
    via: &[usize],
) -> Result<bool, Fail> {
    let mut places = Vec::new(alloc);
    places.extend_from_slice(via)?;
    let via = Places::new(places);
    Ok(shows(joint, set, &Reason { log, node, via }))
}

/// Whether a reason holds that differs from this one in the log or in one place; places and numbers out of range are
/// tried too.
fn another_holds(
    alloc: Global,
    joint: &Joint,
    set: &CanonSet,
    log: u32,
    node: usize,
    via: &[usize],
) -> Result<bool, Fail> {
    for other in 0..4 {
        if other != log && holds(alloc, joint, set, other, node, via)? {
            return Ok(true);
        }
    }
    for other in 0..=joint.nodes() {
        if other != node && holds(alloc, joint, set, log, other, via)? {
            return Ok(true);
        }
        for at in 0..via.len() {
            let chain = changed(alloc, via, at, other)?;
            if via[at] != other && holds(alloc, joint, set, log, node, chain.as_slice())? {
                return Ok(true);
            }
        }
    }
    Ok(false)
}

#[test]
fn reasons_hold_and_changed_ones_do_not(rt: HostRuntime) -> Result<(), Fail> {
    let alloc = rt.alloc();
    for case in CASES {
        let joint = joined(alloc, case.logs)?;
        let mut rules = Vec::new(alloc);
        for rule in case.rules {
            let (log, node) = *rule;
            let path = path(alloc, node)?;
            rules.push(Rule::At { log, path })?;
        }
        let ranking = rank(alloc, &joint, &rules)?;
        let set = merge(alloc, &joint, &ranking)?;
        for wanted in case.reasons {
            let (log, node, chain) = *wanted;
            let node = place(alloc, &joint, node)?;
            let mut via = Vec::new(alloc);
            for text in chain {
                via.push(place(alloc, &joint, text)?)?;
            }
            assert!(rt; holds(alloc, &joint, &set, log, node, via.as_slice())?);
            assert!(rt; !another_holds(alloc, &joint, &set, log, node, via.as_slice())?);
        }
    }
    Ok(())
}
