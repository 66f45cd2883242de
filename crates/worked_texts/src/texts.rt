//! Texts of logs that are fed in pieces.

use log_text::{LogFault, LogReader};
use std::alloc::{AllocError, Global};
use std::test::Fail;

const LAPTOP: &str = "treelog 1\n\
    proj/README.md f:Hello%0A f:Hello%20all%0A\n\
    proj/src/main.c f:int%20main; f:int%20main(void);\n\
    proj/src/util.c - f:u1\n\
    proj/src/util.c f:u1 f:u2\n\
    proj/src/a/b f:slash -\n\
    proj/src/a d -\n\
    proj/caf%C3%A9/menu f:tea f:tea%20milk\n\
    proj/docs - d\n\
    proj/docs/index - f:i\n\
    proj/tmp - f:t\n\
    proj/tmp f:t -\n\
    end 11\n";

/// Pieces of a text, and what a reader of logs answers to each and at the end, with the version that it knows then.
const PIECES: &[(&[&str], &str)] = &[
    (&[], "line 1: header, None"),
    (&["treelog 1"], "ok, line 1: header, None"),
    (&["treelog 2", "\n"], "ok, ok, line 2: end, Some(Two)"),
    (
        &["treelog 3\n", "end 0\n"],
        "line 1: header, line 1: header, line 1: header, None",
    ),
    (
        &["treelog 1\nfrob", "\n", "end 0\n"],
        "ok, line 2: fields, line 2: fields, line 2: fields, Some(One)",
    ),
    (
        &["treelog 1\nend 0\n", "x"],
        "ok, line 3: after, line 3: after, Some(One)",
    ),
    (
        &["treelog 2\nend ", "", "0\n", ""],
        "ok, ok, ok, ok, 0 commands, Some(Two)",
    ),
    (&[LAPTOP], "ok, 11 commands, Some(One)"),
];

/// The answer of a reader, shown: a fault, or `ok`.
fn fault_of<T: Drop>(alloc: Global, outcome: Result<T, LogFault>) -> Result<String, AllocError> {
    match outcome {
        Ok(_) => String::from_str(alloc, "ok"),
        Err(fault) => format!(in alloc; "{fault}"),
    }
}

/// What a reader answers that is fed these pieces and then ends, with the version that it knows then.
fn answers(alloc: Global, pieces: &[&str]) -> Result<String, Fail> {
    let mut out = String::new(alloc);
    let mut reader = LogReader::new(alloc);
    for piece in pieces {
        out.push_str(fault_of(alloc, reader.feed(piece.as_bytes()))?.as_str())?;
        out.push_str(", ")?;
    }
    let version = reader.version();
    match reader.finish() {
        Ok(count) => out.push_str(format!(in alloc; "{count} commands")?.as_str())?,
        Err(fault) => out.push_str(format!(in alloc; "{fault}")?.as_str())?,
    }
    out.push_str(format!(in alloc; ", {version:?}")?.as_str())?;
    Ok(out)
}

#[test]
fn a_fault_is_answered_where_its_line_is_ended(rt: HostRuntime) -> Result<(), Fail> {
    for &(pieces, wanted) in PIECES {
        assert_eq!(rt; answers(rt.alloc(), pieces)?.as_str(), wanted);
    }
    Ok(())
}
