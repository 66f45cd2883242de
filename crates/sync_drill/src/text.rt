//! The text of a drill's summary.

ghost use Rattle.std.specs.Prelude.{◌≡◌, ◌<◌, ◌≤◌, ◌^◌, ◌++◌, decimal, IfOk, OnOk};
ghost use Rattle.refluent.specs.declared.joint.TheConstants.{MAX_LOGS};
ghost use Rattle.sync_drill.specs.Summaries.{IsDrillText, first_line, number_line, summary_lines};

use crate::summary::{Summary, summarize};
use itoa::Buffer;
use std::alloc::{AllocError, Global};
use sync_path::NoMemory;

/// Before the three numbers of a drill.
const DRILL: &str = "drill ";
/// Between two of them.
const BLANK: &str = " ";
/// Before the number of commands of all logs.
const COMMANDS: &str = "commands ";
/// Before the number of drawn commands.
const DRAWN: &str = "drawn ";
/// Before the number of clashes.
const CLASHES: &str = "clashes ";
/// Before the number of the merger's commands.
const MERGER: &str = "merger ";
/// Before the number of commands of all transitions.
const TRANSITIONS: &str = "transitions ";
/// Before the number of nodes of the tree that the merger leads to.
const TREE: &str = "tree ";
/// The end of each line.
const LINE_END: &str = "\n";

/// Appends a number in decimal.
fn push_number(text: &mut Vec<u8>, number: usize) -> Result<(), AllocError>
    ensures { OnOk result (text.new.items ≡ text.old.items ++ decimal number) }
{
    let mut buffer = Buffer::new();
    text.extend_from_slice(buffer.format(number).as_bytes())
}

/// Appends the line of a number, after a word that ends with a blank.
fn push_line(text: &mut Vec<u8>, word: &str, number: usize) -> Result<(), AllocError>
    ensures { OnOk result (text.new.items ≡ text.old.items ++ number_line word.now number) }
{
    text.extend_from_slice(word.as_bytes())?;
    push_number(text, number)?;
    text.extend_from_slice(LINE_END.as_bytes())
}

/// Appends the line of a drill's numbers.
fn push_first_line(text: &mut Vec<u8>, seed: u32, logs: u32, steps: u32) -> Result<(), AllocError>
    ensures { OnOk result (text.new.items ≡ text.old.items ++ first_line seed logs steps) }
{
    text.extend_from_slice(DRILL.as_bytes())?;
    push_number(text, seed as usize)?;
    text.extend_from_slice(BLANK.as_bytes())?;
    push_number(text, logs as usize)?;
    text.extend_from_slice(BLANK.as_bytes())?;
    push_number(text, steps as usize)?;
    text.extend_from_slice(LINE_END.as_bytes())
}

/// Appends the lines of a summary.
fn push_summary(text: &mut Vec<u8>, summary: &Summary) -> Result<(), AllocError>
    ensures { OnOk result (text.new.items ≡ text.old.items ++ summary_lines summary.now) }
{
    push_line(text, COMMANDS, summary.commands)?;
    push_line(text, DRAWN, summary.drawn)?;
    push_line(text, CLASHES, summary.clashes)?;
    push_line(text, MERGER, summary.merger)?;
    push_line(text, TRANSITIONS, summary.transitions)?;
    push_line(text, TREE, summary.tree)?;
    Ok(())
}

/// The text of a drill's summary: its three numbers in one line, and six lines of a word and a number.
pub fn drill(alloc: Global, seed: u32, logs: u32, steps: u32) -> Result<Vec<u8>, NoMemory>
    requires seed { seed < 2 ^ 31 }
    requires logs { logs ≤ MAX_LOGS }
    ensures { IfOk result (λ text. IsDrillText seed logs steps text.items) }
{
    let summary = summarize(alloc, seed, logs, steps)?;
    let mut text = Vec::new(alloc);
    push_first_line(&mut text, seed, logs, steps)?;
    push_summary(&mut text, &summary)?;
    Ok(text)
}
