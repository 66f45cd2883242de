//! The commands that are built: one entry of a table for each. A command's name is looked up in
//! the table, and the help is made of it.

ghost use Rattle.std.specs.Prelude.{◌≡◌, ◌++◌, IfOk, map};
ghost use Rattle.tool_words.specs.Commands.{commands, verb_in, shape_of};
ghost use Rattle.tool_words.specs.Help.{help_line, help_lines, help_text};

use crate::texts;
use std::alloc::{AllocError, Global};
use sync_path::NoMemory;

/// What a command does.
#[derive(Clone, Copy, Debug, PartialEq, Eq)]
pub(crate) enum Verb {
    Replay,
    Canon,
    Conflicts,
    Merge,
    Transition,
    Steer,
    Record,
    Seal,
    Apply,
    Drill,
    Sync,
    Explain,
    Undo,
    Catchup,
    Rebase,
}

/// What a command does, its name, and its operands as the help shows them.
#[derive(Clone, Copy, Debug)]
pub(crate) struct CommandShape {
    verb: Verb,
    name: &'static str,
    operands: &'static str,
}

/// The commands that are built, in the order of the help.
pub(crate) const COMMANDS: [CommandShape; 15] = [
    CommandShape {
        verb: Verb::Replay,
        name: "replay",
        operands: "SNAP LOG",
    },
    CommandShape {
        verb: Verb::Canon,
        name: "canon",
        operands: "LOG",
    },
    CommandShape {
        verb: Verb::Conflicts,
        name: "conflicts",
        operands: "LOG...",
    },
    CommandShape {
        verb: Verb::Merge,
        name: "merge",
        operands: "[--prefs FILE] LOG...",
    },
    CommandShape {
        verb: Verb::Transition,
        name: "transition",
        operands: "[--prefs FILE] N LOG...",
    },
    CommandShape {
        verb: Verb::Steer,
        name: "steer",
        operands: "SET LOG...",
    },
    CommandShape {
        verb: Verb::Record,
        name: "record",
        operands: "FOLDER SCRIPT",
    },
    CommandShape {
        verb: Verb::Seal,
        name: "seal",
        operands: "FOLDER LOG",
    },
    CommandShape {
        verb: Verb::Apply,
        name: "apply",
        operands: "FOLDER SET",
    },
    CommandShape {
        verb: Verb::Drill,
        name: "drill",
        operands: "SEED LOGS STEPS",
    },
    CommandShape {
        verb: Verb::Sync,
        name: "sync",
        operands: "[--prefs FILE] K FOLDER... LOG...",
    },
    CommandShape {
        verb: Verb::Explain,
        name: "explain",
        operands: "[--prefs FILE] LOG...",
    },
    CommandShape {
        verb: Verb::Undo,
        name: "undo",
        operands: "SET",
    },
    CommandShape {
        verb: Verb::Catchup,
        name: "catchup",
        operands: "SET...",
    },
    CommandShape {
        verb: Verb::Rebase,
        name: "rebase",
        operands: "[--prefs FILE] SIDE WORK SET...",
    },
];

/// What the first of the commands with this name does.
#[tactic(auto, using(crate::proofs::Table::verb_here))]
fn verb_among(shapes: &[CommandShape], name: &str) -> Option<Verb>
    ensures { result ≡ verb_in (map shape_of shapes.now) name.now }
{
    for shape in shapes {
        if shape.name == name {
            return Some(shape.verb);
        }
    }
    None
}

/// What the command of this name does; None where no such command is built.
pub(crate) fn verb_of(name: &str) -> Option<Verb>
    ensures { result ≡ verb_in commands name.now }
{
    verb_among(&COMMANDS, name)
}

/// Appends a command's line of the help.
fn add_line(text: &mut Vec<u8>, shape: &CommandShape) -> Result<(), AllocError>
    ensures { IfOk result (λ _. text.new.items ≡ text.old.items
        ++ help_line (shape_of shape.now)) }
{
    text.extend_from_slice(texts::INDENT.as_bytes())?;
    text.extend_from_slice(shape.name.as_bytes())?;
    text.extend_from_slice(texts::BLANK.as_bytes())?;
    text.extend_from_slice(shape.operands.as_bytes())?;
    text.extend_from_slice(texts::LINE_END.as_bytes())
}

/// Appends the lines of these commands.
#[tactic(auto, using(crate::proofs::Table::lines_here))]
fn add_lines(text: &mut Vec<u8>, shapes: &[CommandShape]) -> Result<(), AllocError>
    ensures { IfOk result (λ _. text.new.items ≡ text.old.items
        ++ help_lines (map shape_of shapes.now)) }
{
    for shape in shapes {
        add_line(text, shape)?;
    }
    Ok(())
}

/// What the job of the help prints: the usage, and a line for each command that is built.
pub fn help(alloc: Global) -> Result<Vec<u8>, NoMemory>
    ensures { IfOk result (λ text. text.items ≡ help_text) }
{
    let mut text = Vec::from_slice(alloc, texts::USAGE.as_bytes())?;
    add_lines(&mut text, &COMMANDS)?;
    Ok(text)
}
