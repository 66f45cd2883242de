//! The lines of logs that cases are written with, and the commands that they are.

use std::alloc::Global;
use std::test::Fail;
use sync_command::{Command, Value, Version};
use sync_path::Path;

/// The node, the old value and the new one.
pub type Line = (&'static str, &'static str, &'static str);

/// The path of a text.
pub fn path(alloc: Global, text: &str) -> Result<Path, Fail> {
    Ok(Path::read(alloc, text.as_bytes())?)
}

/// The value of a text.
pub fn value(alloc: Global, text: &str) -> Result<Value, Fail> {
    Ok(Value::read(alloc, Version::Two, text.as_bytes())?)
}

/// The command of a line.
pub fn command(alloc: Global, line: &Line) -> Result<Command, Fail> {
    let (node, old, new_value) = *line;
    let node = path(alloc, node)?;
    let old = value(alloc, old)?;
    let new_value = value(alloc, new_value)?;
    Ok(Command::new(node, old, new_value)?)
}

/// The commands of a log.
pub fn commands(alloc: Global, lines: &[Line]) -> Result<Vec<Command>, Fail> {
    let mut commands = Vec::new(alloc);
    for line in lines {
        commands.push(command(alloc, line)?)?;
    }
    Ok(commands)
}
