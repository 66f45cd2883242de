//! One step of a log.

ghost use Rattle.std.specs.Prelude.{◌≡◌, ◌<◌, ◌^◌, List, [], ◌∷◌, ◌++◌, IfOk, OnOk};
ghost use Rattle.sync_command.specs.Changes.{Change};
ghost use Rattle.sync_command.specs.Maps.{at};
ghost use Rattle.canon_set.specs.Sums.{StandsFor};
ghost use Rattle.sync_drill.specs.Draws.{state_after, step_draws};
ghost use Rattle.sync_drill.specs.DrillLogs.{drawn_path, wanted_value, drawn_command};
ghost use Rattle.sync_drill.specs.Walks.{IsCommandStep, IsStep};

use crate::base::{child_path, grandchild_path, root_path};
use crate::draws::{StepDraws, draw_step};
use apply_model::{Break, TreeMap};
use canon_set::LogSum;
use std::alloc::Global;
use sync_command::{Bytes, Command, Label, Value};
use sync_path::{NoMemory, Path};

/// The node that is drawn.
fn drawn_path(alloc: Global, draws: &StepDraws) -> Result<Path, NoMemory>
    ensures { IfOk result (λ path. path ≡ drawn_path draws.now) }
{
    if draws.depth == 0 {
        root_path(alloc, draws.root)
    } else if draws.depth == 1 {
        child_path(alloc, draws.root, draws.child)
    } else {
        grandchild_path(alloc, draws.root, draws.child, draws.grandchild)
    }
}

/// The value that is drawn.
fn wanted_value(alloc: Global, value: u64) -> Result<Value, NoMemory>
    ensures { IfOk result (λ wanted. wanted ≡ wanted_value value) }
{
    if value == 0 {
        Ok(Value::Empty)
    } else if value == 1 {
        Ok(Value::Dir(Label::empty(alloc)))
    } else if value == 2 {
        Ok(Value::File(Bytes::new(alloc, b"1")?))
    } else {
        Ok(Value::File(Bytes::new(alloc, b"2")?))
    }
}

/// What the tree holds at a node.
fn held_value(alloc: Global, tree: &TreeMap, path: &Path) -> Result<Value, NoMemory>
    ensures { IfOk result (λ value. value ≡ at tree.now path.now) }
{
    match tree.get(path) {
        Some(value) => value.copy(alloc),
        None => Ok(Value::Empty),
    }
}

/// Adds a command that the log's tree took to the log, so that only memory can run out.
fn add(sum: &mut LogSum, command: Command) -> Result<(), NoMemory>
    ensures { OnOk result ((log : List Change) → StandsFor sum.old log →
        StandsFor sum.new (log ++ command ∷ [])) }
{
    match sum.add(command) {
        Ok(()) => Ok(()),
        Err(_) => Err(NoMemory),
    }
}

/// Does a command where the tree takes it, and adds it to the log.
fn do_command(tree: &mut TreeMap, sum: &mut LogSum, command: Command) -> Result<(), NoMemory>
    ensures { OnOk result (IsCommandStep tree.old sum.old command tree.new sum.new) }
{
    match tree.apply(&command) {
        Ok(()) => add(sum, command),
        Err(Break::NotTaken) => Ok(()),
        Err(Break::Memory) => Err(NoMemory),
    }
}

/// The next step of a log.
pub(crate) fn step(
    alloc: Global,
    tree: &mut TreeMap,
    sum: &mut LogSum,
    state: &mut u64,
) -> Result<(), NoMemory>
    requires { state.old < 2 ^ 31 }
    ensures state { OnOk result (state.new ≡ state_after 5 state.old) }
    ensures below { state.new < 2 ^ 31 }
    ensures step { OnOk result (IsStep tree.old sum.old
        (drawn_command (at tree.old) (step_draws state.old)) tree.new sum.new) }
{
    let draws = draw_step(state);
    let path = drawn_path(alloc, &draws)?;
    let wanted = wanted_value(alloc, draws.value)?;
    let held = held_value(alloc, tree, &path)?;
    match Command::new(path, held, wanted) {
        Ok(command) => do_command(tree, sum, command),
        Err(_) => Ok(()),
    }
}
