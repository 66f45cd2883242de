//! The steps of an operation, recorded one after another.

ghost use Rattle.std.specs.Prelude.{◌∷◌, []};
ghost use Rattle.sync_command.specs.Maps.{at};
ghost use Rattle.tree_port.specs.States.{IfTreeKnown, WhereKnown};
ghost use Rattle.record_core.specs.Recording.{CarriesOut, IfBothKnown, GoesOn, HasCause, StopsInside};
ghost use Rattle.record_core.specs.Steps.{CanStep, CanWalk, change_of, changes_of};

use crate::RecordFault;
use crate::reading::command_of;
use crate::stepping::record_command;
use crate::steps::Step;
use std::alloc::Global;
use sync_port::Sink;
use tree_port::Tree;

/// Records one step, as the tree holds it.
fn record_step<O: Sink>(
    alloc: Global,
    tree: &mut Box<dyn Tree>,
    sink: &mut O,
    step: &Step,
) -> Result<(), RecordFault>
    requires { WhereKnown (live tree.old) (λ m. CanStep (at m) step.now) }
    ensures cause { HasCause result
        (O.sink sink.old) (O.sink sink.new) (live tree.old) (live tree.new) }
    ensures stops { WhereKnown (live tree.old) (λ m. StopsInside result) }
    ensures tree { IfTreeKnown (live tree.old) (live tree.new)
        (λ m n. CarriesOut (change_of (at m) step.now ∷ []) result m n) }
    ensures recorded { IfBothKnown
        (O.sink sink.old) (O.sink sink.new) (live tree.old) (live tree.new)
        (λ x y m n. GoesOn (change_of (at m) step.now ∷ []) result x y m n) }
{
    match command_of(alloc, tree, step) {
        Err(fault) => Err(fault),
        Ok(None) => Ok(()),
        Ok(Some(command)) => record_command(alloc, tree, sink, &command),
    }
}

/// Records the steps, each as the tree holds it: a line, its flush, and then the change of the tree.
pub(crate) fn record_steps<O: Sink>(
    alloc: Global,
    tree: &mut Box<dyn Tree>,
    sink: &mut O,
    steps: &[Step],
) -> Result<(), RecordFault>
    requires { WhereKnown (live tree.old) (λ m. CanWalk m steps.now) }
    ensures cause { HasCause result
        (O.sink sink.old) (O.sink sink.new) (live tree.old) (live tree.new) }
    ensures stops { WhereKnown (live tree.old) (λ m. StopsInside result) }
    ensures tree { IfTreeKnown (live tree.old) (live tree.new)
        (λ m n. CarriesOut (changes_of (at m) steps.now) result m n) }
    ensures recorded { IfBothKnown
        (O.sink sink.old) (O.sink sink.new) (live tree.old) (live tree.new)
        (λ x y m n. GoesOn (changes_of (at m) steps.now) result x y m n) }
{
    'steps: for step in steps {
        record_step(alloc, tree, sink, step)?;
    }
    Ok(())
}
