//! The drawn commands at a node, by log.

ghost use Rattle.std.specs.Prelude.{◌≡◌, ◌<◌, ◌≤◌, ℕ, ◌&&◌, not, length, Some};
ghost use Rattle.std.specs.List.{list_any};
ghost use Rattle.refluent.specs.Joints.{path_at};
ghost use Rattle.refluent.specs.declared.joint.TheConstants.{MAX_LOGS};
ghost use Rattle.clash_list.specs.DrawnAt.{IsPick, ArePicks, command_by, picked, is_same_as, is_kept, logs_in};

use arrayvec::ArrayVec;
use refluent::{Joint, MAX_LOGS, Pick};
use sync_command::Command;

/// Numbers of logs, in ascending order.
pub(crate) type Logs = ArrayVec<u32, MAX_LOGS>;

/// Which drawn commands of a node are asked for: every one, those that leave it other than a directory, or those that
/// leave something there.
#[derive(Clone, Copy)]
pub(crate) enum Kept {
    Every,
    NoDirectory,
    Something,
}

fn keeps(kept: Kept, command: &Command) -> bool
    ensures { result ≡ is_kept kept command.now }
{
    match kept {
        Kept::Every => true,
        Kept::NoDirectory => !command.new_value().is_dir(),
        Kept::Something => !command.new_value().is_empty(),
    }
}

/// The command of a pick.
fn command_of(joint: &Joint, pick: Pick) -> &Command
    requires { IsPick joint.now.sets pick }
    ensures { command_by joint.now.sets pick ≡ Some result.now }
{
    &joint.set(pick.log).commands()[pick.place]
}

/// Whether one of the picks has an equal command.
fn has_command(joint: &Joint, picks: &[Pick], command: &Command) -> bool
    requires { ArePicks joint.now.sets picks.now }
    ensures { result ≡ list_any (is_same_as command.now) (picked joint.now.sets picks.now) }
{
    'picks: for pick in picks {
        if command.same(command_of(joint, *pick)) {
            return true;
        }
    }
    false
}

/// Whether the command is one that is kept, and no earlier pick has it.
fn belongs(joint: &Joint, earlier: &[Pick], kept: Kept, command: &Command) -> bool
    requires { ArePicks joint.now.sets earlier.now }
    ensures { result ≡
        (is_kept kept command.now &&
        not (list_any (is_same_as command.now) (picked joint.now.sets earlier.now))) }
{
    keeps(kept, command) && !has_command(joint, earlier, command)
}

/// The logs of the drawn commands at a node that are kept, each command by the least log that has it.
pub(crate) fn drawn_logs(joint: &Joint, place: usize, kept: Kept) -> Logs
    requires { place < length joint.now.nodes }
    ensures { result.items ≡ logs_in kept joint.now.sets (path_at joint.now.nodes place) }
{
    let _logs = joint.logs();
    let _node = joint.node(place);
    let picks = joint.commands(place);
    let mut logs = ArrayVec::new();
    'picks: for at in 0..picks.len() {
        let pick = picks[at];
        let command = command_of(joint, pick);
        if belongs(joint, &picks[..at], kept, command) {
            logs.push(pick.log);
        }
    }
    logs
}
