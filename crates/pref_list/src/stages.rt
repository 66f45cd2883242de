//! The places of a net set that a rule with a path names, by halving.

ghost use Rattle.std.specs.Prelude.{◌≡◌};
ghost use Rattle.sync_path.specs.Paths.{same_path, is_under, comes_before};
ghost use Rattle.pref_list.specs.Stages.{is_within, stage_of, AreStaged, IsBound};

use std::cmp::Ordering;
use sync_command::Command;
use sync_path::Path;

/// Whether two paths are equal.
fn is_same(path: &Path, other: &Path) -> bool
    ensures { result ≡ same_path path.now other.now }
{
    path.same(other)
}

/// Whether a path is under the other; each has a name.
fn is_under(path: &Path, other: &Path) -> bool
    ensures { result ≡ is_under path.now other.now }
{
    let names = other.depth();
    names > 0 && path.under(other)
}

/// Whether the first path comes before the second.
#[tactic(auto, unfolding(sync_path::specs::Paths::comes_before))]
fn is_before(path: &Path, other: &Path) -> bool
    ensures { result ≡ comes_before path.now other.now }
{
    match path.cmp(other) {
        Ordering::Less => true,
        Ordering::Equal | Ordering::Greater => false,
    }
}

/// Whether a node is the path or, if `wide`, under it.
fn is_within(path: &Path, wide: bool, node: &Path) -> bool
    ensures { result ≡ is_within path.now wide node.now }
{
    if wide {
        is_same(path, node) || is_under(node, path)
    } else {
        is_same(path, node)
    }
}

/// How far in the admissible order a command is, as seen from a path: 0 for a down command after it, 1 for a down
/// command at the path or, if `wide`, under it, 2 for one before it; 3, 4 and 5 for the other commands before, within
/// and after.
fn stage(command: &Command, path: &Path, wide: bool) -> u8
    ensures { result ≡ stage_of path.now wide command.now }
{
    let node = command.path();
    let within = is_within(path, wide, node);
    if command.is_down() {
        if within {
            1
        } else if is_before(path, node) {
            0
        } else {
            2
        }
    } else if within {
        4
    } else if is_before(node, path) {
        3
    } else {
        5
    }
}

/// The first place of the net set at which the stage is the goal or later.
pub(crate) fn bound(commands: &[Command], path: &Path, wide: bool, goal: u8) -> usize
    requires { AreStaged path.now wide commands.now }
    ensures { IsBound path.now wide commands.now goal result }
{
    let mut low = 0;
    let mut high = commands.len();
    'halving: while low < high {
        let middle = low + (high - low) / 2;
        if stage(&commands[middle], path, wide) < goal {
            low = middle + 1;
        } else {
            high = middle;
        }
    }
    low
}
