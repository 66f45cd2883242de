//! Sealing an open log: which of its commands the tree shows to be done.

ghost use Rattle.std.specs.Prelude.{◌≡◌, ◌↔◌, ◌⊎◌, ◌+◌, ◌<◌, ◌++◌, ◌∷◌, [], ⊤, false, IfOk, IsSome, IsTrue, List, MatchResult, Option, Some, length, option_copied, slice_get};
ghost use Rattle.std.specs.List.{AllByRecursion};
ghost use Rattle.sync_path.specs.Paths.{comes_before};
ghost use Rattle.sync_command.specs.declared.values.Version.{Version};
ghost use Rattle.sync_command.specs.Changes.{Change};
ghost use Rattle.sync_command.specs.Maps.{at};
ghost use Rattle.sync_command.specs.Trees.{Holding};
ghost use Rattle.log_text.specs.Logs.{IsOfVersion};
ghost use Rattle.canon_set.specs.Sums.{StandsFor};
ghost use Rattle.canon_set.specs.Touches.{lent_touch};
ghost use Rattle.canon_set.specs.declared.touches.Touch.{Touch};
ghost use Rattle.tree_port.specs.States.{WhereKnown};
ghost use Rattle.record_core.specs.Looks.{Asks, HoldsOld, IsDiverged, IsFirstOf, IsShownWithin, IsWithin, Shows, StandsAs, SumsUp, IsRightLook, open_command};
ghost use Rattle.record_core.specs.Seals.{FailsLog, FailsText, LooksOnly, OpenLog, SealsLog, SealsText};

use crate::SealFault;
use canon_set::{AddFault, LogSum, TouchRef};
use log_text::read_open_log;
use std::alloc::Global;
use sync_command::{Command, Value, Version};
use sync_path::Path;
use tree_port::{Tree, TreeFault};

/// How a touched node stands on the tree.
#[derive(Clone, Copy)]
pub(crate) enum Standing {
    /// It holds its last value.
    Done,
    /// It is the node of the last command, and holds its old value.
    Undone,
    /// It holds neither.
    Out,
}

/// What the touched nodes show together.
#[derive(Clone, Copy)]
pub(crate) enum Shown {
    /// Each holds its last value.
    Done,
    /// The node of the last command holds its old value, and each other one its last value.
    Undone,
    /// The node at this place is the first in path order that holds neither.
    Out(usize),
}

/// The sum of the log's commands.
fn sum_of(alloc: Global, commands: &[Command]) -> Result<LogSum, SealFault>
    ensures { SumsUp commands.now result }
{
    let mut sum = LogSum::new(alloc);
    'commands: for place in 0..commands.len() {
        match sum.add(commands[place].copy(alloc)?) {
            Ok(()) => {}
            Err(AddFault::Broken) => return Err(SealFault::Broken { number: place + 1 }),
            Err(AddFault::Memory) => return Err(SealFault::Memory),
        }
    }
    Ok(sum)
}

/// The last command of a log without an end line.
fn open_command(commands: &[Command], ended: bool) -> Option<&Command>
    ensures { option_copied result ≡ open_command ended commands.now }
{
    if ended { None } else { commands.last() }
}

/// Whether the node holds the value.
fn holds(tree: &mut Box<dyn Tree>, path: &Path, value: &Value) -> Result<bool, TreeFault>
    ensures asks { Asks result (live tree.old) (live tree.new) }
    ensures known { WhereKnown (live tree.old)
        (λ m. IsRightLook (λ b. IsTrue b ↔ (at m path.now ≡ value.now)) result) }
{
    tree.holds(path, value)
}

/// Whether the node is that of the open command, and holds its old value.
fn holds_old(
    tree: &mut Box<dyn Tree>,
    path: &Path,
    undone: Option<&Command>,
) -> Result<bool, TreeFault>
    ensures asks { Asks result (live tree.old) (live tree.new) }
    ensures known { WhereKnown (live tree.old)
        (λ m. IsRightLook (λ b. IsTrue b ↔ HoldsOld (at m) (option_copied undone.entry) path.now)
        result) }
    ensures has_last { IfOk result (λ b. IsTrue b → IsSome (option_copied undone.entry)) }
{
    match undone {
        Some(command) => {
            if !command.path().same(path) {
                return Ok(false);
            }
            holds(tree, path, command.old())
        }
        None => Ok(false),
    }
}

/// How the touched node stands on the tree, which is asked once or twice.
fn standing_of(
    tree: &mut Box<dyn Tree>,
    touch: TouchRef<'_>,
    undone: Option<&Command>,
) -> Result<Standing, TreeFault>
    ensures asks { Asks result (live tree.old) (live tree.new) }
    ensures known { WhereKnown (live tree.old)
        (λ m. IsRightLook (StandsAs (at m) (option_copied undone.entry) (lent_touch touch.entry))
        result) }
    ensures has_last { IfOk result (λ standing. standing ≡ Standing.Undone →
        IsSome (option_copied undone.entry)) }
{
    if holds(tree, touch.path, touch.last)? {
        return Ok(Standing::Done);
    }
    if holds_old(tree, touch.path, undone)? {
        return Ok(Standing::Undone);
    }
    Ok(Standing::Out)
}

/// What is shown by the touched nodes before a place and the one at it.
fn next(sum: &LogSum, shown: Shown, place: usize, standing: Standing) -> Shown
    requires place { place < length sum.now.touched }
    requires kept { IsWithin place shown }
    ensures within { IsWithin (place + 1) result }
    ensures shows { (t : Holding) (undone : Option Change) (x : Touch) →
        slice_get sum.now.touched place ≡ Some x → StandsAs t undone x standing →
        Shows t undone sum.now.touched place shown →
        Shows t undone sum.now.touched (place + 1) result }
    ensures undone { result ≡ Shown.Undone →
        (standing ≡ Standing.Undone) ⊎ (shown ≡ Shown.Undone) }
{
    match standing {
        Standing::Done => shown,
        Standing::Undone => match shown {
            Shown::Done => Shown::Undone,
            Shown::Undone => Shown::Undone,
            Shown::Out(kept) => Shown::Out(kept),
        },
        Standing::Out => match shown {
            Shown::Done => Shown::Out(place),
            Shown::Undone => Shown::Out(place),
            Shown::Out(kept) => Shown::Out(first_of(sum, kept, place)),
        },
    }
}

/// The place of the node that comes first in path order.
fn first_of(sum: &LogSum, kept: usize, place: usize) -> usize
    requires kept { kept < place }
    requires place { place < length sum.now.touched }
    ensures within { result < place + 1 }
    ensures first { IsFirstOf sum.now.touched kept place result }
{
    let path = sum.touch(place).path;
    if path.cmp(sum.touch(kept).path).is_lt() {
        place
    } else {
        kept
    }
}

/// What the tree shows of the log's touched nodes.
fn look(
    tree: &mut Box<dyn Tree>,
    sum: &LogSum,
    undone: Option<&Command>,
) -> Result<Shown, TreeFault>
    ensures asks { Asks result (live tree.old) (live tree.new) }
    ensures within { IsShownWithin (length sum.now.touched) result }
    ensures known { WhereKnown (live tree.old)
        (λ m. IsRightLook (Shows (at m) (option_copied undone.entry) sum.now.touched
        (length sum.now.touched)) result) }
    ensures has_last { IfOk result (λ shown. shown ≡ Shown.Undone →
        IsSome (option_copied undone.entry)) }
{
    let mut shown = Shown::Done;
    'nodes: for place in 0..sum.touched() {
        let here = standing_of(tree, sum.touch(place), undone)?;
        shown = next(sum, shown, place, here);
    }
    Ok(shown)
}

/// The commands without the last one.
fn without_last(commands: Vec<Command>) -> Vec<Command>
    ensures prefix { (more : List Change) × (commands.items ≡ result.items ++ more) }
    ensures last { (c : Change) → open_command false commands.items ≡ Some c →
        commands.items ≡ result.items ++ c ∷ [] }
{
    let mut kept = commands;
    kept.pop();
    kept
}

/// The fault at the node at a place.
fn diverged(alloc: Global, sum: &LogSum, place: usize) -> SealFault
    requires { place < length sum.now.touched }
    ensures { IsDiverged sum.now.touched place result }
{
    match sum.touch(place).path.copy(alloc) {
        Ok(path) => SealFault::Diverged { path },
        Err(_) => SealFault::Memory,
    }
}

/// The commands of a log that the tree shows to be done.
fn seal_log(
    alloc: Global,
    tree: &mut Box<dyn Tree>,
    commands: Vec<Command>,
    ended: bool,
) -> Result<Vec<Command>, SealFault>
    ensures only { LooksOnly result (live tree.old) (live tree.new) }
    ensures answer { (log : OpenLog) → log.commands ≡ commands.items → log.ended ≡ ended →
        MatchResult result (λ v. SealsLog log (live tree.old).contents v.items)
        (λ e. FailsLog log (live tree.old).contents e) }
    ensures printable { (version : Version) →
        AllByRecursion (IsOfVersion version) commands.items →
        IfOk result (λ v. AllByRecursion (IsOfVersion version) v.items) }
{
    let sum = sum_of(alloc, &commands)?;
    match look(tree, &sum, open_command(&commands, ended)) {
        Err(fault) => Err(SealFault::from(fault)),
        Ok(Shown::Done) => Ok(commands),
        Ok(Shown::Undone) => Ok(without_last(commands)),
        Ok(Shown::Out(place)) => Err(diverged(alloc, &sum, place)),
    }
}

/// Reads the text of a log that may have lost its end, and gives the part of its commands whose result the tree shows,
/// with the version of the text. Nothing in the tree is changed, and only touched nodes are asked for.
///
/// All commands are given where each touched node holds its last value. All but the last are given where the text has no
/// end line, the node of the last command holds that command's old value, and each other touched node its last value. No
/// other list is given, also over a tree of which nothing is known.
/// `Text` comes exactly where the text is no open log, with its first wrong line; then `Broken` exactly where no tree
/// takes the log, with the number of the first command with which none does, counted from 1. `Failed` and `Denied` come
/// only where a call of the tree was counted as that, and `Denied` never from a tree whose contents are known. Then
/// `Diverged` comes exactly where neither list can be given, with the first node in path order that holds neither its
/// last value nor, as the node of a last command without an end line after it, that command's old value. Of the empty
/// list the tree is not asked. Memory may run out at any time. There is no condition ("Boxes of trees" in
/// `docs/DECISIONS.md`).
pub fn seal(
    alloc: Global,
    text: &[u8],
    tree: &mut Box<dyn Tree>,
) -> Result<(Version, Vec<Command>), SealFault>
    requires { ⊤ }
    ensures only { LooksOnly result (live tree.old) (live tree.new) }
    ensures answer { MatchResult result
        (λ r. SealsText text.now (live tree.old).contents r.0 r.1.items)
        (λ e. FailsText text.now (live tree.old).contents e) }
    ensures printable { IfOk result (λ r. AllByRecursion (IsOfVersion r.0) r.1.items) }
{
    let (version, commands, ended) = read_open_log(alloc, text)?;
    match seal_log(alloc, tree, commands, ended) {
        Ok(sealed) => Ok((version, sealed)),
        Err(fault) => Err(fault),
    }
}
