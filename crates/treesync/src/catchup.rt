//! The command `catchup SET...`.

ghost use Rattle.std.specs.Prelude.{◌≡◌, ◌≤◌, List, Ok, length, IfOk};
ghost use Rattle.std.specs.List.{AllByRecursion};
ghost use Rattle.sync_command.specs.Changes.{Change};
ghost use Rattle.log_text.specs.Logs.{IsOfVersion, log_text};
ghost use Rattle.refluent.specs.Joints.{EachStandsFor, net_sets};
ghost use Rattle.treesync.specs.Catchup.{AreNetsOf, IsCatchup, IsCaughtUp, IsComposed};
ghost use Rattle.treesync.specs.Checks.{Answers, HasItems, IsJudged};
ghost use Rattle.treesync.specs.Joining.{AreLogFiles, EachTaken, log_limits};
ghost use Rattle.treesync.specs.Logs.{ReadLog};

use crate::joining::{joint_version, read_logs, sums_of};
use crate::logs::{FULL_ALLOWANCE, LogFile, Total};
use crate::{Finding, Refusal};
use canon_set::{CanonSet, LogSum};
use log_text::print_log;
use rounds::{ComposeFault, compose};
use std::alloc::Global;
use sync_command::Version;
use sync_path::NoMemory;
use sync_port::Files;
use tool_words::FileList;

/// The net set of each sum.
fn nets_of(alloc: Global, sums: Vec<LogSum>) -> Result<Vec<CanonSet>, NoMemory>
    ensures nets { IfOk result (λ sets. (logs : List (List Change)) →
        EachStandsFor sums.items logs → sets.items ≡ net_sets logs) }
    ensures many { IfOk result (λ sets. length sets.items ≡ length sums.items) }
{
    let mut sets = Vec::with_capacity(alloc, sums.len())?;
    'sums: for sum in sums {
        sets.push(sum.into_net()?)?;
    }
    Ok(sets)
}

/// The net set of each of the logs in the files of these names; or the first log that no tree takes.
pub fn net_sets(
    alloc: Global,
    names: &FileList<'_>,
    logs: Vec<LogFile<Total>>,
) -> Result<Vec<CanonSet>, Refusal>
    requires { length logs.items ≡ length names.now }
    ensures nets { (reads : List ReadLog) → AreLogFiles logs reads →
        IsJudged AreNetsOf (EachTaken names.now reads) result }
    ensures many { IfOk result (λ sets. length sets.items ≡ length names.now) }
{
    let sums = sums_of(alloc, names, logs)?;
    Ok(nets_of(alloc, sums)?)
}

/// What the sets in the files of these names do one after another; or the first that does not follow those before it.
pub fn composed(alloc: Global, names: &FileList<'_>, sets: &[CanonSet]) -> Result<CanonSet, Refusal>
    requires { length sets.now ≡ length names.now }
    ensures { IsJudged (λ set cs. set ≡ cs) (IsComposed names.now sets.now) result }
{
    match compose(alloc, sets) {
        Ok(set) => Ok(set),
        Err(ComposeFault::NoFollow { set, path }) => Err(Refusal::Found(Finding::NoFollow {
            word: names.place(set - 1),
            path,
        })),
        Err(ComposeFault::Memory) => Err(Refusal::OutOfMemory),
    }
}

/// The text of a set.
pub fn set_text(alloc: Global, version: Version, set: &CanonSet) -> Result<Vec<u8>, Refusal>
    requires { AllByRecursion (IsOfVersion version) set.now }
    ensures { IsJudged HasItems (λ answer. answer ≡ Ok (log_text version set.now)) result }
{
    let mut text = Vec::new(alloc);
    print_log(&mut text, version, set.commands())?;
    Ok(text)
}

/// The text of what the net sets of the logs in the files of these names do one after another.
fn caught_up(
    alloc: Global,
    names: &FileList<'_>,
    logs: Vec<LogFile<Total>>,
) -> Result<Vec<u8>, Refusal>
    requires many { length logs.items ≡ length names.now }
    requires logs { (reads : List ReadLog) × AreLogFiles logs reads }
    ensures { (reads : List ReadLog) → AreLogFiles logs reads →
        IsJudged HasItems (IsCaughtUp names.now reads) result }
{
    let version = joint_version(&logs);
    let sets = net_sets(alloc, names, logs)?;
    let set = composed(alloc, names, &sets)?;
    set_text(alloc, version, &set)
}

/// One set that does what the net sets of the logs in the files of these names do one after another, as a log's text.
pub fn catchup<F: Files>(
    alloc: Global,
    names: &FileList<'_>,
    files: &mut F,
) -> Result<Vec<u8>, Refusal>
    ensures { Answers HasItems (IsCatchup names.now) (log_limits names.now) (F.files files.old)
        (F.files files.new) result }
{
    let logs = read_logs(alloc, FULL_ALLOWANCE, names, files)?;
    caught_up(alloc, names, logs)
}
