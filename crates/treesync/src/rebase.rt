//! The command `rebase [--prefs FILE] SIDE WORK SET...`.

ghost use Rattle.std.specs.Prelude.{◌≡◌, ◌≤◌, ◌++◌, List, length};
ghost use Rattle.canon_set.specs.Sums.{StandsFor};
ghost use Rattle.pref_list.specs.declared.rules.Rule.{Rule};
ghost use Rattle.treesync.specs.Checks.{Answers, HasItems, IsJudged};
ghost use Rattle.treesync.specs.Joining.{AllTaken, AreJoined, AreLogFiles, ArePrintable, joint_version};
ghost use Rattle.treesync.specs.Logs.{IsLogFile, IsTotal, ReadLog, later_version};
ghost use Rattle.treesync.specs.Preferences.{preference_limits, rule_refusal};
ghost use Rattle.treesync.specs.Rebase.{IsRebase, IsRebaseOf, IsRebased, IsTakenWork, as_logs, round_side, side_number, work_limits};
ghost use Rattle.treesync.specs.Transition.{IsTransitioned};

use crate::catchup::{composed, net_sets, set_text};
use crate::joining::{JoinedLogs, joint_of, joint_version, left_after, push_sum, read_logs};
use crate::logs::{FULL_ALLOWANCE, LogFile, Total, later_version, read_sum};
use crate::preferences::{preference_word, preferences, rule_refusal};
use crate::{Finding, Refusal};
use canon_set::{CanonSet, LogSum};
use pref_list::Rule;
use rounds::set_sum;
use std::alloc::Global;
use sync_command::Version;
use sync_port::Files;
use tool_words::{FileList, Side, Word};

/// The sum of the recorded work, which the word at the place `word` names.
fn work_sum(word: usize, work: LogFile<Total>) -> Result<LogSum, Refusal>
    ensures { (read : ReadLog) → IsLogFile IsTotal work read →
        IsJudged (λ sum r. StandsFor sum r.commands) (IsTakenWork word read) result }
{
    match work.commands.broken {
        Some(number) => Err(Refusal::Found(Finding::NoTree { word, number })),
        None => Ok(work.commands.sum),
    }
}

/// The recorded work as log 1, joined with a set as log 2.
fn join_work(
    alloc: Global,
    version: Version,
    work: LogSum,
    set: &CanonSet,
) -> Result<JoinedLogs, Refusal>
    ensures { (read : ReadLog) (reads : List ReadLog) → StandsFor work read.commands →
        version ≡ later_version read.version (joint_version reads) →
        ArePrintable (as_logs read reads set.now) →
        IsJudged AreJoined (AllTaken (as_logs read reads set.now)) result }
{
    let mut sums = Vec::new(alloc);
    push_sum(&mut sums, work)?;
    push_sum(&mut sums, set_sum(alloc, set)?)?;
    let joint = joint_of(alloc, sums)?;
    Ok(JoinedLogs { version, joint })
}

/// The side as it is rebased.
fn round_side(side: Side) -> rounds::Side
    ensures { result ≡ round_side side }
{
    match side {
        Side::Tree => rounds::Side::Tree,
        Side::Next => rounds::Side::Next,
    }
}

/// Which side of a rebase is wanted, under which rules, and the place of the word that names these.
#[derive(Drop)]
struct Wanted {
    side: Side,
    word: usize,
    rules: Vec<Rule>,
}

/// The text of a side's transition by the first merger of two logs under the rules.
fn side_text(alloc: Global, wanted: &Wanted, logs: &JoinedLogs) -> Result<Vec<u8>, Refusal>
    requires two { length logs.now.joint.sets ≡ 2 }
    requires logs { (reads : List ReadLog) × AreJoined logs.now reads }
    ensures { (reads : List ReadLog) → AreJoined logs.now reads →
        IsJudged HasItems (IsTransitioned (side_number wanted.now.side) wanted.now.word
        wanted.now.rules.items reads) result }
{
    match rounds::rebase(alloc, &logs.joint, &wanted.rules, round_side(wanted.side)) {
        Ok(set) => set_text(alloc, logs.version, &set),
        Err(fault) => Err(rule_refusal(wanted.word, fault)),
    }
}

/// The text of a side's transition, from the logs of the recorded work and of the sets. The word at the place `word`
/// names the work.
fn rebased(
    alloc: Global,
    wanted: &Wanted,
    word: usize,
    work: LogFile<Total>,
    names: &FileList<'_>,
    sets: Vec<LogFile<Total>>,
) -> Result<Vec<u8>, Refusal>
    requires many { length sets.items ≡ length names.now }
    requires work { (read : ReadLog) × IsLogFile IsTotal work read }
    requires sets { (reads : List ReadLog) × AreLogFiles sets reads }
    ensures { (read : ReadLog) (reads : List ReadLog) → IsLogFile IsTotal work read →
        AreLogFiles sets reads → IsJudged HasItems (IsRebased wanted.now.side wanted.now.word
        wanted.now.rules.items word names.now read reads) result }
{
    let version = later_version(work.version, joint_version(&sets));
    let sum = work_sum(word, work)?;
    let nets = net_sets(alloc, names, sets)?;
    let set = composed(alloc, names, &nets)?;
    let joined = join_work(alloc, version, sum, &set)?;
    side_text(alloc, wanted, &joined)
}

/// The text of a side's transition, from the files of the recorded work and of the sets.
fn rebase_under<F: Files>(
    alloc: Global,
    wanted: &Wanted,
    work: &Word<'_>,
    names: &FileList<'_>,
    files: &mut F,
) -> Result<Vec<u8>, Refusal>
    ensures { Answers HasItems (IsRebaseOf wanted.now.side wanted.now.word wanted.now.rules.items
        work.now names.now) (work_limits work.now names.now)
        (F.files files.old) (F.files files.new) result }
{
    let log = read_sum(alloc, work.place(), work.as_str(), FULL_ALLOWANCE, files)?;
    let left = left_after(FULL_ALLOWANCE, &log);
    let sets = read_logs(alloc, left, names, files)?;
    rebased(alloc, wanted, work.place(), log, names, sets)
}

/// The recorded work in the file that `work` names is merged with what the net sets of the logs in the files of these
/// names do one after another, under the rules of the file that `prefs` names or under none; and the transition of the
/// side is given as a log's text.
pub fn rebase<F: Files>(
    alloc: Global,
    side: Side,
    prefs: &Option<Word<'_>>,
    work: &Word<'_>,
    names: &FileList<'_>,
    files: &mut F,
) -> Result<Vec<u8>, Refusal>
    ensures { Answers HasItems (IsRebase side prefs.now work.now names.now)
        (preference_limits prefs.now ++ work_limits work.now names.now) (F.files files.old)
        (F.files files.new) result }
{
    let rules = preferences(alloc, prefs, files)?;
    let word = preference_word(prefs);
    let wanted = Wanted { side, word, rules };
    rebase_under(alloc, &wanted, work, names, files)
}
