//! What `merge`, `transition`, `explain` and `sync` begin with: logs in files, joined, and their first merger under rules.

ghost use Rattle.std.specs.Prelude.{◌≡◌, ◌≤◌, ◌++◌, List, length, IfOk};
ghost use Rattle.refluent.specs.declared.joint.TheConstants.{MAX_LOGS};
ghost use Rattle.pref_list.specs.Orders.{IsRankingOf};
ghost use Rattle.pref_list.specs.declared.rules.Rule.{Rule};
ghost use Rattle.treesync.specs.Checks.{Answers, IsJudged};
ghost use Rattle.treesync.specs.Joining.{AreJoined, log_limits};
ghost use Rattle.treesync.specs.Logs.{ReadLog};
ghost use Rattle.treesync.specs.Merging.{AreAsked, IsMergedOf, OfLogs, OfMerging, UnderRules};
ghost use Rattle.treesync.specs.Preferences.{preference_limits};

use crate::Refusal;
use crate::joining::{JoinedLogs, join_logs, read_logs};
use crate::logs::FULL_ALLOWANCE;
use crate::preferences::{preference_word, preferences, ranking_under};
use canon_set::CanonSet;
use pref_list::{Ranking, Rule};
use std::alloc::Global;
use sync_port::Files;
use tool_words::{FileList, Word};

/// Logs that some tree takes together, and their first merger under rules.
#[derive(Drop)]
pub struct MergedLogs {
    pub logs: JoinedLogs,
    pub merger: CanonSet,
}

/// The first merger of logs under a ranking, beside them.
fn first_merged(alloc: Global, logs: JoinedLogs, ranking: &Ranking) -> Result<MergedLogs, Refusal>
    requires logs { (reads : List ReadLog) × AreJoined logs reads }
    requires ranking { (rules : List Rule) × IsRankingOf logs.joint.sets rules ranking.now }
    ensures merged { (reads : List ReadLog) (rules : List Rule) → AreJoined logs reads →
        IsRankingOf logs.joint.sets rules ranking.now →
        IsJudged IsMergedOf (AreAsked rules reads) result }
    ensures many { IfOk result (λ merged. length merged.logs.joint.sets ≡ length logs.joint.sets) }
{
    let merger = merge_core::merge(alloc, &logs.joint, ranking)?;
    Ok(MergedLogs { logs, merger })
}

/// The first merger of logs under the rules, which the word at the place `word` names, beside them.
fn merged(
    alloc: Global,
    word: usize,
    rules: &[Rule],
    logs: JoinedLogs,
) -> Result<MergedLogs, Refusal>
    requires { (reads : List ReadLog) × AreJoined logs reads }
    ensures merged { (reads : List ReadLog) → AreJoined logs reads →
        IsJudged IsMergedOf (UnderRules AreAsked word rules.now reads) result }
    ensures many { IfOk result (λ merged. length merged.logs.joint.sets ≡ length logs.joint.sets) }
{
    let ranking = ranking_under(alloc, word, rules, &logs.joint)?;
    first_merged(alloc, logs, &ranking)
}

/// The first merger of the logs in the files of these names under the rules, which the word at the place `word` names,
/// beside the logs.
fn merged_under<F: Files>(
    alloc: Global,
    word: usize,
    rules: &[Rule],
    names: &FileList<'_>,
    files: &mut F,
) -> Result<MergedLogs, Refusal>
    requires { length names.now ≤ MAX_LOGS }
    ensures answer { Answers IsMergedOf (OfLogs AreAsked word rules.now names.now)
        (log_limits names.now) (F.files files.old) (F.files files.new) result }
    ensures many { IfOk result (λ merged. length merged.logs.joint.sets ≡ length names.now) }
{
    let logs = read_logs(alloc, FULL_ALLOWANCE, names, files)?;
    let joined = join_logs(alloc, names, logs)?;
    merged(alloc, word, rules, joined)
}

/// The first merger of the logs in the files of these names, under the rules of the file that `prefs` names or under
/// none, beside the logs.
pub fn merged_logs<F: Files>(
    alloc: Global,
    prefs: &Option<Word<'_>>,
    names: &FileList<'_>,
    files: &mut F,
) -> Result<MergedLogs, Refusal>
    requires { length names.now ≤ MAX_LOGS }
    ensures answer { Answers IsMergedOf (OfMerging AreAsked prefs.now names.now)
        (preference_limits prefs.now ++ log_limits names.now)
        (F.files files.old) (F.files files.new) result }
    ensures many { IfOk result (λ merged. length merged.logs.joint.sets ≡ length names.now) }
{
    let rules = preferences(alloc, prefs, files)?;
    let word = preference_word(prefs);
    merged_under(alloc, word, &rules, names, files)
}
