//! The preference list of a job, and the ranking under its rules.

ghost use Rattle.std.specs.Prelude.{◌≡◌, ◌∷◌, [], List, IfOk};
ghost use Rattle.sync_path.specs.Paths.{parts};
ghost use Rattle.pref_list.specs.Orders.{IsRankingOf};
ghost use Rattle.pref_list.specs.Prefs.{prefs_of};
ghost use Rattle.treesync.specs.Checks.{Answers, HasItems, IsJudged};
ghost use Rattle.treesync.specs.Files.{text_answer};
ghost use Rattle.treesync.specs.Joining.{IsJointOf};
ghost use Rattle.treesync.specs.Logs.{ReadLog};
ghost use Rattle.treesync.specs.Preferences.{ArePreferences, IsPreferenceFile, IsRanked, RulesHold, preference_limits, preference_word, rule_refusal};

use crate::input::read_file;
use crate::{Finding, Refusal};
use log_text::LogFault;
use pref_list::{RankFault, Ranking, Rule, rank, read_prefs};
use refluent::Joint;
use std::alloc::Global;
use sync_port::Files;
use tool_words::Word;

/// The most bytes of a preference list's file: 2^29.
pub const PREFS_LIMIT: usize = 536_870_912;

/// The rules of a preference list's text.
fn judge_preferences(alloc: Global, word: usize, bytes: &[u8]) -> Result<Vec<Rule>, Refusal>
    ensures { IsJudged HasItems (λ a. a ≡ text_answer word (prefs_of (parts 10 bytes.now)))
        result }
{
    match read_prefs(alloc, bytes) {
        Ok(rules) => Ok(rules),
        Err(LogFault::Text(fault)) => Err(Refusal::Found(Finding::Text { word, fault })),
        Err(LogFault::Memory) => Err(Refusal::OutOfMemory),
    }
}

/// The rules of the preference list in the file `name`, which the word at the place `word` names.
#[tactic(auto, using(crate::proofs::CheckLemmas::then_judged, crate::proofs::CheckLemmas::then_handed_on))]
fn preference_file<F: Files>(
    alloc: Global,
    word: usize,
    name: &str,
    files: &mut F,
) -> Result<Vec<Rule>, Refusal>
    ensures { Answers HasItems (IsPreferenceFile word name.now) ((name.now, PREFS_LIMIT) ∷ [])
        (F.files files.old) (F.files files.new) result }
{
    let bytes = read_file(alloc, word, name, PREFS_LIMIT, files)?;
    judge_preferences(alloc, word, &bytes)
}

/// No rules.
fn no_rules(alloc: Global) -> Result<Vec<Rule>, Refusal>
    ensures { IsJudged HasItems (λ answer. answer ≡ Ok []) result }
{
    Ok(Vec::new(alloc))
}

/// The rules of the file that a job names, and none where it names none.
pub fn preferences<F: Files>(
    alloc: Global,
    prefs: &Option<Word<'_>>,
    files: &mut F,
) -> Result<Vec<Rule>, Refusal>
    ensures { Answers HasItems (ArePreferences prefs.now) (preference_limits prefs.now)
        (F.files files.old) (F.files files.new) result }
{
    match prefs {
        Some(file) => preference_file(alloc, file.place(), file.as_str(), files),
        None => no_rules(alloc),
    }
}

/// The place of the word of the file that a job names; 0 where it names none.
pub fn preference_word(prefs: &Option<Word<'_>>) -> usize
    ensures { result ≡ preference_word prefs.now }
{
    match prefs {
        Some(file) => file.place(),
        None => 0,
    }
}

/// What a fault of the rules means that the word at the place `word` names.
pub fn rule_refusal(word: usize, fault: RankFault) -> Refusal
    ensures { result ≡ rule_refusal word fault }
{
    match fault {
        RankFault::NoSuchLog { number } => Refusal::Found(Finding::NoSuchLog { word, number }),
        RankFault::NoCommand { number } => Refusal::Found(Finding::NoCommand { word, number }),
        RankFault::Memory => Refusal::OutOfMemory,
    }
}

/// The ranking of a joint's drawn commands under the rules, which the word at the place `word` names.
pub fn ranking_under(
    alloc: Global,
    word: usize,
    rules: &[Rule],
    joint: &Joint,
) -> Result<Ranking, Refusal>
    ensures ranking { (reads : List ReadLog) → IsJointOf joint.now reads →
        IsJudged (IsRanked rules.now) (RulesHold word rules.now reads) result }
    ensures ranked { IfOk result (IsRankingOf joint.now.sets rules.now) }
{
    match rank(alloc, joint, rules) {
        Ok(ranking) => Ok(ranking),
        Err(fault) => Err(rule_refusal(word, fault)),
    }
}
