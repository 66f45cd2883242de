//! The command `steer SET LOG...`.

ghost use Rattle.std.specs.Prelude.{◌≡◌, ◌≤◌, ◌∷◌, List, Ok, length};
ghost use Rattle.refluent.specs.declared.joint.TheConstants.{MAX_LOGS};
ghost use Rattle.pref_list.specs.Prefs.{prefs_text};
ghost use Rattle.treesync.specs.Checks.{Answers, HasItems, IsJudged};
ghost use Rattle.treesync.specs.Joining.{AreJoined, AreLogFiles, log_limits};
ghost use Rattle.treesync.specs.Logs.{IsLogFile, IsTotal, ReadLog};
ghost use Rattle.treesync.specs.Steer.{IsNetSet, IsSteer, IsSteered, IsSteering, steer_refusal};

use crate::input::FILE_LIMIT;
use crate::joining::{JoinedLogs, join_logs, read_logs};
use crate::logs::{FULL_ALLOWANCE, LogFile, Total, read_sum};
use crate::{Finding, Refusal};
use canon_set::CanonSet;
use merge_core::SteerFault;
use pref_list::{Rule, print_prefs};
use std::alloc::Global;
use sync_port::Files;
use tool_words::FileList;

/// The net set of a log, which the word at the place `word` names.
pub fn net_set(word: usize, log: LogFile<Total>) -> Result<CanonSet, Refusal>
    ensures { (read : ReadLog) → IsLogFile IsTotal log read →
        IsJudged (λ set cs. set ≡ cs) (IsNetSet word read) result }
{
    let set = match log.commands.broken {
        Some(number) => return Err(Refusal::Found(Finding::NoTree { word, number })),
        None => log.commands.sum.into_net()?,
    };
    Ok(set)
}

/// Why no rules steer to the set, which the word at the place `word` names.
fn steer_refusal(word: usize, fault: SteerFault) -> Refusal
    ensures { result ≡ steer_refusal word fault }
{
    match fault {
        SteerFault::NotDrawn { path } => Refusal::Found(Finding::NotDrawn { word, path }),
        SteerFault::DoesNotFit { path } => Refusal::Found(Finding::DoesNotFit { word, path }),
        SteerFault::CanAdd { log, path } => Refusal::Found(Finding::CanAdd { word, log, path }),
        SteerFault::Memory => Refusal::OutOfMemory,
    }
}

/// The text of rules.
fn rules_text(alloc: Global, rules: &[Rule]) -> Result<Vec<u8>, Refusal>
    ensures { IsJudged HasItems (λ answer. answer ≡ Ok (prefs_text rules.now)) result }
{
    let mut text = Vec::new(alloc);
    print_prefs(&mut text, rules)?;
    Ok(text)
}

/// The text of the rules that steer to the set, which the word at the place `word` names.
fn steering_text(
    alloc: Global,
    word: usize,
    set: &CanonSet,
    logs: &JoinedLogs,
) -> Result<Vec<u8>, Refusal>
    ensures { (reads : List ReadLog) → AreJoined logs.now reads →
        IsJudged HasItems (IsSteered word set.now reads) result }
{
    match merge_core::steer(alloc, &logs.joint, set) {
        Ok(rules) => rules_text(alloc, &rules),
        Err(fault) => Err(steer_refusal(word, fault)),
    }
}

/// The text of the rules that steer to the net set of `set`, which the word at the place `word` names, for the logs in
/// the files of these names.
fn steered(
    alloc: Global,
    word: usize,
    set: LogFile<Total>,
    names: &FileList<'_>,
    logs: Vec<LogFile<Total>>,
) -> Result<Vec<u8>, Refusal>
    requires many { length logs.items ≡ length names.now }
    requires few { length names.now ≤ MAX_LOGS }
    ensures { (read : ReadLog) (reads : List ReadLog) → IsLogFile IsTotal set read →
        AreLogFiles logs reads → IsJudged HasItems (IsSteering word names.now read reads) result }
{
    let net = net_set(word, set)?;
    let joined = join_logs(alloc, names, logs)?;
    steering_text(alloc, word, &net, &joined)
}

/// The rules under which the net set of the log in the file `set` is the first merger of the logs in the files of these
/// names, as a preference list's text. The word at the place `word` names that file.
pub fn steer<F: Files>(
    alloc: Global,
    word: usize,
    set: &str,
    names: &FileList<'_>,
    files: &mut F,
) -> Result<Vec<u8>, Refusal>
    requires { length names.now ≤ MAX_LOGS }
    ensures { Answers HasItems (IsSteer (record { text = set.now; place = word }) names.now)
        ((set.now, FILE_LIMIT) ∷ log_limits names.now)
        (F.files files.old) (F.files files.new) result }
{
    let read = read_sum(alloc, word, set, FULL_ALLOWANCE, files)?;
    let logs = read_logs(alloc, FULL_ALLOWANCE, names, files)?;
    steered(alloc, word, read, names, logs)
}
