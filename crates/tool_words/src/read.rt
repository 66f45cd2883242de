//! Reads the words into a job.

ghost use Rattle.std.specs.Prelude.{◌≡◌, IfOk, IsErrOf, Some, None, option_and_then};
ghost use Rattle.tool_words.specs.declared.job.WordFault.TheVariants.{Refused};
ghost use Rattle.tool_words.specs.Words.{texts_of, operands_of, three_operands};
ghost use Rattle.tool_words.specs.Jobs.{job_of, operands_job, is_help, transition_of, drill_of, rebase_of, side_of};
ghost use Rattle.tool_words.specs.Logs.{prefs_first_logs};

use crate::commands::{Verb, verb_of};
use crate::job::{Job, Side, WordFault};
use crate::logs::{first_and_logs, only_logs, prefs_and_logs, prefs_first_and_logs};
use crate::numbers::read_number;
use crate::operands::{one_operand, three_operands, two_operands};
use crate::rounds::prefs_round;
use std::alloc::Global;

/// The greatest number that a drill begins with.
const MAX_SEED: u32 = 2147483647;
/// The most logs of a drill.
const MAX_DRILL_LOGS: u32 = 64;
/// The most steps of each log of a drill.
const MAX_STEPS: u32 = 16384;

/// Whether the words ask for the help alone.
fn ask_help(words: &[String]) -> bool
    ensures { result ≡ is_help (texts_of words.now) }
{
    match words {
        [only] => only.as_str() == "help" || only.as_str() == "--help",
        _ => false,
    }
}

/// The job of the operands of `transition`, whose number is that of one of the logs.
fn read_transition<'a>(
    alloc: Global,
    name: &'a str,
    words: &'a [String],
) -> Result<Job<'a>, WordFault>
    ensures ok { IfOk result (λ job. option_and_then transition_of
        (prefs_first_logs (operands_of words.entry.now)) ≡ Some job) }
    ensures refused { IsErrOf result Refused → option_and_then transition_of
        (prefs_first_logs (operands_of words.entry.now)) ≡ None }
{
    let (prefs, first, logs) = prefs_first_and_logs(alloc, name, words)?;
    let count = logs.len() as u32;
    match read_number(first.as_str(), 1, count) {
        Some(number) => Ok(Job::Transition {
            number,
            prefs,
            logs,
        }),
        None => Err(WordFault::Refused),
    }
}

/// The job of the operands of `drill`, each a number within its limits.
fn read_drill<'a>(alloc: Global, name: &'a str, words: &'a [String]) -> Result<Job<'a>, WordFault>
    ensures ok { IfOk result (λ job. option_and_then drill_of
        (three_operands (operands_of words.entry.now)) ≡ Some job) }
    ensures refused { IsErrOf result Refused → option_and_then drill_of
        (three_operands (operands_of words.entry.now)) ≡ None }
{
    let (seed, logs, steps) = three_operands(alloc, name, words)?;
    match (
        read_number(seed.as_str(), 0, MAX_SEED),
        read_number(logs.as_str(), 1, MAX_DRILL_LOGS),
        read_number(steps.as_str(), 0, MAX_STEPS),
    ) {
        (Some(seed), Some(logs), Some(steps)) => Ok(Job::Drill { seed, logs, steps }),
        _ => Err(WordFault::Refused),
    }
}

/// The side that a rebase prints, by its name.
fn read_side(name: &str) -> Option<Side>
    ensures { result ≡ side_of name.now }
{
    match name {
        "tree" => Some(Side::Tree),
        "next" => Some(Side::Next),
        _ => None,
    }
}

/// The job of the operands of `rebase`: a side, the recorded work and at least one set.
fn read_rebase<'a>(alloc: Global, name: &'a str, words: &'a [String]) -> Result<Job<'a>, WordFault>
    ensures ok { IfOk result (λ job. option_and_then rebase_of
        (prefs_first_logs (operands_of words.entry.now)) ≡ Some job) }
    ensures refused { IsErrOf result Refused → option_and_then rebase_of
        (prefs_first_logs (operands_of words.entry.now)) ≡ None }
{
    let (prefs, first, logs) = prefs_first_and_logs(alloc, name, words)?;
    let (Some(side), Some((work, sets))) = (read_side(first.as_str()), logs.split_first()) else {
        return Err(WordFault::Refused);
    };
    if sets.len() == 0 {
        return Err(WordFault::Refused);
    }
    Ok(Job::Rebase {
        side,
        prefs,
        work,
        sets,
    })
}

/// The job of a command's operands, which follow its name in the words.
fn read_operands<'a>(
    alloc: Global,
    verb: Verb,
    name: &'a str,
    words: &'a [String],
) -> Result<Job<'a>, WordFault>
    ensures ok { IfOk result (λ job.
        operands_job verb (operands_of words.entry.now) ≡ Some job) }
    ensures refused { IsErrOf result Refused →
        operands_job verb (operands_of words.entry.now) ≡ None }
{
    match verb {
        Verb::Replay => {
            let (snap, log) = two_operands(alloc, name, words)?;
            Ok(Job::Replay { snap, log })
        }
        Verb::Canon => {
            let log = one_operand(alloc, name, words)?;
            Ok(Job::Canon { log })
        }
        Verb::Conflicts => {
            let logs = only_logs(alloc, name, words)?;
            Ok(Job::Conflicts { logs })
        }
        Verb::Merge => {
            let (prefs, logs) = prefs_and_logs(alloc, name, words)?;
            Ok(Job::Merge { prefs, logs })
        }
        Verb::Steer => {
            let (set, logs) = first_and_logs(alloc, name, words)?;
            Ok(Job::Steer { set, logs })
        }
        Verb::Record => {
            let (folder, script) = two_operands(alloc, name, words)?;
            Ok(Job::Record { folder, script })
        }
        Verb::Seal => {
            let (folder, log) = two_operands(alloc, name, words)?;
            Ok(Job::Seal { folder, log })
        }
        Verb::Apply => {
            let (folder, set) = two_operands(alloc, name, words)?;
            Ok(Job::Apply { folder, set })
        }
        Verb::Drill => read_drill(alloc, name, words),
        Verb::Transition => read_transition(alloc, name, words),
        Verb::Sync => match prefs_round(words) {
            Some((prefs, folders, logs)) => Ok(Job::Sync {
                prefs,
                folders,
                logs,
            }),
            None => Err(WordFault::Refused),
        },
        Verb::Explain => {
            let (prefs, logs) = prefs_and_logs(alloc, name, words)?;
            Ok(Job::Explain { prefs, logs })
        }
        Verb::Undo => {
            let set = one_operand(alloc, name, words)?;
            Ok(Job::Undo { set })
        }
        Verb::Catchup => {
            let sets = only_logs(alloc, name, words)?;
            Ok(Job::Catchup { sets })
        }
        Verb::Rebase => read_rebase(alloc, name, words),
    }
}

/// The job that the words ask for; `words` are the program's arguments, the command first.
///
/// `help` or `--help` alone is the help. Any other words are the name of a command that is built,
/// and the operands that the help lists for it, no more and no fewer, where LOG... and SET... are
/// one file to 64, and in `rebase` to 63; its SIDE is `tree` or `next`. In `sync` the number K, 1
/// to 64, has as many folders after it, no two of the same text, and then as many logs.
/// `--prefs FILE` or `--prefs=FILE` may stand right after a command that the help shows it for.
/// FILE and each operand is not empty and does not begin with a dash. Refused comes only where the
/// words are no such job, and is the answer to all such words but where memory ran out.
pub fn read_words<'a>(alloc: Global, words: &'a [String]) -> Result<Job<'a>, WordFault>
    ensures ok { IfOk result (λ job. job_of (texts_of words.entry.now) ≡ Some job) }
    ensures refused { IsErrOf result Refused → job_of (texts_of words.entry.now) ≡ None }
{
    if ask_help(words) {
        return Ok(Job::Help);
    }
    let Some((first, _)) = words.split_first() else {
        return Err(WordFault::Refused);
    };
    let name = first.as_str();
    match verb_of(name) {
        Some(verb) => read_operands(alloc, verb, name, words),
        None => Err(WordFault::Refused),
    }
}
