//! The top call: the answer of the words, and its end.

ghost use Rattle.std.specs.Prelude.{◌≡◌, [], Ok, Option, Some, length, map, string_bytes};
ghost use Rattle.sync_command.specs.Maps.{Store};
ghost use Rattle.tool_words.specs.LogCounts.{HasFewLogs};
ghost use Rattle.tool_words.specs.Help.{help_text};
ghost use Rattle.tool_words.specs.Trees.{job_folders};
ghost use Rattle.treesync.specs.Answering.{StandsForOutput};
ghost use Rattle.treesync.specs.Checks.{Answers, HasItems, IsJudged, IsOne};
ghost use Rattle.treesync.specs.Jobs.{FindsJob, HasItsTrees, IsAnswer, IsJobAnswer, inputs, limits_of, outside};
ghost use Rattle.treesync.specs.Promises.{Promises};
ghost use Rattle.treesync.specs.Runs.{IsAnswered, IsExplained, words_refusal};

use crate::answer::{of_explained, of_joint, of_text};
use crate::apply::apply;
use crate::canon::canon;
use crate::catchup::catchup;
use crate::conflicts::conflicts;
use crate::drill::drill;
use crate::explain::explain;
use crate::merge::merge;
use crate::rebase::rebase;
use crate::record::record;
use crate::replay::replay;
use crate::report::report;
use crate::seal::seal;
use crate::steer::steer;
use crate::sync::sync;
use crate::transitions::transition;
use crate::undo::undo;
use crate::{Answer, Refusal};
use std::alloc::Global;
use sync_port::{Files, Sink};
use tool_words::{Job, WordFault, help, read_words};
use tree_port::Tree;

/// The help's text.
fn help_answer(alloc: Global) -> Result<Vec<u8>, Refusal>
    ensures { IsJudged HasItems (λ answer. answer ≡ Ok help_text) result }
{
    Ok(help(alloc)?)
}

/// The answer of a job that names no folder.
fn job_answer<F: Files>(alloc: Global, job: &Job, files: &mut F) -> Result<Answer, Refusal>
    requires few { HasFewLogs job.now }
    requires folders { job_folders job.now ≡ [] }
    ensures { (tree : Option Store) → Answers StandsForOutput (IsJobAnswer job.now tree)
        (limits_of job.now) (F.files files.old) (F.files files.new) result }
{
    match job {
        Job::Help => of_text(help_answer(alloc)),
        Job::Replay { snap, log } => {
            let snap_word = snap.place();
            let log_word = log.place();
            of_text(replay(
                alloc,
                snap_word,
                snap.as_str(),
                log_word,
                log.as_str(),
                files,
            ))
        }
        Job::Canon { log } => of_text(canon(alloc, log.place(), log.as_str(), files)),
        Job::Conflicts { logs } => of_joint(conflicts(alloc, logs, files)),
        Job::Merge { prefs, logs } => of_text(merge(alloc, prefs, logs, files)),
        Job::Transition {
            number,
            prefs,
            logs,
        } => of_text(transition(alloc, *number, prefs, logs, files)),
        Job::Steer { set, logs } => {
            of_text(steer(alloc, set.place(), set.as_str(), logs, files))
        }
        Job::Drill { seed, logs, steps } => of_text(drill(alloc, *seed, *logs, *steps)),
        Job::Explain { prefs, logs } => of_explained(explain(alloc, prefs, logs, files)),
        Job::Undo { set } => of_text(undo(alloc, set.place(), set.as_str(), files)),
        Job::Catchup { sets } => of_text(catchup(alloc, sets, files)),
        Job::Rebase {
            side,
            prefs,
            work,
            sets,
        } => of_text(rebase(alloc, *side, prefs, work, sets, files)),
        Job::Record { .. } | Job::Seal { .. } | Job::Apply { .. } | Job::Sync { .. } => {
            unreachable!()
        }
    }
}

/// The answer of a job that is no recording and no round.
fn find_answer<F: Files>(
    alloc: Global,
    job: &Job,
    files: &mut F,
    trees: &mut Vec<Box<dyn Tree>>,
) -> Result<Answer, Refusal>
    requires few { HasFewLogs job.now }
    requires answered { IsAnswered job.now }
    ensures { length trees.old.items ≡ length (job_folders job.now) →
        FindsJob StandsForOutput job.now
        (inputs (F.files files.old) (map (λ tree. live tree) trees.old.items))
        (inputs (F.files files.new) (map (λ tree. live tree) trees.new.items)) result }
{
    match job {
        Job::Seal { folder, log } => of_text(seal(alloc, folder, log, files, trees)),
        Job::Apply { folder, set } => of_text(apply(alloc, folder, set, files, trees)),
        _ => job_answer(alloc, job, files),
    }
}

/// Why there is no job.
fn words_refusal(fault: WordFault) -> Refusal
    ensures { result ≡ words_refusal fault }
{
    match fault {
        WordFault::Refused => Refusal::InvalidArguments,
        WordFault::Memory => Refusal::OutOfMemory,
    }
}

/// Finds the answer of the words and prints it, or makes the round or the recording that they ask for.
fn run_words<F: Files, O: Sink, E: Sink>(
    alloc: Global,
    words: &[String],
    files: &mut F,
    trees: &mut Vec<Box<dyn Tree>>,
    out: &mut O,
    err: &mut E,
) -> u8
    ensures { HasItsTrees (map string_bytes words.now) trees.old.items →
        IsExplained (map string_bytes words.now)
        (outside (F.files files.old) (map (λ tree. live tree) trees.old.items) (O.sink out.old)
        (E.sink err.old))
        (outside (F.files files.new) (map (λ tree. live tree) trees.new.items) (O.sink out.new)
        (E.sink err.new)) result }
{
    match read_words(alloc, words) {
        Ok(job) => match &job {
            Job::Record { folder, script } => {
                record(alloc, words, folder, script, files, trees, out, err)
            }
            Job::Sync {
                prefs,
                folders,
                logs,
            } => {
                let answer = sync(alloc, prefs, folders, logs, files, trees);
                report(alloc, words, answer, out, err)
            }
            _ => {
                let answer = find_answer(alloc, &job, files, trees);
                report(alloc, words, answer, out, err)
            }
        },
        Err(fault) => report(alloc, words, Err(words_refusal(fault)), out, err),
    }
}

/// Runs the job that the words are, and gives its status ("The answer of a job" in `docs/MODEL.md`, and the table
/// of statuses in `docs/FORMATS.md`).
///
/// `words` are those after the program's name, and name files of `files`. On status 0 or 1 the job's whole text was
/// written to `out`, which was flushed. After every other status but 4 `out` is as before, and after 4 it gained the
/// first bytes of the text; so it did after 16 where memory ran out between the lines of a `conflicts` or an `explain`.
/// A `record` writes as it goes, and what it leaves is said below. On a refusal `err` gained its one line, or the first
/// bytes of it where writing to `err` failed, which changes no status. What the files hold is as before, each file of
/// the job was opened once at most, and no count of faults falls. Status 16 may come at any time. The words, the bytes
/// under the names of `files` and what the trees hold determine the right answer: there are never two.
///
/// Where some tree takes all logs of a `merge`, and they have what the rules name, it prints, unless memory runs out or
/// a fault was counted, a set of the logs' net commands that fits every tree that takes them all and to which no
/// further one can be added; and each such set is printed for some rules, those that `steer` prints for it. With status
/// 0 a `conflicts` has found that no two net commands of its logs clash, and with 1 that some do.
///
/// With status 0 an `explain` has printed a line for each net command that the merger of the same rules leaves out, with
/// its first chain. With status 0 an `undo` has printed what leads back from SET's result on every tree that takes SET,
/// and from an application of its net set that was stopped anywhere; a `catchup` one set that fits every tree that takes
/// the net sets one after another and leads where they lead; and a `rebase` what leads, on every tree that takes both the
/// work and the sets, from its side to the first merger. Without rules nothing of the work is undone by `tree`, and under
/// `all 2` nothing of the sets by `next`.
///
/// `trees` are those of the folders that the words name, in their order (`HasItsTrees`, on which the promises stand);
/// only `record`, `seal` and `apply` have one, and `sync` has one for each of its logs; `seal` only looks at it, and every
/// other job leaves them as they are.
///
/// A `record` reads its script as any file, with nothing written or changed where that is refused. Then each command's
/// line is on `out`, flushed, before its change is made. With the statuses 0, 12 and 15 the log has its end line, and the
/// tree is the result of its commands: those of all operations, or of those before the one that is refused (15) or would
/// take the log past its limits (12). After 4, 10, 11 and 16 `out` gained the first bytes of that log: its whole lines are
/// those of what was done to the tree, but that the last of them may not be done.
///
/// On a tree that is known, status 0 of `seal` means that the sealed list of its log was printed. Status 0 of `apply`
/// means that the tree is the target of the set, and after each other status it is as before or ready for the same
/// target, with nothing changed outside the set's nodes: so a run that was stopped between any two calls of the tree, and
/// is run again, ends there. After the statuses 2, 3, 5, 6, 8, 9 and 12 of these two the tree is as before. Status 10 or
/// 11 comes only where the tree counted a fault or a denial.
///
/// A `sync` reads and merges its logs as `merge` does, and looks at all its trees before it changes the first one; where
/// one of them is not ready for the transition of its log, none is changed, and the first of these is named by its
/// folder. On trees that are known, the statuses 0 and 4 mean that each tree is its target, and 0 that their work was
/// printed; after each other status each tree is as before or ready for the same target, with nothing changed outside its
/// transition's nodes: so a run that was stopped between any two calls of the trees, and is run again, ends there. Where
/// the trees began as the results of the logs on one tree, they all end as the merger's result on it.
pub fn run<F: Files, O: Sink, E: Sink>(
    alloc: Global,
    words: &[String],
    files: &mut F,
    trees: &mut Vec<Box<dyn Tree>>,
    out: &mut O,
    err: &mut E,
) -> u8
    ensures one { (tree : Store) → IsOne (IsAnswer (map string_bytes words.now) (Some tree)) }
    ensures promises { HasItsTrees (map string_bytes words.now) trees.old.items →
        Promises (map string_bytes words.now)
        (outside (F.files files.old) (map (λ tree. live tree) trees.old.items) (O.sink out.old)
        (E.sink err.old))
        (outside (F.files files.new) (map (λ tree. live tree) trees.new.items) (O.sink out.new)
        (E.sink err.new)) result }
{
    run_words(alloc, words, files, trees, out, err)
}
