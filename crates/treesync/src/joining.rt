//! The logs of a job: read one after another within joint limits, and joined.

ghost use Rattle.std.specs.Prelude.{◌≡◌, ◌≤◌, ◌-◌, ◌++◌, ◌∷◌, [], ℕ, List, length, IfOk, OnOk};
ghost use Rattle.refluent.specs.declared.joint.TheConstants.{MAX_LOGS};
ghost use Rattle.treesync.specs.Checks.{Answers, IsJudged};
ghost use Rattle.treesync.specs.Joining.{AllTaken, AreJoined, AreLogFiles, AreSumsOf, EachStands, EachTaken, IsJoined, IsJointOf, IsLogs, joint_version, log_limits};
ghost use Rattle.treesync.specs.Logs.{IsLogFile, IsTotal, ReadLog};

use crate::input::FILE_LIMIT;
use crate::logs::{Allowance, LogFile, Total, later_version, read_sum};
use crate::{Finding, Refusal};
use canon_set::LogSum;
use refluent::{JoinFault, Joint, join};
use std::alloc::Global;
use sync_command::Version;
use sync_path::NoMemory;
use sync_port::Files;
use tool_words::FileList;

/// Logs that some tree takes together: the version of what is printed of them, and their joint.
#[derive(Drop)]
pub struct JoinedLogs {
    pub version: Version,
    pub joint: Joint,
}

/// What is left after a log.
pub fn left_after<T>(left: Allowance, log: &LogFile<T>) -> Allowance
    ensures { result ≡ record {
      bytes = left.bytes - log.now.size;
      commands = left.commands - log.now.count;
    } }
{
    Allowance {
        bytes: left.bytes.saturating_sub(log.size),
        commands: left.commands.saturating_sub(log.count),
    }
}

/// Appends a log.
fn push_log(logs: &mut Vec<LogFile<Total>>, log: LogFile<Total>) -> Result<(), NoMemory>
    ensures { OnOk result (logs.new.items ≡ logs.old.items ++ log ∷ []) }
{
    logs.push(log)?;
    Ok(())
}

/// Reads the logs in the files of these names one after another, each into the sum of its commands. All of them together
/// are within the allowance.
pub fn read_logs<F: Files>(
    alloc: Global,
    allowance: Allowance,
    names: &FileList<'_>,
    files: &mut F,
) -> Result<Vec<LogFile<Total>>, Refusal>
    requires { allowance.bytes ≤ FILE_LIMIT }
    ensures answer { Answers AreLogFiles (IsLogs allowance names.now) (log_limits names.now)
        (F.files files.old) (F.files files.new) result }
    ensures many { IfOk result (λ logs. length logs.items ≡ length names.now) }
{
    let mut logs = Vec::new(alloc);
    let mut left = allowance;
    'names: for at in 0..names.len() {
        let log = read_sum(alloc, names.place(at), names.name(at), left, files)?;
        left = left_after(left, &log);
        push_log(&mut logs, log)?;
    }
    Ok(logs)
}

/// The version of what is printed of logs: 2 wherever one of them is.
pub fn joint_version(logs: &[LogFile<Total>]) -> Version
    ensures { (reads : List ReadLog) → EachStands (IsLogFile IsTotal) logs.now reads →
        result ≡ joint_version reads }
{
    let mut version = Version::One;
    'logs: for log in logs {
        version = later_version(version, log.version);
    }
    version
}

/// The sums of logs, or the first log that no tree takes.
pub fn sums_of(
    alloc: Global,
    names: &FileList<'_>,
    logs: Vec<LogFile<Total>>,
) -> Result<Vec<LogSum>, Refusal>
    requires { length logs.items ≡ length names.now }
    ensures sums { (reads : List ReadLog) → AreLogFiles logs reads →
        IsJudged AreSumsOf (EachTaken names.now reads) result }
    ensures many { IfOk result (λ sums. length sums.items ≡ length logs.items) }
{
    let mut sums = Vec::new(alloc);
    'logs: for (at, log) in logs.into_iter().enumerate() {
        match log.commands.broken {
            Some(number) => {
                return Err(Refusal::Found(Finding::NoTree {
                    word: names.place(at),
                    number,
                }));
            }
            None => push_sum(&mut sums, log.commands.sum)?,
        }
    }
    Ok(sums)
}

/// Appends a sum.
pub fn push_sum(sums: &mut Vec<LogSum>, sum: LogSum) -> Result<(), NoMemory>
    ensures { OnOk result (sums.new.items ≡ sums.old.items ++ sum ∷ []) }
{
    sums.push(sum)?;
    Ok(())
}

/// The joint of logs by their sums, or their first disagreement.
pub fn joint_of(alloc: Global, sums: Vec<LogSum>) -> Result<Joint, Refusal>
    requires { length sums.items ≤ MAX_LOGS }
    ensures { (reads : List ReadLog) → AreSumsOf sums reads →
        IsJudged IsJointOf (AllTaken reads) result }
{
    match join(alloc, sums) {
        Ok(joint) => Ok(joint),
        Err(
            JoinFault::NoCommonTree {
                first,
                second,
                path,
            },
        ) => Err(Refusal::Found(Finding::NoCommonTree {
            first,
            second,
            path,
        })),
        Err(JoinFault::Memory) => Err(Refusal::OutOfMemory),
    }
}

/// Joins the logs in the files of these names: refused with the first log that no tree takes, or with their first
/// disagreement where no tree takes all.
pub fn join_logs(
    alloc: Global,
    names: &FileList<'_>,
    logs: Vec<LogFile<Total>>,
) -> Result<JoinedLogs, Refusal>
    requires many { length logs.items ≡ length names.now }
    requires few { length names.now ≤ MAX_LOGS }
    ensures { (reads : List ReadLog) → AreLogFiles logs reads →
        IsJudged AreJoined (IsJoined names.now reads) result }
{
    let version = joint_version(&logs);
    let sums = sums_of(alloc, names, logs)?;
    let joint = joint_of(alloc, sums)?;
    Ok(JoinedLogs { version, joint })
}
