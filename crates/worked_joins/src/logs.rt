//! Logs that are written as lines: their sums, and their joint.

use canon_set::LogSum;
use refluent::{Joint, MAX_LOGS, join};
use std::alloc::Global;
use std::test::Fail;
use worked_texts::lines::{Line, command};

/// The sum of a log.
pub fn sum(alloc: Global, lines: &[Line]) -> Result<LogSum, Fail> {
    let mut sum = LogSum::new(alloc);
    for line in lines {
        sum.add(command(alloc, line)?)?;
    }
    Ok(sum)
}

/// The sums of logs.
pub fn sums(alloc: Global, logs: &[&[Line]]) -> Result<Vec<LogSum>, Fail> {
    let mut sums = Vec::new(alloc);
    for lines in logs {
        sums.push(sum(alloc, lines)?)?;
    }
    Ok(sums)
}

/// The joint of logs that some tree takes together.
pub fn joined(alloc: Global, logs: &[&[Line]]) -> Result<Joint, Fail> {
    let sums = sums(alloc, logs)?;
    if sums.len() > MAX_LOGS {
        return Err("too many logs".into());
    }
    Ok(join(alloc, sums)?)
}
