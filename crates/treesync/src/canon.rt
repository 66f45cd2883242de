//! The command `canon LOG`.

ghost use Rattle.std.specs.Prelude.{◌∷◌, [], ℕ, List};
ghost use Rattle.treesync.specs.Checks.{Answers, HasItems, IsJudged};
ghost use Rattle.treesync.specs.Canon.{IsCanon, IsNet};
ghost use Rattle.treesync.specs.Logs.{IsLogFile, IsTotal, ReadLog};

use crate::input::FILE_LIMIT;
use crate::logs::{FULL_ALLOWANCE, LogFile, Total, read_sum};
use crate::{Finding, Refusal};
use log_text::print_log;
use std::alloc::Global;
use sync_port::Files;

/// The text of the log's net set. The word at the place `word` names the log.
fn net_text(alloc: Global, word: usize, log: LogFile<Total>) -> Result<Vec<u8>, Refusal>
    requires { (read : ReadLog) × IsLogFile IsTotal log read }
    ensures { (read : ReadLog) → IsLogFile IsTotal log read →
        IsJudged HasItems (IsNet word read) result }
{
    let set = match log.commands.broken {
        Some(number) => return Err(Refusal::Found(Finding::NoTree { word, number })),
        None => log.commands.sum.into_net()?,
    };
    let mut text = Vec::new(alloc);
    print_log(&mut text, log.version, set.commands())?;
    Ok(text)
}

/// The net set of the log in the file `name`, which the word at the place `word` names, as a log's text.
#[tactic(auto, using(crate::proofs::CheckLemmas::then_judged, crate::proofs::CheckLemmas::then_handed_on))]
pub fn canon<F: Files>(
    alloc: Global,
    word: usize,
    name: &str,
    files: &mut F,
) -> Result<Vec<u8>, Refusal>
    ensures { Answers HasItems (IsCanon word name.now) ((name.now, FILE_LIMIT) ∷ [])
        (F.files files.old) (F.files files.new) result }
{
    let log = read_sum(alloc, word, name, FULL_ALLOWANCE, files)?;
    net_text(alloc, word, log)
}
