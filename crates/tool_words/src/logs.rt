//! The commands that take logs: the operands as clap reads them, and the option before them.
//!
//! Each shape is one app of clap, which has the option `--prefs FILE`. A command that has no such
//! option gives clap plain words alone. The logs are the last words, so their count gives the
//! place of each operand, and of the file of the option.

ghost use Rattle.std.specs.Prelude.{◌≡◌, true, ◌≤◌, ◌-◌, IfOk, IsErrOf, codes, is_some, option_map, Some, None, ◌&&◌};
ghost use Rattle.std.specs.List.{list_all};
ghost use Rattle.clap.specs.Words.{app_of, first_value, found_of, matched_of, raw_values};
ghost use Rattle.tool_words.specs.declared.job.WordFault.TheVariants.{Refused};
ghost use Rattle.tool_words.specs.Apps.{logs_app, first_logs_app, prefs_app};
ghost use Rattle.tool_words.specs.Words.{texts_of, is_plain, numbered, operand_at, operands_of};
ghost use Rattle.tool_words.specs.Logs.{is_log_count, parts_of, part_texts, file_and_texts, file_first_and_texts, only_logs, first_logs, prefs_logs, prefs_first_logs};

use crate::file_list::FileList;
use crate::job::{Word, WordFault};
use crate::operand_words::file_in_word;
use crate::operands::{are_operands_plain, are_plain, is_plain_word};
use clap::{Arg, ArgAction, ArgMatches, Command};
use std::alloc::{AllocError, Global};

/// The most logs that a command takes.
const MAX_LOGS: usize = 64;

/// Whether a command takes so many logs.
fn is_number_of_logs(count: usize) -> bool
    ensures { result ≡ is_log_count count }
{
    1 <= count && count <= MAX_LOGS
}

/// Whether a file and the operands after it are plain.
fn are_file_and_operands(file: &str, operands: &[String]) -> bool
    ensures { result ≡ (is_plain file.now && list_all is_plain (texts_of operands.now)) }
{
    is_plain_word(file) && are_plain(operands)
}

/// Whether the words after a command's name have the option in its place or not at all, and each
/// other word is plain.
#[tactic(auto, using(crate::proofs::PrefsOption::parts_by_word, crate::proofs::PrefsOption::parts_without, crate::proofs::PrefsOption::parts_by_equals, crate::proofs::PrefsOption::parts_plain))]
fn have_parts(words: &[String]) -> bool
    ensures { result ≡ is_some (parts_of (numbered 1 (texts_of words.now))) }
{
    let Some((first, rest)) = words.split_first() else {
        return true;
    };
    let word = first.as_str();
    if word == "--prefs" {
        match rest.split_first() {
            Some((file, operands)) => are_file_and_operands(file.as_str(), operands),
            None => false,
        }
    } else {
        match file_in_word(word) {
            Some(file) => are_file_and_operands(file, rest),
            None => are_plain(words),
        }
    }
}

/// The app of a command `NAME [--prefs FILE]`.
fn prefs_command<'a>(alloc: Global, name: &'a str) -> Result<Command<'a>, AllocError>
    ensures { IfOk result (λ command. app_of command ≡ prefs_app name.entry.now) }
{
    let prefs = Arg::new(alloc, "prefs").long("prefs");
    Command::new(alloc, name).arg(prefs)
}

/// The app of a command `NAME [--prefs FILE] LOG...`.
fn logs_command<'a>(alloc: Global, name: &'a str) -> Result<Command<'a>, AllocError>
    ensures { IfOk result (λ command. app_of command ≡ logs_app name.entry.now) }
{
    let logs = Arg::new(alloc, "logs")
        .required(true)
        .action(ArgAction::Append);
    prefs_command(alloc, name)?.arg(logs)
}

/// The app of a command `NAME [--prefs FILE] FIRST LOG...`.
fn first_and_logs_command<'a>(alloc: Global, name: &'a str) -> Result<Command<'a>, AllocError>
    ensures { IfOk result (λ command. app_of command ≡ first_logs_app name.entry.now) }
{
    let first = Arg::new(alloc, "first").required(true);
    let logs = Arg::new(alloc, "logs")
        .required(true)
        .action(ArgAction::Append);
    prefs_command(alloc, name)?.arg(first)?.arg(logs)
}

/// Clap's matches of the words of a command `NAME [--prefs FILE] LOG...`.
fn logs_matches<'a>(
    alloc: Global,
    name: &'a str,
    words: &'a [String],
) -> Result<ArgMatches<'a>, WordFault>
    requires parts { is_some (parts_of (operands_of words.now)) ≡ true }
    ensures ok { IfOk result (λ matches. let found = found_of matches in
        option_map part_texts (parts_of (operands_of words.entry.now)) ≡
        file_and_texts (first_value found (codes "prefs"))
        (option_map raw_values (matched_of found (codes "logs")))) }
    ensures refused { IsErrOf result Refused → prefs_logs (operands_of words.entry.now) ≡ None }
{
    let command = logs_command(alloc, name)?;
    let matches = command.try_get_matches_from(words)?;
    Ok(matches)
}

/// Clap's matches of the words of a command `NAME [--prefs FILE] FIRST LOG...`.
fn first_and_logs_matches<'a>(
    alloc: Global,
    name: &'a str,
    words: &'a [String],
) -> Result<ArgMatches<'a>, WordFault>
    requires parts { is_some (parts_of (operands_of words.now)) ≡ true }
    ensures ok { IfOk result (λ matches. let found = found_of matches in
        option_map part_texts (parts_of (operands_of words.entry.now)) ≡
        file_first_and_texts (first_value found (codes "prefs"))
        (first_value found (codes "first"))
        (option_map raw_values (matched_of found (codes "logs")))) }
    ensures refused { IsErrOf result Refused →
        prefs_first_logs (operands_of words.entry.now) ≡ None }
{
    let command = first_and_logs_command(alloc, name)?;
    let matches = command.try_get_matches_from(words)?;
    Ok(matches)
}

/// Whether the words of a command have the option in its place or not at all, and each other word
/// that follows the command's name is plain.
pub(crate) fn have_operand_parts(words: &[String]) -> bool
    ensures { result ≡ is_some (parts_of (operands_of words.now)) }
{
    match words.split_first() {
        Some((_, operands)) => have_parts(operands),
        None => true,
    }
}

/// The file of the option as an operand, whose word is the one before the operands.
fn file_before<'a>(file: Option<&'a str>, first: usize) -> Option<Word<'a>>
    requires { is_some file ≡ true → 1 ≤ first }
    ensures { result ≡ option_map (operand_at (first - 1))
        (option_map (λ text. text.now) file.entry) }
{
    match file {
        Some(text) => Some(Word::new(text, first - 1)),
        None => None,
    }
}

/// The file of the option, where it is there, and the logs of a command
/// `NAME [--prefs FILE] LOG...`; Refused where a word is not plain, or there are no logs or more
/// than 64.
pub(crate) fn prefs_and_logs<'a>(
    alloc: Global,
    name: &'a str,
    words: &'a [String],
) -> Result<(Option<Word<'a>>, FileList<'a>), WordFault>
    ensures ok { IfOk result (λ found.
        prefs_logs (operands_of words.entry.now) ≡ Some (found.0, found.1)) }
    ensures refused { IsErrOf result Refused → prefs_logs (operands_of words.entry.now) ≡ None }
{
    if !have_operand_parts(words) {
        return Err(WordFault::Refused);
    }
    let matches = logs_matches(alloc, name, words)?;
    let file = matches.get_str("prefs");
    let Some(logs) = matches.get_strs("logs") else {
        return Err(WordFault::Refused);
    };
    if !is_number_of_logs(logs.len()) {
        return Err(WordFault::Refused);
    }
    let first = words.len() - logs.len();
    let prefs = file_before(file, first);
    Ok((prefs, FileList::new(words, first)))
}

/// The file of the option, where it is there, the first operand and the logs of a command
/// `NAME [--prefs FILE] FIRST LOG...`; Refused where a word is not plain, or there are no logs or
/// more than 64.
pub(crate) fn prefs_first_and_logs<'a>(
    alloc: Global,
    name: &'a str,
    words: &'a [String],
) -> Result<(Option<Word<'a>>, Word<'a>, FileList<'a>), WordFault>
    ensures ok { IfOk result (λ found.
        prefs_first_logs (operands_of words.entry.now) ≡ Some (found.0, found.1, found.2)) }
    ensures refused { IsErrOf result Refused →
        prefs_first_logs (operands_of words.entry.now) ≡ None }
{
    if !have_operand_parts(words) {
        return Err(WordFault::Refused);
    }
    let matches = first_and_logs_matches(alloc, name, words)?;
    let file = matches.get_str("prefs");
    let (Some(text), Some(logs)) = (matches.get_str("first"), matches.get_strs("logs")) else {
        return Err(WordFault::Refused);
    };
    if !is_number_of_logs(logs.len()) {
        return Err(WordFault::Refused);
    }
    let first = words.len() - logs.len() - 1;
    let prefs = file_before(file, first);
    Ok((
        prefs,
        Word::new(text, first),
        FileList::new(words, first + 1),
    ))
}

/// The logs of a command `NAME LOG...`; Refused where a word is not plain, or there are no logs or
/// more than 64.
#[tactic(auto, using(crate::proofs::Places::not_plain, crate::proofs::LogPlaces::plain_logs))]
pub(crate) fn only_logs<'a>(
    alloc: Global,
    name: &'a str,
    words: &'a [String],
) -> Result<FileList<'a>, WordFault>
    ensures ok { IfOk result (λ logs. only_logs (operands_of words.entry.now) ≡ Some logs) }
    ensures refused { IsErrOf result Refused → only_logs (operands_of words.entry.now) ≡ None }
{
    if !are_operands_plain(words) {
        return Err(WordFault::Refused);
    }
    let (_, logs) = prefs_and_logs(alloc, name, words)?;
    Ok(logs)
}

/// The first operand and the logs of a command `NAME FIRST LOG...`; Refused where a word is not
/// plain, or there are no logs or more than 64.
#[tactic(auto, using(crate::proofs::Places::not_plain, crate::proofs::LogPlaces::plain_first_logs))]
pub(crate) fn first_and_logs<'a>(
    alloc: Global,
    name: &'a str,
    words: &'a [String],
) -> Result<(Word<'a>, FileList<'a>), WordFault>
    ensures ok { IfOk result (λ found.
        first_logs (operands_of words.entry.now) ≡ Some (found.0, found.1)) }
    ensures refused { IsErrOf result Refused → first_logs (operands_of words.entry.now) ≡ None }
{
    if !are_operands_plain(words) {
        return Err(WordFault::Refused);
    }
    let (_, first, logs) = prefs_first_and_logs(alloc, name, words)?;
    Ok((first, logs))
}
