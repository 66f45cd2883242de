//! The operands of a command, as clap reads them.
//!
//! Each shape of operands is one app of clap, which serves all commands of the shape. Clap gets
//! all the words, and only where those that follow the command's name are plain: not empty, and
//! not beginning with a dash. What it finds is returned with the place of its word.

ghost use Rattle.std.specs.Prelude.{◌≡◌, true, IfOk, IsErrOf, drop, codes, is_some, Some, None};
ghost use Rattle.std.specs.List.{list_all};
ghost use Rattle.clap.specs.Words.{app_of, first_value, found_of, kind_of};
ghost use Rattle.clap.specs.declared.error.kind.ErrorKind.TheVariants.{OutOfMemory};
ghost use Rattle.tool_words.specs.declared.job.WordFault.TheVariants.{Refused};
ghost use Rattle.tool_words.specs.Apps.{one_operand_app, two_operand_app, three_operand_app};
ghost use Rattle.tool_words.specs.Words.{texts_of, is_plain, operands_of, one_operand, two_operands, three_operands, only_of, pair_of, triple_of, both_of, all_three_of};

use crate::job::{Word, WordFault};
use clap::error::ErrorKind;
use clap::{Arg, ArgMatches, Command, Error};
use std::alloc::{AllocError, Global};

/// Whether the word is not empty and does not begin with a dash.
pub(crate) fn is_plain_word(word: &str) -> bool
    ensures { result ≡ is_plain word.now }
{
    match word.as_bytes().first() {
        Some(first) => *first != b'-',
        None => false,
    }
}

/// Whether each of the words is plain.
pub(crate) fn are_plain(words: &[String]) -> bool
    ensures { result ≡ list_all is_plain (texts_of words.now) }
{
    for word in words {
        if !is_plain_word(word.as_str()) {
            return false;
        }
    }
    true
}

/// Whether each word that follows the command's name is plain.
pub(crate) fn are_operands_plain(words: &[String]) -> bool
    ensures { result ≡ list_all is_plain (drop 1 (texts_of words.now)) }
{
    match words.split_first() {
        Some((_, operands)) => are_plain(operands),
        None => true,
    }
}

/// The app of a command `NAME FIRST`.
fn one_operand_command<'a>(alloc: Global, name: &'a str) -> Result<Command<'a>, AllocError>
    ensures { IfOk result (λ command. app_of command ≡ one_operand_app name.entry.now) }
{
    let first = Arg::new(alloc, "first").required(true);
    Command::new(alloc, name).arg(first)
}

/// The app of a command `NAME FIRST SECOND`.
fn two_operands_command<'a>(alloc: Global, name: &'a str) -> Result<Command<'a>, AllocError>
    ensures { IfOk result (λ command. app_of command ≡ two_operand_app name.entry.now) }
{
    let second = Arg::new(alloc, "second").required(true);
    one_operand_command(alloc, name)?.arg(second)
}

/// The app of a command `NAME FIRST SECOND THIRD`.
fn three_operands_command<'a>(alloc: Global, name: &'a str) -> Result<Command<'a>, AllocError>
    ensures { IfOk result (λ command. app_of command ≡ three_operand_app name.entry.now) }
{
    let third = Arg::new(alloc, "third").required(true);
    two_operands_command(alloc, name)?.arg(third)
}

impl From<Error> for WordFault {
    ghost from_gives = { λ error fault. fault ≡ Refused → (kind_of error ≡ OutOfMemory → ⊥) };

    /// Any refusal of clap's refuses the words, unless memory ran out.
    fn from(error: Error) -> WordFault {
        match error.kind() {
            ErrorKind::OutOfMemory => WordFault::Memory,
            _ => WordFault::Refused,
        }
    }
}

/// Clap's matches of the words of a command `NAME FIRST`.
fn one_operand_matches<'a>(
    alloc: Global,
    name: &'a str,
    words: &'a [String],
) -> Result<ArgMatches<'a>, WordFault>
    requires plain { list_all is_plain (drop 1 (texts_of words.now)) ≡ true }
    ensures ok { IfOk result (λ matches. only_of (drop 1 (texts_of words.entry.now))
        ≡ first_value (found_of matches) (codes "first")) }
    ensures one { IfOk result (λ _.
        is_some (only_of (drop 1 (texts_of words.entry.now))) ≡ true) }
    ensures refused { IsErrOf result Refused →
        only_of (drop 1 (texts_of words.entry.now)) ≡ None }
{
    let command = one_operand_command(alloc, name)?;
    let matches = command.try_get_matches_from(words)?;
    Ok(matches)
}

/// Clap's matches of the words of a command `NAME FIRST SECOND`.
fn two_operands_matches<'a>(
    alloc: Global,
    name: &'a str,
    words: &'a [String],
) -> Result<ArgMatches<'a>, WordFault>
    requires plain { list_all is_plain (drop 1 (texts_of words.now)) ≡ true }
    ensures ok { IfOk result (λ matches. let found = found_of matches in
        pair_of (drop 1 (texts_of words.entry.now))
        ≡ both_of (first_value found (codes "first")) (first_value found (codes "second"))) }
    ensures two { IfOk result (λ _.
        is_some (pair_of (drop 1 (texts_of words.entry.now))) ≡ true) }
    ensures refused { IsErrOf result Refused →
        pair_of (drop 1 (texts_of words.entry.now)) ≡ None }
{
    let command = two_operands_command(alloc, name)?;
    let matches = command.try_get_matches_from(words)?;
    Ok(matches)
}

/// Clap's matches of the words of a command `NAME FIRST SECOND THIRD`.
fn three_operands_matches<'a>(
    alloc: Global,
    name: &'a str,
    words: &'a [String],
) -> Result<ArgMatches<'a>, WordFault>
    requires plain { list_all is_plain (drop 1 (texts_of words.now)) ≡ true }
    ensures ok { IfOk result (λ matches. let found = found_of matches in
        triple_of (drop 1 (texts_of words.entry.now))
        ≡ all_three_of (first_value found (codes "first")) (first_value found (codes "second"))
        (first_value found (codes "third"))) }
    ensures three { IfOk result (λ _.
        is_some (triple_of (drop 1 (texts_of words.entry.now))) ≡ true) }
    ensures refused { IsErrOf result Refused →
        triple_of (drop 1 (texts_of words.entry.now)) ≡ None }
{
    let command = three_operands_command(alloc, name)?;
    let matches = command.try_get_matches_from(words)?;
    Ok(matches)
}

/// The operand of a command `NAME FIRST`; Refused where it is not plain, or the words have none or
/// more than one.
#[tactic(auto, using(crate::proofs::Places::not_plain))]
pub(crate) fn one_operand<'a>(
    alloc: Global,
    name: &'a str,
    words: &'a [String],
) -> Result<Word<'a>, WordFault>
    ensures ok { IfOk result (λ first. one_operand (operands_of words.entry.now) ≡ Some first) }
    ensures refused { IsErrOf result Refused →
        one_operand (operands_of words.entry.now) ≡ None }
{
    if !are_operands_plain(words) {
        return Err(WordFault::Refused);
    }
    let matches = one_operand_matches(alloc, name, words)?;
    match matches.get_str("first") {
        Some(first) => Ok(Word::new(first, 1)),
        None => Err(WordFault::Refused),
    }
}

/// The operands of a command `NAME FIRST SECOND`; Refused where one is not plain, or the words
/// have fewer or more.
#[tactic(auto, using(crate::proofs::Places::not_plain))]
pub(crate) fn two_operands<'a>(
    alloc: Global,
    name: &'a str,
    words: &'a [String],
) -> Result<(Word<'a>, Word<'a>), WordFault>
    ensures ok { IfOk result (λ pair.
        two_operands (operands_of words.entry.now) ≡ Some (pair.0, pair.1)) }
    ensures refused { IsErrOf result Refused →
        two_operands (operands_of words.entry.now) ≡ None }
{
    if !are_operands_plain(words) {
        return Err(WordFault::Refused);
    }
    let matches = two_operands_matches(alloc, name, words)?;
    match (matches.get_str("first"), matches.get_str("second")) {
        (Some(first), Some(second)) => Ok((Word::new(first, 1), Word::new(second, 2))),
        _ => Err(WordFault::Refused),
    }
}

/// The operands of a command `NAME FIRST SECOND THIRD`; Refused where one is not plain, or the
/// words have fewer or more.
#[tactic(auto, using(crate::proofs::Places::not_plain))]
pub(crate) fn three_operands<'a>(
    alloc: Global,
    name: &'a str,
    words: &'a [String],
) -> Result<(Word<'a>, Word<'a>, Word<'a>), WordFault>
    ensures ok { IfOk result (λ triple. three_operands (operands_of words.entry.now)
        ≡ Some (triple.0, triple.1, triple.2)) }
    ensures refused { IsErrOf result Refused →
        three_operands (operands_of words.entry.now) ≡ None }
{
    if !are_operands_plain(words) {
        return Err(WordFault::Refused);
    }
    let matches = three_operands_matches(alloc, name, words)?;
    match (
        matches.get_str("first"),
        matches.get_str("second"),
        matches.get_str("third"),
    ) {
        (Some(first), Some(second), Some(third)) => Ok((
            Word::new(first, 1),
            Word::new(second, 2),
            Word::new(third, 3),
        )),
        _ => Err(WordFault::Refused),
    }
}
