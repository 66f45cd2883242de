//! The words of a round: K folders, and then the K logs that were recorded in them.
//!
//! How many trees a job wants is asked before there is memory, so these words are read without
//! any.

ghost use Rattle.std.specs.Prelude.{◌≡◌, ◌<◌, ◌≤◌, true, length, drop, is_some, Some};
ghost use Rattle.tool_words.specs.Words.{texts_of, numbered, operands_of};
ghost use Rattle.tool_words.specs.Logs.{parts_of};
ghost use Rattle.tool_words.specs.Rounds.{are_different, is_other, round_of, prefs_round};

use crate::file_list::FileList;
use crate::job::Word;
use crate::logs::have_operand_parts;
use crate::numbers::read_number;
use crate::operand_words::file_in_word;

/// The most folders of a round.
const MAX_FOLDERS: u32 = 64;

/// The file of the option, where it is there, and the place of the first operand's word.
fn option_before<'a>(words: &'a [String]) -> (Option<Word<'a>>, usize)
    requires { is_some (parts_of (operands_of words.now)) ≡ true }
    ensures parts { parts_of (operands_of words.entry.now)
        ≡ Some (result.0, drop result.1 (numbered 0 (texts_of words.entry.now))) }
    ensures within { result.1 ≤ length words.entry.now }
{
    if words.len() < 2 {
        return (None, words.len());
    }
    let word = words[1].as_str();
    if word == "--prefs" {
        return (Some(Word::new(words[2].as_str(), 2)), 3);
    }
    match file_in_word(word) {
        Some(file) => (Some(Word::new(file, 1)), 2),
        None => (None, 1),
    }
}

/// The file of the option, where it is there, and the operands that follow it; None where one of
/// the words is not plain.
fn parts<'a>(words: &'a [String]) -> Option<(Option<Word<'a>>, FileList<'a>)>
    ensures { result ≡ parts_of (operands_of words.entry.now) }
{
    if !have_operand_parts(words) {
        return None;
    }
    let (prefs, first) = option_before(words);
    Some((prefs, FileList::new(words, first)))
}

/// Whether none of the operands from one on has this text.
#[tactic(auto, using(crate::proofs::FoldersAndLogs::other_end))]
fn is_other(text: &str, operands: &FileList, first: usize) -> bool
    ensures { result ≡ is_other text.now (drop first operands.now) }
{
    for at in first..operands.len() {
        if operands.name(at) == text {
            return false;
        }
    }
    true
}

/// Whether no two of the operands have the same text. Each is compared with each that follows it.
#[tactic(auto, using(crate::proofs::FoldersAndLogs::different_end))]
fn are_different(operands: &FileList) -> bool
    ensures { result ≡ are_different operands.now }
{
    for at in 0..operands.len() {
        if !is_other(operands.name(at), operands, at + 1) {
            return false;
        }
    }
    true
}

/// The folders and the logs of the operands `K FOLDER... LOG...`; None where the first is no number
/// from 1 to 64, or not that many folders and as many logs follow it, or two folders are the same.
fn read_round<'a>(operands: FileList<'a>) -> Option<(FileList<'a>, FileList<'a>)>
    ensures { result ≡ round_of operands.entry }
{
    let (number, operands) = operands.split_first()?;
    let count = read_number(number.as_str(), 1, MAX_FOLDERS)? as usize;
    if operands.len() != count + count {
        return None;
    }
    let (folders, logs) = operands.split_at(count);
    if !are_different(&folders) {
        return None;
    }
    Some((folders, logs))
}

/// The file of the option, where it is there, the folders and the logs of a command
/// `NAME [--prefs FILE] K FOLDER... LOG...`; None where its words are not so. It takes no memory.
pub(crate) fn prefs_round<'a>(
    words: &'a [String],
) -> Option<(Option<Word<'a>>, FileList<'a>, FileList<'a>)>
    ensures { result ≡ prefs_round (operands_of words.entry.now) }
{
    let (prefs, operands) = parts(words)?;
    let (folders, logs) = read_round(operands)?;
    Some((prefs, folders, logs))
}
