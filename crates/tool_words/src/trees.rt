//! The words that name folders.

ghost use Rattle.std.specs.Prelude.{◌≡◌, ◌+◌, length};
ghost use Rattle.tool_words.specs.Words.{texts_of, first_place};
ghost use Rattle.tool_words.specs.Trees.{folder_places, has_folder, is_round, round_folders, takes_folder};
ghost use Rattle.tool_words.specs.Commands.{commands, verb_in};

use crate::commands::{Verb, verb_of};
use crate::file_list::FileList;
use crate::operands::are_plain;
use crate::rounds::prefs_round;
use std::ops::Range;

/// Whether the first operand of the command of this name names a folder.
fn is_folder_command(name: &str) -> bool
    ensures { result ≡ takes_folder (verb_in commands name.now) }
{
    match verb_of(name) {
        Some(Verb::Record | Verb::Seal | Verb::Apply) => true,
        _ => false,
    }
}

/// Whether the words are a command that takes a folder, and two plain operands.
#[tactic(auto, using(crate::proofs::Folders::texts_length))]
fn has_folder(words: &[String]) -> bool
    ensures { result ≡ has_folder (texts_of words.now) }
{
    match words.split_first() {
        Some((name, operands)) => {
            operands.len() == 2 && is_folder_command(name.as_str()) && are_plain(operands)
        }
        None => false,
    }
}

/// Whether the command of this name takes folders, and then their logs.
fn is_round_command(name: &str) -> bool
    ensures { result ≡ is_round (verb_in commands name.now) }
{
    match verb_of(name) {
        Some(Verb::Sync) => true,
        _ => false,
    }
}

/// The folders of a command that takes them and their logs; None where the words are not so.
fn round_folders<'a>(words: &'a [String]) -> Option<FileList<'a>>
    ensures { result ≡ round_folders (texts_of words.entry.now) }
{
    let (name, _) = words.split_first()?;
    if !is_round_command(name.as_str()) {
        return None;
    }
    let (_, folders, _) = prefs_round(words)?;
    Some(folders)
}

/// The places of the words that name folders, which follow one another.
#[tactic(auto, using(crate::proofs::Folders::folder_here, crate::proofs::Folders::no_folder_here, crate::proofs::Folders::round_start, crate::proofs::Folders::round_count))]
fn folder_words(words: &[String]) -> Range<usize>
    ensures start { result.start ≡ first_place (folder_places (texts_of words.now)) }
    ensures end { result.end ≡ result.start + length (folder_places (texts_of words.now)) }
{
    match round_folders(words) {
        Some(folders) => folders.places(),
        None if has_folder(words) => 1..2,
        None => 0..0,
    }
}

/// How many trees the job of the words works on, one for each word that names a folder; 0 where
/// the words are refused. It takes no memory.
pub fn trees_wanted(words: &[String]) -> usize
    ensures { result ≡ length (folder_places (texts_of words.now)) }
{
    let folders = folder_words(words);
    folders.end - folders.start
}

/// The place, from 0, of the first word that names a folder; 0 where no tree is wanted. It takes
/// no memory.
pub fn first_tree_word(words: &[String]) -> usize
    ensures { result ≡ first_place (folder_places (texts_of words.now)) }
{
    folder_words(words).start
}
