//! Operands that follow one another in the words, as a list that borrows the words and copies
//! nothing.

ghost use Rattle.std.specs.Prelude.{◌≡◌, ◌<◌, ◌≤◌, ◌+◌, ◌∷◌, [], IfNone, IfSome, Some, length, take, drop, option_map, slice_get};
ghost use Rattle.tool_words.specs.Words.{texts_of, numbered, places_of, first_place};

use crate::job::Word;
use std::marker::Model;
use std::ops::Range;

/// The operands from one word on to the last of the words that it borrows: each a word, with the
/// place of that word. Where the list ends before the words of the command, it borrows no more.
#[derive(Debug, Drop)]
pub struct FileList<'a> {
    words: &'a [String],
    first: usize,
}

impl<'a> Model for FileList<'a> {
    ghost use Rattle.std.specs.Prelude.{List, ◌≤◌, length, drop};
    ghost use Rattle.tool_words.specs.Words.{Operand, numbered, texts_of};

    ghost Value = { List Operand };

    ghost view = { λ l. drop l.first (numbered 0 (texts_of l.words.now)) };

    ghost invariant = { λ l. l.first ≤ length l.words.now };
}

impl<'a> FileList<'a> {
    /// The operands from the word at place `first` on.
    pub(crate) fn new(words: &'a [String], first: usize) -> FileList<'a>
        requires { first ≤ length words.now }
        ensures { result ≡ drop first (numbered 0 (texts_of words.entry.now)) }
    {
        FileList { words, first }
    }

    /// The first operand, and those that follow it; None where there is none.
    pub(crate) fn split_first(self) -> Option<(Word<'a>, FileList<'a>)>
        ensures some { IfSome result (λ pair. self.entry ≡ pair.0 ∷ pair.1) }
        ensures none { IfNone result (self.entry ≡ []) }
    {
        if self.first == self.words.len() {
            return None;
        }
        let word = Word::new(self.words[self.first].as_str(), self.first);
        Some((word, FileList::new(self.words, self.first + 1)))
    }

    /// The first `at` operands, and those that follow them.
    pub(crate) fn split_at(self, at: usize) -> (FileList<'a>, FileList<'a>)
        requires { at ≤ length self }
        ensures { (result.0 ≡ take at self.entry) × (result.1 ≡ drop at self.entry) }
    {
        let end = self.first + at;
        (
            FileList::new(&self.words[..end], self.first),
            FileList::new(self.words, end),
        )
    }

    /// The places of the operands' words, which follow one another; 0..0 where there is no operand.
    pub(crate) fn places(&self) -> Range<usize>
        ensures start { result.start ≡ first_place (places_of self.now) }
        ensures end { result.end ≡ result.start + length self.now }
    {
        if self.first == self.words.len() {
            0..0
        } else {
            self.first..self.words.len()
        }
    }

    /// How many operands there are.
    pub fn len(&self) -> usize
        ensures { result ≡ length self.now }
    {
        self.words.len() - self.first
    }

    /// The text of an operand, counted from 0; it takes no memory.
    pub fn name(&self, at: usize) -> &str
        requires { at < length self.now }
        ensures { option_map (λ operand. operand.text) (slice_get self.now at)
            ≡ Some result.now }
    {
        self.words[self.first + at].as_str()
    }

    /// The place of an operand's word, from 0, which is the command's. The words of the operands
    /// follow one another.
    pub fn place(&self, at: usize) -> usize
        requires { at < length self.now }
        ensures operand { option_map (λ operand. operand.place) (slice_get self.now at)
            ≡ Some result }
        ensures follows { result ≡ first_place (places_of self.now) + at }
    {
        self.first + at
    }
}
