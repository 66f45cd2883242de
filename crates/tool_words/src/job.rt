//! An operand, a job made of operands, and why there is no job.

ghost use Rattle.std.specs.Prelude.{◌≡◌};
ghost use Rattle.tool_words.specs.declared.job.WordFault.TheVariants.{Memory};

use crate::file_list::FileList;
use std::alloc::AllocError;
use std::marker::Model;
use sync_path::NoMemory;
use thiserror::Error;

/// An operand of a command: a text in one of the words, and the place of that word. It borrows the
/// text from the words.
#[derive(Debug, Drop)]
pub struct Word<'a> {
    text: &'a str,
    place: usize,
}

impl<'a> Model for Word<'a> {
    ghost use Rattle.tool_words.specs.Words.{Operand};

    ghost Value = { Operand };

    ghost view = { λ w. record { text = w.text.now; place = w.place } };
}

impl<'a> Word<'a> {
    /// The operand of this text in the word at this place.
    pub(crate) fn new(text: &'a str, place: usize) -> Word<'a>
        ensures { result ≡ record { text = text.entry.now; place = place } }
    {
        Word { text, place }
    }

    /// The operand's text.
    pub fn as_str(&self) -> &str
        ensures { result.now ≡ self.now.text }
    {
        self.text
    }

    /// The place of the operand's word, from 0, which is the command's.
    pub fn place(&self) -> usize
        ensures { result ≡ self.now.place }
    {
        self.place
    }
}

/// Which of its two transitions a rebase prints.
#[derive(Clone, Copy, Debug, PartialEq, Eq)]
pub enum Side {
    /// That of the recorded work, for the live tree.
    Tree,
    /// That of the sets, which is handed in as a log of the next round.
    Next,
}

/// What the words ask for: a command with the operands that it names, in the order of the words.
#[derive(Debug, Drop)]
pub enum Job<'a> {
    /// Print the help.
    Help,
    /// Print the snapshot in the file `snap` as it is after the log in the file `log`.
    Replay {
        snap: Word<'a>,
        log: Word<'a>,
    },
    /// Print the net set of the log in the file `log`.
    Canon {
        log: Word<'a>,
    },
    /// Print the clashes of the logs, and how many there are.
    Conflicts {
        logs: FileList<'a>,
    },
    /// Print the first merger of the logs, under the rules of the file `prefs` or under none.
    Merge {
        prefs: Option<Word<'a>>,
        logs: FileList<'a>,
    },
    /// Print the commands that lead from the result of log `number`, from 1, to that of the first
    /// merger of the logs, under the rules of the file `prefs` or under none.
    Transition {
        number: u32,
        prefs: Option<Word<'a>>,
        logs: FileList<'a>,
    },
    /// Print the rules under which the net set of the log in the file `set` is the first merger of
    /// the logs.
    Steer {
        set: Word<'a>,
        logs: FileList<'a>,
    },
    /// Carry out the script in the file `script` on the tree in `folder`, and print the log of
    /// what that changes, each line before its change.
    Record {
        folder: Word<'a>,
        script: Word<'a>,
    },
    /// Print the log that a stopped recording left in the file `log`, as far as the tree in
    /// `folder` has it.
    Seal {
        folder: Word<'a>,
        log: Word<'a>,
    },
    /// Lead the tree in `folder` to where the net set of the log in the file `set` leads it, and
    /// print how many calls changed it.
    Apply {
        folder: Word<'a>,
        set: Word<'a>,
    },
    /// Print the summary of `logs` logs, 1 to 64, that are made from the number `seed`, 0 to
    /// 2147483647, in `steps` steps each, 0 to 16384.
    Drill {
        seed: u32,
        logs: u32,
        steps: u32,
    },
    /// Lead the tree in each of the folders to the first merger of the logs, under the rules of the
    /// file `prefs` or under none, and print how many calls changed them. There are 1 to 64
    /// folders, no two of the same text, and as many logs, each recorded in the folder that stands
    /// at its place among them.
    Sync {
        prefs: Option<Word<'a>>,
        folders: FileList<'a>,
        logs: FileList<'a>,
    },
    /// Print why each command that the first merger of the logs leaves out cannot be kept beside
    /// it, under the rules of the file `prefs` or under none.
    Explain {
        prefs: Option<Word<'a>>,
        logs: FileList<'a>,
    },
    /// Print what leads back from the net set of the log in the file `set`.
    Undo {
        set: Word<'a>,
    },
    /// Print one set that does what the sets do one after another.
    Catchup {
        sets: FileList<'a>,
    },
    /// Join what was recorded in the file `work` with what the sets do one after another, and print
    /// what leads from one side to the merger, under the rules of the file `prefs` or under none.
    Rebase {
        side: Side,
        prefs: Option<Word<'a>>,
        work: Word<'a>,
        sets: FileList<'a>,
    },
}

/// Why there is no job.
#[derive(Debug, Drop, Error)]
pub enum WordFault {
    /// The arguments are invalid.
    #[error("words refused")]
    Refused,
    /// Memory ran out.
    #[error("out of memory")]
    Memory,
}

impl From<NoMemory> for WordFault {
    ghost from_gives = { λ _ fault. fault ≡ Memory };

    fn from(_e: NoMemory) -> WordFault {
        WordFault::Memory
    }
}

impl From<AllocError> for WordFault {
    ghost from_gives = { λ _ fault. fault ≡ Memory };

    fn from(_e: AllocError) -> WordFault {
        WordFault::Memory
    }
}
