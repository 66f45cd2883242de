//! The words of a command line: the job that they ask for, and the fixed texts of the program.
//!
//! `specs/Commands.antt` lists the commands that are built, `specs/Jobs.antt` says which words are
//! which job, and `specs/Trees.antt` which of them name folders; `docs/FORMATS.md` says both in
//! words, and lists the texts.
#![tactic(auto)]

mod commands;
mod file_list;
mod job;
pub mod laws;
mod logs;
mod numbers;
mod operand_words;
mod operands;
mod read;
mod rounds;
pub mod texts;
mod trees;

pub use self::commands::help;
pub use self::file_list::FileList;
pub use self::job::{Job, Side, Word, WordFault};
pub use self::operand_words::operand_text;
pub use self::read::read_words;
pub use self::trees::{first_tree_word, trees_wanted};
