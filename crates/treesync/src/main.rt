//! The program `treesync`: it gathers the words, makes the adapters over the system, and calls `run`.
#![tactic(auto)]

mod answer;
mod apply;
mod canon;
mod catchup;
mod conflicts;
mod drill;
mod explain;
mod input;
mod joining;
mod logs;
mod merge;
mod merging;
mod preferences;
mod reason_lines;
mod rebase;
mod record;
mod refusal;
mod replay;
mod report;
mod run;
mod seal;
mod steer;
mod sync;
mod transitions;
mod undo;
mod writing;

pub use self::answer::Answer;
pub use self::refusal::{Failure, Finding, Refusal};
use self::report::report;
pub use self::run::run;
use std::io::{ErrorKind, Write};
use std::process::ExitCode;
use std::{env, io};
use sync_path::NoMemory;
use sync_port::{HostFiles, HostSink, Sink};
use tool_words::{first_tree_word, operand_text, trees_wanted};
use tree_port::{HostTree, Tree};

fn main(rt: HostRuntime) -> ExitCode {
    let alloc = rt.alloc();
    let mut out = HostSink::new(rt.stdout());
    let mut err = HostSink::new(rt.stderr());
    let status = match run_here(&rt, &mut out, &mut err) {
        Ok(status) => status,
        Err(error) => report(alloc, &[], Err(refusal_of(&error)), &mut out, &mut err),
    };
    ExitCode::from(status)
}

/// Runs the words of the command line over the files of the system and the trees below the folders that they name. A
/// refusal is one of gathering them; nothing is written then.
fn run_here<O: Sink, E: Sink>(rt: &HostRuntime, out: &mut O, err: &mut E) -> io::Result<u8> {
    let alloc = rt.alloc();
    let words = words_of(rt)?;
    let first = first_tree_word(&words);
    let mut trees: Vec<Box<dyn Tree>> = Vec::new(alloc);
    for at in 0..trees_wanted(&words) {
        let folder = operand_text(&words, first.saturating_add(at));
        trees.push(Box::new(alloc, tree_of(rt, folder)?)?)?;
    }
    let mut files = HostFiles::new(rt.clone()?, alloc);
    Ok(run(alloc, &words, &mut files, &mut trees, out, err))
}

/// The words of the command line, without the program's name.
fn words_of(rt: &HostRuntime) -> io::Result<Vec<String>> {
    let mut words: Vec<String> = Vec::new(rt.alloc());
    for word in env::args(rt)?.skip(1) {
        words.push(word)?;
    }
    Ok(words)
}

/// The tree below a folder.
fn tree_of(rt: &HostRuntime, folder: &str) -> io::Result<HostTree<HostRuntime>> {
    match HostTree::new(rt.clone()?, rt.alloc(), folder) {
        Ok(tree) => Ok(tree),
        Err(NoMemory) => Err(io::Error::from(ErrorKind::OutOfMemory)),
    }
}

/// Why the words could not be gathered: memory ran out, or a word is not UTF-8.
fn refusal_of(error: &io::Error) -> Refusal {
    match error.kind() {
        ErrorKind::OutOfMemory => Refusal::OutOfMemory,
        _ => Refusal::InvalidArguments,
    }
}
