//! Logs, read piece by piece: neither the bytes of a log nor, where its sum is wanted, its commands are kept.

ghost use Rattle.std.specs.Prelude.{◌≡◌, ◌≤◌, ◌++◌, ◌∷◌, ℕ, List, [], length, OnOk};
ghost use Rattle.sync_path.specs.Paths.{parts};
ghost use Rattle.sync_command.specs.Changes.{Change};
ghost use Rattle.log_text.specs.Logs.{log_of};
ghost use Rattle.treesync.specs.Checks.{Answers, IsJudged};
ghost use Rattle.treesync.specs.Logs.{HoldsLog, IsFed, IsLog, IsLogFile, IsTotal, later_version, log_answer};

use crate::input::{FILE_LIMIT, call_refusal, text_refusal};
use crate::{Finding, Refusal};
use canon_set::{AddFault, LogSum};
use log_text::{LogFault, LogReader};
use std::alloc::Global;
use sync_command::{Command, Version};
use sync_path::NoMemory;
use sync_port::{Files, PIECE, read_piece};

/// The most commands of all logs of a job together: 2^20.
pub const MAX_COMMANDS: usize = 1_048_576;

/// How many bytes and commands are left for the logs that are still to be read.
#[derive(Clone, Copy, Debug)]
pub struct Allowance {
    pub bytes: usize,
    pub commands: usize,
}

/// What is left before the first log.
pub const FULL_ALLOWANCE: Allowance = Allowance {
    bytes: FILE_LIMIT,
    commands: MAX_COMMANDS,
};

/// What takes over the commands of a log as they come.
///
/// `stands` says which commands it has taken over.
pub trait TakesCommands {
    ghost stands: { Self → List Change → Type 0 };

    /// Takes over the log's next command.
    fn add(&mut self, command: Command) -> Result<(), NoMemory>
        ensures { OnOk result ((cs : List Change) → stands self.old cs →
            stands self.new (cs ++ command ∷ [])) };
}

/// The sum of a log's commands, or the number of the command up to which no tree takes the log: the sum is then that of
/// the commands before it.
#[derive(Drop)]
pub struct Total {
    pub sum: LogSum,
    pub broken: Option<usize>,
}

impl TakesCommands for Total {
    ghost use Rattle.treesync.specs.Logs.{IsTotal};

    ghost stands = { IsTotal };

    fn add(&mut self, command: Command) -> Result<(), NoMemory> {
        let Some(number) = self.sum.count().checked_add(1) else {
            return Err(NoMemory);
        };
        match self.broken {
            Some(_) => Ok(()),
            None => match self.sum.add(command) {
                Ok(()) => Ok(()),
                Err(AddFault::Broken) => {
                    self.broken = Some(number);
                    Ok(())
                }
                Err(AddFault::Memory) => Err(NoMemory),
            },
        }
    }
}

impl TakesCommands for Vec<Command> {
    ghost use Rattle.treesync.specs.Checks.{HasItems};

    ghost stands = { HasItems };

    fn add(&mut self, command: Command) -> Result<(), NoMemory> {
        self.push(command)?;
        Ok(())
    }
}

/// A log that was read: the number of its bytes, its version, the number of its commands, and what was made of them.
#[derive(Drop)]
pub struct LogFile<T> {
    pub size: usize,
    pub version: Version,
    pub count: usize,
    pub commands: T,
}

/// The version of a text that is made of two: 2 wherever one of them is.
pub fn later_version(first: Version, second: Version) -> Version
    ensures { result ≡ later_version first second }
{
    match first {
        Version::One => second,
        Version::Two => Version::Two,
    }
}

/// A log that is being read.
#[derive(Drop)]
struct LogIntake<T> {
    reader: LogReader,
    into: T,
}

impl<T: TakesCommands + Drop> LogIntake<T> {
    /// Hands all commands on that are complete.
    fn hand_on(&mut self) -> Result<(), NoMemory>
        ensures { OnOk result ((text : List ℕ) →
            HoldsLog T.stands self.old.reader self.old.into text →
            IsFed T.stands self.new.reader self.new.into text) }
    {
        'waiting: while let Some(command) = self.reader.take() {
            self.into.add(command)?;
        }
        Ok(())
    }

    /// Takes the next piece of the text. A fault of the text stays in the reader until the text ends.
    fn feed(&mut self, piece: &[u8]) -> Result<(), NoMemory>
        ensures { OnOk result ((text : List ℕ) →
            IsFed T.stands self.old.reader self.old.into text →
            IsFed T.stands self.new.reader self.new.into (text ++ piece.now)) }
    {
        match self.reader.feed(piece) {
            Ok(()) => self.hand_on(),
            Err(LogFault::Text(_)) => self.hand_on(),
            Err(LogFault::Memory) => Err(NoMemory),
        }
    }
}

/// The text of so many bytes ends: what was read of it, where so many commands are left for it.
fn end_log<T: TakesCommands + Drop>(
    intake: LogIntake<T>,
    word: usize,
    size: usize,
    most: usize,
) -> Result<LogFile<T>, Refusal>
    ensures { (text : List ℕ) → IsFed T.stands intake.reader intake.into text →
        length text ≡ size → IsJudged (IsLogFile T.stands)
        (λ answer. answer ≡ log_answer most word size (log_of (parts 10 text))) result }
{
    let LogIntake { reader, into } = intake;
    let version = reader.version().unwrap_or(Version::One);
    let count = match reader.finish() {
        Ok(count) => count as usize,
        Err(fault) => return Err(text_refusal(word, fault)),
    };
    if count > most {
        return Err(Refusal::Found(Finding::TooLarge { word }));
    }
    Ok(LogFile {
        size,
        version,
        count,
        commands: into,
    })
}

/// Reads the log in the file `name`, which the word at the place `word` names, piece by piece, and hands its commands to
/// `into` as they come. `allowance` is what is left for it.
///
/// After a fault of the text the file is read on to its end or its limit: a failed reading and the size come first.
pub fn read_log<F: Files, T: TakesCommands + Drop>(
    alloc: Global,
    word: usize,
    name: &str,
    allowance: Allowance,
    files: &mut F,
    into: T,
) -> Result<LogFile<T>, Refusal>
    requires nothing { T.stands into [] }
    requires allowance { allowance.bytes ≤ FILE_LIMIT }
    ensures { Answers (IsLogFile T.stands) (IsLog allowance word name.now)
        ((name.now, allowance.bytes) ∷ []) (F.files files.old) (F.files files.new) result }
{
    if let Err(fault) = files.open(name) {
        return Err(call_refusal(word, fault));
    }
    let mut intake = LogIntake {
        reader: LogReader::new(alloc),
        into,
    };
    let mut buffer = [0u8; PIECE];
    let mut size = 0;
    'pieces: while size <= allowance.bytes {
        let count = match read_piece(files, &mut buffer, size, allowance.bytes) {
            Ok(count) => count,
            Err(fault) => return Err(call_refusal(word, fault)),
        };
        if count == 0 {
            return end_log(intake, word, size, allowance.commands);
        }
        intake.feed(&buffer[..count])?;
        size += count;
    }
    Err(Refusal::Found(Finding::TooLarge { word }))
}

/// Reads a log as `read_log` does, into the sum of its commands.
pub fn read_sum<F: Files>(
    alloc: Global,
    word: usize,
    name: &str,
    allowance: Allowance,
    files: &mut F,
) -> Result<LogFile<Total>, Refusal>
    requires { allowance.bytes ≤ FILE_LIMIT }
    ensures { Answers (IsLogFile IsTotal) (IsLog allowance word name.now)
        ((name.now, allowance.bytes) ∷ []) (F.files files.old) (F.files files.new) result }
{
    let nothing = Total {
        sum: LogSum::new(alloc),
        broken: None,
    };
    read_log(alloc, word, name, allowance, files, nothing)
}
