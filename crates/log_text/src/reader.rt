//! A log that comes in pieces.

ghost use Rattle.std.specs.Prelude.{◌≡◌, ◌++◌, ◌∷◌, ℕ, List, [], None, Some, MatchOption, MatchResult};
ghost use Rattle.sync_command.specs.Changes.{Change};
ghost use Rattle.log_text.specs.declared.faults.LogFault.{LogFault};
ghost use Rattle.log_text.specs.LogPieces.{HasRead, GoesOn, IsRefused, IsExactLog, FeedsLog, EndsLog, waiting_of, known_version, version_in, complete};

use crate::faults::LogFault;
use crate::pieces::LineReader;
use crate::queue::CommandQueue;
use std::alloc::Global;
use sync_command::{Command, Version};

/// A reader of a log that comes in pieces. It holds the line that is not finished, and the commands
/// that are complete and were not taken.
///
/// A caller carries in its own loop the text that it has fed and the list that it has taken:
/// `HasRead reader text taken`.
#[derive(Drop)]
pub struct LogReader {
    lines: LineReader,
    queue: CommandQueue,
}

impl LogReader {
    /// A reader that was fed nothing. Takes no memory.
    pub fn new(alloc: Global) -> LogReader
        ensures reads { HasRead result [] [] }
        ensures waiting { waiting_of result ≡ [] }
        ensures version { known_version result ≡ None }
        ensures goes_on { GoesOn result }
    {
        LogReader {
            lines: LineReader::new(alloc),
            queue: CommandQueue::new(alloc),
        }
    }

    /// Takes the next piece of the text.
    ///
    /// A fault of the text comes exactly where the bytes so far hold the line that has it, ended by its
    /// line feed, or a byte after the right end line: no continuation mends it. A refusal is answered
    /// for good, and makes no further command complete.
    pub fn feed(&mut self, piece: &[u8]) -> Result<(), LogFault>
        ensures reads { (text : List ℕ) (taken : List Change) →
            HasRead self.old text taken → FeedsLog self.new text taken piece.now result }
        ensures exact { (text : List ℕ) (taken : List Change) →
            HasRead self.old text taken → IsExactLog (text ++ piece.now) result }
        ensures goes_on { MatchResult result (λ _. GoesOn self.new) (λ f. IsRefused self.new f) }
        ensures again { (f : LogFault) → IsRefused self.old f →
            (result ≡ Err f) × (self.new ≡ self.old) }
    {
        self.lines.feed(&mut self.queue, piece)
    }

    /// The next command that is complete and was not taken: none exactly where all were taken.
    pub fn take(&mut self) -> Option<Command>
        ensures took { MatchOption result ((waiting_of self.old ≡ []) × (waiting_of self.new ≡ []))
            (λ c. waiting_of self.old ≡ c ∷ waiting_of self.new) }
        ensures reads { (text : List ℕ) (taken : List Change) → HasRead self.old text taken →
            MatchOption result (HasRead self.new text taken × (taken ≡ complete text))
            (λ c. HasRead self.new text (taken ++ c ∷ [])) }
        ensures version { known_version self.new ≡ known_version self.old }
        ensures goes_on { GoesOn self.old → GoesOn self.new }
        ensures refused { (f : LogFault) → IsRefused self.old f → IsRefused self.new f }
    {
        self.queue.take()
    }

    /// The version of the text: none exactly until its first line was read right. Takes no memory.
    pub fn version(&self) -> Option<Version>
        ensures known { result ≡ known_version self.now }
        ensures exact { (text : List ℕ) (taken : List Change) → HasRead self.now text taken →
            result ≡ version_in text }
    {
        if self.lines.has_opened() {
            Some(self.queue.version())
        } else {
            None
        }
    }

    /// The text ends here: how many commands it has, or its fault. Takes no memory.
    pub fn finish(self) -> Result<u64, LogFault>
        ensures ends { (text : List ℕ) (taken : List Change) →
            HasRead self text taken → EndsLog text taken (waiting_of self) result }
        ensures again { (f : LogFault) → IsRefused self f → result ≡ Err f }
        ensures memory { result ≡ Err LogFault.Memory → IsRefused self LogFault.Memory }
    {
        let LogReader { lines, queue } = self;
        match lines.finish(&queue) {
            Ok(()) => Ok(queue.read_count() as u64),
            Err(fault) => Err(fault),
        }
    }
}
