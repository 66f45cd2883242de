//! The one place that prints an answer and gives its status.

ghost use Rattle.std.specs.Prelude.{◌≡◌, ◌+◌, ◌++◌, ◌≤◌, ◌<◌, ◌^◌, ℕ, List, Ok, IfOk, codes, decimal, length, map, string_bytes};
ghost use Rattle.sync_port.specs.States.{IfKnown};
ghost use Rattle.sync_port.specs.Ports.{SinkFaults};
ghost use Rattle.sync_port.specs.Sending.{Sends};
ghost use Rattle.treesync.specs.Answering.{output_of};
ghost use Rattle.treesync.specs.Conflicts.{clash_lines};
ghost use Rattle.treesync.specs.Ends.{Prints, PrintsAll, Says, SendsLine, end_line, line_of};
ghost use Rattle.treesync.specs.Explain.{reason_lines};
ghost use Rattle.treesync.specs.Messages.{status_of, failure_status, finding_status, message_of, failure_message, finding_message, what_line, file_line, numbered_line, line_at, line_text, path_line, disagreement_line, can_add_line, kind_name, why_name};
ghost use Rattle.treesync.specs.Outputs.{ClashLines, ReasonLines, WholeText, status_in, text_in};
ghost use Rattle.treesync.specs.Writing.{WriteFaults, WritesLines};
ghost use Rattle.tool_words.specs.Operands.{text_at};
ghost use Rattle.treesync.specs.Checks.{seen};
ghost use Rattle.std.specs.List.{concat};

use crate::explain::Explained;
use crate::reason_lines::write_reasons;
use crate::writing::{WriteFault, write_clashes};
use crate::{Answer, Failure, Finding, Refusal};
use itoa::Buffer;
use log_text::TextKind;
use record_core::Why;
use refluent::Joint;
use std::alloc::Global;
use sync_path::Path;
use sync_port::{Sink, SinkFailed, send, send_path};
use tool_words::{operand_text, texts};

/// The status of a finding.
fn finding_status(finding: &Finding) -> u8
    ensures { result ≡ finding_status finding.now }
{
    match finding {
        Finding::Text { .. } => 5,
        Finding::NoTree { .. } => 6,
        Finding::NoCommonTree { .. } => 7,
        Finding::Diverged { .. } => 8,
        Finding::Blocked { .. } => 9,
        Finding::TooLarge { .. } => 12,
        Finding::NoSuchLog { .. } => 13,
        Finding::NoCommand { .. } => 13,
        Finding::NotDrawn { .. } => 14,
        Finding::DoesNotFit { .. } => 14,
        Finding::CanAdd { .. } => 14,
        Finding::OpRefused { .. } => 15,
        Finding::NotTaken { .. } => 17,
        Finding::NoFollow { .. } => 18,
    }
}

/// The status of a call that was refused.
fn failure_status(failure: Failure) -> u8
    ensures { result ≡ failure_status failure }
{
    match failure {
        Failure::ReadFailed { .. } => 3,
        Failure::TreeFailed { .. } => 10,
        Failure::TreeDenied { .. } => 11,
    }
}

/// The status of a refusal.
fn status(refusal: &Refusal) -> u8
    ensures { result ≡ status_of refusal.now }
{
    match refusal {
        Refusal::InvalidArguments => 2,
        Refusal::CallFailed(failure) => failure_status(*failure),
        Refusal::OutOfMemory => 16,
        Refusal::Found(finding) => finding_status(finding),
    }
}

/// The printed word of a fault's kind.
fn kind_text(kind: TextKind) -> &'static str
    ensures { result.now ≡ kind_name kind }
{
    match kind {
        TextKind::Header => texts::HEADER,
        TextKind::Fields => texts::FIELDS,
        TextKind::TooMany => texts::TOO_MANY,
        TextKind::TooWide => texts::TOO_WIDE,
        TextKind::Number => texts::NUMBER,
        TextKind::Path => texts::PATH,
        TextKind::Value => texts::VALUE,
        TextKind::Same => texts::SAME,
        TextKind::Empty => texts::EMPTY,
        TextKind::Order => texts::ORDER,
        TextKind::Parent => texts::PARENT,
        TextKind::End => texts::END,
        TextKind::Count => texts::COUNT,
        TextKind::After => texts::AFTER,
    }
}

/// The printed word of why an operation is refused.
fn why_text(why: Why) -> &'static str
    ensures { result.now ≡ why_name why }
{
    match why {
        Why::Missing => texts::MISSING,
        Why::Exists => texts::EXISTS,
        Why::NoParent => texts::NO_PARENT,
        Why::IsDir => texts::IS_DIR,
        Why::NotEmpty => texts::NOT_EMPTY,
        Why::Inside => texts::INSIDE,
        Why::TooDeep => texts::TOO_DEEP,
        Why::NotDir => texts::NOT_DIR,
        Why::Labelled => texts::LABELLED,
    }
}

/// Sends texts one after another.
fn send_all<E: Sink>(err: &mut E, texts: &[&[u8]]) -> Result<(), SinkFailed>
    ensures faults { SinkFaults result (E.sink err.old) (E.sink err.new) }
    ensures contents { IfKnown (E.sink err.old) (E.sink err.new)
        (Sends (concat (map (λ text. text.now) texts.now)) result) }
{
    'texts: for text in texts {
        send(err, text)?;
    }
    Ok(())
}

/// Sends the line `treesync: WHAT`.
fn say_what<'a, E: Sink>(err: &mut E, what: &'a str) -> Result<(), SinkFailed>
    ensures { SendsLine (what_line what.now) result (E.sink err.old) (E.sink err.new) }
{
    let program: &'a str = texts::PROGRAM;
    let end: &'a str = texts::LINE_END;
    send_all(err, &[program.as_bytes(), what.as_bytes(), end.as_bytes()])
}

/// Sends the line `treesync: WORD: WHAT`, of the word at the place.
fn say_of_file<'a, E: Sink>(
    err: &mut E,
    words: &'a [String],
    place: usize,
    what: &'a str,
) -> Result<(), SinkFailed>
    ensures { SendsLine (file_line (text_at (map string_bytes words.now) place) what.now) result
        (E.sink err.old) (E.sink err.new) }
{
    let program: &'a str = texts::PROGRAM;
    let word: &'a str = operand_text(words, place);
    let colon: &'a str = texts::COLON;
    let end: &'a str = texts::LINE_END;
    send_all(
        err,
        &[
            program.as_bytes(),
            word.as_bytes(),
            colon.as_bytes(),
            what.as_bytes(),
            end.as_bytes(),
        ],
    )
}

/// Sends the line `treesync: WORD: line NUMBER: WHAT`, of the word at the place.
fn say_of_line<E: Sink>(
    err: &mut E,
    words: &[String],
    place: usize,
    number: u128,
    what: &str,
) -> Result<(), SinkFailed>
    ensures { SendsLine (numbered_line (text_at (map string_bytes words.now) place) (decimal number)
        what.now) result (E.sink err.old) (E.sink err.new) }
{
    let mut digits = Buffer::new();
    send_all(
        err,
        &[
            texts::PROGRAM.as_bytes(),
            operand_text(words, place).as_bytes(),
            texts::LINE.as_bytes(),
            digits.format(number).as_bytes(),
            texts::COLON.as_bytes(),
            what.as_bytes(),
            texts::LINE_END.as_bytes(),
        ],
    )
}

/// Sends texts one after another, then a path, and then the end of the line.
fn send_line_at<E: Sink>(err: &mut E, prefix: &[&[u8]], path: &Path) -> Result<(), SinkFailed>
    ensures faults { SinkFaults result (E.sink err.old) (E.sink err.new) }
    ensures contents { IfKnown (E.sink err.old) (E.sink err.new)
        (Sends (line_at (map (λ text. text.now) prefix.now) path.now) result) }
{
    send_all(err, prefix)?;
    send_path(err, path)?;
    send(err, texts::LINE_END.as_bytes())
}

/// Sends the line `treesync: logs FIRST and SECOND: no common tree at PATH`.
fn say_disagreement<E: Sink>(
    err: &mut E,
    first: u32,
    second: u32,
    path: &Path,
) -> Result<(), SinkFailed>
    ensures { SendsLine (disagreement_line first second path.now) result (E.sink err.old)
        (E.sink err.new) }
{
    let mut first_digits = Buffer::new();
    let mut second_digits = Buffer::new();
    send_line_at(
        err,
        &[
            texts::PROGRAM.as_bytes(),
            texts::LOGS.as_bytes(),
            first_digits.format(first as u128).as_bytes(),
            texts::AND.as_bytes(),
            second_digits.format(second as u128).as_bytes(),
            texts::COLON.as_bytes(),
            texts::NO_COMMON_TREE.as_bytes(),
        ],
        path,
    )
}

/// Sends the line `treesync: WORD: WHAT PATH`, of the word at the place.
fn say_of_path<E: Sink>(
    err: &mut E,
    words: &[String],
    place: usize,
    what: &str,
    path: &Path,
) -> Result<(), SinkFailed>
    ensures { SendsLine (path_line (text_at (map string_bytes words.now) place) what.now path.now)
        result (E.sink err.old) (E.sink err.new) }
{
    send_line_at(
        err,
        &[
            texts::PROGRAM.as_bytes(),
            operand_text(words, place).as_bytes(),
            texts::COLON.as_bytes(),
            what.as_bytes(),
        ],
        path,
    )
}

/// Sends the line `treesync: WORD: can add log LOG at PATH`, of the word at the place.
fn say_can_add<E: Sink>(
    err: &mut E,
    words: &[String],
    place: usize,
    log: u32,
    path: &Path,
) -> Result<(), SinkFailed>
    ensures { SendsLine (can_add_line (text_at (map string_bytes words.now) place) log path.now)
        result (E.sink err.old) (E.sink err.new) }
{
    let mut digits = Buffer::new();
    send_line_at(
        err,
        &[
            texts::PROGRAM.as_bytes(),
            operand_text(words, place).as_bytes(),
            texts::COLON.as_bytes(),
            texts::CAN_ADD_LOG.as_bytes(),
            digits.format(log as u128).as_bytes(),
            texts::AT.as_bytes(),
        ],
        path,
    )
}

/// What the line of a finding says after the program's name. Words count from 0, lines and logs from 1.
#[derive(Clone, Copy)]
pub(crate) enum Line<'a> {
    /// `WORD: WHAT`
    OfFile {
        word: usize,
        what: &'static str,
    },
    /// `WORD: line NUMBER: WHAT`
    OfLine {
        word: usize,
        number: u128,
        what: &'static str,
    },
    /// `WORD: WHAT PATH`
    OfPath {
        word: usize,
        what: &'static str,
        path: &'a Path,
    },
    /// `logs FIRST and SECOND: no common tree at PATH`
    OfLogs {
        first: u32,
        second: u32,
        path: &'a Path,
    },
    /// `WORD: can add log LOG at PATH`
    CanAdd {
        word: usize,
        log: u32,
        path: &'a Path,
    },
}

/// What the line of a finding says. A log's command, a rule and an operation are one line after their number.
fn finding_line(finding: &Finding) -> Line<'_>
    ensures { (words : List (List ℕ)) → line_text words result ≡ finding_message words finding.now }
{
    match finding {
        Finding::TooLarge { word } => Line::OfFile {
            word: *word,
            what: texts::TOO_LARGE,
        },
        Finding::Text { word, fault } => Line::OfLine {
            word: *word,
            number: fault.line as u128,
            what: kind_text(fault.kind),
        },
        Finding::NoTree { word, number } => Line::OfLine {
            word: *word,
            number: *number as u128 + 1,
            what: texts::NO_TREE,
        },
        Finding::NoCommonTree {
            first,
            second,
            path,
        } => Line::OfLogs {
            first: *first,
            second: *second,
            path,
        },
        Finding::NoSuchLog { word, number } => Line::OfLine {
            word: *word,
            number: *number as u128 + 1,
            what: texts::NO_SUCH_LOG,
        },
        Finding::NoCommand { word, number } => Line::OfLine {
            word: *word,
            number: *number as u128 + 1,
            what: texts::NO_SUCH_COMMAND,
        },
        Finding::Diverged { word, path } => Line::OfPath {
            word: *word,
            what: texts::DIVERGED_AT,
            path,
        },
        Finding::Blocked { word, path } => Line::OfPath {
            word: *word,
            what: texts::BLOCKED_AT,
            path,
        },
        Finding::NotDrawn { word, path } => Line::OfPath {
            word: *word,
            what: texts::NOT_DRAWN,
            path,
        },
        Finding::DoesNotFit { word, path } => Line::OfPath {
            word: *word,
            what: texts::DOES_NOT_FIT,
            path,
        },
        Finding::CanAdd { word, log, path } => Line::CanAdd {
            word: *word,
            log: *log,
            path,
        },
        Finding::NoFollow { word, path } => Line::OfPath {
            word: *word,
            what: texts::DOES_NOT_FOLLOW,
            path,
        },
        Finding::OpRefused { word, number, why } => Line::OfLine {
            word: *word,
            number: *number as u128 + 1,
            what: why_text(*why),
        },
        Finding::NotTaken { word, number } => Line::OfLine {
            word: *word,
            number: *number as u128 + 1,
            what: texts::NOT_TAKEN,
        },
    }
}

/// Sends the line of a finding.
fn say_line<E: Sink>(err: &mut E, words: &[String], line: Line<'_>) -> Result<(), SinkFailed>
    ensures { SendsLine (line_text (map string_bytes words.now) line.entry) result
        (E.sink err.old) (E.sink err.new) }
{
    match line {
        Line::OfFile { word, what } => say_of_file(err, words, word, what),
        Line::OfLine { word, number, what } => say_of_line(err, words, word, number, what),
        Line::OfPath { word, what, path } => say_of_path(err, words, word, what, path),
        Line::OfLogs {
            first,
            second,
            path,
        } => say_disagreement(err, first, second, path),
        Line::CanAdd { word, log, path } => say_can_add(err, words, word, log, path),
    }
}

/// Sends the line of a call that was refused.
fn say_failure<E: Sink>(err: &mut E, words: &[String], failure: Failure) -> Result<(), SinkFailed>
    ensures { SendsLine (failure_message (map string_bytes words.now) failure) result
        (E.sink err.old) (E.sink err.new) }
{
    match failure {
        Failure::ReadFailed { word } => say_of_file(err, words, word, texts::READ_FAILED),
        Failure::TreeFailed { word } => say_of_file(err, words, word, texts::TREE_FAILED),
        Failure::TreeDenied { word } => say_of_file(err, words, word, texts::TREE_DENIED),
    }
}

/// Sends the line of a refusal.
fn say<E: Sink>(err: &mut E, words: &[String], refusal: &Refusal) -> Result<(), SinkFailed>
    ensures { SendsLine (message_of (map string_bytes words.now) refusal.now) result
        (E.sink err.old) (E.sink err.new) }
{
    match refusal {
        Refusal::InvalidArguments => say_what(err, texts::WORDS_REFUSED),
        Refusal::OutOfMemory => say_what(err, texts::OUT_OF_MEMORY),
        Refusal::CallFailed(failure) => say_failure(err, words, *failure),
        Refusal::Found(finding) => say_line(err, words, finding_line(finding)),
    }
}

/// Prints a text and flushes it.
fn print<O: Sink>(out: &mut O, text: &[u8]) -> Result<(), SinkFailed>
    ensures faults { SinkFaults result (O.sink out.old) (O.sink out.new) }
    ensures contents { IfKnown (O.sink out.old) (O.sink out.new) (PrintsAll text.now result) }
{
    send(out, text)?;
    out.flush()
}

/// Prints a text and gives the status of that.
fn print_text<O: Sink>(out: &mut O, text: &[u8]) -> u8
    ensures later { (O.sink out.old).faults ≤ (O.sink out.new).faults }
    ensures prints { Prints (Ok (WholeText text.now)) result (O.sink out.old) (O.sink out.new) }
{
    match print(out, text) {
        Ok(()) => 0,
        Err(_) => 4,
    }
}

/// Prints the clashes of a joint, line by line, and flushes them.
fn print_lines<O: Sink>(alloc: Global, out: &mut O, joint: &Joint) -> Result<u64, WriteFault>
    ensures faults { WriteFaults result (O.sink out.old) (O.sink out.new) }
    ensures contents { IfKnown (O.sink out.old) (O.sink out.new)
        (WritesLines (text_in (ClashLines (clash_lines joint.now))) result) }
    ensures number { IfOk result (λ n. n ≡ length (clash_lines joint.now)) }
{
    let number = write_clashes(alloc, joint, out)?;
    match out.flush() {
        Ok(()) => Ok(number),
        Err(_) => Err(WriteFault::Failed),
    }
}

/// The status of so many clashes.
fn clash_status(number: u64) -> u8
    ensures { (lines : List (List ℕ)) → number ≡ length lines →
        result ≡ status_in (ClashLines lines) }
{
    if number == 0 { 0 } else { 1 }
}

/// Prints the clashes of a joint and gives the status of that.
fn print_clashes<O: Sink>(alloc: Global, out: &mut O, joint: &Joint) -> u8
    ensures later { (O.sink out.old).faults ≤ (O.sink out.new).faults }
    ensures prints { Prints (Ok (ClashLines (clash_lines joint.now))) result (O.sink out.old)
        (O.sink out.new) }
{
    match print_lines(alloc, out, joint) {
        Ok(number) => clash_status(number),
        Err(WriteFault::Failed) => 4,
        Err(WriteFault::Memory) => 16,
    }
}

/// Prints the reasons of a merger, line by line, and flushes them.
fn print_reason_lines<O: Sink>(
    alloc: Global,
    out: &mut O,
    explained: &Explained,
) -> Result<u64, WriteFault>
    ensures faults { WriteFaults result (O.sink out.old) (O.sink out.new) }
    ensures contents { IfKnown (O.sink out.old) (O.sink out.new)
        (WritesLines (text_in (ReasonLines (reason_lines explained.now.0 explained.now.1)))
        result) }
{
    let number = write_reasons(alloc, explained, out)?;
    match out.flush() {
        Ok(()) => Ok(number),
        Err(_) => Err(WriteFault::Failed),
    }
}

/// Prints the reasons of a merger and gives the status of that.
fn print_reasons<O: Sink>(alloc: Global, out: &mut O, explained: &Explained) -> u8
    ensures later { (O.sink out.old).faults ≤ (O.sink out.new).faults }
    ensures prints { Prints (Ok (ReasonLines (reason_lines explained.now.0 explained.now.1)))
        result (O.sink out.old) (O.sink out.new) }
{
    match print_reason_lines(alloc, out, explained) {
        Ok(_) => 0,
        Err(WriteFault::Failed) => 4,
        Err(WriteFault::Memory) => 16,
    }
}

/// Prints an answer and gives the status of that.
fn print_answer<O: Sink>(alloc: Global, out: &mut O, answer: &Answer) -> u8
    ensures later { (O.sink out.old).faults ≤ (O.sink out.new).faults }
    ensures prints { Prints (Ok (output_of answer.now)) result (O.sink out.old) (O.sink out.new) }
{
    match answer {
        Answer::Text(text) => print_text(out, text),
        Answer::Clashes(joint) => print_clashes(alloc, out, joint),
        Answer::Reasons(explained) => print_reasons(alloc, out, explained),
    }
}

/// Sends the line of the status with which printing ended.
pub fn say_end<E: Sink>(err: &mut E, status: u8)
    ensures later { (E.sink err.old).faults ≤ (E.sink err.new).faults }
    ensures says { Says (end_line status) (E.sink err.old) (E.sink err.new) }
{
    if status == 4 {
        let _ = say_what(err, texts::WRITE_FAILED);
        return;
    }
    if status == 16 {
        let _ = say_what(err, texts::OUT_OF_MEMORY);
    }
}

/// Prints an answer, or says on `err` why there is none, and gives the status. Refusals name the words.
pub fn report<O: Sink, E: Sink>(
    alloc: Global,
    words: &[String],
    answer: Result<Answer, Refusal>,
    out: &mut O,
    err: &mut E,
) -> u8
    ensures out { (O.sink out.old).faults ≤ (O.sink out.new).faults }
    ensures err { (E.sink err.old).faults ≤ (E.sink err.new).faults }
    ensures prints { Prints (seen output_of answer) result (O.sink out.old) (O.sink out.new) }
    ensures says { Says (line_of (map string_bytes words.now) (seen output_of answer) result)
        (E.sink err.old) (E.sink err.new) }
{
    match answer {
        Ok(answer) => {
            let status = print_answer(alloc, out, &answer);
            say_end(err, status);
            status
        }
        Err(refusal) => {
            let _ = say(err, words, &refusal);
            status(&refusal)
        }
    }
}
