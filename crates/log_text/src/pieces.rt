//! One reader of lines for every form, which is fed a text in pieces.
//!
//! A form says what its first lines are and judges each line after one. The reader cuts the lines off,
//! keeps the one that is not finished, knows the end line, and answers a fault where the line that has
//! it is ended. `specs/Pieces.antt` has the meaning: `Knows` says what reader and form hold.

ghost use Rattle.std.specs.Prelude.{Option, ◌≡◌, ◌≤◌, ◌++◌, ◌||◌, ℕ, List, [], length, true, false, None, OnOk, MatchResult};
ghost use Rattle.log_text.specs.Frame.{Judge, end_number};
ghost use Rattle.log_text.specs.Reading.{AreFields};
ghost use Rattle.log_text.specs.Pieces.{Opens, Adds, ReadsLine, Knows, Feeds, Keeps, Finishes, EndsOpen, IsGoing, is_inside};

use crate::faults::{LineFault, LogFault, TextKind};
use crate::frame::{
    Fields, MAX_ITEMS, fault_after, fields_of, header_fault, is_decimal, line_fault,
};
use std::alloc::Global;
use sync_path::bytes::split_far;

/// A form of text: its first lines, and what it makes of each line between the first and the end line.
pub trait Form {
    /// What a line of the form says.
    ghost Item: { Type 0 };
    /// What was given away of the items.
    ghost Past: { Type 0 };
    /// What a first line says, as a version.
    ghost Head: { Type 0 };
    /// The first lines.
    ghost first: { List ℕ → Option Self.Head };
    /// The item of a line's fields after the items before it, or its first fault.
    ghost judge: { Self.Head → Judge Self.Item };
    /// It has read a first line with this head, and these items.
    ghost holds: { Self → Self.Past → Self.Head × List Self.Item → Type 0 };

    /// Whether a line is a first one of the form, which then goes by it.
    fn opens(&mut self, line: &[u8]) -> bool
        ensures { (past : Self.Past) (xs : Self.Head × List Self.Item) →
            Self.holds self.old past xs →
            Opens Self.holds self.new past xs (Self.first line.now) result };

    /// How many items there are.
    fn count(&self) -> usize
        ensures few { result ≤ MAX_ITEMS }
        ensures count { (past : Self.Past) (xs : Self.Head × List Self.Item) →
            Self.holds self.now past xs →
            result ≡ length xs.1 };

    /// Judges a line that is no end line, and keeps its item.
    fn add(&mut self, alloc: Global, fields: Fields<'_>) -> Result<(), LineFault>
        ensures { (past : Self.Past) (xs : Self.Head × List Self.Item) (ps : List (List ℕ)) →
            Self.holds self.old past xs → AreFields fields.entry ps → end_number ps ≡ None →
            Adds Self.judge Self.holds self.new past xs ps result };
}

/// How far a reader of lines is.
#[derive(Clone, Copy)]
pub enum Stage {
    /// Before the first line.
    Start,
    /// After a right first line.
    Inside,
    /// After the right end line.
    Ended,
    /// It answers this for good.
    Refused(LogFault),
}

/// The stage after a line of the form or an end line.
fn after_body_line<F: Form>(alloc: Global, form: &mut F, line: &[u8]) -> Stage
    ensures { (past : F.Past) (xs : F.Head × List F.Item) → F.holds form.old past xs →
        ReadsLine F.first F.judge F.holds Stage.Inside form.new past xs line.now result }
{
    let count = form.count();
    match fields_of(line) {
        Fields::End(number) => {
            if is_decimal(number, count as u64) {
                Stage::Ended
            } else {
                Stage::Refused(LogFault::Text(fault_after(count, TextKind::Count)))
            }
        }
        fields => match form.add(alloc, fields) {
            Ok(()) => Stage::Inside,
            Err(fault) => Stage::Refused(line_fault(count, fault)),
        },
    }
}

/// The stage after a line that has its line feed.
fn after_line<F: Form>(alloc: Global, stage: Stage, form: &mut F, line: &[u8]) -> Stage
    ensures { (past : F.Past) (xs : F.Head × List F.Item) → F.holds form.old past xs →
        ReadsLine F.first F.judge F.holds stage form.new past xs line.now result }
{
    match stage {
        Stage::Start => {
            if form.opens(line) {
                Stage::Inside
            } else {
                Stage::Refused(header_fault())
            }
        }
        Stage::Inside => after_body_line(alloc, form, line),
        Stage::Ended => {
            Stage::Refused(LogFault::Text(fault_after(form.count() + 1, TextKind::After)))
        }
        Stage::Refused(fault) => Stage::Refused(fault),
    }
}

/// The same of a line in two parts, the first of which was kept.
fn after_kept_line<F: Form>(
    alloc: Global,
    stage: Stage,
    form: &mut F,
    kept: &mut Vec<u8>,
    tail: &[u8],
) -> Stage
    ensures { (past : F.Past) (xs : F.Head × List F.Item) → F.holds form.old past xs →
        ReadsLine F.first F.judge F.holds stage form.new past xs
        (kept.old.items ++ tail.now) result }
{
    if kept.is_empty() {
        return after_line(alloc, stage, form, tail);
    }
    match kept.extend_from_slice(tail) {
        Ok(()) => after_line(alloc, stage, form, kept),
        Err(_) => Stage::Refused(LogFault::Memory),
    }
}

/// Whether the stage is after a right first line, and neither ended nor refused.
fn is_inside(stage: Stage) -> bool
    ensures { result ≡ is_inside stage }
{
    matches!(stage, Stage::Inside)
}

/// A reader of lines: how far it is, whether the first line was read right, and the bytes of the line
/// that is not finished.
#[derive(Drop)]
pub struct LineReader {
    alloc: Global,
    stage: Stage,
    opened: bool,
    line: Vec<u8>,
}

impl LineReader {
    /// A reader that was fed nothing. Takes no memory.
    pub fn new(alloc: Global) -> LineReader
        ensures stage { result.stage ≡ Stage.Start }
        ensures opened { result.opened ≡ false }
        ensures line { result.line.items ≡ [] }
    {
        LineReader {
            alloc,
            stage: Stage::Start,
            opened: false,
            line: Vec::new(alloc),
        }
    }

    /// Whether the first line was read right. Takes no memory.
    pub fn has_opened(&self) -> bool
        ensures { result ≡ self.now.opened }
    {
        self.opened
    }

    /// Takes the next piece of the text. Line feeds are looked for in the piece alone, and a line that
    /// lies within it is judged there.
    pub fn feed<F: Form>(&mut self, form: &mut F, piece: &[u8]) -> Result<(), LogFault>
        ensures knows { (past : F.Past) (text : List ℕ) →
            Knows F.first F.judge F.holds self.old form.old past text →
            Feeds F.first F.judge F.holds self.new form.new past text piece.now result }
        ensures stage { MatchResult result (λ _. IsGoing self.new.stage)
            (λ f. self.new.stage ≡ Stage.Refused f) }
        ensures again { (f : _) → self.old.stage ≡ Stage.Refused f →
            (self.new ≡ self.old) × (form.new ≡ form.old) }
    {
        if let Stage::Refused(fault) = self.stage {
            return Err(fault);
        }
        let mut rest = piece;
        'lines: loop {
            let (start, more) = split_far(rest, b'\n');
            let Some(after) = more else {
                return self.keep(form, start);
            };
            if let Err(fault) = self.end_line(form, start) {
                return Err(fault);
            }
            rest = after;
        }
    }

    /// Ends the line that is not finished with these bytes and a line feed.
    fn end_line<F: Form>(&mut self, form: &mut F, tail: &[u8]) -> Result<(), LogFault>
        ensures reads { (past : F.Past) (xs : F.Head × List F.Item) → F.holds form.old past xs →
            ReadsLine F.first F.judge F.holds self.old.stage form.new past xs
            (self.old.line.items ++ tail.now) self.new.stage }
        ensures line { self.new.line.items ≡ [] }
        ensures opened { self.new.opened ≡ (self.old.opened || is_inside self.new.stage) }
        ensures stage { MatchResult result (λ _. IsGoing self.new.stage)
            (λ f. self.new.stage ≡ Stage.Refused f) }
    {
        self.stage = after_kept_line(self.alloc, self.stage, form, &mut self.line, tail);
        self.line.clear();
        self.opened = self.opened || is_inside(self.stage);
        match self.stage {
            Stage::Refused(fault) => Err(fault),
            _ => Ok(()),
        }
    }

    /// Keeps bytes after the last line feed. After the right end line there may be none.
    fn keep<F: Form>(&mut self, form: &F, unended: &[u8]) -> Result<(), LogFault>
        ensures keeps { (past : F.Past) (xs : F.Head × List F.Item) → F.holds form.now past xs →
            Keeps self.old self.new (length xs.1) unended.now result }
        ensures opened { self.new.opened ≡ self.old.opened }
        ensures stage { IsGoing self.old.stage →
            MatchResult result (λ _. IsGoing self.new.stage)
            (λ f. self.new.stage ≡ Stage.Refused f) }
    {
        if unended.is_empty() {
            return Ok(());
        }
        if let Stage::Ended = self.stage {
            let fault = fault_after(form.count() + 1, TextKind::After);
            self.stage = Stage::Refused(LogFault::Text(fault));
            return Err(LogFault::Text(fault));
        }
        match self.line.extend_from_slice(unended) {
            Ok(()) => Ok(()),
            Err(_) => {
                self.stage = Stage::Refused(LogFault::Memory);
                Err(LogFault::Memory)
            }
        }
    }

    /// The text ends here. Takes no memory.
    pub fn finish<F: Form>(self, form: &F) -> Result<(), LogFault>
        ensures ends { (past : F.Past) (text : List ℕ) →
            Knows F.first F.judge F.holds self form.now past text →
            Finishes F.first F.judge F.holds form.now past text result }
        ensures again { (f : _) → self.stage ≡ Stage.Refused f → result ≡ Err f }
        ensures memory { result ≡ Err LogFault.Memory →
            self.stage ≡ Stage.Refused LogFault.Memory }
    {
        match self.stage {
            Stage::Start => Err(header_fault()),
            Stage::Inside => Err(LogFault::Text(fault_after(form.count(), TextKind::End))),
            Stage::Ended => Ok(()),
            Stage::Refused(fault) => Err(fault),
        }
    }

    /// The text ends here, and may have lost its end: whether the right end line was there. Takes no
    /// memory.
    pub fn finish_open<F: Form>(self, form: &F) -> Result<bool, LogFault>
        ensures { (past : F.Past) (text : List ℕ) →
            Knows F.first F.judge F.holds self form.now past text →
            EndsOpen F.first F.judge F.holds form.now past text result }
    {
        match self.stage {
            Stage::Start | Stage::Inside => Ok(false),
            Stage::Ended => Ok(true),
            Stage::Refused(fault) => Err(fault),
        }
    }
}

/// Reads a whole text into a form that has read no line.
pub fn read_text<F: Form>(alloc: Global, form: &mut F, text: &[u8]) -> Result<(), LogFault>
    ensures { (past : F.Past) (head : F.Head) → F.holds form.old past (head, []) →
        Finishes F.first F.judge F.holds form.new past text.now result }
{
    let mut lines = LineReader::new(alloc);
    match lines.feed(form, text) {
        Ok(()) => lines.finish(form),
        Err(fault) => Err(fault),
    }
}
