//! The text of a script.

ghost use Rattle.std.specs.Prelude.{ℕ, List, None, ◌≡◌, ◌≤◌, ◌<◌, ◌∷◌, [], length, OnOk};
ghost use Rattle.sync_path.specs.Paths.{parts};
ghost use Rattle.sync_path.specs.Reading.{path_of};
ghost use Rattle.sync_command.specs.Values.{value_of};
ghost use Rattle.log_text.specs.declared.frame.TheConstants.{MAX_ITEMS};
ghost use Rattle.log_text.specs.Frame.{end_number};
ghost use Rattle.log_text.specs.Versions.{version_of};
ghost use Rattle.log_text.specs.Reading.{GivesText, GivesLine, AreFields};
ghost use Rattle.record_core.specs.Scripts.{script_first, script_of, op_of, short_op, long_op, put_from, label_from, pair_from};

use crate::Op;
use crate::words::{LongWord, ShortWord, long_word, short_word};
use log_text::frame::{Fields, MAX_ITEMS, read_path, read_value};
use log_text::pieces::{Form, read_text};
use log_text::{LineFault, LogFault, TextKind};
use std::alloc::Global;
use sync_command::{Value, Version};
use sync_path::Path;

/// The version, and all operations so far.
#[derive(Drop)]
pub struct OpList {
    version: Version,
    ops: Vec<Op>,
    ghost few: { length ops.items ≤ MAX_ITEMS },
}

impl OpList {
    fn new(alloc: Global) -> OpList
        ensures version { result.version ≡ Version.One }
        ensures ops { result.ops.items ≡ [] }
    {
        OpList {
            version: Version::One,
            ops: Vec::new(alloc),
        }
    }

    fn into_parts(self) -> (Version, Vec<Op>)
        ensures version { result.0 ≡ self.version }
        ensures ops { result.1 ≡ self.ops }
    {
        let OpList { version, ops } = self;
        (version, ops)
    }
}

impl Form for OpList {
    ghost use Rattle.sync_command.specs.declared.values.Version.{Version as VersionValue};
    ghost use Rattle.log_text.specs.Versions.{version_of};
    ghost use Rattle.record_core.specs.declared.ops.Op.{Op as OpValue};
    ghost use Rattle.record_core.specs.Scripts.{script_first, judge_op};
    ghost use Rattle.record_core.specs.OpLists.{IsOpList};

    ghost Item = { OpValue };

    ghost Past = { Unit {0} };

    ghost Head = { VersionValue };

    ghost first = { version_of script_first };

    ghost judge = { judge_op };

    ghost holds = { IsOpList };

    fn opens(&mut self, line: &[u8]) -> bool {
        match version_of(line) {
            Some(version) => {
                self.version = version;
                true
            }
            None => false,
        }
    }

    fn count(&self) -> usize {
        self.ops.len()
    }

    fn add(&mut self, alloc: Global, fields: Fields<'_>) -> Result<(), LineFault> {
        let op = read_op(alloc, self.version, self.ops.len(), fields)?;
        match self.ops.push(op) {
            Ok(()) => Ok(()),
            Err(_) => Err(LineFault::Memory),
        }
    }
}

/// The version whose first line the line is.
fn version_of(line: &[u8]) -> Option<Version>
    ensures { result ≡ version_of script_first line.now }
{
    if line == b"treescript 1".as_slice() {
        Some(Version::One)
    } else if line == b"treescript 2".as_slice() {
        Some(Version::Two)
    } else {
        None
    }
}

/// The operation of a line's fields after `count` lines of the form, in a script of this version.
fn read_op(
    alloc: Global,
    version: Version,
    count: usize,
    fields: Fields<'_>,
) -> Result<Op, LineFault>
    ensures gives { (ps : List (List ℕ)) → AreFields fields.entry ps → end_number ps ≡ None →
        GivesLine result (op_of version count ps) }
    ensures few { OnOk result (count < MAX_ITEMS) }
{
    match fields {
        Fields::Two(word, path) => match short_word(word) {
            Some(word) => read_short(alloc, count, word, path),
            None => Err(LineFault::Kind(TextKind::Fields)),
        },
        Fields::Three(word, first, second) => match long_word(version, word) {
            Some(word) => read_long(alloc, version, count, word, first, second),
            None => Err(LineFault::Kind(TextKind::Fields)),
        },
        _ => Err(LineFault::Kind(TextKind::Fields)),
    }
}

/// The operation of a word and its path, after `count` lines of the form.
fn read_short(alloc: Global, count: usize, word: ShortWord, path: &[u8]) -> Result<Op, LineFault>
    ensures gives { GivesLine result (short_op count (Some word) path.now) }
    ensures few { OnOk result (count < MAX_ITEMS) }
{
    if count >= MAX_ITEMS {
        return Err(LineFault::Kind(TextKind::TooMany));
    }
    let path = read_path(alloc, path)?;
    match word {
        ShortWord::Mkdir => Ok(Op::Mkdir(path)),
        ShortWord::Del => Ok(Op::Del(path)),
        ShortWord::Deltree => Ok(Op::Deltree(path)),
    }
}

/// The operation of a word and its two fields, after `count` lines of the form.
fn read_long(
    alloc: Global,
    version: Version,
    count: usize,
    word: LongWord,
    first: &[u8],
    second: &[u8],
) -> Result<Op, LineFault>
    ensures gives { GivesLine result (long_op version count (Some word) first.now second.now) }
    ensures few { OnOk result (count < MAX_ITEMS) }
{
    if count >= MAX_ITEMS {
        return Err(LineFault::Kind(TextKind::TooMany));
    }
    match word {
        LongWord::Put => read_put(alloc, version, first, second),
        LongWord::Label => read_label(alloc, version, first, second),
        LongWord::Move => {
            let (from, to) = read_pair(alloc, first, second)?;
            Ok(Op::Move(from, to))
        }
        LongWord::Copy => {
            let (from, to) = read_pair(alloc, first, second)?;
            Ok(Op::Copy(from, to))
        }
    }
}

/// A path and the contents of a file.
fn read_put(alloc: Global, version: Version, path: &[u8], value: &[u8]) -> Result<Op, LineFault>
    ensures { GivesLine result (put_from (path_of path.now) (value_of version value.now)) }
{
    let path = read_path(alloc, path)?;
    match read_value(alloc, version, value)? {
        Value::File(bytes) => Ok(Op::Put(path, bytes)),
        _ => Err(LineFault::Kind(TextKind::Value)),
    }
}

/// A path and the label of a directory.
fn read_label(alloc: Global, version: Version, path: &[u8], value: &[u8]) -> Result<Op, LineFault>
    ensures { GivesLine result (label_from (path_of path.now) (value_of version value.now)) }
{
    let path = read_path(alloc, path)?;
    match read_value(alloc, version, value)? {
        Value::Dir(label) => Ok(Op::Label(path, label)),
        _ => Err(LineFault::Kind(TextKind::Value)),
    }
}

/// Two paths.
fn read_pair(alloc: Global, from: &[u8], to: &[u8]) -> Result<(Path, Path), LineFault>
    ensures { GivesLine result (pair_from (path_of from.now) (path_of to.now)) }
{
    let from = read_path(alloc, from)?;
    let to = read_path(alloc, to)?;
    Ok((from, to))
}

/// Reads the text of a script of at most 2^20 operations, of either version.
///
/// The answer is the version and the list whose text it is. A text of no script is refused at its
/// earliest wrong line, lines counted from 1: with Header at the first line; with End, Count or After
/// where the text ends; and with Fields, TooMany, Path or Value at a line between them, looked for in
/// this order. Memory may run out at any time.
#[tactic(auto, unfolding(crate::specs::Scripts::script_of))]
pub fn read_script(alloc: Global, text: &[u8]) -> Result<(Version, Vec<Op>), LogFault>
    ensures { GivesText (λ r. (r.0, r.1.items)) result (script_of (parts 10 text.now)) }
{
    let mut form = OpList::new(alloc);
    read_text(alloc, &mut form, text)?;
    Ok(form.into_parts())
}
