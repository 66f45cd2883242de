//! What every text form shares: the fields of a line, the end line, and where a fault state.
//!
//! `crate::pieces` reads the lines of every form. `specs/Frame.antt` has the meaning, for any form:
//! `framed_of` is the reading and `framed_text` the text.

ghost use Rattle.std.specs.Prelude.{◌≡◌, ◌≤◌, ◌+◌, ◌&&◌, ◌++◌, [], ◌∷◌, codes, decimal, length, take, OnOk, OnErr};
ghost use Rattle.std.specs.Str.{bytes_eq};
ghost use Rattle.sync_path.specs.Paths.{parts};
ghost use Rattle.sync_path.specs.Reading.{path_of};
ghost use Rattle.sync_command.specs.Values.{value_of};
ghost use Rattle.log_text.specs.Frame.{begins_digit, fault_at, header_fault, ended, end_line};
ghost use Rattle.log_text.specs.Reading.{AreFields, GivesLine, lifted, with_kind};

use crate::faults::{LineFault, LogFault, TextFault, TextKind};
use itoa::Buffer;
use std::alloc::Global;
use sync_command::{Value, ValueFault, Version};
use sync_path::bytes::split_far;
use sync_path::{NoMemory, Path, PathFault};

/// The most items that a text has: the commands of a log, or the rows of a snapshot.
pub const MAX_ITEMS: usize = 1_048_576;

/// The fields of a line, as far as a form needs them.
#[derive(Clone, Copy)]
pub enum Fields<'a> {
    /// The number field of an end line.
    End(&'a [u8]),
    Two(&'a [u8], &'a [u8]),
    Three(&'a [u8], &'a [u8], &'a [u8]),
    /// One field, or more than three.
    Other,
}

/// Whether the bytes begin with a digit.
fn starts_with_digit(bytes: &[u8]) -> bool
    ensures { result ≡ begins_digit bytes.now }
{
    match bytes {
        [] => false,
        [digit, ..] => digit.is_ascii_digit(),
    }
}

/// Whether two fields are those of an end line.
fn are_end(word: &[u8], number: &[u8]) -> bool
    ensures { result ≡ (bytes_eq word.now (codes "end") && begins_digit number.now) }
{
    word == b"end".as_slice() && starts_with_digit(number)
}

/// Two fields of a line that has no more.
fn two_fields<'a>(first: &'a [u8], second: &'a [u8]) -> Fields<'a>
    ensures { AreFields result (first.now ∷ second.now ∷ []) }
{
    if are_end(first, second) {
        Fields::End(second)
    } else {
        Fields::Two(first, second)
    }
}

/// The fields of a line, which is split at every space.
pub fn fields_of(line: &[u8]) -> Fields<'_>
    ensures { AreFields result (parts 32 line.now) }
{
    let (first, more) = split_far(line, b' ');
    let Some(rest) = more else {
        return Fields::Other;
    };
    let (second, more) = split_far(rest, b' ');
    let Some(rest) = more else {
        return two_fields(first, second);
    };
    let (third, more) = split_far(rest, b' ');
    match more {
        None => Fields::Three(first, second, third),
        Some(_) => Fields::Other,
    }
}

/// The fault of the line after `count` lines of the form: lines count from 1, and the first line is
/// line 1.
pub fn fault_after(count: usize, kind: TextKind) -> TextFault
    requires { count ≤ MAX_ITEMS + 1 }
    ensures { result ≡ fault_at count kind }
{
    TextFault {
        line: count as u64 + 2,
        kind,
    }
}

/// Why the line after `count` lines of the form was not read, as a fault of the text.
pub fn line_fault(count: usize, fault: LineFault) -> LogFault
    requires { count ≤ MAX_ITEMS + 1 }
    ensures { result ≡ lifted count fault }
{
    match fault {
        LineFault::Kind(kind) => LogFault::Text(fault_after(count, kind)),
        LineFault::Memory => LogFault::Memory,
    }
}

/// Whether a field is the decimal spelling of a number.
pub fn is_decimal(field: &[u8], n: u64) -> bool
    ensures { result ≡ bytes_eq field.now (decimal n) }
{
    let mut buffer = Buffer::new();
    field == buffer.format(n).as_bytes()
}

/// The path of a field, or the fault Path.
pub fn read_path(alloc: Global, field: &[u8]) -> Result<Path, LineFault>
    ensures { GivesLine result (with_kind TextKind.Path (path_of field.now)) }
{
    match Path::read(alloc, field) {
        Ok(path) => Ok(path),
        Err(PathFault::Memory) => Err(LineFault::Memory),
        Err(_) => Err(LineFault::Kind(TextKind::Path)),
    }
}

/// The value of a field in a text of this version, or the fault Value.
pub fn read_value(alloc: Global, version: Version, field: &[u8]) -> Result<Value, LineFault>
    ensures { GivesLine result (with_kind TextKind.Value (value_of version field.now)) }
{
    match Value::read(alloc, version, field) {
        Ok(value) => Ok(value),
        Err(ValueFault::Memory) => Err(LineFault::Memory),
        Err(_) => Err(LineFault::Kind(TextKind::Value)),
    }
}

/// The fault of a first line that is none of the form's.
pub fn header_fault() -> LogFault
    ensures { result ≡ LogFault.Text header_fault }
{
    LogFault::Text(TextFault {
        line: 1,
        kind: TextKind::Header,
    })
}

/// Appends the end line after `count` lines of the form. Where memory runs out, `out` begins with what
/// it held.
#[tactic(auto, using(sync_path::proofs::CallerLemmas::kept_on, sync_path::proofs::CallerLemmas::kept_more))]
pub fn print_end(out: &mut Vec<u8>, count: u64) -> Result<(), NoMemory>
    ensures ok { OnOk result (out.new.items ≡ out.old.items ++ ended (end_line count)) }
    ensures err { OnErr result (take (length out.old.items) out.new.items ≡ out.old.items) }
{
    let mut buffer = Buffer::new();
    out.extend_from_slice(b"end ")?;
    out.extend_from_slice(buffer.format(count).as_bytes())?;
    out.push(b'\n')?;
    Ok(())
}
