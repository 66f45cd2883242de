//! The text of a log.

ghost use Rattle.std.specs.Prelude.{ℕ, List, None, ◌≡◌, ◌≤◌, ◌<◌, ◌∷◌, ◌++◌, [], length, take, IfOk, OnOk, OnErr};
ghost use Rattle.std.specs.List.{flat_map, AllByRecursion};
ghost use Rattle.sync_path.specs.Paths.{parts};
ghost use Rattle.sync_path.specs.Reading.{path_of};
ghost use Rattle.sync_command.specs.Values.{value_of};
ghost use Rattle.sync_command.specs.Changes.{change_text};
ghost use Rattle.log_text.specs.Frame.{ended, end_number};
ghost use Rattle.log_text.specs.Versions.{version_of};
ghost use Rattle.log_text.specs.Logs.{IsOfVersion, log_first, log_of, log_text, change_of, change_from};
ghost use Rattle.log_text.specs.Reading.{GivesText, GivesLine, AreFields};

use crate::commands::CommandList;
use crate::faults::{LineFault, LogFault, TextKind};
use crate::frame::{Fields, MAX_ITEMS, print_end, read_path, read_value};
use crate::pieces::read_text;
use std::alloc::Global;
use sync_command::{Command, Version};
use sync_path::NoMemory;

/// The version whose first line the line is.
pub fn version_of(line: &[u8]) -> Option<Version>
    ensures { result ≡ version_of log_first line.now }
{
    if line == b"treelog 1".as_slice() {
        Some(Version::One)
    } else if line == b"treelog 2".as_slice() {
        Some(Version::Two)
    } else {
        None
    }
}

/// Reads the text of a log of at most 2^20 commands, of either version.
///
/// The answer is the version and the list whose text it is. A text of no log is refused at its earliest
/// wrong line, lines counted from 1: with Header at the first line; with End, Count or After where the
/// text ends; and with Fields, TooMany, Path, Value or Same at a line between them, looked for in this
/// order. Memory may run out at any time.
#[tactic(auto, unfolding(crate::specs::Logs::log_of))]
pub fn read_log(alloc: Global, text: &[u8]) -> Result<(Version, Vec<Command>), LogFault>
    ensures reads { GivesText (λ r. (r.0, r.1.items)) result (log_of (parts 10 text.now)) }
    ensures printable { IfOk result (λ r. AllByRecursion (IsOfVersion r.0) r.1.items) }
{
    let mut form = CommandList::new(alloc);
    read_text(alloc, &mut form, text)?;
    Ok(form.into_parts())
}

/// The command of a line's fields after `count` lines of the form, in a text of this version.
pub fn read_fields(
    alloc: Global,
    version: Version,
    count: usize,
    fields: Fields<'_>,
) -> Result<Command, LineFault>
    ensures gives { (ps : List (List ℕ)) → AreFields fields.entry ps → end_number ps ≡ None →
        GivesLine result (change_of version count ps) }
    ensures few { OnOk result (count < MAX_ITEMS) }
{
    match fields {
        Fields::Three(path, old, new_value) => {
            read_command(alloc, version, count, path, old, new_value)
        }
        _ => Err(LineFault::Kind(TextKind::Fields)),
    }
}

/// The command of a line's three fields after `count` lines of the form.
#[tactic(auto, unfolding(crate::specs::Logs::change_of))]
fn read_command(
    alloc: Global,
    version: Version,
    count: usize,
    path: &[u8],
    old: &[u8],
    new_value: &[u8],
) -> Result<Command, LineFault>
    ensures gives { GivesLine result
        (change_of version count (path.now ∷ old.now ∷ new_value.now ∷ [])) }
    ensures few { OnOk result (count < MAX_ITEMS) }
{
    if count >= MAX_ITEMS {
        return Err(LineFault::Kind(TextKind::TooMany));
    }
    command_of(alloc, version, path, old, new_value)
}

/// The command of three fields.
fn command_of(
    alloc: Global,
    version: Version,
    path: &[u8],
    old: &[u8],
    new_value: &[u8],
) -> Result<Command, LineFault>
    ensures { GivesLine result
        (change_from (path_of path.now)
        (value_of version old.now) (value_of version new_value.now)) }
{
    let path = read_path(alloc, path)?;
    let old = read_value(alloc, version, old)?;
    let new_value = read_value(alloc, version, new_value)?;
    match Command::new(path, old, new_value) {
        Ok(command) => Ok(command),
        Err(_) => Err(LineFault::Kind(TextKind::Same)),
    }
}

/// The first line of a log and its line feed.
fn first_line(version: Version) -> &'static [u8]
    ensures { result.now ≡ ended (log_first version) }
{
    match version {
        Version::One => b"treelog 1\n",
        Version::Two => b"treelog 2\n",
    }
}

/// Appends the text of the commands: one that `read_log` reads back, where they are at most 2^20.
///
/// Where memory runs out, `out` begins with what it held.
#[tactic(auto, using(sync_path::proofs::CallerLemmas::kept_on, sync_path::proofs::CallerLemmas::kept_more), unfolding(crate::specs::Logs::log_text))]
pub fn print_log(out: &mut Vec<u8>, version: Version, commands: &[Command]) -> Result<(), NoMemory>
    requires { AllByRecursion (IsOfVersion version) commands.now }
    ensures ok { OnOk result (out.new.items ≡ out.old.items ++ log_text version commands.now) }
    ensures err { OnErr result (take (length out.old.items) out.new.items ≡ out.old.items) }
{
    out.extend_from_slice(first_line(version))?;
    print_commands(out, commands)?;
    print_end(out, commands.len() as u64)
}

/// Appends the lines of the commands.
#[tactic(auto, using(sync_path::proofs::CallerLemmas::kept_on, sync_path::proofs::CallerLemmas::kept_more))]
fn print_commands(out: &mut Vec<u8>, commands: &[Command]) -> Result<(), NoMemory>
    ensures ok { OnOk result
        (out.new.items ≡ out.old.items ++ flat_map (λ c. ended (change_text c)) commands.now) }
    ensures err { OnErr result (take (length out.old.items) out.new.items ≡ out.old.items) }
{
    for command in commands {
        command.print_to(out)?;
        out.push(b'\n')?;
    }
    Ok(())
}
