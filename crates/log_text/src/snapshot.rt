//! The text of a snapshot.

ghost use Rattle.std.specs.Prelude.{◌≡◌, ◌≤◌, ◌<◌, ◌↔◌, ◌∷◌, ◌++◌, [], true, false, length, take, Some, IsTrue, MatchOption, IfOk, OnOk, OnErr};
ghost use Rattle.std.specs.List.{flat_map, AllByRecursion};
ghost use Rattle.sync_path.specs.Paths.{parts, parent};
ghost use Rattle.sync_path.specs.Reading.{path_of};
ghost use Rattle.sync_command.specs.Values.{is_dir, is_empty, value_of};
ghost use Rattle.sync_command.specs.Rows.{IsRowTree, gives_dir, has_parent, is_after_rows};
ghost use Rattle.log_text.specs.Frame.{ended};
ghost use Rattle.log_text.specs.Versions.{version_of};
ghost use Rattle.log_text.specs.Snapshots.{IsRowOfVersion, snapshot_first, snapshot_of, snapshot_text, row_of, row_from, row_fault, row_text};
ghost use Rattle.log_text.specs.Reading.{GivesText, GivesLine, IsGivenDir};

use crate::faults::{LineFault, LogFault, TextKind};
use crate::frame::{MAX_ITEMS, print_end, read_path, read_value};
use crate::pieces::read_text;
use crate::rows::RowList;
use std::alloc::Global;
use sync_command::{Row, Value, Version};
use sync_path::{NoMemory, Path};

/// The version whose first line the line is.
pub fn version_of(line: &[u8]) -> Option<Version>
    ensures { result ≡ version_of snapshot_first line.now }
{
    if line == b"treesnap 1".as_slice() {
        Some(Version::One)
    } else if line == b"treesnap 2".as_slice() {
        Some(Version::Two)
    } else {
        None
    }
}

/// Reads the text of a snapshot of at most 2^20 rows, which are a tree in path order, of either version.
///
/// The answer is the version and the list whose text it is. A text of no snapshot is refused at its
/// earliest wrong line, lines counted from 1: with Header at the first line; with End, Count or After
/// where the text ends; and with Fields, TooMany, Path, Value, Empty, Order or Parent at a line between
/// them, looked for in this order. Memory may run out at any time.
#[tactic(auto, unfolding(crate::specs::Snapshots::snapshot_of))]
pub fn read_snapshot(alloc: Global, text: &[u8]) -> Result<(Version, Vec<Row>), LogFault>
    ensures reads { GivesText (λ r. (r.0, r.1.items)) result (snapshot_of (parts 10 text.now)) }
    ensures tree { IfOk result (λ r. IsRowTree r.1.items) }
    ensures printable { IfOk result (λ r. AllByRecursion (IsRowOfVersion r.0) r.1.items) }
{
    let mut form = RowList::new(alloc);
    read_text(alloc, &mut form, text)?;
    Ok(form.into_parts())
}

/// How many rows there are.
fn number_of(rows: &Vec<Row>) -> usize
    ensures { result ≡ length rows.now.items }
{
    rows.len()
}

/// The row of a line's two fields after the rows before it, in a text of this version.
///
/// `directory` is one that those rows give, or none: it spares a look-up for each further child.
#[tactic(auto, unfolding(crate::specs::Snapshots::row_of))]
pub fn read_row(
    alloc: Global,
    version: Version,
    rows: &Vec<Row>,
    directory: &mut Option<Path>,
    path: &[u8],
    value: &[u8],
) -> Result<Row, LineFault>
    requires tree { IsRowTree rows.now.items }
    requires given { IsGivenDir rows.now.items directory.old }
    ensures gives { GivesLine result
        (row_of version rows.now.items (path.now ∷ value.now ∷ [])) }
    ensures few { OnOk result (length rows.now.items < MAX_ITEMS) }
    ensures given { IsGivenDir rows.now.items directory.new }
{
    if number_of(rows) >= MAX_ITEMS {
        return Err(LineFault::Kind(TextKind::TooMany));
    }
    let path = read_path(alloc, path)?;
    let value = read_value(alloc, version, value)?;
    match fault_in(alloc, rows, directory, &path, &value) {
        Ok(None) => Ok(Row { path, value }),
        Ok(Some(kind)) => Err(LineFault::Kind(kind)),
        Err(_) => Err(LineFault::Memory),
    }
}

/// Why a path and a value make no row after the rows before it.
fn fault_in(
    alloc: Global,
    rows: &[Row],
    directory: &mut Option<Path>,
    path: &Path,
    value: &Value,
) -> Result<Option<TextKind>, NoMemory>
    requires tree { IsRowTree rows.now }
    requires given { IsGivenDir rows.now directory.old }
    ensures fault { IfOk result (λ fault. fault ≡ row_fault rows.now path.now value.now) }
    ensures given { IsGivenDir rows.now directory.new }
{
    if value.is_empty() {
        return Ok(Some(TextKind::Empty));
    }
    if !follows_rows(rows, path) {
        return Ok(Some(TextKind::Order));
    }
    if has_parent(alloc, rows, directory, path)? {
        Ok(None)
    } else {
        Ok(Some(TextKind::Parent))
    }
}

/// Whether the path is greater than that of the last row.
fn follows_rows(rows: &[Row], path: &Path) -> bool
    ensures { result ≡ is_after_rows rows.now path.now }
{
    match rows.last() {
        None => true,
        Some(row) => row.path.cmp(path).is_lt(),
    }
}

/// Whether the path has no parent, or a row gives its parent as a directory: that is kept then.
fn has_parent(
    alloc: Global,
    rows: &[Row],
    directory: &mut Option<Path>,
    path: &Path,
) -> Result<bool, NoMemory>
    requires tree { IsRowTree rows.now }
    requires follows { is_after_rows rows.now path.now ≡ true }
    requires given { IsGivenDir rows.now directory.old }
    ensures found { IfOk result (λ found. found ≡ has_parent rows.now path.now) }
    ensures given { IsGivenDir rows.now directory.new }
{
    if is_parent(directory, path) {
        return Ok(true);
    }
    match path.parent(alloc)? {
        None => Ok(true),
        Some(upper) => {
            let found = gives_parent(rows, path, &upper);
            if found {
                *directory = Some(upper);
            }
            Ok(found)
        }
    }
}

/// Whether the directory that was kept is the path's parent.
fn is_parent(directory: &Option<Path>, path: &Path) -> bool
    ensures { MatchOption directory.now (result ≡ false)
        (λ n. IsTrue result ↔ (parent path.now ≡ Some n)) }
{
    match directory {
        None => false,
        Some(directory) => directory.parent_of(path),
    }
}

/// Whether a row gives the parent of a path that follows the rows as a directory. In path
/// order only the last row, or a directory above it, can be that parent.
fn gives_parent(rows: &[Row], path: &Path, upper: &Path) -> bool
    requires tree { IsRowTree rows.now }
    requires follows { is_after_rows rows.now path.now ≡ true }
    requires parent { parent path.now ≡ Some upper.now }
    ensures { result ≡ gives_dir rows.now upper.now }
{
    match rows.last() {
        None => false,
        Some(row) => row.path.under(upper) || (row.path.same(upper) && row.value.is_dir()),
    }
}

/// The first line of a snapshot and its line feed.
fn first_line(version: Version) -> &'static [u8]
    ensures { result.now ≡ ended (snapshot_first version) }
{
    match version {
        Version::One => b"treesnap 1\n",
        Version::Two => b"treesnap 2\n",
    }
}

/// Appends the text of the rows: one that `read_snapshot` reads back, where they are at most 2^20
/// and a tree in path order.
///
/// Where memory runs out, `out` begins with what it held.
#[tactic(auto, using(sync_path::proofs::CallerLemmas::kept_on, sync_path::proofs::CallerLemmas::kept_more), unfolding(crate::specs::Snapshots::snapshot_text))]
pub fn print_snapshot(out: &mut Vec<u8>, version: Version, rows: &[Row]) -> Result<(), NoMemory>
    requires { AllByRecursion (IsRowOfVersion version) rows.now }
    ensures ok { OnOk result (out.new.items ≡ out.old.items ++ snapshot_text version rows.now) }
    ensures err { OnErr result (take (length out.old.items) out.new.items ≡ out.old.items) }
{
    out.extend_from_slice(first_line(version))?;
    print_rows(out, rows)?;
    print_end(out, rows.len() as u64)
}

/// Appends the lines of the rows.
#[tactic(auto, using(sync_path::proofs::CallerLemmas::kept_on, sync_path::proofs::CallerLemmas::kept_more))]
fn print_rows(out: &mut Vec<u8>, rows: &[Row]) -> Result<(), NoMemory>
    ensures ok { OnOk result
        (out.new.items ≡ out.old.items ++ flat_map (λ row. ended (row_text row)) rows.now) }
    ensures err { OnErr result (take (length out.old.items) out.new.items ≡ out.old.items) }
{
    for row in rows {
        print_row(row, out)?;
        out.push(b'\n')?;
    }
    Ok(())
}

/// Appends a row's line without its line feed.
#[tactic(auto, using(sync_path::proofs::CallerLemmas::kept_on, sync_path::proofs::CallerLemmas::kept_more))]
fn print_row(row: &Row, out: &mut Vec<u8>) -> Result<(), NoMemory>
    ensures ok { OnOk result (out.new.items ≡ out.old.items ++ row_text row.now) }
    ensures err { OnErr result (take (length out.old.items) out.new.items ≡ out.old.items) }
{
    row.path.print_to(out)?;
    out.push(b' ')?;
    row.value.print_to(out)
}
