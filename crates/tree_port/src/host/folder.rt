//! The calls of a tree over a folder of the system.
//!
//! No call opens a file below a folder without following links. So each name on the way to a node is asked for, and
//! the directories on the way to the last node are remembered.

ghost use Rattle.std.specs.Prelude.{◌≤◌, IfOk, option_copied, vec_len};
ghost use Rattle.sync_command.specs.declared.labels.TheConstants.{MAX_LABEL_LEN};
ghost use Rattle.tree_port.specs.Conditions.{AreBelow};
ghost use Rattle.tree_port.specs.declared.host.listing.TheConstants.{MAX_LISTED};

use super::contents::{fault_of, has_bytes, out_of_memory, read_bytes, unless_missing, write_new};
use super::listing::list;
use crate::TreeFault;
use std::alloc::Global;
use std::io::ErrorKind;
use std::{fs, io};
use sync_command::{Bytes, Kind, Label, MAX_FILE_LEN, MAX_LABEL_LEN, Value};
use sync_path::{NoMemory, Path};

/// Contents that are written before they stand at their place.
const NEW: &[u8] = b".sync-new";

/// A folder that is made before it stands at its place.
const DIR: &[u8] = b".sync-dir";

/// A folder that was taken from its place and is removed.
const OLD: &[u8] = b".sync-old";

/// Where a folder's label stands.
const LABEL: &[u8] = b".sync-label";

/// What stands at a node.
#[derive(Clone, Copy, Drop)]
enum Found {
    Nothing,
    Dir,
    File { len: u64 },
}

/// A node that was looked at.
#[derive(Drop)]
struct Seen {
    path: Path,
    found: Found,
}

/// A folder, and what is remembered of it.
#[derive(Drop)]
pub(super) struct Folder<R: std::rt::Files + Clone + Drop> {
    rt: R,
    alloc: Global,
    top: String,
    /// Whether nothing is left of a run that was stopped.
    is_clear: bool,
    /// A directory to which no link leads.
    reached: Option<Path>,
    /// What was looked at last.
    seen: Option<Seen>,
}

impl<R: std::rt::Files + Clone + Drop> Folder<R> {
    pub(super) fn new(rt: R, alloc: Global, folder: &str) -> Result<Folder<R>, NoMemory> {
        let mut top = String::from_str(alloc, folder)?;
        top.push('/')?;
        Ok(Folder {
            rt,
            alloc,
            top,
            is_clear: false,
            reached: None,
            seen: None,
        })
    }

    // ---- texts of paths

    /// The text of a name in the top folder.
    fn text_of(&self, name: &[u8]) -> Result<String, TreeFault> {
        let mut text = String::from_str(self.alloc, &self.top).map_err(out_of_memory)?;
        push_name(&mut text, name)?;
        Ok(text)
    }

    /// The text of the path's first names.
    fn text(&self, path: &Path, depth: usize) -> Result<String, TreeFault> {
        let mut text = String::from_str(self.alloc, &self.top).map_err(out_of_memory)?;
        for place in 0..depth.min(path.depth()) {
            if place > 0 {
                text.push('/').map_err(out_of_memory)?;
            }
            push_name(&mut text, path.name_at(place))?;
        }
        Ok(text)
    }

    /// The text of the file of a folder's label.
    fn label_text(&self, path: &Path) -> Result<String, TreeFault> {
        let folder = self.text(path, path.depth())?;
        joined(self.alloc, &folder, LABEL)
    }

    // ---- looking

    /// What stands under a text: nothing, a folder or a file. All else is refused.
    fn look(&self, text: &str) -> Result<Found, TreeFault> {
        match fs::symlink_metadata(&self.rt, text) {
            Ok(data) if data.is_dir() => Ok(Found::Dir),
            Ok(data) if data.is_file() => Ok(Found::File { len: data.len() }),
            Ok(_) => Err(TreeFault::Failed),
            Err(error) if error.kind() == ErrorKind::NotFound => Ok(Found::Nothing),
            Err(error) => Err(fault_of(&error)),
        }
    }

    /// Whether all above the node are folders. Those that are, are remembered.
    fn reach(&mut self, path: &Path) -> Result<bool, TreeFault> {
        let above = path.depth() - 1;
        let known = match &self.reached {
            Some(reached) => common_names(reached, path).min(above),
            None => 0,
        };
        for depth in known..above {
            let text = self.text(path, depth + 1)?;
            let Found::Dir = self.look(&text)? else {
                self.reached = first_names(self.alloc, path, depth)?;
                return Ok(false);
            };
        }
        if known < above {
            self.reached = first_names(self.alloc, path, above)?;
        }
        Ok(true)
    }

    /// Whether the node is a directory that is remembered, or above one.
    fn is_above_reached(&self, path: &Path) -> bool {
        match &self.reached {
            Some(reached) => reached.same(path) || reached.under(path),
            None => false,
        }
    }

    /// What stands at the node.
    fn find(&mut self, path: &Path) -> Result<Found, TreeFault> {
        self.clear()?;
        if let Some(seen) = &self.seen {
            if seen.path.same(path) {
                return Ok(seen.found);
            }
        }
        if self.is_above_reached(path) {
            return Ok(Found::Dir);
        }
        let found = if self.reach(path)? {
            let text = self.text(path, path.depth())?;
            self.look(&text)?
        } else {
            Found::Nothing
        };
        let path = path.copy(self.alloc).map_err(|_| TreeFault::Memory)?;
        self.seen = Some(Seen { path, found });
        Ok(found)
    }

    /// Forgets what is at or under the node.
    fn forget(&mut self, path: &Path) {
        self.seen = None;
        if self.is_above_reached(path) {
            self.reached = None;
        }
    }

    // ---- what is left of a run that was stopped

    /// Removes what is left of a run that was stopped, in the top folder.
    fn clear(&mut self) -> Result<(), TreeFault> {
        if self.is_clear {
            return Ok(());
        }
        match fs::metadata(&self.rt, self.top.as_str()) {
            Ok(data) if data.is_dir() => {}
            Ok(_) => return Err(TreeFault::Failed),
            // what is named is no folder
            Err(error) if error.kind() == ErrorKind::NotADirectory => {
                return Err(TreeFault::Failed);
            }
            Err(error) => return Err(fault_of(&error)),
        }
        self.discard(NEW)?;
        self.discard(DIR)?;
        self.discard(OLD)?;
        self.is_clear = true;
        Ok(())
    }

    /// Removes what stands under one of the adapter's names; a link itself, and not what it leads to.
    fn discard(&self, name: &[u8]) -> Result<(), TreeFault> {
        let text = self.text_of(name)?;
        let removed = match fs::symlink_metadata(&self.rt, text.as_str()) {
            Ok(data) if data.is_dir() => self.rt.remove_dir_all(self.alloc, &text),
            Ok(_) => fs::remove_file(&self.rt, text.as_str()),
            Err(error) => Err(error),
        };
        unless_missing(removed)
    }

    /// The end of a change that goes by one of the adapter's names. After a refusal what stands there is removed, now or
    /// by the next call.
    fn ended(&mut self, answer: io::Result<()>) -> Result<(), TreeFault> {
        match answer {
            Ok(()) => {
                self.is_clear = true;
                Ok(())
            }
            Err(error) => {
                let _later = self.clear();
                Err(fault_of(&error))
            }
        }
    }

    // ---- reading calls

    pub(super) fn kind(&mut self, path: &Path) -> Result<Kind, TreeFault> {
        match self.find(path)? {
            Found::Nothing => Ok(Kind::Empty),
            Found::Dir => Ok(Kind::Dir),
            Found::File { len: _ } => Ok(Kind::File),
        }
    }

    /// A file is compared by its length first, and read only where that agrees.
    pub(super) fn holds(&mut self, path: &Path, value: &Value) -> Result<bool, TreeFault> {
        match (self.find(path)?, value) {
            (Found::Nothing, Value::Empty) => Ok(true),
            (Found::Dir, Value::Dir(label)) => {
                Ok(self.label_bytes(self.alloc, path)?.as_slice() == label.as_slice())
            }
            (Found::File { len }, Value::File(bytes)) => {
                if len != bytes.as_slice().len() as u64 {
                    return Ok(false);
                }
                let text = self.text(path, path.depth())?;
                has_bytes(&self.rt, &text, bytes.as_slice())
            }
            _ => Ok(false),
        }
    }

    pub(super) fn read_file(&mut self, alloc: Global, path: &Path) -> Result<Bytes, TreeFault> {
        let Found::File { len } = self.find(path)? else {
            return Err(TreeFault::Denied);
        };
        if len > MAX_FILE_LEN as u64 {
            return Err(TreeFault::Failed);
        }
        let text = self.text(path, path.depth())?;
        let bytes = read_bytes(&self.rt, alloc, &text, MAX_FILE_LEN)?;
        Bytes::from_vec(alloc, bytes).map_err(|_| TreeFault::Memory)
    }

    pub(super) fn label(&mut self, alloc: Global, path: &Path) -> Result<Label, TreeFault> {
        let Found::Dir = self.find(path)? else {
            return Err(TreeFault::Denied);
        };
        let bytes = self.label_bytes(alloc, path)?;
        Label::new(alloc, &bytes).map_err(|_| TreeFault::Memory)
    }

    /// The label of a folder; empty where no file has it.
    fn label_bytes(&self, alloc: Global, path: &Path) -> Result<Vec<u8>, TreeFault>
        ensures { IfOk result (λ bytes. vec_len bytes ≤ MAX_LABEL_LEN) }
    {
        let text = self.label_text(path)?;
        match self.look(&text)? {
            Found::Nothing => Ok(Vec::new(alloc)),
            Found::Dir => Err(TreeFault::Failed),
            Found::File { len: _ } => read_bytes(&self.rt, alloc, &text, MAX_LABEL_LEN),
        }
    }

    pub(super) fn children(
        &mut self,
        alloc: Global,
        path: Option<&Path>,
    ) -> Result<Vec<Path>, TreeFault>
        ensures below { IfOk result (λ found. AreBelow (option_copied path.entry) found.items) }
        ensures few { IfOk result (λ found. vec_len found ≤ MAX_LISTED) }
    {
        let text = self.listed_text(path)?;
        let mut dir = self.rt.open_dir(&text).map_err(|error| fault_of(&error))?;
        list(&mut dir, alloc, path)
    }

    /// The text of a folder that is listed.
    fn listed_text(&mut self, path: Option<&Path>) -> Result<String, TreeFault> {
        self.clear()?;
        let Some(path) = path else {
            return String::from_str(self.alloc, &self.top).map_err(out_of_memory);
        };
        let Found::Dir = self.find(path)? else {
            return Err(TreeFault::Denied);
        };
        self.text(path, path.depth())
    }

    // ---- changing calls

    pub(super) fn put_file(&mut self, path: &Path, bytes: &Bytes) -> Result<(), TreeFault> {
        if let Found::Dir = self.find(path)? {
            return Err(TreeFault::Denied);
        }
        if !self.reach(path)? {
            return Err(TreeFault::Denied);
        }
        let text = self.text(path, path.depth())?;
        self.seen = None;
        self.put_at(&text, bytes.as_slice())
    }

    /// Writes the bytes beside, and renames them to the text.
    fn put_at(&mut self, text: &str, bytes: &[u8]) -> Result<(), TreeFault> {
        let beside = self.text_of(NEW)?;
        self.is_clear = false;
        let put = put_by(&self.rt, &beside, text, bytes);
        self.ended(put)
    }

    pub(super) fn make_dir(&mut self, path: &Path, label: &Label) -> Result<(), TreeFault> {
        let Found::Nothing = self.find(path)? else {
            return Err(TreeFault::Denied);
        };
        if !self.reach(path)? {
            return Err(TreeFault::Denied);
        }
        let text = self.text(path, path.depth())?;
        self.seen = None;
        if label.as_slice().is_empty() {
            return fs::create_dir(&self.rt, text.as_str()).map_err(|error| fault_of(&error));
        }
        let beside = self.text_of(DIR)?;
        let inside = joined(self.alloc, &beside, LABEL)?;
        self.is_clear = false;
        let made = make_by(&self.rt, &beside, &inside, &text, label.as_slice());
        self.ended(made)
    }

    pub(super) fn set_label(&mut self, path: &Path, label: &Label) -> Result<(), TreeFault> {
        let Found::Dir = self.find(path)? else {
            return Err(TreeFault::Denied);
        };
        let text = self.label_text(path)?;
        if label.as_slice().is_empty() {
            return unless_missing(fs::remove_file(&self.rt, text.as_str()));
        }
        self.put_at(&text, label.as_slice())
    }

    pub(super) fn remove(&mut self, path: &Path) -> Result<(), TreeFault> {
        let found = self.find(path)?;
        let text = self.text(path, path.depth())?;
        self.forget(path);
        let removed = match found {
            Found::Nothing => return Err(TreeFault::Denied),
            Found::File { len: _ } => fs::remove_file(&self.rt, text.as_str()),
            Found::Dir => fs::remove_dir(&self.rt, text.as_str()),
        };
        match removed {
            Ok(()) => Ok(()),
            Err(error) if error.kind() == ErrorKind::DirectoryNotEmpty => {
                self.remove_with_label(path, &text)
            }
            Err(error) => Err(fault_of(&error)),
        }
    }

    /// Removes a folder that has nothing but names of the adapter: it is taken from its place in one step. Once it is
    /// away no memory is taken where its label is all that it has, so that it stays in its place where memory runs out.
    fn remove_with_label(&mut self, path: &Path, text: &str) -> Result<(), TreeFault> {
        if !self.children(self.alloc, Some(path))?.is_empty() {
            return Err(TreeFault::Denied);
        }
        let old = self.text_of(OLD)?;
        let label = joined(self.alloc, &old, LABEL)?;
        self.forget(path);
        fs::rename(&self.rt, text, old.as_str()).map_err(|error| fault_of(&error))?;
        if remove_labelled(&self.rt, &old, &label).is_err() {
            self.is_clear = false;
            return self.clear().map_err(|_| TreeFault::Failed);
        }
        Ok(())
    }
}

/// Appends a name, which is UTF-8 in every path.
fn push_name(text: &mut String, name: &[u8]) -> Result<(), TreeFault> {
    match std::str::from_utf8(name) {
        Ok(name) => text.push_str(name).map_err(out_of_memory),
        Err(_) => Err(TreeFault::Failed),
    }
}

/// A name in a folder.
fn joined(alloc: Global, folder: &str, name: &[u8]) -> Result<String, TreeFault> {
    let mut text = String::from_str(alloc, folder).map_err(out_of_memory)?;
    text.push('/').map_err(out_of_memory)?;
    push_name(&mut text, name)?;
    Ok(text)
}

/// How many names the two paths begin with alike.
fn common_names(left: &Path, right: &Path) -> usize {
    let most = left.depth().min(right.depth());
    for place in 0..most {
        if left.name_at(place) != right.name_at(place) {
            return place;
        }
    }
    most
}

/// The path's first names, so many of them.
fn first_names(alloc: Global, path: &Path, count: usize) -> Result<Option<Path>, TreeFault> {
    if count == 0 {
        return Ok(None);
    }
    let mut first = path.copy(alloc).map_err(|_| TreeFault::Memory)?;
    for _ in count..path.depth() {
        first.pop();
    }
    Ok(Some(first))
}

/// Removes a folder that has its label and nothing else.
fn remove_labelled<R: std::rt::Files>(rt: &R, folder: &str, label: &str) -> io::Result<()> {
    fs::remove_file(rt, label)?;
    fs::remove_dir(rt, folder)
}

/// Writes a file beside and renames it, in the place of a file or of nothing.
fn put_by<R: std::rt::Files>(rt: &R, beside: &str, text: &str, bytes: &[u8]) -> io::Result<()> {
    write_new(rt, beside, bytes)?;
    fs::rename(rt, beside, text)
}

/// Makes a folder with its label beside, and renames it.
fn make_by<R: std::rt::Files>(
    rt: &R,
    beside: &str,
    inside: &str,
    text: &str,
    label: &[u8],
) -> io::Result<()> {
    fs::create_dir(rt, beside)?;
    write_new(rt, inside, label)?;
    fs::rename(rt, beside, text)
}
