//! A tree over a folder of the system. Nothing is known of what it holds.

ghost use Rattle.std.specs.Prelude.{◌≡◌, IfOk};
ghost use Rattle.tree_port.specs.InMemory.{no_counts};

use self::folder::Folder;
use crate::counter::Counter;
use crate::{Tree, TreeFault};
use std::alloc::Global;
use std::marker::Model;
use sync_command::{Bytes, Kind, Label, Value};
use sync_path::{NoMemory, Path};

mod contents;
mod folder;
mod listing;

/// The tree below a folder of a runtime, seen as its counts.
///
/// A directory is a folder, and its label stands in a file `.sync-label` in it; a file is a file. Everything else, as
/// a link or a device, is refused with `Failed` wherever it stands on the way to a node, and nothing is followed: so
/// nothing outside the folder is read or written. The folder itself may be reached by a link.
///
/// No name that begins with `.sync-` is listed. `Failed` also answers a name that is none here, a file or a label that
/// is too long, a listing that is too long, and every error of the system that is neither a refusal of permission or
/// kind, which is `Denied`, nor out of memory.
///
/// Each change is one step of the system. What is put is written beside, in the top folder, and renamed; what is left
/// there by a run that was stopped is removed by the first call of the next. Nobody else is to write to the folder
/// meanwhile: the tree remembers what it has just looked at, and the folders on the way there.
#[derive(Drop)]
pub struct HostTree<R: std::rt::Files + Clone + Drop> {
    folder: Folder<R>,
    counter: Counter,
}

impl<R: std::rt::Files + Clone + Drop> Model for HostTree<R> {
    ghost use Rattle.tree_port.specs.States.{Counts};
    ghost use Rattle.tree_port.specs.InMemory.{counts_of};

    ghost Value = { Counts };

    ghost view = { λ s. counts_of s.counter };
}

impl<R: std::rt::Files + Clone + Drop> HostTree<R> {
    /// The tree below a folder, of which the runtime is kept. The folder is not looked at yet.
    pub fn new(rt: R, alloc: Global, folder: &str) -> Result<HostTree<R>, NoMemory>
        ensures { IfOk result (λ tree. tree ≡ no_counts) }
    {
        Ok(HostTree {
            folder: Folder::new(rt, alloc, folder)?,
            counter: Counter::new(),
        })
    }
}

impl<R: std::rt::Files + Clone + Drop> Tree for HostTree<R> {
    ghost use Rattle.tree_port.specs.States.{unknown_tree};

    ghost live = { unknown_tree };

    fn kind(&mut self, path: &Path) -> Result<Kind, TreeFault> {
        let answer = self.folder.kind(path);
        self.counter.read(&answer);
        answer
    }

    fn holds(&mut self, path: &Path, value: &Value) -> Result<bool, TreeFault> {
        let answer = self.folder.holds(path, value);
        self.counter.read(&answer);
        answer
    }

    fn read_file(&mut self, alloc: Global, path: &Path) -> Result<Bytes, TreeFault> {
        let answer = self.folder.read_file(alloc, path);
        self.counter.read(&answer);
        answer
    }

    fn label(&mut self, alloc: Global, path: &Path) -> Result<Label, TreeFault> {
        let answer = self.folder.label(alloc, path);
        self.counter.read(&answer);
        answer
    }

    fn children(&mut self, alloc: Global, path: Option<&Path>) -> Result<Vec<Path>, TreeFault> {
        let answer = self.folder.children(alloc, path);
        self.counter.read(&answer);
        answer
    }

    fn put_file(&mut self, path: &Path, bytes: &Bytes) -> Result<(), TreeFault> {
        let answer = self.folder.put_file(path, bytes);
        self.counter.changed(&answer);
        answer
    }

    fn make_dir(&mut self, path: &Path, label: &Label) -> Result<(), TreeFault> {
        let answer = self.folder.make_dir(path, label);
        self.counter.changed(&answer);
        answer
    }

    fn set_label(&mut self, path: &Path, label: &Label) -> Result<(), TreeFault> {
        let answer = self.folder.set_label(path, label);
        self.counter.changed(&answer);
        answer
    }

    fn remove(&mut self, path: &Path) -> Result<(), TreeFault> {
        let answer = self.folder.remove(path);
        self.counter.changed(&answer);
        answer
    }

    fn changed(&self) -> u64 {
        self.counter.changes()
    }
}
