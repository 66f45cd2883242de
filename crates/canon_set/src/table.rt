//! The table of a sum: what is kept of each touched node and of each node above one, and how the counts of children
//! follow what nodes hold.

ghost use Rattle.std.specs.Prelude.{◌≡◌, ◌<◌, ◌≤◌, ◌+◌, ◌-◌, ◌^◌, ◌++◌, ◌∷◌, [], ℕ, length, map, slice_get, slice_set, get_or, true, false, is_some, not, None, Some, OnOk, OnErr, IfOk, if◌then◌else◌, cond};
ghost use Rattle.std.specs.Bool.{OnTrue, OnFalse};
ghost use Rattle.std.specs.List.{filter};
ghost use Rattle.std.specs.Ordering.{is_eq};
ghost use Rattle.std.specs.HashMap.{spare, keys};
ghost use Rattle.sync_path.specs.Paths.{Node, parent, path_cmp, same_path};
ghost use Rattle.sync_command.specs.Values.{is_empty};
ghost use Rattle.sync_command.specs.Changes.{is_change};
ghost use Rattle.canon_set.specs.Touches.{first_touch_of, renewed, change_of, lent_touch};
ghost use Rattle.canon_set.specs.Tables.{place_of, touches_in, is_untouched, entry_at, IsSame, Renews};
ghost use Rattle.canon_set.specs.Entries.{children_in, Counts, IsClosed, Raises, Enters, Recounts, Lifts};

use crate::{Touch, TouchRef};
use indexmap::IndexMap;
use std::alloc::Global;
use std::collections::HashMap;
use sync_command::{Command, Value};
use sync_path::{NoMemory, Path};

/// What the table keeps of a touched node.
#[derive(Debug, Drop)]
pub(crate) struct Touched {
    first: Value,
    last: Value,
    left_dir: bool,
    // how many of its children are known to hold something after the log
    children: usize,
}

/// What the table knows of a node that a log touches, or that is above a touched one.
#[derive(Clone, Copy, Debug, Drop)]
pub(crate) struct Entry {
    /// Where the node stands among the touched ones; nowhere, if it is only above one.
    pub place: Option<usize>,
    /// How many of its children are known to hold something after the log.
    pub children: usize,
}

/// The nodes that a log touches, in order of first touch, and the untouched nodes above them.
#[derive(Drop)]
pub(crate) struct Table {
    touched: IndexMap<Path, Touched>,
    // of each untouched node above a touched one, how many of its children are known to hold something after the log
    above: HashMap<Path, usize>,
}

impl Table {
    /// The empty table. Takes no memory.
    pub(crate) fn new(alloc: Global) -> Table
        ensures touched { touches_in result ≡ [] }
        ensures entries { (p : Node) → entry_at result p ≡ None }
    {
        Table {
            touched: IndexMap::new(alloc),
            above: HashMap::new(alloc),
        }
    }

    /// The number of touched nodes.
    pub(crate) fn len(&self) -> usize
        ensures { result ≡ length (touches_in self.now) }
    {
        self.touched.len()
    }

    /// The touched node at a place.
    pub(crate) fn touch(&self, place: usize) -> TouchRef<'_>
        requires { place < length (touches_in self.now) }
        ensures { slice_get (touches_in self.now) place ≡ Some (lent_touch result) }
    {
        match self.touched.get_index(place) {
            Some((path, touched)) => TouchRef {
                path,
                first: &touched.first,
                last: &touched.last,
                left_dir: touched.left_dir,
            },
            None => unreachable!(),
        }
    }

    /// What the table knows of a node; nothing of one that is neither touched nor above a touched one.
    pub(crate) fn entry(&self, path: &Path) -> Option<Entry>
        ensures { result ≡ entry_at self.now path.now }
    {
        if let Some((place, _, touched)) = self.touched.get_full(path) {
            return Some(Entry {
                place: Some(place),
                children: touched.children,
            });
        }
        match self.above.get(path) {
            Some(children) => Some(Entry {
                place: None,
                children: *children,
            }),
            None => None,
        }
    }

    /// Counts children of a node that came to hold something, and takes off those that no longer do; `false` where the
    /// table does not know the node.
    fn count(&mut self, path: &Path, added: usize, taken: usize) -> bool
        requires few { children_in (entry_at self.old path.now) + added < 2 ^ 64 }
        requires some { taken ≤ children_in (entry_at self.old path.now) + added }
        ensures known { OnTrue result (Counts (entry_at self.old) (entry_at self.new) path.now added
            taken) }
        ensures unknown { OnFalse result ((entry_at self.old path.now ≡ None) ×
            (self.new ≡ self.old)) }
        ensures touched { touches_in self.new ≡ touches_in self.old }
        ensures space { (spare self.new.touched ≡ spare self.old.touched) ×
            (spare self.new.above ≡ spare self.old.above) }
    {
        if let Some(place) = self.touched.get_index_of(path) {
            let (_, touched) = self.touched.pair_mut(place);
            touched.children = touched.children + added - taken;
            return true;
        }
        match self.above.get_mut(path) {
            Some(children) => {
                *children = *children + added - taken;
                true
            }
            None => false,
        }
    }

    /// Makes space for one more touched node, and for so many above.
    pub(crate) fn reserve(&mut self, above: usize) -> Result<(), NoMemory>
        ensures touched { touches_in self.new ≡ touches_in self.old }
        ensures entries { (p : Node) → entry_at self.new p ≡ entry_at self.old p }
        ensures ok { OnOk result ((0 < spare self.new.touched)
            × (above ≤ spare self.new.above)) }
    {
        self.touched.reserve(1)?;
        self.above.reserve(above)?;
        Ok(())
    }

    /// A node comes into the table: its parent counts it where it holds something. The nodes above it that are not in
    /// the table come in too; each of them holds something, since something is under it. There is space for all of them.
    /// Where memory runs out the table knows what it knew. The path is shrunk on the way.
    fn raise(&mut self, alloc: Global, way: &mut Path, is_full: bool) -> Result<(), NoMemory>
        requires unknown { entry_at self.old way.old ≡ None }
        requires closed { IsClosed (entry_at self.old) }
        requires space { length way.old ≤ spare self.old.above }
        requires few { (q : Node) → children_in (entry_at self.old q) + 1 < 2 ^ 64 }
        ensures ok { OnOk result (Raises (entry_at self.old) (entry_at self.new) way.old is_full) }
        ensures touched { touches_in self.new ≡ touches_in self.old }
        ensures space { OnOk result ((spare self.new.touched ≡ spare self.old.touched) ×
            (spare self.old.above ≤ spare self.new.above + length way.old)) }
        ensures err { OnErr result ((p : Node) → entry_at self.new p ≡ entry_at self.old p) }
    {
        if !way.pop() {
            return Ok(());
        }
        if self.count(way, usize::from(is_full), 0) {
            return Ok(());
        }
        let parent = way.copy(alloc)?;
        self.raise(alloc, way, true)?;
        match self.above.insert(parent, usize::from(is_full)) {
            Ok(_) => Ok(()),
            Err(_) => unreachable!(),
        }
    }

    /// A node of the table that held something, or nothing, now does or does not: the count of its parent follows. The
    /// path is shrunk on the way.
    pub(crate) fn recount(&mut self, way: &mut Path, was_full: bool, is_full: bool)
        requires known { is_some (entry_at self.old way.old) ≡ true }
        requires few { (q : Node) → children_in (entry_at self.old q) + 1 < 2 ^ 64 }
        requires counted { (q : Node) → parent way.old ≡ Some q → was_full ≡ true →
            0 < children_in (entry_at self.old q) }
        ensures ok { Recounts (entry_at self.old) (entry_at self.new) way.old was_full is_full }
        ensures touched { touches_in self.new ≡ touches_in self.old }
        ensures space { (spare self.new.touched ≡ spare self.old.touched) ×
            (spare self.new.above ≡ spare self.old.above) }
    {
        if was_full == is_full {
            return;
        }
        if !way.pop() {
            return;
        }
        self.count(way, usize::from(is_full), usize::from(was_full));
    }

    /// The first touch of a node that is not touched, with its count of children.
    fn put(&mut self, command: Command, children: usize)
        requires untouched { place_of (touches_in self.old) command.node ≡ None }
        requires space { 0 < spare self.old.touched }
        ensures touched { touches_in self.new ≡ touches_in self.old
            ++ first_touch_of command ∷ [] }
        ensures entries { (p : Node) → entry_at self.new p ≡ cond (is_eq (path_cmp command.node p))
            (Some (record { place = Some (length (touches_in self.old)); children = children }))
            (entry_at self.old p) }
    {
        let (path, first, last) = command.into_parts();
        let touched = Touched {
            left_dir: !first.is_dir() | !last.is_dir(),
            first,
            last,
            children,
        };
        match self.touched.insert(path, touched) {
            Ok(_) => {}
            Err(_) => unreachable!(),
        }
    }

    /// The first command of a node that the table does not know: the node comes in with those above it. After want of
    /// memory the table knows what it knew. The path is the node's, and is shrunk on the way.
    pub(crate) fn enter(
        &mut self,
        alloc: Global,
        way: &mut Path,
        command: Command,
    ) -> Result<(), NoMemory>
        requires way { way.old ≡ command.node }
        requires unknown { entry_at self.old command.node ≡ None }
        requires closed { IsClosed (entry_at self.old) }
        requires few { (q : Node) → children_in (entry_at self.old q) + 1 < 2 ^ 64 }
        ensures touched { OnOk result (touches_in self.new ≡ touches_in self.old ++ first_touch_of
            command ∷ []) }
        ensures ok { OnOk result (Enters (entry_at self.old) (entry_at self.new) command.node
            (record { place = Some (length (touches_in self.old)); children = 0 })
            (not (is_empty command.new))) }
        ensures err { OnErr result (IsSame self.old self.new) }
    {
        let is_full = !command.new_value().is_empty();
        self.reserve(way.depth())?;
        self.raise(alloc, way, is_full)?;
        self.put(command, 0);
        Ok(())
    }

    /// The first command of an untouched node above touched ones, so of one that held a directory: it becomes one of
    /// the touched nodes, and keeps its count. Where memory runs out the table knows what it knew. The path is the
    /// node's, and is shrunk on the way.
    pub(crate) fn lift(&mut self, way: &mut Path, command: Command) -> Result<(), NoMemory>
        requires way { way.old ≡ command.node }
        requires known { is_some (entry_at self.old command.node) ≡ true }
        requires untouched { place_of (touches_in self.old) command.node ≡ None }
        requires few { (q : Node) → children_in (entry_at self.old q) + 1 < 2 ^ 64 }
        requires counted { (q : Node) → parent command.node ≡ Some q →
            0 < children_in (entry_at self.old q) }
        ensures touched { OnOk result (touches_in self.new ≡ touches_in self.old ++ first_touch_of
            command ∷ []) }
        ensures ok { OnOk result (Lifts (entry_at self.old) (entry_at self.new) command.node
            (length (touches_in self.old)) (not (is_empty command.new))) }
        ensures err { OnErr result (IsSame self.old self.new) }
    {
        self.reserve(0)?;
        let is_full = !command.new_value().is_empty();
        self.recount(way, true, is_full);
        let children = self.above.remove(command.path()).unwrap_or(0);
        self.put(command, children);
        Ok(())
    }

    /// A further command of a touched node. The path is the node's, and is shrunk on the way.
    pub(crate) fn renew(&mut self, place: usize, way: &mut Path, command: Command)
        requires way { way.old ≡ command.node }
        requires place { place_of (touches_in self.old) command.node ≡ Some place }
        requires known { is_some (entry_at self.old command.node) ≡ true }
        requires few { (q : Node) → children_in (entry_at self.old q) + 1 < 2 ^ 64 }
        requires counted { (q : Node) → parent command.node ≡ Some q →
            not (is_empty command.old) ≡ true → 0 < children_in (entry_at self.old q) }
        ensures touched { Renews (touches_in self.old) (touches_in self.new) place command.new }
        ensures entries { Recounts (entry_at self.old) (entry_at self.new) command.node
            (not (is_empty command.old)) (not (is_empty command.new)) }
    {
        let was_full = !command.old().is_empty();
        let is_full = !command.new_value().is_empty();
        self.recount(way, was_full, is_full);
        let (_, _, last) = command.into_parts();
        self.set_last(place, last);
    }

    /// Gives a touched node a further value.
    fn set_last(&mut self, place: usize, last: Value)
        requires { place < length (touches_in self.old) }
        ensures touched { Renews (touches_in self.old) (touches_in self.new) place last }
        ensures entries { (p : Node) → entry_at self.new p ≡ entry_at self.old p }
    {
        let (_, touched) = self.touched.pair_mut(place);
        touched.left_dir = touched.left_dir | !last.is_dir();
        touched.last = last;
    }

    /// The changes from first values to last ones, where these differ, in order of first touch. They share the table's
    /// file contents.
    pub(crate) fn changes(&self, alloc: Global) -> Result<Vec<Command>, NoMemory>
        ensures { IfOk result (λ commands. commands.items ≡ filter is_change
            (map change_of (touches_in self.now))) }
    {
        let mut commands = Vec::new(alloc);
        'touched: for (path, touched) in &self.touched {
            if !touched.first.same(&touched.last) {
                let first = touched.first.copy(alloc)?;
                let last = touched.last.copy(alloc)?;
                push_change(&mut commands, path.copy(alloc)?, first, last)?;
            }
        }
        Ok(commands)
    }

    /// The same, made of the table's own paths and values.
    pub(crate) fn into_changes(self, alloc: Global) -> Result<Vec<Command>, NoMemory>
        ensures { IfOk result (λ commands. commands.items ≡ filter is_change
            (map change_of (touches_in self))) }
    {
        let Table { touched, above } = self;
        // it need not stay while the commands are made
        drop(above);
        let mut commands = Vec::with_capacity(alloc, touched.len())?;
        'touched: for (path, touched) in touched {
            push_change(&mut commands, path, touched.first, touched.last)?;
        }
        Ok(commands)
    }

    /// The touched nodes, in order of first touch, and the untouched nodes above them, in no order: the table's own
    /// paths and values.
    pub(crate) fn into_parts(self, alloc: Global) -> Result<(Vec<Touch>, Vec<Path>), NoMemory>
        ensures touched { IfOk result (λ parts. parts.0.items ≡ touches_in self) }
        ensures above { IfOk result (λ parts. parts.1.items ≡ filter (is_untouched self)
            (keys self.above)) }
    {
        let Table { touched, above } = self;
        let mut paths = Vec::with_capacity(alloc, above.len())?;
        'above: for (path, _) in above {
            if touched.get_index_of(&path).is_none() {
                paths.push(path)?;
            }
        }
        let mut touches = Vec::with_capacity(alloc, touched.len())?;
        'touched: for (path, touched) in touched {
            touches.push(Touch {
                path,
                first: touched.first,
                last: touched.last,
                left_dir: touched.left_dir,
            })?;
        }
        Ok((touches, paths))
    }
}

/// Appends the change from the first value to the last, where they differ.
fn push_change(
    commands: &mut Vec<Command>,
    path: Path,
    first: Value,
    last: Value,
) -> Result<(), NoMemory>
    ensures { OnOk result (commands.new.items ≡ commands.old.items ++ filter is_change
        (record { node = path; old = first; new = last } ∷ [])) }
{
    match Command::new(path, first, last) {
        Ok(command) => commands.push(command)?,
        Err(_) => {}
    }
    Ok(())
}
