//! A tree in memory that does not fail.

ghost use Rattle.std.specs.Prelude.{◌≡◌, IfOk, option_copied};
ghost use Rattle.tree_port.specs.InMemory.{held_by, mem_counts, no_counts};

use crate::counter::Counter;
use crate::{Tree, TreeFault, maps};
use apply_model::TreeMap;
use std::alloc::Global;
use sync_command::{Bytes, Kind, Label, Value};
use sync_path::Path;

/// A tree in memory, of which it is known what it holds. It never answers `Failed`.
///
/// It is made for tests: to list the children of a node it looks at all nodes.
#[derive(Drop)]
pub struct MemTree {
    map: TreeMap,
    counter: Counter,
}

impl MemTree {
    /// A tree that holds what the map holds. Its counts are 0.
    pub fn new(map: TreeMap) -> MemTree
        ensures held { held_by result ≡ map }
        ensures counts { mem_counts result ≡ no_counts }
    {
        MemTree {
            map,
            counter: Counter::new(),
        }
    }
}

impl Tree for MemTree {
    ghost use Rattle.tree_port.specs.Calls.{GivesBytes, GivesChildren, GivesKind, GivesLabel, IsChanging, IsReading, MakesDir, PutsFile, Removes, SetsLabel, AnswersIfHeld};
    ghost use Rattle.tree_port.specs.Conditions.{AreBelow};
    ghost use Rattle.tree_port.specs.InMemory.{DidNotFail, held_by, mem_state};
    ghost use Rattle.sync_command.specs.Maps.{IsTreeMap};

    ghost live = { mem_state };

    fn kind(&mut self, path: &Path) -> Result<Kind, TreeFault>
        ensures reading { IsReading result (mem_state self.old) (mem_state self.new) }
        ensures answer { GivesKind path.now result (held_by self.old) }
        ensures fault { DidNotFail result }
    {
        Ok(maps::kind(&self.map, path))
    }

    fn holds(&mut self, path: &Path, value: &Value) -> Result<bool, TreeFault>
        ensures reading { IsReading result (mem_state self.old) (mem_state self.new) }
        ensures answer { AnswersIfHeld path.now value.now result (held_by self.old) }
        ensures fault { DidNotFail result }
    {
        Ok(maps::holds(&self.map, path, value))
    }

    fn read_file(&mut self, _alloc: Global, path: &Path) -> Result<Bytes, TreeFault>
        ensures reading { IsReading result (mem_state self.old) (mem_state self.new) }
        ensures answer { GivesBytes path.now result (held_by self.old) }
        ensures fault { DidNotFail result }
    {
        let answer = maps::read_file(&self.map, path);
        self.counter.read(&answer);
        answer
    }

    fn label(&mut self, _alloc: Global, path: &Path) -> Result<Label, TreeFault>
        ensures reading { IsReading result (mem_state self.old) (mem_state self.new) }
        ensures answer { GivesLabel path.now result (held_by self.old) }
        ensures fault { DidNotFail result }
    {
        let answer = maps::label(&self.map, path);
        self.counter.read(&answer);
        answer
    }

    fn children(&mut self, alloc: Global, path: Option<&Path>) -> Result<Vec<Path>, TreeFault>
        ensures reading { IsReading result (mem_state self.old) (mem_state self.new) }
        ensures below { IfOk result (λ found. AreBelow (option_copied path.entry) found.items) }
        ensures answer { GivesChildren (option_copied path.entry) result (held_by self.old) }
        ensures fault { DidNotFail result }
    {
        let answer = maps::children(&self.map, alloc, path);
        self.counter.read(&answer);
        answer
    }

    fn put_file(&mut self, path: &Path, bytes: &Bytes) -> Result<(), TreeFault>
        ensures counts { IsChanging result (mem_state self.old) (mem_state self.new) }
        ensures contents { PutsFile path.now bytes.now result (held_by self.old)
            (held_by self.new) }
        ensures fault { DidNotFail result }
    {
        let answer = maps::put_file(&mut self.map, path, bytes);
        self.counter.changed(&answer);
        answer
    }

    fn make_dir(&mut self, path: &Path, label: &Label) -> Result<(), TreeFault>
        ensures counts { IsChanging result (mem_state self.old) (mem_state self.new) }
        ensures contents { MakesDir path.now label.now result (held_by self.old)
            (held_by self.new) }
        ensures fault { DidNotFail result }
    {
        let answer = maps::make_dir(&mut self.map, path, label);
        self.counter.changed(&answer);
        answer
    }

    fn set_label(&mut self, path: &Path, label: &Label) -> Result<(), TreeFault>
        ensures counts { IsChanging result (mem_state self.old) (mem_state self.new) }
        ensures contents { SetsLabel path.now label.now result (held_by self.old)
            (held_by self.new) }
        ensures fault { DidNotFail result }
    {
        let answer = maps::set_label(&mut self.map, path, label);
        self.counter.changed(&answer);
        answer
    }

    fn remove(&mut self, path: &Path) -> Result<(), TreeFault>
        ensures counts { IsChanging result (mem_state self.old) (mem_state self.new) }
        ensures contents { Removes path.now result (held_by self.old) (held_by self.new) }
        ensures fault { DidNotFail result }
    {
        let answer = maps::remove(&mut self.map, path);
        self.counter.changed(&answer);
        answer
    }

    fn changed(&self) -> u64
        ensures count { result ≡ (mem_state self.now).counts.changes }
        ensures tree { IsTreeMap (held_by self.now) }
    {
        let _alloc = self.map.alloc();
        self.counter.changes()
    }
}
