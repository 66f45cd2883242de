//! A tree in memory whose calls fail at given numbers.

ghost use Rattle.std.specs.Prelude.{◌≡◌, ◌⊎◌, Err, true};
ghost use Rattle.sync_port.specs.States.{next_number};
ghost use Rattle.sync_command.specs.Maps.{IsTreeMap, at};
ghost use Rattle.sync_command.specs.Values.{is_dir};
ghost use Rattle.sync_command.specs.declared.values.Value.TheVariants.{Dir, Empty, File};
ghost use Rattle.tree_port.specs.Calls.{IsChanging, MakesDir, PutsFile, Removes, SetsLabel};
ghost use Rattle.tree_port.specs.Conditions.{CanMake, CanPut, CanRemove};
ghost use Rattle.tree_port.specs.InMemory.{DidNotFail, FailsIfShot, ShotPuts, calls_made, counts_of, fuse_counts, fuse_held, no_counts, shot_at, shots_of};
ghost use Rattle.tree_port.specs.States.{unknown_tree};
ghost use Rattle.tree_port.specs.declared.faults.TreeFault.TheVariants.{Failed};

use crate::counter::Counter;
use crate::{Tree, TreeFault, maps};
use apply_model::TreeMap;
use std::alloc::Global;
use sync_command::{Bytes, Kind, Label, Value};
use sync_path::Path;

/// A call that fails, by its number; the first call has number 1. Where `done` is set, a changing call whose condition
/// holds is done all the same, unless memory runs out.
#[derive(Clone, Copy, Debug, PartialEq, Eq)]
pub struct Shot {
    pub call: u64,
    pub done: bool,
}

/// A tree in memory, of which it is known what it holds.
///
/// All its calls but `changed` are counted together from 1, up to `u64::MAX`, where the number stays. A call answers
/// `Failed` exactly where a shot names its number; the first such shot counts. Every other call is as of a `MemTree`.
#[derive(Drop)]
pub struct FuseTree {
    map: TreeMap,
    shots: Vec<Shot>,
    calls: u64,
    counter: Counter,
}

/// Counts the call, and gives what the first shot that names it says.
#[tactic(auto, using(crate::proofs::Shots::shot_here, crate::proofs::Shots::shot_next, crate::proofs::Shots::shot_end))]
fn next_shot(calls: &mut u64, shots: &[Shot]) -> Option<bool>
    ensures number { calls.new ≡ next_number calls.old }
    ensures shot { result ≡ shot_at shots.now (next_number calls.old) }
{
    *calls = calls.saturating_add(1);
    let call = *calls;
    'shots: for shot in shots {
        if shot.call == call {
            return Some(shot.done);
        }
    }
    None
}

fn put_file(
    map: &mut TreeMap,
    counter: &mut Counter,
    shot: Option<bool>,
    path: &Path,
    bytes: &Bytes,
) -> Result<(), TreeFault>
    ensures counts { IsChanging result (unknown_tree (counts_of counter.old))
        (unknown_tree (counts_of counter.new)) }
    ensures contents { PutsFile path.now bytes.now result map.old map.new }
    ensures fault { FailsIfShot shot result }
    ensures shot { ShotPuts shot (CanPut (at map.old) path.now) path.now (File bytes.now) map.old
        map.new (counts_of counter.old) (counts_of counter.new) }
{
    match shot {
        None => {
            let answer = maps::put_file(map, path, bytes);
            counter.changed(&answer);
            answer
        }
        Some(false) => Err(counter.failed()),
        Some(true) => Err(counter.failed_after(maps::put_file(map, path, bytes))),
    }
}

fn make_dir(
    map: &mut TreeMap,
    counter: &mut Counter,
    shot: Option<bool>,
    path: &Path,
    label: &Label,
) -> Result<(), TreeFault>
    ensures counts { IsChanging result (unknown_tree (counts_of counter.old))
        (unknown_tree (counts_of counter.new)) }
    ensures contents { MakesDir path.now label.now result map.old map.new }
    ensures fault { FailsIfShot shot result }
    ensures shot { ShotPuts shot (CanMake (at map.old) path.now) path.now (Dir label.now) map.old
        map.new (counts_of counter.old) (counts_of counter.new) }
{
    match shot {
        None => {
            let answer = maps::make_dir(map, path, label);
            counter.changed(&answer);
            answer
        }
        Some(false) => Err(counter.failed()),
        Some(true) => Err(counter.failed_after(maps::make_dir(map, path, label))),
    }
}

fn set_label(
    map: &mut TreeMap,
    counter: &mut Counter,
    shot: Option<bool>,
    path: &Path,
    label: &Label,
) -> Result<(), TreeFault>
    ensures counts { IsChanging result (unknown_tree (counts_of counter.old))
        (unknown_tree (counts_of counter.new)) }
    ensures contents { SetsLabel path.now label.now result map.old map.new }
    ensures fault { FailsIfShot shot result }
    ensures shot { ShotPuts shot (is_dir (at map.old path.now) ≡ true) path.now (Dir label.now)
        map.old map.new (counts_of counter.old) (counts_of counter.new) }
{
    match shot {
        None => {
            let answer = maps::set_label(map, path, label);
            counter.changed(&answer);
            answer
        }
        Some(false) => Err(counter.failed()),
        Some(true) => Err(counter.failed_after(maps::set_label(map, path, label))),
    }
}

fn remove(
    map: &mut TreeMap,
    counter: &mut Counter,
    shot: Option<bool>,
    path: &Path,
) -> Result<(), TreeFault>
    ensures counts { IsChanging result (unknown_tree (counts_of counter.old))
        (unknown_tree (counts_of counter.new)) }
    ensures contents { Removes path.now result map.old map.new }
    ensures fault { FailsIfShot shot result }
    ensures shot { ShotPuts shot (CanRemove (at map.old) path.now) path.now Empty map.old map.new
        (counts_of counter.old) (counts_of counter.new) }
{
    match shot {
        None => {
            let answer = maps::remove(map, path);
            counter.changed(&answer);
            answer
        }
        Some(false) => Err(counter.failed()),
        Some(true) => Err(counter.failed_after(maps::remove(map, path))),
    }
}

/// The answer of a reading call, or `Failed` where a shot names it.
fn unless_shot<T: Drop>(shot: Option<bool>, answer: Result<T, TreeFault>) -> Result<T, TreeFault>
    requires { DidNotFail answer }
    ensures answer { (result ≡ answer) ⊎ (result ≡ Err Failed) }
    ensures fault { FailsIfShot shot result }
{
    match shot {
        Some(_) => Err(TreeFault::Failed),
        None => answer,
    }
}

impl FuseTree {
    /// A tree that holds what the map holds. Its counts are 0, and no call was made.
    pub fn new(map: TreeMap, shots: Vec<Shot>) -> FuseTree
        ensures held { fuse_held result ≡ map }
        ensures shots { shots_of result ≡ shots.items }
        ensures calls { calls_made result ≡ 0 }
        ensures counts { fuse_counts result ≡ no_counts }
    {
        FuseTree {
            map,
            shots,
            calls: 0,
            counter: Counter::new(),
        }
    }
}

impl Tree for FuseTree {
    ghost use Rattle.std.specs.Prelude.{IfOk, option_copied};
    ghost use Rattle.tree_port.specs.Calls.{GivesBytes, GivesChildren, GivesKind, GivesLabel, IsReading, AnswersIfHeld};
    ghost use Rattle.tree_port.specs.Conditions.{AreBelow};
    ghost use Rattle.tree_port.specs.InMemory.{CountsCall, fuse_state, next_shot};

    ghost live = { fuse_state };

    fn kind(&mut self, path: &Path) -> Result<Kind, TreeFault>
        ensures reading { IsReading result (fuse_state self.old) (fuse_state self.new) }
        ensures answer { GivesKind path.now result (fuse_held self.old) }
        ensures fault { FailsIfShot (next_shot self.old) result }
        ensures call { CountsCall self.old self.new }
    {
        let shot = next_shot(&mut self.calls, &self.shots);
        let answer = unless_shot(shot, Ok(maps::kind(&self.map, path)));
        self.counter.read(&answer);
        answer
    }

    fn holds(&mut self, path: &Path, value: &Value) -> Result<bool, TreeFault>
        ensures reading { IsReading result (fuse_state self.old) (fuse_state self.new) }
        ensures answer { AnswersIfHeld path.now value.now result (fuse_held self.old) }
        ensures fault { FailsIfShot (next_shot self.old) result }
        ensures call { CountsCall self.old self.new }
    {
        let shot = next_shot(&mut self.calls, &self.shots);
        let answer = unless_shot(shot, Ok(maps::holds(&self.map, path, value)));
        self.counter.read(&answer);
        answer
    }

    fn read_file(&mut self, _alloc: Global, path: &Path) -> Result<Bytes, TreeFault>
        ensures reading { IsReading result (fuse_state self.old) (fuse_state self.new) }
        ensures answer { GivesBytes path.now result (fuse_held self.old) }
        ensures fault { FailsIfShot (next_shot self.old) result }
        ensures call { CountsCall self.old self.new }
    {
        let shot = next_shot(&mut self.calls, &self.shots);
        let answer = unless_shot(shot, maps::read_file(&self.map, path));
        self.counter.read(&answer);
        answer
    }

    fn label(&mut self, _alloc: Global, path: &Path) -> Result<Label, TreeFault>
        ensures reading { IsReading result (fuse_state self.old) (fuse_state self.new) }
        ensures answer { GivesLabel path.now result (fuse_held self.old) }
        ensures fault { FailsIfShot (next_shot self.old) result }
        ensures call { CountsCall self.old self.new }
    {
        let shot = next_shot(&mut self.calls, &self.shots);
        let answer = unless_shot(shot, maps::label(&self.map, path));
        self.counter.read(&answer);
        answer
    }

    fn children(&mut self, alloc: Global, path: Option<&Path>) -> Result<Vec<Path>, TreeFault>
        ensures reading { IsReading result (fuse_state self.old) (fuse_state self.new) }
        ensures below { IfOk result (λ found. AreBelow (option_copied path.entry) found.items) }
        ensures answer { GivesChildren (option_copied path.entry) result (fuse_held self.old) }
        ensures fault { FailsIfShot (next_shot self.old) result }
        ensures call { CountsCall self.old self.new }
    {
        let shot = next_shot(&mut self.calls, &self.shots);
        let answer = unless_shot(shot, maps::children(&self.map, alloc, path));
        self.counter.read(&answer);
        answer
    }

    fn put_file(&mut self, path: &Path, bytes: &Bytes) -> Result<(), TreeFault>
        ensures counts { IsChanging result (fuse_state self.old) (fuse_state self.new) }
        ensures contents { PutsFile path.now bytes.now result (fuse_held self.old)
            (fuse_held self.new) }
        ensures fault { FailsIfShot (next_shot self.old) result }
        ensures shot { ShotPuts (next_shot self.old) (CanPut (at (fuse_held self.old)) path.now)
            path.now (File bytes.now) (fuse_held self.old) (fuse_held self.new)
            (fuse_counts self.old) (fuse_counts self.new) }
        ensures call { CountsCall self.old self.new }
    {
        let shot = next_shot(&mut self.calls, &self.shots);
        put_file(&mut self.map, &mut self.counter, shot, path, bytes)
    }

    fn make_dir(&mut self, path: &Path, label: &Label) -> Result<(), TreeFault>
        ensures counts { IsChanging result (fuse_state self.old) (fuse_state self.new) }
        ensures contents { MakesDir path.now label.now result (fuse_held self.old)
            (fuse_held self.new) }
        ensures fault { FailsIfShot (next_shot self.old) result }
        ensures shot { ShotPuts (next_shot self.old) (CanMake (at (fuse_held self.old)) path.now)
            path.now (Dir label.now) (fuse_held self.old) (fuse_held self.new)
            (fuse_counts self.old) (fuse_counts self.new) }
        ensures call { CountsCall self.old self.new }
    {
        let shot = next_shot(&mut self.calls, &self.shots);
        make_dir(&mut self.map, &mut self.counter, shot, path, label)
    }

    fn set_label(&mut self, path: &Path, label: &Label) -> Result<(), TreeFault>
        ensures counts { IsChanging result (fuse_state self.old) (fuse_state self.new) }
        ensures contents { SetsLabel path.now label.now result (fuse_held self.old)
            (fuse_held self.new) }
        ensures fault { FailsIfShot (next_shot self.old) result }
        ensures shot { ShotPuts (next_shot self.old)
            (is_dir (at (fuse_held self.old) path.now) ≡ true) path.now (Dir label.now)
            (fuse_held self.old) (fuse_held self.new) (fuse_counts self.old)
            (fuse_counts self.new) }
        ensures call { CountsCall self.old self.new }
    {
        let shot = next_shot(&mut self.calls, &self.shots);
        set_label(&mut self.map, &mut self.counter, shot, path, label)
    }

    fn remove(&mut self, path: &Path) -> Result<(), TreeFault>
        ensures counts { IsChanging result (fuse_state self.old) (fuse_state self.new) }
        ensures contents { Removes path.now result (fuse_held self.old) (fuse_held self.new) }
        ensures fault { FailsIfShot (next_shot self.old) result }
        ensures shot { ShotPuts (next_shot self.old) (CanRemove (at (fuse_held self.old)) path.now)
            path.now Empty (fuse_held self.old) (fuse_held self.new) (fuse_counts self.old)
            (fuse_counts self.new) }
        ensures call { CountsCall self.old self.new }
    {
        let shot = next_shot(&mut self.calls, &self.shots);
        remove(&mut self.map, &mut self.counter, shot, path)
    }

    fn changed(&self) -> u64
        ensures count { result ≡ (fuse_state self.now).counts.changes }
        ensures tree { IsTreeMap (fuse_held self.now) }
    {
        let _alloc = self.map.alloc();
        self.counter.changes()
    }
}
