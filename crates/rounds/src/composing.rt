//! The composition of sets.

ghost use Rattle.std.specs.Prelude.{◌≡◌, ◌++◌, ◌∷◌, [], ℕ, List, Err, IfOk, OnOk};
ghost use Rattle.sync_path.specs.Paths.{Node};
ghost use Rattle.sync_command.specs.Changes.{Change};
ghost use Rattle.canon_set.specs.Logs.{IsTaken};
ghost use Rattle.canon_set.specs.Sets.{canonical};
ghost use Rattle.canon_set.specs.Sums.{StandsFor};
ghost use Rattle.rounds.specs.declared.faults.ComposeFault.TheVariants.{NoFollow};
ghost use Rattle.rounds.specs.Compositions.{StopsAt, StopsIn, chain_list, composition};

use crate::ComposeFault;
use canon_set::{AddFault, CanonSet, LogSum};
use std::alloc::Global;
use sync_command::Command;
use sync_path::NoMemory;

/// The refusal of a command of the set of this number.
fn no_follow(alloc: Global, number: usize, command: &Command) -> ComposeFault
    ensures { (place : ℕ) (node : Node) → result ≡ NoFollow place node →
        (place ≡ number) × (node ≡ command.now.node) }
{
    match command.path().copy(alloc) {
        Ok(path) => ComposeFault::NoFollow { set: number, path },
        Err(_) => ComposeFault::Memory,
    }
}

/// Adds a command of the set of this number to a sum.
fn add_command(
    alloc: Global,
    sum: &mut LogSum,
    command: &Command,
    number: usize,
) -> Result<(), ComposeFault>
    ensures ok { OnOk result ((cs : List Change) → StandsFor sum.old cs →
        StandsFor sum.new (cs ++ command.now ∷ [])) }
    ensures stops { (cs : List Change) (place : ℕ) (node : Node) → StandsFor sum.old cs →
        result ≡ Err (NoFollow place node) → (place ≡ number) × (node ≡ command.now.node) ×
        (IsTaken (cs ++ command.now ∷ []) → ⊥) }
{
    match sum.add(command.copy(alloc)?) {
        Ok(()) => Ok(()),
        Err(AddFault::Broken) => Err(no_follow(alloc, number, command)),
        Err(AddFault::Memory) => Err(ComposeFault::Memory),
    }
}

/// Adds the commands of the set of this number to a sum, in their order. Sets count from 1.
fn add_set(
    alloc: Global,
    sum: &mut LogSum,
    set: &CanonSet,
    number: usize,
) -> Result<(), ComposeFault>
    ensures ok { OnOk result ((cs : List Change) → StandsFor sum.old cs →
        StandsFor sum.new (cs ++ canonical set.now)) }
    ensures stops { (cs : List Change) (place : ℕ) (node : Node) → StandsFor sum.old cs →
        result ≡ Err (NoFollow place node) → (place ≡ number) × StopsIn cs set.now node }
{
    let commands = set.commands();
    'commands: for command in commands {
        add_command(alloc, sum, command, number)?;
    }
    Ok(())
}

/// One set that does what the sets do one after another, their composition ("Undoing, composing and rebasing" in
/// `docs/MODEL.md`). The sets come in the order of the rounds; there may be any number of them.
///
/// `NoFollow` comes exactly where no tree takes their commands one after another: it names the first set, counted from 1,
/// up to which none does, and the node of the first command of it with which none does. `Memory` may come in place of
/// either. The sets stay as they are. Of each command the path and the short values are copied once, for the sum that it
/// is added to, and long file contents are shared; n commands take some n log n steps.
pub fn compose(alloc: Global, sets: &[CanonSet]) -> Result<CanonSet, ComposeFault>
    ensures composed { IfOk result (λ set. set ≡ canonical (composition sets.now)) }
    ensures taken { OnOk result (IsTaken (chain_list sets.now)) }
    ensures stops { (number : ℕ) (node : Node) → result ≡ Err (NoFollow number node) →
        StopsAt sets.now number node }
{
    let mut sum = LogSum::new(alloc);
    'sets: for place in 0..sets.len() {
        let set = &sets[place];
        add_set(alloc, &mut sum, set, place + 1)?;
    }
    Ok(sum.into_net()?)
}

/// The sum of a set's commands, in their order: the set as a log. Each command is copied, without its file contents.
pub fn set_sum(alloc: Global, set: &CanonSet) -> Result<LogSum, NoMemory>
    ensures { IfOk result (λ sum. StandsFor sum set.now) }
{
    let _commands = set.commands();
    let mut sum = LogSum::new(alloc);
    match add_set(alloc, &mut sum, set, 1) {
        Ok(()) => Ok(sum),
        Err(_) => Err(NoMemory),
    }
}
