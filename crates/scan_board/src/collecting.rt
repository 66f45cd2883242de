//! The commands that are marked Taken.

ghost use Rattle.std.specs.Prelude.{◌≡◌, ◌∷◌, ◌++◌, [], length, Some, IfOk, OnOk, if◌then◌else◌};
ghost use Rattle.sync_command.specs.Changes.{Change};
ghost use Rattle.pref_list.specs.Picks.{command_of};
ghost use Rattle.pref_list.specs.Numbers.{AreLeast, IsPick};
ghost use Rattle.scan_board.specs.Tables.{is_taken_mark};
ghost use Rattle.scan_board.specs.Boards.{taken_cards};

use crate::board::{Card, Mark};
use pref_list::{Numbers, command_at};
use refluent::{Joint, Pick};
use std::alloc::Global;
use sync_command::Command;
use sync_path::NoMemory;

fn is_taken(mark: Mark) -> bool
    ensures { result ≡ is_taken_mark mark }
{
    match mark {
        Mark::Taken => true,
        Mark::Open | Mark::Blocked => false,
    }
}

/// Adds the command of a pick, if it is marked Taken.
fn add_taken(
    alloc: Global,
    joint: &Joint,
    commands: &mut Vec<Command>,
    pick: Pick,
    mark: Mark,
) -> Result<(), NoMemory>
    requires { IsPick joint.now.sets pick }
    ensures { (c : Change) → command_of joint.now.sets pick ≡ Some c → OnOk result
        (commands.new.items ≡
        if is_taken_mark mark then commands.old.items ++ c ∷ [] else commands.old.items) }
{
    if is_taken(mark) {
        let command = command_at(joint, pick);
        commands.push(command.copy(alloc)?)?;
    }
    Ok(())
}

/// The commands whose cards are marked Taken, the last first.
pub(crate) fn taken_of(
    alloc: Global,
    joint: &Joint,
    numbers: &Numbers,
    cards: &[Card],
) -> Result<Vec<Command>, NoMemory>
    requires least { AreLeast joint.now.sets numbers.now.picks.items }
    requires many { length cards.now ≡ length numbers.now.picks.items }
    ensures { IfOk result (λ commands. commands.items ≡
        taken_cards joint.now.sets numbers.now.picks.items cards.now (length cards.now)) }
{
    let mut commands = Vec::new(alloc);
    let mut number = cards.len();
    'numbers: while number > 0 {
        number -= 1;
        let pick = numbers.picks[number];
        add_taken(alloc, joint, &mut commands, pick, cards[number].mark)?;
    }
    Ok(commands)
}
