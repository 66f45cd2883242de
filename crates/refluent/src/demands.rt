//! What logs demand of one node, and the least pair that no value suits.

ghost use Rattle.std.specs.Prelude.{◌≡◌, ◌≤◌, ◌<◌, ◌+◌, ◌^◌, ℕ, length, false};
ghost use Rattle.refluent.specs.Demands.{demanded, IsLeastPair, IsFirstIncompatible, are_incompatible_demands};

use sync_command::Value;

/// What a log demands of a node: nothing, any directory, nothing there, or exactly a value.
#[derive(Clone, Copy, Debug)]
pub(crate) enum Demand<'a> {
    Anything,
    AnyDirectory,
    Absent,
    Exactly(&'a Value),
}

/// Whether no value suits both demands.
fn are_incompatible(one: Demand<'_>, other: Demand<'_>) -> bool
    ensures { result ≡ are_incompatible_demands one.entry other.entry }
{
    match (one, other) {
        (Demand::Anything, _) | (_, Demand::Anything) => false,
        (Demand::AnyDirectory, Demand::AnyDirectory) => false,
        (Demand::Absent, Demand::Absent) => false,
        (Demand::AnyDirectory, Demand::Absent) | (Demand::Absent, Demand::AnyDirectory) => true,
        (Demand::AnyDirectory, Demand::Exactly(value)) => !value.is_dir(),
        (Demand::Exactly(value), Demand::AnyDirectory) => !value.is_dir(),
        (Demand::Absent, Demand::Exactly(value)) => !value.is_empty(),
        (Demand::Exactly(value), Demand::Absent) => !value.is_empty(),
        (Demand::Exactly(first), Demand::Exactly(second)) => !first.same(second),
    }
}

/// The first place, from one on, whose demand is incompatible with the given one.
fn first_incompatible(demands: &[Demand<'_>], demand: Demand<'_>, from: usize) -> Option<usize>
    ensures { IsFirstIncompatible demands.now demand.entry from result }
{
    'others: for place in from..demands.len() {
        if are_incompatible(demand, demands[place]) {
            return Some(place);
        }
    }
    None
}

/// The least pair of places whose demands are incompatible. Of the demands of a directory only the first is compared
/// with those after it: the later ones have fewer after them. The first demand of a value settles all: where nothing
/// after it is incompatible with it, each is met by that value.
pub(crate) fn least_pair(demands: &[Demand<'_>]) -> Option<(usize, usize)>
    ensures { IsLeastPair demands.now result }
{
    let mut is_dir_seen = false;
    'rows: for place in 0..demands.len() {
        let demand = demands[place];
        match demand {
            Demand::Anything => {}
            Demand::AnyDirectory => {
                if !is_dir_seen {
                    if let Some(other) = first_incompatible(demands, demand, place + 1) {
                        return Some((place, other));
                    }
                    is_dir_seen = true;
                }
            }
            Demand::Absent | Demand::Exactly(_) => {
                return match first_incompatible(demands, demand, place + 1) {
                    Some(other) => Some((place, other)),
                    None => None,
                };
            }
        }
    }
    None
}
