//! The entries of the files in memory, and steps over them.

ghost use Rattle.std.specs.Prelude.{◌≡◌, ◌≢◌, ◌<◌, ◌==◌, ℕ, List, IfSome, IfNone, OnOk, OnErr, None, Some, drop, length, take, min};
ghost use Rattle.std.specs.List.{list_any};
ghost use Rattle.sync_port.specs.States.{next_number};
ghost use Rattle.sync_port.specs.Ports.{most_with};
ghost use Rattle.sync_port.specs.Entries.{held_in, entry_bytes, bytes_at, most_in, name_at, IsPlaceOf};

use std::alloc::Global;
use sync_path::NoMemory;

/// The bytes under a name, and the most of them that were read after one opening.
#[derive(Drop)]
pub(crate) struct Entry {
    pub(crate) name: String,
    pub(crate) bytes: Vec<u8>,
    pub(crate) most: u64,
}

/// Counts a call, and says whether its number is listed.
pub(crate) fn counted(calls: &mut u64, listed: &[u64]) -> bool
    ensures number { calls.new ≡ next_number calls.old }
    ensures found { result ≡ list_any (λ n. n == next_number calls.old) listed.now }
{
    *calls = calls.saturating_add(1);
    listed.contains(calls)
}

/// The place of the name's entry.
#[tactic(auto, using(crate::proofs::EntryLemmas::another_name, crate::proofs::EntryLemmas::place_found, crate::proofs::EntryLemmas::place_held, crate::proofs::EntryLemmas::place_named, crate::proofs::EntryLemmas::all_others))]
pub(crate) fn place_of(entries: &[Entry], name: &str) -> Option<usize>
    ensures bound { IfSome result (λ place. place < length entries.now) }
    ensures first { IfSome result (IsPlaceOf name.now entries.now) }
    ensures named { IfSome result (λ place. name_at entries.now (Some place) ≡ Some name.now) }
    ensures held { IfSome result (λ place. held_in entries.now name.now ≡ Some
        (entry_bytes entries.now place)) }
    ensures none { IfNone result (held_in entries.now name.now ≡ None) }
{
    let mut place = 0;
    'places: while place < entries.len() {
        if entries[place].name.as_str() == name {
            return Some(place);
        }
        place += 1;
    }
    None
}

/// Puts the bytes under the name, in place of any that it had. Where memory ran out the entries are as before.
#[tactic(auto, using(crate::proofs::EntryLemmas::put_there, crate::proofs::EntryLemmas::put_leaves, crate::proofs::EntryLemmas::place_name, crate::proofs::EntryLemmas::put_leaves_most, crate::proofs::EntryLemmas::pushed_there, crate::proofs::EntryLemmas::pushed_leaves, crate::proofs::EntryLemmas::pushed_leaves_most))]
pub(crate) fn put(
    alloc: Global,
    entries: &mut Vec<Entry>,
    name: &str,
    bytes: Vec<u8>,
) -> Result<(), NoMemory>
    ensures put { OnOk result (held_in entries.new.items name.now ≡ Some bytes.items) }
    ensures others { (other : List ℕ) → other ≢ name.now →
        held_in entries.new.items other ≡ held_in entries.old.items other }
    ensures most { (other : List ℕ) →
        most_in entries.new.items other ≡ most_in entries.old.items other }
    ensures unchanged { OnErr result (entries.new.items ≡ entries.old.items) }
{
    if let Some(place) = place_of(entries, name) {
        entries[place].bytes = bytes;
        return Ok(());
    }
    let name = String::from_str(alloc, name)?;
    entries.push(Entry {
        name,
        bytes,
        most: 0,
    })?;
    Ok(())
}

/// Notes that so many bytes of the entry at the place were read since it was opened, if one is given and there is one.
#[tactic(auto, using(crate::proofs::EntryLemmas::noted_held, crate::proofs::EntryLemmas::noted_bytes, crate::proofs::EntryLemmas::noted_name, crate::proofs::EntryLemmas::noted_most, crate::proofs::EntryLemmas::nothing_noted))]
pub(crate) fn note_read(entries: &mut Vec<Entry>, place: Option<usize>, count: u64)
    ensures held { held_in entries.new.items ≡ held_in entries.old.items }
    ensures bytes { bytes_at entries.new.items place ≡ bytes_at entries.old.items place }
    ensures name { name_at entries.new.items place ≡ name_at entries.old.items place }
    ensures most { (name : List ℕ) → most_in entries.new.items name ≡
        most_with (name_at entries.old.items place) count (most_in entries.old.items) name }
{
    if let Some(place) = place {
        if place < entries.len() {
            entries[place].most = entries[place].most.max(count);
        }
    }
}

/// The bytes of the entry at the place, if one is given and there is one.
#[tactic(auto, using(crate::proofs::EntryLemmas::bytes_past, crate::proofs::EntryLemmas::bytes_here))]
pub(crate) fn bytes_in(entries: &[Entry], place: Option<usize>) -> &[u8]
    ensures { result.now ≡ bytes_at entries.now place }
{
    match place {
        Some(place) if place < entries.len() => &entries[place].bytes,
        _ => &[],
    }
}

/// The bytes from there on.
#[tactic(auto, using(crate::proofs::EntryLemmas::whole_rest, crate::proofs::EntryLemmas::nothing_past))]
pub(crate) fn bytes_from(bytes: &[u8], at: usize) -> &[u8]
    ensures { result.now ≡ drop at bytes.now }
{
    if at < bytes.len() { &bytes[at..] } else { &[] }
}

/// Copies as many bytes into the piece as it takes, from its first byte on, and gives their number.
pub(crate) fn copy_first(rest: &[u8], piece: &mut [u8]) -> usize
    ensures count { result ≡ min (length rest.now) (length piece.old) }
    ensures bytes { take result piece.new ≡ take result rest.now }
{
    let count = rest.len().min(piece.len());
    piece[..count].copy_from_slice(&rest[..count]);
    count
}
