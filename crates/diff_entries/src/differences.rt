//! The differences between the entries of two policies.

ghost use Rattle.std.specs.Prelude.{◌≡◌, ◌<◌, ◌++◌, IfOk, OnOk, map, length};
ghost use Rattle.std.specs.List.{All, filter};
ghost use Rattle.keyed_lists.specs.Inner.PlacedEntries.{both_at, differ_at, paired};
ghost use Rattle.diff_entries.specs.Entries.{entry_at, entry_differences, key_cmp, same_entry};
ghost use Rattle.diff_entries.specs.Changes.{changes_text, difference_line, modified_line};
ghost use Rattle.diff_entries.specs.Inner.EntryPlaces.{AreWithin};

use crate::changes::push_changes;
use crate::entries::Entries;
use crate::keys::Key;
use crate::parts::same_parts;
use info_lines::EntryText;
use keyed_lists::{Places, pair_up};
use std::alloc::{AllocError, Global};
use std::marker::Model;

/// The differences between the entries of two policies, by the places of their keys, which are in order. Contracts see them, with
/// what both policies have.
#[derive(Drop)]
pub struct Differences<E: Entries + Drop> {
    alloc: Global,
    first: E,
    second: E,
    places: Vec<Places>,
}

impl<E: Entries + Drop> Model for Differences<E> {
    ghost use Rattle.std.specs.Prelude.{List, map};
    ghost use Rattle.std.specs.List.{All};
    ghost use Rattle.keyed_lists.specs.Differences.{Both};
    ghost use Rattle.keyed_lists.specs.Inner.PlacedEntries.{both_at};
    ghost use Rattle.diff_entries.specs.Entries.{Entry};
    ghost use Rattle.diff_entries.specs.Inner.EntryPlaces.{AreWithin};

    ghost Value = { List (Both Entry) };

    ghost view = { λ d. map (both_at (E.entries d.first) (E.entries d.second)) d.places.items };

    ghost invariant = { λ d. All (AreWithin (E.entries d.first) (E.entries d.second)) d.places.items };
}

impl<E: Entries + Drop> Differences<E> {
    /// The differences from the first entries to the second.
    pub fn new(alloc: Global, first: E, second: E) -> Result<Differences<E>, AllocError>
        ensures { IfOk result (λ differences. differences ≡ entry_differences (E.entries first) (E.entries second)) }
    {
        let places = differing_places(alloc, &first, &second)?;
        Ok(Differences {
            alloc,
            first,
            second,
            places,
        })
    }
}

// The places of the keys of both at which the entries differ, in the order of the keys.
#[tactic(auto, using(crate::proofs::PlacedKeys::all_within))]
fn differing_places<E: Entries>(
    alloc: Global,
    first: &E,
    second: &E,
) -> Result<Vec<Places>, AllocError>
    ensures within { IfOk result (λ places. All (AreWithin (E.entries first.now) (E.entries second.now)) places.items) }
    ensures differences { IfOk result (λ places. map (both_at (E.entries first.now) (E.entries second.now)) places.items ≡ entry_differences (E.entries first.now) (E.entries second.now)) }
{
    let all = paired_keys(alloc, first, second)?;
    let places = differing(alloc, first, second, &all)?;
    Ok(places)
}

// The keys of all entries.
fn keys_of<E: Entries>(alloc: Global, entries: &E) -> Result<Vec<Key>, AllocError>
    ensures { IfOk result (λ keys. keys.items ≡ map (λ e. e.key) (E.entries entries.now)) }
{
    let mut keys = Vec::new(alloc);
    for number in 0..entries.len() {
        keys.push(entries.key(alloc, number)?)?;
    }
    Ok(keys)
}

// The places of the keys of both, in the order of the keys.
fn paired_keys<E: Entries>(alloc: Global, first: &E, second: &E) -> Result<Vec<Places>, AllocError>
    ensures { IfOk result (λ places. places.items ≡ paired key_cmp (λ e. e.key) (E.entries first.now) (E.entries second.now)) }
{
    let first_keys = keys_of(alloc, first)?;
    let second_keys = keys_of(alloc, second)?;
    pair_up(alloc, first_keys, second_keys)
}

// The places of these at which the entries differ.
fn differing<E: Entries>(
    alloc: Global,
    first: &E,
    second: &E,
    all: &[Places],
) -> Result<Vec<Places>, AllocError>
    requires { All (AreWithin (E.entries first.now) (E.entries second.now)) all.now }
    ensures { IfOk result (λ places. places.items ≡ filter (differ_at same_entry (E.entries first.now) (E.entries second.now)) all.now) }
{
    let mut places = Vec::new(alloc);
    for at in all {
        if differ_at(alloc, first, second, *at)? {
            places.push(*at)?;
        }
    }
    Ok(places)
}

// Whether the entries at these places differ.
fn differ_at<E: Entries>(
    alloc: Global,
    first: &E,
    second: &E,
    places: Places,
) -> Result<bool, AllocError>
    requires { AreWithin (E.entries first.now) (E.entries second.now) places }
    ensures { IfOk result (λ differ. differ ≡ differ_at same_entry (E.entries first.now) (E.entries second.now) places) }
{
    match (places.first, places.second) {
        (None, None) => Ok(false),
        (Some(number), Some(other)) => {
            let parts = first.parts(alloc, number)?;
            let others = second.parts(alloc, other)?;
            Ok(!same_parts(&parts, &others))
        }
        _ => Ok(true),
    }
}

impl<E: Entries + Drop> EntryText for Differences<E> {
    ghost lines = { λ differences. map difference_line differences };

    fn len(&self) -> usize {
        self.places.len()
    }

    fn push_text(&self, number: usize, buffer: &mut Vec<u8>) -> Result<(), AllocError> {
        push_line(
            self.alloc,
            &self.first,
            &self.second,
            self.places[number],
            buffer,
        )
    }
}

// Adds the line of the difference at these places.
fn push_line<E: Entries>(
    alloc: Global,
    first: &E,
    second: &E,
    places: Places,
    buffer: &mut Vec<u8>,
) -> Result<(), AllocError>
    requires { AreWithin (E.entries first.now) (E.entries second.now) places }
    ensures { OnOk result (buffer.new.items ≡ buffer.old.items ++ difference_line (both_at (E.entries first.now) (E.entries second.now) places)) }
{
    match (places.first, places.second) {
        (None, None) => Ok(()),
        (None, Some(number)) => {
            buffer.extend_from_slice(b"+ ")?;
            second.push_statement(number, buffer)
        }
        (Some(number), None) => {
            buffer.extend_from_slice(b"- ")?;
            first.push_statement(number, buffer)
        }
        (Some(number), Some(other)) => push_modified(alloc, first, second, number, other, buffer),
    }
}

// Adds the line of an entry that both have.
fn push_modified<E: Entries>(
    alloc: Global,
    first: &E,
    second: &E,
    number: usize,
    other: usize,
    buffer: &mut Vec<u8>,
) -> Result<(), AllocError>
    requires first { number < length (E.entries first.now) }
    requires second { other < length (E.entries second.now) }
    ensures { OnOk result (buffer.new.items ≡ buffer.old.items ++ modified_line (entry_at (E.entries first.now) number) (entry_at (E.entries second.now) other)) }
{
    buffer.extend_from_slice(b"* ")?;
    first.push_head(number, buffer)?;
    push_changed_parts(alloc, first, second, number, other, buffer)?;
    buffer.extend_from_slice(b";")
}

// Adds what its parts have become.
fn push_changed_parts<E: Entries>(
    alloc: Global,
    first: &E,
    second: &E,
    number: usize,
    other: usize,
    buffer: &mut Vec<u8>,
) -> Result<(), AllocError>
    requires first { number < length (E.entries first.now) }
    requires second { other < length (E.entries second.now) }
    ensures { OnOk result (buffer.new.items ≡ buffer.old.items ++ changes_text (entry_at (E.entries first.now) number).parts (entry_at (E.entries second.now) other).parts) }
{
    let parts = first.parts(alloc, number)?;
    let others = second.parts(alloc, other)?;
    push_changes(buffer, &parts, &others)
}
