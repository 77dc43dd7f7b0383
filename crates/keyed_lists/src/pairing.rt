//! The keys of two lists in order, each with its places in both.

ghost use Rattle.std.specs.Prelude.{◌≡◌, IfOk, OnOk, map};
ghost use Rattle.std.specs.BTreeMap.{values};
ghost use Rattle.keyed_lists.specs.KeyOrder.{keys_of_both, places_of};
ghost use Rattle.keyed_lists.specs.Inner.Adding.{added, known, put_at, with_place};

use std::alloc::{AllocError, Global};
use std::collections::BTreeMap;

/// The first place of a key in each of two lists, from 0 on, where it is there.
#[derive(Clone, Copy, Debug, PartialEq, Eq)]
pub struct Places {
    pub first: Option<usize>,
    pub second: Option<usize>,
}

// One of two lists.
#[derive(Clone, Copy, Debug, PartialEq, Eq)]
pub(crate) enum Side {
    First,
    Second,
}

/// The keys of two lists in their order, each once, as their places in both.
pub fn pair_up<K: Ord + Drop>(
    alloc: Global,
    first: Vec<K>,
    second: Vec<K>,
) -> Result<Vec<Places>, AllocError>
    ensures { IfOk result (λ places. places.items ≡ map (places_of K.cmp first.items second.items) (keys_of_both K.cmp first.items second.items)) }
{
    let mut places = BTreeMap::new(alloc);
    add_keys(&mut places, Side::Second, second)?;
    add_keys(&mut places, Side::First, first)?;
    places_in(alloc, &places)
}

// The places of all keys, in the order of the keys.
fn places_in<K: Ord + Drop>(
    alloc: Global,
    places: &BTreeMap<K, Places>,
) -> Result<Vec<Places>, AllocError>
    ensures { IfOk result (λ all. all.items ≡ values places.now) }
{
    places.values().copied().collect(alloc)
}

// Adds the keys of a list, from the last to the first, so that the first of equal ones counts.
fn add_keys<K: Ord + Drop>(
    places: &mut BTreeMap<K, Places>,
    side: Side,
    keys: Vec<K>,
) -> Result<(), AllocError>
    ensures { OnOk result (places.new.entries ≡ added K.cmp side 0 keys.items places.old.entries) }
{
    let mut keys = keys;
    'keys: while let Some(key) = keys.pop() {
        add_key(places, side, keys.len(), key)?;
    }
    Ok(())
}

// Adds a key that stands at a place of a list.
fn add_key<K: Ord + Drop>(
    places: &mut BTreeMap<K, Places>,
    side: Side,
    place: usize,
    key: K,
) -> Result<(), AllocError>
    ensures { OnOk result (places.new.entries ≡ with_place K.cmp side place key places.old.entries) }
{
    let found = known(places.get(&key).copied());
    places.insert(key, put_at(side, place, found))?;
    Ok(())
}

// What is known of the places of a key, where something is.
fn known(found: Option<Places>) -> Places
    ensures { result ≡ known found }
{
    match found {
        Some(places) => places,
        None => Places {
            first: None,
            second: None,
        },
    }
}

// The places of a key that is found at one of a list.
fn put_at(side: Side, place: usize, places: Places) -> Places
    ensures { result ≡ put_at side place places }
{
    match side {
        Side::First => Places {
            first: Some(place),
            second: places.second,
        },
        Side::Second => Places {
            first: places.first,
            second: Some(place),
        },
    }
}
