//! The names that the records of a table took so far.

ghost use Rattle.std.specs.Prelude.{◌≡◌, [], OnOk, OnErr, map};
ghost use Rattle.std.specs.List.{list_any};
ghost use Rattle.std.specs.Str.{bytes_eq};
ghost use Rattle.pol_symtab.specs.Claims.{with_member};
ghost use Rattle.pol_symtab.specs.Inner.TakenMembers.{slot_of, is_behind, AreInSet};

use indexmap::IndexSet;
use std::alloc::{AllocError, Global};
use std::marker::Model;

/// Names, each once, in the order in which they were taken. Contracts see the list.
pub(crate) struct TakenNames<'a> {
    names: Vec<&'a [u8]>,
    // The slots of libsepol's hash table are numbered by these bits.
    mask: u32,
    // Whether each name stands behind the one before it in the order in which libsepol writes a table.
    rises: bool,
    // The last name that did, and its slot.
    last: &'a [u8],
    last_slot: u32,
    // The names again, once they do not rise.
    set: IndexSet<&'a [u8]>,
}

// Its parts go in one call, wherever it is dropped.
impl Drop for TakenNames<'_> {
    fn drop(self) {
        let TakenNames {
            names,
            mask,
            rises,
            last,
            last_slot,
            set,
        } = self;
    }
}

impl<'a> Model for TakenNames<'a> {
    ghost use Rattle.std.specs.Prelude.{List, ℕ, map};
    ghost use Rattle.pol_symtab.specs.Inner.TakenMembers.{AreFound};

    ghost Value = { List (List ℕ) };

    ghost view = { λ t. map (λ name. name.now) t.names.items };

    ghost invariant = { λ t. AreFound t.rises t.mask t.last_slot t.last.now (map (λ name. name.now) t.names.items) (map (λ name. name.now) t.set.keys) };
}

impl<'a> TakenNames<'a> {
    /// None yet. libsepol's hash table of so many records has as many slots, rounded up to a power of two.
    pub fn new(alloc: Global, nel: u32) -> TakenNames<'a>
        ensures { result ≡ [] }
    {
        TakenNames {
            names: Vec::new(alloc),
            mask: nel.min(0x8000_0000).next_power_of_two() - 1,
            rises: true,
            last: &[],
            last_slot: 0,
            set: IndexSet::new(alloc),
        }
    }

    /// Whether the name is one of them. All are looked at only for the first name that does not rise.
    pub fn has(&self, name: &[u8]) -> bool
        ensures { result ≡ list_any (bytes_eq name.now) self.now }
    {
        if !self.rises {
            return self.set.contains(name);
        }
        if is_behind(self.last_slot, self.last, slot_of(self.mask, name), name) {
            return false;
        }
        is_among(&self.names, name)
    }

    /// Adds the name unless it is one of them. Out of memory, it was not added.
    pub fn add(&mut self, name: &'a [u8]) -> Result<(), AllocError>
        ensures ok { OnOk result (self.new ≡ with_member bytes_eq self.old name.now) }
        ensures err { OnErr result (self.new ≡ self.old) }
    {
        if self.rises {
            let slot = slot_of(self.mask, name);
            if is_behind(self.last_slot, self.last, slot, name) {
                self.names.push(name)?;
                self.last = name;
                self.last_slot = slot;
                return Ok(());
            }
            put_in_set(&self.names, &mut self.set)?;
            self.rises = false;
        }
        add_to_both(&mut self.names, &mut self.set, name)
    }
}

// The slot of a name: libsepol's hash (`symhash`), of which the table's slots are the low bits.
#[inline(always)]
#[tactic(auto, unfolding(crate::specs::Inner::TakenMembers::slot_of))]
fn slot_of(mask: u32, name: &[u8]) -> u32
    ensures { result ≡ slot_of mask name.now }
{
    let mut hash: u32 = 0;
    for byte in name {
        hash = hash.rotate_left(4) ^ *byte as u32;
    }
    hash & mask
}

// Whether a name of a slot stands behind the last one in the order in which libsepol writes a table.
#[inline(always)]
fn is_behind(last_slot: u32, last: &[u8], slot: u32, name: &[u8]) -> bool
    ensures { result ≡ is_behind last_slot last.now slot name.now }
{
    if slot == last_slot {
        return last.cmp(name).is_lt();
    }
    last_slot < slot
}

// Whether the name is one of the names.
fn is_among(names: &[&[u8]], name: &[u8]) -> bool
    ensures { result ≡ list_any (λ other. bytes_eq name.now other.now) names.now }
{
    names.iter().any(|other| is_same(name, other))
}

fn is_same(name: &[u8], other: &[u8]) -> bool
    ensures { result ≡ bytes_eq name.now other.now }
{
    name == other
}

// Makes the set that of the names.
fn put_in_set<'a>(names: &[&'a [u8]], set: &mut IndexSet<&'a [u8]>) -> Result<(), AllocError>
    ensures { OnOk result (AreInSet (map (λ name. name.now) names.now) (map (λ name. name.now) set.new.keys)) }
{
    set.clear();
    for name in names {
        set.insert(*name)?;
    }
    Ok(())
}

// Adds the name to the names and to the set of them, unless it is there.
fn add_to_both<'a>(
    names: &mut Vec<&'a [u8]>,
    set: &mut IndexSet<&'a [u8]>,
    name: &'a [u8],
) -> Result<(), AllocError>
    requires { AreInSet (map (λ other. other.now) names.old.items) (map (λ other. other.now) set.old.keys) }
    ensures set { AreInSet (map (λ other. other.now) names.new.items) (map (λ other. other.now) set.new.keys) }
    ensures ok { OnOk result (map (λ other. other.now) names.new.items ≡ with_member bytes_eq (map (λ other. other.now) names.old.items) name.now) }
    ensures err { OnErr result (names.new.items ≡ names.old.items) }
{
    names.reserve(1)?;
    if set.insert(name)? {
        names.push(name)?;
    }
    Ok(())
}
