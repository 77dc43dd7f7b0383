//! The values that the primary records of a table took so far.

ghost use Rattle.std.specs.Prelude.{◌≡◌, ◌≤◌, ℕ, [], OnOk, IsOk, nat_eq};
ghost use Rattle.std.specs.List.{list_any};
ghost use Rattle.std.specs.Vec.{vec_len};
ghost use Rattle.pol_symtab.specs.Claims.{with_member};
ghost use Rattle.pol_cursor.specs.Inner.BitPlaces.{has_bit_of};
ghost use Rattle.pol_symtab.specs.Inner.TakenMembers.{HasRoom};

use pol_cursor::{has_bit, set_bit};
use std::alloc::{AllocError, Global};
use std::marker::Model;

/// Primary values, each once, in the order in which they were taken. Contracts see the list, and for how many more there is room.
pub(crate) struct TakenValues {
    values: Vec<u32>,
    // The bit of each of them is set, and no other. Values are at most nprim, so that these are few.
    bits: Vec<u64>,
}

// Its parts go in one call, wherever it is dropped.
impl Drop for TakenValues {
    fn drop(self) {
        let TakenValues { values, bits } = self;
    }
}

impl Model for TakenValues {
    ghost use Rattle.std.specs.Prelude.{◌-◌};
    ghost use Rattle.std.specs.Vec.{vec_len, vec_capacity};
    ghost use Rattle.pol_symtab.specs.Inner.TakenMembers.{AreMarked, Values};

    ghost Value = { Values };

    ghost view = { λ t. record { list = t.values.items; spare = vec_capacity t.values - vec_len t.values; words = vec_len t.bits } };

    ghost invariant = { λ t. AreMarked t.bits.items t.values.items };
}

impl TakenValues {
    /// None yet.
    pub fn new(alloc: Global) -> TakenValues
        ensures { result.list ≡ [] }
    {
        TakenValues {
            values: Vec::new(alloc),
            bits: Vec::new(alloc),
        }
    }

    /// Whether the value is one of them.
    pub fn has(&self, value: u32) -> bool
        ensures { result ≡ list_any (nat_eq value) self.now.list }
    {
        has_bit(&self.bits, value as usize)
    }

    /// Makes room for the value.
    pub fn reserve(&mut self, value: u32) -> Result<(), AllocError>
        ensures same { self.new.list ≡ self.old.list }
        ensures room { OnOk result (HasRoom self.new value) }
    {
        grow(&mut self.bits, value as usize / 64 + 1)?;
        self.values.reserve(1)
    }

    /// Adds the value unless it is one of them. It does not fail.
    pub fn insert(&mut self, value: u32) -> Result<(), AllocError>
        requires { HasRoom self.old value }
        ensures ok { IsOk result }
        ensures added { self.new.list ≡ with_member nat_eq self.old.list value }
    {
        if self.has(value) {
            return Ok(());
        }
        self.values.push(value)?;
        set_bit(&mut self.bits, value as usize);
        Ok(())
    }
}

// Adds words of no bits until there are so many.
fn grow(bits: &mut Vec<u64>, words: usize) -> Result<(), AllocError>
    ensures same { (place : ℕ) → has_bit_of bits.new.items place ≡ has_bit_of bits.old.items place }
    ensures long { OnOk result (words ≤ vec_len bits.new) }
{
    while bits.len() < words {
        bits.push(0)?;
    }
    Ok(())
}
