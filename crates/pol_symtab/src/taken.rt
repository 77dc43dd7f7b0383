//! The names and values that the records of a table took so far.

ghost use Rattle.std.specs.Prelude.{◌≡◌, OnOk, OnErr};
ghost use Rattle.pol_symtab.specs.Claims.{has_name, has_value, with_claim, no_claims};

use crate::taken_names::TakenNames;
use crate::taken_values::TakenValues;
use std::alloc::{AllocError, Global};
use std::marker::Model;

/// The names and primary values of the records before one in its table.
pub struct Taken<'a> {
    names: TakenNames<'a>,
    values: TakenValues,
}

// Its parts go in one call, wherever it is dropped.
impl Drop for Taken<'_> {
    fn drop(self) {
        let Taken { names, values } = self;
    }
}

impl<'a> Model for Taken<'a> {
    ghost use Rattle.pol_symtab.specs.Claims.{Claims};

    ghost Value = { Claims };

    ghost view = { λ t. record { names = t.names; values = t.values.list } };
}

impl<'a> Taken<'a> {
    /// Nothing is taken, in a table of so many records. Names that stand in the order of such a table of libsepol's are found
    /// the fastest.
    pub fn new(alloc: Global, nel: u32) -> Taken<'a>
        ensures { result ≡ no_claims }
    {
        Taken {
            names: TakenNames::new(alloc, nel),
            values: TakenValues::new(alloc),
        }
    }

    /// Adds the name of a record, and its value where it is primary. Out of memory, nothing was added.
    pub fn add(&mut self, name: &'a [u8], value: Option<u32>) -> Result<(), AllocError>
        ensures ok { OnOk result (self.new ≡ with_claim self.old name.now value) }
        ensures err { OnErr result (self.new ≡ self.old) }
    {
        match value {
            None => {
                self.names.add(name)?;
            }
            Some(value) => {
                self.values.reserve(value)?;
                self.names.add(name)?;
                self.values.insert(value)?;
            }
        }
        Ok(())
    }

    /// Whether a record has the name.
    pub fn has_name(&self, name: &[u8]) -> bool
        ensures { result ≡ has_name self.now name.now }
    {
        self.names.has(name)
    }

    /// Whether a primary record has the value.
    pub fn has_value(&self, value: u32) -> bool
        ensures { result ≡ has_value self.now value }
    {
        self.values.has(value)
    }
}

/// What a record is read under: the greatest value of its table, and what the records before it have taken.
pub struct TableContext<'a> {
    pub nprim: u32,
    pub taken: Taken<'a>,
}

// Its parts go in one call, wherever it is dropped.
impl Drop for TableContext<'_> {
    fn drop(self) {
        let TableContext { nprim, taken } = self;
    }
}
