//! The names and values of the records of a table, found by name and by value.

ghost use Rattle.std.specs.Prelude.{◌≡◌, ◌<◌, ◌^◌, Some, IfOk, is_some, option_map, slice_get, length, map};
ghost use Rattle.pol_symtab.specs.SymbolTables.{index_named, value_named, primary_index, primary_name, rank_of};
ghost use Rattle.pol_symtab.specs.Inner.Namings.{its_name, its_value, is_its_primary, naming};
ghost use Rattle.pol_symtab.specs.Inner.TableIndex.{HaveDistinctNames, HaveDistinctValues};

use crate::name_order::{find_name, numbers_of, rank_names, sorted_entries};
use crate::symbol_names::SymbolName;
use crate::value_index::{index_values, rank_values};
use std::alloc::{AllocError, Global};
use std::marker::Model;

/// The names of a symbol table, found by name and by value, whatever else its records say. Contracts see the greatest value that
/// the table may declare, and the names in the order of its records.
pub struct TableNames<'a> {
    nprim: u32,
    // In the order of the records.
    names: Vec<SymbolName<'a>>,
    // By value: the number of its primary name.
    by_value: Vec<Option<u32>>,
    // The numbers of the names, in the order of their bytes.
    by_name: Vec<u32>,
    // By value: how many primary names are below its own.
    ranks: Vec<Option<u32>>,
}

// Its parts go in one call, wherever it is dropped.
impl Drop for TableNames<'_> {
    fn drop(self) {
        let TableNames {
            nprim,
            names,
            by_value,
            by_name,
            ranks,
        } = self;
    }
}

impl<'a> Model for TableNames<'a> {
    ghost use Rattle.std.specs.Prelude.{◌<◌, ◌^◌, length, map};
    ghost use Rattle.pol_symtab.specs.SymbolTables.{Table};
    ghost use Rattle.pol_symtab.specs.Inner.Namings.{Naming, its_name, its_value, is_its_primary, naming};
    ghost use Rattle.pol_symtab.specs.Inner.TableIndex.{IsIndexed};

    ghost Value = { Table Naming };

    ghost view = { λ t. record { nprim = t.nprim; records = map naming t.names.items } };

    ghost invariant = { λ t. IsIndexed its_name is_its_primary its_value (map naming t.names.items) t.by_value.items t.by_name.items t.ranks.items × (length t.names.items < 2 ^ 32) };
}

impl<'a> TableNames<'a> {
    /// The names, which are distinct, and the values of the primary ones too, found from now on.
    pub(crate) fn new(
        alloc: Global,
        nprim: u32,
        names: Vec<SymbolName<'a>>,
    ) -> Result<TableNames<'a>, AllocError>
        requires few { length names.items < 2 ^ 32 }
        requires names { HaveDistinctNames its_name (map naming names.items) }
        requires values { HaveDistinctValues is_its_primary its_value nprim (map naming names.items) }
        ensures { IfOk result (λ table. table ≡ record { nprim = nprim; records = map naming names.entry.items }) }
    {
        let by_value = index_values(alloc, nprim, &names)?;
        let entries = sorted_entries(alloc, &names)?;
        let by_name = numbers_of(alloc, &entries)?;
        let by_number = rank_names(alloc, &entries)?;
        let ranks = rank_values(alloc, &by_value, &by_number)?;
        Ok(TableNames {
            nprim,
            names,
            by_value,
            by_name,
            ranks,
        })
    }

    /// The greatest value that the table may declare.
    pub fn prims(&self) -> u32
        ensures { result ≡ self.now.nprim }
    {
        self.nprim
    }

    /// How many names there are.
    #[tactic(auto, using(crate::proofs::Namings::as_many))]
    pub fn len(&self) -> u32
        ensures { result ≡ length self.now.records }
    {
        self.names.len() as u32
    }

    // The name of that number, from 0 on.
    #[tactic(auto, using(crate::proofs::Namings::naming_at, crate::proofs::Namings::as_many))]
    fn at(&self, i: u32) -> &SymbolName<'a>
        requires { i < length self.now.records }
        ensures { slice_get self.now.records i ≡ Some (naming result.now) }
    {
        &self.names[i as usize]
    }

    /// The name of that number, from 0 on.
    #[tactic(auto, using(crate::proofs::Namings::name_there))]
    pub fn name_at(&self, i: u32) -> &'a [u8]
        requires { i < length self.now.records }
        ensures { slice_get (map (λ symbol. its_name symbol.value) self.now.records) i ≡ Some result.now }
    {
        self.at(i).name
    }

    /// The value that it names.
    #[tactic(auto, using(crate::proofs::Namings::value_there))]
    pub fn value_at(&self, i: u32) -> u32
        requires { i < length self.now.records }
        ensures { slice_get (map (λ symbol. its_value symbol.value) self.now.records) i ≡ Some result }
    {
        self.at(i).value
    }

    /// The number of that name, an alias or not. `None` exactly where no record has it.
    pub fn index_by_name(&self, name: &[u8]) -> Option<u32>
        ensures { result ≡ index_named its_name self.now.records name.now }
    {
        find_name(&self.names, &self.by_name, name)
    }

    /// The value of that name, an alias or not. `None` exactly where no record has it.
    #[tactic(auto, using(crate::proofs::Searches::index_named_within, crate::proofs::Searches::value_named_at, crate::proofs::Searches::value_named_none))]
    pub fn by_name(&self, name: &[u8]) -> Option<u32>
        ensures { result ≡ value_named its_name its_value self.now.records name.now }
    {
        match self.index_by_name(name) {
            Some(i) => Some(self.at(i).value),
            None => None,
        }
    }

    /// The number of the primary name of that value. `None` exactly where no primary record declares it.
    pub fn by_value(&self, value: u32) -> Option<u32>
        ensures { result ≡ primary_index is_its_primary its_value self.now.records value }
    {
        match self.by_value.get(value as usize) {
            Some(entry) => *entry,
            None => None,
        }
    }

    /// The primary name of that value. `None` exactly where no primary record declares it.
    #[tactic(auto, using(crate::proofs::Searches::primary_within, crate::proofs::Searches::primary_name_at, crate::proofs::Searches::primary_name_none))]
    pub fn name_of(&self, value: u32) -> Option<&'a [u8]>
        ensures { option_map (λ name. name.now) result ≡ primary_name its_name is_its_primary its_value self.now.records value }
    {
        match self.by_value(value) {
            Some(i) => Some(self.at(i).name),
            None => None,
        }
    }

    /// Whether a primary record declares that value.
    #[tactic(auto, using(crate::proofs::Searches::primary_declared))]
    pub fn declares(&self, value: u32) -> bool
        ensures { result ≡ is_some (primary_name its_name is_its_primary its_value self.now.records value) }
    {
        self.by_value(value).is_some()
    }

    /// How many primary names of the table are below the name of that value, in the order of their bytes. `None` exactly where
    /// no primary record declares the value.
    pub fn rank(&self, value: u32) -> Option<u32>
        ensures { result ≡ rank_of its_name is_its_primary its_value self.now.records value }
    {
        match self.ranks.get(value as usize) {
            Some(rank) => *rank,
            None => None,
        }
    }
}
