//! A symbol table, and how it is read.

ghost use Rattle.std.specs.Prelude.{◌≡◌, ◌<◌, ◌≤◌, Some, IfOk, slice_get, length};
ghost use Rattle.pol_cursor.specs.Outcome.{Yields};
ghost use Rattle.pol_cursor.specs.Contexts.{context_after};
ghost use Rattle.pol_cursor.specs.References.{values_of, AreDeclared, references_in};
ghost use Rattle.pol_symtab.specs.SymbolTables.{index_named, primary_index, table_records_at, table_at, table_start};
ghost use Rattle.pol_symtab.specs.Inner.Namings.{namings_of};
ghost use Rattle.pol_symtab.specs.Inner.TableIndex.{HaveDistinctNames, HaveDistinctValues};
ghost use Rattle.pol_symtab.specs.declared.taken.TableContext.{TableContext};

use crate::symbol::{Symbol, SymbolKind};
use crate::symbol_laws::symbol_laws;
use crate::symbol_names::names_of;
use crate::table_head::{TableHead, read_table_head};
use crate::table_names::TableNames;
use crate::taken::{TableContext, Taken};
use pol_cursor::{
    Copied, Cursor, Names, OwnedList, ReadError, Records, Referring, check_records,
    read_records_after,
};
use pol_fields::Fault;
use std::alloc::{AllocError, Global};
use std::marker::Model;

/// A symbol table, by the places of its records. Contracts see its nprim and the list of its records, each with its place.
pub struct SymbolTable<'a, K: SymbolKind + Drop> {
    names: TableNames<'a>,
    records: Records<'a, K>,
}

// Its parts go in one call, wherever it is dropped.
impl<'a, K: SymbolKind + Drop> Drop for SymbolTable<'a, K> {
    fn drop(self) {
        let SymbolTable { names, records } = self;
    }
}

impl<'a, K: SymbolKind + Drop> Model for SymbolTable<'a, K> {
    ghost use Rattle.std.specs.Prelude.{◌≡◌, map};
    ghost use Rattle.pol_symtab.specs.SymbolTables.{Table};
    ghost use Rattle.pol_symtab.specs.Inner.Namings.{naming_of};

    ghost Value = { Table K.Owned };

    ghost view = { λ t. record { nprim = t.names.nprim; records = t.records } };

    ghost invariant = { λ t. t.names.records ≡ map (naming_of K.name_of K.is_primary K.value_of) t.records };
}

impl<'a, K: Symbol<'a> + Drop> SymbolTable<'a, K>
where
    K::View: Drop,
{
    // The table of records whose names are distinct, and the values of the primary ones too.
    fn index(
        alloc: Global,
        nprim: u32,
        records: Records<'a, K>,
    ) -> Result<SymbolTable<'a, K>, AllocError>
        requires names { HaveDistinctNames K.name_of records }
        requires values { HaveDistinctValues K.is_primary K.value_of nprim records }
        ensures { IfOk result (λ table. table ≡ record { nprim = nprim; records = records.entry }) }
    {
        let names = names_of(alloc, &records)?;
        let names = TableNames::new(alloc, nprim, names)?;
        Ok(SymbolTable { names, records })
    }

    /// What its records name.
    pub fn names(&self) -> &TableNames<'a>
        ensures { result.now ≡ namings_of K.name_of K.is_primary K.value_of self.now }
    {
        &self.names
    }

    /// How many records there are.
    pub fn len(&self) -> u32
        ensures { result ≡ length self.now.records }
    {
        self.records.len()
    }

    /// The record of that number, from 0 on.
    pub fn view(&self, i: u32) -> K::View
        requires { i < length self.now.records }
        ensures { slice_get self.now.records i ≡ Some (K.shown result) }
    {
        self.records.view(i)
    }

    /// The place in the list of the record of that name, an alias or not. `None` exactly where no record has it.
    #[tactic(auto, using(crate::proofs::Namings::index_named_by))]
    pub fn index_by_name(&self, name: &[u8]) -> Option<u32>
        ensures { result ≡ index_named K.name_of self.now.records name.now }
    {
        self.names.index_by_name(name)
    }

    /// The place in the list of the primary record of that value. `None` exactly where no primary record declares it.
    #[tactic(auto, using(crate::proofs::Namings::primary_index_by))]
    pub fn by_value(&self, value: u32) -> Option<u32>
        ensures { result ≡ primary_index K.is_primary K.value_of self.now.records value }
    {
        self.names.by_value(value)
    }
}

impl<'a, K: SymbolKind + Copied<'a> + Drop> SymbolTable<'a, K>
where
    K::View: Drop,
    K::Owned: Drop,
{
    /// All records, owned.
    pub fn rec(&self, alloc: Global) -> Result<OwnedList<K::Owned>, AllocError>
        ensures { IfOk result (λ list. list ≡ values_of self.now.records) }
    {
        self.records.rec(alloc)
    }
}

/// Refuses the records of a table at their first reference, in file order, whose value no primary record declares.
pub fn check_table<'a, K: SymbolKind + Referring<'a> + Drop, N: Names>(
    table: &SymbolTable<'a, K>,
    names: &N,
) -> Result<(), Fault>
where
    K::View: Drop,
    ensures { AreDeclared result (N.named names.now) (references_in K.references table.now.records) }
{
    check_records(&table.records, names)
}

/// Reads the records of a table behind its head, the first of them under the context, and answers the last context too. What
/// it takes for values is bounded by nprim, and nothing is reserved by the number of records that the policy claims.
pub fn read_symbol_table<'a, K: Symbol<'a> + Drop>(
    alloc: Global,
    c: &mut Cursor<'a>,
    head: TableHead,
    context: K::Context,
) -> Result<(SymbolTable<'a, K>, K::Context), ReadError>
where
    K::View: Drop,
    requires small { head.nprim ≤ 65535 }
    requires nprim { K.nprim_of context ≡ head.nprim }
    ensures exact { Yields (λ read. read.0) result (table_records_at K.reads K.after head.nprim head.nel context) c.old c.new }
    ensures after { IfOk result (λ read. read.1 ≡ context_after K.after context read.0.records) }
{
    let (records, context) = read_records_after::<K>(alloc, c, head.nel, context)?;
    symbol_laws::<K>();
    let table = SymbolTable::index(alloc, head.nprim, records)?;
    Ok((table, context))
}

/// Reads a whole table, whose records are read under nprim and the claims of the records before them, and nothing else.
#[tactic(auto, unfolding(crate::specs::SymbolTables::table_at))]
pub fn read_whole_table<'a, K: Symbol<'a, Context = TableContext<'a>> + Drop>(
    alloc: Global,
    c: &mut Cursor<'a>,
) -> Result<SymbolTable<'a, K>, ReadError>
where
    K::View: Drop,
    requires { (context : TableContext) → K.nprim_of context ≡ context.nprim }
    ensures { Yields (λ table. table) result (table_at K.reads K.after table_start) c.old c.new }
{
    let head = read_table_head(c)?;
    let context = TableContext {
        nprim: head.nprim,
        taken: Taken::new(alloc, head.nel),
    };
    let (table, _) = read_symbol_table(alloc, c, head, context)?;
    Ok(table)
}
