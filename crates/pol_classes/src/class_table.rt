//! The table of classes, and how it is read.

ghost use Rattle.std.specs.Prelude.{◌≡◌, ◌<◌, Some, IfOk, slice_get, length, true};
ghost use Rattle.pol_cursor.specs.Outcome.{Yields};
ghost use Rattle.pol_symtab.specs.SymbolTables.{primary_index};
ghost use Rattle.pol_symtab.specs.Inner.Namings.{namings_of};
ghost use Rattle.pol_classes.specs.ClassTables.{class_table_at};

use crate::class_kind::{Class, ClassContext};
use crate::class_view::ClassView;
use pol_commons::CommonList;
use pol_cursor::{Cursor, ReadError};
use pol_symtab::{
    SymbolTable, TableContext, TableNames, Taken, read_symbol_table, read_table_head,
};
use std::alloc::Global;
use std::marker::Model;

/// The table of classes. Contracts see its nprim and the list of its records, each with its place.
///
/// A class is laid out in one of two ways, by whether its constraints have type sets.
#[derive(Drop)]
pub struct ClassTable<'a> {
    table: ByTypeSets<'a>,
}

/// A table of classes by how they are laid out.
#[derive(Drop)]
pub enum ByTypeSets<'a> {
    /// Constraints have no type sets, up to version 28.
    Without(SymbolTable<'a, Class<28>>),
    /// They have, from version 29 on.
    With(SymbolTable<'a, Class<29>>),
}

impl<'a> Model for ClassTable<'a> {
    ghost use Rattle.pol_symtab.specs.SymbolTables.{Table};
    ghost use Rattle.pol_classes.specs.declared.class_rec.ClassRec.{ClassRec};
    ghost use Rattle.pol_classes.specs.ClassTables.{classes_of};

    ghost Value = { Table ClassRec };

    ghost view = { λ t. classes_of t.table };
}

impl<'a> ClassTable<'a> {
    /// What its classes name.
    pub fn names(&self) -> &TableNames<'a>
        ensures { result.now ≡ namings_of (λ class. class.name) (λ class. true) (λ class. class.value) self.now }
    {
        match &self.table {
            ByTypeSets::Without(table) => table.names(),
            ByTypeSets::With(table) => table.names(),
        }
    }

    /// How many classes there are.
    pub fn len(&self) -> u32
        ensures { result ≡ length self.now.records }
    {
        match &self.table {
            ByTypeSets::Without(table) => table.len(),
            ByTypeSets::With(table) => table.len(),
        }
    }

    /// The class of that number, from 0 on.
    pub fn view(&self, i: u32) -> ClassView<'a>
        requires { i < length self.now.records }
        ensures { slice_get self.now.records i ≡ Some result }
    {
        match &self.table {
            ByTypeSets::Without(table) => table.view(i),
            ByTypeSets::With(table) => table.view(i),
        }
    }

    /// The place in the list of the class of that value. `None` exactly where no class has it.
    pub fn by_value(&self, value: u32) -> Option<u32>
        ensures { result ≡ primary_index (λ class. true) (λ class. class.value) self.now.records value }
    {
        match &self.table {
            ByTypeSets::Without(table) => table.by_value(value),
            ByTypeSets::With(table) => table.by_value(value),
        }
    }
}

/// Reads the table of classes of a policy of that version, under its commons, and hands these back.
pub fn read_class_table<'a>(
    alloc: Global,
    c: &mut Cursor<'a>,
    version: u32,
    commons: CommonList<'a>,
) -> Result<(ClassTable<'a>, CommonList<'a>), ReadError>
    ensures exact { Yields (λ read. read.0) result (class_table_at version commons.entry) c.old c.new }
    ensures commons { IfOk result (λ read. read.1 ≡ commons.entry) }
{
    if version >= 29 {
        let (table, commons) = read_classes::<29>(alloc, c, commons)?;
        let table = ByTypeSets::With(table);
        Ok((ClassTable { table }, commons))
    } else {
        let (table, commons) = read_classes::<28>(alloc, c, commons)?;
        let table = ByTypeSets::Without(table);
        Ok((ClassTable { table }, commons))
    }
}

// Reads the table of classes as they are laid out in that version.
#[tactic(auto, unfolding(crate::specs::ClassTables::class_table_at, pol_symtab::specs::SymbolTables::table_at))]
fn read_classes<'a, const VERSION: u32>(
    alloc: Global,
    c: &mut Cursor<'a>,
    commons: CommonList<'a>,
) -> Result<(SymbolTable<'a, Class<VERSION>>, CommonList<'a>), ReadError>
    ensures exact { Yields (λ read. read.0) result (class_table_at VERSION commons.entry) c.old c.new }
    ensures commons { IfOk result (λ read. read.1 ≡ commons.entry) }
{
    let head = read_table_head(c)?;
    let table = TableContext {
        nprim: head.nprim,
        taken: Taken::new(alloc, head.nel),
    };
    let context = ClassContext { commons, table };
    let (table, context) = read_symbol_table(alloc, c, head, context)?;
    Ok((table, context.commons))
}
