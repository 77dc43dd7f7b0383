// Lists of records behind their counts.
ghost use Rattle.pol_cursor.specs.Parts.{spell_counted};
ghost use Rattle.pol_symtab.specs.SymbolTables.{spell_table};

use pol_cursor::{OwnedList, Part, Written};
use std::alloc::AllocError;

/// A list behind its count.
#[derive(Drop)]
pub struct Counted<'a, W: Written + Drop>(pub &'a OwnedList<W>);

impl<'a, W: Written + Drop> Written for Counted<'a, W> {
    ghost spelling = { λ list. spell_counted W.spelling list.0.now };

    fn write(&self, out: &mut Vec<u8>) -> Result<(), AllocError> {
        (Part::U32(self.0.len() as u64), self.0).write(out)
    }
}

/// The nprim of a symbol table and its records, behind that number and their count.
#[derive(Drop)]
pub struct SymbolRecords<'a, W: Written + Drop>(pub u32, pub &'a OwnedList<W>);

impl<'a, W: Written + Drop> Written for SymbolRecords<'a, W> {
    ghost spelling = { λ table. spell_table W.spelling (record { nprim = table.0; records = table.1.now }) };

    fn write(&self, out: &mut Vec<u8>) -> Result<(), AllocError> {
        (Part::U32(self.0 as u64), Counted(self.1)).write(out)
    }
}
