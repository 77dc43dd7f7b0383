// Lists of records behind their counts.
ghost use Rattle.pol_cursor.specs.Parts.{spell_counted};
ghost use Rattle.pol_symtab.specs.SymbolTables.{spell_table};
ghost use Rattle.pol_tree.specs.TreeSpelling.{spell_if};

use crate::paged::{Each, Paged, Whole};
use pol_cursor::{OwnedList, Part, Written};
use se_items::WriteEnd;
use se_outside::Sink;
use std::alloc::AllocError;

/// A list behind its count.
#[derive(Drop)]
pub struct Counted<'a, W: Written + Drop>(pub &'a OwnedList<W>);

impl<'a, W: Written + Drop> Paged for Counted<'a, W> {
    ghost bytes = { λ list. spell_counted W.spelling list.0.now };

    fn count(&self, start: u64, buffer: &mut Vec<u8>) -> Result<u64, AllocError> {
        let number = Whole(Part::U32(self.0.len() as u64));
        (number, Each(self.0.as_slice())).count(start, buffer)
    }

    fn send<S: Sink>(&self, buffer: &mut Vec<u8>, out: &mut S) -> Result<(), WriteEnd> {
        let number = Whole(Part::U32(self.0.len() as u64));
        (number, Each(self.0.as_slice())).send(buffer, out)
    }
}

/// The nprim of a symbol table and its records, behind that number and their count.
#[derive(Drop)]
pub struct Table<'a, W: Written + Drop>(pub u32, pub &'a OwnedList<W>);

impl<'a, W: Written + Drop> Paged for Table<'a, W> {
    ghost bytes = { λ table. spell_table W.spelling (record { nprim = table.0; records = table.1.now }) };

    fn count(&self, start: u64, buffer: &mut Vec<u8>) -> Result<u64, AllocError> {
        let nprim = Whole(Part::U32(self.0 as u64));
        (nprim, Counted(self.1)).count(start, buffer)
    }

    fn send<S: Sink>(&self, buffer: &mut Vec<u8>, out: &mut S) -> Result<(), WriteEnd> {
        let nprim = Whole(Part::U32(self.0 as u64));
        (nprim, Counted(self.1)).send(buffer, out)
    }
}

/// What is in the file, or is not.
#[derive(Drop)]
pub struct When<P: Paged + Drop>(pub bool, pub P);

impl<P: Paged + Drop> Paged for When<P> {
    ghost bytes = { λ part. spell_if part.0 (P.bytes part.1) };

    fn count(&self, start: u64, buffer: &mut Vec<u8>) -> Result<u64, AllocError> {
        if self.0 {
            self.1.count(start, buffer)
        } else {
            Ok(start)
        }
    }

    fn send<S: Sink>(&self, buffer: &mut Vec<u8>, out: &mut S) -> Result<(), WriteEnd> {
        if self.0 {
            self.1.send(buffer, out)
        } else {
            Ok(())
        }
    }
}
