//! What the records of a table name, whatever else they say.

ghost use Rattle.std.specs.Prelude.{◌≡◌, ◌<◌, ◌^◌, IfOk, length, map};
ghost use Rattle.pol_symtab.specs.Inner.Namings.{naming, naming_of};

use crate::symbol::Symbol;
use pol_cursor::Records;
use std::alloc::{AllocError, Global};

/// A name, the value that it names, and whether it is primary, and so no alias.
#[derive(Drop)]
pub struct SymbolName<'a> {
    pub(crate) name: &'a [u8],
    pub(crate) value: u32,
    pub(crate) primary: bool,
}

/// The names of the records, in the order of the list.
pub(crate) fn names_of<'a, K: Symbol<'a> + Drop>(
    alloc: Global,
    records: &Records<'a, K>,
) -> Result<Vec<SymbolName<'a>>, AllocError>
where
    K::View: Drop,
    ensures same { IfOk result (λ names. map naming names.items ≡ map (naming_of K.name_of K.is_primary K.value_of) records.now) }
    ensures few { IfOk result (λ names. length names.items < 2 ^ 32) }
{
    let mut names = Vec::with_capacity(alloc, records.len() as usize)?;
    for number in 0..records.len() {
        let record = records.view(number);
        names.push(SymbolName {
            name: K::name(&record),
            value: K::value(&record),
            primary: K::is_primary(&record),
        })?;
    }
    Ok(names)
}
