//! Where the primary record of a value stands, and the rank of its name.

ghost use Rattle.std.specs.Prelude.{◌≡◌, ◌<◌, ◌^◌, IfOk, length, map};
ghost use Rattle.pol_symtab.specs.Inner.Namings.{its_value, is_its_primary, naming};
ghost use Rattle.pol_symtab.specs.Inner.TableIndex.{HaveDistinctValues, IsValueIndex, declared_at, ranked};

use crate::symbol_names::SymbolName;
use std::alloc::{AllocError, Global};

/// By value from 0 to nprim: the number of its primary name.
pub(crate) fn index_values(
    alloc: Global,
    nprim: u32,
    names: &[SymbolName<'_>],
) -> Result<Vec<Option<u32>>, AllocError>
    requires few { length names.now < 2 ^ 32 }
    requires values { HaveDistinctValues is_its_primary its_value nprim (map naming names.now) }
    ensures { IfOk result (λ by_value. IsValueIndex is_its_primary its_value (map naming names.now) by_value.items) }
{
    let mut by_value = Vec::new(alloc);
    by_value.resize(nprim as usize + 1, None)?;
    for i in 0..names.len() as u32 {
        match declared_value(names, i) {
            Some(value) => by_value[value as usize] = Some(i),
            None => {}
        }
    }
    Ok(by_value)
}

// The value that the name of that number declares: none where it is an alias.
#[tactic(auto, using(crate::proofs::Namings::naming_at))]
fn declared_value(names: &[SymbolName<'_>], i: u32) -> Option<u32>
    requires { i < length names.now }
    ensures { result ≡ declared_at is_its_primary its_value (map naming names.now) i }
{
    let symbol = &names[i as usize];
    if symbol.primary {
        Some(symbol.value)
    } else {
        None
    }
}

/// By value: the rank of its primary record, of the ranks by the numbers of records.
pub(crate) fn rank_values(
    alloc: Global,
    by_value: &[Option<u32>],
    by_number: &[u32],
) -> Result<Vec<Option<u32>>, AllocError>
    ensures { IfOk result (λ ranks. ranks.items ≡ map (ranked by_number.now) by_value.now) }
{
    by_value
        .iter()
        .map(|entry| ranked(by_number, *entry))
        .collect(alloc)
}

// The rank of the record of a number, where there is one.
fn ranked(by_number: &[u32], entry: Option<u32>) -> Option<u32>
    ensures { result ≡ ranked by_number.now entry }
{
    match entry {
        Some(number) => by_number.get(number as usize).copied(),
        None => None,
    }
}
