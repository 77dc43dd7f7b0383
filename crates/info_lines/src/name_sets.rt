// Sets of values of a symbol table, as names in the order of their bytes. No name is compared: values are sorted by the ranks of
// their names.
ghost use Rattle.std.specs.Prelude.{◌≡◌, IfOk, map};
ghost use Rattle.std.specs.List.{filter_map};
ghost use Rattle.std.specs.List.Sorted.{IsPermutation, IsSortedByKey};
ghost use Rattle.std.specs.Option.{option_cmp};
ghost use Rattle.std.specs.Ordering.{nat_cmp};
ghost use Rattle.pol_bitmap.specs.Nodes.{bits_of};
ghost use Rattle.pol_symbols.specs.PolicySymbols.{name_in, rank_in};
ghost use Rattle.info_lines.specs.NameSets.{names_of_bits, names_of_values, value_of_bit, values_of_bits};

use pol_bitmap::BitmapView;
use pol_fields::TableKind;
use pol_symbols::Symbols;
use std::alloc::{AllocError, Global};

/// The names of those of these values that a primary record of the table declares, in the order of their bytes. A name comes as
/// often as its value.
pub fn names_of_values<'a>(
    alloc: Global,
    symbols: &Symbols<'a>,
    table: TableKind,
    values: Vec<u32>,
) -> Result<Vec<&'a [u8]>, AllocError>
    ensures { IfOk result (λ names. map (λ name. name.now) names.items ≡ names_of_values symbols.now table values.items) }
{
    let mut values = values;
    sort_by_name(symbols, table, &mut values);
    declared_names(alloc, symbols, table, &values)
}

// Sorts values by the ranks of their names, those that are not declared first.
fn sort_by_name(symbols: &Symbols<'_>, table: TableKind, values: &mut [u32])
    ensures same { IsPermutation values.old values.new }
    ensures rise { IsSortedByKey (rank_in symbols.now table) (option_cmp nat_cmp) values.new }
{
    values.sort_unstable_by_key(|value| symbols.rank(table, *value));
}

// The names of the values that are declared, in the order of the values.
fn declared_names<'a>(
    alloc: Global,
    symbols: &Symbols<'a>,
    table: TableKind,
    values: &[u32],
) -> Result<Vec<&'a [u8]>, AllocError>
    ensures { IfOk result (λ names. map (λ name. name.now) names.items ≡ filter_map (name_in symbols.now table) values.now) }
{
    let mut names = Vec::new(alloc);
    for value in values {
        match symbols.name_of(table, *value) {
            Some(name) => names.push(name)?,
            None => {}
        }
    }
    Ok(names)
}

/// The values that the bits of a bitmap stand for, rising: bit v - 1 stands for the value v. The bit above all values stands for
/// none.
#[tactic(auto, unfolding(crate::specs::NameSets::values_of_bits))]
pub fn values_of_bits(alloc: Global, bits: &BitmapView<'_>) -> Result<Vec<u32>, AllocError>
    ensures { IfOk result (λ values. values.items ≡ values_of_bits (bits_of bits.now)) }
{
    bits.bits().filter_map(value_of_bit).collect(alloc)
}

// The value that a bit stands for.
fn value_of_bit(bit: u32) -> Option<u32>
    ensures { result ≡ value_of_bit bit }
{
    bit.checked_add(1)
}

/// The names of the values of a table that the bits of a bitmap stand for, where a primary record declares them, in the order of
/// their bytes.
pub fn names_of_bits<'a>(
    alloc: Global,
    symbols: &Symbols<'a>,
    table: TableKind,
    bits: &BitmapView<'_>,
) -> Result<Vec<&'a [u8]>, AllocError>
    ensures { IfOk result (λ names. map (λ name. name.now) names.items ≡ names_of_bits symbols.now table (bits_of bits.now)) }
{
    let values = values_of_bits(alloc, bits)?;
    names_of_values(alloc, symbols, table, values)
}
