//! Sets of types as names in the order of their bytes. No name is compared: the rank of each type's name is looked up once, and the
//! types are sorted by these numbers.

ghost use Rattle.std.specs.Prelude.{◌≡◌, IfOk, map};
ghost use Rattle.std.specs.List.{filter_map};
ghost use Rattle.std.specs.List.Sorted.{IsPermutation, IsSortedByKey};
ghost use Rattle.std.specs.Ordering.{nat_cmp};
ghost use Rattle.pol_bitmap.specs.Nodes.{bits_of};
ghost use Rattle.pol_fields.specs.declared.TableKind.TheVariants.{Types};
ghost use Rattle.pol_symbols.specs.PolicySymbols.{name_in};
ghost use Rattle.info_lines.specs.NameSets.{names_of_values};
ghost use Rattle.info_symbols.specs.Inner.RankedTypes.{ranked_type};

use pol_bitmap::Set;
use pol_fields::TableKind;
use pol_symbols::Symbols;
use std::alloc::{AllocError, Global};

/// The value of a type that is declared, with the rank of its name.
#[derive(Clone, Copy, Debug, PartialEq, Eq)]
struct RankedType {
    rank: u32,
    value: u32,
}

/// The names of those types of a set that a primary record declares, in the order of their bytes.
pub fn names_of_set<'a>(
    alloc: Global,
    symbols: &Symbols<'a>,
    set: &Set,
) -> Result<Vec<&'a [u8]>, AllocError>
    ensures { IfOk result (λ names. map (λ name. name.now) names.items ≡ names_of_values symbols.now Types (bits_of set.now)) }
{
    let mut types = ranked_types(alloc, symbols, set)?;
    sort_by_rank(&mut types);
    declared_names(alloc, symbols, &types)
}

// The types of a set that are declared, with the ranks of their names, by rising values.
fn ranked_types(
    alloc: Global,
    symbols: &Symbols<'_>,
    set: &Set,
) -> Result<Vec<RankedType>, AllocError>
    ensures { IfOk result (λ types. types.items ≡ filter_map (ranked_type symbols.now) (bits_of set.now)) }
{
    set.bits()
        .filter_map(|value| ranked_type(symbols, value))
        .collect(alloc)
}

// The type of a value with the rank of its name, if it is declared.
fn ranked_type(symbols: &Symbols<'_>, value: u32) -> Option<RankedType>
    ensures { result ≡ ranked_type symbols.now value }
{
    match symbols.rank(TableKind::Types, value) {
        Some(rank) => Some(RankedType { rank, value }),
        None => None,
    }
}

// Sorts types by the ranks of their names.
fn sort_by_rank(types: &mut [RankedType])
    ensures same { IsPermutation types.old types.new }
    ensures rise { IsSortedByKey (λ t. t.rank) nat_cmp types.new }
{
    types.sort_unstable_by_key(|t| t.rank);
}

// Their names, in the order of the list.
fn declared_names<'a>(
    alloc: Global,
    symbols: &Symbols<'a>,
    types: &[RankedType],
) -> Result<Vec<&'a [u8]>, AllocError>
    ensures { IfOk result (λ names. map (λ name. name.now) names.items ≡ filter_map (λ t. name_in symbols.now Types t.value) types.now) }
{
    let mut names = Vec::new(alloc);
    for t in types {
        match symbols.name_of(TableKind::Types, t.value) {
            Some(name) => names.push(name)?,
            None => {}
        }
    }
    Ok(names)
}
