// The values that names are looked up to.
ghost use Rattle.std.specs.Prelude.{◌≡◌, ◌++◌, ℕ, IfOk, OnOk, map};
ghost use Rattle.std.specs.List.{filter_map};
ghost use Rattle.std.specs.Option.{option_to_list};
ghost use Rattle.pol_bitmap.specs.Nodes.{has_bit};
ghost use Rattle.pol_symbols.specs.PolicySymbols.{value_in};
ghost use Rattle.named_values.specs.Named.{is_named};

use pol_bitmap::Set;
use pol_fields::TableKind;
use pol_symbols::Symbols;
use std::alloc::{AllocError, Global};

/// The values that names are looked up to in a table. A name that no record has is left out.
pub fn values_named(
    alloc: Global,
    symbols: &Symbols<'_>,
    table: TableKind,
    names: &[&[u8]],
) -> Result<Set, AllocError>
    ensures { IfOk result (λ set. (value : ℕ) → has_bit set value ≡ is_named symbols.now table (map (λ name. name.now) names.now) value) }
{
    let values = look_up(alloc, symbols, table, names)?;
    Set::from_values(alloc, values)
}

// Appends a value, if there is one.
fn push_some(values: &mut Vec<u32>, value: Option<u32>) -> Result<(), AllocError>
    ensures { OnOk result (values.new.items ≡ values.old.items ++ option_to_list value) }
{
    if let Some(value) = value {
        values.push(value)?;
    }
    Ok(())
}

// The values of those that are there, name by name.
fn look_up(
    alloc: Global,
    symbols: &Symbols<'_>,
    table: TableKind,
    names: &[&[u8]],
) -> Result<Vec<u32>, AllocError>
    ensures { IfOk result (λ values. values.items ≡ filter_map (λ name. value_in symbols.now table name.now) names.now) }
{
    let mut values = Vec::new(alloc);
    for name in names {
        push_some(&mut values, symbols.by_name(table, name))?;
    }
    Ok(values)
}
