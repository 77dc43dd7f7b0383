//! The names of the values of symbol tables, as a trait, and references to values.

ghost use Rattle.std.specs.Prelude.{◌≡◌, ℕ, List, [], ◌∷◌, ◌++◌, is_some, option_map, OnOk};
ghost use Rattle.std.specs.declared.option.Option.{Option};
ghost use Rattle.pol_cursor.specs.References.{dangling_of, name_of};

use pol_fields::{Cause, Fault, Field, TableKind};
use std::alloc::AllocError;

/// The names of the records that declare values.
pub trait Names {
    ghost use Rattle.pol_fields.specs.declared.table_kind.TableKind.{TableKind};

    /// The name of the primary record of that value in that table, where one declares it.
    ghost named: { Self → TableKind → ℕ → Option (List ℕ) };

    /// The name of the primary record of that value. It is `None` exactly where no primary record declares the value.
    fn name(&self, table: TableKind, value: u32) -> Option<&[u8]>
        ensures { option_map (λ name. name.now) result ≡ named self.now table value };

    /// Whether a primary record declares that value. No name is looked at.
    fn declares(&self, table: TableKind, value: u32) -> bool
        ensures { result ≡ is_some (named self.now table value) };
}

/// Appends the name of a value, or nothing where no primary record declares it.
pub fn push_name<N: Names>(
    out: &mut Vec<u8>,
    table: TableKind,
    value: u32,
    names: &N,
) -> Result<(), AllocError>
    ensures { OnOk result (out.new.items ≡ out.old.items ++ name_of (N.named names.now) table value) }
{
    match names.name(table, value) {
        Some(name) => out.extend_from_slice(name),
        None => Ok(()),
    }
}

/// The fault of a reference, where no primary record of its table declares the value that it names.
pub fn dangling<N: Names>(
    names: &N,
    place: u32,
    field: Field,
    table: TableKind,
    value: u32,
) -> Option<Fault>
    ensures { result ≡ dangling_of (N.named names.now) (record { place = place; field = field; table = table; value = value } ∷ []) }
{
    if names.declares(table, value) {
        None
    } else {
        Some(Fault {
            place,
            field,
            cause: Cause::Dangling { table, value },
        })
    }
}
