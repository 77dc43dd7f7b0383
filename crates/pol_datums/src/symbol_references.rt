// The references that a symbol has where it is an alias or has bounds.
ghost use Rattle.std.specs.Prelude.{◌≡◌};
ghost use Rattle.pol_cursor.specs.References.{dangling_of};
ghost use Rattle.pol_cursor.specs.Mentions.{reference_of};
ghost use Rattle.pol_datums.specs.SymbolReferences.{alias_reference, bounds_reference};

use pol_cursor::{Mention, Names, first_dangling};
use pol_fields::Fault;

/// The fault of the value that an alias stands for, where no primary record declares it.
pub fn dangling_alias<N: Names>(names: &N, is_primary: bool, stands_for: Mention) -> Option<Fault>
    ensures { result ≡ dangling_of (N.named names.now) (alias_reference is_primary (reference_of stands_for)) }
{
    if is_primary {
        None
    } else {
        first_dangling(names, &[stands_for])
    }
}

/// The fault of the value that bounds a symbol, where no primary record declares it. 0 bounds nothing.
pub fn dangling_bounds<N: Names>(names: &N, bounds: Mention) -> Option<Fault>
    ensures { result ≡ dangling_of (N.named names.now) (bounds_reference (reference_of bounds)) }
{
    if bounds.value == 0 {
        None
    } else {
        first_dangling(names, &[bounds])
    }
}
