// The values that the types of a tree declare.
ghost use Rattle.std.specs.Prelude.{◌≡◌, IfOk};
ghost use Rattle.pol_versions.specs.Conversion.{values_of_types};

use pol_bitmap::Set;
use pol_datums::TypeRec;
use set_nodes::set_of_values;
use std::alloc::{AllocError, Global};

/// The values of type records, as a set.
pub fn values_of_types(alloc: Global, types: &[TypeRec]) -> Result<Set, AllocError>
    ensures { IfOk result (λ set. set ≡ values_of_types types.now) }
{
    let mut values = Vec::with_capacity(alloc, types.len())?;
    for record in types {
        values.push(record.value)?;
    }
    set_of_values(alloc, values)
}
