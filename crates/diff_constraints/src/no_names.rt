//! Names that are not told.

ghost use Rattle.std.specs.Prelude.{◌≡◌};

use pol_cursor::Names;
use pol_fields::TableKind;

/// Names of which none is told: a set of them has the text of an empty one.
#[derive(Clone, Copy, Debug)]
pub(crate) struct NoNames;

impl Names for NoNames {
    ghost use Rattle.diff_constraints.specs.StatedConstraints.{no_names};

    ghost named = { λ names. no_names };

    fn name(&self, table: TableKind, value: u32) -> Option<&[u8]> {
        None
    }

    fn declares(&self, table: TableKind, value: u32) -> bool {
        false
    }
}
