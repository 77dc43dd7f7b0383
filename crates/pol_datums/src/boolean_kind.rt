//! The kind of the records of the table of booleans.

use crate::boolean_rec::BooleanRec;
use crate::boolean_view::{BooleanView, read_boolean};
use crate::datum::{Datum, DatumKind};
use pol_cursor::{Cursor, string_in, u32_in};
use pol_fields::Fault;
use pol_symtab::TableContext;

/// The kind of booleans. Each of them is primary.
pub type Boolean = DatumKind<BooleanRec>;

impl Datum for BooleanRec {
    ghost use Rattle.std.specs.Prelude.{true};
    ghost use Rattle.pol_datums.specs.BooleanRecord.{boolean_at, boolean_in, HasBoolean, BooleanFits};
    ghost use Rattle.pol_datums.specs.Inner.DatumFreshness.{boolean_is_fresh};

    ghost standing = { boolean_in };

    ghost has = { HasBoolean };

    ghost reads = { boolean_at };

    ghost name_of = { λ boolean. boolean.name };

    ghost value_of = { λ boolean. boolean.value };

    ghost is_primary = { λ boolean. true };

    ghost fits = { BooleanFits };

    fn read<'a>(c: &mut Cursor<'a>, context: &TableContext<'a>) -> Result<BooleanView<'a>, Fault> {
        read_boolean(c, &context.taken, context.nprim)
    }

    fn name<'a>(view: &BooleanView<'a>) -> &'a [u8] {
        let len = u32_in(view.bytes, view.place as usize + 8);
        string_in(view.bytes, view.place as usize + 12, len as usize)
    }

    fn value(view: &BooleanView<'_>) -> u32 {
        u32_in(view.bytes, view.place as usize)
    }

    fn is_primary(_view: &BooleanView<'_>) -> bool {
        true
    }

    ghost fresh = { boolean_is_fresh };
}
