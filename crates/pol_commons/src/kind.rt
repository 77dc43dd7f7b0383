//! The kind of the records of the table of commons.

use crate::common_rec::CommonRec;
use crate::common_view::{CommonView, read_common};
use pol_cursor::{Cursor, ReadAfter, ReadError, Record, RecordView};
use pol_symtab::{Symbol, SymbolKind, TableContext};

/// The kind of commons. Each of them is primary.
#[derive(Drop)]
pub struct Common;

impl Record for Common {
    ghost use Rattle.pol_commons.specs.CommonRecord.{common_in, HasCommon};

    type Owned = CommonRec;

    ghost standing = { common_in };

    ghost has = { HasCommon };
}

impl<'a> RecordView<'a> for Common {
    type View = CommonView<'a>;

    ghost shown = { λ v. v };

    fn at(bytes: &'a [u8], place: u32) -> CommonView<'a> {
        CommonView::at(bytes, place)
    }
}

impl<'a> ReadAfter<'a> for Common {
    ghost use Rattle.pol_commons.specs.CommonTable.{common_under, after_common};

    type Context = TableContext<'a>;

    ghost reads = { common_under };

    ghost after = { after_common };

    fn pass(c: &mut Cursor<'a>, context: TableContext<'a>) -> Result<TableContext<'a>, ReadError> {
        let view = read_common(c, &context.taken, context.nprim)?;
        let mut context = context;
        context.taken.add(view.name(), Some(view.value()))?;
        Ok(context)
    }
}

impl SymbolKind for Common {
    ghost use Rattle.pol_commons.specs.CommonRecord.{spell_common, CommonFits};
    ghost use Rattle.std.specs.Prelude.{true};

    ghost name_of = { λ common. common.name };

    ghost value_of = { λ common. common.value };

    ghost is_primary = { λ common. true };

    ghost spelling = { spell_common };

    ghost fits = { CommonFits };
}

impl<'a> Symbol<'a> for Common {
    ghost use Rattle.std.specs.Prelude.{refl};
    ghost use Rattle.pol_commons.specs.Inner.CommonFreshness.{common_is_fresh};

    ghost nprim_of = { λ context. context.nprim };

    ghost claims_of = { λ context. context.taken };

    fn name(view: &CommonView<'a>) -> &'a [u8] {
        view.name()
    }

    fn value(view: &CommonView<'a>) -> u32 {
        view.value()
    }

    fn is_primary(_view: &CommonView<'a>) -> bool {
        true
    }

    ghost fresh = { λ context. common_is_fresh context.taken context.nprim };

    ghost claimed = { λ context common. (refl, refl) };
}
