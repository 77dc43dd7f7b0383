//! The kind of the records of the table of sensitivities.

use crate::datum::{Datum, DatumKind};
use crate::flags::is_primary_flag;
use crate::sensitivity_rec::SensitivityRec;
use crate::sensitivity_view::{SensitivityView, read_sensitivity};
use pol_cursor::{Cursor, string_in, u32_in};
use pol_fields::Fault;
use pol_symtab::TableContext;

/// The kind of sensitivities. Aliases are among them.
pub type Sensitivity = DatumKind<SensitivityRec>;

impl Datum for SensitivityRec {
    ghost use Rattle.pol_datums.specs.Flags.{is_primary_flag};
    ghost use Rattle.pol_datums.specs.SensitivityRecord.{sensitivity_at, sensitivity_in, HasSensitivity, SensitivityFits};
    ghost use Rattle.pol_datums.specs.Inner.DatumFreshness.{sensitivity_is_fresh};

    ghost standing = { sensitivity_in };

    ghost has = { HasSensitivity };

    ghost reads = { sensitivity_at };

    ghost name_of = { λ level. level.name };

    ghost value_of = { λ level. level.sens };

    ghost is_primary = { λ level. is_primary_flag level.isalias };

    ghost fits = { SensitivityFits };

    fn read<'a>(
        c: &mut Cursor<'a>,
        context: &TableContext<'a>,
    ) -> Result<SensitivityView<'a>, Fault> {
        read_sensitivity(c, &context.taken, context.nprim)
    }

    fn name<'a>(view: &SensitivityView<'a>) -> &'a [u8] {
        let len = u32_in(view.bytes, view.place as usize);
        string_in(view.bytes, view.place as usize + 8, len as usize)
    }

    fn value(view: &SensitivityView<'_>) -> u32 {
        view.sens()
    }

    fn is_primary(view: &SensitivityView<'_>) -> bool {
        is_primary_flag(view.isalias())
    }

    ghost fresh = { sensitivity_is_fresh };
}
