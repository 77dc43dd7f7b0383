//! The kind of the records of the table of roles.

use crate::datum::{Datum, DatumKind};
use crate::role_rec::RoleRec;
use crate::role_view::{RoleView, read_role};
use pol_cursor::{Cursor, string_in, u32_in};
use pol_fields::Fault;
use pol_symtab::TableContext;

/// The kind of roles. Each of them is primary.
pub type Role = DatumKind<RoleRec>;

impl Datum for RoleRec {
    ghost use Rattle.std.specs.Prelude.{true};
    ghost use Rattle.pol_datums.specs.RoleRecord.{role_at, role_in, HasRole, RoleFits};
    ghost use Rattle.pol_datums.specs.Inner.DatumFreshness.{role_is_fresh};

    ghost standing = { role_in };

    ghost has = { HasRole };

    ghost reads = { role_at };

    ghost name_of = { λ role. role.name };

    ghost value_of = { λ role. role.value };

    ghost is_primary = { λ role. true };

    ghost fits = { RoleFits };

    fn read<'a>(c: &mut Cursor<'a>, context: &TableContext<'a>) -> Result<RoleView<'a>, Fault> {
        read_role(c, &context.taken, context.nprim)
    }

    fn name<'a>(view: &RoleView<'a>) -> &'a [u8] {
        let len = u32_in(view.bytes, view.place as usize);
        string_in(view.bytes, view.place as usize + 12, len as usize)
    }

    fn value(view: &RoleView<'_>) -> u32 {
        u32_in(view.bytes, view.place as usize + 4)
    }

    fn is_primary(_view: &RoleView<'_>) -> bool {
        true
    }

    ghost fresh = { role_is_fresh };
}
