//! The kind of the records of the table of types.

use crate::causes::is_primary_type;
use crate::datum::{Datum, DatumKind};
use crate::type_rec::TypeRec;
use crate::type_view::{TypeView, read_type};
use pol_cursor::{Cursor, string_in, u32_in};
use pol_fields::Fault;
use pol_symtab::TableContext;

/// The kind of types. Attributes and aliases are among them.
pub type Type = DatumKind<TypeRec>;

impl Datum for TypeRec {
    ghost use Rattle.pol_datums.specs.TypeRecord.{type_at, type_in, HasType, TypeFits, is_primary_type};
    ghost use Rattle.pol_datums.specs.Inner.DatumFreshness.{type_is_fresh};

    ghost standing = { type_in };

    ghost has = { HasType };

    ghost reads = { type_at };

    ghost name_of = { λ t. t.name };

    ghost value_of = { λ t. t.value };

    ghost is_primary = { λ t. is_primary_type t.properties };

    ghost fits = { TypeFits };

    fn read<'a>(c: &mut Cursor<'a>, context: &TableContext<'a>) -> Result<TypeView<'a>, Fault> {
        read_type(c, &context.taken, context.nprim)
    }

    fn name<'a>(view: &TypeView<'a>) -> &'a [u8] {
        let len = u32_in(view.bytes, view.place as usize);
        string_in(view.bytes, view.place as usize + 16, len as usize)
    }

    fn value(view: &TypeView<'_>) -> u32 {
        u32_in(view.bytes, view.place as usize + 4)
    }

    fn is_primary(view: &TypeView<'_>) -> bool {
        is_primary_type(view.properties())
    }

    ghost fresh = { type_is_fresh };
}
